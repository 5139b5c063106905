use crate::command::{Command, Task, command_of};
use hx_outside::{Sink, SinkFault, write_all};

/// What hxconfig takes, and how it ends.
pub const USAGE: &[u8] = b"usage: hxconfig frontends FILE\n\
    \x20      hxconfig frontend NAME FILE [--tls PORT]\n\
    \x20      hxconfig lint CONFIG\n\
    \x20      hxconfig --help\n\
    \x20      hxconfig --version\n\
    \n\
    frontends writes which frontends and listen sections the configuration FILE of HAProxy\n\
    has, each with the number of its line. frontend writes the configuration of one of them\n\
    for hxeval, every line at its number, and on standard error what became of its lines.\n\
    PORT is the port at which TLS comes in, and stands for ssl_fc. lint writes what there is\n\
    to tell of a configuration of hxeval: lines that aren't taken, lines that HAProxy answers\n\
    otherwise, and variables that no line sets.\n\
    \n\
    Exit status: 0 done, 1 lint has told something, 2 wrong words, 3 no such frontend, 5 FILE\n\
    can't be read, 6 the answer can't be written, 7 out of memory.\n";

/// Writes to `err`, in plain words for a person, why a run of these words ended with this status;
/// of status 0 and 1, nothing.
pub fn explain<K: Sink>(err: &mut K, status: u8, words: &[Vec<u8>]) -> Result<(), SinkFault> {
    match status {
        0 | 1 => Ok(()),
        6 => write_all(
            err,
            b"hxconfig: standard output or standard error can't be written\n",
        ),
        7 => write_all(err, b"hxconfig: out of memory\n"),
        _ => match command_of(words) {
            Some(command) => explain_command(err, status, command),
            None => write_all(err, USAGE),
        },
    }
}

/// The same of a command that ended with status 3 or 5.
fn explain_command<K: Sink>(
    err: &mut K,
    status: u8,
    command: Command<'_>,
) -> Result<(), SinkFault> {
    write_all(err, b"hxconfig: ")?;
    write_all(err, command.file)?;
    match (status, command.task) {
        (3, Task::Frontend { name, .. }) => {
            write_all(err, b" has no frontend and no listen section ")?;
            write_all(err, name)?;
            write_all(err, b"\n")
        }
        _ => write_all(err, b" can't be read\n"),
    }
}
