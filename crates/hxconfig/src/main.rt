//! hxconfig: takes one frontend out of a whole configuration of HAProxy, for hxeval.
//!
//! ```text
//! $ hxconfig frontends haproxy.cfg
//! 12 frontend www
//! 30 listen admin
//! $ hxconfig frontend www haproxy.cfg --tls 443 > www.cfg
//! hxconfig: haproxy.cfg:12: left out: it names the section
//! $ hxeval run www.cfg < record
//! ```
#![tactic(auto)]

use hx_config::explain::{USAGE, explain};
use hx_config::run::run;
use hx_outside::{DirFiles, StdSink};
use hx_program::{
    MachineArguments, MachineEntries, Watched, arguments, environment, is_help, is_version, say,
    version,
};
use std::io::writer;
use std::process::ExitCode;

fn main(rt: HostRuntime) -> ExitCode {
    let alloc = rt.alloc();
    let (Ok(words), Ok(env)) = (
        arguments(alloc, &MachineArguments(&rt)),
        environment(alloc, &MachineEntries(&rt)),
    ) else {
        let _ = eprintln!(rt; "hxconfig: the command line and the environment can't be taken in");
        return ExitCode::from(7);
    };
    match words.as_slice() {
        [word] if is_help(word) => say_of_itself(&rt, &[USAGE]),
        [word] if is_version(word) => say_of_itself(&rt, &version(b"hxconfig", &env)),
        _ => run_command(&rt, &words, &env),
    }
}

/// Writes what the program says of itself to standard output.
fn say_of_itself(rt: &HostRuntime, parts: &[&[u8]]) -> ExitCode {
    ExitCode::from(say(&mut StdSink::new(writer(rt)), parts))
}

/// Runs the command that the words are over the machine's files and streams. Why it ended, if not
/// well, is told on standard error, but where the reader of standard output has gone: it knows.
fn run_command(rt: &HostRuntime, words: &[Vec<u8>], env: &[(Vec<u8>, Vec<u8>)]) -> ExitCode {
    let mut files = DirFiles::new(rt);
    let mut watched = Watched::new(writer(rt));
    let mut out = StdSink::new(&mut watched);
    let mut notes = StdSink::new(rt.stderr());
    let status = run(rt.alloc(), words, env, &mut files, &mut out, &mut notes);
    if !watched.is_alone() {
        let _ = explain(&mut notes, status, words);
    }
    ExitCode::from(status)
}
