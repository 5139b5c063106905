//! hxtrace: replays recorded traffic, requests and management commands, through the rules of an
//! HAProxy configuration, and tells of each request why it has its verdict.
//!
//! ```text
//! $ cat deny.cfg
//! http-request deny if { path /admin }
//! $ hxtrace trace deny.cfg < record
//! 1 pass -
//! > 0 0
//! 2 deny 403
//! > 1 1 #0/0x0000000000000001
//! ```
#![tactic(auto)]

use hx_outside::{DirFiles, PlainMaker, StdSink, StdSource};
use hx_program::{
    KnownFiles, MachineArguments, MachineEntries, Watched, arguments, environment, is_help,
    is_version, say, version,
};
use hx_replay::RecentRecord;
use hx_trace_run::explain::USAGE;
use hx_trace_run::run_trace_to_end;
use hx_trace_run::tell::tell;
use std::io::writer;
use std::process::ExitCode;

fn main(rt: HostRuntime) -> ExitCode {
    let alloc = rt.alloc();
    let (Ok(words), Ok(env)) = (
        arguments(alloc, &MachineArguments(&rt)),
        environment(alloc, &MachineEntries(&rt)),
    ) else {
        let _ = eprintln!(rt; "hxtrace: the command line and the environment can't be taken in");
        return ExitCode::from(7);
    };
    match words.as_slice() {
        [word] if is_help(word) => say_of_itself(&rt, &[USAGE]),
        [word] if is_version(word) => say_of_itself(&rt, &version(b"hxtrace", &env)),
        _ => run_command(&rt, &words, &env),
    }
}

/// Writes what the program says of itself to standard output.
fn say_of_itself(rt: &HostRuntime, parts: &[&[u8]]) -> ExitCode {
    ExitCode::from(say(&mut StdSink::new(writer(rt)), parts))
}

/// Runs the command that the words are over the machine's files and streams. Why it ended, if not
/// well, is told on standard error, but where the reader of the answers has gone: it knows.
fn run_command(rt: &HostRuntime, words: &[Vec<u8>], env: &[(Vec<u8>, Vec<u8>)]) -> ExitCode {
    let alloc = rt.alloc();
    let mut files = KnownFiles::new(DirFiles::new(rt));
    let mut record = RecentRecord::new(alloc, StdSource::new(rt.reader()));
    let mut watched = Watched::new(writer(rt));
    let mut out = StdSink::new(&mut watched);
    let mut maker = PlainMaker::new();
    let ended = run_trace_to_end(
        alloc,
        words,
        env,
        &mut files,
        &mut record,
        &mut out,
        &mut maker,
    );
    if !watched.is_alone() {
        let mut err = StdSink::new(rt.stderr());
        let large = maker.large_text().unwrap_or(b"");
        tell(alloc, &mut err, ended, words, env, files, &record, large);
    }
    ExitCode::from(ended.status)
}
