//! The calls, but for `sum` and `each`, which show what others answer.

use crate::answer::Answer;
use crate::case::Case;
use crate::hxdiff_runs::{ended_by_hxdiff, explained_by_hxdiff, run_hxdiff, told_by_hxdiff};
use crate::hxeval_runs::{explained_by_hxeval, run_hxeval, told_by_hxeval};
use crate::hxtrace_runs::{explained_by_hxtrace, run_hxtrace, told_by_hxtrace};
use crate::machine::Machine;
use crate::text::word_and_text;
use hx_cases_base::CaseFault;
use hx_outside::read_to_end;
use std::alloc::Global;

/// What a call answers.
pub fn called(alloc: Global, case: &Case, call: &[u8]) -> Result<Answer, CaseFault> {
    let (word, text) = word_and_text(call);
    match word {
        b"told" => told(alloc, case, text),
        b"names" => names(alloc, case, text),
        b"left" => left(alloc, case, text),
        b"command" => command(alloc, case, text),
        b"explained" => explained(alloc, text),
        _ => written(alloc, case, call),
    }
}

/// What the program finds that has this command over the configurations.
fn machine_of(alloc: Global, case: &Case, command: &[u8]) -> Result<Machine, CaseFault> {
    case.machine(alloc, case.words(alloc, command)?)
}

/// The status with which the program ends that has this command.
fn status_of(alloc: Global, command: &[u8], machine: &mut Machine) -> Result<u8, CaseFault> {
    match command {
        b"run" => Ok(run_hxeval(alloc, machine).status),
        b"check" => Ok(run_hxeval(alloc, machine).status),
        b"lines" => Ok(run_hxdiff(alloc, machine).status),
        b"lines --why" => Ok(run_hxdiff(alloc, machine).status),
        b"counts" => Ok(run_hxdiff(alloc, machine).status),
        b"trace" => Ok(run_hxtrace(alloc, machine).status),
        b"check t" => Ok(run_hxtrace(alloc, machine).status),
        _ => Err(CaseFault::UnknownCall),
    }
}

/// A command alone: what it writes.
fn written(alloc: Global, case: &Case, command: &[u8]) -> Result<Answer, CaseFault> {
    let mut machine = machine_of(alloc, case, command)?;
    let status = status_of(alloc, command, &mut machine)?;
    let text = machine.out.bytes().to_vec(alloc)?;
    Ok(Answer { status, text })
}

/// `told COMMAND`
fn told(alloc: Global, case: &Case, command: &[u8]) -> Result<Answer, CaseFault> {
    match command {
        b"run" => told_by_hxeval(alloc, machine_of(alloc, case, command)?),
        b"lines" => told_by_hxdiff(alloc, machine_of(alloc, case, command)?),
        b"trace" => told_by_hxtrace(alloc, machine_of(alloc, case, command)?),
        b"check t" => told_by_hxtrace(alloc, machine_of(alloc, case, command)?),
        _ => Err(CaseFault::UnknownCall),
    }
}

/// `names COMMAND`
fn names(alloc: Global, case: &Case, command: &[u8]) -> Result<Answer, CaseFault> {
    let mut machine = machine_of(alloc, case, command)?;
    let status = status_of(alloc, command, &mut machine)?;
    let text = names_read(alloc, machine)?;
    Ok(Answer { status, text })
}

/// The names of the files that were read, a line each.
fn names_read(alloc: Global, machine: Machine) -> Result<Vec<u8>, CaseFault> {
    let Machine { files, .. } = machine;
    let (files, _, _) = files.into_parts();
    let Some(log) = files.log() else {
        return Err(CaseFault::NoMemory);
    };
    let mut names = Vec::new(alloc);
    for name in log {
        names.extend_from_slice(name.as_slice())?;
        names.push(b'\n')?;
    }
    Ok(names)
}

/// `left COMMAND`
fn left(alloc: Global, case: &Case, command: &[u8]) -> Result<Answer, CaseFault> {
    let mut machine = machine_of(alloc, case, command)?;
    let status = status_of(alloc, command, &mut machine)?;
    let Ok(left) = read_to_end(alloc, &mut machine.record, 16_777_216) else {
        return Err(CaseFault::BadArguments);
    };
    let count = left.len();
    let text = format!(in alloc; "{count}")?;
    Ok(Answer {
        status,
        text: text.as_bytes().to_vec(alloc)?,
    })
}

/// `command WORD ..`
fn command(alloc: Global, case: &Case, text: &[u8]) -> Result<Answer, CaseFault> {
    let mut words = Vec::new(alloc);
    for word in text.split(|b| *b == b' ') {
        words.push(word.to_vec(alloc)?)?;
    }
    ended_by_hxdiff(alloc, case.machine(alloc, words)?)
}

/// `explained PROGRAM STATUS FAULT NUMBER CODE`
fn explained(alloc: Global, text: &[u8]) -> Result<Answer, CaseFault> {
    let (program, text) = word_and_text(text);
    match program {
        b"hxeval" => explained_by_hxeval(alloc, text),
        b"hxdiff" => explained_by_hxdiff(alloc, text),
        b"hxtrace" => explained_by_hxtrace(alloc, text),
        _ => Err(CaseFault::BadArguments),
    }
}
