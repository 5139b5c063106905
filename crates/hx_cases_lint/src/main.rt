//! Cases of lint and of hxconfig: reads calls with their arguments, a line each, from standard
//! input, and writes what each answers, a line each.
//!
//! `lint LINE..` is of a configuration of these lines, with the variable A of value `x`, and each
//! line of its answer ends with `;`. `many COUNT LINE ANSWER` says whether so many lines have so
//! many answers, where `@` is the number of a line.
//!
//! Lines of runs are read as they are. `file TEXT` is what the file `c` holds, where `~` stands for
//! a line feed and a backtick for a carriage return; below `lines` the lines of that file follow,
//! up to a run. `write N` lets the Nth write to either sink fail, which takes 16 bytes a write, in
//! the run that follows. `run WORDS` is a command line of hxconfig with the variable A of value
//! `x`, and its answer is `STATUS | TEXT | NOTES`. A line of `lines` answers what its run writes at
//! its number, and ` | NOTE` for each note of it without its place; its run then answers the text
//! and the notes that are left.
#![tactic(auto)]

mod runs;

use crate::runs::Runs;
use hx_cases_base::{Calls, CaseFault, answers, number};
use hx_lint::lint;
use hx_outside::{StdSink, StdSource, read_to_end, write_all};
use std::alloc::Global;
use std::fmt::Write;
use std::io::writer;
use std::process::ExitCode;
use std::str;

/// The calls of these cases.
#[derive(Drop)]
struct LintCalls {}

impl Calls for LintCalls {
    fn call(
        &mut self,
        alloc: Global,
        out: &mut String,
        name: &[u8],
        args: &[Vec<u8>],
    ) -> Result<(), CaseFault> {
        match name {
            b"lint" => lint_case(alloc, out, args),
            b"many" => many_case(alloc, out, args),
            _ => Err(CaseFault::UnknownCall),
        }
    }
}

/// The configuration of these lines.
fn config_of(alloc: Global, lines: &[Vec<u8>]) -> Result<Vec<u8>, CaseFault> {
    let mut config = Vec::new(alloc);
    for line in lines {
        config.extend_from_slice(line)?;
        config.push(b'\n')?;
    }
    Ok(config)
}

/// What there is to tell of a configuration.
fn told(alloc: Global, config: &[u8]) -> Result<Vec<u8>, CaseFault> {
    let env = vec![in alloc; (b"A".to_vec(alloc)?, b"x".to_vec(alloc)?)]?;
    Ok(lint(alloc, &env, config)?)
}

/// Writes what there is to tell of the configuration of these lines.
fn lint_case(alloc: Global, out: &mut String, lines: &[Vec<u8>]) -> Result<(), CaseFault> {
    let config = config_of(alloc, lines)?;
    let mut text = told(alloc, &config)?;
    for byte in &mut text {
        if *byte == b'\n' {
            *byte = b';';
        }
    }
    out.push_str(str::from_utf8(&text).map_err(|_| CaseFault::BadArguments)?)?;
    Ok(())
}

/// Appends a text as a line, with this number for each `@`.
fn push_numbered(
    alloc: Global,
    text: &mut Vec<u8>,
    line: &[u8],
    number: u64,
) -> Result<(), CaseFault> {
    let digits = format!(in alloc; "{number}")?;
    for byte in line {
        if *byte == b'@' {
            text.extend_from_slice(digits.as_bytes())?;
        } else {
            text.push(*byte)?;
        }
    }
    text.push(b'\n')?;
    Ok(())
}

/// So many lines, numbered from 1.
fn numbered(alloc: Global, count: u64, line: &[u8]) -> Result<Vec<u8>, CaseFault> {
    let mut text = Vec::new(alloc);
    for passed in 0..count {
        push_numbered(alloc, &mut text, line, passed.saturating_add(1))?;
    }
    Ok(text)
}

/// Writes whether so many lines have so many answers, and how long these are.
fn many_case(alloc: Global, out: &mut String, args: &[Vec<u8>]) -> Result<(), CaseFault> {
    let [count, line, answer] = args else {
        return Err(CaseFault::BadArguments);
    };
    let count = number(count.as_slice())?;
    let wanted = numbered(alloc, count, answer.as_slice())?;
    let given = told(alloc, &numbered(alloc, count, line.as_slice())?)?;
    let len = given.len();
    let verdict = if given == wanted { "yes" } else { "no" };
    Ok(write!(out, "{verdict}, {len} bytes")?)
}

/// The lines of a text with their answers.
fn answered(alloc: Global, text: &[u8]) -> Result<Vec<u8>, CaseFault> {
    let mut out = Vec::new(alloc);
    let mut runs = Runs::new(alloc);
    for line in text
        .strip_suffix(b"\n")
        .unwrap_or(text)
        .split(|b| *b == b'\n')
    {
        if !runs.take(alloc, &mut out, line)? {
            out.extend_from_slice(answers(alloc, &mut LintCalls {}, line)?.as_bytes())?;
        }
    }
    Ok(out)
}

fn main(rt: HostRuntime) -> ExitCode {
    let alloc = rt.alloc();
    let Ok(text) = read_to_end(alloc, &mut StdSource::new(rt.reader()), 16_777_216) else {
        return ExitCode::from(5);
    };
    let Ok(out) = answered(alloc, text.as_slice()) else {
        return ExitCode::from(7);
    };
    match write_all(&mut StdSink::new(writer(&rt)), out.as_slice()) {
        Ok(()) => ExitCode::from(0),
        Err(_) => ExitCode::from(6),
    }
}
