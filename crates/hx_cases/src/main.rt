//! Cases of the crates below: reads calls with their arguments, a line each, from standard input,
//! and writes what each answers, a line each.
#![tactic(auto)]

mod dispatch;
mod edits;
mod fetch;
mod http;
mod lists;
mod machine;
mod outside;
mod record;
mod sample;
mod text;
mod texts;
mod words;

use crate::dispatch::LibraryCalls;
use hx_cases_base::{State, answers};
use hx_outside::{StdSink, StdSource, read_to_end, write_all};
use std::io::writer;
use std::process::ExitCode;

fn main(rt: HostRuntime) -> ExitCode {
    let alloc = rt.alloc();
    let Ok(text) = read_to_end(alloc, &mut StdSource::new(rt.reader()), 16_777_216) else {
        return ExitCode::from(5);
    };
    let mut calls = LibraryCalls {
        rt: &rt,
        state: State::new(alloc),
    };
    let Ok(out) = answers(alloc, &mut calls, text.as_slice()) else {
        return ExitCode::from(7);
    };
    match write_all(&mut StdSink::new(writer(&rt)), out.as_bytes()) {
        Ok(()) => ExitCode::from(0),
        Err(_) => ExitCode::from(6),
    }
}
