//! Cases of explanations: reads calls with their arguments, a line each, from standard input, and
//! writes what each answers, a line each. The calls are over a configuration and its files:
//!
//! - `config TEXT` gives the configuration of the lines that follow, which has no files yet.
//! - `file NAME TEXT` gives it a file.
//! - `large NUMBERS` has the making of a regular expression fail as too large at these calls,
//!   counted from 1 in each line that follows; `-` for none.
//! - `lines` loads what the lines bring, without files, and answers how many references these are.
//! - `explain REQUEST` loads the configuration and explains the verdict of a request over its
//!   references: the verdict, the line, the conjunction, and each reason.
//! - `scan REQUEST` does the same over tables that look at all entries of each reference.
#![tactic(auto)]

mod explanations;
mod loading;
mod setting;
mod showing;

use crate::explanations::{Tabled, explanation_case};
use crate::loading::lines_case;
use crate::setting::{Setting, config_case, file_case, large_case};
use hx_cases_base::{Calls, CaseFault, answers};
use hx_outside::{StdSink, StdSource, read_to_end, write_all};
use std::alloc::Global;
use std::io::writer;
use std::process::ExitCode;

/// Calls over what earlier lines gave.
#[derive(Drop)]
struct TraceCalls {
    setting: Setting,
}

impl Calls for TraceCalls {
    fn call(
        &mut self,
        alloc: Global,
        out: &mut String,
        name: &[u8],
        args: &[Vec<u8>],
    ) -> Result<(), CaseFault> {
        match name {
            b"config" => config_case(alloc, &mut self.setting, args),
            b"file" => file_case(alloc, &mut self.setting, args),
            b"large" => large_case(alloc, &mut self.setting, args),
            b"lines" => lines_case(alloc, &self.setting, out, args),
            b"explain" => explanation_case(alloc, &self.setting, out, args, Tabled::Indexed),
            b"scan" => explanation_case(alloc, &self.setting, out, args, Tabled::Plain),
            _ => Err(CaseFault::UnknownCall),
        }
    }
}

fn main(rt: HostRuntime) -> ExitCode {
    let alloc = rt.alloc();
    let Ok(text) = read_to_end(alloc, &mut StdSource::new(rt.reader()), 16_777_216) else {
        return ExitCode::from(5);
    };
    let mut calls = TraceCalls {
        setting: Setting::new(alloc),
    };
    let Ok(out) = answers(alloc, &mut calls, text.as_slice()) else {
        return ExitCode::from(7);
    };
    match write_all(&mut StdSink::new(writer(&rt)), out.as_bytes()) {
        Ok(()) => ExitCode::from(0),
        Err(_) => ExitCode::from(6),
    }
}
