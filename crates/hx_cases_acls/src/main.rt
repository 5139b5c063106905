//! Cases of ACLs: reads calls with their arguments, a line each, from standard input, and writes
//! what each answers, a line each. The calls are of statements, of conditions over a request, of
//! the lines of files, and of the versions and entries of references.
#![tactic(auto)]

mod conditions;
mod descriptions;
mod entries;
mod references;
mod searches;
mod statements;
mod steps;
mod sums;
mod uses;

use crate::conditions::{grounds_case, holds_case};
use crate::entries::entries_case;
use crate::statements::statements_case;
use crate::steps::references_case;
use crate::sums::sums_case;
use hx_cases_base::{Calls, CaseFault, State, answers, connection_case, request_case, vars_case};
use hx_outside::{StdSink, StdSource, read_to_end, write_all};
use std::alloc::Global;
use std::io::writer;
use std::process::ExitCode;

/// Calls over what earlier lines left.
#[derive(Drop)]
struct AclCalls {
    state: State,
}

impl Calls for AclCalls {
    fn call(
        &mut self,
        alloc: Global,
        out: &mut String,
        name: &[u8],
        args: &[Vec<u8>],
    ) -> Result<(), CaseFault> {
        match name {
            b"vars" => vars_case(alloc, &mut self.state.vars, out, args),
            b"request" => request_case(alloc, &mut self.state, args),
            b"connection" => connection_case(&mut self.state, args),
            b"statements" => statements_case(alloc, out, args),
            b"holds" => holds_case(alloc, &self.state, out, args),
            b"grounds" => grounds_case(alloc, &self.state, out, args),
            b"entries" => entries_case(alloc, out, args),
            b"references" => references_case(alloc, out, args),
            b"sums" => sums_case(alloc, out, args),
            _ => Err(CaseFault::UnknownCall),
        }
    }
}

fn main(rt: HostRuntime) -> ExitCode {
    let alloc = rt.alloc();
    let Ok(text) = read_to_end(alloc, &mut StdSource::new(rt.reader()), 16_777_216) else {
        return ExitCode::from(5);
    };
    let mut calls = AclCalls {
        state: State::new(alloc),
    };
    let Ok(out) = answers(alloc, &mut calls, text.as_slice()) else {
        return ExitCode::from(7);
    };
    match write_all(&mut StdSink::new(writer(&rt)), out.as_bytes()) {
        Ok(()) => ExitCode::from(0),
        Err(_) => ExitCode::from(6),
    }
}
