//! Cases of expressions and of what they are made of: reads calls with their arguments, a line
//! each, from standard input, and writes what each answers, a line each.
#![tactic(auto)]

mod expressions;
mod makers;
mod mapped;
mod methods;
mod patterns;
mod references;
mod texts;

use crate::expressions::{compile_case, conv_case, statement_case, value_case};
use crate::makers::{expand_case, large_case, make_case, makes_case, pattern_codes_case};
use crate::mapped::mapped_case;
use crate::patterns::hits_case;
use crate::references::added_case;
use crate::texts::texts_case;
use hx_cases_base::{Calls, CaseFault, State, answers, connection_case, request_case, vars_case};
use hx_outside::{StdSink, StdSource, read_to_end, write_all};
use std::alloc::Global;
use std::io::writer;
use std::process::ExitCode;

/// Calls of expressions, over what earlier lines left.
#[derive(Drop)]
struct ExpressionCalls {
    state: State,
}

impl Calls for ExpressionCalls {
    fn call(
        &mut self,
        alloc: Global,
        out: &mut String,
        name: &[u8],
        args: &[Vec<u8>],
    ) -> Result<(), CaseFault> {
        match name {
            b"vars" => vars_case(alloc, &mut self.state.vars, out, args),
            b"request" => request_case(alloc, &mut self.state, args),
            b"connection" => connection_case(&mut self.state, args),
            b"conv" => conv_case(alloc, &mut self.state, out, args),
            b"mapped" => mapped_case(alloc, &mut self.state, out, args),
            b"value" => value_case(alloc, &self.state, out, args),
            _ => maker_call(alloc, out, name, args),
        }
    }
}

/// Calls that need nothing of earlier lines.
fn maker_call(
    alloc: Global,
    out: &mut String,
    name: &[u8],
    args: &[Vec<u8>],
) -> Result<(), CaseFault> {
    match name {
        b"statement" => statement_case(alloc, out, args),
        b"compile" => compile_case(alloc, out, args),
        b"make" => make_case(alloc, out, args),
        b"makes" => makes_case(alloc, out, args),
        b"large" => large_case(alloc, out, args),
        b"expand" => expand_case(alloc, out, args),
        b"pattern_codes" => pattern_codes_case(out, args),
        b"texts" => texts_case(out, args),
        b"hits" => hits_case(alloc, out, args),
        b"added" => added_case(alloc, out, args),
        _ => Err(CaseFault::UnknownCall),
    }
}

fn main(rt: HostRuntime) -> ExitCode {
    let alloc = rt.alloc();
    let Ok(text) = read_to_end(alloc, &mut StdSource::new(rt.reader()), 16_777_216) else {
        return ExitCode::from(5);
    };
    let mut calls = ExpressionCalls {
        state: State::new(alloc),
    };
    let Ok(out) = answers(alloc, &mut calls, text.as_slice()) else {
        return ExitCode::from(7);
    };
    match write_all(&mut StdSink::new(writer(&rt)), out.as_bytes()) {
        Ok(()) => ExitCode::from(0),
        Err(_) => ExitCode::from(6),
    }
}
