//! Calls of hx_words.

use hx_cases_base::{CaseFault, byte, pairs, show};
use hx_words::{ArgFault, Call, CallStep, WordFault, calls, next_call, split};
use std::alloc::Global;
use std::fmt::Write;

/// `split ENVIRONMENT LINE`: the number of words, and the words; or the code of the fault.
pub fn split_case(alloc: Global, out: &mut String, args: &[Vec<u8>]) -> Result<(), CaseFault> {
    let [env, line] = args else {
        return Err(CaseFault::BadArguments);
    };
    let env = pairs(alloc, env.as_slice())?;
    match split(alloc, &env, line.as_slice()) {
        Ok(words) => {
            let len = words.len();
            write!(out, "{len}")?;
            for word in words.as_slice() {
                show(out, word.as_slice())?;
            }
            Ok(())
        }
        Err(WordFault::NoMemory) => Err(CaseFault::NoMemory),
        Err(fault) => show_code(out, fault.code()),
    }
}

fn show_code(out: &mut String, code: Option<u8>) -> Result<(), CaseFault> {
    match code {
        Some(code) => write!(out, "fault {code}")?,
        None => out.push_str("fault without a code")?,
    }
    Ok(())
}

/// Writes the name of a call, and its arguments in parentheses.
fn show_call(out: &mut String, call: &Call) -> Result<(), CaseFault> {
    show(out, call.name())?;
    let len = call.len();
    write!(out, "({len}")?;
    for i in 0..len {
        if let Some(arg) = call.arg(i) {
            show(out, arg)?;
        }
    }
    Ok(out.push(')')?)
}

/// `calls STOP TEXT`, where an empty STOP is none: the number of calls, the calls, and how many
/// bytes were read; or the code of the fault.
pub fn calls_case(alloc: Global, out: &mut String, args: &[Vec<u8>]) -> Result<(), CaseFault> {
    let [stop, text] = args else {
        return Err(CaseFault::BadArguments);
    };
    match calls(alloc, text.as_slice(), byte(stop.as_slice())?) {
        Ok(calls) => {
            let len = calls.len();
            write!(out, "{len}")?;
            for i in 0..len {
                if let Some(call) = calls.call(i) {
                    show_call(out, call)?;
                }
            }
            let used = calls.used();
            Ok(write!(out, " {used}")?)
        }
        Err(ArgFault::NoMemory) => Err(CaseFault::NoMemory),
        Err(fault) => show_code(out, fault.code()),
    }
}

/// `next_call STOP TEXT`, where an empty STOP is none: the call, and the bytes after it; or the
/// name and the code of the fault.
pub fn next_call_case(alloc: Global, out: &mut String, args: &[Vec<u8>]) -> Result<(), CaseFault> {
    let [stop, text] = args else {
        return Err(CaseFault::BadArguments);
    };
    match next_call(alloc, text.as_slice(), byte(stop.as_slice())?)? {
        CallStep::Last { call, rest } => {
            out.push_str("last ")?;
            show_call(out, &call)?;
            show(out, rest)
        }
        CallStep::More { call, rest } => {
            out.push_str("more ")?;
            show_call(out, &call)?;
            show(out, rest)
        }
        CallStep::Faulty { name, fault } => {
            show(out, name.as_slice())?;
            show_code(out, fault.code())
        }
    }
}
