//! Calls of hx_outside's makers of regular expressions, and of hx_conv_text's `expand`.

use hx_cases_base::{CaseFault, numbers, show_option};
use hx_conv_text::expand;
use hx_outside::{FailMaker, PatFault, PlainMaker, ReFault, ReMaker};
use hx_text::cut_at;
use regex::bytes::Regex;
use std::alloc::Global;
use std::fmt::Write;
use std::str;

/// Writes the fault of a pattern, and its code.
pub fn show_fault(out: &mut String, fault: PatFault) -> Result<(), CaseFault> {
    match fault.code() {
        Some(code) => Ok(write!(out, "{fault:?} {code}|")?),
        None => Err(CaseFault::NoMemory),
    }
}

fn show_match(alloc: Global, out: &mut String, re: &Regex, input: &[u8]) -> Result<(), CaseFault> {
    let mut matcher = re.matcher(alloc)?;
    match matcher.find(input) {
        Some(found) => {
            let (start, end) = (found.start(), found.end());
            Ok(write!(out, "{start}-{end}|")?)
        }
        None => Ok(out.push_str("none|")?),
    }
}

/// Makes the expression of `case:TEXT` or `nocase:TEXT`, and writes where it matches in the
/// inputs, or its fault as that of a pattern.
fn show_made<M: ReMaker>(
    alloc: Global,
    out: &mut String,
    maker: &mut M,
    spelled: &[u8],
    inputs: &[Vec<u8>],
) -> Result<(), CaseFault> {
    let (case, text) = cut_at(b':', spelled).ok_or(CaseFault::BadArguments)?;
    let ci = case == b"nocase".as_slice();
    let text = str::from_utf8(text).map_err(|_| CaseFault::BadArguments)?;
    match maker.make(alloc, text, ci) {
        Ok(re) => {
            for input in inputs {
                show_match(alloc, out, &re, input.as_slice())?;
            }
            Ok(())
        }
        Err(fault) => show_fault(out, PatFault::from(fault)),
    }
}

/// `make CASE:TEXT INPUT ..`: where the expression matches first in each input, or its fault.
pub fn make_case(alloc: Global, out: &mut String, args: &[Vec<u8>]) -> Result<(), CaseFault> {
    let [spelled, inputs @ ..] = args else {
        return Err(CaseFault::BadArguments);
    };
    let mut maker = PlainMaker::new();
    show_made(alloc, out, &mut maker, spelled.as_slice(), inputs)
}

/// `makes FAILS INPUT CASE:TEXT ..`: the same of each expression in one input, by a maker that
/// fails at chosen calls.
pub fn makes_case(alloc: Global, out: &mut String, args: &[Vec<u8>]) -> Result<(), CaseFault> {
    let [fails, input, texts @ ..] = args else {
        return Err(CaseFault::BadArguments);
    };
    let mut maker = FailMaker::new(numbers(alloc, fails.as_slice())?);
    let mut inputs = Vec::new(alloc);
    inputs.push(Vec::from_slice(alloc, input.as_slice())?)?;
    for spelled in texts {
        show_made(
            alloc,
            out,
            &mut maker,
            spelled.as_slice(),
            inputs.as_slice(),
        )?;
    }
    Ok(())
}

/// `large CASE:TEXT ..`: makes each expression, and gives the last text that was too large.
pub fn large_case(alloc: Global, out: &mut String, args: &[Vec<u8>]) -> Result<(), CaseFault> {
    let mut maker = PlainMaker::new();
    for spelled in args {
        show_made(alloc, out, &mut maker, spelled.as_slice(), &[])?;
    }
    show_option(out, maker.large_text())
}

/// `expand TEXT SUB INPUT`: what replaces the leftmost match of the expression.
pub fn expand_case(alloc: Global, out: &mut String, args: &[Vec<u8>]) -> Result<(), CaseFault> {
    let [text, sub, input] = args else {
        return Err(CaseFault::BadArguments);
    };
    let text = str::from_utf8(text.as_slice()).map_err(|_| CaseFault::BadArguments)?;
    match PlainMaker::new().make(alloc, text, false) {
        Ok(re) => {
            let made = expand(alloc, &re, sub.as_slice(), input.as_slice())?;
            show_option(out, made.as_ref().map(|made| made.as_slice()))
        }
        Err(fault) => show_fault(out, PatFault::from(fault)),
    }
}

fn show_code(out: &mut String, fault: PatFault) -> Result<(), CaseFault> {
    match fault.code() {
        Some(code) => Ok(write!(out, "[{code}]")?),
        None => Ok(out.push_str("[none]")?),
    }
}

/// `pattern_codes`: the code of each fault of a pattern, and of each of a regular expression as
/// one of a pattern, in the order of their declarations.
pub fn pattern_codes_case(out: &mut String, args: &[Vec<u8>]) -> Result<(), CaseFault> {
    let [] = args else {
        return Err(CaseFault::BadArguments);
    };
    for fault in [
        PatFault::BadInt,
        PatFault::BadRange,
        PatFault::BadAddress,
        PatFault::BadHex,
        PatFault::BadRegex,
        PatFault::TooLarge,
        PatFault::NotUtf8,
        PatFault::NoMemory,
    ] {
        show_code(out, fault)?;
    }
    for fault in [ReFault::BadRegex, ReFault::TooLarge, ReFault::NoMemory] {
        show_code(out, PatFault::from(fault))?;
    }
    Ok(())
}
