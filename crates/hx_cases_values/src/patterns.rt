//! Calls of hx_match.

use crate::makers::show_fault;
use crate::methods::method;
use hx_cases_base::{CaseFault, sample};
use hx_match::{Pattern, hits, parse};
use hx_outside::PlainMaker;
use std::alloc::Global;

fn show_hits(
    alloc: Global,
    out: &mut String,
    pattern: &Pattern,
    samples: &[Vec<u8>],
) -> Result<(), CaseFault> {
    out.push_str("pattern|")?;
    for given in samples {
        let is_hit = hits(alloc, pattern, &sample(given.as_slice())?)?;
        out.push_str(if is_hit { "hit|" } else { "miss|" })?;
    }
    Ok(())
}

/// `hits METHOD CASE PATTERN SAMPLE ..`: which samples the text hits as a pattern, or why it is no
/// pattern. CASE is `case`, or `nocase` where case is ignored.
pub fn hits_case(alloc: Global, out: &mut String, args: &[Vec<u8>]) -> Result<(), CaseFault> {
    let [by, case, text, samples @ ..] = args else {
        return Err(CaseFault::BadArguments);
    };
    let by = method(by.as_slice())?;
    let ci = match case.as_slice() {
        b"case" => false,
        b"nocase" => true,
        _ => return Err(CaseFault::BadArguments),
    };
    match parse(alloc, by, ci, text.as_slice(), &mut PlainMaker::new()) {
        Ok(pattern) => show_hits(alloc, out, &pattern, samples),
        Err(fault) => show_fault(out, fault),
    }
}
