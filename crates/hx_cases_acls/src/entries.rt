//! Calls of hx_refs on the lines of files.

use hx_cases_base::{CaseFault, show_pair};
use hx_outside::PlainMaker;
use hx_refs::{Limits, Pairs, RefFault, Refs};
use std::alloc::Global;
use std::fmt::Write;

/// Writes what an addition answers, and says whether the entries were added.
pub fn show_added(out: &mut String, added: Result<(), RefFault>) -> Result<bool, CaseFault> {
    match added {
        Ok(()) => Ok(true),
        Err(fault) => {
            write!(out, "{fault:?}|")?;
            Ok(false)
        }
    }
}

/// Writes the keys and values of pairs.
fn show_pairs(alloc: Global, out: &mut String, pairs: &Pairs) -> Result<(), CaseFault> {
    let mut refs = Refs::new(alloc, Limits::usual());
    refs.add_ref(0, None, true, false)?;
    let added = refs.add_many(0, None, pairs, &mut PlainMaker::new());
    if !show_added(out, added)? {
        return Ok(());
    }
    for entry in refs.entries(0, None) {
        show_pair(out, entry.key, entry.value)?;
        out.push('|')?;
    }
    Ok(())
}

/// `entries COLUMNS TEXT`: the keys and values that the lines of a text give. COLUMNS is `one` for
/// a file of patterns, and `two` for a map.
pub fn entries_case(alloc: Global, out: &mut String, args: &[Vec<u8>]) -> Result<(), CaseFault> {
    let [columns, text] = args else {
        return Err(CaseFault::BadArguments);
    };
    let two_column = match columns.as_slice() {
        b"one" => false,
        b"two" => true,
        _ => return Err(CaseFault::BadArguments),
    };
    let pairs = Pairs::of_text(alloc, text.as_slice(), two_column)?;
    show_pairs(alloc, out, &pairs)
}
