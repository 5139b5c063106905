//! Calls of hx_spell: what the lines of a configuration spell.

use crate::references::show_tables;
use hx_ast::Statement;
use hx_cases_base::CaseFault;
use hx_cases_syntax::show_statement;
use hx_spell::{SpellFault, Speller};
use hx_words::split;
use std::alloc::Global;
use std::fmt::Write;

/// A speller before the first line.
pub fn new_speller(alloc: Global) -> Result<Speller, CaseFault> {
    match Speller::new(alloc) {
        Ok(speller) => Ok(speller),
        Err(_) => Err(CaseFault::NoMemory),
    }
}

/// The statement that a line spells; or none, where the code of its fault is written.
pub fn spelled(
    alloc: Global,
    out: &mut String,
    speller: &mut Speller,
    number: u64,
    line: &[u8],
) -> Result<Option<Statement>, CaseFault> {
    let env = Vec::new(alloc);
    let Ok(words) = split(alloc, &env, line) else {
        return Err(CaseFault::BadArguments);
    };
    match speller.line(number, &words) {
        Ok(statement) => Ok(Some(statement)),
        Err(SpellFault::Code(code)) => {
            write!(out, "fault {code}|")?;
            Ok(None)
        }
        Err(SpellFault::NoMemory) => Err(CaseFault::NoMemory),
    }
}

fn show_and_bar(out: &mut String, statement: &Statement) -> Result<(), CaseFault> {
    show_statement(out, statement)?;
    Ok(out.push('|')?)
}

/// Writes the statement that a line spells and a bar, or the code of its fault.
fn show_line(
    alloc: Global,
    out: &mut String,
    speller: &mut Speller,
    number: u64,
    line: &[u8],
) -> Result<(), CaseFault> {
    match spelled(alloc, out, speller, number, line)? {
        Some(statement) => show_and_bar(out, &statement),
        None => Ok(()),
    }
}

/// `statements LINE ..`: the statement that each line of a configuration spells, or the code of its
/// fault, and after > the references of all lines, and the heads by which these are searched.
pub fn statements_case(alloc: Global, out: &mut String, args: &[Vec<u8>]) -> Result<(), CaseFault> {
    let mut speller = new_speller(alloc)?;
    for (i, line) in args.iter().enumerate() {
        show_line(alloc, out, &mut speller, i as u64 + 1, line.as_slice())?;
    }
    out.push('>')?;
    show_tables(out, &speller.tables())
}
