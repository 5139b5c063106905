//! The references that the lines of a configuration bring, with their heads.

use hx_cases_base::{CaseFault, show};
use hx_cases_syntax::method_word;
use hx_spell::{HeadSpec, TableSpec, TableSpecs};
use std::fmt::Write;

/// Writes which types the values of a reference are read as.
fn show_outputs(out: &mut String, spec: &TableSpec) -> Result<(), CaseFault> {
    if spec.out_str {
        out.push_str(" str")?;
    }
    if spec.out_int {
        out.push_str(" int")?;
    }
    if spec.out_ip {
        out.push_str(" ip")?;
    }
    Ok(())
}

/// Writes what a reference is used for.
fn show_reference_uses(out: &mut String, spec: &TableSpec) -> Result<(), CaseFault> {
    if spec.two_column {
        out.push_str(" two")?;
    }
    if spec.acl {
        out.push_str(" acl")?;
    }
    if spec.named {
        out.push_str(" named")?;
    }
    show_outputs(out, spec)
}

/// Writes the line of a reference, its file or `inline`, its number if it is given one, what it is
/// used for, and its inline patterns.
fn show_reference(out: &mut String, spec: &TableSpec) -> Result<(), CaseFault> {
    let line = spec.line;
    write!(out, "{line} ")?;
    match &spec.file {
        Some(name) => show(out, name.as_slice())?,
        None => out.push_str("inline")?,
    }
    if let Some(number) = spec.given {
        write!(out, " -u {number}")?;
    }
    show_reference_uses(out, spec)?;
    for word in spec.inline.as_slice() {
        show(out, word.as_slice())?;
    }
    Ok(out.push('|')?)
}

fn show_head(out: &mut String, head: HeadSpec) -> Result<(), CaseFault> {
    let (table, by) = (head.table, method_word(head.by));
    let case = if head.ci { "-i" } else { "" };
    Ok(write!(out, "{table} {by}{case}|")?)
}

/// Writes references, and after > the heads, each with the position of its reference.
pub fn show_tables(out: &mut String, tables: &TableSpecs) -> Result<(), CaseFault> {
    for spec in tables.as_slice() {
        show_reference(out, spec)?;
    }
    out.push('>')?;
    for head in tables.heads_as_slice() {
        show_head(out, *head)?;
    }
    Ok(())
}
