//! Words for parts of the syntax, and how texts and variables are written among them.

use hx_cases_base::{CaseFault, show};
use hx_text::{By, Octets, Out, Scope, VarName};

/// The word for a match method.
pub fn method_word(by: By) -> &'static str {
    match by {
        By::Found => "Found",
        By::Bool => "Bool",
        By::Int => "Int",
        By::Ip => "Ip",
        By::Bin => "Bin",
        By::Len => "Len",
        By::Str => "Str",
        By::Beg => "Beg",
        By::End => "End",
        By::Sub => "Sub",
        By::Dir => "Dir",
        By::Dom => "Dom",
        By::Reg => "Reg",
    }
}

/// The word for the type of a map's values.
pub(crate) fn output_word(kind: Out) -> &'static str {
    match kind {
        Out::Str => "Str",
        Out::Int => "Int",
        Out::Ip => "Ip",
    }
}

fn scope_word(scope: Scope) -> &'static str {
    match scope {
        Scope::Proc => "Proc",
        Scope::Sess => "Sess",
        Scope::Txn => "Txn",
        Scope::Req => "Req",
        Scope::Res => "Res",
    }
}

/// Writes the scope of a variable, and its name in brackets.
pub(crate) fn show_variable(out: &mut String, variable: &VarName) -> Result<(), CaseFault> {
    out.push_str(scope_word(variable.scope))?;
    show(out, variable.name.as_slice())
}

/// Writes a text in brackets, or that there is none.
pub(crate) fn show_optional(out: &mut String, text: &Option<Octets>) -> Result<(), CaseFault> {
    match text {
        Some(text) => show(out, text.as_slice()),
        None => Ok(out.push_str("None")?),
    }
}

/// Writes a word with one text.
pub(crate) fn show_text(out: &mut String, word: &str, text: &Octets) -> Result<(), CaseFault> {
    out.push_str(word)?;
    out.push('(')?;
    show(out, text.as_slice())?;
    Ok(out.push(')')?)
}

/// Writes a word with two texts.
pub(crate) fn show_texts(
    out: &mut String,
    word: &str,
    first: &Octets,
    second: &Octets,
) -> Result<(), CaseFault> {
    out.push_str(word)?;
    out.push('(')?;
    show(out, first.as_slice())?;
    out.push_str(", ")?;
    show(out, second.as_slice())?;
    Ok(out.push(')')?)
}

/// Writes a word with one variable.
pub(crate) fn show_word_of(
    out: &mut String,
    word: &str,
    variable: &VarName,
) -> Result<(), CaseFault> {
    out.push_str(word)?;
    out.push('(')?;
    show_variable(out, variable)?;
    Ok(out.push(')')?)
}
