//! How converters are written.

use crate::words::{
    method_word, output_word, show_optional, show_text, show_texts, show_variable, show_word_of,
};
use hx_ast::{Conv, Val};
use hx_cases_base::{CaseFault, show};
use hx_text::{Octets, VarName};
use std::fmt::Write;

/// The word for a converter that takes no arguments.
fn word_alone(conv: &Conv) -> Option<&'static str> {
    match conv {
        Conv::Lower => Some("Lower"),
        Conv::Upper => Some("Upper"),
        Conv::Length => Some("Length"),
        Conv::CutCrlf => Some("CutCrlf"),
        Conv::Bool => Some("Bool"),
        Conv::Even => Some("Even"),
        Conv::Odd => Some("Odd"),
        Conv::Not => Some("Not"),
        Conv::Neg => Some("Neg"),
        Conv::Cpl => Some("Cpl"),
        Conv::Base64 => Some("Base64"),
        Conv::Ub64enc => Some("Ub64enc"),
        Conv::B64dec => Some("B64dec"),
        Conv::Ub64dec => Some("Ub64dec"),
        Conv::Hex => Some("Hex"),
        Conv::Hex2i => Some("Hex2i"),
        _ => None,
    }
}

fn show_operand(out: &mut String, word: &str, operand: &Val) -> Result<(), CaseFault> {
    match operand {
        Val::Number(number) => Ok(write!(out, "{word}({number})")?),
        Val::Var(variable) => show_word_of(out, word, variable),
    }
}

/// Writes a converter that counts pieces between delimiters.
fn show_pieces(
    out: &mut String,
    word: &str,
    index: i64,
    delimiters: &Octets,
    count: Option<i64>,
) -> Result<(), CaseFault> {
    write!(out, "{word}({index}, ")?;
    show(out, delimiters.as_slice())?;
    Ok(write!(out, ", {count:?})")?)
}

fn show_concat(
    out: &mut String,
    start: &Option<Octets>,
    variable: &Option<VarName>,
    end: &Option<Octets>,
) -> Result<(), CaseFault> {
    out.push_str("Concat(")?;
    show_optional(out, start)?;
    out.push_str(", ")?;
    match variable {
        Some(variable) => show_variable(out, variable)?,
        None => out.push_str("None")?,
    }
    out.push_str(", ")?;
    show_optional(out, end)?;
    Ok(out.push(')')?)
}

/// Writes a converter that takes a number or a variable.
fn show_of_operand(out: &mut String, conv: &Conv) -> Result<(), CaseFault> {
    match conv {
        Conv::Add(operand) => show_operand(out, "Add", operand),
        Conv::Sub(operand) => show_operand(out, "Sub", operand),
        Conv::Mul(operand) => show_operand(out, "Mul", operand),
        Conv::Div(operand) => show_operand(out, "Div", operand),
        Conv::Mod(operand) => show_operand(out, "Mod", operand),
        Conv::And(operand) => show_operand(out, "And", operand),
        Conv::Or(operand) => show_operand(out, "Or", operand),
        Conv::Xor(operand) => show_operand(out, "Xor", operand),
        _ => Ok(()),
    }
}

/// Writes a converter that takes texts.
fn show_of_texts(out: &mut String, conv: &Conv) -> Result<(), CaseFault> {
    match conv {
        Conv::Field(index, delimiters, count) => {
            show_pieces(out, "Field", *index, delimiters, *count)
        }
        Conv::Word(index, delimiters, count) => {
            show_pieces(out, "Word", *index, delimiters, *count)
        }
        Conv::Ltrim(bytes) => show_text(out, "Ltrim", bytes),
        Conv::Rtrim(bytes) => show_text(out, "Rtrim", bytes),
        Conv::Iif(first, second) => show_texts(out, "Iif", first, second),
        Conv::Concat(start, variable, end) => show_concat(out, start, variable, end),
        Conv::Regsub(pattern, text, all, ci) => {
            show_texts(out, "Regsub", pattern, text)?;
            Ok(write!(out, " {all} {ci}")?)
        }
        Conv::Map(table, by, kind, default) => {
            let (by, kind) = (method_word(*by), output_word(*kind));
            write!(out, "Map({table}, {by}, {kind}, ")?;
            show_optional(out, default)?;
            Ok(out.push(')')?)
        }
        _ => show_of_operand(out, conv),
    }
}

/// Writes a converter with its arguments.
pub(crate) fn show_conv(out: &mut String, conv: &Conv) -> Result<(), CaseFault> {
    if let Some(word) = word_alone(conv) {
        return Ok(out.push_str(word)?);
    }
    match conv {
        Conv::Bytes(offset, count) => Ok(write!(out, "Bytes({offset}, {count:?})")?),
        Conv::Strcmp(variable) => show_word_of(out, "Strcmp", variable),
        Conv::UrlDec(flag) => Ok(write!(out, "UrlDec({flag:?})")?),
        Conv::Ipmask(mask, other) => Ok(write!(out, "Ipmask({mask}, {other:?})")?),
        Conv::Sha2(bits) => Ok(write!(out, "Sha2({bits:?})")?),
        _ => show_of_texts(out, conv),
    }
}
