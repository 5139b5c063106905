//! How expressions, conditions, rules and statements are written.

use crate::convs::show_conv;
use crate::fetches::show_fetch;
use crate::words::{method_word, show_text, show_word_of};
use hx_ast::{AclUse, Action, Cond, Decl, Expr, Format, Part, RedirectKind, Rule, Statement, Term};
use hx_cases_base::{CaseFault, show};
use hx_text::Octets;
use std::fmt::Write;

/// Writes an expression: its fetch and its converters.
fn show_expr(out: &mut String, expr: &Expr) -> Result<(), CaseFault> {
    show_fetch(out, &expr.fetch)?;
    for conv in expr.convs.as_slice() {
        out.push(',')?;
        show_conv(out, conv)?;
    }
    Ok(())
}

/// Writes an ACL: its expression, its match method, `-i` where its inline patterns ignore case, its
/// heads, and its inline patterns.
fn show_decl(out: &mut String, decl: &Decl) -> Result<(), CaseFault> {
    show_expr(out, &decl.expr)?;
    let by = method_word(decl.by);
    let case = if decl.ci { "-i" } else { "" };
    write!(out, " {by}{case}")?;
    for head in decl.heads.as_slice() {
        write!(out, " {head}")?;
    }
    for word in decl.words.as_slice() {
        show(out, word.as_slice())?;
    }
    Ok(())
}

/// Writes a term: `!` where it is negated, and the name of its ACL or in parentheses the ACL.
fn show_term(out: &mut String, term: &Term) -> Result<(), CaseFault> {
    if term.negated {
        out.push('!')?;
    }
    match &term.acl {
        AclUse::Named(name) => show(out, name.as_slice()),
        AclUse::Own(decl) => {
            out.push('(')?;
            show_decl(out, decl)?;
            Ok(out.push(')')?)
        }
    }
}

/// Writes the terms of a conjunction, with a blank before each.
fn show_conj(out: &mut String, conj: &[Term]) -> Result<(), CaseFault> {
    for term in conj {
        out.push(' ')?;
        show_term(out, term)?;
    }
    Ok(())
}

/// Writes the conjunctions of a condition, with `or` between them.
fn show_cond(out: &mut String, cond: &Cond) -> Result<(), CaseFault> {
    let mut is_first = true;
    for conj in cond.as_slice() {
        if !is_first {
            out.push_str(" or")?;
        }
        is_first = false;
        show_conj(out, conj.as_slice())?;
    }
    Ok(())
}

/// Writes when a rule is taken.
fn show_when(out: &mut String, unless: bool, cond: &Option<Cond>) -> Result<(), CaseFault> {
    if unless {
        out.push_str(" unless")?;
    } else if cond.is_some() {
        out.push_str(" if")?;
    }
    match cond {
        Some(cond) => show_cond(out, cond),
        None => Ok(()),
    }
}

/// Writes an action with one format.
fn show_of_format(out: &mut String, word: &str, format: &Format) -> Result<(), CaseFault> {
    out.push_str(word)?;
    out.push('(')?;
    show_format(out, format)?;
    Ok(out.push(')')?)
}

/// Writes an action on the header of a name.
fn show_of_header(
    out: &mut String,
    word: &str,
    name: &Octets,
    format: &Format,
) -> Result<(), CaseFault> {
    out.push_str(word)?;
    out.push('(')?;
    show(out, name.as_slice())?;
    out.push_str(", ")?;
    show_format(out, format)?;
    Ok(out.push(')')?)
}

/// Writes an action that replaces what an expression matches in a header.
fn show_replacement(
    out: &mut String,
    word: &str,
    name: &Octets,
    pattern: &Octets,
    format: &Format,
) -> Result<(), CaseFault> {
    out.push_str(word)?;
    out.push('(')?;
    show(out, name.as_slice())?;
    out.push_str(", ")?;
    show(out, pattern.as_slice())?;
    out.push_str(", ")?;
    show_format(out, format)?;
    Ok(out.push(')')?)
}

/// Writes an action that changes a list, by the number of the head that it names.
fn show_change(out: &mut String, word: &str, head: u32, format: &Format) -> Result<(), CaseFault> {
    write!(out, "{word}({head}, ")?;
    show_format(out, format)?;
    Ok(out.push(')')?)
}

/// Writes an action on a part of the request.
fn show_rewrite(out: &mut String, action: &Action) -> Result<(), CaseFault> {
    match action {
        Action::SetHeader(name, format) => show_of_header(out, "SetHeader", name, format),
        Action::AddHeader(name, format) => show_of_header(out, "AddHeader", name, format),
        Action::DelHeader(name) => show_text(out, "DelHeader", name),
        Action::ReplaceHeader(name, pattern, format) => {
            show_replacement(out, "ReplaceHeader", name, pattern, format)
        }
        Action::ReplaceValue(name, pattern, format) => {
            show_replacement(out, "ReplaceValue", name, pattern, format)
        }
        Action::SetMethod(format) => show_of_format(out, "SetMethod", format),
        Action::SetUri(format) => show_of_format(out, "SetUri", format),
        Action::SetPath(format) => show_of_format(out, "SetPath", format),
        Action::SetQuery(format) => show_of_format(out, "SetQuery", format),
        _ => Ok(()),
    }
}

/// Writes an action with its arguments; a denial in small letters with its status.
fn show_action(out: &mut String, action: &Action) -> Result<(), CaseFault> {
    match action {
        Action::Allow => Ok(out.push_str("Allow")?),
        Action::Deny(None) => Ok(out.push_str("deny")?),
        Action::Deny(Some(status)) => Ok(write!(out, "deny {status}")?),
        Action::SetVar(variable, expr) => {
            show_word_of(out, "SetVar", variable)?;
            out.push('(')?;
            show_expr(out, expr)?;
            Ok(out.push(')')?)
        }
        Action::UnsetVar(variable) => show_word_of(out, "UnsetVar", variable),
        Action::AddAcl(head, format) => show_change(out, "AddAcl", *head, format),
        Action::DelAcl(head, format) => show_change(out, "DelAcl", *head, format),
        Action::DelMap(head, format) => show_change(out, "DelMap", *head, format),
        Action::SetMap(head, key, value) => {
            show_change(out, "SetMap", *head, key)?;
            show_of_format(out, "", value)
        }
        Action::Redirect(kind, format, code, drops_query) => {
            show_of_format(out, redirect_word(*kind), format)?;
            Ok(write!(out, " {code:?} {drops_query}")?)
        }
        Action::StrictMode(is_on) => Ok(write!(out, "StrictMode({is_on})")?),
        _ => show_rewrite(out, action),
    }
}

fn redirect_word(kind: RedirectKind) -> &'static str {
    match kind {
        RedirectKind::Location => "Location",
        RedirectKind::Prefix => "Prefix",
        RedirectKind::Scheme => "Scheme",
    }
}

/// Writes a rule: its line, what it does, and when.
fn show_rule(out: &mut String, rule: &Rule) -> Result<(), CaseFault> {
    let line = rule.line;
    write!(out, "{line} ")?;
    show_action(out, &rule.action)?;
    show_when(out, rule.unless, &rule.cond)
}

/// Writes the parts of a format: its texts in brackets, and its expressions in parentheses.
fn show_format(out: &mut String, format: &Format) -> Result<(), CaseFault> {
    for part in format.as_slice() {
        match part {
            Part::Text(text) => show(out, text.as_slice())?,
            Part::Value(expr) => {
                out.push('(')?;
                show_expr(out, expr)?;
                out.push(')')?;
            }
        }
    }
    Ok(())
}

/// Writes a statement.
pub fn show_statement(out: &mut String, statement: &Statement) -> Result<(), CaseFault> {
    match statement {
        Statement::Plain => out.push_str("plain")?,
        Statement::Acl { line, name, decl } => {
            write!(out, "{line} acl ")?;
            show(out, name.as_slice())?;
            out.push(' ')?;
            show_decl(out, decl)?;
        }
        Statement::Rule(rule) => show_rule(out, rule)?,
        Statement::Redirect(rule) => {
            out.push_str("then ")?;
            show_rule(out, rule)?;
        }
        Statement::Backend {
            line,
            format,
            unless,
            cond,
        } => {
            write!(out, "{line} backend ")?;
            show_format(out, format)?;
            show_when(out, *unless, cond)?;
        }
        Statement::Fallback { line, name } => {
            write!(out, "{line} fallback ")?;
            show(out, name.as_slice())?;
        }
    }
    Ok(())
}
