//! How fetches are written.

use crate::words::{show_optional, show_text, show_variable};
use hx_ast::Fetch;
use hx_cases_base::{CaseFault, show, show_address};
use hx_text::{Ip, Octets, VarName};
use std::fmt::Write;

/// The word for a fetch that takes no arguments.
fn word_alone(fetch: &Fetch) -> Option<&'static str> {
    match fetch {
        Fetch::AlwaysTrue => Some("AlwaysTrue"),
        Fetch::AlwaysFalse => Some("AlwaysFalse"),
        Fetch::Src => Some("Src"),
        Fetch::Dst => Some("Dst"),
        Fetch::SrcPort => Some("SrcPort"),
        Fetch::DstPort => Some("DstPort"),
        Fetch::Method => Some("Method"),
        Fetch::ReqVer => Some("ReqVer"),
        Fetch::Path => Some("Path"),
        Fetch::Query => Some("Query"),
        Fetch::Url => Some("Url"),
        Fetch::Base => Some("Base"),
        _ => None,
    }
}

fn show_ip(out: &mut String, word: &str, ip: Ip) -> Result<(), CaseFault> {
    out.push_str(word)?;
    out.push('(')?;
    show_address(out, ip)?;
    Ok(out.push(')')?)
}

/// Writes the fetch of an occurrence of a header.
fn show_header(
    out: &mut String,
    word: &str,
    name: &Octets,
    occurrence: Option<i64>,
) -> Result<(), CaseFault> {
    out.push_str(word)?;
    out.push('(')?;
    show(out, name.as_slice())?;
    Ok(write!(out, ", {occurrence:?})")?)
}

/// Writes a fetch for which a name may be given.
fn show_named(out: &mut String, word: &str, name: &Option<Octets>) -> Result<(), CaseFault> {
    out.push_str(word)?;
    out.push('(')?;
    show_optional(out, name)?;
    Ok(out.push(')')?)
}

/// Writes the fetch of a variable, with its default if there is one.
fn show_var(
    out: &mut String,
    variable: &VarName,
    default: &Option<Octets>,
) -> Result<(), CaseFault> {
    out.push_str("Var(")?;
    show_variable(out, variable)?;
    if let Some(text) = default {
        out.push_str(", ")?;
        show(out, text.as_slice())?;
    }
    Ok(out.push(')')?)
}

/// Writes a fetch that takes arguments and looks at a request.
fn show_of_request(out: &mut String, fetch: &Fetch) -> Result<(), CaseFault> {
    match fetch {
        Fetch::ReqHdr(name, at) => show_header(out, "ReqHdr", name, *at),
        Fetch::ReqFhdr(name, at) => show_header(out, "ReqFhdr", name, *at),
        Fetch::ReqHdrIp(name, at) => show_header(out, "ReqHdrIp", name, *at),
        Fetch::ReqHdrVal(name, at) => show_header(out, "ReqHdrVal", name, *at),
        Fetch::ReqHdrCnt(name) => show_named(out, "ReqHdrCnt", name),
        Fetch::ReqCook(name) => show_named(out, "ReqCook", name),
        Fetch::ReqCookCnt(name) => show_named(out, "ReqCookCnt", name),
        Fetch::UrlParam(name, delimiter) => {
            out.push_str("UrlParam(")?;
            show_optional(out, name)?;
            Ok(write!(out, ", {delimiter:?})")?)
        }
        _ => Ok(()),
    }
}

/// Writes a fetch with its arguments.
pub(crate) fn show_fetch(out: &mut String, fetch: &Fetch) -> Result<(), CaseFault> {
    if let Some(word) = word_alone(fetch) {
        return Ok(out.push_str(word)?);
    }
    match fetch {
        Fetch::Bool(b) => Ok(write!(out, "Bool({b})")?),
        Fetch::Int(n) => Ok(write!(out, "Int({n})")?),
        Fetch::Str(text) => show_text(out, "Str", text),
        Fetch::Bin(bytes) => show_text(out, "Bin", bytes),
        Fetch::Ipv4(ip) => show_ip(out, "Ipv4", *ip),
        Fetch::Ipv6(ip) => show_ip(out, "Ipv6", *ip),
        Fetch::Var(variable, default) => show_var(out, variable, default),
        _ => show_of_request(out, fetch),
    }
}
