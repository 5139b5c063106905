//! Calls of hx_fetch.

use hx_ast::{Fetch, Items};
use hx_cases_base::{CaseFault, State, address, byte, show_all, show_occurrence, signed, variable};
use hx_fetch::{World, chosen, occurrences};
use hx_text::Octets;
use hx_words::{Call, calls};
use std::alloc::Global;

/// `fetch FETCH ..`: of each fetch the occurrences, and after `>` the one that an expression takes.
pub fn fetch_case(
    alloc: Global,
    state: &State,
    out: &mut String,
    args: &[Vec<u8>],
) -> Result<(), CaseFault> {
    let Some(message) = &state.message else {
        return Err(CaseFault::BadArguments);
    };
    let mut fetches: Items<Fetch> = Items::new(alloc);
    for spelled in args {
        fetches.push(spelled_fetch(alloc, spelled.as_slice())?)?;
    }
    let world = World {
        message,
        conn: &state.conn,
        vars: &state.vars,
    };
    show_fetches(alloc, out, &world, fetches.as_slice())
}

fn show_fetches(
    alloc: Global,
    out: &mut String,
    world: &World<'_>,
    fetches: &[Fetch],
) -> Result<(), CaseFault> {
    for fetch in fetches {
        show_all(out, occurrences(alloc, fetch, world)?, 16_777_216)?;
        out.push('>')?;
        show_occurrence(out, &chosen(alloc, fetch, world)?)?;
    }
    Ok(())
}

/// The fetch that a call spells.
fn spelled_fetch(alloc: Global, spelled: &[u8]) -> Result<Fetch, CaseFault> {
    let Ok(calls) = calls(alloc, spelled, None) else {
        return Err(CaseFault::BadArguments);
    };
    let call = calls.call(0).ok_or(CaseFault::BadArguments)?;
    match call.arg(0) {
        None => fetch_alone(call),
        Some(arg) => fetch_with(alloc, call, arg),
    }
}

/// The fetch of this name without arguments.
fn fetch_alone(call: &Call) -> Result<Fetch, CaseFault> {
    match call.name() {
        b"always_true" => Ok(Fetch::AlwaysTrue),
        b"always_false" => Ok(Fetch::AlwaysFalse),
        b"src" => Ok(Fetch::Src),
        b"dst" => Ok(Fetch::Dst),
        b"src_port" => Ok(Fetch::SrcPort),
        b"dst_port" => Ok(Fetch::DstPort),
        b"method" => Ok(Fetch::Method),
        b"req.ver" => Ok(Fetch::ReqVer),
        b"path" => Ok(Fetch::Path),
        b"query" => Ok(Fetch::Query),
        b"url" => Ok(Fetch::Url),
        b"base" => Ok(Fetch::Base),
        b"hdr_cnt" => Ok(Fetch::ReqHdrCnt(None)),
        b"cook" => Ok(Fetch::ReqCook(None)),
        b"cook_cnt" => Ok(Fetch::ReqCookCnt(None)),
        b"url_param" => Ok(Fetch::UrlParam(None, None)),
        _ => Err(CaseFault::BadArguments),
    }
}

/// The number of an occurrence, if it is given.
fn number_of_occurrence(call: &Call) -> Result<Option<i64>, CaseFault> {
    match call.arg(1) {
        Some(text) => Ok(Some(signed(text)?)),
        None => Ok(None),
    }
}

/// The delimiter of parameters, if it is given.
fn delimiter(call: &Call) -> Result<Option<u8>, CaseFault> {
    match call.arg(1) {
        Some(text) => byte(text),
        None => Ok(None),
    }
}

/// The fetch of this name with a first argument.
fn fetch_with(alloc: Global, call: &Call, arg: &[u8]) -> Result<Fetch, CaseFault> {
    let at = call.name();
    if at == b"bool".as_slice() {
        return Ok(Fetch::Bool(arg == b"true".as_slice()));
    }
    if at == b"int".as_slice() {
        return Ok(Fetch::Int(signed(arg)?));
    }
    if at == b"ipv4".as_slice() {
        return Ok(Fetch::Ipv4(address(arg)?));
    }
    if at == b"ipv6".as_slice() {
        return Ok(Fetch::Ipv6(address(arg)?));
    }
    if at == b"var".as_slice() {
        let default = match call.arg(1) {
            Some(text) => Some(Octets::copy(alloc, text)?),
            None => None,
        };
        return Ok(Fetch::Var(variable(alloc, arg)?, default));
    }
    named_fetch(call, Octets::copy(alloc, arg)?)
}

/// The fetch of this name with a text or a name of something as its first argument.
fn named_fetch(call: &Call, arg: Octets) -> Result<Fetch, CaseFault> {
    match call.name() {
        b"str" => Ok(Fetch::Str(arg)),
        b"bin" => Ok(Fetch::Bin(arg)),
        b"hdr" => Ok(Fetch::ReqHdr(arg, number_of_occurrence(call)?)),
        b"fhdr" => Ok(Fetch::ReqFhdr(arg, number_of_occurrence(call)?)),
        b"hdr_ip" => Ok(Fetch::ReqHdrIp(arg, number_of_occurrence(call)?)),
        b"hdr_val" => Ok(Fetch::ReqHdrVal(arg, number_of_occurrence(call)?)),
        b"hdr_cnt" => Ok(Fetch::ReqHdrCnt(Some(arg))),
        b"cook" => Ok(Fetch::ReqCook(Some(arg))),
        b"cook_cnt" => Ok(Fetch::ReqCookCnt(Some(arg))),
        b"url_param" => Ok(Fetch::UrlParam(Some(arg), delimiter(call)?)),
        _ => Err(CaseFault::BadArguments),
    }
}
