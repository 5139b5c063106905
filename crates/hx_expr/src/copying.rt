ghost use Rattle.std.specs.Prelude.{◌≡◌, IfOk};

use hx_ast::Fetch;
use hx_text::{NoMemory, Octets, VarName};
use std::alloc::Global;

/// The same bytes, if there are any.
pub(crate) fn copied_text(alloc: Global, text: &Option<Octets>) -> Result<Option<Octets>, NoMemory>
    ensures { IfOk result (λ copied. copied ≡ text.now) }
{
    match text {
        Some(text) => Ok(Some(Octets::copy(alloc, text.as_slice())?)),
        None => Ok(None),
    }
}

fn copied(alloc: Global, text: &Octets) -> Result<Octets, NoMemory>
    ensures { IfOk result (λ copied. copied ≡ text.now) }
{
    Octets::copy(alloc, text.as_slice())
}

fn copied_name(alloc: Global, name: &VarName) -> Result<VarName, NoMemory>
    ensures { IfOk result (λ copied. copied ≡ name.now) }
{
    Ok(VarName {
        scope: name.scope,
        name: copied(alloc, &name.name)?,
    })
}

/// The same fetch.
pub(crate) fn copied_fetch(alloc: Global, fetch: &Fetch) -> Result<Fetch, NoMemory>
    ensures { IfOk result (λ copied. copied ≡ fetch.now) }
{
    match fetch {
        Fetch::AlwaysTrue => Ok(Fetch::AlwaysTrue),
        Fetch::AlwaysFalse => Ok(Fetch::AlwaysFalse),
        Fetch::Bool(b) => Ok(Fetch::Bool(*b)),
        Fetch::Int(n) => Ok(Fetch::Int(*n)),
        Fetch::Str(text) => Ok(Fetch::Str(copied(alloc, text)?)),
        Fetch::Bin(bytes) => Ok(Fetch::Bin(copied(alloc, bytes)?)),
        Fetch::Ipv4(ip) => Ok(Fetch::Ipv4(*ip)),
        Fetch::Ipv6(ip) => Ok(Fetch::Ipv6(*ip)),
        Fetch::Var(name, default) => Ok(Fetch::Var(
            copied_name(alloc, name)?,
            copied_text(alloc, default)?,
        )),
        Fetch::Src => Ok(Fetch::Src),
        Fetch::Dst => Ok(Fetch::Dst),
        Fetch::SrcPort => Ok(Fetch::SrcPort),
        Fetch::DstPort => Ok(Fetch::DstPort),
        Fetch::Method => Ok(Fetch::Method),
        Fetch::ReqVer => Ok(Fetch::ReqVer),
        Fetch::Path => Ok(Fetch::Path),
        Fetch::Query => Ok(Fetch::Query),
        Fetch::Url => Ok(Fetch::Url),
        Fetch::Base => Ok(Fetch::Base),
        Fetch::ReqHdr(name, at) => Ok(Fetch::ReqHdr(copied(alloc, name)?, *at)),
        Fetch::ReqFhdr(name, at) => Ok(Fetch::ReqFhdr(copied(alloc, name)?, *at)),
        Fetch::ReqHdrIp(name, at) => Ok(Fetch::ReqHdrIp(copied(alloc, name)?, *at)),
        Fetch::ReqHdrVal(name, at) => Ok(Fetch::ReqHdrVal(copied(alloc, name)?, *at)),
        Fetch::ReqHdrCnt(name) => Ok(Fetch::ReqHdrCnt(copied_text(alloc, name)?)),
        Fetch::ReqCook(name) => Ok(Fetch::ReqCook(copied_text(alloc, name)?)),
        Fetch::ReqCookCnt(name) => Ok(Fetch::ReqCookCnt(copied_text(alloc, name)?)),
        Fetch::UrlParam(name, delim) => Ok(Fetch::UrlParam(copied_text(alloc, name)?, *delim)),
    }
}
