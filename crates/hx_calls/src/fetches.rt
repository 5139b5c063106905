ghost use Rattle.std.specs.Prelude.{◌≡◌, Ok};
ghost use Rattle.hx_calls.specs.declared.fetches.FetchName.TheVariants as fetch_name;
ghost use Rattle.hx_calls.specs.Arguments.{made_by};
ghost use Rattle.hx_calls.specs.Codes.{AnswersAs};
ghost use Rattle.hx_calls.specs.Expressions.{fetch_made};
ghost use Rattle.hx_calls.specs.Tables.{entry_at, fetch_names, fetch_row};

use crate::arguments::{at_most_one, bare, counted, given, one_or_two, single};
use crate::fault::SpellFault;
use crate::forms::{
    Boolean, Byte, HeaderName, Hexadecimal, Index, Integer, Ipv4Address, Ipv6Address, Text,
    Variable,
};
use crate::lookup::lookup;
use hx_ast::Fetch;
use hx_words::Call;
use std::alloc::Global;

/// A fetch without its arguments. Names that HAProxy has for the same fetch stand for one.
#[derive(Clone, Copy, PartialEq, Eq)]
pub enum FetchName {
    AlwaysTrue,
    AlwaysFalse,
    Bool,
    Int,
    Str,
    Bin,
    Ipv4,
    Ipv6,
    Var,
    Src,
    Dst,
    SrcPort,
    DstPort,
    Method,
    ReqVer,
    Path,
    Query,
    Url,
    Base,
    ReqHdr,
    ReqFhdr,
    ReqHdrIp,
    ReqHdrVal,
    ReqHdrCnt,
    ReqCook,
    ReqCookCnt,
    UrlParam,
}

/// The names of fetches (HAProxy configuration manual 2.4, sections 7.3.2 to 7.3.6).
const FETCHES: [(&[u8], FetchName); 35] = [
    (b"always_true", FetchName::AlwaysTrue),
    (b"always_false", FetchName::AlwaysFalse),
    (b"bool", FetchName::Bool),
    (b"int", FetchName::Int),
    (b"str", FetchName::Str),
    (b"bin", FetchName::Bin),
    (b"ipv4", FetchName::Ipv4),
    (b"ipv6", FetchName::Ipv6),
    (b"var", FetchName::Var),
    (b"src", FetchName::Src),
    (b"dst", FetchName::Dst),
    (b"src_port", FetchName::SrcPort),
    (b"dst_port", FetchName::DstPort),
    (b"method", FetchName::Method),
    (b"req.ver", FetchName::ReqVer),
    (b"req_ver", FetchName::ReqVer),
    (b"path", FetchName::Path),
    (b"query", FetchName::Query),
    (b"url", FetchName::Url),
    (b"base", FetchName::Base),
    (b"req.hdr", FetchName::ReqHdr),
    (b"hdr", FetchName::ReqHdr),
    (b"req.fhdr", FetchName::ReqFhdr),
    (b"req.hdr_ip", FetchName::ReqHdrIp),
    (b"hdr_ip", FetchName::ReqHdrIp),
    (b"req.hdr_val", FetchName::ReqHdrVal),
    (b"hdr_val", FetchName::ReqHdrVal),
    (b"req.hdr_cnt", FetchName::ReqHdrCnt),
    (b"hdr_cnt", FetchName::ReqHdrCnt),
    (b"req.cook", FetchName::ReqCook),
    (b"cook", FetchName::ReqCook),
    (b"req.cook_cnt", FetchName::ReqCookCnt),
    (b"cook_cnt", FetchName::ReqCookCnt),
    (b"url_param", FetchName::UrlParam),
    (b"urlp", FetchName::UrlParam),
];

#[tactic(auto, unfolding(crate::specs::Tables::fetch_names))]
pub(crate) fn fetch_name(name: &[u8]) -> Option<FetchName>
    ensures { result ≡ entry_at fetch_names name.now }
{
    lookup(&FETCHES, name)
}

/// The fetch of this name with the arguments of the call.
pub(crate) fn fetch(alloc: Global, name: FetchName, call: &Call) -> Result<Fetch, SpellFault>
    ensures { AnswersAs result (fetch_made name call.now.args) }
{
    match name {
        FetchName::AlwaysTrue => bare(call, Fetch::AlwaysTrue),
        FetchName::AlwaysFalse => bare(call, Fetch::AlwaysFalse),
        FetchName::Bool => Ok(Fetch::Bool(single::<Boolean>(alloc, call)?)),
        FetchName::Int => Ok(Fetch::Int(single::<Integer>(alloc, call)?)),
        FetchName::Str => Ok(Fetch::Str(single::<Text>(alloc, call)?)),
        FetchName::Bin => Ok(Fetch::Bin(single::<Hexadecimal>(alloc, call)?)),
        FetchName::Ipv4 => Ok(Fetch::Ipv4(single::<Ipv4Address>(alloc, call)?)),
        FetchName::Ipv6 => Ok(Fetch::Ipv6(single::<Ipv6Address>(alloc, call)?)),
        FetchName::Var => var(alloc, call),
        FetchName::Src => bare(call, Fetch::Src),
        FetchName::Dst => bare(call, Fetch::Dst),
        FetchName::SrcPort => bare(call, Fetch::SrcPort),
        FetchName::DstPort => bare(call, Fetch::DstPort),
        FetchName::Method => bare(call, Fetch::Method),
        FetchName::ReqVer => bare(call, Fetch::ReqVer),
        FetchName::Path => bare(call, Fetch::Path),
        FetchName::Query => bare(call, Fetch::Query),
        FetchName::Url => bare(call, Fetch::Url),
        FetchName::Base => bare(call, Fetch::Base),
        FetchName::ReqHdr => req_hdr(alloc, call),
        FetchName::ReqFhdr => req_fhdr(alloc, call),
        FetchName::ReqHdrIp => req_hdr_ip(alloc, call),
        FetchName::ReqHdrVal => req_hdr_val(alloc, call),
        FetchName::ReqHdrCnt => Ok(Fetch::ReqHdrCnt(at_most_one::<HeaderName>(alloc, call)?)),
        FetchName::ReqCook => Ok(Fetch::ReqCook(at_most_one::<Text>(alloc, call)?)),
        FetchName::ReqCookCnt => Ok(Fetch::ReqCookCnt(at_most_one::<Text>(alloc, call)?)),
        FetchName::UrlParam => url_param(alloc, call),
    }
}

fn var(alloc: Global, call: &Call) -> Result<Fetch, SpellFault>
    ensures { AnswersAs result (made_by (fetch_row fetch_name.Var) call.now.args) }
{
    let (name, default) = one_or_two::<Variable, Text>(alloc, call)?;
    Ok(Fetch::Var(name, default))
}

fn req_hdr(alloc: Global, call: &Call) -> Result<Fetch, SpellFault>
    ensures { AnswersAs result (made_by (fetch_row fetch_name.ReqHdr) call.now.args) }
{
    let (name, at) = one_or_two::<HeaderName, Index>(alloc, call)?;
    Ok(Fetch::ReqHdr(name, at))
}

fn req_fhdr(alloc: Global, call: &Call) -> Result<Fetch, SpellFault>
    ensures { AnswersAs result (made_by (fetch_row fetch_name.ReqFhdr) call.now.args) }
{
    let (name, at) = one_or_two::<HeaderName, Index>(alloc, call)?;
    Ok(Fetch::ReqFhdr(name, at))
}

fn req_hdr_ip(alloc: Global, call: &Call) -> Result<Fetch, SpellFault>
    ensures { AnswersAs result (made_by (fetch_row fetch_name.ReqHdrIp) call.now.args) }
{
    let (name, at) = one_or_two::<HeaderName, Index>(alloc, call)?;
    Ok(Fetch::ReqHdrIp(name, at))
}

fn req_hdr_val(alloc: Global, call: &Call) -> Result<Fetch, SpellFault>
    ensures { AnswersAs result (made_by (fetch_row fetch_name.ReqHdrVal) call.now.args) }
{
    let (name, at) = one_or_two::<HeaderName, Index>(alloc, call)?;
    Ok(Fetch::ReqHdrVal(name, at))
}

fn url_param(alloc: Global, call: &Call) -> Result<Fetch, SpellFault>
    ensures { AnswersAs result (made_by (fetch_row fetch_name.UrlParam) call.now.args) }
{
    counted(call, 0, 2)?;
    let name = given::<Text>(alloc, call, 0)?;
    let delim = given::<Byte>(alloc, call, 1)?;
    Ok(Fetch::UrlParam(name, delim))
}
