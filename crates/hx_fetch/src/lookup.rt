ghost use Rattle.std.specs.Prelude.{◌≡◌, ◌==◌, [], ◌∷◌, ◌++◌, false, true, is_some, IfOk, IsOk, Some, codes, option_map, slice_get, unwrap_or, if◌then◌else◌};
ghost use Rattle.std.specs.Option.{option_copied};
ghost use Rattle.hx_ast.specs.declared.fetch.Fetch.TheVariants as fetch;
ghost use Rattle.hx_sample.specs.declared.sample.Value.TheVariants as value;
ghost use Rattle.hx_sample.specs.Seen.{bytes_of, occurrence_value};
ghost use Rattle.hx_sample.specs.Vars.{var_of};
ghost use Rattle.hx_http.specs.Target.{path_of};
ghost use Rattle.hx_fetch.specs.Fetches.{base_of, chosen_of, has_one_occurrence, is_copied, occurrences_of, value_or_default};
ghost use Rattle.hx_fetch.specs.Names.{cookie_values, header_lines, header_values};
ghost use Rattle.hx_fetch.specs.Views.{query_occurrences, source_texts};
ghost use Rattle.hx_fetch.specs.World.{Context, context_of};

use crate::lines::Lines;
use crate::texts::TextSource;
use crate::walks::count;
use crate::world::World;
use hx_ast::Fetch;
use hx_http::Message;
use hx_sample::{Bytes, Sample, lend};
use hx_text::{Kind, NoMemory, Octets, VarName};
use std::alloc::Global;

/// What a fetch about lines, values, cookies or parameters leads to: a source of texts, of which all
/// or the one of the number that is given are its occurrences, each as a value of a kind.
#[derive(Clone, Copy)]
pub(crate) struct TextQuery<'f, 'w> {
    pub source: TextSource<'f, 'w>,
    pub at: Option<i64>,
    pub kind: Kind,
}

fn version_text(minor: u8) -> &'static [u8]
    ensures { result.now ≡ (if minor == 0 then codes "1.0" else codes "1.1") }
{
    if minor == 0 { b"1.0" } else { b"1.1" }
}

fn host<'w>(message: &'w Message) -> &'w [u8]
    ensures { result.now
        ≡ unwrap_or (slice_get (header_lines (Some (codes "Host")) message.now) 0) [] }
{
    match Lines::new(message, Some(b"Host")).next() {
        Some(line) => line,
        None => b"",
    }
}

fn joined(alloc: Global, first: &[u8], last: &[u8]) -> Result<Octets, NoMemory>
    ensures { IfOk result (λ bytes. bytes ≡ first.now ++ last.now) }
{
    let mut bytes = Vec::with_capacity(alloc, first.len().saturating_add(last.len()))?;
    bytes.extend_from_slice(first)?;
    bytes.extend_from_slice(last)?;
    Ok(Octets::from_vec(bytes))
}

fn base<'w>(alloc: Global, message: &Message) -> Result<Option<Sample<'w>>, NoMemory>
    ensures value { IfOk result (λ base.
        occurrence_value base ≡ option_map value.Str (base_of message.now)) }
    ensures no_memory { is_some (path_of message.now.target) ≡ false → IsOk result }
{
    match message.path() {
        Some(path) => Ok(Some(Sample::Str(Bytes::Own(joined(alloc, host(message), path)?)))),
        None => Ok(None),
    }
}

fn variable<'w>(world: &World<'w>, name: &VarName) -> Option<Sample<'w>>
    ensures { occurrence_value result ≡ var_of world.now.vars.now world.now.conn.now.id name.now }
{
    match world.vars.get(world.conn.id, name) {
        Some(value) => Some(lend(value)),
        None => None,
    }
}

/// The value of a variable, or a copy of its default where it isn't set. Memory is taken for that
/// copy alone.
fn variable_or<'w>(
    alloc: Global,
    world: &World<'w>,
    name: &VarName,
    default: &Option<Octets>,
) -> Result<Option<Sample<'w>>, NoMemory>
    ensures value { IfOk result (λ occurrence. occurrence_value occurrence
        ≡ value_or_default name.now default.now (context_of world.now)) }
    ensures no_memory { is_copied (fetch.Var name.now default.now) (context_of world.now) ≡ false
        → IsOk result }
{
    match (variable(world, name), default) {
        (None, Some(text)) => Ok(Some(Sample::Str(copied(alloc, text)?))),
        (occurrence, _) => Ok(occurrence),
    }
}

fn lent_text<'w>(bytes: Option<&'w [u8]>) -> Option<Sample<'w>>
    ensures { occurrence_value result ≡ option_map value.Str (option_copied bytes.entry) }
{
    match bytes {
        Some(bytes) => Some(Sample::Str(Bytes::Lent(bytes))),
        None => None,
    }
}

fn given_name(name: &Option<Octets>) -> Option<&[u8]>
    ensures { option_copied result ≡ name.now }
{
    match name {
        Some(name) => Some(name.as_slice()),
        None => None,
    }
}

fn values<'f, 'w>(message: &'w Message, name: &'f Octets) -> TextSource<'f, 'w>
    ensures { source_texts result ≡ header_values (Some name.now) message.now }
{
    TextSource::Values(message, Some(name.as_slice()))
}

fn lines<'f, 'w>(message: &'w Message, name: &'f Octets) -> TextSource<'f, 'w>
    ensures { source_texts result ≡ header_lines (Some name.now) message.now }
{
    TextSource::Lines(message, Some(name.as_slice()))
}

fn cookies<'f, 'w>(message: &'w Message, name: &'f Option<Octets>) -> TextSource<'f, 'w>
    ensures { source_texts result ≡ cookie_values name.now message.now }
{
    TextSource::Cookies(message, given_name(name))
}

fn copied<'w>(alloc: Global, octets: &Octets) -> Result<Bytes<'w>, NoMemory>
    ensures { IfOk result (λ bytes. bytes_of bytes ≡ octets.now) }
{
    Ok(Bytes::Own(Octets::copy(alloc, octets.as_slice())?))
}

/// Whether `fetch` has exactly one occurrence, whatever the request is: that which `chosen` gives.
/// Each has that isn't about lines, values, cookies or parameters.
#[tactic(auto, using(crate::proofs::OneLemmas::one_occurrence))]
pub fn has_one_occurrence(fetch: &Fetch) -> bool
    ensures value { result ≡ has_one_occurrence fetch.now }
    ensures one { has_one_occurrence fetch.now ≡ true → (context : Context)
        → occurrences_of fetch.now context ≡ chosen_of fetch.now context ∷ [] }
{
    match fetch {
        Fetch::ReqHdr(_, _) | Fetch::ReqFhdr(_, _) => false,
        Fetch::ReqHdrIp(_, _) | Fetch::ReqHdrVal(_, _) => false,
        Fetch::ReqCook(_) | Fetch::UrlParam(_, _) => false,
        _ => true,
    }
}

/// The occurrence of a fetch that has one. Texts lend from the message and the variables; the
/// arguments of a fetch, and what `base` puts together, are copied.
pub(crate) fn sole_occurrence<'w>(
    alloc: Global,
    fetch: &Fetch,
    world: &World<'w>,
) -> Result<Option<Sample<'w>>, NoMemory>
    requires { has_one_occurrence fetch.now ≡ true }
    ensures value { IfOk result (λ occurrence.
        occurrence_value occurrence ≡ chosen_of fetch.now (context_of world.now)) }
    ensures no_memory { is_copied fetch.now (context_of world.now) ≡ false → IsOk result }
{
    let message = world.message;
    let conn = world.conn;
    match fetch {
        Fetch::AlwaysTrue => Ok(Some(Sample::Bool(true))),
        Fetch::AlwaysFalse => Ok(Some(Sample::Bool(false))),
        Fetch::Bool(b) => Ok(Some(Sample::Bool(*b))),
        Fetch::Int(n) => Ok(Some(Sample::Int(*n))),
        Fetch::Str(text) => Ok(Some(Sample::Str(copied(alloc, text)?))),
        Fetch::Bin(bytes) => Ok(Some(Sample::Bin(copied(alloc, bytes)?))),
        Fetch::Ipv4(ip) => Ok(Some(Sample::Ip(*ip))),
        Fetch::Ipv6(ip) => Ok(Some(Sample::Ip(*ip))),
        Fetch::Var(name, default) => variable_or(alloc, world, name, default),
        Fetch::Src => Ok(Some(Sample::Ip(conn.src))),
        Fetch::Dst => Ok(Some(Sample::Ip(conn.dst))),
        Fetch::SrcPort => Ok(Some(Sample::Int(i64::from(conn.src_port)))),
        Fetch::DstPort => Ok(Some(Sample::Int(i64::from(conn.dst_port)))),
        Fetch::Method => Ok(Some(Sample::Method(Bytes::Lent(message.method())))),
        Fetch::ReqVer => Ok(lent_text(Some(version_text(message.minor())))),
        Fetch::Path => Ok(lent_text(message.path())),
        Fetch::Query => Ok(lent_text(message.query())),
        Fetch::Url => Ok(lent_text(Some(message.target()))),
        Fetch::Base => base(alloc, message),
        Fetch::ReqHdrCnt(name) => {
            let source = TextSource::Values(message, given_name(name));
            Ok(Some(count(source)))
        }
        Fetch::ReqCookCnt(name) => Ok(Some(count(cookies(message, name)))),
        Fetch::ReqHdr(_, _) | Fetch::ReqFhdr(_, _) => unreachable!(),
        Fetch::ReqHdrIp(_, _) | Fetch::ReqHdrVal(_, _) => unreachable!(),
        Fetch::ReqCook(_) | Fetch::UrlParam(_, _) => unreachable!(),
    }
}

/// The texts of a fetch that hasn't one occurrence. They lend from the message and the fetch.
pub(crate) fn text_query<'f, 'w>(fetch: &'f Fetch, world: &World<'w>) -> TextQuery<'f, 'w>
    requires { has_one_occurrence fetch.now ≡ false }
    ensures { query_occurrences result ≡ occurrences_of fetch.now (context_of world.now) }
{
    let message = world.message;
    match fetch {
        Fetch::ReqHdr(name, at) => query(values(message, name), *at, Kind::Str),
        Fetch::ReqFhdr(name, at) => query(lines(message, name), *at, Kind::Str),
        Fetch::ReqHdrIp(name, at) => query(values(message, name), *at, Kind::Ip),
        Fetch::ReqHdrVal(name, at) => query(values(message, name), *at, Kind::Int),
        Fetch::ReqCook(name) => query(cookies(message, name), None, Kind::Str),
        Fetch::UrlParam(name, delim) => {
            let source = TextSource::Params(message, given_name(name), *delim);
            query(source, None, Kind::Str)
        }
        _ => unreachable!(),
    }
}

fn query<'f, 'w>(source: TextSource<'f, 'w>, at: Option<i64>, kind: Kind) -> TextQuery<'f, 'w>
    ensures { result ≡ record { source = source.entry; at = at; kind = kind } }
{
    TextQuery { source, at, kind }
}
