ghost use Rattle.std.specs.Prelude.{◌≡◌};
ghost use Rattle.std.specs.List.{list_all, list_any};
ghost use Rattle.hx_lint.specs.AclTopics.{acl_has, compares_numbers, delimits, ends_below_zero};
ghost use Rattle.hx_lint.specs.AclTopics.{ends_in_addresses, finds_several, has_minus, is_delimiters};
ghost use Rattle.hx_lint.specs.AclTopics.{is_empty_text, is_length, may_fail, one_may_fail, reads_text};

use crate::expr_topics::{input_kind, is_address, is_address_map, is_number, is_text};
use hx_ast::{Conv, Decl, Fetch};
use hx_text::{By, Kind, Octets};

/// What makes HAProxy decide an ACL otherwise: a row of docs/manual/haproxy.md each.
#[derive(Clone, Copy)]
pub enum AclTopic {
    /// a text is compared as a number
    TextAsNumber,
    /// a converter may give nothing for one of several values
    LostValues,
    /// a pattern of numbers has one below 0
    BelowZero,
    /// a length is compared below 0
    LengthBelowZero,
    /// a pattern is the empty text
    EmptyPattern,
    /// a pattern has delimiters alone
    Delimiters,
    /// the value of a map that gives addresses is compared as another type
    AfterAddress,
}

/// Whether an ACL shows a topic.
pub(crate) fn acl_has(topic: AclTopic, decl: &Decl) -> bool
    ensures { result ≡ acl_has topic decl.now }
{
    match topic {
        AclTopic::TextAsNumber => is_text(decl.expr.kind()) && is_number(decl.by.kind()),
        AclTopic::LostValues => {
            finds_several(&decl.expr.fetch)
                && one_may_fail(decl.expr.fetch.kind(), decl.expr.convs.as_slice())
        }
        AclTopic::BelowZero => { compares_numbers(decl.by) && has_negative(decl.words.as_slice()) }
        AclTopic::LengthBelowZero => {
            is_length(decl.by) && one_ends_below_zero(decl.words.as_slice())
        }
        AclTopic::EmptyPattern => has_empty_text(decl.words.as_slice()),
        AclTopic::Delimiters => has_delimiters(decl.by, decl.words.as_slice()),
        AclTopic::AfterAddress => {
            ends_in_addresses(decl.expr.convs.as_slice()) && !is_address(decl.by.kind())
        }
    }
}

/// Whether a fetch finds several values in a request.
fn finds_several(fetch: &Fetch) -> bool
    ensures { result ≡ finds_several fetch.now }
{
    match fetch {
        Fetch::ReqHdr(_, at) => at.is_none(),
        Fetch::ReqFhdr(_, at) => at.is_none(),
        Fetch::ReqHdrIp(_, at) => at.is_none(),
        Fetch::ReqHdrVal(_, at) => at.is_none(),
        Fetch::ReqCook(_) | Fetch::UrlParam(_, _) => true,
        _ => false,
    }
}

/// Whether a converter gives nothing for some texts.
fn may_fail(conv: &Conv) -> bool
    ensures { result ≡ may_fail conv.now }
{
    match conv {
        Conv::Field(_, _, _) | Conv::Word(_, _, _) | Conv::Strcmp(_) | Conv::UrlDec(_) => true,
        Conv::B64dec | Conv::Ub64dec | Conv::Hex2i => true,
        Conv::Map(_, _, _, default) => default.is_none(),
        Conv::Ipmask(_, bits) => bits.is_none(),
        _ => false,
    }
}

/// Whether a text stands before a converter that reads it as a number or as an address.
fn reads_text(before: Kind, conv: &Conv) -> bool
    ensures { result ≡ reads_text before conv.now }
{
    is_text(before) && (is_number(input_kind(conv)) || is_address(input_kind(conv)))
}

/// Whether one of the converters gives nothing for some values. The first takes values of the type
/// `before`.
fn one_may_fail(before: Kind, convs: &[Conv]) -> bool
    ensures { result ≡ one_may_fail before convs.now }
{
    let mut kind = before;
    let mut rest = convs;
    while let [conv, others @ ..] = rest {
        if may_fail(conv) || reads_text(kind, conv) {
            return true;
        }
        kind = conv.kind();
        rest = others;
    }
    false
}

fn is_length(by: By) -> bool
    ensures { result ≡ is_length by }
{
    match by {
        By::Len => true,
        _ => false,
    }
}

/// Whether the patterns of a method are numbers.
fn compares_numbers(by: By) -> bool
    ensures { result ≡ compares_numbers by }
{
    match by {
        By::Int | By::Len => true,
        _ => false,
    }
}

/// Whether a pattern has a number below 0.
fn has_minus(pattern: &Octets) -> bool
    ensures { result ≡ has_minus pattern.now }
{
    pattern.as_slice().contains(&b'-')
}

/// Whether a pattern is a range without a least number, whose greatest is below 0.
fn ends_below_zero(pattern: &Octets) -> bool
    ensures { result ≡ ends_below_zero pattern.now }
{
    pattern.as_slice().starts_with(b":-")
}

fn is_empty_text(pattern: &Octets) -> bool
    ensures { result ≡ is_empty_text pattern.now }
{
    pattern.as_slice().is_empty()
}

/// Whether a byte delimits what `dir` and `dom` look for.
fn delimits(by: By, byte: u8) -> bool
    ensures { result ≡ delimits by byte }
{
    match by {
        By::Dir => byte == b'/' || byte == b'?',
        By::Dom => byte == b'/' || byte == b'?' || byte == b'.' || byte == b':',
        _ => false,
    }
}

/// Whether a pattern has delimiters alone, and one at least.
fn is_delimiters(by: By, pattern: &[u8]) -> bool
    ensures { result ≡ is_delimiters by pattern.now }
{
    !pattern.is_empty() && all_delimit(by, pattern)
}

fn all_delimit(by: By, bytes: &[u8]) -> bool
    ensures { result ≡ list_all (delimits by) bytes.now }
{
    bytes.iter().all(|byte| delimits(by, *byte))
}

fn has_delimiters(by: By, patterns: &[Octets]) -> bool
    ensures { result ≡ list_any (is_delimiters by) patterns.now }
{
    patterns
        .iter()
        .any(|pattern| is_delimiters(by, pattern.as_slice()))
}

/// Whether the last of the converters is a map that gives addresses.
fn ends_in_addresses(convs: &[Conv]) -> bool
    ensures { result ≡ ends_in_addresses convs.now }
{
    let mut rest = convs;
    while let [conv, others @ ..] = rest {
        if is_address_map(conv) && others.is_empty() {
            return true;
        }
        rest = others;
    }
    false
}

/// Whether one of the patterns has a number below 0.
fn has_negative(patterns: &[Octets]) -> bool
    ensures { result ≡ list_any has_minus patterns.now }
{
    patterns.iter().any(|pattern| has_minus(pattern))
}

/// Whether one of the patterns is a range without a least number, whose greatest is below 0.
fn one_ends_below_zero(patterns: &[Octets]) -> bool
    ensures { result ≡ list_any ends_below_zero patterns.now }
{
    patterns.iter().any(|pattern| ends_below_zero(pattern))
}

/// Whether one of the patterns is the empty text.
fn has_empty_text(patterns: &[Octets]) -> bool
    ensures { result ≡ list_any is_empty_text patterns.now }
{
    patterns.iter().any(|pattern| is_empty_text(pattern))
}
