ghost use Rattle.std.specs.Prelude.{◌≡◌};
ghost use Rattle.std.specs.List.{list_any};
ghost use Rattle.hx_lint.specs.ExprTopics.{adds_negative, ends_as_ipv4, expr_has, first_adds_negative};
ghost use Rattle.hx_lint.specs.ExprTopics.{goes_on_after_address, is_address, is_address_map, is_base, is_base64};
ghost use Rattle.hx_lint.specs.ExprTopics.{is_cookie, is_cookie_without_name, is_delimited_parameter};
ghost use Rattle.hx_lint.specs.ExprTopics.{is_empty_expression, is_far_back, is_far_occurrence};
ghost use Rattle.hx_lint.specs.ExprTopics.{is_header_address, is_header_number, is_hex2i, is_mask};
ghost use Rattle.hx_lint.specs.ExprTopics.{is_method, is_mixed_address, is_negative_number, is_no_bytes};
ghost use Rattle.hx_lint.specs.ExprTopics.{is_no_name, is_number, is_parameter, is_port, is_text};
ghost use Rattle.hx_lint.specs.ExprTopics.{text_is_number, texts_are_numbers};
ghost use Rattle.hx_ast.specs.Types.{input_kind};

use hx_ast::{Conv, Expr, Fetch, Val};
use hx_text::{Ip, Kind, Octets, Out};

/// What makes HAProxy give another value to an expression: a row of docs/manual/haproxy.md each.
#[derive(Clone, Copy)]
pub enum ExprTopic {
    /// a text is read as a number
    TextAsNumber,
    /// a header is read as a number
    HeaderAsNumber,
    /// cookies are looked up
    Cookie,
    /// a cookie whose name is the empty text is looked up
    CookieWithoutName,
    /// parameters are looked up
    Parameter,
    /// the same with a delimiter
    DelimitedParameter,
    /// a port is asked for
    Port,
    /// a header is read as an address
    HeaderAsAddress,
    /// host and path are asked for
    Base,
    /// an IPv6 address that C libraries print with an IPv4 address at its end
    MixedAddress,
    /// a binary text without bytes
    EmptyBinary,
    /// one of the occurrences of a header before the last ten
    FarOccurrence,
    /// an address is put under a mask
    Mask,
    /// hexadecimal digits are read as a number
    HexNumber,
    /// Base64 is read
    Base64,
    /// a replacement has an empty regular expression
    EmptyExpression,
    /// a converter stands after a map that gives addresses
    AfterAddress,
    /// two negative numbers are added
    NegativeSum,
    /// the method is asked for
    Method,
}

/// Whether an expression shows a topic.
pub(crate) fn expr_has(topic: ExprTopic, expr: &Expr) -> bool
    ensures { result ≡ expr_has topic expr.now }
{
    match topic {
        ExprTopic::TextAsNumber => texts_are_numbers(expr.fetch.kind(), expr.convs.as_slice()),
        ExprTopic::HeaderAsNumber => is_header_number(&expr.fetch),
        ExprTopic::Cookie => is_cookie(&expr.fetch),
        ExprTopic::CookieWithoutName => is_cookie_without_name(&expr.fetch),
        ExprTopic::Parameter => is_parameter(&expr.fetch),
        ExprTopic::DelimitedParameter => is_delimited_parameter(&expr.fetch),
        ExprTopic::Port => is_port(&expr.fetch),
        ExprTopic::HeaderAsAddress => is_header_address(&expr.fetch),
        ExprTopic::Base => is_base(&expr.fetch),
        ExprTopic::MixedAddress => is_mixed_address(&expr.fetch),
        ExprTopic::EmptyBinary => is_no_bytes(&expr.fetch),
        ExprTopic::FarOccurrence => is_far_occurrence(&expr.fetch),
        ExprTopic::Mask => has_mask(expr.convs.as_slice()),
        ExprTopic::HexNumber => has_hex2i(expr.convs.as_slice()),
        ExprTopic::Base64 => has_base64(expr.convs.as_slice()),
        ExprTopic::EmptyExpression => has_empty_expression(expr.convs.as_slice()),
        ExprTopic::AfterAddress => goes_on_after_address(expr.convs.as_slice()),
        ExprTopic::NegativeSum => {
            is_negative_number(&expr.fetch) && first_adds_negative(expr.convs.as_slice())
        }
        ExprTopic::Method => is_method(&expr.fetch),
    }
}

/// Whether one of the converters reads a text as a number. The first takes a value of the type
/// `before`.
fn texts_are_numbers(before: Kind, convs: &[Conv]) -> bool
    ensures { result ≡ texts_are_numbers before convs.now }
{
    let mut kind = before;
    let mut rest = convs;
    while let [conv, others @ ..] = rest {
        if text_is_number(kind, conv) {
            return true;
        }
        kind = conv.kind();
        rest = others;
    }
    false
}

/// Whether a converter reads a text, which stands before it, as a number.
pub(crate) fn text_is_number(before: Kind, conv: &Conv) -> bool
    ensures { result ≡ text_is_number before conv.now }
{
    is_text(before) && is_number(input_kind(conv))
}

pub(crate) fn is_text(kind: Kind) -> bool
    ensures { result ≡ is_text kind }
{
    match kind {
        Kind::Str => true,
        _ => false,
    }
}

/// Whether a text is read as a number for this type.
pub(crate) fn is_number(kind: Kind) -> bool
    ensures { result ≡ is_number kind }
{
    match kind {
        Kind::Int | Kind::Bool => true,
        _ => false,
    }
}

pub(crate) fn is_address(kind: Kind) -> bool
    ensures { result ≡ is_address kind }
{
    match kind {
        Kind::Ip => true,
        _ => false,
    }
}

/// The type to which a converter casts what it is given.
pub(crate) fn input_kind(conv: &Conv) -> Kind
    ensures { result ≡ input_kind conv.now }
{
    match conv {
        Conv::Lower | Conv::Upper | Conv::CutCrlf | Conv::Length => Kind::Str,
        Conv::Field(_, _, _) | Conv::Word(_, _, _) => Kind::Str,
        Conv::Ltrim(_) | Conv::Rtrim(_) | Conv::Concat(_, _, _) => Kind::Str,
        Conv::Regsub(_, _, _, _) | Conv::UrlDec(_) | Conv::Strcmp(_) => Kind::Str,
        Conv::B64dec | Conv::Ub64dec | Conv::Hex2i => Kind::Str,
        Conv::Bytes(_, _) | Conv::Base64 | Conv::Ub64enc | Conv::Hex => Kind::Bin,
        Conv::Sha2(_) => Kind::Bin,
        Conv::Map(_, by, _, _) => by.kind(),
        Conv::Iif(_, _) => Kind::Bool,
        Conv::Bool | Conv::Even | Conv::Odd | Conv::Not | Conv::Neg | Conv::Cpl => Kind::Int,
        Conv::Add(_) | Conv::Sub(_) | Conv::Mul(_) | Conv::Div(_) | Conv::Mod(_) => Kind::Int,
        Conv::And(_) | Conv::Or(_) | Conv::Xor(_) => Kind::Int,
        Conv::Ipmask(_, _) => Kind::Ip,
    }
}

fn is_header_number(fetch: &Fetch) -> bool
    ensures { result ≡ is_header_number fetch.now }
{
    match fetch {
        Fetch::ReqHdrVal(_, _) => true,
        _ => false,
    }
}

fn is_cookie(fetch: &Fetch) -> bool
    ensures { result ≡ is_cookie fetch.now }
{
    match fetch {
        Fetch::ReqCook(_) | Fetch::ReqCookCnt(_) => true,
        _ => false,
    }
}

/// Whether it is the cookie whose name is the empty text.
fn is_cookie_without_name(fetch: &Fetch) -> bool
    ensures { result ≡ is_cookie_without_name fetch.now }
{
    match fetch {
        Fetch::ReqCook(name) => is_no_name(name),
        _ => false,
    }
}

fn is_no_name(name: &Option<Octets>) -> bool
    ensures { result ≡ is_no_name name.now }
{
    match name {
        Some(name) => name.as_slice().is_empty(),
        None => false,
    }
}

fn is_parameter(fetch: &Fetch) -> bool
    ensures { result ≡ is_parameter fetch.now }
{
    match fetch {
        Fetch::UrlParam(_, delimiter) => delimiter.is_none(),
        _ => false,
    }
}

fn is_delimited_parameter(fetch: &Fetch) -> bool
    ensures { result ≡ is_delimited_parameter fetch.now }
{
    match fetch {
        Fetch::UrlParam(_, delimiter) => delimiter.is_some(),
        _ => false,
    }
}

fn is_port(fetch: &Fetch) -> bool
    ensures { result ≡ is_port fetch.now }
{
    match fetch {
        Fetch::SrcPort | Fetch::DstPort => true,
        _ => false,
    }
}

fn is_header_address(fetch: &Fetch) -> bool
    ensures { result ≡ is_header_address fetch.now }
{
    match fetch {
        Fetch::ReqHdrIp(_, _) => true,
        _ => false,
    }
}

fn is_base(fetch: &Fetch) -> bool
    ensures { result ≡ is_base fetch.now }
{
    match fetch {
        Fetch::Base => true,
        _ => false,
    }
}

pub(crate) fn is_method(fetch: &Fetch) -> bool
    ensures { result ≡ is_method fetch.now }
{
    match fetch {
        Fetch::Method => true,
        _ => false,
    }
}

/// Whether the first 96 bits of an IPv6 address are zero, and of the others not the first 16.
fn ends_as_ipv4(ip: Ip) -> bool
    ensures { result ≡ ends_as_ipv4 ip }
{
    match ip {
        Ip::V4(_) => false,
        Ip::V6(bits) => 65_536 <= bits && bits < 4_294_967_296,
    }
}

fn is_mixed_address(fetch: &Fetch) -> bool
    ensures { result ≡ is_mixed_address fetch.now }
{
    match fetch {
        Fetch::Ipv6(address) => ends_as_ipv4(*address),
        _ => false,
    }
}

/// Whether it is a binary text without bytes.
fn is_no_bytes(fetch: &Fetch) -> bool
    ensures { result ≡ is_no_bytes fetch.now }
{
    match fetch {
        Fetch::Bin(bytes) => bytes.as_slice().is_empty(),
        _ => false,
    }
}

/// Whether an occurrence is one before the last ten.
fn is_far_back(at: &Option<i64>) -> bool
    ensures { result ≡ is_far_back at.now }
{
    match at {
        Some(number) => *number < -10,
        None => false,
    }
}

fn is_far_occurrence(fetch: &Fetch) -> bool
    ensures { result ≡ is_far_occurrence fetch.now }
{
    match fetch {
        Fetch::ReqHdr(_, at) => is_far_back(at),
        Fetch::ReqFhdr(_, at) => is_far_back(at),
        Fetch::ReqHdrIp(_, at) => is_far_back(at),
        Fetch::ReqHdrVal(_, at) => is_far_back(at),
        _ => false,
    }
}

fn is_mask(conv: &Conv) -> bool
    ensures { result ≡ is_mask conv.now }
{
    match conv {
        Conv::Ipmask(_, _) => true,
        _ => false,
    }
}

fn is_hex2i(conv: &Conv) -> bool
    ensures { result ≡ is_hex2i conv.now }
{
    match conv {
        Conv::Hex2i => true,
        _ => false,
    }
}

fn is_base64(conv: &Conv) -> bool
    ensures { result ≡ is_base64 conv.now }
{
    match conv {
        Conv::B64dec | Conv::Ub64dec => true,
        _ => false,
    }
}

/// Whether it is a replacement with an empty regular expression.
fn is_empty_expression(conv: &Conv) -> bool
    ensures { result ≡ is_empty_expression conv.now }
{
    match conv {
        Conv::Regsub(expression, _, _, _) => expression.as_slice().is_empty(),
        _ => false,
    }
}

/// Whether it is a map that gives addresses.
pub(crate) fn is_address_map(conv: &Conv) -> bool
    ensures { result ≡ is_address_map conv.now }
{
    match conv {
        Conv::Map(_, _, Out::Ip, _) => true,
        _ => false,
    }
}

/// Whether a converter stands after a map that gives addresses.
fn goes_on_after_address(convs: &[Conv]) -> bool
    ensures { result ≡ goes_on_after_address convs.now }
{
    let mut rest = convs;
    while let [conv, others @ ..] = rest {
        if is_address_map(conv) && !others.is_empty() {
            return true;
        }
        rest = others;
    }
    false
}

/// Whether what is added is below 0.
fn adds_negative(conv: &Conv) -> bool
    ensures { result ≡ adds_negative conv.now }
{
    match conv {
        Conv::Add(Val::Number(number)) => *number < 0,
        Conv::Sub(Val::Number(number)) => *number > 0,
        _ => false,
    }
}

fn is_negative_number(fetch: &Fetch) -> bool
    ensures { result ≡ is_negative_number fetch.now }
{
    match fetch {
        Fetch::Int(number) => *number < 0,
        _ => false,
    }
}

/// Whether the first of the converters adds a number below 0.
fn first_adds_negative(convs: &[Conv]) -> bool
    ensures { result ≡ first_adds_negative convs.now }
{
    match convs {
        [conv, ..] => adds_negative(conv),
        [] => false,
    }
}

/// Whether one of the converters puts an address under a mask.
fn has_mask(convs: &[Conv]) -> bool
    ensures { result ≡ list_any is_mask convs.now }
{
    convs.iter().any(|conv| is_mask(conv))
}

/// Whether one of the converters reads hexadecimal digits as a number.
fn has_hex2i(convs: &[Conv]) -> bool
    ensures { result ≡ list_any is_hex2i convs.now }
{
    convs.iter().any(|conv| is_hex2i(conv))
}

/// Whether one of the converters reads Base64.
fn has_base64(convs: &[Conv]) -> bool
    ensures { result ≡ list_any is_base64 convs.now }
{
    convs.iter().any(|conv| is_base64(conv))
}

/// Whether one of the converters is a replacement with an empty regular expression.
fn has_empty_expression(convs: &[Conv]) -> bool
    ensures { result ≡ list_any is_empty_expression convs.now }
{
    convs.iter().any(|conv| is_empty_expression(conv))
}
