ghost use Rattle.std.specs.Prelude.{◌≡◌, ◌==◌};
ghost use Rattle.std.specs.Option.{option_copied};
ghost use Rattle.std.specs.List.{list_any};
ghost use Rattle.hx_base.specs.Bytes.{is_bad_value_byte};
ghost use Rattle.hx_lint.specs.ActionTopics.{action_format, action_has, always_gives};
ghost use Rattle.hx_lint.specs.ActionTopics.{begins_otherwise, begins_without_slash};
ghost use Rattle.hx_lint.specs.ActionTopics.{begins_without_slash_in, changes_host, constant_bytes};
ghost use Rattle.hx_lint.specs.ActionTopics.{constant_of, constant_value, denies_without_page};
ghost use Rattle.hx_lint.specs.ActionTopics.{finds_always, gives_bytes, has_byte, has_byte_in};
ghost use Rattle.hx_lint.specs.ActionTopics.{has_no_page, is_host, is_in_class, is_of_response};
ghost use Rattle.hx_lint.specs.ActionTopics.{is_without_parts, makes_header, makes_key};
ghost use Rattle.hx_lint.specs.ActionTopics.{makes_location, makes_target, may_be_empty};
ghost use Rattle.hx_lint.specs.ActionTopics.{may_be_empty_in, replaces_value, sets_method};
ghost use Rattle.hx_lint.specs.ActionTopics.{sets_path, sets_response_variable, sets_target};
ghost use Rattle.hx_lint.specs.ActionTopics.{value_has_byte};

use httparse::is_method_token;
use hx_ast::{Action, Conv, Fetch, Format, Part};
use hx_text::Scope;

/// What makes HAProxy do something else at an action: a row of docs/manual/haproxy.md each.
#[derive(Clone, Copy)]
pub enum ActionTopic {
    /// a header has a control byte
    ControlByte,
    /// a header has CR, LF or NUL
    HeaderLineEnd,
    /// a location has CR, LF or NUL
    LocationLineEnd,
    /// `Host` is changed, or the whole target
    HostOrTarget,
    /// values between commas are replaced
    ReplacedValue,
    /// the target may be empty
    EmptyTarget,
    /// the method is no token
    NoToken,
    /// the path begins otherwise than with `/`
    PathWithoutSlash,
    /// the path is replaced
    Path,
    /// the target has a byte that no target may have
    TargetByte,
    /// the key of an entry may be empty, or an entry has CR, LF or NUL
    EmptyKey,
    /// a variable of the response is set
    ResponseVariable,
    /// a format is the empty text
    EmptyFormat,
    /// a request is denied with a status for which there is no error page
    NoErrorPage,
}

/// A set of bytes.
#[derive(Clone, Copy)]
pub enum ByteClass {
    /// control bytes but CR, LF and NUL
    Control,
    /// CR, LF and NUL
    LineEnd,
    /// those that no target may have
    OutsideTarget,
    /// those that no method may have
    OutsideToken,
}

/// The statuses for which HAProxy has an error page, so that `deny_status` takes them.
pub(crate) const PAGE_STATUSES: [u16; 19] = [
    200, 400, 401, 403, 404, 405, 407, 408, 410, 413, 421, 422, 425, 429, 500, 501, 502, 503, 504,
];

/// Whether an action shows a topic.
pub(crate) fn action_has(topic: ActionTopic, action: &Action) -> bool
    ensures { result ≡ action_has topic action.now }
{
    match topic {
        ActionTopic::ControlByte => {
            makes_header(action) && has_byte_in(ByteClass::Control, action_format(action))
        }
        ActionTopic::HeaderLineEnd => {
            makes_header(action) && has_byte_in(ByteClass::LineEnd, action_format(action))
        }
        ActionTopic::LocationLineEnd => {
            makes_location(action) && has_byte_in(ByteClass::LineEnd, action_format(action))
        }
        ActionTopic::HostOrTarget => changes_host(action),
        ActionTopic::ReplacedValue => replaces_value(action),
        ActionTopic::EmptyTarget => sets_target(action) && may_be_empty_in(action_format(action)),
        ActionTopic::NoToken => {
            sets_method(action) && has_byte_in(ByteClass::OutsideToken, action_format(action))
        }
        ActionTopic::PathWithoutSlash => {
            sets_path(action) && begins_without_slash_in(action_format(action))
        }
        ActionTopic::Path => sets_path(action),
        ActionTopic::TargetByte => {
            makes_target(action) && has_byte_in(ByteClass::OutsideTarget, action_format(action))
        }
        ActionTopic::EmptyKey => has_bad_entry(action),
        ActionTopic::ResponseVariable => sets_response_variable(action),
        ActionTopic::EmptyFormat => is_without_parts(action_format(action)),
        ActionTopic::NoErrorPage => denies_without_page(action),
    }
}

/// Whether an action changes an entry whose key may be empty, or that has CR, LF or NUL.
fn has_bad_entry(action: &Action) -> bool
    ensures { result ≡ action_has ActionTopic.EmptyKey action.now }
{
    let key = makes_key(action)
        && (may_be_empty_in(action_format(action))
            || has_byte_in(ByteClass::LineEnd, action_format(action)));
    key || value_has_byte(ByteClass::LineEnd, action)
}

/// The format of an action; of `set-map` that of the key.
pub(crate) fn action_format(action: &Action) -> Option<&Format>
    ensures { option_copied result ≡ action_format action.now }
{
    match action {
        Action::SetHeader(_, format) => Some(format),
        Action::AddHeader(_, format) => Some(format),
        Action::ReplaceHeader(_, _, format) => Some(format),
        Action::ReplaceValue(_, _, format) => Some(format),
        Action::SetMethod(format) => Some(format),
        Action::SetUri(format) => Some(format),
        Action::SetPath(format) => Some(format),
        Action::SetQuery(format) => Some(format),
        Action::AddAcl(_, key) => Some(key),
        Action::DelAcl(_, key) => Some(key),
        Action::DelMap(_, key) => Some(key),
        Action::SetMap(_, key, _) => Some(key),
        Action::Redirect(_, format, _, _) => Some(format),
        _ => None,
    }
}

/// Whether the format of an action makes the value of a header.
fn makes_header(action: &Action) -> bool
    ensures { result ≡ makes_header action.now }
{
    match action {
        Action::SetHeader(_, _) | Action::AddHeader(_, _) => true,
        Action::ReplaceHeader(_, _, _) | Action::ReplaceValue(_, _, _) => true,
        _ => false,
    }
}

/// Whether the format of an action makes a target, or a part of one.
fn makes_target(action: &Action) -> bool
    ensures { result ≡ makes_target action.now }
{
    match action {
        Action::SetUri(_) | Action::SetPath(_) | Action::SetQuery(_) => true,
        _ => false,
    }
}

/// Whether the format of an action makes the key of an entry.
fn makes_key(action: &Action) -> bool
    ensures { result ≡ makes_key action.now }
{
    match action {
        Action::AddAcl(_, _) | Action::DelAcl(_, _) | Action::DelMap(_, _) => true,
        Action::SetMap(_, _, _) => true,
        _ => false,
    }
}

/// Whether the format of an action makes a location.
fn makes_location(action: &Action) -> bool
    ensures { result ≡ makes_location action.now }
{
    match action {
        Action::Redirect(_, _, _, _) => true,
        _ => false,
    }
}

/// The bytes of a constant.
fn constant_of(fetch: &Fetch) -> &[u8]
    ensures { result.now ≡ constant_of fetch.now }
{
    match fetch {
        Fetch::Str(text) => text.as_slice(),
        Fetch::Bin(bytes) => bytes.as_slice(),
        _ => b"",
    }
}

/// The bytes of a constant without converters.
fn constant_value<'f>(fetch: &'f Fetch, convs: &[Conv]) -> &'f [u8]
    ensures { result.now ≡ constant_value fetch.now convs.now }
{
    match convs {
        [] => constant_of(fetch),
        _ => b"",
    }
}

/// The bytes that a part of a format has whatever the request is.
fn constant_bytes(part: &Part) -> &[u8]
    ensures { result.now ≡ constant_bytes part.now }
{
    match part {
        Part::Text(bytes) => bytes.as_slice(),
        Part::Value(expr) => constant_value(&expr.fetch, expr.convs.as_slice()),
    }
}

/// Whether a byte is of a class.
fn is_in_class(class: ByteClass, byte: u8) -> bool
    ensures { result ≡ is_in_class class byte }
{
    match class {
        ByteClass::Control => (byte < 32 || byte == 127) && !is_line_end(byte),
        ByteClass::LineEnd => is_line_end(byte),
        ByteClass::OutsideTarget => byte <= 32 || byte >= 127,
        ByteClass::OutsideToken => !is_method_token(byte),
    }
}

/// Whether a byte is CR, LF or NUL.
fn is_line_end(byte: u8) -> bool
    ensures { result ≡ is_bad_value_byte byte }
{
    byte == b'\r' || byte == b'\n' || byte == 0
}

/// Whether one of the bytes is of a class.
fn some_in_class(class: ByteClass, bytes: &[u8]) -> bool
    ensures { result ≡ list_any (is_in_class class) bytes.now }
{
    bytes.iter().any(|byte| is_in_class(class, *byte))
}

/// Whether one of the constant bytes of a format is of a class.
fn has_byte(class: ByteClass, format: &Format) -> bool
    ensures { result ≡ has_byte class format.now }
{
    format
        .as_slice()
        .iter()
        .any(|part| some_in_class(class, constant_bytes(part)))
}

fn has_byte_in(class: ByteClass, format: Option<&Format>) -> bool
    ensures { result ≡ has_byte_in class (option_copied format.entry) }
{
    match format {
        Some(format) => has_byte(class, format),
        None => false,
    }
}

/// Whether a fetch finds a value in every request.
fn finds_always(fetch: &Fetch) -> bool
    ensures { result ≡ finds_always fetch.now }
{
    match fetch {
        Fetch::AlwaysTrue | Fetch::AlwaysFalse | Fetch::Bool(_) | Fetch::Int(_) => true,
        Fetch::Ipv4(_) | Fetch::Ipv6(_) | Fetch::Src | Fetch::Dst => true,
        Fetch::SrcPort | Fetch::DstPort | Fetch::Method | Fetch::ReqVer | Fetch::Url => true,
        Fetch::ReqHdrCnt(_) | Fetch::ReqCookCnt(_) => true,
        _ => false,
    }
}

/// Whether an expression gives a value for every request.
fn always_gives(fetch: &Fetch, convs: &[Conv]) -> bool
    ensures { result ≡ always_gives fetch.now convs.now }
{
    match convs {
        [] => finds_always(fetch),
        _ => false,
    }
}

/// Whether a part of a format gives a byte or more for every request.
fn gives_bytes(part: &Part) -> bool
    ensures { result ≡ gives_bytes part.now }
{
    match part {
        Part::Text(bytes) => !bytes.as_slice().is_empty(),
        Part::Value(expr) => {
            !constant_value(&expr.fetch, expr.convs.as_slice()).is_empty()
                || always_gives(&expr.fetch, expr.convs.as_slice())
        }
    }
}

fn may_be_empty(format: &Format) -> bool
    ensures { result ≡ may_be_empty format.now }
{
    !one_gives_bytes(format.as_slice())
}

fn one_gives_bytes(parts: &[Part]) -> bool
    ensures { result ≡ list_any gives_bytes parts.now }
{
    parts.iter().any(|part| gives_bytes(part))
}

fn may_be_empty_in(format: Option<&Format>) -> bool
    ensures { result ≡ may_be_empty_in (option_copied format.entry) }
{
    match format {
        Some(format) => may_be_empty(format),
        None => false,
    }
}

/// Whether a format is the empty text.
fn is_without_parts(format: Option<&Format>) -> bool
    ensures { result ≡ is_without_parts (option_copied format.entry) }
{
    match format {
        Some(format) => format.as_slice().is_empty(),
        None => false,
    }
}

/// Whether a name is `Host`, in either case.
fn is_host(name: &[u8]) -> bool
    ensures { result ≡ is_host name.now }
{
    name.eq_ignore_ascii_case(b"host")
}

/// Whether an action changes `Host`, or the whole target.
fn changes_host(action: &Action) -> bool
    ensures { result ≡ changes_host action.now }
{
    match action {
        Action::SetHeader(name, _) => is_host(name.as_slice()),
        Action::AddHeader(name, _) => is_host(name.as_slice()),
        Action::DelHeader(name) => is_host(name.as_slice()),
        Action::ReplaceHeader(name, _, _) => is_host(name.as_slice()),
        Action::ReplaceValue(name, _, _) => is_host(name.as_slice()),
        Action::SetUri(_) => true,
        _ => false,
    }
}

fn replaces_value(action: &Action) -> bool
    ensures { result ≡ replaces_value action.now }
{
    match action {
        Action::ReplaceValue(_, _, _) => true,
        _ => false,
    }
}

pub(crate) fn sets_method(action: &Action) -> bool
    ensures { result ≡ sets_method action.now }
{
    match action {
        Action::SetMethod(_) => true,
        _ => false,
    }
}

fn sets_target(action: &Action) -> bool
    ensures { result ≡ sets_target action.now }
{
    match action {
        Action::SetUri(_) => true,
        _ => false,
    }
}

fn sets_path(action: &Action) -> bool
    ensures { result ≡ sets_path action.now }
{
    match action {
        Action::SetPath(_) => true,
        _ => false,
    }
}

/// Whether a text begins otherwise than with `/`.
fn begins_otherwise(text: &[u8]) -> bool
    ensures { result ≡ begins_otherwise text.now }
{
    match text {
        [byte, ..] => *byte != b'/',
        [] => false,
    }
}

/// Whether the first part of a format is a text that begins otherwise than with `/`.
fn begins_without_slash(format: &Format) -> bool
    ensures { result ≡ begins_without_slash format.now }
{
    match format.as_slice() {
        [part, ..] => begins_otherwise(constant_bytes(part)),
        [] => false,
    }
}

fn begins_without_slash_in(format: Option<&Format>) -> bool
    ensures { result ≡ begins_without_slash_in (option_copied format.entry) }
{
    match format {
        Some(format) => begins_without_slash(format),
        None => false,
    }
}

fn is_of_response(scope: Scope) -> bool
    ensures { result ≡ is_of_response scope }
{
    match scope {
        Scope::Res => true,
        _ => false,
    }
}

fn sets_response_variable(action: &Action) -> bool
    ensures { result ≡ sets_response_variable action.now }
{
    match action {
        Action::SetVar(name, _) => is_of_response(name.scope),
        _ => false,
    }
}

/// Whether the second format of an action has a constant byte of a class.
fn value_has_byte(class: ByteClass, action: &Action) -> bool
    ensures { result ≡ value_has_byte class action.now }
{
    match action {
        Action::SetMap(_, _, value) => has_byte(class, value),
        _ => false,
    }
}

/// Whether there is no error page for a status.
fn has_no_page(status: &Option<u16>) -> bool
    ensures { result ≡ has_no_page status.now }
{
    match status {
        Some(status) => !is_listed(&PAGE_STATUSES, *status),
        None => false,
    }
}

fn is_listed(statuses: &[u16], status: u16) -> bool
    ensures { result ≡ list_any (λ other. status == other) statuses.now }
{
    statuses.iter().any(|other| status == *other)
}

fn denies_without_page(action: &Action) -> bool
    ensures { result ≡ denies_without_page action.now }
{
    match action {
        Action::Deny(status) => has_no_page(status),
        _ => false,
    }
}
