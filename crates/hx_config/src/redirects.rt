ghost use Rattle.std.specs.Prelude.{◌≡◌, ◌++◌, ◌∷◌, [], codes, option_and_then, option_map, IfOk, OnOk, Some};
ghost use Rattle.std.specs.Option.{option_copied};
ghost use Rattle.hx_base.specs.Bytes.{ascii};
ghost use Rattle.hx_words.specs.Calls.{calls_of};
ghost use Rattle.hx_config.specs.Redirects.{as_redirect, begins_with_text, condition_said};
ghost use Rattle.hx_config.specs.Redirects.{is_found_once, kind_of, kind_said, lone_expression};
ghost use Rattle.hx_config.specs.Redirects.{prefix_text, redirect_end, redirect_value};
ghost use Rattle.hx_config.specs.Redirects.{redirect_with, slashed, slashed_rest};
ghost use Rattle.hx_config.specs.Redirects.{where_not_empty, whole_call};
ghost use Rattle.hx_config.specs.SaidView.{kind_view};

use crate::guards::{not_empty_in, push_with_guard};
use crate::options::{OptionRow, after_options, value_of};
use crate::words::{copied, push, push_all, push_joined};
use hx_lint::is_among;
use hx_text::{NoMemory, Octets};
use hx_words::{ArgFault, Calls, calls};
use std::alloc::Global;

/// The options of a redirect, with a letter for each argument (HAProxy configuration manual 2.6,
/// section 4.2).
pub(crate) const REDIRECT_OPTIONS: [OptionRow; 9] = [
    (b"location", b"t"),
    (b"prefix", b"t"),
    (b"scheme", b"t"),
    (b"code", b"n"),
    (b"drop-query", b""),
    (b"append-slash", b""),
    (b"ignore-empty", b""),
    (b"set-cookie", b"t"),
    (b"clear-cookie", b"t"),
];

/// The target from its path on, with a slash at its end: what follows scheme and host.
pub(crate) const SLASHED: &[u8] =
    b"%[url,regsub(\"^([^/?]+//)?[^/]*\",\"\"),regsub(\"/?$\",\"/\")]";

/// The same without the query.
pub(crate) const SLASHED_PATH: &[u8] =
    b"%[url,regsub(\"^([^/?]+//)?[^/]*\",\"\"),regsub(\"[?].*\",\"\"),regsub(\"/?$\",\"/\")]";

/// What stands between a scheme and a path: the first value of `Host`.
pub(crate) const HOST: &[u8] = b"://%[req.hdr(Host,1)]";

/// Fetches that find one value at most.
pub(crate) const ONCE_FOUND: [&[u8]; 12] = [
    b"path",
    b"pathq",
    b"url",
    b"base",
    b"query",
    b"var",
    b"str",
    b"src",
    b"dst",
    b"method",
    b"req.ver",
    b"capture.req.uri",
];

/// What stands for a redirect with these words after it: the words `before`, and the redirect as
/// hxeval takes it. `is_rule` says that it is a rule of `http-request`. None where it can't be
/// said.
pub(crate) fn redirect_said(
    alloc: Global,
    before: Vec<Octets>,
    is_rule: bool,
    words: &[Octets],
) -> Result<Option<Vec<Octets>>, NoMemory>
    ensures { IfOk result (λ found. option_map (λ words. words.items) found
        ≡ option_map (λ redirect. before.items ++ redirect) (as_redirect is_rule words.now)) }
{
    match after_options(&REDIRECT_OPTIONS, words) {
        Some(after) => redirect_under(alloc, before, is_rule, after, words),
        None => Ok(None),
    }
}

/// The same where this condition follows the options.
fn redirect_under(
    alloc: Global,
    before: Vec<Octets>,
    is_rule: bool,
    after: &[Octets],
    words: &[Octets],
) -> Result<Option<Vec<Octets>>, NoMemory>
    ensures { IfOk result (λ found. option_map (λ words. words.items) found
        ≡ option_map (λ redirect. before.items ++ redirect)
        (option_and_then (λ condition. redirect_with condition words.now)
        (condition_said is_rule after.now words.now))) }
{
    match condition_said(alloc, is_rule, after, words)? {
        Some(condition) => redirect_with(alloc, before, condition.as_slice(), words),
        None => Ok(None),
    }
}

/// The redirect of these words, before this condition and after the words `before`.
fn redirect_with(
    alloc: Global,
    before: Vec<Octets>,
    condition: &[Octets],
    words: &[Octets],
) -> Result<Option<Vec<Octets>>, NoMemory>
    ensures { IfOk result (λ found. option_map (λ words. words.items) found
        ≡ option_map (λ redirect. before.items ++ redirect)
        (redirect_with condition.now words.now)) }
{
    match redirect_kind(words) {
        Some((kind, format)) => {
            let mut out = before;
            push_kind(alloc, &mut out, kind, format, words)?;
            push_redirect_end(alloc, &mut out, words)?;
            push_all(alloc, &mut out, condition)?;
            Ok(Some(out))
        }
        None => Ok(None),
    }
}

/// The kind and the format of a redirect, where its options give one kind.
fn redirect_kind(words: &[Octets]) -> Option<(&[u8], &[u8])>
    ensures { kind_view result ≡ kind_of (redirect_value (codes "location") words.now)
        (redirect_value (codes "prefix") words.now) (redirect_value (codes "scheme") words.now) }
{
    match (
        value_of(&REDIRECT_OPTIONS, b"location", words),
        value_of(&REDIRECT_OPTIONS, b"prefix", words),
        value_of(&REDIRECT_OPTIONS, b"scheme", words),
    ) {
        (Some(format), None, None) => Some((b"location", format)),
        (None, Some(format), None) => Some((b"prefix", format)),
        (None, None, Some(format)) => Some((b"scheme", format)),
        _ => None,
    }
}

/// Appends the kind and the format, with a slash at the end where the options ask for it.
fn push_kind(
    alloc: Global,
    out: &mut Vec<Octets>,
    kind: &[u8],
    format: &[u8],
    words: &[Octets],
) -> Result<(), NoMemory>
    ensures { OnOk result (out.new.items
        ≡ out.old.items ++ kind_said words.now (kind.now ∷ format.now ∷ [])) }
{
    match slashed_rest(words) {
        Some(rest) => push_slashed(alloc, out, kind, format, rest),
        None => {
            push(alloc, out, kind)?;
            push(alloc, out, format)
        }
    }
}

/// The format of the target from its path on with a slash at its end, where the options ask for it.
fn slashed_rest(words: &[Octets]) -> Option<&'static [u8]>
    ensures { option_copied result ≡ slashed_rest words.now }
{
    if value_of(&REDIRECT_OPTIONS, b"append-slash", words).is_none() {
        None
    } else if value_of(&REDIRECT_OPTIONS, b"drop-query", words).is_some() {
        Some(SLASHED_PATH)
    } else {
        Some(SLASHED)
    }
}

/// Appends the location that ends in this format, or the kind and the format as they are.
fn push_slashed(
    alloc: Global,
    out: &mut Vec<Octets>,
    kind: &[u8],
    format: &[u8],
    rest: &[u8],
) -> Result<(), NoMemory>
    ensures { OnOk result (out.new.items
        ≡ out.old.items ++ slashed rest.now (kind.now ∷ format.now ∷ [])) }
{
    if kind == b"prefix".as_slice() {
        push(alloc, out, b"location")?;
        push_joined(alloc, out, prefix_text(format), rest, b"")
    } else if kind == b"scheme".as_slice() {
        push(alloc, out, b"location")?;
        push_joined(alloc, out, format, HOST, rest)
    } else {
        push(alloc, out, kind)?;
        push(alloc, out, format)
    }
}

/// The prefix, or nothing where it is a slash alone.
fn prefix_text(format: &[u8]) -> &[u8]
    ensures { result.now ≡ prefix_text format.now }
{
    if format == b"/".as_slice() {
        b""
    } else {
        format
    }
}

/// Appends what hxeval takes after the kind and the format.
fn push_redirect_end(alloc: Global, out: &mut Vec<Octets>, words: &[Octets]) -> Result<(), NoMemory>
    ensures { OnOk result (out.new.items ≡ out.old.items ++ redirect_end words.now) }
{
    if let Some(code) = value_of(&REDIRECT_OPTIONS, b"code", words) {
        push(alloc, out, b"code")?;
        push(alloc, out, code)?;
    }
    if value_of(&REDIRECT_OPTIONS, b"drop-query", words).is_some() {
        push(alloc, out, b"drop-query")?;
    }
    Ok(())
}

/// The condition of a redirect after whose options this one stands; none where it can't be said.
fn condition_said(
    alloc: Global,
    is_rule: bool,
    after: &[Octets],
    words: &[Octets],
) -> Result<Option<Vec<Octets>>, NoMemory>
    ensures { IfOk result (λ found. option_map (λ words. words.items) found
        ≡ condition_said is_rule after.now words.now) }
{
    if !is_rule || value_of(&REDIRECT_OPTIONS, b"ignore-empty", words).is_none() {
        return Ok(Some(copied(alloc, after)?));
    }
    match value_of(&REDIRECT_OPTIONS, b"location", words) {
        Some(format) => where_not_empty(alloc, format, after),
        None => Ok(Some(copied(alloc, after)?)),
    }
}

/// The condition under which the format makes some text where this one holds.
fn where_not_empty(
    alloc: Global,
    format: &[u8],
    condition: &[Octets],
) -> Result<Option<Vec<Octets>>, NoMemory>
    ensures { IfOk result (λ found. option_map (λ words. words.items) found
        ≡ where_not_empty format.now condition.now) }
{
    if begins_with_text(format) {
        return Ok(Some(copied(alloc, condition)?));
    }
    match lone_expression(alloc, format)? {
        Some(expression) => {
            let test = not_empty_in(alloc, expression)?;
            let mut out = Vec::new(alloc);
            push_with_guard(alloc, &mut out, test.as_slice(), true, condition)?;
            Ok(Some(out))
        }
        None => Ok(None),
    }
}

/// Whether a format begins with a byte that stands for itself.
fn begins_with_text(format: &[u8]) -> bool
    ensures { result ≡ begins_with_text format.now }
{
    match format {
        [byte, ..] => *byte != b'%',
        [] => false,
    }
}

/// The expression of a format that is one alone, where it finds one value at most.
fn lone_expression(alloc: Global, format: &[u8]) -> Result<Option<&[u8]>, NoMemory>
    ensures { IfOk result (λ found. option_copied found ≡ lone_expression format.now) }
{
    match format {
        [percent, bracket, inside @ ..] if *percent == b'%' && *bracket == b'[' => {
            whole_call(alloc, inside)
        }
        _ => Ok(None),
    }
}

/// The same by what follows the bracket.
fn whole_call(alloc: Global, inside: &[u8]) -> Result<Option<&[u8]>, NoMemory>
    ensures { IfOk result (λ found. option_copied found
        ≡ whole_call inside.now (calls_of (Some (ascii "]")) inside.now)) }
{
    match calls(alloc, inside, Some(b']')) {
        Ok(found) => {
            let used = found.used();
            if used == inside.len() && is_found_once(&found) {
                Ok(Some(&inside[..used.saturating_sub(1)]))
            } else {
                Ok(None)
            }
        }
        Err(ArgFault::NoMemory) => Err(NoMemory),
        Err(_) => Ok(None),
    }
}

/// Whether the first call is one that finds one value at most.
fn is_found_once(found: &Calls) -> bool
    ensures { result ≡ is_found_once found.now.calls }
{
    match found.call(0) {
        Some(call) => is_among(&ONCE_FOUND, call.name()),
        None => false,
    }
}
