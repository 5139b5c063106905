ghost use Rattle.std.specs.Prelude.{◌≡◌, ◌++◌, option_map, IfOk, OnOk};
ghost use Rattle.hx_config.specs.Replacing.{as_replacement, begins_with_group, is_plain_byte};
ghost use Rattle.hx_config.specs.Replacing.{is_plain_text, path_and_query_replaced};
ghost use Rattle.hx_config.specs.Replacing.{path_and_query_set, path_replaced, replaced};
ghost use Rattle.hx_config.specs.Replacing.{target_replaced, target_said};

use crate::guards::{found_in, push_with_guard};
use crate::quoted::push_quoted;
use crate::removing::removal_said;
use crate::setting::setting_said;
use crate::words::{push, push_all};
use hx_text::{NoMemory, Octets};
use std::alloc::Global;

/// The scheme and the host of a target, where a path follows them, and else no bytes.
pub(crate) const AUTHORITY: &[u8] = b"%[url,regsub(\"^(?:([^/?]+//[^/?]*)/.*|.*)$\",\"\\1\")]";

/// The path and the query of a target, as an expression without a value where it has no path: what
/// follows scheme and host, up to the first blank, of which a target has none.
pub(crate) const PATH_AND_QUERY: &[u8] = b"url,regsub(\"^([^/?]+//)?[^/]*\",\"\"),word(1,\\x20)";

/// What stands for an action of `http-request` that changes a part of the target, with these words
/// after its name; none where it is another, or can't be said.
pub(crate) fn target_said(
    alloc: Global,
    action: &[u8],
    words: &[Octets],
) -> Result<Option<Vec<Octets>>, NoMemory>
    ensures { IfOk result
        (λ found. option_map (λ words. words.items) found ≡ target_said action.now words.now) }
{
    if action == b"replace-path".as_slice() {
        path_replaced(alloc, words)
    } else if action == b"replace-pathq".as_slice() {
        path_and_query_replaced(alloc, words)
    } else if action == b"replace-uri".as_slice() {
        target_replaced(alloc, words)
    } else if action == b"set-pathq".as_slice() {
        path_and_query_set(alloc, words)
    } else if action == b"del-header".as_slice() {
        removal_said(alloc, words)
    } else {
        setting_said(alloc, action, words)
    }
}

/// Another path, where the request has one.
fn path_replaced(alloc: Global, words: &[Octets]) -> Result<Option<Vec<Octets>>, NoMemory>
    ensures { IfOk result
        (λ found. option_map (λ words. words.items) found ≡ path_replaced words.now) }
{
    let [expression, replacement, condition @ ..] = words else {
        return Ok(None);
    };
    let mut guarded = Vec::new(alloc);
    let found = found_in(alloc, b"path")?;
    push_with_guard(alloc, &mut guarded, found.as_slice(), true, condition)?;
    replacement_said(
        alloc,
        (b"set-path", b"", b"path"),
        guarded.as_slice(),
        expression.as_slice(),
        replacement.as_slice(),
    )
}

/// Another path and query, where the request has a path.
fn path_and_query_replaced(alloc: Global, words: &[Octets]) -> Result<Option<Vec<Octets>>, NoMemory>
    ensures { IfOk result
        (λ found. option_map (λ words. words.items) found ≡ path_and_query_replaced words.now) }
{
    let [expression, replacement, condition @ ..] = words else {
        return Ok(None);
    };
    let mut guarded = Vec::new(alloc);
    let found = found_in(alloc, b"path")?;
    push_with_guard(alloc, &mut guarded, found.as_slice(), true, condition)?;
    replacement_said(
        alloc,
        (b"set-uri", AUTHORITY, PATH_AND_QUERY),
        guarded.as_slice(),
        expression.as_slice(),
        replacement.as_slice(),
    )
}

/// Another target.
fn target_replaced(alloc: Global, words: &[Octets]) -> Result<Option<Vec<Octets>>, NoMemory>
    ensures { IfOk result
        (λ found. option_map (λ words. words.items) found ≡ target_replaced words.now) }
{
    let [expression, replacement, condition @ ..] = words else {
        return Ok(None);
    };
    replacement_said(
        alloc,
        (b"set-uri", b"", b"url"),
        condition,
        expression.as_slice(),
        replacement.as_slice(),
    )
}

/// Another path and query by a format, after the scheme and the host.
fn path_and_query_set(alloc: Global, words: &[Octets]) -> Result<Option<Vec<Octets>>, NoMemory>
    ensures { IfOk result
        (λ found. option_map (λ words. words.items) found ≡ path_and_query_set words.now) }
{
    let [format, condition @ ..] = words else {
        return Ok(None);
    };
    let mut target = Vec::new(alloc);
    target.extend_from_slice(AUTHORITY)?;
    target.extend_from_slice(format.as_slice())?;
    let mut out = Vec::new(alloc);
    push(alloc, &mut out, b"http-request")?;
    push(alloc, &mut out, b"set-uri")?;
    out.push(Octets::from_vec(target))?;
    push_all(alloc, &mut out, condition)?;
    Ok(Some(out))
}

/// The rule of a replacement, by its action, what its format begins with and the fetch of what is
/// replaced. None where the replacement is no plain text.
fn replacement_said(
    alloc: Global,
    kind: (&[u8], &[u8], &[u8]),
    condition: &[Octets],
    expression: &[u8],
    replacement: &[u8],
) -> Result<Option<Vec<Octets>>, NoMemory>
    ensures { IfOk result (λ found. option_map (λ words. words.items) found
        ≡ as_replacement kind.entry.0.now kind.entry.1.now kind.entry.2.now condition.now
        expression.now replacement.now) }
{
    if !is_plain_text(replacement) {
        return Ok(None);
    }
    let mut format = Vec::new(alloc);
    format.extend_from_slice(kind.1)?;
    push_replaced(alloc, &mut format, kind.2, expression, replacement)?;
    let mut out = Vec::new(alloc);
    push(alloc, &mut out, b"http-request")?;
    push(alloc, &mut out, kind.0)?;
    out.push(Octets::from_vec(format))?;
    push_all(alloc, &mut out, condition)?;
    Ok(Some(out))
}

/// Appends `%[FETCH,regsub("EXPRESSION","REPLACEMENT")]`, with the expression over the whole.
fn push_replaced(
    alloc: Global,
    out: &mut Vec<u8>,
    fetch: &[u8],
    expression: &[u8],
    replacement: &[u8],
) -> Result<(), NoMemory>
    ensures { OnOk result (out.new.items
        ≡ out.old.items ++ replaced fetch.now expression.now replacement.now) }
{
    let mut whole = Vec::new(alloc);
    whole.extend_from_slice(b"^.*?(?:")?;
    whole.extend_from_slice(expression)?;
    whole.extend_from_slice(b").*$")?;
    out.extend_from_slice(b"%[")?;
    out.extend_from_slice(fetch)?;
    out.extend_from_slice(b",regsub(")?;
    push_quoted(out, whole.as_slice())?;
    out.extend_from_slice(b",")?;
    push_quoted(out, replacement)?;
    out.extend_from_slice(b")]")?;
    Ok(())
}

/// Whether a replacement has nothing but plain bytes and groups.
fn is_plain_text(text: &[u8]) -> bool
    ensures { result ≡ is_plain_text text.now }
{
    let mut rest = text;
    while let [byte, others @ ..] = rest {
        if !is_plain_byte(*byte, others) {
            return false;
        }
        rest = others;
    }
    true
}

/// Whether a byte with these after it stands for itself, or is the backslash of a group.
fn is_plain_byte(byte: u8, after: &[u8]) -> bool
    ensures { result ≡ is_plain_byte byte after.now }
{
    match byte {
        b'%' => false,
        b'\\' => begins_with_group(after),
        _ => true,
    }
}

/// Whether these bytes begin with the number of a group, from 1 to 9.
fn begins_with_group(text: &[u8]) -> bool
    ensures { result ≡ begins_with_group text.now }
{
    match text {
        [byte, ..] => b'0' < *byte && *byte < b':',
        [] => false,
    }
}
