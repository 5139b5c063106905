ghost use Rattle.std.specs.Prelude.{◌≡◌, ◌≤◌, ◌==◌, ◌&&◌, ◌++◌, not, length, drop, take, map, false, option_map, Some, IfOk, IfSome, IsOk, if◌then◌else◌};
ghost use Rattle.std.specs.List.{list_any, position_or_len};
ghost use Rattle.std.specs.Option.{option_map_or};
ghost use Rattle.hx_base.specs.Bytes.{ascii};
ghost use Rattle.hx_sample.specs.Cast.{is_not_zero};
ghost use Rattle.hx_sample.specs.Seen.{bytes_of};
ghost use Rattle.percent_encoding.specs.Percent.{percent_decode};
ghost use Rattle.hx_conv_text.specs.Converters.{AreInputWhereEqual};
ghost use Rattle.hx_conv_text.specs.UrlDecoding.{has_digits, is_encoded, query_start, space_for_plus, spaced_from, url_dec_of};

use hx_sample::Bytes;
use hx_text::{NoMemory, Octets};
use percent_encoding::percent_decode;
use std::alloc::Global;

/// The text decoded. None where a `%` begins no escape. A text in which nothing stands for another
/// byte stays as it is, lent or owned, and no memory is taken.
pub(crate) fn url_dec<'a>(
    alloc: Global,
    form: Option<i64>,
    text: Bytes<'a>,
) -> Result<Option<Bytes<'a>>, NoMemory>
    ensures value { IfOk result (λ made.
        option_map bytes_of made ≡ url_dec_of form (bytes_of text.entry)) }
    ensures kept { IfOk result (λ made. IfSome made (AreInputWhereEqual text.entry)) }
    ensures free { url_dec_of form (bytes_of text.entry) ≡ Some (bytes_of text.entry)
        → IsOk result }
{
    let bytes = text.as_slice();
    if !is_encoded(bytes) {
        return Ok(None);
    }
    let query = query_start(is_form(form), bytes);
    if is_plain(bytes, query) {
        return Ok(Some(text));
    }
    let made = decoded(alloc, bytes, query)?;
    Ok(Some(Bytes::Own(made)))
}

fn is_form(form: Option<i64>) -> bool
    ensures { result ≡ option_map_or is_not_zero form false }
{
    match form {
        Some(form) => form != 0,
        None => false,
    }
}

fn begins_digits(text: &[u8], at: usize) -> bool
    requires { at ≤ length text.now }
    ensures { result ≡ has_digits (drop at text.now) }
{
    match &text[at..] {
        [high, low, ..] => high.is_ascii_hexdigit() && low.is_ascii_hexdigit(),
        _ => false,
    }
}

fn is_encoded(text: &[u8]) -> bool
    ensures { result ≡ is_encoded text.now }
{
    for i in 0..text.len() {
        if text[i] == b'%' && !begins_digits(text, i + 1) {
            return false;
        }
    }
    true
}

/// How many bytes stand before the first `?`.
fn before_query(text: &[u8]) -> usize
    ensures value { result ≡ position_or_len (λ b. b == ascii "?") text.now }
    ensures within { result ≤ length text.now }
{
    text.iter().take_while(|b| **b != b'?').count()
}

/// From where on a `+` stands for a space: from the start in a form, and else from the first `?`.
fn query_start(form: bool, text: &[u8]) -> usize
    ensures value { result ≡ query_start form text.now }
    ensures within { result ≤ length text.now }
{
    if form { 0 } else { before_query(text) }
}

/// Whether no byte stands for another: there is no `%`, and no `+` from `query` on.
fn is_plain(text: &[u8], query: usize) -> bool
    requires { query ≤ length text.now }
    ensures { result ≡ (not (list_any (λ b. b == ascii "%") text.now)
        && not (list_any (λ b. b == ascii "+") (drop query text.now))) }
{
    let (_, after) = text.split_at(query);
    !text.contains(&b'%') && !after.contains(&b'+')
}

fn space_for_plus(b: u8) -> u8
    ensures { result ≡ space_for_plus b }
{
    if b == b'+' { b' ' } else { b }
}

/// The text with a space for each `+` from `query` on.
fn with_spaces(alloc: Global, text: &[u8], query: usize) -> Result<Vec<u8>, NoMemory>
    requires { query ≤ length text.now }
    ensures { IfOk result (λ made. made.items ≡ spaced_from query text.now) }
{
    let (before, after) = text.split_at(query);
    let mut made = Vec::with_capacity(alloc, text.len())?;
    made.extend_from_slice(before)?;
    for b in after {
        made.push(space_for_plus(*b))?;
    }
    Ok(made)
}

/// The text with a space for each `+` from `query` on, and then a byte for each escape.
fn decoded(alloc: Global, text: &[u8], query: usize) -> Result<Octets, NoMemory>
    requires { query ≤ length text.now }
    ensures { IfOk result (λ made. made ≡ percent_decode (spaced_from query text.now)) }
{
    let spaced = with_spaces(alloc, text, query)?;
    let mut made = Vec::with_capacity(alloc, spaced.len())?;
    percent_decode(&spaced).append_to(&mut made)?;
    Ok(Octets::from_vec(made))
}
