ghost use Rattle.std.specs.Prelude.{◌≡◌, ℕ, ◌+◌, ◌-◌, ◌++◌, ◌≤◌, Bool, false, length, List, Some, option_map, option_to_list, unwrap_or, IfOk, IfSome, IsTrue, OnOk};
ghost use Rattle.regex.specs.Bytes.{matcher_pattern, regex_pattern};
ghost use Rattle.regex.specs.Patterns.{find, find_all};
ghost use Rattle.regex.specs.Replace.{replaced_by};
ghost use Rattle.regex.specs.Search.{next_match};
ghost use Rattle.hx_outside.specs.Expressions.{expression, IsExpression};
ghost use Rattle.hx_sample.specs.Seen.{bytes_of};
ghost use Rattle.hx_conv_text.specs.Captured.{captured};
ghost use Rattle.hx_conv_text.specs.Converters.{AreInputWhereEqual};
ghost use Rattle.hx_conv_text.specs.Substitution.{expansion, expansion_at, expanded_of, substituted_text};
ghost use Rattle.hx_conv_text.specs.Writing.{end_of, written_at};

use crate::replacing::{with_each_fixed, with_first_fixed};
use hx_regex::{RegularExpression, Search};
use hx_sample::Bytes;
use hx_text::{NoMemory, Octets};
use regex::bytes::{Captures, Matcher, Regex};
use std::alloc::{AllocError, Global};

/// The bytes of a group, or nothing where it took no part.
fn group<'h>(captures: &Captures<'_, 'h>, number: u8) -> &'h [u8]
    ensures { result.now ≡ captured captures.now number }
{
    match captures.get(number as usize) {
        Some(found) => found.as_bytes(),
        None => &[],
    }
}

/// Appends the replacement `sub` at a match. Where memory runs out it may have appended a part.
fn append_expansion(
    made: &mut Vec<u8>,
    sub: &[u8],
    captures: &Captures<'_, '_>,
) -> Result<(), AllocError>
    ensures { OnOk result (made.new.items
        ≡ made.old.items ++ expansion (captured captures.now) sub.now) }
{
    let mut at = 0;
    while at < sub.len() {
        let b = sub[at];
        if b != b'\\' || at + 1 == sub.len() {
            made.push(b)?;
            at += 1;
            continue;
        }
        let next = sub[at + 1];
        if next.is_ascii_digit() {
            made.extend_from_slice(group(captures, next - b'0'))?;
        } else if next == b'\\' {
            made.push(b'\\')?;
        } else {
            made.extend_from_slice(&[b'\\', next])?;
        }
        at += 2;
    }
    Ok(())
}

/// The replacement `sub` at a match.
fn expansion(alloc: Global, sub: &[u8], captures: &Captures<'_, '_>) -> Result<Vec<u8>, AllocError>
    ensures { IfOk result (λ made. made.items ≡ expansion (captured captures.now) sub.now) }
{
    let room = sub.len().saturating_add(captures.get_match().len());
    let mut made = Vec::with_capacity(alloc, room)?;
    append_expansion(&mut made, sub, captures)?;
    Ok(made)
}

/// Whether the replacement is the same at each match: without a backslash it names no group.
fn is_fixed(sub: &[u8]) -> bool
    ensures { IsTrue result → (group : ℕ → List ℕ) → expansion group sub.now ≡ sub.now }
{
    !sub.contains(&b'\\')
}

/// A replacement that is the same at each match, where there is one. None exactly where nothing
/// matches.
fn fixed_expansion(
    alloc: Global,
    matcher: &mut Matcher<'_>,
    sub: &[u8],
    input: &[u8],
) -> Result<Option<Octets>, NoMemory>
    requires { (group : ℕ → List ℕ) → expansion group sub.now ≡ sub.now }
    ensures value { IfOk result (λ made. made ≡ option_map (expansion_at sub.now input.now)
        (find (matcher_pattern matcher.old) input.now 0)) }
    ensures same { matcher_pattern matcher.new ≡ matcher_pattern matcher.old }
{
    if matcher.is_match(input) {
        Ok(Some(Octets::copy(alloc, sub)?))
    } else {
        Ok(None)
    }
}

/// A replacement that names groups, at the leftmost match. None exactly where nothing matches.
fn captured_expansion(
    alloc: Global,
    matcher: &mut Matcher<'_>,
    sub: &[u8],
    input: &[u8],
) -> Result<Option<Octets>, NoMemory>
    ensures value { IfOk result (λ made. made ≡ option_map (expansion_at sub.now input.now)
        (find (matcher_pattern matcher.old) input.now 0)) }
    ensures same { matcher_pattern matcher.new ≡ matcher_pattern matcher.old }
{
    match matcher.captures(input) {
        Some(captures) => Ok(Some(Octets::from_vec(expansion(alloc, sub, &captures)?))),
        None => Ok(None),
    }
}

/// The replacement `sub` at the leftmost match of what the matcher searches for. None exactly where
/// nothing matches.
fn first_expansion(
    alloc: Global,
    matcher: &mut Matcher<'_>,
    sub: &[u8],
    input: &[u8],
) -> Result<Option<Octets>, NoMemory>
    ensures value { IfOk result (λ made. made ≡ option_map (expansion_at sub.now input.now)
        (find (matcher_pattern matcher.old) input.now 0)) }
    ensures same { matcher_pattern matcher.new ≡ matcher_pattern matcher.old }
{
    if is_fixed(sub) {
        fixed_expansion(alloc, matcher, sub, input)
    } else {
        captured_expansion(alloc, matcher, sub, input)
    }
}

/// What replaces the leftmost match of `re` in `input`: the bytes of `sub`, in which a backslash
/// and a digit are the text of the group of that number, 0 for the whole match, and nothing where
/// it took no part; two backslashes are one; and a backslash before any other byte, or at the end,
/// stays (HAProxy configuration manual 2.4, section 7.3.1, `regsub`).
///
/// None exactly where nothing matches. `NoMemory` where memory runs out.
pub fn expand(
    alloc: Global,
    re: &Regex,
    sub: &[u8],
    input: &[u8],
) -> Result<Option<Octets>, NoMemory>
    ensures value { IfOk result (λ made. made
        ≡ option_map (expansion_at sub.now input.now) (find (regex_pattern re.now) input.now 0)) }
    ensures text { (ci : Bool) (text : List ℕ) → IsExpression ci text re.now →
        IfOk result (λ made. made ≡ expanded_of ci text sub.now input.now) }
{
    let mut matcher = re.matcher(alloc)?;
    let made = first_expansion(alloc, &mut matcher, sub, input)?;
    Ok(made)
}

/// The same by an expression that keeps what a search sets up.
pub fn expand_by(
    alloc: Global,
    re: &RegularExpression,
    sub: &[u8],
    input: &[u8],
) -> Result<Option<Octets>, NoMemory>
    ensures { IfOk result (λ made. made
        ≡ expanded_of re.now.ci re.now.text sub.now input.now) }
{
    match re.search(alloc)? {
        Search::Fresh(mut matcher) => {
            let made = first_expansion(alloc, &mut *matcher, sub, input)?;
            Ok(made)
        }
        Search::Kept(mut kept) => {
            let made = first_expansion(alloc, &mut *kept.matcher, sub, input)?;
            re.keep(kept);
            Ok(made)
        }
    }
}

/// Searches from `from` on for the match that follows one which ended before `after`, and appends to
/// `made` what stands between the two and what `sub` stands for there. An empty match right where
/// the last one ended is none: nothing is appended. The result is where the match ends that was
/// found. Before the first match `after` is 0.
fn write_from(
    matcher: &mut Matcher<'_>,
    sub: &[u8],
    input: &[u8],
    after: usize,
    from: usize,
    made: &mut Vec<u8>,
) -> Result<Option<usize>, AllocError>
    requires begins { after - 1 ≤ from }
    ensures found { IfOk result (λ end. end
        ≡ option_map end_of (find (matcher_pattern matcher.old) input.now from)) }
    ensures made { IfOk result (λ _. made.new.items ≡ made.old.items
        ++ written_at sub.now input.now after (find (matcher_pattern matcher.old) input.now from)) }
    ensures within { IfOk result (λ end. IfSome end (λ n. n ≤ length input.now)) }
    ensures same { matcher_pattern matcher.new ≡ matcher_pattern matcher.old }
{
    match matcher.captures_at(input, from) {
        Some(captures) => {
            let found = captures.get_match();
            if found.end() < after {
                return Ok(Some(found.end()));
            }
            let last = after.saturating_sub(1);
            let left = input.len() - last;
            made.reserve(left.saturating_add(sub.len()))?;
            made.extend_from_slice(&input[last..found.start()])?;
            append_expansion(made, sub, &captures)?;
            Ok(Some(found.end()))
        }
        None => Ok(None),
    }
}

/// Appends to `made` what stands between the match that ended before `after` and the next one, and
/// what `sub` stands for there. The result is where the next match ends, and None where there is
/// none. Before the first match `after` is 0. At the end of the input nothing is searched.
fn write_next(
    matcher: &mut Matcher<'_>,
    sub: &[u8],
    input: &[u8],
    after: usize,
    made: &mut Vec<u8>,
) -> Result<Option<usize>, AllocError>
    requires { after ≤ length input.now + 1 }
    ensures found { IfOk result (λ end. end
        ≡ option_map end_of (next_match false (matcher_pattern matcher.old) input.now after)) }
    ensures made { IfOk result (λ _. made.new.items ≡ made.old.items
        ++ written_at sub.now input.now after
        (next_match false (matcher_pattern matcher.old) input.now after)) }
    ensures within { IfOk result (λ end. IfSome end (λ n. n ≤ length input.now)) }
    ensures same { matcher_pattern matcher.new ≡ matcher_pattern matcher.old }
{
    if after > input.len() {
        return Ok(None);
    }
    let last = after.saturating_sub(1);
    let Some(end) = write_from(matcher, sub, input, after, last, made)? else {
        return Ok(None);
    };
    // An empty match right where the last one ended: the next begins at least one byte later.
    if end < after {
        return write_from(matcher, sub, input, after, after, made);
    }
    Ok(Some(end))
}

/// The input with the leftmost match replaced by what `sub` stands for there. None where nothing
/// matches.
fn with_first_expanded(
    alloc: Global,
    matcher: &mut Matcher<'_>,
    sub: &[u8],
    input: &[u8],
) -> Result<Option<Octets>, NoMemory>
    ensures value { IfOk result (λ made. unwrap_or made input.now
        ≡ replaced_by (expansion_at sub.now input.now) input.now 0
        (option_to_list (find (matcher_pattern matcher.old) input.now 0))) }
    ensures same { matcher_pattern matcher.new ≡ matcher_pattern matcher.old }
{
    let mut made = Vec::new(alloc);
    match write_from(matcher, sub, input, 0, 0, &mut made)? {
        Some(end) => {
            made.extend_from_slice(&input[end..])?;
            Ok(Some(Octets::from_vec(made)))
        }
        None => Ok(None),
    }
}

/// The input with each match replaced by what `sub` stands for there. None where nothing matches:
/// no memory is taken before the first match.
fn with_each_expanded(
    alloc: Global,
    matcher: &mut Matcher<'_>,
    sub: &[u8],
    input: &[u8],
) -> Result<Option<Octets>, NoMemory>
    ensures value { IfOk result (λ made. unwrap_or made input.now
        ≡ replaced_by (expansion_at sub.now input.now) input.now 0
        (find_all (matcher_pattern matcher.old) input.now)) }
    ensures same { matcher_pattern matcher.new ≡ matcher_pattern matcher.old }
{
    let mut made = Vec::new(alloc);
    let mut after = 0;
    while let Some(end) = write_next(matcher, sub, input, after, &mut made)? {
        after = end + 1;
    }
    if after == 0 {
        return Ok(None);
    }
    made.extend_from_slice(&input[after - 1..])?;
    Ok(Some(Octets::from_vec(made)))
}

/// The input with the leftmost match replaced. None where nothing matches.
fn with_first_replaced(
    alloc: Global,
    matcher: &mut Matcher<'_>,
    sub: &[u8],
    input: &[u8],
) -> Result<Option<Octets>, NoMemory>
    ensures value { IfOk result (λ made. unwrap_or made input.now
        ≡ replaced_by (expansion_at sub.now input.now) input.now 0
        (option_to_list (find (matcher_pattern matcher.old) input.now 0))) }
    ensures same { matcher_pattern matcher.new ≡ matcher_pattern matcher.old }
{
    if is_fixed(sub) {
        with_first_fixed(alloc, matcher, sub, input)
    } else {
        with_first_expanded(alloc, matcher, sub, input)
    }
}

/// The input with each match replaced. None where nothing matches.
fn with_each_replaced(
    alloc: Global,
    matcher: &mut Matcher<'_>,
    sub: &[u8],
    input: &[u8],
) -> Result<Option<Octets>, NoMemory>
    ensures value { IfOk result (λ made. unwrap_or made input.now
        ≡ replaced_by (expansion_at sub.now input.now) input.now 0
        (find_all (matcher_pattern matcher.old) input.now)) }
    ensures same { matcher_pattern matcher.new ≡ matcher_pattern matcher.old }
{
    if is_fixed(sub) {
        with_each_fixed(alloc, matcher, sub, input)
    } else {
        with_each_expanded(alloc, matcher, sub, input)
    }
}

/// The input with the leftmost match, or each match, replaced. None where nothing matches.
fn substituted(
    alloc: Global,
    matcher: &mut Matcher<'_>,
    sub: &[u8],
    each: bool,
    input: &[u8],
) -> Result<Option<Octets>, NoMemory>
    ensures value { IfOk result (λ made. unwrap_or made input.now
        ≡ substituted_text (matcher_pattern matcher.old) sub.now each input.now) }
    ensures same { matcher_pattern matcher.new ≡ matcher_pattern matcher.old }
{
    if each {
        with_each_replaced(alloc, matcher, sub, input)
    } else {
        with_first_replaced(alloc, matcher, sub, input)
    }
}

/// The same by an expression that keeps what a search sets up.
fn substituted_by(
    alloc: Global,
    re: &RegularExpression,
    sub: &[u8],
    each: bool,
    input: &[u8],
) -> Result<Option<Octets>, NoMemory>
    ensures { IfOk result (λ made. Some (unwrap_or made input.now)
        ≡ option_map (λ pattern. substituted_text pattern sub.now each input.now)
        (expression re.now.ci re.now.text)) }
{
    match re.search(alloc)? {
        Search::Fresh(mut matcher) => {
            let made = substituted(alloc, &mut *matcher, sub, each, input)?;
            Ok(made)
        }
        Search::Kept(mut kept) => {
            let made = substituted(alloc, &mut *kept.matcher, sub, each, input)?;
            re.keep(kept);
            Ok(made)
        }
    }
}

/// What was made of the input, or the input itself where both have the same bytes.
fn unless_equal<'a>(input: Bytes<'a>, made: Octets) -> Bytes<'a>
    ensures value { bytes_of result ≡ made }
    ensures kept { AreInputWhereEqual input.entry result }
{
    if input.as_slice() == made.as_slice() {
        input
    } else {
        Bytes::Own(made)
    }
}

/// The input with the leftmost match of `re`, or each match, replaced. Where that leaves its bytes
/// as they are the input stays, lent or owned.
pub(crate) fn regsub<'a>(
    alloc: Global,
    re: &RegularExpression,
    sub: &[u8],
    each: bool,
    input: Bytes<'a>,
) -> Result<Bytes<'a>, NoMemory>
    ensures value { IfOk result (λ made. Some (bytes_of made)
        ≡ option_map (λ pattern. substituted_text pattern sub.now each (bytes_of input.entry))
        (expression re.now.ci re.now.text)) }
    ensures kept { IfOk result (AreInputWhereEqual input.entry) }
{
    match substituted_by(alloc, re, sub, each, input.as_slice())? {
        Some(made) => Ok(unless_equal(input, made)),
        None => Ok(input),
    }
}
