//! Parts of a text replaced by a text that is the same at each: no groups are asked for.
ghost use Rattle.std.specs.Prelude.{◌≡◌, ◌+◌, ◌++◌, ◌≤◌, false, Some, drop, take, length, option_map, option_to_list, unwrap_or, IfOk, IfSome, OnOk};
ghost use Rattle.regex.specs.Bytes.{match_haystack, match_span, matcher_pattern};
ghost use Rattle.regex.specs.Patterns.{find, find_all, span};
ghost use Rattle.regex.specs.Replace.{replaced_by};
ghost use Rattle.regex.specs.Search.{next_match};

use hx_text::{NoMemory, Octets};
use regex::bytes::{Match, Matcher};
use std::alloc::{AllocError, Global};

/// The input with the bytes from `start` to `end` replaced.
pub(crate) fn with_part_replaced(
    alloc: Global,
    input: &[u8],
    start: usize,
    end: usize,
    replacement: &[u8],
) -> Result<Octets, NoMemory>
    requires starts { start ≤ length input.now }
    requires ends { end ≤ length input.now }
    ensures { IfOk result (λ made.
        made ≡ take start input.now ++ replacement.now ++ drop end input.now) }
{
    let kept = start.saturating_add(input.len() - end);
    let mut made = Vec::with_capacity(alloc, kept.saturating_add(replacement.len()))?;
    made.extend_from_slice(&input[..start])?;
    made.extend_from_slice(replacement)?;
    made.extend_from_slice(&input[end..])?;
    Ok(Octets::from_vec(made))
}

/// Appends the text. A single byte, as most marks are, is pushed, which costs less than to copy a
/// block.
fn append(made: &mut Vec<u8>, text: &[u8]) -> Result<(), AllocError>
    ensures { OnOk result (made.new.items ≡ made.old.items ++ text.now) }
{
    match text {
        [only] => {
            made.push(*only)?;
            Ok(())
        }
        _ => made.extend_from_slice(text),
    }
}

/// The input with the leftmost match replaced by the text. None where nothing matches.
pub(crate) fn with_first_fixed(
    alloc: Global,
    matcher: &mut Matcher<'_>,
    text: &[u8],
    input: &[u8],
) -> Result<Option<Octets>, NoMemory>
    ensures value { IfOk result (λ made. unwrap_or made input.now
        ≡ replaced_by (λ _. text.now) input.now 0
        (option_to_list (find (matcher_pattern matcher.old) input.now 0))) }
    ensures same { matcher_pattern matcher.new ≡ matcher_pattern matcher.old }
{
    match matcher.find(input) {
        Some(found) => {
            let made = with_part_replaced(alloc, input, found.start(), found.end(), text)?;
            Ok(Some(made))
        }
        None => Ok(None),
    }
}

/// The input with each match replaced by the text. None where nothing matches.
pub(crate) fn with_each_fixed(
    alloc: Global,
    matcher: &mut Matcher<'_>,
    text: &[u8],
    input: &[u8],
) -> Result<Option<Octets>, NoMemory>
    ensures value { IfOk result (λ made. unwrap_or made input.now
        ≡ replaced_by (λ _. text.now) input.now 0
        (find_all (matcher_pattern matcher.old) input.now)) }
    ensures same { matcher_pattern matcher.new ≡ matcher_pattern matcher.old }
{
    match matcher.find(input) {
        Some(first) => {
            let made = from_first(alloc, matcher, text, input, first)?;
            Ok(Some(Octets::from_vec(made)))
        }
        None => Ok(None),
    }
}

/// The input with each match replaced by the text, where the leftmost is known.
fn from_first(
    alloc: Global,
    matcher: &mut Matcher<'_>,
    text: &[u8],
    input: &[u8],
    first: Match<'_>,
) -> Result<Vec<u8>, AllocError>
    requires within { match_haystack first ≡ input.now }
    requires first { Some (match_span first)
        ≡ option_map span (find (matcher_pattern matcher.old) input.now 0) }
    ensures value { IfOk result (λ made. made.items
        ≡ replaced_by (λ _. text.now) input.now 0
        (find_all (matcher_pattern matcher.old) input.now)) }
    ensures same { matcher_pattern matcher.new ≡ matcher_pattern matcher.old }
{
    let mut made = Vec::with_capacity(alloc, input.len().saturating_add(text.len()))?;
    let mut last = 0;
    let mut next = Some(first);
    while let Some(found) = next {
        made.extend_from_slice(&input[last..found.start()])?;
        append(&mut made, text)?;
        last = found.end();
        next = match_after(matcher, input, last);
    }
    made.extend_from_slice(&input[last..])?;
    Ok(made)
}

/// The match after one that ended at `end`: an empty one there is none. At the end of the input
/// nothing is searched.
fn match_after<'h>(matcher: &mut Matcher<'_>, input: &'h [u8], end: usize) -> Option<Match<'h>>
    requires { end ≤ length input.now }
    ensures found { option_map match_span result
        ≡ option_map span (next_match false (matcher_pattern matcher.old) input.now (end + 1)) }
    ensures within { IfSome result (λ found. match_haystack found ≡ input.now) }
    ensures same { matcher_pattern matcher.new ≡ matcher_pattern matcher.old }
{
    if end == input.len() {
        return None;
    }
    let Some(found) = matcher.find_at(input, end) else {
        return None;
    };
    if found.end() == end {
        return matcher.find_at(input, end + 1);
    }
    Some(found)
}
