ghost use Rattle.std.specs.Prelude.{◌≡◌, ◌+◌, ◌-◌, ◌^◌, ◌≤◌, ◌<◌, ◌↔◌, min, pos, Some, is_some, IsOk, IsTrue, IfOk, length, drop, reverse, slice_get};
ghost use Rattle.std.specs.Bool.{OnTrue};
ghost use Rattle.std.specs.List.{list_any};
ghost use Rattle.std.specs.Option.{option_copied, option_to_list};
ghost use Rattle.hx_lists.specs.HeaderValues.{hdr_values};
ghost use Rattle.hx_sample.specs.Cast.{cast_of};
ghost use Rattle.hx_sample.specs.Seen.{occurrence_value, value_of};
ghost use Rattle.hx_sample.specs.declared.sample.Value.TheVariants as value;
ghost use Rattle.hx_fetch.specs.Fetches.{text_occurrences, count_of};
ghost use Rattle.hx_fetch.specs.Names.{cookie_values, header_lines};
ghost use Rattle.hx_fetch.specs.Picks.{occurrence_at, selection_end};
ghost use Rattle.hx_fetch.specs.Views.{source_texts};

use crate::lines::{Lines, is_header_name};
use crate::texts::{TextReader, TextSource, lone_value, next_cookie};
use hx_http::Message;
use hx_lists::{cookies, hdr_values};
use hx_sample::{Bytes, Sample, Samples, cast};
use hx_text::{Kind, NoMemory};
use std::alloc::Global;

/// Goes past so many texts, and answers whether there are as many.
#[tactic(auto, using(crate::proofs::ListLemmas::forward))]
fn goes_past(texts: &mut TextReader<'_, '_>, count: u64) -> bool
    ensures enough { IsTrue result ↔ (count ≤ length texts.old) }
    ensures rest { OnTrue result (texts.new ≡ drop count texts.old) }
{
    for _passed in 0..count {
        if texts.next().is_none() {
            return false;
        }
    }
    true
}

/// The text after the first `before` ones, if there is one.
#[tactic(auto, using(crate::proofs::ListLemmas::get_of_left))]
fn nth<'w>(source: TextSource<'_, 'w>, before: u64) -> Option<&'w [u8]>
    ensures { option_copied result ≡ slice_get (source_texts source.entry) before }
{
    let mut texts = TextReader::new(source);
    if goes_past(&mut texts, before) {
        texts.next()
    } else {
        None
    }
}

/// The text that `after` more follow, if there is one: where one reader of the texts that is so far
/// ahead comes to their end, another stands there.
#[tactic(auto, using(crate::proofs::ListLemmas::backward))]
fn nth_back<'w>(source: TextSource<'_, 'w>, after: u64) -> Option<&'w [u8]>
    requires { after < 2 ^ 63 }
    ensures { option_copied result ≡ slice_get (reverse (source_texts source.entry)) after }
{
    let mut ahead = TextReader::new(source);
    if !goes_past(&mut ahead, after + 1) {
        return None;
    }
    let mut texts = TextReader::new(source);
    while ahead.next().is_some() {
        let _ = texts.next();
    }
    texts.next()
}

/// The last line of a header, if there is one. It is looked for from the end, so that those before
/// it cost nothing.
#[tactic(auto, using(crate::proofs::ListLemmas::drop_at))]
fn last_line<'w>(message: &'w Message, name: Option<&[u8]>) -> Option<&'w [u8]>
    ensures { option_copied result
        ≡ slice_get (reverse (header_lines (option_copied name.entry) message.now)) 0 }
{
    let mut left = message.len();
    while left > 0 {
        left -= 1;
        if let Some((line_name, line)) = message.header(left) {
            if is_header_name(line_name, name) {
                return Some(line);
            }
        }
    }
    None
}

/// The last value of a header line.
#[tactic(auto, using(crate::proofs::StepLemmas::last_of_none))]
fn last_value(line: &[u8]) -> Option<&[u8]>
    ensures { option_copied result ≡ slice_get (reverse (hdr_values line.now)) 0 }
{
    if let Some(value) = lone_value(line) {
        return Some(value);
    }
    let mut last = None;
    for value in hdr_values(line) {
        last = Some(value);
    }
    last
}

/// The last of all texts, if there is one.
#[tactic(auto, using(crate::proofs::StepLemmas::last_of_none))]
fn last_of_all<'w>(source: TextSource<'_, 'w>) -> Option<&'w [u8]>
    ensures { option_copied result ≡ slice_get (reverse (source_texts source.entry)) 0 }
{
    let mut last = None;
    for text in TextReader::new(source) {
        last = Some(text);
    }
    last
}

/// The last text, if there is one. Of a header only the last line is cut into its values, as each
/// line has some.
#[tactic(auto, using(crate::proofs::LastLemmas::last_of_lines))]
fn last<'w>(source: TextSource<'_, 'w>) -> Option<&'w [u8]>
    ensures { option_copied result ≡ slice_get (reverse (source_texts source.entry)) 0 }
{
    match source {
        TextSource::Lines(message, name) => last_line(message, name),
        TextSource::Values(message, name) => match last_line(message, name) {
            Some(line) => last_value(line),
            None => None,
        },
        _ => last_of_all(source),
    }
}

/// The text of the occurrence `at`, if there is one.
pub(crate) fn pick<'w>(source: TextSource<'_, 'w>, at: i64) -> Option<&'w [u8]>
    ensures { option_copied result ≡ occurrence_at at (source_texts source.entry) }
{
    if at > 0 {
        nth(source, at.unsigned_abs() - 1)
    } else if at < 0 {
        nth_back(source, at.unsigned_abs() - 1)
    } else {
        None
    }
}

/// The text of the occurrence `at`, or without one the last text or the first, if there is one.
pub(crate) fn pick_end<'w>(
    source: TextSource<'_, 'w>,
    at: Option<i64>,
    takes_last: bool,
) -> Option<&'w [u8]>
    ensures { option_copied result ≡ selection_end takes_last at (source_texts source.entry) }
{
    match at {
        Some(at) => pick(source, at),
        None => {
            if takes_last {
                last(source)
            } else {
                nth(source, 0)
            }
        }
    }
}

fn text_count(source: TextSource<'_, '_>) -> u64
    ensures { result ≡ min (length (source_texts source.entry)) (2 ^ 64 - 1) }
{
    let mut count = 0u64;
    for _text in TextReader::new(source) {
        count = count.saturating_add(1);
    }
    count
}

/// How many texts there are. It saturates.
pub(crate) fn count<'w>(source: TextSource<'_, '_>) -> Sample<'w>
    ensures { Some (value_of result) ≡ count_of (source_texts source.entry) }
{
    Sample::Int(text_count(source).min(i64::MAX as u64) as i64)
}

fn has_line(message: &Message, name: Option<&[u8]>) -> bool
    ensures { result
        ≡ is_some (slice_get (header_lines (option_copied name.entry) message.now) 0) }
{
    Lines::new(message, name).next().is_some()
}

/// Whether there is a cookie of the name, or without one a cookie at all.
#[tactic(auto, using(crate::proofs::FoundLemmas::cookie_in_lines))]
fn has_cookie(message: &Message, name: Option<&[u8]>) -> bool
    ensures { result
        ≡ is_some (slice_get (cookie_values (option_copied name.entry) message.now) 0) }
{
    for line in Lines::new(message, Some(b"Cookie")) {
        if next_cookie(&mut cookies(line), name).is_some() {
            return true;
        }
    }
    false
}

/// Whether there is a text. A header line has some values, so it needn't be cut into them.
#[tactic(auto, using(crate::proofs::FoundLemmas::value_in_lines))]
fn has_text(source: TextSource<'_, '_>) -> bool
    ensures { result ≡ is_some (slice_get (source_texts source.entry) 0) }
{
    match source {
        TextSource::Lines(message, name) => has_line(message, name),
        TextSource::Values(message, name) => has_line(message, name),
        TextSource::Cookies(message, name) => has_cookie(message, name),
        TextSource::Params(_, _, _) => TextReader::new(source).next().is_some(),
    }
}

/// Whether some text is a value of the kind.
#[tactic(auto, using(crate::proofs::FoundLemmas::found_as_text))]
pub(crate) fn has_value(alloc: Global, source: TextSource<'_, '_>, kind: Kind) -> bool
    ensures { result ≡ list_any is_some (text_occurrences kind (source_texts source.entry)) }
{
    if kind == Kind::Str {
        return has_text(source);
    }
    for text in TextReader::new(source) {
        if read_text(alloc, text, kind).is_some() {
            return true;
        }
    }
    false
}

/// The text as a value of the kind, or none where it writes none. No memory is taken, neither of
/// `alloc` nor else.
pub(crate) fn read_text<'w>(alloc: Global, text: &'w [u8], kind: Kind) -> Option<Sample<'w>>
    ensures { occurrence_value result ≡ cast_of (value.Str text.now) kind }
{
    let sample = Sample::Str(Bytes::Lent(text));
    if kind == Kind::Str {
        return Some(sample);
    }
    match cast(alloc, sample, kind) {
        Ok(value) => value,
        Err(_) => unreachable!(),
    }
}

/// The occurrence that the text is, if there is a text.
pub(crate) fn lone<'w>(alloc: Global, text: Option<&'w [u8]>, kind: Kind) -> Samples<'w>
    ensures { result ≡ text_occurrences kind (option_to_list (option_copied text.entry)) }
{
    match text {
        Some(text) => Samples::lone(alloc, read_text(alloc, text, kind)),
        None => Samples::new(alloc),
    }
}

/// Each text as a value of the kind, or none where it writes none. The texts are counted first, so
/// that no more memory is taken than for a slice each, and none for one text.
pub(crate) fn list<'w>(
    alloc: Global,
    source: TextSource<'_, 'w>,
    kind: Kind,
) -> Result<Samples<'w>, NoMemory>
    ensures value { IfOk result (λ occurrences.
        occurrences ≡ text_occurrences kind (source_texts source.entry)) }
    ensures no_memory { length (source_texts source.entry) ≤ 1 → IsOk result }
{
    let count = text_count(source);
    if count <= 1 {
        return Ok(lone(alloc, nth(source, 0), kind));
    }
    let mut occurrences = Samples::for_texts(alloc, kind, count as usize)?;
    for text in TextReader::new(source) {
        occurrences.push_text(text, kind)?;
    }
    Ok(occurrences)
}
