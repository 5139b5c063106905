ghost use Rattle.std.specs.Prelude.{◌≡◌, ◌+◌, ◌≤◌, ◌<◌, [], ◌∷◌, List, ℕ, true, length, slice_index};
ghost use Rattle.std.specs.List.{list_any};
ghost use Rattle.std.specs.Option.{option_copied, option_map_or};
ghost use Rattle.std.specs.Iterator.{YieldsFirstBy, item_count};
ghost use Rattle.hx_lists.specs.HeaderValues.{hdr_values, hdr_pieces};
ghost use Rattle.hx_lists.specs.HeaderValues.{Outside, Quoted};
ghost use Rattle.hx_lists.specs.HeaderScan.{is_mark, pieces_at};

use crate::blanks::trim_blanks;
use memchr::memchr2;
use std::marker::Model;

/// The values of a header line that are left to give. Contracts see it as their list.
#[derive(Drop)]
pub struct HdrValues<'a> {
    rest: Option<&'a [u8]>,
}

impl<'a> Model for HdrValues<'a> {
    ghost Value = { List (List ℕ) };

    ghost view = { λ values. option_map_or hdr_values (option_copied values.rest) [] };
}

/// The values of a header line, in their order (RFC 9110, section 5.6.1). Commas separate them, but
/// for those in a quoted string (section 5.6.4): it goes from `"` to the next `"` that no backslash
/// escapes, or to the end of the line. A value has no space or tab at its ends, keeps its quotes as
/// they are written, and may be empty: the empty line has one empty value.
#[tactic(auto, using(crate::proofs::LengthLemmas::lengths))]
pub fn hdr_values<'a>(line: &'a [u8]) -> HdrValues<'a>
    ensures list { result ≡ hdr_values line.now }
    // What `count` asks for.
    ensures short { length result ≤ length line.now + 1 }
{
    HdrValues { rest: Some(line) }
}

impl<'a> Iterator for HdrValues<'a> {
    type Item = &'a [u8];

    ghost next_gives = { YieldsFirstBy (λ value. value.now) (λ left. left) };

    ghost remaining = { item_count (λ left. left) };

    fn next(&mut self) -> Option<&'a [u8]> {
        let line = self.rest?;
        let (piece, rest) = first_hdr_piece(line);
        self.rest = rest;
        Some(trim_blanks(piece))
    }
}

/// What stands before the first comma outside quoted strings, and what follows that comma, if there
/// is one: the first of the pieces of which `hdr_values` gives the values, with the blanks at its
/// ends.
// Inlined, since a call would write its answer of five words to memory.
#[inline(always)]
#[tactic(auto, using(crate::proofs::PieceLemmas::steps))]
pub fn first_hdr_piece<'a>(line: &'a [u8]) -> (&'a [u8], Option<&'a [u8]>)
    ensures { hdr_pieces line.now
        ≡ result.0.now ∷ option_map_or hdr_pieces (option_copied result.1) [] }
{
    let mut at = 0;
    loop {
        let mark = next_mark(line, at);
        if mark >= line.len() {
            return (line, None);
        }
        if line[mark] == b',' {
            return (&line[..mark], Some(&line[mark + 1..]));
        }
        at = string_end(line, mark + 1);
    }
}

fn is_mark(byte: u8) -> bool
    ensures { result ≡ is_mark byte }
{
    byte == b',' || byte == b'"'
}

/// Whether a mark is among the bytes. It tests them all: where the caller fixes their number, the
/// compiler makes a few instructions of it.
fn has_mark(part: &[u8]) -> bool
    ensures { result ≡ list_any is_mark part.now }
{
    let mut found = false;
    for byte in part {
        found |= is_mark(*byte);
    }
    found
}

/// The position of the first comma or quote from `start` on, or the line's end. What stands between
/// belongs to one piece.
///
/// It tests eight bytes at once. Only where no mark is near and much is left it calls `memchr2`,
/// which reads fewer than 32 bytes one by one.
#[inline(always)]
fn next_mark(line: &[u8], start: usize) -> usize
    requires { start ≤ length line.now }
    ensures forth { start ≤ result }
    ensures within { result ≤ length line.now }
    ensures mark { result < length line.now → is_mark (slice_index line.now result) ≡ true }
    ensures same { pieces_at Outside line.now result ≡ pieces_at Outside line.now start }
{
    let mut at = start;
    while line.len() - at >= 8 && !has_mark(&line[at..at + 8]) {
        at += 8;
        if line.len() - at >= 32 {
            return far_mark(line, at);
        }
    }
    if line.len() - at < 8 && line.len() - start >= 8 && !has_mark(&line[line.len() - 8..]) {
        return line.len();
    }
    while at < line.len() && !is_mark(line[at]) {
        at += 1;
    }
    at
}

/// The same, by `memchr2`. It is out of line, so that where a mark is near no call is made.
#[inline(never)]
fn far_mark(line: &[u8], start: usize) -> usize
    requires { start ≤ length line.now }
    ensures forth { start ≤ result }
    ensures within { result ≤ length line.now }
    ensures mark { result < length line.now → is_mark (slice_index line.now result) ≡ true }
    ensures same { pieces_at Outside line.now result ≡ pieces_at Outside line.now start }
{
    match memchr2(b',', b'"', &line[start..]) {
        Some(ahead) => start + ahead,
        None => line.len(),
    }
}

/// The position after the quoted string whose opening quote stands before `start`: after the quote
/// that ends it, or at the line's end.
#[tactic(auto, using(crate::proofs::PieceLemmas::steps))]
fn string_end(line: &[u8], start: usize) -> usize
    requires { start ≤ length line.now }
    ensures forth { start ≤ result }
    ensures within { result ≤ length line.now }
    ensures same { pieces_at Outside line.now result ≡ pieces_at Quoted line.now start }
{
    let mut at = start;
    while at < line.len() {
        match line[at] {
            b'"' => return at + 1,
            b'\\' => at += 2,
            _ => at += 1,
        }
    }
    line.len()
}
