ghost use Rattle.std.specs.Prelude.{◌≡◌, [], ◌∷◌, ◌-◌, ◌≤◌, drop, take, length, unwrap_or};
ghost use Rattle.std.specs.Cmp.Lexicographic.{slice_cmp};
ghost use Rattle.std.specs.List.{before_first, prefix_len, suffix_len};
ghost use Rattle.std.specs.Ordering.{nat_cmp};
ghost use Rattle.hx_base.specs.Bytes.{ascii};
ghost use Rattle.hx_conv_text.specs.Pieces.{is_in};
ghost use Rattle.hx_conv_text.specs.Scanning.{bytes_at, LiesWithin};
ghost use Rattle.hx_conv_text.specs.Texts.{at_most, natural, sign_of};

use crate::pieces::{is_in, leading_in, leading_outside};
use hx_text::Octets;
use std::cmp::Ordering;

/// A number that isn't negative.
fn natural(n: i64) -> usize
    ensures { result ≡ natural n }
{
    if n >= 0 { n as usize } else { 0 }
}

/// Where the bytes from `offset` on lie, at most `len` of them.
#[tactic(auto, using(crate::proofs::SpanLemmas::spans))]
pub(crate) fn bytes(offset: i64, len: Option<i64>, bytes: &[u8]) -> (usize, usize)
    ensures value { bytes_at bytes.now result ≡ at_most len (drop (natural offset) bytes.now) }
    ensures within { LiesWithin bytes.now result }
{
    let start = natural(offset).min(bytes.len());
    let rest = bytes.len() - start;
    let count = match len {
        Some(len) => natural(len).min(rest),
        None => rest,
    };
    (start, start + count)
}

/// Where the text without the bytes of `chars` that it begins with lies.
#[tactic(auto, using(crate::proofs::SpanLemmas::spans))]
pub(crate) fn ltrim(chars: &[u8], text: &[u8]) -> (usize, usize)
    ensures value { bytes_at text.now result
        ≡ drop (prefix_len (is_in chars.now) text.now) text.now }
    ensures within { LiesWithin text.now result }
{
    (leading_in(chars, text), text.len())
}

#[tactic(auto, using(std::proofs::lemmas::Grind::common_steps, crate::proofs::EndLemmas::ends))]
fn trailing(chars: &[u8], text: &[u8]) -> usize
    ensures value { result ≡ suffix_len (is_in chars.now) text.now }
    ensures within { result ≤ length text.now }
{
    text.iter().rev().take_while(|b| is_in(chars, **b)).count()
}

/// Where the text without the bytes of `chars` that it ends with lies.
#[tactic(auto, using(crate::proofs::SpanLemmas::spans))]
pub(crate) fn rtrim(chars: &[u8], text: &[u8]) -> (usize, usize)
    ensures value { bytes_at text.now result
        ≡ take (length text.now - suffix_len (is_in chars.now) text.now) text.now }
    ensures within { LiesWithin text.now result }
{
    (0, text.len() - trailing(chars, text))
}

/// Where what stands before the first carriage return or line feed lies.
#[tactic(auto, using(crate::proofs::SpanLemmas::spans))]
pub(crate) fn cut_crlf(text: &[u8]) -> (usize, usize)
    ensures value { bytes_at text.now result
        ≡ before_first (is_in (ascii "\r" ∷ ascii "\n" ∷ [])) text.now }
    ensures within { LiesWithin text.now result }
{
    (0, leading_outside(b"\r\n", text))
}

/// The bytes, or nothing.
pub(crate) fn given(bytes: &Option<Octets>) -> &[u8]
    ensures { result.now ≡ unwrap_or bytes.now [] }
{
    match bytes {
        Some(bytes) => bytes.as_slice(),
        None => &[],
    }
}

/// -1, 0 or 1, as the text is before, equal to or after the other.
pub(crate) fn strcmp(text: &[u8], other: &[u8]) -> i64
    ensures { result ≡ sign_of (slice_cmp nat_cmp text.now other.now) }
{
    match text.cmp(other) {
        Ordering::Less => -1,
        Ordering::Equal => 0,
        Ordering::Greater => 1,
    }
}
