ghost use Rattle.std.specs.Prelude.{◌≡◌, ◌++◌, ◌≤◌, ◌<◌, ◌^◌, ◌↔◌, ◌≢◌, IsTrue, IfSome, slice_index, drop, length, Some};
ghost use Rattle.std.specs.Fmt.{signed_decimal};
ghost use Rattle.hx_text.specs.Number.{number_up_to, int_of};

use itoa::Buffer;
use std::str;

/// `parse` takes this sign before the digits, and the texts here have none.
const PLUS_SIGN: u8 = b'+';

fn begins_with_plus(text: &[u8]) -> bool
    ensures { IsTrue result ↔ (slice_index text.now 0 ≡ PLUS_SIGN) }
{
    matches!(text, [PLUS_SIGN, ..])
}

fn parse_number(text: &str, most: u64) -> Option<u64>
    requires { slice_index text.now 0 ≢ PLUS_SIGN }
    ensures value { result ≡ number_up_to most text.now }
    ensures within { IfSome result (λ n. n ≤ most) }
{
    match text.parse::<u64>() {
        Ok(n) if n <= most => Some(n),
        _ => None,
    }
}

/// The number that `text` writes in decimal digits alone, where it is at most `most`. None
/// exactly where the text is anything else (a sign, a blank, no digit at all), or the number is
/// above `most`. Zeros may lead.
#[tactic(auto, using(crate::proofs::NumberLemmas::no_number))]
pub fn read_number(text: &[u8], most: u64) -> Option<u64>
    ensures value { result ≡ number_up_to most text.now }
    // Follows from `value`. It saves callers that cast the number a lemma.
    ensures within { IfSome result (λ n. n ≤ most) }
{
    if begins_with_plus(text) {
        return None;
    }
    match str::from_utf8(text) {
        Ok(text) => parse_number(text, most),
        Err(_) => None,
    }
}

#[tactic(auto, using(crate::proofs::NumberLemmas::parsed_int))]
fn parse_int(text: &str) -> Option<i64>
    requires { slice_index text.now 0 ≢ PLUS_SIGN }
    ensures { result ≡ int_of text.now }
{
    text.parse::<i64>().ok()
}

/// The number that `text` writes in decimal: digits, with a `-` before them or none. None exactly
/// where the text is anything else (a `+`, a blank, no digit at all), or the number is below
/// `i64::MIN` or above `i64::MAX`. Zeros may lead, and `-0` is 0.
#[tactic(auto, using(crate::proofs::NumberLemmas::no_int))]
pub fn read_i64(text: &[u8]) -> Option<i64>
    ensures { result ≡ int_of text.now }
{
    if begins_with_plus(text) {
        return None;
    }
    match str::from_utf8(text) {
        Ok(text) => parse_int(text),
        Err(_) => None,
    }
}

/// Writes the shortest decimal text of `n` at the start of `out`, and answers its length in
/// bytes. The rest of `out` stays as it was.
pub fn print_i64(n: i64, out: &mut [u8; 20]) -> usize
    ensures text { out.new ≡ signed_decimal n ++ drop result out.old }
    ensures len { result ≡ length (signed_decimal n) }
{
    let mut buffer = Buffer::new();
    let text = buffer.format(n).as_bytes();
    let len = text.len();
    out[..len].copy_from_slice(text);
    len
}
