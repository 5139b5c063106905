//! The places of a text at which a key stands, in as many steps as twice the text has bytes.
ghost use Rattle.std.specs.Prelude.{◌≡◌, ◌≢◌, ℕ, ◌+◌, ◌<◌, ◌≤◌, length, slice_index};
ghost use Rattle.memchr.specs.Find.{FindsNeedle};
ghost use Rattle.hx_sample.specs.Keys.{folded};
ghost use Rattle.hx_match.specs.Needles.{folded_byte, ArePeriods, BeginsAt, IsCandidate};

use memchr::{memchr, memchr2};

/// The first place of the text, from `start` on, at which the key stands, whose least periods
/// `periods` are. Its first `matched` bytes stand at `start`. Where a byte differs, the next place
/// to try is that at which the bytes that matched begin again: no place between is one of the key,
/// and none of those bytes is compared anew.
pub(crate) fn next_place(
    ci: bool,
    text: &[u8],
    key: &[u8],
    periods: &[usize],
    start: usize,
    matched: usize,
) -> Option<usize>
    requires periods { ArePeriods key.now periods.now }
    requires begins { BeginsAt (folded ci text.now) key.now start matched }
    ensures { FindsNeedle (folded ci text.now) key.now start result }
{
    let mut place = start;
    let mut count = matched;
    while count < key.len() {
        place = skip(ci, text, key, place, count);
        let at = place + count;
        if at == text.len() {
            return None;
        }
        if fold(ci, text[at]) == key[count] {
            count += 1;
        } else {
            let period = periods[count];
            place += period;
            count = count.saturating_sub(period);
        }
    }
    Some(place)
}

/// The next place that may be one of the key, where its first `count` bytes stand at `place`: where
/// none do, the next one of its first byte, or the end of the text.
fn skip(ci: bool, text: &[u8], key: &[u8], place: usize, count: usize) -> usize
    requires more { count < length key.now }
    requires begins { BeginsAt (folded ci text.now) key.now place count }
    ensures forward { place ≤ result }
    ensures within { result + count ≤ length text.now }
    ensures candidate { (from : ℕ) → IsCandidate (folded ci text.now) key.now from place count →
        IsCandidate (folded ci text.now) key.now from result count }
{
    if count == 0 {
        place + bytes_before(ci, &text[place..], key[0])
    } else {
        place
    }
}

/// How many bytes of the text are surely other than this one of a key, up to the first that may be
/// the same.
fn bytes_before(ci: bool, text: &[u8], byte: u8) -> usize
    ensures within { result ≤ length text.now }
    ensures others { (k : ℕ) → k < result → folded_byte ci (slice_index text.now k) ≢ byte }
{
    let first = if ci {
        memchr2(byte, byte.to_ascii_uppercase(), text)
    } else {
        memchr(byte, text)
    };
    match first {
        Some(at) => at,
        None => text.len(),
    }
}

/// A byte of a text as it is compared.
fn fold(ci: bool, byte: u8) -> u8
    ensures { result ≡ folded_byte ci byte }
{
    if ci { byte.to_ascii_lowercase() } else { byte }
}
