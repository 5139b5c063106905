use crate::spelling::{code_of, words_and};
use hx_spell::{PROBES, Speller};
use hx_text::Octets;
use std::alloc::Global;

/// How many words of a line are right, which is refused with this code after the lines that the
/// speller knows: the next one is where its first fault shows, and where all are, more of them are
/// missing. None where memory runs out, and where the line has too many words for a probe.
pub(crate) fn right_words(
    alloc: Global,
    number: u64,
    words: &[Octets],
    code: u32,
    speller: &mut Speller,
) -> Option<usize> {
    let len = words.len();
    for past in 0..len {
        let count = len - past;
        if goes_on(alloc, number, &words[..count], code, speller)? {
            return Some(count);
        }
    }
    Some(0)
}

/// Whether the fault with this code isn't in these words, since one of the probes after them
/// changes it.
fn goes_on(
    alloc: Global,
    number: u64,
    words: &[Octets],
    code: u32,
    speller: &mut Speller,
) -> Option<bool> {
    let mut probes = PROBES.as_slice();
    while let [probe, rest @ ..] = probes {
        let tried = words_and(alloc, words, probe)?;
        if code_of(speller, number, &tried)? != code {
            return Some(true);
        }
        probes = rest;
    }
    Some(false)
}
