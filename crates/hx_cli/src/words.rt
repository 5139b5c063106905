ghost use Rattle.std.specs.Prelude.{◌≡◌, ◌<◌, [], ◌∷◌, ◌++◌, length, map, Some};
ghost use Rattle.std.specs.Prelude.{IfOk, IfSome, MatchOption, OnOk};
ghost use Rattle.hx_cli.specs.CommandLine.{gap_or_byte, line_bytes, runs, words_of};

use hx_ast::Items;
use hx_text::{NoMemory, Octets};
use std::alloc::Global;

/// The words of a line. They are separated by blanks; a backslash stands for the byte after it, and
/// for itself where none follows.
#[tactic(auto, using(crate::proofs::WordLemmas::words_start, crate::proofs::WordLemmas::words_byte, crate::proofs::WordLemmas::words_gap, crate::proofs::WordLemmas::words_end))]
pub(crate) fn words_of(alloc: Global, line: &[u8]) -> Result<Items<Octets>, NoMemory>
    ensures { IfOk result (λ words. words ≡ words_of line.now) }
{
    let mut words = Items::new(alloc);
    let mut word = Octets::from_vec(Vec::new(alloc));
    let mut left = line;
    while let Some((byte, rest)) = next_byte(left) {
        match byte {
            Some(byte) => word.push_all(&[byte])?,
            None => {
                end_word(&mut words, word)?;
                word = Octets::from_vec(Vec::new(alloc));
            }
        }
        left = rest;
    }
    end_word(&mut words, word)?;
    Ok(words)
}

/// Appends the word that has ended, unless it has no bytes.
fn end_word(words: &mut Items<Octets>, word: Octets) -> Result<(), NoMemory>
    ensures { OnOk result (words.new ≡ words.old ++ runs (map Some word)) }
{
    if word.as_slice().is_empty() {
        return Ok(());
    }
    words.push(word)
}

/// What a text begins with, a byte of a word or none for a gap, and what follows.
fn next_byte(text: &[u8]) -> Option<(Option<u8>, &[u8])>
    ensures bytes { MatchOption result (line_bytes text.now ≡ [])
        (λ next. line_bytes text.now ≡ next.0 ∷ line_bytes next.1.now) }
    ensures within { IfSome result (λ next. length next.1.now < length text.now) }
{
    let (byte, rest) = first(text)?;
    if byte != b'\\' {
        return Some((gap_or_byte(byte), rest));
    }
    match first(rest) {
        Some((escaped, after)) => Some((Some(escaped), after)),
        None => Some((Some(byte), rest)),
    }
}

/// The byte, which no backslash stands before, or none for a gap.
fn gap_or_byte(byte: u8) -> Option<u8>
    ensures { result ≡ gap_or_byte byte }
{
    match byte {
        b' ' | b'\t' => None,
        _ => Some(byte),
    }
}

/// The first byte, and the bytes after it.
fn first(bytes: &[u8]) -> Option<(u8, &[u8])>
    ensures { MatchOption result (bytes.now ≡ []) (λ pair. bytes.now ≡ pair.0 ∷ pair.1.now) }
{
    let (byte, after) = bytes.split_first()?;
    Some((*byte, after))
}
