ghost use Rattle.std.specs.Prelude.{◌<◌};

use hx_spell::{SpellFault, Speller};
use hx_text::{Octets, cut_at, without_cr};
use hx_words::{Words, split};
use std::alloc::{AllocError, Global};

/// The code with which words are refused after the lines that a speller knows, and 0 where they
/// aren't. None where memory runs out. Words that are taken are known from then on.
pub(crate) fn code_of(speller: &mut Speller, number: u64, words: &Words) -> Option<u32> {
    match speller.line(number, words) {
        Ok(_) => Some(0),
        Err(SpellFault::Code(code)) => Some(code),
        Err(SpellFault::NoMemory) => None,
    }
}

/// Reads the lines of a configuration before the one with this number, counted from 1, and answers
/// that line and what follows it. None where there is no such line, where one before it is refused,
/// and where memory runs out.
pub(crate) fn pass_lines<'c>(
    alloc: Global,
    env: &[(Vec<u8>, Vec<u8>)],
    config: &'c [u8],
    number: u64,
    speller: &mut Speller,
) -> Option<&'c [u8]> {
    let mut rest = config;
    for before in 1..number {
        let (line, after) = first_line(rest);
        pass_line(alloc, env, before, line, speller)?;
        rest = after?;
    }
    Some(rest)
}

/// Reads all lines of a configuration, and answers whether all of them are taken.
pub(crate) fn pass_all(
    alloc: Global,
    env: &[(Vec<u8>, Vec<u8>)],
    config: &[u8],
    speller: &mut Speller,
) -> bool {
    let mut rest = config;
    for number in 1..u64::MAX {
        let (line, after) = first_line(rest);
        if pass_line(alloc, env, number, line, speller).is_none() {
            return false;
        }
        let Some(text) = after else {
            return true;
        };
        rest = text;
    }
    false
}

/// Reads one line. None where it is refused, and where memory runs out.
fn pass_line(
    alloc: Global,
    env: &[(Vec<u8>, Vec<u8>)],
    number: u64,
    line: &[u8],
    speller: &mut Speller,
) -> Option<()> {
    let words = split(alloc, env, line).ok()?;
    if code_of(speller, number, &words)? == 0 {
        Some(())
    } else {
        None
    }
}

/// The first line of a text, and the text after its line feed, where it has one.
pub(crate) fn first_line(text: &[u8]) -> (&[u8], Option<&[u8]>) {
    match cut_at(b'\n', text) {
        Some((line, after)) => (without_cr(line), Some(after)),
        None => (without_cr(text), None),
    }
}

/// The words that these are, and after them those of a text. None where there are too many, and
/// where memory runs out.
pub(crate) fn words_and(alloc: Global, words: &[Octets], text: &[u8]) -> Option<Words> {
    let mut line = Vec::new(alloc);
    push_words(&mut line, words).ok()?;
    line.extend_from_slice(text).ok()?;
    split(alloc, &[], line.as_slice()).ok()
}

/// Appends words to a line, each so that it is read back as it is, and with a blank after it.
pub(crate) fn push_words(line: &mut Vec<u8>, words: &[Octets]) -> Result<(), AllocError> {
    for word in words {
        push_word(line, word.as_slice())?;
        line.extend_from_slice(b" ")?;
    }
    Ok(())
}

/// Appends a text to a line, so that it is read back as it is, within the word that is under way.
pub(crate) fn push_word(line: &mut Vec<u8>, text: &[u8]) -> Result<(), AllocError> {
    line.extend_from_slice(b"\"\"")?;
    for byte in text {
        push_escaped(line, *byte)?;
    }
    Ok(())
}

/// Appends `\x` and two hexadecimal digits.
pub(crate) fn push_escaped(line: &mut Vec<u8>, byte: u8) -> Result<(), AllocError> {
    line.extend_from_slice(&[b'\\', b'x', digit(byte / 16), digit(byte % 16)])
}

fn digit(n: u8) -> u8
    requires { n < 16 }
{
    if n < 10 { b'0' + n } else { b'W' + n }
}
