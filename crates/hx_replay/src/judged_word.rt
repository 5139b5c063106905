use crate::spelling::push_words;
use hx_load::{LoadFault, load};
use hx_outside::{MemFiles, PlainMaker};
use hx_refs::Limits;
use hx_text::Octets;
use std::alloc::Global;

/// What makes a statement whole that ends after one of its words.
const ENDS: [&[u8]; 2] = [b"", b"}"];

/// The same where a regular expression is followed by a format.
const ENDS_WITH_FORMAT: [&[u8]; 3] = [b"", b"}", b"a"];

/// The position of the first word with which a line is refused with this code, which is that of its
/// types, or of its patterns and regular expressions. `before` are the lines before it. None where
/// there is no such word, and where memory runs out.
///
/// Types and patterns are judged once a statement is spelled. So the line is cut after each word in
/// turn, and made whole: the first word with which it is refused is the one that is wrong.
pub(crate) fn judged_word(
    alloc: Global,
    env: &[(Vec<u8>, Vec<u8>)],
    before: &[u8],
    number: u64,
    words: &[Octets],
    code: u32,
) -> Option<usize> {
    for at in 0..words.len() {
        let taken = &words[..at + 1];
        if is_refused_with(alloc, env, before, number, taken, code)? {
            return Some(at);
        }
    }
    None
}

/// Whether a line is refused with this code that begins with these words.
fn is_refused_with(
    alloc: Global,
    env: &[(Vec<u8>, Vec<u8>)],
    before: &[u8],
    number: u64,
    words: &[Octets],
    code: u32,
) -> Option<bool> {
    let mut ends = ends_after(words);
    while let [end, rest @ ..] = ends {
        let mut config = Vec::from_slice(alloc, before).ok()?;
        push_words(&mut config, words).ok()?;
        config.extend_from_slice(end).ok()?;
        if code_on_line(alloc, env, &config, number) == code {
            return Some(true);
        }
        ends = rest;
    }
    Some(false)
}

/// What may stand after these words, so that they are a whole statement.
fn ends_after(words: &[Octets]) -> &'static [&'static [u8]] {
    match words.get(1) {
        Some(action) if action.as_slice().starts_with(b"replace-") => &ENDS_WITH_FORMAT,
        _ => &ENDS,
    }
}

/// The code with which a configuration is refused on this line, where no file is there; 0 where it
/// isn't.
fn code_on_line(alloc: Global, env: &[(Vec<u8>, Vec<u8>)], config: &[u8], number: u64) -> u32 {
    let mut files = MemFiles::new(Vec::new(alloc), Vec::new(alloc));
    let mut maker = PlainMaker::new();
    match load(alloc, config, env, &mut files, &mut maker, Limits::usual()) {
        Err(LoadFault::Refused { line, code }) if line == number => code,
        _ => 0,
    }
}
