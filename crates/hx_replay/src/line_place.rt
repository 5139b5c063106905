use crate::judged_word::judged_word;
use crate::place::{Place, placed, unplaced};
use crate::refused_word::right_words;
use crate::spelling::{code_of, first_line, pass_lines, words_and};
use crate::unknown_call::{Form, UnknownCall, unknown_call};
use hx_program::{BAD_CONDITION, BAD_PATTERN, BAD_TYPE, MISPLACED, UNSUPPORTED};
use hx_spell::Speller;
use hx_text::Octets;
use hx_words::split;
use std::alloc::Global;

/// The words that begin a section.
const SECTIONS: [&[u8]; 16] = [
    b"global",
    b"defaults",
    b"listen",
    b"backend",
    b"peers",
    b"resolvers",
    b"userlist",
    b"mailers",
    b"cache",
    b"program",
    b"ring",
    b"log-forward",
    b"http-errors",
    b"fcgi-app",
    b"crt-store",
    b"traces",
];

const SECTION: &[u8] = b"a section begins here, as in a whole haproxy.cfg; hxeval takes the lines \
    of one frontend: hxconfig writes them into a file of their own";

const SECOND_FRONTEND: &[u8] = b"frontend isn't the first statement; hxeval takes the lines of one \
    frontend: hxconfig writes them into a file of their own";

const SECOND_FALLBACK: &[u8] = b"default_backend stands here a second time";

const MISSING: &[u8] = b"a word is missing";

const BRACES: &[u8] = b"a brace isn't a word of its own, with a blank on each side";

const STATEMENT: &[u8] = b"unknown or unsupported statement";

const OPTION: &[u8] = b"unknown or unsupported option";

const ACTION: &[u8] = b"unknown or unsupported action";

const FETCH: &[u8] = b"unknown or unsupported fetch";

const CONVERTER: &[u8] = b"unknown or unsupported converter";

/// Where a configuration is refused on this line with this code, where that is a word, and what is
/// wrong there, where more is known than the code says.
pub(crate) fn line_place(
    alloc: Global,
    env: &[(Vec<u8>, Vec<u8>)],
    config: &[u8],
    number: u64,
    code: u32,
) -> Place {
    let Ok(mut speller) = Speller::new(alloc) else {
        return unplaced(alloc);
    };
    let Some(rest) = pass_lines(alloc, env, config, number, &mut speller) else {
        return unplaced(alloc);
    };
    let (line, _) = first_line(rest);
    let Ok(words) = split(alloc, env, line) else {
        return unplaced(alloc);
    };
    let words = words.as_slice();
    if is_spelled_as(alloc, number, words, code, &mut speller) {
        return place_in(alloc, number, words, code, &mut speller);
    }
    let (before, _) = config.split_at(config.len().saturating_sub(rest.len()));
    judged_place(alloc, env, before, number, words, code)
}

/// Whether the speller refuses the words with this code.
fn is_spelled_as(
    alloc: Global,
    number: u64,
    words: &[Octets],
    code: u32,
    speller: &mut Speller,
) -> bool {
    match words_and(alloc, words, b"") {
        Some(words) => code_of(speller, number, &words) == Some(code),
        None => false,
    }
}

/// The same of the words of the line, after the lines that the speller knows, where they are
/// refused as they are spelled.
fn place_in(
    alloc: Global,
    number: u64,
    words: &[Octets],
    code: u32,
    speller: &mut Speller,
) -> Place {
    let Some(right) = right_words(alloc, number, words, code, speller) else {
        return unplaced(alloc);
    };
    match words.get(right) {
        None => place_at_end(alloc, words, code),
        Some(word) => {
            let call = call_at(alloc, words, right, word.as_slice(), code, speller);
            place_at(alloc, words, right, word.as_slice(), code, call)
        }
    }
}

/// The same where they are spelled, and refused for their types or their patterns.
fn judged_place(
    alloc: Global,
    env: &[(Vec<u8>, Vec<u8>)],
    before: &[u8],
    number: u64,
    words: &[Octets],
    code: u32,
) -> Place {
    if code != BAD_TYPE && code != BAD_PATTERN {
        return unplaced(alloc);
    }
    let Some(at) = judged_word(alloc, env, before, number, words, code) else {
        return unplaced(alloc);
    };
    match words.get(at) {
        Some(word) => placed(alloc, &[b"at \"", word.as_slice(), b"\": "], b""),
        None => unplaced(alloc),
    }
}

/// All words are right, and more are missing.
fn place_at_end(alloc: Global, words: &[Octets], code: u32) -> Place {
    let is_glued = match words.last() {
        Some(word) => is_longer(b"}", word.as_slice()),
        None => false,
    };
    let reason = if code != BAD_CONDITION {
        MISSING
    } else if is_glued {
        BRACES
    } else {
        b""
    };
    placed(alloc, &[b"at the end of the line: "], reason)
}

/// The word at this position, or a call in it.
fn place_at(
    alloc: Global,
    words: &[Octets],
    at: usize,
    word: &[u8],
    code: u32,
    call: Option<UnknownCall<'_>>,
) -> Place {
    match call {
        Some(call) => {
            let reason = if call.is_fetch { FETCH } else { CONVERTER };
            place_in_word(alloc, call.name, word, reason)
        }
        None => {
            let reason = reason_at(words, at, word, code);
            placed(alloc, &[b"at \"", word, b"\": "], reason)
        }
    }
}

/// A part of a word, or the whole.
fn place_in_word<'t>(
    alloc: Global,
    part: &'t [u8],
    word: &'t [u8],
    reason: &'static [u8],
) -> Place {
    if part == word {
        placed(alloc, &[b"at \"", word, b"\": "], reason)
    } else {
        placed(alloc, &[b"at \"", part, b"\" in \"", word, b"\": "], reason)
    }
}

/// What is wrong with the word at this position, where more is known than the code says.
fn reason_at(words: &[Octets], at: usize, word: &[u8], code: u32) -> &'static [u8] {
    if code == BAD_CONDITION && (is_longer(b"{", word) || is_longer(b"}", word)) {
        BRACES
    } else if code == MISPLACED && at == 0 {
        misplaced(word)
    } else if code == UNSUPPORTED {
        unsupported(words, at, word)
    } else {
        b""
    }
}

fn misplaced(word: &[u8]) -> &'static [u8] {
    if word == b"frontend".as_slice() {
        SECOND_FRONTEND
    } else {
        SECOND_FALLBACK
    }
}

/// What isn't known at this position.
fn unsupported(words: &[Octets], at: usize, word: &[u8]) -> &'static [u8] {
    if at == 0 {
        if is_one_of(&SECTIONS, word) {
            SECTION
        } else {
            STATEMENT
        }
    } else if at == 1 && is_word(words, 0, b"option") {
        OPTION
    } else if at == 1 && is_word(words, 0, b"http-request") {
        ACTION
    } else {
        b""
    }
}

/// The call in the word at this position whose name isn't known, where the word is one of calls.
fn call_at<'w>(
    alloc: Global,
    words: &[Octets],
    at: usize,
    word: &'w [u8],
    code: u32,
    speller: &mut Speller,
) -> Option<UnknownCall<'w>> {
    if code != UNSUPPORTED {
        return None;
    }
    let form = form_at(words, at, word)?;
    unknown_call(alloc, form, word, speller)
}

/// What the word at this position is, where it is one of calls.
fn form_at(words: &[Octets], at: usize, word: &[u8]) -> Option<Form> {
    if at < 2 && !is_word(words, 0, b"use_backend") {
        return None;
    }
    let before = words.get(at.checked_sub(1)?)?;
    if before.as_slice() == b"-m".as_slice() || word.starts_with(b"-") {
        return None;
    }
    if at == 2 && is_word(words, 0, b"acl") || before.as_slice().ends_with(b"{") {
        return Some(Form::Criterion);
    }
    if at == 2 && before.as_slice().starts_with(b"set-var(") {
        return Some(Form::Expression);
    }
    Some(Form::Format)
}

/// Whether the word at this position is this one.
fn is_word(words: &[Octets], at: usize, text: &[u8]) -> bool {
    match words.get(at) {
        Some(word) => word.as_slice() == text,
        None => false,
    }
}

/// Whether a text is one of these.
fn is_one_of(texts: &[&[u8]], text: &[u8]) -> bool {
    let mut rest = texts;
    while let [first, others @ ..] = rest {
        if *first == text {
            return true;
        }
        rest = others;
    }
    false
}

/// Whether a brace stands at the beginning or at the end of a longer word.
fn is_longer(brace: &[u8], word: &[u8]) -> bool {
    word.len() > 1 && (word.starts_with(brace) || word.ends_with(brace))
}
