use crate::spelling::{code_of, push_word};
use hx_program::UNSUPPORTED;
use hx_spell::Speller;
use hx_text::cut_at;
use hx_words::{CallStep, next_call, split};
use std::alloc::Global;

/// What a word of calls is.
#[derive(Clone, Copy)]
pub(crate) enum Form {
    /// the criterion of an ACL: its fetch may have a match method in its name
    Criterion,
    /// an expression
    Expression,
    /// a format, which has expressions after `%[`
    Format,
}

/// A call whose name isn't known.
#[derive(Clone, Copy)]
pub(crate) struct UnknownCall<'w> {
    pub(crate) name: &'w [u8],
    pub(crate) is_fetch: bool,
}

/// What is found in the calls of an expression.
#[derive(Clone, Copy)]
enum Found<'w> {
    Unknown(UnknownCall<'w>),
    /// all names are known; this follows
    Known(&'w [u8]),
}

/// What follows a call.
#[derive(Clone, Copy)]
enum After<'w> {
    More(&'w [u8]),
    Last(&'w [u8]),
    Faulty,
}

/// The first call in a word of this form whose name isn't known. None where there is none, and
/// where memory runs out.
pub(crate) fn unknown_call<'w>(
    alloc: Global,
    form: Form,
    word: &'w [u8],
    speller: &mut Speller,
) -> Option<UnknownCall<'w>> {
    match form {
        Form::Format => unknown_in_format(alloc, word, speller),
        Form::Criterion | Form::Expression => {
            match unknown_in_calls(alloc, form, word, None, speller)? {
                Found::Unknown(call) => Some(call),
                Found::Known(_) => None,
            }
        }
    }
}

fn unknown_in_format<'w>(
    alloc: Global,
    word: &'w [u8],
    speller: &mut Speller,
) -> Option<UnknownCall<'w>> {
    let mut left = word;
    for _ in 0..word.len() {
        let (_, after) = cut_at(b'%', left)?;
        left = match after {
            [b'[', rest @ ..] => {
                match unknown_in_calls(alloc, Form::Format, rest, Some(b']'), speller)? {
                    Found::Unknown(call) => return Some(call),
                    Found::Known(rest) => rest,
                }
            }
            [_, rest @ ..] => rest,
            [] => return None,
        };
    }
    None
}

/// The same of a text of calls, up to the stop byte, if there is one.
fn unknown_in_calls<'w>(
    alloc: Global,
    form: Form,
    text: &'w [u8],
    stop: Option<u8>,
    speller: &mut Speller,
) -> Option<Found<'w>> {
    let mut rest = text;
    let mut is_fetch = true;
    for _ in 0..text.len() {
        let (len, after) = match next_call(alloc, rest, stop) {
            Ok(step) => parts(step),
            Err(_) => return None,
        };
        let name = &rest[..len.min(rest.len())];
        if !is_known(alloc, form, is_fetch, name, speller)? {
            return Some(Found::Unknown(UnknownCall { name, is_fetch }));
        }
        is_fetch = false;
        match after {
            After::More(more) => rest = more,
            After::Last(more) => return Some(Found::Known(more)),
            After::Faulty => return None,
        }
    }
    None
}

/// How long the name of a call is, and what follows the call.
fn parts<'w>(step: CallStep<'w>) -> (usize, After<'w>) {
    match step {
        CallStep::More { call, rest } => (call.name().len(), After::More(rest)),
        CallStep::Last { call, rest } => (call.name().len(), After::Last(rest)),
        CallStep::Faulty { name, fault: _ } => (name.as_slice().len(), After::Faulty),
    }
}

/// Whether there is a fetch, or a converter, of this name: a statement that has it is then taken,
/// or is refused for something else.
fn is_known(
    alloc: Global,
    form: Form,
    is_fetch: bool,
    name: &[u8],
    speller: &mut Speller,
) -> Option<bool> {
    let mut line = Vec::new(alloc);
    line.extend_from_slice(words_before(form, is_fetch)).ok()?;
    push_word(&mut line, name).ok()?;
    let words = split(alloc, &[], line.as_slice()).ok()?;
    Some(code_of(speller, 1, &words)? != UNSUPPORTED)
}

/// What stands before the name in a statement that has it.
fn words_before(form: Form, is_fetch: bool) -> &'static [u8] {
    if !is_fetch {
        return b"http-request set-var(txn.a) src,";
    }
    match form {
        Form::Criterion => b"acl a ",
        Form::Expression | Form::Format => b"http-request set-var(txn.a) ",
    }
}
