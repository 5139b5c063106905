ghost use Rattle.std.specs.Prelude.{◌≡◌, ◌≤◌, [], length};
ghost use Rattle.hx_base.specs.Bytes.{ascii};
ghost use Rattle.hx_words.specs.Quoting.{escape_of, part_at};
ghost use Rattle.hx_words.specs.TextItems.{following_count, part_or};
ghost use Rattle.hx_words.specs.TextItems.QuoteState.{Outside, Single, Double};
ghost use Rattle.hx_words.specs.TokenView.{word_item_of, quote_state_of};
ghost use Rattle.hx_base.specs.Pairs.{pairs_of};
ghost use Rattle.hx_words.specs.Words.{word_item};
ghost use Rattle.hx_words.specs.Words.LineEnd.{WrongItem};

use crate::fault::WordFault;
use crate::quoting::{Mode, PartValue, read_escape};
use crate::variable::{starts_with, variable};

/// The item that a text begins with, with how many of the bytes after its first belong to it.
#[derive(Clone, Copy)]
pub(crate) enum Token<'a> {
    Gap(usize),
    Part(usize, PartValue<'a>, Mode),
    Wrong(WordFault),
}

/// The item that begins with `byte`, where the bytes of `after` follow it.
#[tactic(auto, unfolding(crate::specs::Words::word_item))]
pub(crate) fn item_at<'a>(
    env: &'a [(Vec<u8>, Vec<u8>)],
    mode: Mode,
    byte: u8,
    after: &[u8],
) -> Token<'a>
    ensures item { word_item_of result
        ≡ word_item (pairs_of env.now) (quote_state_of mode) byte after.now }
    ensures within { following_count (word_item_of result) ≤ length after.now }
{
    match mode {
        Mode::Outside => outside(byte, after),
        Mode::Double => double(env, byte, after),
        Mode::Single => single(byte),
    }
}

#[tactic(auto, unfolding(crate::specs::Words::word_item))]
fn outside<'a>(byte: u8, after: &[u8]) -> Token<'a>
    ensures item { word_item_of result ≡ word_item [] Outside byte after.now }
    ensures within { following_count (word_item_of result) ≤ length after.now }
{
    match byte {
        b' ' | b'\t' => Token::Gap(0),
        b'#' => Token::Gap(after.len()),
        b'"' => Token::Part(0, PartValue::Nothing, Mode::Double),
        b'\'' => Token::Part(0, PartValue::Nothing, Mode::Single),
        b'\\' => plain_escape(Mode::Outside, after),
        _ => Token::Part(0, PartValue::One(byte), Mode::Outside),
    }
}

#[tactic(auto, unfolding(crate::specs::Words::word_item))]
fn double<'a>(env: &'a [(Vec<u8>, Vec<u8>)], byte: u8, after: &[u8]) -> Token<'a>
    ensures item { word_item_of result ≡ word_item (pairs_of env.now) Double byte after.now }
    ensures within { following_count (word_item_of result) ≤ length after.now }
{
    match byte {
        b'"' => Token::Part(0, PartValue::Nothing, Mode::Outside),
        b'$' => match variable(env, after) {
            None => Token::Wrong(WordFault::BadVariable),
            Some((count, value)) => Token::Part(count, PartValue::Lent(value), Mode::Double),
        },
        b'\\' => dollar_escape(after),
        _ => Token::Part(0, PartValue::One(byte), Mode::Double),
    }
}

fn single<'a>(byte: u8) -> Token<'a>
    ensures item { word_item_of result ≡ part_at (WrongItem WordFault.BadEscape) Single byte [] }
    ensures within { following_count (word_item_of result) ≡ 0 }
{
    match byte {
        b'\'' => Token::Part(0, PartValue::Nothing, Mode::Outside),
        _ => Token::Part(0, PartValue::One(byte), Mode::Single),
    }
}

/// A backslash in double quotes.
#[tactic(auto, unfolding(crate::specs::Words::word_item))]
fn dollar_escape<'a>(after: &[u8]) -> Token<'a>
    ensures item { word_item_of result ≡ word_item [] Double (ascii "\\") after.now }
    ensures within { following_count (word_item_of result) ≤ length after.now }
{
    if starts_with(after, b'$') {
        return Token::Part(1, PartValue::One(b'$'), Mode::Double);
    }
    plain_escape(Mode::Double, after)
}

/// A backslash outside quotes, and one in double quotes before any byte but `$`.
fn plain_escape<'a>(mode: Mode, after: &[u8]) -> Token<'a>
    ensures item { word_item_of result
        ≡ part_or (WrongItem WordFault.BadEscape) (quote_state_of mode) (escape_of after.now) }
    ensures within { following_count (word_item_of result) ≤ length after.now }
{
    match read_escape(after) {
        None => Token::Wrong(WordFault::BadEscape),
        Some((count, value)) => Token::Part(count, value, mode),
    }
}
