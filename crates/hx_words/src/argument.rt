ghost use Rattle.std.specs.Prelude.{◌≡◌, ◌≢◌, ◌<◌, ◌≤◌, length, IfOk, IfErr};
ghost use Rattle.hx_words.specs.Arguments.{argument_item, arguments, argument_items};
ghost use Rattle.hx_words.specs.Arguments.ArgumentsEnd.{AtParenthesis, AtFault};
ghost use Rattle.hx_words.specs.TokenView.{argument_item_of, quote_state_of};
ghost use Rattle.hx_words.specs.Quoting.{escape_of, part_at};
ghost use Rattle.hx_words.specs.TextItems.{following_count, part_or};
ghost use Rattle.hx_words.specs.TextItems.QuoteState.{Outside, Single, Double};

use crate::fault::ArgFault;
use crate::parts::PartsSoFar;
use crate::quoting::{Mode, PartValue, first, read_escape, skip};
use hx_text::Octets;
use std::alloc::Global;

/// The item that a text between parentheses begins with.
#[derive(Clone, Copy)]
pub(crate) enum ArgToken<'a> {
    Comma,
    Close,
    Part(usize, PartValue<'a>, Mode),
    NoHex,
}

/// The arguments of a call, and what follows its `)`.
#[derive(Drop)]
pub(crate) struct Arguments<'a> {
    pub(crate) args: Vec<Octets>,
    pub(crate) rest: &'a [u8],
}

/// Reads what follows `(`.
#[tactic(auto, using(crate::proofs::ArgumentLemmas::arguments_start, crate::proofs::ArgumentLemmas::arguments_comma, crate::proofs::ArgumentLemmas::arguments_part, crate::proofs::ArgumentLemmas::ends_args, crate::proofs::ArgumentLemmas::ends_as, crate::proofs::ArgumentLemmas::ends_open, crate::proofs::StepLemmas::closed_shorter))]
pub(crate) fn read_arguments(alloc: Global, text: &[u8]) -> Result<Arguments<'_>, ArgFault>
    ensures end { IfOk result
        (λ read. (argument_items text.now).ending ≡ AtParenthesis read.rest.now) }
    ensures within { IfOk result (λ read. length read.rest.now < length text.now) }
    ensures args { IfOk result
        (λ read. read.args.items ≡ arguments (argument_items text.now).items) }
    ensures fault { IfErr result
        (λ fault. fault ≢ ArgFault.NoMemory → (argument_items text.now).ending ≡ AtFault fault) }
{
    let mut parts = PartsSoFar::new(alloc);
    let mut mode = Mode::Outside;
    let mut rest = text;
    'items: while let Some((byte, after)) = first(rest) {
        match argument_at(mode, byte, after) {
            ArgToken::Comma => {
                parts.separate(alloc)?;
                rest = after;
            }
            ArgToken::Part(count, value, next) => {
                parts.append(alloc, &value)?;
                mode = next;
                rest = skip(after, count);
            }
            ArgToken::Close => {
                let args = parts.finish()?;
                return Ok(Arguments { args, rest: after });
            }
            ArgToken::NoHex => return Err(ArgFault::BadEscape),
        }
    }
    match mode {
        Mode::Outside => Err(ArgFault::Unclosed),
        Mode::Single | Mode::Double => Err(ArgFault::OpenQuote),
    }
}

/// The item that begins with `byte`, where the bytes of `after` follow it.
#[tactic(auto, unfolding(crate::specs::Arguments::argument_item))]
fn argument_at<'a>(mode: Mode, byte: u8, after: &[u8]) -> ArgToken<'a>
    ensures item { argument_item_of after.now result
        ≡ argument_item (quote_state_of mode) byte after.now }
    ensures within { following_count (argument_item_of after.now result) ≤ length after.now }
{
    match mode {
        Mode::Outside => outside(byte, after),
        Mode::Double => double(byte, after),
        Mode::Single => single(byte, after),
    }
}

#[tactic(auto, unfolding(crate::specs::Arguments::argument_item))]
fn outside<'a>(byte: u8, after: &[u8]) -> ArgToken<'a>
    ensures item { argument_item_of after.now result ≡ argument_item Outside byte after.now }
    ensures within { following_count (argument_item_of after.now result) ≤ length after.now }
{
    match byte {
        b')' => ArgToken::Close,
        b',' => ArgToken::Comma,
        b'"' => ArgToken::Part(0, PartValue::Nothing, Mode::Double),
        b'\'' => ArgToken::Part(0, PartValue::Nothing, Mode::Single),
        b'\\' => escaped(Mode::Outside, after),
        _ => ArgToken::Part(0, PartValue::One(byte), Mode::Outside),
    }
}

fn double<'a>(byte: u8, after: &[u8]) -> ArgToken<'a>
    ensures item { argument_item_of after.now result
        ≡ part_at (AtFault ArgFault.BadEscape) Double byte after.now }
    ensures within { following_count (argument_item_of after.now result) ≤ length after.now }
{
    match byte {
        b'"' => ArgToken::Part(0, PartValue::Nothing, Mode::Outside),
        b'\\' => escaped(Mode::Double, after),
        _ => ArgToken::Part(0, PartValue::One(byte), Mode::Double),
    }
}

fn single<'a>(byte: u8, after: &[u8]) -> ArgToken<'a>
    ensures item { argument_item_of after.now result
        ≡ part_at (AtFault ArgFault.BadEscape) Single byte after.now }
    ensures within { following_count (argument_item_of after.now result) ≤ length after.now }
{
    match byte {
        b'\'' => ArgToken::Part(0, PartValue::Nothing, Mode::Outside),
        _ => ArgToken::Part(0, PartValue::One(byte), Mode::Single),
    }
}

fn escaped<'a>(mode: Mode, after: &[u8]) -> ArgToken<'a>
    ensures item { argument_item_of after.now result
        ≡ part_or (AtFault ArgFault.BadEscape) (quote_state_of mode) (escape_of after.now) }
    ensures within { following_count (argument_item_of after.now result) ≤ length after.now }
{
    match read_escape(after) {
        None => ArgToken::NoHex,
        Some((count, value)) => ArgToken::Part(count, value, mode),
    }
}
