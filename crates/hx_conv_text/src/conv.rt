ghost use Rattle.std.specs.Prelude.{◌≡◌, ◌≤◌, ℕ, IfOk, IfErr, IfSome, IsErrOf, IsNone, IsOk, IsSome, IsSomeAnd, IsUtf8, option_and_then, true, false, Some, None};
ghost use Rattle.hx_ast.specs.Types.{input_kind};
ghost use Rattle.hx_ast.specs.declared.conv.Conv.TheVariants as conv;
ghost use Rattle.hx_outside.specs.Expressions.{expression, IsExpression};
ghost use Rattle.hx_sample.specs.Cast.{is_printed};
ghost use Rattle.hx_sample.specs.Seen.{value_of, occurrence_value};
ghost use Rattle.hx_conv_text.specs.Building.{expression_text, BuildCountsLarge, IsExpressionFault, IsNoRegex, IsRegex};
ghost use Rattle.hx_conv_text.specs.Converters.{content_of, has_lent_bytes, is_part_conv, is_text_conv, text_conv_of};

use crate::applying::content;
use crate::built::{Built, Made, Part};
use hx_ast::Conv;
use hx_outside::{PatFault, ReFault, ReMaker};
use hx_regex::RegularExpression;
use hx_sample::{Sample, Vars};
use hx_text::{Kind, NoMemory, Octets, VarName};
use regex::bytes::Regex;
use std::alloc::Global;
use std::marker::Model;

/// A converter of texts that was built, from `lower` to `url_dec` of the manual's table (HAProxy
/// configuration manual 2.4, section 7.3.1): its regular expression, if it has one, was read once.
/// Contracts see it as the converter that it was built from.
pub struct TextConv {
    built: Built,
}

// Written out, so that letting one go is one call in the proofs of callers.
impl Drop for TextConv {
    fn drop(self) {
        let TextConv { built: _built } = self;
    }
}

impl Model for TextConv {
    ghost use Rattle.hx_ast.specs.declared.conv.Conv.{Conv as Syntax};

    ghost Value = { Syntax };

    ghost use Rattle.hx_conv_text.specs.Built.{conv_of_text};

    ghost view = { λ conv. conv_of_text conv.built };
}

/// The converter `conv`, built: its regular expression, if it has one, is made by `maker`, and its
/// arguments are copied into memory of `alloc`. The caller knows that it is a converter of texts.
///
/// `NotUtf8` and `BadRegex` come exactly where `conv` has an expression whose text isn't UTF-8, or
/// is UTF-8 and no expression. `TooLarge` only where the maker's count of texts that were too large
/// rose; the last such text is then that of `conv`. `NoMemory` where memory runs out. No other
/// fault comes.
pub fn build_text<M: ReMaker>(
    alloc: Global,
    conv: &Conv,
    maker: &mut M,
) -> Result<TextConv, PatFault>
    requires { is_text_conv conv.now ≡ true }
    ensures built { IfOk result (λ built. built ≡ conv.now) }
    ensures read { IfOk result (λ _. IfSome (expression_text conv.now) IsRegex) }
    ensures not_utf8 { IsErrOf result PatFault.NotUtf8
        → IsSomeAnd (expression_text conv.now) (λ asked. ¬ (IsUtf8 asked.text)) }
    ensures bad { IsErrOf result PatFault.BadRegex
        → IsSomeAnd (expression_text conv.now) IsNoRegex }
    ensures large { IsErrOf result PatFault.TooLarge → IsSome (expression_text conv.now) }
    ensures other { IfErr result IsExpressionFault }
    ensures counted { BuildCountsLarge result (λ asked. expression_text conv.now ≡ Some asked)
        (M.state maker.old) (M.state maker.new) }
{
    match conv {
        Conv::Regsub(text, sub, each, ci) => {
            let re = made_regex(alloc, text.as_slice(), *ci, maker)?;
            match regsub_conv(alloc, text, re, sub, *each, *ci) {
                Ok(built) => Ok(built),
                Err(NoMemory) => Err(PatFault::NoMemory),
            }
        }
        conv => match plain_conv(alloc, conv) {
            Ok(built) => Ok(built),
            Err(NoMemory) => Err(PatFault::NoMemory),
        },
    }
}

fn copied(alloc: Global, text: &Octets) -> Result<Octets, NoMemory>
    ensures { IfOk result (λ copied. copied ≡ text.now) }
{
    Octets::copy(alloc, text.as_slice())
}

fn copied_text(alloc: Global, text: &Option<Octets>) -> Result<Option<Octets>, NoMemory>
    ensures { IfOk result (λ copied. copied ≡ text.now) }
{
    match text {
        Some(text) => Ok(Some(copied(alloc, text)?)),
        None => Ok(None),
    }
}

fn copied_name(alloc: Global, name: &VarName) -> Result<VarName, NoMemory>
    ensures { IfOk result (λ copied. copied ≡ name.now) }
{
    Ok(VarName {
        scope: name.scope,
        name: copied(alloc, &name.name)?,
    })
}

fn copied_var(alloc: Global, name: &Option<VarName>) -> Result<Option<VarName>, NoMemory>
    ensures { IfOk result (λ copied. copied ≡ name.now) }
{
    match name {
        Some(name) => Ok(Some(copied_name(alloc, name)?)),
        None => Ok(None),
    }
}

/// `regsub` with its expression.
fn regsub_conv(
    alloc: Global,
    text: &Octets,
    re: Regex,
    sub: &Octets,
    each: bool,
    ci: bool,
) -> Result<TextConv, NoMemory>
    requires { IsExpression ci text.now re }
    ensures { IfOk result (λ built. built ≡ conv.Regsub text.now sub.now each ci) }
{
    let re = RegularExpression::permanent(alloc, text.as_slice(), ci, re)?;
    let sub = copied(alloc, sub)?;
    Ok(TextConv {
        built: Built::Made(Made::Regsub(re, sub, each)),
    })
}

/// A converter that has no expression.
fn plain_conv(alloc: Global, conv: &Conv) -> Result<TextConv, NoMemory>
    requires text { is_text_conv conv.now ≡ true }
    requires plain { IsNone (expression_text conv.now) }
    ensures { IfOk result (λ built. built ≡ conv.now) }
{
    let built = match conv {
        Conv::Length => Built::Length,
        Conv::Strcmp(name) => Built::Strcmp(copied_name(alloc, name)?),
        Conv::Lower => Built::Made(Made::Lower),
        Conv::Upper => Built::Made(Made::Upper),
        Conv::UrlDec(form) => Built::Made(Made::UrlDec(*form)),
        Conv::Concat(start, name, end) => Built::Made(Made::Concat(
            copied_text(alloc, start)?,
            copied_var(alloc, name)?,
            copied_text(alloc, end)?,
        )),
        Conv::Field(index, delims, count) => {
            Built::Part(Part::Field(*index, copied(alloc, delims)?, *count))
        }
        Conv::Word(index, delims, count) => {
            Built::Part(Part::Word(*index, copied(alloc, delims)?, *count))
        }
        Conv::Bytes(offset, len) => Built::Part(Part::Bytes(*offset, *len)),
        Conv::Ltrim(chars) => Built::Part(Part::Ltrim(copied(alloc, chars)?)),
        Conv::Rtrim(chars) => Built::Part(Part::Rtrim(copied(alloc, chars)?)),
        Conv::CutCrlf => Built::Part(Part::CutCrlf),
        _ => unreachable!(),
    };
    Ok(TextConv { built })
}

/// The regular expression that the text writes, made by `maker` in memory of `alloc`; `ci` says
/// whether it ignores the case of letters.
///
/// `NotUtf8` and `BadRegex` come exactly where the text isn't UTF-8, or is UTF-8 and no expression.
/// `TooLarge` only where the maker's count of texts that were too large rose; the last such text is
/// then this one. `NoMemory` where memory runs out. No other fault comes.
pub fn made_regex<M: ReMaker>(
    alloc: Global,
    text: &[u8],
    ci: bool,
    maker: &mut M,
) -> Result<Regex, PatFault>
    ensures made { IfOk result (IsExpression ci text.now) }
    ensures utf8 { IfOk result (λ _. IsUtf8 text.now) }
    ensures not_utf8 { IsErrOf result PatFault.NotUtf8 → ¬ (IsUtf8 text.now) }
    ensures bad { IsErrOf result PatFault.BadRegex
        → IsNoRegex (record { text = text.now; ci = ci }) }
    ensures other { IfErr result IsExpressionFault }
    ensures counted { BuildCountsLarge result (λ asked. asked ≡ record { text = text.now; ci = ci })
        (M.state maker.old) (M.state maker.new) }
{
    match std::str::from_utf8(text) {
        Ok(text) => match maker.make(alloc, text, ci) {
            Ok(re) => Ok(re),
            Err(ReFault::BadRegex) => Err(PatFault::BadRegex),
            Err(ReFault::TooLarge) => Err(PatFault::TooLarge),
            Err(ReFault::NoMemory) => Err(PatFault::NoMemory),
        },
        Err(_) => Err(PatFault::NotUtf8),
    }
}

/// What the converter makes of the sample, which is first cast to the type that the converter takes
/// (`bytes` a binary, every other a string). Variables are those that `conn`, a connection, sees.
///
/// None exactly where the sample has no such cast or the converter fails: `field` and `word` where
/// no piece stands at the index, `strcmp` where the variable is unset, `url_dec` where two
/// hexadecimal digits don't follow a `%`.
///
/// A part of bytes that are lent is lent on, and one of owned bytes keeps their memory. Where the
/// value has the bytes of the sample, as `lower` of a text in lower case, these are passed on as
/// well. Then memory is taken only for the search of a regular expression, and to write a number
/// or an address as a text. `NoMemory` where memory runs out.
#[tactic(auto, unfolding(crate::specs::Converters::text_conv_of))]
pub fn apply<'a>(
    alloc: Global,
    conv: &TextConv,
    sample: Sample<'a>,
    conn: u32,
    vars: &Vars,
) -> Result<Option<Sample<'a>>, NoMemory>
    ensures value { IfOk result (λ made.
        occurrence_value made ≡ text_conv_of conv.now (value_of sample.entry) conn vars.now) }
    ensures free { is_part_conv conv.now ≡ true → has_lent_bytes sample.entry ≡ true
        → IsOk result }
    ensures lent { is_part_conv conv.now ≡ true → has_lent_bytes sample.entry ≡ true →
        IfOk result (λ made. IfSome made (λ s. has_lent_bytes s ≡ true)) }

    // A part takes no memory but for a sample that is printed.
    ensures part { is_part_conv conv.now ≡ true
        → is_printed (value_of sample.entry) (input_kind conv.now) ≡ false → IsOk result }

    // Where the value has the bytes of the sample and those are lent, they are lent on. No memory
    // is taken then, but for the search of an expression.
    ensures same { has_lent_bytes sample.entry ≡ true → IfOk result (λ made. IfSome made (λ s.
        content_of (value_of s) ≡ content_of (value_of sample.entry) → has_lent_bytes s ≡ true)) }
    ensures same_free { has_lent_bytes sample.entry ≡ true → expression_text conv.now ≡ None
        → option_and_then content_of (text_conv_of conv.now (value_of sample.entry) conn vars.now)
        ≡ content_of (value_of sample.entry) → IsOk result }
{
    match content(alloc, sample, conv.text_input_kind())? {
        Some(text) => conv.built.converted(alloc, text, conn, vars),
        None => Ok(None),
    }
}

impl TextConv {
    /// The type to which the converter casts its input.
    fn text_input_kind(&self) -> Kind
        ensures { result ≡ input_kind self.now }
    {
        match &self.built {
            Built::Part(Part::Bytes(_, _)) => Kind::Bin,
            Built::Part(Part::Field(_, _, _)) => Kind::Str,
            Built::Part(Part::Word(_, _, _)) => Kind::Str,
            Built::Part(Part::Ltrim(_)) => Kind::Str,
            Built::Part(Part::Rtrim(_)) => Kind::Str,
            Built::Part(Part::CutCrlf) => Kind::Str,
            Built::Made(Made::Lower) => Kind::Str,
            Built::Made(Made::Upper) => Kind::Str,
            Built::Made(Made::Concat(_, _, _)) => Kind::Str,
            Built::Made(Made::Regsub(_, _, _)) => Kind::Str,
            Built::Made(Made::UrlDec(_)) => Kind::Str,
            Built::Length => Kind::Str,
            Built::Strcmp(_) => Kind::Str,
        }
    }
}
