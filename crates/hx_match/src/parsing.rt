ghost use Rattle.std.specs.Prelude.{◌≡◌, ◌≢◌, None, Some, IfOk, IfErr, OnOk};
ghost use Rattle.std.specs.Result.{result_ok};
ghost use Rattle.hex.specs.Hex.{decode_of};
ghost use Rattle.hx_text.specs.Network.{net_of};
ghost use Rattle.hx_sample.specs.Keys.{folded, range_of, trimmed};
ghost use Rattle.hx_match.specs.Needles.{IsNeedle};
ghost use Rattle.hx_match.specs.Patterns.{fault_without, range_fault, text_fault, AsksMaker, MayCome, PatternCountsLarge};
ghost use Rattle.hx_match.specs.Read.{by_of, by_of_text, is_delim, range_of_bounds, IsKeyExpression, IsNetwork, IsRead, IsTextRead};

use crate::components::{Delims, trim};
use crate::form::{Form, TextForm};
use crate::needle::Needle;
use crate::pattern::Pattern;
use crate::ranges::{Bounds, read_range};
use hex::FromHexError;
use hx_outside::{PatFault, ReFault, ReMaker};
use hx_regex::RegularExpression;
use hx_text::{By, Net, NoMemory, Octets, read_net};
use memchr::memmem::FinderBuilder;
use std::alloc::Global;

/// The text as a pattern of the method, where `ci` says whether the case of letters is ignored.
/// What the method needs of it is read once, and its bytes are copied into memory of `alloc`; a
/// regular expression is made by `maker`. The caller knows that `by` takes patterns: it is neither
/// `Found` nor `Bool`.
///
/// A pattern of `Int` and `Len` is `N`, `N:M`, `N:` or `:M`: `BadInt` exactly where the text is
/// none of these with numbers of 64 bits and a sign, `BadRange` exactly where N is above M.
/// `BadAddress` exactly where the text of a pattern of `Ip` is no network as `read_net` reads it.
/// `BadHex` exactly where that of `Bin` isn't an even number of hexadecimal digits. `NotUtf8` and
/// `BadRegex` exactly where that of `Reg` isn't UTF-8, or is UTF-8 and no expression. Any text is a
/// pattern of the other methods. `TooLarge` comes by `Reg` alone, and only where the maker's count
/// of texts that were too large rose; the last such text is then this one. `NoMemory` where memory
/// runs out.
pub fn parse<M: ReMaker>(
    alloc: Global,
    by: By,
    ci: bool,
    text: &[u8],
    maker: &mut M,
) -> Result<Pattern, PatFault>
    requires found { by ≢ By.Found }
    requires bool { by ≢ By.Bool }
    ensures parsed { IfOk result (λ pattern.
        pattern ≡ record { by = by; ci = ci; text = text.now }) }
    ensures read { OnOk result (text_fault by ci text.now ≡ None) }
    ensures refused { IfErr result
        (MayCome (text_fault by ci text.now) (AsksMaker by text.now)) }
    ensures large { PatternCountsLarge result (record { text = text.now; ci = ci })
        (M.state maker.old) (M.state maker.new) }
{
    let form = match by {
        By::Reg => Form::Reg(made_regex(alloc, ci, text, maker)?),
        by => plain_form(alloc, by, ci, text)?,
    };
    match Octets::copy(alloc, text) {
        Ok(text) => Ok(Pattern { ci, text, form }),
        Err(NoMemory) => Err(PatFault::NoMemory),
    }
}

/// What is read of the text by any method but `Reg`.
fn plain_form(alloc: Global, by: By, ci: bool, text: &[u8]) -> Result<Form, PatFault>
    requires found { by ≢ By.Found }
    requires bool { by ≢ By.Bool }
    requires reg { by ≢ By.Reg }
    ensures by { IfOk result (λ form. by_of form ≡ by) }
    ensures read { IfOk result (IsRead ci text.now) }
    ensures none { OnOk result (text_fault by ci text.now ≡ None) }
    ensures refused { IfErr result (MayCome (text_fault by ci text.now) ⊥) }
{
    match by {
        By::Found => unreachable!(),
        By::Bool => unreachable!(),
        By::Reg => unreachable!(),
        By::Int => Ok(Form::Int(read_bounds(text)?)),
        By::Len => Ok(Form::Len(read_bounds(text)?)),
        By::Ip => Ok(Form::Ip(read_network(text)?)),
        By::Bin => Ok(Form::Bin(read_hex(alloc, text)?)),
        By::Str => Ok(Form::Text(TextForm::Str)),
        By::Beg => Ok(Form::Text(TextForm::Beg)),
        By::End => Ok(Form::Text(TextForm::End)),
        By::Sub => Ok(Form::Text(part_form(alloc, ci, text)?)),
        By::Dir => Ok(Form::Text(TextForm::Dir(component(alloc, ci, Delims::Path, text)?))),
        By::Dom => Ok(Form::Text(TextForm::Dom(component(alloc, ci, Delims::Domain, text)?))),
    }
}

/// The range of numbers that the text writes.
fn read_bounds(text: &[u8]) -> Result<Bounds, PatFault>
    ensures read { IfOk result (λ bounds. range_of text.now ≡ Some (range_of_bounds bounds)) }
    ensures none { OnOk result (range_fault (range_of text.now) ≡ None) }
    ensures refused { IfErr result (MayCome (range_fault (range_of text.now)) ⊥) }
{
    match read_range(text) {
        Some(bounds) => {
            if bounds.ends_before() {
                Err(PatFault::BadRange)
            } else {
                Ok(bounds)
            }
        }
        None => Err(PatFault::BadInt),
    }
}

/// The network that the text writes.
fn read_network(text: &[u8]) -> Result<Net, PatFault>
    ensures read { IfOk result (IsNetwork text.now) }
    ensures refused { IfErr result
        (MayCome (fault_without PatFault.BadAddress (net_of text.now)) ⊥) }
{
    match read_net(text) {
        Some(net) => Ok(net),
        None => Err(PatFault::BadAddress),
    }
}

/// The bytes that the text writes in hexadecimal digits.
fn read_hex(alloc: Global, text: &[u8]) -> Result<Octets, PatFault>
    ensures read { IfOk result (λ bytes. result_ok (decode_of text.now) ≡ Some bytes) }
    ensures refused { IfErr result
        (MayCome (fault_without PatFault.BadHex (result_ok (decode_of text.now))) ⊥) }
{
    match hex::decode(alloc, text) {
        Ok(bytes) => Ok(Octets::from_vec(bytes)),
        Err(FromHexError::OutOfMemory) => Err(PatFault::NoMemory),
        Err(FromHexError::OddLength) => Err(PatFault::BadHex),
        Err(FromHexError::InvalidStringLength) => Err(PatFault::BadHex),
        Err(FromHexError::InvalidHexCharacter { .. }) => Err(PatFault::BadHex),
    }
}

fn part_form(alloc: Global, ci: bool, text: &[u8]) -> Result<TextForm, PatFault>
    ensures by { IfOk result (λ form. by_of_text form ≡ By.Sub) }
    ensures read { IfOk result (IsTextRead ci text.now) }
    ensures refused { IfErr result (λ fault. fault ≡ PatFault.NoMemory) }
{
    if ci {
        return Ok(TextForm::SubFolded(needle_of(alloc, ci, text)?));
    }
    match Vec::from_slice(alloc, text) {
        Ok(key) => Ok(TextForm::Sub(FinderBuilder::new().build_forward_owned(key))),
        Err(_) => Err(PatFault::NoMemory),
    }
}

fn component(alloc: Global, ci: bool, delims: Delims, text: &[u8]) -> Result<Needle, PatFault>
    ensures read { IfOk result (IsNeedle (folded ci (trimmed (is_delim delims) text.now))) }
    ensures refused { IfErr result (λ fault. fault ≡ PatFault.NoMemory) }
{
    needle_of(alloc, ci, trim(delims, text))
}

fn needle_of(alloc: Global, ci: bool, key: &[u8]) -> Result<Needle, PatFault>
    ensures read { IfOk result (IsNeedle (folded ci key.now)) }
    ensures refused { IfErr result (λ fault. fault ≡ PatFault.NoMemory) }
{
    match Needle::new(alloc, ci, key) {
        Ok(needle) => Ok(needle),
        Err(NoMemory) => Err(PatFault::NoMemory),
    }
}

/// The text as a regular expression.
fn made_regex<M: ReMaker>(
    alloc: Global,
    ci: bool,
    text: &[u8],
    maker: &mut M,
) -> Result<RegularExpression, PatFault>
    ensures made { IfOk result (IsKeyExpression ci text.now) }
    ensures none { OnOk result (text_fault By.Reg ci text.now ≡ None) }
    ensures refused { IfErr result
        (MayCome (text_fault By.Reg ci text.now) (AsksMaker By.Reg text.now)) }
    ensures large { PatternCountsLarge result (record { text = text.now; ci = ci })
        (M.state maker.old) (M.state maker.new) }
{
    match std::str::from_utf8(text) {
        Ok(utf8) => match maker.make(alloc, utf8, ci) {
            Ok(made) => match RegularExpression::new(alloc, text, ci, made) {
                Ok(re) => Ok(re),
                Err(NoMemory) => Err(PatFault::NoMemory),
            },
            Err(ReFault::BadRegex) => Err(PatFault::BadRegex),
            Err(ReFault::TooLarge) => Err(PatFault::TooLarge),
            Err(ReFault::NoMemory) => Err(PatFault::NoMemory),
        },
        Err(_) => Err(PatFault::NotUtf8),
    }
}
