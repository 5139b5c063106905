ghost use Rattle.std.specs.Prelude.{◌≡◌, ℕ, List, Result};
ghost use Rattle.std.specs.Option.{ok_or};
ghost use Rattle.hx_calls.specs.declared.fault.SpellFault.{SpellFault};
ghost use Rattle.hx_calls.specs.declared.fault.SpellFault.TheVariants as spell;
ghost use Rattle.hx_calls.specs.Arguments.{read_form};
ghost use Rattle.hx_calls.specs.Codes.{AnswersAs};
ghost use Rattle.hx_calls.specs.Forms.Form.{Text, HeaderName, Variable, VariableOrNothing, Integer};
ghost use Rattle.hx_calls.specs.Forms.Form.{Index, Amount, Operand, Boolean, Letters, Byte};
ghost use Rattle.hx_calls.specs.Forms.Form.{Delimiters, Hexadecimal, Ipv4Address, Ipv6Address};
ghost use Rattle.hx_calls.specs.Forms.Form.{Ipv4Mask, Width, DigestLength};

use crate::fault::{BAD_ARGUMENT, BAD_NAME, SpellFault};
use crate::values::{
    boolean, byte, count, delimiters, digest, header, hex_bytes, index, ipv4, ipv4_mask, ipv6,
    letters, width,
};
use crate::variables::{operand, variable, variable_or_nothing};
use hx_ast::Val;
use hx_text::{Ip, Octets, VarName, read_i64};
use std::alloc::Global;

/// A form that an argument of a call may have. Each is a type without values, of the name that the
/// definitions have for it.
pub trait Form {
    /// what a text of this form stands for
    type Argument: Drop;

    ghost reads: { List ℕ → Result Self.Argument SpellFault };

    /// What the text stands for, or the code of a text that isn't of this form.
    fn read(alloc: Global, text: &[u8]) -> Result<Self::Argument, SpellFault>
        ensures { AnswersAs result (reads text.now) };
}

/// What is read of a text, or the code of a text that isn't of the form.
fn found<T: Drop>(read: Option<T>, code: u32) -> Result<T, SpellFault>
    ensures { result ≡ ok_or read (spell.Code code) }
{
    match read {
        None => Err(SpellFault::Code(code)),
        Some(found) => Ok(found),
    }
}

pub(crate) struct Text;

impl Form for Text {
    type Argument = Octets;

    ghost reads = { read_form Text };

    fn read(alloc: Global, text: &[u8]) -> Result<Octets, SpellFault> {
        Ok(Octets::copy(alloc, text)?)
    }
}

pub(crate) struct HeaderName;

impl Form for HeaderName {
    type Argument = Octets;

    ghost reads = { read_form HeaderName };

    fn read(alloc: Global, text: &[u8]) -> Result<Octets, SpellFault> {
        found(header(alloc, text)?, BAD_NAME)
    }
}

/// The name of a variable, with its scope before it.
pub struct Variable;

impl Form for Variable {
    type Argument = VarName;

    ghost reads = { read_form Variable };

    fn read(alloc: Global, text: &[u8]) -> Result<VarName, SpellFault> {
        found(variable(alloc, text)?, BAD_NAME)
    }
}

pub(crate) struct VariableOrNothing;

impl Form for VariableOrNothing {
    type Argument = Option<VarName>;

    ghost reads = { read_form VariableOrNothing };

    fn read(alloc: Global, text: &[u8]) -> Result<Option<VarName>, SpellFault> {
        found(variable_or_nothing(alloc, text)?, BAD_NAME)
    }
}

pub(crate) struct Integer;

impl Form for Integer {
    type Argument = i64;

    ghost reads = { read_form Integer };

    fn read(_alloc: Global, text: &[u8]) -> Result<i64, SpellFault> {
        found(read_i64(text), BAD_ARGUMENT)
    }
}

pub(crate) struct Index;

impl Form for Index {
    type Argument = i64;

    ghost reads = { read_form Index };

    fn read(_alloc: Global, text: &[u8]) -> Result<i64, SpellFault> {
        found(index(text), BAD_ARGUMENT)
    }
}

pub(crate) struct Amount;

impl Form for Amount {
    type Argument = i64;

    ghost reads = { read_form Amount };

    fn read(_alloc: Global, text: &[u8]) -> Result<i64, SpellFault> {
        found(count(text), BAD_ARGUMENT)
    }
}

pub(crate) struct Operand;

impl Form for Operand {
    type Argument = Val;

    ghost reads = { read_form Operand };

    fn read(alloc: Global, text: &[u8]) -> Result<Val, SpellFault> {
        found(operand(alloc, text)?, BAD_NAME)
    }
}

pub(crate) struct Boolean;

impl Form for Boolean {
    type Argument = bool;

    ghost reads = { read_form Boolean };

    fn read(_alloc: Global, text: &[u8]) -> Result<bool, SpellFault> {
        found(boolean(text), BAD_ARGUMENT)
    }
}

pub(crate) struct Letters;

impl Form for Letters {
    type Argument = (bool, bool);

    ghost reads = { read_form Letters };

    fn read(_alloc: Global, text: &[u8]) -> Result<(bool, bool), SpellFault> {
        found(letters(text), BAD_ARGUMENT)
    }
}

pub(crate) struct Byte;

impl Form for Byte {
    type Argument = u8;

    ghost reads = { read_form Byte };

    fn read(_alloc: Global, text: &[u8]) -> Result<u8, SpellFault> {
        found(byte(text), BAD_ARGUMENT)
    }
}

pub(crate) struct Delimiters;

impl Form for Delimiters {
    type Argument = Octets;

    ghost reads = { read_form Delimiters };

    fn read(alloc: Global, text: &[u8]) -> Result<Octets, SpellFault> {
        found(delimiters(alloc, text)?, BAD_ARGUMENT)
    }
}

pub(crate) struct Hexadecimal;

impl Form for Hexadecimal {
    type Argument = Octets;

    ghost reads = { read_form Hexadecimal };

    fn read(alloc: Global, text: &[u8]) -> Result<Octets, SpellFault> {
        found(hex_bytes(alloc, text)?, BAD_ARGUMENT)
    }
}

pub(crate) struct Ipv4Address;

impl Form for Ipv4Address {
    type Argument = Ip;

    ghost reads = { read_form Ipv4Address };

    fn read(_alloc: Global, text: &[u8]) -> Result<Ip, SpellFault> {
        found(ipv4(text), BAD_ARGUMENT)
    }
}

pub(crate) struct Ipv6Address;

impl Form for Ipv6Address {
    type Argument = Ip;

    ghost reads = { read_form Ipv6Address };

    fn read(_alloc: Global, text: &[u8]) -> Result<Ip, SpellFault> {
        found(ipv6(text), BAD_ARGUMENT)
    }
}

pub(crate) struct Ipv4Mask;

impl Form for Ipv4Mask {
    type Argument = u32;

    ghost reads = { read_form Ipv4Mask };

    fn read(_alloc: Global, text: &[u8]) -> Result<u32, SpellFault> {
        found(ipv4_mask(text), BAD_ARGUMENT)
    }
}

pub(crate) struct Ipv6Width;

impl Form for Ipv6Width {
    type Argument = u32;

    ghost reads = { read_form (Width 128) };

    fn read(_alloc: Global, text: &[u8]) -> Result<u32, SpellFault> {
        found(width(text, 128), BAD_ARGUMENT)
    }
}

pub(crate) struct DigestLength;

impl Form for DigestLength {
    type Argument = u16;

    ghost reads = { read_form DigestLength };

    fn read(_alloc: Global, text: &[u8]) -> Result<u16, SpellFault> {
        found(digest(text), BAD_ARGUMENT)
    }
}
