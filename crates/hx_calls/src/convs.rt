ghost use Rattle.std.specs.Prelude.{◌≡◌, Ok};
ghost use Rattle.hx_calls.specs.declared.convs.ConvName.TheVariants as conv_name;
ghost use Rattle.hx_calls.specs.Arguments.{made_by};
ghost use Rattle.hx_calls.specs.Codes.{AnswersAs};
ghost use Rattle.hx_calls.specs.Expressions.{conv_made};
ghost use Rattle.hx_calls.specs.Tables.{conv_names, conv_row, entry_at};

use crate::arguments::{
    at_most_one, bare, counted, given, one_or_two, required, single, two_or_three,
};
use crate::fault::SpellFault;
use crate::forms::{
    Amount, Delimiters, DigestLength, Index, Integer, Ipv4Mask, Ipv6Width, Letters, Operand, Text,
    Variable, VariableOrNothing,
};
use crate::lookup::lookup;
use hx_ast::Conv;
use hx_words::Call;
use std::alloc::Global;

/// A converter without its arguments, but for those that look a key up in a map.
#[derive(Clone, Copy, PartialEq, Eq)]
pub enum ConvName {
    Lower,
    Upper,
    Length,
    Field,
    Word,
    Bytes,
    Ltrim,
    Rtrim,
    CutCrlf,
    Concat,
    Strcmp,
    Regsub,
    UrlDec,
    Iif,
    Bool,
    Even,
    Odd,
    Not,
    Add,
    Sub,
    Mul,
    Div,
    Mod,
    Neg,
    And,
    Or,
    Xor,
    Cpl,
    Ipmask,
    Base64,
    Ub64enc,
    B64dec,
    Ub64dec,
    Hex,
    Hex2i,
    Sha2,
}

/// The names of converters (HAProxy configuration manual 2.4, section 7.3.1).
const CONVS: [(&[u8], ConvName); 36] = [
    (b"lower", ConvName::Lower),
    (b"upper", ConvName::Upper),
    (b"length", ConvName::Length),
    (b"field", ConvName::Field),
    (b"word", ConvName::Word),
    (b"bytes", ConvName::Bytes),
    (b"ltrim", ConvName::Ltrim),
    (b"rtrim", ConvName::Rtrim),
    (b"cut_crlf", ConvName::CutCrlf),
    (b"concat", ConvName::Concat),
    (b"strcmp", ConvName::Strcmp),
    (b"regsub", ConvName::Regsub),
    (b"url_dec", ConvName::UrlDec),
    (b"iif", ConvName::Iif),
    (b"bool", ConvName::Bool),
    (b"even", ConvName::Even),
    (b"odd", ConvName::Odd),
    (b"not", ConvName::Not),
    (b"add", ConvName::Add),
    (b"sub", ConvName::Sub),
    (b"mul", ConvName::Mul),
    (b"div", ConvName::Div),
    (b"mod", ConvName::Mod),
    (b"neg", ConvName::Neg),
    (b"and", ConvName::And),
    (b"or", ConvName::Or),
    (b"xor", ConvName::Xor),
    (b"cpl", ConvName::Cpl),
    (b"ipmask", ConvName::Ipmask),
    (b"base64", ConvName::Base64),
    (b"ub64enc", ConvName::Ub64enc),
    (b"b64dec", ConvName::B64dec),
    (b"ub64dec", ConvName::Ub64dec),
    (b"hex", ConvName::Hex),
    (b"hex2i", ConvName::Hex2i),
    (b"sha2", ConvName::Sha2),
];

#[tactic(auto, unfolding(crate::specs::Tables::conv_names))]
pub(crate) fn conv_name(name: &[u8]) -> Option<ConvName>
    ensures { result ≡ entry_at conv_names name.now }
{
    lookup(&CONVS, name)
}

/// The converter of this name with the arguments of the call.
pub(crate) fn conv(alloc: Global, name: ConvName, call: &Call) -> Result<Conv, SpellFault>
    ensures { AnswersAs result (conv_made name call.now.args) }
{
    match name {
        ConvName::Lower => bare(call, Conv::Lower),
        ConvName::Upper => bare(call, Conv::Upper),
        ConvName::Length => bare(call, Conv::Length),
        ConvName::Field => field(alloc, call),
        ConvName::Word => word(alloc, call),
        ConvName::Bytes => bytes(alloc, call),
        ConvName::Ltrim => Ok(Conv::Ltrim(single::<Text>(alloc, call)?)),
        ConvName::Rtrim => Ok(Conv::Rtrim(single::<Text>(alloc, call)?)),
        ConvName::CutCrlf => bare(call, Conv::CutCrlf),
        ConvName::Concat => concat(alloc, call),
        ConvName::Strcmp => Ok(Conv::Strcmp(single::<Variable>(alloc, call)?)),
        ConvName::Regsub => regsub(alloc, call),
        ConvName::UrlDec => Ok(Conv::UrlDec(at_most_one::<Integer>(alloc, call)?)),
        ConvName::Iif => iif(alloc, call),
        ConvName::Bool => bare(call, Conv::Bool),
        ConvName::Even => bare(call, Conv::Even),
        ConvName::Odd => bare(call, Conv::Odd),
        ConvName::Not => bare(call, Conv::Not),
        ConvName::Add => Ok(Conv::Add(single::<Operand>(alloc, call)?)),
        ConvName::Sub => Ok(Conv::Sub(single::<Operand>(alloc, call)?)),
        ConvName::Mul => Ok(Conv::Mul(single::<Operand>(alloc, call)?)),
        ConvName::Div => Ok(Conv::Div(single::<Operand>(alloc, call)?)),
        ConvName::Mod => Ok(Conv::Mod(single::<Operand>(alloc, call)?)),
        ConvName::Neg => bare(call, Conv::Neg),
        ConvName::And => Ok(Conv::And(single::<Operand>(alloc, call)?)),
        ConvName::Or => Ok(Conv::Or(single::<Operand>(alloc, call)?)),
        ConvName::Xor => Ok(Conv::Xor(single::<Operand>(alloc, call)?)),
        ConvName::Cpl => bare(call, Conv::Cpl),
        ConvName::Ipmask => ipmask(alloc, call),
        ConvName::Base64 => bare(call, Conv::Base64),
        ConvName::Ub64enc => bare(call, Conv::Ub64enc),
        ConvName::B64dec => bare(call, Conv::B64dec),
        ConvName::Ub64dec => bare(call, Conv::Ub64dec),
        ConvName::Hex => bare(call, Conv::Hex),
        ConvName::Hex2i => bare(call, Conv::Hex2i),
        ConvName::Sha2 => Ok(Conv::Sha2(at_most_one::<DigestLength>(alloc, call)?)),
    }
}

fn field(alloc: Global, call: &Call) -> Result<Conv, SpellFault>
    ensures { AnswersAs result (made_by (conv_row conv_name.Field) call.now.args) }
{
    let (index, delims, count) = two_or_three::<Index, Delimiters, Amount>(alloc, call)?;
    Ok(Conv::Field(index, delims, count))
}

fn word(alloc: Global, call: &Call) -> Result<Conv, SpellFault>
    ensures { AnswersAs result (made_by (conv_row conv_name.Word) call.now.args) }
{
    let (index, delims, count) = two_or_three::<Index, Delimiters, Amount>(alloc, call)?;
    Ok(Conv::Word(index, delims, count))
}

fn bytes(alloc: Global, call: &Call) -> Result<Conv, SpellFault>
    ensures { AnswersAs result (made_by (conv_row conv_name.Bytes) call.now.args) }
{
    let (offset, len) = one_or_two::<Amount, Amount>(alloc, call)?;
    Ok(Conv::Bytes(offset, len))
}

fn concat(alloc: Global, call: &Call) -> Result<Conv, SpellFault>
    ensures { AnswersAs result (made_by (conv_row conv_name.Concat) call.now.args) }
{
    counted(call, 0, 3)?;
    let start = given::<Text>(alloc, call, 0)?;
    let variable = given::<VariableOrNothing>(alloc, call, 1)?;
    let end = given::<Text>(alloc, call, 2)?;
    match variable {
        None => Ok(Conv::Concat(start, None, end)),
        Some(variable) => Ok(Conv::Concat(start, variable, end)),
    }
}

fn regsub(alloc: Global, call: &Call) -> Result<Conv, SpellFault>
    ensures { AnswersAs result (made_by (conv_row conv_name.Regsub) call.now.args) }
{
    let (re, sub, letters) = two_or_three::<Text, Text, Letters>(alloc, call)?;
    match letters {
        None => Ok(Conv::Regsub(re, sub, false, false)),
        Some((each, ci)) => Ok(Conv::Regsub(re, sub, each, ci)),
    }
}

fn iif(alloc: Global, call: &Call) -> Result<Conv, SpellFault>
    ensures { AnswersAs result (made_by (conv_row conv_name.Iif) call.now.args) }
{
    counted(call, 2, 2)?;
    let first = required::<Text>(alloc, call, 0)?;
    let second = required::<Text>(alloc, call, 1)?;
    Ok(Conv::Iif(first, second))
}

fn ipmask(alloc: Global, call: &Call) -> Result<Conv, SpellFault>
    ensures { AnswersAs result (made_by (conv_row conv_name.Ipmask) call.now.args) }
{
    let (mask, bits) = one_or_two::<Ipv4Mask, Ipv6Width>(alloc, call)?;
    Ok(Conv::Ipmask(mask, bits))
}
