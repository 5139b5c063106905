ghost use Rattle.std.specs.Prelude.{◌≡◌, IfOk, IsOk, option_map};
ghost use Rattle.hx_conv_val.specs.Forms.{bool_input, ip_input, text_input, bytes_input};
ghost use Rattle.hx_conv_val.specs.Inputs.{int_input, operand_of};
ghost use Rattle.hx_sample.specs.Seen.{bytes_of, value_of};

use hx_ast::Val;
use hx_sample::{Bytes, Sample, Vars, cast, lend};
use hx_text::{Ip, Kind, NoMemory};
use std::alloc::Global;

pub(crate) fn bool_input(alloc: Global, input: Sample<'_>) -> Result<Option<bool>, NoMemory>
    ensures { IfOk result (λ b. b ≡ bool_input (value_of input.entry)) }
{
    match cast(alloc, input, Kind::Bool)? {
        Some(Sample::Bool(b)) => Ok(Some(b)),
        _ => Ok(None),
    }
}

#[tactic(auto, using(crate::proofs::InputLemmas::unprinted))]
pub(crate) fn int_input(alloc: Global, input: Sample<'_>) -> Result<Option<i64>, NoMemory>
    ensures value { IfOk result (λ n. n ≡ int_input (value_of input.entry)) }
    ensures ok { IsOk result }
{
    match cast(alloc, input, Kind::Int)? {
        Some(Sample::Int(n)) => Ok(Some(n)),
        _ => Ok(None),
    }
}

#[tactic(auto, using(crate::proofs::InputLemmas::unprinted))]
pub(crate) fn ip_input(alloc: Global, input: Sample<'_>) -> Result<Option<Ip>, NoMemory>
    ensures value { IfOk result (λ ip. ip ≡ ip_input (value_of input.entry)) }
    ensures ok { IsOk result }
{
    match cast(alloc, input, Kind::Ip)? {
        Some(Sample::Ip(ip)) => Ok(Some(ip)),
        _ => Ok(None),
    }
}

pub(crate) fn text_input<'a>(
    alloc: Global,
    input: Sample<'a>,
) -> Result<Option<Bytes<'a>>, NoMemory>
    ensures { IfOk result (λ text. option_map bytes_of text ≡ text_input (value_of input.entry)) }
{
    match cast(alloc, input, Kind::Str)? {
        Some(Sample::Str(text)) => Ok(Some(text)),
        _ => Ok(None),
    }
}

pub(crate) fn bytes_input<'a>(
    alloc: Global,
    input: Sample<'a>,
) -> Result<Option<Bytes<'a>>, NoMemory>
    ensures { IfOk result (λ bytes.
        option_map bytes_of bytes ≡ bytes_input (value_of input.entry)) }
{
    match cast(alloc, input, Kind::Bin)? {
        Some(Sample::Bin(bytes)) => Ok(Some(bytes)),
        _ => Ok(None),
    }
}

/// The number of an operand, and none where it is a variable that is unset or has no cast to an
/// integer.
pub(crate) fn operand_of(
    alloc: Global,
    operand: &Val,
    conn: u32,
    vars: &Vars,
) -> Result<Option<i64>, NoMemory>
    ensures value { IfOk result (λ n. n ≡ operand_of conn vars.now operand.now) }
    ensures ok { IsOk result }
{
    match operand {
        Val::Number(n) => Ok(Some(*n)),
        Val::Var(name) => match vars.get(conn, name) {
            Some(value) => int_input(alloc, lend(value)),
            None => Ok(None),
        },
    }
}
