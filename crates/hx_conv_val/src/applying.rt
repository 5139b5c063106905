ghost use Rattle.std.specs.Prelude.{◌≡◌, IfOk, IsOk, IsTrue, option_map, option_and_then};
ghost use Rattle.hx_conv_val.specs.Addresses.{masked_address};
ghost use Rattle.hx_conv_val.specs.Converters.{takes_no_memory, value_conv_of};
ghost use Rattle.hx_conv_val.specs.Forms.{bool_input, ip_input, text_input, bytes_input, calculated_value, choice_of, int_value, operation_result, bytes_value, text_value};
ghost use Rattle.hx_conv_val.specs.Inputs.{int_input};
ghost use Rattle.hx_sample.specs.Seen.{occurrence_value, value_of};
ghost use Rattle.hx_sample.specs.declared.sample.Value.TheVariants as value;

use crate::address::masked_address;
use crate::built::ValConv;
use crate::encoding::{convert_bytes, convert_text};
use crate::form::{BytesForm, Form, IntForm, Operation, TextForm};
use crate::input::{bool_input, bytes_input, int_input, ip_input, operand_of, text_input};
use crate::number::{calculate, convert_int};
use hx_ast::Val;
use hx_sample::{Bytes, Sample, Vars};
use hx_text::{NoMemory, Octets};
use std::alloc::Global;

fn apply_choice<'a>(
    alloc: Global,
    yes: &Octets,
    no: &Octets,
    input: Sample<'a>,
) -> Result<Option<Sample<'a>>, NoMemory>
    ensures { IfOk result (λ out. occurrence_value out
        ≡ option_map (choice_of yes.now no.now) (bool_input (value_of input.entry))) }
{
    match bool_input(alloc, input)? {
        Some(true) => Ok(Some(Sample::Str(Bytes::Own(Octets::copy(alloc, yes.as_slice())?)))),
        Some(false) => Ok(Some(Sample::Str(Bytes::Own(Octets::copy(alloc, no.as_slice())?)))),
        None => Ok(None),
    }
}

fn apply_int<'a>(
    alloc: Global,
    conv: IntForm,
    input: Sample<'a>,
) -> Result<Option<Sample<'a>>, NoMemory>
    ensures value { IfOk result (λ out. occurrence_value out
        ≡ option_map (int_value conv) (int_input (value_of input.entry))) }
    ensures ok { IsOk result }
{
    match int_input(alloc, input)? {
        Some(n) => Ok(Some(convert_int(conv, n))),
        None => Ok(None),
    }
}

fn calculated_sample<'a>(operation: Operation, n: Option<i64>, m: Option<i64>) -> Option<Sample<'a>>
    ensures { occurrence_value result ≡ calculated_value (operation_result operation) n m }
{
    match (n, m) {
        (Some(n), Some(m)) => Some(Sample::Int(calculate(operation, n, m))),
        (Some(_), None) => None,
        (None, _) => None,
    }
}

fn apply_ipmask<'a>(
    alloc: Global,
    mask: u32,
    bits: Option<u32>,
    input: Sample<'a>,
) -> Result<Option<Sample<'a>>, NoMemory>
    ensures value { IfOk result (λ out. occurrence_value out ≡ option_map value.Ip
        (option_and_then (masked_address mask bits) (ip_input (value_of input.entry)))) }
    ensures ok { IsOk result }
{
    match ip_input(alloc, input)? {
        Some(ip) => match masked_address(mask, bits, ip) {
            Some(masked) => Ok(Some(Sample::Ip(masked))),
            None => Ok(None),
        },
        None => Ok(None),
    }
}

fn apply_bytes<'a>(
    alloc: Global,
    conv: BytesForm,
    input: Sample<'a>,
) -> Result<Option<Sample<'a>>, NoMemory>
    ensures { IfOk result (λ out. occurrence_value out
        ≡ option_map (bytes_value conv) (bytes_input (value_of input.entry))) }
{
    match bytes_input(alloc, input)? {
        Some(bytes) => Ok(Some(convert_bytes(alloc, conv, bytes.as_slice())?)),
        None => Ok(None),
    }
}

fn apply_text<'a>(
    alloc: Global,
    conv: TextForm,
    input: Sample<'a>,
) -> Result<Option<Sample<'a>>, NoMemory>
    ensures { IfOk result (λ out. occurrence_value out
        ≡ option_and_then (text_value conv) (text_input (value_of input.entry))) }
{
    match text_input(alloc, input)? {
        Some(text) => convert_text(alloc, conv, text.as_slice()),
        None => Ok(None),
    }
}

/// What the converter makes of `sample`, for the connection `conn` and the variables `vars`. The
/// sample is cast first to the type that the converter takes (HAProxy configuration manual 2.4,
/// section 7.3.1).
///
/// None exactly where the sample has no such cast; where the operand of `add`, `sub`, `mul`, `div`,
/// `mod`, `and`, `or` or `xor` is a variable that is unset or has no cast to an integer; where
/// `ipmask` is given an IPv6 address and has no mask for one; and where the text of `b64dec` or
/// `ub64dec` isn't the one encoding of its bytes. `NoMemory` where memory runs out, which a
/// converter that takes an integer or an address doesn't ask for.
#[tactic(auto, using(crate::proofs::FormLemmas::form_values))]
pub fn apply<'a>(
    alloc: Global,
    conv: &ValConv,
    sample: Sample<'a>,
    conn: u32,
    vars: &Vars,
) -> Result<Option<Sample<'a>>, NoMemory>
    ensures value { IfOk result (λ out. occurrence_value out
        ≡ value_conv_of conv.now (value_of sample.entry) conn vars.now) }
    ensures no_memory { IsTrue (takes_no_memory conv.now) → IsOk result }
{
    match &conv.form {
        Form::Iif(yes, no) => apply_choice(alloc, yes, no, sample),
        Form::Int(form) => apply_int(alloc, *form, sample),
        Form::Calculation(operation, operand) => {
            let n = int_input(alloc, sample)?;
            let m = operand_of(alloc, operand, conn, vars)?;
            Ok(calculated_sample(*operation, n, m))
        }
        Form::Ipmask(mask, bits) => apply_ipmask(alloc, *mask, *bits, sample),
        Form::Bytes(form) => apply_bytes(alloc, *form, sample),
        Form::Text(form) => apply_text(alloc, *form, sample),
    }
}
