ghost use Rattle.std.specs.Prelude.{◌≡◌, IfOk, IsTrue};
ghost use Rattle.hx_conv_val.specs.Converters.{is_value_conv};
ghost use Rattle.hx_conv_val.specs.Forms.{conv_of_val};

use crate::form::{BytesForm, Form, IntForm, Operation, TextForm};
use hx_ast::{Conv, Val};
use hx_text::{NoMemory, Octets, VarName};
use std::alloc::Global;
use std::marker::Model;

/// A converter that `build_val` made, for `apply`. Contracts see it as the converter that it was
/// made of.
pub struct ValConv {
    pub(crate) form: Form,
}

// Written out, so that letting one go is one call in the proofs of callers.
impl Drop for ValConv {
    fn drop(self) {
        let ValConv { form: _form } = self;
    }
}

impl Model for ValConv {
    ghost use Rattle.hx_ast.specs.declared.conv.Conv.{Conv};

    ghost Value = { Conv };

    ghost use Rattle.hx_conv_val.specs.Forms.{conv_of_val};

    ghost view = { λ built. conv_of_val built.form };
}

fn copied_name(alloc: Global, name: &VarName) -> Result<VarName, NoMemory>
    ensures { IfOk result (λ copied. copied ≡ name.now) }
{
    Ok(VarName {
        scope: name.scope,
        name: Octets::copy(alloc, name.name.as_slice())?,
    })
}

fn copied_operand(alloc: Global, operand: &Val) -> Result<Val, NoMemory>
    ensures { IfOk result (λ copied. copied ≡ operand.now) }
{
    match operand {
        Val::Number(n) => Ok(Val::Number(*n)),
        Val::Var(name) => Ok(Val::Var(copied_name(alloc, name)?)),
    }
}

fn calculation(alloc: Global, operation: Operation, operand: &Val) -> Result<Form, NoMemory>
    ensures { IfOk result (λ form. form ≡ Form.Calculation operation operand.now) }
{
    Ok(Form::Calculation(operation, copied_operand(alloc, operand)?))
}

fn choice(alloc: Global, yes: &Octets, no: &Octets) -> Result<Form, NoMemory>
    ensures { IfOk result (λ form. form ≡ Form.Iif yes.now no.now) }
{
    let yes = Octets::copy(alloc, yes.as_slice())?;
    let no = Octets::copy(alloc, no.as_slice())?;
    Ok(Form::Iif(yes, no))
}

fn form_of(alloc: Global, conv: &Conv) -> Result<Form, NoMemory>
    requires { IsTrue (is_value_conv conv.now) }
    ensures { IfOk result (λ form. conv_of_val form ≡ conv.now) }
{
    match conv {
        Conv::Iif(yes, no) => choice(alloc, yes, no),
        Conv::Bool => Ok(Form::Int(IntForm::Bool)),
        Conv::Even => Ok(Form::Int(IntForm::Even)),
        Conv::Odd => Ok(Form::Int(IntForm::Odd)),
        Conv::Not => Ok(Form::Int(IntForm::Not)),
        Conv::Add(operand) => calculation(alloc, Operation::Add, operand),
        Conv::Sub(operand) => calculation(alloc, Operation::Sub, operand),
        Conv::Mul(operand) => calculation(alloc, Operation::Mul, operand),
        Conv::Div(operand) => calculation(alloc, Operation::Div, operand),
        Conv::Mod(operand) => calculation(alloc, Operation::Mod, operand),
        Conv::Neg => Ok(Form::Int(IntForm::Neg)),
        Conv::And(operand) => calculation(alloc, Operation::And, operand),
        Conv::Or(operand) => calculation(alloc, Operation::Or, operand),
        Conv::Xor(operand) => calculation(alloc, Operation::Xor, operand),
        Conv::Cpl => Ok(Form::Int(IntForm::Cpl)),
        Conv::Ipmask(mask, bits) => Ok(Form::Ipmask(*mask, *bits)),
        Conv::Base64 => Ok(Form::Bytes(BytesForm::Base64)),
        Conv::Ub64enc => Ok(Form::Bytes(BytesForm::Ub64enc)),
        Conv::B64dec => Ok(Form::Text(TextForm::B64dec)),
        Conv::Ub64dec => Ok(Form::Text(TextForm::Ub64dec)),
        Conv::Hex => Ok(Form::Bytes(BytesForm::Hex)),
        Conv::Hex2i => Ok(Form::Text(TextForm::Hex2i)),
        Conv::Sha2(bits) => Ok(Form::Bytes(BytesForm::Sha2(*bits))),
        _ => unreachable!(),
    }
}

/// The converter, which has to be one of `iif`, `bool`, `even`, `odd`, `not`, `add`, `sub`, `mul`,
/// `div`, `mod`, `neg`, `and`, `or`, `xor`, `cpl`, `ipmask`, `base64`, `ub64enc`, `b64dec`,
/// `ub64dec`, `hex`, `hex2i` and `sha2`, as `apply` takes it. Its texts and the name of its
/// variable are copied into memory of `alloc`; `NoMemory` where that runs out.
pub fn build_val(alloc: Global, conv: &Conv) -> Result<ValConv, NoMemory>
    requires { IsTrue (is_value_conv conv.now) }
    ensures { IfOk result (λ built. built ≡ conv.now) }
{
    Ok(ValConv {
        form: form_of(alloc, conv)?,
    })
}
