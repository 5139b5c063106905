ghost use Rattle.std.specs.Prelude.{◌≡◌, neg_ℤ};
ghost use Rattle.std.specs.Int.{w64, saturate_signed};
ghost use Rattle.hx_conv_val.specs.Forms.{int_value, operation_result};
ghost use Rattle.hx_conv_val.specs.Numbers.{is_even, quotient_of, remainder_of};
ghost use Rattle.hx_sample.specs.Seen.{value_of};

use crate::form::{IntForm, Operation};
use hx_sample::Sample;

fn is_even(n: i64) -> bool
    ensures { result ≡ is_even n }
{
    n.unsigned_abs() % 2 == 0
}

fn negation_of(n: i64) -> i64
    ensures { result ≡ saturate_signed w64 (neg_ℤ n) }
{
    if n == i64::MIN { i64::MAX } else { -n }
}

fn quotient_of(n: i64, m: i64) -> i64
    ensures { result ≡ quotient_of n m }
{
    if m == 0 {
        i64::MAX
    } else if m == -1 {
        negation_of(n)
    } else {
        n / m
    }
}

fn remainder_of(n: i64, m: i64) -> i64
    ensures { result ≡ remainder_of n m }
{
    if m == 0 { 0 } else { n.wrapping_rem(m) }
}

/// The operation on the input `n` and the operand `m`.
pub(crate) fn calculate(operation: Operation, n: i64, m: i64) -> i64
    ensures { result ≡ operation_result operation n m }
{
    match operation {
        Operation::Add => n.saturating_add(m),
        Operation::Sub => n.saturating_sub(m),
        Operation::Mul => n.saturating_mul(m),
        Operation::Div => quotient_of(n, m),
        Operation::Mod => remainder_of(n, m),
        Operation::And => n & m,
        Operation::Or => n | m,
        Operation::Xor => n ^ m,
    }
}

pub(crate) fn convert_int<'a>(conv: IntForm, n: i64) -> Sample<'a>
    ensures { value_of result ≡ int_value conv n }
{
    match conv {
        IntForm::Bool => Sample::Bool(n != 0),
        IntForm::Even => Sample::Bool(is_even(n)),
        IntForm::Odd => Sample::Bool(!is_even(n)),
        IntForm::Not => Sample::Bool(n == 0),
        IntForm::Neg => Sample::Int(negation_of(n)),
        IntForm::Cpl => Sample::Int(!n),
    }
}
