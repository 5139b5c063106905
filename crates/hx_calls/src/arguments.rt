ghost use Rattle.std.specs.Prelude.{◌≡◌, length, slice_get, true, false, MatchResult};
ghost use Rattle.hx_calls.specs.Arguments.{bare, both, counted, ended, is_count, none_left};
ghost use Rattle.hx_calls.specs.Arguments.{optional, required};
ghost use Rattle.hx_calls.specs.Codes.{AnswersAs, AnswersWith, bad_argument};

use crate::fault::{BAD_ARGUMENT, SpellFault};
use crate::forms::Form;
use hx_words::Call;
use std::alloc::Global;

/// Refuses a call that doesn't have so many arguments.
pub fn counted(call: &Call, least: usize, most: usize) -> Result<(), SpellFault>
    ensures { MatchResult result (λ _. is_count least most (length call.now.args) ≡ true)
        (λ fault. (fault ≡ bad_argument) × (is_count least most (length call.now.args) ≡ false)) }
{
    if call.len() < least || call.len() > most {
        Err(SpellFault::Code(BAD_ARGUMENT))
    } else {
        Ok(())
    }
}

/// What the argument at position `i` stands for, which has to be given.
pub fn required<F: Form>(alloc: Global, call: &Call, i: usize) -> Result<F::Argument, SpellFault>
    ensures { AnswersAs result (required F.reads (slice_get call.now.args i)) }
{
    match call.arg(i) {
        None => Err(SpellFault::Code(BAD_ARGUMENT)),
        Some(text) => F::read(alloc, text),
    }
}

/// What the argument at position `i` stands for, if it is given.
pub(crate) fn given<F: Form>(
    alloc: Global,
    call: &Call,
    i: usize,
) -> Result<Option<F::Argument>, SpellFault>
    ensures { AnswersAs result (optional F.reads (slice_get call.now.args i)) }
{
    match call.arg(i) {
        None => Ok(None),
        Some(text) => Ok(Some(F::read(alloc, text)?)),
    }
}

/// What is made without an argument.
pub fn bare<T: Drop>(call: &Call, made: T) -> Result<T, SpellFault>
    ensures { AnswersAs result (bare made call.now.args) }
{
    counted(call, 0, 0)?;
    Ok(made)
}

/// What the argument stands for, of which there has to be one.
pub(crate) fn single<F: Form>(alloc: Global, call: &Call) -> Result<F::Argument, SpellFault>
    ensures { AnswersWith ended result (counted 1 1 call.now.args
        (both (required F.reads (slice_get call.now.args 0)) none_left)) }
{
    counted(call, 1, 1)?;
    let only = required::<F>(alloc, call, 0)?;
    Ok(only)
}

/// What the argument stands for, if there is one, of which there is one at most.
pub(crate) fn at_most_one<F: Form>(
    alloc: Global,
    call: &Call,
) -> Result<Option<F::Argument>, SpellFault>
    ensures { AnswersWith ended result (counted 0 1 call.now.args
        (both (optional F.reads (slice_get call.now.args 0)) none_left)) }
{
    counted(call, 0, 1)?;
    let only = given::<F>(alloc, call, 0)?;
    Ok(only)
}

/// What two arguments stand for, of which the second may be missing.
pub(crate) fn one_or_two<F: Form, G: Form>(
    alloc: Global,
    call: &Call,
) -> Result<(F::Argument, Option<G::Argument>), SpellFault>
    ensures { AnswersWith (λ found. (found.0, ended found.1)) result (counted 1 2 call.now.args
        (both (required F.reads (slice_get call.now.args 0))
        (both (optional G.reads (slice_get call.now.args 1)) none_left))) }
{
    counted(call, 1, 2)?;
    let first = required::<F>(alloc, call, 0)?;
    let second = given::<G>(alloc, call, 1)?;
    Ok((first, second))
}

/// What three arguments stand for, of which the last may be missing.
pub(crate) fn two_or_three<F: Form, G: Form, H: Form>(
    alloc: Global,
    call: &Call,
) -> Result<(F::Argument, G::Argument, Option<H::Argument>), SpellFault>
    ensures { AnswersWith (λ found. (found.0, (found.1, ended found.2))) result
        (counted 2 3 call.now.args
        (both (required F.reads (slice_get call.now.args 0))
        (both (required G.reads (slice_get call.now.args 1))
        (both (optional H.reads (slice_get call.now.args 2)) none_left)))) }
{
    counted(call, 2, 3)?;
    let first = required::<F>(alloc, call, 0)?;
    let second = required::<G>(alloc, call, 1)?;
    let third = given::<H>(alloc, call, 2)?;
    Ok((first, second, third))
}
