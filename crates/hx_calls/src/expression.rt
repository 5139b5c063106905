ghost use Rattle.std.specs.Prelude.{◌≡◌, ◌∷◌, IfOk};
ghost use Rattle.hx_words.specs.Calls.{further_steps, steps_of};
ghost use Rattle.hx_words.specs.StepView.{step_view};
ghost use Rattle.hx_calls.specs.Codes.{AnswersAs};
ghost use Rattle.hx_calls.specs.Criteria.{expr_of, expr_of_steps};
ghost use Rattle.hx_calls.specs.Expressions.{call_fault, conv_by_name, fetch_call};
ghost use Rattle.hx_calls.specs.Formats.{rest_after};
ghost use Rattle.hx_calls.specs.Known.{Extends, ReadsPart};
ghost use Rattle.hx_calls.specs.Tables.{entry_at, conv_names};

use crate::convs::{conv, conv_name};
use crate::criteria::{ConvsRead, convs_of};
use crate::fault::{SpellFault, UNSUPPORTED, form_fault};
use crate::fetches::{fetch, fetch_name};
use crate::known::Knowledge;
use hx_ast::{Conv, Expr, Fetch, Items};
use hx_words::{ArgFault, Call, CallStep, laws, next_call};
use std::alloc::Global;

pub(crate) fn conv_of(alloc: Global, call: &Call) -> Result<Conv, SpellFault>
    ensures { AnswersAs result
        (conv_by_name (entry_at conv_names call.now.name) call.now.args) }
{
    match conv_name(call.name()) {
        None => Err(SpellFault::Code(UNSUPPORTED)),
        Some(name) => conv(alloc, name, call),
    }
}

/// The code of a call whose form is wrong, by whether its name is known.
pub(crate) fn fault_of<T: Copy>(name: Option<T>, fault: ArgFault) -> SpellFault
    ensures { result ≡ call_fault name fault }
{
    match name {
        None => SpellFault::Code(UNSUPPORTED),
        Some(_) => form_fault(fault),
    }
}

fn fetch_of(alloc: Global, call: &Call) -> Result<Fetch, SpellFault>
    ensures { AnswersAs result (fetch_call call.now) }
{
    match fetch_name(call.name()) {
        None => Err(SpellFault::Code(UNSUPPORTED)),
        Some(name) => fetch(alloc, name, call),
    }
}

/// An expression, and what follows its stop byte, if there is one.
#[derive(Drop)]
pub struct ExprRead<'a> {
    /// the expression
    pub expr: Expr,
    /// the bytes after the stop byte
    pub rest: &'a [u8],
}

/// The expression of a text that begins with this step.
fn expr_from<'a>(
    known: &mut Knowledge,
    alloc: Global,
    line: u64,
    stop: Option<u8>,
    step: CallStep<'a>,
) -> Result<ExprRead<'a>, SpellFault>
    ensures answers { let first = step_view step.entry in ReadsPart (λ read. read.expr) result
        known.new (expr_of_steps line
        (first ∷ further_steps (λ rest. steps_of stop rest) first) known.old) }
    ensures rest { let first = step_view step.entry in IfOk result (λ read. read.rest.now
        ≡ rest_after (first ∷ further_steps (λ rest. steps_of stop rest) first)) }
    ensures extends { Extends known.old known.new }
{
    match step {
        CallStep::More { call, rest } => {
            let fetch = fetch_of(alloc, &call)?;
            let ConvsRead { convs, rest } = convs_of(known, alloc, line, stop, rest)?;
            Ok(ExprRead {
                expr: Expr { fetch, convs },
                rest,
            })
        }
        CallStep::Last { call, rest } => {
            let fetch = fetch_of(alloc, &call)?;
            let convs = Items::new(alloc);
            Ok(ExprRead {
                expr: Expr { fetch, convs },
                rest,
            })
        }
        CallStep::Faulty { name, fault } => Err(fault_of(fetch_name(name.as_slice()), fault)),
    }
}

/// The expression that a text on this line writes, up to the stop byte, if there is one: a fetch,
/// and then converters. The files of maps are references from then on.
pub fn expr_of<'a>(
    known: &mut Knowledge,
    alloc: Global,
    line: u64,
    stop: Option<u8>,
    text: &'a [u8],
) -> Result<ExprRead<'a>, SpellFault>
    ensures answers { ReadsPart (λ read. read.expr) result known.new
        (expr_of stop line text.now known.old) }
    ensures rest { IfOk result (λ read. read.rest.now ≡ rest_after (steps_of stop text.now)) }
    ensures extends { Extends known.old known.new }
{
    laws::call_law(text, stop);
    let step = next_call(alloc, text, stop)?;
    expr_from(known, alloc, line, stop, step)
}
