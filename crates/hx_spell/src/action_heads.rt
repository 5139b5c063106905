ghost use Rattle.std.specs.Prelude.{◌≡◌, slice_get, option_map};
ghost use Rattle.hx_words.specs.Calls.{step_of};
ghost use Rattle.hx_words.specs.StepView.{step_view};
ghost use Rattle.hx_spell.specs.ActionView.{head_maker};
ghost use Rattle.hx_spell.specs.Actions.{action_table, changes_map, file_head, given_file};
ghost use Rattle.hx_spell.specs.Actions.{head_by, head_of_step};
ghost use Rattle.hx_calls.specs.Known.{Extends, ReadsAs};
ghost use Rattle.hx_calls.specs.Tables.{entry_at};

use crate::action_table::{ACTIONS, ActionHead, ActionName, FileAction};
use hx_calls::lookup::lookup;
use hx_calls::{
    BAD_ARGUMENT, Knowledge, SpellFault, UNSUPPORTED, Variable, bare, counted, form_fault, required,
};
use hx_words::{Call, CallStep, next_call};
use std::alloc::Global;

#[tactic(auto, unfolding(crate::specs::Actions::action_table))]
fn action_name(name: &[u8]) -> Option<ActionName>
    ensures { entry_at action_table name.now ≡ option_map head_maker result }
{
    lookup(&ACTIONS, name)
}

/// Whether the file of an action has two columns.
fn changes_map(name: FileAction) -> bool
    ensures { result ≡ changes_map name }
{
    match name {
        FileAction::AddAcl | FileAction::DelAcl => false,
        FileAction::DelMap | FileAction::SetMap => true,
    }
}

/// The reference of the file in the parentheses of an action.
fn given_file(known: &mut Knowledge, line: u64, two: bool, call: &Call) -> Result<u32, SpellFault>
    ensures answers { ReadsAs result known.new
        (given_file line two (slice_get call.now.args 0) known.old) }
    ensures extends { Extends known.old known.new }
{
    match call.arg(0) {
        None => Err(SpellFault::Code(BAD_ARGUMENT)),
        Some(name) => known.file(line, name, two),
    }
}

/// An action with a file in parentheses.
fn file_head(
    known: &mut Knowledge,
    line: u64,
    name: FileAction,
    call: &Call,
) -> Result<ActionHead, SpellFault>
    ensures answers { ReadsAs result known.new (file_head name line call.now.args known.old) }
    ensures extends { Extends known.old known.new }
{
    counted(call, 1, 1)?;
    let table = given_file(known, line, changes_map(name), call)?;
    Ok(ActionHead::OfFile(name, table))
}

/// The action of a call.
fn head_of_call(
    known: &mut Knowledge,
    alloc: Global,
    line: u64,
    call: &Call,
) -> Result<ActionHead, SpellFault>
    ensures answers { ReadsAs result known.new
        (head_by line (entry_at action_table call.now.name) call.now.args known.old) }
    ensures extends { Extends known.old known.new }
{
    match action_name(call.name()) {
        None => Err(SpellFault::Code(UNSUPPORTED)),
        Some(ActionName::Bare(name)) => bare(call, ActionHead::Bare(name)),
        Some(ActionName::OfVariable(name)) => {
            counted(call, 1, 1)?;
            let variable = required::<Variable>(alloc, call, 0)?;
            Ok(ActionHead::OfVariable(name, variable))
        }
        Some(ActionName::OfFile(name)) => file_head(known, line, name, call),
    }
}

/// The action of a word that begins with this step.
fn head_of_step(
    known: &mut Knowledge,
    alloc: Global,
    line: u64,
    step: CallStep<'_>,
) -> Result<ActionHead, SpellFault>
    ensures answers { ReadsAs result known.new
        (head_of_step line (step_view step.entry) known.old) }
    ensures extends { Extends known.old known.new }
{
    match step {
        CallStep::Last { call, rest: _ } => head_of_call(known, alloc, line, &call),
        CallStep::More { call, rest: _ } => {
            head_of_call(known, alloc, line, &call)?;
            Err(SpellFault::Code(BAD_ARGUMENT))
        }
        CallStep::Faulty { name, fault } => match action_name(name.as_slice()) {
            None => Err(SpellFault::Code(UNSUPPORTED)),
            Some(_) => Err(form_fault(fault)),
        },
    }
}

/// The action that a word on this line begins: one call, whose arguments are a variable or a file.
/// The file is a reference from then on.
///
/// Code 9 where there is no such action, then 5 to 8 for the form of the call, 10 for another
/// number of arguments or a second call, 12 for a name that is no variable's, and 17 and 23 for a
/// file as `Knowledge::file` refuses it.
pub(crate) fn action_head(
    known: &mut Knowledge,
    alloc: Global,
    line: u64,
    word: &[u8],
) -> Result<ActionHead, SpellFault>
    ensures answers { ReadsAs result known.new
        (head_of_step line (step_of None word.now) known.old) }
    ensures extends { Extends known.old known.new }
{
    let step = next_call(alloc, word, None)?;
    head_of_step(known, alloc, line, step)
}
