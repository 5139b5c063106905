ghost use Rattle.std.specs.Prelude.{◌≡◌, ◌<◌, length, false, IfErr, IfOk, OnOk};
ghost use Rattle.hx_refs.specs.References.{searched_lists};
ghost use Rattle.hx_rules.specs.Failures.{RulesAskFor};
ghost use Rattle.hx_rules.specs.Rewriting.{may_rewrite};
ghost use Rattle.hx_rules.specs.Verdicts.{evaluation, start};
ghost use Rattle.hx_core.specs.Steps.{IsRefusal, StepCountsLarge};
ghost use Rattle.hx_core.specs.World.{FitRules, refs_view};

use crate::fault::StepFault;
use hx_fetch::Conn;
use hx_http::Message;
use hx_outside::ReMaker;
use hx_pool::Steps;
use hx_refs::Refs;
use hx_rules::{Program, Verdict, evaluate};
use hx_sample::Vars;
use std::alloc::Global;
use std::sync::ledger::{Blank, Ledger};

/// The verdict of the rules on a request, with the steps of their searches in the ledger of
/// `blank`.
pub(crate) fn evaluated<M: ReMaker, L: Ledger>(
    alloc: Global,
    rules: &Program,
    message: &mut Message,
    conn: &Conn,
    vars: &mut Vars,
    refs: &mut Refs,
    maker: &mut M,
    blank: Blank,
) -> Result<Verdict, StepFault>
    requires name { blank.name ≡ L.name }
    requires parts { blank.parts ≡ L.parts }
    requires some { 0 < L.parts }
    requires fit { FitRules refs.old.content rules.now }
    ensures verdict { IfOk result (λ verdict. verdict
        ≡ (evaluation refs_view conn.now rules.now
        (start message.old vars.old refs.old.content)).verdict) }
    ensures message { OnOk result (message.new
        ≡ (evaluation refs_view conn.now rules.now
        (start message.old vars.old refs.old.content)).state.message) }
    ensures vars { OnOk result (vars.new
        ≡ (evaluation refs_view conn.now rules.now
        (start message.old vars.old refs.old.content)).state.vars) }
    ensures refs { OnOk result (refs.new.content
        ≡ (evaluation refs_view conn.now rules.now
        (start message.old vars.old refs.old.content)).state.tables) }
    ensures unchanged { may_rewrite rules.now ≡ false → message.new ≡ message.old }
    ensures kind { IfErr result (λ fault. ¬ (IsRefusal fault)) }
    ensures heads { refs.new.content.heads ≡ refs.old.content.heads }
    ensures lists { length (searched_lists refs.new.content) ≡ length
        (searched_lists refs.old.content) }
    ensures large { StepCountsLarge result (RulesAskFor refs_view conn.now rules.now
        (start message.old vars.old refs.old.content))
        (M.state maker.old) (M.state maker.new) }
{
    let mut steps = Steps::<L>::open(blank);
    let verdict = evaluate(alloc, rules, message, conn, vars, refs, maker, &mut steps)?;
    Ok(verdict)
}
