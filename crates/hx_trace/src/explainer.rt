ghost use Rattle.std.specs.Prelude.{◌≡◌, ◌<◌, [], length, false, IfErr, IfOk, OnOk};
ghost use Rattle.hx_rules.specs.Rewriting.{may_rewrite};
ghost use Rattle.hx_core.specs.Steps.{IsRefusal, StepCountsLarge};
ghost use Rattle.hx_core.specs.World.{FitRules, refs_view};
ghost use Rattle.hx_refs.specs.References.{searched_lists};
ghost use Rattle.hx_rules.specs.Failures.{RulesAskFor};
ghost use Rattle.hx_rules.specs.Verdicts.{evaluation, start};
ghost use Rattle.hx_trace.specs.Why.{cause_of};

use crate::explaining::{Cause, explain_by_rules};
use crate::kept_line::KeptLine;
use hx_core::{Judge, StepFault};
use hx_fetch::Conn;
use hx_http::Message;
use hx_outside::ReMaker;
use hx_pool::Steps;
use hx_refs::Refs;
use hx_rules::{Program, Verdict};
use hx_sample::Vars;
use hx_text::NoMemory;
use std::alloc::Global;
use std::marker::{Brand, Model};
use std::sync::ledger::{Blank, Ledger};

/// Judges the requests of an engine, and tells of each in a line of its own what decided it.
/// Contracts see the line that there is to tell of the request that was judged last.
pub struct Explainer {
    line: KeptLine,
}

// Written out, so that letting one go is one call in the proofs of callers.
impl Drop for Explainer {
    fn drop(self) {
        let Explainer { line: _line } = self;
    }
}

impl Model for Explainer {
    ghost use Rattle.std.specs.Prelude.{ℕ, List};

    ghost Value = { List ℕ };

    ghost view = { λ explainer. explainer.line };
}

impl Explainer {
    /// Before the first request. It takes no memory; what it needs later it takes from `alloc`.
    pub fn new(alloc: Global) -> Explainer
        ensures { result ≡ [] }
    {
        Explainer {
            line: KeptLine::new(alloc),
        }
    }
}

impl Judge for Explainer {
    ghost use Rattle.hx_trace.specs.Why.{explained};

    ghost telling = { λ explainer. explained };

    ghost last = { λ explainer. explainer };

    fn judge<M: ReMaker>(
        &mut self,
        alloc: Global,
        rules: &Program,
        message: &mut Message,
        conn: &Conn,
        vars: &mut Vars,
        refs: &mut Refs,
        maker: &mut M,
    ) -> Result<Verdict, StepFault> {
        let (verdict, cause) = explained_by_searches::<M, Brand>(
            alloc,
            rules,
            message,
            conn,
            vars,
            refs,
            maker,
            Blank::new(1),
        )?;
        self.line.keep(refs, &cause)?;
        Ok(verdict)
    }

    fn tell(&self, bytes: &mut Vec<u8>) -> Result<(), NoMemory> {
        self.line.tell(bytes)
    }

    fn tell_unread(&self, bytes: &mut Vec<u8>) -> Result<(), NoMemory> {
        bytes.extend_from_slice(b"> 0 0\n")?;
        Ok(())
    }
}

/// The verdict of the rules on a request, and what decided it, with the steps of their searches in
/// the ledger of `blank`.
fn explained_by_searches<M: ReMaker, L: Ledger>(
    alloc: Global,
    rules: &Program,
    message: &mut Message,
    conn: &Conn,
    vars: &mut Vars,
    refs: &mut Refs,
    maker: &mut M,
    blank: Blank,
) -> Result<(Verdict, Cause), StepFault>
    requires name { blank.name ≡ L.name }
    requires parts { blank.parts ≡ L.parts }
    requires some { 0 < L.parts }
    requires fit { FitRules refs.old.content rules.now }
    ensures verdict { IfOk result (λ told. told.0
        ≡ (evaluation refs_view conn.now rules.now
        (start message.old vars.old refs.old.content)).verdict) }
    ensures cause { IfOk result (λ told. told.1
        ≡ cause_of refs_view conn.now rules.now
        (start message.old vars.old refs.old.content)) }
    ensures message { OnOk result (message.new
        ≡ (evaluation refs_view conn.now rules.now
        (start message.old vars.old refs.old.content)).state.message) }
    ensures vars { OnOk result (vars.new
        ≡ (evaluation refs_view conn.now rules.now
        (start message.old vars.old refs.old.content)).state.vars) }
    ensures refs { OnOk result (refs.new.content
        ≡ (evaluation refs_view conn.now rules.now
        (start message.old vars.old refs.old.content)).state.tables) }
    ensures unchanged { may_rewrite rules.now ≡ false → message.new ≡ message.old }
    ensures kind { IfErr result (λ fault. ¬ (IsRefusal fault)) }
    ensures heads { refs.new.content.heads ≡ refs.old.content.heads }
    ensures lists { length (searched_lists refs.new.content) ≡ length
        (searched_lists refs.old.content) }
    ensures large { StepCountsLarge result (RulesAskFor refs_view conn.now rules.now
        (start message.old vars.old refs.old.content))
        (M.state maker.old) (M.state maker.new) }
{
    let mut steps = Steps::<L>::open(blank);
    let told = explain_by_rules(alloc, rules, message, conn, vars, refs, maker, &mut steps)?;
    Ok(told)
}
