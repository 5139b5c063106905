ghost use Rattle.std.specs.Prelude.{◌≡◌, ◌<◌, [], length, false, IfErr, IfOk, OnOk};
ghost use Rattle.hx_rules.specs.Rewriting.{may_rewrite};
ghost use Rattle.hx_core.specs.Steps.{IsRefusal, StepCountsLarge};
ghost use Rattle.hx_core.specs.World.{FitRules, refs_view};
ghost use Rattle.hx_refs.specs.References.{searched_lists};
ghost use Rattle.hx_rules.specs.Failures.{RulesAskFor};
ghost use Rattle.hx_rules.specs.Verdicts.{evaluation, start};
ghost use Rattle.hx_trace.specs.Why.{cause_of};

use crate::explaining::{Cause, explain_by_rules};
use crate::kept_line::KeptLine;
use crate::plain_tables::{PlainTables, new_mark};
use hx_core::{Judge, StepFault};
use hx_fetch::Conn;
use hx_http::Message;
use hx_outside::ReMaker;
use hx_pool::Steps;
use hx_refs::{Limits, Refs};
use hx_rules::{Program, Verdict};
use hx_sample::Vars;
use hx_text::NoMemory;
use std::alloc::Global;
use std::marker::{Brand, Model};
use std::mem;
use std::sync::ledger::{Blank, Ledger};

/// Judges the requests of an engine, and tells of each what an [`Explainer`](crate::Explainer)
/// tells, but over [`PlainTables`]. That no verdict and no reason comes from an index, but those of
/// regular expressions, can be seen by reading it; no clause says so. Contracts see the line that
/// there is to tell of the request that was judged last.
pub struct PlainExplainer {
    line: KeptLine,
}

// Written out, so that letting one go is one call in the proofs of callers.
impl Drop for PlainExplainer {
    fn drop(self) {
        let PlainExplainer { line: _line } = self;
    }
}

impl Model for PlainExplainer {
    ghost use Rattle.std.specs.Prelude.{ℕ, List};

    ghost Value = { List ℕ };

    ghost view = { λ explainer. explainer.line };
}

impl PlainExplainer {
    /// Before the first request. It takes no memory; what it needs later it takes from `alloc`.
    pub fn new(alloc: Global) -> PlainExplainer
        ensures { result ≡ [] }
    {
        PlainExplainer {
            line: KeptLine::new(alloc),
        }
    }
}

impl Judge for PlainExplainer {
    ghost use Rattle.hx_trace.specs.Why.{explained};

    ghost telling = { λ explainer. explained };

    ghost last = { λ explainer. explainer };

    fn judge<M: ReMaker>(
        &mut self,
        alloc: Global,
        rules: &Program,
        message: &mut Message,
        conn: &Conn,
        vars: &mut Vars,
        refs: &mut Refs,
        maker: &mut M,
    ) -> Result<Verdict, StepFault> {
        let (verdict, cause) = explained_by_scans::<M, Brand>(
            alloc,
            rules,
            message,
            conn,
            vars,
            refs,
            maker,
            Blank::new(1),
        )?;
        self.line.keep(refs, &cause)?;
        Ok(verdict)
    }

    fn tell(&self, bytes: &mut Vec<u8>) -> Result<(), NoMemory> {
        self.line.tell(bytes)
    }

    fn tell_unread(&self, bytes: &mut Vec<u8>) -> Result<(), NoMemory> {
        bytes.extend_from_slice(b"> 0 0\n")?;
        Ok(())
    }
}

/// The verdict of the rules on a request, and what decided it, by scans of the lists, with the
/// steps of other searches in the ledger of `blank`. Where memory ran out for a scan it answers
/// `NoMemory`, not what the references found then.
fn explained_by_scans<M: ReMaker, L: Ledger>(
    alloc: Global,
    rules: &Program,
    message: &mut Message,
    conn: &Conn,
    vars: &mut Vars,
    refs: &mut Refs,
    maker: &mut M,
    blank: Blank,
) -> Result<(Verdict, Cause), StepFault>
    requires name { blank.name ≡ L.name }
    requires parts { blank.parts ≡ L.parts }
    requires some { 0 < L.parts }
    requires fit { FitRules refs.old.content rules.now }
    ensures verdict { IfOk result (λ told. told.0
        ≡ (evaluation refs_view conn.now rules.now
        (start message.old vars.old refs.old.content)).verdict) }
    ensures cause { IfOk result (λ told. told.1
        ≡ cause_of refs_view conn.now rules.now
        (start message.old vars.old refs.old.content)) }
    ensures message { OnOk result (message.new
        ≡ (evaluation refs_view conn.now rules.now
        (start message.old vars.old refs.old.content)).state.message) }
    ensures vars { OnOk result (vars.new
        ≡ (evaluation refs_view conn.now rules.now
        (start message.old vars.old refs.old.content)).state.vars) }
    ensures refs { OnOk result (refs.new.content
        ≡ (evaluation refs_view conn.now rules.now
        (start message.old vars.old refs.old.content)).state.tables) }
    ensures unchanged { may_rewrite rules.now ≡ false → message.new ≡ message.old }
    ensures kind { IfErr result (λ fault. ¬ (IsRefusal fault)) }
    ensures heads { refs.new.content.heads ≡ refs.old.content.heads }
    ensures lists { length (searched_lists refs.new.content) ≡ length
        (searched_lists refs.old.content) }
    ensures large { StepCountsLarge result (RulesAskFor refs_view conn.now rules.now
        (start message.old vars.old refs.old.content))
        (M.state maker.old) (M.state maker.new) }
{
    let mark = new_mark(alloc)?;
    let mut steps = Steps::<L>::open(blank);
    // The references are moved to a place of their own for the time of the call, and back: of what
    // tables borrow, a function over any tables says nothing after it.
    let mut own = mem::replace(refs, Refs::new(alloc, Limits::usual()));
    let mut tables = PlainTables::over(&mut own, mark);
    let told = explain_by_rules(
        alloc,
        rules,
        message,
        conn,
        vars,
        &mut tables,
        maker,
        &mut steps,
    );
    let has_asked = tables.has_asked();
    tables.give_back(refs);
    let told = told?;
    if has_asked {
        return Err(StepFault::NoMemory);
    }
    Ok(told)
}
