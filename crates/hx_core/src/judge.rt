ghost use Rattle.std.specs.Prelude.{◌≡◌, ◌++◌, length, false, IfErr, IfOk, OnOk};
ghost use Rattle.hx_refs.specs.References.{searched_lists};
ghost use Rattle.hx_rules.specs.Failures.{RulesAskFor};
ghost use Rattle.hx_rules.specs.Rewriting.{may_rewrite};
ghost use Rattle.hx_rules.specs.Verdicts.{evaluation, start};
ghost use Rattle.hx_core.specs.Steps.{IsRefusal, StepCountsLarge};
ghost use Rattle.hx_core.specs.World.{FitRules, refs_view};

use crate::evaluating::evaluated;
use crate::fault::StepFault;
use hx_fetch::Conn;
use hx_http::Message;
use hx_outside::ReMaker;
use hx_refs::Refs;
use hx_rules::{Program, Verdict};
use hx_sample::Vars;
use hx_text::NoMemory;
use std::alloc::Global;
use std::marker::Brand;
use std::sync::ledger::Blank;

/// What gives the verdicts of an engine, and tells something of each beside the lines that answer
/// its request. Contracts see it by what it tells.
pub trait Judge {
    ghost use Rattle.std.specs.Prelude.{ℕ, List};
    ghost use Rattle.hx_core.specs.Telling.{Telling};

    /// what is told of requests
    ghost telling: { Self → Telling };

    /// what is to be told of the request that was judged last
    ghost last: { Self → List ℕ };

    /// The verdict of the rules on a request, as `hx_rules::evaluate` gives it: they may change
    /// `message`, the variables and the references. What there is to tell of it is kept for `tell`.
    ///
    /// `TooLarge` only where the maker's count of texts that were too large rose; the last such
    /// text is then the key of a change for which a rule asks. `NoMemory` where memory runs out.
    ///
    /// The references have the heads and the lists that the rules name.
    fn judge<M: ReMaker>(
        &mut self,
        alloc: Global,
        rules: &Program,
        message: &mut Message,
        conn: &Conn,
        vars: &mut Vars,
        refs: &mut Refs,
        maker: &mut M,
    ) -> Result<Verdict, StepFault>
        requires fit { FitRules refs.old.content rules.now }
        ensures verdict { IfOk result (λ verdict. verdict
            ≡ (evaluation refs_view conn.now rules.now
            (start message.old vars.old refs.old.content)).verdict) }
        ensures message { OnOk result (message.new
            ≡ (evaluation refs_view conn.now rules.now
            (start message.old vars.old refs.old.content)).state.message) }
        ensures vars { OnOk result (vars.new
            ≡ (evaluation refs_view conn.now rules.now
            (start message.old vars.old refs.old.content)).state.vars) }
        ensures refs { OnOk result (refs.new.content
            ≡ (evaluation refs_view conn.now rules.now
            (start message.old vars.old refs.old.content)).state.tables) }
        ensures last { OnOk result (last self.new
            ≡ (telling self.old).judged rules.now conn.now
            (start message.old vars.old refs.old.content)) }
        ensures telling { telling self.new ≡ telling self.old }
        ensures unchanged { may_rewrite rules.now ≡ false → message.new ≡ message.old }
        ensures kind { IfErr result (λ fault. ¬ (IsRefusal fault)) }
        ensures heads { refs.new.content.heads ≡ refs.old.content.heads }
        ensures lists { length (searched_lists refs.new.content) ≡ length
            (searched_lists refs.old.content) }
        ensures large { StepCountsLarge result (RulesAskFor refs_view conn.now rules.now
            (start message.old vars.old refs.old.content))
            (M.state maker.old) (M.state maker.new) };

    /// Appends what there is to tell of the request that was judged last; where memory runs out,
    /// perhaps the first bytes of it.
    fn tell(&self, bytes: &mut Vec<u8>) -> Result<(), NoMemory>
        ensures { OnOk result (bytes.new.items ≡ bytes.old.items ++ last self.now) };

    /// Appends what there is to tell of a request whose bytes begin with no head; where memory runs
    /// out, perhaps the first bytes of it.
    fn tell_unread(&self, bytes: &mut Vec<u8>) -> Result<(), NoMemory>
        ensures { OnOk result (bytes.new.items ≡ bytes.old.items ++ (telling self.now).unread) };
}

/// The verdict of the rules, of which nothing is told.
#[derive(Clone, Copy, Drop)]
pub(crate) struct Silence;

impl Judge for Silence {
    ghost use Rattle.std.specs.Prelude.{[]};
    ghost use Rattle.hx_core.specs.Telling.{nothing_told};

    ghost telling = { λ silence. nothing_told };

    ghost last = { λ silence. [] };

    fn judge<M: ReMaker>(
        &mut self,
        alloc: Global,
        rules: &Program,
        message: &mut Message,
        conn: &Conn,
        vars: &mut Vars,
        refs: &mut Refs,
        maker: &mut M,
    ) -> Result<Verdict, StepFault> {
        evaluated::<M, Brand>(
            alloc,
            rules,
            message,
            conn,
            vars,
            refs,
            maker,
            Blank::new(1),
        )
    }

    fn tell(&self, _bytes: &mut Vec<u8>) -> Result<(), NoMemory> {
        Ok(())
    }

    fn tell_unread(&self, _bytes: &mut Vec<u8>) -> Result<(), NoMemory> {
        Ok(())
    }
}
