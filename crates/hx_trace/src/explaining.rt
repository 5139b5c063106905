ghost use Rattle.std.specs.Prelude.{◌≡◌, IfOk, OnOk, OnErr, false, length};
ghost use Rattle.hx_acl.specs.Grounds.{held_of};
ghost use Rattle.hx_fetch.specs.World.{context_of};
ghost use Rattle.hx_rules.specs.Deciding.{condition_of};
ghost use Rattle.hx_rules.specs.Failures.{RulesAskFor, StandsAt};
ghost use Rattle.hx_rules.specs.Rewriting.{may_rewrite};
ghost use Rattle.hx_rules.specs.State.{table_view};
ghost use Rattle.hx_rules.specs.Tables.{HasHeads, HasLists};
ghost use Rattle.hx_rules.specs.Verdicts.{evaluation, start};
ghost use Rattle.hx_sample.specs.Changes.{ChangeCountsLarge};
ghost use Rattle.hx_trace.specs.Why.{cause_of, held_when};

use hx_acl::Held;
use hx_fetch::{Conn, World};
use hx_http::Message;
use hx_outside::ReMaker;
use hx_pool::Steps;
use hx_rules::{Deciding, Program, Verdict, When, decide};
use hx_sample::{TableFault, Tables, Vars};
use hx_text::NoMemory;
use std::alloc::Global;
use std::marker::Model;
use std::sync::ledger::Ledger;

/// What decided a request: the number of the line of the statement that gave the verdict, or 0
/// without one, and by which conjunction its condition held, and by what. None where it is taken
/// with `unless`, or without a condition.
#[derive(Drop)]
pub(crate) struct Cause {
    pub(crate) line: u64,
    pub(crate) held: Option<Held>,
}

impl Model for Cause {
    ghost use Rattle.hx_trace.specs.Why.{Cause};

    ghost Value = { Cause };

    ghost view = { λ cause. record { line = cause.line; held = cause.held } };
}

/// By what the statement `by` of the rules is taken, in the state in which its condition is judged.
fn held_when<'w, T: Tables, L: Ledger>(
    alloc: Global,
    rules: &Program,
    by: &Deciding,
    world: &World<'w>,
    tables: &'w T,
    steps: &mut Steps<L>,
) -> Result<Option<Held>, NoMemory>
    requires { HasHeads (T.heads (T.state tables.now)) rules.now }
    ensures { IfOk result (λ held. held ≡ held_when
        (held_of (context_of world.now) (T.heads (T.state tables.now))
        (T.lists (T.state tables.now)) rules.now.acls) (condition_of rules.now by.now)) }
{
    match rules.condition(by) {
        Some(
            When {
                unless: false,
                cond,
            },
        ) => cond.grounds(alloc, rules.acls(), world, tables, steps),
        Some(_) => Ok(None),
        None => Ok(None),
    }
}

/// The verdict of the rules on a request, as `hx_rules::evaluate` gives it, and what decided it:
/// the line of the statement that did, and by what its condition held. All else is as with
/// `hx_rules::evaluate`, also where it fails.
pub(crate) fn explain_by_rules<T: Tables, M: ReMaker, L: Ledger>(
    alloc: Global,
    rules: &Program,
    message: &mut Message,
    conn: &Conn,
    vars: &mut Vars,
    tables: &mut T,
    maker: &mut M,
    steps: &mut Steps<L>,
) -> Result<(Verdict, Cause), TableFault>
    requires heads { HasHeads (T.heads (T.state tables.old)) rules.now }
    requires lists { HasLists (length (T.lists (T.state tables.old))) rules.now }
    ensures verdict { IfOk result (λ told. told.0
        ≡ (evaluation (table_view T.heads T.lists T.after_change) conn.now rules.now
        (start message.old vars.old (T.state tables.old))).verdict) }
    ensures cause { IfOk result (λ told. told.1
        ≡ cause_of (table_view T.heads T.lists T.after_change) conn.now rules.now
        (start message.old vars.old (T.state tables.old))) }
    ensures message { OnOk result (message.new
        ≡ (evaluation (table_view T.heads T.lists T.after_change) conn.now rules.now
        (start message.old vars.old (T.state tables.old))).state.message) }
    ensures vars { OnOk result (vars.new
        ≡ (evaluation (table_view T.heads T.lists T.after_change) conn.now rules.now
        (start message.old vars.old (T.state tables.old))).state.vars) }
    ensures tables { OnOk result (T.state tables.new
        ≡ (evaluation (table_view T.heads T.lists T.after_change) conn.now rules.now
        (start message.old vars.old (T.state tables.old))).state.tables) }
    ensures stands { OnErr result (StandsAt (table_view T.heads T.lists T.after_change) conn.now
        rules.now (start message.old vars.old (T.state tables.old)) message.new vars.new
        (T.state tables.new)) }
    ensures unchanged { may_rewrite rules.now ≡ false → message.new ≡ message.old }
    ensures heads { T.heads (T.state tables.new) ≡ T.heads (T.state tables.old) }
    ensures lists { length (T.lists (T.state tables.new)) ≡ length (T.lists (T.state tables.old)) }
    ensures large { ChangeCountsLarge result
        (RulesAskFor (table_view T.heads T.lists T.after_change) conn.now rules.now
        (start message.old vars.old (T.state tables.old)))
        (M.state maker.old) (M.state maker.new) }
{
    let decided = decide(alloc, rules, message, conn, vars, tables, maker, steps)?;
    let world = World {
        message,
        conn,
        vars,
    };
    let held = held_when(alloc, rules, &decided.by, &world, tables, steps)?;
    let line = rules.line(&decided.by);
    Ok((decided.verdict, Cause { line, held }))
}
