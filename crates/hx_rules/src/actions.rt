ghost use Rattle.std.specs.Prelude.{◌≡◌, [], length, IfOk, OnErr, OnOk};
ghost use Rattle.std.specs.Option.{option_map_or};
ghost use Rattle.hx_expr.specs.Values.{expr_value, HasTableHeads};
ghost use Rattle.hx_sample.specs.Changes.{ChangeCountsLarge};
ghost use Rattle.hx_sample.specs.Vars.{with_var};
ghost use Rattle.hx_rules.specs.Failures.{ActionAsksFor};
ghost use Rattle.hx_rules.specs.ProgramView.{action_of_built, action_of_rewrite};
ghost use Rattle.hx_rules.specs.EffectView.{effect_of, rewrite_effect, continuation_after, continuation_refused};
ghost use Rattle.hx_rules.specs.RequestView.{IsSameRequest, state_of};
ghost use Rattle.hx_rules.specs.State.{in_state, table_view};
ghost use Rattle.hx_rules.specs.Tables.{ChangesOneOf, HasActionHeads};
ghost use Rattle.hx_rules.specs.Verdicts.{action_effect};

use crate::action::{BuiltAction, Rewrite};
use crate::owning::owned_value;
use crate::request::Request;
use crate::verdict::Verdict;
use hx_expr::{Plan, eval};
use hx_fetch::Conn;
use hx_http::EditFault;
use hx_outside::ReMaker;
use hx_pool::Steps;
use hx_sample::{TableFault, Tables, Value, Vars};
use hx_text::{NoMemory, VarName};
use std::sync::ledger::Ledger;

/// What comes after a rule: the next rule, the end of the rules of `http-request`, or the verdict.
#[derive(Drop)]
pub(crate) enum Continuation {
    Goes,
    Stops,
    Ends(Verdict),
}

/// What comes after a rewrite: one that was refused ends the request in strict mode.
fn after_rewrite(edited: Result<(), EditFault>, strict: bool) -> Result<Continuation, NoMemory>
    ensures { result ≡ continuation_after edited strict }
{
    match edited {
        Ok(()) => Ok(Continuation::Goes),
        Err(EditFault::NoMemory) => Err(NoMemory),
        Err(_) => Ok(refused(strict)),
    }
}

/// What comes after a rewrite that was refused.
fn refused(strict: bool) -> Continuation
    ensures { result ≡ continuation_refused strict }
{
    if strict {
        Continuation::Ends(Verdict::Error)
    } else {
        Continuation::Goes
    }
}

/// Sets the variable to the value, if there is one.
fn set_var(
    vars: &mut Vars,
    conn: &Conn,
    name: &VarName,
    value: Option<Value>,
) -> Result<(), NoMemory>
    ensures ok { OnOk result (vars.new
        ≡ option_map_or (with_var vars.old conn.now.id name.now) value vars.old) }
    ensures err { OnErr result (vars.new ≡ vars.old) }
{
    match value {
        Some(value) => vars.set(conn.id, name, value),
        None => Ok(()),
    }
}

impl<T: Tables> Request<'_, T> {
    /// Rewrites the head of the request, and says what comes after it.
    fn rewrite_or_end<L: Ledger>(
        &mut self,
        asked: &Rewrite,
        steps: &mut Steps<L>,
    ) -> Result<Continuation, NoMemory>
        requires { HasActionHeads (T.heads (T.state self.old.tables.now))
            (action_of_rewrite asked.now) }
        ensures ok { IfOk result (λ after. effect_of after (state_of T.state self.new)
            ≡ rewrite_effect (table_view T.heads T.lists T.after_change) self.old.conn.now
            asked.now (state_of T.state self.old)) }
        ensures kept { OnErr result (state_of T.state self.new ≡ state_of T.state self.old) }
        ensures same { IsSameRequest T.state T.heads T.lists self.old self.new }
    {
        let edited = self.rewrite(asked, steps);
        after_rewrite(edited, self.strict)
    }

    /// The value of the expression, owned. A room that is empty is there for its bytes.
    fn value_in<L: Ledger>(
        &self,
        room: Vec<u8>,
        plan: &Plan,
        steps: &mut Steps<L>,
    ) -> Result<Option<Value>, NoMemory>
        requires room { room.items ≡ [] }
        requires heads { HasTableHeads (T.heads (T.state self.now.tables.now)) plan.now.convs }
        ensures { IfOk result (λ value. value
            ≡ in_state expr_value (table_view T.heads T.lists T.after_change) self.now.conn.now
            (state_of T.state self.now) plan.now) }
    {
        let world = self.world();
        match eval(self.alloc, plan, &world, self.tables, steps)? {
            Some(sample) => Ok(Some(owned_value(room, sample)?)),
            None => Ok(None),
        }
    }

    /// The value of the expression, owned, in memory that an earlier one had.
    fn value<L: Ledger>(
        &mut self,
        plan: &Plan,
        steps: &mut Steps<L>,
    ) -> Result<Option<Value>, NoMemory>
        requires { HasTableHeads (T.heads (T.state self.old.tables.now)) plan.now.convs }
        ensures value { IfOk result (λ value. value
            ≡ in_state expr_value (table_view T.heads T.lists T.after_change) self.old.conn.now
            (state_of T.state self.old) plan.now) }
        ensures kept { self.new ≡ self.old }
    {
        let room = self.vars.room();
        self.value_in(room, plan, steps)
    }

    /// Does what the action says. Nothing is changed where memory runs out, or where the key of a
    /// change is a regular expression that is too large.
    pub(crate) fn act<M: ReMaker, L: Ledger>(
        &mut self,
        action: &BuiltAction,
        maker: &mut M,
        steps: &mut Steps<L>,
    ) -> Result<Continuation, TableFault>
        requires heads { HasActionHeads (T.heads (T.state self.old.tables.now))
            (action_of_built action.now) }
        requires list { ChangesOneOf (length (T.lists (T.state self.old.tables.now)))
            (action_of_built action.now) }
        ensures ok { IfOk result (λ after. effect_of after (state_of T.state self.new)
            ≡ action_effect (table_view T.heads T.lists T.after_change) self.old.conn.now
            (action_of_built action.now) (state_of T.state self.old)) }
        ensures kept { OnErr result (state_of T.state self.new ≡ state_of T.state self.old) }
        ensures same { IsSameRequest T.state T.heads T.lists self.old self.new }
        ensures large { ChangeCountsLarge result
            (ActionAsksFor (table_view T.heads T.lists T.after_change) self.old.conn.now
            (action_of_built action.now) (state_of T.state self.old))
            (M.state maker.old) (M.state maker.new) }
    {
        match action {
            BuiltAction::Allow => Ok(Continuation::Stops),
            BuiltAction::Deny(status) => {
                let code = status.unwrap_or(403);
                Ok(Continuation::Ends(Verdict::Deny { code }))
            }
            BuiltAction::Rewrite(asked) => Ok(self.rewrite_or_end(asked, steps)?),
            BuiltAction::SetVar(name, plan) => {
                let value = self.value(plan, steps)?;
                set_var(self.vars, self.conn, name, value)?;
                Ok(Continuation::Goes)
            }
            BuiltAction::UnsetVar(name) => {
                self.vars.unset(self.conn.id, name);
                Ok(Continuation::Goes)
            }
            BuiltAction::Change(asked) => {
                self.change_list(asked, maker, steps)?;
                Ok(Continuation::Goes)
            }
            BuiltAction::Redirect(asked) => {
                let verdict = self.redirect(asked, steps)?;
                Ok(Continuation::Ends(verdict))
            }
            BuiltAction::StrictMode(on) => {
                self.strict = *on;
                Ok(Continuation::Goes)
            }
        }
    }
}
