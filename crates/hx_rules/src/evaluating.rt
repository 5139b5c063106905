ghost use Rattle.std.specs.Prelude.{◌≡◌, length, false, IfOk, OnErr, OnOk, option_map};
ghost use Rattle.std.specs.Option.{unwrap_or};
ghost use Rattle.hx_acl.specs.Holds.{HasAclsHeads};
ghost use Rattle.hx_sample.specs.Changes.{ChangeCountsLarge};
ghost use Rattle.hx_rules.specs.Deciding.{deciding_at, deciding_of};
ghost use Rattle.hx_rules.specs.Failures.{RulesAskFor, StandsAt};
ghost use Rattle.hx_rules.specs.EffectView.{evaluation_of, effect_of, rule_effect, RuleAsksFor};
ghost use Rattle.hx_rules.specs.RequestView.{IsSameRequest, state_of};
ghost use Rattle.hx_rules.specs.Rewriting.{may_rewrite};
ghost use Rattle.hx_rules.specs.State.{in_state, table_view};
ghost use Rattle.hx_rules.specs.Tables.{ChangesOneOf, HasHeads, HasLists, HasRuleHeads};
ghost use Rattle.hx_rules.specs.Verdicts.{evaluation, start, verdict_at};

use crate::actions::Continuation;
use crate::deciding::{Decided, Deciding};
use crate::program::{BuiltRule, Program};
use crate::request::Request;
use crate::verdict::Verdict;
use hx_acl::AclSet;
use hx_fetch::Conn;
use hx_http::Message;
use hx_outside::ReMaker;
use hx_pool::Steps;
use hx_sample::{TableFault, Tables, Vars};
use hx_text::NoMemory;
use std::alloc::Global;
use std::sync::ledger::Ledger;

impl<T: Tables> Request<'_, T> {
    /// Does what a rule of `http-request` says, if it is taken. Nothing is changed where that
    /// fails.
    fn apply_rule<M: ReMaker, L: Ledger>(
        &mut self,
        acls: &AclSet,
        rule: &BuiltRule,
        maker: &mut M,
        steps: &mut Steps<L>,
    ) -> Result<Continuation, TableFault>
        requires acls { HasAclsHeads (T.heads (T.state self.old.tables.now)) acls.now }
        requires heads { HasRuleHeads (T.heads (T.state self.old.tables.now)) rule.now }
        requires list { ChangesOneOf (length (T.lists (T.state self.old.tables.now)))
            rule.now.action }
        ensures ok { IfOk result (λ after. effect_of after (state_of T.state self.new)
            ≡ rule_effect (table_view T.heads T.lists T.after_change) self.old.conn.now acls.now
            rule.now (state_of T.state self.old)) }
        ensures kept { OnErr result (state_of T.state self.new ≡ state_of T.state self.old) }
        ensures same { IsSameRequest T.state T.heads T.lists self.old self.new }
        ensures large { ChangeCountsLarge result
            (RuleAsksFor (table_view T.heads T.lists T.after_change) self.old.conn.now acls.now
            rule.now (state_of T.state self.old))
            (M.state maker.old) (M.state maker.new) }
    {
        if self.is_taken(acls, rule.unless, &rule.cond, steps)? {
            return self.act(&rule.action, maker, steps);
        }
        Ok(Continuation::Goes)
    }

    /// Goes through the rules of `http-request`. The verdict of the first that gives one, if one
    /// does, and which that is.
    fn apply_rules<M: ReMaker, L: Ledger>(
        &mut self,
        program: &Program,
        maker: &mut M,
        steps: &mut Steps<L>,
    ) -> Result<Option<Decided>, TableFault>
        requires heads { HasHeads (T.heads (T.state self.old.tables.now)) program.now }
        requires lists { HasLists (length (T.lists (T.state self.old.tables.now))) program.now }
        ensures ok { IfOk result (λ given.
            evaluation (table_view T.heads T.lists T.after_change) self.old.conn.now program.now
            (state_of T.state self.old)
            ≡ evaluation_of (table_view T.heads T.lists T.after_change) self.old.conn.now
            program.now (option_map (λ decided. decided.verdict) given)
            (state_of T.state self.new)) }
        ensures by { IfOk result (λ given.
            deciding_of (table_view T.heads T.lists T.after_change) self.old.conn.now program.now
            (state_of T.state self.old)
            ≡ unwrap_or (option_map (λ decided. decided.by) given)
            (in_state deciding_at (table_view T.heads T.lists T.after_change) self.old.conn.now
            (state_of T.state self.new) program.now)) }
        ensures stands { StandsAt (table_view T.heads T.lists T.after_change) self.old.conn.now
            program.now (state_of T.state self.old) self.new.message.now self.new.vars.now
            (T.state self.new.tables.now) }
        ensures same { IsSameRequest T.state T.heads T.lists self.old self.new }
        ensures large { ChangeCountsLarge result
            (RulesAskFor (table_view T.heads T.lists T.after_change) self.old.conn.now program.now
            (state_of T.state self.old))
            (M.state maker.old) (M.state maker.new) }
    {
        let acls = &program.acls;
        let mut at = 0;
        let mut rest = program.rules.as_slice();
        while let [rule, others @ ..] = rest {
            match self.apply_rule(acls, rule, maker, steps)? {
                Continuation::Goes => {}
                Continuation::Stops => return Ok(None),
                Continuation::Ends(verdict) => {
                    let by = Deciding::Rule(at);
                    return Ok(Some(Decided { verdict, by }));
                }
            }
            at += 1;
            rest = others;
        }
        Ok(None)
    }

    /// The verdict where the rules of `http-request` give none, and what decides it.
    fn decided_later<L: Ledger>(
        &self,
        program: &Program,
        steps: &mut Steps<L>,
    ) -> Result<Decided, NoMemory>
        requires { HasHeads (T.heads (T.state self.now.tables.now)) program.now }
        ensures verdict { IfOk result (λ decided. decided.verdict
            ≡ in_state verdict_at (table_view T.heads T.lists T.after_change) self.now.conn.now
            (state_of T.state self.now) program.now) }
        ensures by { IfOk result (λ decided. decided.by
            ≡ in_state deciding_at (table_view T.heads T.lists T.after_change) self.now.conn.now
            (state_of T.state self.now) program.now) }
    {
        let acls = &program.acls;
        let redirects = program.redirects.as_slice();
        if let Some(decided) = self.redirected(acls, redirects, steps)? {
            return Ok(decided);
        }
        let backends = program.backends.as_slice();
        self.backend(acls, backends, &program.fallback, steps)
    }

    /// The verdict of all rules, and what decides it.
    fn decided<M: ReMaker, L: Ledger>(
        &mut self,
        program: &Program,
        maker: &mut M,
        steps: &mut Steps<L>,
    ) -> Result<Decided, TableFault>
        requires heads { HasHeads (T.heads (T.state self.old.tables.now)) program.now }
        requires lists { HasLists (length (T.lists (T.state self.old.tables.now))) program.now }
        ensures ok { IfOk result (λ decided.
            evaluation (table_view T.heads T.lists T.after_change) self.old.conn.now program.now
            (state_of T.state self.old)
            ≡ record { verdict = decided.verdict; state = state_of T.state self.new }) }
        ensures by { IfOk result (λ decided. decided.by
            ≡ deciding_of (table_view T.heads T.lists T.after_change) self.old.conn.now program.now
            (state_of T.state self.old)) }
        ensures stands { OnErr result (StandsAt (table_view T.heads T.lists T.after_change)
            self.old.conn.now program.now (state_of T.state self.old) self.new.message.now
            self.new.vars.now (T.state self.new.tables.now)) }
        ensures same { IsSameRequest T.state T.heads T.lists self.old self.new }
        ensures large { ChangeCountsLarge result
            (RulesAskFor (table_view T.heads T.lists T.after_change) self.old.conn.now program.now
            (state_of T.state self.old))
            (M.state maker.old) (M.state maker.new) }
    {
        if let Some(decided) = self.apply_rules(program, maker, steps)? {
            return Ok(decided);
        }
        Ok(self.decided_later(program, steps)?)
    }
}

/// The verdict of the rules on a request (HAProxy configuration manual 2.4, section 4.2). The rules
/// of `http-request` come first, in their order: each is judged in the state that those before it
/// leave, and may change `message`, the variables and the tables. Then the redirects are tried, and
/// then the rules of `use_backend`; the first that is taken counts, and the backend is that of
/// `default_backend` where its format makes no name, or none is taken. ACLs that conditions name
/// are those that the program declares, or else those that are predefined.
///
/// A rewrite that is refused changes nothing; in strict mode, which is on at first, the verdict is
/// `Error`. A change of a table that is refused changes nothing. Regular expressions that a change
/// reads are made by `maker`. Steps of searches are counted in `steps`. Where no rule rewrites the
/// head, which `Program::may_rewrite` tells, the message stays, whatever comes of the rules.
///
/// `TooLarge` only where the maker's count of texts that were too large rose; the last such text is
/// then the key of a change for which a rule asks. `NoMemory` where memory runs out. Message,
/// variables and tables then stand as after the first of the rules, some number of them.
///
/// The heads that the program names are heads of these tables, with the match methods that it names
/// there, and each list that its rules change is one of them.
pub fn evaluate<T: Tables, M: ReMaker, L: Ledger>(
    alloc: Global,
    program: &Program,
    message: &mut Message,
    conn: &Conn,
    vars: &mut Vars,
    tables: &mut T,
    maker: &mut M,
    steps: &mut Steps<L>,
) -> Result<Verdict, TableFault>
    requires heads { HasHeads (T.heads (T.state tables.old)) program.now }
    requires lists { HasLists (length (T.lists (T.state tables.old))) program.now }
    ensures verdict { IfOk result (λ verdict. verdict
        ≡ (evaluation (table_view T.heads T.lists T.after_change) conn.now program.now
        (start message.old vars.old (T.state tables.old))).verdict) }
    ensures message { OnOk result (message.new
        ≡ (evaluation (table_view T.heads T.lists T.after_change) conn.now program.now
        (start message.old vars.old (T.state tables.old))).state.message) }
    ensures vars { OnOk result (vars.new
        ≡ (evaluation (table_view T.heads T.lists T.after_change) conn.now program.now
        (start message.old vars.old (T.state tables.old))).state.vars) }
    ensures tables { OnOk result (T.state tables.new
        ≡ (evaluation (table_view T.heads T.lists T.after_change) conn.now program.now
        (start message.old vars.old (T.state tables.old))).state.tables) }
    ensures stands { OnErr result (StandsAt (table_view T.heads T.lists T.after_change) conn.now
        program.now (start message.old vars.old (T.state tables.old)) message.new vars.new
        (T.state tables.new)) }
    ensures unchanged { may_rewrite program.now ≡ false → message.new ≡ message.old }
    ensures heads { T.heads (T.state tables.new) ≡ T.heads (T.state tables.old) }
    ensures lists { length (T.lists (T.state tables.new)) ≡ length (T.lists (T.state tables.old)) }
    ensures large { ChangeCountsLarge result
        (RulesAskFor (table_view T.heads T.lists T.after_change) conn.now program.now
        (start message.old vars.old (T.state tables.old)))
        (M.state maker.old) (M.state maker.new) }
{
    let decided = decide(alloc, program, message, conn, vars, tables, maker, steps)?;
    Ok(decided.verdict)
}

/// The verdict of the rules on a request, as of `evaluate`, and the statement that decides it: the
/// rule of `http-request` that ends the evaluation with a denial, a redirect or an error; or else
/// the redirect that is taken; or else the rule of `use_backend` that is taken, where its format
/// makes a name; or else `default_backend`, where there is one. All else is as with `evaluate`.
pub fn decide<T: Tables, M: ReMaker, L: Ledger>(
    alloc: Global,
    program: &Program,
    message: &mut Message,
    conn: &Conn,
    vars: &mut Vars,
    tables: &mut T,
    maker: &mut M,
    steps: &mut Steps<L>,
) -> Result<Decided, TableFault>
    requires heads { HasHeads (T.heads (T.state tables.old)) program.now }
    requires lists { HasLists (length (T.lists (T.state tables.old))) program.now }
    ensures verdict { IfOk result (λ decided. decided.verdict
        ≡ (evaluation (table_view T.heads T.lists T.after_change) conn.now program.now
        (start message.old vars.old (T.state tables.old))).verdict) }
    ensures by { IfOk result (λ decided. decided.by
        ≡ deciding_of (table_view T.heads T.lists T.after_change) conn.now program.now
        (start message.old vars.old (T.state tables.old))) }
    ensures message { OnOk result (message.new
        ≡ (evaluation (table_view T.heads T.lists T.after_change) conn.now program.now
        (start message.old vars.old (T.state tables.old))).state.message) }
    ensures vars { OnOk result (vars.new
        ≡ (evaluation (table_view T.heads T.lists T.after_change) conn.now program.now
        (start message.old vars.old (T.state tables.old))).state.vars) }
    ensures tables { OnOk result (T.state tables.new
        ≡ (evaluation (table_view T.heads T.lists T.after_change) conn.now program.now
        (start message.old vars.old (T.state tables.old))).state.tables) }
    ensures stands { OnErr result (StandsAt (table_view T.heads T.lists T.after_change) conn.now
        program.now (start message.old vars.old (T.state tables.old)) message.new vars.new
        (T.state tables.new)) }
    ensures unchanged { may_rewrite program.now ≡ false → message.new ≡ message.old }
    ensures heads { T.heads (T.state tables.new) ≡ T.heads (T.state tables.old) }
    ensures lists { length (T.lists (T.state tables.new)) ≡ length (T.lists (T.state tables.old)) }
    ensures large { ChangeCountsLarge result
        (RulesAskFor (table_view T.heads T.lists T.after_change) conn.now program.now
        (start message.old vars.old (T.state tables.old)))
        (M.state maker.old) (M.state maker.new) }
{
    let mut request = Request {
        alloc,
        conn,
        message,
        vars,
        tables,
        strict: true,
    };
    request.decided(program, maker, steps)
}
