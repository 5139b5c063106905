ghost use Rattle.std.specs.Prelude.{◌≡◌, IfOk, IsErrOf, IsSomeAnd, OnErr, OnOk, false, length};
ghost use Rattle.hx_base.specs.Pairs.{pairs_of};
ghost use Rattle.hx_load.specs.Loads.{LineReads};
ghost use Rattle.hx_outside.specs.Count.{Rose};
ghost use Rattle.hx_rules.specs.Failures.{RulesAskFor, StandsAt};
ghost use Rattle.hx_rules.specs.Rewriting.{may_rewrite};
ghost use Rattle.hx_rules.specs.State.{table_view};
ghost use Rattle.hx_rules.specs.Tables.{HasHeads, HasLists};
ghost use Rattle.hx_rules.specs.Verdicts.{evaluation, start};
ghost use Rattle.hx_sample.specs.Changes.{ChangeCountsLarge};
ghost use Rattle.hx_trace.specs.Statements.{HasPatternFaultsAlone, IsRefusedForPattern};
ghost use Rattle.hx_trace.specs.Statements.{LinesNumber};
ghost use Rattle.hx_trace.specs.Why.{cause_of, head_numbers, told_why};

use crate::explaining::explain_by_rules;
use crate::numbers::head_numbers;
use crate::why::{Why, told_why};
use hx_expr::PlanFault;
use hx_fetch::Conn;
use hx_http::Message;
use hx_load::{LoadFault, load_lines};
use hx_outside::ReMaker;
use hx_pool::Steps;
use hx_refs::{Limits, Refs};
use hx_rules::{Program, Verdict};
use hx_sample::{TableFault, Tables, Vars};
use hx_text::NoMemory;
use std::alloc::Global;
use std::marker::Model;
use std::sync::ledger::Ledger;

/// The statements of a configuration, by which verdicts are explained, and the numbers by which
/// reasons name its references. Contracts see the program, and for each head the number of the
/// reference that it searches.
pub struct Explained {
    program: Program,
    numbers: Vec<u32>,
}

// Written out, so that letting one go is one call in the proofs of callers.
impl Drop for Explained {
    fn drop(self) {
        let Explained {
            program: _program,
            numbers: _numbers,
        } = self;
    }
}

impl Model for Explained {
    ghost use Rattle.hx_trace.specs.Statements.{NumberedRules};

    ghost Value = { NumberedRules };

    ghost view = { λ prog. record { program = prog.program; numbers = prog.numbers.items } };
}

impl Explained {
    /// The statements of a configuration, as its lines spell them. `env` has the variables of the
    /// environment, of which the first pair of a name counts. Regular expressions are made by
    /// `maker`. No file is read.
    ///
    /// The first fault of the lines, if they have one, is a text that is no regular expression or
    /// no pattern (code 16). `BadPattern` only where they have such a fault. `BadType` never.
    /// `TooLarge` only where the maker's count of texts that were too large rose, and the last of
    /// them is one that a line has read as an expression. `NoMemory` where memory runs out, and
    /// where the number of a head has no room in 32 bits.
    ///
    /// HAProxy configuration manual 2.4, sections 2.1, 2.2, 4, 7.1, 7.2 and 7.3.
    pub fn new<M: ReMaker>(
        alloc: Global,
        config: &[u8],
        env: &[(Vec<u8>, Vec<u8>)],
        maker: &mut M,
    ) -> Result<Explained, PlanFault>
        requires { HasPatternFaultsAlone (pairs_of env.now) config.now }
        ensures given { IfOk result (λ prog. LinesNumber (pairs_of env.now) config.now prog) }
        ensures bad_pattern { IsErrOf result PlanFault.BadPattern
            → IsRefusedForPattern (pairs_of env.now) config.now }
        ensures bad_type { ¬ (IsErrOf result PlanFault.BadType) }
        ensures too_large { IsErrOf result PlanFault.TooLarge
            → Rose (M.state maker.old).too_large (M.state maker.new).too_large
            × IsSomeAnd (M.state maker.new).large (LineReads (pairs_of env.now) config.now) }
        ensures uncounted { ¬ (IsErrOf result PlanFault.TooLarge)
            → ((M.state maker.new).too_large ≡ (M.state maker.old).too_large)
            × ((M.state maker.new).large ≡ (M.state maker.old).large) }
    {
        match load_lines(alloc, config, env, maker, Limits::usual()) {
            Ok((program, refs)) => Ok(numbered(alloc, program, &refs)?),
            Err(LoadFault::Refused { .. }) => Err(PlanFault::BadPattern),
            Err(LoadFault::Failed) => unreachable!(),
            Err(LoadFault::TooLarge) => Err(PlanFault::TooLarge),
            Err(LoadFault::NoMemory) => Err(PlanFault::NoMemory),
        }
    }
}

/// A program, with the numbers of its references. `NoMemory` where memory runs out.
fn numbered(alloc: Global, program: Program, refs: &Refs) -> Result<Explained, NoMemory>
    ensures { IfOk result (λ prog. prog
        ≡ record { program = program; numbers = head_numbers refs.now.content }) }
{
    let numbers = head_numbers(alloc, refs)?;
    Ok(Explained { program, numbers })
}

/// The verdict of the statements on a request, as `hx_rules::evaluate` gives it, and why it has
/// that one: the line of the statement that decided, the conjunction of its condition that held,
/// and what each of its terms held by, in the state in which the condition was judged. The searches
/// in `tables` are counted in `steps`.
///
/// `TooLarge` only where the maker's count of texts that were too large rose, and the last of them
/// is the key of a change for which a rule asks. `NoMemory` where memory runs out, and where the
/// number of the conjunction has no room in 32 bits. After a fault the message, the variables and
/// the tables stand as the first of the rules left them, some number of them.
///
/// The heads and lists that the statements name are some of the tables'.
///
/// HAProxy configuration manual 2.4, sections 4.2 and 7.
pub fn explain<T: Tables, M: ReMaker, L: Ledger>(
    alloc: Global,
    prog: &Explained,
    message: &mut Message,
    conn: &Conn,
    vars: &mut Vars,
    tables: &mut T,
    maker: &mut M,
    steps: &mut Steps<L>,
) -> Result<(Verdict, Why), TableFault>
    requires heads { HasHeads (T.heads (T.state tables.old)) prog.now.program }
    requires lists { HasLists (length (T.lists (T.state tables.old))) prog.now.program }
    ensures verdict { IfOk result (λ told. told.0
        ≡ (evaluation (table_view T.heads T.lists T.after_change) conn.now prog.now.program
        (start message.old vars.old (T.state tables.old))).verdict) }
    ensures why { IfOk result (λ told. told.1 ≡ told_why prog.now.numbers
        (cause_of (table_view T.heads T.lists T.after_change) conn.now prog.now.program
        (start message.old vars.old (T.state tables.old)))) }
    ensures message { OnOk result (message.new
        ≡ (evaluation (table_view T.heads T.lists T.after_change) conn.now prog.now.program
        (start message.old vars.old (T.state tables.old))).state.message) }
    ensures vars { OnOk result (vars.new
        ≡ (evaluation (table_view T.heads T.lists T.after_change) conn.now prog.now.program
        (start message.old vars.old (T.state tables.old))).state.vars) }
    ensures tables { OnOk result (T.state tables.new
        ≡ (evaluation (table_view T.heads T.lists T.after_change) conn.now prog.now.program
        (start message.old vars.old (T.state tables.old))).state.tables) }
    ensures stands { OnErr result (StandsAt (table_view T.heads T.lists T.after_change) conn.now
        prog.now.program (start message.old vars.old (T.state tables.old)) message.new vars.new
        (T.state tables.new)) }
    ensures unchanged { may_rewrite prog.now.program ≡ false → message.new ≡ message.old }
    ensures heads { T.heads (T.state tables.new) ≡ T.heads (T.state tables.old) }
    ensures lists { length (T.lists (T.state tables.new)) ≡ length (T.lists (T.state tables.old)) }
    ensures large { ChangeCountsLarge result
        (RulesAskFor (table_view T.heads T.lists T.after_change) conn.now prog.now.program
        (start message.old vars.old (T.state tables.old)))
        (M.state maker.old) (M.state maker.new) }
{
    let rules = &prog.program;
    let (verdict, cause) = explain_by_rules(
        alloc, rules, message, conn, vars, tables, maker, steps,
    )?;
    let why = told_why(alloc, prog.numbers.as_slice(), &cause)?;
    Ok((verdict, why))
}
