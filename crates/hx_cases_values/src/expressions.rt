//! Calls of hx_spell and hx_expr.

ghost use Rattle.std.specs.Prelude.{◌≡◌, ◌<◌, true, IfOk, IfSome};
ghost use Rattle.hx_sample.specs.Tables.{empty_heads};
ghost use Rattle.hx_expr.specs.Values.{HasTableHeads};

use hx_ast::{AclUse, Conv, Decl, Expr, Statement};
use hx_cases_base::{CaseFault, State, numbers, sample, show_all, show_occurrence};
use hx_cases_syntax::show_statement;
use hx_expr::{Plan, PlanFault, compile, eval, eval_all};
use hx_fetch::World;
use hx_outside::{FailMaker, PlainMaker, ReMaker};
use hx_pool::Steps;
use hx_sample::{EmptyTables, Tables, own};
use hx_spell::{SpellFault, Speller};
use hx_text::{Octets, Scope, VarName};
use hx_words::split;
use std::alloc::Global;
use std::fmt::Write;
use std::marker::Brand;
use std::sync::ledger::{Blank, Ledger};

/// The statement that a line spells; or none, where the code of its fault is written.
fn spelled(alloc: Global, out: &mut String, line: &[u8]) -> Result<Option<Statement>, CaseFault> {
    let env = Vec::new(alloc);
    let (Ok(words), Ok(mut speller)) = (split(alloc, &env, line), Speller::new(alloc)) else {
        return Err(CaseFault::BadArguments);
    };
    match speller.line(1, &words) {
        Ok(statement) => Ok(Some(statement)),
        Err(SpellFault::Code(code)) => {
            write!(out, "fault {code}")?;
            Ok(None)
        }
        Err(SpellFault::NoMemory) => Err(CaseFault::NoMemory),
    }
}

/// `statement LINE`: the statement that the line spells, or the code of its fault.
pub fn statement_case(alloc: Global, out: &mut String, args: &[Vec<u8>]) -> Result<(), CaseFault> {
    let [line] = args else {
        return Err(CaseFault::BadArguments);
    };
    match spelled(alloc, out, line.as_slice())? {
        Some(statement) => show_statement(out, &statement),
        None => Ok(()),
    }
}

/// The statement that denies by an expression with `-m str`.
fn denying(
    alloc: Global,
    out: &mut String,
    expression: &[u8],
) -> Result<Option<Statement>, CaseFault> {
    let mut line = b"http-request deny if { ".to_vec(alloc)?;
    line.extend_from_slice(expression)?;
    line.extend_from_slice(b" -m str x }")?;
    spelled(alloc, out, line.as_slice())
}

/// The first ACL of a statement's condition.
fn first_acl(statement: &Statement) -> Option<&Decl> {
    let Statement::Rule(rule) = statement else {
        return None;
    };
    match &rule.cond.as_ref()?.get(0)?.get(0)?.acl {
        AclUse::Named(_) => None,
        AclUse::Own(decl) => Some(decl),
    }
}

/// Whether no converter looks a value up.
fn has_no_map(convs: &[Conv]) -> bool
    ensures { result ≡ true → HasTableHeads empty_heads convs.now }
{
    for conv in convs {
        if let Conv::Map(_, _, _, _) = conv {
            return false;
        }
    }
    true
}

/// The plan of an expression; or none, where its fault is written.
fn compiled<M: ReMaker>(
    alloc: Global,
    out: &mut String,
    expr: &Expr,
    maker: &mut M,
) -> Result<Option<Plan>, CaseFault>
    ensures { IfOk result (λ found. IfSome found (λ plan. plan ≡ expr.now)) }
{
    match compile(alloc, expr, maker) {
        Ok(plan) => Ok(Some(plan)),
        Err(PlanFault::NoMemory) => Err(CaseFault::NoMemory),
        Err(fault) => {
            write!(out, "{fault:?}|")?;
            Ok(None)
        }
    }
}

/// Writes the value of the plan, after the values of all occurrences if these are wanted.
fn show_plan<T: Tables, L: Ledger>(
    alloc: Global,
    out: &mut String,
    plan: &Plan,
    state: &State,
    tables: &T,
    all: bool,
    blank: Blank,
) -> Result<(), CaseFault>
    requires heads { HasTableHeads (T.heads (T.state tables.now)) plan.now.convs }
    requires name { blank.name ≡ L.name }
    requires parts { blank.parts ≡ L.parts }
    requires some { 0 < L.parts }
{
    let Some(message) = &state.message else {
        return Err(CaseFault::BadArguments);
    };
    let world = World {
        message,
        conn: &state.conn,
        vars: &state.vars,
    };
    let mut steps = Steps::<L>::open(blank);
    if all {
        show_all(
            out,
            eval_all(alloc, plan, &world, tables, &mut steps)?,
            16_777_216,
        )?;
        out.push('>')?;
    }
    show_occurrence(out, &eval(alloc, plan, &world, tables, &mut steps)?)
}

/// Compiles an expression, and writes its value, after the values of all occurrences if these are
/// wanted.
pub fn show_expression<T: Tables>(
    alloc: Global,
    out: &mut String,
    expr: &Expr,
    state: &State,
    tables: &T,
    all: bool,
) -> Result<(), CaseFault>
    requires { HasTableHeads (T.heads (T.state tables.now)) expr.now.convs }
{
    match compiled(alloc, out, expr, &mut PlainMaker::new())? {
        Some(plan) => {
            show_plan::<T, Brand>(alloc, out, &plan, state, tables, all, Blank::new(1))
        }
        None => Ok(()),
    }
}

/// Writes the value of the expression of the ACL that a statement declares in its condition.
fn show_condition(
    alloc: Global,
    out: &mut String,
    statement: &Statement,
    state: &State,
    all: bool,
) -> Result<(), CaseFault> {
    let acl = first_acl(statement).ok_or(CaseFault::BadArguments)?;
    if !has_no_map(acl.expr.convs.as_slice()) {
        return Err(CaseFault::BadArguments);
    }
    show_expression(alloc, out, &acl.expr, state, &EmptyTables, all)
}

/// Writes the value of an expression that is spelled as in a line, where it stands before `-m str`;
/// or the fault of spelling or compiling it.
fn show_spelled(
    alloc: Global,
    out: &mut String,
    expression: &[u8],
    state: &State,
    all: bool,
) -> Result<(), CaseFault> {
    match denying(alloc, out, expression)? {
        Some(statement) => show_condition(alloc, out, &statement, state, all),
        None => Ok(()),
    }
}

/// `value EXPRESSION`: the values of all occurrences of the expression, in the request, the
/// connection and the variables that earlier lines left, and after > its value.
pub fn value_case(
    alloc: Global,
    state: &State,
    out: &mut String,
    args: &[Vec<u8>],
) -> Result<(), CaseFault> {
    let [expression] = args else {
        return Err(CaseFault::BadArguments);
    };
    show_spelled(alloc, out, expression.as_slice(), state, true)
}

/// Sets the variable `txn.case` to this sample.
pub fn set_case(alloc: Global, state: &mut State, spelled: &[u8]) -> Result<(), CaseFault> {
    let name = VarName {
        scope: Scope::Txn,
        name: Octets::copy(alloc, b"case")?,
    };
    let value = own(alloc, &sample(spelled)?)?;
    Ok(state.vars.set(state.conn.id, &name, value)?)
}

/// `conv SAMPLE CONVERTERS`: the sample is the value of the variable `txn.case`, and `CONVERTERS`
/// are spelled as after a fetch; what they make of it.
pub fn conv_case(
    alloc: Global,
    state: &mut State,
    out: &mut String,
    args: &[Vec<u8>],
) -> Result<(), CaseFault> {
    let [given, converters] = args else {
        return Err(CaseFault::BadArguments);
    };
    set_case(alloc, state, given.as_slice())?;
    let mut expression = b"var(txn.case),".to_vec(alloc)?;
    expression.extend_from_slice(converters.as_slice())?;
    show_spelled(alloc, out, expression.as_slice(), state, false)
}

/// Compiles the expression of the ACL that a statement declares in its condition.
fn compile_condition(
    alloc: Global,
    out: &mut String,
    statement: &Statement,
    maker: &mut FailMaker,
) -> Result<bool, CaseFault> {
    let acl = first_acl(statement).ok_or(CaseFault::BadArguments)?;
    if compiled(alloc, out, &acl.expr, maker)?.is_some() {
        out.push_str("ok|")?;
    }
    Ok(true)
}

/// Compiles an expression that is spelled as in a line; whether it is spelled.
fn compile_spelled(
    alloc: Global,
    out: &mut String,
    expression: &[u8],
    maker: &mut FailMaker,
) -> Result<bool, CaseFault> {
    match denying(alloc, out, expression)? {
        Some(statement) => compile_condition(alloc, out, &statement, maker),
        None => Ok(false),
    }
}

/// `compile FAILS EXPRESSION ..`: whether each expression is compiled, by a maker of regular
/// expressions that fails at chosen calls.
pub fn compile_case(alloc: Global, out: &mut String, args: &[Vec<u8>]) -> Result<(), CaseFault> {
    let [fails, expressions @ ..] = args else {
        return Err(CaseFault::BadArguments);
    };
    let mut maker = FailMaker::new(numbers(alloc, fails.as_slice())?);
    for expression in expressions {
        if !compile_spelled(alloc, out, expression.as_slice(), &mut maker)? {
            return Ok(());
        }
    }
    Ok(())
}
