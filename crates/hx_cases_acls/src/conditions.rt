//! Calls of hx_acl: whether conditions hold, and by what.

ghost use Rattle.std.specs.Prelude.{◌≡◌, ◌<◌, IfOk, OnOk};
ghost use Rattle.hx_acl.specs.Holds.{HasAclsHeads, HasCondHeads};

use crate::statements::{new_speller, spelled};
use crate::uses::Filled;
use hx_acl::{AclSet, Condition, Ground, Held};
use hx_ast::{Cond, Decl, Statement};
use hx_cases_base::{CaseFault, State, pairs};
use hx_expr::PlanFault;
use hx_fetch::World;
use hx_outside::PlainMaker;
use hx_pool::Steps;
use hx_spell::TableSpecs;
use std::alloc::Global;
use std::fmt::Write;
use std::marker::Brand;
use std::sync::ledger::{Blank, Ledger};

/// The statements of lines, and the references that these bring. The codes of faults are written.
fn read_lines(
    alloc: Global,
    out: &mut String,
    lines: &[Vec<u8>],
) -> Result<(Vec<Statement>, TableSpecs), CaseFault> {
    let mut speller = new_speller(alloc)?;
    let mut statements = Vec::new(alloc);
    for (i, line) in lines.iter().enumerate() {
        let number = i as u64 + 1;
        if let Some(statement) = spelled(alloc, out, &mut speller, number, line.as_slice())? {
            statements.push(statement)?;
        }
    }
    Ok((statements, speller.tables()))
}

/// Writes why an ACL or a condition can't be built.
fn show_plan_fault(out: &mut String, fault: PlanFault) -> Result<(), CaseFault> {
    match fault {
        PlanFault::NoMemory => Err(CaseFault::NoMemory),
        _ => Ok(write!(out, "{fault:?}|")?),
    }
}

/// Declares an ACL.
fn declare(
    out: &mut String,
    acls: &mut AclSet,
    name: &[u8],
    decl: &Decl,
    filled: &Filled,
) -> Result<(), CaseFault>
    requires { HasAclsHeads filled.now.refs.content.heads acls.old }
    ensures { OnOk result (HasAclsHeads filled.now.refs.content.heads acls.new) }
{
    if !filled.has_decl_heads(decl) {
        return Err(CaseFault::BadArguments);
    }
    match acls.declare(name, decl, &mut PlainMaker::new()) {
        Ok(()) => Ok(()),
        Err(fault) => show_plan_fault(out, fault),
    }
}

/// The ACLs that statements declare.
fn declared(
    alloc: Global,
    out: &mut String,
    statements: &[Statement],
    filled: &Filled,
) -> Result<AclSet, CaseFault>
    ensures { IfOk result (λ acls. HasAclsHeads filled.now.refs.content.heads acls) }
{
    let mut acls = AclSet::new(alloc);
    for statement in statements {
        if let Statement::Acl { name, decl, .. } = statement {
            declare(out, &mut acls, name.as_slice(), decl, filled)?;
        }
    }
    Ok(acls)
}

/// What is asked of a condition.
#[derive(Clone, Copy)]
enum Question {
    /// whether it holds
    Holds,
    /// by which conjunction, and by what
    Grounds,
}

/// Writes what a term holds by.
fn show_ground(out: &mut String, ground: &Ground) -> Result<(), CaseFault> {
    match ground {
        Ground::Negated => Ok(out.push_str(" not")?),
        Ground::Sample => Ok(out.push_str(" sample")?),
        Ground::Entry { head, number } => Ok(write!(out, " {head}:{number}")?),
    }
}

/// Writes by which conjunction a condition holds, counted from 1, and by what each of its terms.
fn show_grounds(out: &mut String, held: &Option<Held>) -> Result<(), CaseFault> {
    let Some(held) = held else {
        return Ok(out.push_str("not|")?);
    };
    write!(out, "{}", held.conj)?;
    for ground in held.grounds.as_slice() {
        show_ground(out, ground)?;
    }
    Ok(out.push_str("|")?)
}

/// Writes what is asked of a condition.
fn show_asked<L: Ledger>(
    alloc: Global,
    out: &mut String,
    asked: Question,
    condition: &Condition,
    acls: &AclSet,
    filled: &Filled,
    state: &State,
    blank: Blank,
) -> Result<(), CaseFault>
    requires heads { HasCondHeads filled.now.refs.content.heads condition.now }
    requires acls { HasAclsHeads filled.now.refs.content.heads acls.now }
    requires name { blank.name ≡ L.name }
    requires parts { blank.parts ≡ L.parts }
    requires some { 0 < L.parts }
{
    let Some(message) = &state.message else {
        return Err(CaseFault::BadArguments);
    };
    let world = World {
        message,
        conn: &state.conn,
        vars: &state.vars,
    };
    let mut steps = Steps::<L>::open(blank);
    match asked {
        Question::Holds => {
            let holds = condition.holds(alloc, acls, &world, &filled.refs, &mut steps)?;
            Ok(out.push_str(if holds { "holds|" } else { "not|" })?)
        }
        Question::Grounds => {
            let held = condition.grounds(alloc, acls, &world, &filled.refs, &mut steps)?;
            show_grounds(out, &held)
        }
    }
}

/// Builds a condition, and writes what is asked of it.
fn show_condition(
    alloc: Global,
    out: &mut String,
    asked: Question,
    cond: &Cond,
    acls: &AclSet,
    filled: &Filled,
    state: &State,
) -> Result<(), CaseFault>
    requires { HasAclsHeads filled.now.refs.content.heads acls.now }
{
    if !filled.has_cond_heads(cond.as_slice()) {
        return Err(CaseFault::BadArguments);
    }
    match Condition::build(alloc, cond, &mut PlainMaker::new()) {
        Ok(condition) => show_asked::<Brand>(
            alloc,
            out,
            asked,
            &condition,
            acls,
            filled,
            state,
            Blank::new(1),
        ),
        Err(fault) => show_plan_fault(out, fault),
    }
}

/// Writes what is asked of the condition of each rule.
fn show_conditions(
    alloc: Global,
    out: &mut String,
    asked: Question,
    statements: &[Statement],
    filled: &Filled,
    state: &State,
) -> Result<(), CaseFault> {
    let acls = declared(alloc, out, statements, filled)?;
    for statement in statements {
        if let Statement::Rule(rule) = statement {
            if let Some(cond) = &rule.cond {
                show_condition(alloc, out, asked, cond, &acls, filled, state)?;
            }
        }
    }
    Ok(())
}

/// Answers what is asked of the condition of each rule that the lines of a configuration spell.
fn conditions_case(
    alloc: Global,
    state: &State,
    out: &mut String,
    asked: Question,
    args: &[Vec<u8>],
) -> Result<(), CaseFault> {
    let [files, lines @ ..] = args else {
        return Err(CaseFault::BadArguments);
    };
    let files = pairs(alloc, files.as_slice())?;
    let (statements, tables) = read_lines(alloc, out, lines)?;
    match Filled::new(alloc, out, tables, files.as_slice())? {
        Some(filled) => show_conditions(alloc, out, asked, statements.as_slice(), &filled, state),
        None => Ok(()),
    }
}

/// `holds FILES LINE ..`: whether the condition of each rule holds that the lines of a
/// configuration spell, over the request, the connection and the variables that earlier lines left.
/// FILES are files with their texts, as `NAME=TEXT`, with `;` between, or `-`. Before that stand
/// the codes of the lines that spell no statement, why an entry of a file or an inline pattern is
/// none, and why an ACL can't be built.
pub fn holds_case(
    alloc: Global,
    state: &State,
    out: &mut String,
    args: &[Vec<u8>],
) -> Result<(), CaseFault> {
    conditions_case(alloc, state, out, Question::Holds, args)
}

/// `grounds FILES LINE ..`: the same, but by which conjunction a condition holds, and by what each
/// of its terms: `not`, `sample`, or the head and the number of an entry, as `HEAD:NUMBER`.
pub fn grounds_case(
    alloc: Global,
    state: &State,
    out: &mut String,
    args: &[Vec<u8>],
) -> Result<(), CaseFault> {
    conditions_case(alloc, state, out, Question::Grounds, args)
}
