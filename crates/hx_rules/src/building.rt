ghost use Rattle.std.specs.Prelude.{◌≡◌, ◌&&◌, ◌++◌, Contains, IfOk, OnOk, IsErrOf, Some, true, false};
ghost use Rattle.std.specs.List.{list_all};
ghost use Rattle.std.specs.Option.{option_map_or};
ghost use Rattle.hx_acl.specs.Expressions.{cond_has_expressions, has_expressions};
ghost use Rattle.hx_acl.specs.Typing.{is_cond_typed};
ghost use Rattle.hx_ast.specs.declared.action.Action.TheVariants as action;
ghost use Rattle.hx_expr.specs.Faults.{CompileCountsLarge};
ghost use Rattle.hx_expr.specs.Types.{is_typed};
ghost use Rattle.hx_rules.specs.ActionView.{are_expressions, change_key, edit_format, is_change, replacing_action};
ghost use Rattle.hx_rules.specs.Building.{action_exprs, action_texts, are_typed, backend_rule, backend_texts, exprs_texts, format_exprs, part_exprs, rule_has_expressions, rule_texts, when_texts};
ghost use Rattle.hx_rules.specs.ProgramView.{action_of_built, action_of_change, action_of_rewrite};
ghost use Rattle.hx_rules.specs.Rewriting.{is_rewrite};

use crate::action::{BuiltAction, BuiltRedirect, Rewrite, TableChange};
use crate::format::{BuiltFormat, BuiltPart, PartPlan};
use crate::pattern::Pattern;
use crate::program::{BuiltBackend, BuiltRule};
use hx_acl::Condition;
use hx_ast::{Action, Cond, Expr, Format, Items, Part, RedirectKind, Rule};
use hx_expr::{PlanFault, compile};
use hx_outside::ReMaker;
use hx_text::{NoMemory, Octets, VarName};
use std::alloc::Global;

fn copied(alloc: Global, text: &Octets) -> Result<Octets, NoMemory>
    ensures { IfOk result (λ copied. copied ≡ text.now) }
{
    Octets::copy(alloc, text.as_slice())
}

fn copied_name(alloc: Global, name: &VarName) -> Result<VarName, NoMemory>
    ensures { IfOk result (λ copied. copied ≡ name.now) }
{
    Ok(VarName {
        scope: name.scope,
        name: copied(alloc, &name.name)?,
    })
}

/// A part of a format, built.
fn build_part<M: ReMaker>(alloc: Global, part: &Part, maker: &mut M) -> Result<BuiltPart, PlanFault>
    requires { list_all is_typed (part_exprs part.now) ≡ true }
    ensures built { IfOk result (λ built. built ≡ part.now) }
    ensures expressions { OnOk result (list_all has_expressions (part_exprs part.now) ≡ true) }
    ensures typed { ¬ (IsErrOf result PlanFault.BadType) }
    ensures bad { IsErrOf result PlanFault.BadPattern
        → list_all has_expressions (part_exprs part.now) ≡ false }
    ensures large { CompileCountsLarge result (Contains (exprs_texts (part_exprs part.now)))
        (M.state maker.old) (M.state maker.new) }
{
    match part {
        Part::Text(bytes) => Ok(BuiltPart {
            plan: PartPlan::Text(copied(alloc, bytes)?),
        }),
        Part::Value(expr) => Ok(BuiltPart {
            plan: PartPlan::Value(compile(alloc, expr, maker)?),
        }),
    }
}

/// The parts of a format, each built, in their order.
fn build_format<M: ReMaker>(
    alloc: Global,
    format: &Format,
    maker: &mut M,
) -> Result<BuiltFormat, PlanFault>
    requires { list_all is_typed (format_exprs format.now) ≡ true }
    ensures built { IfOk result (λ built. built ≡ format.now) }
    ensures expressions { OnOk result
        (list_all has_expressions (format_exprs format.now) ≡ true) }
    ensures typed { ¬ (IsErrOf result PlanFault.BadType) }
    ensures bad { IsErrOf result PlanFault.BadPattern
        → list_all has_expressions (format_exprs format.now) ≡ false }
    ensures large { CompileCountsLarge result (Contains (exprs_texts (format_exprs format.now)))
        (M.state maker.old) (M.state maker.new) }
{
    let mut built = Items::new(alloc);
    for part in format.as_slice() {
        built.push(build_part(alloc, part, maker)?)?;
    }
    Ok(built)
}

/// What is kept of an action that rewrites the head by a format alone, with the format built.
fn rewrite_with_format(
    alloc: Global,
    action: &Action,
    format: BuiltFormat,
) -> Result<Rewrite, NoMemory>
    requires { edit_format action.now ≡ Some format }
    ensures { IfOk result (λ built. action_of_rewrite built ≡ action.now) }
{
    match action {
        Action::SetHeader(name, _) => Ok(Rewrite::SetHeader(copied(alloc, name)?, format)),
        Action::AddHeader(name, _) => Ok(Rewrite::AddHeader(copied(alloc, name)?, format)),
        Action::SetMethod(_) => Ok(Rewrite::SetMethod(format)),
        Action::SetUri(_) => Ok(Rewrite::SetUri(format)),
        Action::SetPath(_) => Ok(Rewrite::SetPath(format)),
        Action::SetQuery(_) => Ok(Rewrite::SetQuery(format)),
        _ => unreachable!(),
    }
}

/// An action that rewrites the head by a format alone, built.
fn build_edit<M: ReMaker>(
    alloc: Global,
    action: &Action,
    format: &Format,
    maker: &mut M,
) -> Result<BuiltAction, PlanFault>
    requires format { edit_format action.now ≡ Some format.now }
    requires typed { list_all is_typed (format_exprs format.now) ≡ true }
    ensures built { IfOk result (λ built. action_of_built built ≡ action.now) }
    ensures expressions { OnOk result
        (list_all has_expressions (format_exprs format.now) ≡ true) }
    ensures typed { ¬ (IsErrOf result PlanFault.BadType) }
    ensures bad { IsErrOf result PlanFault.BadPattern
        → list_all has_expressions (format_exprs format.now) ≡ false }
    ensures large { CompileCountsLarge result (Contains (exprs_texts (format_exprs format.now)))
        (M.state maker.old) (M.state maker.new) }
{
    let format = build_format(alloc, format, maker)?;
    let rewrite = rewrite_with_format(alloc, action, format)?;
    Ok(BuiltAction::Rewrite(rewrite))
}

/// What is kept of an action that replaces values, with its parts built.
fn replacement(name: Octets, pattern: Pattern, format: BuiltFormat, each: bool) -> Rewrite
    ensures { action_of_rewrite result ≡ replacing_action each name pattern format }
{
    if each {
        Rewrite::ReplaceValue(name, pattern, format)
    } else {
        Rewrite::ReplaceHeader(name, pattern, format)
    }
}

/// An action that replaces values, each of those between commas or the whole of a line, built. Both
/// read the same texts.
fn build_replacement<M: ReMaker>(
    alloc: Global,
    name: &Octets,
    pattern: &Octets,
    format: &Format,
    each: bool,
    maker: &mut M,
) -> Result<BuiltAction, PlanFault>
    requires { list_all is_typed (format_exprs format.now) ≡ true }
    ensures built { IfOk result (λ built.
        action_of_built built ≡ replacing_action each name.now pattern.now format.now) }
    ensures expressions { OnOk result
        (are_expressions (replacing_action true name.now pattern.now format.now) ≡ true) }
    ensures typed { ¬ (IsErrOf result PlanFault.BadType) }
    ensures bad { IsErrOf result PlanFault.BadPattern
        → are_expressions (replacing_action true name.now pattern.now format.now) ≡ false }
    ensures large { CompileCountsLarge result
        (Contains (action_texts (replacing_action true name.now pattern.now format.now)))
        (M.state maker.old) (M.state maker.new) }
{
    let pattern = Pattern::build(alloc, pattern.as_slice(), maker)?;
    let format = build_format(alloc, format, maker)?;
    let name = copied(alloc, name)?;
    Ok(BuiltAction::Rewrite(replacement(name, pattern, format, each)))
}

/// An action that rewrites the head of the request, built.
fn build_rewrite<M: ReMaker>(
    alloc: Global,
    action: &Action,
    maker: &mut M,
) -> Result<BuiltAction, PlanFault>
    requires group { is_rewrite action.now ≡ true }
    requires typed { list_all is_typed (action_exprs action.now) ≡ true }
    ensures built { IfOk result (λ built. action_of_built built ≡ action.now) }
    ensures expressions { OnOk result (are_expressions action.now ≡ true) }
    ensures typed { ¬ (IsErrOf result PlanFault.BadType) }
    ensures bad { IsErrOf result PlanFault.BadPattern → are_expressions action.now ≡ false }
    ensures large { CompileCountsLarge result (Contains (action_texts action.now))
        (M.state maker.old) (M.state maker.new) }
{
    match action {
        Action::SetHeader(_, format) | Action::AddHeader(_, format) => {
            build_edit(alloc, action, format, maker)
        }
        Action::SetMethod(format) | Action::SetUri(format) => {
            build_edit(alloc, action, format, maker)
        }
        Action::SetPath(format) | Action::SetQuery(format) => {
            build_edit(alloc, action, format, maker)
        }
        Action::DelHeader(name) => {
            Ok(BuiltAction::Rewrite(Rewrite::DelHeader(copied(alloc, name)?)))
        }
        Action::ReplaceHeader(name, pattern, format) => {
            build_replacement(alloc, name, pattern, format, false, maker)
        }
        Action::ReplaceValue(name, pattern, format) => {
            build_replacement(alloc, name, pattern, format, true, maker)
        }
        _ => unreachable!(),
    }
}

/// What is kept of an action that changes a list by a key alone, with the key built.
fn change_by(action: &Action, key: BuiltFormat) -> TableChange
    requires { change_key action.now ≡ Some key }
    ensures { action_of_change result ≡ action.now }
{
    match action {
        Action::AddAcl(table, _) => TableChange::AddAcl(*table, key),
        Action::DelAcl(table, _) => TableChange::DelAcl(*table, key),
        Action::DelMap(table, _) => TableChange::DelMap(*table, key),
        _ => unreachable!(),
    }
}

/// An action that changes a list by a key alone, built.
fn build_key_change<M: ReMaker>(
    alloc: Global,
    action: &Action,
    key: &Format,
    maker: &mut M,
) -> Result<BuiltAction, PlanFault>
    requires key { change_key action.now ≡ Some key.now }
    requires typed { list_all is_typed (format_exprs key.now) ≡ true }
    ensures built { IfOk result (λ built. action_of_built built ≡ action.now) }
    ensures expressions { OnOk result (list_all has_expressions (format_exprs key.now) ≡ true) }
    ensures typed { ¬ (IsErrOf result PlanFault.BadType) }
    ensures bad { IsErrOf result PlanFault.BadPattern
        → list_all has_expressions (format_exprs key.now) ≡ false }
    ensures large { CompileCountsLarge result (Contains (exprs_texts (format_exprs key.now)))
        (M.state maker.old) (M.state maker.new) }
{
    let key = build_format(alloc, key, maker)?;
    Ok(BuiltAction::Change(change_by(action, key)))
}

/// An action that gives a key of a map a value, built.
fn build_map_change<M: ReMaker>(
    alloc: Global,
    table: u32,
    key: &Format,
    value: &Format,
    maker: &mut M,
) -> Result<BuiltAction, PlanFault>
    requires { list_all is_typed (format_exprs key.now ++ format_exprs value.now) ≡ true }
    ensures built { IfOk result (λ built.
        action_of_built built ≡ action.SetMap table key.now value.now) }
    ensures expressions { OnOk result
        (are_expressions (action.SetMap table key.now value.now) ≡ true) }
    ensures typed { ¬ (IsErrOf result PlanFault.BadType) }
    ensures bad { IsErrOf result PlanFault.BadPattern
        → are_expressions (action.SetMap table key.now value.now) ≡ false }
    ensures large { CompileCountsLarge result
        (Contains (action_texts (action.SetMap table key.now value.now)))
        (M.state maker.old) (M.state maker.new) }
{
    let key = build_format(alloc, key, maker)?;
    let value = build_format(alloc, value, maker)?;
    Ok(BuiltAction::Change(TableChange::SetMap(table, key, value)))
}

/// An action that changes a list, built.
fn build_change<M: ReMaker>(
    alloc: Global,
    action: &Action,
    maker: &mut M,
) -> Result<BuiltAction, PlanFault>
    requires group { is_change action.now ≡ true }
    requires typed { list_all is_typed (action_exprs action.now) ≡ true }
    ensures built { IfOk result (λ built. action_of_built built ≡ action.now) }
    ensures expressions { OnOk result (are_expressions action.now ≡ true) }
    ensures typed { ¬ (IsErrOf result PlanFault.BadType) }
    ensures bad { IsErrOf result PlanFault.BadPattern → are_expressions action.now ≡ false }
    ensures large { CompileCountsLarge result (Contains (action_texts action.now))
        (M.state maker.old) (M.state maker.new) }
{
    match action {
        Action::AddAcl(_, key) | Action::DelAcl(_, key) => {
            build_key_change(alloc, action, key, maker)
        }
        Action::DelMap(_, key) => build_key_change(alloc, action, key, maker),
        Action::SetMap(table, key, value) => build_map_change(alloc, *table, key, value, maker),
        _ => unreachable!(),
    }
}

/// An action that sets a variable, built.
fn build_set_var<M: ReMaker>(
    alloc: Global,
    name: &VarName,
    expr: &Expr,
    maker: &mut M,
) -> Result<BuiltAction, PlanFault>
    requires { is_typed expr.now ≡ true }
    ensures built { IfOk result (λ built.
        action_of_built built ≡ action.SetVar name.now expr.now) }
    ensures expressions { OnOk result
        (are_expressions (action.SetVar name.now expr.now) ≡ true) }
    ensures typed { ¬ (IsErrOf result PlanFault.BadType) }
    ensures bad { IsErrOf result PlanFault.BadPattern
        → are_expressions (action.SetVar name.now expr.now) ≡ false }
    ensures large { CompileCountsLarge result
        (Contains (action_texts (action.SetVar name.now expr.now)))
        (M.state maker.old) (M.state maker.new) }
{
    let plan = compile(alloc, expr, maker)?;
    let name = copied_name(alloc, name)?;
    Ok(BuiltAction::SetVar(name, plan))
}

/// An action that sends the client elsewhere, built.
fn build_redirect<M: ReMaker>(
    alloc: Global,
    kind: RedirectKind,
    format: &Format,
    status: Option<u16>,
    drop_query: bool,
    maker: &mut M,
) -> Result<BuiltAction, PlanFault>
    requires { list_all is_typed (format_exprs format.now) ≡ true }
    ensures built { IfOk result (λ built.
        action_of_built built ≡ action.Redirect kind format.now status drop_query) }
    ensures expressions { OnOk result
        (list_all has_expressions (format_exprs format.now) ≡ true) }
    ensures typed { ¬ (IsErrOf result PlanFault.BadType) }
    ensures bad { IsErrOf result PlanFault.BadPattern
        → list_all has_expressions (format_exprs format.now) ≡ false }
    ensures large { CompileCountsLarge result (Contains (exprs_texts (format_exprs format.now)))
        (M.state maker.old) (M.state maker.new) }
{
    let format = build_format(alloc, format, maker)?;
    Ok(BuiltAction::Redirect(BuiltRedirect {
        kind,
        format,
        status,
        drop_query,
    }))
}

/// An action, built.
fn build_action<M: ReMaker>(
    alloc: Global,
    action: &Action,
    maker: &mut M,
) -> Result<BuiltAction, PlanFault>
    requires { list_all is_typed (action_exprs action.now) ≡ true }
    ensures built { IfOk result (λ built. action_of_built built ≡ action.now) }
    ensures expressions { OnOk result (are_expressions action.now ≡ true) }
    ensures typed { ¬ (IsErrOf result PlanFault.BadType) }
    ensures bad { IsErrOf result PlanFault.BadPattern → are_expressions action.now ≡ false }
    ensures large { CompileCountsLarge result (Contains (action_texts action.now))
        (M.state maker.old) (M.state maker.new) }
{
    match action {
        Action::Allow => Ok(BuiltAction::Allow),
        Action::Deny(status) => Ok(BuiltAction::Deny(*status)),
        Action::SetHeader(_, _) | Action::AddHeader(_, _) => build_rewrite(alloc, action, maker),
        Action::DelHeader(_) => build_rewrite(alloc, action, maker),
        Action::ReplaceHeader(_, _, _) => build_rewrite(alloc, action, maker),
        Action::ReplaceValue(_, _, _) => build_rewrite(alloc, action, maker),
        Action::SetMethod(_) | Action::SetUri(_) => build_rewrite(alloc, action, maker),
        Action::SetPath(_) | Action::SetQuery(_) => build_rewrite(alloc, action, maker),
        Action::SetVar(name, expr) => build_set_var(alloc, name, expr, maker),
        Action::UnsetVar(name) => Ok(BuiltAction::UnsetVar(copied_name(alloc, name)?)),
        Action::AddAcl(_, _) | Action::DelAcl(_, _) => build_change(alloc, action, maker),
        Action::DelMap(_, _) | Action::SetMap(_, _, _) => build_change(alloc, action, maker),
        Action::Redirect(kind, format, status, drop_query) => {
            build_redirect(alloc, *kind, format, *status, *drop_query, maker)
        }
        Action::StrictMode(on) => Ok(BuiltAction::StrictMode(*on)),
    }
}

/// When a rule is taken, built.
fn build_when<M: ReMaker>(
    alloc: Global,
    cond: &Option<Cond>,
    maker: &mut M,
) -> Result<Option<Condition>, PlanFault>
    requires { option_map_or is_cond_typed cond.now true ≡ true }
    ensures built { IfOk result (λ built. built ≡ cond.now) }
    ensures expressions { OnOk result
        (option_map_or cond_has_expressions cond.now true ≡ true) }
    ensures typed { ¬ (IsErrOf result PlanFault.BadType) }
    ensures bad { IsErrOf result PlanFault.BadPattern
        → option_map_or cond_has_expressions cond.now true ≡ false }
    ensures large { CompileCountsLarge result (Contains (when_texts cond.now))
        (M.state maker.old) (M.state maker.new) }
{
    match cond {
        Some(cond) => Ok(Some(Condition::build(alloc, cond, maker)?)),
        None => Ok(None),
    }
}

/// A rule, built.
pub(crate) fn build_rule<M: ReMaker>(
    alloc: Global,
    rule: &Rule,
    maker: &mut M,
) -> Result<BuiltRule, PlanFault>
    requires { are_typed (action_exprs rule.now.action) rule.now.cond ≡ true }
    ensures built { IfOk result (λ built. built ≡ rule.now) }
    ensures expressions { OnOk result (rule_has_expressions rule.now ≡ true) }
    ensures typed { ¬ (IsErrOf result PlanFault.BadType) }
    ensures bad { IsErrOf result PlanFault.BadPattern → rule_has_expressions rule.now ≡ false }
    ensures large { CompileCountsLarge result (Contains (rule_texts rule.now))
        (M.state maker.old) (M.state maker.new) }
{
    let action = build_action(alloc, &rule.action, maker)?;
    let cond = build_when(alloc, &rule.cond, maker)?;
    Ok(BuiltRule {
        line: rule.line,
        action,
        unless: rule.unless,
        cond,
    })
}

/// A rule of `use_backend`, built.
pub(crate) fn build_backend<M: ReMaker>(
    alloc: Global,
    line: u64,
    format: &Format,
    unless: bool,
    cond: &Option<Cond>,
    maker: &mut M,
) -> Result<BuiltBackend, PlanFault>
    requires format { list_all is_typed (format_exprs format.now) ≡ true }
    requires cond { option_map_or is_cond_typed cond.now true ≡ true }
    ensures built { IfOk result (λ built. built
        ≡ backend_rule line format.now unless cond.now) }
    ensures expressions { OnOk result ((list_all has_expressions (format_exprs format.now)
        && option_map_or cond_has_expressions cond.now true) ≡ true) }
    ensures typed { ¬ (IsErrOf result PlanFault.BadType) }
    ensures bad { IsErrOf result PlanFault.BadPattern
        → (list_all has_expressions (format_exprs format.now)
        && option_map_or cond_has_expressions cond.now true) ≡ false }
    ensures large { CompileCountsLarge result (Contains (backend_texts format.now cond.now))
        (M.state maker.old) (M.state maker.new) }
{
    let format = build_format(alloc, format, maker)?;
    let cond = build_when(alloc, cond, maker)?;
    Ok(BuiltBackend {
        line,
        format,
        unless,
        cond,
    })
}
