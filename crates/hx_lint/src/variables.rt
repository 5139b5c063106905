ghost use Rattle.std.specs.Prelude.{◌≡◌, ◌++◌, flat_map, OnOk};
ghost use Rattle.std.specs.List.{list_any};
ghost use Rattle.hx_lint.specs.Variables.{action_sets, action_told, cond_told, conj_told, conv_told};
ghost use Rattle.hx_lint.specs.Variables.{expr_told, fetch_told, format_told, is_same};
ghost use Rattle.hx_lint.specs.Variables.{name_told, operand_told, option_told};
ghost use Rattle.hx_lint.specs.Variables.{part_told, place_text, scope_text, sets};
ghost use Rattle.hx_lint.specs.Variables.{statement_sets, unset_line, unset_told, use_told};

use crate::judging::{JudgedLine, Judgement};
use hx_ast::{AclUse, Action, Cond, Conj, Conv, Expr, Fetch, Format, Part, Statement, Val};
use hx_text::{NoMemory, Scope, VarName};
use itoa::Buffer;

fn scope_text(scope: Scope) -> &'static [u8]
    ensures { result.now ≡ scope_text scope }
{
    match scope {
        Scope::Proc => b"proc",
        Scope::Sess => b"sess",
        Scope::Txn => b"txn",
        Scope::Req => b"req",
        Scope::Res => b"res",
    }
}

/// Whether two names are those of one variable.
fn is_same(one: &VarName, other: &VarName) -> bool
    ensures { result ≡ is_same one.now other.now }
{
    scope_text(one.scope) == scope_text(other.scope) && one.name.as_slice() == other.name.as_slice()
}

fn action_sets(name: &VarName, action: &Action) -> bool
    ensures { result ≡ action_sets name.now action.now }
{
    match action {
        Action::SetVar(other, _) => is_same(name, other),
        _ => false,
    }
}

fn statement_sets(name: &VarName, statement: &Statement) -> bool
    ensures { result ≡ statement_sets name.now statement.now }
{
    match statement {
        Statement::Rule(rule) => action_sets(name, &rule.action),
        _ => false,
    }
}

/// Whether a line sets the variable of this name.
fn sets(name: &VarName, line: &JudgedLine) -> bool
    ensures { result ≡ sets name.now line.now }
{
    match &line.judgement {
        Judgement::Taken { statement, .. } => statement_sets(name, statement),
        Judgement::Refused { .. } => false,
    }
}

fn one_sets(name: &VarName, lines: &[JudgedLine]) -> bool
    ensures { result ≡ list_any (sets name.now) lines.now }
{
    lines.iter().any(|line| sets(name, line))
}

/// Appends what begins all that is told of a line.
pub(crate) fn push_place(out: &mut Vec<u8>, number: u64) -> Result<(), NoMemory>
    ensures { OnOk result (out.new.items ≡ out.old.items ++ place_text number) }
{
    let mut digits = Buffer::new();
    out.extend_from_slice(digits.format(number).as_bytes())?;
    out.extend_from_slice(b" ")?;
    Ok(())
}

/// Appends that a variable is read and set nowhere.
fn push_unset(out: &mut Vec<u8>, number: u64, name: &VarName) -> Result<(), NoMemory>
    ensures { OnOk result (out.new.items ≡ out.old.items ++ unset_line number name.now) }
{
    push_place(out, number)?;
    out.extend_from_slice(b"unset ")?;
    out.extend_from_slice(scope_text(name.scope))?;
    out.extend_from_slice(b".")?;
    out.extend_from_slice(name.name.as_slice())?;
    out.extend_from_slice(b"\n")?;
    Ok(())
}

/// The same where none of the lines sets it.
fn push_name(
    out: &mut Vec<u8>,
    lines: &[JudgedLine],
    number: u64,
    name: &VarName,
) -> Result<(), NoMemory>
    ensures { OnOk result
        (out.new.items ≡ out.old.items ++ name_told lines.now number name.now) }
{
    if one_sets(name, lines) {
        return Ok(());
    }
    push_unset(out, number, name)
}

fn push_operand(
    out: &mut Vec<u8>,
    lines: &[JudgedLine],
    number: u64,
    operand: &Val,
) -> Result<(), NoMemory>
    ensures { OnOk result
        (out.new.items ≡ out.old.items ++ operand_told lines.now number operand.now) }
{
    match operand {
        Val::Number(_) => Ok(()),
        Val::Var(name) => push_name(out, lines, number, name),
    }
}

fn push_option(
    out: &mut Vec<u8>,
    lines: &[JudgedLine],
    number: u64,
    name: &Option<VarName>,
) -> Result<(), NoMemory>
    ensures { OnOk result
        (out.new.items ≡ out.old.items ++ option_told lines.now number name.now) }
{
    match name {
        Some(name) => push_name(out, lines, number, name),
        None => Ok(()),
    }
}

fn push_fetch(
    out: &mut Vec<u8>,
    lines: &[JudgedLine],
    number: u64,
    fetch: &Fetch,
) -> Result<(), NoMemory>
    ensures { OnOk result
        (out.new.items ≡ out.old.items ++ fetch_told lines.now number fetch.now) }
{
    match fetch {
        Fetch::Var(name, _) => push_name(out, lines, number, name),
        _ => Ok(()),
    }
}

fn push_conv(
    out: &mut Vec<u8>,
    lines: &[JudgedLine],
    number: u64,
    conv: &Conv,
) -> Result<(), NoMemory>
    ensures { OnOk result
        (out.new.items ≡ out.old.items ++ conv_told lines.now number conv.now) }
{
    match conv {
        Conv::Concat(_, name, _) => push_option(out, lines, number, name),
        Conv::Strcmp(name) => push_name(out, lines, number, name),
        Conv::Add(operand) => push_operand(out, lines, number, operand),
        Conv::Sub(operand) => push_operand(out, lines, number, operand),
        Conv::Mul(operand) => push_operand(out, lines, number, operand),
        Conv::Div(operand) => push_operand(out, lines, number, operand),
        Conv::Mod(operand) => push_operand(out, lines, number, operand),
        Conv::And(operand) => push_operand(out, lines, number, operand),
        Conv::Or(operand) => push_operand(out, lines, number, operand),
        Conv::Xor(operand) => push_operand(out, lines, number, operand),
        _ => Ok(()),
    }
}

fn push_convs(
    out: &mut Vec<u8>,
    lines: &[JudgedLine],
    number: u64,
    convs: &[Conv],
) -> Result<(), NoMemory>
    ensures { OnOk result
        (out.new.items ≡ out.old.items ++ flat_map (conv_told lines.now number) convs.now) }
{
    let mut rest = convs;
    while let [conv, others @ ..] = rest {
        push_conv(out, lines, number, conv)?;
        rest = others;
    }
    Ok(())
}

fn push_expr(
    out: &mut Vec<u8>,
    lines: &[JudgedLine],
    number: u64,
    expr: &Expr,
) -> Result<(), NoMemory>
    ensures { OnOk result
        (out.new.items ≡ out.old.items ++ expr_told lines.now number expr.now) }
{
    push_fetch(out, lines, number, &expr.fetch)?;
    push_convs(out, lines, number, expr.convs.as_slice())
}

fn push_part(
    out: &mut Vec<u8>,
    lines: &[JudgedLine],
    number: u64,
    part: &Part,
) -> Result<(), NoMemory>
    ensures { OnOk result
        (out.new.items ≡ out.old.items ++ part_told lines.now number part.now) }
{
    match part {
        Part::Text(_) => Ok(()),
        Part::Value(expr) => push_expr(out, lines, number, expr),
    }
}

fn push_format(
    out: &mut Vec<u8>,
    lines: &[JudgedLine],
    number: u64,
    format: &Format,
) -> Result<(), NoMemory>
    ensures { OnOk result
        (out.new.items ≡ out.old.items ++ format_told lines.now number format.now) }
{
    let mut rest = format.as_slice();
    while let [part, others @ ..] = rest {
        push_part(out, lines, number, part)?;
        rest = others;
    }
    Ok(())
}

fn push_action(
    out: &mut Vec<u8>,
    lines: &[JudgedLine],
    number: u64,
    action: &Action,
) -> Result<(), NoMemory>
    ensures { OnOk result
        (out.new.items ≡ out.old.items ++ action_told lines.now number action.now) }
{
    match action {
        Action::SetHeader(_, format) => push_format(out, lines, number, format),
        Action::AddHeader(_, format) => push_format(out, lines, number, format),
        Action::ReplaceHeader(_, _, format) => push_format(out, lines, number, format),
        Action::ReplaceValue(_, _, format) => push_format(out, lines, number, format),
        Action::SetMethod(format) => push_format(out, lines, number, format),
        Action::SetUri(format) => push_format(out, lines, number, format),
        Action::SetPath(format) => push_format(out, lines, number, format),
        Action::SetQuery(format) => push_format(out, lines, number, format),
        Action::SetVar(_, expr) => push_expr(out, lines, number, expr),
        Action::AddAcl(_, key) => push_format(out, lines, number, key),
        Action::DelAcl(_, key) => push_format(out, lines, number, key),
        Action::DelMap(_, key) => push_format(out, lines, number, key),
        Action::SetMap(_, key, value) => push_formats(out, lines, number, key, value),
        Action::Redirect(_, format, _, _) => push_format(out, lines, number, format),
        _ => Ok(()),
    }
}

fn push_formats(
    out: &mut Vec<u8>,
    lines: &[JudgedLine],
    number: u64,
    key: &Format,
    value: &Format,
) -> Result<(), NoMemory>
    ensures { OnOk result (out.new.items ≡ out.old.items
        ++ (format_told lines.now number key.now ++ format_told lines.now number value.now)) }
{
    push_format(out, lines, number, key)?;
    push_format(out, lines, number, value)
}

fn push_use(
    out: &mut Vec<u8>,
    lines: &[JudgedLine],
    number: u64,
    acl: &AclUse,
) -> Result<(), NoMemory>
    ensures { OnOk result (out.new.items ≡ out.old.items ++ use_told lines.now number acl.now) }
{
    match acl {
        AclUse::Named(_) => Ok(()),
        AclUse::Own(decl) => push_expr(out, lines, number, &decl.expr),
    }
}

fn push_conj(
    out: &mut Vec<u8>,
    lines: &[JudgedLine],
    number: u64,
    conj: &Conj,
) -> Result<(), NoMemory>
    ensures { OnOk result
        (out.new.items ≡ out.old.items ++ conj_told lines.now number conj.now) }
{
    let mut rest = conj.as_slice();
    while let [term, others @ ..] = rest {
        push_use(out, lines, number, &term.acl)?;
        rest = others;
    }
    Ok(())
}

fn push_conjs(
    out: &mut Vec<u8>,
    lines: &[JudgedLine],
    number: u64,
    cond: &Cond,
) -> Result<(), NoMemory>
    ensures { OnOk result
        (out.new.items ≡ out.old.items ++ flat_map (conj_told lines.now number) cond.now) }
{
    let mut rest = cond.as_slice();
    while let [conj, others @ ..] = rest {
        push_conj(out, lines, number, conj)?;
        rest = others;
    }
    Ok(())
}

fn push_cond(
    out: &mut Vec<u8>,
    lines: &[JudgedLine],
    number: u64,
    cond: &Option<Cond>,
) -> Result<(), NoMemory>
    ensures { OnOk result
        (out.new.items ≡ out.old.items ++ cond_told lines.now number cond.now) }
{
    match cond {
        Some(cond) => push_conjs(out, lines, number, cond),
        None => Ok(()),
    }
}

/// Appends the variables that a rule reads and none of the lines sets.
fn push_rule(
    out: &mut Vec<u8>,
    lines: &[JudgedLine],
    number: u64,
    action: &Action,
    cond: &Option<Cond>,
) -> Result<(), NoMemory>
    ensures { OnOk result (out.new.items ≡ out.old.items
        ++ (action_told lines.now number action.now ++ cond_told lines.now number cond.now)) }
{
    push_action(out, lines, number, action)?;
    push_cond(out, lines, number, cond)
}

/// The same of the choice of a backend.
fn push_backend(
    out: &mut Vec<u8>,
    lines: &[JudgedLine],
    number: u64,
    format: &Format,
    cond: &Option<Cond>,
) -> Result<(), NoMemory>
    ensures { OnOk result (out.new.items ≡ out.old.items
        ++ (format_told lines.now number format.now ++ cond_told lines.now number cond.now)) }
{
    push_format(out, lines, number, format)?;
    push_cond(out, lines, number, cond)
}

/// The same of a statement of the line with this number. `lines` are all lines.
pub(crate) fn push_unset_of(
    out: &mut Vec<u8>,
    lines: &[JudgedLine],
    number: u64,
    statement: &Statement,
) -> Result<(), NoMemory>
    ensures { OnOk result
        (out.new.items ≡ out.old.items ++ unset_told lines.now number statement.now) }
{
    match statement {
        Statement::Acl { decl, .. } => push_expr(out, lines, number, &decl.expr),
        Statement::Rule(rule) => push_rule(out, lines, number, &rule.action, &rule.cond),
        Statement::Redirect(rule) => push_rule(out, lines, number, &rule.action, &rule.cond),
        Statement::Backend { format, cond, .. } => push_backend(out, lines, number, format, cond),
        Statement::Plain => Ok(()),
        Statement::Fallback { .. } => Ok(()),
    }
}
