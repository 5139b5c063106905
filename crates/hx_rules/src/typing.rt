ghost use Rattle.std.specs.Prelude.{◌≡◌, true};
ghost use Rattle.std.specs.List.{list_all};
ghost use Rattle.std.specs.Option.{option_map_or};
ghost use Rattle.hx_acl.specs.Typing.{is_cond_typed};
ghost use Rattle.hx_expr.specs.Types.{is_typed};
ghost use Rattle.hx_rules.specs.Building.{action_exprs, are_typed, format_exprs, is_statement_typed};

use hx_acl::{is_cond_typed, is_decl_typed};
use hx_ast::{Action, Cond, Format, Part, Rule, Statement};
use hx_expr::is_typed;

/// Whether there is a cast at each converter of the format's expressions.
fn is_format_typed(format: &Format) -> bool
    ensures { result ≡ list_all is_typed (format_exprs format.now) }
{
    for part in format.as_slice() {
        if let Part::Value(expr) = part {
            if !is_typed(expr) {
                return false;
            }
        }
    }
    true
}

/// The same of the expressions of an action.
fn is_action_typed(action: &Action) -> bool
    ensures { result ≡ list_all is_typed (action_exprs action.now) }
{
    match action {
        Action::Allow | Action::Deny(_) | Action::DelHeader(_) => true,
        Action::UnsetVar(_) | Action::StrictMode(_) => true,
        Action::SetHeader(_, format) | Action::AddHeader(_, format) => is_format_typed(format),
        Action::ReplaceHeader(_, _, format) => is_format_typed(format),
        Action::ReplaceValue(_, _, format) => is_format_typed(format),
        Action::SetMethod(format) | Action::SetUri(format) => is_format_typed(format),
        Action::SetPath(format) | Action::SetQuery(format) => is_format_typed(format),
        Action::SetVar(_, expr) => is_typed(expr),
        Action::AddAcl(_, key) | Action::DelAcl(_, key) => is_format_typed(key),
        Action::DelMap(_, key) => is_format_typed(key),
        Action::SetMap(_, key, value) => is_format_typed(key) && is_format_typed(value),
        Action::Redirect(_, format, _, _) => is_format_typed(format),
    }
}

fn is_when_typed(cond: &Option<Cond>) -> bool
    ensures { result ≡ option_map_or is_cond_typed cond.now true }
{
    match cond {
        Some(cond) => is_cond_typed(cond.as_slice()),
        None => true,
    }
}

fn is_rule_typed(rule: &Rule) -> bool
    ensures { result ≡ are_typed (action_exprs rule.now.action) rule.now.cond }
{
    is_action_typed(&rule.action) && is_when_typed(&rule.cond)
}

/// Whether there is a cast at each converter of the statement's expressions, and one of the values
/// of its ACLs to the types that their match methods look at.
pub(crate) fn is_statement_typed(statement: &Statement) -> bool
    ensures { result ≡ is_statement_typed statement.now }
{
    match statement {
        Statement::Plain | Statement::Fallback { .. } => true,
        Statement::Acl { decl, .. } => is_decl_typed(decl),
        Statement::Rule(rule) | Statement::Redirect(rule) => is_rule_typed(rule),
        Statement::Backend { format, cond, .. } => is_format_typed(format) && is_when_typed(cond),
    }
}
