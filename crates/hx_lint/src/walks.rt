ghost use Rattle.std.specs.Prelude.{◌≡◌, false};
ghost use Rattle.std.specs.List.{list_any};
ghost use Rattle.std.specs.Option.{option_map_or};
ghost use Rattle.hx_lint.specs.Features.{expr_passes, feature_view, use_has};
ghost use Rattle.hx_lint.specs.Walks.{action_passes, cond_passes, filled_passes, format_passes};
ghost use Rattle.hx_lint.specs.Walks.{part_passes, use_passes};

use crate::features::{Feature, expr_passes, use_has};
use hx_ast::{Action, Cond, Conj, Format, Part, Statement};

fn part_passes(feature: Feature<'_>, part: &Part) -> bool
    ensures { result ≡ part_passes (expr_passes (feature_view feature.entry)) part.now }
{
    match part {
        Part::Text(_) => false,
        Part::Value(expr) => expr_passes(feature, expr),
    }
}

/// Whether one of the expressions of a format has a feature.
fn format_passes(feature: Feature<'_>, format: &Format) -> bool
    ensures { result ≡ format_passes (expr_passes (feature_view feature.entry)) format.now }
{
    format
        .as_slice()
        .iter()
        .any(|part| part_passes(feature, part))
}

/// The same of those of an action.
fn action_passes(feature: Feature<'_>, action: &Action) -> bool
    ensures { result ≡ action_passes (expr_passes (feature_view feature.entry)) action.now }
{
    match action {
        Action::SetHeader(_, format) => format_passes(feature, format),
        Action::AddHeader(_, format) => format_passes(feature, format),
        Action::ReplaceHeader(_, _, format) => format_passes(feature, format),
        Action::ReplaceValue(_, _, format) => format_passes(feature, format),
        Action::SetMethod(format) => format_passes(feature, format),
        Action::SetUri(format) => format_passes(feature, format),
        Action::SetPath(format) => format_passes(feature, format),
        Action::SetQuery(format) => format_passes(feature, format),
        Action::SetVar(_, expr) => expr_passes(feature, expr),
        Action::AddAcl(_, key) => format_passes(feature, key),
        Action::DelAcl(_, key) => format_passes(feature, key),
        Action::DelMap(_, key) => format_passes(feature, key),
        Action::SetMap(_, key, value) => {
            format_passes(feature, key) || format_passes(feature, value)
        }
        Action::Redirect(_, format, _, _) => format_passes(feature, format),
        _ => false,
    }
}

/// The same of those that a statement fills in where it is taken.
pub(crate) fn filled_passes(feature: Feature<'_>, statement: &Statement) -> bool
    ensures { result ≡ filled_passes (expr_passes (feature_view feature.entry)) statement.now }
{
    match statement {
        Statement::Rule(rule) => action_passes(feature, &rule.action),
        Statement::Redirect(rule) => action_passes(feature, &rule.action),
        Statement::Backend { format, .. } => format_passes(feature, format),
        _ => false,
    }
}

/// Whether one of the ACLs of a conjunction has a feature.
fn conj_passes(feature: Feature<'_>, conj: &Conj) -> bool
    ensures { result ≡ list_any (λ term. use_has (feature_view feature.entry) term.acl) conj.now }
{
    conj.as_slice()
        .iter()
        .any(|term| use_has(feature, &term.acl))
}

/// The same of those of a condition.
fn cond_passes(feature: Feature<'_>, cond: &Cond) -> bool
    ensures { result ≡ cond_passes (use_has (feature_view feature.entry)) cond.now }
{
    cond.as_slice()
        .iter()
        .any(|conj| conj_passes(feature, conj))
}

/// The same where there is a condition.
fn some_cond_passes(feature: Feature<'_>, cond: &Option<Cond>) -> bool
    ensures { result
        ≡ option_map_or (cond_passes (use_has (feature_view feature.entry))) cond.now false }
{
    match cond {
        Some(cond) => cond_passes(feature, cond),
        None => false,
    }
}

/// Whether one of the ACLs of a statement's condition has a feature.
pub(crate) fn use_passes(feature: Feature<'_>, statement: &Statement) -> bool
    ensures { result ≡ use_passes (use_has (feature_view feature.entry)) statement.now }
{
    match statement {
        Statement::Rule(rule) => some_cond_passes(feature, &rule.cond),
        Statement::Redirect(rule) => some_cond_passes(feature, &rule.cond),
        Statement::Backend { cond, .. } => some_cond_passes(feature, cond),
        _ => false,
    }
}
