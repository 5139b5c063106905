ghost use Rattle.std.specs.Prelude.{◌≡◌, false};
ghost use Rattle.std.specs.List.{list_any};
ghost use Rattle.hx_lint.specs.Features.{are_mixed, asks_method, decl_passes, declared_passes};
ghost use Rattle.hx_lint.specs.Features.{declares, declares_method, expr_passes, feature_view, is_cached};
ghost use Rattle.hx_lint.specs.Features.{is_method_name, is_mixed, is_mixed_at};
ghost use Rattle.hx_lint.specs.Features.{is_predefined_localhost, is_predefined_method};
ghost use Rattle.hx_lint.specs.Features.{map_is_mixed, name_passes, parts_pass, statement_declares};
ghost use Rattle.hx_lint.specs.Features.{statement_declares_method, statement_passes, use_has};

use crate::acl_topics::{AclTopic, acl_has};
use crate::expr_topics::{ExprTopic, expr_has, is_method};
use crate::judging::{JudgedLine, Judgement};
use crate::walks::{filled_passes, use_passes};
use hx_ast::{AclUse, Conv, Decl, Expr, Statement};
use hx_spell::HeadSpec;
use hx_text::By;

/// What expressions and ACLs of a statement may have.
#[derive(Clone, Copy)]
pub enum Feature<'c> {
    /// whether an expression shows this topic
    Expr(ExprTopic),
    /// whether an ACL shows this topic
    Acl(AclTopic),
    /// whether the method is asked for, also by the name of an ACL, where these are all lines
    Method(&'c [JudgedLine]),
    /// whether a predefined ACL asks for the method, where these are all lines
    PredefinedMethod(&'c [JudgedLine]),
    /// whether the predefined ACL `LOCALHOST` is named, where these are all lines
    Localhost(&'c [JudgedLine]),
    /// whether a file is searched by two methods whose answers HAProxy keeps in one cache, where
    /// these are all heads
    Mixed(&'c [HeadSpec]),
}

/// Whether a statement declares an ACL of this name.
fn statement_declares(name: &[u8], statement: &Statement) -> bool
    ensures { result ≡ statement_declares name.now statement.now }
{
    match statement {
        Statement::Acl { name: other, .. } => other.as_slice() == name,
        _ => false,
    }
}

/// Whether a line declares an ACL of this name.
fn declares(name: &[u8], line: &JudgedLine) -> bool
    ensures { result ≡ declares name.now line.now }
{
    match &line.judgement {
        Judgement::Taken { statement, .. } => statement_declares(name, statement),
        Judgement::Refused { .. } => false,
    }
}

/// Whether a statement declares an ACL of this name that asks for the method.
fn statement_declares_method(name: &[u8], statement: &Statement) -> bool
    ensures { result ≡ statement_declares_method name.now statement.now }
{
    match statement {
        Statement::Acl {
            name: other,
            decl,
            ..
        } => { other.as_slice() == name && is_method(&decl.expr.fetch) }
        _ => false,
    }
}

/// The same of a line.
fn declares_method(name: &[u8], line: &JudgedLine) -> bool
    ensures { result ≡ declares_method name.now line.now }
{
    match &line.judgement {
        Judgement::Taken { statement, .. } => statement_declares_method(name, statement),
        Judgement::Refused { .. } => false,
    }
}

/// Whether one of the lines declares an ACL of this name.
fn one_declares(name: &[u8], lines: &[JudgedLine]) -> bool
    ensures { result ≡ list_any (declares name.now) lines.now }
{
    lines.iter().any(|line| declares(name, line))
}

/// The same of an ACL that asks for the method.
fn one_declares_method(name: &[u8], lines: &[JudgedLine]) -> bool
    ensures { result ≡ list_any (declares_method name.now) lines.now }
{
    lines.iter().any(|line| declares_method(name, line))
}

/// Whether the name begins as those of the predefined ACLs that ask for the method.
fn is_method_name(name: &[u8]) -> bool
    ensures { result ≡ is_method_name name.now }
{
    name.starts_with(b"METH_")
}

/// Whether the name is that of one of these predefined ACLs, and no line declares it.
fn is_predefined_method(lines: &[JudgedLine], name: &[u8]) -> bool
    ensures { result ≡ is_predefined_method lines.now name.now }
{
    is_method_name(name) && !one_declares(name, lines)
}

/// Whether the name is `LOCALHOST`, and no line declares it.
fn is_predefined_localhost(lines: &[JudgedLine], name: &[u8]) -> bool
    ensures { result ≡ is_predefined_localhost lines.now name.now }
{
    name == b"LOCALHOST".as_slice() && !one_declares(name, lines)
}

/// Whether the ACL of this name asks for the method.
fn asks_method(lines: &[JudgedLine], name: &[u8]) -> bool
    ensures { result ≡ asks_method lines.now name.now }
{
    is_predefined_method(lines, name) || one_declares_method(name, lines)
}

/// Whether HAProxy keeps what a method answers over a file in the one cache.
fn is_cached(by: By) -> bool
    ensures { result ≡ is_cached by }
{
    match by {
        By::End | By::Sub | By::Dir | By::Dom => true,
        _ => false,
    }
}

/// Whether two heads search one reference by two of these methods.
fn are_mixed(head: &HeadSpec, other: &HeadSpec) -> bool
    ensures { result ≡ are_mixed head.now other.now }
{
    other.table == head.table
        && is_cached(head.by)
        && is_cached(other.by)
        && other.by.number() != head.by.number()
}

fn is_mixed(heads: &[HeadSpec], head: &HeadSpec) -> bool
    ensures { result ≡ is_mixed heads.now head.now }
{
    heads.iter().any(|other| are_mixed(head, other))
}

/// Whether the head with this number is one of two such.
fn is_mixed_at(heads: &[HeadSpec], number: u32) -> bool
    ensures { result ≡ is_mixed_at heads.now number }
{
    match heads.get(number as usize) {
        Some(head) => is_mixed(heads, head),
        None => false,
    }
}

/// Whether one of the heads with these numbers is.
fn one_is_mixed(heads: &[HeadSpec], numbers: &[u32]) -> bool
    ensures { result ≡ list_any (is_mixed_at heads.now) numbers.now }
{
    numbers.iter().any(|number| is_mixed_at(heads, *number))
}

/// Whether a converter looks up by such a head.
fn map_is_mixed(heads: &[HeadSpec], conv: &Conv) -> bool
    ensures { result ≡ map_is_mixed heads.now conv.now }
{
    match conv {
        Conv::Map(head, _, _, _) => is_mixed_at(heads, *head),
        _ => false,
    }
}

fn one_map_is_mixed(heads: &[HeadSpec], convs: &[Conv]) -> bool
    ensures { result ≡ list_any (map_is_mixed heads.now) convs.now }
{
    convs.iter().any(|conv| map_is_mixed(heads, conv))
}

/// Whether an expression has a feature.
pub(crate) fn expr_passes(feature: Feature<'_>, expr: &Expr) -> bool
    ensures { result ≡ expr_passes (feature_view feature.entry) expr.now }
{
    match feature {
        Feature::Expr(topic) => expr_has(topic, expr),
        Feature::Acl(_) => false,
        Feature::Method(_) => is_method(&expr.fetch),
        Feature::PredefinedMethod(_) => false,
        Feature::Localhost(_) => false,
        Feature::Mixed(heads) => one_map_is_mixed(heads, expr.convs.as_slice()),
    }
}

/// Whether an ACL has a feature by what it has beside its expression.
fn parts_pass(feature: Feature<'_>, decl: &Decl) -> bool
    ensures { result ≡ parts_pass (feature_view feature.entry) decl.now }
{
    match feature {
        Feature::Expr(_) => false,
        Feature::Acl(topic) => acl_has(topic, decl),
        Feature::Method(_) => false,
        Feature::PredefinedMethod(_) => false,
        Feature::Localhost(_) => false,
        Feature::Mixed(heads) => one_is_mixed(heads, decl.heads.as_slice()),
    }
}

/// Whether an ACL has a feature.
fn decl_passes(feature: Feature<'_>, decl: &Decl) -> bool
    ensures { result ≡ decl_passes (feature_view feature.entry) decl.now }
{
    expr_passes(feature, &decl.expr) || parts_pass(feature, decl)
}

/// Whether the name of an ACL has a feature.
fn name_passes(feature: Feature<'_>, name: &[u8]) -> bool
    ensures { result ≡ name_passes (feature_view feature.entry) name.now }
{
    match feature {
        Feature::Expr(_) => false,
        Feature::Acl(_) => false,
        Feature::Method(lines) => asks_method(lines, name),
        Feature::PredefinedMethod(lines) => is_predefined_method(lines, name),
        Feature::Localhost(lines) => is_predefined_localhost(lines, name),
        Feature::Mixed(_) => false,
    }
}

/// Whether the ACL of a term has a feature.
pub(crate) fn use_has(feature: Feature<'_>, acl: &AclUse) -> bool
    ensures { result ≡ use_has (feature_view feature.entry) acl.now }
{
    match acl {
        AclUse::Named(name) => name_passes(feature, name.as_slice()),
        AclUse::Own(decl) => decl_passes(feature, decl),
    }
}

/// Whether a statement declares an ACL that has a feature.
fn declared_passes(feature: Feature<'_>, statement: &Statement) -> bool
    ensures { result ≡ declared_passes (feature_view feature.entry) statement.now }
{
    match statement {
        Statement::Acl { decl, .. } => decl_passes(feature, decl),
        _ => false,
    }
}

/// Whether an expression or an ACL of a statement has a feature.
pub(crate) fn statement_passes(feature: Feature<'_>, statement: &Statement) -> bool
    ensures { result ≡ statement_passes (feature_view feature.entry) statement.now }
{
    filled_passes(feature, statement)
        || declared_passes(feature, statement)
        || use_passes(feature, statement)
}
