ghost use Rattle.std.specs.Prelude.{◌≡◌, ◌&&◌, ◌||◌, codes, false, IfOk};
ghost use Rattle.std.specs.List.{list_any};
ghost use Rattle.std.specs.Option.{option_copied, option_map_or};
ghost use Rattle.std.specs.Str.{bytes_eq};
ghost use Rattle.hx_ast.specs.Statements.{is_map};
ghost use Rattle.hx_lint.specs.CriterionTopics.{is_negative_text, line_words_have};
ghost use Rattle.hx_lint.specs.Features.{AclShows, AsksMethod, ExprShows, NamesMethod, statement_passes};
ghost use Rattle.hx_lint.specs.Topics.{computes_backend, context_view, ends_in_map, fills_redirect};
ghost use Rattle.hx_lint.specs.Topics.{is_after_change, is_computed, is_filled, line_sets_method};
ghost use Rattle.hx_lint.specs.Topics.{shows, statement_acts, statement_sets_method};

use crate::acl_topics::AclTopic;
use crate::action_topics::{ActionTopic, action_format, action_has, sets_method};
use crate::criterion_topics::{CriterionTopic, is_negative_text, line_words_have};
use crate::expr_topics::ExprTopic;
use crate::features::{Feature, statement_passes};
use crate::judging::{JudgedLine, Judgement};
use hx_ast::{Conv, Format, Part, Statement};
use hx_spell::HeadSpec;
use hx_text::{NoMemory, Octets};
use std::alloc::Global;

/// Where HAProxy is known to answer otherwise, as it shows in a line.
#[derive(Clone, Copy)]
pub enum Topic {
    /// a text is read or compared as a number
    TextAsNumber,
    /// the name of a backend is made from a request
    ComputedBackend,
    /// a pattern is a number below 0
    BelowZero,
    /// the statement `redirect` has a format that is filled in
    RedirectFormat,
    /// the method is asked for after a rule changed it
    ChangedMethod,
    /// the method is compared without regard to case
    MethodCase,
    /// a file is searched by two methods whose answers HAProxy keeps in one cache
    TwoMethods,
    /// something else than an address is made of the value of a map that gives addresses
    AfterAddress,
    /// `deny_status` has a status for which there is no error page
    NoErrorPage,
    /// the predefined ACL `LOCALHOST` is named
    Localhost,
    /// what an expression shows
    Expr(ExprTopic),
    /// what an ACL shows
    Acl(AclTopic),
    /// what an action shows
    Action(ActionTopic),
    /// what the words of an ACL show
    Criterion(CriterionTopic),
}

/// The topics with their names, which are the anchors of the rows of docs/manual/haproxy.md, in the
/// order of that page.
pub(crate) const TOPICS: [(Topic, &[u8]); 46] = [
    (Topic::TextAsNumber, b"text-as-number"),
    (Topic::Expr(ExprTopic::HeaderAsNumber), b"header-as-number"),
    (Topic::ComputedBackend, b"computed-backend"),
    (Topic::Acl(AclTopic::LostValues), b"lost-values"),
    (Topic::BelowZero, b"below-zero"),
    (Topic::Acl(AclTopic::LengthBelowZero), b"length-below-zero"),
    (Topic::RedirectFormat, b"redirect-format"),
    (
        Topic::Criterion(CriterionTopic::MethodInName),
        b"method-in-name",
    ),
    (Topic::ChangedMethod, b"changed-method"),
    (Topic::MethodCase, b"method-case"),
    (Topic::Acl(AclTopic::EmptyPattern), b"empty-pattern"),
    (
        Topic::Criterion(CriterionTopic::ConverterAsPattern),
        b"converter-as-pattern",
    ),
    (Topic::TwoMethods, b"two-methods"),
    (Topic::Action(ActionTopic::ControlByte), b"control-byte"),
    (
        Topic::Action(ActionTopic::HeaderLineEnd),
        b"line-end-in-header",
    ),
    (
        Topic::Action(ActionTopic::LocationLineEnd),
        b"line-end-in-location",
    ),
    (Topic::Action(ActionTopic::HostOrTarget), b"host-and-target"),
    (Topic::Action(ActionTopic::ReplacedValue), b"replace-value"),
    (Topic::Action(ActionTopic::EmptyTarget), b"empty-target"),
    (Topic::Action(ActionTopic::NoToken), b"method-no-token"),
    (
        Topic::Action(ActionTopic::PathWithoutSlash),
        b"path-without-slash",
    ),
    (Topic::Action(ActionTopic::Path), b"target-without-path"),
    (Topic::Action(ActionTopic::TargetByte), b"bytes-in-target"),
    (Topic::Action(ActionTopic::EmptyKey), b"empty-key"),
    (
        Topic::Action(ActionTopic::ResponseVariable),
        b"response-variable",
    ),
    (Topic::Expr(ExprTopic::Mask), b"mapped-address"),
    (Topic::Expr(ExprTopic::HexNumber), b"hex2i"),
    (Topic::Expr(ExprTopic::Base64), b"base64"),
    (Topic::Expr(ExprTopic::NegativeSum), b"negative-sum"),
    (Topic::Expr(ExprTopic::Cookie), b"cookies"),
    (
        Topic::Expr(ExprTopic::CookieWithoutName),
        b"cookie-without-name",
    ),
    (Topic::Expr(ExprTopic::Parameter), b"url-param"),
    (
        Topic::Expr(ExprTopic::DelimitedParameter),
        b"url-param-delimiter",
    ),
    (Topic::Expr(ExprTopic::Port), b"port-0"),
    (
        Topic::Expr(ExprTopic::HeaderAsAddress),
        b"address-with-port",
    ),
    (Topic::Expr(ExprTopic::Base), b"base"),
    (Topic::Expr(ExprTopic::MixedAddress), b"mixed-address"),
    (Topic::Acl(AclTopic::Delimiters), b"delimiters-alone"),
    (Topic::AfterAddress, b"after-address-map"),
    (Topic::Expr(ExprTopic::FarOccurrence), b"far-occurrence"),
    (Topic::Expr(ExprTopic::EmptyExpression), b"empty-expression"),
    (Topic::Expr(ExprTopic::EmptyBinary), b"empty-binary"),
    (Topic::Action(ActionTopic::EmptyFormat), b"empty-format"),
    (
        Topic::Criterion(CriterionTopic::NumberFirst),
        b"number-first",
    ),
    (Topic::NoErrorPage, b"no-error-page"),
    (Topic::Localhost, b"localhost"),
];

/// What a statement is judged among.
#[derive(Clone, Copy)]
pub struct Context<'c> {
    /// all lines of the configuration
    pub lines: &'c [JudgedLine],
    /// how its references are searched
    pub heads: &'c [HeadSpec],
    /// whether a line above changes the method
    pub above: bool,
    /// whether any line does
    pub anywhere: bool,
}

/// Whether the action of a statement shows a topic.
fn statement_acts(topic: ActionTopic, statement: &Statement) -> bool
    ensures { result ≡ statement_acts topic statement.now }
{
    match statement {
        Statement::Rule(rule) => action_has(topic, &rule.action),
        Statement::Redirect(rule) => action_has(topic, &rule.action),
        _ => false,
    }
}

fn has_percent(text: &[u8]) -> bool
    ensures { result ≡ is_filled (Part.Text text.now) }
{
    text.contains(&b'%')
}

/// Whether a part of a format is filled in, or is written with `%%`.
fn is_filled(part: &Part) -> bool
    ensures { result ≡ is_filled part.now }
{
    match part {
        Part::Text(bytes) => has_percent(bytes.as_slice()),
        Part::Value(_) => true,
    }
}

fn one_is_filled(parts: &[Part]) -> bool
    ensures { result ≡ list_any is_filled parts.now }
{
    parts.iter().any(|part| is_filled(part))
}

fn format_is_filled(format: Option<&Format>) -> bool
    ensures { result ≡ option_map_or (list_any is_filled) (option_copied format.entry) false }
{
    match format {
        Some(format) => one_is_filled(format.as_slice()),
        None => false,
    }
}

/// Whether it is the statement `redirect` with a format that is filled in.
fn fills_redirect(statement: &Statement) -> bool
    ensures { result ≡ fills_redirect statement.now }
{
    match statement {
        Statement::Redirect(rule) => format_is_filled(action_format(&rule.action)),
        _ => false,
    }
}

fn is_map(conv: &Conv) -> bool
    ensures { result ≡ is_map conv.now }
{
    match conv {
        Conv::Map(_, _, _, _) => true,
        _ => false,
    }
}

/// Whether the last of the converters is a map.
fn ends_in_map(convs: &[Conv]) -> bool
    ensures { result ≡ ends_in_map convs.now }
{
    let mut rest = convs;
    while let [conv, others @ ..] = rest {
        if is_map(conv) && others.is_empty() {
            return true;
        }
        rest = others;
    }
    false
}

fn is_computed(part: &Part) -> bool
    ensures { result ≡ is_computed part.now }
{
    match part {
        Part::Text(_) => false,
        Part::Value(expr) => !ends_in_map(expr.convs.as_slice()),
    }
}

fn one_is_computed(format: &Format) -> bool
    ensures { result ≡ list_any is_computed format.now }
{
    format.as_slice().iter().any(|part| is_computed(part))
}

/// Whether the name of a backend is made from a request, and by no map.
fn computes_backend(statement: &Statement) -> bool
    ensures { result ≡ computes_backend statement.now }
{
    match statement {
        Statement::Backend { format, .. } => one_is_computed(format),
        _ => false,
    }
}

fn statement_sets_method(statement: &Statement) -> bool
    ensures { result ≡ statement_sets_method statement.now }
{
    match statement {
        Statement::Rule(rule) => sets_method(&rule.action),
        _ => false,
    }
}

/// Whether a line changes the method.
pub(crate) fn line_sets_method(line: &JudgedLine) -> bool
    ensures { result ≡ line_sets_method line.now }
{
    match &line.judgement {
        Judgement::Taken { statement, .. } => statement_sets_method(statement),
        Judgement::Refused { .. } => false,
    }
}

/// Whether one of the lines does.
pub(crate) fn one_sets_method(lines: &[JudgedLine]) -> bool
    ensures { result ≡ list_any line_sets_method lines.now }
{
    lines.iter().any(|line| line_sets_method(line))
}

/// Whether the method may have been changed when a statement is judged.
fn is_after_change(above: bool, anywhere: bool, statement: &Statement) -> bool
    ensures { result ≡ is_after_change above anywhere statement.now }
{
    match statement {
        Statement::Rule(_) => above,
        Statement::Redirect(_) => anywhere,
        Statement::Backend { .. } => anywhere,
        _ => false,
    }
}

fn one_is_negative(words: &[Octets]) -> bool
    ensures { result ≡ list_any is_negative_text words.now }
{
    words.iter().any(|word| is_negative_text(word.as_slice()))
}

fn says_deny_status(words: &[Octets]) -> bool
    ensures { result ≡ list_any (λ word. bytes_eq word (codes "deny_status")) words.now }
{
    words
        .iter()
        .any(|word| word.as_slice() == b"deny_status".as_slice())
}

/// Whether an expression shows a topic, or an ACL another.
fn either_shows(expr: ExprTopic, acl: AclTopic, statement: &Statement) -> bool
    ensures { result ≡ (statement_passes (ExprShows expr) statement.now
        || statement_passes (AclShows acl) statement.now) }
{
    statement_passes(Feature::Expr(expr), statement)
        || statement_passes(Feature::Acl(acl), statement)
}

/// Whether a statement names a predefined ACL that asks for the method.
fn names_method(lines: &[JudgedLine], statement: &Statement) -> bool
    ensures { result ≡ statement_passes (NamesMethod lines.now) statement.now }
{
    statement_passes(Feature::PredefinedMethod(lines), statement)
}

/// Whether a statement asks for the method after a rule changed it.
fn asks_changed_method(context: Context<'_>, statement: &Statement) -> bool
    ensures { result ≡ (is_after_change context.entry.above context.entry.anywhere statement.now
        && statement_passes (AsksMethod context.entry.lines.now) statement.now) }
{
    is_after_change(context.above, context.anywhere, statement)
        && statement_passes(Feature::Method(context.lines), statement)
}

/// Whether the method is compared without regard to case.
fn ignores_method_case(
    alloc: Global,
    lines: &[JudgedLine],
    words: &[Octets],
    statement: &Statement,
) -> Result<bool, NoMemory>
    ensures { IfOk result (λ answer. answer ≡ (line_words_have CriterionTopic.MethodCase words.now
        || statement_passes (NamesMethod lines.now) statement.now)) }
{
    let own = line_words_have(alloc, CriterionTopic::MethodCase, words)?;
    let named = names_method(lines, statement);
    Ok(own || named)
}

/// Whether the statement with these words shows a topic.
pub(crate) fn shows(
    alloc: Global,
    topic: Topic,
    context: Context<'_>,
    words: &[Octets],
    statement: &Statement,
) -> Result<bool, NoMemory>
    ensures { IfOk result (λ answer. answer
        ≡ shows topic (context_view context.entry) words.now statement.now) }
{
    match topic {
        Topic::TextAsNumber => Ok(either_shows(
            ExprTopic::TextAsNumber,
            AclTopic::TextAsNumber,
            statement,
        )),
        Topic::ComputedBackend => Ok(computes_backend(statement)),
        Topic::BelowZero => Ok(
            statement_passes(Feature::Acl(AclTopic::BelowZero), statement)
                && one_is_negative(words),
        ),
        Topic::RedirectFormat => Ok(fills_redirect(statement)),
        Topic::ChangedMethod => Ok(asks_changed_method(context, statement)),
        Topic::MethodCase => ignores_method_case(alloc, context.lines, words, statement),
        Topic::TwoMethods => Ok(statement_passes(Feature::Mixed(context.heads), statement)),
        Topic::AfterAddress => Ok(either_shows(
            ExprTopic::AfterAddress,
            AclTopic::AfterAddress,
            statement,
        )),
        Topic::NoErrorPage => Ok(
            statement_acts(ActionTopic::NoErrorPage, statement) && says_deny_status(words),
        ),
        Topic::Localhost => Ok(statement_passes(Feature::Localhost(context.lines), statement)),
        Topic::Expr(topic) => Ok(statement_passes(Feature::Expr(topic), statement)),
        Topic::Acl(topic) => Ok(statement_passes(Feature::Acl(topic), statement)),
        Topic::Action(topic) => Ok(statement_acts(topic, statement)),
        Topic::Criterion(topic) => line_words_have(alloc, topic, words),
    }
}
