ghost use Rattle.std.specs.Prelude.{◌≡◌, OnErr, option_map};
ghost use Rattle.std.specs.List.{list_any};
ghost use Rattle.std.specs.Str.{bytes_eq};
ghost use Rattle.hx_calls.specs.Known.{Known, ReadsAs, Extends};
ghost use Rattle.hx_spell.specs.Lines.{acl_after_name, acl_of, backend_of, fallback_of};
ghost use Rattle.hx_spell.specs.Lines.{frontend_fault, keyword_statement, keyword_table, line_of};
ghost use Rattle.hx_spell.specs.Lines.{mode_fault, option_fault, placed_frontend_fault};
ghost use Rattle.hx_spell.specs.Lines.{plain_options, plain_unless, polarity_table, redirect_of};
ghost use Rattle.hx_spell.specs.Lines.{rule_of, rule_reading, when_of};
ghost use Rattle.hx_spell.specs.LineView.{keyword_of};
ghost use Rattle.hx_calls.specs.Tables.{entry_at};

use crate::action_heads::action_head;
use crate::actions::{action_words, format_word, redirect};
use crate::conditions::{cond_of, is_acl_name, is_name};
use crate::declarations::decl_of;
use crate::taken::Taken;
use hx_ast::{Action, Cond, Rule, Statement};
use hx_calls::lookup::lookup;
use hx_calls::{BAD_ARGUMENT, BAD_NAME, Knowledge, MISPLACED, SpellFault, UNSUPPORTED};
use hx_text::Octets;
use std::alloc::Global;
use std::marker::Model;

/// The first words of statements.
const KEYWORDS: [(&[u8], Keyword); 14] = [
    (b"frontend", Keyword::Frontend),
    (b"mode", Keyword::Mode),
    (b"option", Keyword::Options),
    (b"bind", Keyword::Ignored),
    (b"description", Keyword::Ignored),
    (b"log", Keyword::Ignored),
    (b"log-format", Keyword::Ignored),
    (b"maxconn", Keyword::Ignored),
    (b"timeout", Keyword::Ignored),
    (b"acl", Keyword::Acl),
    (b"http-request", Keyword::HttpRequest),
    (b"redirect", Keyword::Redirect),
    (b"use_backend", Keyword::UseBackend),
    (b"default_backend", Keyword::DefaultBackend),
];

/// The words that a condition follows, each with whether it turns the condition round.
const POLARITIES: [(&[u8], bool); 2] = [(b"if", false), (b"unless", true)];

/// A kind of statement, by its first word.
#[derive(Clone, Copy)]
enum Keyword {
    Frontend,
    Mode,
    Options,
    Ignored,
    Acl,
    HttpRequest,
    Redirect,
    UseBackend,
    DefaultBackend,
}

fn keyword_at(word: &[u8]) -> Option<Keyword>
    ensures { entry_at keyword_table word.now ≡ option_map keyword_of result }
{
    lookup(&KEYWORDS, word)
}

/// Whether a condition after this word is turned round. `None` where none follows such a word.
fn polarity_at(word: &[u8]) -> Option<bool>
    ensures { entry_at polarity_table word.now ≡ result }
{
    lookup(&POLARITIES, word)
}

/// Whether an option of this name changes no rule.
#[tactic(auto, unfolding(crate::specs::Lines::plain_options))]
fn is_plain_option(name: &[u8]) -> bool
    ensures { result ≡ list_any (bytes_eq name.now) plain_options }
{
    name == b"dontlognull".as_slice()
        || name == b"http-keep-alive".as_slice()
        || name == b"http-server-close".as_slice()
        || name == b"httplog".as_slice()
}

/// What is wrong with the words after `frontend`, which are one name.
fn frontend_fault(words: &[Octets]) -> Option<SpellFault>
    ensures { result ≡ frontend_fault words.now }
{
    let Some((name, more)) = words.split_first() else {
        return Some(SpellFault::Code(BAD_ARGUMENT));
    };
    if !is_name(name.as_slice()) {
        Some(SpellFault::Code(BAD_NAME))
    } else if !more.is_empty() {
        Some(SpellFault::Code(BAD_ARGUMENT))
    } else {
        None
    }
}

/// The same after a statement, or before the first.
fn placed_frontend_fault(begun: bool, words: &[Octets]) -> Option<SpellFault>
    ensures { result ≡ placed_frontend_fault begun words.now }
{
    if begun {
        Some(SpellFault::Code(MISPLACED))
    } else {
        frontend_fault(words)
    }
}

/// What is wrong with the words after `mode`.
fn mode_fault(words: &[Octets]) -> Option<SpellFault>
    ensures { result ≡ mode_fault words.now }
{
    match words {
        [word] if word.as_slice() == b"http".as_slice() => None,
        _ => Some(SpellFault::Code(BAD_ARGUMENT)),
    }
}

/// What is wrong with the words after `option`.
fn option_fault(words: &[Octets]) -> Option<SpellFault>
    ensures { result ≡ option_fault words.now }
{
    let Some((name, _)) = words.split_first() else {
        return Some(SpellFault::Code(BAD_ARGUMENT));
    };
    if is_plain_option(name.as_slice()) {
        None
    } else {
        Some(SpellFault::Code(UNSUPPORTED))
    }
}

/// A statement without a part in the rules, unless something is wrong with it.
fn plain_unless(fault: Option<SpellFault>) -> Result<Statement, SpellFault>
    ensures { (known : Known) → ReadsAs result known (plain_unless fault known) }
{
    match fault {
        None => Ok(Statement::Plain),
        Some(fault) => Err(fault),
    }
}

/// The declaration of an ACL of this name.
fn acl_after_name(
    known: &mut Knowledge,
    alloc: Global,
    line: u64,
    name: &[u8],
    words: &[Octets],
) -> Result<Statement, SpellFault>
    ensures answers { ReadsAs result known.new (acl_after_name line name.now words.now known.old) }
    ensures refused { OnErr result (Extends known.old known.new) }
{
    let Some((text, words)) = words.split_first() else {
        return Err(SpellFault::Code(BAD_ARGUMENT));
    };
    let decl = decl_of(known, alloc, line, text.as_slice(), words)?;
    let copy = Octets::copy(alloc, name)?;
    known.name(name)?;
    Ok(Statement::Acl {
        line,
        name: copy,
        decl,
    })
}

/// The words after `acl`.
fn acl_of(
    known: &mut Knowledge,
    alloc: Global,
    line: u64,
    words: &[Octets],
) -> Result<Statement, SpellFault>
    ensures answers { ReadsAs result known.new (acl_of line words.now known.old) }
    ensures refused { OnErr result (Extends known.old known.new) }
{
    let Some((name, words)) = words.split_first() else {
        return Err(SpellFault::Code(BAD_ARGUMENT));
    };
    if !is_acl_name(name.as_slice()) {
        return Err(SpellFault::Code(BAD_NAME));
    }
    acl_after_name(known, alloc, line, name.as_slice(), words)
}

/// Whether and when a rule is taken.
#[derive(Drop)]
struct When {
    unless: bool,
    cond: Option<Cond>,
}

impl Model for When {
    ghost use Rattle.hx_spell.specs.Lines.{When};

    ghost Value = { When };

    ghost view = { λ when. record { unless = when.unless; cond = when.cond } };
}

/// The last words of a rule: none, or a condition.
fn when_of(
    known: &mut Knowledge,
    alloc: Global,
    line: u64,
    words: &[Octets],
) -> Result<When, SpellFault>
    ensures answers { ReadsAs result known.new (when_of line words.now known.old) }
    ensures extends { Extends known.old known.new }
{
    let Some((word, words)) = words.split_first() else {
        return Ok(When {
            unless: false,
            cond: None,
        });
    };
    let Some(unless) = polarity_at(word.as_slice()) else {
        return Err(SpellFault::Code(BAD_ARGUMENT));
    };
    let cond = cond_of(known, alloc, line, words)?;
    Ok(When {
        unless,
        cond: Some(cond),
    })
}

/// The rule of an action and the words after it.
fn rule_after(
    known: &mut Knowledge,
    alloc: Global,
    line: u64,
    action: Action,
    words: &[Octets],
) -> Result<Rule, SpellFault>
    ensures answers { ReadsAs result known.new (rule_reading line action words.now known.old) }
    ensures extends { Extends known.old known.new }
{
    let When { unless, cond } = when_of(known, alloc, line, words)?;
    Ok(Rule {
        line,
        action,
        unless,
        cond,
    })
}

/// The words after `http-request`.
fn rule_of(
    known: &mut Knowledge,
    alloc: Global,
    line: u64,
    words: &[Octets],
) -> Result<Statement, SpellFault>
    ensures answers { ReadsAs result known.new (rule_of line words.now known.old) }
    ensures extends { Extends known.old known.new }
{
    let Some((word, words)) = words.split_first() else {
        return Err(SpellFault::Code(BAD_ARGUMENT));
    };
    let head = action_head(known, alloc, line, word.as_slice())?;
    let Taken { item, words } = action_words(known, alloc, line, head, words)?;
    Ok(Statement::Rule(rule_after(known, alloc, line, item, words)?))
}

/// The words after `redirect`.
fn redirect_of(
    known: &mut Knowledge,
    alloc: Global,
    line: u64,
    words: &[Octets],
) -> Result<Statement, SpellFault>
    ensures answers { ReadsAs result known.new (redirect_of line words.now known.old) }
    ensures extends { Extends known.old known.new }
{
    let Taken { item, words } = redirect(known, alloc, line, words)?;
    Ok(Statement::Redirect(rule_after(known, alloc, line, item, words)?))
}

/// The words after `use_backend`.
fn backend_of(
    known: &mut Knowledge,
    alloc: Global,
    line: u64,
    words: &[Octets],
) -> Result<Statement, SpellFault>
    ensures answers { ReadsAs result known.new (backend_of line words.now known.old) }
    ensures extends { Extends known.old known.new }
{
    let Taken { item, words } = format_word(known, alloc, line, words)?;
    let When { unless, cond } = when_of(known, alloc, line, words)?;
    Ok(Statement::Backend {
        line,
        format: item,
        unless,
        cond,
    })
}

/// The words after `default_backend`.
fn fallback_of(
    known: &mut Knowledge,
    alloc: Global,
    line: u64,
    words: &[Octets],
) -> Result<Statement, SpellFault>
    ensures answers { ReadsAs result known.new (fallback_of line words.now known.old) }
    ensures refused { OnErr result (Extends known.old known.new) }
{
    if known.has_fallback() {
        return Err(SpellFault::Code(MISPLACED));
    }
    let Some((name, more)) = words.split_first() else {
        return Err(SpellFault::Code(BAD_ARGUMENT));
    };
    if !is_name(name.as_slice()) {
        return Err(SpellFault::Code(BAD_NAME));
    }
    if !more.is_empty() {
        return Err(SpellFault::Code(BAD_ARGUMENT));
    }
    let name = Octets::copy(alloc, name.as_slice())?;
    known.note_fallback();
    Ok(Statement::Fallback { line, name })
}

/// The statement of the words after a first word.
fn keyword_statement(
    known: &mut Knowledge,
    alloc: Global,
    line: u64,
    keyword: Keyword,
    words: &[Octets],
) -> Result<Statement, SpellFault>
    ensures answers { ReadsAs result known.new
        (keyword_statement line (Some (keyword_of keyword)) words.now known.old) }
    ensures refused { OnErr result (Extends known.old known.new) }
{
    match keyword {
        Keyword::Frontend => plain_unless(placed_frontend_fault(known.has_begun(), words)),
        Keyword::Mode => plain_unless(mode_fault(words)),
        Keyword::Options => plain_unless(option_fault(words)),
        Keyword::Ignored => Ok(Statement::Plain),
        Keyword::Acl => acl_of(known, alloc, line, words),
        Keyword::HttpRequest => rule_of(known, alloc, line, words),
        Keyword::Redirect => redirect_of(known, alloc, line, words),
        Keyword::UseBackend => backend_of(known, alloc, line, words),
        Keyword::DefaultBackend => fallback_of(known, alloc, line, words),
    }
}

/// The statement of the words of a line. Names that are declared, and that there was a statement,
/// are known only where it isn't refused.
#[tactic(auto, unfolding(crate::specs::Lines::line_of))]
pub(crate) fn line_of(
    known: &mut Knowledge,
    alloc: Global,
    line: u64,
    words: &[Octets],
) -> Result<Statement, SpellFault>
    ensures answers { ReadsAs result known.new (line_of line words.now known.old) }
    ensures refused { OnErr result (Extends known.old known.new) }
{
    let Some((word, words)) = words.split_first() else {
        return Ok(Statement::Plain);
    };
    let Some(keyword) = keyword_at(word.as_slice()) else {
        return Err(SpellFault::Code(UNSUPPORTED));
    };
    let statement = keyword_statement(known, alloc, line, keyword, words)?;
    known.begin();
    Ok(statement)
}
