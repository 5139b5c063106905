ghost use Rattle.std.specs.Prelude.{◌≡◌, codes, Ok};
ghost use Rattle.std.specs.Str.{bytes_eq};
ghost use Rattle.hx_ast.specs.Actions.{is_redirect_status};
ghost use Rattle.hx_spell.specs.ActionView.{change_by, header_change_by, replacement_by};
ghost use Rattle.hx_spell.specs.Actions.{action_words, bare_words, expr_word, file_words};
ghost use Rattle.hx_spell.specs.Actions.{format_word, header_word, is_status_word, kind_table};
ghost use Rattle.hx_spell.specs.Actions.{kind_word, optional_word, redirect_status_of};
ghost use Rattle.hx_spell.specs.Actions.{status_of, switch_table, text_word, variable_words};
ghost use Rattle.hx_spell.specs.Actions.{with_expr, with_format, with_header_format};
ghost use Rattle.hx_spell.specs.Actions.{with_name_of_header, with_redirect, with_replacement};
ghost use Rattle.hx_spell.specs.Actions.{with_status, with_switch, with_two_formats};
ghost use Rattle.hx_spell.specs.Actions.{word_and_value};
ghost use Rattle.hx_calls.specs.Known.{Extends, Known, ReadsAs};
ghost use Rattle.hx_calls.specs.Tables.{entry_at};

use crate::action_table::{ActionHead, BareAction, FileAction, KINDS, SWITCHES, VariableAction};
use crate::taken::Taken;
use hx_ast::{Action, Expr, Format, RedirectKind};
use hx_calls::lookup::lookup;
use hx_calls::{
    BAD_ARGUMENT, BAD_NAME, ExprRead, Knowledge, SpellFault, expr_of, format_of, header, width,
};
use hx_text::{Octets, VarName};
use std::alloc::Global;

// ---- words

/// The name of a header.
fn header_word(alloc: Global, words: &[Octets]) -> Result<Taken<'_, Octets>, SpellFault>
    ensures { (known : Known) → ReadsAs result known (header_word words.now known) }
{
    let Some((word, words)) = words.split_first() else {
        return Err(SpellFault::Code(BAD_ARGUMENT));
    };
    match header(alloc, word.as_slice())? {
        Some(item) => Ok(Taken { item, words }),
        None => Err(SpellFault::Code(BAD_NAME)),
    }
}

/// Any word.
fn text_word(alloc: Global, words: &[Octets]) -> Result<Taken<'_, Octets>, SpellFault>
    ensures { (known : Known) → ReadsAs result known (text_word words.now known) }
{
    let Some((word, words)) = words.split_first() else {
        return Err(SpellFault::Code(BAD_ARGUMENT));
    };
    let item = Octets::copy(alloc, word.as_slice())?;
    Ok(Taken { item, words })
}

/// A format.
pub(crate) fn format_word<'a>(
    known: &mut Knowledge,
    alloc: Global,
    line: u64,
    words: &'a [Octets],
) -> Result<Taken<'a, Format>, SpellFault>
    ensures answers { ReadsAs result known.new (format_word line words.now known.old) }
    ensures extends { Extends known.old known.new }
{
    let Some((word, words)) = words.split_first() else {
        return Err(SpellFault::Code(BAD_ARGUMENT));
    };
    let item = format_of(known, alloc, line, word.as_slice())?;
    Ok(Taken { item, words })
}

/// An expression.
fn expr_word<'a>(
    known: &mut Knowledge,
    alloc: Global,
    line: u64,
    words: &'a [Octets],
) -> Result<Taken<'a, Expr>, SpellFault>
    ensures answers { ReadsAs result known.new (expr_word line words.now known.old) }
    ensures extends { Extends known.old known.new }
{
    let Some((word, words)) = words.split_first() else {
        return Err(SpellFault::Code(BAD_ARGUMENT));
    };
    let ExprRead { expr, .. } = expr_of(known, alloc, line, None, word.as_slice())?;
    Ok(Taken { item: expr, words })
}

// ---- headers and texts

/// The words of an action that takes a format.
fn change<'a>(
    known: &mut Knowledge,
    alloc: Global,
    line: u64,
    name: BareAction,
    words: &'a [Octets],
) -> Result<Taken<'a, Action>, SpellFault>
    ensures answers { ReadsAs result known.new
        (with_format line (change_by name) words.now known.old) }
    ensures extends { Extends known.old known.new }
{
    let Taken { item, words } = format_word(known, alloc, line, words)?;
    let item = match name {
        BareAction::SetMethod => Action::SetMethod(item),
        BareAction::SetUri => Action::SetUri(item),
        BareAction::SetPath => Action::SetPath(item),
        _ => Action::SetQuery(item),
    };
    Ok(Taken { item, words })
}

/// The words of an action that takes the name of a header and a format.
fn header_change<'a>(
    known: &mut Knowledge,
    alloc: Global,
    line: u64,
    sets: bool,
    words: &'a [Octets],
) -> Result<Taken<'a, Action>, SpellFault>
    ensures answers { ReadsAs result known.new
        (with_header_format line (header_change_by sets) words.now known.old) }
    ensures extends { Extends known.old known.new }
{
    let Taken { item: name, words } = header_word(alloc, words)?;
    let Taken { item: value, words } = format_word(known, alloc, line, words)?;
    let item = if sets {
        Action::SetHeader(name, value)
    } else {
        Action::AddHeader(name, value)
    };
    Ok(Taken { item, words })
}

/// The words of `del-header`.
fn header_deletion(alloc: Global, words: &[Octets]) -> Result<Taken<'_, Action>, SpellFault>
    ensures { (known : Known) → ReadsAs result known (with_name_of_header words.now known) }
{
    let Taken { item, words } = header_word(alloc, words)?;
    Ok(Taken {
        item: Action::DelHeader(item),
        words,
    })
}

/// The words of an action that takes the name of a header, a regular expression and a format.
fn replacement<'a>(
    known: &mut Knowledge,
    alloc: Global,
    line: u64,
    whole: bool,
    words: &'a [Octets],
) -> Result<Taken<'a, Action>, SpellFault>
    ensures answers { ReadsAs result known.new
        (with_replacement line (replacement_by whole) words.now known.old) }
    ensures extends { Extends known.old known.new }
{
    let Taken { item: name, words } = header_word(alloc, words)?;
    let Taken { item: re, words } = text_word(alloc, words)?;
    let Taken { item: value, words } = format_word(known, alloc, line, words)?;
    let item = if whole {
        Action::ReplaceHeader(name, re, value)
    } else {
        Action::ReplaceValue(name, re, value)
    };
    Ok(Taken { item, words })
}

// ---- denials

/// A status with which a request can be denied.
fn status_of(text: &[u8]) -> Option<u16>
    ensures { result ≡ status_of text.now }
{
    let n = width(text, 599)?;
    if n >= 200 { Some(n as u16) } else { None }
}

fn is_status_word(word: &[u8]) -> bool
    ensures { result ≡ is_status_word word.now }
{
    word == b"status".as_slice() || word == b"deny_status".as_slice()
}

/// The words of `deny`.
fn denial(words: &[Octets]) -> Result<Taken<'_, Action>, SpellFault>
    ensures { (known : Known) → ReadsAs result known (with_status words.now known) }
{
    let Some((word, after)) = words.split_first() else {
        return Ok(Taken {
            item: Action::Deny(None),
            words,
        });
    };
    if !is_status_word(word.as_slice()) {
        return Ok(Taken {
            item: Action::Deny(None),
            words,
        });
    }
    let Some((text, words)) = after.split_first() else {
        return Err(SpellFault::Code(BAD_ARGUMENT));
    };
    match status_of(text.as_slice()) {
        Some(status) => Ok(Taken {
            item: Action::Deny(Some(status)),
            words,
        }),
        None => Err(SpellFault::Code(BAD_ARGUMENT)),
    }
}

// ---- redirects

#[tactic(auto, unfolding(crate::specs::Actions::kind_table))]
fn kind_at(word: &[u8]) -> Option<RedirectKind>
    ensures { result ≡ entry_at kind_table word.now }
{
    lookup(&KINDS, word)
}

/// The kind of a redirect.
fn kind_word(words: &[Octets]) -> Result<Taken<'_, RedirectKind>, SpellFault>
    ensures { (known : Known) → ReadsAs result known (kind_word words.now known) }
{
    let Some((word, words)) = words.split_first() else {
        return Err(SpellFault::Code(BAD_ARGUMENT));
    };
    match kind_at(word.as_slice()) {
        Some(item) => Ok(Taken { item, words }),
        None => Err(SpellFault::Code(BAD_ARGUMENT)),
    }
}

fn is_redirect_status(n: u32) -> bool
    ensures { result ≡ is_redirect_status n }
{
    n == 301 || n == 302 || n == 303 || n == 307 || n == 308
}

/// A status of a redirect.
fn redirect_status_of(text: &[u8]) -> Option<u16>
    ensures { result ≡ redirect_status_of text.now }
{
    let n = width(text, 308)?;
    if is_redirect_status(n) {
        Some(n as u16)
    } else {
        None
    }
}

/// The status of a redirect, if it is said.
fn redirect_status(words: &[Octets]) -> Result<Taken<'_, Option<u16>>, SpellFault>
    ensures { (known : Known) → ReadsAs result known
        (word_and_value (bytes_eq (codes "code")) redirect_status_of words.now known) }
{
    let Some((word, after)) = words.split_first() else {
        return Ok(Taken { item: None, words });
    };
    if word.as_slice() != b"code".as_slice() {
        return Ok(Taken { item: None, words });
    }
    let Some((text, words)) = after.split_first() else {
        return Err(SpellFault::Code(BAD_ARGUMENT));
    };
    match redirect_status_of(text.as_slice()) {
        Some(status) => Ok(Taken {
            item: Some(status),
            words,
        }),
        None => Err(SpellFault::Code(BAD_ARGUMENT)),
    }
}

/// Whether the query is dropped.
fn drops_query(words: &[Octets]) -> Taken<'_, bool>
    ensures { (known : Known) → ReadsAs (Ok result) known
        (optional_word (codes "drop-query") words.now known) }
{
    match words.split_first() {
        Some((word, rest)) if word.as_slice() == b"drop-query".as_slice() => Taken {
            item: true,
            words: rest,
        },
        _ => Taken { item: false, words },
    }
}

/// The words of `redirect`, as an action and as a statement.
pub(crate) fn redirect<'a>(
    known: &mut Knowledge,
    alloc: Global,
    line: u64,
    words: &'a [Octets],
) -> Result<Taken<'a, Action>, SpellFault>
    ensures answers { ReadsAs result known.new (with_redirect line words.now known.old) }
    ensures extends { Extends known.old known.new }
{
    let Taken { item: kind, words } = kind_word(words)?;
    let Taken { item: value, words } = format_word(known, alloc, line, words)?;
    let Taken {
        item: status,
        words,
    } = redirect_status(words)?;
    let Taken { item: drops, words } = drops_query(words);
    Ok(Taken {
        item: Action::Redirect(kind, value, status, drops),
        words,
    })
}

// ---- strict mode

#[tactic(auto, unfolding(crate::specs::Actions::switch_table))]
fn switch_at(word: &[u8]) -> Option<bool>
    ensures { result ≡ entry_at switch_table word.now }
{
    lookup(&SWITCHES, word)
}

/// The words of `strict-mode`.
fn strictness(words: &[Octets]) -> Result<Taken<'_, Action>, SpellFault>
    ensures { (known : Known) → ReadsAs result known (with_switch words.now known) }
{
    let Some((word, words)) = words.split_first() else {
        return Err(SpellFault::Code(BAD_ARGUMENT));
    };
    match switch_at(word.as_slice()) {
        Some(on) => Ok(Taken {
            item: Action::StrictMode(on),
            words,
        }),
        None => Err(SpellFault::Code(BAD_ARGUMENT)),
    }
}

// ---- all actions

/// The words of an action without parentheses.
fn bare_words<'a>(
    known: &mut Knowledge,
    alloc: Global,
    line: u64,
    name: BareAction,
    words: &'a [Octets],
) -> Result<Taken<'a, Action>, SpellFault>
    ensures answers { ReadsAs result known.new (bare_words line name words.now known.old) }
    ensures extends { Extends known.old known.new }
{
    match name {
        BareAction::Allow => Ok(Taken {
            item: Action::Allow,
            words,
        }),
        BareAction::Deny => denial(words),
        BareAction::SetHeader => header_change(known, alloc, line, true, words),
        BareAction::AddHeader => header_change(known, alloc, line, false, words),
        BareAction::DelHeader => header_deletion(alloc, words),
        BareAction::ReplaceHeader => replacement(known, alloc, line, true, words),
        BareAction::ReplaceValue => replacement(known, alloc, line, false, words),
        BareAction::SetMethod => change(known, alloc, line, name, words),
        BareAction::SetUri => change(known, alloc, line, name, words),
        BareAction::SetPath => change(known, alloc, line, name, words),
        BareAction::SetQuery => change(known, alloc, line, name, words),
        BareAction::Redirect => redirect(known, alloc, line, words),
        BareAction::StrictMode => strictness(words),
    }
}

/// The words of an action with a variable.
fn variable_words<'a>(
    known: &mut Knowledge,
    alloc: Global,
    line: u64,
    name: VariableAction,
    variable: VarName,
    words: &'a [Octets],
) -> Result<Taken<'a, Action>, SpellFault>
    ensures answers { ReadsAs result known.new
        (variable_words line name variable words.now known.old) }
    ensures extends { Extends known.old known.new }
{
    match name {
        VariableAction::Set => {
            let Taken { item, words } = expr_word(known, alloc, line, words)?;
            Ok(Taken {
                item: Action::SetVar(variable, item),
                words,
            })
        }
        VariableAction::Unset => Ok(Taken {
            item: Action::UnsetVar(variable),
            words,
        }),
    }
}

/// The words of `set-map`.
fn map_words<'a>(
    known: &mut Knowledge,
    alloc: Global,
    line: u64,
    table: u32,
    words: &'a [Octets],
) -> Result<Taken<'a, Action>, SpellFault>
    ensures answers { ReadsAs result known.new
        (file_words line FileAction.SetMap table words.now known.old) }
    ensures extends { Extends known.old known.new }
{
    let Taken { item: key, words } = format_word(known, alloc, line, words)?;
    let Taken { item: value, words } = format_word(known, alloc, line, words)?;
    Ok(Taken {
        item: Action::SetMap(table, key, value),
        words,
    })
}

/// The words of an action with a file, whose reference stands at the position `table`.
fn file_words<'a>(
    known: &mut Knowledge,
    alloc: Global,
    line: u64,
    name: FileAction,
    table: u32,
    words: &'a [Octets],
) -> Result<Taken<'a, Action>, SpellFault>
    ensures answers { ReadsAs result known.new (file_words line name table words.now known.old) }
    ensures extends { Extends known.old known.new }
{
    if let FileAction::SetMap = name {
        return map_words(known, alloc, line, table, words);
    }
    let Taken { item, words } = format_word(known, alloc, line, words)?;
    let item = match name {
        FileAction::AddAcl => Action::AddAcl(table, item),
        FileAction::DelAcl => Action::DelAcl(table, item),
        _ => Action::DelMap(table, item),
    };
    Ok(Taken { item, words })
}

/// The action of its word and the words after it, which it takes the first of.
///
/// The words are judged from the left: code 10 for one that is missing or isn't of its form, 12 for
/// a name that is no header's, 15 for a `%` in a format that neither another nor `[` follows, and
/// the codes of the expressions.
///
/// HAProxy configuration manual 2.4, section 4.2.
pub(crate) fn action_words<'a>(
    known: &mut Knowledge,
    alloc: Global,
    line: u64,
    head: ActionHead,
    words: &'a [Octets],
) -> Result<Taken<'a, Action>, SpellFault>
    ensures answers { ReadsAs result known.new (action_words line head words.now known.old) }
    ensures extends { Extends known.old known.new }
{
    match head {
        ActionHead::Bare(name) => bare_words(known, alloc, line, name, words),
        ActionHead::OfVariable(name, variable) => {
            variable_words(known, alloc, line, name, variable, words)
        }
        ActionHead::OfFile(name, table) => file_words(known, alloc, line, name, table, words),
    }
}
