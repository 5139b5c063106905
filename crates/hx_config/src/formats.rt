ghost use Rattle.std.specs.Prelude.{◌≡◌, ◌≤◌, ◌++◌, ◌∷◌, [], length, Some, IfOk, OnOk};
ghost use Rattle.std.specs.Char.{is_ascii_alphanumeric};
ghost use Rattle.std.specs.List.{prefix_len};
ghost use Rattle.std.specs.Option.{option_copied};
ghost use Rattle.hx_base.specs.Bytes.{ascii};
ghost use Rattle.hx_words.specs.Calls.{calls_of};
ghost use Rattle.hx_config.specs.Formats.{argument_said, arguments_said, call_said, entry_in};
ghost use Rattle.hx_config.specs.Formats.{escape_said, expression_said, fetch_said};
ghost use Rattle.hx_config.specs.Formats.{format_said, formats_said, letters_of, rule_formats};
ghost use Rattle.hx_config.specs.Formats.{ssl_said, statement_formats, variable_said};
ghost use Rattle.hx_config.specs.FormatView.{known_view};
ghost use Rattle.hx_config.specs.Tables.{pairs_in};

use crate::left_out::action_name;
use crate::lines::Line;
use crate::replacing::PATH_AND_QUERY;
use crate::table::value_at;
use crate::words::{push, push_all};
use hx_text::{NoMemory, Octets, cut_at};
use hx_words::{ArgFault, calls};
use std::alloc::Global;

/// Fetches for which hxeval has an expression under another name.
pub(crate) const FETCHES: [(&[u8], &[u8]); 2] = [
    (b"pathq", PATH_AND_QUERY),
    (b"capture.req.ver", b"req.ver,regsub(^,HTTP/)"),
];

/// The same of fetches of the request line as it came.
pub(crate) const CAPTURES: [(&[u8], &[u8]); 2] = [
    (b"capture.req.uri", PATH_AND_QUERY),
    (b"capture.req.method", b"method,concat()"),
];

/// Log variables that a request decides, each with what stands for it in a format of hxeval.
pub(crate) const LOG_VARIABLES: [(&[u8], &[u8]); 5] = [
    (b"ci", b"%[src]"),
    (b"cp", b"%[src_port]"),
    (b"fi", b"%[dst]"),
    (b"fp", b"%[dst_port]"),
    (b"HV", b"HTTP/%[req.ver]"),
];

/// The same of the request line as it came. `HP` has the scheme and the host of a target that has
/// some, `HPO` hasn't, and `HQ` begins with its question mark.
pub(crate) const REQUEST_VARIABLES: [(&[u8], &[u8]); 6] = [
    (b"HM", b"%[method]"),
    (b"HU", b"%[url]"),
    (b"HP", b"%[url,field(1,?)]"),
    (b"HPO", b"%[path]"),
    (b"HQ", b"%[url,regsub(^[^?]*,)]"),
    (b"r", b"%[method] %[url] HTTP/%[req.ver]"),
];

/// Actions of `http-request` with formats or expressions among their arguments: a letter for each
/// argument up to the last of these, `f` for a format and `e` for an expression. A redirect is one
/// that begins with its kind.
pub(crate) const ARGUMENTS: [(&[u8], &[u8]); 15] = [
    (b"set-header", b"nf"),
    (b"add-header", b"nf"),
    (b"replace-header", b"nrf"),
    (b"replace-value", b"nrf"),
    (b"set-method", b"f"),
    (b"set-uri", b"f"),
    (b"set-path", b"f"),
    (b"set-query", b"f"),
    (b"set-var", b"e"),
    (b"set-var-fmt", b"f"),
    (b"redirect", b"nf"),
    (b"add-acl", b"f"),
    (b"del-acl", b"f"),
    (b"del-map", b"f"),
    (b"set-map", b"ff"),
];

/// What is known where a line stands.
#[derive(Clone, Copy)]
pub(crate) struct Known<'t> {
    /// the port at which TLS comes in, as digits, if it is given
    pub(crate) tls: Option<&'t [u8]>,
    /// whether the request line is the one that came
    pub(crate) as_it_came: bool,
    /// whether `monitor-uri` may be answered there
    pub(crate) answers_monitor: bool,
    /// all lines of the file
    pub(crate) lines: &'t [Line<'t>],
}

/// What stands for a name in the first of these tables, or in the second where the request line is
/// the one that came.
fn entry_in<'r>(
    known: Known<'_>,
    always: &[(&[u8], &'r [u8])],
    captured: &[(&[u8], &'r [u8])],
    name: &[u8],
) -> Option<&'r [u8]>
    ensures { option_copied result ≡ entry_in (known_view known.entry) (pairs_in always.now)
        (pairs_in captured.now) name.now }
{
    match value_at(always, name) {
        Some(text) => Some(text),
        None => {
            if known.as_it_came {
                value_at(captured, name)
            } else {
                None
            }
        }
    }
}

/// Appends a fetch without arguments.
fn push_fetch(out: &mut Vec<u8>, known: Known<'_>, fetch: &[u8]) -> Result<(), NoMemory>
    ensures { OnOk result
        (out.new.items ≡ out.old.items ++ fetch_said (known_view known.entry) fetch.now) }
{
    if fetch == b"ssl_fc".as_slice() {
        return push_ssl(out, known.tls);
    }
    match entry_in(known, &FETCHES, &CAPTURES, fetch) {
        Some(text) => out.extend_from_slice(text)?,
        None => out.extend_from_slice(fetch)?,
    }
    Ok(())
}

/// Appends the port at which TLS comes in as a test of the port.
fn push_ssl(out: &mut Vec<u8>, tls: Option<&[u8]>) -> Result<(), NoMemory>
    ensures { OnOk result
        (out.new.items ≡ out.old.items ++ ssl_said (option_copied tls.entry)) }
{
    match tls {
        Some(port) => {
            out.extend_from_slice(b"dst_port,xor(")?;
            out.extend_from_slice(port)?;
            out.extend_from_slice(b"),not")?;
        }
        None => out.extend_from_slice(b"ssl_fc")?,
    }
    Ok(())
}

/// Appends an expression with its fetch said.
pub(crate) fn push_expression(
    out: &mut Vec<u8>,
    known: Known<'_>,
    text: &[u8],
) -> Result<(), NoMemory>
    ensures { OnOk result
        (out.new.items ≡ out.old.items ++ expression_said (known_view known.entry) text.now) }
{
    match cut_at(b',', text) {
        Some((fetch, converters)) => {
            push_fetch(out, known, fetch)?;
            out.extend_from_slice(b",")?;
            out.extend_from_slice(converters)?;
            Ok(())
        }
        None => push_fetch(out, known, text),
    }
}

/// A format with its log variables and fetches said.
#[tactic(auto, unfolding(crate::specs::Formats::format_said))]
pub(crate) fn format_said(alloc: Global, known: Known<'_>, text: &[u8]) -> Result<Octets, NoMemory>
    ensures { IfOk result (λ said. said ≡ format_said (known_view known.entry) text.now) }
{
    let mut out = Vec::new(alloc);
    let mut skip = 0usize;
    let mut rest = text;
    while let [byte, after @ ..] = rest {
        if skip > 0 {
            skip -= 1;
        } else if *byte == b'%' {
            skip = push_escape(alloc, &mut out, known, after)?;
        } else {
            out.push(*byte)?;
        }
        rest = after;
    }
    Ok(Octets::from_vec(out))
}

/// Appends what stands for a `%` and the first of these bytes, and answers how many of them those
/// are.
fn push_escape(
    alloc: Global,
    out: &mut Vec<u8>,
    known: Known<'_>,
    after: &[u8],
) -> Result<usize, NoMemory>
    ensures said { OnOk result (out.new.items
        ≡ out.old.items ++ (escape_said (known_view known.entry) after.now).0) }
    ensures used { IfOk result
        (λ used. used ≡ (escape_said (known_view known.entry) after.now).1) }
{
    let [byte, inside @ ..] = after else {
        out.extend_from_slice(b"%")?;
        return Ok(0);
    };
    if *byte == b'%' {
        out.extend_from_slice(b"%%")?;
        Ok(1)
    } else if *byte == b'[' {
        push_call(alloc, out, known, inside)
    } else {
        push_variable(out, known, after)
    }
}

/// Appends `%[EXPR]`, where these bytes follow the bracket.
fn push_call(
    alloc: Global,
    out: &mut Vec<u8>,
    known: Known<'_>,
    inside: &[u8],
) -> Result<usize, NoMemory>
    ensures said { OnOk result (out.new.items ≡ out.old.items ++ (call_said
        (known_view known.entry) inside.now (calls_of (Some (ascii "]")) inside.now)).0) }
    ensures used { IfOk result (λ used. used ≡ (call_said
        (known_view known.entry) inside.now (calls_of (Some (ascii "]")) inside.now)).1) }
{
    match calls(alloc, inside, Some(b']')) {
        Ok(found) => {
            let used = found.used();
            out.extend_from_slice(b"%[")?;
            push_expression(out, known, &inside[..used.saturating_sub(1)])?;
            out.extend_from_slice(b"]")?;
            Ok(used + 1)
        }
        Err(ArgFault::NoMemory) => Err(NoMemory),
        Err(_) => {
            out.extend_from_slice(b"%")?;
            Ok(0)
        }
    }
}

/// Appends what stands for the log variable that these bytes begin with, or the `%` alone.
fn push_variable(out: &mut Vec<u8>, known: Known<'_>, after: &[u8]) -> Result<usize, NoMemory>
    ensures said { OnOk result (out.new.items
        ≡ out.old.items ++ (variable_said (known_view known.entry) after.now).0) }
    ensures used { IfOk result
        (λ used. used ≡ (variable_said (known_view known.entry) after.now).1) }
{
    let name = &after[..letters_in(after)];
    match entry_in(known, &LOG_VARIABLES, &REQUEST_VARIABLES, name) {
        Some(text) => {
            out.extend_from_slice(text)?;
            Ok(name.len())
        }
        None => {
            out.extend_from_slice(b"%")?;
            Ok(0)
        }
    }
}

/// With how many letters and digits these bytes begin.
fn letters_in(text: &[u8]) -> usize
    ensures value { result ≡ prefix_len is_ascii_alphanumeric text.now }
    ensures within { result ≤ length text.now }
{
    text.iter()
        .take_while(|b| b.is_ascii_alphanumeric())
        .count()
}

/// The words of a line with its formats and expressions said.
pub(crate) fn formats_said(
    alloc: Global,
    known: Known<'_>,
    words: &[Octets],
) -> Result<Vec<Octets>, NoMemory>
    ensures { IfOk result
        (λ said. said.items ≡ formats_said (known_view known.entry) words.now) }
{
    let mut out = Vec::new(alloc);
    let [keyword, others @ ..] = words else {
        return Ok(out);
    };
    push(alloc, &mut out, keyword.as_slice())?;
    push_statement_formats(alloc, &mut out, known, keyword.as_slice(), others)?;
    Ok(out)
}

/// Appends the words after a keyword.
fn push_statement_formats(
    alloc: Global,
    out: &mut Vec<Octets>,
    known: Known<'_>,
    keyword: &[u8],
    words: &[Octets],
) -> Result<(), NoMemory>
    ensures { OnOk result (out.new.items
        ≡ out.old.items ++ statement_formats (known_view known.entry) keyword.now words.now) }
{
    if keyword == b"http-request".as_slice() {
        push_rule_formats(alloc, out, known, words)
    } else if keyword == b"use_backend".as_slice() {
        push_arguments(alloc, out, known, b"f", words)
    } else {
        push_all(alloc, out, words)
    }
}

/// Appends the words of a rule after `http-request`.
fn push_rule_formats(
    alloc: Global,
    out: &mut Vec<Octets>,
    known: Known<'_>,
    words: &[Octets],
) -> Result<(), NoMemory>
    ensures { OnOk result
        (out.new.items ≡ out.old.items ++ rule_formats (known_view known.entry) words.now) }
{
    let [action, others @ ..] = words else {
        return Ok(());
    };
    push(alloc, out, action.as_slice())?;
    push_arguments(alloc, out, known, letters_of(action.as_slice()), others)
}

/// The letters of the arguments of an action.
fn letters_of(action: &[u8]) -> &'static [u8]
    ensures { result.now ≡ letters_of action.now }
{
    match value_at(&ARGUMENTS, action_name(action)) {
        Some(letters) => letters,
        None => b"",
    }
}

/// Appends words of which the first are arguments with these letters.
fn push_arguments(
    alloc: Global,
    out: &mut Vec<Octets>,
    known: Known<'_>,
    letters: &[u8],
    words: &[Octets],
) -> Result<(), NoMemory>
    ensures { OnOk result (out.new.items
        ≡ out.old.items ++ arguments_said (known_view known.entry) letters.now words.now) }
{
    let mut letters_left = letters;
    let mut rest = words;
    while let [letter, others @ ..] = letters_left {
        let [word, words_after @ ..] = rest else {
            return Ok(());
        };
        push_argument(alloc, out, known, *letter, word.as_slice())?;
        letters_left = others;
        rest = words_after;
    }
    push_all(alloc, out, rest)
}

/// Appends an argument with this letter.
fn push_argument(
    alloc: Global,
    out: &mut Vec<Octets>,
    known: Known<'_>,
    letter: u8,
    word: &[u8],
) -> Result<(), NoMemory>
    ensures { OnOk result (out.new.items
        ≡ out.old.items ++ argument_said (known_view known.entry) letter word.now ∷ []) }
{
    match letter {
        b'f' => out.push(format_said(alloc, known, word)?)?,
        b'e' => {
            let mut text = Vec::new(alloc);
            push_expression(&mut text, known, word)?;
            out.push(Octets::from_vec(text))?;
        }
        _ => push(alloc, out, word)?,
    }
    Ok(())
}
