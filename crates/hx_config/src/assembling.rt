ghost use Rattle.std.specs.Prelude.{◌≡◌, option_map, IfOk, Some};
ghost use Rattle.std.specs.Option.{option_copied};
ghost use Rattle.hx_base.specs.Bytes.{ascii};
ghost use Rattle.hx_words.specs.Calls.{calls_of};
ghost use Rattle.hx_config.specs.AppendView.{append_view, first_view};
ghost use Rattle.hx_config.specs.Assembling.{assembled, byte_append, closing, empty_text};
ghost use Rattle.hx_config.specs.Assembling.{first_text, is_always_found, is_from_format};
ghost use Rattle.hx_config.specs.Assembling.{opening, percent_append, plain_append, text_called};
ghost use Rattle.hx_config.specs.Assembling.{variable_action, variable_append, variable_called};
ghost use Rattle.hx_config.specs.Assembling.{variable_in, variables_said};

use crate::left_out::action_name;
use crate::quoted::push_quoted_byte;
use crate::words::{copied, push, push_all};
use hx_lint::is_among;
use hx_text::{NoMemory, Octets};
use hx_words::{ArgFault, Calls, calls};
use std::alloc::Global;

/// Fetches that have a value of every request.
pub(crate) const ALWAYS_FOUND: [&[u8]; 8] = [
    b"src",
    b"src_port",
    b"dst",
    b"dst_port",
    b"method",
    b"url",
    b"req.ver",
    b"req_ver",
];

/// What an expression begins with, and how many bytes of the format it stands for.
#[derive(Drop)]
pub(crate) struct FirstText {
    pub(crate) text: Vec<u8>,
    pub(crate) skip: usize,
}

/// What a byte of a format and those after it append, whether the quotes of an argument are open
/// then, and how many of the bytes after it are taken.
#[derive(Drop)]
pub(crate) struct Append {
    pub(crate) text: Vec<u8>,
    pub(crate) is_open: bool,
    pub(crate) skip: usize,
}

/// The words of a line, with `set-var-fmt` said where its format can be assembled.
pub(crate) fn variables_said(alloc: Global, words: &[Octets]) -> Result<Vec<Octets>, NoMemory>
    ensures { IfOk result (λ said. said.items ≡ variables_said words.now) }
{
    match words {
        [keyword, action, format, condition @ ..]
            if is_from_format(keyword.as_slice(), action.as_slice()) => {
            match assembled(alloc, format.as_slice())? {
                Some(expression) => {
                    let mut out = Vec::new(alloc);
                    push(alloc, &mut out, keyword.as_slice())?;
                    out.push(variable_action(alloc, action.as_slice())?)?;
                    out.push(expression)?;
                    push_all(alloc, &mut out, condition)?;
                    Ok(out)
                }
                None => copied(alloc, words),
            }
        }
        _ => copied(alloc, words),
    }
}

/// Whether this is a rule that sets a variable from a format.
fn is_from_format(keyword: &[u8], action: &[u8]) -> bool
    ensures { result ≡ is_from_format keyword.now action.now }
{
    keyword == b"http-request".as_slice() && action_name(action) == b"set-var-fmt".as_slice()
}

/// `set-var(VAR)` for `set-var-fmt(VAR)`.
fn variable_action(alloc: Global, action: &[u8]) -> Result<Octets, NoMemory>
    ensures { IfOk result (λ said. said ≡ variable_action action.now) }
{
    let mut text = Vec::new(alloc);
    text.extend_from_slice(b"set-var")?;
    text.extend_from_slice(action.get(action_name(action).len()..).unwrap_or(b""))?;
    Ok(Octets::from_vec(text))
}

/// The expression that makes the text of a format; none where it has a part that can't be appended.
#[tactic(auto, unfolding(crate::specs::Assembling::assembled))]
fn assembled(alloc: Global, format: &[u8]) -> Result<Option<Octets>, NoMemory>
    ensures { IfOk result (λ found. found ≡ assembled format.now) }
{
    let first = first_text(alloc, format)?;
    let mut out = Vec::new(alloc);
    out.extend_from_slice(first.text.as_slice())?;
    let mut is_open = false;
    let mut skip = first.skip;
    let mut rest = format;
    while let [byte, after @ ..] = rest {
        if skip > 0 {
            skip -= 1;
        } else {
            let Some(part) = byte_append(alloc, is_open, *byte, after)? else {
                return Ok(None);
            };
            out.extend_from_slice(part.text.as_slice())?;
            is_open = part.is_open;
            skip = part.skip;
        }
        rest = after;
    }
    out.extend_from_slice(closing(is_open))?;
    Ok(Some(Octets::from_vec(out)))
}

/// What the expression of a format begins with.
fn first_text(alloc: Global, format: &[u8]) -> Result<FirstText, NoMemory>
    ensures { IfOk result (λ first. first_view first ≡ first_text format.now) }
{
    match format {
        [percent, bracket, inside @ ..] if *percent == b'%' && *bracket == b'[' => {
            text_called(alloc, inside)
        }
        _ => empty_text(alloc),
    }
}

/// The value of the fetch that is called alone, where it always has one, as a string.
fn text_called(alloc: Global, inside: &[u8]) -> Result<FirstText, NoMemory>
    ensures { IfOk result (λ first. first_view first
        ≡ text_called inside.now (calls_of (Some (ascii "]")) inside.now)) }
{
    match calls(alloc, inside, Some(b']')) {
        Ok(found) => {
            if !is_always_found(&found) {
                return empty_text(alloc);
            }
            let used = found.used();
            let mut text = Vec::new(alloc);
            text.extend_from_slice(&inside[..used.saturating_sub(1)])?;
            text.extend_from_slice(b",concat()")?;
            Ok(FirstText {
                text,
                skip: used + 2,
            })
        }
        Err(ArgFault::NoMemory) => Err(NoMemory),
        Err(_) => empty_text(alloc),
    }
}

fn empty_text(alloc: Global) -> Result<FirstText, NoMemory>
    ensures { IfOk result (λ first. first_view first ≡ empty_text) }
{
    let mut text = Vec::new(alloc);
    text.extend_from_slice(b"str(\"\")")?;
    Ok(FirstText { text, skip: 0 })
}

/// Whether this is the one call of a fetch that always has a value.
fn is_always_found(found: &Calls) -> bool
    ensures { result ≡ is_always_found found.now.calls }
{
    if found.len() != 1 {
        return false;
    }
    match found.call(0) {
        Some(call) => is_among(&ALWAYS_FOUND, call.name()),
        None => false,
    }
}

/// What opens the quotes of an argument.
fn opening(is_open: bool) -> &'static [u8]
    ensures { result.now ≡ opening is_open }
{
    if is_open { b"" } else { b",concat(\"" }
}

/// What closes the quotes of an argument.
fn closing(is_open: bool) -> &'static [u8]
    ensures { result.now ≡ closing is_open }
{
    if is_open { b"\")" } else { b"" }
}

/// What a byte of a format with these after it appends.
fn byte_append(
    alloc: Global,
    is_open: bool,
    byte: u8,
    after: &[u8],
) -> Result<Option<Append>, NoMemory>
    ensures { IfOk result
        (λ found. option_map append_view found ≡ byte_append is_open byte after.now) }
{
    if byte == b'%' {
        percent_append(alloc, is_open, after)
    } else {
        Ok(Some(plain_append(alloc, is_open, byte, 0)?))
    }
}

/// What a `%` with these bytes after it appends.
fn percent_append(alloc: Global, is_open: bool, after: &[u8]) -> Result<Option<Append>, NoMemory>
    ensures { IfOk result
        (λ found. option_map append_view found ≡ percent_append is_open after.now) }
{
    let [byte, inside @ ..] = after else {
        return Ok(None);
    };
    if *byte == b'%' {
        Ok(Some(plain_append(alloc, is_open, b'%', 1)?))
    } else if *byte == b'[' {
        variable_called(alloc, is_open, inside)
    } else {
        Ok(None)
    }
}

/// A byte as it is.
fn plain_append(alloc: Global, is_open: bool, byte: u8, skip: usize) -> Result<Append, NoMemory>
    ensures { IfOk result (λ part. append_view part ≡ plain_append is_open byte skip) }
{
    let mut text = Vec::new(alloc);
    text.extend_from_slice(opening(is_open))?;
    push_quoted_byte(&mut text, byte)?;
    Ok(Append {
        text,
        is_open: true,
        skip,
    })
}

/// The variable in `%[var(NAME)]`, where these bytes follow the bracket.
fn variable_called(alloc: Global, is_open: bool, inside: &[u8]) -> Result<Option<Append>, NoMemory>
    ensures { IfOk result (λ found. option_map append_view found
        ≡ variable_called is_open (calls_of (Some (ascii "]")) inside.now)) }
{
    match calls(alloc, inside, Some(b']')) {
        Ok(found) => match variable_in(&found) {
            Some(name) => Ok(Some(variable_append(alloc, is_open, name, found.used() + 1)?)),
            None => Ok(None),
        },
        Err(ArgFault::NoMemory) => Err(NoMemory),
        Err(_) => Ok(None),
    }
}

/// The name in the one call `var(NAME)`.
fn variable_in(found: &Calls) -> Option<&[u8]>
    ensures { option_copied result ≡ variable_in found.now.calls }
{
    if found.len() != 1 {
        return None;
    }
    let call = found.call(0)?;
    if call.name() == b"var".as_slice() && call.len() == 1 {
        call.arg(0)
    } else {
        None
    }
}

/// A variable, after which so many bytes are taken.
fn variable_append(
    alloc: Global,
    is_open: bool,
    name: &[u8],
    skip: usize,
) -> Result<Append, NoMemory>
    ensures { IfOk result (λ part. append_view part ≡ variable_append is_open name.now skip) }
{
    let mut text = Vec::new(alloc);
    text.extend_from_slice(closing(is_open))?;
    text.extend_from_slice(b",concat(,")?;
    text.extend_from_slice(name)?;
    text.extend_from_slice(b")")?;
    Ok(Append {
        text,
        is_open: false,
        skip,
    })
}
