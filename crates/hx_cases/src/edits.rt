//! Edits of a message of hx_http.

use crate::http::show_message;
use httparse::is_token;
use hx_cases_base::{CaseFault, size};
use hx_http::{EditFault, HeadFault, Message, read_head, read_head_in};
use hx_text::{Octets, cut_at};
use std::alloc::Global;
use std::fmt::Write;

/// `edits HEAD EDIT ..`: what each edit answers, and after all of them the message, as `read_head`
/// shows one. The edits are `add_header,NAME,VALUE`, `set_header,NAME,VALUE`, `del_header,NAME`,
/// `replace_value,POSITION,VALUE`, `set_method,TEXT`, `set_path,TEXT`, `set_query,TEXT` and
/// `set_uri,TEXT`. Beside them `copy` goes on with a copy of the message, and answers whether both
/// are the same, and `same,HEAD` answers whether the message is the same as that of another head.
pub fn edits_case(alloc: Global, out: &mut String, args: &[Vec<u8>]) -> Result<(), CaseFault> {
    let [head, edits @ ..] = args else {
        return Err(CaseFault::BadArguments);
    };
    let message = read_message(read_head(alloc, head.as_slice()))?;
    show_edits(alloc, out, message, edits)
}

/// `edits_in HEAD EDIT ..`: what `edits` answers, of bytes that are handed over.
pub fn edits_in_case(alloc: Global, out: &mut String, args: &[Vec<u8>]) -> Result<(), CaseFault> {
    let [head, edits @ ..] = args else {
        return Err(CaseFault::BadArguments);
    };
    let bytes = Octets::copy(alloc, head.as_slice())?;
    let message = read_message(read_head_in(alloc, bytes))?;
    show_edits(alloc, out, message, edits)
}

fn read_message(read: Result<(Message, usize), HeadFault>) -> Result<Message, CaseFault> {
    match read {
        Ok((message, _)) => Ok(message),
        Err(HeadFault::NoMemory) => Err(CaseFault::NoMemory),
        Err(_) => Err(CaseFault::BadArguments),
    }
}

fn show_edits(
    alloc: Global,
    out: &mut String,
    mut message: Message,
    edits: &[Vec<u8>],
) -> Result<(), CaseFault> {
    for edit in edits {
        edit_step(alloc, out, &mut message, edit.as_slice())?;
    }
    show_message(out, &message)
}

/// A copy, a comparison, or an edit.
fn edit_step(
    alloc: Global,
    out: &mut String,
    message: &mut Message,
    step: &[u8],
) -> Result<(), CaseFault> {
    if step == b"copy".as_slice() {
        return copy_step(out, message);
    }
    let (name, text) = cut_at(b',', step).ok_or(CaseFault::BadArguments)?;
    match name {
        b"same" => {
            let other = read_message(read_head(alloc, text))?;
            show_same(out, message, &other)
        }
        b"del_header" => {
            message.del_header(text);
            show_edit(out, Ok(()))
        }
        _ => show_edit(out, edit(message, name, text)?),
    }
}

fn copy_step(out: &mut String, message: &mut Message) -> Result<(), CaseFault> {
    let copied = message.copy()?;
    show_same(out, message, &copied)?;
    *message = copied;
    Ok(())
}

fn show_same(out: &mut String, message: &Message, other: &Message) -> Result<(), CaseFault> {
    if message.same(other) {
        Ok(out.push_str("same ")?)
    } else {
        Ok(out.push_str("not the same ")?)
    }
}

fn show_edit(out: &mut String, edited: Result<(), EditFault>) -> Result<(), CaseFault> {
    match edited {
        Ok(()) => Ok(out.push_str("ok ")?),
        Err(EditFault::BadBytes) => Ok(out.push_str("bad bytes ")?),
        Err(EditFault::TooMany) => Ok(out.push_str("too many headers ")?),
        Err(EditFault::NoPath) => Ok(out.push_str("no path ")?),
        Err(EditFault::NoMemory) => Err(CaseFault::NoMemory),
    }
}

/// Makes the edit of this name of the method or the target; any other is of header lines.
fn edit(
    message: &mut Message,
    name: &[u8],
    text: &[u8],
) -> Result<Result<(), EditFault>, CaseFault> {
    match name {
        b"set_method" => Ok(message.set_method(text)),
        b"set_path" => Ok(message.set_path(text)),
        b"set_query" => Ok(message.set_query(text)),
        b"set_uri" => Ok(message.set_uri(text)),
        _ => {
            let (first, value) = cut_at(b',', text).ok_or(CaseFault::BadArguments)?;
            edit_line(message, name, first, value)
        }
    }
}

/// Makes the edit of this name, which puts a value into a header line that is named by a token or
/// by its position.
fn edit_line(
    message: &mut Message,
    name: &[u8],
    line: &[u8],
    value: &[u8],
) -> Result<Result<(), EditFault>, CaseFault> {
    match name {
        b"add_header" if is_token(line) => Ok(message.add_header(line, value)),
        b"set_header" if is_token(line) => Ok(message.set_header(line, value)),
        b"replace_value" => {
            let i = size(line)?;
            if i >= message.len() {
                return Err(CaseFault::BadArguments);
            }
            Ok(message.replace_value(i, value))
        }
        _ => Err(CaseFault::BadArguments),
    }
}
