//! Calls of hx_http.

use hx_cases_base::{CaseFault, show, show_option, show_pair};
use hx_http::{HeadFault, Message, read_head, read_head_in};
use hx_text::Octets;
use std::alloc::Global;
use std::fmt::Write;

/// `read_head BYTES`: the length of the head; the method, the target, the minor number, the path
/// and the query; how many lines there are, and the lines.
pub fn read_head_case(alloc: Global, out: &mut String, args: &[Vec<u8>]) -> Result<(), CaseFault> {
    let [bytes] = args else {
        return Err(CaseFault::BadArguments);
    };
    show_head(out, read_head(alloc, bytes.as_slice()))
}

/// `read_head_in BYTES`: what `read_head` answers, of bytes that are handed over.
pub fn read_head_in_case(
    alloc: Global,
    out: &mut String,
    args: &[Vec<u8>],
) -> Result<(), CaseFault> {
    let [bytes] = args else {
        return Err(CaseFault::BadArguments);
    };
    let bytes = Octets::copy(alloc, bytes.as_slice())?;
    show_head(out, read_head_in(alloc, bytes))
}

fn show_head(out: &mut String, read: Result<(Message, usize), HeadFault>) -> Result<(), CaseFault> {
    match read {
        Ok((message, len)) => {
            write!(out, "{len} ")?;
            show_message(out, &message)
        }
        Err(HeadFault::NotAHead) => Ok(out.push_str("not a head")?),
        Err(HeadFault::TooManyHeaders) => Ok(out.push_str("too many headers")?),
        Err(HeadFault::NoMemory) => Err(CaseFault::NoMemory),
    }
}

/// Writes the method, the target, the minor number, the path, the query, and the lines.
pub fn show_message(out: &mut String, message: &Message) -> Result<(), CaseFault> {
    show_parts(out, message)?;
    show_lines(out, message)
}

fn show_parts(out: &mut String, message: &Message) -> Result<(), CaseFault> {
    show(out, message.method())?;
    show(out, message.target())?;
    let minor = message.minor();
    write!(out, " 1.{minor} path ")?;
    show_option(out, message.path())?;
    out.push_str(" query ")?;
    show_option(out, message.query())
}

fn show_lines(out: &mut String, message: &Message) -> Result<(), CaseFault> {
    let len = message.len();
    write!(out, " lines {len}")?;
    for i in 0..len {
        if let Some((name, value)) = message.header(i) {
            show_pair(out, name, value)?;
        }
    }
    match message.header(len) {
        Some(_) => Ok(out.push_str(" and more")?),
        None => Ok(()),
    }
}
