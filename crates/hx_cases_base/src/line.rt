//! A line of a case: what repeats is written out, then blanks cut it, then bytes are decoded.

use crate::fault::CaseFault;
use hx_text::{cut_at, read_number};
use std::alloc::Global;
use std::fmt::Write;

/// The line with each `{N*TEXT}` written out, which is TEXT N times. A `#` in TEXT stands for the
/// number of the repetition, counted from 0.
pub fn expanded(alloc: Global, line: &[u8]) -> Result<Vec<u8>, CaseFault> {
    let mut out = Vec::new(alloc);
    let mut pieces = line.split(|b| *b == b'{');
    if let Some(first) = pieces.next() {
        out.extend_from_slice(first)?;
    }
    for piece in pieces {
        push_group(alloc, &mut out, piece)?;
    }
    Ok(out)
}

/// Appends what `N*TEXT}AFTER` stands for.
fn push_group(alloc: Global, out: &mut Vec<u8>, piece: &[u8]) -> Result<(), CaseFault> {
    let (group, after) = cut_at(b'}', piece).ok_or(CaseFault::BadEscape)?;
    let (count, text) = cut_at(b'*', group).ok_or(CaseFault::BadEscape)?;
    let count = read_number(count, 16_777_216).ok_or(CaseFault::BadEscape)?;
    for i in 0..count {
        push_text(alloc, out, text, i)?;
    }
    out.extend_from_slice(after)?;
    Ok(())
}

/// Appends TEXT, with this number for each `#`.
fn push_text(alloc: Global, out: &mut Vec<u8>, text: &[u8], i: u64) -> Result<(), CaseFault> {
    let mut parts = text.split(|b| *b == b'#');
    if let Some(first) = parts.next() {
        out.extend_from_slice(first)?;
    }
    for part in parts {
        out.extend_from_slice(format!(in alloc; "{i}")?.as_bytes())?;
        out.extend_from_slice(part)?;
    }
    Ok(())
}

/// The words of a line between single blanks, each decoded.
pub fn words(alloc: Global, line: &[u8]) -> Result<Vec<Vec<u8>>, CaseFault> {
    let mut words = Vec::new(alloc);
    for word in line.split(|b| *b == b' ') {
        words.push(decoded(alloc, word)?)?;
    }
    Ok(words)
}

/// The bytes that a text writes: `%` and two hex digits are a byte, and `%-` is nothing.
pub fn decoded(alloc: Global, text: &[u8]) -> Result<Vec<u8>, CaseFault> {
    let mut out = Vec::new(alloc);
    let mut pieces = text.split(|b| *b == b'%');
    if let Some(first) = pieces.next() {
        out.extend_from_slice(first)?;
    }
    for piece in pieces {
        push_escape(&mut out, piece)?;
    }
    Ok(out)
}

/// Appends what a `%` and this piece stand for.
fn push_escape(out: &mut Vec<u8>, piece: &[u8]) -> Result<(), CaseFault> {
    match piece {
        [b'-', rest @ ..] => out.extend_from_slice(rest)?,
        [high, low, rest @ ..] => {
            let high = hex_value(*high).ok_or(CaseFault::BadEscape)?;
            let low = hex_value(*low).ok_or(CaseFault::BadEscape)?;
            out.push(high << 4 | low)?;
            out.extend_from_slice(rest)?;
        }
        _ => return Err(CaseFault::BadEscape),
    }
    Ok(())
}

fn hex_value(digit: u8) -> Option<u8> {
    match digit {
        b'0'..=b'9' => Some(digit - b'0'),
        b'a'..=b'f' => Some(digit - b'a' + 10),
        b'A'..=b'F' => Some(digit - b'A' + 10),
        _ => None,
    }
}

/// Writes bytes in brackets. Brackets, `%`, and bytes that aren't graphic ASCII or a space, are `%`
/// and two hex digits.
pub fn show(out: &mut String, bytes: &[u8]) -> Result<(), CaseFault> {
    out.push('[')?;
    for byte in bytes {
        show_byte(out, *byte)?;
    }
    out.push(']')?;
    Ok(())
}

fn show_byte(out: &mut String, byte: u8) -> Result<(), CaseFault> {
    match byte {
        b'%' | b'[' | b']' => write!(out, "%{byte:02X}")?,
        b' '..=b'~' => out.push(char::from(byte))?,
        _ => write!(out, "%{byte:02X}")?,
    }
    Ok(())
}

/// Writes bytes in brackets, or `none`.
pub fn show_option(out: &mut String, bytes: Option<&[u8]>) -> Result<(), CaseFault> {
    match bytes {
        Some(bytes) => show(out, bytes),
        None => Ok(out.push_str("none")?),
    }
}

/// Writes a name and a value in brackets.
pub fn show_pair(out: &mut String, name: &[u8], value: &[u8]) -> Result<(), CaseFault> {
    show(out, name)?;
    out.push('=')?;
    show(out, value)
}
