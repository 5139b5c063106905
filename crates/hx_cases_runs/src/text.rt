//! The words of a line, and the texts that stand in it.

use hx_cases_base::CaseFault;
use hx_text::cut_at;
use std::alloc::Global;

/// The first word of a text, and what stands after the blank that follows it.
pub fn word_and_text(text: &[u8]) -> (&[u8], &[u8]) {
    match cut_at(b' ', text) {
        Some(cut) => cut,
        None => (text, b""),
    }
}

/// Appends the bytes that a text stands for.
pub fn push_decoded(bytes: &mut Vec<u8>, text: &[u8]) -> Result<(), CaseFault> {
    for byte in text {
        match *byte {
            b'~' => bytes.push(b'\n')?,
            b'^' => bytes.extend_from_slice(b"\r\n")?,
            b'`' => bytes.push(b'^')?,
            byte => bytes.push(byte)?,
        }
    }
    Ok(())
}

/// The bytes that a text stands for.
pub fn decoded(alloc: Global, text: &[u8]) -> Result<Vec<u8>, CaseFault> {
    let mut bytes = Vec::new(alloc);
    push_decoded(&mut bytes, text)?;
    Ok(bytes)
}

/// Appends bytes, with `~` for each line feed.
pub fn push_encoded(out: &mut Vec<u8>, bytes: &[u8]) -> Result<(), CaseFault> {
    for byte in bytes {
        match *byte {
            b'\n' => out.push(b'~')?,
            byte => out.push(byte)?,
        }
    }
    Ok(())
}

/// The text with these digits for each `#`.
pub fn numbered(alloc: Global, text: &[u8], digits: &[u8]) -> Result<Vec<u8>, CaseFault> {
    let mut out = Vec::new(alloc);
    for byte in text {
        match *byte {
            b'#' => out.extend_from_slice(digits)?,
            byte => out.push(byte)?,
        }
    }
    Ok(out)
}
