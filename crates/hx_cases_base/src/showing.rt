//! How addresses and samples are written.

use crate::fault::CaseFault;
use crate::line::show;
use hx_sample::{Bytes, Sample, Samples};
use hx_text::Ip;
use std::fmt::Write;

/// Writes an address: its family, and the number that its bits make, in hex digits.
pub fn show_address(out: &mut String, ip: Ip) -> Result<(), CaseFault> {
    match ip {
        Ip::V4(a) => write!(out, "v4 {a:08x}")?,
        Ip::V6(a) => {
            let high = (a >> 64) as u64;
            let low = (a % 0x1_0000_0000_0000_0000) as u64;
            write!(out, "v6 {high:016x}{low:016x}")?;
        }
    }
    Ok(())
}

fn show_bytes(out: &mut String, kind: &str, bytes: &Bytes<'_>) -> Result<(), CaseFault> {
    out.push_str(kind)?;
    match bytes {
        Bytes::Lent(bytes) => {
            out.push_str(" lent ")?;
            show(out, bytes)
        }
        Bytes::Own(octets) => {
            out.push_str(" own ")?;
            show(out, octets.as_slice())
        }
    }
}

/// Writes an occurrence: its kind, whether its bytes are lent, its value, and a bar.
pub fn show_occurrence(out: &mut String, found: &Option<Sample<'_>>) -> Result<(), CaseFault> {
    match found {
        None => out.push_str("none")?,
        Some(Sample::Bool(b)) => write!(out, "bool {b}")?,
        Some(Sample::Int(n)) => write!(out, "int {n}")?,
        Some(Sample::Ip(ip)) => show_address(out, *ip)?,
        Some(Sample::Str(bytes)) => show_bytes(out, "str", bytes)?,
        Some(Sample::Bin(bytes)) => show_bytes(out, "bin", bytes)?,
        Some(Sample::Method(bytes)) => show_bytes(out, "method", bytes)?,
    }
    Ok(out.push('|')?)
}

/// Takes all of at most that many occurrences, and writes them.
pub fn show_all(out: &mut String, mut samples: Samples<'_>, most: usize) -> Result<(), CaseFault> {
    for _ in 0..most {
        match samples.take() {
            Some(found) => show_occurrence(out, &found)?,
            None => return Ok(()),
        }
    }
    match samples.take() {
        Some(_) => Ok(out.push_str("more")?),
        None => Ok(()),
    }
}
