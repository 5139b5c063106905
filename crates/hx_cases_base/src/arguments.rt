//! The arguments of calls that aren't plain bytes.

use crate::fault::CaseFault;
use hx_sample::{Bytes, Sample};
use hx_text::{Ip, Kind, Octets, Scope, VarName, cut_at, read_i64, read_ip, read_number};
use std::alloc::Global;

/// A number of at most 64 bits.
pub fn number(text: &[u8]) -> Result<u64, CaseFault> {
    read_number(text, u64::MAX).ok_or(CaseFault::BadArguments)
}

/// A count of bytes, at most 2^24.
pub fn size(text: &[u8]) -> Result<usize, CaseFault> {
    match read_number(text, 16_777_216) {
        Some(n) => Ok(n as usize),
        None => Err(CaseFault::BadArguments),
    }
}

/// A number of at most 32 bits.
pub fn id(text: &[u8]) -> Result<u32, CaseFault> {
    match read_number(text, 4_294_967_295) {
        Some(n) => Ok(n as u32),
        None => Err(CaseFault::BadArguments),
    }
}

/// A port.
pub fn port(text: &[u8]) -> Result<u16, CaseFault> {
    match read_number(text, 65_535) {
        Some(n) => Ok(n as u16),
        None => Err(CaseFault::BadArguments),
    }
}

/// A number with a sign.
pub fn signed(text: &[u8]) -> Result<i64, CaseFault> {
    read_i64(text).ok_or(CaseFault::BadArguments)
}

/// An address.
pub fn address(text: &[u8]) -> Result<Ip, CaseFault> {
    read_ip(text).ok_or(CaseFault::BadArguments)
}

/// One byte, or none where the text is empty.
pub fn byte(text: &[u8]) -> Result<Option<u8>, CaseFault> {
    match text {
        [] => Ok(None),
        [byte] => Ok(Some(*byte)),
        _ => Err(CaseFault::BadArguments),
    }
}

/// Numbers with commas between, or `-` for none.
pub fn numbers(alloc: Global, text: &[u8]) -> Result<Vec<u64>, CaseFault> {
    let mut numbers = Vec::new(alloc);
    if text == b"-".as_slice() {
        return Ok(numbers);
    }
    for piece in text.split(|b| *b == b',') {
        numbers.push(number(piece)?)?;
    }
    Ok(numbers)
}

/// Names with their values, as `NAME=VALUE`, with `;` between, or `-` for none.
pub fn pairs(alloc: Global, text: &[u8]) -> Result<Vec<(Vec<u8>, Vec<u8>)>, CaseFault> {
    let mut pairs = Vec::new(alloc);
    if text == b"-".as_slice() {
        return Ok(pairs);
    }
    for piece in text.split(|b| *b == b';') {
        let (name, value) = cut_at(b'=', piece).ok_or(CaseFault::BadArguments)?;
        let name = Vec::from_slice(alloc, name)?;
        pairs.push((name, Vec::from_slice(alloc, value)?))?;
    }
    Ok(pairs)
}

/// The kind of samples that is named so.
pub fn kind(text: &[u8]) -> Result<Kind, CaseFault> {
    match text {
        b"bool" => Ok(Kind::Bool),
        b"int" => Ok(Kind::Int),
        b"ip" => Ok(Kind::Ip),
        b"str" => Ok(Kind::Str),
        b"bin" => Ok(Kind::Bin),
        b"method" => Ok(Kind::Method),
        b"any" => Ok(Kind::Any),
        _ => Err(CaseFault::BadArguments),
    }
}

fn scope(text: &[u8]) -> Result<Scope, CaseFault> {
    match text {
        b"proc" => Ok(Scope::Proc),
        b"sess" => Ok(Scope::Sess),
        b"txn" => Ok(Scope::Txn),
        b"req" => Ok(Scope::Req),
        b"res" => Ok(Scope::Res),
        _ => Err(CaseFault::BadArguments),
    }
}

/// The variable `SCOPE.NAME`.
pub fn variable(alloc: Global, text: &[u8]) -> Result<VarName, CaseFault> {
    let (before, name) = cut_at(b'.', text).ok_or(CaseFault::BadArguments)?;
    Ok(VarName {
        scope: scope(before)?,
        name: Octets::copy(alloc, name)?,
    })
}

/// The sample `KIND:VALUE`, whose bytes are lent.
pub fn sample(text: &[u8]) -> Result<Sample<'_>, CaseFault> {
    let (before, value) = cut_at(b':', text).ok_or(CaseFault::BadArguments)?;
    match kind(before)? {
        Kind::Bool => Ok(Sample::Bool(value == b"true".as_slice())),
        Kind::Int => Ok(Sample::Int(signed(value)?)),
        Kind::Ip => Ok(Sample::Ip(address(value)?)),
        Kind::Str => Ok(Sample::Str(Bytes::Lent(value))),
        Kind::Bin => Ok(Sample::Bin(Bytes::Lent(value))),
        Kind::Method => Ok(Sample::Method(Bytes::Lent(value))),
        Kind::Any => Err(CaseFault::BadArguments),
    }
}

/// The sample of a text, or none for `none`.
pub fn occurrence(text: &[u8]) -> Result<Option<Sample<'_>>, CaseFault> {
    if text == b"none".as_slice() {
        return Ok(None);
    }
    Ok(Some(sample(text)?))
}
