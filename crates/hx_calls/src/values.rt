ghost use Rattle.std.specs.Prelude.{◌≡◌, IfOk, IfSome, ◌≤◌, codes, option_and_then};
ghost use Rattle.std.specs.List.{list_all, list_any};
ghost use Rattle.hx_text.specs.Network.{mask_of, width_of};
ghost use Rattle.hx_text.specs.Address.{ip_of};
ghost use Rattle.hx_calls.specs.Values.{index_of, amount_of, digest_length_of, delimiters_of, header_of};
ghost use Rattle.hx_calls.specs.Values.{hex_of, byte_of, boolean_of, letters_of, is_among};
ghost use Rattle.hx_calls.specs.Values.{ipv4_address_of, ipv6_address_of, ipv4_mask_of, ipv4_number};

use hex::FromHexError;
use httparse::is_token;
use hx_text::{Ip, NoMemory, Octets, read_i64, read_ip, read_number};
use std::alloc::Global;

/// The number of an occurrence or of a piece, which isn't 0.
pub(crate) fn index(text: &[u8]) -> Option<i64>
    ensures { result ≡ index_of text.now }
{
    let n = read_i64(text)?;
    if n == 0 { None } else { Some(n) }
}

/// A count or an offset, which isn't negative.
pub(crate) fn count(text: &[u8]) -> Option<i64>
    ensures { result ≡ amount_of text.now }
{
    let n = read_i64(text)?;
    if n < 0 { None } else { Some(n) }
}

/// A number up to `most` without a leading zero.
#[tactic(auto, unfolding(hx_text::specs::Network::width_of))]
pub fn width(text: &[u8], most: u32) -> Option<u32>
    ensures value { result ≡ width_of most text.now }
    ensures within { IfSome result (λ n. n ≤ most) }
{
    if text.len() > 1 && text[0] == b'0' {
        return None;
    }
    match read_number(text, u64::from(most)) {
        Some(n) => Some(n as u32),
        None => None,
    }
}

/// How many bits a digest of SHA-2 has.
pub(crate) fn digest(text: &[u8]) -> Option<u16>
    ensures { result ≡ digest_length_of text.now }
{
    let bits = width(text, 512)?;
    match bits {
        224 | 256 | 384 | 512 => Some(bits as u16),
        _ => None,
    }
}

/// One byte or more.
pub(crate) fn delimiters(alloc: Global, text: &[u8]) -> Result<Option<Octets>, NoMemory>
    ensures { IfOk result (λ found. found ≡ delimiters_of text.now) }
{
    if text.is_empty() {
        return Ok(None);
    }
    Ok(Some(Octets::copy(alloc, text)?))
}

/// The name of a header.
pub fn header(alloc: Global, text: &[u8]) -> Result<Option<Octets>, NoMemory>
    ensures { IfOk result (λ found. found ≡ header_of text.now) }
{
    if is_token(text) {
        Ok(Some(Octets::copy(alloc, text)?))
    } else {
        Ok(None)
    }
}

/// The bytes that pairs of hex digits write.
pub(crate) fn hex_bytes(alloc: Global, text: &[u8]) -> Result<Option<Octets>, NoMemory>
    ensures { IfOk result (λ found. found ≡ hex_of text.now) }
{
    match hex::decode(alloc, text) {
        Ok(bytes) => Ok(Some(Octets::from_vec(bytes))),
        Err(FromHexError::OutOfMemory) => Err(NoMemory),
        Err(_) => Ok(None),
    }
}

/// One byte alone.
pub(crate) fn byte(text: &[u8]) -> Option<u8>
    ensures { result ≡ byte_of text.now }
{
    match text {
        [byte] => Some(*byte),
        _ => None,
    }
}

pub(crate) fn boolean(text: &[u8]) -> Option<bool>
    ensures { result ≡ boolean_of text.now }
{
    if text == b"true".as_slice() || text == b"1".as_slice() {
        Some(true)
    } else if text == b"false".as_slice() || text == b"0".as_slice() {
        Some(false)
    } else {
        None
    }
}

/// Whether the byte is one of these.
pub fn is_among(bytes: &[u8], byte: u8) -> bool
    ensures { result ≡ is_among bytes.now byte }
{
    bytes.iter().any(|other| *other == byte)
}

fn are_letters(text: &[u8]) -> bool
    ensures { result ≡ list_all (is_among (codes "gi")) text.now }
{
    text.iter().all(|byte| is_among(b"gi", *byte))
}

fn has_letter(letter: &[u8], text: &[u8]) -> bool
    ensures { result ≡ list_any (is_among letter.now) text.now }
{
    text.iter().any(|byte| is_among(letter, *byte))
}

/// Whether the flags of `regsub` have `g`, and whether they have `i`.
pub(crate) fn letters(text: &[u8]) -> Option<(bool, bool)>
    ensures { result ≡ letters_of text.now }
{
    if are_letters(text) {
        Some((has_letter(b"g", text), has_letter(b"i", text)))
    } else {
        None
    }
}

pub(crate) fn ipv4(text: &[u8]) -> Option<Ip>
    ensures { result ≡ ipv4_address_of text.now }
{
    match read_ip(text) {
        Some(Ip::V4(address)) => Some(Ip::V4(address)),
        _ => None,
    }
}

pub(crate) fn ipv6(text: &[u8]) -> Option<Ip>
    ensures { result ≡ ipv6_address_of text.now }
{
    match read_ip(text) {
        Some(Ip::V6(address)) => Some(Ip::V6(address)),
        _ => None,
    }
}

fn mask_of_width(bits: u32) -> u32
    requires { bits ≤ 32 }
    ensures { result ≡ mask_of bits }
{
    if bits == 0 {
        0
    } else {
        u32::MAX << (32 - bits)
    }
}

fn dotted_mask(text: &[u8]) -> Option<u32>
    ensures { result ≡ option_and_then ipv4_number (ip_of text.now) }
{
    match read_ip(text) {
        Some(Ip::V4(mask)) => Some(mask),
        _ => None,
    }
}

/// The mask of an IPv4 address, by its number of bits or in dotted decimal.
pub(crate) fn ipv4_mask(text: &[u8]) -> Option<u32>
    ensures { result ≡ ipv4_mask_of text.now }
{
    match width(text, 32) {
        Some(bits) => Some(mask_of_width(bits)),
        None => dotted_mask(text),
    }
}
