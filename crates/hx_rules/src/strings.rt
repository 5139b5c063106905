//! Values as strings, for the texts that formats make.
ghost use Rattle.std.specs.Prelude.{◌≡◌, ◌++◌, [], IfOk, OnOk};
ghost use Rattle.std.specs.Fmt.{signed_decimal};
ghost use Rattle.hx_text.specs.Address.{ip_text};
ghost use Rattle.hx_sample.specs.Seen.{bytes_of, occurrence_value};
ghost use Rattle.hx_rules.specs.Formats.{string_of};

use crate::owning::owned_bytes;
use hx_sample::{Bytes, Sample, cast};
use hx_text::{Ip, Kind, NoMemory, Octets, print_i64, print_ip};
use std::alloc::Global;

fn push_number(text: &mut Octets, n: i64) -> Result<(), NoMemory>
    ensures { OnOk result (text.new ≡ text.old ++ signed_decimal n) }
{
    let mut out = [0; 20];
    let len = print_i64(n, &mut out);
    text.push_all(&out[..len])
}

fn push_address(text: &mut Octets, ip: Ip) -> Result<(), NoMemory>
    ensures { OnOk result (text.new ≡ text.old ++ ip_text ip) }
{
    let mut out = [0; 39];
    let len = print_ip(ip, &mut out);
    text.push_all(&out[..len])
}

fn number_in(room: Vec<u8>, n: i64) -> Result<Octets, NoMemory>
    requires { room.items ≡ [] }
    ensures { IfOk result (λ text. text ≡ signed_decimal n) }
{
    let mut text = Octets::from_vec(room);
    push_number(&mut text, n)?;
    Ok(text)
}

fn address_in(room: Vec<u8>, ip: Ip) -> Result<Octets, NoMemory>
    requires { room.items ≡ [] }
    ensures { IfOk result (λ text. text ≡ ip_text ip) }
{
    let mut text = Octets::from_vec(room);
    push_address(&mut text, ip)?;
    Ok(text)
}

/// The bytes of the value as a string, which are none where there is no value.
fn string_bytes<'a>(alloc: Global, value: Option<Sample<'a>>) -> Result<Bytes<'a>, NoMemory>
    ensures { IfOk result (λ bytes. bytes_of bytes ≡ string_of (occurrence_value value.entry)) }
{
    let Some(sample) = value else {
        return Ok(Bytes::Lent(b""));
    };
    match cast(alloc, sample, Kind::Str)? {
        Some(Sample::Str(bytes)) => Ok(bytes),
        _ => Ok(Bytes::Lent(b"")),
    }
}

/// Appends the value as a string, or nothing where there is no value. What is printed is printed in
/// place.
pub(crate) fn push_string(
    alloc: Global,
    text: &mut Octets,
    value: Option<Sample<'_>>,
) -> Result<(), NoMemory>
    ensures { OnOk result (text.new ≡ text.old ++ string_of (occurrence_value value.entry)) }
{
    match value {
        Some(Sample::Int(n)) => push_number(text, n),
        Some(Sample::Ip(ip)) => push_address(text, ip),
        other => text.push_all(string_bytes(alloc, other)?.as_slice()),
    }
}

/// The value as a string. Bytes of its own stay where they are, and others are written to a room
/// that is empty.
pub(crate) fn string_in(
    alloc: Global,
    room: Vec<u8>,
    value: Option<Sample<'_>>,
) -> Result<Octets, NoMemory>
    requires { room.items ≡ [] }
    ensures { IfOk result (λ text. text ≡ string_of (occurrence_value value.entry)) }
{
    match value {
        Some(Sample::Int(n)) => number_in(room, n),
        Some(Sample::Ip(ip)) => address_in(room, ip),
        other => owned_bytes(room, string_bytes(alloc, other)?),
    }
}
