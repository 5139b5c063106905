ghost use Rattle.std.specs.Prelude.{◌≡◌, ◌≢◌, IfOk, IfSome, IsOk, Some, false, codes, if◌then◌else◌};
ghost use Rattle.std.specs.Fmt.{signed_decimal};
ghost use Rattle.hx_text.specs.Address.{ip_text};
ghost use Rattle.hx_sample.specs.Seen.{bytes_of, value_of, occurrence_value, kept_bytes, IsSameWhereBoth};
ghost use Rattle.hx_sample.specs.Cast.{cast_of, is_printed, kind_of};
ghost use Rattle.hx_sample.specs.declared.sample.Value.TheVariants as value;

use crate::sample::{Bytes, Sample};
use hx_text::{Ip, Kind, NoMemory, Octets, print_i64, print_ip, read_i64, read_ip};
use std::alloc::Global;

fn bool_text(b: bool) -> &'static [u8]
    ensures { result.now ≡ (if b then codes "1" else codes "0") }
{
    if b { b"1" } else { b"0" }
}

fn number_text(alloc: Global, n: i64) -> Result<Octets, NoMemory>
    ensures { IfOk result (λ text. text ≡ signed_decimal n) }
{
    let mut out = [0; 20];
    let len = print_i64(n, &mut out);
    Octets::copy(alloc, &out[..len])
}

fn address_text(alloc: Global, ip: Ip) -> Result<Octets, NoMemory>
    ensures { IfOk result (λ text. text ≡ ip_text ip) }
{
    let mut out = [0; 39];
    let len = print_ip(ip, &mut out);
    Octets::copy(alloc, &out[..len])
}

/// The text as a value of the kind `kind`, or none where it writes none. No bytes are copied, and
/// no memory is taken.
pub(crate) fn read_as<'a>(text: Bytes<'a>, kind: Kind) -> Option<Sample<'a>>
    ensures value { occurrence_value result ≡ cast_of (value.Str (bytes_of text.entry)) kind }
    ensures kept { IfSome result (λ s. IsSameWhereBoth (Some text.entry) (kept_bytes s)) }
{
    match kind {
        Kind::Bool => read_i64(text.as_slice()).map(|n| Sample::Bool(n != 0)),
        Kind::Int => read_i64(text.as_slice()).map(|n| Sample::Int(n)),
        Kind::Ip => read_ip(text.as_slice()).map(|ip| Sample::Ip(ip)),
        Kind::Str | Kind::Any => Some(Sample::Str(text)),
        Kind::Bin => Some(Sample::Bin(text)),
        Kind::Method => Some(Sample::Method(text)),
    }
}

/// The sample as one of the type `kind` (HAProxy configuration manual 2.4, section 7.3.1). It is
/// left as it is where it has that type, or `kind` is `Any`. Otherwise
///
/// - a boolean is cast to an integer or a string, `1` for true and `0` for false;
/// - an integer to a boolean, true where it isn't zero, or to its shortest decimal text;
/// - an address to its text, as `print_ip` writes it;
/// - a string to the integer that `read_i64` reads, to a boolean by that integer, to the address
///   that `read_ip` reads, or to a binary or a method of the same bytes;
/// - a binary to a string, and a method to a string or a binary, of the same bytes.
///
/// None exactly where this list has no such cast, or the string writes no integer or no address.
/// Bytes that stay the same stay where they were, lent or owned. Memory is taken only where an
/// integer or an address is cast to a string, and only there can it run out.
pub fn cast<'a>(
    alloc: Global,
    sample: Sample<'a>,
    kind: Kind,
) -> Result<Option<Sample<'a>>, NoMemory>
    ensures value { IfOk result (λ cast.
        occurrence_value cast ≡ cast_of (value_of sample.entry) kind) }

    // `value` says this too, by cases.
    ensures kind { kind ≢ Kind.Any →
        IfOk result (λ cast. IfSome cast (λ s. kind_of (value_of s) ≡ kind)) }
    ensures not_printed { is_printed (value_of sample.entry) kind ≡ false → IsOk result }

    // The bytes are those of the sample, lent from the same memory or owned.
    ensures kept { IfOk result (λ cast. IfSome cast (λ s.
        IsSameWhereBoth (kept_bytes sample.entry) (kept_bytes s))) }
{
    match (sample, kind) {
        (sample, Kind::Any) => Ok(Some(sample)),
        (Sample::Bool(b), Kind::Bool) => Ok(Some(Sample::Bool(b))),
        (Sample::Bool(b), Kind::Int) => Ok(Some(Sample::Int(i64::from(b)))),
        (Sample::Bool(b), Kind::Str) => Ok(Some(Sample::Str(Bytes::Lent(bool_text(b))))),
        (Sample::Int(n), Kind::Bool) => Ok(Some(Sample::Bool(n != 0))),
        (Sample::Int(n), Kind::Int) => Ok(Some(Sample::Int(n))),
        (Sample::Int(n), Kind::Str) => Ok(Some(Sample::Str(Bytes::Own(number_text(alloc, n)?)))),
        (Sample::Ip(ip), Kind::Ip) => Ok(Some(Sample::Ip(ip))),
        (Sample::Ip(ip), Kind::Str) => Ok(Some(Sample::Str(Bytes::Own(address_text(alloc, ip)?)))),
        (Sample::Str(text), kind) => Ok(read_as(text, kind)),
        (Sample::Bin(bytes), Kind::Str) => Ok(Some(Sample::Str(bytes))),
        (Sample::Bin(bytes), Kind::Bin) => Ok(Some(Sample::Bin(bytes))),
        (Sample::Method(bytes), Kind::Str) => Ok(Some(Sample::Str(bytes))),
        (Sample::Method(bytes), Kind::Bin) => Ok(Some(Sample::Bin(bytes))),
        (Sample::Method(bytes), Kind::Method) => Ok(Some(Sample::Method(bytes))),
        _ => Ok(None),
    }
}
