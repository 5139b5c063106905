ghost use Rattle.std.specs.Prelude.{◌≡◌, IfOk};
ghost use Rattle.hx_sample.specs.Seen.{bytes_of, value_of};

use hx_text::{Ip, NoMemory, Octets};
use std::alloc::Global;

/// Bytes that are lent from elsewhere, or owned.
#[derive(Drop)]
pub enum Bytes<'a> {
    Lent(&'a [u8]),
    Own(Octets),
}

impl Bytes<'_> {
    /// The bytes, wherever they are kept.
    pub fn as_slice(&self) -> &[u8]
        ensures { result.now ≡ bytes_of self.now }
    {
        match self {
            Bytes::Lent(bytes) => bytes,
            Bytes::Own(octets) => octets.as_slice(),
        }
    }
}

/// A value that a fetch or a converter gives, of one of the types that HAProxy's samples have:
/// boolean, integer, address, string, binary and method (HAProxy configuration manual 2.4, section
/// 7.1). Its bytes may be lent from what it was taken from.
#[derive(Drop)]
pub enum Sample<'a> {
    Bool(bool),
    Int(i64),
    Ip(Ip),
    Str(Bytes<'a>),
    Bin(Bytes<'a>),
    Method(Bytes<'a>),
}

/// A sample that owns its bytes, as a variable keeps it.
#[derive(Drop, PartialEq, Eq)]
pub enum Value {
    Bool(bool),
    Int(i64),
    Ip(Ip),
    Str(Octets),
    Bin(Octets),
    Method(Octets),
}

/// The same value, with its bytes copied. It fails only where memory runs out.
pub fn own(alloc: Global, sample: &Sample<'_>) -> Result<Value, NoMemory>
    ensures { IfOk result (λ value. value ≡ value_of sample.now) }
{
    match sample {
        Sample::Bool(b) => Ok(Value::Bool(*b)),
        Sample::Int(n) => Ok(Value::Int(*n)),
        Sample::Ip(ip) => Ok(Value::Ip(*ip)),
        Sample::Str(bytes) => Ok(Value::Str(Octets::copy(alloc, bytes.as_slice())?)),
        Sample::Bin(bytes) => Ok(Value::Bin(Octets::copy(alloc, bytes.as_slice())?)),
        Sample::Method(bytes) => Ok(Value::Method(Octets::copy(alloc, bytes.as_slice())?)),
    }
}

/// The same value as a sample whose bytes are lent from `value`.
pub fn lend(value: &Value) -> Sample<'_>
    ensures { value_of result ≡ value.now }
{
    match value {
        Value::Bool(b) => Sample::Bool(*b),
        Value::Int(n) => Sample::Int(*n),
        Value::Ip(ip) => Sample::Ip(*ip),
        Value::Str(octets) => Sample::Str(Bytes::Lent(octets.as_slice())),
        Value::Bin(octets) => Sample::Bin(Bytes::Lent(octets.as_slice())),
        Value::Method(octets) => Sample::Method(Bytes::Lent(octets.as_slice())),
    }
}
