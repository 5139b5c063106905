//! Values and texts in memory of their own. What is copied goes to a room: memory that an earlier text
//! had.
ghost use Rattle.std.specs.Prelude.{◌≡◌, [], IfOk};
ghost use Rattle.hx_sample.specs.Seen.{bytes_of, value_of};

use hx_sample::{Bytes, Sample, Value, Vars};
use hx_text::{NoMemory, Octets};

/// The bytes, in a room that is empty.
fn filled(mut room: Vec<u8>, bytes: &[u8]) -> Result<Octets, NoMemory>
    requires { room.items ≡ [] }
    ensures { IfOk result (λ octets. octets ≡ bytes.now) }
{
    room.extend_from_slice(bytes)?;
    Ok(Octets::from_vec(room))
}

/// The bytes in memory of their own. Only those that are lent are copied.
pub(crate) fn owned_bytes(room: Vec<u8>, bytes: Bytes<'_>) -> Result<Octets, NoMemory>
    requires { room.items ≡ [] }
    ensures { IfOk result (λ octets. octets ≡ bytes_of bytes.entry) }
{
    match bytes {
        Bytes::Lent(lent) => filled(room, lent),
        Bytes::Own(octets) => Ok(octets),
    }
}

/// The value of a sample that is given up for it, as `hx_sample::own` gives that of one that stays.
/// Only bytes that are lent are copied.
pub(crate) fn owned_value(room: Vec<u8>, sample: Sample<'_>) -> Result<Value, NoMemory>
    requires { room.items ≡ [] }
    ensures { IfOk result (λ value. value ≡ value_of sample.entry) }
{
    match sample {
        Sample::Bool(b) => Ok(Value::Bool(b)),
        Sample::Int(n) => Ok(Value::Int(n)),
        Sample::Ip(ip) => Ok(Value::Ip(ip)),
        Sample::Str(bytes) => Ok(Value::Str(owned_bytes(room, bytes)?)),
        Sample::Bin(bytes) => Ok(Value::Bin(owned_bytes(room, bytes)?)),
        Sample::Method(bytes) => Ok(Value::Method(owned_bytes(room, bytes)?)),
    }
}

/// Keeps the memory of a text that is needed no more, where it is its own.
pub(crate) fn keep_text(vars: &mut Vars, text: Bytes<'_>)
    ensures { vars.new ≡ vars.old }
{
    match text {
        Bytes::Lent(_) => {}
        Bytes::Own(octets) => vars.keep_room(octets.into_vec()),
    }
}
