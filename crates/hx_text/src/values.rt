ghost use Rattle.std.specs.Prelude.{◌≡◌, ◌*◌, ◌≤◌, length};
ghost use Rattle.std.specs.List.{list_any};
ghost use Rattle.hx_base.specs.Bytes.{is_bad_value_byte};

use memchr::memchr3;

fn is_bad_value_byte(byte: u8) -> bool
    ensures { result ≡ is_bad_value_byte byte }
{
    byte == b'\r' || byte == b'\n' || byte == 0
}

/// Whether such a byte is among these. It tests them all: where the caller fixes their number, the
/// compiler makes a few instructions of it.
#[inline(always)]
fn has_bad_byte(part: &[u8]) -> bool
    ensures { result ≡ list_any is_bad_value_byte part.now }
{
    let mut found = false;
    for byte in part {
        found |= is_bad_value_byte(*byte);
    }
    found
}

/// The same of bytes that two parts of a size have between them, which may overlap.
#[inline(always)]
fn has_bad_byte_in_ends(value: &[u8], size: usize) -> bool
    requires few { size ≤ length value.now }
    requires enough { length value.now ≤ 2 * size }
    ensures { result ≡ list_any is_bad_value_byte value.now }
{
    has_bad_byte(&value[..size]) | has_bad_byte(&value[value.len() - size..])
}

/// Whether a byte is one that no value of a header may have: CR, LF or NUL (RFC 9110, section 5.5).
/// The keys and the values of lists of patterns and of maps may not have one either.
pub fn has_bad_value_byte(value: &[u8]) -> bool
    ensures { result ≡ list_any is_bad_value_byte value.now }
{
    match value.len() {
        0..8 => value.iter().any(|byte| is_bad_value_byte(*byte)),
        8..=16 => has_bad_byte_in_ends(value, 8),
        17..=32 => has_bad_byte_in_ends(value, 16),
        _ => memchr3(b'\r', b'\n', 0, value).is_some(),
    }
}
