ghost use Rattle.std.specs.Prelude.{◌≡◌, ◌∷◌, ◌++◌, [], ◌+◌, ◌≤◌, length, drop, MatchOption, IfSome, OnOk, if◌then◌else◌};
ghost use Rattle.std.specs.Char.{digit_value, is_digit};
ghost use Rattle.hx_words.specs.Quoting.{escape_of, hex_escape};
ghost use Rattle.hx_words.specs.TokenView.{part_bytes, escape_view};

use hx_text::{NoMemory, Octets};

/// Where a byte stands: outside quotes, or inside a quote of one kind.
#[derive(Clone, Copy, PartialEq, Eq)]
pub(crate) enum Mode {
    Outside,
    Single,
    Double,
}

/// The bytes that a part of a text stands for.
#[derive(Clone, Copy)]
pub(crate) enum PartValue<'a> {
    Nothing,
    One(u8),
    Two(u8, u8),
    Lent(&'a [u8]),
}

impl PartValue<'_> {
    /// Appends the bytes to what is there.
    pub(crate) fn append_to(&self, bytes: &mut Octets) -> Result<(), NoMemory>
        ensures { OnOk result (bytes.new ≡ bytes.old ++ part_bytes self.now) }
    {
        match self {
            PartValue::Nothing => Ok(()),
            PartValue::One(first) => bytes.push_all(&[*first]),
            PartValue::Two(first, second) => bytes.push_all(&[*first, *second]),
            PartValue::Lent(lent) => bytes.push_all(lent),
        }
    }
}

/// The first byte, and the bytes after it.
pub(crate) fn first(bytes: &[u8]) -> Option<(u8, &[u8])>
    ensures { MatchOption result (bytes.now ≡ []) (λ pair. bytes.now ≡ pair.0 ∷ pair.1.now) }
{
    let (byte, after) = bytes.split_first()?;
    Some((*byte, after))
}

/// What follows the first `count` bytes.
pub(crate) fn skip(bytes: &[u8], count: usize) -> &[u8]
    requires { count ≤ length bytes.now }
    ensures { result.now ≡ drop count bytes.now }
{
    &bytes[count..]
}

/// Reads the bytes after a backslash that stands outside single quotes: how many of them belong to
/// it, and what it stands for. `None` is `\x` without two hex digits.
#[tactic(auto, unfolding(crate::specs::Quoting::escape_of))]
pub(crate) fn read_escape<'a>(after: &[u8]) -> Option<(usize, PartValue<'a>)>
    ensures value { escape_view result ≡ escape_of after.now }
    ensures within { IfSome result (λ part. part.0 ≤ length after.now) }
{
    let Some((byte, rest)) = first(after) else {
        return Some((0, PartValue::One(b'\\')));
    };
    match byte {
        b' ' | b'#' | b'\\' | b'\'' | b'"' => Some((1, PartValue::One(byte))),
        b'n' => Some((1, PartValue::One(b'\n'))),
        b'r' => Some((1, PartValue::One(b'\r'))),
        b't' => Some((1, PartValue::One(b'\t'))),
        b'x' => read_hex(rest),
        _ => Some((1, PartValue::Two(b'\\', byte))),
    }
}

/// Reads the bytes after `\x`.
fn read_hex<'a>(after: &[u8]) -> Option<(usize, PartValue<'a>)>
    ensures value { escape_view result ≡ hex_escape after.now }
    ensures within { IfSome result (λ part. part.0 ≤ 1 + length after.now) }
{
    let (high, rest) = first(after)?;
    let (low, _) = first(rest)?;
    match (hex_digit(high), hex_digit(low)) {
        (Some(high), Some(low)) => Some((3, PartValue::One(16 * high + low))),
        _ => None,
    }
}

/// The value of a hex digit.
fn hex_digit(byte: u8) -> Option<u8>
    ensures value { result ≡ (if is_digit byte 16 then Some (digit_value byte) else None) }
    ensures below { IfSome result (λ digit. digit ≤ 15) }
{
    let digit = char::from(byte).to_digit(16)?;
    Some(digit as u8)
}
