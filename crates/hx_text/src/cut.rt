ghost use Rattle.std.specs.Prelude.{◌≡◌, [], ◌∷◌, IfSome, IfNone, option_map};
ghost use Rattle.std.specs.Io.BufRead.{strip_last};
ghost use Rattle.hx_base.specs.Bytes.{ascii};
ghost use Rattle.hx_text.specs.Cut.{pieces, cut_of, last_cut_of};

use memchr::{memchr, memrchr};

/// The text before the first byte of this value, and the text after that byte, both lent. None
/// exactly where no byte has the value.
pub fn cut_at(byte: u8, text: &[u8]) -> Option<(&[u8], &[u8])>
    ensures value { option_map (λ p. (p.0.now, p.1.now)) result ≡ cut_of byte text.now }
    // Follow from `value`. They save callers that cut on, as `read_ip` does, the lemmas on
    // `pieces`.
    ensures cut { IfSome result (λ p. pieces byte text.now ≡ p.0.now ∷ pieces byte p.1.now) }
    ensures whole { IfNone result (pieces byte text.now ≡ text.now ∷ []) }
{
    match memchr(byte, text) {
        Some(at) => {
            let (before, found) = text.split_at(at);
            let (_, after) = found.split_at(1);
            Some((before, after))
        }
        None => None,
    }
}

/// The text up to the last byte of this value, with that byte, and the text after it. None exactly
/// where no byte has the value.
pub(crate) fn cut_after_last(byte: u8, text: &[u8]) -> Option<(&[u8], &[u8])>
    ensures { option_map (λ p. (p.0.now, p.1.now)) result ≡ last_cut_of byte text.now }
{
    match memrchr(byte, text) {
        Some(at) => Some(text.split_at(at + 1)),
        None => None,
    }
}

/// The line without the one carriage return that may end it.
pub fn without_cr(line: &[u8]) -> &[u8]
    ensures { result.now ≡ strip_last (ascii "\r") line.now }
{
    match line {
        [rest @ .., b'\r'] => rest,
        _ => line,
    }
}
