ghost use Rattle.std.specs.Prelude.{◌≡◌, ◌++◌, IfOk, IsOk};
ghost use Rattle.hx_sample.specs.Seen.{bytes_of};
ghost use Rattle.hx_conv_text.specs.Converters.{AreInputWhereEqual};

use hx_sample::Bytes;
use hx_text::{NoMemory, Octets};
use std::alloc::Global;

/// The bytes as a vector that has room for so many more. Owned bytes are the vector's own.
fn with_room(alloc: Global, text: Bytes<'_>, more: usize) -> Result<Vec<u8>, NoMemory>
    ensures { IfOk result (λ made. made.items ≡ bytes_of text.entry) }
{
    match text {
        Bytes::Lent(text) => {
            let mut made = Vec::with_capacity(alloc, text.len().saturating_add(more))?;
            made.extend_from_slice(text)?;
            Ok(made)
        }
        Bytes::Own(text) => {
            let mut made = text.into_vec();
            made.reserve_exact(more)?;
            Ok(made)
        }
    }
}

/// The four texts in a row. Where the others are empty the first stays as it is, lent or owned, and
/// no memory is taken.
pub(crate) fn concat<'a>(
    alloc: Global,
    text: Bytes<'a>,
    start: &[u8],
    value: &[u8],
    end: &[u8],
) -> Result<Bytes<'a>, NoMemory>
    ensures value { IfOk result (λ made.
        bytes_of made ≡ bytes_of text.entry ++ start.now ++ value.now ++ end.now) }
    ensures kept { IfOk result (AreInputWhereEqual text.entry) }
    ensures free { bytes_of text.entry ++ start.now ++ value.now ++ end.now ≡ bytes_of text.entry
        → IsOk result }
{
    let more = start
        .len()
        .saturating_add(value.len())
        .saturating_add(end.len());
    if more == 0 {
        return Ok(text);
    }
    let mut made = with_room(alloc, text, more)?;
    made.extend_from_slice(start)?;
    made.extend_from_slice(value)?;
    made.extend_from_slice(end)?;
    Ok(Bytes::Own(Octets::from_vec(made)))
}
