ghost use Rattle.std.specs.Prelude.{◌≡◌, ◌≤◌, IfOk, length, take};

use hx_text::{NoMemory, Octets};
use std::alloc::Global;
use std::marker::Model;

/// How many bytes a text has at most that is kept in place.
const MOST_IN_PLACE: usize = 30;

/// Bytes that are kept: in place where they are few, and else in memory of their own. So a short
/// text takes as much memory as what tells of a long one.
#[derive(Drop)]
pub(crate) enum TextBytes {
    InPlace { len: u8, bytes: [u8; 30] },
    Apart(Octets),
}

/// The text of a key or of a value. Contracts see the list of its bytes.
#[derive(Drop)]
pub struct KeptText {
    bytes: TextBytes,
}

impl Model for KeptText {
    ghost use Rattle.std.specs.Prelude.{List, ℕ};

    ghost Value = { List ℕ };

    ghost use Rattle.hx_versions.specs.KeptTexts.{text_bytes, HasRoom};

    ghost view = { λ text. text_bytes text.bytes };

    ghost invariant = { λ text. HasRoom text.bytes };
}

/// These few bytes, and what follows them in an array.
fn in_place(bytes: &[u8]) -> [u8; 30]
    requires { length bytes.now ≤ 30 }
    ensures { take (length bytes.now) result ≡ bytes.now }
{
    let mut cells = [0u8; 30];
    cells[..bytes.len()].copy_from_slice(bytes);
    cells
}

impl KeptText {
    /// A copy of the bytes. `NoMemory` where memory runs out.
    pub fn copy(alloc: Global, bytes: &[u8]) -> Result<KeptText, NoMemory>
        ensures { IfOk result (λ copied. copied ≡ bytes.now) }
    {
        if bytes.len() <= MOST_IN_PLACE {
            let len = bytes.len() as u8;
            let bytes = in_place(bytes);
            return Ok(KeptText {
                bytes: TextBytes::InPlace { len, bytes },
            });
        }
        let bytes = TextBytes::Apart(Octets::copy(alloc, bytes)?);
        Ok(KeptText { bytes })
    }

    /// The bytes, lent.
    pub fn as_slice(&self) -> &[u8]
        ensures { result.now ≡ self.now }
    {
        match &self.bytes {
            TextBytes::InPlace { len, bytes } => &bytes[..*len as usize],
            TextBytes::Apart(octets) => octets.as_slice(),
        }
    }
}
