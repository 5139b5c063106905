ghost use Rattle.std.specs.Prelude.{◌≡◌, ◌*◌, ◌^◌, ◌<◌, ◌≤◌, IfOk, length};
ghost use Rattle.hx_ebtree.specs.Bits.{bits_of};

use crate::key_bytes::KeyBytes;
use hx_text::NoMemory;
use std::alloc::Global;
use std::marker::Model;

/// Keys of so many bits and more are refused, as where memory runs out, so that each position in a
/// code has 64 bits.
const TOO_MANY_BITS: usize = 0x4000_0000_0000_0000;

/// A key of bits. Contracts see the list of its bits.
#[derive(Drop)]
pub struct BitKey {
    bytes: KeyBytes,
    bits: usize,
}

impl Model for BitKey {
    ghost use Rattle.std.specs.Prelude.{List, Bool};
    ghost use Rattle.hx_ebtree.specs.Bits.{bits_of, IsKey};
    ghost use Rattle.hx_ebtree.specs.KeyBytes.{kept_bytes};

    ghost Value = { List Bool };

    ghost view = { λ key. bits_of (kept_bytes key.bytes) key.bits };

    ghost invariant = { λ key. IsKey (kept_bytes key.bytes) key.bits };
}

impl BitKey {
    /// The first `bits` bits of `bytes`, the highest bit of each byte first, copied; many
    /// bytes into memory of `alloc`.
    pub fn new(alloc: Global, bytes: &[u8], bits: usize) -> Result<BitKey, NoMemory>
        requires { bits ≤ 8 * length bytes.now }
        ensures { IfOk result (λ key. key ≡ bits_of bytes.now bits) }
    {
        if bits >= TOO_MANY_BITS {
            return Err(NoMemory);
        }
        Ok(BitKey {
            bytes: KeyBytes::copy(alloc, bytes)?,
            bits,
        })
    }

    /// The bytes that hold the bits.
    pub(crate) fn bytes(&self) -> &[u8]
        ensures bits { bits_of result.now (length self.now) ≡ self.now }
        ensures enough { length self.now ≤ 8 * length result.now }
        ensures few { length self.now < 2 ^ 62 }
    {
        self.bytes.as_slice()
    }

    /// How many bits there are.
    pub(crate) fn len(&self) -> usize
        ensures { result ≡ length self.now }
    {
        self.bits
    }
}
