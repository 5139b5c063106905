ghost use Rattle.std.specs.Prelude.{◌≡◌, IfOk};
ghost use Rattle.hx_ebtree.specs.KeyBytes.{kept_bytes};

use arrayvec::ArrayVec;
use hx_text::NoMemory;
use std::alloc::Global;

/// How many bytes lie in the key itself: those of an address, of most names and of many paths.
const SHORT: usize = 24;

/// The bytes of a key. Few of them lie in the node beside what a search reads before them, so that
/// they take no memory of their own and mostly no other line of the cache.
#[derive(Drop)]
pub(crate) enum KeyBytes {
    Short(ArrayVec<u8, SHORT>),
    Long(Vec<u8>),
}

impl KeyBytes {
    /// A copy of the bytes, in memory of `alloc` where they are many.
    pub(crate) fn copy(alloc: Global, bytes: &[u8]) -> Result<KeyBytes, NoMemory>
        ensures { IfOk result (λ kept. kept_bytes kept ≡ bytes.now) }
    {
        let mut short = ArrayVec::new();
        if short.try_extend_from_slice(bytes).is_ok() {
            return Ok(KeyBytes::Short(short));
        }
        Ok(KeyBytes::Long(Vec::from_slice(alloc, bytes)?))
    }

    /// The bytes, lent.
    pub(crate) fn as_slice(&self) -> &[u8]
        ensures { result.now ≡ kept_bytes self.now }
    {
        match self {
            KeyBytes::Short(bytes) => bytes.as_slice(),
            KeyBytes::Long(bytes) => bytes.as_slice(),
        }
    }
}
