ghost use Rattle.std.specs.Prelude.{◌≡◌, length, IfOk};
ghost use Rattle.memchr.specs.Find.{FindsNeedle};
ghost use Rattle.hx_sample.specs.Keys.{folded};
ghost use Rattle.hx_match.specs.Needles.{BeginsAt, HasPeriods, IsLeastPeriod, IsNeedle};

use crate::periods::periods_of;
use crate::search::next_place;
use hx_text::NoMemory;
use std::alloc::Global;

/// A key to search for: its bytes, with small letters for ASCII capitals where case is ignored, and
/// the least periods of its beginnings.
#[derive(Drop)]
pub(crate) struct Needle {
    pub(crate) bytes: Vec<u8>,
    pub(crate) periods: Vec<usize>,
}

impl Needle {
    /// The needle of the key. `NoMemory` where memory runs out.
    pub(crate) fn new(alloc: Global, ci: bool, key: &[u8]) -> Result<Needle, NoMemory>
        ensures { IfOk result (IsNeedle (folded ci key.now)) }
    {
        let bytes = folded_copy(alloc, ci, key)?;
        let periods = periods_of(alloc, bytes.as_slice())?;
        Ok(Needle { bytes, periods })
    }

    /// The first place of the text, from `start` on, at which the key stands. Its first `matched`
    /// bytes stand at `start`.
    pub(crate) fn next_place(
        &self,
        ci: bool,
        text: &[u8],
        start: usize,
        matched: usize,
    ) -> Option<usize>
        requires periods { HasPeriods self.now }
        requires begins { BeginsAt (folded ci text.now) self.now.bytes.items start matched }
        ensures { FindsNeedle (folded ci text.now) self.now.bytes.items start result }
    {
        let key = self.bytes.as_slice();
        next_place(ci, text, key, self.periods.as_slice(), start, matched)
    }

    /// After how many bytes the whole key repeats.
    pub(crate) fn period(&self) -> usize
        requires { HasPeriods self.now }
        ensures { IsLeastPeriod self.now.bytes.items (length self.now.bytes.items) result }
    {
        self.periods[self.bytes.len()]
    }
}

/// The key's bytes as they are compared.
fn folded_copy(alloc: Global, ci: bool, key: &[u8]) -> Result<Vec<u8>, NoMemory>
    ensures { IfOk result (λ bytes. bytes.items ≡ folded ci key.now) }
{
    if ci {
        Ok(key.to_ascii_lowercase(alloc)?)
    } else {
        Ok(Vec::from_slice(alloc, key)?)
    }
}
