ghost use Rattle.std.specs.Prelude.{◌≡◌, ◌≤◌, length, IfOk};
ghost use Rattle.hx_match.specs.Needles.{AreFirstPeriods, ArePeriods, IsLeastPeriod};

use hx_text::NoMemory;
use std::alloc::Global;

/// The least periods of the key's beginnings, of no byte, of its first, of its first two and so on
/// to the whole key: after how many bytes they repeat. It is one where there is no byte.
pub(crate) fn periods_of(alloc: Global, key: &[u8]) -> Result<Vec<usize>, NoMemory>
    ensures { IfOk result (λ periods. ArePeriods key.now periods.items) }
{
    let mut periods = Vec::with_capacity(alloc, key.len() + 1)?;
    let mut last = 1;
    periods.push(last)?;
    while periods.len() <= key.len() {
        last = next_period(key, periods.as_slice(), last);
        periods.push(last)?;
    }
    Ok(periods)
}

/// The least period of the key's beginning that is one byte longer than the longest whose period
/// is given. That of the longest one is `last`. What repeats after a byte more repeated before, so
/// the next one to try is that after which the part repeats that matched so far.
fn next_period(key: &[u8], periods: &[usize], last: usize) -> usize
    requires first { AreFirstPeriods key.now periods.now last }
    requires more { length periods.now ≤ length key.now }
    ensures { IsLeastPeriod key.now (length periods.now) result }
{
    let at = periods.len() - 1;
    let mut period = last;
    while period <= at && key[at] != key[at - period] {
        period += periods[at - period];
    }
    period
}
