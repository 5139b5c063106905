ghost use Rattle.std.specs.Prelude.{◌≡◌, ℤ, None, Some, option_map, if◌then◌else◌};
ghost use Rattle.std.specs.Option.{option_zip};
ghost use Rattle.hx_outside.specs.declared.pattern_fault.PatFault.TheVariants.{BadRange};
ghost use Rattle.hx_sample.specs.Keys.{bound_of, is_within, range_of};
ghost use Rattle.hx_match.specs.Patterns.{range_fault};
ghost use Rattle.hx_match.specs.Read.{range_of_bounds};

use hx_text::{cut_at, read_i64};

/// The numbers from one bound to the other; without a bound, all on that side.
#[derive(Clone, Copy)]
pub(crate) struct Bounds {
    pub(crate) least: Option<i64>,
    pub(crate) greatest: Option<i64>,
}

impl Bounds {
    /// Whether the number is in the range.
    pub(crate) fn contains(&self, n: i64) -> bool
        ensures { result ≡ is_within (range_of_bounds self.now) n }
    {
        let above = match self.least {
            Some(least) => least <= n,
            None => true,
        };
        let below = match self.greatest {
            Some(greatest) => n <= greatest,
            None => true,
        };
        above && below
    }

    /// Whether the range ends before it begins.
    pub(crate) fn ends_before(&self) -> bool
        ensures { range_fault (Some (range_of_bounds self.now))
            ≡ (if result then Some BadRange else None) }
    {
        match (self.least, self.greatest) {
            (Some(least), Some(greatest)) => greatest < least,
            (Some(_), None) => false,
            (None, _) => false,
        }
    }
}

/// A bound as it is written: a number, or nothing for no bound.
fn read_bound(text: &[u8]) -> Option<Option<i64>>
    ensures { result ≡ bound_of text.now }
{
    match text {
        [] => Some(None),
        [_, ..] => match read_i64(text) {
            Some(n) => Some(Some(n)),
            None => None,
        },
    }
}

fn range_between(least: &[u8], greatest: &[u8]) -> Option<Bounds>
    ensures { option_map range_of_bounds result
        ≡ option_zip (bound_of least.now) (bound_of greatest.now) }
{
    let least = read_bound(least)?;
    let greatest = read_bound(greatest)?;
    Some(Bounds { least, greatest })
}

/// The range that `text` writes: `N`, `N:M`, `N:` or `:M`. None exactly for any other text.
pub(crate) fn read_range(text: &[u8]) -> Option<Bounds>
    ensures { option_map range_of_bounds result ≡ range_of text.now }
{
    match cut_at(b':', text) {
        Some((least, greatest)) => {
            if least.is_empty() && greatest.is_empty() {
                return None;
            }
            range_between(least, greatest)
        }
        None => match read_i64(text) {
            Some(n) => Some(Bounds {
                least: Some(n),
                greatest: Some(n),
            }),
            None => None,
        },
    }
}
