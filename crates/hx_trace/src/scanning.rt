ghost use Rattle.std.specs.Prelude.{◌≡◌, ◌≢◌, false, IfOk, IsOk, option_map};
ghost use Rattle.hx_outside.specs.declared.pattern_fault.PatFault.TheVariants as PatFault;
ghost use Rattle.hx_sample.specs.Find.{found_entry};
ghost use Rattle.hx_sample.specs.Keys.{hits};
ghost use Rattle.hx_sample.specs.Seen.{value_of};
ghost use Rattle.hx_sample.specs.Tables.{entry_of};
ghost use Rattle.hx_trace.specs.Ranks.{better_of, rank_of};

use crate::ranks::{highest_rank_is_found, rank_of};
use hx_match::laws::refused_text_hits_nothing;
use hx_match::{hits, parse};
use hx_outside::{PatFault, PlainMaker};
use hx_refs::Entries;
use hx_sample::{Hit, Sample};
use hx_text::{By, NoMemory};
use std::alloc::Global;

/// Whether a key hits where it was refused as a pattern: it doesn't, unless memory ran out.
fn refused_hits(fault: PatFault) -> Result<bool, NoMemory>
    requires { fault ≢ PatFault.TooLarge }
    ensures none { IfOk result (λ hit. hit ≡ false) }
    ensures memory { IsOk result → fault ≢ PatFault.NoMemory }
{
    match fault {
        PatFault::NoMemory => Err(NoMemory),
        PatFault::TooLarge => unreachable!(),
        _ => Ok(false),
    }
}

/// Whether a key that is read as a pattern hits the sample. It fails only where memory runs out.
fn pattern_hits(
    alloc: Global,
    by: By,
    ci: bool,
    key: &[u8],
    sample: &Sample<'_>,
) -> Result<bool, NoMemory>
    requires found { by ≢ By.Found }
    requires bool { by ≢ By.Bool }
    requires reg { by ≢ By.Reg }
    ensures { IfOk result (λ hit. hit ≡ hits by ci key.now (value_of sample.now)) }
{
    match parse(alloc, by, ci, key, &mut PlainMaker::new()) {
        Ok(pattern) => hits(alloc, &pattern, sample),
        Err(fault) => {
            refused_text_hits_nothing(by, ci, key);
            refused_hits(fault)
        }
    }
}

/// Whether a key hits the sample by the method `by`, which isn't `Reg`; `ci` says whether case is
/// ignored. It fails only where memory runs out.
fn key_hits(
    alloc: Global,
    by: By,
    ci: bool,
    key: &[u8],
    sample: &Sample<'_>,
) -> Result<bool, NoMemory>
    requires { by ≢ By.Reg }
    ensures { IfOk result (λ hit. hit ≡ hits by ci key.now (value_of sample.now)) }
{
    match by {
        By::Found => Ok(true),
        By::Bool => match sample {
            Sample::Bool(b) => Ok(*b),
            _ => Ok(false),
        },
        by => pattern_hits(alloc, by, ci, key, sample),
    }
}

/// Of the best entry so far, if there is one, and the next that hits, the one of the higher rank,
/// or where their ranks are the same the first.
fn better<'a>(
    by: By,
    ci: bool,
    best: Option<Hit<'a>>,
    next: Hit<'a>,
    sample: &Sample<'_>,
) -> Hit<'a>
    ensures { entry_of result
        ≡ better_of (λ entry. rank_of by ci (value_of sample.now) entry.key)
        (option_map entry_of best.entry) (entry_of next.entry) }
{
    let Some(first) = best else {
        return next;
    };
    let rank = rank_of(by, ci, first.key, sample);
    if rank.is_lower(rank_of(by, ci, next.key, sample)) {
        next
    } else {
        first
    }
}

/// The entry that is found for the sample among the entries, each of which is looked at: of those
/// whose keys hit it by the method `by`, which isn't `Reg`, the first of the highest rank. None
/// exactly where no key hits. It fails only where memory runs out.
pub(crate) fn scan<'a>(
    alloc: Global,
    by: By,
    ci: bool,
    entries: Entries<'a>,
    sample: &Sample<'_>,
) -> Result<Option<Hit<'a>>, NoMemory>
    requires { by ≢ By.Reg }
    ensures { IfOk result (λ hit. option_map entry_of hit
        ≡ found_entry by ci entries.entry (value_of sample.now)) }
{
    highest_rank_is_found(by, ci);
    let mut best = None;
    let mut left = entries;
    while let Some(entry) = left.next() {
        if key_hits(alloc, by, ci, entry.key, sample)? {
            best = Some(better(by, ci, best, entry, sample));
        }
    }
    Ok(best)
}
