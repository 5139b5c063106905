ghost use Rattle.std.specs.Prelude.{◌≡◌, ◌<◌, IfOk, IfSome, length, option_map, slice_get};
ghost use Rattle.hx_sample.specs.Tables.{entry_of};
ghost use Rattle.hx_cli.specs.Effects.{found_for};

use hx_pool::Steps;
use hx_refs::Refs;
use hx_sample::{Bytes, Hit, Sample, Tables, cast};
use hx_text::{By, NoMemory};
use std::alloc::Global;
use std::sync::ledger::Ledger;

/// The entry that is found for a text through a head, which is by a method.
pub(crate) fn find<'a, L: Ledger>(
    alloc: Global,
    refs: &'a Refs,
    by: By,
    head: u32,
    text: &[u8],
    steps: &mut Steps<L>,
) -> Result<Option<Hit<'a>>, NoMemory>
    requires head { head < length refs.now.content.heads }
    requires by { IfSome (slice_get refs.now.content.heads head) (λ h. h.by ≡ by) }
    ensures { IfOk result (λ hit.
        option_map entry_of hit ≡ found_for refs.now.content text.now by head) }
{
    match cast(alloc, Sample::Str(Bytes::Lent(text)), by.kind())? {
        Some(sample) => refs.find(alloc, head, &sample, steps),
        None => Ok(None),
    }
}
