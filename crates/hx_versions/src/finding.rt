//! The entry of a content that is found for a value.
ghost use Rattle.std.specs.Prelude.{◌≡◌, ◌≢◌, ◌+◌, ◌*◌, ◌<◌, ◌≤◌, ℕ, Bool, List, Some, IfOk, IsOk, length, option_map, slice_get};
ghost use Rattle.std.specs.Option.{option_copied};
ghost use Rattle.hx_text.specs.declared.kinds.By.{By as Method};
ghost use Rattle.hx_sample.specs.Find.{found_entry};
ghost use Rattle.hx_sample.specs.Seen.{value_of};
ghost use Rattle.hx_index.specs.Index.{listed_count, tree_steps};
ghost use Rattle.hx_versions.specs.StoredEntries.{stored_entry};
ghost use Rattle.hx_versions.specs.Contents.{entries_of, items_of, ways_of, IsContent, PlacedEntry};

use crate::content::Content;
use crate::stored_entry::StoredEntry;
use hx_index::Nodes;
use hx_pool::{Pool, Steps};
use hx_sample::Sample;
use hx_text::{By, NoMemory};
use std::alloc::Global;
use std::sync::ledger::Ledger;

impl Content {
    /// The entry that is found for a sample through the index at a position. `NoMemory` comes by
    /// `Reg` alone, where memory runs out. One step more than the search of the index.
    pub(crate) fn find<'a, L: Ledger>(
        &self,
        alloc: Global,
        entries: &'a Pool<StoredEntry>,
        nodes: &Nodes,
        at: usize,
        sample: &Sample<'_>,
        steps: &mut Steps<L>,
    ) -> Result<Option<&'a StoredEntry>, NoMemory>
        requires at { at < length self.now.indexes.items }
        requires content { (version : ℕ) × (placed : List PlacedEntry)
            × IsContent entries.now nodes.now version self.now placed }
        ensures found { IfOk result (λ found. (version : ℕ) (placed : List PlacedEntry)
            (way : Method × Bool) → IsContent entries.now nodes.now version self.now placed
            → slice_get (ways_of self.now.indexes.items) at ≡ Some way
            → option_map stored_entry (option_copied found)
            ≡ found_entry way.0 way.1 (entries_of placed) (value_of sample.now)) }
        ensures free { (way : Method × Bool)
            → slice_get (ways_of self.now.indexes.items) at ≡ Some way
            → way.0 ≢ By.Reg → IsOk result }
        ensures cost { (version : ℕ) (placed : List PlacedEntry) (way : Method × Bool)
            → IsContent entries.now nodes.now version self.now placed
            → slice_get (ways_of self.now.indexes.items) at ≡ Some way
            → steps.new ≤ steps.old + tree_steps way.0 way.1 (value_of sample.now)
            + 2 * listed_count (items_of placed at way.0 way.1) + 1 }
    {
        let index = &self.indexes[at];
        match index.find(alloc, nodes, sample, steps)? {
            Some(slot) => Ok(Some(entries.get(slot, steps))),
            None => Ok(None),
        }
    }
}
