//! Entries are appended to a content.
ghost use Rattle.std.specs.Prelude.{◌≡◌, ◌+◌, ◌*◌, ◌<◌, ◌≤◌, ◌++◌, ◌^◌, List, length, reverse};
ghost use Rattle.hx_pool.specs.Pool.{live_count};
ghost use Rattle.hx_versions.specs.Contents.{entries_of, ways_of, IsContent, LeavesOthers, PlacedEntry};
ghost use Rattle.hx_versions.specs.NewEntries.{added_entries, AreReadyFor};

use crate::content::{Content, NewEntry};
use crate::stored_entry::StoredEntry;
use hx_index::Nodes;
use hx_pool::{Pool, Steps};
use std::alloc::Global;
use std::sync::ledger::Ledger;

/// The entries, the last first.
fn reversed(added: Vec<NewEntry>) -> Vec<NewEntry>
    ensures { result.items ≡ reverse added.items }
{
    let mut left = added;
    left.reverse();
    left
}

impl Content {
    /// Appends entries to the content of the version in the slot `version`, in their order. A slot
    /// is spare for each of them, and one for each of their nodes. No memory is taken.
    pub(crate) fn append_each<L: Ledger>(
        &mut self,
        alloc: Global,
        entries: &mut Pool<StoredEntry>,
        nodes: &mut Nodes,
        version: usize,
        added: Vec<NewEntry>,
        steps: &mut Steps<L>,
    )
        requires count { self.old.count + length added.items < 2 ^ 32 }
        requires slots { length added.items ≤ entries.old.spare }
        requires nodes { length added.items * length self.old.indexes.items ≤ nodes.old.spare }
        requires ready { AreReadyFor (ways_of self.old.indexes.items) added.items }
        requires content { (placed : List PlacedEntry)
            × IsContent entries.old nodes.old version self.old placed }
        ensures content { (placed : List PlacedEntry)
            → IsContent entries.old nodes.old version self.old placed → (more : List PlacedEntry)
            × (entries_of more ≡ added_entries added.items)
            × IsContent entries.new nodes.new version self.new (placed ++ more) }
        ensures others { LeavesOthers version entries.old entries.new nodes.old nodes.new }
        ensures ways { ways_of self.new.indexes.items ≡ ways_of self.old.indexes.items }
        ensures count { self.new.count ≡ self.old.count + length added.items }
        ensures spare_entries { entries.new.spare + length added.items ≡ entries.old.spare }
        ensures spare_nodes { nodes.new.spare + length added.items * length self.old.indexes.items
            ≡ nodes.old.spare }
        ensures live_entries { live_count entries.new
            ≡ live_count entries.old + length added.items }
        ensures live_nodes { live_count nodes.new
            ≡ live_count nodes.old + length added.items * length self.old.indexes.items }
    {
        let mut left = reversed(added);
        while let Some(new) = left.pop() {
            self.append(alloc, entries, nodes, version, new, steps);
        }
    }
}
