//! The entries of a content that a call speaks of.
ghost use Rattle.std.specs.Prelude.{◌≡◌, ◌+◌, ◌*◌, ◌≤◌, ◌++◌, [], ◌∷◌, ℕ, List, Some, length};
ghost use Rattle.std.specs.List.{list_any};
ghost use Rattle.hx_pool.specs.Pool.{get, live_count, IsLive};
ghost use Rattle.hx_versions.specs.declared.stored_entry.StoredEntry.{StoredEntry as Stored};
ghost use Rattle.hx_versions.specs.StoredEntries.{stored_entry};
ghost use Rattle.hx_versions.specs.Contents.{entries_of, ways_of, without_chosen_entries, IsContent, LeavesOthers, PlacedEntry};
ghost use Rattle.hx_versions.specs.Versions.{is_chosen};

use crate::choice::Choice;
use crate::content::Content;
use crate::stored_entry::StoredEntry;
use hx_index::Nodes;
use hx_pool::{Pool, Steps};
use std::sync::ledger::Ledger;

/// Whether an entry is one of those.
fn chooses(choice: &Choice<'_>, entry: &StoredEntry) -> bool
    ensures { result ≡ is_chosen choice.now (stored_entry entry.now) }
{
    match choice {
        Choice::Key(key) => entry.key.as_slice() == *key,
        Choice::Number(number) => entry.number == *number,
    }
}

/// Whether the entry in a slot is one of those.
pub(crate) fn is_chosen<L: Ledger>(
    entries: &Pool<StoredEntry>,
    slot: usize,
    choice: &Choice<'_>,
    steps: &mut Steps<L>,
) -> bool
    requires { IsLive entries.now slot }
    ensures { (stored : Stored) → get entries.now slot ≡ Some stored
        → result ≡ is_chosen choice.now (stored_entry stored) }
{
    let entry = entries.get(slot, steps);
    chooses(choice, entry)
}

impl Content {
    /// Whether one of the entries is chosen.
    pub(crate) fn has_chosen<L: Ledger>(
        &self,
        entries: &Pool<StoredEntry>,
        nodes: &Nodes,
        choice: &Choice<'_>,
        steps: &mut Steps<L>,
    ) -> bool
        requires { (version : ℕ) × (placed : List PlacedEntry)
            × IsContent entries.now nodes.now version self.now placed }
        ensures { (version : ℕ) (placed : List PlacedEntry)
            → IsContent entries.now nodes.now version self.now placed
            → result ≡ list_any (is_chosen choice.now) (entries_of placed) }
    {
        let way = self.way_to(choice);
        let mut at = self.first_to(nodes, way, steps);
        for _passed in 0..self.count {
            let Some(slot) = at else {
                return false;
            };
            if is_chosen(entries, slot, choice, steps) {
                return true;
            }
            at = self.next_to(entries, nodes, way, slot, steps);
        }
        false
    }

    /// Removes the entry in a slot, if it is chosen.
    fn remove_chosen<L: Ledger>(
        &mut self,
        entries: &mut Pool<StoredEntry>,
        nodes: &mut Nodes,
        slot: usize,
        choice: &Choice<'_>,
        steps: &mut Steps<L>,
    )
        requires { (version : ℕ) × (before : List PlacedEntry) × (p : PlacedEntry)
            × (after : List PlacedEntry) × (p.slot ≡ slot)
            × IsContent entries.old nodes.old version self.old (before ++ p ∷ after) }
        ensures content { (version : ℕ) (before : List PlacedEntry) (p : PlacedEntry)
            (after : List PlacedEntry) → p.slot ≡ slot
            → IsContent entries.old nodes.old version self.old (before ++ p ∷ after)
            → IsContent entries.new nodes.new version self.new
            (before ++ without_chosen_entries (is_chosen choice.now) (p ∷ []) ++ after) }
        ensures others { (version : ℕ) (before : List PlacedEntry) (p : PlacedEntry)
            (after : List PlacedEntry) → p.slot ≡ slot
            → IsContent entries.old nodes.old version self.old (before ++ p ∷ after)
            → LeavesOthers version entries.old entries.new nodes.old nodes.new }
        ensures ways { ways_of self.new.indexes.items ≡ ways_of self.old.indexes.items }
        ensures count { self.new.count ≤ self.old.count }
        ensures live_entries { live_count entries.new + self.old.count
            ≡ live_count entries.old + self.new.count }
        ensures live_nodes { live_count nodes.new + self.old.count * length self.old.indexes.items
            ≡ live_count nodes.old + self.new.count * length self.old.indexes.items }
    {
        if is_chosen(entries, slot, choice, steps) {
            self.remove(entries, nodes, slot, steps);
        }
    }

    /// Removes the entries that are chosen, and gives the slots of them and of their nodes back.
    /// The others stay in their order. No memory is taken.
    pub(crate) fn delete_chosen<L: Ledger>(
        &mut self,
        entries: &mut Pool<StoredEntry>,
        nodes: &mut Nodes,
        choice: &Choice<'_>,
        steps: &mut Steps<L>,
    )
        requires { (version : ℕ) × (placed : List PlacedEntry)
            × IsContent entries.old nodes.old version self.old placed }
        ensures content { (version : ℕ) (placed : List PlacedEntry)
            → IsContent entries.old nodes.old version self.old placed
            → IsContent entries.new nodes.new version self.new
            (without_chosen_entries (is_chosen choice.now) placed) }
        ensures others { (version : ℕ) (placed : List PlacedEntry)
            → IsContent entries.old nodes.old version self.old placed
            → LeavesOthers version entries.old entries.new nodes.old nodes.new }
        ensures ways { ways_of self.new.indexes.items ≡ ways_of self.old.indexes.items }
        ensures count { self.new.count ≤ self.old.count }
        ensures live_entries { live_count entries.new + self.old.count
            ≡ live_count entries.old + self.new.count }
        ensures live_nodes { live_count nodes.new + self.old.count * length self.old.indexes.items
            ≡ live_count nodes.old + self.new.count * length self.old.indexes.items }
    {
        let way = self.way_to(choice);
        let mut at = self.first_to(nodes, way, steps);
        for _passed in 0..self.count {
            let Some(slot) = at else {
                return;
            };
            at = self.next_to(entries, nodes, way, slot, steps);
            self.remove_chosen(entries, nodes, slot, choice, steps);
        }
    }
}
