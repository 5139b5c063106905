ghost use Rattle.std.specs.Prelude.{◌≡◌, ◌+◌, ◌<◌, ◌≤◌, ◌++◌, ◌^◌, [], ◌∷◌, ℕ, List, None, Some, length};
ghost use Rattle.hx_pool.specs.Pool.{get, live_count, IsLive, Updates};
ghost use Rattle.hx_versions.specs.declared.stored_entry.StoredEntry.{StoredEntry as Stored};
ghost use Rattle.hx_versions.specs.StoredEntries.{stored_entry};
ghost use Rattle.hx_versions.specs.Contents.{ways_of, IsContent, LeavesOthers, PlacedEntry};
ghost use Rattle.hx_versions.specs.NewEntries.{prepared_patterns};

use crate::indexing::{drop_each, put_each};
use crate::kept_text::KeptText;
use crate::node_numbers::NodeNumbers;
use crate::stored_entry::StoredEntry;
use hx_index::{Index, Nodes, Prepared};
use hx_pool::{Chain, Links, Pool, Steps};
use std::alloc::Global;
use std::sync::ledger::Ledger;

/// What a version holds: how many entries, the chain of their slots, and an index for each use by
/// which they are searched. What it stands for is said together with the slots.
pub(crate) struct Content {
    pub(crate) count: u32,
    pub(crate) entries: Chain,
    pub(crate) indexes: Vec<Index>,
}

// Written out, so that letting one go is one call in the proofs of callers.
impl Drop for Content {
    fn drop(self) {
        let Content {
            count: _count,
            entries: _entries,
            indexes: _indexes,
        } = self;
    }
}

/// An entry that is to be appended: its number, its key and its value, the key as it was prepared
/// for each index, and a place for the number of its node in each.
#[derive(Drop)]
pub struct NewEntry {
    pub number: u64,
    pub key: KeptText,
    pub value: KeptText,
    pub prepared: Vec<Prepared>,
    pub nodes: NodeNumbers,
}

/// Puts an entry that has no nodes yet into a spare slot, and answers the number of the slot.
fn take_slot(
    alloc: Global,
    entries: &mut Pool<StoredEntry>,
    version: usize,
    number: u64,
    key: KeptText,
    value: KeptText,
) -> usize
    requires { 0 < entries.old.spare }
    ensures was_free { get entries.old result ≡ None }
    ensures entry { (stored : Stored) × Updates entries.old entries.new result (Some stored)
        × (stored.version ≡ version)
        × (stored_entry stored ≡ record { number = number; key = key; value = value }) }
    ensures spare { entries.new.spare + 1 ≡ entries.old.spare }
    ensures live { live_count entries.new ≡ live_count entries.old + 1 }
{
    entries.take(StoredEntry {
        number,
        key,
        value,
        version,
        nodes: NodeNumbers::none(),
        links: Links::NONE,
    })
}

/// Gives the slot of an entry back, and lets go of the entry.
pub(crate) fn give_back(entries: &mut Pool<StoredEntry>, slot: usize)
    requires { IsLive entries.old slot }
    ensures updates { Updates entries.old entries.new slot None }
    ensures spare { entries.new.spare ≡ entries.old.spare + 1 }
    ensures live { live_count entries.new + 1 ≡ live_count entries.old }
{
    let _entry = entries.give(slot);
}

/// Puts the numbers of its nodes into an entry.
fn set_nodes<L: Ledger>(
    entries: &mut Pool<StoredEntry>,
    slot: usize,
    numbers: NodeNumbers,
    steps: &mut Steps<L>,
)
    requires { IsLive entries.old slot }
    ensures updates { (stored : Stored) → get entries.old slot ≡ Some stored
        → Updates entries.old entries.new slot (Some (record stored { nodes = numbers })) }
    ensures spare { entries.new.spare ≡ entries.old.spare }
    ensures live { live_count entries.new ≡ live_count entries.old }
{
    entries.get_mut(slot, steps).nodes = numbers;
}

impl Content {
    /// Appends an entry to the content of the version in the slot `version`, and answers the number
    /// of its slot. A slot is spare for it, and one for each of its nodes. No memory is taken.
    pub(crate) fn append<L: Ledger>(
        &mut self,
        alloc: Global,
        entries: &mut Pool<StoredEntry>,
        nodes: &mut Nodes,
        version: usize,
        new: NewEntry,
        steps: &mut Steps<L>,
    ) -> usize
        requires count { self.old.count + 1 < 2 ^ 32 }
        requires slot { 0 < entries.old.spare }
        requires nodes { length self.old.indexes.items ≤ nodes.old.spare }
        requires keys { new.prepared.items
            ≡ prepared_patterns new.key (ways_of self.old.indexes.items) }
        requires numbers { length new.nodes ≡ length self.old.indexes.items }
        requires content { (placed : List PlacedEntry)
            × IsContent entries.old nodes.old version self.old placed }
        ensures content { (placed : List PlacedEntry)
            → IsContent entries.old nodes.old version self.old placed → (numbers : List ℕ)
            × IsContent entries.new nodes.new version self.new (placed ++ record {
              slot = result;
              entry = record { number = new.number; key = new.key; value = new.value };
              nodes = numbers;
            } ∷ []) }
        ensures others { LeavesOthers version entries.old entries.new nodes.old nodes.new }
        ensures ways { ways_of self.new.indexes.items ≡ ways_of self.old.indexes.items }
        ensures count { self.new.count ≡ self.old.count + 1 }
        ensures spare_entries { entries.new.spare + 1 ≡ entries.old.spare }
        ensures spare_nodes { nodes.new.spare + length self.old.indexes.items ≡ nodes.old.spare }
        ensures live_entries { live_count entries.new ≡ live_count entries.old + 1 }
        ensures live_nodes { live_count nodes.new
            ≡ live_count nodes.old + length self.old.indexes.items }
    {
        let NewEntry {
            number,
            key,
            value,
            prepared,
            nodes: numbers,
        } = new;
        let slot = take_slot(alloc, entries, version, number, key, value);
        let numbers = put_each(&mut self.indexes, nodes, prepared, numbers, slot, steps);
        set_nodes(entries, slot, numbers, steps);
        self.entries.push_back(entries, slot, steps);
        self.count += 1;
        slot
    }

    /// Removes the entry in a slot, and gives the slots of it and of its nodes back. The others
    /// stay in their order. No memory is taken.
    pub(crate) fn remove<L: Ledger>(
        &mut self,
        entries: &mut Pool<StoredEntry>,
        nodes: &mut Nodes,
        slot: usize,
        steps: &mut Steps<L>,
    )
        requires { (version : ℕ) × (before : List PlacedEntry) × (p : PlacedEntry)
            × (after : List PlacedEntry) × (p.slot ≡ slot)
            × IsContent entries.old nodes.old version self.old (before ++ p ∷ after) }
        ensures content { (version : ℕ) (before : List PlacedEntry) (p : PlacedEntry)
            (after : List PlacedEntry) → p.slot ≡ slot
            → IsContent entries.old nodes.old version self.old (before ++ p ∷ after)
            → IsContent entries.new nodes.new version self.new (before ++ after) }
        ensures others { (version : ℕ) (before : List PlacedEntry) (p : PlacedEntry)
            (after : List PlacedEntry) → p.slot ≡ slot
            → IsContent entries.old nodes.old version self.old (before ++ p ∷ after)
            → LeavesOthers version entries.old entries.new nodes.old nodes.new }
        ensures ways { ways_of self.new.indexes.items ≡ ways_of self.old.indexes.items }
        ensures count { self.new.count + 1 ≡ self.old.count }
        ensures live_entries { live_count entries.new + 1 ≡ live_count entries.old }
        ensures live_nodes { live_count nodes.new + length self.old.indexes.items
            ≡ live_count nodes.old }
    {
        let numbers = entries.get(slot, steps).nodes.as_slice();
        drop_each(&mut self.indexes, nodes, numbers, steps);
        self.entries.unlink(entries, slot, steps);
        give_back(entries, slot);
        self.count -= 1;
    }
}

/// Changes the value of the entry in a slot.
pub(crate) fn set_value<L: Ledger>(
    entries: &mut Pool<StoredEntry>,
    slot: usize,
    value: KeptText,
    steps: &mut Steps<L>,
)
    requires { IsLive entries.old slot }
    ensures updates { (stored : Stored) → get entries.old slot ≡ Some stored
        → Updates entries.old entries.new slot (Some (record stored { value = value })) }
    ensures spare { entries.new.spare ≡ entries.old.spare }
    ensures live { live_count entries.new ≡ live_count entries.old }
{
    entries.get_mut(slot, steps).value = value;
}
