//! How the entries are reached that a call speaks of: by their key, through an index that keeps
//! keys whole, or along the chain of all entries.
ghost use Rattle.std.specs.Prelude.{◌≡◌, ◌+◌, ◌*◌, ◌≤◌, ◌++◌, ◌∷◌, true, ℕ, List, None, Some, IsSome, length};
ghost use Rattle.std.specs.Borrow.{Bor};
ghost use Rattle.hx_sample.specs.Changes.{has_key};
ghost use Rattle.hx_versions.specs.declared.choice.Choice.{Choice as Chosen};
ghost use Rattle.hx_versions.specs.declared.choice.Choice.TheVariants as chosen_by;
ghost use Rattle.hx_versions.specs.Contents.{first_chosen, ways_of, EntryPool, IsContent, IsWayTo, KeepsTextsAt, LeadsTo, PlacedEntry};
ghost use Rattle.hx_versions.specs.Versions.{is_chosen};

use crate::choice::Choice;
use crate::content::Content;
use crate::stored_entry::StoredEntry;
use hx_index::Nodes;
use hx_pool::{Pool, Steps};
use std::sync::ledger::Ledger;

impl Content {
    /// The position of an index through which keys are found whole, if there is one.
    fn text_index(&self) -> Option<usize>
        ensures some { (at : ℕ) → result ≡ Some at
            → KeepsTextsAt (ways_of self.now.indexes.items) at }
        ensures none { result ≡ None → (at : ℕ)
            → KeepsTextsAt (ways_of self.now.indexes.items) at → ⊥ }
    {
        for at in 0..self.indexes.len() {
            let index = &self.indexes[at];
            if index.keeps_texts() {
                return Some(at);
            }
        }
        None
    }

    /// How the chosen entries are reached: through an index at a position, by their key, or along
    /// the chain of all entries. It is the chain where they aren't chosen by their key, and where
    /// keys are found whole through no index.
    pub(crate) fn way_to<'k>(&self, choice: &Choice<'k>) -> Option<(usize, &'k [u8])>
        ensures leads { IsWayTo (ways_of self.now.indexes.items) result choice.now }
        ensures chain { result ≡ None → (key : Bor (List ℕ)) (at : ℕ)
            → choice.now ≡ chosen_by.Key key
            → KeepsTextsAt (ways_of self.now.indexes.items) at → ⊥ }
    {
        match choice {
            Choice::Key(key) => match self.text_index() {
                Some(at) => Some((at, *key)),
                None => None,
            },
            Choice::Number(_) => None,
        }
    }

    /// The slot of the first entry with a key, through the index at a position, or none where no
    /// entry has the key.
    fn first_with<L: Ledger>(
        &self,
        nodes: &Nodes,
        at: usize,
        key: &[u8],
        steps: &mut Steps<L>,
    ) -> Option<usize>
        requires index { KeepsTextsAt (ways_of self.now.indexes.items) at }
        requires content { (entries : EntryPool) × (version : ℕ) × (placed : List PlacedEntry)
            × IsContent entries nodes.now version self.now placed }
        ensures found { (entries : EntryPool) (version : ℕ) (placed : List PlacedEntry)
            → IsContent entries nodes.now version self.now placed
            → result ≡ first_chosen (has_key key.now) placed }
        ensures cost { steps.new ≤ steps.old + 16 * length key.now + 3 }
    {
        let index = &self.indexes[at];
        index.first_with(nodes, key, steps)
    }

    /// The slot of the next entry with the same key after the one in a slot, through the index at a
    /// position, or none where there is none.
    fn next_with<L: Ledger>(
        &self,
        entries: &Pool<StoredEntry>,
        nodes: &Nodes,
        at: usize,
        slot: usize,
        steps: &mut Steps<L>,
    ) -> Option<usize>
        requires index { KeepsTextsAt (ways_of self.now.indexes.items) at }
        requires content { (version : ℕ) × (before : List PlacedEntry) × (p : PlacedEntry)
            × (after : List PlacedEntry) × (p.slot ≡ slot)
            × IsContent entries.now nodes.now version self.now (before ++ p ∷ after) }
        ensures found { (version : ℕ) (before : List PlacedEntry) (p : PlacedEntry)
            (after : List PlacedEntry) → p.slot ≡ slot
            → IsContent entries.now nodes.now version self.now (before ++ p ∷ after)
            → result ≡ first_chosen (has_key p.entry.key) after }
        ensures cost { steps.new ≤ steps.old + 3 }
    {
        let stored = entries.get(slot, steps);
        let node = stored.nodes.get(at);
        let index = &self.indexes[at];
        index.next_with(nodes, node, steps)
    }

    /// The slot of the first entry that is reached on the way to the chosen ones. Those that are
    /// passed over aren't chosen.
    pub(crate) fn first_to<L: Ledger>(
        &self,
        nodes: &Nodes,
        way: Option<(usize, &[u8])>,
        steps: &mut Steps<L>,
    ) -> Option<usize>
        requires way { (chosen : Chosen) × IsWayTo (ways_of self.now.indexes.items) way chosen }
        requires content { (entries : EntryPool) × (version : ℕ) × (placed : List PlacedEntry)
            × IsContent entries nodes.now version self.now placed }
        ensures { (chosen : Chosen) (entries : EntryPool) (version : ℕ)
            (placed : List PlacedEntry)
            → IsWayTo (ways_of self.now.indexes.items) way.entry chosen
            → IsContent entries nodes.now version self.now placed
            → LeadsTo way.entry (is_chosen chosen) result placed }
    {
        match way {
            Some((at, key)) => self.first_with(nodes, at, key, steps),
            None => self.entries.front(),
        }
    }

    /// The slot of the next entry that is reached after the one in a slot, in the same way.
    pub(crate) fn next_to<L: Ledger>(
        &self,
        entries: &Pool<StoredEntry>,
        nodes: &Nodes,
        way: Option<(usize, &[u8])>,
        slot: usize,
        steps: &mut Steps<L>,
    ) -> Option<usize>
        requires way { (chosen : Chosen) × IsWayTo (ways_of self.now.indexes.items) way chosen }
        requires content { (version : ℕ) × (before : List PlacedEntry) × (p : PlacedEntry)
            × (after : List PlacedEntry) × (p.slot ≡ slot)
            × IsContent entries.now nodes.now version self.now (before ++ p ∷ after) }
        ensures { (chosen : Chosen) (version : ℕ) (before : List PlacedEntry) (p : PlacedEntry)
            (after : List PlacedEntry) → p.slot ≡ slot
            → IsWayTo (ways_of self.now.indexes.items) way.entry chosen
            → (IsSome way.entry → is_chosen chosen p.entry ≡ true)
            → IsContent entries.now nodes.now version self.now (before ++ p ∷ after)
            → LeadsTo way.entry (is_chosen chosen) result after }
    {
        match way {
            Some((at, _key)) => self.next_with(entries, nodes, at, slot, steps),
            None => self.entries.next(entries, slot, steps),
        }
    }
}
