//! Entries of a content get another value.
ghost use Rattle.std.specs.Prelude.{◌≡◌, ◌<◌, ◌++◌, [], ◌∷◌, true, false, ℕ, List, Some, IfOk, OnErr, OnOk, length};
ghost use Rattle.hx_pool.specs.Pool.{get, live_count, IsLive, Updates};
ghost use Rattle.hx_versions.specs.declared.stored_entry.StoredEntry.{StoredEntry as Stored};
ghost use Rattle.hx_versions.specs.StoredEntries.{stored_entry};
ghost use Rattle.hx_versions.specs.Contents.{with_chosen_values, AreCopies, IsContent, LeavesOthers, PlacedEntry};
ghost use Rattle.hx_versions.specs.Versions.{is_chosen};

use crate::choice::Choice;
use crate::choosing::is_chosen;
use crate::content::{Content, set_value};
use crate::kept_text::KeptText;
use crate::stored_entry::StoredEntry;
use hx_index::Nodes;
use hx_pool::{Pool, Steps};
use hx_text::NoMemory;
use std::alloc::Global;
use std::sync::ledger::Ledger;

/// Gives the entry in a slot the last of these values, if it is chosen.
fn give_value<L: Ledger>(
    entries: &mut Pool<StoredEntry>,
    slot: usize,
    choice: &Choice<'_>,
    values: &mut Vec<KeptText>,
    steps: &mut Steps<L>,
)
    requires live { IsLive entries.old slot }
    requires values { (stored : Stored) → get entries.old slot ≡ Some stored
        → is_chosen choice.now (stored_entry stored) ≡ true → 0 < length values.old.items }
    ensures chosen { (stored : Stored) → get entries.old slot ≡ Some stored
        → is_chosen choice.now (stored_entry stored) ≡ true
        → (value : List ℕ) × (values.old.items ≡ values.new.items ++ value ∷ [])
        × Updates entries.old entries.new slot (Some (record stored { value = value })) }
    ensures other { (stored : Stored) → get entries.old slot ≡ Some stored
        → is_chosen choice.now (stored_entry stored) ≡ false
        → (entries.new ≡ entries.old) × (values.new.items ≡ values.old.items) }
    ensures spare { entries.new.spare ≡ entries.old.spare }
    ensures live { live_count entries.new ≡ live_count entries.old }
{
    if is_chosen(entries, slot, choice, steps) {
        let Some(value) = values.pop() else {
            unreachable!()
        };
        set_value(entries, slot, value, steps);
    }
}

/// Appends one more copy of the value, if it is asked for.
fn add_copy(
    alloc: Global,
    copies: &mut Vec<KeptText>,
    value: &[u8],
    asked: bool,
) -> Result<(), NoMemory>
    ensures asked { OnOk result
        (asked ≡ true → copies.new.items ≡ copies.old.items ++ value.now ∷ []) }
    ensures other { OnOk result (asked ≡ false → copies.new.items ≡ copies.old.items) }
{
    if asked {
        let copy = KeptText::copy(alloc, value)?;
        copies.push(copy)?;
    }
    Ok(())
}

impl Content {
    /// Copies of the value, one for each entry that is chosen.
    fn copies_for<L: Ledger>(
        &self,
        alloc: Global,
        entries: &Pool<StoredEntry>,
        nodes: &Nodes,
        choice: &Choice<'_>,
        value: &[u8],
        steps: &mut Steps<L>,
    ) -> Result<Vec<KeptText>, NoMemory>
        requires { (version : ℕ) × (placed : List PlacedEntry)
            × IsContent entries.now nodes.now version self.now placed }
        ensures { IfOk result (λ copies. (version : ℕ) (placed : List PlacedEntry)
            → IsContent entries.now nodes.now version self.now placed
            → AreCopies (is_chosen choice.now) placed value.now copies.items) }
    {
        let way = self.way_to(choice);
        let mut copies = Vec::new(alloc);
        let mut at = self.first_to(nodes, way, steps);
        for _passed in 0..self.count {
            let Some(slot) = at else {
                return Ok(copies);
            };
            let chosen = is_chosen(entries, slot, choice, steps);
            add_copy(alloc, &mut copies, value, chosen)?;
            at = self.next_to(entries, nodes, way, slot, steps);
        }
        Ok(copies)
    }

    /// Gives each entry that is chosen one of these values, of which there are as many, all alike.
    fn give_values<L: Ledger>(
        &self,
        entries: &mut Pool<StoredEntry>,
        nodes: &Nodes,
        choice: &Choice<'_>,
        values: Vec<KeptText>,
        steps: &mut Steps<L>,
    )
        requires { (version : ℕ) × (placed : List PlacedEntry) × (value : List ℕ)
            × IsContent entries.old nodes.now version self.now placed
            × AreCopies (is_chosen choice.now) placed value values.items }
        ensures content { (version : ℕ) (placed : List PlacedEntry) (value : List ℕ)
            → IsContent entries.old nodes.now version self.now placed
            → AreCopies (is_chosen choice.now) placed value values.items
            → IsContent entries.new nodes.now version self.now
            (with_chosen_values (is_chosen choice.now) value placed) }
        ensures others { (version : ℕ) (placed : List PlacedEntry) (value : List ℕ)
            → IsContent entries.old nodes.now version self.now placed
            → AreCopies (is_chosen choice.now) placed value values.items
            → LeavesOthers version entries.old entries.new nodes.now nodes.now }
        ensures spare { entries.new.spare ≡ entries.old.spare }
        ensures live { live_count entries.new ≡ live_count entries.old }
    {
        let way = self.way_to(choice);
        let mut values = values;
        let mut at = self.first_to(nodes, way, steps);
        for _passed in 0..self.count {
            let Some(slot) = at else {
                return;
            };
            at = self.next_to(entries, nodes, way, slot, steps);
            give_value(entries, slot, choice, &mut values, steps);
        }
    }

    /// Changes the value of the entries that are chosen, of all or of none. Their slots, numbers
    /// and keys stay.
    pub(crate) fn set_chosen<L: Ledger>(
        &self,
        alloc: Global,
        entries: &mut Pool<StoredEntry>,
        nodes: &Nodes,
        choice: &Choice<'_>,
        value: &[u8],
        steps: &mut Steps<L>,
    ) -> Result<(), NoMemory>
        requires { (version : ℕ) × (placed : List PlacedEntry)
            × IsContent entries.old nodes.now version self.now placed }
        ensures ok { OnOk result ((version : ℕ) (placed : List PlacedEntry)
            → IsContent entries.old nodes.now version self.now placed
            → IsContent entries.new nodes.now version self.now
            (with_chosen_values (is_chosen choice.now) value.now placed)) }
        ensures others { (version : ℕ) (placed : List PlacedEntry)
            → IsContent entries.old nodes.now version self.now placed
            → LeavesOthers version entries.old entries.new nodes.now nodes.now }
        ensures spare { entries.new.spare ≡ entries.old.spare }
        ensures live { live_count entries.new ≡ live_count entries.old }
        ensures err { OnErr result (entries.new ≡ entries.old) }
    {
        let copies = self.copies_for(alloc, entries, nodes, choice, value, steps)?;
        self.give_values(entries, nodes, choice, copies, steps);
        Ok(())
    }
}
