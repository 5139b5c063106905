//! The entries of one version of a row change.
ghost use Rattle.std.specs.Prelude.{◌≡◌, ◌&&◌, ◌==◌, nat_lt, ◌++◌, ◌∷◌, List, OnErr, OnOk};
ghost use Rattle.hx_versions.specs.declared.stored_version.Owner.{Owner as Whose};
ghost use Rattle.hx_versions.specs.declared.pools.Row.{Row as VersionRow};
ghost use Rattle.hx_versions.specs.Contents.{with_chosen_values, without_chosen_entries};
ghost use Rattle.hx_versions.specs.Store.{is_emptied, ChangesVersionAt, FitsAsBefore, IsRow, PlacedVersion};
ghost use Rattle.hx_versions.specs.Versions.{is_chosen};

use crate::choice::Choice;
use crate::placing::{put_content, take_content};
use crate::pools::Pools;
use hx_pool::Steps;
use hx_text::NoMemory;
use std::alloc::Global;
use std::sync::ledger::Ledger;

/// Whether there were entries, and there are none.
fn has_emptied(before: u32, now: u32) -> bool
    ensures { result ≡ (nat_lt 0 before && now == 0) }
{
    before > 0 && now == 0
}

/// Removes the entries that are chosen from the version in a slot, and gives their slots back.
/// Whether it has none from then on, and had some.
pub(crate) fn delete_in<L: Ledger>(
    alloc: Global,
    pools: &mut Pools,
    slot: usize,
    choice: &Choice<'_>,
    steps: &mut Steps<L>,
) -> bool
    requires { (owner : Whose) × (row : VersionRow) × (before : List PlacedVersion)
        × (v : PlacedVersion) × (after : List PlacedVersion) × (v.slot ≡ slot)
        × IsRow pools.old owner row (before ++ v ∷ after) }
    ensures changes { (owner : Whose) (row : VersionRow) (before : List PlacedVersion)
        (v : PlacedVersion) (after : List PlacedVersion) → v.slot ≡ slot
        → IsRow pools.old owner row (before ++ v ∷ after)
        → ChangesVersionAt pools.old pools.new owner row before v after v.serial
        (without_chosen_entries (is_chosen choice.now) v.placed) }
    ensures emptied { (v : PlacedVersion) (owner : Whose) (row : VersionRow)
        (before after : List PlacedVersion) → v.slot ≡ slot
        → IsRow pools.old owner row (before ++ v ∷ after)
        → result ≡ is_emptied v.placed
        (without_chosen_entries (is_chosen choice.now) v.placed) }
    ensures fewer { FitsAsBefore pools.old pools.new }
{
    let mut content = take_content(alloc, &mut pools.versions, slot, steps);
    let count = content.count;
    content.delete_chosen(&mut pools.entries, &mut pools.nodes, choice, steps);
    let emptied = has_emptied(count, content.count);
    put_content(&mut pools.versions, slot, content, steps);
    emptied
}

/// Changes the value of the entries that are chosen in the version in a slot, of all or of none.
pub(crate) fn set_in<L: Ledger>(
    alloc: Global,
    pools: &mut Pools,
    slot: usize,
    choice: &Choice<'_>,
    value: &[u8],
    steps: &mut Steps<L>,
) -> Result<(), NoMemory>
    requires { (owner : Whose) × (row : VersionRow) × (before : List PlacedVersion)
        × (v : PlacedVersion) × (after : List PlacedVersion) × (v.slot ≡ slot)
        × IsRow pools.old owner row (before ++ v ∷ after) }
    ensures ok { OnOk result ((owner : Whose) (row : VersionRow) (before : List PlacedVersion)
        (v : PlacedVersion) (after : List PlacedVersion) → v.slot ≡ slot
        → IsRow pools.old owner row (before ++ v ∷ after)
        → ChangesVersionAt pools.old pools.new owner row before v after v.serial
        (with_chosen_values (is_chosen choice.now) value.now v.placed)) }
    ensures err { OnErr result (pools.new ≡ pools.old) }
    ensures fewer { FitsAsBefore pools.old pools.new }
{
    let version = pools.versions.get(slot, steps);
    version.content.set_chosen(
        alloc,
        &mut pools.entries,
        &pools.nodes,
        choice,
        value,
        steps,
    )
}
