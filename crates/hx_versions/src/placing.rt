//! Versions in the row of a reference: where that of a number stands, and a new one in its place.
ghost use Rattle.std.specs.Prelude.{◌≡◌, ◌≢◌, ◌+◌, ◌<◌, ◌≤◌, ◌++◌, [], ◌∷◌, ℕ, List, Some};
ghost use Rattle.hx_pool.specs.Pool.{get, live_count, IsLive, Updates};
ghost use Rattle.hx_versions.specs.declared.content.Content.{Content as Held};
ghost use Rattle.hx_versions.specs.declared.stored_version.Owner.{Owner as Whose};
ghost use Rattle.hx_versions.specs.declared.stored_version.StoredVersion.{StoredVersion as Stored};
ghost use Rattle.hx_pool.specs.Chain.{LiesIn};
ghost use Rattle.hx_index.specs.Index.{NodePool};
ghost use Rattle.hx_versions.specs.Contents.{EntryPool, IsContent};
ghost use Rattle.hx_versions.specs.StoredVersions.{version_links};
ghost use Rattle.hx_versions.specs.Store.{IsAtPlace, IsRow, PlacedVersion, PutsVersion};

use crate::content::Content;
use crate::pools::{Pools, Row};
use crate::stored_version::StoredVersion;
use hx_pool::{Chain, Pool, Steps};
use std::alloc::Global;
use std::mem;
use std::sync::ledger::Ledger;

/// Where the version of a number stands in a row: in this slot; or it would stand before that in
/// this slot, or last.
#[derive(Clone, Copy)]
pub(crate) enum Place {
    At(usize),
    Before(usize),
    Last,
}

/// Where the version of a number stands in a row, or would stand. It takes a step or two for each
/// version up to there.
pub(crate) fn place_of<L: Ledger>(
    pools: &Pools,
    row: &Row,
    number: u32,
    steps: &mut Steps<L>,
) -> Place
    requires { (owner : Whose) × (vs : List PlacedVersion) × IsRow pools.now owner row.now vs }
    ensures { (owner : Whose) (vs : List PlacedVersion) → IsRow pools.now owner row.now vs
        → IsAtPlace number result vs }
{
    let mut at = row.versions.front();
    while let Some(slot) = at {
        let found = number_in(&pools.versions, slot, steps);
        if found == number {
            return Place::At(slot);
        }
        if number < found {
            return Place::Before(slot);
        }
        at = row.versions.next(&pools.versions, slot, steps);
    }
    Place::Last
}

/// The number of the version in a slot.
pub(crate) fn number_in<L: Ledger>(
    versions: &Pool<StoredVersion>,
    slot: usize,
    steps: &mut Steps<L>,
) -> u32
    requires { IsLive versions.now slot }
    ensures number { (stored : Stored) → get versions.now slot ≡ Some stored
        → result ≡ stored.number }
    ensures cost { steps.new ≡ steps.old + 1 }
{
    versions.get(slot, steps).number
}

/// A content without entries and indexes. It stands in all slots.
pub(crate) fn empty_content(alloc: Global) -> Content
    ensures content { (entries : EntryPool) (nodes : NodePool) (version : ℕ)
        → IsContent entries nodes version result [] }
    ensures indexes { result.indexes.items ≡ [] }
{
    Content {
        count: 0,
        entries: Chain::new(),
        indexes: Vec::new(alloc),
    }
}

/// Takes the content of the version in a slot out, and leaves an empty one.
pub(crate) fn take_content<L: Ledger>(
    alloc: Global,
    versions: &mut Pool<StoredVersion>,
    slot: usize,
    steps: &mut Steps<L>,
) -> Content
    requires { IsLive versions.old slot }
    ensures taken { (stored : Stored) → get versions.old slot ≡ Some stored
        → (result ≡ stored.content) × (empty : Held)
        × Updates versions.old versions.new slot (Some (record stored { content = empty })) }
    ensures spare { versions.new.spare ≡ versions.old.spare }
    ensures live { live_count versions.new ≡ live_count versions.old }
    ensures cost { steps.new ≡ steps.old + 1 }
{
    let empty = empty_content(alloc);
    mem::replace(&mut versions.get_mut(slot, steps).content, empty)
}

/// Gives the version in a slot this content.
pub(crate) fn put_content<L: Ledger>(
    versions: &mut Pool<StoredVersion>,
    slot: usize,
    content: Content,
    steps: &mut Steps<L>,
)
    requires { IsLive versions.old slot }
    ensures put { (stored : Stored) → get versions.old slot ≡ Some stored
        → Updates versions.old versions.new slot (Some (record stored { content = content })) }
    ensures spare { versions.new.spare ≡ versions.old.spare }
    ensures live { live_count versions.new ≡ live_count versions.old }
    ensures cost { steps.new ≡ steps.old + 1 }
{
    versions.get_mut(slot, steps).content = content;
}

/// Gives the version in a slot this serial number.
pub(crate) fn put_serial<L: Ledger>(
    versions: &mut Pool<StoredVersion>,
    slot: usize,
    serial: u32,
    steps: &mut Steps<L>,
)
    requires { IsLive versions.old slot }
    ensures put { (stored : Stored) → get versions.old slot ≡ Some stored
        → Updates versions.old versions.new slot (Some (record stored { serial = serial })) }
    ensures spare { versions.new.spare ≡ versions.old.spare }
    ensures live { live_count versions.new ≡ live_count versions.old }
    ensures cost { steps.new ≡ steps.old + 1 }
{
    versions.get_mut(slot, steps).serial = serial;
}

/// Puts a version into a spare slot, and that before another into the chain of a row. It answers
/// the number of the slot. At most four steps.
pub(crate) fn put_before<L: Ledger>(
    versions: &mut Pool<StoredVersion>,
    row: &mut Chain,
    at: usize,
    version: StoredVersion,
    steps: &mut Steps<L>,
) -> usize
    requires spare { 0 < versions.old.spare }
    requires lies { (xs : List ℕ) × (ys : List ℕ)
        × LiesIn version_links versions.old row.old (xs ++ at ∷ ys) }
    ensures puts { (xs ys : List ℕ) → LiesIn version_links versions.old row.old (xs ++ at ∷ ys)
        → PutsVersion versions.old versions.new row.new result version xs (at ∷ ys) }
    ensures spare { versions.new.spare + 1 ≡ versions.old.spare }
    ensures live { live_count versions.new ≡ live_count versions.old + 1 }
    ensures cost { steps.new ≤ steps.old + 4 }
{
    let slot = versions.take(version);
    row.insert_before(versions, at, slot, steps);
    slot
}

/// Puts a version into a spare slot, and that last into the chain of a row. It answers the number
/// of the slot. At most three steps.
pub(crate) fn put_last<L: Ledger>(
    versions: &mut Pool<StoredVersion>,
    row: &mut Chain,
    version: StoredVersion,
    steps: &mut Steps<L>,
) -> usize
    requires spare { 0 < versions.old.spare }
    requires lies { (xs : List ℕ) × LiesIn version_links versions.old row.old xs }
    ensures puts { (xs : List ℕ) → LiesIn version_links versions.old row.old xs
        → PutsVersion versions.old versions.new row.new result version xs [] }
    ensures spare { versions.new.spare + 1 ≡ versions.old.spare }
    ensures live { live_count versions.new ≡ live_count versions.old + 1 }
    ensures cost { steps.new ≤ steps.old + 3 }
{
    let slot = versions.take(version);
    row.push_back(versions, slot, steps);
    slot
}
