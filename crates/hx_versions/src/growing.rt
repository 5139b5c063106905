//! Entries are appended to a version of a row, which may be a new one.
ghost use Rattle.std.specs.Prelude.{◌≡◌, ◌+◌, ◌*◌, ◌^◌, ◌<◌, ◌≤◌, ◌++◌, ◌&&◌, ◌==◌, nat_lt, [], ◌∷◌, ℕ, List, Some, IfOk, OnErr, OnOk, length, map, slice_get};
ghost use Rattle.hx_pool.specs.Pool.{live_count};
ghost use Rattle.hx_pool.specs.Chain.{LiesIn};
ghost use Rattle.hx_versions.specs.declared.stored_version.Owner.{Owner as Whose};
ghost use Rattle.hx_versions.specs.declared.pools.Row.{Row as VersionRow};
ghost use Rattle.hx_versions.specs.Contents.{ways_of, PlacedEntry};
ghost use Rattle.hx_versions.specs.NewEntries.{added_entries, AreReadyFor};
ghost use Rattle.hx_versions.specs.Rows.{use_ways, AreSearchedBy, IsSearchedBy};
ghost use Rattle.hx_versions.specs.StoredVersions.{version_links};
ghost use Rattle.hx_versions.specs.Store.{shown_version, AreAllBelow, AreBare, BeginsAt, HasAppended, HasRoomFor, HasRowFor, HasSameValues, HasVersionFor, IsAtPlace, IsFree, IsRow, PlacedVersion, PutsVersion};

use crate::content::NewEntry;
use crate::placing::{
    Place, empty_content, place_of, put_before, put_content, put_last, put_serial, take_content,
};
use crate::pools::{Pools, Row};
use crate::stored_version::{Owner, StoredVersion};
use crate::uses::KeptUse;
use hx_index::Index;
use hx_pool::{Chain, Links, Pool, Steps};
use hx_text::{By, NoMemory};
use std::alloc::Global;
use std::sync::ledger::Ledger;

/// Takes memory until slots are spare for `count` entries with `ways` nodes each, for a new
/// version, and for one for each version with entries and one more. Where memory runs out, no slot
/// has another value.
pub(crate) fn reserve(
    pools: &mut Pools,
    filled: usize,
    count: usize,
    ways: usize,
) -> Result<(), NoMemory>
    ensures room { OnOk result (HasRoomFor count (count * ways) (filled + 2) pools.new) }
    ensures kept { HasSameValues pools.old pools.new }
{
    let Some(nodes) = count.checked_mul(ways) else {
        return Err(NoMemory);
    };
    let Some(versions) = filled.checked_add(2) else {
        return Err(NoMemory);
    };
    pools.entries.reserve(count)?;
    pools.nodes.reserve(nodes)?;
    pools.versions.reserve(versions)
}

/// One index more, of a method and a case, without patterns.
fn push_index(indexes: &mut Vec<Index>, by: By, ci: bool) -> Result<(), NoMemory>
    ensures ways { OnOk result
        (ways_of indexes.new.items ≡ ways_of indexes.old.items ++ (by, ci) ∷ []) }
    ensures bare { OnOk result (AreBare indexes.old.items → AreBare indexes.new.items) }
{
    let index = Index::new(by, ci);
    indexes.push(index)?;
    Ok(())
}

/// An index for each of the uses, without patterns.
fn new_indexes(alloc: Global, uses: &[KeptUse]) -> Result<Vec<Index>, NoMemory>
    ensures ways { IfOk result (λ indexes. ways_of indexes.items ≡ use_ways uses.now) }
    ensures bare { IfOk result (λ indexes. AreBare indexes.items) }
{
    let mut indexes = Vec::new(alloc);
    let mut rest = uses;
    while let [kept, others @ ..] = rest {
        let kept = *kept;
        push_index(&mut indexes, kept.by, kept.ci)?;
        rest = others;
    }
    Ok(indexes)
}

/// Gives the version in a slot an index for each of the uses, unless it has these. One that has
/// others has no entries. Where memory runs out, nothing is changed.
fn set_indexes<L: Ledger>(
    alloc: Global,
    pools: &mut Pools,
    slot: usize,
    uses: &[KeptUse],
    steps: &mut Steps<L>,
) -> Result<(), NoMemory>
    requires { (owner : Whose) × (row : VersionRow) × (before : List PlacedVersion)
        × (v : PlacedVersion) × (after : List PlacedVersion) × (v.slot ≡ slot)
        × IsRow pools.old owner row (before ++ v ∷ after) }
    ensures ok { OnOk result ((owner : Whose) (row : VersionRow) (before : List PlacedVersion)
        (v : PlacedVersion) (after : List PlacedVersion) → v.slot ≡ slot
        → AreAllBelow v.number before → IsRow pools.old owner row (before ++ v ∷ after)
        → IsSearchedBy (use_ways uses.now) (shown_version v)
        → HasVersionFor slot v.number (use_ways uses.now) pools.old pools.new owner row
        (before ++ v ∷ after)) }
    ensures err { OnErr result (pools.new ≡ pools.old) }
{
    let version = pools.versions.get(slot, steps);
    if version.content.indexes.len() == uses.len() {
        return Ok(());
    }
    let mut content = empty_content(alloc);
    content.indexes = new_indexes(alloc, uses)?;
    put_content(&mut pools.versions, slot, content, steps);
    Ok(())
}

/// Puts a version into a spare slot, and that into a place of the chain of a row where no version
/// stands. It answers the number of the slot.
fn put_in_place<L: Ledger>(
    versions: &mut Pool<StoredVersion>,
    row: &mut Chain,
    place: Place,
    version: StoredVersion,
    steps: &mut Steps<L>,
) -> usize
    requires spare { 0 < versions.old.spare }
    requires lies { (xs : List ℕ) × (ys : List ℕ)
        × LiesIn version_links versions.old row.old (xs ++ ys) × BeginsAt place ys }
    ensures puts { (xs ys : List ℕ) → LiesIn version_links versions.old row.old (xs ++ ys)
        → BeginsAt place ys
        → PutsVersion versions.old versions.new row.new result version xs ys }
    ensures spare { versions.new.spare + 1 ≡ versions.old.spare }
    ensures live { live_count versions.new ≡ live_count versions.old + 1 }
{
    match place {
        Place::At(_) => unreachable!(),
        Place::Before(at) => put_before(versions, row, at, version, steps),
        Place::Last => put_last(versions, row, version, steps),
    }
}

/// Puts a version without entries, with an index for each of the uses, into a place of a row where
/// no version stands, and answers its slot. Where memory runs out, nothing is changed.
fn put_new<L: Ledger>(
    alloc: Global,
    pools: &mut Pools,
    row: &mut Row,
    owner: Owner,
    number: u32,
    place: Place,
    uses: &[KeptUse],
    steps: &mut Steps<L>,
) -> Result<usize, NoMemory>
    requires spare { 0 < pools.old.versions.spare }
    requires free { IsFree place }
    requires stands { (vs : List PlacedVersion) × IsRow pools.old owner row.old vs
        × IsAtPlace number place vs }
    ensures ok { IfOk result (λ slot. (vs : List PlacedVersion)
        → IsRow pools.old owner row.old vs → IsAtPlace number place vs
        → HasVersionFor slot number (use_ways uses.now) pools.old pools.new owner row.new vs) }
    ensures err { OnErr result (pools.new ≡ pools.old) }
    ensures err_row { OnErr result (row.new ≡ row.old) }
{
    let Some(count) = row.count.checked_add(1) else {
        return Err(NoMemory);
    };
    let mut content = empty_content(alloc);
    content.indexes = new_indexes(alloc, uses)?;
    let version = StoredVersion {
        owner,
        number,
        serial: 0,
        content,
        links: Links::NONE,
    };
    let slot = put_in_place(
        &mut pools.versions,
        &mut row.versions,
        place,
        version,
        steps,
    );
    row.count = count;
    Ok(slot)
}

/// The slot of the version of a number of a row, with an index for each of the uses. Where the row
/// has no such version, one without entries is put in. Where memory runs out, nothing is changed.
pub(crate) fn version_for<L: Ledger>(
    alloc: Global,
    pools: &mut Pools,
    rows: &mut Vec<Row>,
    r: u32,
    number: u32,
    uses: &[KeptUse],
    steps: &mut Steps<L>,
) -> Result<usize, NoMemory>
    requires r { r < length rows.old.items }
    requires spare { 0 < pools.old.versions.spare }
    requires stand { (row : VersionRow) → slice_get rows.old.items r ≡ Some row
        → (vs : List PlacedVersion) × IsRow pools.old (Whose.Reference r) row vs }
    ensures ok { IfOk result (λ slot. (row : VersionRow) (vs : List PlacedVersion)
        → slice_get rows.old.items r ≡ Some row → IsRow pools.old (Whose.Reference r) row vs
        → AreSearchedBy (use_ways uses.now) (map shown_version vs)
        → HasRowFor slot number (use_ways uses.now) pools.old pools.new rows.old.items
        rows.new.items r vs) }
    ensures err { OnErr result (pools.new ≡ pools.old) }
    ensures err_rows { OnErr result (rows.new.items ≡ rows.old.items) }
{
    let row = &mut rows[r as usize];
    let place = place_of(pools, row, number, steps);
    match place {
        Place::At(slot) => {
            set_indexes(alloc, pools, slot, uses, steps)?;
            Ok(slot)
        }
        Place::Before(_) => put_new(
            alloc,
            pools,
            row,
            Owner::Reference(r),
            number,
            place,
            uses,
            steps,
        ),
        Place::Last => put_new(
            alloc,
            pools,
            row,
            Owner::Reference(r),
            number,
            place,
            uses,
            steps,
        ),
    }
}

/// Whether there were none, and there are some.
fn has_filled(before: u32, now: u32) -> bool
    ensures { result ≡ (nat_lt 0 now && before == 0) }
{
    now > 0 && before == 0
}

/// Appends entries to the version in a slot, of which the last gets this serial number. Whether it
/// had none and has some from then on.
pub(crate) fn append_in<L: Ledger>(
    alloc: Global,
    pools: &mut Pools,
    slot: usize,
    added: Vec<NewEntry>,
    serial: u32,
    steps: &mut Steps<L>,
) -> bool
    requires { (owner : Whose) × (row : VersionRow) × (before : List PlacedVersion)
        × (v : PlacedVersion) × (after : List PlacedVersion) × (v.slot ≡ slot)
        × IsRow pools.old owner row (before ++ v ∷ after)
        × AreReadyFor (ways_of v.content.indexes.items) added.items
        × (length v.placed + length added.items < 2 ^ 32)
        × (length added.items ≤ pools.old.entries.spare)
        × (length added.items * length (ways_of v.content.indexes.items)
        ≤ pools.old.nodes.spare) }
    ensures appends { (owner : Whose) (row : VersionRow) (before : List PlacedVersion)
        (v : PlacedVersion) (after : List PlacedVersion) → v.slot ≡ slot
        → IsRow pools.old owner row (before ++ v ∷ after)
        → AreReadyFor (ways_of v.content.indexes.items) added.items
        → HasAppended result pools.old pools.new owner row before v after serial
        (added_entries added.items) }
{
    let mut content = take_content(alloc, &mut pools.versions, slot, steps);
    let before = content.count;
    content.append_each(
        alloc,
        &mut pools.entries,
        &mut pools.nodes,
        slot,
        added,
        steps,
    );
    let filled = has_filled(before, content.count);
    put_content(&mut pools.versions, slot, content, steps);
    put_serial(&mut pools.versions, slot, serial, steps);
    filled
}
