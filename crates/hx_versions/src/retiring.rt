//! Versions that are dropped or cleared wait for their slots to be given back.
ghost use Rattle.std.specs.Prelude.{◌≡◌, ◌≢◌, ◌+◌, ◌*◌, ◌^◌, ◌<◌, ◌≤◌, ◌++◌, [], ◌∷◌, ℕ, List, All, length, slice_get, Some, None, min};
ghost use Rattle.hx_pool.specs.Pool.{get, live_count, IsLive, Updates};
ghost use Rattle.hx_pool.specs.Chain.{AreApart, IsIn, LiesIn};
ghost use Rattle.hx_versions.specs.declared.stored_version.Owner.{Owner as Whose};
ghost use Rattle.hx_versions.specs.declared.stored_version.StoredVersion.{StoredVersion as Stored};
ghost use Rattle.hx_versions.specs.StoredVersions.{version_links, IsSameStoredVersion};
ghost use Rattle.hx_versions.specs.declared.pools.Row.{Row as VersionRow};
ghost use Rattle.hx_versions.specs.Store.{waiting_slots, AreRetired, DropsFirst, GivesSlots, HasFewSlots, IsCleared, IsRow, KeepsVersions, MovesVersion, PlacedVersion, RetiredVersion};

use crate::placing::{empty_content, number_in, put_before, put_content, take_content};
use crate::pools::{Pools, Row};
use crate::stored_version::{Owner, StoredVersion};
use hx_pool::{Chain, Links, Pool, Steps};
use std::alloc::Global;
use std::sync::ledger::Ledger;

/// The version in a slot is no reference's from now on.
fn set_retired<L: Ledger>(versions: &mut Pool<StoredVersion>, slot: usize, steps: &mut Steps<L>)
    requires { IsLive versions.old slot }
    ensures set { (stored : Stored) → get versions.old slot ≡ Some stored
        → Updates versions.old versions.new slot
        (Some (record stored { owner = Whose.Retired })) }
    ensures spare { versions.new.spare ≡ versions.old.spare }
    ensures live { live_count versions.new ≡ live_count versions.old }
    ensures cost { steps.new ≡ steps.old + 1 }
{
    versions.get_mut(slot, steps).owner = Owner::Retired;
}

/// Moves the version in a slot from the chain of its row to the end of that of those that wait. At
/// most seven steps.
pub(crate) fn retire<L: Ledger>(
    versions: &mut Pool<StoredVersion>,
    row: &mut Chain,
    retired: &mut Chain,
    slot: usize,
    steps: &mut Steps<L>,
)
    requires live { IsLive versions.old slot }
    requires lies { (xs : List ℕ) × (ys : List ℕ) × (gone : List ℕ)
        × LiesIn version_links versions.old row.old (xs ++ slot ∷ ys)
        × LiesIn version_links versions.old retired.old gone × AreApart gone (xs ++ slot ∷ ys) }
    ensures moved { (xs ys gone : List ℕ) (stored : Stored)
        → get versions.old slot ≡ Some stored
        → LiesIn version_links versions.old row.old (xs ++ slot ∷ ys)
        → LiesIn version_links versions.old retired.old gone → AreApart gone (xs ++ slot ∷ ys)
        → MovesVersion versions.old versions.new row.new retired.new slot stored xs ys gone }
    ensures spare { versions.new.spare ≡ versions.old.spare }
    ensures live { live_count versions.new ≡ live_count versions.old }
    ensures cost { steps.new ≤ steps.old + 7 }
{
    row.unlink(versions, slot, steps);
    set_retired(versions, slot, steps);
    retired.push_back(versions, slot, steps);
}

/// How many slots a version takes, one of its own among them.
fn slots_of_version<L: Ledger>(
    versions: &Pool<StoredVersion>,
    slot: usize,
    steps: &mut Steps<L>,
) -> u64
    requires live { IsLive versions.now slot }
    requires few { (stored : Stored) → get versions.now slot ≡ Some stored
        → stored.content.count * (1 + length stored.content.indexes.items) < 2 ^ 40 }
    ensures slots { (stored : Stored) → get versions.now slot ≡ Some stored
        → result ≡ 1 + stored.content.count * (1 + length stored.content.indexes.items) }
    ensures cost { steps.new ≡ steps.old + 1 }
{
    let content = &versions.get(slot, steps).content;
    1 + u64::from(content.count) * (1 + content.indexes.len() as u64)
}

/// Drops the first version of a row, if its number is smaller, and answers how many slots wait from
/// then on because of it. At most nine steps, or one where it drops none.
pub(crate) fn drop_first<L: Ledger>(
    pools: &mut Pools,
    rows: &mut Vec<Row>,
    r: usize,
    retired: &mut Chain,
    number: u32,
    steps: &mut Steps<L>,
) -> Option<u64>
    requires r { r < length rows.old.items }
    requires stand { (row : VersionRow) → slice_get rows.old.items r ≡ Some row
        → (vs : List PlacedVersion) × IsRow pools.old (Whose.Reference r) row vs }
    requires few { (row : VersionRow) (vs : List PlacedVersion)
        → slice_get rows.old.items r ≡ Some row → IsRow pools.old (Whose.Reference r) row vs
        → All HasFewSlots vs }
    requires wait { (gone : List RetiredVersion) × AreRetired pools.old retired.old gone }
    ensures moves { (row : VersionRow) (vs : List PlacedVersion) (gone : List RetiredVersion)
        → slice_get rows.old.items r ≡ Some row → IsRow pools.old (Whose.Reference r) row vs
        → AreRetired pools.old retired.old gone
        → DropsFirst number result pools.old pools.new rows.old.items rows.new.items r retired.new
        vs gone }
    ensures last { result ≡ None → (pools.new ≡ pools.old) × (rows.new.items ≡ rows.old.items)
        × (retired.new ≡ retired.old) }
    ensures cost { steps.new ≤ steps.old + 9 }
    ensures last_cost { result ≡ None → steps.new ≤ steps.old + 1 }
{
    let Some(slot) = rows[r].versions.front() else {
        return None;
    };
    if number <= number_in(&pools.versions, slot, steps) {
        return None;
    }
    let slots = slots_of_version(&pools.versions, slot, steps);
    let row = &mut rows[r];
    retire(&mut pools.versions, &mut row.versions, retired, slot, steps);
    row.count -= 1;
    Some(slots)
}

/// Moves the version in a slot to those that wait, if it has entries, and puts one without entries
/// into its place. It answers how many slots wait from then on because of it.
pub(crate) fn clear_in<L: Ledger>(
    alloc: Global,
    pools: &mut Pools,
    rows: &mut Vec<Row>,
    r: usize,
    retired: &mut Chain,
    slot: usize,
    steps: &mut Steps<L>,
) -> u64
    requires r { r < length rows.old.items }
    requires stand { (row : VersionRow) → slice_get rows.old.items r ≡ Some row
        → (before : List PlacedVersion) × (v : PlacedVersion) × (after : List PlacedVersion)
        × (v.slot ≡ slot) × IsRow pools.old (Whose.Reference r) row (before ++ v ∷ after)
        × HasFewSlots v × (0 < length v.placed → 0 < pools.old.versions.spare) }
    requires wait { (gone : List RetiredVersion) × AreRetired pools.old retired.old gone }
    ensures empty { (row : VersionRow) (before : List PlacedVersion) (v : PlacedVersion)
        (after : List PlacedVersion) → slice_get rows.old.items r ≡ Some row → v.slot ≡ slot
        → IsRow pools.old (Whose.Reference r) row (before ++ v ∷ after)
        → length v.placed ≡ 0 → result ≡ 0 }
    ensures clears { (row : VersionRow) (before : List PlacedVersion) (v : PlacedVersion)
        (after : List PlacedVersion) (gone : List RetiredVersion)
        → slice_get rows.old.items r ≡ Some row → v.slot ≡ slot
        → IsRow pools.old (Whose.Reference r) row (before ++ v ∷ after)
        → AreRetired pools.old retired.old gone → 0 < length v.placed
        → IsCleared result pools.old pools.new rows.old.items rows.new.items r retired.new
        before v after gone }
    ensures none { result ≡ 0 → (pools.new ≡ pools.old) × (rows.new.items ≡ rows.old.items)
        × (retired.new ≡ retired.old) }
{
    let version = pools.versions.get(slot, steps);
    if version.content.count == 0 {
        return 0;
    }
    let light = StoredVersion {
        owner: version.owner,
        number: version.number,
        serial: version.serial,
        content: empty_content(alloc),
        links: Links::NONE,
    };
    let slots = slots_of_version(&pools.versions, slot, steps);
    let row = &mut rows[r];
    put_before(&mut pools.versions, &mut row.versions, slot, light, steps);
    retire(&mut pools.versions, &mut row.versions, retired, slot, steps);
    slots
}

/// Gives the slot of a version back, and lets go of the version.
fn give_version(versions: &mut Pool<StoredVersion>, slot: usize)
    requires { IsLive versions.old slot }
    ensures updates { Updates versions.old versions.new slot None }
    ensures spare { versions.new.spare ≡ versions.old.spare + 1 }
    ensures live { live_count versions.new + 1 ≡ live_count versions.old }
{
    let _version = versions.give(slot);
}

/// Gives back `n` of the slots of the version that waits longest, or all of them where there are
/// fewer, and answers how many; none where none waits.
fn tidy_first<L: Ledger>(
    alloc: Global,
    pools: &mut Pools,
    retired: &mut Chain,
    n: usize,
    steps: &mut Steps<L>,
) -> usize
    requires some { 0 < n }
    requires wait { (gone : List RetiredVersion) × AreRetired pools.old retired.old gone }
    ensures none { (gone : List RetiredVersion) → AreRetired pools.old retired.old gone
        → result ≡ 0 → gone ≡ [] }
    ensures most { result ≤ n }
    ensures wait { (gone : List RetiredVersion) → AreRetired pools.old retired.old gone
        → (left : List RetiredVersion) × AreRetired pools.new retired.new left
        × (waiting_slots left + result ≡ waiting_slots gone) }
    ensures others { (owner : Whose) → owner ≢ Whose.Retired
        → KeepsVersions owner pools.old pools.new }
    ensures spare { pools.old.versions.spare ≤ pools.new.versions.spare }
    ensures live { GivesSlots result pools.old pools.new }
{
    let Some(slot) = retired.front() else {
        return 0;
    };
    let mut content = take_content(alloc, &mut pools.versions, slot, steps);
    let given = content.dismantle(&mut pools.entries, &mut pools.nodes, n, steps);
    if given == n {
        put_content(&mut pools.versions, slot, content, steps);
        return n;
    }
    retired.unlink(&mut pools.versions, slot, steps);
    give_version(&mut pools.versions, slot);
    given + 1
}

/// Gives back `n` of the slots that wait, or all where there are fewer, and answers how many.
pub(crate) fn tidy<L: Ledger>(
    alloc: Global,
    pools: &mut Pools,
    retired: &mut Chain,
    n: usize,
    steps: &mut Steps<L>,
) -> usize
    requires { (gone : List RetiredVersion) × AreRetired pools.old retired.old gone }
    ensures count { (gone : List RetiredVersion) → AreRetired pools.old retired.old gone
        → result ≡ min n (waiting_slots gone) }
    ensures wait { (gone : List RetiredVersion) → AreRetired pools.old retired.old gone
        → (left : List RetiredVersion) × AreRetired pools.new retired.new left
        × (waiting_slots left + result ≡ waiting_slots gone) }
    ensures others { (owner : Whose) → owner ≢ Whose.Retired
        → KeepsVersions owner pools.old pools.new }
    ensures spare { pools.old.versions.spare ≤ pools.new.versions.spare }
    ensures live { GivesSlots result pools.old pools.new }
{
    let mut left = n;
    while left > 0 {
        let given = tidy_first(alloc, pools, retired, left, steps);
        if given == 0 {
            return n - left;
        }
        left -= given;
    }
    n
}
