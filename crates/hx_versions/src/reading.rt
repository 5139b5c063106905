//! What is read of the versions in a row.
ghost use Rattle.std.specs.Prelude.{◌≡◌, ◌≢◌, ◌+◌, ◌≤◌, ◌<◌, ℕ, Bool, List, Some, IfOk, IsOk, length, map, slice_get, option_map};
ghost use Rattle.std.specs.List.{list_any, sum_by};
ghost use Rattle.hx_text.specs.declared.kinds.By.{By as Method};
ghost use Rattle.hx_sample.specs.Find.{found_entry};
ghost use Rattle.hx_sample.specs.Seen.{value_of};
ghost use Rattle.hx_sample.specs.Tables.{entry_of};
ghost use Rattle.hx_versions.specs.declared.stored_version.Owner.{Owner as Whose};
ghost use Rattle.hx_versions.specs.Costs.{search_steps};
ghost use Rattle.hx_versions.specs.Rows.{first_entries, version_numbered, AreNumbered, AreSearchedBy};
ghost use Rattle.hx_versions.specs.Store.{shown_version, IsRow, IsSlotOf, PlacedVersion};
ghost use Rattle.hx_versions.specs.Versions.{is_chosen};

use crate::choice::Choice;
use crate::placing::{Place, place_of};
use crate::pools::{Pools, Row};
use crate::version_entries::Entries;
use hx_pool::Steps;
use hx_sample::{Hit, Sample};
use hx_text::{By, NoMemory};
use std::alloc::Global;
use std::sync::ledger::Ledger;

/// The slot of the version of a number, if the row has it.
pub(crate) fn slot_of<L: Ledger>(
    pools: &Pools,
    row: &Row,
    number: u32,
    steps: &mut Steps<L>,
) -> Option<usize>
    requires { (owner : Whose) × (vs : List PlacedVersion) × IsRow pools.now owner row.now vs }
    ensures { (owner : Whose) (vs : List PlacedVersion) → IsRow pools.now owner row.now vs
        → IsSlotOf number result vs }
{
    match place_of(pools, row, number, steps) {
        Place::At(slot) => Some(slot),
        Place::Before(_) => None,
        Place::Last => None,
    }
}

/// How many entries the versions of the row have.
pub(crate) fn count_entries<L: Ledger>(pools: &Pools, row: &Row, steps: &mut Steps<L>) -> u64
    requires { (owner : Whose) × (vs : List PlacedVersion) × IsRow pools.now owner row.now vs }
    ensures { (owner : Whose) (vs : List PlacedVersion) → IsRow pools.now owner row.now vs
        → result ≡ sum_by (λ (v : PlacedVersion). length v.placed) vs }
{
    let mut count = 0;
    let mut at = row.versions.front();
    for _passed in 0..row.count {
        let Some(slot) = at else {
            return count;
        };
        let version = pools.versions.get(slot, steps);
        count += u64::from(version.content.count);
        at = row.versions.next(&pools.versions, slot, steps);
    }
    count
}

/// How many entries the version of a number has, and the serial number of the last that was added.
pub(crate) fn filling_of<L: Ledger>(
    pools: &Pools,
    row: &Row,
    number: u32,
    steps: &mut Steps<L>,
) -> (u32, u32)
    requires { (owner : Whose) × (vs : List PlacedVersion) × IsRow pools.now owner row.now vs }
    ensures count { (owner : Whose) (vs : List PlacedVersion) → IsRow pools.now owner row.now vs
        → (first last : ℕ) → AreNumbered first last (map shown_version vs)
        → result.0 ≡ length (version_numbered number (map shown_version vs)).entries }
    ensures serial { (owner : Whose) (vs : List PlacedVersion) → IsRow pools.now owner row.now vs
        → (first last : ℕ) → AreNumbered first last (map shown_version vs)
        → result.1 ≡ (version_numbered number (map shown_version vs)).serial }
{
    match slot_of(pools, row, number, steps) {
        Some(slot) => {
            let version = pools.versions.get(slot, steps);
            (version.content.count, version.serial)
        }
        None => (0, 0),
    }
}

/// The entries of the version of a number.
pub(crate) fn entries_of<'a, L: Ledger>(
    pools: &'a Pools,
    row: &Row,
    number: u32,
    steps: &mut Steps<L>,
) -> Entries<'a>
    requires { (owner : Whose) × (vs : List PlacedVersion) × IsRow pools.now owner row.now vs }
    ensures { (owner : Whose) (vs : List PlacedVersion) → IsRow pools.now owner row.now vs
        → (first last : ℕ) → AreNumbered first last (map shown_version vs)
        → result ≡ (version_numbered number (map shown_version vs)).entries }
{
    match slot_of(pools, row, number, steps) {
        Some(slot) => {
            let version = pools.versions.get(slot, steps);
            Entries::of_content(&pools.entries, &pools.nodes, &version.content)
        }
        None => Entries::none(&pools.entries),
    }
}

/// Whether an entry is chosen in the version of a number.
pub(crate) fn has_chosen<L: Ledger>(
    pools: &Pools,
    row: &Row,
    number: u32,
    choice: &Choice<'_>,
    steps: &mut Steps<L>,
) -> bool
    requires { (owner : Whose) × (vs : List PlacedVersion) × IsRow pools.now owner row.now vs }
    ensures { (owner : Whose) (vs : List PlacedVersion) → IsRow pools.now owner row.now vs
        → (first last : ℕ) → AreNumbered first last (map shown_version vs)
        → result ≡ list_any (is_chosen choice.now)
        (version_numbered number (map shown_version vs)).entries }
{
    match slot_of(pools, row, number, steps) {
        Some(slot) => {
            let version = pools.versions.get(slot, steps);
            version
                .content
                .has_chosen(&pools.entries, &pools.nodes, choice, steps)
        }
        None => false,
    }
}

/// The entry that is found for a sample in the first version of a row, where that is the one of the
/// number, through the index at the position `place`.
pub(crate) fn find_in<'a, L: Ledger>(
    alloc: Global,
    pools: &'a Pools,
    row: &Row,
    number: u32,
    place: usize,
    by: By,
    ci: bool,
    sample: &Sample<'_>,
    steps: &mut Steps<L>,
) -> Result<Option<Hit<'a>>, NoMemory>
    requires row { (owner : Whose) × (vs : List PlacedVersion) × IsRow pools.now owner row.now vs }
    requires way { (owner : Whose) (vs : List PlacedVersion) → IsRow pools.now owner row.now vs
        → (ways : List (Method × Bool)) × AreSearchedBy ways (map shown_version vs)
        × (slice_get ways place ≡ Some (by, ci)) }
    ensures found { (owner : Whose) (vs : List PlacedVersion) → IsRow pools.now owner row.now vs
        → IfOk result (λ found. option_map entry_of found
        ≡ found_entry by ci (first_entries number (map shown_version vs)) (value_of sample.now)) }
    ensures free { by ≢ By.Reg → IsOk result }
    ensures cost { (owner : Whose) (vs : List PlacedVersion) → IsRow pools.now owner row.now vs
        → steps.new ≤ steps.old + search_steps by ci
        (first_entries number (map shown_version vs)) (value_of sample.now) }
{
    let Some(slot) = row.versions.front() else {
        return Ok(None);
    };
    let version = pools.versions.get(slot, steps);
    if version.number != number {
        return Ok(None);
    }
    if version.content.count == 0 {
        return Ok(None);
    }
    let content = &version.content;
    match content.find(alloc, &pools.entries, &pools.nodes, place, sample, steps)? {
        Some(found) => Ok(Some(found.hit())),
        None => Ok(None),
    }
}
