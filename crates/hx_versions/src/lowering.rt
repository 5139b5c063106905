//! The numbers of all versions of a row are lowered.
ghost use Rattle.std.specs.Prelude.{◌≡◌, ◌≢◌, ◌+◌, ◌-◌, ◌≤◌, List, All, Some, map};
ghost use Rattle.hx_pool.specs.Pool.{get, live_count, IsLive, Updates};
ghost use Rattle.hx_versions.specs.declared.stored_version.Owner.{Owner as Whose};
ghost use Rattle.hx_versions.specs.declared.stored_version.StoredVersion.{StoredVersion as Stored};
ghost use Rattle.hx_versions.specs.Store.{lowered_version, HasSameCounts, IsRow, KeepsVersions, PlacedVersion};

use crate::pools::{Pools, Row};
use crate::stored_version::StoredVersion;
use hx_pool::{Pool, Steps};
use std::sync::ledger::Ledger;

/// Lowers the number of the version in a slot by `by`, than which it isn't smaller.
fn lower_number<L: Ledger>(
    versions: &mut Pool<StoredVersion>,
    slot: usize,
    by: u32,
    steps: &mut Steps<L>,
)
    requires live { IsLive versions.old slot }
    requires above { (stored : Stored) → get versions.old slot ≡ Some stored
        → by ≤ stored.number }
    ensures lowered { (stored : Stored) → get versions.old slot ≡ Some stored
        → Updates versions.old versions.new slot
        (Some (record stored { number = stored.number - by })) }
    ensures spare { versions.new.spare ≡ versions.old.spare }
    ensures live { live_count versions.new ≡ live_count versions.old }
    ensures cost { steps.new ≡ steps.old + 1 }
{
    versions.get_mut(slot, steps).number -= by;
}

/// Lowers the numbers of all versions of a row by `by`, than which none is smaller. No other version
/// changes.
pub(crate) fn lower_in<L: Ledger>(pools: &mut Pools, row: &Row, by: u32, steps: &mut Steps<L>)
    requires { (owner : Whose) × (vs : List PlacedVersion) × IsRow pools.old owner row.now vs
        × All (λ (v : PlacedVersion). by ≤ v.number) vs }
    ensures lowered { (owner : Whose) (vs : List PlacedVersion) → IsRow pools.old owner row.now vs
        → IsRow pools.new owner row.now (map (lowered_version by) vs) }
    ensures others { (owner : Whose) (vs : List PlacedVersion) → IsRow pools.old owner row.now vs
        → (theirs : Whose) → theirs ≢ owner → KeepsVersions theirs pools.old pools.new }
    ensures counts { HasSameCounts pools.old pools.new }
{
    let mut at = row.versions.front();
    for _passed in 0..row.count {
        let Some(slot) = at else {
            return;
        };
        at = row.versions.next(&pools.versions, slot, steps);
        lower_number(&mut pools.versions, slot, by, steps);
    }
}
