//! The versions of references: what is removed, prepared, searched from then on, and given back.
ghost use Rattle.std.specs.Prelude.{◌≡◌, ◌+◌, ◌<◌, ◌≤◌, ◌^◌, [], length, map, slice_get, slice_set, None, Some, All, OnOk, OnErr};
ghost use Rattle.hx_refs.specs.Changes.{answer, commit_fault, preparation_fault, with_current_version, with_entries, with_new_version};
ghost use Rattle.hx_refs.specs.Costs.{steps_to_commit};
ghost use Rattle.hx_refs.specs.Kept.{kept_fault, with_kept, Kept};
ghost use Rattle.hx_refs.specs.References.{after_tidying, span};
ghost use Rattle.hx_versions.specs.Rows.{lowered, row_at, ShownVersion};
ghost use Rattle.hx_refs.specs.VersionNumbers.{number_ahead};
ghost use Rattle.hx_refs.specs.Versions.{HasVersion};

use crate::fault::RefFault;
use crate::kept_references::KeptReferences;
use crate::limits::Limits;
use hx_pool::Steps;
use hx_versions::{Slots, Store};
use std::marker::Brand;
use std::sync::ledger::{Blank, Ledger};

/// Lowers the store's numbers of the versions of a row. None of them is smaller.
fn lower(store: &mut Store, r: u32, by: u32)
    requires row { r < length store.old.rows }
    requires above { All (λ (version : ShownVersion). by ≤ version.number) (row_at store.old r) }
    ensures lowered { row_at store.new r ≡ map (lowered by) (row_at store.old r) }
    ensures others { store.new.rows ≡ slice_set store.old.rows r (row_at store.new r) }
    ensures waiting { store.new.waiting ≡ store.old.waiting }
{
    if by > 0 {
        store.lower_numbers::<Brand>(r, by, Blank::new(1));
    }
}

impl KeptReferences {
    /// Removes the entries of a version of the reference at a position. One that the reference
    /// hasn't changes nothing.
    pub(crate) fn clear(&mut self, r: u32, ver: Option<u32>)
        requires { r < length self.old.kept }
        ensures { self.new.kept ≡ with_kept r (with_entries ver (λ _. [])) self.old.kept }
    {
        let reference = &self.references[r as usize];
        if let Some(number) = reference.number(ver) {
            let stored = reference.stored_number(number);
            self.store.clear::<Brand>(r, stored, Blank::new(1));
        }
    }

    /// One version more of the reference at a position. It is answered by its number.
    pub(crate) fn prepare(&mut self, limits: Limits, r: u32) -> Result<u32, RefFault>
        requires { r < length self.old.kept }
        ensures answer { (k : Kept) → slice_get self.old.kept r ≡ Some k
            → result ≡ answer (number_ahead k.shown.next 1) (preparation_fault limits k.shown) }
        ensures ok { OnOk result (self.new.kept ≡ with_kept r with_new_version self.old.kept) }
        ensures err { OnErr result (self.new ≡ self.old) }
    {
        let reference = &self.references[r as usize];
        if let Some(fault) = reference.preparation_fault(limits) {
            return Err(fault);
        }
        Ok(self.add_version(r))
    }

    /// The same, where there is a number for it.
    fn add_version(&mut self, r: u32) -> u32
        requires r { r < length self.old.kept }
        requires room { (k : Kept) → slice_get self.old.kept r ≡ Some k
            → span k.shown + 1 < 2 ^ 32 }
        ensures number { (k : Kept) → slice_get self.old.kept r ≡ Some k
            → result ≡ number_ahead k.shown.next 1 }
        ensures kept { self.new.kept ≡ with_kept r with_new_version self.old.kept }
    {
        let reference = &mut self.references[r as usize];
        let excess = reference.excess();
        let number = reference.prepare();
        lower(&mut self.store, r, excess);
        number
    }

    /// The version of a number of the reference at a position is searched from now on, and those
    /// that are less far ahead are dropped.
    pub(crate) fn commit<L: Ledger>(
        &mut self,
        r: u32,
        number: u32,
        steps: &mut Steps<L>,
    ) -> Result<(), RefFault>
        requires { r < length self.old.kept }
        ensures answer { result ≡ answer tt (kept_fault self.old.kept r (commit_fault number)) }
        ensures ok { OnOk result
            (self.new.kept ≡ with_kept r (with_current_version number) self.old.kept) }
        ensures used { self.new.slots.used ≡ self.old.slots.used }
        ensures err { OnErr result (self.new ≡ self.old) }
        ensures cost { (k : Kept) → slice_get self.old.kept r ≡ Some k
            → steps.new ≤ steps.old + steps_to_commit number k.shown }
    {
        let reference = &self.references[r as usize];
        if let Some(fault) = reference.commit_fault(number) {
            return Err(fault);
        }
        self.set_current(r, number, steps);
        Ok(())
    }

    fn set_current<L: Ledger>(&mut self, r: u32, number: u32, steps: &mut Steps<L>)
        requires r { r < length self.old.kept }
        requires version { (k : Kept) → slice_get self.old.kept r ≡ Some k
            → HasVersion k.shown number }
        ensures kept { self.new.kept ≡ with_kept r (with_current_version number) self.old.kept }
        ensures used { self.new.slots.used ≡ self.old.slots.used }
        ensures cost { (k : Kept) → slice_get self.old.kept r ≡ Some k
            → steps.new ≤ steps.old + steps_to_commit number k.shown }
    {
        let reference = &mut self.references[r as usize];
        let stored = reference.set_current(number);
        self.store.drop_below(r, stored, steps);
    }

    /// How many slots of memory are in use, and how many of these wait to be given back.
    pub(crate) fn slots(&self) -> Slots
        ensures { result ≡ self.now.slots }
    {
        self.store.slots()
    }

    /// Gives back `n` of the slots that wait, or all where fewer wait.
    pub(crate) fn tidy(&mut self, n: usize)
        ensures kept { self.new.kept ≡ self.old.kept }
        ensures slots { self.new.slots ≡ after_tidying n self.old.slots }
    {
        self.store.tidy::<Brand>(n, Blank::new(1));
    }
}
