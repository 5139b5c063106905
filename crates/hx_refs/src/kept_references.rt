//! The references in their order, and the store of their versions.
ghost use Rattle.std.specs.Prelude.{◌≡◌, ◌≢◌, ◌+◌, ◌<◌, ◌≤◌, ◌^◌, ◌++◌, [], ◌∷◌, List, length, map, slice_get, slice_set, None, Some, is_some, All, IfOk, IfErr, IsOk, OnOk, OnErr, option_map};
ghost use Rattle.std.specs.Option.{option_copied};
ghost use Rattle.std.specs.List.{list_any};
ghost use Rattle.hx_sample.specs.Changes.{with_value, without_chosen};
ghost use Rattle.hx_sample.specs.Find.{found_entry};
ghost use Rattle.hx_sample.specs.Seen.{value_of};
ghost use Rattle.hx_sample.specs.Tables.{entry_of};
ghost use Rattle.hx_refs.specs.Additions.{with_pairs, AdditionCountsLarge, MayRefuse, Pair, VersionAsksFor};
ghost use Rattle.hx_refs.specs.Changes.{answer, deletion_fault, value_fault, with_entries, MayFail};
ghost use Rattle.hx_versions.specs.Costs.{search_steps};
ghost use Rattle.hx_refs.specs.Kept.{kept_demands, kept_fault, shown_references, slots_in_kept, version_fault, with_kept, IsAdded, Kept};
ghost use Rattle.hx_refs.specs.Naming.{resolution};
ghost use Rattle.hx_versions.specs.NewEntries.{added_entries, AreReadyFor};
ghost use Rattle.hx_refs.specs.Numbers.{HasVersionsInOrder, NumbersRise};
ghost use Rattle.hx_refs.specs.References.{info_of, new_reference, no_slots, version_entries, version_of, version_place, with_output, AreEmpty, References};
ghost use Rattle.hx_versions.specs.Rows.{use_ways};
ghost use Rattle.hx_refs.specs.SlotCounts.{least_slots, most_slots};
ghost use Rattle.hx_refs.specs.Uses.{use_parts, use_with, uses_in_order};
ghost use Rattle.hx_refs.specs.Versions.{HasVersion};
ghost use Rattle.hx_versions.specs.Versions.{is_chosen};

use crate::fault::RefFault;
use crate::info::RefInfo;
use crate::judging::new_entries;
use crate::limits::Limits;
use crate::naming::named_number;
use crate::pairs::KeptPair;
use crate::reference::KeptReference;
use crate::side::Side;
use hx_outside::ReMaker;
use hx_pool::Steps;
use hx_sample::{Hit, Sample};
use hx_text::{By, NoMemory, Out};
use hx_versions::{Choice, Entries, NewEntries, Store};
use std::alloc::Global;
use std::marker::{Brand, Model};
use std::sync::ledger::{Blank, Ledger};

/// The position, unless there is a fault.
fn answer(position: u32, fault: Option<RefFault>) -> Result<u32, RefFault>
    ensures { result ≡ answer position fault }
{
    match fault {
        None => Ok(position),
        Some(fault) => Err(fault),
    }
}

/// The references in their order, and the store, which has a row of versions for each. Contracts
/// see the list of the references with their versions, and the slots of memory that the store uses.
pub(crate) struct KeptReferences {
    pub(crate) references: Vec<KeptReference>,
    pub(crate) store: Store,
}

// Written out, so that letting one go is one call in the proofs of callers.
impl Drop for KeptReferences {
    fn drop(self) {
        let KeptReferences {
            references: _references,
            store: _store,
        } = self;
    }
}

impl Model for KeptReferences {
    ghost use Rattle.hx_refs.specs.Kept.{all_filled, AreFilled, KeptState};
    ghost use Rattle.hx_versions.specs.Rows.{store_slots};

    ghost Value = { KeptState };

    ghost view = { λ all. record {
      kept = all_filled all.references.items all.store.rows;
      slots = store_slots all.store;
    } };

    ghost invariant = { λ all. AreFilled all.references.items all.store };
}

impl KeptReferences {
    /// No references. It takes no memory; those that are added later take it from `alloc`.
    pub(crate) fn new(alloc: Global) -> KeptReferences
        ensures { result ≡ record { kept = []; slots = no_slots } }
    {
        KeptReferences {
            references: Vec::new(alloc),
            store: Store::new(alloc),
        }
    }

    /// How many references there are.
    pub(crate) fn len(&self) -> usize
        ensures { result ≡ length self.now.kept }
    {
        self.references.len()
    }

    /// Appends a reference without uses, outputs and entries, which begins with the version
    /// `first`. Nothing is changed where memory runs out.
    pub(crate) fn push(
        &mut self,
        alloc: Global,
        first: u32,
        id: u32,
        file: Option<&[u8]>,
        two_column: bool,
        acl: bool,
    ) -> Result<(), NoMemory>
        ensures ok { OnOk result (self.new.kept ≡ self.old.kept ++ record {
          shown = new_reference first id (option_copied file.entry) two_column acl;
          uses = [];
        } ∷ []) }
        ensures err { OnErr result (self.new ≡ self.old) }
    {
        let reference = KeptReference::new(alloc, first, id, file, two_column, acl)?;
        self.references.reserve(1)?;
        self.store.push_row()?;
        self.references.push_reserved(reference);
        Ok(())
    }

    /// The file of the reference at a position.
    pub(crate) fn file(&self, r: u32) -> Option<&[u8]>
        requires { r < length self.now.kept }
        ensures { (k : Kept) → slice_get self.now.kept r ≡ Some k
            → option_copied result ≡ k.shown.file }
    {
        let reference = &self.references[r as usize];
        reference.file()
    }

    /// What is told of the reference at a position.
    pub(crate) fn info(&self, r: u32) -> RefInfo
        requires { r < length self.now.kept }
        ensures { (k : Kept) → slice_get self.now.kept r ≡ Some k → result ≡ info_of k.shown }
    {
        let count = self.store.total_count::<Brand>(r, Blank::new(1));
        let reference = &self.references[r as usize];
        reference.info(count)
    }

    /// The values of the reference at a position are read by one more output.
    pub(crate) fn add_out(&mut self, r: u32, out: Out)
        requires { r < length self.old.kept }
        ensures { self.new.kept
            ≡ with_kept r (λ old. record old { outputs = with_output out old.outputs })
            self.old.kept }
    {
        let reference = &mut self.references[r as usize];
        reference.add_out(out);
    }

    /// The head of a use of the reference at a position, if there is one.
    pub(crate) fn head_with(&self, r: u32, by: By, ci: bool) -> Option<u32>
        requires { r < length self.now.kept }
        ensures { (k : Kept) → slice_get self.now.kept r ≡ Some k
            → result ≡ option_map (λ u. u.head) (use_with by ci k.uses) }
    {
        let reference = &self.references[r as usize];
        reference.head_with(by, ci)
    }

    /// The use at a place in the order in which uses are told, of the reference at a position.
    pub(crate) fn use_at(&self, r: u32, place: u32) -> Option<(By, bool, u32)>
        requires { r < length self.now.kept }
        ensures { (k : Kept) → slice_get self.now.kept r ≡ Some k
            → result ≡ option_map use_parts (slice_get (uses_in_order k.uses) place) }
    {
        let reference = &self.references[r as usize];
        reference.use_at(place)
    }

    /// How many uses the reference at a position has.
    pub(crate) fn use_count(&self, r: u32) -> usize
        requires { r < length self.now.kept }
        ensures { (k : Kept) → slice_get self.now.kept r ≡ Some k → result ≡ length k.uses }
    {
        let reference = &self.references[r as usize];
        reference.uses().len()
    }

    /// Appends a use to those of the reference at a position, to which nothing was added. Nothing
    /// is changed where memory runs out.
    pub(crate) fn push_use(&mut self, r: u32, by: By, ci: bool, head: u32) -> Result<(), NoMemory>
        requires r { r < length self.old.kept }
        requires found { by ≢ By.Found }
        requires bool { by ≢ By.Bool }
        requires empty { (k : Kept) → slice_get self.old.kept r ≡ Some k
            → AreEmpty k.shown.versions }
        ensures ok { OnOk result ((k : Kept) → slice_get self.old.kept r ≡ Some k
            → self.new.kept ≡ slice_set self.old.kept r
            (record k { uses = k.uses ++ record { by = by; ci = ci; head = head } ∷ [] })) }
        ensures err { OnErr result (self.new ≡ self.old) }
    {
        let reference = &mut self.references[r as usize];
        reference.push_use(by, ci, head)
    }

    /// The entries of a version of the reference at a position, and none where there is no such
    /// version.
    pub(crate) fn entries(&self, r: u32, ver: Option<u32>) -> Entries<'_>
        requires { r < length self.now.kept }
        ensures { (k : Kept) → slice_get self.now.kept r ≡ Some k
            → result ≡ version_entries k.shown ver }
    {
        let reference = &self.references[r as usize];
        let stored = reference.stored_or_unused(ver);
        self.store.entries::<Brand>(r, stored, Blank::new(1))
    }

    /// Whether the reference at a position has a version.
    pub(crate) fn has_version(&self, r: u32, ver: Option<u32>) -> bool
        requires { r < length self.now.kept }
        ensures { (k : Kept) → slice_get self.now.kept r ≡ Some k
            → result ≡ is_some (version_place k.shown ver) }
    {
        let reference = &self.references[r as usize];
        reference.number(ver).is_some()
    }

    /// Whether an entry is chosen in a version of the reference at a position.
    pub(crate) fn has_chosen(&self, r: u32, ver: Option<u32>, choice: &Choice<'_>) -> bool
        requires { r < length self.now.kept }
        ensures { (k : Kept) → slice_get self.now.kept r ≡ Some k
            → result ≡ list_any (is_chosen choice.now) (version_entries k.shown ver) }
    {
        let reference = &self.references[r as usize];
        let stored = reference.stored_or_unused(ver);
        self.store
            .has_chosen::<Brand>(r, stored, choice, Blank::new(1))
    }

    /// The entry that is found for a sample by a use of the reference at a position, which has the
    /// method and the case and stands at the position `place` among its uses.
    pub(crate) fn find<L: Ledger>(
        &self,
        r: u32,
        place: usize,
        by: By,
        ci: bool,
        sample: &Sample<'_>,
        steps: &mut Steps<L>,
    ) -> Result<Option<Hit<'_>>, NoMemory>
        requires r { r < length self.now.kept }
        requires known { (k : Kept) → slice_get self.now.kept r ≡ Some k
            → slice_get (use_ways k.uses) place ≡ Some (by, ci) }
        ensures found { IfOk result (λ found. (k : Kept) → slice_get self.now.kept r ≡ Some k
            → option_map entry_of found
            ≡ found_entry by ci (version_entries k.shown None) (value_of sample.now)) }
        ensures free { by ≢ By.Reg → IsOk result }
        ensures cost { (k : Kept) → slice_get self.now.kept r ≡ Some k
            → steps.new ≤ steps.old
            + search_steps by ci (version_entries k.shown None) (value_of sample.now) }
    {
        let reference = &self.references[r as usize];
        let number = reference.stored_first();
        self.store.find(r, number, place, by, ci, sample, steps)
    }

    /// The entries that the pairs become in the version of a number of the reference at a position.
    fn judged<M: ReMaker>(
        &self,
        alloc: Global,
        limits: Limits,
        r: u32,
        number: u32,
        pairs: &[KeptPair],
        maker: &mut M,
    ) -> Result<NewEntries, RefFault>
        requires r { r < length self.now.kept }
        requires version { (k : Kept) → slice_get self.now.kept r ≡ Some k
            → HasVersion k.shown number }
        ensures entries { IfOk result (λ added. (k : Kept) → slice_get self.now.kept r ≡ Some k
            → IsAdded k number pairs.now (added_entries added.entries.items) added.serial) }
        ensures ready { IfOk result (λ added. (k : Kept) → slice_get self.now.kept r ≡ Some k
            → AreReadyFor (use_ways k.uses) added.entries.items) }
        ensures few { IfOk result (λ added. (k : Kept) → slice_get self.now.kept r ≡ Some k
            → length (version_entries k.shown (Some number)) + length added.entries.items
            < 2 ^ 32) }
        ensures none { OnOk result ((k : Kept) → slice_get self.now.kept r ≡ Some k
            → version_fault (kept_demands k limits)
            (version_of k.shown (Some number)) pairs.now ≡ None) }
        ensures refused { IfErr result (λ fault. (k : Kept) → slice_get self.now.kept r ≡ Some k
            → MayRefuse (version_fault (kept_demands k limits)
            (version_of k.shown (Some number)) pairs.now) fault) }
        ensures large { (k : Kept) → slice_get self.now.kept r ≡ Some k
            → AdditionCountsLarge result (VersionAsksFor (kept_demands k limits)
            (version_of k.shown (Some number)) pairs.now)
            (M.state maker.old) (M.state maker.new) }
    {
        let reference = &self.references[r as usize];
        let stored = reference.stored_number(number);
        let (count, serial) = self.store.filling::<Brand>(r, stored, Blank::new(1));
        new_entries(
            alloc, limits, reference, number, count, serial, pairs, maker,
        )
    }

    /// Appends entries to the version of a number of the reference at a position. Nothing is
    /// changed where memory runs out.
    fn append(&mut self, r: u32, number: u32, added: NewEntries) -> Result<(), NoMemory>
        requires r { r < length self.old.kept }
        requires version { (k : Kept) → slice_get self.old.kept r ≡ Some k
            → HasVersion k.shown number }
        requires ready { (k : Kept) → slice_get self.old.kept r ≡ Some k
            → AreReadyFor (use_ways k.uses) added.entries.items }
        requires few { (k : Kept) → slice_get self.old.kept r ≡ Some k
            → length (version_entries k.shown (Some number)) + length added.entries.items < 2 ^ 32 }
        requires pairs { (k : Kept) → slice_get self.old.kept r ≡ Some k → (pairs : List Pair)
            × IsAdded k number pairs (added_entries added.entries.items) added.serial }
        ensures ok { OnOk result ((k : Kept) (pairs : List Pair)
            → slice_get self.old.kept r ≡ Some k
            → IsAdded k number pairs (added_entries added.entries.items) added.serial
            → self.new.kept ≡ with_kept r (with_pairs (Some number) pairs) self.old.kept) }
        ensures err { OnErr result (self.new ≡ self.old) }
    {
        let reference = &self.references[r as usize];
        if added.entries.is_empty() {
            return Ok(());
        }
        let stored = reference.stored_number(number);
        self.store
            .append::<Brand>(r, stored, reference.uses(), added, Blank::new(1))
    }

    /// The pairs as the last entries of a version of the reference at a position, all of them or
    /// none.
    pub(crate) fn add<M: ReMaker>(
        &mut self,
        alloc: Global,
        limits: Limits,
        r: u32,
        ver: Option<u32>,
        pairs: &[KeptPair],
        maker: &mut M,
    ) -> Result<(), RefFault>
        requires { r < length self.old.kept }
        ensures ok { OnOk result
            (self.new.kept ≡ with_kept r (with_pairs ver pairs.now) self.old.kept) }
        ensures none { OnOk result ((k : Kept) → slice_get self.old.kept r ≡ Some k
            → version_fault (kept_demands k limits) (version_of k.shown ver) pairs.now ≡ None) }
        ensures refused { IfErr result (λ fault. (k : Kept) → slice_get self.old.kept r ≡ Some k
            → MayRefuse (version_fault (kept_demands k limits) (version_of k.shown ver) pairs.now)
            fault) }
        ensures kept { OnErr result (self.new ≡ self.old) }
        ensures large { (k : Kept) → slice_get self.old.kept r ≡ Some k
            → AdditionCountsLarge result (VersionAsksFor (kept_demands k limits)
            (version_of k.shown ver) pairs.now)
            (M.state maker.old) (M.state maker.new) }
    {
        let reference = &self.references[r as usize];
        let Some(number) = reference.number(ver) else {
            return Err(RefFault::BadVersion);
        };
        self.add_to(alloc, limits, r, number, pairs, maker)
    }

    /// The same for the version of a number, which the reference has.
    fn add_to<M: ReMaker>(
        &mut self,
        alloc: Global,
        limits: Limits,
        r: u32,
        number: u32,
        pairs: &[KeptPair],
        maker: &mut M,
    ) -> Result<(), RefFault>
        requires r { r < length self.old.kept }
        requires version { (k : Kept) → slice_get self.old.kept r ≡ Some k
            → HasVersion k.shown number }
        ensures ok { OnOk result
            (self.new.kept ≡ with_kept r (with_pairs (Some number) pairs.now) self.old.kept) }
        ensures none { OnOk result ((k : Kept) → slice_get self.old.kept r ≡ Some k
            → version_fault (kept_demands k limits)
            (version_of k.shown (Some number)) pairs.now ≡ None) }
        ensures refused { IfErr result (λ fault. (k : Kept) → slice_get self.old.kept r ≡ Some k
            → MayRefuse (version_fault (kept_demands k limits)
            (version_of k.shown (Some number)) pairs.now) fault) }
        ensures kept { OnErr result (self.new ≡ self.old) }
        ensures large { (k : Kept) → slice_get self.old.kept r ≡ Some k
            → AdditionCountsLarge result (VersionAsksFor (kept_demands k limits)
            (version_of k.shown (Some number)) pairs.now)
            (M.state maker.old) (M.state maker.new) }
    {
        let added = self.judged(alloc, limits, r, number, pairs, maker)?;
        self.append(r, number, added)?;
        Ok(())
    }

    /// Why the entries that are chosen aren't removed from a version of the reference at a
    /// position.
    fn deletion_fault(&self, r: u32, ver: Option<u32>, choice: &Choice<'_>) -> Option<RefFault>
        requires { r < length self.now.kept }
        ensures { result
            ≡ kept_fault self.now.kept r (deletion_fault ver (is_chosen choice.now)) }
    {
        let reference = &self.references[r as usize];
        if reference.number(ver).is_none() {
            return Some(RefFault::BadVersion);
        }
        if !self.has_chosen(r, ver, choice) {
            return Some(RefFault::KeyNotFound);
        }
        None
    }

    /// Removes the entries that are chosen from a version of the reference at a position.
    pub(crate) fn delete(
        &mut self,
        r: u32,
        ver: Option<u32>,
        choice: &Choice<'_>,
    ) -> Result<(), RefFault>
        requires { r < length self.old.kept }
        ensures answer { result
            ≡ answer tt (kept_fault self.old.kept r (deletion_fault ver (is_chosen choice.now))) }
        ensures ok { OnOk result (self.new.kept
            ≡ with_kept r (with_entries ver (without_chosen (is_chosen choice.now)))
            self.old.kept) }
        ensures err { OnErr result (self.new ≡ self.old) }
    {
        if let Some(fault) = self.deletion_fault(r, ver, choice) {
            return Err(fault);
        }
        self.remove(r, ver, choice);
        Ok(())
    }

    /// The same where nothing is refused. A version that the reference hasn't changes nothing.
    fn remove(&mut self, r: u32, ver: Option<u32>, choice: &Choice<'_>)
        requires { r < length self.old.kept }
        ensures { self.new.kept
            ≡ with_kept r (with_entries ver (without_chosen (is_chosen choice.now)))
            self.old.kept }
    {
        let reference = &self.references[r as usize];
        if let Some(number) = reference.number(ver) {
            let stored = reference.stored_number(number);
            self.store.delete::<Brand>(r, stored, choice, Blank::new(1));
        }
    }

    /// Why the value of the entries that are chosen isn't changed in a version of the reference at
    /// a position.
    fn value_fault(
        &self,
        r: u32,
        ver: Option<u32>,
        choice: &Choice<'_>,
        value: &[u8],
    ) -> Option<RefFault>
        requires { r < length self.now.kept }
        ensures { result
            ≡ kept_fault self.now.kept r (value_fault ver (is_chosen choice.now) value.now) }
    {
        if let Some(fault) = self.deletion_fault(r, ver, choice) {
            return Some(fault);
        }
        let reference = &self.references[r as usize];
        if reference.refuses_value(value) {
            return Some(RefFault::BadValue);
        }
        None
    }

    /// Changes the value of the entries that are chosen in a version of the reference at a
    /// position, of all of them or of none.
    pub(crate) fn set(
        &mut self,
        r: u32,
        ver: Option<u32>,
        choice: &Choice<'_>,
        value: &[u8],
    ) -> Result<(), RefFault>
        requires { r < length self.old.kept }
        ensures ok { OnOk result (self.new.kept
            ≡ with_kept r (with_entries ver (map (with_value (is_chosen choice.now) value.now)))
            self.old.kept) }
        ensures none { OnOk result (kept_fault self.old.kept r
            (value_fault ver (is_chosen choice.now) value.now) ≡ None) }
        ensures refused { IfErr result (MayFail (kept_fault self.old.kept r
            (value_fault ver (is_chosen choice.now) value.now))) }
        ensures kept { OnErr result (self.new ≡ self.old) }
    {
        if let Some(fault) = self.value_fault(r, ver, choice, value) {
            return Err(fault);
        }
        self.set_values(r, ver, choice, value)?;
        Ok(())
    }

    /// The same where nothing is refused. A version that the reference hasn't changes nothing.
    fn set_values(
        &mut self,
        r: u32,
        ver: Option<u32>,
        choice: &Choice<'_>,
        value: &[u8],
    ) -> Result<(), NoMemory>
        requires { r < length self.old.kept }
        ensures ok { OnOk result (self.new.kept
            ≡ with_kept r (with_entries ver (map (with_value (is_chosen choice.now) value.now)))
            self.old.kept) }
        ensures err { OnErr result (self.new ≡ self.old) }
    {
        let reference = &self.references[r as usize];
        let Some(number) = reference.number(ver) else {
            return Ok(());
        };
        let stored = reference.stored_number(number);
        self.store
            .set::<Brand>(r, stored, choice, value, Blank::new(1))
    }

    /// The position of the reference that a word names for a side.
    pub(crate) fn resolve(&self, word: &[u8], side: Side) -> Result<u32, RefFault>
        requires { length self.now.kept ≤ 65536 }
        ensures { (refs : References) → refs.references ≡ shown_references self.now.kept
            → result ≡ resolution refs word.now side }
    {
        let number = named_number(word);
        let mut position = 0;
        let mut rest = self.references.as_slice();
        while let [reference, others @ ..] = rest {
            if reference.is_named(number, word) {
                return answer(position, reference.side_fault(side));
            }
            position += 1;
            rest = others;
        }
        Err(RefFault::UnknownRef)
    }

    /// Does nothing. Of each reference the versions are in order, and the numbers of their entries
    /// rise.
    pub(crate) fn are_numbered(&self)
        ensures versions { All HasVersionsInOrder (shown_references self.now.kept) }
        ensures entries { All NumbersRise (shown_references self.now.kept) }
    {
        let _references = &self.references;
    }

    /// Does nothing. The slots that are in use and don't wait are as many as the versions need.
    pub(crate) fn have_counted_slots(&self)
        ensures least { slots_in_kept least_slots self.now.kept + self.now.slots.retired
            ≤ self.now.slots.used }
        ensures most { self.now.slots.used
            ≤ slots_in_kept most_slots self.now.kept + self.now.slots.retired }
    {
        let _store = &self.store;
    }
}
