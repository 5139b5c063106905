//! The store of all entries: the versions of each reference that had additions, with their indexes,
//! in slots of memory that all references share.
ghost use Rattle.std.specs.Prelude.{◌≡◌, ◌≢◌, ◌+◌, ◌-◌, ◌*◌, ◌<◌, ◌≤◌, ◌^◌, ◌++◌, ℕ, Bool, List, [], ◌∷◌, length, map, All, slice_get, slice_set, Some, IfOk, IsOk, OnOk, OnErr, option_map, true, false};
ghost use Rattle.std.specs.List.{list_any};
ghost use Rattle.hx_text.specs.declared.kinds.By.{By as Method};
ghost use Rattle.hx_sample.specs.Changes.{with_value, without_chosen};
ghost use Rattle.hx_sample.specs.Find.{found_entry};
ghost use Rattle.hx_sample.specs.Seen.{value_of};
ghost use Rattle.hx_sample.specs.Tables.{entry_of};
ghost use Rattle.hx_versions.specs.Costs.{search_steps};
ghost use Rattle.hx_versions.specs.Rows.{changed_entries, cleared_slots, first_entries, lowered, row_at, store_slots, total_count, use_ways, version_numbered, with_last_entries, AreCounted, AreNumbered, AreSearchedBy, BeginsFrom, Changes, IsDropped, ShownVersion};
ghost use Rattle.hx_versions.specs.NewEntries.{added_entries, AreReadyFor};
ghost use Rattle.hx_versions.specs.Versions.{is_chosen};

use crate::choice::Choice;
use crate::content::NewEntry;
use crate::filling::{delete_in, set_in};
use crate::growing::{append_in, reserve, version_for};
use crate::lowering::lower_in;
use crate::pools::{Pools, Row};
use crate::reading::{count_entries, entries_of, filling_of, find_in, has_chosen, slot_of};
use crate::retiring::{clear_in, drop_first, tidy};
use crate::slots::Slots;
use crate::uses::KeptUse;
use crate::version_entries::Entries;
use hx_pool::{Chain, Pool, Steps};
use hx_sample::{Hit, Sample};
use hx_text::{By, NoMemory};
use std::alloc::Global;
use std::marker::Model;
use std::sync::ledger::{Blank, Ledger};

/// Entries that are to be appended to a version, in their order, and the serial number that the
/// version has with them, which is that of the last.
#[derive(Drop)]
pub struct NewEntries {
    pub entries: Vec<NewEntry>,
    pub serial: u32,
}

/// One less, where versions with entries have become fewer.
fn fewer(filled: usize, less: bool) -> usize
    requires { less ≡ true → 0 < filled }
    ensures less { less ≡ true → result + 1 ≡ filled }
    ensures same { less ≡ false → result ≡ filled }
{
    if less { filled - 1 } else { filled }
}

/// One more, where versions with entries have become more.
fn more(filled: usize, grown: bool) -> usize
    requires { filled < 2 ^ 32 }
    ensures more { grown ≡ true → result ≡ filled + 1 }
    ensures same { grown ≡ false → result ≡ filled }
{
    if grown { filled + 1 } else { filled }
}

/// The versions of all references that had additions. Contracts see a row of versions for each
/// reference, and how many slots of memory wait to be given back.
///
/// The versions of a row are those that are searched or may be committed. A version that is dropped
/// or cleared goes to the chain `retired` whole, and `tidy` takes it apart bit by bit.
/// For each version with entries one slot is spare, so that clearing takes no memory: `filled` is
/// how many these are.
///
/// Calls find a row by its position `r`, which is below their number, and a version of it by its
/// `number`. A version that isn't in the row is one to which nothing was added. A call that is
/// given a `blank` counts its steps in the ledger that this is for, which nobody reads.
pub struct Store {
    alloc: Global,
    pools: Pools,
    rows: Vec<Row>,
    retired: Chain,
    waiting: u64,
    filled: usize,
}

// Written out, so that letting one go is one call in the proofs of callers.
impl Drop for Store {
    fn drop(self) {
        let Store {
            alloc: _alloc,
            pools: _pools,
            rows: _rows,
            retired: _retired,
            waiting: _waiting,
            filled: _filled,
        } = self;
    }
}

impl Model for Store {
    ghost use Rattle.hx_versions.specs.Rows.{StoreView};

    ghost Value = { StoreView };

    ghost use Rattle.hx_versions.specs.Store.{seen_rows, IsStore};

    ghost view = { λ store. record {
      rows = seen_rows store.pools store.rows.items;
      waiting = store.waiting;
    } };

    ghost invariant = { λ store. IsStore store.pools store.rows.items store.retired store.waiting
        store.filled (seen_rows store.pools store.rows.items) };
}

impl Store {
    /// A store without rows. It takes no memory; what is added later takes it from `alloc`.
    pub fn new(alloc: Global) -> Store
        ensures { result ≡ record { rows = []; waiting = 0 } }
    {
        Store {
            alloc,
            pools: Pools {
                entries: Pool::new(alloc),
                versions: Pool::new(alloc),
                nodes: Pool::new(alloc),
            },
            rows: Vec::new(alloc),
            retired: Chain::new(),
            waiting: 0,
            filled: 0,
        }
    }

    /// One row more, without versions. `NoMemory` where memory runs out; nothing is changed then.
    pub fn push_row(&mut self) -> Result<(), NoMemory>
        ensures ok { OnOk result
            (self.new ≡ record self.old { rows = self.old.rows ++ [] ∷ [] }) }
        ensures err { OnErr result (self.new ≡ self.old) }
    {
        let versions = Chain::new();
        self.rows.push(Row { versions, count: 0 })?;
        Ok(())
    }

    /// How many slots of memory are in use, and how many of these wait to be given back.
    pub fn slots(&self) -> Slots
        ensures { result ≡ store_slots self.now }
    {
        let versions = self.pools.versions.live_count();
        let entries = self.pools.entries.live_count();
        let nodes = self.pools.nodes.live_count();
        Slots {
            used: versions as u64 + entries as u64 + nodes as u64,
            retired: self.waiting,
        }
    }

    /// How many entries all versions of the row `r` have.
    pub fn total_count<L: Ledger>(&self, r: u32, blank: Blank) -> u64
        requires row { r < length self.now.rows }
        requires name { blank.name ≡ L.name }
        requires parts { blank.parts ≡ L.parts }
        requires some { 0 < L.parts }
        ensures { result ≡ total_count (row_at self.now r) }
    {
        let mut steps = Steps::<L>::open(blank);
        let row = &self.rows[r as usize];
        count_entries(&self.pools, row, &mut steps)
    }

    /// How many entries the version `number` of the row `r` has, and the serial number of the last
    /// that was added; both are 0 for a version to which nothing was added.
    pub fn filling<L: Ledger>(&self, r: u32, number: u32, blank: Blank) -> (u32, u32)
        requires row { r < length self.now.rows }
        requires name { blank.name ≡ L.name }
        requires parts { blank.parts ≡ L.parts }
        requires some { 0 < L.parts }
        ensures count { (first last : ℕ) → AreNumbered first last (row_at self.now r)
            → result.0 ≡ length (version_numbered number (row_at self.now r)).entries }
        ensures serial { (first last : ℕ) → AreNumbered first last (row_at self.now r)
            → result.1 ≡ (version_numbered number (row_at self.now r)).serial }
    {
        let mut steps = Steps::<L>::open(blank);
        let row = &self.rows[r as usize];
        filling_of(&self.pools, row, number, &mut steps)
    }

    /// The entries of the version `number` of the row `r`, in their order.
    pub fn entries<L: Ledger>(&self, r: u32, number: u32, blank: Blank) -> Entries<'_>
        requires row { r < length self.now.rows }
        requires name { blank.name ≡ L.name }
        requires parts { blank.parts ≡ L.parts }
        requires some { 0 < L.parts }
        ensures { (first last : ℕ) → AreNumbered first last (row_at self.now r)
            → result ≡ (version_numbered number (row_at self.now r)).entries }
    {
        let mut steps = Steps::<L>::open(blank);
        let row = &self.rows[r as usize];
        entries_of(&self.pools, row, number, &mut steps)
    }

    /// Whether `choice` speaks of an entry of the version `number` of the row `r`.
    pub fn has_chosen<L: Ledger>(
        &self,
        r: u32,
        number: u32,
        choice: &Choice<'_>,
        blank: Blank,
    ) -> bool
        requires row { r < length self.now.rows }
        requires name { blank.name ≡ L.name }
        requires parts { blank.parts ≡ L.parts }
        requires some { 0 < L.parts }
        ensures { (first last : ℕ) → AreNumbered first last (row_at self.now r)
            → result ≡ list_any (is_chosen choice.now)
            (version_numbered number (row_at self.now r)).entries }
    {
        let mut steps = Steps::<L>::open(blank);
        let row = &self.rows[r as usize];
        has_chosen(&self.pools, row, number, choice, &mut steps)
    }

    /// The entry that is found for a sample in the first version of the row `r`, by the method `by`
    /// and the case `ci`; none where that version hasn't the number `number`. `NoMemory` comes by
    /// `Reg` alone, where memory runs out.
    ///
    /// The method and the case stand at the position `place` among those by which the versions of
    /// the row are searched.
    pub fn find<L: Ledger>(
        &self,
        r: u32,
        number: u32,
        place: usize,
        by: By,
        ci: bool,
        sample: &Sample<'_>,
        steps: &mut Steps<L>,
    ) -> Result<Option<Hit<'_>>, NoMemory>
        requires row { r < length self.now.rows }
        requires way { (ways : List (Method × Bool)) × AreSearchedBy ways (row_at self.now r)
            × (slice_get ways place ≡ Some (by, ci)) }
        ensures found { IfOk result (λ found. option_map entry_of found
            ≡ found_entry by ci (first_entries number (row_at self.now r)) (value_of sample.now)) }
        ensures free { by ≢ By.Reg → IsOk result }
        ensures cost { steps.new ≤ steps.old + search_steps by ci
            (first_entries number (row_at self.now r)) (value_of sample.now) }
    {
        let row = &self.rows[r as usize];
        find_in(
            self.alloc,
            &self.pools,
            row,
            number,
            place,
            by,
            ci,
            sample,
            steps,
        )
    }

    /// Appends entries to the version `number` of the row `r`, which is put in where the row hasn't
    /// it. `NoMemory` where memory runs out; nothing is changed then.
    ///
    /// The keys were prepared for each of the `uses`, by which the other versions of the row are
    /// searched. The version has fewer than 2^32 entries with these.
    pub fn append<L: Ledger>(
        &mut self,
        r: u32,
        number: u32,
        uses: &[KeptUse],
        added: NewEntries,
        blank: Blank,
    ) -> Result<(), NoMemory>
        requires row { r < length self.old.rows }
        requires ready { AreReadyFor (use_ways uses.now) added.entries.items }
        requires searched { AreSearchedBy (use_ways uses.now) (row_at self.old r) }
        requires numbered { (first : ℕ) × (last : ℕ)
            × AreNumbered first last (row_at self.old r) }
        requires few { (first last : ℕ) → AreNumbered first last (row_at self.old r)
            → length (version_numbered number (row_at self.old r)).entries
            + length added.entries.items < 2 ^ 32 }
        requires name { blank.name ≡ L.name }
        requires parts { blank.parts ≡ L.parts }
        requires some { 0 < L.parts }
        ensures ok { OnOk result (Changes number
            (with_last_entries (added_entries added.entries.items) added.serial)
            (row_at self.old r) (row_at self.new r)) }
        ensures searched { AreSearchedBy (use_ways uses.now) (row_at self.new r) }
        ensures counted { (first last : ℕ) → AreNumbered first last (row_at self.old r)
            → AreCounted (row_at self.old r) → 0 < added.serial
            → length (version_numbered number (row_at self.old r)).entries
            + length added.entries.items ≤ added.serial
            → AreCounted (row_at self.new r) }
        ensures others { self.new.rows ≡ slice_set self.old.rows r (row_at self.new r) }
        ensures waiting { self.new.waiting ≡ self.old.waiting }
        ensures err { OnErr result (self.new ≡ self.old) }
    {
        let mut steps = Steps::<L>::open(blank);
        let NewEntries { entries, serial } = added;
        reserve(&mut self.pools, self.filled, entries.len(), uses.len())?;
        let slot = version_for(
            self.alloc,
            &mut self.pools,
            &mut self.rows,
            r,
            number,
            uses,
            &mut steps,
        )?;
        let filled = append_in(
            self.alloc,
            &mut self.pools,
            slot,
            entries,
            serial,
            &mut steps,
        );
        self.filled = more(self.filled, filled);
        Ok(())
    }

    /// Removes the entries that `choice` speaks of from the version `number` of the row `r`, and
    /// gives their slots back. It takes no memory.
    pub fn delete<L: Ledger>(&mut self, r: u32, number: u32, choice: &Choice<'_>, blank: Blank)
        requires row { r < length self.old.rows }
        requires name { blank.name ≡ L.name }
        requires parts { blank.parts ≡ L.parts }
        requires some { 0 < L.parts }
        ensures changes { Changes number (changed_entries (without_chosen (is_chosen choice.now)))
            (row_at self.old r) (row_at self.new r) }
        ensures searched { (ways : List (Method × Bool)) → AreSearchedBy ways (row_at self.old r)
            → AreSearchedBy ways (row_at self.new r) }
        ensures counted { AreCounted (row_at self.old r) → AreCounted (row_at self.new r) }
        ensures others { self.new.rows ≡ slice_set self.old.rows r (row_at self.new r) }
        ensures waiting { self.new.waiting ≡ self.old.waiting }
    {
        let mut steps = Steps::<L>::open(blank);
        let row = &self.rows[r as usize];
        let Some(slot) = slot_of(&self.pools, row, number, &mut steps) else {
            return;
        };
        let emptied = delete_in(self.alloc, &mut self.pools, slot, choice, &mut steps);
        self.filled = fewer(self.filled, emptied);
    }

    /// Changes the value of the entries that `choice` speaks of in the version `number` of the row
    /// `r`, to copies of `value`, of all or of none. `NoMemory` where memory runs out; nothing is
    /// changed then.
    pub fn set<L: Ledger>(
        &mut self,
        r: u32,
        number: u32,
        choice: &Choice<'_>,
        value: &[u8],
        blank: Blank,
    ) -> Result<(), NoMemory>
        requires row { r < length self.old.rows }
        requires name { blank.name ≡ L.name }
        requires parts { blank.parts ≡ L.parts }
        requires some { 0 < L.parts }
        ensures ok { OnOk result (Changes number
            (changed_entries (map (with_value (is_chosen choice.now) value.now)))
            (row_at self.old r) (row_at self.new r)) }
        ensures searched { (ways : List (Method × Bool)) → AreSearchedBy ways (row_at self.old r)
            → AreSearchedBy ways (row_at self.new r) }
        ensures counted { AreCounted (row_at self.old r) → AreCounted (row_at self.new r) }
        ensures others { self.new.rows ≡ slice_set self.old.rows r (row_at self.new r) }
        ensures waiting { self.new.waiting ≡ self.old.waiting }
        ensures err { OnErr result (self.new ≡ self.old) }
    {
        let mut steps = Steps::<L>::open(blank);
        let row = &self.rows[r as usize];
        let Some(slot) = slot_of(&self.pools, row, number, &mut steps) else {
            return Ok(());
        };
        set_in(self.alloc, &mut self.pools, slot, choice, value, &mut steps)
    }

    /// Removes the entries of the version `number` of the row `r`. Their slots wait from then on,
    /// and that of the version with them. It takes no memory.
    pub fn clear<L: Ledger>(&mut self, r: u32, number: u32, blank: Blank)
        requires row { r < length self.old.rows }
        requires name { blank.name ≡ L.name }
        requires parts { blank.parts ≡ L.parts }
        requires some { 0 < L.parts }
        ensures changes { Changes number (changed_entries (λ _. []))
            (row_at self.old r) (row_at self.new r) }
        ensures searched { (ways : List (Method × Bool)) → AreSearchedBy ways (row_at self.old r)
            → AreSearchedBy ways (row_at self.new r) }
        ensures counted { AreCounted (row_at self.old r) → AreCounted (row_at self.new r) }
        ensures others { self.new.rows ≡ slice_set self.old.rows r (row_at self.new r) }
        ensures waiting { (first last : ℕ) → AreNumbered first last (row_at self.old r)
            → self.new.waiting ≡ self.old.waiting + cleared_slots number (row_at self.old r) }
    {
        let mut steps = Steps::<L>::open(blank);
        let row = &self.rows[r as usize];
        let Some(slot) = slot_of(&self.pools, row, number, &mut steps) else {
            return;
        };
        let cleared = clear_in(
            self.alloc,
            &mut self.pools,
            &mut self.rows,
            r as usize,
            &mut self.retired,
            slot,
            &mut steps,
        );
        self.waiting += cleared;
        self.filled = fewer(self.filled, cleared > 0);
    }

    /// Drops the first version of a row, if its number is smaller, and answers whether it did. Its
    /// slots wait from then on. At most ten steps, or one where it drops none.
    fn drop_first<L: Ledger>(&mut self, r: u32, number: u32, steps: &mut Steps<L>) -> bool
        requires row { r < length self.old.rows }
        ensures dropped { result ≡ true → (version : ShownVersion)
            × (row_at self.old r ≡ version ∷ row_at self.new r) × (version.number < number) }
        ensures last { result ≡ false → (self.new ≡ self.old)
            × BeginsFrom number (row_at self.old r) }
        ensures others { self.new.rows ≡ slice_set self.old.rows r (row_at self.new r) }
        ensures used { (store_slots self.new).used ≡ (store_slots self.old).used }
        ensures cost { steps.new + 10 * length (row_at self.new r)
            ≤ steps.old + 10 * length (row_at self.old r) + 1 }
        ensures dropped_cost { result ≡ true → steps.new ≤ steps.old + 10 }
    {
        match drop_first(
            &mut self.pools,
            &mut self.rows,
            r as usize,
            &mut self.retired,
            number,
            steps,
        ) {
            Some(slots) => {
                self.waiting += slots;
                self.filled = fewer(self.filled, slots > 1);
                true
            }
            None => false,
        }
    }

    /// Drops the versions of the row `r` whose numbers are smaller than `number`. Their slots wait
    /// from then on. It takes no memory. At most ten steps for each that is dropped, and one more.
    pub fn drop_below<L: Ledger>(&mut self, r: u32, number: u32, steps: &mut Steps<L>)
        requires row { r < length self.old.rows }
        ensures dropped { IsDropped number (row_at self.old r) (row_at self.new r) }
        ensures others { self.new.rows ≡ slice_set self.old.rows r (row_at self.new r) }
        ensures used { (store_slots self.new).used ≡ (store_slots self.old).used }
        ensures cost { steps.new + 10 * length (row_at self.new r)
            ≤ steps.old + 10 * length (row_at self.old r) + 1 }
    {
        while self.drop_first(r, number, steps) {}
    }

    /// Lowers the numbers of all versions of the row `r` by `by`. It takes no memory.
    ///
    /// No version of the row has a smaller number.
    pub fn lower_numbers<L: Ledger>(&mut self, r: u32, by: u32, blank: Blank)
        requires row { r < length self.old.rows }
        requires above { All (λ (version : ShownVersion). by ≤ version.number) (row_at self.old r) }
        requires name { blank.name ≡ L.name }
        requires parts { blank.parts ≡ L.parts }
        requires some { 0 < L.parts }
        ensures lowered { row_at self.new r ≡ map (lowered by) (row_at self.old r) }
        ensures others { self.new.rows ≡ slice_set self.old.rows r (row_at self.new r) }
        ensures waiting { self.new.waiting ≡ self.old.waiting }
    {
        let mut steps = Steps::<L>::open(blank);
        let row = &self.rows[r as usize];
        lower_in(&mut self.pools, row, by, &mut steps);
    }

    /// Gives back `n` of the slots that wait, or all where fewer wait. It takes no memory.
    pub fn tidy<L: Ledger>(&mut self, n: usize, blank: Blank)
        requires name { blank.name ≡ L.name }
        requires parts { blank.parts ≡ L.parts }
        requires some { 0 < L.parts }
        ensures { self.new ≡ record self.old { waiting = self.old.waiting - n } }
    {
        let mut steps = Steps::<L>::open(blank);
        let given = tidy(
            self.alloc,
            &mut self.pools,
            &mut self.retired,
            n,
            &mut steps,
        );
        self.waiting -= given as u64;
    }
}
