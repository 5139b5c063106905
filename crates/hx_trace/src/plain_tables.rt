ghost use Rattle.std.specs.Prelude.{◌≡◌, ◌≢◌, ◌<◌, length, slice_get, Some, IfOk, IfSome, IsOk, OnErr, OnOk, option_map};
ghost use Rattle.hx_sample.specs.Changes.{change_of, ChangeAsksFor, ChangeCountsLarge, ChangesList};
ghost use Rattle.hx_sample.specs.Seen.{value_of};
ghost use Rattle.hx_sample.specs.Tables.{entry_of, found_at, TakesValue};
ghost use Rattle.hx_refs.specs.References.{searched_lists};
ghost use Rattle.hx_refs.specs.TableChanges.{after_table_change};

use crate::scanning::scan;
use hx_outside::ReMaker;
use hx_pool::Steps;
use hx_refs::Refs;
use hx_sample::{Change, Hit, Sample, TableFault, Tables};
use hx_text::{By, NoMemory};
use std::alloc::Global;
use std::cell::Cell;
use std::marker::{Brand, Model};
use std::mem;
use std::sync::ledger::{Blank, Ledger};

/// How many uses a reference has at most: one for each method that takes patterns, with case and
/// without.
const USES: u32 = 22;

/// How a head searches: the match method, whether case is ignored, and the list.
#[derive(Clone, Copy)]
struct Way {
    by: By,
    ci: bool,
    list: u32,
}

/// How the head `head` searches, as the uses of its reference tell it.
fn way_of(refs: &Refs, head: u32) -> Option<Way>
    ensures head { IfSome result (λ way. slice_get refs.now.content.heads head
        ≡ Some (record { by = way.by; ci = way.ci; list = way.list })) }
    ensures list { IfSome result (λ way. way.list < length refs.now.content.references) }
{
    let list = refs.reference_of(head)?;
    if list >= refs.len() {
        return None;
    }
    for k in 0..USES {
        let (by, ci, number) = refs.use_at(list, k)?;
        if number == head {
            return Some(Way { by, ci, list });
        }
    }
    None
}

/// A mark that no search has asked an index yet.
pub(crate) fn new_mark(alloc: Global) -> Result<Box<Cell<bool>>, NoMemory> {
    let mark = Box::new(alloc, Cell::new(false))?;
    Ok(mark)
}

/// The lists of references as tables in which each search looks at all entries of its list, one by
/// one, and asks no index. Contracts see the references.
///
/// A search by regular expressions, for which there is no index, is that of the references. Any
/// other counts no step in the ledger that it is lent (`unless_reg`). Where memory runs out while
/// it looks at the entries it mustn't fail: the references are asked then, in steps of their own,
/// and that is noted. That it asks them nowhere else can be seen by reading it. What stands in the
/// references once the tables are gone no clause says.
#[derive(Drop)]
pub struct PlainTables<'a> {
    refs: &'a mut Refs,
    // A search has just `&self`, and a cell can't be moved: it stands in a block of its own.
    has_asked: Box<Cell<bool>>,
}

impl<'a> Model for PlainTables<'a> {
    ghost use Rattle.hx_refs.specs.References.{References};

    ghost Value = { References };

    ghost view = { λ tables. tables.refs.now.content };
}

impl<'a> PlainTables<'a> {
    /// The lists of the references as tables. `NoMemory` where memory runs out.
    pub fn new(alloc: Global, refs: &'a mut Refs) -> Result<PlainTables<'a>, NoMemory>
        ensures { IfOk result (λ tables. tables ≡ refs.old.content) }
    {
        let mark = new_mark(alloc)?;
        Ok(PlainTables::over(refs, mark))
    }

    /// The same, with a new mark.
    pub(crate) fn over(refs: &'a mut Refs, mark: Box<Cell<bool>>) -> PlainTables<'a>
        ensures { result ≡ refs.old.content }
    {
        PlainTables {
            refs,
            has_asked: mark,
        }
    }

    /// Whether a search asked an index, since memory ran out while it looked at the entries.
    pub(crate) fn has_asked(&self) -> bool {
        self.has_asked.get()
    }

    /// Gives the references back to their place.
    pub(crate) fn give_back(self, place: &mut Refs)
        ensures { place.new.content ≡ self.entry }
    {
        let PlainTables { refs, .. } = self;
        mem::swap(place, refs);
    }
}

impl<'a> PlainTables<'a> {
    /// What the references find, which is what a scan finds, with the steps of the search in the
    /// ledger of `blank`. That this was asked is noted, so that whoever wants nothing of an index
    /// can tell.
    fn ask<L: Ledger>(
        &self,
        alloc: Global,
        head: u32,
        sample: &Sample<'_>,
        blank: Blank,
    ) -> Result<Option<Hit<'_>>, NoMemory>
        requires name { blank.name ≡ L.name }
        requires parts { blank.parts ≡ L.parts }
        requires some { 0 < L.parts }
        requires head { head < length self.now.heads }
        requires kind { TakesValue self.now.heads head (value_of sample.now) }
        ensures found { IfOk result (λ hit. option_map entry_of hit
            ≡ found_at self.now.heads (searched_lists self.now) head (value_of sample.now)) }
        ensures free { IfSome (slice_get self.now.heads head) (λ h. h.by ≢ By.Reg → IsOk result) }
    {
        self.has_asked.set(true);
        let mut steps = Steps::<L>::open(blank);
        self.refs.find(alloc, head, sample, &mut steps)
    }
}

impl<'a> Tables for PlainTables<'a> {
    ghost use Rattle.hx_refs.specs.References.{References, searched_lists};
    ghost use Rattle.hx_refs.specs.TableChanges.{after_table_change};

    ghost State = { References };

    ghost state = { λ tables. tables };

    ghost heads = { λ refs. refs.heads };

    ghost lists = { searched_lists };

    ghost after_change = { after_table_change };

    fn find<L: Ledger>(
        &self,
        alloc: Global,
        head: u32,
        sample: &Sample<'_>,
        steps: &mut Steps<L>,
    ) -> Result<Option<Hit<'_>>, NoMemory>
        requires head { head < length self.now.heads }
        requires kind { TakesValue self.now.heads head (value_of sample.now) }
        ensures found { IfOk result (λ hit. option_map entry_of hit
            ≡ found_at self.now.heads (searched_lists self.now) head (value_of sample.now)) }
        ensures free { IfSome (slice_get self.now.heads head) (λ h. h.by ≢ By.Reg → IsOk result) }
        ensures unless_reg { IfSome (slice_get self.now.heads head) (λ h. h.by ≢ By.Reg
            → steps.new ≡ steps.old) }
    {
        let Some(way) = way_of(self.refs, head) else {
            return self.ask::<Brand>(alloc, head, sample, Blank::new(1));
        };
        if way.by == By::Reg {
            return self.refs.find(alloc, head, sample, steps);
        }
        let entries = self.refs.entries(way.list, None);
        // Only a search by `Reg` may fail, and to read a key takes memory. So where there is none,
        // the references are asked.
        match scan(alloc, way.by, way.ci, entries, sample) {
            Ok(hit) => Ok(hit),
            Err(NoMemory) => self.ask::<Brand>(alloc, head, sample, Blank::new(1)),
        }
    }

    fn change<M: ReMaker>(
        &mut self,
        table: u32,
        change: Change<'_>,
        maker: &mut M,
    ) -> Result<(), TableFault>
        requires table { table < length (searched_lists self.old) }
        ensures ok { OnOk result
            (self.new ≡ after_table_change self.old table (change_of change.entry)) }
        ensures kept { OnErr result (self.new ≡ self.old) }
        ensures heads { self.new.heads ≡ self.old.heads }
        ensures lists { OnOk result (ChangesList table (change_of change.entry)
            (searched_lists self.old) (searched_lists self.new)) }
        ensures large { ChangeCountsLarge result (ChangeAsksFor self.old.heads
            (searched_lists self.old) table (change_of change.entry))
            (M.state maker.old) (M.state maker.new) }
    {
        self.refs.change(table, change, maker)
    }
}
