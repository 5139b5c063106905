ghost use Rattle.std.specs.Prelude.{◌≡◌, ◌≢◌, ◌<◌, IfOk, IfSome, IsOk, OnOk, OnErr, length, option_map, slice_get};
ghost use Rattle.hx_text.specs.declared.kinds.By.TheVariants as By;
ghost use Rattle.hx_sample.specs.Changes.{change_of, ChangeAsksFor, ChangeCountsLarge, ChangesList};
ghost use Rattle.hx_sample.specs.Seen.{value_of};
ghost use Rattle.hx_sample.specs.Tables.{TakesValue, empty_heads, empty_lists, entry_of, found_at};

use crate::sample::Sample;
use hx_outside::ReMaker;
use hx_pool::Steps;
use hx_text::NoMemory;
use std::alloc::Global;
use std::sync::ledger::Ledger;
use thiserror::Error;

/// An entry that was found, lent from the tables: its number, its key, and the value under the key,
/// which is empty in a list of keys alone.
#[derive(Clone, Copy)]
pub struct Hit<'a> {
    pub number: u64,
    pub key: &'a [u8],
    pub value: &'a [u8],
}

/// A change of a list, as a rule asks for it (HAProxy configuration manual 2.4, section 4.2,
/// `http-request add-acl` and the actions like it).
#[derive(Clone, Copy)]
pub enum Change<'a> {
    /// the key is appended, where no entry has it
    Add { key: &'a [u8] },
    /// the entries with the key are removed
    Del { key: &'a [u8] },
    /// the entries with the key get the value; where there is none, one is appended
    SetMap { key: &'a [u8], value: &'a [u8] },
    /// the entries of a map with the key are removed
    DelMap { key: &'a [u8] },
}

/// Why a change came to no end.
#[derive(Clone, Copy, Debug, PartialEq, Eq, Error)]
pub enum TableFault {
    /// A key is a regular expression that is too large. The count of the maker that was lent rose.
    #[error("the regular expression is too large")]
    TooLarge,
    /// Memory ran out, which says nothing of the arguments.
    #[error("out of memory")]
    NoMemory,
}

impl From<NoMemory> for TableFault {
    ghost use Rattle.std.specs.Prelude.{◌≡◌};
    ghost use Rattle.hx_sample.specs.declared.tables.TableFault.TheVariants as fault;

    ghost from_gives = { λ _ given. given ≡ fault.NoMemory };

    fn from(_: NoMemory) -> TableFault {
        TableFault::NoMemory
    }
}

/// Lists of patterns and maps, in which values are looked up. Each head is a way to search one of
/// the lists: by a match method, and ignoring case or not (HAProxy configuration manual 2.4,
/// section 7.1). Contracts see the heads as a list, and the entries of each list, both by the state
/// of the object.
pub trait Tables {
    ghost use Rattle.std.specs.Prelude.{ℕ, List};
    ghost use Rattle.hx_sample.specs.Changes.{ListChange};
    ghost use Rattle.hx_sample.specs.Find.{Entry};
    ghost use Rattle.hx_sample.specs.Tables.{TableHead};

    /// what is known of the object as tables, which may be less than callers see of it
    ghost State: { Type 0 };

    ghost state: { Self → State };

    ghost heads: { State → List TableHead };

    ghost lists: { State → List (List Entry) };

    /// what a change of the list at a position makes of them
    ghost after_change: { State → ℕ → ListChange → State };

    /// The entry that the value of `sample` finds in the list of the head `head`, counted from 0:
    /// the first whose key hits the value. By `beg` with case it is the first of the longest that
    /// hit. By `ip` a prefix of the family of the address goes before one of the other family, and
    /// this before a mask; of prefixes the longest goes first, and then the first. None exactly
    /// where no key hits. Steps of the search are counted in `steps`. It fails only where memory
    /// runs out, of which a search by regular expressions takes some, and no other.
    ///
    /// The head is one of the object's heads, and the sample has the type that its method takes.
    fn find<L: Ledger>(
        &self,
        alloc: Global,
        head: u32,
        sample: &Sample<'_>,
        steps: &mut Steps<L>,
    ) -> Result<Option<Hit<'_>>, NoMemory>
        requires head { head < length (heads (state self.now)) }
        requires kind { TakesValue (heads (state self.now)) head (value_of sample.now) }
        ensures found { IfOk result (λ hit. option_map entry_of hit
            ≡ found_at (heads (state self.now)) (lists (state self.now)) head
            (value_of sample.now)) }
        ensures free { IfSome (slice_get (heads (state self.now)) head)
            (λ h. h.by ≢ By.Reg → IsOk result) };

    /// Changes the list at the position `table`. `Add` appends an entry with the key and without a
    /// value where no entry has the key. `Del` and `DelMap` remove all entries with the key.
    /// `SetMap` gives the value to all entries with the key, whose places and numbers stay; where
    /// there is none, it appends one. A change with an empty key, or with CR, LF or NUL in the key
    /// or the value, changes nothing and is no fault, and so it is where the object takes no such
    /// entry or value. Other lists stay, and all heads do.
    ///
    /// `TooLarge` only where the maker's count of texts that were too large rose; the last such
    /// text is then a key that is appended, which a head by `reg` of this list reads. `NoMemory`
    /// where memory runs out. With both nothing is changed.
    ///
    /// There are more than `table` lists. HAProxy configuration manual 2.4, section 4.2,
    /// `http-request add-acl`, `del-acl`, `del-map`, `set-map`.
    fn change<M: ReMaker>(
        &mut self,
        table: u32,
        change: Change<'_>,
        maker: &mut M,
    ) -> Result<(), TableFault>
        requires table { table < length (lists (state self.old)) }
        ensures ok { OnOk result
            (state self.new ≡ after_change (state self.old) table (change_of change.entry)) }
        ensures kept { OnErr result (self.new ≡ self.old) }
        ensures heads { heads (state self.new) ≡ heads (state self.old) }
        ensures lists { OnOk result (ChangesList table (change_of change.entry)
            (lists (state self.old)) (lists (state self.new))) }
        ensures large { ChangeCountsLarge result (ChangeAsksFor (heads (state self.old))
            (lists (state self.old)) table (change_of change.entry))
            (M.state maker.old) (M.state maker.new) };
}

/// Tables in which nothing is found, for expressions that look nothing up: one head, by `str` with
/// case, whose list has no entries and takes none.
#[derive(Clone, Copy, Drop)]
pub struct EmptyTables;

impl Tables for EmptyTables {
    ghost State = { Unit {0} };

    ghost state = { λ tables. tt };

    ghost heads = { λ state. empty_heads };

    ghost lists = { λ state. empty_lists };

    ghost after_change = { λ state table asked. state };

    #[tactic(auto, using(crate::proofs::FindLemmas::nothing_found))]
    fn find<L: Ledger>(
        &self,
        _alloc: Global,
        _head: u32,
        _sample: &Sample<'_>,
        _steps: &mut Steps<L>,
    ) -> Result<Option<Hit<'_>>, NoMemory> {
        Ok(None)
    }

    fn change<M: ReMaker>(
        &mut self,
        _table: u32,
        _change: Change<'_>,
        _maker: &mut M,
    ) -> Result<(), TableFault> {
        Ok(())
    }
}
