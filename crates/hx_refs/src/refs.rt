ghost use Rattle.std.specs.Prelude.{◌≡◌, ◌≢◌, ◌+◌, ◌^◌, ◌<◌, ◌≤◌, [], ◌∷◌, All, length, slice_get, None, Some, IfOk, IfErr, IfSome, IsOk, OnOk, OnErr, option_map};
ghost use Rattle.std.specs.Option.{option_copied};
ghost use Rattle.hx_refs.specs.Additions.{addition_fault, after_addition, AdditionAsksFor, AdditionCountsLarge, MayRefuse};
ghost use Rattle.hx_refs.specs.Changes.{after_clearing, after_commit, after_preparation, answer, commit_fault, fault_at, preparation_fault, prepared_version};
ghost use Rattle.hx_sample.specs.Changes.{has_key};
ghost use Rattle.hx_sample.specs.Seen.{value_of};
ghost use Rattle.hx_sample.specs.Tables.{entry_of, found_at, TakesValue};
ghost use Rattle.hx_refs.specs.Costs.{commit_steps, find_steps};
ghost use Rattle.hx_refs.specs.Naming.{resolution};
ghost use Rattle.hx_refs.specs.Numbers.{HasVersionsInOrder, HaveOwnNames, NumbersRise};
ghost use Rattle.hx_refs.specs.References.{after_output, after_tidying, entries_in, file_of, has_version, info_of, no_references, no_slots, references_from, searched_lists, with_new, HasHadNone};
ghost use Rattle.hx_refs.specs.SlotCounts.{least_slots, most_slots, slots_in_all};
ghost use Rattle.hx_refs.specs.TableChanges.{is_key_of};
ghost use Rattle.hx_refs.specs.Uses.{after_use, head_for, use_parts, uses_in_order, uses_of, KeepsToCase};

use crate::fault::RefFault;
use crate::heads::KeptHead;
use crate::info::RefInfo;
use crate::kept_references::KeptReferences;
use crate::limits::Limits;
use crate::pairs::{KeptPair, Pairs};
use crate::side::Side;
use crate::table_changes::is_fit;
use hx_outside::ReMaker;
use hx_pool::Steps;
use hx_sample::{Change, Hit, Sample, TableFault, Tables};
use hx_text::{By, NoMemory, Out};
use hx_versions::{Choice, Entries, Slots};
use std::alloc::Global;
use std::marker::Model;
use std::sync::ledger::Ledger;

/// The references of a configuration, by their positions. Contracts see their content, which is the
/// limits, the heads in the order of their numbers, the references in their order, and the number
/// of the version with which a reference begins; and how many slots of memory they use.
pub struct Refs {
    alloc: Global,
    limits: Limits,
    first: u32,
    heads: Vec<KeptHead>,
    pub(crate) kept: KeptReferences,
}

// Written out, so that letting one go is one call in the proofs of callers.
impl Drop for Refs {
    fn drop(self) {
        let Refs {
            alloc: _alloc,
            limits: _limits,
            first: _first,
            heads: _heads,
            kept: _kept,
        } = self;
    }
}

impl Model for Refs {
    ghost use Rattle.hx_refs.specs.References.{RefsState};

    ghost Value = { RefsState };

    ghost use Rattle.hx_refs.specs.Kept.{shown_references, table_heads, AreSearchable};

    ghost view = { λ refs. record {
      content = record {
        limits = refs.limits;
        first = refs.first;
        heads = table_heads refs.heads.items;
        references = shown_references refs.kept.kept;
      };
      slots = refs.kept.slots;
    } };

    ghost invariant = { λ refs. AreSearchable refs.heads.items refs.kept.kept };
}

impl Refs {
    /// No references. It takes no memory; those that are added later take it from `alloc`, and
    /// begin with version 0.
    pub fn new(alloc: Global, limits: Limits) -> Refs
        ensures { result ≡ record { content = no_references limits; slots = no_slots } }
    {
        Refs::start(alloc, limits, 0)
    }

    /// The same, where references that are added begin with version `first`.
    pub fn start(alloc: Global, limits: Limits, first: u32) -> Refs
        ensures { result
            ≡ record { content = references_from limits first; slots = no_slots } }
    {
        Refs {
            alloc,
            limits,
            first,
            heads: Vec::new(alloc),
            kept: KeptReferences::new(alloc),
        }
    }

    /// How many references there are.
    pub fn len(&self) -> u32
        ensures { result ≡ length self.now.content.references }
    {
        self.kept.len() as u32
    }

    /// Appends a reference without uses, outputs and entries, and answers its position, which is
    /// the number of references before the call. `id` is its number, `file` its file, if it has
    /// one; `two_column` says whether its entries have values, and `acl` whether an ACL uses it. It
    /// begins with the version of which [`Refs::start`] was given the number.
    /// `NoMemory` where memory runs out; nothing is changed then.
    ///
    /// No reference has the number or the file, and there are fewer than 65,536.
    pub fn add_ref(
        &mut self,
        id: u32,
        file: Option<&[u8]>,
        two_column: bool,
        acl: bool,
    ) -> Result<u32, NoMemory>
        requires id { All (λ reference. reference.id ≢ id) self.old.content.references }
        requires file { IfSome (option_copied file)
            (λ name. All (λ reference. reference.file ≢ Some name) self.old.content.references) }
        requires few { length self.old.content.references < 65536 }
        ensures position { IfOk result (λ position. position ≡ length self.old.content.references) }
        ensures ok { OnOk result
            (self.new.content ≡ with_new self.old.content id (option_copied file.entry) two_column
            acl) }
        ensures err { OnErr result (self.new ≡ self.old) }
    {
        let position = self.len();
        self.kept
            .push(self.alloc, self.first, id, file, two_column, acl)?;
        Ok(position)
    }

    /// What is told of the reference at the position `r`.
    ///
    /// There are more than `r` references.
    pub fn info(&self, r: u32) -> RefInfo
        requires { r < length self.now.content.references }
        ensures { Some result ≡ option_map info_of (slice_get self.now.content.references r) }
    {
        self.kept.info(r)
    }

    /// The file of the reference at the position `r`. None exactly where it has none.
    ///
    /// There are more than `r` references.
    pub fn file(&self, r: u32) -> Option<&[u8]>
        requires { r < length self.now.content.references }
        ensures { option_copied result ≡ file_of self.now.content r }
    {
        self.kept.file(r)
    }

    /// From now on, values that are added to the reference at the position `r` have to be readable
    /// as `out`. `NoMemory` where memory runs out; nothing is changed then.
    ///
    /// There are more than `r` references, and nothing was added to this one.
    pub fn add_out(&mut self, r: u32, out: Out) -> Result<(), NoMemory>
        requires r { r < length self.old.content.references }
        requires none { HasHadNone self.old.content r }
        ensures ok { OnOk result (self.new.content ≡ after_output self.old.content r out) }
        ensures err { OnErr result (self.new ≡ self.old) }
    {
        self.kept.add_out(r, out);
        Ok(())
    }

    /// The head of the use of the reference at the position `r` by the method `by`, where `ci` says
    /// whether case is ignored: that which the use has, or else a new one, the number of heads
    /// before the call. `NoMemory` where memory runs out; nothing is changed then.
    ///
    /// There are more than `r` references, and nothing was added to this one. The method has
    /// patterns, so it is neither `Found` nor `Bool`, and `ci` is false for `Int`, `Ip`, `Bin` and
    /// `Len`.
    pub fn add_use(&mut self, r: u32, by: By, ci: bool) -> Result<u32, NoMemory>
        requires r { r < length self.old.content.references }
        requires none { HasHadNone self.old.content r }
        requires found { by ≢ By.Found }
        requires bool { by ≢ By.Bool }
        requires case { KeepsToCase by ci }
        ensures head { IfOk result (λ head. head ≡ head_for self.old.content r by ci) }
        ensures ok { OnOk result (self.new.content ≡ after_use self.old.content r by ci) }
        ensures err { OnErr result (self.new ≡ self.old) }
    {
        if let Some(head) = self.kept.head_with(r, by, ci) {
            return Ok(head);
        }
        // A reference has at most 22 uses, so the number fits.
        let Ok(head) = u32::try_from(self.heads.len()) else {
            return Err(NoMemory);
        };
        self.heads.reserve(1)?;
        let known = KeptHead {
            by,
            ci,
            list: r,
            place: self.kept.use_count(r),
        };
        self.kept.push_use(r, by, ci, head)?;
        let Ok(()) = self.heads.push(known) else {
            unreachable!()
        };
        Ok(head)
    }

    /// The use at the place `k` among those of the reference at the position `r`, with its head.
    /// They come in the order `Int`, `Ip`, `Bin`, `Len`, `Str`, `Beg`, `End`, `Sub`, `Dir`, `Dom`,
    /// `Reg`, and of one method that which minds case comes first. None exactly where there are no
    /// more than `k`.
    ///
    /// There are more than `r` references.
    pub fn use_at(&self, r: u32, k: u32) -> Option<(By, bool, u32)>
        requires { r < length self.now.content.references }
        ensures { result ≡ option_map use_parts
            (slice_get (uses_in_order (uses_of self.now.content.heads r)) k) }
    {
        self.kept.use_at(r, k)
    }

    /// The position of the reference that the head `head` searches, counted from 0. None exactly
    /// where there are no more than `head` heads.
    pub fn reference_of(&self, head: u32) -> Option<u32>
        ensures { result
            ≡ option_map (λ known. known.list) (slice_get self.now.content.heads head) }
    {
        let known = self.heads.get(head as usize)?;
        Some(known.list)
    }

    /// The entries of a version of the reference at the position `r`, in their order: of the
    /// version `ver`, or without one of that which is searched. None where the reference has no
    /// such version.
    ///
    /// There are more than `r` references.
    pub fn entries(&self, r: u32, ver: Option<u32>) -> Entries<'_>
        requires { r < length self.now.content.references }
        ensures { result ≡ entries_in self.now.content r ver }
    {
        self.kept.entries(r, ver)
    }

    /// Whether the reference at the position `r` has the version `ver`. Without one it is that
    /// which is searched, and is there.
    ///
    /// There are more than `r` references.
    pub fn has_version(&self, r: u32, ver: Option<u32>) -> bool
        requires { r < length self.now.content.references }
        ensures { result ≡ has_version self.now.content r ver }
    {
        self.kept.has_version(r, ver)
    }

    /// Whether an entry of the reference at the position `r` has the key, in the version that is
    /// searched.
    pub(crate) fn has_key(&self, r: u32, key: &[u8]) -> bool
        requires { r < length self.now.content.references }
        ensures { result ≡ is_key_of self.now.content r key.now }
    {
        self.kept.has_chosen(r, None, &Choice::Key(key))
    }

    /// Appends an entry with copies of the key and of the value to a version of the reference at
    /// the position `r`: to the version `ver`, or without one to that which is searched. What is
    /// refused, and what stands then, is as for [`Refs::add_many`] with this pair alone.
    ///
    /// There are more than `r` references.
    pub fn add<M: ReMaker>(
        &mut self,
        r: u32,
        ver: Option<u32>,
        key: &[u8],
        value: &[u8],
        maker: &mut M,
    ) -> Result<(), RefFault>
        requires { r < length self.old.content.references }
        ensures ok { OnOk result (self.new.content ≡ after_addition self.old.content r ver
            (record { key = key.now; value = value.now } ∷ [])) }
        ensures none { OnOk result (addition_fault self.old.content r ver
            (record { key = key.now; value = value.now } ∷ []) ≡ None) }
        ensures refused { IfErr result (MayRefuse (addition_fault self.old.content r ver
            (record { key = key.now; value = value.now } ∷ []))) }
        ensures kept { OnErr result (self.new ≡ self.old) }
        ensures large { AdditionCountsLarge result (AdditionAsksFor self.old.content r ver
            (record { key = key.now; value = value.now } ∷ []))
            (M.state maker.old) (M.state maker.new) }
    {
        let pair = KeptPair::copy(self.alloc, key, value)?;
        let pairs = [pair];
        self.add_pairs(r, ver, &pairs, maker)
    }

    /// Appends copies of the pairs, in their order, as the last entries of a version of the
    /// reference at the position `r`: of the version `ver`, or without one of that which is
    /// searched. They are all appended, or none is and the references are as before. Time is linear
    /// in the pairs, whatever entries are there already; but the first addition to a version also
    /// moves those above it that had additions.
    ///
    /// `BadVersion` exactly where the reference has no such version. Then of the first pair that is
    /// refused: `BadPattern` exactly where one of the uses can't read the key as a pattern,
    /// `BadValue` exactly where an output can't read the value, `VersionFull` exactly where the
    /// version has as many entries as it may have, and `VersionWorn` exactly where it has had as
    /// many additions as it may have. `TooLarge` only where the maker's count of texts that were
    /// too large rose; the last such text is then a key that a use by `Reg` reads. `NoMemory` where
    /// memory runs out.
    ///
    /// There are more than `r` references. HAProxy management guide 2.4, section 9.3, `add acl`,
    /// `add map`.
    pub fn add_many<M: ReMaker>(
        &mut self,
        r: u32,
        ver: Option<u32>,
        pairs: &Pairs,
        maker: &mut M,
    ) -> Result<(), RefFault>
        requires { r < length self.old.content.references }
        ensures ok { OnOk result (self.new.content ≡ after_addition self.old.content r ver
            pairs.now) }
        ensures none { OnOk result (addition_fault self.old.content r ver pairs.now ≡ None) }
        ensures refused { IfErr result
            (MayRefuse (addition_fault self.old.content r ver pairs.now)) }
        ensures kept { OnErr result (self.new ≡ self.old) }
        ensures large { AdditionCountsLarge result
            (AdditionAsksFor self.old.content r ver pairs.now)
            (M.state maker.old) (M.state maker.new) }
    {
        self.add_pairs(r, ver, pairs.as_slice(), maker)
    }

    fn add_pairs<M: ReMaker>(
        &mut self,
        r: u32,
        ver: Option<u32>,
        pairs: &[KeptPair],
        maker: &mut M,
    ) -> Result<(), RefFault>
        requires { r < length self.old.content.references }
        ensures ok { OnOk result (self.new.content ≡ after_addition self.old.content r ver
            pairs.now) }
        ensures none { OnOk result (addition_fault self.old.content r ver pairs.now ≡ None) }
        ensures refused { IfErr result
            (MayRefuse (addition_fault self.old.content r ver pairs.now)) }
        ensures kept { OnErr result (self.new ≡ self.old) }
        ensures large { AdditionCountsLarge result
            (AdditionAsksFor self.old.content r ver pairs.now)
            (M.state maker.old) (M.state maker.new) }
    {
        self.kept.add(self.alloc, self.limits, r, ver, pairs, maker)
    }

    /// Removes the entries of a version of the reference at the position `r`: of the version `ver`,
    /// or without one of that which is searched. The serial number of the last entry stays, so that
    /// entries that are added later get numbers of their own. A version that the reference hasn't
    /// changes nothing. It takes no memory.
    ///
    /// There are more than `r` references. HAProxy management guide 2.4, section 9.3, `clear acl`,
    /// `clear map`.
    pub fn clear(&mut self, r: u32, ver: Option<u32>)
        requires { r < length self.old.content.references }
        ensures { self.new.content ≡ after_clearing self.old.content r ver }
    {
        self.kept.clear(r, ver);
    }

    /// Prepares one version more of the reference at the position `r`, without entries, and answers
    /// its number: one more than that of the last that was prepared, and 0 after 2^32 - 1. It isn't
    /// searched before it is committed. `NoMoreVersions` exactly where as many versions as the
    /// limits allow were prepared after that which is searched; nothing is changed then. It takes
    /// no memory. A number that was dropped may come again, and with it the numbers of its entries.
    ///
    /// There are more than `r` references. HAProxy management guide 2.4, section 9.3,
    /// `prepare acl`, `prepare map`.
    pub fn prepare(&mut self, r: u32) -> Result<u32, RefFault>
        requires { r < length self.old.content.references }
        ensures answer { result ≡ answer (prepared_version self.old.content r)
            (fault_at self.old.content r (preparation_fault self.old.content.limits)) }
        ensures ok { OnOk result (self.new.content ≡ after_preparation self.old.content r) }
        ensures err { OnErr result (self.new ≡ self.old) }
    {
        self.kept.prepare(self.limits, r)
    }

    /// The version `ver` of the reference at the position `r` is searched from now on, with the
    /// entries that it has. The versions that were prepared before it are dropped, and those that
    /// were prepared after it stay as they are. `BadVersion` exactly where it isn't one that was
    /// prepared after that which is searched; nothing is changed then. It takes no memory.
    ///
    /// There are more than `r` references. HAProxy management guide 2.4, section 9.3,
    /// `commit acl`, `commit map`.
    pub fn commit<L: Ledger>(
        &mut self,
        r: u32,
        ver: u32,
        steps: &mut Steps<L>,
    ) -> Result<(), RefFault>
        requires { r < length self.old.content.references }
        ensures answer { result ≡ answer tt (fault_at self.old.content r (commit_fault ver)) }
        ensures ok { OnOk result (self.new.content ≡ after_commit self.old.content r ver) }
        ensures used { self.new.slots.used ≡ self.old.slots.used }
        ensures err { OnErr result (self.new ≡ self.old) }
        ensures cost { steps.new ≤ steps.old + commit_steps self.old.content r ver }
    {
        self.kept.commit(r, ver, steps)
    }

    /// How many slots of memory are in use, and how many of these wait to be given back.
    pub fn slots(&self) -> Slots
        ensures { result ≡ self.now.slots }
    {
        self.kept.slots()
    }

    /// Gives back `n` of the slots of memory that no version needs any more, or all where fewer
    /// wait. It takes no memory.
    pub fn tidy(&mut self, n: usize)
        ensures content { self.new.content ≡ self.old.content }
        ensures slots { self.new.slots ≡ after_tidying n self.old.slots }
    {
        self.kept.tidy(n);
    }

    /// The position of the reference that a word names for a side. `#` and decimal digits, which
    /// may be any number of them, name the reference with that number, and never a file. Any other
    /// word names the reference of that file.
    ///
    /// `UnknownRef` exactly where no reference has the number or the file, or on one of the sides
    /// `Acl` and `AclWrite` no ACL uses the one that has it. Else `NeedsMap` exactly where its
    /// entries have no values on the side `Map`, and `UsedAsMap` exactly where they have values on
    /// the side `AclWrite`. It takes no memory.
    ///
    /// HAProxy management guide 2.4, section 9.3, `show acl`, `add acl`, `show map`.
    pub fn resolve(&self, word: &[u8], side: Side) -> Result<u32, RefFault>
        ensures { result ≡ resolution self.now.content word.now side }
    {
        self.kept.resolve(word, side)
    }
}

impl Tables for Refs {
    ghost use Rattle.hx_refs.specs.References.{References, searched_lists};
    ghost use Rattle.hx_refs.specs.TableChanges.{after_table_change};

    ghost State = { References };

    ghost state = { λ refs. refs.content };

    ghost heads = { λ refs. refs.heads };

    ghost lists = { searched_lists };

    ghost after_change = { after_table_change };

    fn find<L: Ledger>(
        &self,
        _alloc: Global,
        head: u32,
        sample: &Sample<'_>,
        steps: &mut Steps<L>,
    ) -> Result<Option<Hit<'_>>, NoMemory>
        requires head { head < length self.now.content.heads }
        requires kind { TakesValue self.now.content.heads head (value_of sample.now) }
        ensures found { IfOk result (λ hit. option_map entry_of hit
            ≡ found_at self.now.content.heads (searched_lists self.now.content) head
            (value_of sample.now)) }
        ensures free { IfSome (slice_get self.now.content.heads head)
            (λ h. h.by ≢ By.Reg → IsOk result) }
        ensures cost { steps.new ≤ steps.old
            + find_steps self.now.content head (value_of sample.now) }
    {
        let known = self.heads[head as usize];
        self.kept
            .find(known.list, known.place, known.by, known.ci, sample, steps)
    }

    fn change<M: ReMaker>(
        &mut self,
        table: u32,
        change: Change<'_>,
        maker: &mut M,
    ) -> Result<(), TableFault> {
        if !is_fit(&change) {
            return Ok(());
        }
        self.change_fit(table, change, maker)
    }
}

impl Refs {
    /// Does nothing. Of each reference the versions are in order, and the numbers of their entries
    /// rise; no more versions may be prepared than there are numbers.
    pub(crate) fn are_numbered(&self)
        ensures versions { All HasVersionsInOrder self.now.content.references }
        ensures entries { All NumbersRise self.now.content.references }
        ensures limits { self.now.content.limits.versions < 2 ^ 32 }
    {
        let _versions = self.limits.versions;
        self.kept.are_numbered();
    }

    /// Does nothing. No two references have the same number, and no two the same file.
    pub(crate) fn have_own_names(&self)
        ensures { HaveOwnNames self.now.content.references }
    {
        let _kept = &self.kept;
    }

    /// Does nothing. The slots that are in use and don't wait are as many as the versions need.
    pub(crate) fn have_counted_slots(&self)
        ensures least { slots_in_all least_slots self.now.content + self.now.slots.retired
            ≤ self.now.slots.used }
        ensures most { self.now.slots.used
            ≤ slots_in_all most_slots self.now.content + self.now.slots.retired }
    {
        self.kept.have_counted_slots();
    }
}
