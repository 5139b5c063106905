ghost use Rattle.std.specs.Prelude.{◌≡◌, ◌≢◌, ℕ, ◌+◌, ◌^◌, ◌<◌, ◌++◌, ◌⊎◌, min, unwrap_or, [], ◌∷◌, slice_get, false, Option, Some, None, IfOk, IfErr, IfSome, IfNone, OnOk, OnErr, option_map};
ghost use Rattle.std.specs.Option.{option_copied, option_map_or};
ghost use Rattle.std.specs.Str.{bytes_eq};
ghost use Rattle.hx_refs.specs.Additions.{new_entry, pair_fault, AdditionCountsLarge, IsReadAs, MayRefuse};
ghost use Rattle.hx_refs.specs.Changes.{commit_fault, preparation_fault};
ghost use Rattle.hx_refs.specs.Kept.{excess, kept_demands, stored_last, stored_number, with_curr, with_next, with_out, with_use};
ghost use Rattle.hx_refs.specs.Naming.{is_named, side_fault};
ghost use Rattle.hx_versions.specs.NewEntries.{added_entry, IsReadyFor};
ghost use Rattle.hx_refs.specs.References.{is_open, new_reference, refuses_value, span, version_place};
ghost use Rattle.hx_versions.specs.Rows.{use_ways};
ghost use Rattle.hx_refs.specs.Uses.{use_parts, use_with, uses_in_order};
ghost use Rattle.hx_refs.specs.VersionNumbers.{number_ahead};
ghost use Rattle.hx_refs.specs.Versions.{HasVersion};

use crate::fault::RefFault;
use crate::info::RefInfo;
use crate::judging::{entry_of_pair, prepare_keys, refuses_value};
use crate::limits::Limits;
use crate::pairs::KeptPair;
use crate::side::Side;
use crate::version_numbers::{ahead, number_ahead};
use hx_outside::ReMaker;
use hx_text::{By, NoMemory, Octets, Out};
use hx_versions::{KeptUse, NewEntry, use_in_order, use_with};
use std::alloc::Global;
use std::marker::Model;

/// How far the numbers of the entries of one version are from those of the next.
const FIRST_NUMBER: u64 = 0x1_0000_0000;

/// A reference with its uses. The store has its versions, in a row at the same position. The
/// numbers of versions that callers know wrap. Those of the store don't: there the version that is
/// searched has the number `stored_first`, and each that was prepared after it one more. They are
/// the same until the first wrap.
pub(crate) struct KeptReference {
    id: u32,
    file: Option<Octets>,
    two_column: bool,
    acl: bool,
    as_int: bool,
    as_ip: bool,
    uses: Vec<KeptUse>,
    curr: u32,
    next: u32,
    stored_first: u32,
}

// Written out, so that letting one go is one call in the proofs of callers.
impl Drop for KeptReference {
    fn drop(self) {
        let KeptReference {
            id: _id,
            file: _file,
            two_column: _two_column,
            acl: _acl,
            as_int: _as_int,
            as_ip: _as_ip,
            uses: _uses,
            curr: _curr,
            next: _next,
            stored_first: _stored_first,
        } = self;
    }
}

impl Model for KeptReference {
    ghost use Rattle.std.specs.Prelude.{[]};
    ghost use Rattle.hx_refs.specs.Kept.{StoredReference, IsStoredReference};

    ghost Value = { StoredReference };

    ghost view = { λ reference. record {
      kept = record {
        shown = record {
          id = reference.id;
          file = reference.file;
          two_column = reference.two_column;
          acl = reference.acl;
          outputs = record { as_int = reference.as_int; as_ip = reference.as_ip };
          curr = reference.curr;
          next = reference.next;
          versions = [];
        };
        uses = reference.uses.items;
      };
      stored_first = reference.stored_first;
    } };

    ghost invariant = { λ reference.
        IsStoredReference reference.uses.items reference.curr reference.next reference.stored_first };
}

impl KeptReference {
    /// A reference without uses, outputs and entries, which begins with the version `first`.
    #[tactic(auto, unfolding(crate::specs::VersionNumbers::ahead))]
    pub(crate) fn new(
        alloc: Global,
        first: u32,
        id: u32,
        file: Option<&[u8]>,
        two_column: bool,
        acl: bool,
    ) -> Result<KeptReference, NoMemory>
        ensures { IfOk result (λ reference. reference ≡ record {
          kept = record {
            shown = record (new_reference first id (option_copied file.entry) two_column acl) {
              versions = [];
            };
            uses = [];
          };
          stored_first = first;
        }) }
    {
        let file = match file {
            Some(name) => Some(Octets::copy(alloc, name)?),
            None => None,
        };
        Ok(KeptReference {
            id,
            file,
            two_column,
            acl,
            as_int: false,
            as_ip: false,
            uses: Vec::new(alloc),
            curr: first,
            next: first,
            stored_first: first,
        })
    }

    /// Its file.
    pub(crate) fn file(&self) -> Option<&[u8]>
        ensures { option_copied result ≡ self.now.kept.shown.file }
    {
        match &self.file {
            Some(name) => Some(name.as_slice()),
            None => None,
        }
    }

    /// What is told of it, where its versions have so many entries.
    pub(crate) fn info(&self, count: u64) -> RefInfo
        ensures { result ≡ record {
          id = self.now.kept.shown.id;
          two_column = self.now.kept.shown.two_column;
          acl = self.now.kept.shown.acl;
          curr = self.now.kept.shown.curr;
          next = self.now.kept.shown.next;
          count = count;
        } }
    {
        RefInfo {
            id: self.id,
            two_column: self.two_column,
            acl: self.acl,
            curr: self.curr,
            next: self.next,
            count,
        }
    }

    /// Values are read by one more output.
    pub(crate) fn add_out(&mut self, out: Out)
        ensures { self.new ≡ with_out out self.old }
    {
        match out {
            Out::Str => {}
            Out::Int => self.as_int = true,
            Out::Ip => self.as_ip = true,
        }
    }

    /// Its uses.
    pub(crate) fn uses(&self) -> &[KeptUse]
        ensures { result.now ≡ self.now.kept.uses }
    {
        self.uses.as_slice()
    }

    /// The head of a use, if there is one.
    pub(crate) fn head_with(&self, by: By, ci: bool) -> Option<u32>
        ensures { result ≡ option_map (λ u. u.head) (use_with by ci self.now.kept.uses) }
    {
        match use_with(self.uses.as_slice(), by, ci) {
            Some(kept) => Some(kept.head),
            None => None,
        }
    }

    /// The use at a place in the order in which uses are told.
    pub(crate) fn use_at(&self, place: u32) -> Option<(By, bool, u32)>
        ensures { result
            ≡ option_map use_parts (slice_get (uses_in_order self.now.kept.uses) place) }
    {
        use_in_order(self.uses.as_slice(), place)
    }

    /// The number of a version, if there is one; without a number it is the one that is searched.
    #[tactic(auto, unfolding(crate::specs::VersionNumbers::is_from_to))]
    pub(crate) fn number(&self, ver: Option<u32>) -> Option<u32>
        ensures none { IfNone result (version_place self.now.kept.shown ver ≡ None) }
        ensures place { IfSome result (λ number. version_place self.now.kept.shown ver
            ≡ version_place self.now.kept.shown (Some number)) }
        ensures version { IfSome result (HasVersion self.now.kept.shown) }
        ensures given { IfSome result (λ number.
            unwrap_or ver self.now.kept.shown.curr ≡ number) }
    {
        match ver {
            None => Some(self.curr),
            Some(number) if self.is_open(number) => Some(number),
            Some(_) => None,
        }
    }

    /// Whether it has a version of the number.
    #[tactic(auto, unfolding(crate::specs::VersionNumbers::is_from_to))]
    fn is_open(&self, number: u32) -> bool
        ensures { result ≡ is_open self.now.kept.shown number }
    {
        ahead(self.curr, number) <= ahead(self.curr, self.next)
    }

    /// The store's number of the version that is searched.
    pub(crate) fn stored_first(&self) -> u32
        ensures { result ≡ self.now.stored_first }
    {
        self.stored_first
    }

    /// The store's number of the version that was prepared last.
    fn stored_last(&self) -> u32
        ensures { result ≡ stored_last self.now }
    {
        self.stored_first + ahead(self.curr, self.next)
    }

    /// The store's number of a version.
    pub(crate) fn stored_number(&self, number: u32) -> u32
        requires { HasVersion self.now.kept.shown number }
        ensures { result ≡ stored_number self.now number }
    {
        self.stored_first + ahead(self.curr, number)
    }

    /// The store's number of a version, as [`KeptReference::number`] gives it, and one that no
    /// version has where there is none.
    #[tactic(auto, unfolding(crate::specs::VersionNumbers::ahead, crate::specs::VersionNumbers::is_from_to, crate::specs::VersionNumbers::number_ahead))]
    pub(crate) fn stored_or_unused(&self, ver: Option<u32>) -> u32
        ensures some { IfSome (version_place self.now.kept.shown ver)
            (λ place. result ≡ self.now.stored_first + place) }
        ensures none { version_place self.now.kept.shown ver ≡ None
            → (result < self.now.stored_first) ⊎ (stored_last self.now < result) }
    {
        match self.number(ver) {
            Some(number) => self.stored_number(number),
            None => number_ahead(self.stored_last(), 1),
        }
    }

    /// How much lower the store's numbers have to be before one version more is prepared.
    pub(crate) fn excess(&self) -> u32
        ensures { result ≡ excess self.now }
    {
        if self.stored_last() < u32::MAX {
            0
        } else {
            self.stored_first
        }
    }

    /// Appends a use.
    pub(crate) fn push_use(&mut self, by: By, ci: bool, head: u32) -> Result<(), NoMemory>
        requires found { by ≢ By.Found }
        requires bool { by ≢ By.Bool }
        ensures ok { OnOk result (self.new ≡ with_use by ci head self.old) }
        ensures err { OnErr result (self.new ≡ self.old) }
    {
        self.uses.push(KeptUse { by, ci, head })?;
        Ok(())
    }

    /// Whether an output can't read the value.
    pub(crate) fn refuses_value(&self, value: &[u8]) -> bool
        ensures { result ≡ refuses_value self.now.kept.shown.outputs value.now }
    {
        refuses_value(self.as_int, self.as_ip, value)
    }

    /// The entry that a pair becomes in the version of a number, which has `count` entries, after
    /// that of the serial number `serial`.
    pub(crate) fn new_entry<M: ReMaker>(
        &self,
        alloc: Global,
        limits: Limits,
        version: u32,
        count: u32,
        serial: u32,
        pair: &KeptPair,
        maker: &mut M,
    ) -> Result<NewEntry, RefFault>
        ensures entry { IfOk result (λ new.
            added_entry new ≡ new_entry version (serial + 1, pair.now)) }
        ensures ready { IfOk result (IsReadyFor (use_ways self.now.kept.uses)) }
        ensures none { OnOk result (pair_fault (kept_demands self.now.kept limits)
            count serial pair.now ≡ None) }
        ensures count { OnOk result (count < limits.entries) }
        ensures serial { OnOk result (serial < limits.adds) }
        ensures refused { IfErr result (MayRefuse (pair_fault (kept_demands self.now.kept limits)
            count serial pair.now)) }
        ensures large { AdditionCountsLarge result (IsReadAs self.now.kept.uses pair.now.key)
            (M.state maker.old) (M.state maker.new) }
    {
        let prepared = prepare_keys(alloc, self.uses.as_slice(), pair.key(), maker)?;
        if refuses_value(self.as_int, self.as_ip, pair.value()) {
            return Err(RefFault::BadValue);
        }
        if limits.entries <= count {
            return Err(RefFault::VersionFull);
        }
        if limits.adds <= serial {
            return Err(RefFault::VersionWorn);
        }
        let number = u64::from(version) * FIRST_NUMBER + u64::from(serial) + 1;
        entry_of_pair(alloc, number, pair, prepared)
    }

    /// Why no version more is prepared.
    pub(crate) fn preparation_fault(&self, limits: Limits) -> Option<RefFault>
        ensures fault { result ≡ preparation_fault limits self.now.kept.shown }
        ensures room { IfNone result (span self.now.kept.shown + 1 < 2 ^ 32) }
    {
        if ahead(self.curr, self.next) < limits.versions {
            return None;
        }
        Some(RefFault::NoMoreVersions)
    }

    /// One version more, where the store's numbers are lower by their excess from then on. It is
    /// answered by its number.
    #[tactic(auto, unfolding(crate::specs::VersionNumbers::ahead, crate::specs::VersionNumbers::number_ahead))]
    pub(crate) fn prepare(&mut self) -> u32
        requires { span self.old.kept.shown + 1 < 2 ^ 32 }
        ensures number { result ≡ number_ahead self.old.kept.shown.next 1 }
        ensures new { self.new ≡ with_next self.old }
    {
        let excess = self.excess();
        self.stored_first -= excess;
        self.next = number_ahead(self.next, 1);
        self.next
    }

    /// Why the version of a number can't be made the one that is searched.
    pub(crate) fn commit_fault(&self, number: u32) -> Option<RefFault>
        ensures { result ≡ commit_fault number self.now.kept.shown }
    {
        if self.is_open(number) && ahead(self.curr, number) > 0 {
            return None;
        }
        Some(RefFault::BadVersion)
    }

    /// The version of a number is searched from now on. It is answered by the store's number of it.
    #[tactic(auto, unfolding(crate::specs::VersionNumbers::ahead))]
    pub(crate) fn set_current(&mut self, number: u32) -> u32
        requires { HasVersion self.old.kept.shown number }
        ensures stored { result ≡ stored_number self.old number }
        ensures new { self.new ≡ with_curr number self.old }
    {
        self.stored_first += ahead(self.curr, number);
        self.curr = number;
        self.stored_first
    }

    /// Its number.
    fn id(&self) -> u32
        ensures { result ≡ self.now.kept.shown.id }
    {
        self.id
    }

    /// Whether a word names it: by the number that the word names, given as `named_number` gives
    /// it, or else by its file.
    pub(crate) fn is_named(&self, number: Option<u64>, word: &[u8]) -> bool
        ensures { (named : Option ℕ) → number ≡ option_map (min (2 ^ 32)) named
            → result ≡ is_named named word.now self.now.kept.shown }
    {
        match number {
            Some(number) => u64::from(self.id()) == number,
            None => self.has_file(word),
        }
    }

    fn has_file(&self, name: &[u8]) -> bool
        ensures { result
            ≡ option_map_or (λ file. bytes_eq file name.now) self.now.kept.shown.file false }
    {
        match &self.file {
            Some(file) => file.as_slice() == name,
            None => false,
        }
    }

    /// Why it isn't used on a side.
    pub(crate) fn side_fault(&self, side: Side) -> Option<RefFault>
        ensures { result ≡ side_fault side self.now.kept.shown }
    {
        match side {
            Side::Acl if self.acl => None,
            Side::Acl => Some(RefFault::UnknownRef),
            Side::AclWrite if !self.acl => Some(RefFault::UnknownRef),
            Side::AclWrite if self.two_column => Some(RefFault::UsedAsMap),
            Side::AclWrite => None,
            Side::Map if self.two_column => None,
            Side::Map => Some(RefFault::NeedsMap),
        }
    }
}
