//! Laws: what the definitions of versions imply, and what holds of references at any time.
ghost use Rattle.std.specs.Prelude.{◌≡◌, ◌≢◌, ℕ, ◌+◌, ◌^◌, ◌<◌, ◌≤◌, Bool, List, [], Option, false, None, Some, All, IfSome, length, slice_get};
ghost use Rattle.hx_sample.specs.Find.{Entry};
ghost use Rattle.hx_refs.specs.Additions.{after_addition, Pair};
ghost use Rattle.hx_refs.specs.Changes.{after_change_of_value, after_clearing, after_commit, after_deletion, after_preparation, commit_fault, fault_at, preparation_fault, prepared_version};
ghost use Rattle.hx_refs.specs.Numbers.{HasVersionsInOrder, HaveOwnNames, HasRoom, IsNotBehind, IsNotSearched, NumbersRise};
ghost use Rattle.hx_refs.specs.References.{entries_in, has_version, searched_lists, with_new, with_reference, Reference, References};
ghost use Rattle.hx_refs.specs.SlotCounts.{least_slots, most_slots, slots_in_all};

use crate::refs::Refs;

/// Entries that are added to a version that isn't searched change nothing that is searched: neither
/// a list nor how it is searched.
pub fn addition_to_another_version_changes_no_search()
    ensures lists { (refs : References) (r number : ℕ) (pairs : List Pair)
        → IsNotSearched refs r number
        → searched_lists (after_addition refs r (Some number) pairs) ≡ searched_lists refs }
    ensures heads { (refs : References) (r number : ℕ) (pairs : List Pair)
        → (after_addition refs r (Some number) pairs).heads ≡ refs.heads }
{}

/// Nor does it change anything that is searched where such a version loses its entries.
pub fn clearing_of_another_version_changes_no_search()
    ensures lists { (refs : References) (r number : ℕ) → IsNotSearched refs r number
        → searched_lists (after_clearing refs r (Some number)) ≡ searched_lists refs }
    ensures heads { (refs : References) (r number : ℕ)
        → (after_clearing refs r (Some number)).heads ≡ refs.heads }
{}

/// Nor where entries are removed from such a version.
pub fn deletion_from_another_version_changes_no_search()
    ensures lists { (refs : References) (r number : ℕ) (test : Entry → Bool)
        → IsNotSearched refs r number
        → searched_lists (after_deletion refs r (Some number) test) ≡ searched_lists refs }
    ensures heads { (refs : References) (r number : ℕ) (test : Entry → Bool)
        → (after_deletion refs r (Some number) test).heads ≡ refs.heads }
{}

/// Nor where the value of entries of such a version is changed.
pub fn change_of_a_value_in_another_version_changes_no_search()
    ensures lists { (refs : References) (r number : ℕ) (test : Entry → Bool) (value : List ℕ)
        → IsNotSearched refs r number
        → searched_lists (after_change_of_value refs r (Some number) test value)
        ≡ searched_lists refs }
    ensures heads { (refs : References) (r number : ℕ) (test : Entry → Bool) (value : List ℕ)
        → (after_change_of_value refs r (Some number) test value).heads ≡ refs.heads }
{}

/// Nor where a version is prepared.
pub fn preparation_changes_no_search()
    ensures lists { (refs : References) (r : ℕ)
        → searched_lists (after_preparation refs r) ≡ searched_lists refs }
    ensures heads { (refs : References) (r : ℕ) → (after_preparation refs r).heads ≡ refs.heads }
{}

/// The version that is prepared, unless that is refused, gets a number that no version of the
/// reference has, and has no entries. (A number of a version that was dropped may come again.)
pub fn preparation_gives_an_unused_number()
    ensures unused { (refs : References) (r : ℕ) → HasRoom refs r
        → fault_at refs r (preparation_fault refs.limits) ≡ None
        → has_version refs r (Some (prepared_version refs r)) ≡ false }
    ensures empty { (refs : References) (r : ℕ) → HasRoom refs r
        → fault_at refs r (preparation_fault refs.limits) ≡ None
        → entries_in (after_preparation refs r) r (Some (prepared_version refs r)) ≡ [] }
{}

/// A commit, unless it is refused, changes one list that is searched, that of its reference: from
/// then on it has exactly the entries of the version. The others stay, and how they are searched.
pub fn commit_changes_one_search()
    ensures list { (refs : References) (r number : ℕ) → r < length refs.references
        → fault_at refs r (commit_fault number) ≡ None
        → slice_get (searched_lists (after_commit refs r number)) r
        ≡ Some (entries_in refs r (Some number)) }
    ensures others { (refs : References) (r number other : ℕ) → other ≢ r
        → slice_get (searched_lists (after_commit refs r number)) other
        ≡ slice_get (searched_lists refs) other }
    ensures heads { (refs : References) (r number : ℕ)
        → (after_commit refs r number).heads ≡ refs.heads }
{}

/// A commit, unless it is refused, keeps each version that isn't behind that of its number: it has
/// the entries that it had.
pub fn commit_keeps_later_versions()
    ensures { (refs : References) (r number later : ℕ)
        → fault_at refs r (commit_fault number) ≡ None
        → IfSome (slice_get refs.references r) (IsNotBehind number later)
        → entries_in (after_commit refs r number) r (Some later)
        ≡ entries_in refs r (Some later) }
{}

/// Of each reference, the versions are those from the one that is searched to the last that was
/// prepared, and the numbers of these two have 32 bits. No more may be prepared than there are
/// numbers.
pub fn versions_are_in_order(refs: &Refs)
    ensures versions { All HasVersionsInOrder refs.now.content.references }
    ensures limits { refs.now.content.limits.versions < 2 ^ 32 }
{
    refs.are_numbered();
}

/// Of each version, the numbers of the entries rise, and are that of the version times 2^32 and
/// serial numbers, from 1 to that of the entry that was added last. So none has two entries.
pub fn numbers_rise(refs: &Refs)
    ensures { All NumbersRise refs.now.content.references }
{
    refs.are_numbered();
}

/// No two references have the same number, and no two the same file.
pub fn names_are_distinct(refs: &Refs)
    ensures { HaveOwnNames refs.now.content.references }
{
    refs.have_own_names();
}

/// Where no two references have the same number, and no two the same file, it stays so: with one
/// more that has a number and a file of its own, and after a change of one that leaves both.
pub fn names_stay_distinct()
    ensures new { (refs : References) (id : ℕ) (file : Option (List ℕ)) (two_column acl : Bool)
        → All (λ reference. reference.id ≢ id) refs.references
        → IfSome file (λ name. All (λ reference. reference.file ≢ Some name) refs.references)
        → HaveOwnNames refs.references
        → HaveOwnNames (with_new refs id file two_column acl).references }
    ensures change { (refs : References) (r : ℕ) (change : Reference → Reference)
        → ((x : Reference) → ((change x).id ≡ x.id) × ((change x).file ≡ x.file))
        → HaveOwnNames refs.references
        → HaveOwnNames (with_reference r change refs).references }
{}

/// No slot of memory is lost: those that are in use and don't wait to be given back are, of each
/// version of each reference, at least one for each entry and one for each entry and use, and at
/// most those that one entry more would need.
pub fn slots_are_counted(refs: &Refs)
    ensures least { slots_in_all least_slots refs.now.content + refs.now.slots.retired
        ≤ refs.now.slots.used }
    ensures most { refs.now.slots.used
        ≤ slots_in_all most_slots refs.now.content + refs.now.slots.retired }
{
    refs.have_counted_slots();
}
