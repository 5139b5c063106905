//! Variables in slots of memory. No call takes memory but `set_in`, and that before it changes
//! anything.
ghost use Rattle.std.specs.Prelude.{◌≡◌, ◌≢◌, ◌+◌, ◌<◌, ◌++◌, [], ◌∷◌, ℕ, List, Option, None, Some, OnOk, OnErr};
ghost use Rattle.std.specs.FinMap as map;
ghost use Rattle.std.specs.Option.{option_copied};
ghost use Rattle.std.specs.Str.{bytes_eq};
ghost use Rattle.hx_pool.specs.Pool.{get, live_count, IsLive, Updates};
ghost use Rattle.hx_pool.specs.Chain.{IsIn, LiesIn};
ghost use Rattle.hx_sample.specs.declared.stored_variable.Owner.{Owner as Whose};
ghost use Rattle.hx_sample.specs.declared.stored_variable.StoredVariable.{StoredVariable as Stored};
ghost use Rattle.hx_sample.specs.Slots.{key_in, vars_in, variable_links, variable_at, variable_of, HasNoDoubles, HasNone, IsFound, HasUnder, Leads, LosesOnly, OwnerStep, ChangesSlot};

use crate::rooms::Rooms;
use crate::sample::Value;
use crate::stored_variable::{Owner, StoredVariable};
use hx_pool::{Chain, Links, Pool, Steps};
use hx_text::{NoMemory, Octets};
use std::sync::ledger::{Blank, Ledger};

fn is_named<L: Ledger>(
    slots: &Pool<StoredVariable>,
    id: usize,
    name: &Octets,
    steps: &mut Steps<L>,
) -> bool
    requires { IsLive slots.now id }
    ensures { (v : Stored) → get slots.now id ≡ Some v → result ≡ bytes_eq v.name name.now }
{
    slots.get(id, steps).name == *name
}

/// The slot of the chain's variable with this name.
fn find<L: Ledger>(
    slots: &Pool<StoredVariable>,
    chain: &Chain,
    name: &Octets,
    steps: &mut Steps<L>,
) -> Option<usize>
    requires { (xs : List ℕ) × LiesIn variable_links slots.now chain.now xs }
    ensures { (xs : List ℕ) → LiesIn variable_links slots.now chain.now xs
        → IsFound slots.now xs name.now result }
{
    let mut at = chain.front();
    while let Some(id) = at {
        if is_named(slots, id, name, steps) {
            return Some(id);
        }
        at = chain.next(slots, id, steps);
    }
    None
}

/// The value of the owner's variable with this name, or none where there is none.
pub(crate) fn value_in<'a, L: Ledger>(
    slots: &'a Pool<StoredVariable>,
    chain: &Chain,
    name: &Octets,
    blank: Blank,
) -> Option<&'a Value>
    requires name { blank.name ≡ L.name }
    requires parts { blank.parts ≡ L.parts }
    requires some { 0 < L.parts }
    requires leads { (owner : Whose) × (xs : List ℕ) × Leads slots.now chain.now owner xs }
    ensures { (owner : Whose) (xs : List ℕ) → Leads slots.now chain.now owner xs
        → HasUnder slots.now (key_in owner name.now) (option_copied result) }
{
    let mut steps: Steps<L> = Steps::open(blank);
    match find(slots, chain, name, &mut steps) {
        Some(id) => Some(&slots.get(id, &mut steps).value),
        None => None,
    }
}

fn put_value<L: Ledger>(
    slots: &mut Pool<StoredVariable>,
    id: usize,
    value: Value,
    steps: &mut Steps<L>,
)
    requires { IsLive slots.old id }
    ensures { (v : Stored) → get slots.old id ≡ Some v
        → Updates slots.old slots.new id (Some (record v { value = value })) }
{
    slots.get_mut(id, steps).value = value;
}

// Puts a variable of a new name last.
fn add<L: Ledger>(
    rooms: &mut Rooms,
    slots: &mut Pool<StoredVariable>,
    chain: &mut Chain,
    owner: Owner,
    name: &Octets,
    value: Value,
    steps: &mut Steps<L>,
) -> Result<(), NoMemory>
    requires { (xs : List ℕ) × LiesIn variable_links slots.old chain.old xs }
    ensures ok { OnOk result ((xs : List ℕ) → LiesIn variable_links slots.old chain.old xs
        → (id : ℕ) × (get slots.old id ≡ None)
        × ChangesSlot slots.old slots.new chain.new owner xs (xs ++ id ∷ []) id
        (Some (record { owner = owner; name = name.now; value = value }))) }
    ensures err { OnErr result ((slots.new ≡ slots.old) × (chain.new ≡ chain.old)) }
{
    let name = rooms.copy(name.as_slice())?;
    slots.reserve(1)?;
    put_last(
        slots,
        chain,
        StoredVariable {
            owner,
            name,
            value,
            links: Links::NONE,
        },
        steps,
    );
    Ok(())
}

// Puts the variable into a spare slot, and that slot last in the chain.
fn put_last<L: Ledger>(
    slots: &mut Pool<StoredVariable>,
    chain: &mut Chain,
    variable: StoredVariable,
    steps: &mut Steps<L>,
)
    requires spare { 0 < slots.old.spare }
    requires lies { (xs : List ℕ) × LiesIn variable_links slots.old chain.old xs }
    ensures { (xs : List ℕ) → LiesIn variable_links slots.old chain.old xs
        → (id : ℕ) × (get slots.old id ≡ None)
        × ChangesSlot slots.old slots.new chain.new variable.owner xs (xs ++ id ∷ []) id
        (Some (variable_of variable)) }
{
    let id = slots.take(variable);
    chain.push_back(slots, id, steps);
}

/// Gives the owner's variable with this name a value, in place of the value that it had, or as a
/// new variable. The name is copied only for a new one.
pub(crate) fn set_in<L: Ledger>(
    rooms: &mut Rooms,
    slots: &mut Pool<StoredVariable>,
    chain: &mut Chain,
    owner: Owner,
    name: &Octets,
    value: Value,
    blank: Blank,
) -> Result<(), NoMemory>
    requires name { blank.name ≡ L.name }
    requires parts { blank.parts ≡ L.parts }
    requires some { 0 < L.parts }
    requires leads { (xs : List ℕ) × Leads slots.old chain.old owner xs }
    ensures ok { OnOk result ((xs : List ℕ) → Leads slots.old chain.old owner xs
        → HasNoDoubles slots.old → OwnerStep slots.old slots.new (Some chain.new) owner
        × (vars_in slots.new ≡ map.insert (vars_in slots.old) (key_in owner name.now) value)) }
    ensures err { OnErr result ((slots.new ≡ slots.old) × (chain.new ≡ chain.old)) }
{
    let mut steps: Steps<L> = Steps::open(blank);
    match find(slots, chain, name, &mut steps) {
        Some(id) => {
            put_value(slots, id, value, &mut steps);
            Ok(())
        }
        None => add(rooms, slots, chain, owner, name, value, &mut steps),
    }
}

// Takes a variable out of its chain, and gives its slot back. The memory of its texts is kept.
fn drop_at<L: Ledger>(
    rooms: &mut Rooms,
    slots: &mut Pool<StoredVariable>,
    chain: &mut Chain,
    id: usize,
    steps: &mut Steps<L>,
)
    requires { (xs : List ℕ) × LiesIn variable_links slots.old chain.old xs × IsIn id xs }
    ensures turns { (owner : Whose) (xs : List ℕ) → Leads slots.old chain.old owner xs → IsIn id xs
        → (ys : List ℕ) × ChangesSlot slots.old slots.new chain.new owner xs ys id None }
    ensures live { live_count slots.new + 1 ≡ live_count slots.old }
{
    chain.unlink(slots, id, steps);
    let variable = slots.give(id);
    rooms.keep(variable.name.into_vec());
    rooms.keep_value(variable.value);
}

/// Takes the owner's variable with this name out, if there is one.
pub(crate) fn unset_in<L: Ledger>(
    rooms: &mut Rooms,
    slots: &mut Pool<StoredVariable>,
    chain: &mut Chain,
    name: &Octets,
    blank: Blank,
)
    requires name { blank.name ≡ L.name }
    requires parts { blank.parts ≡ L.parts }
    requires some { 0 < L.parts }
    requires leads { (owner : Whose) × (xs : List ℕ) × Leads slots.old chain.old owner xs }
    ensures { (owner : Whose) (xs : List ℕ) → Leads slots.old chain.old owner xs
        → HasNoDoubles slots.old → OwnerStep slots.old slots.new (Some chain.new) owner
        × (vars_in slots.new ≡ map.remove (vars_in slots.old) (key_in owner name.now)) }
{
    let mut steps: Steps<L> = Steps::open(blank);
    let Some(id) = find(slots, chain, name, &mut steps) else {
        return;
    };
    drop_at(rooms, slots, chain, id, &mut steps);
}

/// Takes all variables of the owner out.
pub(crate) fn clear<L: Ledger>(
    rooms: &mut Rooms,
    slots: &mut Pool<StoredVariable>,
    chain: &mut Chain,
    blank: Blank,
)
    requires name { blank.name ≡ L.name }
    requires parts { blank.parts ≡ L.parts }
    requires some { 0 < L.parts }
    requires leads { (owner : Whose) × (xs : List ℕ) × Leads slots.old chain.old owner xs }
    ensures step { (owner : Whose) (xs : List ℕ) → Leads slots.old chain.old owner xs
        → OwnerStep slots.old slots.new (Some chain.new) owner }
    ensures none { (owner : Whose) (xs : List ℕ) → Leads slots.old chain.old owner xs
        → HasNone slots.new owner }
    ensures loses { (owner : Whose) (xs : List ℕ) → Leads slots.old chain.old owner xs
        → LosesOnly slots.old slots.new (λ other. other ≡ owner) }
{
    let mut steps: Steps<L> = Steps::open(blank);
    while let Some(id) = chain.front() {
        drop_at(rooms, slots, chain, id, &mut steps);
    }
}
