//! The variables of sessions: a chain through the slots of each connection that has had one.
ghost use Rattle.std.specs.Prelude.{◌≡◌, ℕ, List, None, OnOk, OnErr, IsSome};
ghost use Rattle.std.specs.BTreeMap as tree;
ghost use Rattle.std.specs.FinMap as map;
ghost use Rattle.std.specs.Option.{option_copied};
ghost use Rattle.std.specs.Ordering.{nat_cmp};
ghost use Rattle.hx_sample.specs.declared.stored_variable.Owner.TheVariants as whose;
ghost use Rattle.hx_sample.specs.declared.stored_variable.Owner.{Owner as Whose};
ghost use Rattle.hx_sample.specs.Slots.{key_in, vars_in, HasNoDoubles, HasUnder, HasChain, LosesOnly, OwnerStep, VariablePool};

use crate::rooms::Rooms;
use crate::sample::Value;
use crate::slots::{clear, set_in, unset_in, value_in};
use crate::stored_variable::{Owner, StoredVariable};
use hx_pool::{Chain, Pool};
use hx_text::{NoMemory, Octets};
use std::collections::BTreeMap;
use std::marker::Brand;
use std::sync::ledger::Blank;

// Gives the connection a chain, if it has none.
fn add_session(sessions: &mut BTreeMap<u32, Chain>, conn: u32) -> Result<(), NoMemory>
    ensures chain { (p : VariablePool)
        → HasChain p (whose.Session conn) (tree.get nat_cmp sessions.old conn)
        → HasChain p (whose.Session conn) (tree.get nat_cmp sessions.new conn) }
    ensures has { OnOk result (IsSome (tree.get nat_cmp sessions.new conn)) }
    ensures others { (q : ℕ) → (q ≡ conn → ⊥)
        → tree.get nat_cmp sessions.new q ≡ tree.get nat_cmp sessions.old q }
{
    if sessions.contains_key(&conn) {
        return Ok(());
    }
    sessions.insert(conn, Chain::new())?;
    Ok(())
}

pub(crate) fn value_in_session<'a>(
    slots: &'a Pool<StoredVariable>,
    sessions: &BTreeMap<u32, Chain>,
    conn: u32,
    name: &Octets,
) -> Option<&'a Value>
    requires { HasChain slots.now (whose.Session conn) (tree.get nat_cmp sessions.now conn) }
    ensures { HasUnder slots.now (key_in (whose.Session conn) name.now) (option_copied result) }
{
    match sessions.get(&conn) {
        Some(chain) => value_in::<Brand>(slots, chain, name, Blank::new(1)),
        None => None,
    }
}

/// A connection whose variables are all unset keeps an empty chain until its session ends, and so
/// does one whose first variable finds no memory.
pub(crate) fn set_in_session(
    rooms: &mut Rooms,
    slots: &mut Pool<StoredVariable>,
    sessions: &mut BTreeMap<u32, Chain>,
    conn: u32,
    name: &Octets,
    value: Value,
) -> Result<(), NoMemory>
    requires { HasChain slots.old (whose.Session conn) (tree.get nat_cmp sessions.old conn) }
    ensures ok { OnOk result (HasNoDoubles slots.old
        → OwnerStep slots.old slots.new (tree.get nat_cmp sessions.new conn) (whose.Session conn)
        × (vars_in slots.new
        ≡ map.insert (vars_in slots.old) (key_in (whose.Session conn) name.now) value)) }
    ensures err { OnErr result ((slots.new ≡ slots.old)
        × HasChain slots.old (whose.Session conn) (tree.get nat_cmp sessions.new conn)) }
    ensures others { (q : ℕ) → (q ≡ conn → ⊥)
        → tree.get nat_cmp sessions.new q ≡ tree.get nat_cmp sessions.old q }
{
    add_session(sessions, conn)?;
    match sessions.get_mut(&conn) {
        Some(chain) => set_in::<Brand>(
            rooms,
            slots,
            chain,
            Owner::Session(conn),
            name,
            value,
            Blank::new(1),
        ),
        None => unreachable!(),
    }
}

pub(crate) fn unset_in_session(
    rooms: &mut Rooms,
    slots: &mut Pool<StoredVariable>,
    sessions: &mut BTreeMap<u32, Chain>,
    conn: u32,
    name: &Octets,
)
    requires { HasChain slots.old (whose.Session conn) (tree.get nat_cmp sessions.old conn) }
    ensures unset { HasNoDoubles slots.old
        → OwnerStep slots.old slots.new (tree.get nat_cmp sessions.new conn) (whose.Session conn)
        × (vars_in slots.new
        ≡ map.remove (vars_in slots.old) (key_in (whose.Session conn) name.now)) }
    ensures others { (q : ℕ) → (q ≡ conn → ⊥)
        → tree.get nat_cmp sessions.new q ≡ tree.get nat_cmp sessions.old q }
{
    let Some(chain) = sessions.get_mut(&conn) else {
        return;
    };
    unset_in::<Brand>(rooms, slots, chain, name, Blank::new(1));
}

/// Unsets all variables of the session, and forgets the connection.
pub(crate) fn clear_session(
    rooms: &mut Rooms,
    slots: &mut Pool<StoredVariable>,
    sessions: &mut BTreeMap<u32, Chain>,
    conn: u32,
)
    requires { HasChain slots.old (whose.Session conn) (tree.get nat_cmp sessions.old conn) }
    ensures step { OwnerStep slots.old slots.new (tree.get nat_cmp sessions.new conn)
        (whose.Session conn) }
    ensures gone { tree.get nat_cmp sessions.new conn ≡ None }
    ensures loses { LosesOnly slots.old slots.new (λ owner. owner ≡ whose.Session conn) }
    ensures others { (q : ℕ) → (q ≡ conn → ⊥)
        → tree.get nat_cmp sessions.new q ≡ tree.get nat_cmp sessions.old q }
{
    let Some(mut chain) = sessions.remove(&conn) else {
        return;
    };
    clear::<Brand>(rooms, slots, &mut chain, Blank::new(1));
}
