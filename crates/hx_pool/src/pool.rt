ghost use Rattle.std.specs.Prelude.{◌≡◌, ◌+◌, ◌<◌, ◌≤◌, ◌^◌, ℕ, None, OnErr, OnOk, Some, IsErr, IsOk, IsTrue, ◌↔◌};
ghost use Rattle.std.specs.Borrow.{sem};
ghost use Rattle.hx_pool.specs.Pool.{get, IsLive, live_count, total, SameValues, Updates};

use crate::chunks::Chunks;
use crate::slot::Slot;
use crate::steps::Steps;
use hx_text::NoMemory;
use std::alloc::Global;
use std::marker::Model;
use std::mem;
use std::sync::ledger::Ledger;

/// Values in slots, each with a number. Contracts see a finite map from the live numbers to their
/// values, and how many slots are spare. A value doesn't move while it is in its slot, and its
/// number is given to no other value until it is taken out.
///
/// A slot that was given back holds the number of the next such slot, so that a pool takes memory
/// in `reserve` alone. Slots that never had a value have memory, but aren't written before.
#[derive(Drop)]
pub struct Pool<T> {
    slots: Chunks<T>,
    // The first of the slots that were given back, and how many they are.
    first_free: Option<usize>,
    free: usize,
    // How many slots there are beside those that ever had a value.
    fresh: usize,
}

impl<T> Model for Pool<T> {
    ghost use Rattle.std.specs.Prelude.{◌+◌, map};
    ghost use Rattle.hx_pool.specs.Pool.{Pool as Map, pool_code};
    ghost use Rattle.hx_pool.specs.Slots.{value_of, IsPool};

    ghost Value = { Map T };

    ghost coded = { pool_code T.code };

    ghost view = { λ p. record { slots = map value_of p.slots.0; spare = p.free + p.fresh } };

    ghost invariant = { λ p. IsPool p.slots.0 p.slots.1 p.free p.fresh p.first_free };
}

impl<T> Pool<T> {
    ghost use Rattle.hx_pool.specs.Lends.{lends_value};

    /// A pool without slots. It takes its memory from `alloc`, in `reserve`.
    pub fn new(alloc: Global) -> Pool<T>
        ensures none { (id : ℕ) → get result id ≡ None }
        ensures spare { result.spare ≡ 0 }
        ensures total { total result ≡ 0 }
    {
        Pool {
            slots: Chunks::new(alloc),
            first_free: None,
            free: 0,
            fresh: 0,
        }
    }

    /// Takes memory until `count` slots are spare. Where memory runs out, nothing changes. A pool
    /// has at most 2^32 slots: where more are asked for, it takes no memory, and answers as where
    /// memory runs out.
    pub fn reserve(&mut self, count: usize) -> Result<(), NoMemory>
        ensures ok { OnOk result (count ≤ self.new.spare) }
        ensures values { SameValues self.old self.new }
        ensures live { live_count self.new ≡ live_count self.old }
        ensures total { total self.old ≤ total self.new }
        ensures enough { count ≤ self.old.spare → IsOk result × (self.new ≡ self.old) }
        ensures many { 2 ^ 32 < live_count self.old + count → IsErr result }
        ensures err { OnErr result (self.new ≡ self.old) }
    {
        if count <= self.free + self.fresh {
            return Ok(());
        }
        let fresh = count - self.free;
        if self.slots.reserve(fresh).is_err() {
            return Err(NoMemory);
        }
        self.fresh = fresh;
        Ok(())
    }

    /// Puts `value` into a spare slot, whose number it answers.
    pub fn take(&mut self, value: T) -> usize
        requires { 0 < self.old.spare }
        ensures was_free { get self.old result ≡ None }
        ensures updates { Updates self.old self.new result (Some value) }
        ensures spare { self.new.spare + 1 ≡ self.old.spare }
        ensures live { live_count self.new ≡ live_count self.old + 1 }
        ensures total { total self.new ≡ total self.old }
    {
        match self.first_free {
            Some(id) => {
                match mem::replace(self.slots.get_mut(id), Slot::Live(value)) {
                    Slot::Free(next) => self.first_free = next,
                    Slot::Live(_) => unreachable!(),
                }
                self.free -= 1;
                id
            }
            None => {
                let id = self.slots.len();
                self.slots.push(Slot::Live(value));
                self.fresh -= 1;
                id
            }
        }
    }

    /// Takes the value of `id` out. Its slot is spare from then on.
    pub fn give(&mut self, id: usize) -> T
        requires { IsLive self.old id }
        ensures value { get self.old id ≡ Some result }
        ensures updates { Updates self.old self.new id None }
        ensures spare { self.new.spare ≡ self.old.spare + 1 }
        ensures live { live_count self.new + 1 ≡ live_count self.old }
        ensures total { total self.new ≡ total self.old }
    {
        match mem::replace(self.slots.get_mut(id), Slot::Free(self.first_free)) {
            Slot::Live(value) => {
                self.first_free = Some(id);
                self.free += 1;
                value
            }
            Slot::Free(_) => unreachable!(),
        }
    }

    /// The value of `id`, lent. One step.
    pub fn get<L: Ledger>(&self, id: usize, steps: &mut Steps<L>) -> &T
        requires { IsLive self.now id }
        ensures value { get self.now id ≡ Some result.now }
        ensures cost { steps.new ≡ steps.old + 1 }
    {
        steps.tick();
        match self.slots.get(id) {
            Slot::Live(value) => value,
            Slot::Free(_) => unreachable!(),
        }
    }

    /// The value of `id`, lent for changes: no other value changes. One step.
    pub fn get_mut<L: Ledger>(&mut self, id: usize, steps: &mut Steps<L>) -> &mut T
        requires { IsLive self.old id }
        ensures* writes_back { sem 𝓛 (lends_value T.row self.entry id result) }
        ensures value { get self.old id ≡ Some result.now }
        ensures cost { steps.new ≡ steps.old + 1 }
    {
        steps.tick();
        self.value_mut(id)
    }

    fn value_mut(&mut self, id: usize) -> &mut T
        requires { IsLive self.old id }
        ensures* writes_back { sem 𝓛 (lends_value T.row self.entry id result) }
        ensures value { get self.old id ≡ Some result.now }
    {
        self.slots.get_mut(id).value_mut()
    }

    /// How many slots have a value.
    pub fn live_count(&self) -> usize
        ensures { result ≡ live_count self.now }
    {
        self.slots.len() - self.free
    }

    /// Whether `id` is the number of a value.
    pub fn live(&self, id: usize) -> bool
        ensures { IsTrue result ↔ IsLive self.now id }
    {
        id < self.slots.len() && matches!(self.slots.get(id), Slot::Live(_))
    }
}
