//! A pool and a chain beside a list of the numbers and a list of the keys.
ghost use Rattle.std.specs.Prelude.{◌≡◌, ◌<◌, [], IfOk, length};

use crate::comparisons::Comparisons;
use hx_pool::{Chain, Linked, Links, Pool, Steps};
use hx_text::NoMemory;
use std::alloc::{AllocError, Global};
use std::marker::Model;
use std::sync::ledger::Ledger;

/// More slots than a run ever has.
const MOST: usize = 1024;

#[derive(Drop)]
struct Entry {
    key: u64,
    links: Links,
}

impl Linked for Entry {
    ghost use mathlib.Core.Path.{refl, sym, ◌∙◌};

    ghost links_of = { λ entry. entry.links };

    ghost same = { λ x y. x.key ≡ y.key };

    fn links(&self) -> Links {
        self.links
    }

    fn set_links(&mut self, links: Links) {
        self.links = links;
    }

    ghost same_self = { λ x. refl };

    ghost same_back = { λ x y e. sym e };

    ghost same_on = { λ x y z e f. e ∙ f };
}

/// A chain in a pool, the numbers for which it lies there, and the key that each number has.
#[derive(Drop)]
struct Driven {
    pool: Pool<Entry>,
    chain: Chain,
    order: Vec<usize>,
    keys: Vec<u64>,
}

impl Model for Driven {
    ghost use Rattle.std.specs.Prelude.{ℕ, List};
    ghost use Rattle.hx_pool.specs.Chain.{LiesIn};

    ghost Value = { List ℕ };

    ghost view = { λ d. d.order.items };

    ghost invariant = { λ d. LiesIn (λ entry. entry.links) d.pool d.chain d.order.items };
}

impl Driven {
    fn new(alloc: Global) -> Result<Driven, AllocError>
        ensures { IfOk result (λ d. d ≡ []) }
    {
        Ok(Driven {
            pool: Pool::new(alloc),
            chain: Chain::new(),
            order: Vec::new(alloc),
            keys: Vec::from_elem(alloc, 0, MOST)?,
        })
    }

    fn len(&self) -> usize
        ensures { result ≡ length self.now }
    {
        self.order.len()
    }

    fn push<L: Ledger>(&mut self, key: u64, steps: &mut Steps<L>) -> Result<(), AllocError> {
        self.order.reserve(1)?;
        if self.pool.reserve(1).is_err() {
            return Err(AllocError);
        }
        let id = self.pool.take(Entry {
            key,
            links: Links::NONE,
        });
        self.chain.push_back(&mut self.pool, id, steps);
        self.order.push_reserved(id);
        put(&mut self.keys, id, key);
        Ok(())
    }

    fn remove<L: Ledger>(&mut self, index: usize, steps: &mut Steps<L>) -> u64
        requires { index < length self.old }
    {
        let id = self.order.remove(index);
        self.chain.unlink(&mut self.pool, id, steps);
        self.pool.give(id).key
    }

    /// Compares the chain, its values and what is live with what the list says.
    fn compare<L: Ledger>(
        &self,
        comparisons: &mut Comparisons,
        slots: usize,
        steps: &mut Steps<L>,
    ) {
        let mut next = self.chain.front();
        for index in 0..self.order.len() {
            let id = self.order[index];
            comparisons.note(next == Some(id));
            comparisons.note(id < slots);
            comparisons.note(self.keys.get(id).copied() == Some(self.pool.get(id, steps).key));
            next = self.chain.next(&self.pool, id, steps);
        }
        comparisons.note(next.is_none());
        let mut live = 0u64;
        for id in 0..MOST {
            if self.pool.live(id) {
                live = live.wrapping_add(1);
            }
        }
        comparisons.note(live == self.order.len() as u64);
    }
}

fn put(keys: &mut Vec<u64>, id: usize, key: u64) {
    if let Some(place) = keys.get_mut(id) {
        *place = key;
    }
}

/// Makes one of the calls, as `choice` says.
fn call<L: Ledger>(
    driven: &mut Driven,
    adds: bool,
    choice: usize,
    key: u64,
    steps: &mut Steps<L>,
) -> Result<(), AllocError> {
    let len = driven.len();
    if len == 0 {
        return driven.push(key, steps);
    }
    if adds {
        return driven.push(key, steps);
    }
    driven.remove(choice % len, steps);
    Ok(())
}

/// Makes that many calls, compares all after each, and answers how many values lay in the pool at
/// most.
pub fn pool_calls<L: Ledger>(
    comparisons: &mut Comparisons,
    alloc: Global,
    count: u64,
    steps: &mut Steps<L>,
) -> Result<usize, NoMemory> {
    let mut driven = Driven::new(alloc)?;
    let mut number: u64 = 20_261_127;
    let mut slots = 0;
    for round in 0..count {
        number = number
            .wrapping_mul(6_364_136_223_846_793_005)
            .wrapping_add(1_442_695_040_888_963_407);
        // Now more is added than taken out, now less.
        let adds = number >> 61 < if round / 1000 % 2 == 0 { 5 } else { 3 };
        call(&mut driven, adds, (number >> 40) as usize, number, steps)?;
        slots = slots.max(driven.len());
        driven.compare(comparisons, slots, steps);
    }
    Ok(slots)
}

/// Gives slots back and takes them again.
pub fn slot_used_again(comparisons: &mut Comparisons, alloc: Global) -> Result<(), NoMemory> {
    let mut pool: Pool<u8> = Pool::new(alloc);
    pool.reserve(2)?;
    let a = pool.take(b'a');
    let b = pool.take(b'b');
    comparisons.note(pool.give(a) == b'a');
    let c = pool.take(b'c');
    // The two slots that were reserved are enough.
    comparisons.note(a < 2 && b < 2 && c < 2);
    comparisons.note(pool.live(b));
    comparisons.note(pool.live(c));
    comparisons.note(pool.give(b) == b'b');
    comparisons.note(pool.give(c) == b'c');
    comparisons.note(!pool.live(c));
    Ok(())
}
