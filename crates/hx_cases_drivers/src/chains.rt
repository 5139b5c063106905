//! Two chains of one pool, whose order is read and compared whole.
ghost use Rattle.std.specs.Prelude.{◌≡◌, ◌++◌, ◌∷◌, ℕ, List, Some};
ghost use Rattle.hx_pool.specs.Chain.{LiesIn};
ghost use Rattle.hx_cases_drivers.specs.declared.chains.Item.{Item};

use crate::comparisons::Comparisons;
use hx_pool::{Chain, Linked, Links, Pool, Steps};
use hx_text::NoMemory;
use std::alloc::{AllocError, Global};
use std::marker::Model;
use std::mem;
use std::sync::ledger::Ledger;

/// More numbers than a chain ever has here.
const MOST: usize = 200;

#[derive(Drop)]
struct Item {
    key: u32,
    links: Links,
}

impl Linked for Item {
    ghost use mathlib.Core.Path.{refl, sym, ◌∙◌};

    ghost links_of = { λ item. item.links };

    ghost same = { λ x y. x.key ≡ y.key };

    fn links(&self) -> Links {
        self.links
    }

    fn set_links(&mut self, links: Links) {
        self.links = links;
    }

    ghost same_self = { λ x. refl };

    ghost same_back = { λ x y e. sym e };

    ghost same_on = { λ x y z e f. e ∙ f };
}

/// Two chains that lie in one pool and have no number in common.
#[derive(Drop)]
struct Chains {
    pool: Pool<Item>,
    first: Chain,
    second: Chain,
}

impl Model for Chains {
    ghost use Rattle.std.specs.Prelude.{ℕ, List};
    ghost use Rattle.hx_pool.specs.Chain.{AreApart, LiesIn};

    ghost Value = { ℕ };

    ghost view = { λ chains. chains.pool.spare };

    ghost invariant = { λ chains. (xs : List ℕ) × (ys : List ℕ)
        × LiesIn (λ item. item.links) chains.pool chains.first xs
        × LiesIn (λ item. item.links) chains.pool chains.second ys × AreApart xs ys };
}

/// The number at the index in the chain, found by walking, or none where the chain ends before it.
fn at_index<L: Ledger>(
    pool: &Pool<Item>,
    chain: &Chain,
    index: usize,
    steps: &mut Steps<L>,
) -> Option<usize>
    requires { (xs : List ℕ) × LiesIn (λ (item : Item). item.links) pool.now chain.now xs }
    ensures { (xs : List ℕ) → LiesIn (λ (item : Item). item.links) pool.now chain.now xs
        → (id : ℕ) → result ≡ Some id
        → (before : List ℕ) × (after : List ℕ) × (xs ≡ before ++ id ∷ after) }
{
    let mut at = chain.front();
    for _passed in 0..index {
        let Some(id) = at else {
            return None;
        };
        at = chain.next(pool, id, steps);
    }
    at
}

impl Chains {
    fn new(alloc: Global) -> Chains {
        Chains {
            pool: Pool::new(alloc),
            first: Chain::new(),
            second: Chain::new(),
        }
    }

    /// Puts an item last in the first chain.
    fn push<L: Ledger>(&mut self, key: u32, steps: &mut Steps<L>) -> Result<(), NoMemory> {
        self.pool.reserve(1)?;
        let id = self.pool.take(Item {
            key,
            links: Links::NONE,
        });
        self.first.push_back(&mut self.pool, id, steps);
        Ok(())
    }

    /// Puts an item before the one at the index of the first chain, if there is one.
    fn insert_before<L: Ledger>(
        &mut self,
        index: usize,
        key: u32,
        steps: &mut Steps<L>,
    ) -> Result<(), NoMemory> {
        let Some(at) = at_index(&self.pool, &self.first, index, steps) else {
            return Ok(());
        };
        self.pool.reserve(1)?;
        let id = self.pool.take(Item {
            key,
            links: Links::NONE,
        });
        self.first.insert_before(&mut self.pool, at, id, steps);
        Ok(())
    }

    /// Takes out the item at the index of the first chain, and answers its key.
    fn unlink<L: Ledger>(&mut self, index: usize, steps: &mut Steps<L>) -> Option<u32> {
        let Some(id) = at_index(&self.pool, &self.first, index, steps) else {
            return None;
        };
        self.first.unlink(&mut self.pool, id, steps);
        Some(self.pool.give(id).key)
    }

    /// Puts the second chain after the first. The second is empty from then on.
    fn append<L: Ledger>(&mut self, steps: &mut Steps<L>) {
        let other = mem::replace(&mut self.second, Chain::new());
        self.first.append(other, &mut self.pool, steps);
    }

    fn swap(&mut self) {
        mem::swap(&mut self.first, &mut self.second);
    }

    /// The keys of the first chain, in its order.
    fn keys<L: Ledger>(&self, alloc: Global, steps: &mut Steps<L>) -> Result<Vec<u32>, AllocError> {
        let mut keys = Vec::new(alloc);
        let mut at = self.first.front();
        for _read in 0..MOST {
            let Some(id) = at else {
                return Ok(keys);
            };
            keys.push(self.pool.get(id, steps).key)?;
            at = self.first.next(&self.pool, id, steps);
        }
        Ok(keys)
    }
}

/// Compares the keys of the first chain, in their order, with these.
fn compare<L: Ledger>(
    comparisons: &mut Comparisons,
    alloc: Global,
    chains: &Chains,
    keys: &[u32],
    steps: &mut Steps<L>,
) -> Result<(), NoMemory> {
    let read = chains.keys(alloc, steps)?;
    comparisons.note(read.as_slice() == keys);
    Ok(())
}

fn middle_out_and_two_behind<L: Ledger>(
    comparisons: &mut Comparisons,
    alloc: Global,
    chains: &mut Chains,
    steps: &mut Steps<L>,
) -> Result<(), NoMemory> {
    chains.push(4, steps)?;
    chains.push(5, steps)?;
    chains.swap();
    for key in 1..=3 {
        chains.push(key, steps)?;
    }
    comparisons.note(chains.unlink(1, steps) == Some(2));
    chains.append(steps);
    compare(comparisons, alloc, chains, &[1, 3, 4, 5], steps)
}

fn before_front_and_middle<L: Ledger>(
    comparisons: &mut Comparisons,
    alloc: Global,
    chains: &mut Chains,
    steps: &mut Steps<L>,
) -> Result<(), NoMemory> {
    chains.insert_before(0, 6, steps)?;
    compare(comparisons, alloc, chains, &[6, 1, 3, 4, 5], steps)?;
    chains.insert_before(2, 7, steps)?;
    chains.insert_before(5, 8, steps)?;
    compare(comparisons, alloc, chains, &[6, 1, 7, 3, 4, 8, 5], steps)
}

fn empty_chains<L: Ledger>(
    comparisons: &mut Comparisons,
    alloc: Global,
    chains: &mut Chains,
    steps: &mut Steps<L>,
) -> Result<(), NoMemory> {
    chains.append(steps);
    compare(comparisons, alloc, chains, &[6, 1, 7, 3, 4, 8, 5], steps)?;
    chains.swap();
    compare(comparisons, alloc, chains, &[], steps)?;
    chains.append(steps);
    compare(comparisons, alloc, chains, &[6, 1, 7, 3, 4, 8, 5], steps)
}

fn first_and_last_out<L: Ledger>(
    comparisons: &mut Comparisons,
    alloc: Global,
    chains: &mut Chains,
    steps: &mut Steps<L>,
) -> Result<(), NoMemory> {
    comparisons.note(chains.unlink(0, steps) == Some(6));
    comparisons.note(chains.unlink(5, steps) == Some(5));
    comparisons.note(chains.unlink(5, steps) == None);
    compare(comparisons, alloc, chains, &[1, 7, 3, 4, 8], steps)
}

/// What the two chains of the pool have to be.
#[derive(Drop)]
struct Lists {
    first: Vec<u32>,
    second: Vec<u32>,
}

/// Makes one of the calls, as `choice` says, and does the same to the lists. The index may lie past
/// the end.
fn call<L: Ledger>(
    comparisons: &mut Comparisons,
    chains: &mut Chains,
    lists: &mut Lists,
    choice: u32,
    index: usize,
    key: u32,
    steps: &mut Steps<L>,
) -> Result<(), NoMemory> {
    let within = index < lists.first.len();
    match choice {
        0 => {
            chains.swap();
            mem::swap(&mut lists.first, &mut lists.second);
        }
        1 => {
            chains.append(steps);
            lists.first.append(&mut lists.second)?;
        }
        2 | 3 => {
            chains.insert_before(index, key, steps)?;
            if index < lists.first.len() {
                lists.first.insert(index, key)?;
            }
        }
        4 => {
            chains.push(key, steps)?;
            lists.first.push(key)?;
        }
        _ => {
            let gone = chains.unlink(index, steps);
            comparisons.note(gone.is_some() == within);
            if index < lists.first.len() {
                comparisons.note(gone == Some(lists.first.remove(index)));
            }
        }
    }
    Ok(())
}

/// Makes that many calls, compares the first chain after each, and answers how many items it had at
/// most.
pub fn chain_calls<L: Ledger>(
    comparisons: &mut Comparisons,
    alloc: Global,
    count: u32,
    steps: &mut Steps<L>,
) -> Result<usize, NoMemory> {
    let mut chains = Chains::new(alloc);
    let mut lists = Lists {
        first: Vec::new(alloc),
        second: Vec::new(alloc),
    };
    let mut number: u32 = 1;
    let mut longest = 0;
    for key in 0..count {
        number = number.wrapping_mul(1_664_525).wrapping_add(1_013_904_223);
        let index = (number >> 8) as usize % 64;
        call(
            comparisons,
            &mut chains,
            &mut lists,
            (number >> 20) % 9,
            index,
            key,
            steps,
        )?;
        longest = longest.max(lists.first.len());
        compare(comparisons, alloc, &chains, lists.first.as_slice(), steps)?;
    }
    Ok(longest)
}

/// Takes items out of two chains, puts others in and joins the chains.
pub fn chains_in_order<L: Ledger>(
    comparisons: &mut Comparisons,
    alloc: Global,
    steps: &mut Steps<L>,
) -> Result<(), NoMemory> {
    let mut chains = Chains::new(alloc);
    middle_out_and_two_behind(comparisons, alloc, &mut chains, steps)?;
    before_front_and_middle(comparisons, alloc, &mut chains, steps)?;
    empty_chains(comparisons, alloc, &mut chains, steps)?;
    first_and_last_out(comparisons, alloc, &mut chains, steps)
}
