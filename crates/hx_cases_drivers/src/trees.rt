//! A tree and its pool, beside a list that is scanned.
ghost use Rattle.std.specs.Prelude.{◌*◌, ◌≤◌, length};

use crate::comparisons::Comparisons;
use hx_ebtree::{BitKey, Node, Tree};
use hx_pool::{Pool, Steps};
use hx_text::NoMemory;
use std::alloc::Global;
use std::marker::Model;
use std::sync::ledger::Ledger;

/// A tree and its pool. It stands there for some list.
#[derive(Drop)]
struct Entries {
    pool: Pool<Node<u8>>,
    tree: Tree,
}

impl Model for Entries {
    ghost use Rattle.std.specs.Prelude.{ℕ};
    ghost use Rattle.hx_ebtree.specs.KeyList.{KeyList};
    ghost use Rattle.hx_ebtree.specs.Tree.{Stands};

    ghost Value = { ℕ };

    ghost view = { λ entries. entries.pool.spare };

    ghost invariant = { λ entries. (pairs : KeyList) × Stands entries.pool entries.tree pairs };
}

impl Entries {
    fn new(alloc: Global) -> Entries {
        Entries {
            pool: Pool::new(alloc),
            tree: Tree::new(),
        }
    }

    /// Puts a node in, and answers its number.
    fn add<L: Ledger>(
        &mut self,
        alloc: Global,
        bytes: &[u8],
        bits: usize,
        steps: &mut Steps<L>,
    ) -> Result<usize, NoMemory>
        requires { bits ≤ 8 * length bytes.now }
    {
        let key = BitKey::new(alloc, bytes, bits)?;
        self.pool.reserve(1)?;
        let id = self.pool.take(Node::new(key, 0, 0));
        self.tree.insert(&mut self.pool, id, steps);
        Ok(id)
    }

    /// Takes out the oldest node of a key, and answers its number.
    fn take_out<L: Ledger>(
        &mut self,
        bytes: &[u8],
        bits: usize,
        steps: &mut Steps<L>,
    ) -> Option<usize>
        requires { bits ≤ 8 * length bytes.now }
    {
        match self.tree.exact(&self.pool, bytes, bits, steps) {
            Some(id) => {
                self.tree.remove(&mut self.pool, id, steps);
                let _node = self.pool.give(id);
                Some(id)
            }
            None => None,
        }
    }

    /// Puts a node in, after the others of its key, and takes it out again.
    fn add_and_take_out<L: Ledger>(
        &mut self,
        alloc: Global,
        bytes: &[u8],
        bits: usize,
        steps: &mut Steps<L>,
    ) -> Result<(), NoMemory>
        requires { bits ≤ 8 * length bytes.now }
    {
        let key = BitKey::new(alloc, bytes, bits)?;
        self.pool.reserve(1)?;
        let id = self.pool.take(Node::new(key, 0, 0));
        self.tree.insert(&mut self.pool, id, steps);
        self.tree.remove(&mut self.pool, id, steps);
        let _node = self.pool.give(id);
        Ok(())
    }

    /// Takes out any node, and answers its number.
    fn pop<L: Ledger>(&mut self, steps: &mut Steps<L>) -> Option<usize> {
        match self.tree.pop_any(&mut self.pool, steps) {
            Some(id) => {
                let _node = self.pool.give(id);
                Some(id)
            }
            None => None,
        }
    }

    fn exact<L: Ledger>(&self, bytes: &[u8], bits: usize, steps: &mut Steps<L>) -> Option<usize>
        requires { bits ≤ 8 * length bytes.now }
    {
        self.tree.exact(&self.pool, bytes, bits, steps)
    }

    fn longest<L: Ledger>(&self, bytes: &[u8], bits: usize, steps: &mut Steps<L>) -> Option<usize>
        requires { bits ≤ 8 * length bytes.now }
    {
        self.tree.longest(&self.pool, bytes, bits, steps)
    }
}

/// A key of at most 32 bits, the highest bits of `word`, with the number of its node.
#[derive(Clone, Copy, Drop)]
struct Listed {
    word: u32,
    bits: u32,
    id: usize,
}

/// The numbers of the oldest node with the key, and of the oldest of the longest prefixes of it.
fn scanned(list: &[Listed], word: u32, bits: u32) -> (Option<usize>, Option<usize>) {
    let mut exact = None;
    let mut longest = None;
    let mut longest_bits = 0;
    for item in list {
        if item.bits <= bits && (item.word ^ word).leading_zeros() >= item.bits {
            if item.bits == bits && exact.is_none() {
                exact = Some(item.id);
            }
            if longest.is_none() || item.bits > longest_bits {
                longest = Some(item.id);
                longest_bits = item.bits;
            }
        }
    }
    (exact, longest)
}

/// The next number of a fixed row of numbers.
fn next(seed: u32) -> u32 {
    seed.wrapping_mul(1_664_525).wrapping_add(1_013_904_223)
}

/// Finds nodes by their keys and by prefixes of them, beside equal keys and, in the end, so many
/// others of 32 bits.
pub fn prefixes_and_equal_keys<L: Ledger>(
    comparisons: &mut Comparisons,
    alloc: Global,
    count: u32,
    steps: &mut Steps<L>,
) -> Result<(), NoMemory> {
    let mut entries = Entries::new(alloc);
    let empty = entries.add(alloc, b"", 0, steps)?;
    let a = entries.add(alloc, b"a", 8, steps)?;
    let ab = entries.add(alloc, b"ab", 16, steps)?;
    let again = entries.add(alloc, b"a", 8, steps)?;
    comparisons.note(again != a);
    comparisons.note(entries.longest(b"abc", 24, steps) == Some(ab));
    comparisons.note(entries.exact(b"a", 8, steps) == Some(a));
    comparisons.note(entries.longest(b"b", 8, steps) == Some(empty));
    comparisons.note(entries.exact(b"abc", 24, steps) == None);
    comparisons.note(entries.take_out(b"a", 8, steps) == Some(a));
    comparisons.note(entries.exact(b"a", 8, steps) == Some(again));
    comparisons.note(entries.take_out(b"a", 8, steps) == Some(again));
    comparisons.note(entries.take_out(b"", 0, steps) == Some(empty));
    comparisons.note(entries.longest(b"a", 8, steps) == None);
    comparisons.note(entries.longest(b"ab", 16, steps) == Some(ab));
    let four = entries.add(alloc, b"\x0a", 4, steps)?;
    let eight = entries.add(alloc, b"\x0a", 8, steps)?;
    comparisons.note(entries.longest(b"\x0a", 8, steps) == Some(eight));
    comparisons.note(entries.longest(b"\x0b", 8, steps) == Some(four));
    for number in 0..count {
        let word = number.wrapping_add(0x8000_0000);
        entries.add(alloc, &word.to_be_bytes(), 32, steps)?;
    }
    comparisons.note(entries.longest(b"abc", 24, steps) == Some(ab));
    Ok(())
}

/// Puts in seven keys of up to 70,000 bytes, each a prefix of the next, and takes them out.
pub fn long_keys<L: Ledger>(
    comparisons: &mut Comparisons,
    alloc: Global,
    steps: &mut Steps<L>,
) -> Result<(), NoMemory> {
    let mut entries = Entries::new(alloc);
    for count in 1..=7_usize {
        let bytes = vec![in alloc; b'x'; count * 10_000]?;
        let bits = count * 80_000;
        let id = entries.add(alloc, bytes.as_slice(), bits, steps)?;
        comparisons.note(entries.exact(bytes.as_slice(), bits, steps) == Some(id));
        comparisons.note(entries.longest(bytes.as_slice(), bits, steps) == Some(id));
        entries.add_and_take_out(alloc, bytes.as_slice(), bits, steps)?;
        comparisons.note(entries.exact(bytes.as_slice(), bits, steps) == Some(id));
    }
    emptied(comparisons, &mut entries, 7, steps);
    Ok(())
}

/// Puts in that many keys, with a search of tree and list before each, takes out some, and answers
/// how many were in the list at most.
pub fn tree_calls<L: Ledger>(
    comparisons: &mut Comparisons,
    alloc: Global,
    count: u64,
    steps: &mut Steps<L>,
) -> Result<usize, NoMemory> {
    let mut entries = Entries::new(alloc);
    let mut list: Vec<Listed> = Vec::new(alloc);
    let mut seed = 1;
    let mut most = 0;
    let mut highest = 0;
    for _ in 0..count {
        seed = next(seed);
        let word = seed;
        seed = next(seed);
        let bits = (seed >> 16) % 15;
        let (exact, longest) = scanned(list.as_slice(), word, bits);
        comparisons.note(entries.exact(&word.to_be_bytes(), bits as usize, steps) == exact);
        comparisons.note(entries.longest(&word.to_be_bytes(), bits as usize, steps) == longest);
        let id = entries.add(alloc, &word.to_be_bytes(), bits as usize, steps)?;
        list.push(Listed { word, bits, id })?;
        most = most.max(list.len());
        highest = highest.max(id);
        entries.add_and_take_out(alloc, &seed.to_be_bytes(), bits as usize, steps)?;
        if seed & 0x3000_0000 == 0 {
            list = taken_out(
                comparisons,
                alloc,
                &mut entries,
                list.as_slice(),
                seed,
                steps,
            )?;
        }
    }
    // One more node than the list has was in the tree at once, so slots were used again.
    comparisons.note(highest <= most);
    emptied(comparisons, &mut entries, list.len(), steps);
    Ok(most)
}

/// Takes out all nodes, of which there are `count`.
fn emptied<L: Ledger>(
    comparisons: &mut Comparisons,
    entries: &mut Entries,
    count: usize,
    steps: &mut Steps<L>,
) {
    for _ in 0..count {
        comparisons.note(entries.pop(steps).is_some());
    }
    comparisons.note(entries.pop(steps) == None);
}

/// Takes out the oldest node of one of the keys, and answers the list without it.
fn taken_out<L: Ledger>(
    comparisons: &mut Comparisons,
    alloc: Global,
    entries: &mut Entries,
    list: &[Listed],
    seed: u32,
    steps: &mut Steps<L>,
) -> Result<Vec<Listed>, NoMemory> {
    let mut rest = Vec::new(alloc);
    let mut gone = None;
    if !list.is_empty() {
        let item = list[(seed >> 8) as usize % list.len()];
        let bits = item.bits.min(32);
        gone = scanned(list, item.word, bits).0;
        comparisons.note(gone.is_some());
        comparisons.note(entries.take_out(&item.word.to_be_bytes(), bits as usize, steps) == gone);
    }
    for item in list {
        if Some(item.id) != gone {
            rest.push(*item)?;
        }
    }
    Ok(rest)
}
