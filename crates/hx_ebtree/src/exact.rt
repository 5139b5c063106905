//! The nodes of a key.
ghost use Rattle.std.specs.Prelude.{◌≡◌, ◌+◌, ◌*◌, ◌≤◌, length};
ghost use Rattle.hx_ebtree.specs.Bits.{bits_of};
ghost use Rattle.hx_ebtree.specs.KeyList.{KeyList, exact_of, is_same_key};
ghost use Rattle.hx_ebtree.specs.Tree.{Stands};

use crate::bits::{code_bit, split};
use crate::node::{Down, Node};
use crate::seek::side;
use crate::tree::Tree;
use hx_pool::{Pool, Steps};
use std::sync::ledger::Ledger;

/// Whether two keys, each the first bits of its bytes, are the same.
fn same_key(a: &[u8], a_bits: usize, b: &[u8], b_bits: usize) -> bool
    requires a { a_bits ≤ 8 * length a.now }
    requires b { b_bits ≤ 8 * length b.now }
    ensures { result ≡ is_same_key (bits_of a.now a_bits) (bits_of b.now b_bits) }
{
    a_bits == b_bits && split(a, a_bits, b, b_bits, 0).is_none()
}

impl Tree {
    /// The oldest node whose key is the first `bits` bits of `key`, or none where no node has that
    /// key. At most two steps for each bit, and two more.
    pub fn exact<V, L: Ledger>(
        &self,
        pool: &Pool<Node<V>>,
        key: &[u8],
        bits: usize,
        steps: &mut Steps<L>,
    ) -> Option<usize>
        requires bits { bits ≤ 8 * length key.now }
        requires stands { (pairs : KeyList) × Stands pool.now self.now pairs }
        ensures found { (pairs : KeyList) → Stands pool.now self.now pairs
            → result ≡ exact_of pairs (bits_of key.now bits) }
        ensures cost { steps.new ≤ steps.old + 2 * bits + 2 }
    {
        let mut at = match self.root {
            Some(down) => down,
            None => return None,
        };
        // No key is read on the way: a leaf that has another key is not that of this one, and all
        // branches lead away from the leaves that can't have it.
        let mut depth = 0;
        loop {
            match at {
                Down::Leaf(id) => {
                    let node = pool.get(id, steps);
                    if same_key(node.key.bytes(), node.key.len(), key, bits) {
                        return Some(id);
                    }
                    return None;
                }
                Down::Branch(id) => {
                    let node = pool.get(id, steps);
                    let branch = match &node.branch {
                        Some(branch) => branch,
                        None => unreachable!(),
                    };
                    let limit = u128::from(branch.bit);
                    if limit > bits as u128 * 2 {
                        return None;
                    }
                    at = side(branch, code_bit(key, bits, limit));
                    depth = limit + 1;
                }
            }
        }
    }
}
