//! The longest prefix of a key.
ghost use Rattle.std.specs.Prelude.{◌≡◌, ◌+◌, ◌*◌, ◌≤◌, length};
ghost use Rattle.hx_ebtree.specs.Bits.{bits_of};
ghost use Rattle.hx_ebtree.specs.KeyList.{KeyList, longest_of};
ghost use Rattle.hx_ebtree.specs.Tree.{leaves_of, forks_of, Stands};
ghost use Rattle.hx_ebtree.specs.Seat.{side_of, ending_of, leaf_longest_of};

use crate::bits::{code_bit, split, split_before};
use crate::node::{Branch, Down, Node};
use crate::seek::side;
use crate::tree::Tree;
use hx_pool::{Pool, Steps};
use std::sync::ledger::Ledger;

/// The leaf whose key ends at a branch, where the search passes it: it goes right at a bit that
/// says whether the key ends, and the leaf is on the left.
fn ending(branch: &Branch, right: bool) -> Option<usize>
    ensures { result ≡ ending_of right branch.now }
{
    if right && branch.bit % 2 == 0 {
        match branch.left {
            Down::Leaf(id) => Some(id),
            Down::Branch(_) => None,
        }
    } else {
        None
    }
}

/// The number of the leaf at which the search ends, if its key is a prefix, or the best before.
fn leaf_longest(id: usize, len: usize, found: Option<u128>, best: Option<usize>) -> Option<usize>
    ensures { result ≡ leaf_longest_of id len found best }
{
    match found {
        Some(at) => {
            if at == len as u128 * 2 {
                Some(id)
            } else {
                best
            }
        }
        None => Some(id),
    }
}

impl Tree {
    /// The oldest node of those with the longest key that is a prefix of the first `bits` bits of
    /// `key`, or none where no node has such a key. At most two steps for each bit, and two more.
    pub fn longest<V, L: Ledger>(
        &self,
        pool: &Pool<Node<V>>,
        key: &[u8],
        bits: usize,
        steps: &mut Steps<L>,
    ) -> Option<usize>
        requires bits { bits ≤ 8 * length key.now }
        requires stands { (pairs : KeyList) × Stands pool.now self.now pairs }
        ensures found { (pairs : KeyList) → Stands pool.now self.now pairs
            → result ≡ longest_of pairs (bits_of key.now bits) }
        ensures cost { steps.new ≤ steps.old + 2 * bits + 2 }
    {
        let mut at = match self.root {
            Some(down) => down,
            None => return None,
        };
        // A key is read where one that ends may be a prefix, and at the end. It is compared from
        // the bit up to which the last one agreed.
        let mut best = None;
        let mut checked = 0;
        let mut depth = 0;
        loop {
            match at {
                Down::Leaf(id) => {
                    let node = pool.get(id, steps);
                    let from = (checked / 2) as usize;
                    let found = split(node.key.bytes(), node.key.len(), key, bits, from);
                    return leaf_longest(id, node.key.len(), found, best);
                }
                Down::Branch(id) => {
                    let node = pool.get(id, steps);
                    let branch = match &node.branch {
                        Some(branch) => branch,
                        None => unreachable!(),
                    };
                    let limit = u128::from(branch.bit);
                    if limit > bits as u128 * 2 {
                        return best;
                    }
                    let right = code_bit(key, bits, limit);
                    match ending(branch, right) {
                        None => {
                            at = side(branch, right);
                            depth = limit + 1;
                        }
                        Some(front) => {
                            let (bytes, len) = (node.key.bytes(), node.key.len());
                            let from = (checked / 2) as usize;
                            match split_before(key, bits, bytes, len, from, limit) {
                                Some(_) => return best,
                                None => {
                                    best = Some(front);
                                    at = branch.right;
                                    depth = limit + 1;
                                    checked = depth;
                                }
                            }
                        }
                    }
                }
            }
        }
    }
}
