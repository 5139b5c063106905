//! The way down to a key.
ghost use Rattle.std.specs.Prelude.{◌≡◌, ◌+◌, ◌*◌, ◌<◌, ◌≤◌, List, Bool, ℕ, None, length};
ghost use Rattle.std.specs.Option.{ForSome};
ghost use Rattle.hx_ebtree.specs.Bits.{bits_of};
ghost use Rattle.hx_ebtree.specs.KeyList.{KeyList};
ghost use Rattle.hx_ebtree.specs.Tree.{leaves_of, forks_of, Stands};
ghost use Rattle.hx_ebtree.specs.Seat.{side_of, leaf_seat_of, IsSeat};

use crate::bits::{code_bit, split, split_before};
use crate::node::{Branch, Down, Node, Up};
use crate::tree::Tree;
use hx_pool::{Pool, Steps};
use std::sync::ledger::Ledger;

/// Where a key is, or where it goes.
pub(crate) enum Seat {
    /// The leaf of the key, by its first node.
    Same(usize),
    /// A new branch between `up` and what is at `at`: the codes part at `bit`, and the key's own
    /// leaf goes to this side.
    Beside {
        at: Down,
        up: Option<Up>,
        bit: u128,
        right: bool,
    },
}

/// What a side of a branch points to.
pub(crate) fn side(branch: &Branch, right: bool) -> Down
    ensures { result ≡ side_of right branch.now }
{
    if right { branch.right } else { branch.left }
}

/// The seat at a leaf, by where the key's code parts from the leaf's.
fn leaf_seat(key: &[u8], bits: usize, id: usize, up: Option<Up>, found: Option<u128>) -> Seat
    requires bits { bits ≤ 8 * length key.now }
    requires found { ForSome found (λ at. at < 2 * bits + 1) }
    ensures { result ≡ leaf_seat_of (bits_of key.now bits) id up found }
{
    match found {
        Some(bit) => Seat::Beside {
            at: Down::Leaf(id),
            up,
            bit,
            right: code_bit(key, bits, bit),
        },
        None => Seat::Same(id),
    }
}

impl Tree {
    /// Goes down to where the key is, or where it goes. At most two steps for each bit, and two
    /// more.
    pub(crate) fn seek<V, L: Ledger>(
        &self,
        pool: &Pool<Node<V>>,
        key: &[u8],
        bits: usize,
        steps: &mut Steps<L>,
    ) -> Option<Seat>
        requires bits { bits ≤ 8 * length key.now }
        requires stands { (pairs : KeyList) × Stands pool.now self.now pairs }
        ensures seat { (pairs : KeyList) → Stands pool.now self.now pairs
            → IsSeat (leaves_of pool.now) (forks_of pool.now) self.now.root pairs
            (bits_of key.now bits) result }
        ensures cost { steps.new ≤ steps.old + 2 * bits + 2 }
    {
        let mut at = match self.root {
            Some(down) => down,
            None => return None,
        };
        let mut up = None;
        let mut depth = 0;
        loop {
            match at {
                Down::Leaf(id) => {
                    let node = pool.get(id, steps);
                    let from = (depth / 2) as usize;
                    let found = split(key, bits, node.key.bytes(), node.key.len(), from);
                    return Some(leaf_seat(key, bits, id, up, found));
                }
                Down::Branch(id) => {
                    let node = pool.get(id, steps);
                    let branch = match node.branch {
                        Some(branch) => branch,
                        None => unreachable!(),
                    };
                    let limit = u128::from(branch.bit);
                    let from = (depth / 2) as usize;
                    let found = split_before(
                        key,
                        bits,
                        node.key.bytes(),
                        node.key.len(),
                        from,
                        limit,
                    );
                    match found {
                        Some(bit) => {
                            let right = code_bit(key, bits, bit);
                            return Some(Seat::Beside { at, up, bit, right });
                        }
                        None => {
                            let right = code_bit(key, bits, limit);
                            up = Some(Up { node: id, right });
                            at = side(&branch, right);
                            depth = limit + 1;
                        }
                    }
                }
            }
        }
    }
}
