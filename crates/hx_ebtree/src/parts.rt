//! Single changes of the parts in the slots.
ghost use Rattle.std.specs.Prelude.{◌≡◌, ◌≢◌, ◌+◌, ◌≤◌, ℕ, Option};
ghost use Rattle.std.specs.Option.{option_map};
ghost use Rattle.hx_pool.specs.Pool.{get, IsLive};
ghost use Rattle.hx_ebtree.specs.Tree.{leaves_of, forks_of, KeepsNodes};
ghost use Rattle.hx_ebtree.specs.Change.{node_of, with_up, with_side, SetsUp, SetsBranch, TakesChain, PutsChain, SetsFirst};

use crate::node::{Branch, Down, Node, Up};
use hx_pool::{Chain, Pool, Steps};
use std::mem;
use std::sync::ledger::Ledger;

/// The branch, hung at `up`.
fn branch_up(branch: Option<Branch>, up: Option<Up>) -> Option<Branch>
    ensures { result ≡ option_map (with_up up) branch }
{
    match branch {
        Some(b) => Some(Branch {
            bit: b.bit,
            left: b.left,
            right: b.right,
            up,
        }),
        None => None,
    }
}

/// The branch with `down` on a side.
pub(crate) fn branch_side(branch: Option<Branch>, right: bool, down: Down) -> Option<Branch>
    ensures { result ≡ option_map (with_side right down) branch }
{
    match branch {
        Some(b) => {
            if right {
                Some(Branch {
                    bit: b.bit,
                    left: b.left,
                    right: down,
                    up: b.up,
                })
            } else {
                Some(Branch {
                    bit: b.bit,
                    left: down,
                    right: b.right,
                    up: b.up,
                })
            }
        }
        None => None,
    }
}

/// Hangs what `down` points to at `up`.
#[tactic(auto, using(crate::proofs::NodeLemmas::kept_with))]
pub(crate) fn set_up<V, L: Ledger>(
    pool: &mut Pool<Node<V>>,
    down: Down,
    up: Option<Up>,
    steps: &mut Steps<L>,
)
    requires { IsLive pool.old (node_of down) }
    ensures parts { SetsUp (leaves_of pool.old) (forks_of pool.old)
        (leaves_of pool.new) (forks_of pool.new) down up }
    ensures kept { KeepsNodes pool.old pool.new }
    ensures others { (k : ℕ) → k ≢ node_of down → get pool.new k ≡ get pool.old k }
    ensures cost { steps.new ≤ steps.old + 1 }
{
    match down {
        Down::Leaf(id) => {
            let node = pool.get_mut(id, steps);
            node.leaf_up = up;
        }
        Down::Branch(id) => {
            let node = pool.get_mut(id, steps);
            node.branch = branch_up(node.branch, up);
        }
    }
}

/// Gives the node this branch part.
#[tactic(auto, using(crate::proofs::NodeLemmas::kept_with))]
pub(crate) fn set_branch<V, L: Ledger>(
    pool: &mut Pool<Node<V>>,
    id: usize,
    branch: Option<Branch>,
    steps: &mut Steps<L>,
)
    requires { IsLive pool.old id }
    ensures parts { SetsBranch (leaves_of pool.old) (forks_of pool.old)
        (leaves_of pool.new) (forks_of pool.new) id branch }
    ensures kept { KeepsNodes pool.old pool.new }
    ensures others { (k : ℕ) → k ≢ id → get pool.new k ≡ get pool.old k }
    ensures cost { steps.new ≤ steps.old + 1 }
{
    let node = pool.get_mut(id, steps);
    node.branch = branch;
}

/// Takes the chain out of a node.
#[tactic(auto, using(crate::proofs::NodeLemmas::kept_with))]
pub(crate) fn take_chain<V, L: Ledger>(
    pool: &mut Pool<Node<V>>,
    id: usize,
    steps: &mut Steps<L>,
) -> Chain
    requires { IsLive pool.old id }
    ensures parts { TakesChain (leaves_of pool.old) (forks_of pool.old)
        (leaves_of pool.new) (forks_of pool.new) id result }
    ensures kept { KeepsNodes pool.old pool.new }
    ensures others { (k : ℕ) → k ≢ id → get pool.new k ≡ get pool.old k }
    ensures cost { steps.new ≤ steps.old + 1 }
{
    let node = pool.get_mut(id, steps);
    mem::replace(&mut node.chain, Chain::new())
}

/// Puts a chain into a node.
#[tactic(auto, using(crate::proofs::NodeLemmas::kept_with))]
pub(crate) fn put_chain<V, L: Ledger>(
    pool: &mut Pool<Node<V>>,
    id: usize,
    chain: Chain,
    steps: &mut Steps<L>,
)
    requires { IsLive pool.old id }
    ensures parts { PutsChain (leaves_of pool.old) (forks_of pool.old)
        (leaves_of pool.new) (forks_of pool.new) id chain }
    ensures kept { KeepsNodes pool.old pool.new }
    ensures others { (k : ℕ) → k ≢ id → get pool.new k ≡ get pool.old k }
    ensures cost { steps.new ≤ steps.old + 1 }
{
    let node = pool.get_mut(id, steps);
    node.chain = chain;
}

/// Puts a chain into a node, and hangs its leaf at `up`.
#[tactic(auto, using(crate::proofs::NodeLemmas::kept_with))]
pub(crate) fn set_first<V, L: Ledger>(
    pool: &mut Pool<Node<V>>,
    id: usize,
    chain: Chain,
    up: Option<Up>,
    steps: &mut Steps<L>,
)
    requires { IsLive pool.old id }
    ensures parts { SetsFirst (leaves_of pool.old) (forks_of pool.old)
        (leaves_of pool.new) (forks_of pool.new) id chain up }
    ensures kept { KeepsNodes pool.old pool.new }
    ensures others { (k : ℕ) → k ≢ id → get pool.new k ≡ get pool.old k }
    ensures cost { steps.new ≤ steps.old + 1 }
{
    let node = pool.get_mut(id, steps);
    node.chain = chain;
    node.leaf_up = up;
}
