//! A node is put into a tree.
ghost use Rattle.std.specs.Prelude.{◌≡◌, ◌≢◌, ◌+◌, ◌*◌, ◌≤◌, ◌++◌, length, [], ◌∷◌, ℕ, List, Option, Some};
ghost use Rattle.std.specs.Option.{ForSome};
ghost use Rattle.hx_pool.specs.Pool.{get, IsLive};
ghost use Rattle.hx_pool.specs.Chain.{IsIn, LiesAt, LiesIn};
ghost use Rattle.hx_pool.specs.declared.chain.Chain.{Chain as Links};
ghost use Rattle.hx_ebtree.specs.declared.node.Node.{Node as Entry};
ghost use Rattle.hx_ebtree.specs.declared.tree.Tree.{Tree as Other};
ghost use Rattle.hx_ebtree.specs.declared.node.Up.{Up as Place};
ghost use Rattle.hx_ebtree.specs.Node.{key_of, links_of};
ghost use Rattle.hx_ebtree.specs.KeyList.{KeyList, IsOff, Lists};
ghost use Rattle.hx_ebtree.specs.Shape.{LeafPart, links_in};
ghost use Rattle.hx_ebtree.specs.Tree.{leaves_of, forks_of, KeepsNodes, Stands};
ghost use Rattle.hx_ebtree.specs.Change.{node_of, fork_of, SetsLeaf, PutsLeaf, Pushes, PutsFork};

use crate::node::{Branch, Down, Node, Up};
use crate::parts::{put_chain, set_branch, set_up, take_chain};
use crate::seek::Seat;
use crate::tree::Tree;
use hx_pool::{Chain, Pool, Steps};
use std::sync::ledger::Ledger;

/// Gives a node a chain, a place for its leaf, and a branch part.
#[tactic(auto, using(crate::proofs::NodeLemmas::kept_with))]
fn set_leaf<V, L: Ledger>(
    pool: &mut Pool<Node<V>>,
    id: usize,
    chain: Chain,
    up: Option<Up>,
    branch: Option<Branch>,
    steps: &mut Steps<L>,
)
    requires { IsLive pool.old id }
    ensures parts { SetsLeaf (leaves_of pool.old) (forks_of pool.old)
        (leaves_of pool.new) (forks_of pool.new) id chain up branch }
    ensures kept { KeepsNodes pool.old pool.new }
    ensures others { (k : ℕ) → k ≢ id → get pool.new k ≡ get pool.old k }
    ensures cost { steps.new ≤ steps.old + 1 }
{
    let node = pool.get_mut(id, steps);
    node.chain = chain;
    node.leaf_up = up;
    node.branch = branch;
}

/// Makes a node a leaf of its own, with this branch part.
fn put_leaf<V, L: Ledger>(
    pool: &mut Pool<Node<V>>,
    id: usize,
    up: Option<Up>,
    branch: Option<Branch>,
    steps: &mut Steps<L>,
)
    requires { IsLive pool.old id }
    ensures parts { PutsLeaf (leaves_of pool.old) (forks_of pool.old)
        (leaves_of pool.new) (forks_of pool.new) id up branch }
    ensures kept { KeepsNodes pool.old pool.new }
    ensures others { (k : ℕ) → k ≢ id → get pool.new k ≡ get pool.old k }
    ensures cost { steps.new ≤ steps.old + 4 }
{
    let mut chain = Chain::new();
    chain.push_back(pool, id, steps);
    set_leaf(pool, id, chain, up, branch, steps);
}

/// Puts a node after the others of its key, of which the first keeps the chain.
fn push_same<V, L: Ledger>(pool: &mut Pool<Node<V>>, front: usize, id: usize, steps: &mut Steps<L>)
    requires live { IsLive pool.old id }
    requires lies { (part : LeafPart) × (more : List ℕ) × (leaves_of pool.old front ≡ Some part)
        × LiesAt (links_in (leaves_of pool.old)) part.chain (front ∷ more)
        × (IsIn id (front ∷ more) → ⊥) }
    ensures parts { Pushes (leaves_of pool.old) (forks_of pool.old)
        (leaves_of pool.new) (forks_of pool.new) front id }
    ensures kept { KeepsNodes pool.old pool.new }
    ensures others { (part : LeafPart) (more : List ℕ) → leaves_of pool.old front ≡ Some part
        → LiesAt (links_in (leaves_of pool.old)) part.chain (front ∷ more)
        → (k : ℕ) → (IsIn k (front ∷ more) → ⊥) → k ≢ id → get pool.new k ≡ get pool.old k }
    ensures cost { steps.new ≤ steps.old + 6 }
{
    let mut chain = take_chain(pool, front, steps);
    chain.push_back(pool, id, steps);
    put_chain(pool, front, chain, steps);
    set_branch(pool, id, None, steps);
}

/// The branch part of a node whose leaf is on one side, with `at` on the other.
fn fork(id: usize, at: Down, up: Option<Up>, bit: u64, right: bool) -> Branch
    ensures { result ≡ fork_of id at up bit right }
{
    if right {
        Branch {
            bit,
            left: at,
            right: Down::Leaf(id),
            up,
        }
    } else {
        Branch {
            bit,
            left: Down::Leaf(id),
            right: at,
            up,
        }
    }
}

impl Tree {
    /// Puts a node's leaf and its branch part between `up` and what is at `at`.
    fn put_fork<V, L: Ledger>(
        &mut self,
        pool: &mut Pool<Node<V>>,
        id: usize,
        at: Down,
        up: Option<Up>,
        bit: u64,
        right: bool,
        steps: &mut Steps<L>,
    )
        requires live { IsLive pool.old id }
        requires at { IsLive pool.old (node_of at) }
        requires up { ForSome up (λ u. IsLive pool.old u.node) }
        ensures parts { PutsFork (leaves_of pool.old) (forks_of pool.old) self.old.root
            (leaves_of pool.new) (forks_of pool.new) self.new.root id at up bit right }
        ensures kept { KeepsNodes pool.old pool.new }
        ensures others { (k : ℕ) → k ≢ id → k ≢ node_of at
            → ((u : Place) → up ≡ Some u → u.node ≢ k) → get pool.new k ≡ get pool.old k }
        ensures cost { steps.new ≤ steps.old + 6 }
    {
        let branch = fork(id, at, up, bit, right);
        put_leaf(pool, id, Some(Up { node: id, right }), Some(branch), steps);
        set_up(
            pool,
            at,
            Some(Up {
                node: id,
                right: !right,
            }),
            steps,
        );
        self.set_down(pool, up, Down::Branch(id), steps);
    }

    /// Puts the node `id`, which is live and not in this tree, after the others of its key. At most
    /// two steps for each bit of the key, and nine more.
    pub fn insert<V, L: Ledger>(
        &mut self,
        pool: &mut Pool<Node<V>>,
        id: usize,
        steps: &mut Steps<L>,
    )
        requires live { IsLive pool.old id }
        requires stands { (pairs : KeyList) × Stands pool.old self.old pairs × IsOff id pairs }
        ensures stands { (pairs : KeyList) (node : Entry V) → Stands pool.old self.old pairs
            → IsOff id pairs → get pool.old id ≡ Some node
            → Stands pool.new self.new (pairs ++ (key_of node, id) ∷ []) }
        ensures kept { KeepsNodes pool.old pool.new }
        ensures others { (pairs : KeyList) → Stands pool.old self.old pairs → IsOff id pairs
            → (k : ℕ) → IsOff k pairs → k ≢ id → get pool.new k ≡ get pool.old k }
        ensures other_trees { (pairs others : KeyList) (t : Other) → Stands pool.old self.old pairs
            → IsOff id pairs → Stands pool.old t others
            → ((k : ℕ) → Lists others k → IsOff k pairs × (k ≢ id)) → Stands pool.new t others }
        ensures chains { (pairs : KeyList) (c : Links) (xs : List ℕ)
            → Stands pool.old self.old pairs → IsOff id pairs → LiesIn links_of pool.old c xs
            → ((k : ℕ) → IsIn k xs → IsOff k pairs × (k ≢ id)) → LiesIn links_of pool.new c xs }
        ensures cost { (node : Entry V) → get pool.old id ≡ Some node
            → steps.new ≤ steps.old + 2 * length (key_of node) + 9 }
    {
        let node = pool.get(id, steps);
        match self.seek(pool, node.key.bytes(), node.key.len(), steps) {
            None => {
                put_leaf(pool, id, None, None, steps);
                self.root = Some(Down::Leaf(id));
            }
            Some(Seat::Same(front)) => push_same(pool, front, id, steps),
            Some(Seat::Beside { at, up, bit, right }) => {
                self.put_fork(pool, id, at, up, bit as u64, right, steps)
            }
        }
    }
}
