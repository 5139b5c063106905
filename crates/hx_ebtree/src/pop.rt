//! Any node is taken out of a tree.
ghost use Rattle.std.specs.Prelude.{◌≡◌, ◌+◌, ◌≤◌, [], ℕ, List, Option, Some, None};
ghost use Rattle.hx_pool.specs.Pool.{get};
ghost use Rattle.hx_pool.specs.Chain.{IsIn, LiesIn};
ghost use Rattle.hx_pool.specs.declared.chain.Chain.{Chain};
ghost use Rattle.hx_ebtree.specs.declared.tree.Tree.{Tree as Other};
ghost use Rattle.hx_ebtree.specs.Node.{links_of};
ghost use Rattle.hx_ebtree.specs.KeyList.{KeyList, IsOff, Lists, without};
ghost use Rattle.hx_ebtree.specs.Tree.{KeepsNodes, Stands};
ghost use Rattle.hx_ebtree.specs.Change.{node_of};

use crate::node::{Down, Node};
use crate::tree::Tree;
use hx_pool::{Pool, Steps};
use std::sync::ledger::Ledger;

/// The node that holds a leaf or a branch.
fn node(down: Down) -> usize
    ensures { result ≡ node_of down }
{
    match down {
        Down::Leaf(id) => id,
        Down::Branch(id) => id,
    }
}

impl Tree {
    /// Takes one node out of the tree and answers its number, or none where the tree has no nodes.
    /// At most sixteen steps, and none where it has no nodes.
    pub fn pop_any<V, L: Ledger>(
        &mut self,
        pool: &mut Pool<Node<V>>,
        steps: &mut Steps<L>,
    ) -> Option<usize>
        requires { (pairs : KeyList) × Stands pool.old self.old pairs }
        ensures none { (pairs : KeyList) → Stands pool.old self.old pairs → result ≡ None
            → (pairs ≡ []) × Stands pool.new self.new [] }
        ensures some { (pairs : KeyList) (id : ℕ)
            → Stands pool.old self.old pairs → result ≡ Some id
            → Lists pairs id × Stands pool.new self.new (without id pairs) }
        ensures kept { KeepsNodes pool.old pool.new }
        ensures others { (pairs : KeyList) → Stands pool.old self.old pairs
            → (k : ℕ) → IsOff k pairs → get pool.new k ≡ get pool.old k }
        ensures other_trees { (pairs others : KeyList) (t : Other) → Stands pool.old self.old pairs
            → Stands pool.old t others → ((k : ℕ) → Lists others k → IsOff k pairs)
            → Stands pool.new t others }
        ensures chains { (pairs : KeyList) (c : Chain) (xs : List ℕ)
            → Stands pool.old self.old pairs → LiesIn links_of pool.old c xs
            → ((k : ℕ) → IsIn k xs → IsOff k pairs) → LiesIn links_of pool.new c xs }
        ensures cost { steps.new ≤ steps.old + 16 }
        ensures free { result ≡ None → steps.new ≡ steps.old }
    {
        match self.root {
            Some(down) => {
                let id = node(down);
                self.remove_first(pool, id, steps);
                Some(id)
            }
            None => None,
        }
    }
}
