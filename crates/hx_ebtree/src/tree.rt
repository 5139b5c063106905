ghost use Rattle.std.specs.Prelude.{◌≡◌, ◌+◌, ◌++◌, [], ◌∷◌, ℕ, Bool, List, None};
ghost use Rattle.hx_pool.specs.Chain.{first_or};
ghost use Rattle.hx_ebtree.specs.KeyList.{KeyList, numbers_of, Lists};
ghost use Rattle.hx_ebtree.specs.Shape.{Leaves, Forks};
ghost use Rattle.hx_ebtree.specs.Tree.{Stands, StandsIn};

use crate::node::{Down, Node};
use hx_pool::{Linked, Pool, Steps};
use std::sync::ledger::Ledger;

/// A tree of nodes of one pool. What it stands for is said together with the pool. No call takes
/// memory.
#[derive(Drop)]
pub struct Tree {
    pub(crate) root: Option<Down>,
}

impl Tree {
    /// A tree of no nodes. It stands in each pool.
    pub fn new() -> Tree
        ensures { (f : Leaves) (g : Forks) → StandsIn f g result [] }
    {
        Tree { root: None }
    }

    /// The node after `id` among those of its key, which are in the order in which they were put
    /// in, or none where `id` is the newest of them. One step.
    pub fn next_same<V, L: Ledger>(
        &self,
        pool: &Pool<Node<V>>,
        id: usize,
        steps: &mut Steps<L>,
    ) -> Option<usize>
        requires { (pairs : KeyList) × Stands pool.now self.now pairs × Lists pairs id }
        ensures next { (pairs : KeyList) (key : List Bool) (xs ys : List ℕ)
            → Stands pool.now self.now pairs → numbers_of key pairs ≡ xs ++ id ∷ ys
            → result ≡ first_or ys None }
        ensures cost { steps.new ≡ steps.old + 1 }
    {
        pool.get(id, steps).links().next
    }
}
