//! What a place of a tree points to.
ghost use Rattle.std.specs.Prelude.{◌≡◌, ◌≢◌, ◌+◌, ◌≤◌, ℕ, Option, Some};
ghost use Rattle.std.specs.Option.{ForSome};
ghost use Rattle.hx_pool.specs.Pool.{get, IsLive};
ghost use Rattle.hx_ebtree.specs.declared.node.Up.{Up as Place};
ghost use Rattle.hx_ebtree.specs.Tree.{leaves_of, forks_of, KeepsNodes};
ghost use Rattle.hx_ebtree.specs.Change.{SetsDown};

use crate::node::{Down, Node, Up};
use crate::parts::branch_side;
use crate::tree::Tree;
use hx_pool::{Pool, Steps};
use std::sync::ledger::Ledger;

impl Tree {
    /// Lets the place `up`, or the root, point to `down`.
    #[tactic(auto, using(crate::proofs::NodeLemmas::kept_with))]
    pub(crate) fn set_down<V, L: Ledger>(
        &mut self,
        pool: &mut Pool<Node<V>>,
        up: Option<Up>,
        down: Down,
        steps: &mut Steps<L>,
    )
        requires { ForSome up (λ u. IsLive pool.old u.node) }
        ensures parts { SetsDown (leaves_of pool.old) (forks_of pool.old) self.old.root
            (leaves_of pool.new) (forks_of pool.new) self.new.root up down }
        ensures kept { KeepsNodes pool.old pool.new }
        ensures others { (k : ℕ) → ((u : Place) → up ≡ Some u → u.node ≢ k)
            → get pool.new k ≡ get pool.old k }
        ensures cost { steps.new ≤ steps.old + 1 }
    {
        match up {
            Some(place) => {
                let node = pool.get_mut(place.node, steps);
                node.branch = branch_side(node.branch, place.right, down);
            }
            None => self.root = Some(down),
        }
    }
}
