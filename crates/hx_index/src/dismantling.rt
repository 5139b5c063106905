//! An index is taken apart bit by bit.
ghost use Rattle.std.specs.Prelude.{◌≡◌, ◌+◌, ◌*◌, ◌≤◌, [], ℕ, List, None, Option, Some, length, min};
ghost use Rattle.hx_pool.specs.Pool.{get, live_count};
ghost use Rattle.hx_pool.specs.Chain.{AreApart, IsIn};
ghost use Rattle.hx_index.specs.declared.index.Index.{Index as Other};
ghost use Rattle.hx_index.specs.Items.{Item, LeavesOut, nodes_of, without_node};
ghost use Rattle.hx_index.specs.Index.{Holds, ignores_case, method_of};

use crate::changing::give_back;
use crate::index::{Index, Nodes};
use hx_pool::Steps;
use std::sync::ledger::Ledger;

impl Index {
    /// Takes any node out and gives it back, and answers its number, or none where there is none.
    /// At most sixteen steps.
    fn drop_any<L: Ledger>(&mut self, nodes: &mut Nodes, steps: &mut Steps<L>) -> Option<usize>
        requires { (items : List Item) × Holds nodes.old self.old items }
        ensures none { (items : List Item) → Holds nodes.old self.old items → result ≡ None
            → (items ≡ []) × Holds nodes.new self.new items }
        ensures some { (items : List Item) (node : ℕ) → Holds nodes.old self.old items
            → result ≡ Some node → IsIn node (nodes_of items)
            × Holds nodes.new self.new (without_node node items) }
        ensures others { (items : List Item) → Holds nodes.old self.old items
            → (k : ℕ) → (IsIn k (nodes_of items) → ⊥) → get nodes.new k ≡ get nodes.old k }
        ensures spare { (node : ℕ) → result ≡ Some node → nodes.new.spare ≡ nodes.old.spare + 1 }
        ensures same_spare { result ≡ None → nodes.new.spare ≡ nodes.old.spare }
        ensures live { (node : ℕ) → result ≡ Some node
            → live_count nodes.new + 1 ≡ live_count nodes.old }
        ensures same_live { result ≡ None → live_count nodes.new ≡ live_count nodes.old }
        ensures cost { steps.new ≤ steps.old + 16 }
        ensures free { result ≡ None → steps.new ≡ steps.old }
        ensures method { method_of self.new ≡ method_of self.old }
        ensures case { ignores_case self.new ≡ ignores_case self.old }
    {
        match self.detach_any(nodes, steps) {
            Some(node) => {
                give_back(nodes, node);
                Some(node)
            }
            None => None,
        }
    }

    /// Takes out `count` patterns, or all where there are fewer, and gives their nodes back. It
    /// answers how many. The others stay in their order. At most sixteen steps for each that is
    /// taken out. No memory is taken.
    pub fn dismantle<L: Ledger>(
        &mut self,
        nodes: &mut Nodes,
        count: usize,
        steps: &mut Steps<L>,
    ) -> usize
        requires { (items : List Item) × Holds nodes.old self.old items }
        ensures count { (items : List Item) → Holds nodes.old self.old items
            → result ≡ min count (length items) }
        ensures holds { (items : List Item) → Holds nodes.old self.old items
            → (left : List Item) × Holds nodes.new self.new left × LeavesOut result items left }
        ensures others { (items : List Item) → Holds nodes.old self.old items
            → (k : ℕ) → (IsIn k (nodes_of items) → ⊥) → get nodes.new k ≡ get nodes.old k }
        ensures other_indexes { (items others : List Item) (other : Other)
            → Holds nodes.old self.old items → Holds nodes.old other others
            → AreApart (nodes_of others) (nodes_of items) → Holds nodes.new other others }
        ensures spare { nodes.new.spare ≡ nodes.old.spare + result }
        ensures live { live_count nodes.new + result ≡ live_count nodes.old }
        ensures cost { steps.new ≤ steps.old + 16 * result }
        ensures method { method_of self.new ≡ method_of self.old }
        ensures case { ignores_case self.new ≡ ignores_case self.old }
    {
        for taken in 0..count {
            match self.drop_any(nodes, steps) {
                Some(_) => (),
                None => return taken,
            }
        }
        count
    }
}
