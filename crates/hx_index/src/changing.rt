//! Nodes go into the parts of an index, and out of them.
ghost use Rattle.std.specs.Prelude.{◌≡◌, ◌≢◌, ◌+◌, ◌≤◌, ◌++◌, [], ◌∷◌, ℕ, List, None, Option, Some};
ghost use Rattle.hx_pool.specs.Pool.{get, live_count, IsLive, Updates};
ghost use Rattle.hx_pool.specs.Chain.{IsIn};
ghost use Rattle.hx_ebtree.specs.Tree.{KeepsNodes};
ghost use Rattle.hx_index.specs.Items.{Item, nodes_of, without_node};
ghost use Rattle.hx_index.specs.Index.{Holds, ignores_case, in_part, method_of};
ghost use Rattle.hx_index.specs.Search.{IsNewItem, TakesOut};

use crate::index::{Index, Nodes};
use crate::part::Part;
use hx_pool::Steps;
use std::sync::ledger::Ledger;

/// Gives a node back, and lets go of what it keeps.
pub(crate) fn give_back(nodes: &mut Nodes, node: usize)
    requires { IsLive nodes.old node }
    ensures updates { Updates nodes.old nodes.new node None }
    ensures spare { nodes.new.spare ≡ nodes.old.spare + 1 }
    ensures live { live_count nodes.new + 1 ≡ live_count nodes.old }
{
    let _node = nodes.give(node);
}

impl Index {
    /// Lets a part keep a live node that no part keeps, after the others.
    pub(crate) fn attach<L: Ledger>(
        &mut self,
        nodes: &mut Nodes,
        part: Part,
        node: usize,
        steps: &mut Steps<L>,
    )
        requires live { IsLive nodes.old node }
        requires holds { (items : List Item) × Holds nodes.old self.old items
            × (IsIn node (nodes_of items) → ⊥) }
        ensures holds { (items : List Item) (item : Item) → Holds nodes.old self.old items
            → IsNewItem nodes.old (method_of self.old) (ignores_case self.old) part items item
            → item.node ≡ node → Holds nodes.new self.new (items ++ item ∷ []) }
        ensures kept { KeepsNodes nodes.old nodes.new }
        ensures others { (items : List Item) → Holds nodes.old self.old items
            → (IsIn node (nodes_of items) → ⊥) → (k : ℕ) → (IsIn k (nodes_of items) → ⊥)
            → k ≢ node → get nodes.new k ≡ get nodes.old k }
        ensures method { method_of self.new ≡ method_of self.old }
        ensures case { ignores_case self.new ≡ ignores_case self.old }
    {
        match part {
            Part::Listed => self.listed.push_back(nodes, node, steps),
            Part::Keyed => self.keyed.insert(nodes, node, steps),
            Part::Wide => self.wide.insert(nodes, node, steps),
        }
    }

    /// Takes a node out of the part that keeps it.
    pub(crate) fn detach<L: Ledger>(
        &mut self,
        nodes: &mut Nodes,
        part: Part,
        node: usize,
        steps: &mut Steps<L>,
    )
        requires { (items : List Item) × Holds nodes.old self.old items
            × IsIn node (nodes_of (in_part part items)) }
        ensures holds { (items : List Item) → Holds nodes.old self.old items
            → IsIn node (nodes_of (in_part part items))
            → Holds nodes.new self.new (without_node node items) }
        ensures kept { KeepsNodes nodes.old nodes.new }
        ensures others { (items : List Item) → Holds nodes.old self.old items
            → IsIn node (nodes_of (in_part part items))
            → (k : ℕ) → (IsIn k (nodes_of items) → ⊥) → get nodes.new k ≡ get nodes.old k }
        ensures method { method_of self.new ≡ method_of self.old }
        ensures case { ignores_case self.new ≡ ignores_case self.old }
    {
        match part {
            Part::Listed => self.listed.unlink(nodes, node, steps),
            Part::Keyed => self.keyed.remove(nodes, node, steps),
            Part::Wide => self.wide.remove(nodes, node, steps),
        }
    }

    /// Takes a node out of the tree of texts. At most sixteen steps, and none where there is none.
    fn detach_keyed<L: Ledger>(&mut self, nodes: &mut Nodes, steps: &mut Steps<L>) -> Option<usize>
        requires { (items : List Item) × Holds nodes.old self.old items }
        ensures takes { TakesOut Part.Keyed nodes.old self.old nodes.new self.new result }
        ensures cost { steps.new ≤ steps.old + 16 }
        ensures free { result ≡ None → steps.new ≡ steps.old }
    {
        self.keyed.pop_any(nodes, steps)
    }

    /// Takes a node out of the tree of networks of IPv6 addresses, in the same way.
    fn detach_wide<L: Ledger>(&mut self, nodes: &mut Nodes, steps: &mut Steps<L>) -> Option<usize>
        requires { (items : List Item) × Holds nodes.old self.old items }
        ensures takes { TakesOut Part.Wide nodes.old self.old nodes.new self.new result }
        ensures cost { steps.new ≤ steps.old + 16 }
        ensures free { result ≡ None → steps.new ≡ steps.old }
    {
        self.wide.pop_any(nodes, steps)
    }

    /// Takes the first node out of the chain, in the same way.
    fn detach_listed<L: Ledger>(&mut self, nodes: &mut Nodes, steps: &mut Steps<L>) -> Option<usize>
        requires { (items : List Item) × Holds nodes.old self.old items }
        ensures takes { TakesOut Part.Listed nodes.old self.old nodes.new self.new result }
        ensures cost { steps.new ≤ steps.old + 16 }
        ensures free { result ≡ None → steps.new ≡ steps.old }
    {
        match self.listed.front() {
            Some(node) => {
                self.listed.unlink(nodes, node, steps);
                Some(node)
            }
            None => None,
        }
    }

    /// Takes any node out and answers its number, or none where there is none. At most sixteen
    /// steps.
    pub(crate) fn detach_any<L: Ledger>(
        &mut self,
        nodes: &mut Nodes,
        steps: &mut Steps<L>,
    ) -> Option<usize>
        requires { (items : List Item) × Holds nodes.old self.old items }
        ensures none { (items : List Item) → Holds nodes.old self.old items → result ≡ None
            → (items ≡ []) × Holds nodes.new self.new items }
        ensures some { (items : List Item) (node : ℕ) → Holds nodes.old self.old items
            → result ≡ Some node → IsIn node (nodes_of items)
            × Holds nodes.new self.new (without_node node items) }
        ensures kept { KeepsNodes nodes.old nodes.new }
        ensures others { (items : List Item) → Holds nodes.old self.old items
            → (k : ℕ) → (IsIn k (nodes_of items) → ⊥) → get nodes.new k ≡ get nodes.old k }
        ensures cost { steps.new ≤ steps.old + 16 }
        ensures free { result ≡ None → steps.new ≡ steps.old }
        ensures method { method_of self.new ≡ method_of self.old }
        ensures case { ignores_case self.new ≡ ignores_case self.old }
    {
        match self.detach_keyed(nodes, steps) {
            Some(node) => Some(node),
            None => match self.detach_wide(nodes, steps) {
                Some(node) => Some(node),
                None => self.detach_listed(nodes, steps),
            },
        }
    }
}
