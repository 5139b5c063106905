ghost use Rattle.std.specs.Prelude.{◌≡◌, ◌≢◌, ◌+◌, ◌<◌, ◌++◌, [], ◌∷◌, ℕ, List, None};
ghost use Rattle.hx_pool.specs.Pool.{get, live_count};
ghost use Rattle.hx_pool.specs.Chain.{AreApart, IsIn};
ghost use Rattle.hx_index.specs.declared.index.Index.{Index as Other};
ghost use Rattle.hx_index.specs.Items.{Item, nodes_of, without_node};
ghost use Rattle.hx_index.specs.Index.{Holds, NodePool, ignores_case, method_of};

use crate::changing::give_back;
use crate::part::pattern_part;
use crate::prepared::Prepared;
use hx_ebtree::{Node, Tree};
use hx_match::Pattern;
use hx_pool::{Chain, Pool, Steps};
use hx_text::By;
use std::sync::ledger::Ledger;

/// The nodes of indexes. Each keeps a pattern and the number of the entry that has it.
pub type Nodes = Pool<Node<Pattern>>;

/// An index of patterns of one match method, with case or without. What it stands for is said
/// together with its nodes.
pub struct Index {
    pub(crate) by: By,
    pub(crate) ci: bool,
    pub(crate) listed: Chain,
    pub(crate) keyed: Tree,
    pub(crate) wide: Tree,
}

// Written out, so that letting one go is one call in the proofs of callers.
impl Drop for Index {
    fn drop(self) {
        let Index {
            by: _by,
            ci: _ci,
            listed: _listed,
            keyed: _keyed,
            wide: _wide,
        } = self;
    }
}

impl Index {
    /// An index without patterns, for those of the method and the case. It stands in all nodes.
    pub fn new(by: By, ci: bool) -> Index
        ensures method { method_of result ≡ by }
        ensures case { ignores_case result ≡ ci }
        ensures holds { (nodes : NodePool) → Holds nodes result [] }
    {
        Index {
            by,
            ci,
            listed: Chain::new(),
            keyed: Tree::new(),
            wide: Tree::new(),
        }
    }

    /// Puts a pattern after the others, and answers the number of its node, which was spare. The
    /// pattern was prepared for the method and the case of the index, and a node is spare. No
    /// memory is taken.
    pub fn put<L: Ledger>(
        &mut self,
        nodes: &mut Nodes,
        prepared: Prepared,
        entry: usize,
        steps: &mut Steps<L>,
    ) -> usize
        requires spare { 0 < nodes.old.spare }
        requires method { prepared.by ≡ method_of self.old }
        requires case { prepared.ci ≡ ignores_case self.old }
        requires holds { (items : List Item) × Holds nodes.old self.old items }
        ensures holds { (items : List Item) → Holds nodes.old self.old items
            → Holds nodes.new self.new
            (items ++ record { node = result; entry = entry; pattern = prepared } ∷ []) }
        ensures was_free { get nodes.old result ≡ None }
        ensures others { (items : List Item) → Holds nodes.old self.old items
            → (k : ℕ) → (IsIn k (nodes_of items) → ⊥) → k ≢ result
            → get nodes.new k ≡ get nodes.old k }
        ensures other_indexes { (items others : List Item) (other : Other)
            → Holds nodes.old self.old items → Holds nodes.old other others
            → AreApart (nodes_of others) (nodes_of items) → Holds nodes.new other others }
        ensures spare { nodes.new.spare + 1 ≡ nodes.old.spare }
        ensures live { live_count nodes.new ≡ live_count nodes.old + 1 }
        ensures method { method_of self.new ≡ method_of self.old }
        ensures case { ignores_case self.new ≡ ignores_case self.old }
    {
        let Prepared { key, pattern } = prepared;
        let part = pattern_part(self.by, self.ci, &pattern);
        let node = nodes.take(Node::new(key, entry, pattern));
        self.attach(nodes, part, node, steps);
        node
    }

    /// Takes the pattern of a node out, and gives the node back. The others stay in their order.
    /// The node is one of this index. No memory is taken.
    pub fn drop_entry<L: Ledger>(&mut self, nodes: &mut Nodes, node: usize, steps: &mut Steps<L>)
        requires { (items : List Item) × Holds nodes.old self.old items
            × IsIn node (nodes_of items) }
        ensures holds { (items : List Item) → Holds nodes.old self.old items
            → IsIn node (nodes_of items) → Holds nodes.new self.new (without_node node items) }
        ensures free { get nodes.new node ≡ None }
        ensures others { (items : List Item) → Holds nodes.old self.old items
            → IsIn node (nodes_of items)
            → (k : ℕ) → (IsIn k (nodes_of items) → ⊥) → get nodes.new k ≡ get nodes.old k }
        ensures other_indexes { (items others : List Item) (other : Other)
            → Holds nodes.old self.old items → IsIn node (nodes_of items)
            → Holds nodes.old other others
            → AreApart (nodes_of others) (nodes_of items) → Holds nodes.new other others }
        ensures spare { nodes.new.spare ≡ nodes.old.spare + 1 }
        ensures live { live_count nodes.new + 1 ≡ live_count nodes.old }
        ensures method { method_of self.new ≡ method_of self.old }
        ensures case { ignores_case self.new ≡ ignores_case self.old }
    {
        let part = pattern_part(self.by, self.ci, nodes.get(node, steps).value());
        self.detach(nodes, part, node, steps);
        give_back(nodes, node);
    }
}
