ghost use Rattle.std.specs.Prelude.{◌≡◌, None};
ghost use Rattle.hx_ebtree.specs.Node.{key_of, entry_of, value_of, IsSameNode};
ghost use Rattle.hx_ebtree.specs.declared.node.Node.{Node};

use crate::key::BitKey;
use hx_pool::{Chain, Linked, Links};

/// What hangs at a place of a tree: the leaf of a node, or its branch part.
#[derive(Clone, Copy)]
pub(crate) enum Down {
    Leaf(usize),
    Branch(usize),
}

/// Where something hangs: the left or the right side of a node's branch part.
#[derive(Clone, Copy)]
pub(crate) struct Up {
    pub(crate) node: usize,
    pub(crate) right: bool,
}

/// A branch: the bit of the code by which the sides differ, the sides, and where it hangs, which is
/// none at the root.
#[derive(Clone, Copy)]
pub(crate) struct Branch {
    pub(crate) bit: u64,
    pub(crate) left: Down,
    pub(crate) right: Down,
    pub(crate) up: Option<Up>,
}

/// An entry with its key, and the parts of a tree that lie in its slot: a leaf and a branch part.
///
/// Nodes of one key are a chain, the oldest first. The first of them keeps the chain, and is the
/// leaf.
///
/// What the way down reads comes first, so that it lies together.
#[derive(Drop)]
pub struct Node<V> {
    pub(crate) branch: Option<Branch>,
    pub(crate) key: BitKey,
    links: Links,
    pub(crate) leaf_up: Option<Up>,
    pub(crate) chain: Chain,
    entry: usize,
    value: V,
}

impl<V> Node<V> {
    /// A node that is in no tree.
    pub fn new(key: BitKey, entry: usize, value: V) -> Node<V>
        ensures key { key_of result ≡ key }
        ensures entry { entry_of result ≡ entry }
        ensures value { value_of result ≡ value }
    {
        Node {
            key,
            entry,
            value,
            links: Links::NONE,
            chain: Chain::new(),
            leaf_up: None,
            branch: None,
        }
    }

    /// The entry.
    pub fn entry(&self) -> usize
        ensures { result ≡ entry_of self.now }
    {
        self.entry
    }

    /// The value.
    pub fn value(&self) -> &V
        ensures { result.now ≡ value_of self.now }
    {
        &self.value
    }
}

impl<V> Linked for Node<V> {
    ghost use Rattle.hx_ebtree.specs.Node.{links_of, IsSameNode, same_self, same_back, same_on};

    ghost links_of = { links_of };

    ghost same = { IsSameNode };

    fn links(&self) -> Links {
        self.links
    }

    fn set_links(&mut self, links: Links) {
        self.links = links;
    }

    ghost same_self = { same_self };

    ghost same_back = { same_back };

    ghost same_on = { same_on };
}
