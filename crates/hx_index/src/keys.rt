//! Entries are found by the whole text of their pattern.
ghost use Rattle.std.specs.Prelude.{◌≡◌, ◌+◌, ◌*◌, ◌≤◌, ◌++◌, ◌∷◌, true, List, length};
ghost use Rattle.hx_pool.specs.Chain.{IsIn};
ghost use Rattle.hx_index.specs.Items.{Item, nodes_of};
ghost use Rattle.hx_index.specs.Index.{Holds, entry_with, ignores_case, keeps_texts, method_of};

use crate::finding::node_entry;
use crate::index::{Index, Nodes};
use crate::prepared::LONGEST;
use hx_pool::Steps;
use hx_text::By;
use std::sync::ledger::Ledger;

impl Index {
    /// Whether a pattern is found by its whole text: by `Str` and `Beg`, with case.
    pub fn keeps_texts(&self) -> bool
        ensures { result ≡ keeps_texts (method_of self.now) (ignores_case self.now) }
    {
        match self.by {
            By::Str => !self.ci,
            By::Beg => !self.ci,
            _ => false,
        }
    }

    /// The entry of the first pattern with the text, or none where no pattern has it. As many
    /// steps as a search by `Str` takes.
    pub fn first_with<L: Ledger>(
        &self,
        nodes: &Nodes,
        text: &[u8],
        steps: &mut Steps<L>,
    ) -> Option<usize>
        requires keeps { keeps_texts (method_of self.now) (ignores_case self.now) ≡ true }
        requires holds { (items : List Item) × Holds nodes.now self.now items }
        ensures found { (items : List Item) → Holds nodes.now self.now items
            → result ≡ entry_with text.now items }
        ensures cost { steps.new ≤ steps.old + 16 * length text.now + 3 }
    {
        if text.len() > LONGEST {
            return None;
        }
        let node = self.keyed.exact(nodes, text, 8 * text.len(), steps);
        node_entry(nodes, node, steps)
    }

    /// The entry of the first pattern after that of a node which has the same text, or none where
    /// there is none. At most two steps.
    pub fn next_with<L: Ledger>(
        &self,
        nodes: &Nodes,
        node: usize,
        steps: &mut Steps<L>,
    ) -> Option<usize>
        requires keeps { keeps_texts (method_of self.now) (ignores_case self.now) ≡ true }
        requires holds { (items : List Item) × Holds nodes.now self.now items
            × IsIn node (nodes_of items) }
        ensures found { (before : List Item) (item : Item) (after : List Item)
            → item.node ≡ node → Holds nodes.now self.now (before ++ item ∷ after)
            → result ≡ entry_with item.pattern.text after }
        ensures cost { steps.new ≤ steps.old + 2 }
    {
        let next = self.keyed.next_same(nodes, node, steps);
        node_entry(nodes, next, steps)
    }
}
