//! Searches of an index.
ghost use Rattle.std.specs.Prelude.{◌≡◌, ◌≢◌, ◌+◌, ◌*◌, ◌<◌, ◌≤◌, ◌^◌, ℕ, List, Option, Some, None, IfOk, IsOk, false, length, option_and_then, option_map, take};
ghost use Rattle.std.specs.Option.{ForSome};
ghost use Rattle.hx_ebtree.specs.Node.{entry_of};
ghost use Rattle.hx_pool.specs.Pool.{get, IsLive};
ghost use Rattle.hx_sample.specs.declared.sample.Value.TheVariants as value;
ghost use Rattle.hx_sample.specs.Seen.{value_of};
ghost use Rattle.hx_index.specs.Items.{Item};
ghost use Rattle.hx_ebtree.specs.KeyList.{longest_of};
ghost use Rattle.hx_index.specs.Index.{Holds, entry_found, ignores_case, in_part, key_pairs, listed_count, method_of, tree_steps};
ghost use Rattle.hx_index.specs.Search.{IsAddress, first_hit_of, ipv4_bits, ipv6_bits, prefix_node_of, search_of};

use crate::index::{Index, Nodes};
use crate::part::Part;
use crate::prepared::LONGEST;
use hx_match::hits;
use hx_pool::Steps;
use hx_sample::Sample;
use hx_text::{By, Ip, NoMemory, map4to6, six_to_four};
use std::alloc::Global;
use std::sync::ledger::Ledger;

/// How an index is searched: through the chain, by whole texts, by beginnings of texts, or by
/// networks.
#[derive(Clone, Copy, PartialEq, Eq)]
pub(crate) enum Search {
    Scan,
    Exact,
    Longest,
    Nearest,
}

/// How patterns of the method and the case are searched.
fn search_of(by: By, ci: bool) -> Search
    ensures { result ≡ search_of by ci }
{
    match by {
        By::Str => exact_or_scan(ci),
        By::Beg => longest_or_scan(ci),
        By::Ip => Search::Nearest,
        _ => Search::Scan,
    }
}

fn exact_or_scan(ci: bool) -> Search
    ensures { result ≡ search_of By.Str ci }
{
    if ci { Search::Scan } else { Search::Exact }
}

fn longest_or_scan(ci: bool) -> Search
    ensures { result ≡ search_of By.Beg ci }
{
    if ci { Search::Scan } else { Search::Longest }
}

/// The entry of a node, if there is a node. At most one step.
pub(crate) fn node_entry<L: Ledger>(
    nodes: &Nodes,
    node: Option<usize>,
    steps: &mut Steps<L>,
) -> Option<usize>
    requires { ForSome node (λ id. IsLive nodes.now id) }
    ensures entry { result ≡ option_and_then (λ id. option_map entry_of (get nodes.now id)) node }
    ensures cost { steps.new ≤ steps.old + 1 }
{
    match node {
        Some(id) => Some(nodes.get(id, steps).entry()),
        None => None,
    }
}

/// As much of the text as a pattern can have.
fn beginning(text: &[u8]) -> &[u8]
    ensures part { result.now ≡ take (2 ^ 60) text.now }
    ensures short { length result.now ≤ 2 ^ 60 }
    ensures within { length result.now ≤ length text.now }
{
    if text.len() > LONGEST {
        &text[..LONGEST]
    } else {
        text
    }
}

impl Index {
    /// The entry that the sample finds: the first whose pattern hits the sample. By `Beg` with case
    /// it is the first of those with the longest text. By `Ip` a prefix of the family of the
    /// address goes before one of the other family, and this before a mask; of prefixes the
    /// longest goes first, and then the first. None exactly where no pattern hits. `NoMemory` comes
    /// by `Reg` alone, where memory runs out.
    pub fn find<L: Ledger>(
        &self,
        alloc: Global,
        nodes: &Nodes,
        sample: &Sample<'_>,
        steps: &mut Steps<L>,
    ) -> Result<Option<usize>, NoMemory>
        requires { (items : List Item) × Holds nodes.now self.now items }
        ensures found { (items : List Item) → Holds nodes.now self.now items
            → IfOk result (λ entry. entry ≡ entry_found self.now items (value_of sample.now)) }
        ensures free { method_of self.now ≢ By.Reg → IsOk result }
        ensures cost { (items : List Item) → Holds nodes.now self.now items
            → steps.new ≤ steps.old
            + tree_steps (method_of self.now) (ignores_case self.now) (value_of sample.now)
            + 2 * listed_count items }
    {
        match search_of(self.by, self.ci) {
            Search::Scan => self.first_hit(alloc, nodes, sample, steps),
            Search::Exact => Ok(self.exact(nodes, sample, steps)),
            Search::Longest => Ok(self.longest(nodes, sample, steps)),
            Search::Nearest => self.nearest(alloc, nodes, sample, steps),
        }
    }

    /// The entry of the first pattern in the chain that hits the sample. At most two steps for each
    /// pattern of the chain.
    fn first_hit<L: Ledger>(
        &self,
        alloc: Global,
        nodes: &Nodes,
        sample: &Sample<'_>,
        steps: &mut Steps<L>,
    ) -> Result<Option<usize>, NoMemory>
        requires { (items : List Item) × Holds nodes.now self.now items }
        ensures found { (items : List Item) → Holds nodes.now self.now items
            → IfOk result (λ entry. entry
            ≡ first_hit_of (value_of sample.now) (in_part Part.Listed items)) }
        ensures free { method_of self.now ≢ By.Reg → IsOk result }
        ensures cost { (items : List Item) → Holds nodes.now self.now items
            → steps.new ≤ steps.old + 2 * listed_count items }
    {
        let mut at = self.listed.front();
        while let Some(id) = at {
            let node = nodes.get(id, steps);
            if hits(alloc, node.value(), sample)? {
                return Ok(Some(node.entry()));
            }
            at = self.listed.next(nodes, id, steps);
        }
        Ok(None)
    }

    /// The entry of the pattern that is the text of the sample.
    fn exact<L: Ledger>(
        &self,
        nodes: &Nodes,
        sample: &Sample<'_>,
        steps: &mut Steps<L>,
    ) -> Option<usize>
        requires search { search_of (method_of self.now) (ignores_case self.now) ≡ Search.Exact }
        requires holds { (items : List Item) × Holds nodes.now self.now items }
        ensures found { (items : List Item) → Holds nodes.now self.now items
            → result ≡ entry_found self.now items (value_of sample.now) }
        ensures cost { steps.new ≤ steps.old
            + tree_steps (method_of self.now) (ignores_case self.now) (value_of sample.now) }
    {
        match sample {
            Sample::Str(text) => self.first_with(nodes, text.as_slice(), steps),
            _ => None,
        }
    }

    /// The entry of the longest pattern that begins the text of the sample.
    fn longest<L: Ledger>(
        &self,
        nodes: &Nodes,
        sample: &Sample<'_>,
        steps: &mut Steps<L>,
    ) -> Option<usize>
        requires search { search_of (method_of self.now) (ignores_case self.now) ≡ Search.Longest }
        requires holds { (items : List Item) × Holds nodes.now self.now items }
        ensures found { (items : List Item) → Holds nodes.now self.now items
            → result ≡ entry_found self.now items (value_of sample.now) }
        ensures cost { steps.new ≤ steps.old
            + tree_steps (method_of self.now) (ignores_case self.now) (value_of sample.now) }
    {
        match sample {
            Sample::Str(text) => self.with_beginning(nodes, text.as_slice(), steps),
            _ => None,
        }
    }

    /// The entry of the longest pattern that begins the text.
    fn with_beginning<L: Ledger>(
        &self,
        nodes: &Nodes,
        text: &[u8],
        steps: &mut Steps<L>,
    ) -> Option<usize>
        requires search { search_of (method_of self.now) (ignores_case self.now) ≡ Search.Longest }
        requires holds { (items : List Item) × Holds nodes.now self.now items }
        ensures found { (items : List Item) → Holds nodes.now self.now items
            → result ≡ entry_found self.now items (value.Str text.now) }
        ensures cost { steps.new ≤ steps.old + 16 * length text.now + 3 }
    {
        let text = beginning(text);
        let node = self.keyed.longest(nodes, text, 8 * text.len(), steps);
        node_entry(nodes, node, steps)
    }

    /// The entry of the nearest network that has the address of the sample.
    fn nearest<L: Ledger>(
        &self,
        alloc: Global,
        nodes: &Nodes,
        sample: &Sample<'_>,
        steps: &mut Steps<L>,
    ) -> Result<Option<usize>, NoMemory>
        requires search { search_of (method_of self.now) (ignores_case self.now) ≡ Search.Nearest }
        requires holds { (items : List Item) × Holds nodes.now self.now items }
        ensures found { (items : List Item) → Holds nodes.now self.now items
            → IfOk result (λ entry. entry ≡ entry_found self.now items (value_of sample.now)) }
        ensures free { IsOk result }
        ensures cost { (items : List Item) → Holds nodes.now self.now items
            → steps.new ≤ steps.old
            + tree_steps (method_of self.now) (ignores_case self.now) (value_of sample.now)
            + 2 * listed_count items }
    {
        match sample {
            Sample::Ip(ip) => match self.prefix_node(nodes, *ip, steps) {
                Some(node) => Ok(Some(nodes.get(node, steps).entry())),
                None => self.first_hit(alloc, nodes, sample, steps),
            },
            _ => Ok(None),
        }
    }

    /// The node of the longest prefix of the family of the address, or else of the other family.
    fn prefix_node<L: Ledger>(&self, nodes: &Nodes, ip: Ip, steps: &mut Steps<L>) -> Option<usize>
        requires { (items : List Item) × Holds nodes.now self.now items }
        ensures found { (items : List Item) → Holds nodes.now self.now items
            → result ≡ prefix_node_of items ip }
        ensures fits { IsAddress ip }
        ensures cost { steps.new ≤ steps.old + 324 }
    {
        match ip {
            Ip::V4(address) => match self.ipv4_node(nodes, address, steps) {
                Some(node) => Some(node),
                None => self.ipv6_node(nodes, map4to6(address), steps),
            },
            Ip::V6(address) => match self.ipv6_node(nodes, address, steps) {
                Some(node) => Some(node),
                None => match six_to_four(address) {
                    Some(address) => self.ipv4_node(nodes, address, steps),
                    None => None,
                },
            },
        }
    }

    fn ipv4_node<L: Ledger>(
        &self,
        nodes: &Nodes,
        address: u32,
        steps: &mut Steps<L>,
    ) -> Option<usize>
        requires { (items : List Item) × Holds nodes.now self.now items }
        ensures found { (items : List Item) → Holds nodes.now self.now items
            → result ≡ longest_of (key_pairs (in_part Part.Keyed items)) (ipv4_bits address) }
        ensures fits { address < 2 ^ 32 }
        ensures cost { steps.new ≤ steps.old + 66 }
    {
        self.keyed
            .longest(nodes, address.to_be_bytes().as_slice(), 32, steps)
    }

    fn ipv6_node<L: Ledger>(
        &self,
        nodes: &Nodes,
        address: u128,
        steps: &mut Steps<L>,
    ) -> Option<usize>
        requires { (items : List Item) × Holds nodes.now self.now items }
        ensures found { (items : List Item) → Holds nodes.now self.now items
            → result ≡ longest_of (key_pairs (in_part Part.Wide items)) (ipv6_bits address) }
        ensures fits { address < 2 ^ 128 }
        ensures cost { steps.new ≤ steps.old + 258 }
    {
        self.wide
            .longest(nodes, address.to_be_bytes().as_slice(), 128, steps)
    }
}
