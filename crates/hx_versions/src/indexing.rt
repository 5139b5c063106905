//! Keys of one entry go into the indexes of its version, and out of them.
ghost use Rattle.std.specs.Prelude.{◌≡◌, ◌+◌, ◌<◌, ◌≤◌, ◌++◌, [], ◌∷◌, ℕ, Bool, List, Some, length, slice_get};
ghost use Rattle.hx_pool.specs.Pool.{live_count};
ghost use Rattle.hx_index.specs.Items.{without_node};
ghost use Rattle.hx_text.specs.declared.kinds.By.{By as Method};
ghost use Rattle.hx_versions.specs.Contents.{new_item, ways_of, with_items, with_list, without_numbers, AreItemsOfVersion, AreNodes, EntryPool, IsNodeAt, IsOfVersion, LeavesNodes, Listing, StandIn};
ghost use Rattle.hx_versions.specs.NewEntries.{prepared_patterns};

use crate::node_numbers::NodeNumbers;
use hx_index::{Index, Nodes, Prepared};
use hx_pool::Steps;
use std::sync::ledger::Ledger;

/// Puts the prepared key of an entry into the index at a position, and answers the number of its
/// node.
fn put_at<L: Ledger>(
    indexes: &mut Vec<Index>,
    nodes: &mut Nodes,
    at: usize,
    prepared: Prepared,
    slot: usize,
    steps: &mut Steps<L>,
) -> usize
    requires at { at < length indexes.old.items }
    requires spare { 0 < nodes.old.spare }
    requires way { slice_get (ways_of indexes.old.items) at ≡ Some (prepared.by, prepared.ci) }
    requires stand { (items : Listing) × StandIn nodes.old indexes.old.items items }
    ensures stand { (items : Listing) → StandIn nodes.old indexes.old.items items
        → StandIn nodes.new indexes.new.items (with_list at
        (items at prepared.by prepared.ci
        ++ new_item result slot prepared.text prepared.by prepared.ci ∷ []) items) }
    ensures others { (items : Listing) (entries : EntryPool) (version : ℕ)
        → StandIn nodes.old indexes.old.items items
        → AreItemsOfVersion entries version (ways_of indexes.old.items) items
        → LeavesNodes entries version nodes.old nodes.new }
    ensures ways { ways_of indexes.new.items ≡ ways_of indexes.old.items }
    ensures spare { nodes.new.spare + 1 ≡ nodes.old.spare }
    ensures live { live_count nodes.new ≡ live_count nodes.old + 1 }
{
    let index = &mut indexes[at];
    index.put(nodes, prepared, slot, steps)
}

/// Puts the prepared keys of an entry into the indexes, each into that of its position, and answers
/// the numbers of their nodes. `numbers` has a place for each.
pub(crate) fn put_each<L: Ledger>(
    indexes: &mut Vec<Index>,
    nodes: &mut Nodes,
    prepared: Vec<Prepared>,
    numbers: NodeNumbers,
    slot: usize,
    steps: &mut Steps<L>,
) -> NodeNumbers
    requires numbers { length numbers ≡ length indexes.old.items }
    requires keys { (key : List ℕ)
        × (prepared.items ≡ prepared_patterns key (ways_of indexes.old.items)) }
    requires spare { length indexes.old.items ≤ nodes.old.spare }
    requires stand { (items : Listing) × StandIn nodes.old indexes.old.items items }
    ensures stand { (items : Listing) (key : List ℕ) → StandIn nodes.old indexes.old.items items
        → prepared.items ≡ prepared_patterns key (ways_of indexes.old.items)
        → StandIn nodes.new indexes.new.items (with_items slot key result items) }
    ensures others { (items : Listing) (entries : EntryPool) (version : ℕ)
        → StandIn nodes.old indexes.old.items items
        → AreItemsOfVersion entries version (ways_of indexes.old.items) items
        → IsOfVersion entries version slot
        → LeavesNodes entries version nodes.old nodes.new }
    ensures numbers { length result ≡ length indexes.old.items }
    ensures ways { ways_of indexes.new.items ≡ ways_of indexes.old.items }
    ensures spare { nodes.new.spare + length indexes.old.items ≡ nodes.old.spare }
    ensures live { live_count nodes.new ≡ live_count nodes.old + length indexes.old.items }
{
    let mut left = prepared;
    let mut numbers = numbers;
    while let Some(key) = left.pop() {
        let at = left.len();
        let node = put_at(indexes, nodes, at, key, slot, steps);
        numbers.put(at, node);
    }
    numbers
}

/// Takes a node out of the index at a position, and gives it back.
fn drop_at<L: Ledger>(
    indexes: &mut Vec<Index>,
    nodes: &mut Nodes,
    at: usize,
    node: usize,
    steps: &mut Steps<L>,
)
    requires at { at < length indexes.old.items }
    requires stand { (items : Listing) × StandIn nodes.old indexes.old.items items
        × IsNodeAt (ways_of indexes.old.items) at node items }
    ensures stand { (items : Listing) (way : Method × Bool)
        → StandIn nodes.old indexes.old.items items
        → IsNodeAt (ways_of indexes.old.items) at node items
        → slice_get (ways_of indexes.old.items) at ≡ Some way
        → StandIn nodes.new indexes.new.items
        (with_list at (without_node node (items at way.0 way.1)) items) }
    ensures others { (items : Listing) (entries : EntryPool) (version : ℕ)
        → StandIn nodes.old indexes.old.items items
        → IsNodeAt (ways_of indexes.old.items) at node items
        → AreItemsOfVersion entries version (ways_of indexes.old.items) items
        → LeavesNodes entries version nodes.old nodes.new }
    ensures ways { ways_of indexes.new.items ≡ ways_of indexes.old.items }
    ensures spare { nodes.new.spare ≡ nodes.old.spare + 1 }
    ensures live { live_count nodes.new + 1 ≡ live_count nodes.old }
{
    let index = &mut indexes[at];
    index.drop_entry(nodes, node, steps);
}

/// Takes the nodes of an entry out of the indexes, each out of that of its position, and gives them
/// back.
pub(crate) fn drop_each<L: Ledger>(
    indexes: &mut Vec<Index>,
    nodes: &mut Nodes,
    numbers: &[usize],
    steps: &mut Steps<L>,
)
    requires numbers { length numbers.now ≡ length indexes.old.items }
    requires stand { (items : Listing) × StandIn nodes.old indexes.old.items items
        × AreNodes (ways_of indexes.old.items) numbers.now items }
    ensures stand { (items : Listing) → StandIn nodes.old indexes.old.items items
        → AreNodes (ways_of indexes.old.items) numbers.now items
        → StandIn nodes.new indexes.new.items (without_numbers numbers.now items) }
    ensures others { (items : Listing) (entries : EntryPool) (version : ℕ)
        → StandIn nodes.old indexes.old.items items
        → AreNodes (ways_of indexes.old.items) numbers.now items
        → AreItemsOfVersion entries version (ways_of indexes.old.items) items
        → LeavesNodes entries version nodes.old nodes.new }
    ensures ways { ways_of indexes.new.items ≡ ways_of indexes.old.items }
    ensures spare { nodes.new.spare ≡ nodes.old.spare + length indexes.old.items }
    ensures live { live_count nodes.new + length indexes.old.items ≡ live_count nodes.old }
{
    for at in 0..numbers.len() {
        drop_at(indexes, nodes, at, numbers[at], steps);
    }
}
