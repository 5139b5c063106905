//! The content of a version that waits is taken apart bit by bit.
ghost use Rattle.std.specs.Prelude.{◌≡◌, ◌≢◌, ◌+◌, ◌<◌, ◌≤◌, ℕ, Bool, true, false, List, [], ◌∷◌, Some, All, length, map, min, slice_get, sum};
ghost use Rattle.hx_text.specs.declared.kinds.By.{By as Method};
ghost use Rattle.hx_pool.specs.Pool.{get, live_count};
ghost use Rattle.hx_pool.specs.Chain.{LiesIn};
ghost use Rattle.hx_index.specs.Items.{Item, LeavesOut};
ghost use Rattle.hx_versions.specs.declared.stored_entry.StoredEntry.{StoredEntry as Stored};
ghost use Rattle.hx_versions.specs.StoredEntries.{entry_links};
ghost use Rattle.hx_versions.specs.Contents.{remaining_items, remaining_slots, ways_of, with_list, AreItemsOfVersion, EntryPool, IsOfVersion, IsRetired, IsTakenFrom, LeavesEntries, LeavesNodes, LeavesOthers, Listing, Remains, StandIn};

use crate::content::{Content, give_back};
use crate::stored_entry::StoredEntry;
use hx_index::{Index, Nodes};
use hx_pool::{Chain, Pool, Steps};
use std::sync::ledger::Ledger;

/// Takes `n` nodes out of the index at a position, or all where there are fewer, and gives them
/// back. It answers how many.
fn dismantle_at<L: Ledger>(
    indexes: &mut Vec<Index>,
    nodes: &mut Nodes,
    at: usize,
    n: usize,
    steps: &mut Steps<L>,
) -> usize
    requires at { at < length indexes.old.items }
    requires stand { (items : Listing) × StandIn nodes.old indexes.old.items items }
    ensures most { result ≤ n }
    ensures count { (items : Listing) (way : Method × Bool)
        → StandIn nodes.old indexes.old.items items
        → slice_get (ways_of indexes.old.items) at ≡ Some way
        → result ≡ min n (length (items at way.0 way.1)) }
    ensures stand { (items : Listing) (way : Method × Bool)
        → StandIn nodes.old indexes.old.items items
        → slice_get (ways_of indexes.old.items) at ≡ Some way
        → (left : List Item) × StandIn nodes.new indexes.new.items (with_list at left items)
        × LeavesOut result (items at way.0 way.1) left }
    ensures others { (items : Listing) (entries : EntryPool) (version : ℕ)
        → StandIn nodes.old indexes.old.items items
        → AreItemsOfVersion entries version (ways_of indexes.old.items) items
        → LeavesNodes entries version nodes.old nodes.new }
    ensures ways { ways_of indexes.new.items ≡ ways_of indexes.old.items }
    ensures live { live_count nodes.new + result ≡ live_count nodes.old }
{
    let index = &mut indexes[at];
    index.dismantle(nodes, n, steps)
}

/// Takes `n` nodes out of indexes, or all where there are fewer, and gives them back. It answers
/// how many.
fn dismantle_each<L: Ledger>(
    indexes: &mut Vec<Index>,
    nodes: &mut Nodes,
    n: usize,
    steps: &mut Steps<L>,
) -> usize
    requires { (lists : List (List Item)) × (length lists ≡ length indexes.old.items)
        × StandIn nodes.old indexes.old.items (remaining_items lists) }
    ensures count { (lists : List (List Item)) → length lists ≡ length indexes.old.items
        → StandIn nodes.old indexes.old.items (remaining_items lists)
        → result ≡ min n (sum (map length lists)) }
    ensures stand { (lists : List (List Item)) → length lists ≡ length indexes.old.items
        → StandIn nodes.old indexes.old.items (remaining_items lists)
        → (left : List (List Item)) × IsTakenFrom result lists left
        × StandIn nodes.new indexes.new.items (remaining_items left) }
    ensures others { (lists : List (List Item)) (entries : EntryPool) (version : ℕ)
        → length lists ≡ length indexes.old.items
        → StandIn nodes.old indexes.old.items (remaining_items lists)
        → All (All (λ (item : Item). IsOfVersion entries version item.entry)) lists
        → LeavesNodes entries version nodes.old nodes.new }
    ensures ways { ways_of indexes.new.items ≡ ways_of indexes.old.items }
    ensures live { live_count nodes.new + result ≡ live_count nodes.old }
{
    let mut given = 0;
    for at in 0..indexes.len() {
        let more = dismantle_at(indexes, nodes, at, n - given, steps);
        given += more;
    }
    given
}

/// Takes the first entry out of a chain and gives its slot back, if there is one.
fn drop_first<L: Ledger>(
    chain: &mut Chain,
    entries: &mut Pool<StoredEntry>,
    steps: &mut Steps<L>,
) -> bool
    requires { (slots : List ℕ) × LiesIn entry_links entries.old chain.old slots }
    ensures some { (version : ℕ) (slots : List ℕ) → LiesIn entry_links entries.old chain.old slots
        → All (IsOfVersion entries.old version) slots → result ≡ true
        → (first : ℕ) × (rest : List ℕ) × (slots ≡ first ∷ rest)
        × LiesIn entry_links entries.new chain.new rest
        × All (IsOfVersion entries.new version) rest
        × LeavesEntries version entries.old entries.new }
    ensures none { (slots : List ℕ) → LiesIn entry_links entries.old chain.old slots
        → result ≡ false → slots ≡ [] }
    ensures live { result ≡ true → live_count entries.new + 1 ≡ live_count entries.old }
    ensures same { result ≡ false → (entries.new ≡ entries.old) × (chain.new ≡ chain.old) }
{
    let Some(slot) = chain.front() else {
        return false;
    };
    chain.unlink(entries, slot, steps);
    give_back(entries, slot);
    true
}

/// Takes the first `n` entries out of a chain and gives their slots back, or all where there are
/// fewer. It answers how many.
fn drop_entries<L: Ledger>(
    chain: &mut Chain,
    entries: &mut Pool<StoredEntry>,
    n: usize,
    steps: &mut Steps<L>,
) -> usize
    requires { (version : ℕ) × (slots : List ℕ) × LiesIn entry_links entries.old chain.old slots
        × All (IsOfVersion entries.old version) slots }
    ensures count { (version : ℕ) (slots : List ℕ) → LiesIn entry_links entries.old chain.old slots
        → All (IsOfVersion entries.old version) slots → result ≡ min n (length slots) }
    ensures chain { (version : ℕ) (slots : List ℕ) → LiesIn entry_links entries.old chain.old slots
        → All (IsOfVersion entries.old version) slots → (left : List ℕ)
        × LiesIn entry_links entries.new chain.new left
        × All (IsOfVersion entries.new version) left × (length left + result ≡ length slots) }
    ensures others { (version : ℕ) (slots : List ℕ)
        → LiesIn entry_links entries.old chain.old slots
        → All (IsOfVersion entries.old version) slots
        → LeavesEntries version entries.old entries.new }
    ensures live { live_count entries.new + result ≡ live_count entries.old }
{
    for taken in 0..n {
        let dropped = drop_first(chain, entries, steps);
        if !dropped {
            return taken;
        }
    }
    n
}

impl Content {
    /// Gives back `n` of the slots that are left, or all where there are fewer, and answers how
    /// many. Nodes come first, since they name their entries.
    pub(crate) fn dismantle<L: Ledger>(
        &mut self,
        entries: &mut Pool<StoredEntry>,
        nodes: &mut Nodes,
        n: usize,
        steps: &mut Steps<L>,
    ) -> usize
        requires { (version : ℕ) × (left : Remains)
            × IsRetired entries.old nodes.old version self.old left }
        ensures count { (version : ℕ) (left : Remains)
            → IsRetired entries.old nodes.old version self.old left
            → result ≡ min n (remaining_slots left) }
        ensures content { (version : ℕ) (left : Remains)
            → IsRetired entries.old nodes.old version self.old left → (now : Remains)
            × IsRetired entries.new nodes.new version self.new now
            × (remaining_slots now + result ≡ remaining_slots left) }
        ensures others { (version : ℕ) (left : Remains)
            → IsRetired entries.old nodes.old version self.old left
            → LeavesOthers version entries.old entries.new nodes.old nodes.new }
        ensures live { live_count entries.new + live_count nodes.new + result
            ≡ live_count entries.old + live_count nodes.old }
        ensures fewer_entries { live_count entries.new ≤ live_count entries.old }
        ensures fewer_nodes { live_count nodes.new ≤ live_count nodes.old }
    {
        let given = dismantle_each(&mut self.indexes, nodes, n, steps);
        if given == n {
            return n;
        }
        let more = drop_entries(&mut self.entries, entries, n - given, steps);
        given + more
    }
}
