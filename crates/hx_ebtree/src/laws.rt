//! Laws: what holds of trees between their calls, each the contract of a function that does
//! nothing.
ghost use Rattle.std.specs.Prelude.{◌≡◌, ◌+◌, ℕ, Bool, List, Option, None, length};
ghost use Rattle.hx_pool.specs.Pool.{Pool, get, IsLive, SameValues, Updates};
ghost use Rattle.hx_pool.specs.Chain.{AreDistinct, Relinked};
ghost use Rattle.hx_ebtree.specs.declared.node.Node.{Node};
ghost use Rattle.hx_ebtree.specs.declared.tree.Tree.{Tree};
ghost use Rattle.hx_ebtree.specs.Node.{IsSameNode};
ghost use Rattle.hx_ebtree.specs.KeyList.{KeyList, numbers_of, ids_of, IsOff, Lists, without};
ghost use Rattle.hx_ebtree.specs.Tree.{KeepsNodes, Stands};

/// The numbers of a tree are live and distinct, so that without one of them there is one pair less.
/// A number that isn't live is in no tree, and one that was taken out isn't in it any more.
pub fn a_tree_has_distinct_live_numbers<V>()
    ensures live { (p : Pool (Node V)) (t : Tree) (pairs : KeyList) (id : ℕ) → Stands p t pairs
        → Lists pairs id → IsLive p id }
    ensures off { (p : Pool (Node V)) (t : Tree) (pairs : KeyList) (id : ℕ) → Stands p t pairs
        → get p id ≡ None → IsOff id pairs }
    ensures distinct { (p : Pool (Node V)) (t : Tree) (pairs : KeyList) → Stands p t pairs
        → AreDistinct (ids_of pairs) }
    ensures fewer { (p : Pool (Node V)) (t : Tree) (pairs : KeyList) (id : ℕ) → Stands p t pairs
        → Lists pairs id → length (without id pairs) + 1 ≡ length pairs }
    ensures gone { (pairs : KeyList) (id : ℕ) → IsOff id (without id pairs) }
{}

/// A tree stands for its list as before where the numbers of the list keep their values. So it does
/// where more slots are reserved, and where a number that isn't in the list is taken, given back or
/// changed.
pub fn a_tree_keeps_its_list<V>()
    ensures values { (old new : Pool (Node V)) (t : Tree) (pairs : KeyList) → Stands old t pairs
        → ((k : ℕ) → Lists pairs k → get new k ≡ get old k) → Stands new t pairs }
    ensures reserved { (old new : Pool (Node V)) (t : Tree) (pairs : KeyList) → Stands old t pairs
        → SameValues old new → Stands new t pairs }
    ensures changed { (old new : Pool (Node V)) (t : Tree) (pairs : KeyList) (id : ℕ)
        (value : Option (Node V)) → Stands old t pairs → IsOff id pairs → Updates old new id value
        → Stands new t pairs }
{}

/// A tree stands for each list that has the same numbers in the same order for each key.
pub fn a_tree_keeps_no_order_of_keys<V>()
    ensures { (p : Pool (Node V)) (t : Tree) (pairs others : KeyList) → Stands p t pairs
        → ((key : List Bool) → numbers_of key others ≡ numbers_of key pairs) → Stands p t others }
{}

/// Changes that keep each node's key, entry and value keep them together, and live numbers stay
/// live. No change is such a change, and so is one of links alone.
pub fn nodes_are_kept<V>()
    ensures none { (p : Pool (Node V)) → KeepsNodes p p }
    ensures both { (p q r : Pool (Node V)) → KeepsNodes p q → KeepsNodes q r → KeepsNodes p r }
    ensures live { (old new : Pool (Node V)) (id : ℕ) → KeepsNodes old new → IsLive old id
        → IsLive new id }
    ensures relinked { (old new : Pool (Node V)) → Relinked IsSameNode old new
        → KeepsNodes old new }
{}
