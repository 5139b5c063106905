//! Laws: what holds of indexes between their calls, each the contract of a function that does
//! nothing.
ghost use Rattle.std.specs.Prelude.{◌≡◌, ℕ, List, Option, None};
ghost use Rattle.hx_pool.specs.Pool.{get, IsLive, SameValues, Updates};
ghost use Rattle.hx_pool.specs.Chain.{AreDistinct, IsIn};
ghost use Rattle.hx_ebtree.specs.declared.node.Node.{Node};
ghost use Rattle.hx_match.specs.Patterns.{PatternText};
ghost use Rattle.hx_index.specs.declared.index.Index.{Index};
ghost use Rattle.hx_index.specs.Items.{Item, nodes_of};
ghost use Rattle.hx_index.specs.Index.{Holds, NodePool};

/// The nodes of an index are live and distinct. A number that isn't live is in no index.
pub fn an_index_has_distinct_live_nodes()
    ensures live { (nodes : NodePool) (index : Index) (items : List Item) (id : ℕ)
        → Holds nodes index items → IsIn id (nodes_of items) → IsLive nodes id }
    ensures off { (nodes : NodePool) (index : Index) (items : List Item) (id : ℕ)
        → Holds nodes index items → get nodes id ≡ None → IsIn id (nodes_of items) → ⊥ }
    ensures distinct { (nodes : NodePool) (index : Index) (items : List Item)
        → Holds nodes index items → AreDistinct (nodes_of items) }
{}

/// An index stands for its items as before where its own nodes keep their values. So it does where
/// more slots are reserved, and where a number that isn't one of its nodes is taken, given back or
/// changed.
pub fn an_index_keeps_its_items()
    ensures values { (old new : NodePool) (index : Index) (items : List Item)
        → Holds old index items → ((k : ℕ) → IsIn k (nodes_of items) → get new k ≡ get old k)
        → Holds new index items }
    ensures reserved { (old new : NodePool) (index : Index) (items : List Item)
        → Holds old index items → SameValues old new → Holds new index items }
    ensures changed { (old new : NodePool) (index : Index) (items : List Item) (id : ℕ)
        (value : Option (Node PatternText)) → Holds old index items
        → (IsIn id (nodes_of items) → ⊥) → Updates old new id value → Holds new index items }
{}
