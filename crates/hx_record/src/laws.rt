ghost use Rattle.std.specs.Prelude.{◌≡◌, ℕ, List, Bool};
ghost use Rattle.hx_record.specs.Record.{Items, items_from};
ghost use Rattle.hx_record.specs.InOrder.{AreItems};

/// The items of the rest of a record, which the contract of a reader names, are its pieces in
/// order, and nothing else is.
#[tactic(auto, using(crate::proofs::LawLemmas::items_are, crate::proofs::LawLemmas::only_items))]
pub fn items_are_the_pieces_in_order()
    ensures are { (ends : Bool) (limit at : ℕ) (bytes : List ℕ)
        → AreItems ends limit at bytes (items_from ends at bytes limit) }
    ensures only { (ends : Bool) (limit at : ℕ) (bytes : List ℕ) (others : Items)
        → AreItems ends limit at bytes others → others ≡ items_from ends at bytes limit }
{}
