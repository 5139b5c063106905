//! Laws: what holds of pools and chains between their calls, each the contract of a function that
//! does nothing.
ghost use Rattle.std.specs.Prelude.{◌≡◌, ℕ, List, Option, None, length};
ghost use Rattle.hx_pool.specs.declared.chain.Chain.{Chain};
ghost use Rattle.hx_pool.specs.Pool.{Pool, get, IsLive, SameValues, Updates};
ghost use Rattle.hx_pool.specs.Chain.{IsIn, AreDistinct, LiesIn, links_at, numbers_in};

use crate::links::Linked;

/// A chain and its pool have one list for which the chain lies, of distinct live numbers: those
/// that are met along the links.
pub fn a_chain_has_one_list<T: Linked>()
    ensures numbers { (p : Pool T) (c : Chain) (xs : List ℕ) → LiesIn T.links_of p c xs
        → numbers_in T.links_of p c (length xs) ≡ xs }
    ensures one { (p : Pool T) (c : Chain) (xs ys : List ℕ) → LiesIn T.links_of p c xs
        → LiesIn T.links_of p c ys → xs ≡ ys }
    ensures distinct { (p : Pool T) (c : Chain) (xs : List ℕ) → LiesIn T.links_of p c xs
        → AreDistinct xs }
    ensures live { (p : Pool T) (c : Chain) (xs : List ℕ) (id : ℕ) → LiesIn T.links_of p c xs
        → IsIn id xs → IsLive p id }
    ensures off { (p : Pool T) (c : Chain) (xs : List ℕ) (id : ℕ) → LiesIn T.links_of p c xs
        → get p id ≡ None → IsIn id xs → ⊥ }
{}

/// A chain lies for its list as before where the numbers of the list keep their links. So it does
/// where more slots are reserved, and where a number that isn't in the list is taken, given back or
/// changed.
pub fn a_chain_keeps_its_list<T: Linked>()
    ensures links { (old new : Pool T) (c : Chain) (xs : List ℕ) → LiesIn T.links_of old c xs
        → ((k : ℕ) → IsIn k xs → links_at T.links_of new k ≡ links_at T.links_of old k)
        → LiesIn T.links_of new c xs }
    ensures values { (old new : Pool T) (c : Chain) (xs : List ℕ) → LiesIn T.links_of old c xs
        → ((k : ℕ) → IsIn k xs → get new k ≡ get old k) → LiesIn T.links_of new c xs }
    ensures reserved { (old new : Pool T) (c : Chain) (xs : List ℕ) → LiesIn T.links_of old c xs
        → SameValues old new → LiesIn T.links_of new c xs }
    ensures changed { (old new : Pool T) (c : Chain) (xs : List ℕ) (id : ℕ) (value : Option T)
        → LiesIn T.links_of old c xs → (IsIn id xs → ⊥) → Updates old new id value
        → LiesIn T.links_of new c xs }
{}
