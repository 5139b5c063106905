ghost use Rattle.std.specs.Prelude.{◌≡◌, ◌≢◌, ◌+◌, ◌≤◌, ◌++◌, ℕ, List, [], ◌∷◌, Option, None, Some, IsNone};
ghost use Rattle.std.specs.Option.{ForSome};
ghost use Rattle.hx_pool.specs.Pool.{get, IsLive};
ghost use Rattle.hx_pool.specs.Chain.{IsIn, AreApart, first_or, LiesAt, LiesIn, links_at, Relinked};
ghost use Rattle.hx_pool.specs.Linking.{SetsNext, SetsPrev, IsLink, first_after, last_after};
ghost use Rattle.hx_pool.specs.declared.links.Links.{Links};
ghost use Rattle.hx_pool.specs.declared.chain.Chain.{Chain};

use crate::links::{Linked, Links};
use crate::pool::Pool;
use crate::steps::Steps;
use std::sync::ledger::Ledger;

/// A list of numbers of a pool, kept in the links of their values. What a chain lies for is said
/// together with its pool. No call takes memory.
#[derive(Drop)]
pub struct Chain {
    first: Option<usize>,
    last: Option<usize>,
}

impl Chain {
    /// A chain of no numbers. It lies in each pool.
    pub fn new() -> Chain
        ensures { (f : ℕ → Option Links) → LiesAt f result [] }
    {
        Chain {
            first: None,
            last: None,
        }
    }

    /// The first number, or none where the list is empty.
    pub fn front(&self) -> Option<usize>
        ensures { (f : ℕ → Option Links) (xs : List ℕ) → LiesAt f self.now xs
            → result ≡ first_or xs None }
    {
        self.first
    }

    /// The number after `id`, or none where `id` is the last. One step.
    pub fn next<T: Linked, L: Ledger>(
        &self,
        pool: &Pool<T>,
        id: usize,
        steps: &mut Steps<L>,
    ) -> Option<usize>
        requires { (xs : List ℕ) × (ys : List ℕ)
            × LiesIn T.links_of pool.now self.now (xs ++ id ∷ ys) }
        ensures next { (xs ys : List ℕ) → LiesIn T.links_of pool.now self.now (xs ++ id ∷ ys)
            → result ≡ first_or ys None }
        ensures cost { steps.new ≡ steps.old + 1 }
    {
        pool.get(id, steps).links().next
    }

    // Lets `next` follow `prev`, or begin the chain where `prev` is none.
    fn set_next<T: Linked, L: Ledger>(
        &mut self,
        pool: &mut Pool<T>,
        prev: Option<usize>,
        next: Option<usize>,
        steps: &mut Steps<L>,
    )
        requires { ForSome prev (λ p. IsLive pool.old p) }
        ensures first { self.new.first ≡ first_after prev next self.old.first }
        ensures last { self.new.last ≡ self.old.last }
        ensures links { SetsNext (links_at T.links_of pool.old) (links_at T.links_of pool.new)
            prev next }
        ensures values { Relinked T.same pool.old pool.new }
        ensures others { (k : ℕ) → prev ≢ Some k → get pool.new k ≡ get pool.old k }
        ensures cost { steps.new ≤ steps.old + 1 }
    {
        match prev {
            Some(id) => {
                let value = pool.get_mut(id, steps);
                let links = value.links();
                value.set_links(Links {
                    prev: links.prev,
                    next,
                });
            }
            None => self.first = next,
        }
    }

    // Lets `prev` go before `next`, or end the chain where `next` is none.
    fn set_prev<T: Linked, L: Ledger>(
        &mut self,
        pool: &mut Pool<T>,
        next: Option<usize>,
        prev: Option<usize>,
        steps: &mut Steps<L>,
    )
        requires { ForSome next (λ n. IsLive pool.old n) }
        ensures first { self.new.first ≡ self.old.first }
        ensures last { self.new.last ≡ last_after next prev self.old.last }
        ensures links { SetsPrev (links_at T.links_of pool.old) (links_at T.links_of pool.new)
            next prev }
        ensures values { Relinked T.same pool.old pool.new }
        ensures others { (k : ℕ) → next ≢ Some k → get pool.new k ≡ get pool.old k }
        ensures cost { steps.new ≤ steps.old + 1 }
    {
        match next {
            Some(id) => {
                let value = pool.get_mut(id, steps);
                let links = value.links();
                value.set_links(Links {
                    prev,
                    next: links.next,
                });
            }
            None => self.last = prev,
        }
    }

    // Puts `id` between `prev` and `next`, either of which may be an end of the chain.
    fn link<T: Linked, L: Ledger>(
        &mut self,
        pool: &mut Pool<T>,
        prev: Option<usize>,
        id: usize,
        next: Option<usize>,
        steps: &mut Steps<L>,
    )
        requires live { IsLive pool.old id }
        requires prev { ForSome prev (λ p. IsLive pool.old p) }
        requires next { ForSome next (λ n. IsLive pool.old n) }
        ensures parts { IsLink (links_at T.links_of pool.old) (links_at T.links_of pool.new)
            self.old self.new prev id next }
        ensures values { Relinked T.same pool.old pool.new }
        ensures others { (k : ℕ) → k ≢ id → prev ≢ Some k → next ≢ Some k
            → get pool.new k ≡ get pool.old k }
        ensures cost { steps.new ≤ steps.old + 3 }
    {
        set_both(pool, id, Links { prev, next }, steps);
        self.set_next(pool, prev, Some(id), steps);
        self.set_prev(pool, next, Some(id), steps);
    }

    /// Puts `id` last. At most three steps.
    pub fn push_back<T: Linked, L: Ledger>(
        &mut self,
        pool: &mut Pool<T>,
        id: usize,
        steps: &mut Steps<L>,
    )
        requires live { IsLive pool.old id }
        requires lies { (xs : List ℕ) × LiesIn T.links_of pool.old self.old xs × (IsIn id xs → ⊥) }
        ensures lies { (xs : List ℕ) → LiesIn T.links_of pool.old self.old xs → (IsIn id xs → ⊥)
            → LiesIn T.links_of pool.new self.new (xs ++ id ∷ []) }
        ensures values { Relinked T.same pool.old pool.new }
        ensures others { (xs : List ℕ) → LiesIn T.links_of pool.old self.old xs
            → (k : ℕ) → (IsIn k (id ∷ xs) → ⊥) → get pool.new k ≡ get pool.old k }
        ensures apart { (xs zs : List ℕ) (c : Chain) → LiesIn T.links_of pool.old self.old xs
            → AreApart zs (id ∷ xs) → LiesIn T.links_of pool.old c zs
            → LiesIn T.links_of pool.new c zs }
        ensures cost { steps.new ≤ steps.old + 3 }
    {
        let last = self.last;
        self.link(pool, last, id, None, steps);
    }

    /// Puts `id` before `at`. At most four steps.
    pub fn insert_before<T: Linked, L: Ledger>(
        &mut self,
        pool: &mut Pool<T>,
        at: usize,
        id: usize,
        steps: &mut Steps<L>,
    )
        requires live { IsLive pool.old id }
        requires lies { (xs : List ℕ) × (ys : List ℕ)
            × LiesIn T.links_of pool.old self.old (xs ++ at ∷ ys) × (IsIn id (xs ++ at ∷ ys) → ⊥) }
        ensures lies { (xs ys : List ℕ) → LiesIn T.links_of pool.old self.old (xs ++ at ∷ ys)
            → (IsIn id (xs ++ at ∷ ys) → ⊥)
            → LiesIn T.links_of pool.new self.new (xs ++ id ∷ at ∷ ys) }
        ensures values { Relinked T.same pool.old pool.new }
        ensures others { (xs ys : List ℕ) → LiesIn T.links_of pool.old self.old (xs ++ at ∷ ys)
            → (k : ℕ) → (IsIn k (id ∷ xs ++ at ∷ ys) → ⊥) → get pool.new k ≡ get pool.old k }
        ensures apart { (xs ys zs : List ℕ) (c : Chain)
            → LiesIn T.links_of pool.old self.old (xs ++ at ∷ ys)
            → AreApart zs (id ∷ xs ++ at ∷ ys) → LiesIn T.links_of pool.old c zs
            → LiesIn T.links_of pool.new c zs }
        ensures cost { steps.new ≤ steps.old + 4 }
    {
        let prev = pool.get(at, steps).links().prev;
        self.link(pool, prev, id, Some(at), steps);
    }

    /// Takes `id` out. At most three steps.
    pub fn unlink<T: Linked, L: Ledger>(
        &mut self,
        pool: &mut Pool<T>,
        id: usize,
        steps: &mut Steps<L>,
    )
        requires { (xs : List ℕ) × (ys : List ℕ)
            × LiesIn T.links_of pool.old self.old (xs ++ id ∷ ys) }
        ensures lies { (xs ys : List ℕ) → LiesIn T.links_of pool.old self.old (xs ++ id ∷ ys)
            → LiesIn T.links_of pool.new self.new (xs ++ ys) }
        ensures values { Relinked T.same pool.old pool.new }
        ensures others { (xs ys : List ℕ) → LiesIn T.links_of pool.old self.old (xs ++ id ∷ ys)
            → (k : ℕ) → (IsIn k (xs ++ ys) → ⊥) → get pool.new k ≡ get pool.old k }
        ensures apart { (xs ys zs : List ℕ) (c : Chain)
            → LiesIn T.links_of pool.old self.old (xs ++ id ∷ ys)
            → AreApart zs (xs ++ id ∷ ys) → LiesIn T.links_of pool.old c zs
            → LiesIn T.links_of pool.new c zs }
        ensures cost { steps.new ≤ steps.old + 3 }
    {
        let links = pool.get(id, steps).links();
        self.set_next(pool, links.prev, links.next, steps);
        self.set_prev(pool, links.next, links.prev, steps);
    }

    /// Puts the numbers of `other` after these. At most two steps.
    pub fn append<T: Linked, L: Ledger>(
        &mut self,
        other: Chain,
        pool: &mut Pool<T>,
        steps: &mut Steps<L>,
    )
        requires { (xs : List ℕ) × (ys : List ℕ) × LiesIn T.links_of pool.old self.old xs
            × LiesIn T.links_of pool.old other ys × AreApart xs ys }
        ensures lies { (xs ys : List ℕ) → LiesIn T.links_of pool.old self.old xs
            → LiesIn T.links_of pool.old other ys → AreApart xs ys
            → LiesIn T.links_of pool.new self.new (xs ++ ys) }
        ensures values { Relinked T.same pool.old pool.new }
        ensures others { (xs ys : List ℕ) → LiesIn T.links_of pool.old self.old xs
            → LiesIn T.links_of pool.old other ys
            → (k : ℕ) → (IsIn k (xs ++ ys) → ⊥) → get pool.new k ≡ get pool.old k }
        ensures apart { (xs ys zs : List ℕ) (c : Chain) → LiesIn T.links_of pool.old self.old xs
            → LiesIn T.links_of pool.old other ys → AreApart zs (xs ++ ys)
            → LiesIn T.links_of pool.old c zs → LiesIn T.links_of pool.new c zs }
        ensures cost { steps.new ≤ steps.old + 2 }
    {
        let mut back = other;
        let last = self.last;
        let first = back.first;
        self.set_next(pool, last, first, steps);
        back.set_prev(pool, first, last, steps);
        self.last = back.last;
    }
}

// Gives `id` these links.
fn set_both<T: Linked, L: Ledger>(pool: &mut Pool<T>, id: usize, links: Links, steps: &mut Steps<L>)
    requires { IsLive pool.old id }
    ensures links { links_at T.links_of pool.new id ≡ Some links }
    ensures values { Relinked T.same pool.old pool.new }
    ensures others { (k : ℕ) → k ≢ id → get pool.new k ≡ get pool.old k }
    ensures cost { steps.new ≤ steps.old + 1 }
{
    pool.get_mut(id, steps).set_links(links);
}
