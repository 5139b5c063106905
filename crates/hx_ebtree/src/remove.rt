//! Nodes are taken out of a tree.
ghost use Rattle.std.specs.Prelude.{◌≡◌, ◌≢◌, ◌+◌, ◌*◌, ◌≤◌, ◌++◌, length, [], ◌∷◌, ℕ, Bool, List, Option, Some, None};
ghost use Rattle.std.specs.Option.{ForSome};
ghost use Rattle.hx_pool.specs.Pool.{get, IsLive};
ghost use Rattle.hx_pool.specs.Chain.{IsIn, LiesAt, LiesIn};
ghost use Rattle.hx_pool.specs.declared.chain.Chain.{Chain as LinkChain};
ghost use Rattle.hx_ebtree.specs.declared.tree.Tree.{Tree as Other};
ghost use Rattle.hx_ebtree.specs.Node.{key_of, links_of};
ghost use Rattle.hx_ebtree.specs.declared.node.Node.{Node as Entry};
ghost use Rattle.hx_ebtree.specs.declared.node.Up.{Up as Place};
ghost use Rattle.hx_ebtree.specs.KeyList.{KeyList, exact_of, IsOff, Lists, without};
ghost use Rattle.hx_ebtree.specs.Shape.{Shape, LeafPart, links_in};
ghost use Rattle.hx_ebtree.specs.Tree.{leaves_of, forks_of, KeepsNodes, Stands};
ghost use Rattle.hx_ebtree.specs.Change.{node_of};
ghost use Rattle.hx_ebtree.specs.Remove.{Unchains, Shortens, MakesFirst, Cuts, MovesPart};
ghost use Rattle.hx_ebtree.specs.Remove.{IsFirst, IsGap, IsWithout, other_of};

use crate::node::{Branch, Down, Node, Up};
use crate::parts::{put_chain, set_branch, set_first, set_up, take_chain};
use crate::tree::Tree;
use hx_pool::{Chain, Linked, Pool, Steps};
use std::sync::ledger::Ledger;

/// Takes the chain out of the node that keeps it, and `id` out of the chain. At most four steps.
fn unchain<V, L: Ledger>(
    pool: &mut Pool<Node<V>>,
    front: usize,
    id: usize,
    steps: &mut Steps<L>,
) -> Chain
    requires { (part : LeafPart) × (xs : List ℕ) × (ys : List ℕ)
        × (leaves_of pool.old front ≡ Some part)
        × LiesAt (links_in (leaves_of pool.old)) part.chain (xs ++ id ∷ ys) }
    ensures parts { Unchains (leaves_of pool.old) (forks_of pool.old)
        (leaves_of pool.new) (forks_of pool.new) front id result }
    ensures kept { KeepsNodes pool.old pool.new }
    ensures others { (part : LeafPart) (xs ys : List ℕ) → leaves_of pool.old front ≡ Some part
        → LiesAt (links_in (leaves_of pool.old)) part.chain (xs ++ id ∷ ys)
        → (k : ℕ) → (IsIn k (xs ++ id ∷ ys) → ⊥) → k ≢ front → get pool.new k ≡ get pool.old k }
    ensures cost { steps.new ≤ steps.old + 4 }
{
    let mut chain = take_chain(pool, front, steps);
    chain.unlink(pool, id, steps);
    chain
}

/// Takes `id` out of the chain that `front` keeps. At most five steps.
fn shorten<V, L: Ledger>(pool: &mut Pool<Node<V>>, front: usize, id: usize, steps: &mut Steps<L>)
    requires live { IsLive pool.old front }
    requires lies { (part : LeafPart) × (xs : List ℕ) × (ys : List ℕ)
        × (leaves_of pool.old front ≡ Some part)
        × LiesAt (links_in (leaves_of pool.old)) part.chain (xs ++ id ∷ ys) }
    ensures parts { Shortens (leaves_of pool.old) (forks_of pool.old)
        (leaves_of pool.new) (forks_of pool.new) front id }
    ensures kept { KeepsNodes pool.old pool.new }
    ensures others { (part : LeafPart) (xs ys : List ℕ) → leaves_of pool.old front ≡ Some part
        → LiesAt (links_in (leaves_of pool.old)) part.chain (xs ++ id ∷ ys)
        → (k : ℕ) → (IsIn k (xs ++ id ∷ ys) → ⊥) → k ≢ front → get pool.new k ≡ get pool.old k }
    ensures cost { steps.new ≤ steps.old + 5 }
{
    let chain = unchain(pool, front, id, steps);
    put_chain(pool, front, chain, steps);
}

impl Tree {
    /// Lets `next` keep the chain, and hangs its leaf at `up`. At most two steps.
    fn make_first<V, L: Ledger>(
        &mut self,
        pool: &mut Pool<Node<V>>,
        next: usize,
        chain: Chain,
        up: Option<Up>,
        steps: &mut Steps<L>,
    )
        requires next { IsLive pool.old next }
        requires up { ForSome up (λ u. IsLive pool.old u.node) }
        ensures parts { MakesFirst (leaves_of pool.old) (forks_of pool.old) self.old.root
            (leaves_of pool.new) (forks_of pool.new) self.new.root next chain up }
        ensures kept { KeepsNodes pool.old pool.new }
        ensures others { (k : ℕ) → k ≢ next → ((u : Place) → up ≡ Some u → u.node ≢ k)
            → get pool.new k ≡ get pool.old k }
        ensures cost { steps.new ≤ steps.old + 2 }
    {
        set_first(pool, next, chain, up, steps);
        self.set_down(pool, up, Down::Leaf(next), steps);
    }

    /// Hangs what `other` points to at `up`, in place of the branch of `m`, which is then free. At
    /// most three steps.
    fn cut<V, L: Ledger>(
        &mut self,
        pool: &mut Pool<Node<V>>,
        m: usize,
        up: Option<Up>,
        other: Down,
        steps: &mut Steps<L>,
    )
        requires m { IsLive pool.old m }
        requires up { ForSome up (λ u. IsLive pool.old u.node) }
        requires other { IsLive pool.old (node_of other) }
        ensures parts { Cuts (leaves_of pool.old) (forks_of pool.old) self.old.root
            (leaves_of pool.new) (forks_of pool.new) self.new.root m up other }
        ensures kept { KeepsNodes pool.old pool.new }
        ensures others { (k : ℕ) → k ≢ m → k ≢ node_of other
            → ((u : Place) → up ≡ Some u → u.node ≢ k) → get pool.new k ≡ get pool.old k }
        ensures cost { steps.new ≤ steps.old + 3 }
    {
        set_up(pool, other, up, steps);
        self.set_down(pool, up, other, steps);
        set_branch(pool, m, None, steps);
    }

    /// Moves the branch part of `a` to `b`. At most five steps.
    fn move_part<V, L: Ledger>(
        &mut self,
        pool: &mut Pool<Node<V>>,
        a: usize,
        b: usize,
        part: Branch,
        steps: &mut Steps<L>,
    )
        requires a { IsLive pool.old a }
        requires b { IsLive pool.old b }
        requires left { IsLive pool.old (node_of part.left) }
        requires right { IsLive pool.old (node_of part.right) }
        requires up { ForSome part.up (λ u. IsLive pool.old u.node) }
        ensures parts { MovesPart (leaves_of pool.old) (forks_of pool.old) self.old.root
            (leaves_of pool.new) (forks_of pool.new) self.new.root a b part }
        ensures kept { KeepsNodes pool.old pool.new }
        ensures others { (k : ℕ) → k ≢ a → k ≢ b → k ≢ node_of part.left → k ≢ node_of part.right
            → ((u : Place) → part.up ≡ Some u → u.node ≢ k) → get pool.new k ≡ get pool.old k }
        ensures cost { steps.new ≤ steps.old + 5 }
    {
        set_branch(pool, b, Some(part), steps);
        set_up(
            pool,
            part.left,
            Some(Up {
                node: b,
                right: false,
            }),
            steps,
        );
        set_up(
            pool,
            part.right,
            Some(Up {
                node: b,
                right: true,
            }),
            steps,
        );
        self.set_down(pool, part.up, Down::Branch(b), steps);
        set_branch(pool, a, None, steps);
    }
}

/// What hangs on the other side of a branch.
fn other_side(part: Branch, right: bool) -> Down
    ensures { result ≡ other_of right part }
{
    if right { part.left } else { part.right }
}

impl Tree {
    /// Takes out a leaf that is alone, which hung at `up`, and answers the node whose branch part
    /// is then free. At most four steps.
    fn cut_leaf<V, L: Ledger>(
        &mut self,
        pool: &mut Pool<Node<V>>,
        id: usize,
        up: Option<Up>,
        steps: &mut Steps<L>,
    ) -> usize
        requires live { IsLive pool.old id }
        requires gap { (pairs : KeyList)
            × IsGap (leaves_of pool.old) (forks_of pool.old) self.old.root id up pairs }
        ensures without { (pairs : KeyList)
            → IsGap (leaves_of pool.old) (forks_of pool.old) self.old.root id up pairs
            → (shape : Option Shape) × IsWithout (leaves_of pool.new) (forks_of pool.new)
            self.new.root id result shape (without id pairs) }
        ensures live { IsLive pool.new result }
        ensures kept { KeepsNodes pool.old pool.new }
        ensures others { (pairs : KeyList)
            → IsGap (leaves_of pool.old) (forks_of pool.old) self.old.root id up pairs
            → (k : ℕ) → IsOff k pairs → get pool.new k ≡ get pool.old k }
        ensures cost { steps.new ≤ steps.old + 4 }
    {
        match up {
            None => {
                self.root = None;
                id
            }
            Some(place) => match pool.get(place.node, steps).branch {
                Some(part) => {
                    let other = other_side(part, place.right);
                    self.cut(pool, place.node, part.up, other, steps);
                    place.node
                }
                None => unreachable!(),
            },
        }
    }

    /// Takes out the first node of a key, but for its branch part, and answers the node that can
    /// take that over. At most nine steps.
    fn detach<V, L: Ledger>(
        &mut self,
        pool: &mut Pool<Node<V>>,
        id: usize,
        steps: &mut Steps<L>,
    ) -> usize
        requires { (pairs : KeyList)
            × IsFirst (leaves_of pool.old) (forks_of pool.old) self.old.root id pairs }
        ensures without { (pairs : KeyList)
            → IsFirst (leaves_of pool.old) (forks_of pool.old) self.old.root id pairs
            → (shape : Option Shape) × IsWithout (leaves_of pool.new) (forks_of pool.new)
            self.new.root id result shape (without id pairs) }
        ensures live { IsLive pool.new result }
        ensures kept { KeepsNodes pool.old pool.new }
        ensures others { (pairs : KeyList)
            → IsFirst (leaves_of pool.old) (forks_of pool.old) self.old.root id pairs
            → (k : ℕ) → IsOff k pairs → get pool.new k ≡ get pool.old k }
        ensures cost { steps.new ≤ steps.old + 9 }
    {
        let up = pool.get(id, steps).leaf_up;
        let chain = unchain(pool, id, id, steps);
        match chain.front() {
            Some(next) => {
                self.make_first(pool, next, chain, up, steps);
                next
            }
            None => self.cut_leaf(pool, id, up, steps),
        }
    }

    /// Moves the branch part of `a`, if it is in use, to `b`. At most six steps.
    fn move_branch<V, L: Ledger>(
        &mut self,
        pool: &mut Pool<Node<V>>,
        a: usize,
        b: usize,
        steps: &mut Steps<L>,
    )
        requires a { IsLive pool.old a }
        requires b { IsLive pool.old b }
        requires without { (shape : Option Shape) × (pairs : KeyList)
            × IsWithout (leaves_of pool.old) (forks_of pool.old) self.old.root a b shape pairs }
        ensures stands { (shape : Option Shape) (pairs : KeyList)
            → IsWithout (leaves_of pool.old) (forks_of pool.old) self.old.root a b shape pairs
            → Stands pool.new self.new pairs }
        ensures kept { KeepsNodes pool.old pool.new }
        ensures others { (shape : Option Shape) (pairs : KeyList)
            → IsWithout (leaves_of pool.old) (forks_of pool.old) self.old.root a b shape pairs
            → (k : ℕ) → IsOff k pairs → k ≢ a → get pool.new k ≡ get pool.old k }
        ensures cost { steps.new ≤ steps.old + 6 }
    {
        match pool.get(a, steps).branch {
            Some(part) => self.move_part(pool, a, b, part, steps),
            None => (),
        }
    }

    /// Takes out the first node of a key. At most fifteen steps.
    pub(crate) fn remove_first<V, L: Ledger>(
        &mut self,
        pool: &mut Pool<Node<V>>,
        id: usize,
        steps: &mut Steps<L>,
    )
        requires { (pairs : KeyList)
            × IsFirst (leaves_of pool.old) (forks_of pool.old) self.old.root id pairs }
        ensures stands { (pairs : KeyList)
            → IsFirst (leaves_of pool.old) (forks_of pool.old) self.old.root id pairs
            → Stands pool.new self.new (without id pairs) }
        ensures kept { KeepsNodes pool.old pool.new }
        ensures others { (pairs : KeyList)
            → IsFirst (leaves_of pool.old) (forks_of pool.old) self.old.root id pairs
            → (k : ℕ) → IsOff k pairs → get pool.new k ≡ get pool.old k }
        ensures cost { steps.new ≤ steps.old + 15 }
    {
        let next = self.detach(pool, id, steps);
        self.move_branch(pool, id, next, steps);
    }

    /// Takes the node `id` out of the tree. The others of its key stay in their order. At most two
    /// steps for each bit of its key, and sixteen more; for the oldest node of a key at most
    /// sixteen.
    pub fn remove<V, L: Ledger>(
        &mut self,
        pool: &mut Pool<Node<V>>,
        id: usize,
        steps: &mut Steps<L>,
    )
        requires { (pairs : KeyList) × Stands pool.old self.old pairs × Lists pairs id }
        ensures stands { (pairs : KeyList) → Stands pool.old self.old pairs → Lists pairs id
            → Stands pool.new self.new (without id pairs) }
        ensures kept { KeepsNodes pool.old pool.new }
        ensures others { (pairs : KeyList) → Stands pool.old self.old pairs → Lists pairs id
            → (k : ℕ) → IsOff k pairs → get pool.new k ≡ get pool.old k }
        ensures other_trees { (pairs others : KeyList) (t : Other) → Stands pool.old self.old pairs
            → Lists pairs id → Stands pool.old t others
            → ((k : ℕ) → Lists others k → IsOff k pairs) → Stands pool.new t others }
        ensures chains { (pairs : KeyList) (c : LinkChain) (xs : List ℕ)
            → Stands pool.old self.old pairs → Lists pairs id → LiesIn links_of pool.old c xs
            → ((k : ℕ) → IsIn k xs → IsOff k pairs) → LiesIn links_of pool.new c xs }
        ensures cost { (node : Entry V) → get pool.old id ≡ Some node
            → steps.new ≤ steps.old + 2 * length (key_of node) + 16 }
        ensures first { (pairs : KeyList) (key : List Bool) → Stands pool.old self.old pairs
            → exact_of pairs key ≡ Some id → steps.new ≤ steps.old + 16 }
    {
        let node = pool.get(id, steps);
        match node.links().prev {
            None => self.remove_first(pool, id, steps),
            Some(_) => match self.exact(pool, node.key.bytes(), node.key.len(), steps) {
                Some(front) => shorten(pool, front, id, steps),
                None => unreachable!(),
            },
        }
    }
}
