//! Blocks of memory: places in a row, each of which holds a value or has room for one. The six
//! functions of this file are the only ones of the crate that touch a pointer.
ghost use Rattle.std.specs.Prelude.{◌≡◌, ℕ, ◌<◌, List, Option, Some, None, length, replicate, get_or, slice_set, IfOk, ⊤};
ghost use Rattle.std.specs.Borrow.{sem};
ghost use Rattle.std.specs.Vec.Ownership.{FitsInBlock};
ghost use base.Fml.{ftrue};
ghost use denote.RawPtr.{Ptr};
ghost use Rattle.hx_pool.specs.Memory.{HoldsAt, owns_places, lends_places, owns_block};

use std::alloc::{AllocError, Allocator};
use std::marker::{Model, PhantomData};
use std::mem::{align_of, size_of};

/// Where the places of a block begin. It owns nothing.
pub(crate) struct Start<X> {
    address: *mut X,
}

impl<X> Clone for Start<X> {
    ghost is_clone = { λ x y. y ≡ x };

    ghost is_infallible = { λ _. ⊤ };

    fn clone(&self) -> Result<Start<X>, AllocError> {
        Ok(*self)
    }
}

impl<X> Copy for Start<X> {}

/// The owner of the places and of the values in them. It takes no bytes. It can't be dropped, so
/// each value is read out before the block is given back.
pub(crate) struct Places<X> {
    mark: PhantomData<*const X>,
    ghost start: { Ptr },
    ghost values: { List (Option X) },
}

impl<X> Model for Places<X> {
    ghost also_owns = { λ p. owns_places X.row p.start p.values };

    ghost also_shares = { λ p _ κ. lends_places X.row p.start p.values κ };
}

/// The right to give a block of so many places back to its allocator. It takes no bytes, and can't
/// be dropped, so no block is forgotten.
pub(crate) struct Claim<X, A: Allocator> {
    mark: PhantomData<*const (X, A)>,
    ghost start: { Ptr },
    ghost count: { ℕ },
    ghost alloc: { A },
}

impl<X, A: Allocator> Model for Claim<X, A> {
    ghost also_owns = { λ c. owns_block X.row (A.dealloc_token c.alloc) c.start c.count };

    ghost also_shares = { λ _ _ _. ftrue };
}

/// A block of `count` places without values.
pub(crate) fn allocate<X, A: Allocator>(
    alloc: &A,
    count: usize,
) -> Result<(Start<X>, Places<X>, Claim<X, A>), AllocError>
    requires { FitsInBlock X.row count }
    ensures { IfOk result (λ r. (r.1.start ≡ r.0.address) × (r.1.values ≡ replicate count None)
        × (r.2.start ≡ r.0.address) × (r.2.count ≡ count) × (r.2.alloc ≡ alloc.now)) }
{
    match alloc.allocate(count * size_of::<X>(), align_of::<X>()) {
        Ok(block) => {
            let start = Start {
                address: block as *mut X,
            };
            Ok((
                start,
                Places { mark: PhantomData },
                Claim { mark: PhantomData },
            ))
        }
        Err(error) => Err(error),
    }
}

/// Gives a block back, once none of its places holds a value.
pub(crate) fn deallocate<X, A: Allocator>(
    alloc: &A,
    start: Start<X>,
    count: usize,
    places: Places<X>,
    claim: Claim<X, A>,
)
    requires { (places.start ≡ start.address) × (places.values ≡ replicate count None)
        × (claim.start ≡ start.address) × (claim.count ≡ count) × (claim.alloc ≡ alloc.now) }
{
    let Places { mark: _ } = places;
    let Claim { mark: _ } = claim;
    unsafe {
        alloc.deallocate(
            start.address as *mut u8,
            count * size_of::<X>(),
            align_of::<X>(),
        );
    }
}

impl<X> Places<X> {
    ghost use Rattle.hx_pool.specs.Lends.{lends_place};

    /// Puts a value into a place that has room.
    pub(crate) fn write(&mut self, start: Start<X>, index: usize, value: X)
        requires { (start.address ≡ self.old.start) × (index < length self.old.values)
            × (get_or self.old.values index None ≡ None) }
        ensures { (self.new.start ≡ self.old.start)
            × (self.new.values ≡ slice_set self.old.values index (Some value)) }
    {
        unsafe { start.address.add(index).write(value) }
    }

    /// Takes the value of a place out, which has room from then on.
    pub(crate) fn read(&mut self, start: Start<X>, index: usize) -> X
        requires { (start.address ≡ self.old.start) × HoldsAt self.old.values index }
        ensures value { get_or self.old.values index None ≡ Some result }
        ensures places { (self.new.start ≡ self.old.start)
            × (self.new.values ≡ slice_set self.old.values index None) }
    {
        unsafe { start.address.add(index).read() }
    }

    /// The value of a place, lent.
    pub(crate) fn get(&self, start: Start<X>, index: usize) -> &X
        requires { (start.address ≡ self.now.start) × HoldsAt self.now.values index }
        ensures { get_or self.now.values index None ≡ Some result.now }
    {
        unsafe { &*start.address.add(index) }
    }

    /// The value of a place, lent for changes.
    pub(crate) fn get_mut(&mut self, start: Start<X>, index: usize) -> &mut X
        requires { (start.address ≡ self.old.start) × HoldsAt self.old.values index }
        ensures* writes_back { sem 𝓛 (lends_place X.row self.entry index result) }
        ensures value { get_or self.old.values index None ≡ Some result.now }
    {
        unsafe { &mut *start.address.add(index) }
    }
}
