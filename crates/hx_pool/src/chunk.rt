ghost use Rattle.std.specs.Prelude.{◌≡◌, ◌<◌, ◌++◌, [], ◌∷◌, IfOk, Some, length, slice_get};
ghost use Rattle.std.specs.Borrow.{sem};

use crate::memory::{Claim, Places, Start, allocate, deallocate};
use crate::slot::Slot;
use std::alloc::{AllocError, Global};
use std::marker::Model;
use std_alloc::room::may_hold;

/// How many slots a chunk has memory for.
pub(crate) const CHUNK: usize = 1024;

/// Memory for 1,024 slots, of which the first so many hold something. It never moves.
pub(crate) struct Chunk<T> {
    start: Start<Slot<T>>,
    places: Places<Slot<T>>,
    claim: Claim<Slot<T>, Global>,
    alloc: Global,
    used: usize,
}

impl<T> Model for Chunk<T> {
    ghost use Rattle.std.specs.Prelude.{List};
    ghost use Rattle.hx_pool.specs.declared.slot.Slot.{Slot};
    ghost use Rattle.hx_pool.specs.Memory.{values_in, IsChunk};

    ghost Value = { List (Slot T) };

    ghost view = { λ chunk. values_in chunk.places.values };

    ghost invariant = { λ chunk. IsChunk chunk.start.address chunk.places.start chunk.claim.start
        chunk.places.values chunk.claim.count chunk.claim.alloc chunk.alloc chunk.used };
}

impl<T: Drop> Drop for Chunk<T> {
    fn drop(self) {
        let Chunk {
            start,
            mut places,
            claim,
            alloc,
            mut used,
        } = self;
        while used > 0 {
            used -= 1;
            let _slot = places.read(start, used);
        }
        deallocate(&alloc, start, CHUNK, places, claim);
    }
}

impl<T> Chunk<T> {
    ghost use Rattle.hx_pool.specs.Lends.{lends_slot_of_chunk};

    /// Memory for a chunk, of which nothing is used yet.
    pub(crate) fn new(alloc: Global) -> Result<Chunk<T>, AllocError>
        ensures { IfOk result (λ chunk. chunk ≡ []) }
    {
        if !may_hold::<Slot<T>>(CHUNK) {
            return Err(AllocError);
        }
        let (start, places, claim) = allocate(&alloc, CHUNK)?;
        Ok(Chunk {
            start,
            places,
            claim,
            alloc,
            used: 0,
        })
    }

    pub(crate) fn push(&mut self, slot: Slot<T>)
        requires { length self.old < 1024 }
        ensures { self.new ≡ self.old ++ slot ∷ [] }
    {
        self.places.write(self.start, self.used, slot);
        self.used += 1;
    }

    pub(crate) fn get(&self, index: usize) -> &Slot<T>
        requires { index < length self.now }
        ensures { slice_get self.now index ≡ Some result.now }
    {
        self.places.get(self.start, index)
    }

    pub(crate) fn get_mut(&mut self, index: usize) -> &mut Slot<T>
        requires { index < length self.old }
        ensures* writes_back { sem 𝓛 (lends_slot_of_chunk T.row self.entry index result) }
        ensures value { slice_get self.old index ≡ Some result.now }
    {
        self.places.get_mut(self.start, index)
    }
}
