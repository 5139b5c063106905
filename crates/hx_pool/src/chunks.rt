ghost use Rattle.std.specs.Prelude.{◌≡◌, ◌+◌, ◌^◌, ◌<◌, ◌≤◌, ◌++◌, [], ◌∷◌, IsErr, IsTrue, OnErr, OnOk, Some, length, slice_get, ◌↔◌};
ghost use Rattle.std.specs.Borrow.{sem};

use crate::chunk::{CHUNK, Chunk};
use crate::slot::Slot;
use std::alloc::{AllocError, Global};
use std::marker::Model;

/// More chunks than this are refused, as where memory runs out.
const MOST_CHUNKS: usize = 0x40_0000;

/// How many slots that many chunks have.
const MOST_SLOTS: usize = 0x1_0000_0000;

/// Slots in chunks. Contracts see them as a list, and how many more there is memory for. No slot
/// moves when more memory is taken.
#[derive(Drop)]
pub(crate) struct Chunks<T> {
    chunks: Vec<Chunk<T>>,
    len: usize,
    alloc: Global,
}

impl<T> Model for Chunks<T> {
    ghost use Rattle.std.specs.Prelude.{ℕ, ◌-◌, ◌*◌, List, length};
    ghost use Rattle.hx_pool.specs.declared.slot.Slot.{Slot};
    ghost use Rattle.hx_pool.specs.Slots.{flat, AreChunks};

    ghost Value = { List (Slot T) × ℕ };

    ghost view = { λ c. (flat c.chunks.items, length c.chunks.items * 1024 - c.len) };

    ghost invariant = { λ c. AreChunks c.chunks.items c.len };
}

impl<T> Chunks<T> {
    ghost use Rattle.hx_pool.specs.Lends.{lends_slot};

    /// No slots, and no memory.
    pub(crate) fn new(alloc: Global) -> Chunks<T>
        ensures { result ≡ ([], 0) }
    {
        Chunks {
            chunks: Vec::new(alloc),
            len: 0,
            alloc,
        }
    }

    pub(crate) fn len(&self) -> usize
        ensures { result ≡ length self.now.0 }
    {
        self.len
    }

    /// Takes memory for one more chunk.
    fn add_chunk(&mut self) -> Result<(), AllocError>
        ensures ok { OnOk result (self.new ≡ (self.old.0, self.old.1 + 1024)) }
        ensures err { OnErr result (self.new ≡ self.old) }
    {
        if self.chunks.len() >= MOST_CHUNKS {
            return Err(AllocError);
        }
        self.chunks.reserve(1)?;
        let chunk = Chunk::new(self.alloc)?;
        self.chunks.push_reserved(chunk);
        Ok(())
    }

    /// How many slots there is memory for.
    fn room(&self) -> usize
        ensures value { result ≡ self.now.1 }
        ensures few { length self.now.0 + result ≤ 2 ^ 32 }
    {
        self.chunks.len() * CHUNK - self.len
    }

    /// Whether there may be so many slots more.
    fn may_have(&self, more: usize) -> bool
        ensures { IsTrue result ↔ length self.now.0 + more ≤ 2 ^ 32 }
    {
        more <= MOST_SLOTS && self.len() <= MOST_SLOTS - more
    }

    /// Takes memory until there is some for `more` slots. More than there may be are refused before
    /// any memory is taken.
    pub(crate) fn reserve(&mut self, more: usize) -> Result<(), AllocError>
        ensures slots { self.new.0 ≡ self.old.0 }
        ensures ok { OnOk result (more ≤ self.new.1) }
        ensures grows { self.old.1 ≤ self.new.1 }
        ensures few { OnOk result (length self.new.0 + self.new.1 ≤ 2 ^ 32) }
        ensures many { 2 ^ 32 < length self.old.0 + more → IsErr result }
    {
        if !self.may_have(more) {
            return Err(AllocError);
        }
        while self.room() < more {
            self.add_chunk()?;
        }
        Ok(())
    }

    /// Appends a slot.
    pub(crate) fn push(&mut self, slot: Slot<T>)
        requires { 0 < self.old.1 }
        ensures slots { self.new.0 ≡ self.old.0 ++ slot ∷ [] }
        ensures room { self.new.1 + 1 ≡ self.old.1 }
    {
        self.chunks[self.len / CHUNK].push(slot);
        self.len += 1;
    }

    pub(crate) fn get(&self, index: usize) -> &Slot<T>
        requires { index < length self.now.0 }
        ensures { slice_get self.now.0 index ≡ Some result.now }
    {
        self.chunks[index / CHUNK].get(index % CHUNK)
    }

    pub(crate) fn get_mut(&mut self, index: usize) -> &mut Slot<T>
        requires { index < length self.old.0 }
        ensures* writes_back { sem 𝓛 (lends_slot T.row self.entry index result) }
        ensures value { slice_get self.old.0 index ≡ Some result.now }
    {
        self.chunks[index / CHUNK].get_mut(index % CHUNK)
    }
}
