//! Memory that is used again. What it held is gone: each room is empty when it is taken.
ghost use Rattle.std.specs.Prelude.{◌≡◌, [], IfOk};

use crate::sample::Value;
use hx_text::{NoMemory, Octets};
use std::alloc::Global;

/// The largest room that is kept, in bytes. The memory of a longer text is given back, so that a
/// short text that stays, as that of a session's variable may, holds no more than this.
const LARGEST: usize = 512;

/// The most rooms that are kept.
const MOST: usize = 16;

/// The memory of some texts, kept for the next ones.
#[derive(Drop)]
pub(crate) struct Rooms {
    alloc: Global,
    kept: Vec<Vec<u8>>,
}

impl Rooms {
    /// No memory is kept, and none is taken.
    pub(crate) fn new(alloc: Global) -> Rooms {
        Rooms {
            alloc,
            kept: Vec::new(alloc),
        }
    }

    /// An empty text, in memory that was kept, if there is some.
    pub(crate) fn take(&mut self) -> Vec<u8>
        ensures { result.items ≡ [] }
    {
        match self.kept.pop() {
            Some(mut room) => {
                room.clear();
                room
            }
            None => Vec::new(self.alloc),
        }
    }

    /// Keeps the memory of a text that is needed no more. It is given back where it is large, and
    /// where enough is kept or there is no memory to note it.
    pub(crate) fn keep(&mut self, room: Vec<u8>) {
        if room.capacity() == 0 || room.capacity() > LARGEST || self.kept.len() >= MOST {
            return;
        }
        let _ = self.kept.push(room);
    }

    /// Keeps the memory of the value's bytes, if it has some.
    pub(crate) fn keep_value(&mut self, value: Value) {
        match value {
            Value::Str(bytes) => self.keep(bytes.into_vec()),
            Value::Bin(bytes) => self.keep(bytes.into_vec()),
            Value::Method(bytes) => self.keep(bytes.into_vec()),
            _ => {}
        }
    }

    /// A copy of the bytes, in memory that was kept where it is enough.
    pub(crate) fn copy(&mut self, bytes: &[u8]) -> Result<Octets, NoMemory>
        ensures { IfOk result (λ copied. copied ≡ bytes.now) }
    {
        let mut room = self.take();
        room.extend_from_slice(bytes)?;
        Ok(Octets::from_vec(room))
    }
}
