//! The memory of an event that was given back.
ghost use Rattle.std.specs.Prelude.{◌≡◌, IfOk};

use crate::events::Event;
use hx_text::{NoMemory, Octets};
use std::mem;

/// A copy of the bytes in the memory of a vector, which has none from then on. More is taken where
/// that isn't enough.
pub(crate) fn copied(memory: &mut Vec<u8>, bytes: &[u8]) -> Result<Octets, NoMemory>
    ensures { IfOk result (λ copied. copied ≡ bytes.now) }
{
    let none = Vec::new(*memory.allocator());
    let mut taken = mem::replace(memory, none);
    taken.clear();
    taken.extend_from_slice(bytes)?;
    Ok(Octets::from_vec(taken))
}

/// The memory of the event's bytes, where it has any.
pub(crate) fn memory_of(event: Event) -> Option<Vec<u8>> {
    match event {
        Event::Req { bytes, .. } => Some(bytes.into_vec()),
        Event::Cli { text, .. } => Some(text.into_vec()),
        Event::Conn { .. } | Event::Close { .. } => None,
    }
}
