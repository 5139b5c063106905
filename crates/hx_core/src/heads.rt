ghost use Rattle.std.specs.Prelude.{◌≡◌};
ghost use Rattle.hx_http.specs.Parts.{no_parts};

use hx_http::Message;
use std::alloc::Global;

/// The head of a request: as it was read, and as the rules made it. Each request is read into the
/// memory of the one before.
pub(crate) struct Heads {
    pub(crate) read: Message,
    pub(crate) made: Message,
}

// Written out, so that letting one go is one call in the proofs of callers.
impl Drop for Heads {
    fn drop(self) {
        let Heads {
            read: _read,
            made: _made,
        } = self;
    }
}

impl Heads {
    /// No head was read. It takes no memory.
    pub(crate) fn new(alloc: Global) -> Heads
        ensures read { result.read ≡ no_parts }
        ensures made { result.made ≡ no_parts }
    {
        Heads {
            read: Message::empty(alloc),
            made: Message::empty(alloc),
        }
    }
}
