ghost use Rattle.std.specs.Prelude.{◌≡◌, ◌++◌, [], OnOk};
ghost use Rattle.hx_trace.specs.Why.{cause_text};

use crate::explaining::Cause;
use crate::text::append_why;
use hx_refs::Refs;
use hx_text::{NoMemory, Octets};
use std::alloc::Global;
use std::marker::Model;
use std::mem;

/// The line that tells what decided the request that was judged last. Each takes the memory of the
/// one before. Contracts see the line.
#[derive(Drop)]
pub(crate) struct KeptLine {
    alloc: Global,
    line: Octets,
}

impl Model for KeptLine {
    ghost use Rattle.std.specs.Prelude.{ℕ, List};

    ghost Value = { List ℕ };

    ghost view = { λ kept. kept.line };
}

impl KeptLine {
    /// Before the first request. It takes no memory; what it needs later it takes from `alloc`.
    pub(crate) fn new(alloc: Global) -> KeptLine
        ensures { result ≡ [] }
    {
        KeptLine {
            alloc,
            line: Octets::from_vec(Vec::new(alloc)),
        }
    }

    /// Keeps the line of a request that this decided, where the references are these. `NoMemory`
    /// where memory runs out; no line is kept then.
    pub(crate) fn keep(&mut self, refs: &Refs, cause: &Cause) -> Result<(), NoMemory>
        ensures { OnOk result (self.new ≡ cause_text refs.now.content cause.now) }
    {
        let none = Octets::from_vec(Vec::new(self.alloc));
        let mut bytes = mem::replace(&mut self.line, none).into_vec();
        bytes.clear();
        let mut text = Octets::from_vec(bytes);
        append_why(&mut text, refs, cause)?;
        self.line = text;
        Ok(())
    }

    /// Appends the line; where memory runs out, perhaps the first bytes of it.
    pub(crate) fn tell(&self, bytes: &mut Vec<u8>) -> Result<(), NoMemory>
        ensures { OnOk result (bytes.new.items ≡ bytes.old.items ++ self.now) }
    {
        bytes.extend_from_slice(self.line.as_slice())?;
        Ok(())
    }
}
