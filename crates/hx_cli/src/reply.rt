ghost use Rattle.std.specs.Prelude.{◌≡◌, [], ◌∷◌, ◌++◌, length, slice_get, OnOk, OnErr};
ghost use Rattle.std.specs.Option.{option_copied};

use hx_ast::Items;
use hx_text::{NoMemory, Octets};
use std::alloc::Global;
use std::marker::Model;

/// What a command is answered. Contracts see its code and its lines.
#[derive(Drop)]
pub struct Reply {
    /// 0 where the command was done, and else the code of its refusal.
    pub code: u32,
    lines: Items<Octets>,
}

impl Model for Reply {
    ghost use Rattle.hx_cli.specs.Replies.{ReplyParts};

    ghost Value = { ReplyParts };

    ghost view = { λ reply. record { code = reply.code; lines = reply.lines } };
}

impl Reply {
    /// A reply without lines. It takes no memory.
    pub(crate) fn new(alloc: Global, code: u32) -> Reply
        ensures { result ≡ record { code = code; lines = [] } }
    {
        Reply {
            code,
            lines: Items::new(alloc),
        }
    }

    /// Appends a line, or nothing where memory runs out.
    pub(crate) fn push(&mut self, line: Octets) -> Result<(), NoMemory>
        ensures ok { OnOk result
            (self.new ≡ record self.old { lines = self.old.lines ++ line ∷ [] }) }
        ensures err { OnErr result (self.new ≡ self.old) }
    {
        self.lines.push(line)
    }

    /// How many lines it has.
    pub fn len(&self) -> usize
        ensures { result ≡ length self.now.lines }
    {
        self.lines.len()
    }

    /// The line at position `i`, counted from 0, without a line feed. None exactly where there are
    /// no more than `i`.
    pub fn line(&self, i: usize) -> Option<&[u8]>
        ensures { option_copied result ≡ slice_get self.now.lines i }
    {
        match self.lines.get(i) {
            Some(line) => Some(line.as_slice()),
            None => None,
        }
    }
}
