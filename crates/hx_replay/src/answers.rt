ghost use Rattle.std.specs.Prelude.{◌≡◌, ◌≤◌, [], ◌++◌, OnOk, OnErr, IsErrOf};
ghost use Rattle.std.specs.Io.KnownBytes.{Appends};
ghost use Rattle.hx_outside.specs.Count.{Rose};
ghost use Rattle.hx_outside.specs.Prefixes.{AppendsPrefix};
ghost use Rattle.hx_replay.specs.Gathering.{Passes};

use hx_outside::{Sink, SinkFault, write_all};
use hx_text::NoMemory;
use std::alloc::Global;
use std::marker::Model;

/// So many bytes of answers are written, also where more of them could be gathered.
const FULL: usize = 65_504;

/// Answers that are gathered before they are written in one piece, seen as their bytes.
pub struct Answers {
    bytes: Vec<u8>,
}

// Written out, so that letting one go is one call in the proofs of callers.
impl Drop for Answers {
    fn drop(self) {
        let Answers { bytes: _bytes } = self;
    }
}

impl Model for Answers {
    ghost use Rattle.std.specs.Prelude.{List, ℕ};

    ghost Value = { List ℕ };

    ghost view = { λ answers. answers.bytes.items };
}

impl Answers {
    /// No answers yet. It takes no memory.
    pub fn new(alloc: Global) -> Answers
        ensures { result ≡ [] }
    {
        Answers {
            bytes: Vec::new(alloc),
        }
    }

    /// Appends the answer to an event, or nothing where memory runs out.
    pub fn push(&mut self, answer: &[u8]) -> Result<(), NoMemory>
        ensures ok { OnOk result (self.new ≡ self.old ++ answer.now) }
        ensures err { OnErr result (self.new ≡ self.old) }
    {
        self.bytes.extend_from_slice(answer)?;
        Ok(())
    }

    /// The bytes, lent.
    pub fn as_slice(&self) -> &[u8]
        ensures { result.now ≡ self.now }
    {
        self.bytes.as_slice()
    }

    /// Drops the answers, and keeps their memory for the next ones.
    pub fn clear(&mut self)
        ensures { self.new ≡ [] }
    {
        self.bytes.clear();
    }
}

/// Writes the answers where there are many, 65,504 bytes or more, as `write_answers` does.
pub(crate) fn write_many<K: Sink>(out: &mut K, answers: &mut Answers) -> Result<(), SinkFault>
    ensures ok { OnOk result (Passes (K.written out.old) (K.written out.new)
        answers.old answers.new []) }
    ensures err { OnErr result (answers.new ≡ []) }
    ensures prefix { OnErr result
        (AppendsPrefix (K.written out.old) (K.written out.new) answers.old) }
    ensures failed { IsErrOf result SinkFault.Failed → Rose (K.faults out.old) (K.faults out.new) }
    ensures later { K.faults out.old ≤ K.faults out.new }
{
    if answers.as_slice().len() < FULL {
        return Ok(());
    }
    write_answers(out, answers)
}

/// Writes the answers, or a prefix of them where it can't. They are gathered no more.
///
/// `Failed` only where the count of faults of `out` rose, and `NoMemory` where memory ran out.
pub(crate) fn write_answers<K: Sink>(out: &mut K, answers: &mut Answers) -> Result<(), SinkFault>
    ensures empty { answers.new ≡ [] }
    ensures ok { OnOk result (Appends (K.written out.old) (K.written out.new) answers.old) }
    ensures prefix { AppendsPrefix (K.written out.old) (K.written out.new) answers.old }
    ensures failed { IsErrOf result SinkFault.Failed → Rose (K.faults out.old) (K.faults out.new) }
    ensures later { K.faults out.old ≤ K.faults out.new }
{
    let written = write_all(out, answers.as_slice());
    answers.clear();
    written
}
