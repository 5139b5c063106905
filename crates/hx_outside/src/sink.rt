ghost use Rattle.std.specs.Prelude.{◌≡◌, ℕ, ◌<◌, ◌≤◌, List, Option, length, IfOk, OnOk, IsErrOf};
ghost use Rattle.std.specs.Io.KnownBytes.{WriteAppends, Appends};
ghost use Rattle.hx_outside.specs.Count.{Rose};
ghost use Rattle.hx_outside.specs.Prefixes.{AppendsPrefix, StaysPrefix};

use crate::fault::SinkFault;

/// What takes bytes, in pieces of its choice.
///
/// A sink has two meanings, which contracts speak of. `written` is the bytes that it took, where
/// they are known; known bytes stay known. `faults` is a count that never falls, and rises with
/// each `Failed` where it doesn't saturate. So a failure deep inside a longer call shows by the
/// count before that call and after it.
pub trait Sink {
    ghost written: { Self → Option (List ℕ) };

    ghost faults: { Self → ℕ };

    /// Takes bytes from the start of `bytes`, at least one, and answers how many. `bytes` must
    /// not be empty.
    ///
    /// `Failed` only where `faults` rose, and `NoMemory` where memory ran out and `faults` is
    /// what it was; either way no byte is taken.
    fn write(&mut self, bytes: &[u8]) -> Result<usize, SinkFault>
        requires { 0 < length bytes.now }
        ensures some { IfOk result (λ count. 0 < count) }
        ensures bound { IfOk result (λ count. count ≤ length bytes.now) }
        ensures bytes { WriteAppends (written self.old) (written self.new) result bytes.now }
        ensures later { faults self.old ≤ faults self.new }
        ensures failed { IsErrOf result SinkFault.Failed
            → Rose (faults self.old) (faults self.new) }
        ensures uncounted { IsErrOf result SinkFault.NoMemory
            → faults self.new ≡ faults self.old };
}

/// Writes all of `bytes`.
///
/// Where it can't, some prefix of `bytes` was written: `Failed` only where the sink's count of
/// faults rose in this call, and `NoMemory` where memory runs out.
pub fn write_all<K: Sink>(out: &mut K, bytes: &[u8]) -> Result<(), SinkFault>
    ensures ok { OnOk result (Appends (K.written out.old) (K.written out.new) bytes.now) }
    ensures prefix { AppendsPrefix (K.written out.old) (K.written out.new) bytes.now }
    // Follows from `prefix`. It saves a caller that writes a text in parts the lemma that the parts
    // before and this prefix are a prefix of the whole.
    ensures stays_front { StaysPrefix (K.written out.old) (K.written out.new) bytes.now }
    ensures later { K.faults out.old ≤ K.faults out.new }
    ensures failed { IsErrOf result SinkFault.Failed
        → Rose (K.faults out.old) (K.faults out.new) }
{
    let mut rest = bytes;
    'pieces: while !rest.is_empty() {
        let count = out.write(rest)?;
        rest = &rest[count..];
    }
    Ok(())
}
