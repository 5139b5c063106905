ghost use Rattle.std.specs.Prelude.{◌≡◌, ℕ, ◌+◌, ◌<◌, ◌≤◌, List, Option, None, length, vec_len, IfOk, OnOk, OnErr, IfSome, IsErrOf};
ghost use Rattle.std.specs.Io.{ReadsAtMost};
ghost use Rattle.std.specs.Io.KnownBytes.{ReadConsumes, Consumes, IsAtEnd};
ghost use Rattle.hx_outside.specs.Count.{Rose};
ghost use Rattle.hx_outside.specs.Prefixes.{TakesPrefix};
ghost use Rattle.hx_outside.specs.Log.{Log, Logs, bytes_read};

use crate::fault::{Failed, ReadFault};
use std::alloc::Global;

/// Bytes that come in pieces, until the end.
///
/// A source has three meanings, which contracts speak of. `left` is the bytes not yet read, where
/// they are known; known bytes stay known. `faults` is a count that rises with each `Failed`,
/// where it doesn't saturate, and stays with every other answer. So a failure deep inside a longer
/// call shows by the count before that call and after it. `log` is what each read so far gave,
/// where that is known, so that a longer call can say when it reads; a known log may become
/// unknown, and an unknown one stays so.
pub trait Source {
    ghost left: { Self → Option (List ℕ) };

    ghost faults: { Self → ℕ };

    ghost log: { Self → Option Log } = { λ source. None };

    /// Puts the next bytes at the start of `buf`, and answers how many: 0 only at the end. `buf`
    /// must not be empty.
    ///
    /// `Failed` only where `faults` rose; then no byte is taken.
    fn read(&mut self, buf: &mut [u8]) -> Result<usize, Failed>
        requires { 0 < length buf.old }
        ensures bound { ReadsAtMost result buf.new }
        ensures bytes { ReadConsumes (left self.old) (left self.new) result buf.new }
        ensures later { faults self.old ≤ faults self.new }
        ensures failed { OnErr result (Rose (faults self.old) (faults self.new)) }
        ensures uncounted { OnOk result (faults self.new ≡ faults self.old) }
        ensures log { Logs (log self.old) (log self.new) (bytes_read result buf.new) };
}

/// How many bytes `read_to_end` asks for at once.
const PIECE: usize = 4096;

/// All bytes that are left in `source`, where they are no more than `limit`, in a vector of
/// `alloc`.
///
/// `TooLong` where more were left: `limit + 1` bytes were then taken, and never more. `Failed`
/// only where the source's count of faults rose in this call, which it does with no other answer,
/// and `NoMemory` where memory runs out: some prefix of the bytes was then taken.
pub fn read_to_end<S: Source>(
    alloc: Global,
    source: &mut S,
    limit: usize,
) -> Result<Vec<u8>, ReadFault>
    // `whole` follows from `consumed` and `end`, and `longer` from `too_long`: they save a caller
    // that knows what is left the lemmas on bytes that were consumed.
    ensures whole { IfOk result (λ bytes. IfSome (S.left source.old) (λ left. bytes.items ≡ left)) }
    ensures consumed { IfOk result (λ bytes.
        Consumes (S.left source.old) (S.left source.new) bytes.items) }
    ensures end { OnOk result (IsAtEnd (S.left source.new)) }
    ensures within { IfOk result (λ bytes. vec_len bytes ≤ limit) }

    ensures too_long { IsErrOf result ReadFault.TooLong
        → TakesPrefix (S.left source.old) (S.left source.new)
        (λ prefix. length prefix ≡ limit + 1) }
    ensures longer { IsErrOf result ReadFault.TooLong
        → IfSome (S.left source.old) (λ left. limit < length left) }

    ensures prefix { TakesPrefix (S.left source.old) (S.left source.new)
        (λ prefix. length prefix ≤ limit + 1) }
    ensures later { S.faults source.old ≤ S.faults source.new }
    ensures failed { IsErrOf result ReadFault.Failed
        → Rose (S.faults source.old) (S.faults source.new) }
    ensures uncounted { ¬ (IsErrOf result ReadFault.Failed)
        → S.faults source.new ≡ S.faults source.old }
{
    let mut out = Vec::new(alloc);
    let mut piece = [0u8; PIECE];
    'pieces: loop {
        let room = limit - out.len();
        let asked = room.saturating_add(1).min(PIECE);
        let count = source.read(&mut piece[..asked])?;
        if count == 0 {
            return Ok(out);
        }
        if count > room {
            return Err(ReadFault::TooLong);
        }
        out.extend_from_slice(&piece[..count])?;
    }
}
