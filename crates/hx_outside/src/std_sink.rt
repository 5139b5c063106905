ghost use Rattle.std.specs.Prelude.{◌≡◌, ℕ, ◌<◌, ◌≤◌, length, IfOk, IsErrOf, is_ok, if◌then◌else◌};
ghost use Rattle.std.specs.Io.KnownBytes.{WriteAppends};
ghost use Rattle.hx_outside.specs.Count.{next_count, Rose};

use crate::fault::SinkFault;
use crate::sink::Sink;
use std::io::{ErrorKind, Write};
use std::marker::Model;

/// A sink over a writer of std. The bytes that it took are known where the writer's are: those of a
/// writer in memory, and not those of the machine's files and streams.
///
/// Each error of the writer is a fault, but for a write that a signal interrupted, which is tried
/// again; and so is a write that takes nothing. It is never flushed, so a writer that keeps bytes
/// back is to be flushed by whoever owns it.
#[derive(Drop)]
pub struct StdSink<W> {
    writer: W,
    faults: u64,
}

impl<W> Model for StdSink<W> {
    ghost use Rattle.hx_outside.specs.Adapter.{AdapterState};

    ghost Value = { AdapterState W };

    ghost view = { λ sink. record { inner = sink.writer; faults = sink.faults } };
}

impl<W> StdSink<W> {
    /// A sink into `writer`, with no fault yet.
    pub fn new(writer: W) -> StdSink<W>
        ensures { result ≡ record { inner = writer; faults = 0 } }
    {
        StdSink { writer, faults: 0 }
    }
}

impl<W: Write> Sink for StdSink<W> {
    ghost written = { λ sink. W.contents sink.inner };

    ghost faults = { λ sink. sink.faults };

    /// One write of the writer, and another one after each that was interrupted. Never `NoMemory`.
    /// The count of faults rises by one with `Failed`, and with no other answer. That `Failed`
    /// comes only where the writer answers an error of another kind or takes nothing is tested,
    /// since no contract of std says when a writer fails.
    fn write(&mut self, bytes: &[u8]) -> Result<usize, SinkFault>
        requires { 0 < length bytes.now }
        ensures some { IfOk result (λ count. 0 < count) }
        ensures bound { IfOk result (λ count. count ≤ length bytes.now) }
        ensures bytes { WriteAppends (W.contents self.old.inner) (W.contents self.new.inner)
            result bytes.now }
        ensures later { self.old.faults ≤ self.new.faults }
        ensures failed { IsErrOf result SinkFault.Failed → Rose self.old.faults self.new.faults }
        ensures uncounted { IsErrOf result SinkFault.NoMemory → self.new.faults ≡ self.old.faults }

        ensures count { self.new.faults
            ≡ (if is_ok result then self.old.faults else next_count self.old.faults) }
        ensures memory { ¬ (IsErrOf result SinkFault.NoMemory) }
    {
        'tries: for _ in 0..u64::MAX {
            match self.writer.write(bytes) {
                Ok(count) if count > 0 => return Ok(count),
                Err(error) if error.kind() == ErrorKind::Interrupted => {}
                _ => break,
            }
        }
        self.faults = self.faults.saturating_add(1);
        Err(SinkFault::Failed)
    }
}
