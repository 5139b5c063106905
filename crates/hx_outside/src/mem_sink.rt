ghost use Rattle.std.specs.Prelude.{◌≡◌, ℕ, ◌<◌, ◌≤◌, ◌↔◌, [], Some, length, min, Contains, IfOk, IsErrOf};
ghost use Rattle.std.specs.Io.KnownBytes.{WriteAppends};
ghost use Rattle.hx_outside.specs.Count.{next_count, Rose};
ghost use Rattle.hx_outside.specs.MemSink.{mem_sink_after_write};

use crate::fault::SinkFault;
use crate::sink::Sink;
use std::alloc::Global;
use std::marker::Model;

/// A sink in memory, which takes pieces and fails at chosen calls, for tests of what writes.
#[derive(Drop)]
pub struct MemSink {
    written: Vec<u8>,
    piece: usize,
    fails: Vec<u64>,
    calls: u64,
    faults: u64,
}

impl Model for MemSink {
    ghost use Rattle.std.specs.Prelude.{◌<◌};
    ghost use Rattle.hx_outside.specs.MemSink.{MemSinkState};

    ghost Value = { MemSinkState };

    ghost view = { λ sink. record {
      written = sink.written.items;
      piece = sink.piece;
      fails = sink.fails.items;
      calls = sink.calls;
      faults = sink.faults;
    } };

    ghost invariant = { λ sink. 0 < sink.piece };
}

impl MemSink {
    /// An empty sink that takes at most `piece` bytes a write, which must be at least 1, and fails
    /// at the writes whose numbers, from 1, are in `fails`. It grows by `alloc`.
    pub fn new(alloc: Global, piece: usize, fails: Vec<u64>) -> MemSink
        requires { 0 < piece }
        ensures { result
            ≡ record { written = []; piece = piece; fails = fails.items; calls = 0; faults = 0 } }
    {
        MemSink {
            written: Vec::new(alloc),
            piece,
            fails,
            calls: 0,
            faults: 0,
        }
    }

    /// The bytes that were written.
    pub fn bytes(&self) -> &[u8]
        ensures { result.now ≡ self.now.written }
    {
        self.written.as_slice()
    }
}

impl Sink for MemSink {
    ghost written = { λ sink. Some sink.written };

    ghost faults = { λ sink. sink.faults };

    /// Takes as many bytes as `piece` allows. `Failed` exactly at the chosen writes; `NoMemory`
    /// where memory runs out at any other.
    fn write(&mut self, bytes: &[u8]) -> Result<usize, SinkFault>
        requires { 0 < length bytes.now }
        ensures some { IfOk result (λ count. 0 < count) }
        ensures bound { IfOk result (λ count. count ≤ length bytes.now) }
        ensures bytes { WriteAppends (Some self.old.written) (Some self.new.written)
            result bytes.now }
        ensures later { self.old.faults ≤ self.new.faults }
        ensures failed { IsErrOf result SinkFault.Failed → Rose self.old.faults self.new.faults }
        ensures uncounted { IsErrOf result SinkFault.NoMemory → self.new.faults ≡ self.old.faults }

        ensures chosen { IsErrOf result SinkFault.Failed
            ↔ Contains self.old.fails (next_count self.old.calls) }
        ensures count { IfOk result (λ count. count ≡ min self.old.piece (length bytes.now)) }
        ensures after { self.new ≡ mem_sink_after_write self.old bytes.now result }
    {
        self.calls = self.calls.saturating_add(1);
        if self.fails.contains(&self.calls) {
            self.faults = self.faults.saturating_add(1);
            return Err(SinkFault::Failed);
        }
        let count = self.piece.min(bytes.len());
        self.written.extend_from_slice(&bytes[..count])?;
        Ok(count)
    }
}
