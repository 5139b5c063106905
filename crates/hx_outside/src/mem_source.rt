ghost use Rattle.std.specs.Prelude.{◌≡◌, ℕ, ◌<◌, ◌≤◌, ◌↔◌, ◌++◌, Some, length, take, drop, min, Contains, IfOk, OnOk, OnErr, IsErr};
ghost use Rattle.std.specs.Io.{ReadsAtMost};
ghost use Rattle.std.specs.Io.KnownBytes.{ReadConsumes};
ghost use Rattle.hx_outside.specs.Count.{next_count, Rose};
ghost use Rattle.hx_outside.specs.MemSource.{mem_source_after_read};

use crate::fault::Failed;
use crate::source::Source;
use std::marker::Model;

/// A source in memory, which gives pieces and fails at chosen calls, for tests of what reads.
#[derive(Drop)]
pub struct MemSource {
    bytes: Vec<u8>,
    at: usize,
    piece: usize,
    fails: Vec<u64>,
    calls: u64,
    faults: u64,
}

impl Model for MemSource {
    ghost use Rattle.std.specs.Prelude.{◌<◌, ◌≤◌, length, drop};
    ghost use Rattle.hx_outside.specs.MemSource.{MemSourceState};

    ghost Value = { MemSourceState };

    ghost view = { λ source. record {
      left = drop source.at source.bytes.items;
      piece = source.piece;
      fails = source.fails.items;
      calls = source.calls;
      faults = source.faults;
    } };

    ghost invariant = { λ source. (source.at ≤ length source.bytes.items) × (0 < source.piece) };
}

impl MemSource {
    /// A source of `bytes` that gives at most `piece` of them a read, which must be at least 1, and
    /// fails at the reads whose numbers, from 1, are in `fails`.
    pub fn new(bytes: Vec<u8>, piece: usize, fails: Vec<u64>) -> MemSource
        requires { 0 < piece }
        ensures { result ≡ record {
          left = bytes.items;
          piece = piece;
          fails = fails.items;
          calls = 0;
          faults = 0;
        } }
    {
        MemSource {
            bytes,
            at: 0,
            piece,
            fails,
            calls: 0,
            faults: 0,
        }
    }
}

impl Source for MemSource {
    ghost left = { λ source. Some source.left };

    ghost faults = { λ source. source.faults };

    /// Gives as many of the bytes that are left as `piece` and `buf` allow. `Failed` exactly at the
    /// chosen reads.
    fn read(&mut self, buf: &mut [u8]) -> Result<usize, Failed>
        requires { 0 < length buf.old }
        ensures bound { ReadsAtMost result buf.new }
        ensures bytes { ReadConsumes (Some self.old.left) (Some self.new.left) result buf.new }
        ensures later { self.old.faults ≤ self.new.faults }
        ensures failed { OnErr result (Rose self.old.faults self.new.faults) }
        ensures uncounted { OnOk result (self.new.faults ≡ self.old.faults) }

        ensures chosen { IsErr result ↔ Contains self.old.fails (next_count self.old.calls) }
        ensures count { IfOk result (λ count.
            count ≡ min (length self.old.left) (min self.old.piece (length buf.old))) }
        ensures after { self.new ≡ mem_source_after_read self.old result }
    {
        self.calls = self.calls.saturating_add(1);
        if self.fails.contains(&self.calls) {
            self.faults = self.faults.saturating_add(1);
            return Err(Failed);
        }
        let count = give(&self.bytes[self.at..], self.piece, buf);
        self.at += count;
        Ok(count)
    }
}

/// Puts at most `piece` bytes of `from` at the start of `buf`, and answers how many.
fn give(from: &[u8], piece: usize, buf: &mut [u8]) -> usize
    ensures count { result ≡ min (length from.now) (min piece (length buf.new)) }
    ensures bytes { from.now ≡ take result buf.new ++ drop result from.now }
{
    let count = from.len().min(piece.min(buf.len()));
    buf[..count].copy_from_slice(&from[..count]);
    count
}
