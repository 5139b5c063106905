ghost use Rattle.std.specs.Prelude.{◌≡◌, ℕ, ◌<◌, ◌≤◌, length, OnOk, OnErr, is_ok, if◌then◌else◌};
ghost use Rattle.std.specs.Io.{ReadsAtMost};
ghost use Rattle.std.specs.Io.KnownBytes.{ReadConsumes};
ghost use Rattle.hx_outside.specs.Count.{next_count, Rose};

use crate::fault::Failed;
use crate::source::Source;
use std::io::{ErrorKind, Read};
use std::marker::Model;

/// A source over a reader of std. The bytes that are left are known where the reader's are: those
/// of a reader in memory, and not those of the machine's files and streams.
///
/// Each error of the reader is a fault, but for a read that a signal interrupted: that one is tried
/// again.
#[derive(Drop)]
pub struct StdSource<R> {
    reader: R,
    faults: u64,
}

impl<R> Model for StdSource<R> {
    ghost use Rattle.hx_outside.specs.Adapter.{AdapterState};

    ghost Value = { AdapterState R };

    ghost view = { λ source. record { inner = source.reader; faults = source.faults } };
}

impl<R> StdSource<R> {
    /// A source of what `reader` gives, with no fault yet.
    pub fn new(reader: R) -> StdSource<R>
        ensures { result ≡ record { inner = reader; faults = 0 } }
    {
        StdSource { reader, faults: 0 }
    }
}

impl<R: Read> Source for StdSource<R> {
    ghost left = { λ source. R.remaining source.inner };

    ghost faults = { λ source. source.faults };

    /// One read of the reader, and another one after each that was interrupted. The count of faults
    /// rises by one with `Failed`, and stays with bytes. That `Failed` comes only where the reader
    /// answers an error of another kind is tested, since no contract of std says when a reader
    /// fails.
    fn read(&mut self, buf: &mut [u8]) -> Result<usize, Failed>
        requires { 0 < length buf.old }
        ensures bound { ReadsAtMost result buf.new }
        ensures bytes { ReadConsumes (R.remaining self.old.inner) (R.remaining self.new.inner)
            result buf.new }
        ensures later { self.old.faults ≤ self.new.faults }
        ensures failed { OnErr result (Rose self.old.faults self.new.faults) }
        ensures uncounted { OnOk result (self.new.faults ≡ self.old.faults) }

        ensures count { self.new.faults
            ≡ (if is_ok result then self.old.faults else next_count self.old.faults) }
    {
        'tries: for _ in 0..u64::MAX {
            match self.reader.read(buf) {
                Ok(count) => return Ok(count),
                Err(error) if error.kind() == ErrorKind::Interrupted => {}
                Err(_) => break,
            }
        }
        self.faults = self.faults.saturating_add(1);
        Err(Failed)
    }
}
