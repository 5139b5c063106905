ghost use Rattle.std.specs.Prelude.{◌≡◌, ◌<◌, ◌≤◌, ◌++◌, ◌∷◌, [], length, OnOk, OnErr, IfSome, None, Some};
ghost use Rattle.std.specs.Option.{option_map, option_copied};
ghost use Rattle.std.specs.Io.{ReadsAtMost};
ghost use Rattle.std.specs.Io.KnownBytes.{ReadConsumes};
ghost use Rattle.hx_outside.specs.Count.{Rose};
ghost use Rattle.hx_outside.specs.Log.{Logs, bytes_read};
ghost use Rattle.hx_outside.specs.LogSource.{reads_of};

use crate::fault::Failed;
use crate::source::Source;
use std::alloc::Global;
use std::marker::Model;

/// A source that hands on what another one gives, and keeps what each read gave, so that one can
/// see when a reader reads. Where memory runs out, it gives the log up, and hands on as before.
#[derive(Drop)]
pub struct LogSource<S> {
    alloc: Global,
    inner: S,
    log: Option<Vec<Option<Vec<u8>>>>,
}

impl<S> Model for LogSource<S> {
    ghost use Rattle.std.specs.Option.{option_map};
    ghost use Rattle.hx_outside.specs.LogSource.{LogSourceState, reads_of};

    ghost Value = { LogSourceState S };

    ghost view = { λ source. record {
      inner = source.inner;
      log = option_map (λ reads. reads_of reads.items) source.log;
    } };
}

impl<S> LogSource<S> {
    /// A source of what `inner` gives, whose log begins here. It grows by `alloc`.
    pub fn new(alloc: Global, inner: S) -> LogSource<S>
        ensures { result ≡ record { inner = inner; log = Some [] } }
    {
        LogSource {
            alloc,
            inner,
            log: Some(Vec::new(alloc)),
        }
    }

    /// What each read gave, oldest first: its bytes, no bytes at the end, and None for one that
    /// failed. None where the log was given up.
    pub fn log(&self) -> Option<&[Option<Vec<u8>>]>
        ensures { option_map reads_of (option_copied result) ≡ self.now.log }
    {
        self.log.as_deref()
    }

    /// Appends what a read gave to the log.
    fn note(&mut self, read: Option<&[u8]>)
        ensures inner { self.new.inner ≡ self.old.inner }
        ensures log { Logs self.old.log self.new.log (option_copied read.entry) }
    {
        self.log = match self.log.take() {
            Some(reads) => with_read(self.alloc, reads, read),
            None => None,
        };
    }
}

/// The reads and one more. None, which gives the log up, where memory runs out.
fn with_read(
    alloc: Global,
    reads: Vec<Option<Vec<u8>>>,
    read: Option<&[u8]>,
) -> Option<Vec<Option<Vec<u8>>>>
    ensures { IfSome result (λ all.
        reads_of all.items ≡ reads_of reads.items ++ (option_copied read.entry ∷ [])) }
{
    let mut all = reads;
    let kept = match read {
        Some(bytes) => Some(Vec::from_slice(alloc, bytes).ok()?),
        None => None,
    };
    all.push(kept).ok()?;
    Some(all)
}

impl<S: Source> Source for LogSource<S> {
    ghost left = { λ source. S.left source.inner };

    ghost faults = { λ source. S.faults source.inner };

    ghost log = { λ source. source.log };

    /// One read of the source within, which the log keeps.
    fn read(&mut self, buf: &mut [u8]) -> Result<usize, Failed>
        requires { 0 < length buf.old }
        ensures bound { ReadsAtMost result buf.new }
        ensures bytes { ReadConsumes (S.left self.old.inner) (S.left self.new.inner)
            result buf.new }
        ensures later { S.faults self.old.inner ≤ S.faults self.new.inner }
        ensures failed { OnErr result (Rose (S.faults self.old.inner) (S.faults self.new.inner)) }
        ensures uncounted { OnOk result (S.faults self.new.inner ≡ S.faults self.old.inner) }
        ensures log { Logs self.old.log self.new.log (bytes_read result buf.new) }
        // The source within is read once.
        ensures once { Logs (S.log self.old.inner) (S.log self.new.inner)
            (bytes_read result buf.new) }
    {
        let result = self.inner.read(buf);
        match &result {
            Ok(count) => self.note(Some(&buf[..*count])),
            Err(Failed) => self.note(None),
        }
        result
    }
}
