ghost use Rattle.std.specs.Prelude.{◌≡◌, false};
ghost use Rattle.std.specs.Io.{WritesAtMost};
ghost use Rattle.std.specs.Io.KnownBytes.{Keeps, WriteAppends};

use std::io::{ErrorKind, Result, Write};
use std::marker::Model;

/// A writer that hands on all that it is given, and notes whether its reader has gone. Contracts
/// see the writer and what was noted.
#[derive(Drop)]
pub struct Watched<W> {
    writer: W,
    is_alone: bool,
}

impl<W> Model for Watched<W> {
    ghost use Rattle.hx_program.specs.Watched.{WriterWithNote};

    ghost Value = { WriterWithNote W };

    ghost view = { λ watched. record { writer = watched.writer; is_alone = watched.is_alone } };
}

impl<W> Watched<W> {
    /// Before any write, over this writer.
    pub fn new(writer: W) -> Watched<W>
        ensures { result ≡ record { writer = writer; is_alone = false } }
    {
        Watched {
            writer,
            is_alone: false,
        }
    }

    /// Whether a write found that nobody reads any more.
    pub fn is_alone(&self) -> bool
        ensures { result ≡ self.now.is_alone }
    {
        self.is_alone
    }
}

impl<W: Write> Write for Watched<W> {
    ghost contents = { λ watched. W.contents watched.writer };

    fn write(&mut self, buf: &[u8]) -> Result<usize> {
        match self.writer.write(buf) {
            Ok(count) => Ok(count),
            Err(error) => {
                if error.kind() == ErrorKind::BrokenPipe {
                    self.is_alone = true;
                }
                Err(error)
            }
        }
    }

    fn flush(&mut self) -> Result<()> {
        self.writer.flush()
    }
}
