ghost use Rattle.std.specs.Prelude.{◌≡◌, ◌≤◌, true, Some, None, IfOk, OnOk, OnErr, IfSome, IsErrOf};
ghost use Rattle.std.specs.Option.{option_copied, option_map};
ghost use Rattle.hx_base.specs.Pairs.{value_at};
ghost use Rattle.hx_outside.specs.Count.{Rose};
ghost use Rattle.hx_outside.specs.Log.{Logs};
ghost use Rattle.hx_program.specs.KnownFiles.{first_after, last_after, log_where};

use hx_outside::{FileFault, Files};
use std::alloc::{AllocError, Global};
use std::marker::Model;

/// Files that hand on each read, and know the text of the first one that was read, which is the
/// configuration, and the name of the last read after it. Where there is no memory for the name,
/// the read doesn't come to the files, whose log is then given up. Contracts see the files, that
/// text and that name.
#[derive(Drop)]
pub struct KnownFiles<F> {
    files: F,
    first: Option<Vec<u8>>,
    last: Option<Vec<u8>>,
    complete: bool,
}

impl<F> Model for KnownFiles<F> {
    ghost use Rattle.std.specs.Option.{option_map};
    ghost use Rattle.hx_program.specs.KnownFiles.{FilesWithText};

    ghost Value = { FilesWithText F };

    ghost view = { λ files. record {
      files = files.files;
      first = option_map (λ text. text.items) files.first;
      last = option_map (λ name. name.items) files.last;
      complete = files.complete;
    } };
}

impl<F> KnownFiles<F> {
    /// Before any read, over these files.
    pub fn new(files: F) -> KnownFiles<F>
        ensures { result
            ≡ record { files = files; first = None; last = None; complete = true } }
    {
        KnownFiles {
            files,
            first: None,
            last: None,
            complete: true,
        }
    }

    /// The text of the first file that was read, and none before one was.
    pub fn first(&self) -> Option<&[u8]>
        ensures { option_copied result ≡ self.now.first }
    {
        match &self.first {
            Some(text) => Some(text.as_slice()),
            None => None,
        }
    }

    /// The name of the last read after the first text, whatever came of it.
    pub fn last(&self) -> Option<&[u8]>
        ensures { option_copied result ≡ self.now.last }
    {
        match &self.last {
            Some(name) => Some(name.as_slice()),
            None => None,
        }
    }

    /// The files, the text of the first that was read, and the name of the last read after it.
    pub fn into_parts(self) -> (F, Option<Vec<u8>>, Option<Vec<u8>>)
        ensures files { result.0 ≡ self.files }
        ensures first { option_map (λ text. text.items) result.1 ≡ self.first }
        ensures last { option_map (λ name. name.items) result.2 ≡ self.last }
    {
        let KnownFiles {
            files,
            first,
            last,
            complete: _,
        } = self;
        (files, first, last)
    }

    /// Notes the name of a read, where it isn't the first.
    fn note(&mut self, name: Vec<u8>)
        ensures { self.new ≡ record {
          files = self.old.files;
          first = self.old.first;
          last = last_after self.old.first self.old.last name.items;
          complete = self.old.complete;
        } }
    {
        if self.first.is_some() {
            self.last = Some(name);
        }
    }

    /// Keeps the text of a read, where it is the first, and else its name.
    fn keep(&mut self, alloc: Global, name: Vec<u8>, text: &[u8]) -> Result<(), AllocError>
        ensures ok { OnOk result (self.new ≡ record {
          files = self.old.files;
          first = first_after self.old.first text.now;
          last = last_after self.old.first self.old.last name.items;
          complete = self.old.complete;
        }) }
        ensures err { OnErr result (self.new ≡ self.old) }
    {
        if self.first.is_some() {
            self.last = Some(name);
        } else {
            self.first = Some(Vec::from_slice(alloc, text)?);
        }
        Ok(())
    }
}

impl<F: Files> Files for KnownFiles<F> {
    ghost held = { λ files. F.held files.files };

    ghost faults = { λ files. F.faults files.files };

    ghost last = { λ files. F.last files.files };

    ghost log = { λ files. log_where files.complete (F.log files.files) };

    #[tactic(auto, using(crate::proofs::KnownFilesLemmas::logs_where))]
    fn read(&mut self, alloc: Global, name: &[u8]) -> Result<Vec<u8>, FileFault>
        ensures bytes { IfOk result (λ bytes.
            IfSome (F.held self.old.files) (λ files. value_at files name.now ≡ Some bytes.items)) }
        ensures same { F.held self.new.files ≡ F.held self.old.files }
        ensures later { F.faults self.old.files ≤ F.faults self.new.files }
        ensures failed { IsErrOf result FileFault.Failed
            → Rose (F.faults self.old.files) (F.faults self.new.files) }
        ensures named { IsErrOf result FileFault.Failed → F.last self.new.files ≡ Some name.now }
        ensures kept { OnOk result (F.last self.new.files ≡ F.last self.old.files) }
        ensures kept_without_memory { IsErrOf result FileFault.NoMemory
            → F.last self.new.files ≡ F.last self.old.files }
        ensures uncounted { OnOk result (F.faults self.new.files ≡ F.faults self.old.files) }
        ensures uncounted_without_memory { IsErrOf result FileFault.NoMemory
            → F.faults self.new.files ≡ F.faults self.old.files }
        ensures log { Logs (log_where self.old.complete (F.log self.old.files))
            (log_where self.new.complete (F.log self.new.files)) name.now }

        ensures first { IfOk result (λ bytes.
            self.new.first ≡ first_after self.old.first bytes.items) }
        ensures first_kept { OnErr result (self.new.first ≡ self.old.first) }
        ensures last { OnOk result
            (self.new.last ≡ last_after self.old.first self.old.last name.now) }
        ensures last_unread { IsErrOf result FileFault.Failed
            → self.new.last ≡ last_after self.old.first self.old.last name.now }
    {
        let Ok(kept) = Vec::from_slice(alloc, name) else {
            self.complete = false;
            return Err(FileFault::NoMemory);
        };
        match self.files.read(alloc, name) {
            Ok(bytes) => {
                self.keep(alloc, kept, bytes.as_slice())?;
                Ok(bytes)
            }
            Err(FileFault::NoMemory) => Err(FileFault::NoMemory),
            Err(FileFault::Failed) => {
                self.note(kept);
                Err(FileFault::Failed)
            }
        }
    }
}
