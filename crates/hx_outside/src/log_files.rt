ghost use Rattle.std.specs.Prelude.{◌≡◌, ◌≤◌, ◌++◌, ◌∷◌, [], OnOk, IfOk, IfSome, IsErrOf, None, Some};
ghost use Rattle.std.specs.Option.{option_map, option_copied};
ghost use Rattle.hx_base.specs.Pairs.{value_at};
ghost use Rattle.hx_outside.specs.Count.{Rose};
ghost use Rattle.hx_outside.specs.Log.{Logs};
ghost use Rattle.hx_outside.specs.LogFiles.{names_of};

use crate::fault::FileFault;
use crate::files::Files;
use std::alloc::Global;
use std::marker::Model;

/// Files that hand on what others hold, and keep the name of each read, so that one can see which
/// files a loader reads and in which order. Where memory runs out, they give the log up, and hand
/// on as before.
#[derive(Drop)]
pub struct LogFiles<F> {
    alloc: Global,
    inner: F,
    log: Option<Vec<Vec<u8>>>,
}

impl<F> Model for LogFiles<F> {
    ghost use Rattle.std.specs.Option.{option_map};
    ghost use Rattle.hx_outside.specs.LogFiles.{LogFilesState, names_of};

    ghost Value = { LogFilesState F };

    ghost view = { λ files. record {
      inner = files.inner;
      log = option_map (λ names. names_of names.items) files.log;
    } };
}

impl<F> LogFiles<F> {
    /// What `inner` holds, with a log that begins here. It grows by `alloc`.
    pub fn new(alloc: Global, inner: F) -> LogFiles<F>
        ensures { result ≡ record { inner = inner; log = Some [] } }
    {
        LogFiles {
            alloc,
            inner,
            log: Some(Vec::new(alloc)),
        }
    }

    /// The name of each read, oldest first, whatever it answered. None where the log was given up.
    pub fn log(&self) -> Option<&[Vec<u8>]>
        ensures { option_map names_of (option_copied result) ≡ self.now.log }
    {
        self.log.as_deref()
    }

    /// Appends a name to the log.
    fn note(&mut self, name: &[u8])
        ensures inner { self.new.inner ≡ self.old.inner }
        ensures log { Logs self.old.log self.new.log name.now }
    {
        self.log = match self.log.take() {
            Some(names) => with_name(self.alloc, names, name),
            None => None,
        };
    }
}

/// The names and one more. None, which gives the log up, where memory runs out.
fn with_name(alloc: Global, names: Vec<Vec<u8>>, name: &[u8]) -> Option<Vec<Vec<u8>>>
    ensures { IfSome result (λ all.
        names_of all.items ≡ names_of names.items ++ (name.now ∷ [])) }
{
    let mut all = names;
    all.push(Vec::from_slice(alloc, name).ok()?).ok()?;
    Some(all)
}

impl<F: Files> Files for LogFiles<F> {
    ghost held = { λ files. F.held files.inner };

    ghost faults = { λ files. F.faults files.inner };

    ghost last = { λ files. F.last files.inner };

    ghost log = { λ files. files.log };

    /// One read of the files within, whose name the log keeps.
    fn read(&mut self, alloc: Global, name: &[u8]) -> Result<Vec<u8>, FileFault>
        ensures bytes { IfOk result (λ bytes.
            IfSome (F.held self.old.inner) (λ files. value_at files name.now ≡ Some bytes.items)) }
        ensures same { F.held self.new.inner ≡ F.held self.old.inner }
        ensures later { F.faults self.old.inner ≤ F.faults self.new.inner }
        ensures failed { IsErrOf result FileFault.Failed
            → Rose (F.faults self.old.inner) (F.faults self.new.inner) }
        ensures named { IsErrOf result FileFault.Failed → F.last self.new.inner ≡ Some name.now }
        ensures kept { OnOk result (F.last self.new.inner ≡ F.last self.old.inner) }
        ensures kept_without_memory { IsErrOf result FileFault.NoMemory
            → F.last self.new.inner ≡ F.last self.old.inner }
        ensures uncounted { OnOk result (F.faults self.new.inner ≡ F.faults self.old.inner) }
        ensures uncounted_without_memory { IsErrOf result FileFault.NoMemory
            → F.faults self.new.inner ≡ F.faults self.old.inner }
        ensures log { Logs self.old.log self.new.log name.now }
        // The files within are read once.
        ensures once { Logs (F.log self.old.inner) (F.log self.new.inner) name.now }
    {
        self.note(name);
        self.inner.read(alloc, name)
    }
}
