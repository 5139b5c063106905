ghost use Rattle.std.specs.Prelude.{◌≡◌, ℕ, ◌≤◌, ◌⊎◌, Some, None, option_map, option_copied, Contains, IfOk, OnOk, IfSome, IsErrOf};
ghost use Rattle.hx_outside.specs.Count.{next_count, Rose};
ghost use Rattle.hx_base.specs.Pairs.{pairs_of, value_at};
ghost use Rattle.hx_outside.specs.MemFiles.{mem_files_after_read};

use crate::fault::FileFault;
use crate::files::Files;
use std::alloc::Global;
use std::marker::Model;

/// Files in memory, which fail at chosen calls, for tests of what reads files.
#[derive(Drop)]
pub struct MemFiles {
    files: Vec<(Vec<u8>, Vec<u8>)>,
    fails: Vec<u64>,
    calls: u64,
    faults: u64,
    last: Option<Vec<u8>>,
}

impl Model for MemFiles {
    ghost use Rattle.std.specs.Option.{option_map};
    ghost use Rattle.hx_base.specs.Pairs.{pairs_of};
    ghost use Rattle.hx_outside.specs.MemFiles.{MemFilesState};

    ghost Value = { MemFilesState };

    ghost view = { λ files. record {
      held = pairs_of files.files.items;
      fails = files.fails.items;
      calls = files.calls;
      faults = files.faults;
      last = option_map (λ name. name.items) files.last;
    } };
}

impl MemFiles {
    /// The files of these pairs of a name and its bytes, of which the first pair of a name counts.
    /// They fail at the reads whose numbers, from 1, are in `fails`.
    pub fn new(files: Vec<(Vec<u8>, Vec<u8>)>, fails: Vec<u64>) -> MemFiles
        ensures { result ≡ record {
          held = pairs_of files.items;
          fails = fails.items;
          calls = 0;
          faults = 0;
          last = None;
        } }
    {
        MemFiles {
            files,
            fails,
            calls: 0,
            faults: 0,
            last: None,
        }
    }

    /// Counts a fault, and keeps the name that it came at.
    fn fail(&mut self, name: Vec<u8>) -> FileFault
        ensures fault { result ≡ FileFault.Failed }
        ensures later { self.old.faults ≤ self.new.faults }
        ensures after { self.new
            ≡ record self.old { faults = next_count self.old.faults; last = Some name.items } }
    {
        self.faults = self.faults.saturating_add(1);
        self.last = Some(name);
        FileFault::Failed
    }
}

impl Files for MemFiles {
    ghost held = { λ files. Some files.held };

    ghost faults = { λ files. files.faults };

    ghost last = { λ files. files.last };

    /// A copy of the bytes of this name. `Failed` exactly at the chosen reads and for a name that
    /// is missing, except where memory runs out, which is `NoMemory`.
    fn read(&mut self, alloc: Global, name: &[u8]) -> Result<Vec<u8>, FileFault>
        ensures bytes { IfOk result (λ bytes. value_at self.old.held name.now ≡ Some bytes.items) }
        ensures same { self.new.held ≡ self.old.held }
        ensures later { self.old.faults ≤ self.new.faults }
        ensures failed { IsErrOf result FileFault.Failed → Rose self.old.faults self.new.faults }
        ensures named { IsErrOf result FileFault.Failed → self.new.last ≡ Some name.now }
        ensures kept { OnOk result (self.new.last ≡ self.old.last) }
        ensures kept_without_memory { IsErrOf result FileFault.NoMemory
            → self.new.last ≡ self.old.last }
        ensures uncounted { OnOk result (self.new.faults ≡ self.old.faults) }
        ensures uncounted_without_memory { IsErrOf result FileFault.NoMemory
            → self.new.faults ≡ self.old.faults }

        ensures chosen { OnOk result (¬ (Contains self.old.fails (next_count self.old.calls))) }
        ensures why { IsErrOf result FileFault.Failed
            → Contains self.old.fails (next_count self.old.calls)
            ⊎ (value_at self.old.held name.now ≡ None) }
        ensures after { self.new ≡ mem_files_after_read self.old name.now result }
    {
        self.calls = self.calls.saturating_add(1);
        let last = Vec::from_slice(alloc, name)?;
        if self.fails.contains(&self.calls) {
            return Err(self.fail(last));
        }
        let Some(bytes) = find(self.files.as_slice(), name) else {
            return Err(self.fail(last));
        };
        Ok(Vec::from_slice(alloc, bytes)?)
    }
}

/// The bytes of the first pair of this name.
fn find<'f>(files: &'f [(Vec<u8>, Vec<u8>)], name: &[u8]) -> Option<&'f [u8]>
    ensures { option_copied result ≡ value_at (pairs_of files.now) name.now }
{
    for file in files {
        if file.0.as_slice() == name {
            return Some(file.1.as_slice());
        }
    }
    None
}
