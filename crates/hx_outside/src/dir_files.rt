ghost use Rattle.std.specs.Prelude.{◌≡◌, ℕ, ◌≤◌, Some, None, IsUtf8, vec_len, IfOk, OnOk, IfSome, IsErrOf};
ghost use Rattle.hx_outside.specs.Count.{Rose};
ghost use Rattle.hx_base.specs.Pairs.{value_at};
ghost use Rattle.hx_outside.specs.DirFiles.{unknown_files, dir_files_after_read};

use crate::fault::FileFault;
use crate::files::Files;
use crate::source::read_to_end;
use crate::std_source::StdSource;
use std::alloc::Global;
use std::fs::File;
use std::marker::Model;
use std::{rt, str};

/// The most bytes that a file may have.
const LONGEST: usize = 268_435_456;

/// The machine's files, by their paths. What they hold isn't known to contracts.
///
/// A name that isn't UTF-8, a file that can't be opened or read, and one of more than 268,435,456
/// bytes are faults. Each error of the machine is one, but for a read that a signal interrupted,
/// which is tried again. At most one byte more than the limit is taken in.
#[derive(Drop)]
pub struct DirFiles<'r, R> {
    rt: &'r R,
    faults: u64,
    last: Option<Vec<u8>>,
}

impl<'r, R> Model for DirFiles<'r, R> {
    ghost use Rattle.std.specs.Option.{option_map};
    ghost use Rattle.hx_outside.specs.DirFiles.{DirFilesState};

    ghost Value = { DirFilesState };

    ghost view = { λ files. record {
      faults = files.faults;
      last = option_map (λ name. name.items) files.last;
    } };
}

impl<'r, R> DirFiles<'r, R> {
    /// The machine's files, with no fault yet.
    pub fn new(rt: &'r R) -> DirFiles<'r, R>
        ensures { result ≡ record { faults = 0; last = None } }
    {
        DirFiles {
            rt,
            faults: 0,
            last: None,
        }
    }

    /// How many reads failed so far. The count saturates at `u64::MAX`.
    pub fn faults(&self) -> u64
        ensures { result ≡ self.now.faults }
    {
        self.faults
    }
}

impl<'r, R: rt::Files> Files for DirFiles<'r, R> {
    ghost held = { λ _. unknown_files };

    ghost faults = { λ files. files.faults };

    ghost last = { λ files. files.last };

    /// The bytes of the file at this path, from where the program runs. It is proved that no name
    /// that isn't UTF-8 and no file of more than 268,435,456 bytes is answered with bytes. What the
    /// machine holds isn't known, so that these are its bytes, and that each error of opening or
    /// reading is `Failed`, is only tested.
    fn read(&mut self, alloc: Global, name: &[u8]) -> Result<Vec<u8>, FileFault>
        ensures bytes { IfOk result (λ bytes.
            IfSome unknown_files (λ files. value_at files name.now ≡ Some bytes.items)) }
        ensures same { unknown_files ≡ unknown_files }
        ensures later { self.old.faults ≤ self.new.faults }
        ensures failed { IsErrOf result FileFault.Failed → Rose self.old.faults self.new.faults }
        ensures named { IsErrOf result FileFault.Failed → self.new.last ≡ Some name.now }
        ensures kept { OnOk result (self.new.last ≡ self.old.last) }
        ensures kept_without_memory { IsErrOf result FileFault.NoMemory
            → self.new.last ≡ self.old.last }
        ensures uncounted { OnOk result (self.new.faults ≡ self.old.faults) }
        ensures uncounted_without_memory { IsErrOf result FileFault.NoMemory
            → self.new.faults ≡ self.old.faults }

        ensures utf8 { OnOk result (IsUtf8 name.now) }
        ensures longest { IfOk result (λ bytes. vec_len bytes ≤ 268435456) }
        ensures after { self.new ≡ dir_files_after_read self.old name.now result }
    {
        let last = Vec::from_slice(alloc, name)?;
        match contents(alloc, self.rt, name) {
            Ok(bytes) => Ok(bytes),
            Err(FileFault::NoMemory) => Err(FileFault::NoMemory),
            Err(FileFault::Failed) => {
                self.faults = self.faults.saturating_add(1);
                self.last = Some(last);
                Err(FileFault::Failed)
            }
        }
    }
}

/// The bytes of the file at this path, where they are no more than a file may have.
fn contents<R: rt::Files>(alloc: Global, rt: &R, name: &[u8]) -> Result<Vec<u8>, FileFault>
    ensures utf8 { OnOk result (IsUtf8 name.now) }
    ensures longest { IfOk result (λ bytes. vec_len bytes ≤ 268435456) }
{
    let Ok(path) = str::from_utf8(name) else {
        return Err(FileFault::Failed);
    };
    let Ok(file) = File::open(rt, path) else {
        return Err(FileFault::Failed);
    };
    Ok(read_to_end(alloc, &mut StdSource::new(file), LONGEST)?)
}
