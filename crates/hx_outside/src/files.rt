ghost use Rattle.std.specs.Prelude.{◌≡◌, ℕ, ◌≤◌, List, Option, Some, None, IfOk, OnOk, IfSome, IsErrOf};
ghost use Rattle.hx_outside.specs.Count.{Rose};
ghost use Rattle.hx_outside.specs.Log.{FileLog, Logs};
ghost use Rattle.hx_base.specs.Pairs.{NamedBytes, value_at};

use crate::fault::FileFault;
use std::alloc::Global;

/// Whole files, by name.
///
/// Files have four meanings, which contracts speak of. `held` is the pairs of a name and its
/// bytes, of which the first pair of a name counts, where they are known; they never change.
/// `faults` is a count that rises with each `Failed`, where it doesn't saturate, and stays with
/// every other answer. `last` is the name of the last read that answered `Failed`, and none
/// before one. `log` is the name of each read so far, whatever it answered, where that is known; a
/// known log may become unknown, and an unknown one stays so.
pub trait Files {
    ghost held: { Self → Option NamedBytes };

    ghost faults: { Self → ℕ };

    ghost last: { Self → Option (List ℕ) };

    ghost log: { Self → Option FileLog } = { λ files. None };

    /// The bytes of the file of this name, in a vector of `alloc`.
    ///
    /// `Failed` only where `faults` rose, as for a name that is missing; `last` is then this name.
    /// `NoMemory` where memory runs out, that for `last` included, which is taken first. With this
    /// answer and with bytes, `faults` and `last` are what they were: a read of another file shows
    /// by its name, if it fails, or leaves no trace.
    fn read(&mut self, alloc: Global, name: &[u8]) -> Result<Vec<u8>, FileFault>
        ensures bytes { IfOk result (λ bytes.
            IfSome (held self.old) (λ files. value_at files name.now ≡ Some bytes.items)) }
        ensures same { held self.new ≡ held self.old }
        ensures later { faults self.old ≤ faults self.new }
        ensures failed { IsErrOf result FileFault.Failed
            → Rose (faults self.old) (faults self.new) }
        ensures named { IsErrOf result FileFault.Failed → last self.new ≡ Some name.now }
        ensures kept { OnOk result (last self.new ≡ last self.old) }
        ensures kept_without_memory { IsErrOf result FileFault.NoMemory
            → last self.new ≡ last self.old }
        ensures uncounted { OnOk result (faults self.new ≡ faults self.old) }
        ensures uncounted_without_memory { IsErrOf result FileFault.NoMemory
            → faults self.new ≡ faults self.old }
        ensures log { Logs (log self.old) (log self.new) name.now };
}
