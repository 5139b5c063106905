ghost use Rattle.std.specs.Prelude.{◌≡◌, ◌≢◌, ◌≤◌, ◌<◌, ◌⊎◌, ℕ, length, Some, Err};
ghost use Rattle.std.specs.Prelude.{IfErr, IfOk, IfSome, IsErrOf, OnOk};
ghost use Rattle.std.specs.List.{AllPairs};
ghost use Rattle.hx_base.specs.Pairs.{value_at};
ghost use Rattle.hx_outside.specs.Count.{Rose};
ghost use Rattle.hx_outside.specs.Log.{HoldsSince, Logs};
ghost use Rattle.hx_calls.specs.TableSpecs.{AreSpecs};
ghost use Rattle.hx_filling.specs.Filling.{AsksOne, FillsOne, HasText, IsFailedOrNoMemory, IsFileOf, LogsFile, RefusesOne};
ghost use Rattle.hx_filling.specs.FillResult.{FillAsksLast, FillReads, FillReadsLast, FillsHeld};

use crate::adding::add_entries;
use crate::load_fault::LoadFault;
use hx_calls::{TableSpec, TableSpecs};
use hx_outside::{FileFault, Files, ReMaker};
use hx_refs::Refs;
use std::alloc::Global;

/// Fills the references with the entries of their files and inline patterns, in their order.
///
/// `Refused` exactly where an entry has a fault, with the line of the first appearance of its
/// reference: 16 where a key is no pattern, 18 where a value can't be read, 20 where an entry is
/// one too many. `Failed` only where the files' count of faults rose; the last name that failed is
/// then that of a file to which filling comes. `TooLarge` only where the maker's count of texts
/// that were too large rose, and the last of them is a key that is read as an expression.
/// `NoMemory` where memory runs out.
///
/// The files of the references are read in their order, each once, up to that of the reference at
/// which filling ends. There are as many references as specs. HAProxy configuration manual 2.4,
/// sections 7.1 and 7.3.1, `map`.
#[tactic(auto, using(crate::proofs::FillLemmas::fills))]
pub fn fill<F: Files, M: ReMaker>(
    alloc: Global,
    files: &mut F,
    specs: &TableSpecs,
    refs: &mut Refs,
    maker: &mut M,
) -> Result<(), LoadFault>
    requires specs { AreSpecs specs.now }
    requires count { length refs.old.content.references ≡ length specs.now.specs }
    ensures filled { FillsHeld (F.held files.old) specs.now.specs refs.old.content refs.new.content
        result }
    ensures failed { IsErrOf result LoadFault.Failed
        → Rose (F.faults files.old) (F.faults files.new)
        × FillReadsLast (F.held files.old) specs.now.specs refs.old.content (F.last files.new) }
    ensures too_large { IsErrOf result LoadFault.TooLarge
        → Rose (M.state maker.old).too_large (M.state maker.new).too_large
        × FillAsksLast (F.held files.old) specs.now.specs refs.old.content
        (M.state maker.new).large }
    ensures uncounted { ¬ (IsErrOf result LoadFault.TooLarge)
        → ((M.state maker.new).too_large ≡ (M.state maker.old).too_large)
        × ((M.state maker.new).large ≡ (M.state maker.old).large) }
    ensures held { F.held files.new ≡ F.held files.old }
    ensures named { (F.last files.new ≡ F.last files.old)
        ⊎ FillReadsLast (F.held files.old) specs.now.specs refs.old.content (F.last files.new) }
    ensures later { F.faults files.old ≤ F.faults files.new }
    ensures reads { HoldsSince (F.log files.old) (F.log files.new)
        (FillReads (F.held files.old) specs.now.specs refs.old.content result (F.last files.new)) }
    ensures once { HoldsSince (F.log files.old) (F.log files.new) (AllPairs (λ n m. n ≢ m)) }
    ensures heads { OnOk result (refs.new.content.heads ≡ refs.old.content.heads) }
    ensures references { OnOk result
        (length refs.new.content.references ≡ length refs.old.content.references) }
{
    let mut rest = specs.as_slice();
    let mut r = 0u32;
    while let [spec, others @ ..] = rest {
        fill_one(alloc, files, spec, r, refs, maker)?;
        r += 1;
        rest = others;
    }
    Ok(())
}

/// Fills the reference at the position `r`.
fn fill_one<F: Files, M: ReMaker>(
    alloc: Global,
    files: &mut F,
    spec: &TableSpec,
    r: u32,
    refs: &mut Refs,
    maker: &mut M,
) -> Result<(), LoadFault>
    requires { r < length refs.old.content.references }
    ensures filled { OnOk result (FillsOne (F.held files.old) spec.now r refs.old.content
        refs.new.content) }
    ensures refused { (line code : ℕ) → result ≡ Err (LoadFault.Refused line code)
        → RefusesOne (F.held files.old) spec.now r refs.old.content line code }
    ensures failed { IsErrOf result LoadFault.Failed
        → Rose (F.faults files.old) (F.faults files.new) × IsFileOf spec.now (F.last files.new) }
    ensures named { ¬ (IsErrOf result LoadFault.Failed) → F.last files.new ≡ F.last files.old }
    ensures too_large { IsErrOf result LoadFault.TooLarge
        → Rose (M.state maker.old).too_large (M.state maker.new).too_large
        × AsksOne (F.held files.old) spec.now r refs.old.content (M.state maker.new).large }
    ensures uncounted { ¬ (IsErrOf result LoadFault.TooLarge)
        → ((M.state maker.new).too_large ≡ (M.state maker.old).too_large)
        × ((M.state maker.new).large ≡ (M.state maker.old).large) }
    ensures held { F.held files.new ≡ F.held files.old }
    ensures later { F.faults files.old ≤ F.faults files.new }
    ensures reads { LogsFile spec.now.file (F.log files.old) (F.log files.new) }
{
    let text = text_of(alloc, files, spec)?;
    add_entries(alloc, refs, r, spec, text.as_slice(), maker)
}

/// The text of the file of a reference. It is empty where the reference has none.
fn text_of<F: Files>(alloc: Global, files: &mut F, spec: &TableSpec) -> Result<Vec<u8>, LoadFault>
    ensures text { IfOk result (λ text. HasText (F.held files.old) spec.now text.items) }
    ensures err { IfErr result IsFailedOrNoMemory }
    ensures failed { IsErrOf result LoadFault.Failed
        → Rose (F.faults files.old) (F.faults files.new) × IsFileOf spec.now (F.last files.new) }
    ensures named { ¬ (IsErrOf result LoadFault.Failed) → F.last files.new ≡ F.last files.old }
    ensures held { F.held files.new ≡ F.held files.old }
    ensures later { F.faults files.old ≤ F.faults files.new }
    ensures reads { LogsFile spec.now.file (F.log files.old) (F.log files.new) }
{
    match &spec.file {
        Some(name) => read_file(alloc, files, name.as_slice()),
        None => Ok(Vec::new(alloc)),
    }
}

/// The bytes of the file of this name.
fn read_file<F: Files>(alloc: Global, files: &mut F, name: &[u8]) -> Result<Vec<u8>, LoadFault>
    ensures text { IfOk result (λ text. IfSome (F.held files.old) (λ files.
        value_at files name.now ≡ Some text.items)) }
    ensures err { IfErr result IsFailedOrNoMemory }
    ensures failed { IsErrOf result LoadFault.Failed
        → Rose (F.faults files.old) (F.faults files.new) × (F.last files.new ≡ Some name.now) }
    ensures named { ¬ (IsErrOf result LoadFault.Failed) → F.last files.new ≡ F.last files.old }
    ensures held { F.held files.new ≡ F.held files.old }
    ensures later { F.faults files.old ≤ F.faults files.new }
    ensures reads { Logs (F.log files.old) (F.log files.new) name.now }
{
    match files.read(alloc, name) {
        Ok(text) => Ok(text),
        Err(FileFault::Failed) => Err(LoadFault::Failed),
        Err(FileFault::NoMemory) => Err(LoadFault::NoMemory),
    }
}
