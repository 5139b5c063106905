ghost use Rattle.std.specs.Prelude.{◌≡◌, ◌≢◌, ◌≤◌, ◌⊎◌, length, IfOk, IsErrOf};
ghost use Rattle.std.specs.List.{AllPairs};
ghost use Rattle.hx_base.specs.Pairs.{pairs_of};
ghost use Rattle.hx_outside.specs.Count.{Rose};
ghost use Rattle.hx_outside.specs.Log.{HoldsSince};
ghost use Rattle.hx_rules.specs.Tables.{HasHeads, HasLists};
ghost use Rattle.hx_load.specs.LoadResult.{LoadJudgesLast, LoadReads, LoadReadsLast, LoadsHeld};

use crate::lines::{LinesRead, read_lines};
use hx_filling::{LoadFault, declare, fill, known_tables};
use hx_outside::{Files, ReMaker};
use hx_refs::{Limits, Refs};
use hx_rules::Program;
use std::alloc::Global;

/// Loads a configuration: its program, and the references that it looks values up in and changes,
/// with these limits. `env` has the variables of the environment, of which the first pair of a name
/// counts. Regular expressions are made by `maker`.
///
/// The files that it names are read through `files`: none where it is refused by its lines alone,
/// and else each once, in the order in which they first appear, up to the one at which loading
/// ends. No other file is read.
///
/// `Refused` exactly where the configuration has a fault: that of its first line that is refused;
/// where each line gives a statement, that of the first number that is given twice; where no number
/// is, that of the first rule that changes a file which no `-f` and no map names; where there is
/// none, that of the first entry of a file or an inline pattern that is refused, with the line on
/// which its reference first appears. `Failed` only where the files' count of faults rose, for the
/// file whose name `last` then is. `TooLarge` only where the maker's count of texts that were too
/// large rose. `NoMemory` where memory runs out.
///
/// HAProxy configuration manual 2.4, sections 2.1, 2.2, 4, 7.1, 7.2 and 7.3.
pub fn load<F: Files, M: ReMaker>(
    alloc: Global,
    config: &[u8],
    env: &[(Vec<u8>, Vec<u8>)],
    files: &mut F,
    maker: &mut M,
    limits: Limits,
) -> Result<(Program, Refs), LoadFault>
    ensures loads { LoadsHeld (F.held files.old) (pairs_of env.now) limits config.now result }
    ensures failed { IsErrOf result LoadFault.Failed
        → Rose (F.faults files.old) (F.faults files.new)
        × LoadReadsLast (F.held files.old) (pairs_of env.now) limits config.now (F.last files.new) }
    ensures too_large { IsErrOf result LoadFault.TooLarge
        → Rose (M.state maker.old).too_large (M.state maker.new).too_large
        × LoadJudgesLast (F.held files.old) (pairs_of env.now) limits config.now
        (M.state maker.new).large }
    ensures uncounted { ¬ (IsErrOf result LoadFault.TooLarge)
        → ((M.state maker.new).too_large ≡ (M.state maker.old).too_large)
        × ((M.state maker.new).large ≡ (M.state maker.old).large) }
    ensures held { F.held files.new ≡ F.held files.old }
    ensures named { (F.last files.new ≡ F.last files.old)
        ⊎ LoadReadsLast (F.held files.old) (pairs_of env.now) limits config.now (F.last files.new) }
    ensures later { F.faults files.old ≤ F.faults files.new }
    ensures reads { HoldsSince (F.log files.old) (F.log files.new)
        (LoadReads (F.held files.old) (pairs_of env.now) limits config.now result
        (F.last files.new)) }
    ensures once { HoldsSince (F.log files.old) (F.log files.new) (AllPairs (λ n m. n ≢ m)) }
    ensures heads { IfOk result (λ loaded. HasHeads loaded.1.content.heads loaded.0) }
    ensures lists { IfOk result (λ loaded. HasLists (length loaded.1.content.references) loaded.0) }
{
    let LinesRead { speller, program } = read_lines(alloc, env, config, maker)?;
    let specs = speller.tables();
    let mut refs = declare(alloc, &specs, limits)?;
    known_tables(specs.as_slice())?;
    fill(alloc, files, &specs, &mut refs, maker)?;
    Ok((program, refs))
}
