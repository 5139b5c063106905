ghost use Rattle.std.specs.Prelude.{◌≡◌, ℕ, length, Err, IfOk, IsErrOf, IsSomeAnd};
ghost use Rattle.hx_base.specs.Pairs.{pairs_of};
ghost use Rattle.hx_outside.specs.Count.{Rose};
ghost use Rattle.hx_rules.specs.Tables.{HasHeads, HasLists};
ghost use Rattle.hx_load.specs.Loads.{IsRefusedByLines, LineReads, LinesBring};

use crate::lines::{LinesRead, read_lines};
use hx_filling::{LoadFault, declare, known_tables};
use hx_outside::ReMaker;
use hx_refs::{Limits, Refs};
use hx_rules::Program;
use std::alloc::Global;

/// What the lines of a configuration bring, whatever its files hold: its program, and its
/// references with their numbers, heads and these limits, before they have entries. `env` has the
/// variables of the environment, of which the first pair of a name counts. Regular expressions are
/// made by `maker`. No file is read.
///
/// `Refused` exactly where the lines alone have a fault, as `load` says: that of the first line
/// that is refused; where each gives a statement, that of the first number that is given twice;
/// where no number is, that of the first rule that changes a file which no `-f` and no map names.
/// `Failed` never. `TooLarge` only where the maker's count of texts that were too large rose, and
/// the last of them is one that a line has read as an expression. `NoMemory` where memory runs out.
///
/// HAProxy configuration manual 2.4, sections 2.1, 2.2, 4, 7.1, 7.2 and 7.3.
pub fn load_lines<M: ReMaker>(
    alloc: Global,
    config: &[u8],
    env: &[(Vec<u8>, Vec<u8>)],
    maker: &mut M,
    limits: Limits,
) -> Result<(Program, Refs), LoadFault>
    ensures accepted { IfOk result (λ brought. LinesBring (pairs_of env.now) limits config.now
        brought.0 brought.1.content) }
    ensures refused { (line code : ℕ) → result ≡ Err (LoadFault.Refused line code)
        → IsRefusedByLines (pairs_of env.now) config.now (record { line = line; code = code }) }
    ensures too_large { IsErrOf result LoadFault.TooLarge
        → Rose (M.state maker.old).too_large (M.state maker.new).too_large
        × IsSomeAnd (M.state maker.new).large (LineReads (pairs_of env.now) config.now) }
    ensures uncounted { ¬ (IsErrOf result LoadFault.TooLarge)
        → ((M.state maker.new).too_large ≡ (M.state maker.old).too_large)
        × ((M.state maker.new).large ≡ (M.state maker.old).large) }
    ensures never { ¬ (IsErrOf result LoadFault.Failed) }
    ensures heads { IfOk result (λ brought. HasHeads brought.1.content.heads brought.0) }
    ensures lists { IfOk result
        (λ brought. HasLists (length brought.1.content.references) brought.0) }
{
    let LinesRead { speller, program } = read_lines(alloc, env, config, maker)?;
    let specs = speller.tables();
    let refs = declare(alloc, &specs, limits)?;
    known_tables(specs.as_slice())?;
    Ok((program, refs))
}
