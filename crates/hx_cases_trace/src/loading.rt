ghost use Rattle.std.specs.Prelude.{[], IfOk, length};
ghost use Rattle.hx_rules.specs.Tables.{HasHeads, HasLists};
ghost use Rattle.hx_trace.specs.Statements.{HasPatternFaultsAlone, LinesNumber};

use crate::setting::Setting;
use crate::showing::show_load_fault;
use hx_cases_base::CaseFault;
use hx_load::laws::loading;
use hx_load::{LoadFault, load, load_lines};
use hx_outside::{Files, ReMaker};
use hx_refs::{Limits, Refs};
use hx_trace::Explained;
use hx_trace::laws::{the_numbers_are_those_of_references, what_loads_has_no_fault_in_its_lines};
use std::alloc::Global;
use std::fmt::Write;

/// `lines`
pub fn lines_case(
    alloc: Global,
    setting: &Setting,
    out: &mut String,
    args: &[Vec<u8>],
) -> Result<(), CaseFault> {
    let [] = args else {
        return Err(CaseFault::BadArguments);
    };
    let mut maker = setting.maker(alloc)?;
    match load_lines(
        alloc,
        setting.config.as_slice(),
        &[],
        &mut maker,
        Limits::usual(),
    ) {
        Ok((_program, refs)) => {
            let count = refs.len();
            Ok(write!(out, "{count}")?)
        }
        Err(fault) => show_load_fault(out, fault),
    }
}

/// Loads what the lines of a configuration bring, or answers the first fault that they have.
pub fn try_lines<M: ReMaker>(alloc: Global, config: &[u8], maker: &mut M) -> Result<(), LoadFault>
    ensures { IfOk result (λ _. HasPatternFaultsAlone [] config.now) }
{
    let _brought = load_lines(alloc, config, &[], maker, Limits::usual())?;
    what_loads_has_no_fault_in_its_lines();
    Ok(())
}

/// The references that are loaded of the configuration of these statements.
pub fn loaded_for<F: Files, M: ReMaker>(
    alloc: Global,
    prog: &Explained,
    config: &[u8],
    files: &mut F,
    maker: &mut M,
) -> Result<Refs, LoadFault>
    requires { LinesNumber [] config.now prog.now }
    ensures heads { IfOk result (λ refs. HasHeads refs.content.heads prog.now.program) }
    ensures lists { IfOk result
        (λ refs. HasLists (length refs.content.references) prog.now.program) }
{
    let (_program, refs) = load(alloc, config, &[], files, maker, Limits::usual())?;
    loading();
    the_numbers_are_those_of_references();
    Ok(refs)
}
