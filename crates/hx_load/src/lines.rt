ghost use Rattle.std.specs.Prelude.{◌≡◌, ◌≢◌, ◌≤◌, ℕ, ◌∷◌, length, Err};
ghost use Rattle.std.specs.Prelude.{IfOk, IsErrOf, IsSomeAnd, OnOk};
ghost use Rattle.std.specs.Option.{option_copied};
ghost use Rattle.hx_base.specs.Pairs.{pairs_of};
ghost use Rattle.hx_outside.specs.Count.{Rose};
ghost use Rattle.hx_calls.specs.Known.{nothing_known};
ghost use Rattle.hx_load.specs.Configuration.{lines_left, lines_of, size_left, statements_from};
ghost use Rattle.hx_load.specs.Loads.{LineReads};
ghost use Rattle.hx_load.specs.LineReading.{AddsStatement, IsReadAs, KeepsNames, LineReadAs, NamesOnly};

use crate::line_fault::LineFault;
use crate::statements::push_statement;
use hx_filling::LoadFault;
use hx_outside::ReMaker;
use hx_rules::Program;
use hx_spell::Speller;
use hx_text::{cut_at, without_cr};
use hx_words::split;
use std::alloc::Global;

/// What the lines of a configuration bring: their references, and their program.
#[derive(Drop)]
pub(crate) struct LinesRead {
    pub(crate) speller: Speller,
    pub(crate) program: Program,
}

/// Takes in the statements of all lines of a configuration.
///
/// `Refused` exactly where a line has a fault, with the first one's number and code. `TooLarge`
/// only where the maker's count of texts that were too large rose, and the last of them is one that
/// a line has read as an expression.
pub(crate) fn read_lines<M: ReMaker>(
    alloc: Global,
    env: &[(Vec<u8>, Vec<u8>)],
    config: &[u8],
    maker: &mut M,
) -> Result<LinesRead, LoadFault>
    ensures accepted { IfOk result (λ read. IsReadAs (pairs_of env.now) config.now read.speller
        read.program) }
    ensures names { IfOk result (λ read. NamesOnly read.speller.heads
        (length read.speller.references) read.program) }
    ensures refused { (line code : ℕ) → result ≡ Err (LoadFault.Refused line code)
        → statements_from (pairs_of env.now) 1 (lines_of config.now) nothing_known
        ≡ Err (record { line = line; code = code }) }
    ensures too_large { IsErrOf result LoadFault.TooLarge
        → Rose (M.state maker.old).too_large (M.state maker.new).too_large
        × IsSomeAnd (M.state maker.new).large (LineReads (pairs_of env.now) config.now) }
    ensures uncounted { ¬ (IsErrOf result LoadFault.TooLarge)
        → ((M.state maker.new).too_large ≡ (M.state maker.old).too_large)
        × ((M.state maker.new).large ≡ (M.state maker.old).large) }
    ensures never { ¬ (IsErrOf result LoadFault.Failed) }
{
    let Ok(mut speller) = Speller::new(alloc) else {
        return Err(LoadFault::NoMemory);
    };
    let mut program = Program::new(alloc);
    let mut number = 0u64;
    let mut rest = Some(config);
    'lines: while let Some(text) = rest {
        let (line, after) = first_line(text);
        number += 1;
        match read_line(alloc, env, number, line, &mut speller, &mut program, maker) {
            Ok(()) => {}
            Err(LineFault::Refused(code)) => {
                return Err(LoadFault::Refused { line: number, code });
            }
            Err(LineFault::TooLarge) => return Err(LoadFault::TooLarge),
            Err(LineFault::NoMemory) => return Err(LoadFault::NoMemory),
        }
        rest = after;
    }
    Ok(LinesRead { speller, program })
}

/// The first line of a text, and the text after its line feed, where it has one.
#[tactic(auto, using(crate::proofs::LoadLemmas::first_lines))]
fn first_line(text: &[u8]) -> (&[u8], Option<&[u8]>)
    ensures lines { lines_of text.now ≡ result.0.now ∷ lines_left (option_copied result.1) }
    ensures shorter { size_left (option_copied result.1) ≤ length text.now }
{
    match cut_at(b'\n', text) {
        Some((line, after)) => (without_cr(line), Some(after)),
        None => (without_cr(text), None),
    }
}

/// Takes in the statement of the line with this number.
fn read_line<M: ReMaker>(
    alloc: Global,
    env: &[(Vec<u8>, Vec<u8>)],
    number: u64,
    line: &[u8],
    speller: &mut Speller,
    program: &mut Program,
    maker: &mut M,
) -> Result<(), LineFault>
    ensures ok { OnOk result (AddsStatement (pairs_of env.now) number line.now speller.old
        speller.new program.old program.new) }
    ensures names { OnOk result (KeepsNames speller.old speller.new program.old program.new) }
    ensures read { LineReadAs (pairs_of env.now) number line.now speller.old
        (M.state maker.old) (M.state maker.new) result }
{
    let words = split(alloc, env, line)?;
    let statement = speller.line(number, &words)?;
    push_statement(alloc, program, &statement, maker)
}
