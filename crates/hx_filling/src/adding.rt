//! The entries of one reference are added to it.
ghost use Rattle.std.specs.Prelude.{◌≡◌, ◌<◌, ◌++◌, Err, IfErr, IfOk, List, map, length};
ghost use Rattle.hx_refs.specs.Additions.{Pair};
ghost use Rattle.hx_refs.specs.FileLines.{key_alone, text_pairs};
ghost use Rattle.hx_filling.specs.Adding.{AddsAs, AddsRest, IsUncounted};
ghost use Rattle.hx_filling.specs.Filling.{fault_of_entry, pairs_of_text};

use crate::load_fault::LoadFault;
use hx_ast::Texts;
use hx_calls::TableSpec;
use hx_outside::ReMaker;
use hx_refs::{Pairs, RefFault, Refs};
use hx_text::{NoMemory, cut_at};
use std::alloc::Global;

/// The code of a key that is no pattern.
const BAD_PATTERN: u32 = 16;

/// The code of a value that can't be read.
const BAD_VALUE: u32 = 18;

/// The code of an entry that is one too many.
const TOO_LONG: u32 = 20;

/// The code of a fault that no addition to the version that is searched has.
const NO_CODE: u32 = 0;

/// How many lines with an entry are added at once. All entries of an addition are judged before the
/// first is put, and what is made of them meanwhile takes more memory than what is kept.
const BATCH: usize = 512;

/// Adds the entries of a reference to it: those of the lines of this text, where it has a file, and
/// else its inline patterns.
pub(crate) fn add_entries<M: ReMaker>(
    alloc: Global,
    refs: &mut Refs,
    r: u32,
    spec: &TableSpec,
    text: &[u8],
    maker: &mut M,
) -> Result<(), LoadFault>
    requires { r < length refs.old.content.references }
    ensures { AddsAs r spec.now.line (pairs_of_text text.now spec.now) refs.old.content
        refs.new.content (M.state maker.old) (M.state maker.new) result }
{
    match &spec.file {
        Some(_) => add_lines(alloc, refs, r, spec, text, maker),
        None => add_keys(alloc, refs, r, spec, maker),
    }
}

/// Adds the entries of the lines of a text.
fn add_lines<M: ReMaker>(
    alloc: Global,
    refs: &mut Refs,
    r: u32,
    spec: &TableSpec,
    text: &[u8],
    maker: &mut M,
) -> Result<(), LoadFault>
    requires { r < length refs.old.content.references }
    ensures { AddsAs r spec.now.line (text_pairs spec.now.two_column text.now) refs.old.content
        refs.new.content (M.state maker.old) (M.state maker.new) result }
{
    let two_column = spec.two_column;
    let mut pairs = Pairs::new(alloc);
    let mut rest = text;
    while let Some((line, after)) = cut_at(b'\n', rest) {
        pairs.push_line(line, two_column)?;
        pairs = add_full(alloc, refs, r, spec.line, pairs, maker)?;
        rest = after;
    }
    pairs.push_line(rest, two_column)?;
    add_pairs(refs, r, spec.line, &pairs, maker)
}

/// Adds the pairs where they are as many as are added at once. It answers those that are left to
/// be added then: these, or none.
fn add_full<M: ReMaker>(
    alloc: Global,
    refs: &mut Refs,
    r: u32,
    line: u64,
    pairs: Pairs,
    maker: &mut M,
) -> Result<Pairs, LoadFault>
    requires { r < length refs.old.content.references }
    ensures left { IfOk result (λ left. (more : List Pair)
        → AddsRest r (pairs ++ more) (left ++ more) refs.old.content refs.new.content) }
    ensures uncounted { IfOk result (λ left. IsUncounted (M.state maker.old) (M.state maker.new)) }
    ensures err { IfErr result (λ fault. AddsAs r line pairs refs.old.content refs.new.content
        (M.state maker.old) (M.state maker.new) (Err fault)) }
{
    if pairs.len() < BATCH {
        return Ok(pairs);
    }
    add_pairs(refs, r, line, &pairs, maker)?;
    Ok(Pairs::new(alloc))
}

/// Adds inline patterns.
fn add_keys<M: ReMaker>(
    alloc: Global,
    refs: &mut Refs,
    r: u32,
    spec: &TableSpec,
    maker: &mut M,
) -> Result<(), LoadFault>
    requires { r < length refs.old.content.references }
    ensures { AddsAs r spec.now.line (map key_alone spec.now.inline) refs.old.content
        refs.new.content (M.state maker.old) (M.state maker.new) result }
{
    let pairs = keys(alloc, &spec.inline)?;
    add_pairs(refs, r, spec.line, &pairs, maker)
}

/// The keys of inline patterns.
fn keys(alloc: Global, words: &Texts) -> Result<Pairs, NoMemory>
    ensures { IfOk result (λ pairs. pairs ≡ map key_alone words.now) }
{
    let mut pairs = Pairs::new(alloc);
    let mut rest = words.as_slice();
    while let [word, others @ ..] = rest {
        pairs.push(word.as_slice(), b"")?;
        rest = others;
    }
    Ok(pairs)
}

/// Adds the pairs, all or none, to the reference at the position `r`, where this line of the
/// configuration brings it.
fn add_pairs<M: ReMaker>(
    refs: &mut Refs,
    r: u32,
    line: u64,
    pairs: &Pairs,
    maker: &mut M,
) -> Result<(), LoadFault>
    requires { r < length refs.old.content.references }
    ensures { AddsAs r line pairs.now refs.old.content refs.new.content
        (M.state maker.old) (M.state maker.new) result }
{
    match refs.add_many(r, None, pairs, maker) {
        Ok(()) => Ok(()),
        Err(fault) => Err(entry_fault(line, fault)),
    }
}

/// The fault of a configuration where an entry that this line brings has one.
fn entry_fault(line: u64, fault: RefFault) -> LoadFault
    ensures { result ≡ fault_of_entry line fault }
{
    match fault {
        RefFault::BadPattern => LoadFault::Refused {
            line,
            code: BAD_PATTERN,
        },
        RefFault::BadValue => LoadFault::Refused {
            line,
            code: BAD_VALUE,
        },
        RefFault::VersionFull | RefFault::VersionWorn => LoadFault::Refused {
            line,
            code: TOO_LONG,
        },
        RefFault::UnknownRef
        | RefFault::BadVersion
        | RefFault::KeyNotFound
        | RefFault::NeedsMap
        | RefFault::UsedAsMap
        | RefFault::NoMoreVersions => LoadFault::Refused {
            line,
            code: NO_CODE,
        },
        RefFault::TooLarge => LoadFault::TooLarge,
        RefFault::NoMemory => LoadFault::NoMemory,
    }
}
