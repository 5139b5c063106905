//! Calls of hx_refs.

ghost use Rattle.std.specs.Prelude.{◌≡◌, ◌<◌, [], IfOk, OnOk, length};
ghost use Rattle.hx_refs.specs.References.{HasHadNone};
ghost use Rattle.hx_expr.specs.Values.{IsHeadBy};

use crate::methods::way;
use hx_cases_base::{CaseFault, id, pairs, show_option, show_pair};
use hx_cases_syntax::method_word;
use hx_outside::{PlainMaker, ReMaker};
use hx_refs::{Limits, Pairs, RefFault, Refs};
use hx_text::{By, Out, cut_at};
use std::alloc::Global;
use std::fmt::Write;

/// References of one map that has nothing yet, with the number 7 and the file `a.map`.
pub fn one_map(alloc: Global, limits: Limits) -> Result<Refs, CaseFault>
    ensures heads { IfOk result (λ refs. refs.content.heads ≡ []) }
    ensures some { IfOk result (λ refs. 0 < length refs.content.references) }
    ensures none { IfOk result (λ refs. HasHadNone refs.content 0) }
{
    let mut refs = Refs::new(alloc, limits);
    refs.add_ref(7, Some(b"a.map"), true, false)?;
    Ok(refs)
}

/// A use of the map.
fn add_way(refs: &mut Refs, text: &[u8]) -> Result<(), CaseFault>
    requires some { 0 < length refs.old.content.references }
    requires none { HasHadNone refs.old.content 0 }
    ensures references { OnOk result (refs.new.content.references ≡ refs.old.content.references) }
    ensures head { OnOk result
        ((by : By) → IsHeadBy refs.old.content.heads 0 by → IsHeadBy refs.new.content.heads 0 by) }
{
    let (by, ci) = way(text)?;
    refs.add_use(0, by, ci)?;
    Ok(())
}

/// Uses of the map, with commas between, or `-` for none.
pub fn add_uses(refs: &mut Refs, text: &[u8]) -> Result<(), CaseFault>
    requires some { 0 < length refs.old.content.references }
    requires none { HasHadNone refs.old.content 0 }
    ensures references { OnOk result (refs.new.content.references ≡ refs.old.content.references) }
    ensures head { OnOk result
        ((by : By) → IsHeadBy refs.old.content.heads 0 by → IsHeadBy refs.new.content.heads 0 by) }
{
    if text == b"-".as_slice() {
        return Ok(());
    }
    for piece in text.split(|b| *b == b',') {
        add_way(refs, piece)?;
    }
    Ok(())
}

/// The type in which values of the map have to be readable, or `-`.
fn add_type(refs: &mut Refs, text: &[u8]) -> Result<(), CaseFault>
    requires some { 0 < length refs.old.content.references }
    requires none { HasHadNone refs.old.content 0 }
    ensures { OnOk result (0 < length refs.new.content.references) }
{
    match text {
        b"-" => Ok(()),
        b"str" => Ok(refs.add_out(0, Out::Str)?),
        b"int" => Ok(refs.add_out(0, Out::Int)?),
        b"ip" => Ok(refs.add_out(0, Out::Ip)?),
        _ => Err(CaseFault::BadArguments),
    }
}

/// How many entries a version may have, and after a comma how many additions.
fn limits(text: &[u8]) -> Result<Limits, CaseFault> {
    if text == b"-".as_slice() {
        return Ok(Limits::usual());
    }
    let (entries, adds) = cut_at(b',', text).ok_or(CaseFault::BadArguments)?;
    Ok(Limits {
        entries: id(entries)?,
        adds: id(adds)?,
        versions: 0,
    })
}

/// Keys with their values, as `KEY=VALUE`, with `;` between, or `-` for none.
pub fn held_pairs(alloc: Global, text: &[u8]) -> Result<Pairs, CaseFault> {
    let mut held = Pairs::new(alloc);
    let spelled = pairs(alloc, text)?;
    for (key, value) in spelled.as_slice() {
        held.push(key.as_slice(), value.as_slice())?;
    }
    Ok(held)
}

/// Writes what an addition answers, and says whether the entries were added.
pub fn show_added(out: &mut String, added: Result<(), RefFault>) -> Result<bool, CaseFault> {
    match added {
        Ok(()) => Ok(true),
        Err(RefFault::NoMemory) => Err(CaseFault::NoMemory),
        Err(fault) => {
            write!(out, "{fault:?}|")?;
            Ok(false)
        }
    }
}

/// Makes the addition `KEY=VALUE` by a call for one entry, or `KEY=VALUE;..` by one for many, to
/// the version that stands before it with `:`, and to the searched one with `-:`.
fn add_held<M: ReMaker>(
    alloc: Global,
    refs: &mut Refs,
    text: &[u8],
    maker: &mut M,
) -> Result<Result<(), RefFault>, CaseFault>
    requires { 0 < length refs.old.content.references }
    ensures { 0 < length refs.new.content.references }
{
    let (ver, text) = cut_at(b':', text).ok_or(CaseFault::BadArguments)?;
    let ver = match ver {
        b"-" => None,
        number => Some(id(number)?),
    };
    let spelled = pairs(alloc, text)?;
    if let [(key, value)] = spelled.as_slice() {
        return Ok(refs.add(0, ver, key.as_slice(), value.as_slice(), maker));
    }
    let held = held_pairs(alloc, text)?;
    Ok(refs.add_many(0, ver, &held, maker))
}

/// Writes the uses of the map in their order, each with its head, its entries, and what is told of
/// it.
fn show_map(out: &mut String, refs: &Refs) -> Result<(), CaseFault>
    requires { 0 < length refs.now.content.references }
{
    for place in 0..23 {
        if let Some((by, ci, head)) = refs.use_at(0, place) {
            let (by, case) = (method_word(by), if ci { "-i" } else { "" });
            write!(out, "{by}{case}={head}|")?;
        }
    }
    for entry in refs.entries(0, None) {
        let number = entry.number;
        write!(out, "{number}")?;
        show_pair(out, entry.key, entry.value)?;
        out.push('|')?;
    }
    let info = refs.info(0);
    write!(out, "{info:?}")?;
    show_option(out, refs.file(0))
}

/// `added USES TYPE LIMITS ADDITION ..`: what each addition to a map answers, and after > the map
/// that they leave, and the last text that was too large.
pub fn added_case(alloc: Global, out: &mut String, args: &[Vec<u8>]) -> Result<(), CaseFault> {
    let [uses, kind, most, additions @ ..] = args else {
        return Err(CaseFault::BadArguments);
    };
    let mut refs = one_map(alloc, limits(most.as_slice())?)?;
    add_uses(&mut refs, uses.as_slice())?;
    add_type(&mut refs, kind.as_slice())?;
    let mut maker = PlainMaker::new();
    for text in additions {
        let added = add_held(alloc, &mut refs, text.as_slice(), &mut maker)?;
        if show_added(out, added)? {
            out.push_str("ok|")?;
        }
    }
    out.push('>')?;
    show_map(out, &refs)?;
    show_option(out, maker.large_text())
}
