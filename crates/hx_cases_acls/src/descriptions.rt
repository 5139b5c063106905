//! References with their uses and outputs, as a line describes them.

ghost use Rattle.std.specs.Prelude.{◌≡◌, ◌≢◌, ◌<◌, false, Some, IfOk, IfSome, OnOk, length};
ghost use Rattle.std.specs.List.{All};
ghost use Rattle.std.specs.Option.{option_copied};
ghost use Rattle.hx_refs.specs.References.{HasHadNone};

use crate::uses::can_be_use;
use hx_cases_base::{CaseFault, id};
use hx_refs::{Limits, Refs};
use hx_text::{By, Out, cut_at};
use std::alloc::Global;

/// The match method of patterns that is named so.
fn method(text: &[u8]) -> Result<By, CaseFault> {
    match text {
        b"int" => Ok(By::Int),
        b"ip" => Ok(By::Ip),
        b"bin" => Ok(By::Bin),
        b"len" => Ok(By::Len),
        b"str" => Ok(By::Str),
        _ => method_of_parts(text),
    }
}

/// The match method that is named so, by which a pattern is part of a text.
fn method_of_parts(text: &[u8]) -> Result<By, CaseFault> {
    match text {
        b"beg" => Ok(By::Beg),
        b"end" => Ok(By::End),
        b"sub" => Ok(By::Sub),
        b"dir" => Ok(By::Dir),
        b"dom" => Ok(By::Dom),
        b"reg" => Ok(By::Reg),
        _ => Err(CaseFault::BadArguments),
    }
}

/// A use: a method, and whether case is ignored, as it is with `-i` behind the method.
fn way(text: &[u8]) -> Result<(By, bool), CaseFault> {
    match text {
        [name @ .., b'-', b'i'] => Ok((method(name)?, true)),
        name => Ok((method(name)?, false)),
    }
}

/// Adds a use to a reference to which nothing was added.
fn add_use(refs: &mut Refs, r: u32, text: &[u8]) -> Result<(), CaseFault>
    requires r { r < length refs.old.content.references }
    requires none { HasHadNone refs.old.content r }
    ensures { OnOk result (refs.new.content.references ≡ refs.old.content.references) }
{
    let (by, ci) = way(text)?;
    if !can_be_use(by, ci) {
        return Err(CaseFault::BadArguments);
    }
    refs.add_use(r, by, ci)?;
    Ok(())
}

/// Adds an output to a reference to which nothing was added, for `=` and a type, or else a use.
fn add_part(refs: &mut Refs, r: u32, text: &[u8]) -> Result<(), CaseFault>
    requires r { r < length refs.old.content.references }
    requires none { HasHadNone refs.old.content r }
    ensures r { OnOk result (r < length refs.new.content.references) }
    ensures none { OnOk result (HasHadNone refs.new.content r) }
{
    match text {
        b"=str" => Ok(refs.add_out(r, Out::Str)?),
        b"=int" => Ok(refs.add_out(r, Out::Int)?),
        b"=ip" => Ok(refs.add_out(r, Out::Ip)?),
        _ => add_use(refs, r, text),
    }
}

/// Adds uses and outputs, with commas between, or none for `-`.
fn add_parts(refs: &mut Refs, r: u32, text: &[u8]) -> Result<(), CaseFault>
    requires r { r < length refs.old.content.references }
    requires none { HasHadNone refs.old.content r }
{
    if text == b"-".as_slice() {
        return Ok(());
    }
    for piece in text.split(|b| *b == b',') {
        add_part(refs, r, piece)?;
    }
    Ok(())
}

/// Whether a reference has the number.
fn has_number(refs: &Refs, number: u32) -> bool
    ensures { result ≡ false
        → All (λ reference. reference.id ≢ number) refs.now.content.references }
{
    for position in 0..refs.len() {
        if refs.info(position).id == number {
            return true;
        }
    }
    false
}

/// Whether it is a file of this name.
fn is_named(file: Option<&[u8]>, name: &[u8]) -> bool
    ensures { result ≡ false → option_copied file.entry ≢ Some name.now }
{
    match file {
        Some(file) => file == name,
        None => false,
    }
}

/// Whether a reference has the file of this name.
fn has_name(refs: &Refs, name: &[u8]) -> bool
    ensures { result ≡ false
        → All (λ reference. reference.file ≢ Some name.now) refs.now.content.references }
{
    for position in 0..refs.len() {
        if is_named(refs.file(position), name) {
            return true;
        }
    }
    false
}

/// Whether a reference has the file, if it is one.
fn has_file(refs: &Refs, file: Option<&[u8]>) -> bool
    ensures { result ≡ false → IfSome (option_copied file.entry)
        (λ name. All (λ reference. reference.file ≢ Some name) refs.now.content.references) }
{
    match file {
        Some(name) => has_name(refs, name),
        None => false,
    }
}

/// Appends a reference without uses and outputs, and answers its position.
fn add_new(
    refs: &mut Refs,
    number: u32,
    file: Option<&[u8]>,
    two_column: bool,
    acl: bool,
) -> Result<u32, CaseFault>
    ensures r { IfOk result (λ r. r < length refs.new.content.references) }
    ensures none { IfOk result (λ r. HasHadNone refs.new.content r) }
{
    if refs.len() >= 65_536 || has_number(refs, number) || has_file(refs, file) {
        return Err(CaseFault::BadArguments);
    }
    Ok(refs.add_ref(number, file, two_column, acl)?)
}

/// Whether entries have values, and whether an ACL uses them.
fn columns(text: &[u8]) -> Result<(bool, bool), CaseFault> {
    match text {
        b"acl" => Ok((false, true)),
        b"map" => Ok((true, false)),
        b"both" => Ok((true, true)),
        b"neither" => Ok((false, false)),
        _ => Err(CaseFault::BadArguments),
    }
}

/// Appends the reference `COLUMNS,NUMBER,FILE,PARTS`, where FILE may be `-`.
fn add_reference(refs: &mut Refs, text: &[u8]) -> Result<(), CaseFault> {
    let (kind, text) = cut_at(b',', text).ok_or(CaseFault::BadArguments)?;
    let (number, text) = cut_at(b',', text).ok_or(CaseFault::BadArguments)?;
    let (file, parts) = cut_at(b',', text).ok_or(CaseFault::BadArguments)?;
    let (two_column, acl) = columns(kind)?;
    let file = match file {
        b"-" => None,
        name => Some(name),
    };
    let r = add_new(refs, id(number)?, file, two_column, acl)?;
    add_parts(refs, r, parts)
}

/// The limits `ENTRIES,ADDITIONS,VERSIONS`, or the usual ones for `-`.
fn limits_without(text: &[u8]) -> Result<Limits, CaseFault> {
    if text == b"-".as_slice() {
        return Ok(Limits::usual());
    }
    let (entries, text) = cut_at(b',', text).ok_or(CaseFault::BadArguments)?;
    let (adds, versions) = cut_at(b',', text).ok_or(CaseFault::BadArguments)?;
    Ok(Limits {
        entries: id(entries)?,
        adds: id(adds)?,
        versions: id(versions)?,
    })
}

/// Limits, and the number of the version with which a reference begins, which may follow after `@`
/// and else is 0.
fn limits(text: &[u8]) -> Result<(Limits, u32), CaseFault> {
    match cut_at(b'@', text) {
        Some((most, first)) => Ok((limits_without(most)?, id(first)?)),
        None => Ok((limits_without(text)?, 0)),
    }
}

/// The references that are described, with `;` between.
pub fn references(alloc: Global, most: &[u8], text: &[u8]) -> Result<Refs, CaseFault> {
    let (limits, first) = limits(most)?;
    let mut refs = Refs::start(alloc, limits, first);
    for piece in text.split(|b| *b == b';') {
        add_reference(&mut refs, piece)?;
    }
    Ok(refs)
}
