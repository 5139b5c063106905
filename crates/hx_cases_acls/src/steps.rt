//! Calls of hx_refs on the versions and entries of references, one after another.

ghost use Rattle.std.specs.Prelude.{◌≡◌, ◌<◌, length};

use crate::descriptions::references;
use crate::entries::show_added;
use crate::searches::find_at;
use hx_cases_base::{CaseFault, id, show_pair};
use hx_outside::PlainMaker;
use hx_pool::Steps;
use hx_refs::{Entries, Pairs, RefFault, Refs, Side, Slots};
use hx_sample::{Change, TableFault, Tables};
use hx_text::cut_at;
use std::alloc::Global;
use std::fmt::Write;
use std::marker::Brand;
use std::sync::ledger::{Blank, Ledger};

/// Writes `ok`, or the fault.
fn show_done(out: &mut String, done: Result<(), RefFault>) -> Result<(), CaseFault> {
    if show_added(out, done)? {
        out.push_str("ok|")?;
    }
    Ok(())
}

/// Writes a number, or the fault.
fn show_number(out: &mut String, number: Result<u32, RefFault>) -> Result<(), CaseFault> {
    match number {
        Ok(number) => Ok(write!(out, "{number}|")?),
        Err(fault) => show_done(out, Err(fault)),
    }
}

/// The key and the value of `KEY=VALUE`, or of `KEY` with an empty value.
fn pair(text: &[u8]) -> (&[u8], &[u8]) {
    match cut_at(b'=', text) {
        Some(pair) => pair,
        None => text.split_at(text.len()),
    }
}

/// The number of the entry that was added as the SERIAL-th to a version, for `VERSION.SERIAL`.
fn entry_number(text: &[u8]) -> Result<u64, CaseFault> {
    let (ver, serial) = cut_at(b'.', text).ok_or(CaseFault::BadArguments)?;
    Ok(u64::from(id(ver)?) * 0x1_0000_0000 + u64::from(id(serial)?))
}

/// Writes `VERSION.0`, and then each entry with its number as `VERSION.SERIAL`.
pub fn show_entries(out: &mut String, ver: u32, entries: Entries<'_>) -> Result<(), CaseFault> {
    write!(out, "{ver}.0")?;
    for entry in entries {
        out.push(',')?;
        show_pair(out, entry.key, entry.value)?;
        let (ver, serial) = (entry.number / 0x1_0000_0000, entry.number % 0x1_0000_0000);
        write!(out, "{ver}.{serial}")?;
    }
    Ok(out.push('|')?)
}

/// Writes what is told of a reference.
pub fn show_info(out: &mut String, refs: &Refs, r: u32) -> Result<(), CaseFault>
    requires { r < length refs.now.content.references }
{
    let info = refs.info(r);
    Ok(write!(out, "{info:?}|")?)
}

/// Writes how many slots of memory are in use, and how many of these wait to be given back.
pub fn show_slots(out: &mut String, refs: &Refs) -> Result<(), CaseFault> {
    let Slots { used, retired } = refs.slots();
    Ok(write!(out, "{used}.{retired}|")?)
}

/// Commits a version, with steps that nothing reads.
fn commit_counted<L: Ledger>(
    refs: &mut Refs,
    r: u32,
    ver: u32,
    blank: Blank,
) -> Result<(), RefFault>
    requires r { r < length refs.old.content.references }
    requires name { blank.name ≡ L.name }
    requires parts { blank.parts ≡ L.parts }
    requires some { 0 < L.parts }
{
    let mut steps = Steps::<L>::open(blank);
    refs.commit(r, ver, &mut steps)
}

/// Commits a version, and counts nothing.
fn commit_uncounted(refs: &mut Refs, r: u32, ver: u32) -> Result<(), RefFault>
    requires { r < length refs.old.content.references }
{
    commit_counted::<Brand>(refs, r, ver, Blank::new(1))
}

/// The step of this name on the version that is searched, or on all.
fn plain_step(out: &mut String, refs: &mut Refs, r: u32, name: &[u8]) -> Result<(), CaseFault>
    requires { r < length refs.old.content.references }
{
    match name {
        b"prepare" => show_number(out, refs.prepare(r)),
        b"clear" => {
            refs.clear(r, None);
            show_done(out, Ok(()))
        }
        b"show" => show_entries(out, refs.info(r).curr, refs.entries(r, None)),
        b"info" => show_info(out, refs, r),
        b"slots" => show_slots(out, refs),
        _ => Err(CaseFault::BadArguments),
    }
}

/// The step of this name on a version.
fn version_step(
    out: &mut String,
    refs: &mut Refs,
    r: u32,
    name: &[u8],
    ver: u32,
) -> Result<(), CaseFault>
    requires { r < length refs.old.content.references }
{
    match name {
        b"commit" => show_done(out, commit_uncounted(refs, r, ver)),
        b"clear" => {
            refs.clear(r, Some(ver));
            show_done(out, Ok(()))
        }
        b"show" => show_entries(out, ver, refs.entries(r, Some(ver))),
        _ => Err(CaseFault::BadArguments),
    }
}

/// Gives back slots.
fn tidy(out: &mut String, refs: &mut Refs, count: u32) -> Result<(), CaseFault> {
    refs.tidy(count as usize);
    show_done(out, Ok(()))
}

/// Adds `KEY=VALUE` or `KEY`.
fn add(
    out: &mut String,
    refs: &mut Refs,
    r: u32,
    ver: Option<u32>,
    text: &[u8],
) -> Result<(), CaseFault>
    requires { r < length refs.old.content.references }
{
    let (key, value) = pair(text);
    show_done(out, refs.add(r, ver, key, value, &mut PlainMaker::new()))
}

/// Prepares a version with one entry, for `KEY=VALUE`, commits it, and gives back 64 slots.
fn replace(refs: &mut Refs, r: u32, text: &[u8]) -> Result<(), RefFault>
    requires { r < length refs.old.content.references }
{
    let (key, value) = pair(text);
    let ver = refs.prepare(r)?;
    add_to(refs, r, ver, key, value)
}

/// Adds an entry to a version, commits this, and gives back 64 slots.
fn add_to(refs: &mut Refs, r: u32, ver: u32, key: &[u8], value: &[u8]) -> Result<(), RefFault> {
    if r >= refs.len() {
        return Err(RefFault::UnknownRef);
    }
    refs.add(r, Some(ver), key, value, &mut PlainMaker::new())?;
    if r < refs.len() {
        commit_uncounted(refs, r, ver)?;
    }
    refs.tidy(64);
    Ok(())
}

/// Keys and values, with `;` between, or none for `-`.
fn pairs(alloc: Global, text: &[u8]) -> Result<Pairs, CaseFault> {
    let mut pairs = Pairs::new(alloc);
    if text == b"-".as_slice() {
        return Ok(pairs);
    }
    for piece in text.split(|b| *b == b';') {
        let (key, value) = pair(piece);
        pairs.push(key, value)?;
    }
    Ok(pairs)
}

/// Adds pairs at once.
fn add_many(
    alloc: Global,
    out: &mut String,
    refs: &mut Refs,
    r: u32,
    ver: Option<u32>,
    text: &[u8],
) -> Result<(), CaseFault>
    requires { r < length refs.old.content.references }
{
    let pairs = pairs(alloc, text)?;
    let added = refs.add_many(r, ver, &pairs, &mut PlainMaker::new());
    show_done(out, added)
}

/// Sets the value of the entries with a key, for `KEY=VALUE`.
fn set(
    out: &mut String,
    refs: &mut Refs,
    r: u32,
    ver: Option<u32>,
    text: &[u8],
) -> Result<(), CaseFault>
    requires { r < length refs.old.content.references }
{
    let (key, value) = cut_at(b'=', text).ok_or(CaseFault::BadArguments)?;
    show_done(out, refs.set_key(r, ver, key, value))
}

/// Sets the value of the entry with a number, for `VERSION.SERIAL=VALUE`.
fn set_id(
    out: &mut String,
    refs: &mut Refs,
    r: u32,
    ver: Option<u32>,
    text: &[u8],
) -> Result<(), CaseFault>
    requires { r < length refs.old.content.references }
{
    let (number, value) = cut_at(b'=', text).ok_or(CaseFault::BadArguments)?;
    show_done(out, refs.set_id(r, ver, entry_number(number)?, value))
}

/// The step of this name and this text on a version, or without one on that which is searched.
fn text_step(
    alloc: Global,
    out: &mut String,
    refs: &mut Refs,
    r: u32,
    name: &[u8],
    ver: Option<u32>,
    text: &[u8],
) -> Result<(), CaseFault>
    requires { r < length refs.old.content.references }
{
    match name {
        b"add" => add(out, refs, r, ver, text),
        b"addmany" => add_many(alloc, out, refs, r, ver, text),
        b"del" => show_done(out, refs.del_key(r, ver, text)),
        b"delid" => show_done(out, refs.del_id(r, ver, entry_number(text)?)),
        b"set" => set(out, refs, r, ver, text),
        b"setid" => set_id(out, refs, r, ver, text),
        b"replace" => show_done(out, replace(refs, r, text)),
        b"tidy" => tidy(out, refs, id(text)?),
        _ => Err(CaseFault::BadArguments),
    }
}

fn side(text: &[u8]) -> Result<Side, CaseFault> {
    match text {
        b"acl" => Ok(Side::Acl),
        b"write" => Ok(Side::AclWrite),
        b"map" => Ok(Side::Map),
        _ => Err(CaseFault::BadArguments),
    }
}

/// The change that is named so, with its KEY or its `KEY=VALUE`.
fn change_named<'a>(name: &[u8], text: &'a [u8]) -> Result<Change<'a>, CaseFault> {
    match name {
        b"add" => Ok(Change::Add { key: text }),
        b"del" => Ok(Change::Del { key: text }),
        b"delmap" => Ok(Change::DelMap { key: text }),
        b"set" => {
            let (key, value) = cut_at(b'=', text).ok_or(CaseFault::BadArguments)?;
            Ok(Change::SetMap { key, value })
        }
        _ => Err(CaseFault::BadArguments),
    }
}

/// Makes a change, and writes what it answers.
fn change(
    out: &mut String,
    refs: &mut Refs,
    r: u32,
    name: &[u8],
    text: &[u8],
) -> Result<(), CaseFault>
    requires { r < length refs.old.content.references }
{
    let change = change_named(name, text)?;
    match refs.change(r, change, &mut PlainMaker::new()) {
        Ok(()) => Ok(out.push_str("ok|")?),
        Err(TableFault::TooLarge) => Ok(out.push_str("TooLarge|")?),
        Err(TableFault::NoMemory) => Ok(out.push_str("NoMemory|")?),
    }
}

/// Searches by the `k`-th use of a reference.
fn find(
    alloc: Global,
    out: &mut String,
    refs: &Refs,
    r: u32,
    k: u32,
    text: &[u8],
) -> Result<(), CaseFault>
    requires { r < length refs.now.content.references }
{
    find_at(alloc, out, refs, r, k, text)?;
    Ok(out.push('|')?)
}

/// Searches by the `k`-th use of a reference, and writes the number of the entry too.
fn seek(
    alloc: Global,
    out: &mut String,
    refs: &Refs,
    r: u32,
    k: u32,
    text: &[u8],
) -> Result<(), CaseFault>
    requires { r < length refs.now.content.references }
{
    let number = find_at(alloc, out, refs, r, k, text)?;
    Ok(write!(out, "{number:?}|")?)
}

/// The step of this name and this text, with more behind `@`.
fn text_step_at(
    alloc: Global,
    out: &mut String,
    refs: &mut Refs,
    r: u32,
    name: &[u8],
    at: &[u8],
    text: &[u8],
) -> Result<(), CaseFault>
    requires { r < length refs.old.content.references }
{
    match name {
        b"resolve" => show_number(out, refs.resolve(text, side(at)?)),
        b"change" => change(out, refs, r, at, text),
        b"find" => find(alloc, out, refs, r, id(at)?, text),
        b"seek" => seek(alloc, out, refs, r, id(at)?, text),
        _ => text_step(alloc, out, refs, r, name, Some(id(at)?), text),
    }
}

/// A step on the reference at the position `r`.
pub fn step(
    alloc: Global,
    out: &mut String,
    refs: &mut Refs,
    r: u32,
    step: &[u8],
) -> Result<(), CaseFault> {
    if r >= refs.len() {
        return Err(CaseFault::BadArguments);
    }
    let Some((head, text)) = cut_at(b':', step) else {
        return match cut_at(b'@', step) {
            Some((name, ver)) => version_step(out, refs, r, name, id(ver)?),
            None => plain_step(out, refs, r, step),
        };
    };
    match cut_at(b'@', head) {
        Some((name, at)) => text_step_at(alloc, out, refs, r, name, at, text),
        None => text_step(alloc, out, refs, r, head, None, text),
    }
}

/// `references LIMITS REFERENCES STEP ..`: what each step on references answers. LIMITS is
/// `ENTRIES,ADDITIONS,VERSIONS` or `-`, and after it `@FIRST` may say with which version references
/// begin. REFERENCES stand with `;` between, each as
/// `COLUMNS,NUMBER,FILE,PARTS`: COLUMNS is `acl`, `map`, `both` or `neither`, FILE may be `-`, and
/// PARTS are methods, which `-i` may follow, and outputs, as `=int`, or `-`. A step is on the first
/// of them, and after `at@R` on that at the position R.
///
/// The steps `add:KEY=VALUE`, `addmany:KEY=VALUE;..`, `del:KEY`, `delid:VERSION.SERIAL`,
/// `set:KEY=VALUE`, `setid:VERSION.SERIAL=VALUE`, `clear` and `show` are on the version that is
/// searched, and with `@VERSION` behind their name on that version. The others are `prepare`,
/// `commit@VERSION`, `replace:KEY=VALUE`, which prepares a version with that entry, commits it and
/// gives back 64 slots, `info`, `slots`, `resolve@SIDE:WORD` with the sides `acl`, `write` and `map`, and
/// `change@CHANGE:KEY` with the changes `add`, `del`, `delmap`, and `set`, which has KEY=VALUE;
/// and `find@K:TEXT`, which answers the entry that is found by the K-th use, from 0, for the text,
/// or for the number or the address that it writes. `seek@K:TEXT` tells the number of the entry
/// too, and `tidy:N` gives back N slots.
pub fn references_case(alloc: Global, out: &mut String, args: &[Vec<u8>]) -> Result<(), CaseFault> {
    let [most, described, steps @ ..] = args else {
        return Err(CaseFault::BadArguments);
    };
    let mut refs = references(alloc, most.as_slice(), described.as_slice())?;
    let mut r = 0;
    for text in steps {
        match text.as_slice() {
            [b'a', b't', b'@', position @ ..] => r = id(position)?,
            text => step(alloc, out, &mut refs, r, text)?,
        }
    }
    Ok(())
}
