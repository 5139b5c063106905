ghost use Rattle.std.specs.Prelude.{◌≡◌, ◌<◌, IfOk, OnOk, length, map, if◌then◌else◌};
ghost use Rattle.std.specs.BTreeMap.{insert_entry};
ghost use Rattle.std.specs.FinMap as finite;
ghost use Rattle.std.specs.Ordering.{nat_cmp};
ghost use Rattle.hx_refs.specs.References.{entries_in, file_of};
ghost use Rattle.hx_cli.specs.Effects.{command_effect, lines_by_number, told_references, told_uses};
ghost use Rattle.hx_cli.specs.Replies.{entry_text, reference_text};
ghost use Rattle.hx_cli.specs.declared.command.Command.TheVariants.{Get, Show};

use crate::change_replies::refusal_reply;
use crate::finding::find;
use crate::reply::Reply;
use crate::sides::looking;
use crate::texts::{entry_line, heading, reference_line, use_line};
use hx_pool::Steps;
use hx_refs::{RefInfo, Refs};
use hx_text::{NoMemory, Octets};
use std::alloc::Global;
use std::collections::BTreeMap;
use std::marker::Brand;
use std::sync::ledger::{Blank, Ledger};

fn is_told(is_map: bool, info: RefInfo) -> bool
    ensures { result ≡ (if is_map then info.two_column else info.acl) }
{
    if is_map { info.two_column } else { info.acl }
}

/// The line of the reference at a position, by its number.
fn insert_line(
    alloc: Global,
    refs: &Refs,
    r: u32,
    info: RefInfo,
    lines: &mut BTreeMap<u32, Octets>,
) -> Result<(), NoMemory>
    requires { r < length refs.now.content.references }
    ensures { OnOk result (lines.new.entries ≡ insert_entry nat_cmp lines.old.entries info.id
        (reference_text info (file_of refs.now.content r))) }
{
    let line = reference_line(alloc, info, refs.file(r))?;
    lines.insert(info.id, line)?;
    Ok(())
}

/// The lines of the references that are told, by the numbers of the references.
fn lines_by_number(
    alloc: Global,
    refs: &Refs,
    is_map: bool,
) -> Result<BTreeMap<u32, Octets>, NoMemory>
    ensures { IfOk result (λ lines.
        lines.entries ≡ finite.entries (lines_by_number is_map refs.now.content.references)) }
{
    let mut lines = BTreeMap::new(alloc);
    // From the last on, since of a number that stood twice the first reference would be told.
    for r in (0..refs.len()).rev() {
        let info = refs.info(r);
        if !is_told(is_map, info) {
            continue;
        }
        insert_line(alloc, refs, r, info, &mut lines)?;
    }
    Ok(lines)
}

/// `show acl`, `show map`: the references, in the order of their numbers.
pub(crate) fn show_all(alloc: Global, refs: &Refs, is_map: bool) -> Result<Reply, NoMemory>
    ensures { IfOk result (λ reply.
        reply ≡ record { code = 0; lines = told_references is_map refs.now.content }) }
{
    let mut lines = lines_by_number(alloc, refs, is_map)?;
    let mut reply = Reply::new(alloc, 0);
    reply.push(heading(alloc)?)?;
    while let Some((_, line)) = lines.pop_first() {
        reply.push(line)?;
    }
    Ok(reply)
}

/// The entries of a version of the reference at a position.
fn entries_reply(
    alloc: Global,
    refs: &Refs,
    is_map: bool,
    r: u32,
    ver: Option<u32>,
) -> Result<Reply, NoMemory>
    requires { r < length refs.now.content.references }
    ensures { IfOk result (λ reply. reply
        ≡ record {
          code = 0;
          lines = map (entry_text is_map) (entries_in refs.now.content r ver);
        }) }
{
    let mut reply = Reply::new(alloc, 0);
    let mut entries = refs.entries(r, ver);
    while let Some(entry) = entries.next() {
        reply.push(entry_line(alloc, is_map, &entry)?)?;
    }
    Ok(reply)
}

/// `show acl NAME`, `show map NAME`: the entries of a version.
pub(crate) fn show(
    alloc: Global,
    refs: &Refs,
    is_map: bool,
    ver: Option<u32>,
    name: &[u8],
) -> Result<Reply, NoMemory>
    ensures { IfOk result (λ reply.
        reply ≡ (command_effect (Show is_map ver name.now) refs.now.content).reply) }
{
    match refs.resolve(name, looking(is_map)) {
        Ok(r) => entries_reply(alloc, refs, is_map, r, ver),
        Err(fault) => Ok(refusal_reply(alloc, fault)),
    }
}

/// What each use of the reference at a position finds for a text. Steps of the searches are counted
/// in the ledger of `blank`.
fn uses_reply<L: Ledger>(
    alloc: Global,
    refs: &Refs,
    is_map: bool,
    r: u32,
    text: &[u8],
    blank: Blank,
) -> Result<Reply, NoMemory>
    requires r { r < length refs.now.content.references }
    requires name { blank.name ≡ L.name }
    requires parts { blank.parts ≡ L.parts }
    requires some { 0 < L.parts }
    ensures { IfOk result (λ reply.
        reply ≡ record { code = 0; lines = told_uses is_map refs.now.content r text.now }) }
{
    let mut steps = Steps::<L>::open(blank);
    let mut reply = Reply::new(alloc, 0);
    let mut k = 0;
    while let Some((by, ci, head)) = refs.use_at(r, k) {
        let found = find(alloc, refs, by, head, text, &mut steps)?;
        reply.push(use_line(alloc, is_map, by, ci, &found)?)?;
        k += 1;
    }
    Ok(reply)
}

/// `get acl NAME VALUE`, `get map NAME VALUE`: what each use finds for a text.
pub(crate) fn get(
    alloc: Global,
    refs: &Refs,
    is_map: bool,
    name: &[u8],
    text: &[u8],
) -> Result<Reply, NoMemory>
    ensures { IfOk result (λ reply.
        reply ≡ (command_effect (Get is_map name.now text.now) refs.now.content).reply) }
{
    match refs.resolve(name, looking(is_map)) {
        Ok(r) => uses_reply::<Brand>(alloc, refs, is_map, r, text, Blank::new(1)),
        Err(fault) => Ok(refusal_reply(alloc, fault)),
    }
}
