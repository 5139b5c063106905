ghost use Rattle.std.specs.Prelude.{◌≡◌, IfOk, OnOk, OnErr};
ghost use Rattle.hx_sample.specs.Changes.{ChangeCountsLarge};
ghost use Rattle.hx_cli.specs.Effects.{command_effect, CommandAsksFor};

use crate::changing::{add, clear, commit, del, one_pair, prepare, set};
use crate::command::Command;
use crate::reply::Reply;
use crate::showing::{get, show, show_all};
use hx_outside::ReMaker;
use hx_refs::Refs;
use hx_sample::TableFault;
use std::alloc::Global;

/// Does what a command says, and answers its reply. The first line of a payload does nothing here:
/// its entries come later.
pub(crate) fn run<M: ReMaker>(
    alloc: Global,
    command: &Command,
    refs: &mut Refs,
    maker: &mut M,
) -> Result<Reply, TableFault>
    ensures reply { IfOk result (λ reply.
        reply ≡ (command_effect command.now refs.old.content).reply) }
    ensures refs { OnOk result (refs.new.content
        ≡ (command_effect command.now refs.old.content).refs) }
    ensures kept { OnErr result (refs.new ≡ refs.old) }
    ensures large { ChangeCountsLarge result (CommandAsksFor command.now refs.old.content)
        (M.state maker.old) (M.state maker.new) }
{
    match command {
        Command::ShowAll { map } => Ok(show_all(alloc, refs, *map)?),
        Command::Show { map, ver, name } => Ok(show(alloc, refs, *map, *ver, name.as_slice())?),
        Command::Get { map, name, value } => {
            Ok(get(alloc, refs, *map, name.as_slice(), value.as_slice())?)
        }
        Command::Add {
            map,
            ver,
            name,
            key,
            value,
        } => {
            let pairs = one_pair(alloc, key.as_slice(), value.as_slice())?;
            add(alloc, refs, *map, *ver, name.as_slice(), &pairs, maker)
        }
        Command::AddMany { .. } => Ok(Reply::new(alloc, 0)),
        Command::Del {
            map,
            ver,
            name,
            key,
        } => { Ok(del(alloc, refs, *map, *ver, name.as_slice(), key.as_slice())) }
        Command::Set {
            ver,
            name,
            key,
            value,
        } => {
            Ok(set(
                alloc,
                refs,
                *ver,
                name.as_slice(),
                key.as_slice(),
                value.as_slice(),
            )?)
        }
        Command::Clear { map, ver, name } => Ok(clear(alloc, refs, *map, *ver, name.as_slice())),
        Command::Prepare { map, name } => Ok(prepare(alloc, refs, *map, name.as_slice())?),
        Command::Commit { map, ver, name } => Ok(commit(alloc, refs, *map, *ver, name.as_slice())),
    }
}
