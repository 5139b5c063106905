ghost use Rattle.std.specs.Prelude.{◌≡◌, []};
ghost use Rattle.hx_cli.specs.ChangeReplies.{addition_reply, change_reply, value_reply};
ghost use Rattle.hx_cli.specs.Effects.{code_of};

use crate::reply::Reply;
use hx_refs::RefFault;
use hx_sample::TableFault;
use hx_text::NoMemory;
use std::alloc::Global;

fn code_of(fault: RefFault) -> u32
    ensures { result ≡ code_of fault }
{
    match fault {
        RefFault::UnknownRef => 1,
        RefFault::BadVersion => 2,
        RefFault::KeyNotFound => 3,
        RefFault::BadPattern => 4,
        RefFault::BadValue => 5,
        RefFault::NeedsMap => 6,
        RefFault::UsedAsMap => 7,
        RefFault::VersionFull => 8,
        RefFault::VersionWorn => 9,
        RefFault::NoMoreVersions => 10,
        RefFault::TooLarge | RefFault::NoMemory => 0,
    }
}

/// The reply to a command that is refused.
pub(crate) fn refusal_reply(alloc: Global, fault: RefFault) -> Reply
    ensures { result ≡ record { code = code_of fault; lines = [] } }
{
    Reply::new(alloc, code_of(fault))
}

/// The reply to a change that takes no memory.
pub(crate) fn change_reply(alloc: Global, answer: Result<(), RefFault>) -> Reply
    ensures { result ≡ change_reply answer }
{
    match answer {
        Ok(()) => Reply::new(alloc, 0),
        Err(fault) => refusal_reply(alloc, fault),
    }
}

/// The reply to a change of values.
pub(crate) fn value_reply(alloc: Global, answer: Result<(), RefFault>) -> Result<Reply, NoMemory>
    ensures { result ≡ value_reply answer }
{
    match answer {
        Err(RefFault::NoMemory) => Err(NoMemory),
        answer => Ok(change_reply(alloc, answer)),
    }
}

/// The reply to an addition.
pub(crate) fn addition_reply(
    alloc: Global,
    answer: Result<(), RefFault>,
) -> Result<Reply, TableFault>
    ensures { result ≡ addition_reply answer }
{
    match answer {
        Err(RefFault::TooLarge) => Err(TableFault::TooLarge),
        Err(RefFault::NoMemory) => Err(TableFault::NoMemory),
        answer => Ok(change_reply(alloc, answer)),
    }
}
