use crate::answer::Answer;
use crate::given::{Given, read_given};
use crate::machine::Machine;
use hx_cases_base::CaseFault;
use hx_diff::explain::explain;
use hx_diff::tell::tell;
use hx_diff::{Ended, Reached, RunFault, Side, run_diff};
use hx_outside::MemSink;
use hx_replay::Told;
use std::alloc::Global;

/// How hxdiff ends on a machine.
pub fn run_hxdiff(alloc: Global, machine: &mut Machine) -> Ended {
    run_diff(
        alloc,
        &machine.words,
        &machine.env,
        &mut machine.files,
        &mut machine.record,
        &mut machine.out,
        &mut machine.maker,
    )
}

/// What is told of a run of hxdiff.
pub fn told_by_hxdiff(alloc: Global, mut machine: Machine) -> Result<Answer, CaseFault> {
    let ended = run_hxdiff(alloc, &mut machine);
    let Machine {
        words,
        env,
        files,
        record,
        ..
    } = machine;
    let mut err = MemSink::new(alloc, 64, Vec::new(alloc));
    tell(alloc, &mut err, ended, &words, &env, files, &record, b"");
    Ok(Answer {
        status: ended.status,
        text: err.bytes().to_vec(alloc)?,
    })
}

/// The fault that ended a run of hxdiff, the configuration that was read last, and how many requests
/// were answered; where none did, `none`.
pub fn ended_by_hxdiff(alloc: Global, mut machine: Machine) -> Result<Answer, CaseFault> {
    let ended = run_hxdiff(alloc, &mut machine);
    let text = match ended.fault {
        Some(fault) => {
            let name = fault_name(fault);
            let side = side_name(ended.reached.side);
            let requests = ended.reached.requests;
            format!(in alloc; "{name} {side} {requests}")?
        }
        None => format!(in alloc; "none")?,
    };
    Ok(Answer {
        status: ended.status,
        text: text.as_bytes().to_vec(alloc)?,
    })
}

fn fault_name(fault: RunFault) -> &'static str {
    match fault {
        RunFault::ConfigRefused { .. } => "config",
        RunFault::RecordRefused { .. } => "record",
        RunFault::Files => "files",
        RunFault::Source => "source",
        RunFault::Sink => "sink",
        RunFault::TooLarge => "large",
        RunFault::NoMemory => "memory",
    }
}

fn side_name(side: Side) -> &'static str {
    match side {
        Side::Old => "old",
        Side::New => "new",
    }
}

/// What hxdiff says of a run with a status and a fault, in the first word of the configuration
/// `new.cfg`: the last file is `names.map`, and the last expression that was too large `(a|b)`.
pub fn explained_by_hxdiff(alloc: Global, text: &[u8]) -> Result<Answer, CaseFault> {
    let given = read_given(text)?;
    let ended = Ended {
        status: given.status,
        fault: fault_of(given)?,
        reached: Reached {
            side: Side::New,
            requests: 0,
        },
    };
    let told = Told {
        name: b"new.cfg",
        place: b"word 1: ",
        reason: b"",
        file: b"names.map",
        large: b"(a|b)",
    };
    let mut err = MemSink::new(alloc, 9, Vec::new(alloc));
    match explain(&mut err, ended, &told) {
        Ok(()) => Ok(Answer {
            status: given.status,
            text: err.bytes().to_vec(alloc)?,
        }),
        Err(_) => Err(CaseFault::NoMemory),
    }
}

/// The fault of this name with these numbers.
fn fault_of(given: Given<'_>) -> Result<Option<RunFault>, CaseFault> {
    let Given { number, code, .. } = given;
    match given.fault {
        b"none" => Ok(None),
        b"config" => Ok(Some(RunFault::ConfigRefused {
            side: Side::New,
            line: number,
            code,
        })),
        b"record" => Ok(Some(RunFault::RecordRefused {
            offset: number,
            code,
        })),
        b"files" => Ok(Some(RunFault::Files)),
        b"source" => Ok(Some(RunFault::Source)),
        b"sink" => Ok(Some(RunFault::Sink)),
        b"large" => Ok(Some(RunFault::TooLarge)),
        b"memory" => Ok(Some(RunFault::NoMemory)),
        _ => Err(CaseFault::BadArguments),
    }
}
