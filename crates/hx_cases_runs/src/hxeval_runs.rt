use crate::answer::Answer;
use crate::given::{Given, read_given};
use crate::machine::Machine;
use hx_cases_base::CaseFault;
use hx_outside::MemSink;
use hx_replay::Told;
use hx_run::explain::explain;
use hx_run::run::run_to_end;
use hx_run::tell::tell;
use hx_run::{Ended, RunFault};
use std::alloc::Global;

/// How hxeval ends on a machine.
pub fn run_hxeval(alloc: Global, machine: &mut Machine) -> Ended {
    run_to_end(
        alloc,
        &machine.words,
        &machine.env,
        &mut machine.files,
        &mut machine.record,
        &mut machine.out,
        &mut machine.maker,
    )
}

/// What is told of a run of hxeval.
pub fn told_by_hxeval(alloc: Global, mut machine: Machine) -> Result<Answer, CaseFault> {
    let ended = run_hxeval(alloc, &mut machine);
    let Machine {
        words,
        env,
        files,
        record,
        ..
    } = machine;
    let mut err = MemSink::new(alloc, 64, Vec::new(alloc));
    tell(alloc, &mut err, ended, &words, &env, files, &record, b"");
    Ok(Answer {
        status: ended.status,
        text: err.bytes().to_vec(alloc)?,
    })
}

/// What hxeval says of a run with a status and a fault: its configuration is `deny.cfg`, the last
/// file `names.map`, and the last expression that was too large `(a|b)`.
pub fn explained_by_hxeval(alloc: Global, text: &[u8]) -> Result<Answer, CaseFault> {
    let given = read_given(text)?;
    let ended = given_end(given)?;
    let told = Told {
        name: b"deny.cfg",
        place: b"",
        reason: b"",
        file: b"names.map",
        large: b"(a|b)",
    };
    let mut err = MemSink::new(alloc, 9, Vec::new(alloc));
    match explain(&mut err, ended, &told) {
        Ok(()) => Ok(Answer {
            status: given.status,
            text: err.bytes().to_vec(alloc)?,
        }),
        Err(_) => Err(CaseFault::NoMemory),
    }
}

/// A run with this status and this fault.
pub fn given_end(given: Given<'_>) -> Result<Ended, CaseFault> {
    Ok(Ended {
        status: given.status,
        fault: fault_of(given)?,
        requests: 0,
    })
}

/// The fault of this name with these numbers.
fn fault_of(given: Given<'_>) -> Result<Option<RunFault>, CaseFault> {
    let Given { number, code, .. } = given;
    match given.fault {
        b"none" => Ok(None),
        b"config" => Ok(Some(RunFault::ConfigRefused { line: number, code })),
        b"record" => Ok(Some(RunFault::RecordRefused {
            offset: number,
            code,
        })),
        b"files" => Ok(Some(RunFault::Files)),
        b"source" => Ok(Some(RunFault::Source)),
        b"sink" => Ok(Some(RunFault::Sink)),
        b"large" => Ok(Some(RunFault::TooLarge)),
        b"memory" => Ok(Some(RunFault::NoMemory)),
        _ => Err(CaseFault::BadArguments),
    }
}
