use crate::answer::Answer;
use crate::given::read_given;
use crate::hxeval_runs::given_end;
use crate::machine::Machine;
use hx_cases_base::CaseFault;
use hx_outside::MemSink;
use hx_replay::Told;
use hx_run::Ended;
use hx_trace_run::explain::explain;
use hx_trace_run::run_trace_to_end;
use hx_trace_run::tell::tell;
use std::alloc::Global;

/// How hxtrace ends on a machine.
pub fn run_hxtrace(alloc: Global, machine: &mut Machine) -> Ended {
    run_trace_to_end(
        alloc,
        &machine.words,
        &machine.env,
        &mut machine.files,
        &mut machine.record,
        &mut machine.out,
        &mut machine.maker,
    )
}

/// What is told of a run of hxtrace.
pub fn told_by_hxtrace(alloc: Global, mut machine: Machine) -> Result<Answer, CaseFault> {
    let ended = run_hxtrace(alloc, &mut machine);
    let Machine {
        words,
        env,
        files,
        record,
        ..
    } = machine;
    let mut err = MemSink::new(alloc, 64, Vec::new(alloc));
    tell(alloc, &mut err, ended, &words, &env, files, &record, b"");
    Ok(Answer {
        status: ended.status,
        text: err.bytes().to_vec(alloc)?,
    })
}

/// What hxtrace says of a run with a status and a fault, as `explained_by_hxeval` asks hxeval.
pub fn explained_by_hxtrace(alloc: Global, text: &[u8]) -> Result<Answer, CaseFault> {
    let given = read_given(text)?;
    let ended = given_end(given)?;
    let told = Told {
        name: b"deny.cfg",
        place: b"",
        reason: b"",
        file: b"names.map",
        large: b"(a|b)",
    };
    let mut err = MemSink::new(alloc, 9, Vec::new(alloc));
    match explain(&mut err, ended, &told) {
        Ok(()) => Ok(Answer {
            status: given.status,
            text: err.bytes().to_vec(alloc)?,
        }),
        Err(_) => Err(CaseFault::NoMemory),
    }
}
