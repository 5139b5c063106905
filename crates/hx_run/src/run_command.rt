ghost use Rattle.std.specs.Prelude.{◌≡◌, ◌≢◌, ◌≤◌, ◌⊎◌, ℕ, Ok, Err, None, Some, Contains, [], ◌∷◌, OnOk, IfOk, IfSome, IsErrOf, IsSomeAnd};
ghost use Rattle.std.specs.Io.KnownBytes.{Appends, IsAtEnd};
ghost use Rattle.hx_outside.specs.Count.{Rose};
ghost use Rattle.hx_outside.specs.Log.{HoldsSince};
ghost use Rattle.hx_outside.specs.Prefixes.{AppendsPrefix};
ghost use Rattle.hx_run.specs.Command.{asked_of};
ghost use Rattle.hx_run.specs.Run.{check_line, setting};
ghost use Rattle.hx_run.specs.Run.{AnswersBeforeReading, Checked, Ran, HasStatus, IsReplay, Replayed};
ghost use Rattle.hx_run.specs.Run.{RunAsksLast, RunJudgesLast, RunReads, SourceFails};
ghost use Rattle.hx_run.specs.RunFault.{Attempted, EndsAs, Finishes, fault_end, fault_status};
ghost use Rattle.hx_run.specs.RunFiles.{ReadsFiles, result_status};
ghost use Rattle.hx_run.specs.Unseen.{ShowsNoUncommittedVersion};
ghost use Rattle.hx_run.specs.declared.command.Detail.{Detail};
ghost use Rattle.hx_run.specs.declared.command.Task.{Task};

use crate::command::{Command, Task};
use crate::replay_run::replay_rules;
use crate::run_fault::RunFault;
use hx_outside::{Files, ReMaker, Sink, SinkFault, Source, write_all};
use hx_refs::Refs;
use hx_replay::load_config;
use hx_rules::Program;
use itoa::Buffer;
use std::alloc::{AllocError, Global};

/// How a run ended: the exit status, and the fault that ended it, if one did.
#[derive(Clone, Copy, PartialEq, Eq)]
pub struct Ended {
    pub status: u8,
    pub fault: Option<RunFault>,
    /// how many requests were answered, as tests show
    pub requests: u64,
}

/// Runs a command over a configuration, as `run` does with `run CONFIG` and `check CONFIG`, and
/// answers its status together with the fault that ended it, for whoever tells why.
///
/// The record is answered in the detail for which the command asks (`headline`), and each clause
/// but `unseen`, which speaks of verdicts alone, holds in either. Statuses, what is read and what
/// is written are those that `run` names; status 2 never comes. The status is that of the fault,
/// but where the line that tells a refusal couldn't be written: then it is 6 or 7 (`fault_status`).
/// Without a fault it is 0 (`no_fault`). `Files` and `Source` are told only where these failed
/// (`file_fault`, `record_fault`).
pub fn run_command<F: Files, S: Source, K: Sink, M: ReMaker>(
    alloc: Global,
    command: Command<'_>,
    env: &[(Vec<u8>, Vec<u8>)],
    files: &mut F,
    record_in: &mut S,
    out: &mut K,
    maker: &mut M,
) -> Ended
    ensures status { Contains (0 ∷ 3 ∷ 4 ∷ 5 ∷ 6 ∷ 7 ∷ 8 ∷ []) result.status }

    ensures headline { let given = setting env.now (F.held files.old) (asked_of command.entry)
        (S.left record_in.old) in result.status ≡ 0 → (detail : Detail)
        → given.task ≡ Task.Replay detail
        → Replayed detail given (K.written out.old) (K.written out.new) }
    ensures unseen { let given = setting env.now (F.held files.old) (asked_of command.entry)
        (S.left record_in.old) in result.status ≡ 0 → given.task ≡ Task.Replay Detail.Verdicts
        → ShowsNoUncommittedVersion given (K.written out.old) (K.written out.new) }
    ensures checked { let given = setting env.now (F.held files.old) (asked_of command.entry)
        (S.left record_in.old) in result.status ≡ 0 → given.task ≡ Task.Check
        → Checked given (K.written out.old) (K.written out.new) }
    ensures ran { let given = setting env.now (F.held files.old) (asked_of command.entry)
        (S.left record_in.old) in Ran given (K.written out.old) (K.written out.new) result.status }
    ensures at_end { result.status ≡ 0 → IsReplay command.entry.task
        → IsAtEnd (S.left record_in.new) }
    ensures before_reading { let given = setting env.now (F.held files.old) (asked_of command.entry)
        (S.left record_in.old) in AnswersBeforeReading given (S.log record_in.old)
        (S.log record_in.new) (K.written out.old) (K.written out.new) }
    ensures config_refused { result.status ≡ 3 → record_in.new ≡ record_in.old }
    ensures unread { command.entry.task ≡ Task.Check → record_in.new ≡ record_in.old }

    ensures outside { let given = setting env.now (F.held files.old) (asked_of command.entry)
        (S.left record_in.old) in result.status ≡ 5
        → (Rose (F.faults files.old) (F.faults files.new)
        × IsSomeAnd (F.last files.new) (RunReads given)
        × Appends (K.written out.old) (K.written out.new) [])
        ⊎ (Rose (S.faults record_in.old) (S.faults record_in.new)
        × SourceFails given (S.left record_in.new) (K.written out.old) (K.written out.new)) }
    ensures sink { result.status ≡ 6 → Rose (K.faults out.old) (K.faults out.new) }
    // A text of the configuration is too large before anything is written; one that a rule or a
    // command adds may be so after some answers, of which `ran` says that they are a prefix.
    ensures too_large { let given = setting env.now (F.held files.old) (asked_of command.entry)
        (S.left record_in.old) in result.status ≡ 8
        → Rose (M.state maker.old).too_large (M.state maker.new).too_large
        × ((RunJudgesLast given (M.state maker.new).large
        × Appends (K.written out.old) (K.written out.new) [])
        ⊎ RunAsksLast given (M.state maker.new).large) }
    // Where nothing outside failed, the status is the one that the configuration and the record
    // have, unless memory ran out.
    ensures complete { let given = setting env.now (F.held files.old) (asked_of command.entry)
        (S.left record_in.old) in ¬ (Rose (F.faults files.old) (F.faults files.new))
        → ¬ (Rose (S.faults record_in.old) (S.faults record_in.new))
        → ¬ (Rose (K.faults out.old) (K.faults out.new))
        → ¬ (Rose (M.state maker.old).too_large (M.state maker.new).too_large)
        → (result.status ≡ 7) ⊎ HasStatus given result.status }

    ensures held { F.held files.new ≡ F.held files.old }
    // No file was read in vain but the configuration and those to which it comes.
    ensures named { let given = setting env.now (F.held files.old) (asked_of command.entry)
        (S.left record_in.old) in (F.last files.new ≡ F.last files.old)
        ⊎ IsSomeAnd (F.last files.new) (RunReads given) }
    // The configuration is read first, and then the files that it names, in their order.
    ensures files_read { let given = setting env.now (F.held files.old) (asked_of command.entry)
        (S.left record_in.old) in HoldsSince (F.log files.old) (F.log files.new)
        (ReadsFiles given (F.last files.new) result.status) }

    ensures told { let given = setting env.now (F.held files.old) (asked_of command.entry)
        (S.left record_in.old) in IfSome result.fault (λ fault. EndsAs given (fault_end fault)) }
    ensures fault_status { IfSome result.fault (λ fault. (result.status ≡ fault_status fault)
        ⊎ Contains (6 ∷ 7 ∷ []) result.status) }
    ensures no_fault { result.fault ≡ None → result.status ≡ 0 }
    ensures file_fault { result.fault ≡ Some RunFault.Files
        → Rose (F.faults files.old) (F.faults files.new) }
    ensures record_fault { result.fault ≡ Some RunFault.Source
        → Rose (S.faults record_in.old) (S.faults record_in.new) }
{
    let mut requests = 0u64;
    match attempt(
        alloc,
        env,
        files,
        command,
        record_in,
        out,
        maker,
        &mut requests,
    ) {
        Ok(()) => Ended {
            status: 0,
            fault: None,
            requests,
        },
        Err(fault) => Ended {
            status: finish(alloc, fault, out),
            fault: Some(fault),
            requests,
        },
    }
}

/// Loads the configuration of a command, and replays the record up to the first fault, or writes
/// that the configuration is accepted.
pub(crate) fn attempt<F: Files, S: Source, K: Sink, M: ReMaker>(
    alloc: Global,
    env: &[(Vec<u8>, Vec<u8>)],
    files: &mut F,
    command: Command<'_>,
    record_in: &mut S,
    out: &mut K,
    maker: &mut M,
    requests: &mut u64,
) -> Result<(), RunFault>
    ensures attempted { Attempted
        (setting env.now (F.held files.old) (asked_of command.entry) (S.left record_in.old))
        (K.written out.old) (K.written out.new) result }
    ensures before_reading { AnswersBeforeReading
        (setting env.now (F.held files.old) (asked_of command.entry) (S.left record_in.old))
        (S.log record_in.old) (S.log record_in.new) (K.written out.old) (K.written out.new) }
    ensures at_end { IsReplay command.entry.task
        → OnOk result (IsAtEnd (S.left record_in.new)) }
    ensures config_refused { (line code : ℕ) → result ≡ Err (RunFault.ConfigRefused line code)
        → record_in.new ≡ record_in.old }
    ensures unread { command.entry.task ≡ Task.Check → record_in.new ≡ record_in.old }
    ensures files_failed { IsErrOf result RunFault.Files
        → Rose (F.faults files.old) (F.faults files.new)
        × IsSomeAnd (F.last files.new) (RunReads
        (setting env.now (F.held files.old) (asked_of command.entry) (S.left record_in.old)))
        × (out.new ≡ out.old) }
    ensures source_failed { IsErrOf result RunFault.Source
        → Rose (S.faults record_in.old) (S.faults record_in.new)
        × SourceFails
        (setting env.now (F.held files.old) (asked_of command.entry) (S.left record_in.old))
        (S.left record_in.new) (K.written out.old) (K.written out.new) }
    ensures sink_failed { IsErrOf result RunFault.Sink
        → Rose (K.faults out.old) (K.faults out.new) }
    ensures too_large { let given = setting env.now (F.held files.old) (asked_of command.entry)
        (S.left record_in.old) in IsErrOf result RunFault.TooLarge
        → Rose (M.state maker.old).too_large (M.state maker.new).too_large
        × ((RunJudgesLast given (M.state maker.new).large × (out.new ≡ out.old))
        ⊎ RunAsksLast given (M.state maker.new).large) }
    ensures later { K.faults out.old ≤ K.faults out.new }
    ensures held { F.held files.new ≡ F.held files.old }
    ensures named { (F.last files.new ≡ F.last files.old)
        ⊎ IsSomeAnd (F.last files.new) (RunReads
        (setting env.now (F.held files.old) (asked_of command.entry) (S.left record_in.old))) }
    ensures files_read { HoldsSince (F.log files.old) (F.log files.new) (ReadsFiles
        (setting env.now (F.held files.old) (asked_of command.entry) (S.left record_in.old))
        (F.last files.new) (result_status result)) }
{
    let (rules, refs) = load_config(alloc, env, files, command.name, maker)?;
    match command.task {
        Task::Replay(detail) => {
            replay_rules(alloc, detail, rules, refs, record_in, out, maker, requests)
        }
        Task::Check => Ok(write_check(alloc, &rules, &refs, out)?),
    }
}

/// Writes that a configuration is accepted, and how many rules and references it has.
fn write_check<K: Sink>(
    alloc: Global,
    rules: &Program,
    refs: &Refs,
    out: &mut K,
) -> Result<(), SinkFault>
    ensures ok { OnOk result (Appends (K.written out.old) (K.written out.new)
        (check_line rules.now refs.now.content)) }
    ensures prefix { AppendsPrefix (K.written out.old) (K.written out.new)
        (check_line rules.now refs.now.content) }
    ensures failed { IsErrOf result SinkFault.Failed → Rose (K.faults out.old) (K.faults out.new) }
    ensures later { K.faults out.old ≤ K.faults out.new }
{
    let Ok(line) = check_line(alloc, rules, refs) else {
        return Err(SinkFault::NoMemory);
    };
    write_all(out, line.as_slice())
}

/// The line of a configuration that is accepted.
fn check_line(alloc: Global, rules: &Program, refs: &Refs) -> Result<Vec<u8>, AllocError>
    ensures { IfOk result (λ line. line.items ≡ check_line rules.now refs.now.content) }
{
    let mut digits = Buffer::new();
    let mut line = Vec::new(alloc);
    line.extend_from_slice(b"ok ")?;
    line.extend_from_slice(digits.format(rules.rules()).as_bytes())?;
    line.extend_from_slice(b" ")?;
    line.extend_from_slice(digits.format(refs.len()).as_bytes())?;
    line.extend_from_slice(b"\n")?;
    Ok(line)
}

/// Writes the line of a refusal, and answers the status.
#[tactic(auto, using(crate::proofs::StatusLemmas::fault_large))]
fn finish<K: Sink>(alloc: Global, fault: RunFault, out: &mut K) -> u8
    ensures finished { Finishes fault (K.written out.old) (K.written out.new) result }
    ensures large { 3 ≤ result }
    ensures sink { result ≡ 6 → fault ≢ RunFault.Sink → Rose (K.faults out.old) (K.faults out.new) }
    ensures later { K.faults out.old ≤ K.faults out.new }
{
    let Ok(line) = fault.last_line(alloc) else {
        return 7;
    };
    match write_all(out, line.as_bytes()) {
        Ok(()) => fault.status(),
        Err(SinkFault::Failed) => 6,
        Err(SinkFault::NoMemory) => 7,
    }
}
