ghost use Rattle.std.specs.Prelude.{◌≡◌, ◌≢◌, ◌≤◌, ◌⊎◌, ℕ, Err, None, Some, Contains, [], ◌∷◌, OnOk, IfErr, IfOk, IfSome, IsErrOf, IsOk, IsSomeAnd};
ghost use Rattle.std.specs.Io.KnownBytes.{Appends, IsAtEnd};
ghost use Rattle.std.specs.String.{string_bytes};
ghost use Rattle.hx_core.specs.Steps.{EventAsksFor};
ghost use Rattle.hx_core.specs.World.{FitRules};
ghost use Rattle.hx_outside.specs.Count.{Rose};
ghost use Rattle.hx_outside.specs.Log.{HoldsSince, Logs};
ghost use Rattle.hx_replay.specs.Configs.{program_of};
ghost use Rattle.hx_replay.specs.Program.{initial_world};
ghost use Rattle.hx_replay.specs.Replay.{ReplayAsksLast};
ghost use Rattle.hx_run.specs.Run.{RunAsksLast, RunJudgesLast, behavior_of};
ghost use Rattle.hx_run.specs.RunFault.{EndsAs, IsReplayFault, fault_end, fault_status};
ghost use Rattle.hx_run.specs.declared.command.Detail.{Detail};
ghost use Rattle.hx_trace_run.specs.CheckFiles.{ReadsCheckFiles};
ghost use Rattle.hx_trace_run.specs.CheckView.{FindsCheck, FindsNamed, FinishesCheck, result_status, result_text};
ghost use Rattle.hx_trace_run.specs.Checking.{CheckReads, CheckSourceFails, Checks, ComparesTrace};
ghost use Rattle.hx_trace_run.specs.Checking.{HasCheckStatus, TakesUnrefused, check_setting, trace_setting};

use crate::agreement::Finding;
use crate::record_check::check_record;
use hx_outside::{Files, ReMaker, Sink, SinkFault, Source, write_all};
use hx_replay::{LoadedConfig, load_config};
use hx_run::{Ended, RunFault};
use std::alloc::{AllocError, Global};

/// Checks a trace: reads the file `config_name` as a configuration, answers the events of the
/// record as `trace` does, and compares the text with the file `trace_name`. `ok` is written where
/// they are the same, and else `differs LINE` with the first line of the trace that isn't the
/// text's, where a line has its line feed and one that is missing counts. Statuses, and when each
/// comes, are those of `run_trace`; 2 never comes.
pub fn check_trace<F: Files, S: Source, K: Sink, M: ReMaker>(
    alloc: Global,
    env: &[(Vec<u8>, Vec<u8>)],
    files: &mut F,
    config_name: &[u8],
    trace_name: &[u8],
    record_in: &mut S,
    out: &mut K,
    maker: &mut M,
) -> Ended
    ensures status { Contains (0 ∷ 3 ∷ 4 ∷ 5 ∷ 6 ∷ 7 ∷ 8 ∷ 9 ∷ []) result.status }
    ensures headline { Contains (0 ∷ 9 ∷ []) result.status → ComparesTrace
        (check_setting env.now (F.held files.old) config_name.now trace_name.now
        (S.left record_in.old)) (K.written out.old) (K.written out.new) result.status }
    ensures checks { Checks
        (check_setting env.now (F.held files.old) config_name.now trace_name.now
        (S.left record_in.old)) (K.written out.old) (K.written out.new) result.status }
    ensures at_end { Contains (0 ∷ 9 ∷ []) result.status → IsAtEnd (S.left record_in.new) }
    ensures config_refused { result.status ≡ 3 → record_in.new ≡ record_in.old }
    ensures outside { result.status ≡ 5
        → (Rose (F.faults files.old) (F.faults files.new)
        × IsSomeAnd (F.last files.new) (CheckReads (check_setting env.now (F.held files.old)
        config_name.now trace_name.now (S.left record_in.old)))
        × Appends (K.written out.old) (K.written out.new) [])
        ⊎ (Rose (S.faults record_in.old) (S.faults record_in.new)
        × CheckSourceFails (check_setting env.now (F.held files.old) config_name.now
        trace_name.now (S.left record_in.old)) (S.left record_in.new)
        × Appends (K.written out.old) (K.written out.new) []) }
    ensures sink { result.status ≡ 6 → Rose (K.faults out.old) (K.faults out.new) }
    ensures too_large { let given = trace_setting (check_setting env.now (F.held files.old)
        config_name.now trace_name.now (S.left record_in.old)) in result.status ≡ 8
        → Rose (M.state maker.old).too_large (M.state maker.new).too_large
        × (RunJudgesLast given (M.state maker.new).large
        ⊎ RunAsksLast given (M.state maker.new).large)
        × Appends (K.written out.old) (K.written out.new) [] }
    // Where nothing outside failed, the status is the one that the configuration, the record and
    // the trace have, unless memory ran out.
    ensures complete { ¬ (Rose (F.faults files.old) (F.faults files.new))
        → ¬ (Rose (S.faults record_in.old) (S.faults record_in.new))
        → ¬ (Rose (K.faults out.old) (K.faults out.new))
        → ¬ (Rose (M.state maker.old).too_large (M.state maker.new).too_large)
        → (result.status ≡ 7) ⊎ HasCheckStatus (check_setting env.now (F.held files.old)
        config_name.now trace_name.now (S.left record_in.old)) result.status }
    ensures held { F.held files.new ≡ F.held files.old }
    ensures named { (F.last files.new ≡ F.last files.old)
        ⊎ IsSomeAnd (F.last files.new) (CheckReads (check_setting env.now (F.held files.old)
        config_name.now trace_name.now (S.left record_in.old))) }
    // The configuration is read first, then the files that it names, and the trace at last.
    ensures files_read { HoldsSince (F.log files.old) (F.log files.new) (ReadsCheckFiles
        (check_setting env.now (F.held files.old) config_name.now trace_name.now
        (S.left record_in.old)) (F.last files.new) result.status) }
    ensures told { IfSome result.fault (λ fault. EndsAs (trace_setting (check_setting env.now
        (F.held files.old) config_name.now trace_name.now (S.left record_in.old)))
        (fault_end fault)) }
    ensures fault_status { IfSome result.fault (λ fault. (result.status ≡ fault_status fault)
        ⊎ Contains (6 ∷ 7 ∷ []) result.status) }
    ensures no_fault { result.fault ≡ None → Contains (0 ∷ 6 ∷ 7 ∷ 9 ∷ []) result.status }
    ensures file_fault { result.fault ≡ Some RunFault.Files
        → Rose (F.faults files.old) (F.faults files.new) }
    ensures record_fault { result.fault ≡ Some RunFault.Source
        → Rose (S.faults record_in.old) (S.faults record_in.new) }
{
    let mut requests = 0u64;
    let found = find(
        alloc,
        env,
        files,
        config_name,
        trace_name,
        record_in,
        out,
        maker,
        &mut requests,
    );
    let status = finish(alloc, found, out);
    Ended {
        status,
        fault: fault_of(found),
        requests,
    }
}

/// The fault that ended a check, if one did.
fn fault_of(found: Result<Finding, RunFault>) -> Option<RunFault>
    ensures fault { IfSome result (λ fault. found ≡ Err fault) }
    ensures none { result ≡ None → IsOk found }
{
    match found {
        Ok(_) => None,
        Err(fault) => Some(fault),
    }
}

/// Loads the configuration, reads the trace, and compares it with the text of the record. Nothing
/// is written.
fn find<F: Files, S: Source, K: Sink, M: ReMaker>(
    alloc: Global,
    env: &[(Vec<u8>, Vec<u8>)],
    files: &mut F,
    config_name: &[u8],
    trace_name: &[u8],
    record_in: &mut S,
    out: &mut K,
    maker: &mut M,
    requests: &mut u64,
) -> Result<Finding, RunFault>
    ensures finds { FindsCheck (check_setting env.now (F.held files.old) config_name.now
        trace_name.now (S.left record_in.old)) result }
    ensures unwritten { Appends (K.written out.old) (K.written out.new) [] }
    ensures at_end { OnOk result (IsAtEnd (S.left record_in.new)) }
    ensures config_refused { (line code : ℕ) → result ≡ Err (RunFault.ConfigRefused line code)
        → record_in.new ≡ record_in.old }
    ensures files_failed { IsErrOf result RunFault.Files
        → Rose (F.faults files.old) (F.faults files.new)
        × IsSomeAnd (F.last files.new) (CheckReads (check_setting env.now (F.held files.old)
        config_name.now trace_name.now (S.left record_in.old))) }
    ensures source_failed { IsErrOf result RunFault.Source
        → Rose (S.faults record_in.old) (S.faults record_in.new)
        × CheckSourceFails (check_setting env.now (F.held files.old) config_name.now
        trace_name.now (S.left record_in.old)) (S.left record_in.new) }
    ensures sink_failed { IsErrOf result RunFault.Sink
        → Rose (K.faults out.old) (K.faults out.new) }
    ensures too_large { let given = trace_setting (check_setting env.now (F.held files.old)
        config_name.now trace_name.now (S.left record_in.old)) in IsErrOf result RunFault.TooLarge
        → Rose (M.state maker.old).too_large (M.state maker.new).too_large
        × (RunJudgesLast given (M.state maker.new).large
        ⊎ RunAsksLast given (M.state maker.new).large) }
    ensures later { K.faults out.old ≤ K.faults out.new }
    ensures held { F.held files.new ≡ F.held files.old }
    ensures named { (F.last files.new ≡ F.last files.old)
        ⊎ IsSomeAnd (F.last files.new) (CheckReads (check_setting env.now (F.held files.old)
        config_name.now trace_name.now (S.left record_in.old))) }
    ensures files_read { HoldsSince (F.log files.old) (F.log files.new) (ReadsCheckFiles
        (check_setting env.now (F.held files.old) config_name.now trace_name.now
        (S.left record_in.old)) (F.last files.new) (result_status result)) }
{
    match load_config(alloc, env, files, config_name, maker) {
        Ok(loaded) => find_loaded(
            alloc, files, trace_name, loaded, record_in, out, maker, requests,
        ),
        Err(fault) => Err(RunFault::from(fault)),
    }
}

/// The same where the configuration is loaded.
fn find_loaded<F: Files, S: Source, K: Sink, M: ReMaker>(
    alloc: Global,
    files: &mut F,
    trace_name: &[u8],
    loaded: LoadedConfig,
    record_in: &mut S,
    out: &mut K,
    maker: &mut M,
    requests: &mut u64,
) -> Result<Finding, RunFault>
    requires { FitRules loaded.1.content loaded.0 }
    ensures finds { FindsNamed (program_of loaded) (F.held files.old) trace_name.now
        (S.left record_in.old) result }
    ensures unwritten { Appends (K.written out.old) (K.written out.new) [] }
    ensures at_end { OnOk result (IsAtEnd (S.left record_in.new)) }
    ensures kind { IfErr result (λ fault. IsReplayFault fault ⊎ (fault ≡ RunFault.Files)) }
    ensures files_failed { IsErrOf result RunFault.Files
        → Rose (F.faults files.old) (F.faults files.new)
        × (F.last files.new ≡ Some trace_name.now) }
    ensures source_failed { IsErrOf result RunFault.Source
        → Rose (S.faults record_in.old) (S.faults record_in.new)
        × TakesUnrefused (program_of loaded) (S.left record_in.old) (S.left record_in.new) }
    ensures sink_failed { IsErrOf result RunFault.Sink
        → Rose (K.faults out.old) (K.faults out.new) }
    ensures too_large { IsErrOf result RunFault.TooLarge
        → Rose (M.state maker.old).too_large (M.state maker.new).too_large
        × ReplayAsksLast (behavior_of Detail.Reasons) EventAsksFor
        (initial_world (program_of loaded)) (S.left record_in.old) (M.state maker.new).large }
    ensures later { K.faults out.old ≤ K.faults out.new }
    ensures held { F.held files.new ≡ F.held files.old }
    ensures files_later { F.faults files.old ≤ F.faults files.new }
    ensures named { (F.last files.new ≡ F.last files.old)
        ⊎ (F.last files.new ≡ Some trace_name.now) }
    ensures file_read { Logs (F.log files.old) (F.log files.new) trace_name.now }
{
    match files.read(alloc, trace_name) {
        Ok(trace) => check_record(alloc, loaded, trace, record_in, out, maker, requests),
        Err(fault) => Err(RunFault::from(fault)),
    }
}

/// Writes the line of what was found, and answers the status.
fn finish<K: Sink>(alloc: Global, found: Result<Finding, RunFault>, out: &mut K) -> u8
    ensures finished { FinishesCheck found (K.written out.old) (K.written out.new) result }
    ensures sink { result ≡ 6 → found ≢ Err RunFault.Sink
        → Rose (K.faults out.old) (K.faults out.new) }
    ensures later { K.faults out.old ≤ K.faults out.new }
{
    let Ok(line) = last_line(alloc, found) else {
        return 7;
    };
    match write_all(out, line.as_bytes()) {
        Ok(()) => status_of(found),
        Err(SinkFault::Failed) => 6,
        Err(SinkFault::NoMemory) => 7,
    }
}

/// The line that is written at the end.
fn last_line(alloc: Global, found: Result<Finding, RunFault>) -> Result<String, AllocError>
    ensures { IfOk result (λ line. string_bytes line ≡ result_text found) }
{
    match found {
        Ok(Finding::Same) => String::from_str(alloc, "ok\n"),
        Ok(Finding::Differs { line }) => format!(in alloc; "differs {line}\n"),
        Err(fault) => fault.last_line(alloc),
    }
}

/// The status of a check that comes to this, where its line is written.
fn status_of(found: Result<Finding, RunFault>) -> u8
    ensures { result ≡ result_status found }
{
    match found {
        Ok(Finding::Same) => 0,
        Ok(Finding::Differs { .. }) => 9,
        Err(fault) => fault.status(),
    }
}
