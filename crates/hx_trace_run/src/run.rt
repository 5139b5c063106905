ghost use Rattle.std.specs.Prelude.{◌≡◌, ◌≢◌, ◌↔◌, ◌⊎◌, None, Some, Contains, [], ◌∷◌, IfSome, IsSomeAnd};
ghost use Rattle.std.specs.Io.KnownBytes.{Appends, IsAtEnd};
ghost use Rattle.hx_outside.specs.Count.{Rose};
ghost use Rattle.hx_outside.specs.Log.{HoldsSince};
ghost use Rattle.hx_program.specs.Machine.{texts_of};
ghost use Rattle.hx_run.specs.Run.{AnswersBeforeReading, Ran, HasStatus, Replayed};
ghost use Rattle.hx_run.specs.Run.{RunAsksLast, RunJudgesLast, RunReads, SourceFails};
ghost use Rattle.hx_run.specs.RunFault.{EndsAs, fault_end, fault_status};
ghost use Rattle.hx_run.specs.declared.run_fault.RunFault.{RunFault};
ghost use Rattle.hx_run.specs.RunFiles.{ReadsFiles};
ghost use Rattle.hx_run.specs.declared.command.Detail.{Detail};
ghost use Rattle.hx_trace_run.specs.CheckFiles.{ReadsCheckFiles};
ghost use Rattle.hx_trace_run.specs.Checking.{CheckReads, CheckSourceFails, Checks, ComparesTrace};
ghost use Rattle.hx_trace_run.specs.Checking.{HasCheckStatus, trace_setting};
ghost use Rattle.hx_trace_run.specs.Words.{AreNoCommand, check_setting_of, command_of, names_of};
ghost use Rattle.hx_trace_run.specs.Words.{setting_of};

use crate::check::check_trace;
use crate::command::{TraceCommand, command_of};
use hx_outside::{Files, ReMaker, Sink, Source};
use hx_run::Ended;
use hx_run::run_command::run_command;
use std::alloc::Global;

/// Runs the command that `words` are, the words of a command line without the program's name, under
/// the environment `env`, and answers the exit status.
///
/// `trace CONFIG` reads the file CONFIG as a configuration, and answers the events of the record as
/// `hx_run::run` does. After the lines that answer a request it writes a line that tells why it has
/// its verdict: which statement decided it, and by what its condition held in the state in which it
/// was judged (`headline`). Answers are written before more of the record is read, at any status
/// (`before_reading`). Regular expressions are made by `maker`.
///
/// `check CONFIG TRACE` reads the files CONFIG and TRACE, and compares the text that `trace CONFIG`
/// writes of the record with the trace (`compared`). It writes `ok`, or `differs LINE` with the
/// first line of the trace that isn't the text's, counted from 1: a line is its bytes with its line
/// feed, and one that is missing counts. Its verdicts and reasons rest on scans of
/// lists, as can be seen by reading `PlainTables` of `hx_trace`; no clause says so.
///
/// CONFIG is read first. Once all its lines are judged, the files that it names are read through
/// `files` too, each once, in the order in which they first appear, up to the first that can't be
/// read or has an entry that is refused. Where CONFIG is accepted, `check` then reads TRACE. No
/// other file is read (`files_read`, `check_files_read`).
///
/// | Status | Comes |
/// |---|---|
/// | 0 | the record was answered to its end; of `check` the trace is what `trace` writes |
/// | 2 | the words are no command; nothing is touched |
/// | 3 | the configuration is refused: `config LINE CODE` is written, alone |
/// | 4 | the record is refused: `record OFFSET CODE` is written, by `trace` after answers before |
/// | 5 | the configuration, a file that it names, TRACE or the source can't be read |
/// | 6 | the sink failed |
/// | 7 | memory ran out |
/// | 8 | a regular expression is too large |
/// | 9 | of `check` only: the trace differs |
///
/// Where contracts don't know what the files hold, what the source has left, what was read of
/// either, or what was written to the sink (`held`, `left`, `log`, `written`), as of the machine's
/// own files and streams, `headline`, `ran`, `before_reading`, `complete`, `outside`, `named`,
/// `files_read`, `too_large`, and those of `check`, say nothing of these bytes and reads.
pub fn run_trace<F: Files, S: Source, K: Sink, M: ReMaker>(
    alloc: Global,
    words: &[Vec<u8>],
    env: &[(Vec<u8>, Vec<u8>)],
    files: &mut F,
    record_in: &mut S,
    out: &mut K,
    maker: &mut M,
) -> u8
    ensures status { Contains (0 ∷ 2 ∷ 3 ∷ 4 ∷ 5 ∷ 6 ∷ 7 ∷ 8 ∷ 9 ∷ []) result }
    ensures trace_status { IfSome (command_of (texts_of words.now)) (λ command. result ≢ 9) }
    ensures usage { (result ≡ 2) ↔ AreNoCommand (texts_of words.now) }
    ensures untouched { result ≡ 2
        → (files.new ≡ files.old) × (record_in.new ≡ record_in.old) × (out.new ≡ out.old)
        × (maker.new ≡ maker.old) }

    ensures headline { result ≡ 0 → IfSome
        (setting_of words.now env.now (F.held files.old) (S.left record_in.old)) (λ given.
        Replayed Detail.Reasons given (K.written out.old) (K.written out.new)) }
    ensures ran { IfSome
        (setting_of words.now env.now (F.held files.old) (S.left record_in.old)) (λ given.
        Ran given (K.written out.old) (K.written out.new) result) }
    ensures at_end { result ≡ 0 → IfSome (command_of (texts_of words.now))
        (λ command. IsAtEnd (S.left record_in.new)) }
    ensures before_reading { IfSome
        (setting_of words.now env.now (F.held files.old) (S.left record_in.old)) (λ given.
        AnswersBeforeReading given (S.log record_in.old) (S.log record_in.new)
        (K.written out.old) (K.written out.new)) }
    ensures config_refused { result ≡ 3 → record_in.new ≡ record_in.old }

    ensures outside { result ≡ 5 → IfSome
        (setting_of words.now env.now (F.held files.old) (S.left record_in.old)) (λ given.
        (Rose (F.faults files.old) (F.faults files.new)
        × IsSomeAnd (F.last files.new) (RunReads given)
        × Appends (K.written out.old) (K.written out.new) [])
        ⊎ (Rose (S.faults record_in.old) (S.faults record_in.new)
        × SourceFails given (S.left record_in.new) (K.written out.old) (K.written out.new))) }
    ensures sink { result ≡ 6 → Rose (K.faults out.old) (K.faults out.new) }
    // A text of the configuration is too large before anything is written; one that a rule or a
    // command adds may be so after some answers, of which `ran` says that they are a prefix.
    ensures too_large { result ≡ 8 → IfSome
        (setting_of words.now env.now (F.held files.old) (S.left record_in.old)) (λ given.
        Rose (M.state maker.old).too_large (M.state maker.new).too_large
        × ((RunJudgesLast given (M.state maker.new).large
        × Appends (K.written out.old) (K.written out.new) [])
        ⊎ RunAsksLast given (M.state maker.new).large)) }
    // Where nothing outside failed, the status is the one that the configuration and the record
    // have, unless memory ran out.
    ensures complete { IfSome
        (setting_of words.now env.now (F.held files.old) (S.left record_in.old)) (λ given.
        ¬ (Rose (F.faults files.old) (F.faults files.new))
        → ¬ (Rose (S.faults record_in.old) (S.faults record_in.new))
        → ¬ (Rose (K.faults out.old) (K.faults out.new))
        → ¬ (Rose (M.state maker.old).too_large (M.state maker.new).too_large)
        → (result ≡ 7) ⊎ HasStatus given result) }

    ensures held { F.held files.new ≡ F.held files.old }
    // No file was read in vain but the configuration and those to which it comes.
    ensures named { IfSome
        (setting_of words.now env.now (F.held files.old) (S.left record_in.old)) (λ given.
        (F.last files.new ≡ F.last files.old) ⊎ IsSomeAnd (F.last files.new) (RunReads given)) }
    // The configuration is read first, and then the files that it names, in their order.
    ensures files_read { IfSome
        (setting_of words.now env.now (F.held files.old) (S.left record_in.old)) (λ given.
        HoldsSince (F.log files.old) (F.log files.new)
        (ReadsFiles given (F.last files.new) result)) }

    // Of `check`: at 0 the trace is exactly the text that `trace` writes, and at 9 it isn't.
    ensures compared { Contains (0 ∷ 9 ∷ []) result → IfSome
        (check_setting_of words.now env.now (F.held files.old) (S.left record_in.old)) (λ given.
        ComparesTrace given (K.written out.old) (K.written out.new) result) }
    ensures checks { IfSome
        (check_setting_of words.now env.now (F.held files.old) (S.left record_in.old)) (λ given.
        Checks given (K.written out.old) (K.written out.new) result) }
    ensures compared_at_end { Contains (0 ∷ 9 ∷ []) result → IfSome (names_of (texts_of words.now))
        (λ names. IsAtEnd (S.left record_in.new)) }
    ensures check_outside { result ≡ 5 → IfSome
        (check_setting_of words.now env.now (F.held files.old) (S.left record_in.old)) (λ given.
        (Rose (F.faults files.old) (F.faults files.new)
        × IsSomeAnd (F.last files.new) (CheckReads given)
        × Appends (K.written out.old) (K.written out.new) [])
        ⊎ (Rose (S.faults record_in.old) (S.faults record_in.new)
        × CheckSourceFails given (S.left record_in.new)
        × Appends (K.written out.old) (K.written out.new) [])) }
    ensures check_too_large { result ≡ 8 → IfSome
        (check_setting_of words.now env.now (F.held files.old) (S.left record_in.old)) (λ given.
        Rose (M.state maker.old).too_large (M.state maker.new).too_large
        × (RunJudgesLast (trace_setting given) (M.state maker.new).large
        ⊎ RunAsksLast (trace_setting given) (M.state maker.new).large)
        × Appends (K.written out.old) (K.written out.new) []) }
    ensures check_complete { IfSome
        (check_setting_of words.now env.now (F.held files.old) (S.left record_in.old)) (λ given.
        ¬ (Rose (F.faults files.old) (F.faults files.new))
        → ¬ (Rose (S.faults record_in.old) (S.faults record_in.new))
        → ¬ (Rose (K.faults out.old) (K.faults out.new))
        → ¬ (Rose (M.state maker.old).too_large (M.state maker.new).too_large)
        → (result ≡ 7) ⊎ HasCheckStatus given result) }
    ensures check_named { IfSome
        (check_setting_of words.now env.now (F.held files.old) (S.left record_in.old)) (λ given.
        (F.last files.new ≡ F.last files.old) ⊎ IsSomeAnd (F.last files.new) (CheckReads given)) }
    // The configuration is read first, then the files that it names, and the trace at last.
    ensures check_files_read { IfSome
        (check_setting_of words.now env.now (F.held files.old) (S.left record_in.old)) (λ given.
        HoldsSince (F.log files.old) (F.log files.new)
        (ReadsCheckFiles given (F.last files.new) result)) }
{
    run_trace_to_end(alloc, words, env, files, record_in, out, maker).status
}

/// Runs the command that `words` are as `run_trace` does, and answers its status together with the
/// fault that ended it, for whoever tells why.
///
/// The status is that of the fault, but where the line that tells a refusal couldn't be written:
/// then it is 6 or 7 (`fault_status`). Without a fault it is 0, 2 or 9, or where what `check` found
/// couldn't be written 6 or 7 (`no_fault`). A refusal is the one with which the outcome of the
/// configuration and the record ends (`told`, `check_told`). `Files` and `Source` are told only
/// where these failed (`file_fault`, `record_fault`).
pub fn run_trace_to_end<F: Files, S: Source, K: Sink, M: ReMaker>(
    alloc: Global,
    words: &[Vec<u8>],
    env: &[(Vec<u8>, Vec<u8>)],
    files: &mut F,
    record_in: &mut S,
    out: &mut K,
    maker: &mut M,
) -> Ended
    ensures status { Contains (0 ∷ 2 ∷ 3 ∷ 4 ∷ 5 ∷ 6 ∷ 7 ∷ 8 ∷ 9 ∷ []) result.status }
    ensures trace_status { IfSome (command_of (texts_of words.now)) (λ command. result.status ≢ 9) }
    ensures usage { (result.status ≡ 2) ↔ AreNoCommand (texts_of words.now) }
    ensures untouched { result.status ≡ 2
        → (files.new ≡ files.old) × (record_in.new ≡ record_in.old) × (out.new ≡ out.old)
        × (maker.new ≡ maker.old) }

    ensures headline { result.status ≡ 0 → IfSome
        (setting_of words.now env.now (F.held files.old) (S.left record_in.old)) (λ given.
        Replayed Detail.Reasons given (K.written out.old) (K.written out.new)) }
    ensures ran { IfSome
        (setting_of words.now env.now (F.held files.old) (S.left record_in.old)) (λ given.
        Ran given (K.written out.old) (K.written out.new) result.status) }
    ensures at_end { result.status ≡ 0 → IfSome (command_of (texts_of words.now))
        (λ command. IsAtEnd (S.left record_in.new)) }
    ensures before_reading { IfSome
        (setting_of words.now env.now (F.held files.old) (S.left record_in.old)) (λ given.
        AnswersBeforeReading given (S.log record_in.old) (S.log record_in.new)
        (K.written out.old) (K.written out.new)) }
    ensures config_refused { result.status ≡ 3 → record_in.new ≡ record_in.old }

    ensures outside { result.status ≡ 5 → IfSome
        (setting_of words.now env.now (F.held files.old) (S.left record_in.old)) (λ given.
        (Rose (F.faults files.old) (F.faults files.new)
        × IsSomeAnd (F.last files.new) (RunReads given)
        × Appends (K.written out.old) (K.written out.new) [])
        ⊎ (Rose (S.faults record_in.old) (S.faults record_in.new)
        × SourceFails given (S.left record_in.new) (K.written out.old) (K.written out.new))) }
    ensures sink { result.status ≡ 6 → Rose (K.faults out.old) (K.faults out.new) }
    // A text of the configuration is too large before anything is written; one that a rule or a
    // command adds may be so after some answers, of which `ran` says that they are a prefix.
    ensures too_large { result.status ≡ 8 → IfSome
        (setting_of words.now env.now (F.held files.old) (S.left record_in.old)) (λ given.
        Rose (M.state maker.old).too_large (M.state maker.new).too_large
        × ((RunJudgesLast given (M.state maker.new).large
        × Appends (K.written out.old) (K.written out.new) [])
        ⊎ RunAsksLast given (M.state maker.new).large)) }
    // Where nothing outside failed, the status is the one that the configuration and the record
    // have, unless memory ran out.
    ensures complete { IfSome
        (setting_of words.now env.now (F.held files.old) (S.left record_in.old)) (λ given.
        ¬ (Rose (F.faults files.old) (F.faults files.new))
        → ¬ (Rose (S.faults record_in.old) (S.faults record_in.new))
        → ¬ (Rose (K.faults out.old) (K.faults out.new))
        → ¬ (Rose (M.state maker.old).too_large (M.state maker.new).too_large)
        → (result.status ≡ 7) ⊎ HasStatus given result.status) }

    ensures held { F.held files.new ≡ F.held files.old }
    // No file was read in vain but the configuration and those to which it comes.
    ensures named { IfSome
        (setting_of words.now env.now (F.held files.old) (S.left record_in.old)) (λ given.
        (F.last files.new ≡ F.last files.old) ⊎ IsSomeAnd (F.last files.new) (RunReads given)) }
    // The configuration is read first, and then the files that it names, in their order.
    ensures files_read { IfSome
        (setting_of words.now env.now (F.held files.old) (S.left record_in.old)) (λ given.
        HoldsSince (F.log files.old) (F.log files.new)
        (ReadsFiles given (F.last files.new) result.status)) }

    // Of `check`: at 0 the trace is exactly the text that `trace` writes, and at 9 it isn't.
    ensures compared { Contains (0 ∷ 9 ∷ []) result.status → IfSome
        (check_setting_of words.now env.now (F.held files.old) (S.left record_in.old)) (λ given.
        ComparesTrace given (K.written out.old) (K.written out.new) result.status) }
    ensures checks { IfSome
        (check_setting_of words.now env.now (F.held files.old) (S.left record_in.old)) (λ given.
        Checks given (K.written out.old) (K.written out.new) result.status) }
    ensures compared_at_end { Contains (0 ∷ 9 ∷ []) result.status
        → IfSome (names_of (texts_of words.now)) (λ names. IsAtEnd (S.left record_in.new)) }
    ensures check_outside { result.status ≡ 5 → IfSome
        (check_setting_of words.now env.now (F.held files.old) (S.left record_in.old)) (λ given.
        (Rose (F.faults files.old) (F.faults files.new)
        × IsSomeAnd (F.last files.new) (CheckReads given)
        × Appends (K.written out.old) (K.written out.new) [])
        ⊎ (Rose (S.faults record_in.old) (S.faults record_in.new)
        × CheckSourceFails given (S.left record_in.new)
        × Appends (K.written out.old) (K.written out.new) [])) }
    ensures check_too_large { result.status ≡ 8 → IfSome
        (check_setting_of words.now env.now (F.held files.old) (S.left record_in.old)) (λ given.
        Rose (M.state maker.old).too_large (M.state maker.new).too_large
        × (RunJudgesLast (trace_setting given) (M.state maker.new).large
        ⊎ RunAsksLast (trace_setting given) (M.state maker.new).large)
        × Appends (K.written out.old) (K.written out.new) []) }
    ensures check_complete { IfSome
        (check_setting_of words.now env.now (F.held files.old) (S.left record_in.old)) (λ given.
        ¬ (Rose (F.faults files.old) (F.faults files.new))
        → ¬ (Rose (S.faults record_in.old) (S.faults record_in.new))
        → ¬ (Rose (K.faults out.old) (K.faults out.new))
        → ¬ (Rose (M.state maker.old).too_large (M.state maker.new).too_large)
        → (result.status ≡ 7) ⊎ HasCheckStatus given result.status) }
    ensures check_named { IfSome
        (check_setting_of words.now env.now (F.held files.old) (S.left record_in.old)) (λ given.
        (F.last files.new ≡ F.last files.old) ⊎ IsSomeAnd (F.last files.new) (CheckReads given)) }
    // The configuration is read first, then the files that it names, and the trace at last.
    ensures check_files_read { IfSome
        (check_setting_of words.now env.now (F.held files.old) (S.left record_in.old)) (λ given.
        HoldsSince (F.log files.old) (F.log files.new)
        (ReadsCheckFiles given (F.last files.new) result.status)) }

    ensures told { IfSome
        (setting_of words.now env.now (F.held files.old) (S.left record_in.old)) (λ given.
        IfSome result.fault (λ fault. EndsAs given (fault_end fault))) }
    ensures check_told { IfSome
        (check_setting_of words.now env.now (F.held files.old) (S.left record_in.old)) (λ given.
        IfSome result.fault (λ fault. EndsAs (trace_setting given) (fault_end fault))) }
    ensures fault_status { IfSome result.fault (λ fault. (result.status ≡ fault_status fault)
        ⊎ Contains (6 ∷ 7 ∷ []) result.status) }
    ensures no_fault { result.fault ≡ None → Contains (0 ∷ 2 ∷ 6 ∷ 7 ∷ 9 ∷ []) result.status }
    ensures file_fault { result.fault ≡ Some RunFault.Files
        → Rose (F.faults files.old) (F.faults files.new) }
    ensures record_fault { result.fault ≡ Some RunFault.Source
        → Rose (S.faults record_in.old) (S.faults record_in.new) }
{
    let Some(command) = command_of(words) else {
        return Ended {
            status: 2,
            fault: None,
            requests: 0,
        };
    };
    match command {
        TraceCommand::Trace(command) => {
            run_command(alloc, command, env, files, record_in, out, maker)
        }
        TraceCommand::Check { config, trace } => {
            check_trace(alloc, env, files, config, trace, record_in, out, maker)
        }
    }
}
