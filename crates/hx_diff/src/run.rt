ghost use Rattle.std.specs.Prelude.{◌≡◌, ◌≢◌, ◌≤◌, ◌↔◌, ◌⊎◌, ℕ, Err, None, Some, Contains, [], ◌∷◌, OnOk, IfSome, IsErrOf, IsSomeAnd};
ghost use Rattle.std.specs.Io.KnownBytes.{Appends, IsAtEnd};
ghost use Rattle.hx_core.specs.World.{FitRules};
ghost use Rattle.hx_outside.specs.Count.{Rose};
ghost use Rattle.hx_outside.specs.Log.{HoldsSince};
ghost use Rattle.hx_program.specs.Machine.{texts_of};
ghost use Rattle.hx_replay.specs.ConfigFiles.{ReadsConfigFiles};
ghost use Rattle.hx_replay.specs.Configs.{IsAccepted};
ghost use Rattle.hx_diff.specs.Command.{asked_of};
ghost use Rattle.hx_diff.specs.Run.{command_of, new_of, old_of, setting, setting_of};
ghost use Rattle.hx_diff.specs.Run.{AnswersBeforeReading, Headline};
ghost use Rattle.hx_diff.specs.Run.{HasStatus, Ran, RunAsksLast, RunJudgesLast, RunReads, SourceFails};
ghost use Rattle.hx_diff.specs.RunFault.{Attempted, EndsAs, Finishes, completed_status};
ghost use Rattle.hx_diff.specs.RunFault.{fault_end, fault_status, result_status};
ghost use Rattle.hx_diff.specs.RunFiles.{ReadsFiles};
ghost use Rattle.hx_diff.specs.declared.run_fault.Side.{Side};

use crate::command::{Command, command_of};
use crate::compare::compare;
use crate::run_fault::{RunFault, Side};
use hx_outside::{Files, ReMaker, Sink, SinkFault, Source, write_all};
use hx_replay::{LoadedConfig, load_config};
use std::alloc::Global;

/// How a run ended: the exit status, and the fault that ended it, if one did.
#[derive(Clone, Copy, PartialEq, Eq)]
pub struct Ended {
    pub status: u8,
    pub fault: Option<RunFault>,
    /// how far it came, as tests show
    pub reached: Reached,
}

/// How far a run came, for whoever tells why it ended. Contracts say nothing of it.
#[derive(Clone, Copy, PartialEq, Eq)]
pub struct Reached {
    /// the configuration that was read last
    pub side: Side,
    /// how many requests were answered
    pub requests: u64,
}

/// Runs the command that `words` are, the words of a command line without the program's name, under
/// the environment `env`, and answers the exit status, and the fault that ended it for whoever
/// tells why.
///
/// `lines OLD NEW` and `counts OLD NEW` read the files OLD and NEW as configurations, and answer
/// the events of the record in order by both, OLD first: requests, and lines of the management
/// socket. `lines` writes for each event with two answers that differ `@@ N METHOD TARGET HOST` or
/// `@@ cli SESSION TEXT`, the lines of the old answer, each after `- `, and those of the new one,
/// each after `+ `. With `--why`, before the names or after them, the lines of an answer to a
/// request are followed by the one that tells why it has its verdict, `> LINE CONJUNCTION` and the
/// reasons; two answers that have other reasons alone don't differ. `counts` writes nothing before
/// the record's end, and then how many requests with answers that differ have which two verdicts:
/// `COUNT OLD -> NEW, first N`, or `COUNT VERDICT, other lines, first N` of two that are the same,
/// in the order of their first requests. At the end both write how many requests and commands there
/// were, and how many differ. Differences are written before more of the record is read, at any
/// status (`before_reading`). Regular expressions are made by `maker`.
///
/// OLD is read first, and once all its lines are judged the files that it names, each once, in the
/// order in which they first appear; and only where it is accepted NEW and the files that this one
/// names. No other file is read (`files_read`).
///
/// | Status | Comes |
/// |---|---|
/// | 0 | the record was answered to its end, and each event alike by both |
/// | 1 | it was answered to its end, and not each event alike |
/// | 2 | the words are no command; nothing is touched |
/// | 3 | a configuration is refused: `old LINE CODE` or `new LINE CODE` is written, alone |
/// | 4 | the record is refused: the differences before, and then `record OFFSET CODE` are written |
/// | 5 | a configuration, a file that one names, or the source can't be read |
/// | 6 | the sink failed |
/// | 7 | memory ran out |
/// | 8 | a regular expression is too large for the maker |
///
/// The status is that of the fault, but where the line that tells a refusal couldn't be written:
/// then it is 6 or 7 (`fault_status`). Without a fault it is 0, 1 or 2 (`no_fault`). A refusal is
/// the one with which the outcome of the configurations and the record ends, so its line and its
/// code are those that `Loads` has, and its offset and its code those of the record (`told`).
/// `Files` and `Source` are told only where these failed (`file_fault`, `record_fault`).
///
/// Where contracts don't know what the files hold, what the source has left, what was read of
/// either, or what was written to the sink (`held`, `left`, `log`, `written`), as of the machine's
/// own files and streams, `headline`, `ran`, `before_reading`, `complete`, `outside`, `named`,
/// `files_read`, `told` and `too_large` say nothing of these bytes and reads: what the machine's
/// adapters do with them is trusted, and tested.
pub fn run_diff<F: Files, S: Source, K: Sink, M: ReMaker>(
    alloc: Global,
    words: &[Vec<u8>],
    env: &[(Vec<u8>, Vec<u8>)],
    files: &mut F,
    record_in: &mut S,
    out: &mut K,
    maker: &mut M,
) -> Ended
    ensures status { Contains (0 ∷ 1 ∷ 2 ∷ 3 ∷ 4 ∷ 5 ∷ 6 ∷ 7 ∷ 8 ∷ []) result.status }
    ensures usage { (result.status ≡ 2) ↔ (command_of (texts_of words.now) ≡ None) }
    ensures untouched { result.status ≡ 2
        → (files.new ≡ files.old) × (record_in.new ≡ record_in.old) × (out.new ≡ out.old)
        × (maker.new ≡ maker.old) }

    ensures headline { Contains (0 ∷ 1 ∷ []) result.status → IfSome
        (setting_of words.now env.now (F.held files.old) (S.left record_in.old)) (λ given.
        Headline given (K.written out.old) (K.written out.new) result.status) }
    ensures ran { IfSome
        (setting_of words.now env.now (F.held files.old) (S.left record_in.old)) (λ given.
        Ran given (K.written out.old) (K.written out.new) result.status) }
    ensures at_end { Contains (0 ∷ 1 ∷ []) result.status → IsAtEnd (S.left record_in.new) }
    ensures before_reading { IfSome
        (setting_of words.now env.now (F.held files.old) (S.left record_in.old)) (λ given.
        AnswersBeforeReading given (S.log record_in.old) (S.log record_in.new)
        (K.written out.old) (K.written out.new)) }
    ensures config_refused { result.status ≡ 3 → record_in.new ≡ record_in.old }

    ensures outside { result.status ≡ 5 → IfSome
        (setting_of words.now env.now (F.held files.old) (S.left record_in.old)) (λ given.
        (Rose (F.faults files.old) (F.faults files.new)
        × IsSomeAnd (F.last files.new) (RunReads given)
        × Appends (K.written out.old) (K.written out.new) [])
        ⊎ (Rose (S.faults record_in.old) (S.faults record_in.new)
        × SourceFails given (S.left record_in.new) (K.written out.old) (K.written out.new))) }
    ensures sink { result.status ≡ 6 → Rose (K.faults out.old) (K.faults out.new) }
    // A text of a configuration is too large before anything is written; one that a rule or a
    // command adds may be so after some differences, of which `ran` says that they are a prefix.
    ensures too_large { result.status ≡ 8 → IfSome
        (setting_of words.now env.now (F.held files.old) (S.left record_in.old)) (λ given.
        Rose (M.state maker.old).too_large (M.state maker.new).too_large
        × ((RunJudgesLast given (M.state maker.new).large
        × Appends (K.written out.old) (K.written out.new) [])
        ⊎ RunAsksLast given (M.state maker.new).large)) }
    // Where nothing outside failed, the status is the one that the configurations and the record
    // have, unless memory ran out.
    ensures complete { IfSome
        (setting_of words.now env.now (F.held files.old) (S.left record_in.old)) (λ given.
        ¬ (Rose (F.faults files.old) (F.faults files.new))
        → ¬ (Rose (S.faults record_in.old) (S.faults record_in.new))
        → ¬ (Rose (K.faults out.old) (K.faults out.new))
        → ¬ (Rose (M.state maker.old).too_large (M.state maker.new).too_large)
        → (result.status ≡ 7) ⊎ HasStatus given result.status) }

    ensures held { F.held files.new ≡ F.held files.old }
    // No file was read in vain but the configurations and those to which they come.
    ensures named { IfSome
        (setting_of words.now env.now (F.held files.old) (S.left record_in.old)) (λ given.
        (F.last files.new ≡ F.last files.old) ⊎ IsSomeAnd (F.last files.new) (RunReads given)) }
    // The files of the old configuration are read first, and then those of the new one.
    ensures files_read { IfSome
        (setting_of words.now env.now (F.held files.old) (S.left record_in.old)) (λ given.
        HoldsSince (F.log files.old) (F.log files.new)
        (ReadsFiles given (F.last files.new) result.status)) }

    ensures told { IfSome
        (setting_of words.now env.now (F.held files.old) (S.left record_in.old)) (λ given.
        IfSome result.fault (λ fault. EndsAs given (fault_end fault))) }
    ensures fault_status { IfSome result.fault (λ fault. (result.status ≡ fault_status fault)
        ⊎ Contains (6 ∷ 7 ∷ []) result.status) }
    ensures no_fault { result.fault ≡ None → Contains (0 ∷ 1 ∷ 2 ∷ []) result.status }
    ensures file_fault { result.fault ≡ Some RunFault.Files
        → Rose (F.faults files.old) (F.faults files.new) }
    ensures record_fault { result.fault ≡ Some RunFault.Source
        → Rose (S.faults record_in.old) (S.faults record_in.new) }
{
    let mut reached = Reached {
        side: Side::Old,
        requests: 0,
    };
    let Some(command) = command_of(words) else {
        return Ended {
            status: 2,
            fault: None,
            reached,
        };
    };
    match attempt(
        alloc,
        env,
        files,
        command,
        record_in,
        out,
        maker,
        &mut reached,
    ) {
        Ok(differs) => Ended {
            status: completed_status(differs),
            fault: None,
            reached,
        },
        Err(fault) => Ended {
            status: finish(alloc, fault, out),
            fault: Some(fault),
            reached,
        },
    }
}

/// The status of a run that came to the record's end.
fn completed_status(differs: bool) -> u8
    ensures { result ≡ completed_status differs }
{
    if differs { 1 } else { 0 }
}

/// Loads both configurations, and compares their answers up to the first fault.
fn attempt<F: Files, S: Source, K: Sink, M: ReMaker>(
    alloc: Global,
    env: &[(Vec<u8>, Vec<u8>)],
    files: &mut F,
    command: Command<'_>,
    record_in: &mut S,
    out: &mut K,
    maker: &mut M,
    reached: &mut Reached,
) -> Result<bool, RunFault>
    ensures attempted { Attempted
        (setting env.now (F.held files.old) (asked_of command.entry) (S.left record_in.old))
        (K.written out.old) (K.written out.new) result }
    ensures before_reading { AnswersBeforeReading
        (setting env.now (F.held files.old) (asked_of command.entry) (S.left record_in.old))
        (S.log record_in.old) (S.log record_in.new) (K.written out.old) (K.written out.new) }
    ensures at_end { OnOk result (IsAtEnd (S.left record_in.new)) }
    ensures config_refused { (side : Side) (line code : ℕ)
        → result ≡ Err (RunFault.ConfigRefused side line code) → record_in.new ≡ record_in.old }
    ensures files_failed { IsErrOf result RunFault.Files
        → Rose (F.faults files.old) (F.faults files.new)
        × IsSomeAnd (F.last files.new) (RunReads
        (setting env.now (F.held files.old) (asked_of command.entry) (S.left record_in.old)))
        × (out.new ≡ out.old) }
    ensures source_failed { IsErrOf result RunFault.Source
        → Rose (S.faults record_in.old) (S.faults record_in.new)
        × SourceFails
        (setting env.now (F.held files.old) (asked_of command.entry) (S.left record_in.old))
        (S.left record_in.new) (K.written out.old) (K.written out.new) }
    ensures sink_failed { IsErrOf result RunFault.Sink
        → Rose (K.faults out.old) (K.faults out.new) }
    ensures too_large { let given = setting env.now (F.held files.old) (asked_of command.entry)
        (S.left record_in.old) in IsErrOf result RunFault.TooLarge
        → Rose (M.state maker.old).too_large (M.state maker.new).too_large
        × ((RunJudgesLast given (M.state maker.new).large × (out.new ≡ out.old))
        ⊎ RunAsksLast given (M.state maker.new).large) }
    ensures later { K.faults out.old ≤ K.faults out.new }
    ensures held { F.held files.new ≡ F.held files.old }
    ensures named { (F.last files.new ≡ F.last files.old)
        ⊎ IsSomeAnd (F.last files.new) (RunReads
        (setting env.now (F.held files.old) (asked_of command.entry) (S.left record_in.old))) }
    ensures files_read { HoldsSince (F.log files.old) (F.log files.new) (ReadsFiles
        (setting env.now (F.held files.old) (asked_of command.entry) (S.left record_in.old))
        (F.last files.new) (result_status result)) }
{
    match load_config(alloc, env, files, command.old_name, maker) {
        Ok(old) => attempt_new(
            alloc, env, files, command, old, record_in, out, maker, reached,
        ),
        Err(fault) => Err(RunFault::of_load(Side::Old, fault)),
    }
}

/// The same where the old configuration is loaded.
fn attempt_new<F: Files, S: Source, K: Sink, M: ReMaker>(
    alloc: Global,
    env: &[(Vec<u8>, Vec<u8>)],
    files: &mut F,
    command: Command<'_>,
    old: LoadedConfig,
    record_in: &mut S,
    out: &mut K,
    maker: &mut M,
    reached: &mut Reached,
) -> Result<bool, RunFault>
    requires fit { FitRules old.1.content old.0 }
    requires accepted { IsAccepted (old_of
        (setting env.now (F.held files.old) (asked_of command) (S.left record_in.old))) old }
    ensures attempted { Attempted
        (setting env.now (F.held files.old) (asked_of command.entry) (S.left record_in.old))
        (K.written out.old) (K.written out.new) result }
    ensures before_reading { AnswersBeforeReading
        (setting env.now (F.held files.old) (asked_of command.entry) (S.left record_in.old))
        (S.log record_in.old) (S.log record_in.new) (K.written out.old) (K.written out.new) }
    ensures at_end { OnOk result (IsAtEnd (S.left record_in.new)) }
    ensures config_refused { (side : Side) (line code : ℕ)
        → result ≡ Err (RunFault.ConfigRefused side line code) → record_in.new ≡ record_in.old }
    ensures files_failed { IsErrOf result RunFault.Files
        → Rose (F.faults files.old) (F.faults files.new)
        × IsSomeAnd (F.last files.new) (RunReads
        (setting env.now (F.held files.old) (asked_of command.entry) (S.left record_in.old)))
        × (out.new ≡ out.old) }
    ensures source_failed { IsErrOf result RunFault.Source
        → Rose (S.faults record_in.old) (S.faults record_in.new)
        × SourceFails
        (setting env.now (F.held files.old) (asked_of command.entry) (S.left record_in.old))
        (S.left record_in.new) (K.written out.old) (K.written out.new) }
    ensures sink_failed { IsErrOf result RunFault.Sink
        → Rose (K.faults out.old) (K.faults out.new) }
    ensures too_large { let given = setting env.now (F.held files.old) (asked_of command.entry)
        (S.left record_in.old) in IsErrOf result RunFault.TooLarge
        → Rose (M.state maker.old).too_large (M.state maker.new).too_large
        × ((RunJudgesLast given (M.state maker.new).large × (out.new ≡ out.old))
        ⊎ RunAsksLast given (M.state maker.new).large) }
    ensures later { K.faults out.old ≤ K.faults out.new }
    ensures held { F.held files.new ≡ F.held files.old }
    ensures named { (F.last files.new ≡ F.last files.old)
        ⊎ IsSomeAnd (F.last files.new) (RunReads
        (setting env.now (F.held files.old) (asked_of command.entry) (S.left record_in.old))) }
    ensures files_read { HoldsSince (F.log files.old) (F.log files.new) (ReadsConfigFiles
        (new_of (setting env.now (F.held files.old) (asked_of command.entry)
        (S.left record_in.old))) (F.last files.new) (result_status result)) }
{
    reached.side = Side::New;
    match load_config(alloc, env, files, command.new_name, maker) {
        Ok(new) => compare(
            alloc,
            command.task,
            old,
            new,
            record_in,
            out,
            maker,
            &mut reached.requests,
        ),
        Err(fault) => Err(RunFault::of_load(Side::New, fault)),
    }
}

/// Writes the line of a refusal, and answers the status.
#[tactic(auto, using(crate::proofs::StatusLemmas::fault_large))]
fn finish<K: Sink>(alloc: Global, fault: RunFault, out: &mut K) -> u8
    ensures finished { Finishes fault (K.written out.old) (K.written out.new) result }
    ensures large { 3 ≤ result }
    ensures sink { result ≡ 6 → fault ≢ RunFault.Sink → Rose (K.faults out.old) (K.faults out.new) }
    ensures later { K.faults out.old ≤ K.faults out.new }
{
    let Ok(line) = fault.last_line(alloc) else {
        return 7;
    };
    match write_all(out, line.as_bytes()) {
        Ok(()) => fault.status(),
        Err(SinkFault::Failed) => 6,
        Err(SinkFault::NoMemory) => 7,
    }
}
