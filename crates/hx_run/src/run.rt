ghost use Rattle.std.specs.Prelude.{◌≡◌, ◌↔◌, ◌⊎◌, None, Some, Contains, [], ◌∷◌, IfSome, IsSomeAnd};
ghost use Rattle.std.specs.Io.KnownBytes.{Appends, IsAtEnd};
ghost use Rattle.hx_outside.specs.Count.{Rose};
ghost use Rattle.hx_outside.specs.Log.{HoldsSince};
ghost use Rattle.hx_program.specs.Machine.{texts_of};
ghost use Rattle.hx_run.specs.Generated.{AreNoCommand, Generates, asked_size};
ghost use Rattle.hx_run.specs.Run.{command_of, setting_of};
ghost use Rattle.hx_run.specs.Run.{AnswersBeforeReading, Checked, Ran, HasStatus, Headline, IsReplay};
ghost use Rattle.hx_run.specs.Run.{RunAsksLast, RunJudgesLast, RunReads, SourceFails};
ghost use Rattle.hx_run.specs.RunFault.{EndsAs, fault_end, fault_status};
ghost use Rattle.hx_run.specs.declared.run_fault.RunFault.{RunFault};
ghost use Rattle.hx_run.specs.RunFiles.{ReadsFiles};
ghost use Rattle.hx_run.specs.Unseen.{ShowsNoUncommittedVersion};
ghost use Rattle.hx_run.specs.declared.command.Detail.{Detail};
ghost use Rattle.hx_run.specs.declared.command.Task.{Task};

use crate::command::command_of;
use crate::generated::run_generated;
use crate::run_command::{Ended, run_command};
use hx_outside::{Files, ReMaker, Sink, Source};
use std::alloc::Global;

/// Runs the command that `words` are, the words of a command line without the program's name, under
/// the environment `env`, and answers the exit status.
///
/// `run CONFIG` reads the file CONFIG as a configuration, and answers the events of the record in
/// order: requests, and lines of the management socket. Answers are written before more of the
/// record is read, at any status (`before_reading`).
/// `check CONFIG` judges the configuration alone, and where it is accepted writes `ok RULES REFS`:
/// how many rules and how many references it has. Regular expressions are made by `maker`.
/// `gen N` does what `run` does over the generated input of size N, and writes the summary of the
/// answers (`generated`): its files, its record, its answers and its maker are its own, in memory.
/// N is a number from 1 to 200,000 in decimal digits.
///
/// CONFIG is read first. Once all its lines are judged, the files that it names are read through
/// `files` too, each once, in the order in which they first appear, up to the first that can't be
/// read or has an entry that is refused. No other file is read (`files_read`).
///
/// | Status | Comes |
/// |---|---|
/// | 0 | the record was answered to its end, the configuration accepted, or the summary written |
/// | 2 | the words are no command; nothing is touched |
/// | 3 | the configuration is refused: `config LINE CODE` is written, alone |
/// | 4 | the record is refused: the answers before, and then `record OFFSET CODE` are written |
/// | 5 | the configuration, a file that it names, or the source can't be read |
/// | 6 | the sink failed |
/// | 7 | memory ran out |
/// | 8 | a regular expression is too large for the maker |
///
/// Where contracts don't know what the files hold, what the source has left, what was read of
/// either, or what was written to the sink (`held`, `left`, `log`, `written`), as of the machine's
/// own files and streams, `headline`, `unseen`, `checked`, `ran`, `before_reading`, `complete`,
/// `outside`, `named`, `files_read` and `too_large` say nothing of these bytes and reads: what the
/// machine's adapters do with them is trusted, and tested.
pub fn run<F: Files, S: Source, K: Sink, M: ReMaker>(
    alloc: Global,
    words: &[Vec<u8>],
    env: &[(Vec<u8>, Vec<u8>)],
    files: &mut F,
    record_in: &mut S,
    out: &mut K,
    maker: &mut M,
) -> u8
    ensures status { Contains (0 ∷ 2 ∷ 3 ∷ 4 ∷ 5 ∷ 6 ∷ 7 ∷ 8 ∷ []) result }
    ensures usage { (result ≡ 2) ↔ AreNoCommand (texts_of words.now) }
    ensures untouched { result ≡ 2
        → (files.new ≡ files.old) × (record_in.new ≡ record_in.old) × (out.new ≡ out.old)
        × (maker.new ≡ maker.old) }
    ensures generated { IfSome (asked_size (texts_of words.now)) (λ size.
        Generates size (K.written out.old) (K.written out.new) result) }
    ensures untouched_by_generated { IfSome (asked_size (texts_of words.now)) (λ size.
        (files.new ≡ files.old) × (record_in.new ≡ record_in.old) × (maker.new ≡ maker.old)) }

    ensures headline { result ≡ 0 → IfSome
        (setting_of words.now env.now (F.held files.old) (S.left record_in.old)) (λ given.
        given.task ≡ Task.Replay Detail.Verdicts
        → Headline given (K.written out.old) (K.written out.new)) }
    ensures unseen { result ≡ 0 → IfSome
        (setting_of words.now env.now (F.held files.old) (S.left record_in.old)) (λ given.
        given.task ≡ Task.Replay Detail.Verdicts
        → ShowsNoUncommittedVersion given (K.written out.old) (K.written out.new)) }
    ensures checked { result ≡ 0 → IfSome
        (setting_of words.now env.now (F.held files.old) (S.left record_in.old)) (λ given.
        given.task ≡ Task.Check → Checked given (K.written out.old) (K.written out.new)) }
    ensures ran { IfSome
        (setting_of words.now env.now (F.held files.old) (S.left record_in.old)) (λ given.
        Ran given (K.written out.old) (K.written out.new) result) }
    ensures at_end { result ≡ 0 → IfSome (command_of (texts_of words.now))
        (λ command. IsReplay command.task → IsAtEnd (S.left record_in.new)) }
    ensures before_reading { IfSome
        (setting_of words.now env.now (F.held files.old) (S.left record_in.old)) (λ given.
        AnswersBeforeReading given (S.log record_in.old) (S.log record_in.new)
        (K.written out.old) (K.written out.new)) }
    ensures config_refused { result ≡ 3 → record_in.new ≡ record_in.old }
    ensures unread { IfSome (command_of (texts_of words.now))
        (λ command. command.task ≡ Task.Check → record_in.new ≡ record_in.old) }

    ensures outside { result ≡ 5 → IfSome
        (setting_of words.now env.now (F.held files.old) (S.left record_in.old)) (λ given.
        (Rose (F.faults files.old) (F.faults files.new)
        × IsSomeAnd (F.last files.new) (RunReads given)
        × Appends (K.written out.old) (K.written out.new) [])
        ⊎ (Rose (S.faults record_in.old) (S.faults record_in.new)
        × SourceFails given (S.left record_in.new) (K.written out.old) (K.written out.new))) }
    ensures sink { result ≡ 6 → Rose (K.faults out.old) (K.faults out.new) }
    // A text of the configuration is too large before anything is written; one that a rule or a
    // command adds may be so after some answers, of which `ran` says that they are a prefix.
    ensures too_large { result ≡ 8 → IfSome
        (setting_of words.now env.now (F.held files.old) (S.left record_in.old)) (λ given.
        Rose (M.state maker.old).too_large (M.state maker.new).too_large
        × ((RunJudgesLast given (M.state maker.new).large
        × Appends (K.written out.old) (K.written out.new) [])
        ⊎ RunAsksLast given (M.state maker.new).large)) }
    // Where nothing outside failed, the status is the one that the configuration and the record
    // have, unless memory ran out.
    ensures complete { IfSome
        (setting_of words.now env.now (F.held files.old) (S.left record_in.old)) (λ given.
        ¬ (Rose (F.faults files.old) (F.faults files.new))
        → ¬ (Rose (S.faults record_in.old) (S.faults record_in.new))
        → ¬ (Rose (K.faults out.old) (K.faults out.new))
        → ¬ (Rose (M.state maker.old).too_large (M.state maker.new).too_large)
        → (result ≡ 7) ⊎ HasStatus given result) }

    ensures held { F.held files.new ≡ F.held files.old }
    // No file was read in vain but the configuration and those to which it comes.
    ensures named { IfSome
        (setting_of words.now env.now (F.held files.old) (S.left record_in.old)) (λ given.
        (F.last files.new ≡ F.last files.old) ⊎ IsSomeAnd (F.last files.new) (RunReads given)) }
    // The configuration is read first, and then the files that it names, in their order.
    ensures files_read { IfSome
        (setting_of words.now env.now (F.held files.old) (S.left record_in.old)) (λ given.
        HoldsSince (F.log files.old) (F.log files.new)
        (ReadsFiles given (F.last files.new) result)) }
{
    run_to_end(alloc, words, env, files, record_in, out, maker).status
}

/// Runs the command that `words` are as `run` does, and answers its status together with the fault
/// that ended it, for whoever tells why.
///
/// The status is that of the fault, but where the line that tells a refusal couldn't be written:
/// then it is 6 or 7 (`fault_status`). Without a fault it is 0 or 2 (`no_fault`). A refusal is the
/// one with which the outcome of the configuration and the record ends, so its line and its code
/// are those that `Loads` has, and its offset and its code those of the record (`told`). `Files`
/// and `Source` are told only where these failed (`file_fault`, `record_fault`).
pub fn run_to_end<F: Files, S: Source, K: Sink, M: ReMaker>(
    alloc: Global,
    words: &[Vec<u8>],
    env: &[(Vec<u8>, Vec<u8>)],
    files: &mut F,
    record_in: &mut S,
    out: &mut K,
    maker: &mut M,
) -> Ended
    ensures status { Contains (0 ∷ 2 ∷ 3 ∷ 4 ∷ 5 ∷ 6 ∷ 7 ∷ 8 ∷ []) result.status }
    ensures usage { (result.status ≡ 2) ↔ AreNoCommand (texts_of words.now) }
    ensures untouched { result.status ≡ 2
        → (files.new ≡ files.old) × (record_in.new ≡ record_in.old) × (out.new ≡ out.old)
        × (maker.new ≡ maker.old) }
    ensures generated { IfSome (asked_size (texts_of words.now)) (λ size.
        Generates size (K.written out.old) (K.written out.new) result.status) }
    ensures untouched_by_generated { IfSome (asked_size (texts_of words.now)) (λ size.
        (files.new ≡ files.old) × (record_in.new ≡ record_in.old) × (maker.new ≡ maker.old)) }

    ensures headline { result.status ≡ 0 → IfSome
        (setting_of words.now env.now (F.held files.old) (S.left record_in.old)) (λ given.
        given.task ≡ Task.Replay Detail.Verdicts
        → Headline given (K.written out.old) (K.written out.new)) }
    ensures unseen { result.status ≡ 0 → IfSome
        (setting_of words.now env.now (F.held files.old) (S.left record_in.old)) (λ given.
        given.task ≡ Task.Replay Detail.Verdicts
        → ShowsNoUncommittedVersion given (K.written out.old) (K.written out.new)) }
    ensures checked { result.status ≡ 0 → IfSome
        (setting_of words.now env.now (F.held files.old) (S.left record_in.old)) (λ given.
        given.task ≡ Task.Check → Checked given (K.written out.old) (K.written out.new)) }
    ensures ran { IfSome
        (setting_of words.now env.now (F.held files.old) (S.left record_in.old)) (λ given.
        Ran given (K.written out.old) (K.written out.new) result.status) }
    ensures at_end { result.status ≡ 0 → IfSome (command_of (texts_of words.now))
        (λ command. IsReplay command.task → IsAtEnd (S.left record_in.new)) }
    ensures before_reading { IfSome
        (setting_of words.now env.now (F.held files.old) (S.left record_in.old)) (λ given.
        AnswersBeforeReading given (S.log record_in.old) (S.log record_in.new)
        (K.written out.old) (K.written out.new)) }
    ensures config_refused { result.status ≡ 3 → record_in.new ≡ record_in.old }
    ensures unread { IfSome (command_of (texts_of words.now))
        (λ command. command.task ≡ Task.Check → record_in.new ≡ record_in.old) }

    ensures outside { result.status ≡ 5 → IfSome
        (setting_of words.now env.now (F.held files.old) (S.left record_in.old)) (λ given.
        (Rose (F.faults files.old) (F.faults files.new)
        × IsSomeAnd (F.last files.new) (RunReads given)
        × Appends (K.written out.old) (K.written out.new) [])
        ⊎ (Rose (S.faults record_in.old) (S.faults record_in.new)
        × SourceFails given (S.left record_in.new) (K.written out.old) (K.written out.new))) }
    ensures sink { result.status ≡ 6 → Rose (K.faults out.old) (K.faults out.new) }
    // A text of the configuration is too large before anything is written; one that a rule or a
    // command adds may be so after some answers, of which `ran` says that they are a prefix.
    ensures too_large { result.status ≡ 8 → IfSome
        (setting_of words.now env.now (F.held files.old) (S.left record_in.old)) (λ given.
        Rose (M.state maker.old).too_large (M.state maker.new).too_large
        × ((RunJudgesLast given (M.state maker.new).large
        × Appends (K.written out.old) (K.written out.new) [])
        ⊎ RunAsksLast given (M.state maker.new).large)) }
    // Where nothing outside failed, the status is the one that the configuration and the record
    // have, unless memory ran out.
    ensures complete { IfSome
        (setting_of words.now env.now (F.held files.old) (S.left record_in.old)) (λ given.
        ¬ (Rose (F.faults files.old) (F.faults files.new))
        → ¬ (Rose (S.faults record_in.old) (S.faults record_in.new))
        → ¬ (Rose (K.faults out.old) (K.faults out.new))
        → ¬ (Rose (M.state maker.old).too_large (M.state maker.new).too_large)
        → (result.status ≡ 7) ⊎ HasStatus given result.status) }

    ensures held { F.held files.new ≡ F.held files.old }
    // No file was read in vain but the configuration and those to which it comes.
    ensures named { IfSome
        (setting_of words.now env.now (F.held files.old) (S.left record_in.old)) (λ given.
        (F.last files.new ≡ F.last files.old) ⊎ IsSomeAnd (F.last files.new) (RunReads given)) }
    // The configuration is read first, and then the files that it names, in their order.
    ensures files_read { IfSome
        (setting_of words.now env.now (F.held files.old) (S.left record_in.old)) (λ given.
        HoldsSince (F.log files.old) (F.log files.new)
        (ReadsFiles given (F.last files.new) result.status)) }

    ensures told { IfSome
        (setting_of words.now env.now (F.held files.old) (S.left record_in.old)) (λ given.
        IfSome result.fault (λ fault. EndsAs given (fault_end fault))) }
    ensures fault_status { IfSome result.fault (λ fault. (result.status ≡ fault_status fault)
        ⊎ Contains (6 ∷ 7 ∷ []) result.status) }
    ensures no_fault { result.fault ≡ None → Contains (0 ∷ 2 ∷ []) result.status }
    ensures file_fault { result.fault ≡ Some RunFault.Files
        → Rose (F.faults files.old) (F.faults files.new) }
    ensures record_fault { result.fault ≡ Some RunFault.Source
        → Rose (S.faults record_in.old) (S.faults record_in.new) }
{
    match command_of(words) {
        Some(command) => run_command(alloc, command, env, files, record_in, out, maker),
        None => run_generated(alloc, words, out),
    }
}
