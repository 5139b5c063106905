ghost use Rattle.std.specs.Prelude.{◌≡◌, ◌≢◌, ◌↔◌, ◌⊎◌, [], ◌∷◌, Some, None, Ok, Contains, IfOk, IfSome, OnOk, IsErrOf};
ghost use Rattle.std.specs.Io.KnownBytes.{Appends};
ghost use Rattle.std.specs.String.{string_bytes};
ghost use Rattle.hx_base.specs.Pairs.{pairs_of};
ghost use Rattle.hx_gen.specs.Files.{config_name};
ghost use Rattle.hx_gen.specs.Sizes.{IsSize};
ghost use Rattle.hx_outside.specs.Count.{Rose};
ghost use Rattle.hx_outside.specs.Prefixes.{AppendsPrefix};
ghost use Rattle.hx_program.specs.Machine.{texts_of};
ghost use Rattle.hx_run.specs.Generated.{Generates, asked_size, generated_outcome, generated_setting, generated_text};
ghost use Rattle.hx_run.specs.Run.{Headline};
ghost use Rattle.hx_run.specs.RunFault.{Attempted, fault_status};
ghost use Rattle.hx_run.specs.declared.command.Detail.{Detail};
ghost use Rattle.hx_run.specs.declared.command.Task.{Task};

use crate::command::{Command, Detail, Task};
use crate::run_command::{Ended, attempt};
use crate::run_fault::RunFault;
use hx_gen::{GeneratedInput, config_name, generated_input, read_size, summary_text};
use hx_outside::{MemFiles, MemSink, MemSource, PlainMaker, Sink, SinkFault, write_all};
use hx_text::NoMemory;
use std::alloc::Global;

/// How many bytes of a generated record are read at once.
const PIECE: usize = 65_536;

/// The size that the words `gen N` ask for. None exactly where they are anything else, or N is no
/// size.
pub(crate) fn asked_size(words: &[Vec<u8>]) -> Option<u64>
    ensures value { result ≡ asked_size (texts_of words.now) }
    ensures within { IfSome result IsSize }
{
    match words {
        [word, size] if word.as_slice() == b"gen".as_slice() => read_size(size.as_slice()),
        _ => None,
    }
}

/// Runs `gen N` where the words are that, and else does nothing and answers 2.
///
/// The clauses are those of `run_to_end` for words that are no command over a configuration.
pub(crate) fn run_generated<K: Sink>(alloc: Global, words: &[Vec<u8>], out: &mut K) -> Ended
    ensures status { Contains (0 ∷ 2 ∷ 3 ∷ 4 ∷ 5 ∷ 6 ∷ 7 ∷ 8 ∷ []) result.status }
    ensures usage { (result.status ≡ 2) ↔ (asked_size (texts_of words.now) ≡ None) }
    ensures untouched { result.status ≡ 2 → out.new ≡ out.old }
    ensures generated { IfSome (asked_size (texts_of words.now)) (λ size.
        Generates size (K.written out.old) (K.written out.new) result.status) }
    ensures sink { result.status ≡ 6 → Rose (K.faults out.old) (K.faults out.new) }
    ensures fault_status { IfSome result.fault (λ fault. (result.status ≡ fault_status fault)
        ⊎ Contains (6 ∷ 7 ∷ []) result.status) }
    ensures no_fault { result.fault ≡ None → Contains (0 ∷ 2 ∷ []) result.status }
    ensures file_fault { result.fault ≢ Some RunFault.Files }
    ensures record_fault { result.fault ≢ Some RunFault.Source }
{
    let Some(size) = asked_size(words) else {
        return ended(2, None);
    };
    match write_generated(alloc, size, out) {
        Ok(()) => ended(0, None),
        Err(SinkFault::Failed) => ended(6, Some(RunFault::Sink)),
        Err(SinkFault::NoMemory) => ended(7, Some(RunFault::NoMemory)),
    }
}

/// A run that answered no request of a record that was handed in.
fn ended(status: u8, fault: Option<RunFault>) -> Ended
    ensures status { result.status ≡ status }
    ensures fault { result.fault ≡ fault }
{
    Ended {
        status,
        fault,
        requests: 0,
    }
}

/// Answers the generated input of this size as `run` does, and writes the summary of the answers.
///
/// `Failed` only where the count of faults of `out` rose, and `NoMemory` where memory runs out: a
/// prefix of the summary was then written.
pub(crate) fn write_generated<K: Sink>(
    alloc: Global,
    size: u64,
    out: &mut K,
) -> Result<(), SinkFault>
    requires { IsSize size }
    ensures ok { OnOk result (Appends (K.written out.old) (K.written out.new)
        (generated_text size)) }
    ensures completed { OnOk result (Headline (generated_setting size) (Some [])
        (Some (generated_outcome size).answers)) }
    ensures prefix { AppendsPrefix (K.written out.old) (K.written out.new) (generated_text size) }
    ensures failed { IsErrOf result SinkFault.Failed → Rose (K.faults out.old) (K.faults out.new) }
{
    let Ok(text) = generated_text(alloc, size) else {
        return Err(SinkFault::NoMemory);
    };
    write_all(out, text.as_bytes())
}

/// The summary of the answers to the generated input of this size.
#[tactic(auto, unfolding(crate::specs::Generated::generated_text), using(crate::proofs::GeneratedLemmas::answers_are, crate::proofs::GeneratedLemmas::is_completed))]
fn generated_text(alloc: Global, size: u64) -> Result<String, NoMemory>
    requires { IsSize size }
    ensures text { IfOk result (λ text. string_bytes text ≡ generated_text size) }
    ensures completed { OnOk result (Headline (generated_setting size) (Some [])
        (Some (generated_outcome size).answers)) }
{
    let mut answers = MemSink::new(alloc, usize::MAX, Vec::new(alloc));
    answer_generated(alloc, size, &mut answers)?;
    summary_text(alloc, size, answers.bytes())
}

/// Writes the answers to the generated input of this size.
fn answer_generated(alloc: Global, size: u64, answers: &mut MemSink) -> Result<(), NoMemory>
    requires { IsSize size }
    ensures { OnOk result (Attempted (generated_setting size) (Some answers.old.written)
        (Some answers.new.written) (Ok tt)) }
{
    let input = generated_input(alloc, size)?;
    answer_input(alloc, input, answers)
}

/// Writes the answers to an input.
///
/// Where the input is generated, its configuration is accepted, its record has no fault, it has no
/// regular expression, and all that it reads and writes is in memory: so nothing but memory can end
/// this run early. That no other fault comes is tested.
fn answer_input(alloc: Global, input: GeneratedInput, answers: &mut MemSink) -> Result<(), NoMemory>
    ensures { OnOk result (Attempted (record {
      env = [];
      held = Some (pairs_of input.files.items);
      task = Task.Replay Detail.Verdicts;
      name = config_name;
      left = Some input.record_bytes.items;
    }) (Some answers.old.written) (Some answers.new.written) (Ok tt)) }
{
    let GeneratedInput {
        files,
        record_bytes,
    } = input;
    let mut files = MemFiles::new(files, Vec::new(alloc));
    let mut record_in = MemSource::new(record_bytes, PIECE, Vec::new(alloc));
    let mut maker = PlainMaker::new();
    let mut requests = 0;
    let command = Command {
        task: Task::Replay(Detail::Verdicts),
        name: config_name(),
    };
    match attempt(
        alloc,
        &[],
        &mut files,
        command,
        &mut record_in,
        answers,
        &mut maker,
        &mut requests,
    ) {
        Ok(()) => Ok(()),
        Err(_) => Err(NoMemory),
    }
}
