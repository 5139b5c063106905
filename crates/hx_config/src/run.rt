ghost use Rattle.std.specs.Prelude.{◌≡◌, ◌≤◌, ◌↔◌, ◌⊎◌, None, Some, Contains, [], ◌∷◌, IfOk, IfSome, OnOk, IsErrOf};
ghost use Rattle.std.specs.Io.KnownBytes.{Appends};
ghost use Rattle.hx_base.specs.Pairs.{pairs_of};
ghost use Rattle.hx_program.specs.Machine.{texts_of};
ghost use Rattle.hx_outside.specs.Count.{Rose};
ghost use Rattle.hx_outside.specs.Log.{HoldsSince};
ghost use Rattle.hx_outside.specs.Prefixes.{AppendsPrefix};
ghost use Rattle.hx_config.specs.Command.{WhatTakesTraffic, WhatToTell, command_of, request_of};
ghost use Rattle.hx_config.specs.Headline.{Headline, Tells};
ghost use Rattle.hx_config.specs.Run.{HasStatus, Ran, outcome_by, outcome_of, setting, setting_of};
ghost use Rattle.hx_config.specs.Run.{written_status};
ghost use Rattle.hx_config.specs.RunFault.{outcome_view, result_status};

use crate::command::{Command, Task, command_of};
use crate::configuration::{Written, configuration};
use crate::frontends::frontends;
use crate::lines::lines_of;
use crate::run_fault::RunFault;
use hx_lint::lint;
use hx_outside::{Files, Sink, SinkFault, write_all};
use hx_text::NoMemory;
use std::alloc::Global;

/// Runs the command that `words` are, the words of a command line without the program's name, under
/// the environment `env`, and answers the exit status.
///
/// `frontends FILE` writes what takes traffic in a configuration of HAProxy, as
/// `LINE frontend NAME` or `LINE listen NAME` for each section that does. `frontend NAME FILE`
/// writes the configuration of one of these for hxeval, with every line at its number, and to
/// `notes` what became of its lines and why; `--tls PORT` says at which port TLS comes in.
/// `lint FILE` writes what there is to tell of a configuration of hxeval (`lint` of hx_lint). FILE
/// is read through `files`, once, and no other file is.
///
/// | Status | Comes |
/// |---|---|
/// | 0 | all is written; of `lint` nothing, since there is nothing to tell |
/// | 1 | all that `lint` has to tell is written, and it is something |
/// | 2 | the words are no command; nothing is touched |
/// | 3 | the file has no frontend of the name; nothing is written |
/// | 5 | the file can't be read; nothing is written |
/// | 6 | a sink failed |
/// | 7 | memory ran out |
///
/// Where contracts don't know what the files hold, what was read of them, or what was written to
/// the sinks, as of the machine's own, the clauses say nothing of these bytes and reads.
pub fn run<F: Files, K: Sink, N: Sink>(
    alloc: Global,
    words: &[Vec<u8>],
    env: &[(Vec<u8>, Vec<u8>)],
    files: &mut F,
    out: &mut K,
    notes: &mut N,
) -> u8
    ensures status { Contains (0 ∷ 1 ∷ 2 ∷ 3 ∷ 5 ∷ 6 ∷ 7 ∷ []) result }
    ensures usage { (result ≡ 2) ↔ (command_of (texts_of words.now) ≡ None) }
    ensures untouched { result ≡ 2
        → (files.new ≡ files.old) × (out.new ≡ out.old) × (notes.new ≡ notes.old) }

    ensures headline { result ≡ 0
        → IfSome (setting_of words.now env.now (F.held files.old)) (λ given.
        Headline given (K.written out.old) (K.written out.new) (N.written notes.old)
        (N.written notes.new)) }
    ensures tells { result ≡ 1
        → IfSome (setting_of words.now env.now (F.held files.old)) (λ given.
        Tells given (K.written out.old) (K.written out.new) (N.written notes.old)
        (N.written notes.new)) }
    ensures ran { IfSome (setting_of words.now env.now (F.held files.old)) (λ given.
        Ran given (K.written out.old) (K.written out.new) (N.written notes.old)
        (N.written notes.new) result) }

    ensures outside { result ≡ 5 → IfSome (command_of (texts_of words.now)) (λ request.
        Rose (F.faults files.old) (F.faults files.new) × (F.last files.new ≡ Some request.file)
        × (out.new ≡ out.old) × (notes.new ≡ notes.old)) }
    ensures sink { result ≡ 6 → Rose (K.faults out.old) (K.faults out.new)
        ⊎ Rose (N.faults notes.old) (N.faults notes.new) }
    // Where nothing outside failed, the status is the one that the file has, unless memory ran out.
    ensures complete { IfSome (setting_of words.now env.now (F.held files.old)) (λ given.
        ¬ (Rose (F.faults files.old) (F.faults files.new))
        → ¬ (Rose (K.faults out.old) (K.faults out.new))
        → ¬ (Rose (N.faults notes.old) (N.faults notes.new))
        → (result ≡ 7) ⊎ HasStatus given result) }

    ensures held { F.held files.new ≡ F.held files.old }
    ensures files_read { IfSome (command_of (texts_of words.now)) (λ request.
        HoldsSince (F.log files.old) (F.log files.new) (λ names. names ≡ request.file ∷ [])) }
{
    let Some(command) = command_of(words) else {
        return 2;
    };
    match attempt(alloc, env, files, command, out, notes) {
        Ok(amiss) => written_status(amiss),
        Err(fault) => fault.status(),
    }
}

/// The status of a run that has written all, and whether that says that something is amiss.
fn written_status(amiss: bool) -> u8
    ensures status { result ≡ written_status amiss }
    ensures small { result ≤ 1 }
{
    if amiss { 1 } else { 0 }
}

/// Reads the file of a command, and writes what it asks for, up to the first fault; and whether
/// that says that something is amiss.
fn attempt<F: Files, K: Sink, N: Sink>(
    alloc: Global,
    env: &[(Vec<u8>, Vec<u8>)],
    files: &mut F,
    command: Command<'_>,
    out: &mut K,
    notes: &mut N,
) -> Result<bool, RunFault>
    ensures ran { Ran (setting env.now (F.held files.old) (request_of command.entry))
        (K.written out.old) (K.written out.new) (N.written notes.old) (N.written notes.new)
        (result_status result) }
    ensures files_failed { IsErrOf result RunFault.Files
        → Rose (F.faults files.old) (F.faults files.new)
        × (F.last files.new ≡ Some command.entry.file.now)
        × (out.new ≡ out.old) × (notes.new ≡ notes.old) }
    ensures sink_failed { IsErrOf result RunFault.Sink
        → Rose (K.faults out.old) (K.faults out.new)
        ⊎ Rose (N.faults notes.old) (N.faults notes.new) }
    ensures held { F.held files.new ≡ F.held files.old }
    ensures files_read { HoldsSince (F.log files.old) (F.log files.new)
        (λ names. names ≡ command.entry.file.now ∷ []) }
{
    let content = files.read(alloc, command.file)?;
    let found = outcome_of(alloc, env, command, content.as_slice())?;
    let Some(written) = found else {
        return Err(RunFault::NoFrontend);
    };
    write(&written, out, notes)?;
    Ok(written.amiss)
}

/// What comes of a command over a file with this content; none where the file has no frontend of
/// the name.
#[tactic(auto, unfolding(crate::specs::Run::outcome_of))]
fn outcome_of(
    alloc: Global,
    env: &[(Vec<u8>, Vec<u8>)],
    command: Command<'_>,
    content: &[u8],
) -> Result<Option<Written>, NoMemory>
    ensures { IfOk result (λ found. outcome_view found
        ≡ outcome_of (pairs_of env.now) (request_of command.entry) (Some content.now)) }
{
    match command.task {
        Task::Frontends => Ok(Some(what_takes_traffic(alloc, env, content)?)),
        Task::Frontend { name, tls } => {
            let lines = lines_of(alloc, env, content)?;
            configuration(alloc, command.file, name, tls, lines.as_slice())
        }
        Task::Lint => Ok(Some(what_to_tell(alloc, env, content)?)),
    }
}

/// What takes traffic in a file with this content.
fn what_takes_traffic(
    alloc: Global,
    env: &[(Vec<u8>, Vec<u8>)],
    content: &[u8],
) -> Result<Written, NoMemory>
    ensures { IfOk result (λ written. outcome_view (Some written)
        ≡ outcome_by WhatTakesTraffic (pairs_of env.now) [] content.now) }
{
    let lines = lines_of(alloc, env, content)?;
    let text = frontends(alloc, lines.as_slice())?;
    Ok(Written {
        text,
        notes: Vec::new(alloc),
        amiss: false,
    })
}

/// What there is to tell of a configuration of hxeval with this content.
fn what_to_tell(
    alloc: Global,
    env: &[(Vec<u8>, Vec<u8>)],
    content: &[u8],
) -> Result<Written, NoMemory>
    ensures { IfOk result (λ written. outcome_view (Some written)
        ≡ outcome_by WhatToTell (pairs_of env.now) [] content.now) }
{
    let text = lint(alloc, env, content)?;
    let amiss = !text.is_empty();
    Ok(Written {
        text,
        notes: Vec::new(alloc),
        amiss,
    })
}

/// Writes the text, and then the notes.
#[tactic(auto, using(crate::proofs::RunLemmas::nothing_appended, crate::proofs::RunLemmas::all_appended))]
fn write<K: Sink, N: Sink>(written: &Written, out: &mut K, notes: &mut N) -> Result<(), SinkFault>
    ensures ok { OnOk result
        (Appends (K.written out.old) (K.written out.new) written.now.text.items
        × Appends (N.written notes.old) (N.written notes.new) written.now.notes.items) }
    ensures text { AppendsPrefix (K.written out.old) (K.written out.new) written.now.text.items }
    ensures notes { AppendsPrefix (N.written notes.old) (N.written notes.new)
        written.now.notes.items }
    ensures failed { IsErrOf result SinkFault.Failed
        → Rose (K.faults out.old) (K.faults out.new)
        ⊎ Rose (N.faults notes.old) (N.faults notes.new) }
{
    write_all(out, written.text.as_slice())?;
    write_all(notes, written.notes.as_slice())
}
