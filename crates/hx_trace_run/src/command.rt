ghost use Rattle.std.specs.Prelude.{◌≡◌, ◌↔◌, None, option_and_then};
ghost use Rattle.hx_program.specs.Machine.{texts_of};
ghost use Rattle.hx_trace_run.specs.Command.{checked_of, traced_of};
ghost use Rattle.hx_trace_run.specs.Words.{AreNoCommand, command_of, names_of};

use hx_run::{Command, Detail, Task};

/// What hxtrace is asked for.
#[derive(Clone, Copy)]
pub enum TraceCommand<'a> {
    /// `trace CONFIG`: a record is answered under the configuration, and why is told
    Trace(Command<'a>),
    /// `check CONFIG TRACE`: the trace of that name is compared with what `trace CONFIG` writes
    Check { config: &'a [u8], trace: &'a [u8] },
}

/// The command of these words, which are `trace CONFIG` or `check CONFIG TRACE`. None exactly where
/// they are neither.
pub fn command_of(words: &[Vec<u8>]) -> Option<TraceCommand<'_>>
    ensures trace { option_and_then traced_of result ≡ command_of (texts_of words.now) }
    ensures check { option_and_then checked_of result ≡ names_of (texts_of words.now) }
    ensures none { (result ≡ None) ↔ AreNoCommand (texts_of words.now) }
{
    match words {
        [word, name] if word.as_slice() == b"trace".as_slice() => {
            Some(TraceCommand::Trace(Command {
                task: Task::Replay(Detail::Reasons),
                name: name.as_slice(),
            }))
        }
        [word, config, trace] if word.as_slice() == b"check".as_slice() => {
            Some(TraceCommand::Check {
                config: config.as_slice(),
                trace: trace.as_slice(),
            })
        }
        _ => None,
    }
}
