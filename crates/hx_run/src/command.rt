ghost use Rattle.std.specs.Prelude.{◌≡◌, option_map};
ghost use Rattle.hx_program.specs.Machine.{texts_of};
ghost use Rattle.hx_run.specs.Command.{asked_of};
ghost use Rattle.hx_run.specs.Run.{command_of, task_of};

/// What is written of a request.
#[derive(Clone, Copy, PartialEq, Eq)]
pub enum Detail {
    /// the lines that answer it
    Verdicts,
    /// and after them the line that tells why it has its verdict
    Reasons,
}

/// What a command asks for.
#[derive(Clone, Copy, PartialEq, Eq)]
pub enum Task {
    /// `run` and `trace`: the record is answered under the configuration
    Replay(Detail),
    /// `check` of hxeval: the configuration is judged alone
    Check,
}

/// A command over a configuration.
#[derive(Clone, Copy)]
pub struct Command<'a> {
    pub task: Task,
    /// the name of the configuration
    pub name: &'a [u8],
}

/// The task of a first word, if it has one.
fn task_of(word: &[u8]) -> Option<Task>
    ensures { result ≡ task_of word.now }
{
    if word == b"run".as_slice() {
        Some(Task::Replay(Detail::Verdicts))
    } else if word == b"check".as_slice() {
        Some(Task::Check)
    } else {
        None
    }
}

/// The command of these words, which are `run CONFIG` or `check CONFIG`. None exactly where they
/// are neither.
pub fn command_of(words: &[Vec<u8>]) -> Option<Command<'_>>
    ensures { option_map asked_of result ≡ command_of (texts_of words.now) }
{
    match words {
        [word, name] => {
            let task = task_of(word.as_slice())?;
            Some(Command {
                task,
                name: name.as_slice(),
            })
        }
        _ => None,
    }
}
