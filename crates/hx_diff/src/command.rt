ghost use Rattle.std.specs.Prelude.{◌≡◌, option_map};
ghost use Rattle.hx_program.specs.Machine.{texts_of};
ghost use Rattle.hx_diff.specs.Command.{asked_of};
ghost use Rattle.hx_diff.specs.Run.{command_of, command_of_four, is_why, task_of, with_reasons};

/// What is to be told of the answers of two configurations.
#[derive(Clone, Copy, PartialEq, Eq)]
pub enum Task {
    /// `lines`: the lines of each two answers that differ
    Lines,
    /// `lines` with `--why`: these, and after those of a request why it has its verdict
    Reasons,
    /// `counts`: how many requests have which two verdicts
    Counts,
}

/// A command over two configurations.
#[derive(Clone, Copy)]
pub struct Command<'a> {
    pub task: Task,
    /// the name of the old configuration
    pub old_name: &'a [u8],
    /// the name of the new one
    pub new_name: &'a [u8],
}

/// The task of a first word, if it has one.
fn task_of(word: &[u8]) -> Option<Task>
    ensures { result ≡ task_of word.now }
{
    if word == b"lines".as_slice() {
        Some(Task::Lines)
    } else if word == b"counts".as_slice() {
        Some(Task::Counts)
    } else {
        None
    }
}

/// Whether a word asks for reasons.
fn is_why(word: &[u8]) -> bool
    ensures { result ≡ is_why word.now }
{
    word == b"--why".as_slice()
}

/// The command with a first word and `--why` over these configurations, if it takes that.
fn with_reasons<'a>(word: &[u8], old_name: &'a [u8], new_name: &'a [u8]) -> Option<Command<'a>>
    ensures { option_map asked_of result ≡ with_reasons word.now old_name.now new_name.now }
{
    if word == b"lines".as_slice() {
        Some(Command {
            task: Task::Reasons,
            old_name,
            new_name,
        })
    } else {
        None
    }
}

/// The command of four words: the first one, and the names of both configurations with `--why`
/// before or after them.
fn command_of_four<'a>(
    word: &[u8],
    second: &'a [u8],
    third: &'a [u8],
    fourth: &'a [u8],
) -> Option<Command<'a>>
    ensures { option_map asked_of result
        ≡ command_of_four word.now second.now third.now fourth.now }
{
    if is_why(second) {
        with_reasons(word, third, fourth)
    } else if is_why(fourth) {
        with_reasons(word, second, third)
    } else {
        None
    }
}

/// The command of these words, which are `lines OLD NEW` or `counts OLD NEW`, or `lines OLD NEW`
/// with `--why` before the names or after them. None exactly where they are none of these.
pub fn command_of(words: &[Vec<u8>]) -> Option<Command<'_>>
    ensures { option_map asked_of result ≡ command_of (texts_of words.now) }
{
    match words {
        [word, old, new] => {
            let task = task_of(word.as_slice())?;
            Some(Command {
                task,
                old_name: old.as_slice(),
                new_name: new.as_slice(),
            })
        }
        [word, second, third, fourth] => command_of_four(
            word.as_slice(),
            second.as_slice(),
            third.as_slice(),
            fourth.as_slice(),
        ),
        _ => None,
    }
}
