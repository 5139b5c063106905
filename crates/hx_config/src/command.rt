ghost use Rattle.std.specs.Prelude.{◌≡◌, option_map};
ghost use Rattle.hx_program.specs.Machine.{texts_of};
ghost use Rattle.hx_config.specs.Command.{command_of, request_of};

use hx_text::read_number;

/// What a command asks for.
#[derive(Clone, Copy)]
pub enum Task<'a> {
    /// `frontends`: what takes traffic in the file
    Frontends,
    /// `frontend`: the configuration of the frontend of this name, where TLS comes in at this port
    Frontend {
        name: &'a [u8],
        tls: Option<&'a [u8]>,
    },
    /// `lint`: what there is to tell of a configuration of hxeval
    Lint,
}

/// A command over a file.
#[derive(Clone, Copy)]
pub struct Command<'a> {
    pub task: Task<'a>,
    /// the name of the file
    pub file: &'a [u8],
}

/// The command of these words: `frontends FILE`, `lint FILE`, `frontend NAME FILE`, or
/// `frontend NAME FILE --tls PORT`. None exactly where they are none of these.
pub fn command_of(words: &[Vec<u8>]) -> Option<Command<'_>>
    ensures { option_map request_of result ≡ command_of (texts_of words.now) }
{
    match words {
        [word, file] if word.as_slice() == b"frontends".as_slice() => Some(Command {
            task: Task::Frontends,
            file: file.as_slice(),
        }),
        [word, file] if word.as_slice() == b"lint".as_slice() => Some(Command {
            task: Task::Lint,
            file: file.as_slice(),
        }),
        [word, name, file] if word.as_slice() == b"frontend".as_slice() => Some(Command {
            task: Task::Frontend {
                name: name.as_slice(),
                tls: None,
            },
            file: file.as_slice(),
        }),
        [word, name, file, option, port]
            if word.as_slice() == b"frontend".as_slice()
                && option.as_slice() == b"--tls".as_slice()
                && read_number(port.as_slice(), 65_535).is_some() => {
            Some(Command {
                task: Task::Frontend {
                    name: name.as_slice(),
                    tls: Some(port.as_slice()),
                },
                file: file.as_slice(),
            })
        }
        _ => None,
    }
}
