use hx_text::NoMemory;
use thiserror::Error;

/// Why a line is no command.
#[derive(Clone, Copy, Debug, PartialEq, Eq, Error)]
pub enum CommandFault {
    /// Its words are those of no command.
    #[error("no such command")]
    BadCommand,
    /// Memory ran out, which says nothing of the line.
    #[error("out of memory")]
    NoMemory,
}

impl From<NoMemory> for CommandFault {
    ghost use Rattle.std.specs.Prelude.{◌≡◌};
    ghost use Rattle.hx_cli.specs.declared.fault.CommandFault.TheVariants as fault;

    ghost from_gives = { λ _ given. given ≡ fault.NoMemory };

    fn from(_: NoMemory) -> CommandFault {
        CommandFault::NoMemory
    }
}
