use hx_text::NoMemory;
use thiserror::Error;

/// Why a configuration was not loaded.
#[derive(Clone, Copy, Debug, PartialEq, Eq, Error)]
pub enum LoadFault {
    /// This line, counted from 1, has a fault with this code.
    #[error("line {line} is refused with code {code}")]
    Refused { line: u64, code: u32 },
    /// A file that the configuration names could not be read.
    #[error("reading a file that the configuration names failed")]
    Failed,
    /// A regular expression is too large.
    #[error("a regular expression is too large")]
    TooLarge,
    /// Memory ran out, which says nothing of the configuration.
    #[error("out of memory")]
    NoMemory,
}

impl From<NoMemory> for LoadFault {
    ghost use Rattle.std.specs.Prelude.{◌≡◌};
    ghost use Rattle.hx_filling.specs.declared.load_fault.LoadFault.TheVariants as fault;

    ghost from_gives = { λ _ given. given ≡ fault.NoMemory };

    fn from(_: NoMemory) -> LoadFault {
        LoadFault::NoMemory
    }
}
