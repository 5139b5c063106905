ghost use Rattle.std.specs.Prelude.{◌≡◌};
ghost use Rattle.hx_replay.specs.Explanation.{code_of, number_of};

/// How a run ended, as a person is told it.
#[derive(Clone, Copy, PartialEq, Eq)]
pub enum Ending {
    /// A configuration is refused: this line, counted from 1, has a fault with this code.
    ConfigRefused { line: u64, code: u32 },
    /// The record is refused, at this offset and with this code.
    RecordRefused { offset: u64, code: u32 },
    /// A file can't be read, the one that was read last.
    UnreadFile,
    /// A regular expression is too large.
    TooLarge,
    /// The exit status says all.
    Other,
}

impl Ending {
    /// The numbers of a refusal: its line or its offset, and its code. Else zeros.
    pub(crate) fn numbers(self) -> (u64, u32)
        ensures number { result.0 ≡ number_of self }
        ensures code { result.1 ≡ code_of self }
    {
        match self {
            Ending::ConfigRefused { line, code } => (line, code),
            Ending::RecordRefused { offset, code } => (offset, code),
            Ending::UnreadFile => (0, 0),
            Ending::TooLarge => (0, 0),
            Ending::Other => (0, 0),
        }
    }
}
