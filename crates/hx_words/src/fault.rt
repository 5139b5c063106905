ghost use Rattle.std.specs.Prelude.{◌≡◌};
ghost use Rattle.hx_words.specs.Fault.{word_fault_code, arg_fault_code};

use hx_text::NoMemory;
use std::alloc::{AllocError, AllocFailed};
use thiserror::Error;

/// Why a line has no words.
#[derive(Clone, Copy, Debug, PartialEq, Eq, Error)]
pub enum WordFault {
    /// The line ends inside a quote.
    #[error("the line ends inside a quote")]
    OpenQuote,
    /// `\x` stands outside single quotes without two hex digits after it.
    #[error("two hex digits are missing after \\x")]
    BadEscape,
    /// `$` stands in double quotes and neither `NAME` nor `{NAME}` follows it.
    #[error("a variable's name is missing after $")]
    BadVariable,
    /// The line has more than 256 words.
    #[error("more than 256 words")]
    TooManyWords,
    /// Memory ran out, which says nothing of the line.
    #[error("out of memory")]
    NoMemory,
}

impl WordFault {
    /// The number of a line's fault, from 1 to 4. Out of memory is no fault of a line, and has
    /// none.
    pub fn code(self) -> Option<u8>
        ensures { result ≡ word_fault_code self }
    {
        match self {
            WordFault::OpenQuote => Some(1),
            WordFault::BadEscape => Some(2),
            WordFault::BadVariable => Some(3),
            WordFault::TooManyWords => Some(4),
            WordFault::NoMemory => None,
        }
    }
}

impl From<AllocError> for WordFault {
    ghost use Rattle.std.specs.Prelude.{◌≡◌};
    ghost use Rattle.hx_words.specs.declared.fault.WordFault.TheVariants as words;

    ghost from_gives = { λ _ fault. fault ≡ words.NoMemory };

    fn from(_: AllocError) -> WordFault {
        WordFault::NoMemory
    }
}

impl<T: Drop> From<AllocFailed<T>> for WordFault {
    ghost use Rattle.std.specs.Prelude.{◌≡◌};
    ghost use Rattle.hx_words.specs.declared.fault.WordFault.TheVariants as words;

    ghost from_gives = { λ _ fault. fault ≡ words.NoMemory };

    fn from(_failed: AllocFailed<T>) -> WordFault {
        WordFault::NoMemory
    }
}

impl From<NoMemory> for WordFault {
    ghost use Rattle.std.specs.Prelude.{◌≡◌};
    ghost use Rattle.hx_words.specs.declared.fault.WordFault.TheVariants as words;

    ghost from_gives = { λ _ fault. fault ≡ words.NoMemory };

    fn from(_: NoMemory) -> WordFault {
        WordFault::NoMemory
    }
}

/// Why a text of calls has no calls.
#[derive(Clone, Copy, Debug, PartialEq, Eq, Error)]
pub enum ArgFault {
    /// `)` is missing, or the stop byte is: the text ends before it, and not inside a quote.
    #[error("the text ends where a call isn't closed")]
    Unclosed,
    /// Neither a comma nor the stop byte follows the parentheses of a call.
    #[error("a comma is missing after the parentheses of a call")]
    AfterClose,
    /// `\x` stands in an argument outside single quotes without two hex digits after it.
    #[error("two hex digits are missing after \\x in an argument")]
    BadEscape,
    /// The text ends inside a quote.
    #[error("the text ends inside a quote")]
    OpenQuote,
    /// Memory ran out, which says nothing of the text.
    #[error("out of memory")]
    NoMemory,
}

impl ArgFault {
    /// The number of a text's fault, from 5 to 8. Out of memory is no fault of a text, and has
    /// none.
    pub fn code(self) -> Option<u8>
        ensures { result ≡ arg_fault_code self }
    {
        match self {
            ArgFault::Unclosed => Some(5),
            ArgFault::AfterClose => Some(6),
            ArgFault::BadEscape => Some(7),
            ArgFault::OpenQuote => Some(8),
            ArgFault::NoMemory => None,
        }
    }
}

impl From<AllocError> for ArgFault {
    ghost use Rattle.std.specs.Prelude.{◌≡◌};
    ghost use Rattle.hx_words.specs.declared.fault.ArgFault.TheVariants as arguments;

    ghost from_gives = { λ _ fault. fault ≡ arguments.NoMemory };

    fn from(_: AllocError) -> ArgFault {
        ArgFault::NoMemory
    }
}

impl<T: Drop> From<AllocFailed<T>> for ArgFault {
    ghost use Rattle.std.specs.Prelude.{◌≡◌};
    ghost use Rattle.hx_words.specs.declared.fault.ArgFault.TheVariants as arguments;

    ghost from_gives = { λ _ fault. fault ≡ arguments.NoMemory };

    fn from(_failed: AllocFailed<T>) -> ArgFault {
        ArgFault::NoMemory
    }
}

impl From<NoMemory> for ArgFault {
    ghost use Rattle.std.specs.Prelude.{◌≡◌};
    ghost use Rattle.hx_words.specs.declared.fault.ArgFault.TheVariants as arguments;

    ghost from_gives = { λ _ fault. fault ≡ arguments.NoMemory };

    fn from(_: NoMemory) -> ArgFault {
        ArgFault::NoMemory
    }
}
