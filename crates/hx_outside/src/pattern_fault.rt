ghost use Rattle.std.specs.Prelude.{◌≡◌};
ghost use Rattle.hx_outside.specs.PatternFaults.{pattern_fault_code};

use std::alloc::{AllocError, AllocFailed};
use thiserror::Error;

/// Why a text was not made into a regular expression.
#[derive(Clone, Copy, Debug, PartialEq, Eq, Error)]
pub enum ReFault {
    /// The text is no regular expression, or is nested deeper than is allowed.
    #[error("not a regular expression")]
    BadRegex,
    /// The expression is too large. The maker's count of such texts rose with this answer.
    #[error("the regular expression is too large")]
    TooLarge,
    /// Memory ran out, which says nothing of the text.
    #[error("out of memory")]
    NoMemory,
}

/// Why a text is no pattern of a match method.
#[derive(Clone, Copy, Debug, PartialEq, Eq, Error)]
pub enum PatFault {
    /// A number, or the part of a range that stands for one, is none of 64 bits with a sign.
    #[error("not a number or a range of numbers")]
    BadInt,
    /// The first number of a range is above the second.
    #[error("the range ends before it begins")]
    BadRange,
    /// The text is no address and no network.
    #[error("not an address or a network")]
    BadAddress,
    /// The text isn't an even number of hexadecimal digits.
    #[error("not an even number of hexadecimal digits")]
    BadHex,
    /// The text is no regular expression, or is nested deeper than is allowed.
    #[error("not a regular expression")]
    BadRegex,
    /// The regular expression is too large. The maker's count of such texts rose with this answer.
    #[error("the regular expression is too large")]
    TooLarge,
    /// The text of a regular expression isn't UTF-8.
    #[error("the regular expression is not UTF-8")]
    NotUtf8,
    /// Memory ran out, which says nothing of the text.
    #[error("out of memory")]
    NoMemory,
}

impl PatFault {
    /// The number of a pattern's fault, from 1 to 7. Out of memory is no fault of a pattern, and
    /// has none.
    pub fn code(self) -> Option<u8>
        ensures { result ≡ pattern_fault_code self }
    {
        match self {
            PatFault::BadInt => Some(1),
            PatFault::BadRange => Some(2),
            PatFault::BadAddress => Some(3),
            PatFault::BadHex => Some(4),
            PatFault::BadRegex => Some(5),
            PatFault::TooLarge => Some(6),
            PatFault::NotUtf8 => Some(7),
            PatFault::NoMemory => None,
        }
    }
}

impl From<ReFault> for PatFault {
    ghost use Rattle.std.specs.Prelude.{◌≡◌};
    ghost use Rattle.hx_outside.specs.PatternFaults.{pattern_fault};

    ghost from_gives = { λ fault given. given ≡ pattern_fault fault };

    /// The fault of a regular expression as that of the pattern that it stands in.
    fn from(fault: ReFault) -> PatFault {
        match fault {
            ReFault::BadRegex => PatFault::BadRegex,
            ReFault::TooLarge => PatFault::TooLarge,
            ReFault::NoMemory => PatFault::NoMemory,
        }
    }
}

impl From<AllocError> for ReFault {
    ghost use Rattle.std.specs.Prelude.{◌≡◌};
    ghost use Rattle.hx_outside.specs.declared.pattern_fault.ReFault.TheVariants.{NoMemory};

    ghost from_gives = { λ _ fault. fault ≡ NoMemory };

    fn from(_: AllocError) -> ReFault {
        ReFault::NoMemory
    }
}

impl From<AllocError> for PatFault {
    ghost use Rattle.std.specs.Prelude.{◌≡◌};
    ghost use Rattle.hx_outside.specs.declared.pattern_fault.PatFault.TheVariants.{NoMemory};

    ghost from_gives = { λ _ fault. fault ≡ NoMemory };

    fn from(_: AllocError) -> PatFault {
        PatFault::NoMemory
    }
}

impl<T: Drop> From<AllocFailed<T>> for PatFault {
    ghost use Rattle.std.specs.Prelude.{◌≡◌};
    ghost use Rattle.hx_outside.specs.declared.pattern_fault.PatFault.TheVariants.{NoMemory};

    ghost from_gives = { λ _ fault. fault ≡ NoMemory };

    fn from(_failed: AllocFailed<T>) -> PatFault {
        PatFault::NoMemory
    }
}
