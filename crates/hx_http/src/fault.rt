use hx_text::NoMemory;
use std::alloc::AllocError;
use thiserror::Error;

/// Why a request's bytes gave no message.
#[derive(Clone, Copy, Debug, PartialEq, Eq, Error)]
pub enum HeadFault {
    /// The bytes do not begin with the head of a request.
    #[error("not the head of a request")]
    NotAHead,
    /// The bytes begin with a head, and it has more header lines than the limit of 101.
    #[error("more than 101 header lines")]
    TooManyHeaders,
    /// An allocation was refused.
    #[error("out of memory")]
    NoMemory,
}

impl From<AllocError> for HeadFault {
    ghost use Rattle.std.specs.Prelude.{◌≡◌};
    ghost use Rattle.hx_http.specs.declared.fault.HeadFault.TheVariants.{NoMemory};

    ghost from_gives = { λ _ fault. fault ≡ NoMemory };

    fn from(_: AllocError) -> HeadFault {
        HeadFault::NoMemory
    }
}

impl From<NoMemory> for HeadFault {
    ghost use Rattle.std.specs.Prelude.{◌≡◌};
    ghost use Rattle.hx_http.specs.declared.fault.HeadFault.TheVariants.{NoMemory};

    ghost from_gives = { λ _ fault. fault ≡ NoMemory };

    fn from(_: NoMemory) -> HeadFault {
        HeadFault::NoMemory
    }
}

/// Why an edit of a message was refused.
#[derive(Clone, Copy, Debug, PartialEq, Eq, Error)]
pub enum EditFault {
    /// The text has a byte that may not stand where it is to stand, or isn't of the form that it
    /// needs there.
    #[error("bytes that are not allowed")]
    BadBytes,
    /// The message would have more header lines than the limit of 101.
    #[error("more than 101 header lines")]
    TooMany,
    /// The target has no path, and isn't `*`.
    #[error("the target has no path")]
    NoPath,
    /// An allocation was refused.
    #[error("out of memory")]
    NoMemory,
}

impl From<AllocError> for EditFault {
    ghost use Rattle.std.specs.Prelude.{◌≡◌};
    ghost use Rattle.hx_http.specs.declared.fault.EditFault.TheVariants.{NoMemory};

    ghost from_gives = { λ _ fault. fault ≡ NoMemory };

    fn from(_: AllocError) -> EditFault {
        EditFault::NoMemory
    }
}

impl From<NoMemory> for EditFault {
    ghost use Rattle.std.specs.Prelude.{◌≡◌};
    ghost use Rattle.hx_http.specs.declared.fault.EditFault.TheVariants.{NoMemory};

    ghost from_gives = { λ _ fault. fault ≡ NoMemory };

    fn from(_: NoMemory) -> EditFault {
        EditFault::NoMemory
    }
}
