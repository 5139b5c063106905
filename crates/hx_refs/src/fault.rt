use hx_text::NoMemory;
use std::alloc::{AllocError, AllocFailed};
use thiserror::Error;

/// Why a call on references was refused.
#[derive(Clone, Copy, Debug, PartialEq, Eq, Error)]
pub enum RefFault {
    /// No reference has the number or the file.
    #[error("unknown reference")]
    UnknownRef,
    /// The reference has no version of the number.
    #[error("no such version")]
    BadVersion,
    /// No entry has the key or the number.
    #[error("key not found")]
    KeyNotFound,
    /// A use of the reference can't read the key as a pattern.
    #[error("the key is not a pattern")]
    BadPattern,
    /// The value isn't of a type in which it is to be read.
    #[error("the value can't be read")]
    BadValue,
    /// The entries of the reference have no values.
    #[error("the reference is no map")]
    NeedsMap,
    /// The entries of the reference have values.
    #[error("the reference is used as a map")]
    UsedAsMap,
    /// The version has as many entries as it may have.
    #[error("the version is full")]
    VersionFull,
    /// The version has had as many additions as it may have.
    #[error("the version is worn")]
    VersionWorn,
    /// As many versions are prepared as there may be.
    #[error("no more versions")]
    NoMoreVersions,
    /// A regular expression is too large. The count of the maker that was lent rose.
    #[error("the regular expression is too large")]
    TooLarge,
    /// Memory ran out, which says nothing of the arguments.
    #[error("out of memory")]
    NoMemory,
}

impl From<NoMemory> for RefFault {
    ghost use Rattle.std.specs.Prelude.{◌≡◌};
    ghost use Rattle.hx_refs.specs.declared.fault.RefFault.TheVariants as fault;

    ghost from_gives = { λ _ given. given ≡ fault.NoMemory };

    fn from(_: NoMemory) -> RefFault {
        RefFault::NoMemory
    }
}

impl From<AllocError> for RefFault {
    ghost use Rattle.std.specs.Prelude.{◌≡◌};
    ghost use Rattle.hx_refs.specs.declared.fault.RefFault.TheVariants as fault;

    ghost from_gives = { λ _ given. given ≡ fault.NoMemory };

    fn from(_: AllocError) -> RefFault {
        RefFault::NoMemory
    }
}

impl<T: Drop> From<AllocFailed<T>> for RefFault {
    ghost use Rattle.std.specs.Prelude.{◌≡◌};
    ghost use Rattle.hx_refs.specs.declared.fault.RefFault.TheVariants as fault;

    ghost from_gives = { λ _ given. given ≡ fault.NoMemory };

    fn from(_failed: AllocFailed<T>) -> RefFault {
        RefFault::NoMemory
    }
}
