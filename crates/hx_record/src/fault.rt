use hx_outside::Failed;
use hx_text::NoMemory;
use std::alloc::AllocError;
use thiserror::Error;

/// Why a reader gives no event.
#[derive(Clone, Copy, Debug, PartialEq, Eq, Error)]
pub enum RecordFault {
    /// The record is refused at this offset, with the code of a `RecordRefusal`: 1, an unknown
    /// first word, a wrong number of words, an address that can't be read, or a byte other than LF
    /// after a request; 2, a number that isn't digits or is above its limit; 3, a request that the
    /// record's end cuts; 4, a record longer than the reader's limit; 5, a line of more than 65,536
    /// bytes.
    #[error("the record is refused at byte {offset} with code {code}")]
    Bad { offset: u64, code: u32 },
    /// The source failed. Its count of faults rose in this call.
    #[error("reading the record failed")]
    Failed,
    /// Memory ran out.
    #[error("out of memory")]
    NoMemory,
}

impl From<AllocError> for RecordFault {
    ghost use Rattle.std.specs.Prelude.{◌≡◌};
    ghost use Rattle.hx_record.specs.declared.fault.RecordFault.TheVariants.{NoMemory};

    ghost from_gives = { λ _ fault. fault ≡ NoMemory };

    fn from(_: AllocError) -> RecordFault {
        RecordFault::NoMemory
    }
}

impl From<Failed> for RecordFault {
    ghost use Rattle.std.specs.Prelude.{◌≡◌};
    ghost use Rattle.hx_record.specs.declared.fault.RecordFault.TheVariants.{Failed};

    ghost from_gives = { λ _ fault. fault ≡ Failed };

    fn from(_: Failed) -> RecordFault {
        RecordFault::Failed
    }
}

impl From<NoMemory> for RecordFault {
    ghost use Rattle.std.specs.Prelude.{◌≡◌};
    ghost use Rattle.hx_record.specs.declared.fault.RecordFault.TheVariants.{NoMemory as OutOfMemory};

    ghost from_gives = { λ _ fault. fault ≡ OutOfMemory };

    fn from(_: NoMemory) -> RecordFault {
        RecordFault::NoMemory
    }
}
