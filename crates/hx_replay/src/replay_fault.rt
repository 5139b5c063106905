use hx_outside::SinkFault;
use hx_record::RecordFault;
use hx_text::NoMemory;
use thiserror::Error;

/// Why a replay ended before its record did.
#[derive(Clone, Copy, Debug, PartialEq, Eq, Error)]
pub enum ReplayFault {
    /// The record is refused, at this offset and with this code.
    #[error("the record is refused at offset {offset} with code {code}")]
    RecordRefused { offset: u64, code: u32 },
    /// The record could not be read. The source's count of faults rose.
    #[error("the record can't be read")]
    Source,
    /// An answer could not be written. The sink's count of faults rose.
    #[error("an answer can't be written")]
    Sink,
    /// A regular expression is too large. The count of the maker that was lent rose.
    #[error("the regular expression is too large")]
    TooLarge,
    /// Memory ran out, which says nothing of the record.
    #[error("out of memory")]
    NoMemory,
}

impl From<RecordFault> for ReplayFault {
    ghost use Rattle.std.specs.Prelude.{◌≡◌};
    ghost use Rattle.hx_replay.specs.Gathering.{fault_of_reader};

    ghost from_gives = { λ fault given. given ≡ fault_of_reader fault };

    fn from(fault: RecordFault) -> ReplayFault {
        match fault {
            RecordFault::Bad { offset, code } => ReplayFault::RecordRefused { offset, code },
            RecordFault::Failed => ReplayFault::Source,
            RecordFault::NoMemory => ReplayFault::NoMemory,
        }
    }
}

impl From<SinkFault> for ReplayFault {
    ghost use Rattle.std.specs.Prelude.{◌≡◌};
    ghost use Rattle.hx_replay.specs.Gathering.{fault_of_sink};

    ghost from_gives = { λ fault given. given ≡ fault_of_sink fault };

    fn from(fault: SinkFault) -> ReplayFault {
        match fault {
            SinkFault::Failed => ReplayFault::Sink,
            SinkFault::NoMemory => ReplayFault::NoMemory,
        }
    }
}

impl From<NoMemory> for ReplayFault {
    ghost use Rattle.std.specs.Prelude.{◌≡◌};
    ghost use Rattle.hx_replay.specs.declared.replay_fault.ReplayFault.TheVariants as fault;

    ghost from_gives = { λ _ given. given ≡ fault.NoMemory };

    fn from(_: NoMemory) -> ReplayFault {
        ReplayFault::NoMemory
    }
}
