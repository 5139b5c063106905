ghost use Rattle.std.specs.Prelude.{◌≡◌};
ghost use Rattle.hx_core.specs.Faults.{stop_by};

use hx_sample::TableFault;
use hx_text::NoMemory;
use thiserror::Error;

/// Why an event has no answer.
#[derive(Clone, Copy, Debug, PartialEq, Eq, Error)]
pub enum StepFault {
    /// A request or an end of a connection that isn't open.
    #[error("the connection is not open")]
    UnknownConn,
    /// The opening of a connection that is open.
    #[error("the connection is open")]
    ConnOpen,
    /// A key that is added is a regular expression, and it is too large. The count of the maker
    /// that was lent rose.
    #[error("the regular expression is too large")]
    TooLarge,
    /// Memory ran out, which says nothing of the event.
    #[error("out of memory")]
    NoMemory,
}

impl StepFault {
    /// The fault with which an engine stops, where this one stops it.
    pub(crate) fn stop(self) -> Option<StepFault>
        ensures { result ≡ stop_by self }
    {
        match self {
            StepFault::UnknownConn => None,
            StepFault::ConnOpen => None,
            StepFault::TooLarge => Some(StepFault::TooLarge),
            StepFault::NoMemory => Some(StepFault::NoMemory),
        }
    }
}

impl From<NoMemory> for StepFault {
    ghost use Rattle.std.specs.Prelude.{◌≡◌};
    ghost use Rattle.hx_core.specs.declared.fault.StepFault.TheVariants as fault;

    ghost from_gives = { λ _ given. given ≡ fault.NoMemory };

    fn from(_: NoMemory) -> StepFault {
        StepFault::NoMemory
    }
}

impl From<TableFault> for StepFault {
    ghost use Rattle.std.specs.Prelude.{◌≡◌};
    ghost use Rattle.hx_core.specs.Faults.{fault_of_change};

    ghost from_gives = { λ fault given. given ≡ fault_of_change fault };

    fn from(fault: TableFault) -> StepFault {
        match fault {
            TableFault::TooLarge => StepFault::TooLarge,
            TableFault::NoMemory => StepFault::NoMemory,
        }
    }
}
