ghost use Rattle.std.specs.Prelude.{◌≡◌, IfOk};
ghost use Rattle.std.specs.String.{string_bytes};
ghost use Rattle.hx_diff.specs.Outcome.{config_line, last_line};
ghost use Rattle.hx_diff.specs.RunFault.{fault_end, fault_status, load_fault};

use hx_load::LoadFault;
use hx_replay::ReplayFault;
use std::alloc::{AllocError, Global};

/// One of the two configurations.
#[derive(Clone, Copy, PartialEq, Eq)]
pub enum Side {
    Old,
    New,
}

/// Why a run ended before its record did.
#[derive(Clone, Copy, PartialEq, Eq)]
pub enum RunFault {
    /// A configuration is refused: this line, counted from 1, has a fault with this code.
    ConfigRefused { side: Side, line: u64, code: u32 },
    /// The record is refused, at this offset and with this code.
    RecordRefused { offset: u64, code: u32 },
    /// A configuration, or a file that one names, could not be read.
    Files,
    /// The record could not be read.
    Source,
    /// A difference could not be written.
    Sink,
    /// A regular expression is too large.
    TooLarge,
    NoMemory,
}

impl RunFault {
    /// The fault of a run whose configuration on this side isn't loaded.
    pub fn of_load(side: Side, fault: LoadFault) -> RunFault
        ensures { result ≡ load_fault side fault }
    {
        match fault {
            LoadFault::Refused { line, code } => RunFault::ConfigRefused { side, line, code },
            LoadFault::Failed => RunFault::Files,
            LoadFault::TooLarge => RunFault::TooLarge,
            LoadFault::NoMemory => RunFault::NoMemory,
        }
    }

    /// The exit status of a run that ends so.
    pub fn status(&self) -> u8
        ensures { result ≡ fault_status self.now }
    {
        match self {
            RunFault::ConfigRefused { .. } => 3,
            RunFault::RecordRefused { .. } => 4,
            RunFault::Files => 5,
            RunFault::Source => 5,
            RunFault::Sink => 6,
            RunFault::TooLarge => 8,
            RunFault::NoMemory => 7,
        }
    }

    /// The line that is written of a refusal; of any other fault, nothing.
    pub fn last_line(&self, alloc: Global) -> Result<String, AllocError>
        ensures { IfOk result (λ line. string_bytes line ≡ last_line (fault_end self.now)) }
    {
        match self {
            RunFault::ConfigRefused { side, line, code } => {
                config_line(alloc, *side, *line, *code)
            }
            RunFault::RecordRefused { offset, code } => {
                format!(in alloc; "record {offset} {code}\n")
            }
            RunFault::Files => Ok(String::new(alloc)),
            RunFault::Source => Ok(String::new(alloc)),
            RunFault::Sink => Ok(String::new(alloc)),
            RunFault::TooLarge => Ok(String::new(alloc)),
            RunFault::NoMemory => Ok(String::new(alloc)),
        }
    }
}

/// The line that is written of a configuration that is refused.
fn config_line(alloc: Global, side: Side, line: u64, code: u32) -> Result<String, AllocError>
    ensures { IfOk result (λ text. string_bytes text ≡ config_line side line code) }
{
    match side {
        Side::Old => format!(in alloc; "old {line} {code}\n"),
        Side::New => format!(in alloc; "new {line} {code}\n"),
    }
}

impl From<ReplayFault> for RunFault {
    ghost use Rattle.std.specs.Prelude.{◌≡◌};
    ghost use Rattle.hx_diff.specs.RunFault.{replay_fault};

    ghost from_gives = { λ fault given. given ≡ replay_fault fault };

    fn from(fault: ReplayFault) -> RunFault {
        match fault {
            ReplayFault::RecordRefused { offset, code } => RunFault::RecordRefused { offset, code },
            ReplayFault::Source => RunFault::Source,
            ReplayFault::Sink => RunFault::Sink,
            ReplayFault::TooLarge => RunFault::TooLarge,
            ReplayFault::NoMemory => RunFault::NoMemory,
        }
    }
}
