ghost use Rattle.std.specs.Prelude.{◌≡◌, IfOk};
ghost use Rattle.std.specs.String.{string_bytes};
ghost use Rattle.hx_run.specs.Outcome.{last_line};
ghost use Rattle.hx_run.specs.RunFault.{fault_end, fault_status};

use hx_load::LoadFault;
use hx_outside::{FileFault, SinkFault};
use hx_replay::ReplayFault;
use std::alloc::{AllocError, Global};

/// Why a run ended before its record did.
#[derive(Clone, Copy, PartialEq, Eq)]
pub enum RunFault {
    /// The configuration is refused: this line, counted from 1, has a fault with this code.
    ConfigRefused { line: u64, code: u32 },
    /// The record is refused, at this offset and with this code.
    RecordRefused { offset: u64, code: u32 },
    /// The configuration, a file that it names, or the trace that is checked could not be read.
    Files,
    /// The record could not be read.
    Source,
    /// An answer, or what a check found, could not be written.
    Sink,
    /// A regular expression is too large.
    TooLarge,
    NoMemory,
}

impl RunFault {
    /// The exit status of a run that ends so.
    pub fn status(&self) -> u8
        ensures { result ≡ fault_status self.now }
    {
        match self {
            RunFault::ConfigRefused { .. } => 3,
            RunFault::RecordRefused { .. } => 4,
            RunFault::Files => 5,
            RunFault::Source => 5,
            RunFault::Sink => 6,
            RunFault::TooLarge => 8,
            RunFault::NoMemory => 7,
        }
    }

    /// The line that is written of a refusal; of any other fault, nothing.
    pub fn last_line(&self, alloc: Global) -> Result<String, AllocError>
        ensures { IfOk result (λ line. string_bytes line ≡ last_line (fault_end self.now)) }
    {
        match self {
            RunFault::ConfigRefused { line, code } => {
                format!(in alloc; "config {line} {code}\n")
            }
            RunFault::RecordRefused { offset, code } => {
                format!(in alloc; "record {offset} {code}\n")
            }
            RunFault::Files => Ok(String::new(alloc)),
            RunFault::Source => Ok(String::new(alloc)),
            RunFault::Sink => Ok(String::new(alloc)),
            RunFault::TooLarge => Ok(String::new(alloc)),
            RunFault::NoMemory => Ok(String::new(alloc)),
        }
    }
}

impl From<FileFault> for RunFault {
    ghost use Rattle.std.specs.Prelude.{◌≡◌};
    ghost use Rattle.hx_run.specs.RunFault.{fault_of_file};

    ghost from_gives = { λ fault given. given ≡ fault_of_file fault };

    fn from(fault: FileFault) -> RunFault {
        match fault {
            FileFault::Failed => RunFault::Files,
            FileFault::NoMemory => RunFault::NoMemory,
        }
    }
}

impl From<LoadFault> for RunFault {
    ghost use Rattle.std.specs.Prelude.{◌≡◌};
    ghost use Rattle.hx_run.specs.RunFault.{load_fault};

    ghost from_gives = { λ fault given. given ≡ load_fault fault };

    fn from(fault: LoadFault) -> RunFault {
        match fault {
            LoadFault::Refused { line, code } => RunFault::ConfigRefused { line, code },
            LoadFault::Failed => RunFault::Files,
            LoadFault::TooLarge => RunFault::TooLarge,
            LoadFault::NoMemory => RunFault::NoMemory,
        }
    }
}

impl From<ReplayFault> for RunFault {
    ghost use Rattle.std.specs.Prelude.{◌≡◌};
    ghost use Rattle.hx_run.specs.RunFault.{replay_fault};

    ghost from_gives = { λ fault given. given ≡ replay_fault fault };

    fn from(fault: ReplayFault) -> RunFault {
        match fault {
            ReplayFault::RecordRefused { offset, code } => RunFault::RecordRefused { offset, code },
            ReplayFault::Source => RunFault::Source,
            ReplayFault::Sink => RunFault::Sink,
            ReplayFault::TooLarge => RunFault::TooLarge,
            ReplayFault::NoMemory => RunFault::NoMemory,
        }
    }
}

impl From<SinkFault> for RunFault {
    ghost use Rattle.std.specs.Prelude.{◌≡◌};
    ghost use Rattle.hx_run.specs.RunFault.{sink_fault};

    ghost from_gives = { λ fault given. given ≡ sink_fault fault };

    fn from(fault: SinkFault) -> RunFault {
        match fault {
            SinkFault::Failed => RunFault::Sink,
            SinkFault::NoMemory => RunFault::NoMemory,
        }
    }
}
