ghost use Rattle.std.specs.Prelude.{◌≡◌, ◌≤◌};
ghost use Rattle.hx_config.specs.RunFault.{fault_status};

use hx_outside::{FileFault, SinkFault};
use hx_text::NoMemory;

/// Why a run didn't write what was asked for.
#[derive(Clone, Copy)]
pub enum RunFault {
    /// The file has no frontend of the name.
    NoFrontend,
    /// The file couldn't be read.
    Files,
    /// Standard output or standard error failed.
    Sink,
    NoMemory,
}

impl RunFault {
    /// The exit status of a run that ends so.
    pub fn status(self) -> u8
        ensures status { result ≡ fault_status self }
        ensures large { 3 ≤ result }
    {
        match self {
            RunFault::NoFrontend => 3,
            RunFault::Files => 5,
            RunFault::Sink => 6,
            RunFault::NoMemory => 7,
        }
    }
}

impl From<FileFault> for RunFault {
    ghost use Rattle.std.specs.Prelude.{◌≡◌};
    ghost use Rattle.hx_config.specs.RunFault.{fault_of_file};

    ghost from_gives = { λ fault given. given ≡ fault_of_file fault };

    fn from(fault: FileFault) -> RunFault {
        match fault {
            FileFault::Failed => RunFault::Files,
            FileFault::NoMemory => RunFault::NoMemory,
        }
    }
}

impl From<SinkFault> for RunFault {
    ghost use Rattle.std.specs.Prelude.{◌≡◌};
    ghost use Rattle.hx_config.specs.RunFault.{sink_fault};

    ghost from_gives = { λ fault given. given ≡ sink_fault fault };

    fn from(fault: SinkFault) -> RunFault {
        match fault {
            SinkFault::Failed => RunFault::Sink,
            SinkFault::NoMemory => RunFault::NoMemory,
        }
    }
}

impl From<NoMemory> for RunFault {
    ghost use Rattle.std.specs.Prelude.{◌≡◌};
    ghost use Rattle.hx_config.specs.declared.run_fault.RunFault.TheVariants as fault;

    ghost from_gives = { λ _ given. given ≡ fault.NoMemory };

    fn from(_: NoMemory) -> RunFault {
        RunFault::NoMemory
    }
}
