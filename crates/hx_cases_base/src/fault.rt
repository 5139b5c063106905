use hx_text::NoMemory;
use std::alloc::{AllocError, AllocFailed};

/// Why a line has no answer of its call.
#[derive(Clone, Copy, PartialEq, Eq)]
pub enum CaseFault {
    /// No call has this name.
    UnknownCall,
    /// The call takes another number of arguments, or an argument isn't of the form that it takes.
    BadArguments,
    /// `%` without two hex digits or `-`, or `{` without a count, `*`, and `}`.
    BadEscape,
    /// Memory ran out.
    NoMemory,
}

impl CaseFault {
    /// The answer of such a line.
    pub fn text(self) -> &'static str {
        match self {
            CaseFault::UnknownCall => "unknown call",
            CaseFault::BadArguments => "bad arguments",
            CaseFault::BadEscape => "bad escape",
            CaseFault::NoMemory => "out of memory",
        }
    }
}

impl From<NoMemory> for CaseFault {
    fn from(_: NoMemory) -> CaseFault {
        CaseFault::NoMemory
    }
}

impl From<AllocError> for CaseFault {
    fn from(_: AllocError) -> CaseFault {
        CaseFault::NoMemory
    }
}

impl<T: Drop> From<AllocFailed<T>> for CaseFault {
    fn from(_failed: AllocFailed<T>) -> CaseFault {
        CaseFault::NoMemory
    }
}
