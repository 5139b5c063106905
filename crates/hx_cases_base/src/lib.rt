//! What the programs of cases share: lines with their calls, arguments, and how values are written.
#![tactic(auto)]

mod answering;
mod arguments;
mod fault;
mod line;
mod showing;
mod state;

pub use crate::answering::{Calls, answers};
pub use crate::arguments::{
    address, byte, id, kind, number, numbers, occurrence, pairs, port, sample, signed, size,
    variable,
};
pub use crate::fault::CaseFault;
pub use crate::line::{show, show_option, show_pair};
pub use crate::showing::{show_address, show_all, show_occurrence};
pub use crate::state::{State, connection_case, request_case, vars_case};
