//! What `hxtrace` does: it replays recorded traffic as `hxeval` does, and writes after the lines of
//! each request why it has its verdict; it compares a trace with what it would write; and it tells
//! on standard error why a run ended.
//!
//! ```
//! let words = [b"trace".to_vec(alloc)?, b"deny.cfg".to_vec(alloc)?];
//! let status = run_trace(alloc, &words, &env, &mut files, &mut record, &mut out, &mut maker); // 0
//! ```
#![tactic(auto)]

mod agreement;
pub mod check;
mod checking_engine;
mod command;
pub mod explain;
pub mod laws;
mod record_check;
mod run;
pub mod tell;

pub use agreement::Finding;
pub use command::{TraceCommand, command_of};
pub use run::{run_trace, run_trace_to_end};
