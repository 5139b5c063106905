//! What `hxdiff` does: it replays recorded traffic, requests and management commands, through the
//! rules of two configurations, and writes where their answers differ; and what it tells on
//! standard error of a run that ended.
//!
//! ```
//! let mut out = MemSink::new(alloc, 4096, Vec::new(alloc));
//! let ended = run_diff(alloc, &words, &env, &mut files, &mut record, &mut out, &mut maker);
//! assert_eq!(ended.status, 1); // something differs
//! ```
#![tactic(auto)]

mod command;
mod compare;
mod detailed_answer;
mod difference;
mod engines;
pub mod explain;
mod report;
mod rows;
mod run;
mod run_fault;
mod tally;
pub mod tell;

pub use command::{Command, Task, command_of};
pub use run::{Ended, Reached, run_diff};
pub use run_fault::{RunFault, Side};
