//! What `hxeval` does: it replays recorded traffic, requests and management commands, through the
//! rules of an HAProxy configuration, and writes each answer, and for `hxtrace` why each request
//! has its verdict; and what it tells on standard error of a run that ended.
//!
//! ```
//! let words = [b"run".to_vec(alloc)?, b"deny.cfg".to_vec(alloc)?];
//! let status = run(alloc, &words, &env, &mut files, &mut record, &mut out, &mut maker); // 0
//! ```
#![tactic(auto)]

mod command;
mod counted_engine;
pub mod explain;
mod generated;
pub mod laws;
mod replay_run;
pub mod run;
pub mod run_command;
mod run_fault;
pub mod tell;
mod traced_engine;

pub use command::{Command, Detail, Task, command_of};
pub use run_command::Ended;
pub use run_fault::RunFault;
