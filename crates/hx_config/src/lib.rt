//! What `hxconfig` writes: the frontends of a whole configuration of HAProxy, and the configuration
//! of one of them in words that hxeval takes, every line at its number.
//!
//! ```text
//! $ hxconfig frontends haproxy.cfg
//! 12 frontend www
//! ```
#![tactic(auto)]

mod accounts;
mod addresses;
mod assembling;
mod command;
mod conditions;
mod configuration;
pub mod explain;
mod fate;
mod formats;
mod frontends;
mod guards;
pub mod laws;
mod left_out;
mod lines;
mod monitoring;
mod notes;
mod options;
mod proxies;
mod quoted;
mod redirects;
mod refusals;
mod removing;
mod replacing;
pub mod run;
mod run_fault;
mod said;
mod said_tables;
mod setting;
mod table;
mod titles;
mod words;

pub use command::{Command, Task, command_of};
