//! An input of a chosen size that a program makes for itself: a configuration, the files that it
//! names, and a record of requests and commands; and the summary of the answers to it.
//!
//! ```
//! fn answers_summarized(alloc: Global, size: u64) -> Result<String, NoMemory> {
//!     let GeneratedInput { files, record_bytes } = generated_input(alloc, size)?;
//!     let answers = run_over(alloc, config_name(), files, record_bytes)?;
//!     summary_text(alloc, size, answers.as_slice())
//! }
//! ```
#![tactic(auto)]

mod entries;
mod events;
mod files;
mod input;
mod new_version;
mod numbers;
mod record;
mod sizes;
mod summary;

pub use files::config_name;
pub use input::{GeneratedInput, generated_input};
pub use sizes::{GREATEST_SIZE, read_size};
pub use summary::summary_text;
