//! What a program reads and writes: sources, sinks and files, as traits whose contracts say which
//! bytes moved and count each fault, with fakes in memory that fail at chosen calls, a source and
//! files that log their reads, and adapters over std; and makers of regular expressions, whose
//! contracts say which expression a text is, and count each text that is too large.
//!
//! ```
//! fn copy<S: Source, K: Sink>(alloc: Global, from: &mut S, to: &mut K) -> Result<(), SinkFault> {
//!     match read_to_end(alloc, from, 65_536) {
//!         Ok(text) => write_all(to, text.as_slice()),
//!         Err(_) => write_all(to, b"the text could not be read"),
//!     }
//! }
//! ```
#![tactic(auto)]

mod dir_files;
mod fail_maker;
mod fault;
mod files;
mod log_files;
mod log_source;
mod mem_files;
mod mem_sink;
mod mem_source;
mod pattern_fault;
mod plain_maker;
mod re_maker;
mod sink;
mod source;
mod std_sink;
mod std_source;

pub use dir_files::DirFiles;
pub use fail_maker::FailMaker;
pub use fault::{Failed, FileFault, ReadFault, SinkFault};
pub use files::Files;
pub use log_files::LogFiles;
pub use log_source::LogSource;
pub use mem_files::MemFiles;
pub use mem_sink::MemSink;
pub use mem_source::MemSource;
pub use pattern_fault::{PatFault, ReFault};
pub use plain_maker::PlainMaker;
pub use re_maker::ReMaker;
pub use sink::{Sink, write_all};
pub use source::{Source, read_to_end};
pub use std_sink::StdSink;
pub use std_source::StdSource;
