//! What every program of this repository has beside its task: its words and variables, the texts
//! that it says of itself and of a run, files that keep what a fault is told with, and an output
//! that notes whether its reader has gone.
//!
//! ```
//! fn main(rt: HostRuntime) -> ExitCode {
//!     let alloc = rt.alloc();
//!     let (Ok(words), Ok(env)) = (
//!         arguments(alloc, &MachineArguments(&rt)),
//!         environment(alloc, &MachineEntries(&rt)),
//!     ) else {
//!         return ExitCode::from(7);
//!     };
//!     let mut out = StdSink::new(writer(&rt));
//!     match words.as_slice() {
//!         [word] if is_help(word) => ExitCode::from(say(&mut out, &[USAGE])),
//!         [word] if is_version(word) => ExitCode::from(say(&mut out, &version(b"copy", &env))),
//!         _ => run(rt, &words, &env),
//!     }
//! }
//! ```
#![tactic(auto)]

mod about;
mod codes;
mod known_files;
mod machine;
mod parts;
mod tables;
mod watched;

pub use about::{is_help, is_version, version};
pub use codes::{
    BAD_CONDITION, BAD_LINE, BAD_PATTERN, BAD_TYPE, BAD_VALUE, CONFIG_CODES, CUT_REQUEST,
    FILE_TOO_LONG, MISPLACED, RECORD_CODES, UNSUPPORTED,
};
pub use known_files::KnownFiles;
pub use machine::{
    IndexedTexts, MachineArguments, MachineEntries, MachineFault, arguments, environment,
};
pub use parts::{Parts, say, three_parts, write_parts};
pub use tables::{Row, meaning_of, text_of_status};
pub use watched::Watched;
