//! Samples: the typed values that rules work with. What a sample is, how it is owned and lent, to
//! which types it can be cast, the occurrences that a fetch finds, the variables that keep samples,
//! and the tables in which samples are looked up, and which rules change. `specs/Keys.antt` says
//! which keys hit a sample, `specs/Find.antt` which entry of a list is found, and
//! `specs/Changes.antt` what a change makes of a list.
//!
//! A caller that keeps a text in a variable and takes it out as a number:
//!
//! ```
//! let mut vars = Vars::new(alloc);
//! vars.set(conn, &name, own(alloc, &Sample::Str(Bytes::Lent(b"42")))?)?;
//! if let Some(value) = vars.get(conn, &name) {
//!     let number = cast(alloc, lend(value), Kind::Int)?; // Some(Sample::Int(42))
//! }
//! ```
#![tactic(auto)]

mod casting;
pub mod laws;
mod rooms;
mod sample;
mod samples;
mod sessions;
mod slots;
mod stored_variable;
mod tables;
mod vars;

pub use casting::cast;
pub use sample::{Bytes, Sample, Value, lend, own};
pub use samples::Samples;
pub use tables::{Change, EmptyTables, Hit, TableFault, Tables};
pub use vars::Vars;
