//! The references that a configuration brings: they are declared with their numbers, and filled with
//! the entries of their files and inline patterns.
//!
//! `specs/References.antt` says which numbers and which entries the references have that lines
//! bring, `specs/Files.antt` which files are read for them, and `specs/FillResult.antt` what `fill`
//! answers.
//!
//! ```
//! let specs = speller.tables();
//! let mut refs = declare(alloc, &specs, Limits::usual())?;
//! known_tables(specs.as_slice())?;
//! fill(alloc, &mut files, &specs, &mut refs, &mut maker)?;
//! ```
#![tactic(auto)]

mod adding;
mod filling;
mod load_fault;
mod tables;

pub use filling::fill;
pub use load_fault::LoadFault;
pub use tables::{declare, known_tables};
