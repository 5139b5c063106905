//! Loading of a configuration: its lines, the statements that they spell, the references that they
//! bring, and the entries of files and inline patterns.
//!
//! `specs/Loads.antt` says what a configuration loads as, as the relation `Loads` and the function
//! `loaded`, and what its lines alone bring (`LinesBring`). References are declared and filled by
//! `hx_filling`.
//!
//! ```
//! let limits = Limits::usual();
//! let (program, refs) = load(alloc, config, &env, &mut files, &mut maker, limits)?;
//! let (same_program, without_entries) = load_lines(alloc, config, &env, &mut maker, limits)?;
//! ```
#![tactic(auto)]

pub mod laws;
mod line_fault;
mod line_loader;
mod lines;
mod loader;
mod statements;

pub use hx_filling::LoadFault;
pub use line_loader::load_lines;
pub use loader::load;
