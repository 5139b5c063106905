//! The rules of a frontend: how they are built from statements, and what they make of a request.
//!
//! `specs/Verdicts.antt` says what rules make of a request, as the function `evaluation`,
//! `specs/Deciding.antt` which statement decides it, as the function `deciding_of`,
//! `specs/Judged.antt` in which state that statement is judged, and `specs/Rewrites.antt`,
//! `specs/Locations.antt` and `specs/Formats.antt` what rewrites, redirects and formats make of its
//! head.
//!
//! ```
//! let mut program = Program::new(alloc);
//! program.push(&statement, &mut maker)?; // http-request set-header X-Client %[src]
//! let verdict = evaluate(
//!     alloc, &program, &mut message, &conn, &mut vars, &mut tables, &mut maker, &mut steps,
//! )?; // Verdict::Pass { backend: None }
//! ```
#![tactic(auto)]

mod action;
mod actions;
mod backends;
mod building;
mod changes;
mod deciding;
mod evaluating;
mod format;
mod formats;
pub mod laws;
mod locations;
mod owning;
mod pattern;
mod program;
mod replacing;
mod request;
mod rewrites;
mod strings;
mod taking;
mod typing;
mod verdict;

pub use deciding::{Decided, Deciding, When};
pub use evaluating::{decide, evaluate};
pub use program::Program;
pub use verdict::Verdict;
