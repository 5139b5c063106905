//! What the fetches of an expression find in a request, its connection and the variables.
//!
//! `specs/Fetches.antt` says for each fetch which occurrences it has, as the function
//! `occurrences_of`, and which of them an expression takes, as `chosen_of`.
//!
//! ```
//! let message = read_head(alloc, b"GET /a?b HTTP/1.1\r\n\r\n")?;
//! let world = World { message: &message, conn: &conn, vars: &vars };
//! let path = chosen(alloc, &Fetch::Path, &world)?; // Some(Sample::Str(..)) of `/a`
//! ```
#![tactic(auto)]

mod fetching;
mod lines;
mod lookup;
mod occurrence_reader;
mod texts;
mod walks;
mod world;

pub use fetching::{chosen, is_found, occurrences};
pub use lookup::has_one_occurrence;
pub use occurrence_reader::OccurrenceReader;
pub use world::{Conn, World};
