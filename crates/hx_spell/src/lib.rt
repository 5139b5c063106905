//! The statements of a configuration, as the words of its lines spell them.
//!
//! ```
//! let mut speller = Speller::new(alloc)?;
//! let words = split(alloc, &env, b"acl admin path -m beg /admin")?;
//! let admin = speller.line(1, &words)?;
//! let words = split(alloc, &env, b"http-request deny if admin !{ src -f office.lst }")?;
//! let rule = speller.line(2, &words)?;
//! let tables = speller.tables();
//! ```
//!
//! A frontend's lines declare ACLs, give the rules that a request meets and choose backends; some
//! change nothing, and all others are refused. A `Speller` keeps what the lines so far bring: the
//! references, which are the files and the inline patterns, the heads, which are the ways in which
//! references are searched, and the names of ACLs. `SpellLine` is the relation between a line's
//! statement and its words, and `line_of` the same as a function with the codes of other words.
#![tactic(auto)]

mod action_heads;
mod action_table;
mod actions;
mod conditions;
mod declarations;
mod flag_table;
mod flags;
pub mod laws;
mod line;
mod patterns;
mod probes;
mod speller;
mod taken;

pub use hx_calls::{ConvName, FetchName, HeadSpec, MapOutput, SpellFault, TableSpec, TableSpecs};
pub use probes::PROBES;
pub use speller::Speller;
