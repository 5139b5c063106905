//! How programs of cases write syntax: what the words of a line spell.
//!
//! ```
//! show_statement(&mut out, &statement)?; // 1 acl [a] Path,Lower Beg-i 0[/b]
//! ```
#![tactic(auto)]

mod convs;
mod fetches;
mod statements;
mod words;

pub use statements::show_statement;
pub use words::method_word;
