//! The words of a line of configuration, and the calls that a word spells.
//!
//! ```
//! let words = split(alloc, &env, b"http-request deny if { req.hdr(host),lower -m sub example }")?;
//! let spelled = words.word(4).unwrap_or(b"");
//! let calls = calls(alloc, spelled, None)?;
//! let host = calls.call(0).and_then(|call| call.arg(0));
//! ```
//!
//! `split` cuts a line into words (HAProxy configuration manual 2.4, section 2.2). `calls` reads
//! the calls in a text, each a name with arguments in parentheses (sections 7.1 and 7.3);
//! `next_call` reads the first alone. How arguments are quoted is this project's own.
//!
//! `laws` has what pins the definitions: `line_law` for words, `call_law` for calls.
#![tactic(auto)]

mod argument;
mod call;
mod call_list;
mod calling;
mod fault;
pub mod laws;
mod parts;
mod quoting;
mod splitting;
mod stepping;
mod token;
mod variable;
mod words;

pub use call::{Call, CallStep};
pub use call_list::Calls;
pub use calling::calls;
pub use fault::{ArgFault, WordFault};
pub use splitting::split;
pub use stepping::next_call;
pub use words::Words;
