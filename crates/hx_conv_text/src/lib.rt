//! What the converters of texts make of a sample: letters changed, parts taken, variables put in,
//! matches replaced, URLs decoded.
//!
//! `specs/Converters.antt` says for each converter of the table what it makes of a value, as the
//! function `text_conv_of`. A converter is built once, and then applied to samples:
//!
//! ```
//! let conv = Conv::Field(2, Octets::copy(alloc, b".")?, None);
//! let field = build_text(alloc, &conv, &mut PlainMaker::new())?;
//! let host = Sample::Str(Bytes::Lent(b"www.example.org"));
//! let made = apply(alloc, &field, host, 1, &vars)?; // Some(Sample::Str(..)) of `example`
//! ```
#![tactic(auto)]

mod applying;
mod built;
mod conv;
mod cutting;
mod joining;
pub mod laws;
mod letters;
mod pieces;
mod replacing;
mod substitution;
mod texts;
mod url;

pub use conv::{TextConv, apply, build_text, made_regex};
pub use substitution::{expand, expand_by};
