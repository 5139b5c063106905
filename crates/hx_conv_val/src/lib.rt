//! The converters of numbers, addresses and encodings, from `iif` to `sha2` (HAProxy configuration
//! manual 2.4, section 7.3.1): built once from the syntax, and applied to samples.
//!
//! `specs/Converters.antt` says for each converter what it makes of a value, as the function
//! `value_conv_of`.
//!
//! ```
//! let add = build_val(alloc, &Conv::Add(Val::Number(1)))?;
//! let next = apply(alloc, &add, Sample::Int(41), conn, &vars)?; // Some(Sample::Int(42))
//! ```
#![tactic(auto)]

mod address;
mod applying;
mod built;
mod encoding;
mod form;
mod hex_number;
mod input;
pub mod laws;
mod number;

pub use applying::apply;
pub use built::{ValConv, build_val};
