//! Patterns of the match methods: texts that are read once, and the samples that they hit.
//!
//! `specs/Patterns.antt` says which texts are patterns and why the others are none. What a pattern
//! hits is `hits` of `hx_sample`, which reads the text each time. A caller that looks for an
//! address in a network:
//!
//! ```
//! let net = parse(alloc, By::Ip, false, b"10.0.0.0/8", &mut PlainMaker::new())?;
//! let hit = hits(alloc, &net, &Sample::Ip(Ip::V4(0x0a01_0203)))?; // true
//! ```
#![tactic(auto)]

mod components;
mod form;
mod hitting;
pub mod laws;
mod needle;
mod networks;
mod parsing;
mod pattern;
mod periods;
mod ranges;
mod search;
mod texts;

pub use hitting::hits;
pub use parsing::parse;
pub use pattern::Pattern;
