//! The lists that a request's lines hold: the values of a header line, the cookies of a `Cookie`
//! line and the parameters of a target. Each is an iterator that lends its parts from the line,
//! takes no memory, and goes over the line once.
//!
//! ```
//! assert!(rt; hdr_values(b"a, \"b,c\"").nth(1) == Some(b"\"b,c\""));
//! assert!(rt; cookies(b"id=1; lang=en").next() == Some((b"id", b"1")));
//! assert!(rt; cookies(b"id=1; lang=en").count() == 2);
//! assert!(rt; params(b"/search?q=x&page=2", None).last() == Some((b"page", b"2")));
//! ```
#![tactic(auto)]

ghost use Rattle.std.specs.Prelude.{◌≡◌, ◌+◌, ◌≤◌, length};
ghost use Rattle.hx_lists.specs.NamedValues.{cookies, params};

mod blanks;
mod header;
pub mod laws;
mod named;
mod pairs;

pub use blanks::cut_blanks;
pub use header::{HdrValues, first_hdr_piece, hdr_values};
pub use named::{Cookies, Params};

/// The cookies of a `Cookie` line, each a name and a value, in their order (RFC 6265, section
/// 4.2.1). The line is cut at each `;`. A piece that has `=` is a cookie: its name is what stands
/// before the first `=`, and its value what follows it, both without the blanks (space, tab) at
/// their ends. Other pieces are passed over. A name and a value may be empty.
#[tactic(auto, using(crate::proofs::LengthLemmas::lengths))]
pub fn cookies<'a>(line: &'a [u8]) -> Cookies<'a>
    ensures list { result ≡ cookies line.now }
    // What `count` asks for.
    ensures short { length result ≤ length line.now + 1 }
{
    Cookies::of_line(line)
}

/// The parameters of a target, each a name and a value, in their order (HAProxy configuration
/// manual 2.4, section 7.3.6). They follow the first `?`, or where `delim` is given the first byte
/// that is `?` or `delim`, and are cut at `&`, `;` and `delim`. A piece that has `=` is a
/// parameter: its name is what stands before the first `=`, and its value what follows it. Other
/// pieces are passed over. Nothing is decoded, and a target in which no parameters begin has none.
#[tactic(auto, using(crate::proofs::LengthLemmas::lengths))]
pub fn params<'a>(target: &'a [u8], delim: Option<u8>) -> Params<'a>
    ensures list { result ≡ params target.now delim }
    // What `count` asks for.
    ensures short { length result ≤ length target.now + 1 }
{
    Params::of_target(target, delim)
}
