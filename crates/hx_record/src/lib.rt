//! The record: recorded traffic as lines and requests, read from a source in pieces of any size.
//!
//! LF or the record's end ends a line, and one CR before that is dropped. Empty lines and comments,
//! which begin with `#`, say nothing. Any other line is words, cut at each space:
//!
//! - `conn ID SRC SPORT DST DPORT`: a connection opens between two addresses with their ports;
//! - `req ID LEN`: a request, which is the LEN bytes after the line, with LF or the record's end
//!   after them;
//! - `close ID`: a connection closes;
//! - `cli SESSION TEXT`: a line of management, where TEXT is all that follows, if anything does.
//!
//! Numbers are decimal digits: ID and SESSION have 32 bits, ports 16, and LEN is 1,048,576 at most.
//! A line has 65,536 bytes at most before its LF. `RecordFault` has the codes of refusals. Of
//! several faults in a line, its length comes before its first word and the number of its words,
//! and those before its other words, the leftmost first. A record is too long where the byte at the
//! reader's limit is there and the bytes before it don't settle what comes next.
//!
//! ```text
//! let mut reader = Reader::new(rt.alloc(), 1 << 32);
//! while let Some(placed) = reader.next_event(&mut source)? {
//!     if let Event::Close { id } = placed.event {
//!         println!(rt; "{}: connection {id} closes", placed.offset);
//!     }
//! }
//! ```
#![tactic(auto)]

mod events;
mod fault;
mod find;
pub mod laws;
mod line;
mod memory;
mod piece;
mod reader;
mod refusal;
mod window;

pub use events::{Event, Next, Placed};
pub use fault::RecordFault;
pub use reader::Reader;
pub use refusal::RecordRefusal;
