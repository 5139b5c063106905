//! The head of an HTTP request: its reader, the message that it gives, edits of the message, and
//! its text.
//!
//! ```
//! let (mut message, len) = read_head(alloc, b"GET /p?q HTTP/1.1\r\nHost: h\r\n\r\nbody")?;
//! assert_eq!(rt; len, 30);
//! assert!(rt; message.path() == Some(b"/p"));
//! assert!(rt; message.query() == Some(b"q"));
//! assert!(rt; message.header(0) == Some((b"Host", b"h")));
//! message.set_path(b"/r")?;
//! message.set_header(b"host", b"i")?;
//! assert!(rt; message.target() == b"/r?q");
//! assert!(rt; message.header(0) == Some((b"host", b"i")));
//! ```
//!
//! `specs/Head.antt` says what the bytes of a request begin with, as the function `head_of`,
//! `specs/Target.antt` what the path and the query of a target are, `specs/Edits.antt` what each
//! edit makes of a message, and which fault refuses it, and `specs/Text.antt` what the lines of a
//! head are as a text.
#![tactic(auto)]

mod buffer;
mod edits;
mod fault;
mod head;
pub mod laws;
mod lines;
mod message;
mod reading;
mod spans;
mod target;
mod target_edits;
mod writing;

pub use fault::{EditFault, HeadFault};
pub use head::{read_head, read_head_in};
pub use message::Message;
