//! The commands of the management socket: how they are spelled, what they make of the references,
//! and what they are answered (HAProxy management guide 2.4, section 9.3).
//!
//! `specs/CommandLine.antt` says what the words of a line are, `specs/Commands.antt` which words
//! spell a command, `specs/Replies.antt` what lines are told, `specs/Effects.antt` what comes of a
//! command, and `specs/Payloads.antt` what comes of a line of a session.
//!
//! ```
//! let mut sessions = Sessions::new(alloc);
//! let reply = sessions.line(1, b"show map b.map", &mut refs, &mut maker)?;
//! ```
#![tactic(auto)]

mod change_replies;
mod changing;
mod command;
mod effects;
mod fault;
mod finding;
mod keys;
pub mod laws;
mod payload;
mod payloads;
mod reading;
mod reply;
mod sessions;
mod showing;
mod sides;
mod texts;
mod words;

pub use command::Command;
pub use fault::CommandFault;
pub use reading::read_command;
pub use reply::Reply;
pub use sessions::Sessions;
pub use texts::{append_decimal, append_number};
