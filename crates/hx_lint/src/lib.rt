//! What there is to tell of a configuration before it goes live: lines that aren't taken, lines
//! that HAProxy is known to answer otherwise, and variables that no line sets.
//!
//! ```
//! let text = lint(alloc, &env, b"acl a req.hdr_val(X) lt 3\nhttp-request dney if a\n")?;
//! // 1 differs header-as-number
//! // 2 refused 9 Unsupported dney
//! ```
//!
//! `lint` reads all lines (`judging`), and asks of each statement which topics it shows (`topics`):
//! each is a row of docs/manual/haproxy.md, with its anchor as its name, and a definition over the
//! statement and its words.
#![tactic(auto)]

mod acl_topics;
mod action_topics;
mod criterion_topics;
mod expr_topics;
mod features;
mod judging;
pub mod laws;
mod refused_word;
mod report;
mod spelling;
mod texts;
mod topics;
mod variables;
mod walks;

pub use acl_topics::AclTopic;
pub use action_topics::{ActionTopic, ByteClass};
pub use criterion_topics::CriterionTopic;
pub use expr_topics::ExprTopic;
pub use features::Feature;
pub use judging::{JudgedLine, Judgement};
pub use report::lint;
pub use spelling::push_line;
pub use texts::{first_text, is_among};
pub use topics::Topic;
