//! Why a request has its verdict: the line of the statement that decided it, the conjunction of its
//! condition that held, and what each term of that one held by.
//!
//! An `Explainer` judges the requests of an engine and tells this of each in a line of its own. A
//! `PlainExplainer` tells the same, over `PlainTables`, which look at all entries of each list.
//! `explain` answers it as a value, by the statements of a configuration that were spelled for it.
//!
//! `specs/Why.antt` says what is told of a request, and how it is written, and
//! `specs/Statements.antt` what the statements of a configuration are.
//!
//! ```
//! let mut engine = Engine::new(alloc, program, refs);
//! let mut explainer = Explainer::new(alloc);
//! let answer = engine.step_by(&event, &mut explainer, &mut maker)?;
//! // answer.bytes() is `1 deny 403`, LF, `> 3 1 #0/0x0000000000000001`, LF
//! ```
#![tactic(auto)]

mod explainer;
mod explaining;
mod kept_line;
pub mod laws;
mod numbers;
mod plain_explainer;
mod plain_tables;
mod ranks;
mod scanning;
mod statements;
mod text;
mod why;

pub use explainer::Explainer;
pub use plain_explainer::PlainExplainer;
pub use plain_tables::PlainTables;
pub use statements::{Explained, explain};
pub use why::{Reason, Reasons, Why};
