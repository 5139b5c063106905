//! The engine: it goes through the events of a record, one by one, and answers each (a request by
//! the rules, a line of the management socket by its reply).
//!
//! `specs/World.antt` says what is known between two events, `specs/Steps.antt` what an event makes
//! of it and what it is answered, and `specs/Answers.antt` how answers are written.
//!
//! ```
//! let mut engine = Engine::new(alloc, program, refs);
//! let answer = engine.step(&event, &mut maker)?; // answer.bytes() is `1 deny 403`, LF
//! ```
#![tactic(auto)]

mod answer;
mod connections;
mod engine;
mod evaluating;
mod fault;
mod heads;
mod judge;
pub mod laws;
mod replies;
mod requests;
mod verdicts;
mod world;

pub use answer::Answer;
pub use engine::Engine;
pub use fault::StepFault;
pub use judge::Judge;
