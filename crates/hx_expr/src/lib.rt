//! Expressions: a fetch and converters, compiled once, and evaluated for each request.
//!
//! `specs/Types.antt` says which expressions have types that fit, and `specs/Values.antt` what the
//! value of an expression is, as the functions `expr_value` and `expr_values`.
//!
//! ```
//! let plan = compile(alloc, &expr, &mut PlainMaker::new())?; // req.hdr(Host),lower,field(1,:)
//! let world = World { message: &message, conn: &conn, vars: &vars };
//! if let Some(host) = eval(alloc, &plan, &world, &EmptyTables, &mut steps)? {
//!     // Some(Sample::Str(..)) of `shop.example`
//! }
//! ```
#![tactic(auto)]

mod building;
mod compiling;
mod copying;
mod evaluating;
mod fault;
pub mod laws;
mod map_default;
mod plan;
mod typing;

pub use compiling::compile;
pub use evaluating::{eval, eval_all, eval_occurrence};
pub use fault::PlanFault;
pub use plan::Plan;
pub use typing::{can_cast, is_typed};
