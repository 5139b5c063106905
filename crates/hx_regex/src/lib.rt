//! Regular expressions that are searched many times: what a search sets up is kept for the next.
//!
//! ```
//! let made = PlainMaker::new().make(alloc, "^/admin/[0-9]+$", false)?;
//! let admin = RegularExpression::permanent(alloc, b"^/admin/[0-9]+$", false, made)?;
//! let hit = admin.is_match(alloc, b"/admin/7")?; // true
//! ```
#![tactic(auto)]

mod expression;
mod kept;

pub use expression::{RegularExpression, Search};
pub use kept::Kept;
