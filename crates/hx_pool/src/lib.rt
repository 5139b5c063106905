//! Pools of slots, chains through their values, and counted steps.
//!
//! A pool takes memory in `reserve` alone. Every other call takes none, so it can't be refused.
//!
//! A function that is lent a counter of steps says in its contract how many steps it takes at most.
//! A caller that counts nothing needs two functions: one for any ledger, which makes a counter of
//! the blank that it is given, and one that gives it a blank of a new ledger.
//!
//! ```
//! fn find_from<L: Ledger>(keys: &[u64], key: u64, blank: Blank) -> Option<usize> {
//!     find(keys, key, &mut Steps::<L>::open(blank))
//! }
//! fn find_uncounted(keys: &[u64], key: u64) -> Option<usize> {
//!     find_from::<Brand>(keys, key, Blank::new(1))
//! }
//! ```
#![tactic(auto)]

mod chain;
mod chunk;
mod chunks;
pub mod laws;
mod links;
mod memory;
mod pool;
mod slot;
mod steps;

pub use chain::Chain;
pub use links::{Linked, Links};
pub use pool::Pool;
pub use steps::Steps;
