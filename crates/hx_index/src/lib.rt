//! Indexes: lists of patterns of one match method, in which the entry of a pattern is found.
//!
//! The patterns of an index lie in nodes of a pool, which many indexes share. An index keeps no
//! list of its own: its parts are a chain and trees through the links of the nodes. So it takes no
//! memory but for what `prepare` and the pool's `reserve` take.
//!
//! `specs/Index.antt` says what it is for an index to stand in the nodes for a list of items. Each
//! call speaks of every list for which the index stood before.
//!
//! ```
//! let prepared = prepare(alloc, By::Beg, false, b"/static/", &mut PlainMaker::new())?;
//! nodes.reserve(1)?;
//! let mut index = Index::new(By::Beg, false);
//! let node = index.put(&mut nodes, prepared, entry, steps);
//! let found = index.find(alloc, &nodes, &sample, steps)?;
//! index.drop_entry(&mut nodes, node, steps);
//! ```
#![tactic(auto)]

mod changing;
mod dismantling;
mod finding;
mod index;
mod keys;
pub mod laws;
mod part;
mod prepared;

pub use index::{Index, Nodes};
pub use prepared::{Prepared, prepare};
