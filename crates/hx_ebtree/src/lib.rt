//! A radix tree whose nodes lie in the slots of a pool.
#![tactic(auto)]

mod bits;
mod exact;
mod insert;
mod key;
mod key_bytes;
pub mod laws;
mod longest;
mod node;
mod parts;
mod place;
mod pop;
mod remove;
mod seek;
mod tree;

pub use key::BitKey;
pub use node::Node;
pub use tree::Tree;
