//! The references of a configuration: lists of patterns and maps, the ways in which they are
//! searched, their versions, and their entries. `specs/References.antt` says what references are,
//! `specs/Uses.antt` how they are used, `specs/Additions.antt` what an addition makes of them,
//! `specs/Changes.antt` what the other calls on entries and versions make of them,
//! `specs/TableChanges.antt` what a change that a rule asks for makes of them,
//! `specs/Naming.antt` which of them a word names, and `specs/FileLines.antt` which entries the
//! lines of a file give. `specs/Numbers.antt` says what holds of them at any time, and
//! `laws` what follows from the definitions. Their versions lie in a store of `hx_versions`.
#![tactic(auto)]

mod changing;
mod fault;
mod heads;
mod info;
mod judging;
mod kept_references;
mod kept_versions;
pub mod laws;
mod limits;
mod lines;
mod naming;
mod pairs;
mod reference;
mod refs;
mod side;
mod table_changes;
mod version_numbers;

pub use fault::RefFault;
pub use hx_versions::{Entries, Slots};
pub use info::RefInfo;
pub use limits::Limits;
pub use pairs::Pairs;
pub use refs::Refs;
pub use side::Side;
