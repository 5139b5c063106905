//! The versions of references that had additions, with their entries, in slots of memory that all
//! references share: what a version has, how it is searched and changed, and which slots are given
//! back. `specs/Rows.antt` says what callers see of a store, `specs/Versions.antt` what a version
//! is and which of its entries a call speaks of, `specs/NewEntries.antt` which entries are ready to
//! be appended, `specs/Costs.antt` how many slots a search reads, and `specs/Uses.antt` what a use
//! of a reference is. `specs/Store.antt` and `specs/Contents.antt` say how all this lies in slots.
#![tactic(auto)]

mod appending;
mod choice;
mod choosing;
mod content;
mod dismantling;
mod filling;
mod finding;
mod growing;
mod indexing;
mod kept_text;
mod lowering;
mod node_numbers;
mod placing;
mod pools;
mod reaching;
mod reading;
mod retiring;
mod slots;
mod store;
mod stored_entry;
mod stored_version;
mod uses;
mod values;
mod version_entries;

pub use choice::Choice;
pub use content::NewEntry;
pub use kept_text::KeptText;
pub use node_numbers::NodeNumbers;
pub use slots::Slots;
pub use store::{NewEntries, Store};
pub use uses::{KeptUse, use_in_order, use_with};
pub use version_entries::Entries;
