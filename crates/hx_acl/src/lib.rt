//! ACLs and conditions: when the declarations of ACLs match, and when the conditions of rules hold.
//!
//! `specs/Matching.antt` says when a declaration matches, `specs/Predefined.antt` which ACLs are
//! predefined, and `specs/Holds.antt` when a condition holds, as the function `cond_holds`.
//! `specs/Grounds.antt` says by which of its conjunctions, and by what each term of it does.
//!
//! ```
//! let mut acls = AclSet::new(alloc);
//! acls.declare(b"api", &decl, &mut maker)?; // path_beg /api
//! let condition = Condition::build(alloc, &cond, &mut maker)?; // api !METH_GET
//! let world = World { message: &message, conn: &conn, vars: &vars };
//! let holds = condition.holds(alloc, &acls, &world, &tables, &mut steps)?; // true for a POST
//! ```
#![tactic(auto)]

mod acl_set;
mod building;
mod condition;
mod explaining;
pub mod laws;
mod matching;
mod predefined;
mod term;
mod test;
mod typing;

pub use acl_set::AclSet;
pub use condition::Condition;
pub use explaining::{Ground, Held};
pub use typing::{is_cond_typed, is_decl_typed};
