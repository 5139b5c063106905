//! The syntax of a configuration, as plain data: what its expressions fetch from a request, what
//! they make of it, its conditions and rules, and the lists that the syntax is made of. Definitions
//! say which arguments each fetch and each converter may have (`IsFetch`, `IsConv`, `IsExpr`).
//!
//! ```
//! let mut convs: Convs = Items::new(alloc);
//! convs.push(Conv::Lower)?;
//! convs.push(Conv::Field(1, Octets::copy(alloc, b":")?, None))?;
//! let last_host = Fetch::ReqHdr(Octets::copy(alloc, b"Host")?, Some(-1));
//! let expr = Expr { fetch: last_host, convs }; // req.hdr(Host,-1),lower,field(1,:)
//! ```
#![tactic(auto)]

mod action;
mod conv;
mod expr;
mod fetch;
mod items;
mod statement;
mod typing;
mod val;

pub use action::{Action, Format, Part, RedirectKind};
pub use conv::Conv;
pub use expr::{Convs, Expr};
pub use fetch::Fetch;
pub use items::Items;
pub use statement::{AclUse, Cond, Conj, Decl, Heads, Rule, Statement, Term, Texts};
pub use typing::kind_out;
pub use val::Val;
