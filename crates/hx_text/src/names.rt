use crate::octets::Octets;

/// How long a variable lives and who shares it (HAProxy configuration manual 2.4, section 7.3.2,
/// `var`).
#[derive(Clone, Copy, PartialEq, Eq, PartialOrd, Ord)]
pub enum Scope {
    Proc,
    Sess,
    Txn,
    Req,
    Res,
}

/// The name of a variable: its scope, and its name without the scope. Names are ordered by their
/// scopes, and within a scope by their bytes.
#[derive(Drop, PartialEq, Eq, PartialOrd, Ord)]
pub struct VarName {
    pub scope: Scope,
    pub name: Octets,
}
