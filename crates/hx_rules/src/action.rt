ghost use Rattle.std.specs.Prelude.{◌≡◌};
ghost use Rattle.hx_rules.specs.RewriteView.{is_kept_rewrite};

use crate::format::BuiltFormat;
use crate::pattern::Pattern;
use hx_ast::RedirectKind;
use hx_expr::Plan;
use hx_text::{Octets, VarName};

/// An action that rewrites the head of the request.
pub(crate) enum Rewrite {
    SetHeader(Octets, BuiltFormat),
    AddHeader(Octets, BuiltFormat),
    DelHeader(Octets),
    ReplaceHeader(Octets, Pattern, BuiltFormat),
    ReplaceValue(Octets, Pattern, BuiltFormat),
    SetMethod(BuiltFormat),
    SetUri(BuiltFormat),
    SetPath(BuiltFormat),
    SetQuery(BuiltFormat),
}

// Written out, so that letting one go is one call in the proofs of callers.
impl Drop for Rewrite {
    fn drop(self) {
        match self {
            Rewrite::SetHeader(_first, _second) => (),
            Rewrite::AddHeader(_first, _second) => (),
            Rewrite::DelHeader(_it) => (),
            Rewrite::ReplaceHeader(_first, _second, _third) => (),
            Rewrite::ReplaceValue(_first, _second, _third) => (),
            Rewrite::SetMethod(_it) => (),
            Rewrite::SetUri(_it) => (),
            Rewrite::SetPath(_it) => (),
            Rewrite::SetQuery(_it) => (),
        }
    }
}

/// An action that changes the list at a position: a key is added, its entries are removed, or they
/// get a value, the last of the formats.
pub(crate) enum TableChange {
    AddAcl(u32, BuiltFormat),
    DelAcl(u32, BuiltFormat),
    DelMap(u32, BuiltFormat),
    SetMap(u32, BuiltFormat, BuiltFormat),
}

// Written out, so that letting one go is one call in the proofs of callers.
impl Drop for TableChange {
    fn drop(self) {
        match self {
            TableChange::AddAcl(_first, _second) => (),
            TableChange::DelAcl(_first, _second) => (),
            TableChange::DelMap(_first, _second) => (),
            TableChange::SetMap(_first, _second, _third) => (),
        }
    }
}

/// An action that sends the client elsewhere, with the status that it names, if it names one, and
/// with or without the query.
pub(crate) struct BuiltRedirect {
    pub(crate) kind: RedirectKind,
    pub(crate) format: BuiltFormat,
    pub(crate) status: Option<u16>,
    pub(crate) drop_query: bool,
}

// Written out, so that letting one go is one call in the proofs of callers.
impl Drop for BuiltRedirect {
    fn drop(self) {
        let BuiltRedirect {
            kind: _kind,
            format: _format,
            status: _status,
            drop_query: _drop_query,
        } = self;
    }
}

/// What a rule does, ready to be done. `specs/ProgramView.antt` says which action it stands for.
pub(crate) enum BuiltAction {
    Allow,
    Deny(Option<u16>),
    Rewrite(Rewrite),
    SetVar(VarName, Plan),
    UnsetVar(VarName),
    Change(TableChange),
    Redirect(BuiltRedirect),
    StrictMode(bool),
}

// Written out, so that letting one go is one call in the proofs of callers.
impl Drop for BuiltAction {
    fn drop(self) {
        match self {
            BuiltAction::Allow => (),
            BuiltAction::Deny(_it) => (),
            BuiltAction::Rewrite(_it) => (),
            BuiltAction::SetVar(_first, _second) => (),
            BuiltAction::UnsetVar(_it) => (),
            BuiltAction::Change(_it) => (),
            BuiltAction::Redirect(_it) => (),
            BuiltAction::StrictMode(_it) => (),
        }
    }
}

impl BuiltAction {
    /// Whether it rewrites the head of a request.
    pub(crate) fn is_rewrite(&self) -> bool
        ensures { result ≡ is_kept_rewrite self.now }
    {
        match self {
            BuiltAction::Rewrite(_) => true,
            _ => false,
        }
    }
}
