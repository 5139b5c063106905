use crate::expr::Expr;
use crate::items::Items;
use hx_text::{Octets, VarName};

/// A part of a format.
pub enum Part {
    /// bytes that stand for themselves
    Text(Octets),
    /// `%[EXPR]`: the value of an expression as a string, and nothing where it has none
    Value(Expr),
}

// Written out, so that letting one go is one call in the proofs of callers.
impl Drop for Part {
    fn drop(self) {
        match self {
            Part::Text(_it) => (),
            Part::Value(_it) => (),
        }
    }
}

/// A text in which values of a request are filled in: its parts, in their order (HAProxy
/// configuration manual 2.4, section 8.2.4).
pub type Format = Items<Part>;

/// What the location of a redirect is made of (HAProxy configuration manual 2.4, section 4.2,
/// `redirect`).
#[derive(Clone, Copy)]
pub enum RedirectKind {
    /// `location`: the format alone
    Location,
    /// `prefix`: the format, and then the target from its path on
    Prefix,
    /// `scheme`: the format, `://`, the host, and then the target from its path on
    Scheme,
}

/// What a rule of `http-request` does (HAProxy configuration manual 2.4, section 4.2): a variant
/// for each action, whose fields are its arguments in their order. An argument that may be missing
/// is an option, and a word that may be there is a boolean.
pub enum Action {
    /// `allow`: the rules of `http-request` end
    Allow,
    /// `deny [status N]`: the request is denied with the status N, 403 without it
    Deny(Option<u16>),
    /// `set-header NAME FMT`: the header NAME has this one line, at the end
    SetHeader(Octets, Format),
    /// `add-header NAME FMT`: one more line of the header NAME, at the end
    AddHeader(Octets, Format),
    /// `del-header NAME`: all lines of the header NAME go
    DelHeader(Octets),
    /// `replace-header NAME RE FMT`: in each line of the header NAME that the regular expression RE
    /// matches, the value is what FMT makes of the match
    ReplaceHeader(Octets, Octets, Format),
    /// `replace-value NAME RE FMT`: the same of each value between commas
    ReplaceValue(Octets, Octets, Format),
    /// `set-method FMT`: the method is replaced
    SetMethod(Format),
    /// `set-uri FMT`: the target is replaced
    SetUri(Format),
    /// `set-path FMT`: the path of the target is replaced
    SetPath(Format),
    /// `set-query FMT`: the query of the target is replaced
    SetQuery(Format),
    /// `set-var(NAME) EXPR`: the variable NAME is set
    SetVar(VarName, Expr),
    /// `unset-var(NAME)`: the variable NAME is unset
    UnsetVar(VarName),
    /// `add-acl(FILE) FMT`: a pattern is added to FILE, whose position among the references is the
    /// first field
    AddAcl(u32, Format),
    /// `del-acl(FILE) FMT`: a pattern is deleted from FILE
    DelAcl(u32, Format),
    /// `del-map(FILE) FMT`: a key is deleted from FILE
    DelMap(u32, Format),
    /// `set-map(FILE) KFMT VFMT`: a key of FILE has the value VFMT
    SetMap(u32, Format, Format),
    /// `redirect KIND FMT [code N] [drop-query]`: the client is sent elsewhere, with the status N,
    /// 302 without it, and without the query where the last field is true
    Redirect(RedirectKind, Format, Option<u16>, bool),
    /// `strict-mode on|off`: whether a rewrite that fails ends the request with an error
    StrictMode(bool),
}

// Written out, so that letting one go is one call in the proofs of callers.
impl Drop for Action {
    fn drop(self) {
        match self {
            Action::Allow => (),
            Action::Deny(_it) => (),
            Action::SetHeader(_first, _second) => (),
            Action::AddHeader(_first, _second) => (),
            Action::DelHeader(_it) => (),
            Action::ReplaceHeader(_first, _second, _third) => (),
            Action::ReplaceValue(_first, _second, _third) => (),
            Action::SetMethod(_it) => (),
            Action::SetUri(_it) => (),
            Action::SetPath(_it) => (),
            Action::SetQuery(_it) => (),
            Action::SetVar(_first, _second) => (),
            Action::UnsetVar(_it) => (),
            Action::AddAcl(_first, _second) => (),
            Action::DelAcl(_first, _second) => (),
            Action::DelMap(_first, _second) => (),
            Action::SetMap(_first, _second, _third) => (),
            Action::Redirect(_first, _second, _third, _fourth) => (),
            Action::StrictMode(_it) => (),
        }
    }
}
