use hx_ast::RedirectKind;
use hx_text::VarName;

/// The names of actions (HAProxy configuration manual 2.4, section 4.2).
pub(crate) const ACTIONS: [(&[u8], ActionName); 19] = [
    (b"allow", ActionName::Bare(BareAction::Allow)),
    (b"deny", ActionName::Bare(BareAction::Deny)),
    (b"set-header", ActionName::Bare(BareAction::SetHeader)),
    (b"add-header", ActionName::Bare(BareAction::AddHeader)),
    (b"del-header", ActionName::Bare(BareAction::DelHeader)),
    (
        b"replace-header",
        ActionName::Bare(BareAction::ReplaceHeader),
    ),
    (b"replace-value", ActionName::Bare(BareAction::ReplaceValue)),
    (b"set-method", ActionName::Bare(BareAction::SetMethod)),
    (b"set-uri", ActionName::Bare(BareAction::SetUri)),
    (b"set-path", ActionName::Bare(BareAction::SetPath)),
    (b"set-query", ActionName::Bare(BareAction::SetQuery)),
    (b"set-var", ActionName::OfVariable(VariableAction::Set)),
    (b"unset-var", ActionName::OfVariable(VariableAction::Unset)),
    (b"add-acl", ActionName::OfFile(FileAction::AddAcl)),
    (b"del-acl", ActionName::OfFile(FileAction::DelAcl)),
    (b"del-map", ActionName::OfFile(FileAction::DelMap)),
    (b"set-map", ActionName::OfFile(FileAction::SetMap)),
    (b"redirect", ActionName::Bare(BareAction::Redirect)),
    (b"strict-mode", ActionName::Bare(BareAction::StrictMode)),
];

/// The kinds of redirects.
pub(crate) const KINDS: [(&[u8], RedirectKind); 3] = [
    (b"location", RedirectKind::Location),
    (b"prefix", RedirectKind::Prefix),
    (b"scheme", RedirectKind::Scheme),
];

/// The words of a switch.
pub(crate) const SWITCHES: [(&[u8], bool); 2] = [(b"on", true), (b"off", false)];

/// An action by its name, in groups of like arguments in parentheses.
#[derive(Clone, Copy)]
pub(crate) enum ActionName {
    Bare(BareAction),
    OfVariable(VariableAction),
    OfFile(FileAction),
}

/// An action without parentheses.
#[derive(Clone, Copy)]
pub(crate) enum BareAction {
    Allow,
    Deny,
    SetHeader,
    AddHeader,
    DelHeader,
    ReplaceHeader,
    ReplaceValue,
    SetMethod,
    SetUri,
    SetPath,
    SetQuery,
    Redirect,
    StrictMode,
}

/// An action with a variable in parentheses.
#[derive(Clone, Copy)]
pub(crate) enum VariableAction {
    Set,
    Unset,
}

/// An action with a file in parentheses.
#[derive(Clone, Copy)]
pub(crate) enum FileAction {
    AddAcl,
    DelAcl,
    DelMap,
    SetMap,
}

/// An action by its word: its name, and what stands in its parentheses. A file is given by the
/// position of its reference.
#[derive(Drop)]
pub(crate) enum ActionHead {
    Bare(BareAction),
    OfVariable(VariableAction, VarName),
    OfFile(FileAction, u32),
}
