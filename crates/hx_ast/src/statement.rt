use crate::action::{Action, Format};
use crate::expr::Expr;
use crate::items::Items;
use hx_text::{By, Octets};

/// The numbers of the heads by which a declaration looks up its patterns, in their order.
pub type Heads = Items<u32>;

/// Texts, in their order.
pub type Texts = Items<Octets>;

/// The terms of a conjunction: it holds where each of them does.
pub type Conj = Items<Term>;

/// The conjunctions of a condition: it holds where one of them does.
pub type Cond = Items<Conj>;

/// An ACL: samples, and the patterns that they are compared with (HAProxy configuration manual 2.4,
/// section 7.1). It has the inline patterns twice: as they are written, and under the last of its
/// heads.
pub struct Decl {
    /// gives the samples
    pub expr: Expr,
    /// the match method
    pub by: By,
    /// whether the inline patterns ignore the case of letters
    pub ci: bool,
    /// what the samples are looked up in
    pub heads: Heads,
    /// the inline patterns
    pub words: Texts,
}

// Written out, so that letting one go is one call in the proofs of callers.
impl Drop for Decl {
    fn drop(self) {
        let Decl {
            expr: _expr,
            by: _by,
            ci: _ci,
            heads: _heads,
            words: _words,
        } = self;
    }
}

/// The ACL of a term.
pub enum AclUse {
    /// the ACL of this name: one that is declared, or else one that is predefined
    Named(Octets),
    /// one that stands in the condition itself, in braces
    Own(Decl),
}

// Written out, so that letting one go is one call in the proofs of callers.
impl Drop for AclUse {
    fn drop(self) {
        match self {
            AclUse::Named(_it) => (),
            AclUse::Own(_it) => (),
        }
    }
}

/// A term of a condition (HAProxy configuration manual 2.4, section 7.2).
pub struct Term {
    /// whether the term holds where the ACL doesn't
    pub negated: bool,
    /// its ACL
    pub acl: AclUse,
}

// Written out, so that letting one go is one call in the proofs of callers.
impl Drop for Term {
    fn drop(self) {
        let Term {
            negated: _negated,
            acl: _acl,
        } = self;
    }
}

/// A rule: an action, and when it is taken.
pub struct Rule {
    /// the number of its line in the configuration, counted from 1
    pub line: u64,
    /// what it does
    pub action: Action,
    /// whether it is taken where the condition doesn't hold, as with `unless`
    pub unless: bool,
    /// when it is taken, and always without one
    pub cond: Option<Cond>,
}

// Written out, so that letting one go is one call in the proofs of callers.
impl Drop for Rule {
    fn drop(self) {
        let Rule {
            line: _line,
            action: _action,
            unless: _unless,
            cond: _cond,
        } = self;
    }
}

/// What a line of a configuration says.
pub enum Statement {
    /// nothing that changes a rule, as a line without words
    Plain,
    /// `acl NAME CRITERION [FLAG..] [PATTERN..]`: one of the declarations of the ACL NAME
    Acl {
        /// the number of its line in the configuration, counted from 1
        line: u64,
        /// NAME
        name: Octets,
        /// what it declares
        decl: Decl,
    },
    /// `http-request ACTION [if|unless CONDITION]`
    Rule(Rule),
    /// `redirect ..`: tried after the rules of `http-request`; its action is `Action::Redirect`
    Redirect(Rule),
    /// `use_backend FORMAT [if|unless CONDITION]`: what the format gives is the backend
    Backend {
        /// the number of its line in the configuration, counted from 1
        line: u64,
        /// FORMAT
        format: Format,
        /// whether it is taken where the condition doesn't hold, as with `unless`
        unless: bool,
        /// when it is taken, and always without one
        cond: Option<Cond>,
    },
    /// `default_backend NAME`: the backend where no other is taken
    Fallback {
        /// the number of its line in the configuration, counted from 1
        line: u64,
        /// NAME
        name: Octets,
    },
}

// Written out, so that letting one go is one call in the proofs of callers.
impl Drop for Statement {
    fn drop(self) {
        match self {
            Statement::Plain => (),
            Statement::Acl {
                line: _line,
                name: _name,
                decl: _decl,
            } => (),
            Statement::Rule(_it) => (),
            Statement::Redirect(_it) => (),
            Statement::Backend {
                line: _line,
                format: _format,
                unless: _unless,
                cond: _cond,
            } => (),
            Statement::Fallback {
                line: _line,
                name: _name,
            } => (),
        }
    }
}
