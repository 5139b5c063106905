use crate::test::Test;
use hx_text::Octets;
use std::marker::Model;

/// The ACL of a term: by its name, or what it tests where it stands in the condition itself.
pub(crate) enum TermAcl {
    Named(Octets),
    Own(Test),
}

// Written out, so that letting one go is one call in the proofs of callers.
impl Drop for TermAcl {
    fn drop(self) {
        match self {
            TermAcl::Named(_it) => (),
            TermAcl::Own(_it) => (),
        }
    }
}

/// A term of a condition: its ACL, and whether the term holds where the ACL doesn't. Contracts see
/// it as the term that it was built from.
pub(crate) struct TestTerm {
    pub(crate) negated: bool,
    pub(crate) acl: TermAcl,
}

// Written out, so that letting one go is one call in the proofs of callers.
impl Drop for TestTerm {
    fn drop(self) {
        let TestTerm {
            negated: _negated,
            acl: _acl,
        } = self;
    }
}

impl Model for TestTerm {
    ghost use Rattle.hx_ast.specs.declared.statement.Term.{Term};

    ghost Value = { Term };

    ghost use Rattle.hx_acl.specs.TermView.{use_of};

    ghost view = { λ term. record { negated = term.negated; acl = use_of term.acl } };
}
