ghost use Rattle.std.specs.Prelude.{◌≡◌, ◌↔◌, Contains, OnOk, IfOk, IsErrOf, true, false};
ghost use Rattle.std.specs.List.{All, list_all};
ghost use Rattle.hx_acl.specs.Expressions.{cond_has_expressions, cond_texts};
ghost use Rattle.hx_acl.specs.Holds.{HasAclHeads, HasAclsHeads, HasCondHeads, acl_holds, cond_holds, term_holds};
ghost use Rattle.hx_acl.specs.TermView.{use_of};
ghost use Rattle.hx_acl.specs.Typing.{is_cond_typed};
ghost use Rattle.hx_expr.specs.Faults.{CompileCountsLarge};
ghost use Rattle.hx_fetch.specs.World.{context_of};

use crate::acl_set::AclSet;
use crate::building::build_cond;
use crate::term::{TermAcl, TestTerm};
use crate::typing::is_cond_typed;
use hx_ast::{Cond, Items};
use hx_expr::PlanFault;
use hx_fetch::World;
use hx_outside::ReMaker;
use hx_pool::Steps;
use hx_sample::Tables;
use hx_text::NoMemory;
use std::alloc::Global;
use std::marker::Model;
use std::sync::ledger::Ledger;

/// A condition, ready to be evaluated (HAProxy configuration manual 2.4, section 7.2). Contracts
/// see it as its conjunctions, each the list of its terms.
pub struct Condition {
    pub(crate) conjs: Items<Items<TestTerm>>,
}

// Written out, so that letting one go is one call in the proofs of callers.
impl Drop for Condition {
    fn drop(self) {
        let Condition { conjs: _conjs } = self;
    }
}

impl Model for Condition {
    ghost use Rattle.std.specs.Prelude.{List};
    ghost use Rattle.hx_ast.specs.declared.statement.Term.{Term};

    ghost Value = { List (List Term) };

    ghost view = { λ condition. condition.conjs };
}

impl Condition {
    /// The condition, in memory of `alloc`. The regular expressions of the ACLs that stand in it
    /// are made by `maker`; their inline patterns aren't read. ACLs that it names are looked for
    /// when it is evaluated.
    ///
    /// `BadType` exactly where in one of these ACLs a converter takes a type to which what stands
    /// before it has no cast, or the value has none to the type that the match method looks at:
    /// that is judged first, of all of them. `BadPattern` only where the regular expression of a
    /// converter is none; no such condition is built. `TooLarge` and `NoMemory` come as with
    /// `hx_expr::compile`.
    pub fn build<M: ReMaker>(
        alloc: Global,
        cond: &Cond,
        maker: &mut M,
    ) -> Result<Condition, PlanFault>
        ensures built { IfOk result (λ condition. condition ≡ cond.now) }
        ensures types { OnOk result (is_cond_typed cond.now ≡ true) }
        ensures bad_type { (IsErrOf result PlanFault.BadType) ↔ (is_cond_typed cond.now ≡ false) }
        ensures expressions { OnOk result (cond_has_expressions cond.now ≡ true) }
        ensures bad_pattern { IsErrOf result PlanFault.BadPattern →
            cond_has_expressions cond.now ≡ false }
        ensures large { CompileCountsLarge result (Contains (cond_texts cond.now))
            (M.state maker.old) (M.state maker.new) }
    {
        if !is_cond_typed(cond.as_slice()) {
            return Err(PlanFault::BadType);
        }
        let conjs = build_cond(alloc, cond.as_slice(), maker)?;
        Ok(Condition { conjs })
    }

    /// Whether the condition holds in `world`: all terms of one of its conjunctions do. A term
    /// holds where its ACL does, or where it is negated and its ACL doesn't. An ACL holds where one
    /// of its declarations matches: some occurrence of its expression, as the type that the match
    /// method looks at, is a sample for `found`, is true for `bool`, and for any other method has
    /// an entry in `tables` under one of the heads. A name that isn't declared in `acls` is that of
    /// a predefined ACL; one that is neither holds nowhere.
    ///
    /// The evaluation ends as soon as the answer is known. Steps of searches are counted in
    /// `steps`. It fails only where memory runs out.
    ///
    /// The heads that the tests of the condition and of `acls` name are heads of these tables, with
    /// the match methods that they have there.
    pub fn holds<'w, T: Tables, L: Ledger>(
        &self,
        alloc: Global,
        acls: &AclSet,
        world: &World<'w>,
        tables: &'w T,
        steps: &mut Steps<L>,
    ) -> Result<bool, NoMemory>
        requires heads { HasCondHeads (T.heads (T.state tables.now)) self.now }
        requires acls { HasAclsHeads (T.heads (T.state tables.now)) acls.now }
        ensures { IfOk result (λ holds. holds
            ≡ cond_holds (context_of world.now) (T.heads (T.state tables.now))
            (T.lists (T.state tables.now))
            acls.now self.now) }
    {
        for conj in self.conjs.as_slice() {
            if conj_holds(alloc, conj.as_slice(), acls, world, tables, steps)? {
                return Ok(true);
            }
        }
        Ok(false)
    }
}

/// Whether all terms of the conjunction hold.
fn conj_holds<'w, T: Tables, L: Ledger>(
    alloc: Global,
    conj: &[TestTerm],
    acls: &AclSet,
    world: &World<'w>,
    tables: &'w T,
    steps: &mut Steps<L>,
) -> Result<bool, NoMemory>
    requires heads { All (λ term. HasAclHeads (T.heads (T.state tables.now)) term.acl) conj.now }
    requires acls { HasAclsHeads (T.heads (T.state tables.now)) acls.now }
    ensures { IfOk result (λ holds. holds
        ≡ list_all (term_holds (context_of world.now) (T.heads (T.state tables.now))
        (T.lists (T.state tables.now))
        acls.now) conj.now) }
{
    for term in conj {
        if !term_holds(alloc, term, acls, world, tables, steps)? {
            return Ok(false);
        }
    }
    Ok(true)
}

/// Whether the term holds.
fn term_holds<'w, T: Tables, L: Ledger>(
    alloc: Global,
    term: &TestTerm,
    acls: &AclSet,
    world: &World<'w>,
    tables: &'w T,
    steps: &mut Steps<L>,
) -> Result<bool, NoMemory>
    requires heads { HasAclHeads (T.heads (T.state tables.now)) term.now.acl }
    requires acls { HasAclsHeads (T.heads (T.state tables.now)) acls.now }
    ensures { IfOk result (λ holds. holds
        ≡ term_holds (context_of world.now) (T.heads (T.state tables.now))
        (T.lists (T.state tables.now)) acls.now
        term.now) }
{
    let holds = acl_holds(alloc, &term.acl, acls, world, tables, steps)?;
    Ok(if term.negated { !holds } else { holds })
}

/// Whether the ACL of a term holds.
pub(crate) fn acl_holds<'w, T: Tables, L: Ledger>(
    alloc: Global,
    acl: &TermAcl,
    acls: &AclSet,
    world: &World<'w>,
    tables: &'w T,
    steps: &mut Steps<L>,
) -> Result<bool, NoMemory>
    requires heads { HasAclHeads (T.heads (T.state tables.now)) (use_of acl.now) }
    requires acls { HasAclsHeads (T.heads (T.state tables.now)) acls.now }
    ensures { IfOk result (λ holds. holds
        ≡ acl_holds (context_of world.now) (T.heads (T.state tables.now))
        (T.lists (T.state tables.now)) acls.now
        (use_of acl.now)) }
{
    match acl {
        TermAcl::Named(name) => acls.name_holds(alloc, name, world, tables, steps),
        TermAcl::Own(test) => test.matches(alloc, world, tables, steps),
    }
}
