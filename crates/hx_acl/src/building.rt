ghost use Rattle.std.specs.Prelude.{◌≡◌, Contains, IfOk, OnOk, IsErrOf, true, false};
ghost use Rattle.std.specs.List.{list_all};
ghost use Rattle.hx_ast.specs.Acls.{use_passes};
ghost use Rattle.hx_acl.specs.Expressions.{cond_has_expressions, cond_texts, conj_texts, has_expressions, use_texts};
ghost use Rattle.hx_acl.specs.TermView.{use_of};
ghost use Rattle.hx_acl.specs.Typing.{is_cond_typed, is_decl_typed};
ghost use Rattle.hx_expr.specs.Faults.{CompileCountsLarge};

use crate::term::{TermAcl, TestTerm};
use crate::test::build_test;
use hx_ast::{AclUse, Conj, Items, Term};
use hx_expr::PlanFault;
use hx_outside::ReMaker;
use hx_text::Octets;
use std::alloc::Global;

/// The ACL of a term, built.
fn build_acl<M: ReMaker>(alloc: Global, acl: &AclUse, maker: &mut M) -> Result<TermAcl, PlanFault>
    requires { use_passes is_decl_typed acl.now ≡ true }
    ensures built { IfOk result (λ built. use_of built ≡ acl.now) }
    ensures expressions { OnOk result
        (use_passes (λ decl. has_expressions decl.expr) acl.now ≡ true) }
    ensures typed { ¬ (IsErrOf result PlanFault.BadType) }
    ensures bad { IsErrOf result PlanFault.BadPattern →
        use_passes (λ decl. has_expressions decl.expr) acl.now ≡ false }
    ensures large { CompileCountsLarge result (Contains (use_texts acl.now))
        (M.state maker.old) (M.state maker.new) }
{
    match acl {
        AclUse::Named(name) => Ok(TermAcl::Named(Octets::copy(alloc, name.as_slice())?)),
        AclUse::Own(decl) => Ok(TermAcl::Own(build_test(alloc, decl, maker)?)),
    }
}

/// The terms of a conjunction, each built, in their order.
fn build_conj<M: ReMaker>(
    alloc: Global,
    conj: &[Term],
    maker: &mut M,
) -> Result<Items<TestTerm>, PlanFault>
    requires { list_all (λ term. use_passes is_decl_typed term.acl) conj.now ≡ true }
    ensures built { IfOk result (λ built. built ≡ conj.now) }
    ensures expressions { OnOk result (list_all
        (λ term. use_passes (λ decl. has_expressions decl.expr) term.acl) conj.now ≡ true) }
    ensures typed { ¬ (IsErrOf result PlanFault.BadType) }
    ensures bad { IsErrOf result PlanFault.BadPattern → list_all
        (λ term. use_passes (λ decl. has_expressions decl.expr) term.acl) conj.now ≡ false }
    ensures large { CompileCountsLarge result (Contains (conj_texts conj.now))
        (M.state maker.old) (M.state maker.new) }
{
    let mut built = Items::new(alloc);
    for term in conj {
        let acl = build_acl(alloc, &term.acl, maker)?;
        built.push(TestTerm {
            negated: term.negated,
            acl,
        })?;
    }
    Ok(built)
}

/// The conjunctions of a condition, each built, in their order.
pub(crate) fn build_cond<M: ReMaker>(
    alloc: Global,
    cond: &[Conj],
    maker: &mut M,
) -> Result<Items<Items<TestTerm>>, PlanFault>
    requires { is_cond_typed cond.now ≡ true }
    ensures built { IfOk result (λ built. built ≡ cond.now) }
    ensures expressions { OnOk result (cond_has_expressions cond.now ≡ true) }
    ensures typed { ¬ (IsErrOf result PlanFault.BadType) }
    ensures bad { IsErrOf result PlanFault.BadPattern → cond_has_expressions cond.now ≡ false }
    ensures large { CompileCountsLarge result (Contains (cond_texts cond.now))
        (M.state maker.old) (M.state maker.new) }
{
    let mut built = Items::new(alloc);
    for conj in cond {
        built.push(build_conj(alloc, conj.as_slice(), maker)?)?;
    }
    Ok(built)
}
