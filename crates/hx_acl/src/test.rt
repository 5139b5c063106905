ghost use Rattle.std.specs.Prelude.{◌≡◌, Contains, IfOk, OnOk, IsErrOf, true, false};
ghost use Rattle.hx_acl.specs.Expressions.{has_expressions};
ghost use Rattle.hx_acl.specs.Typing.{is_decl_typed};
ghost use Rattle.hx_expr.specs.Expressions.{expression_texts};
ghost use Rattle.hx_expr.specs.Faults.{CompileCountsLarge};

use hx_ast::{Decl, Heads, Items, Texts};
use hx_expr::{Plan, PlanFault, compile};
use hx_outside::ReMaker;
use hx_text::{By, NoMemory, Octets};
use std::alloc::Global;
use std::marker::Model;

/// A declaration, ready to be evaluated. Contracts see it as the declaration that it was built
/// from, so it keeps the words of the inline patterns too, which no evaluation reads.
pub(crate) struct Test {
    pub(crate) plan: Plan,
    pub(crate) by: By,
    pub(crate) heads: Heads,
    ci: bool,
    words: Texts,
}

// Written out, so that letting one go is one call in the proofs of callers.
impl Drop for Test {
    fn drop(self) {
        let Test {
            plan: _plan,
            by: _by,
            heads: _heads,
            ci: _ci,
            words: _words,
        } = self;
    }
}

impl Model for Test {
    ghost use Rattle.hx_ast.specs.declared.statement.Decl.{Decl};

    ghost Value = { Decl };

    ghost view = { λ test. record {
      expr = test.plan;
      by = test.by;
      ci = test.ci;
      heads = test.heads;
      words = test.words;
    } };
}

fn copied_heads(alloc: Global, heads: &[u32]) -> Result<Heads, NoMemory>
    ensures { IfOk result (λ copied. copied ≡ heads.now) }
{
    let mut copied = Items::new(alloc);
    for head in heads {
        copied.push(*head)?;
    }
    Ok(copied)
}

fn copied_texts(alloc: Global, texts: &[Octets]) -> Result<Texts, NoMemory>
    ensures { IfOk result (λ copied. copied ≡ texts.now) }
{
    let mut copied = Items::new(alloc);
    for text in texts {
        copied.push(Octets::copy(alloc, text.as_slice())?)?;
    }
    Ok(copied)
}

/// The test of a declaration whose types fit.
pub(crate) fn build_test<M: ReMaker>(
    alloc: Global,
    decl: &Decl,
    maker: &mut M,
) -> Result<Test, PlanFault>
    requires { is_decl_typed decl.now ≡ true }
    ensures built { IfOk result (λ built. built ≡ decl.now) }
    ensures expressions { OnOk result (has_expressions decl.now.expr ≡ true) }
    ensures typed { ¬ (IsErrOf result PlanFault.BadType) }
    ensures bad { IsErrOf result PlanFault.BadPattern → has_expressions decl.now.expr ≡ false }
    ensures large { CompileCountsLarge result (Contains (expression_texts decl.now.expr))
        (M.state maker.old) (M.state maker.new) }
{
    let plan = compile(alloc, &decl.expr, maker)?;
    let heads = copied_heads(alloc, decl.heads.as_slice())?;
    let words = copied_texts(alloc, decl.words.as_slice())?;
    Ok(Test {
        plan,
        by: decl.by,
        heads,
        ci: decl.ci,
        words,
    })
}
