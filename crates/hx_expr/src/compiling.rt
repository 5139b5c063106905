ghost use Rattle.std.specs.Prelude.{◌≡◌, ◌↔◌, Contains, IfOk, OnOk, IsErrOf, true, false};
ghost use Rattle.std.specs.List.{list_all};
ghost use Rattle.hx_expr.specs.Faults.{CompileCountsLarge};
ghost use Rattle.hx_expr.specs.Expressions.{has_expression, expression_texts};
ghost use Rattle.hx_expr.specs.Types.{is_typed};

use crate::building::build_all;
use crate::copying::copied_fetch;
use crate::fault::PlanFault;
use crate::plan::Plan;
use crate::typing::is_typed;
use hx_ast::Expr;
use hx_outside::ReMaker;
use std::alloc::Global;

/// The expression, ready to be evaluated (HAProxy configuration manual 2.4, sections 7.1 and
/// 7.3.1). Its texts are copied into memory of `alloc`, and its regular expressions are made by
/// `maker`.
///
/// `BadType` exactly where a converter takes a type to which what stands before it has no cast:
/// that is judged first, of the whole expression. `BadPattern` only where the regular expression of
/// a converter isn't UTF-8, is none, or is nested too deep; no such expression is compiled.
/// `TooLarge` only where the maker's count of texts that were too large rose; the last of them is
/// then the text of one of those converters, with its case. With any other answer the maker's count
/// and its last text stay. `NoMemory` where memory runs out.
pub fn compile<M: ReMaker>(alloc: Global, expr: &Expr, maker: &mut M) -> Result<Plan, PlanFault>
    ensures plan { IfOk result (λ plan. plan ≡ expr.now) }
    ensures types { OnOk result (is_typed expr.now ≡ true) }
    ensures bad_type { (IsErrOf result PlanFault.BadType) ↔ (is_typed expr.now ≡ false) }
    ensures expressions { OnOk result (list_all has_expression expr.now.convs ≡ true) }
    ensures bad_pattern { IsErrOf result PlanFault.BadPattern →
        list_all has_expression expr.now.convs ≡ false }
    ensures large { CompileCountsLarge result (Contains (expression_texts expr.now))
        (M.state maker.old) (M.state maker.new) }
{
    if !is_typed(expr) {
        return Err(PlanFault::BadType);
    }
    let convs = build_all(alloc, expr.convs.as_slice(), maker)?;
    let fetch = copied_fetch(alloc, &expr.fetch)?;
    Ok(Plan { fetch, convs })
}
