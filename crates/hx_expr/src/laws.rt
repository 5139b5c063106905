//! Laws: what the definitions of types and of values imply.
ghost use Rattle.std.specs.Prelude.{◌≡◌, true, false, List, None, IfSome, IsSome};
ghost use Rattle.std.specs.List.{AllByRecursion};
ghost use Rattle.hx_ast.specs.Statements.{UsesNoMap};
ghost use Rattle.hx_ast.specs.Types.{expr_kind, output_kind};
ghost use Rattle.hx_fetch.specs.Fetches.{takes_last};
ghost use Rattle.hx_fetch.specs.Picks.{end_of};
ghost use Rattle.hx_fetch.specs.World.{Context};
ghost use Rattle.hx_sample.specs.Cast.{cast_of, kind_of};
ghost use Rattle.hx_sample.specs.Find.{Entry};
ghost use Rattle.hx_sample.specs.Tables.{TableHead, empty_heads};
ghost use Rattle.hx_sample.specs.declared.sample.Value.{Value};
ghost use Rattle.hx_expr.specs.Kinds.{HasKind};
ghost use Rattle.hx_expr.specs.Types.{can_cast};
ghost use Rattle.hx_expr.specs.Values.{HasTableHeads, converted_value, expr_value, expr_values};

use crate::plan::Plan;
use hx_ast::{Conv, Expr};
use hx_sample::Value;
use hx_text::Kind;

/// Where there is no cast from the one type to the other, no value of the one has a cast.
pub fn no_cast_outside_the_table(value: &Value, to: Kind)
    ensures { can_cast (kind_of value.now) to ≡ false → cast_of value.now to ≡ None }
{}

/// Where there is a cast from the one type to the other, some value of the one has it.
pub fn casts_of_the_table(from: Kind, to: Kind)
    ensures { can_cast from to ≡ true → (v : Value) × HasKind from v × IsSome (cast_of v to) }
{}

/// What a converter makes of a value is of the type that the table of converters gives.
pub fn converters_give_their_type(conv: &Conv)
    ensures { (context : Context) (heads : List TableHead) (lists : List (List Entry))
        (input : Value) →
        IfSome (converted_value context heads lists conv.now input)
        (HasKind (output_kind conv.now)) }
{}

/// Each value of an expression is of the type that the tables of fetches and of converters give,
/// where they give one: a variable has a value of any type.
pub fn values_have_their_type(expr: &Expr)
    ensures { (context : Context) (heads : List TableHead) (lists : List (List Entry)) →
        AllByRecursion (λ occurrence. IfSome occurrence (HasKind (expr_kind expr.now)))
        (expr_values context heads lists expr.now) }
{}

/// The value of an expression is the last, or the first, of its values from all occurrences.
pub fn value_is_that_of_one_occurrence(expr: &Expr)
    ensures { (context : Context) (heads : List TableHead) (lists : List (List Entry)) →
        expr_value context heads lists expr.now
        ≡ end_of (takes_last expr.now.fetch) (expr_values context heads lists expr.now) }
{}

/// An expression that looks nothing up in a map names no head, so any tables have the heads that it
/// names, and `EmptyTables`, in which nothing is found, serves to evaluate it.
pub fn no_map_needs_no_head(plan: &Plan)
    requires { UsesNoMap plan.now }
    ensures any { (heads : List TableHead) → HasTableHeads heads plan.now.convs }
    ensures empty { HasTableHeads empty_heads plan.now.convs }
{}
