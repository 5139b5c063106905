ghost use Rattle.std.specs.Prelude.{◌≡◌, [], ◌∷◌, Contains, IfOk, OnOk, IsErrOf, true, false};
ghost use Rattle.std.specs.List.{list_all};
ghost use Rattle.hx_conv_text.specs.Converters.{is_text_conv};
ghost use Rattle.hx_conv_val.specs.Converters.{is_value_conv};
ghost use Rattle.hx_expr.specs.Faults.{CompileCountsLarge};
ghost use Rattle.hx_expr.specs.Expressions.{has_expression, texts_of};

use crate::fault::PlanFault;
use crate::map_default::read_default;
use crate::plan::{Built, PlanConv};
use hx_ast::{Conv, Items};
use hx_conv_text::{TextConv, build_text};
use hx_conv_val::build_val;
use hx_outside::{PatFault, ReMaker};
use std::alloc::Global;

fn is_text_conv(conv: &Conv) -> bool
    ensures { result ≡ is_text_conv conv.now }
{
    match conv {
        Conv::Lower | Conv::Upper | Conv::Length | Conv::CutCrlf => true,
        Conv::Field(_, _, _) | Conv::Word(_, _, _) | Conv::Bytes(_, _) => true,
        Conv::Ltrim(_) | Conv::Rtrim(_) | Conv::Concat(_, _, _) | Conv::Strcmp(_) => true,
        Conv::Regsub(_, _, _, _) | Conv::UrlDec(_) => true,
        _ => false,
    }
}

/// A converter of texts, built.
#[tactic(auto, using(crate::proofs::ExpressionLemmas::expression_cases))]
fn built_text<M: ReMaker>(alloc: Global, conv: &Conv, maker: &mut M) -> Result<TextConv, PlanFault>
    requires { is_text_conv conv.now ≡ true }
    ensures built { IfOk result (λ built. built ≡ conv.now) }
    ensures read { OnOk result (has_expression conv.now ≡ true) }
    ensures typed { ¬ (IsErrOf result PlanFault.BadType) }
    ensures bad { IsErrOf result PlanFault.BadPattern → has_expression conv.now ≡ false }
    ensures large { CompileCountsLarge result (Contains (texts_of (conv.now ∷ [])))
        (M.state maker.old) (M.state maker.new) }
{
    match build_text(alloc, conv, maker) {
        Ok(text) => Ok(text),
        Err(PatFault::BadRegex) => Err(PlanFault::BadPattern),
        Err(PatFault::NotUtf8) => Err(PlanFault::BadPattern),
        Err(PatFault::TooLarge) => Err(PlanFault::TooLarge),
        Err(PatFault::NoMemory) => Err(PlanFault::NoMemory),
        Err(_) => unreachable!(),
    }
}

/// One converter, built.
fn build<M: ReMaker>(alloc: Global, conv: &Conv, maker: &mut M) -> Result<PlanConv, PlanFault>
    ensures built { IfOk result (λ built. built ≡ conv.now) }
    ensures read { OnOk result (has_expression conv.now ≡ true) }
    ensures typed { ¬ (IsErrOf result PlanFault.BadType) }
    ensures bad { IsErrOf result PlanFault.BadPattern → has_expression conv.now ≡ false }
    ensures large { CompileCountsLarge result (Contains (texts_of (conv.now ∷ [])))
        (M.state maker.old) (M.state maker.new) }
{
    if is_text_conv(conv) {
        let text = built_text(alloc, conv, maker)?;
        return Ok(PlanConv {
            built: Built::Text(text),
        });
    }
    let built = match conv {
        Conv::Map(head, by, out, default) => {
            Built::Map(*head, *by, *out, read_default(alloc, *out, default)?)
        }
        conv => Built::Val(build_val(alloc, conv)?),
    };
    Ok(PlanConv { built })
}

/// The converters, each built, in their order.
pub(crate) fn build_all<M: ReMaker>(
    alloc: Global,
    convs: &[Conv],
    maker: &mut M,
) -> Result<Items<PlanConv>, PlanFault>
    ensures built { IfOk result (λ built. built ≡ convs.now) }
    ensures read { OnOk result (list_all has_expression convs.now ≡ true) }
    ensures typed { ¬ (IsErrOf result PlanFault.BadType) }
    ensures bad { IsErrOf result PlanFault.BadPattern →
        list_all has_expression convs.now ≡ false }
    ensures large { CompileCountsLarge result (Contains (texts_of convs.now))
        (M.state maker.old) (M.state maker.new) }
{
    let mut built = Items::new(alloc);
    for conv in convs {
        built.push(build(alloc, conv, maker)?)?;
    }
    Ok(built)
}
