use crate::map_default::MapDefault;
use hx_ast::{Conv, Fetch, Items};
use hx_conv_text::TextConv;
use hx_conv_val::ValConv;
use hx_text::{By, Out};
use std::marker::Model;

/// A built converter: of texts, of values, or one that looks a value up by a head, with the match
/// method, the type of the map's values, and the default.
pub(crate) enum Built {
    Text(TextConv),
    Val(ValConv),
    Map(u32, By, Out, MapDefault),
}

// Written out, so that letting one go is one call in the proofs of callers.
impl Drop for Built {
    fn drop(self) {
        match self {
            Built::Text(_it) => (),
            Built::Val(_it) => (),
            Built::Map(_first, _second, _third, _fourth) => (),
        }
    }
}

/// A converter of a plan. Contracts see it as the converter that it was built from.
pub(crate) struct PlanConv {
    pub(crate) built: Built,
}

// Written out, so that letting one go is one call in the proofs of callers.
impl Drop for PlanConv {
    fn drop(self) {
        let PlanConv { built: _built } = self;
    }
}

impl Model for PlanConv {
    ghost use Rattle.hx_ast.specs.declared.conv.Conv.{Conv};

    ghost Value = { Conv };

    ghost use Rattle.hx_expr.specs.Built.{conv_of_built, IsKept};

    ghost view = { λ conv. conv_of_built conv.built };

    ghost invariant = { λ conv. IsKept conv.built };
}

/// An expression that `compile` made ready, for `eval` and `eval_all`: what is read once is read,
/// the regular expressions among it. Contracts see it as the expression that it was compiled from.
pub struct Plan {
    pub(crate) fetch: Fetch,
    pub(crate) convs: Items<PlanConv>,
}

// Written out, so that letting one go is one call in the proofs of callers.
impl Drop for Plan {
    fn drop(self) {
        let Plan {
            fetch: _fetch,
            convs: _convs,
        } = self;
    }
}

impl Model for Plan {
    ghost use Rattle.hx_ast.specs.declared.expr.Expr.{Expr};

    ghost Value = { Expr };

    ghost view = { λ plan. record { fetch = plan.fetch; convs = plan.convs } };
}
