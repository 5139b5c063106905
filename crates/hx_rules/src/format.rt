use hx_ast::Items;
use hx_expr::Plan;
use hx_text::Octets;
use std::marker::Model;

/// How a part of a format is kept: bytes that stand for themselves, or an expression that is ready
/// to be evaluated.
pub(crate) enum PartPlan {
    Text(Octets),
    Value(Plan),
}

// Written out, so that letting one go is one call in the proofs of callers.
impl Drop for PartPlan {
    fn drop(self) {
        match self {
            PartPlan::Text(_it) => (),
            PartPlan::Value(_it) => (),
        }
    }
}

/// A part of a format. Contracts see it as the part that it was built from.
pub(crate) struct BuiltPart {
    pub(crate) plan: PartPlan,
}

// Written out, so that letting one go is one call in the proofs of callers.
impl Drop for BuiltPart {
    fn drop(self) {
        let BuiltPart { plan: _plan } = self;
    }
}

impl Model for BuiltPart {
    ghost use Rattle.hx_ast.specs.declared.action.Part.{Part};

    ghost Value = { Part };

    ghost use Rattle.hx_rules.specs.ProgramView.{part_of_plan};

    ghost view = { λ part. part_of_plan part.plan };
}

/// The parts of a format, in their order.
pub(crate) type BuiltFormat = Items<BuiltPart>;
