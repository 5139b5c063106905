use hx_text::NoMemory;
use thiserror::Error;

/// Why an expression isn't compiled.
#[derive(Clone, Copy, Debug, PartialEq, Eq, Error)]
pub enum PlanFault {
    /// A converter's input has a type that has no cast to the one that the converter takes.
    #[error("a converter can't take what stands before it")]
    BadType,
    /// A regular expression isn't UTF-8, is none, or is nested too deep.
    #[error("not a regular expression")]
    BadPattern,
    /// A regular expression is too large.
    #[error("the regular expression is too large")]
    TooLarge,
    /// Memory ran out, which says nothing of the expression.
    #[error("out of memory")]
    NoMemory,
}

impl From<NoMemory> for PlanFault {
    ghost use Rattle.std.specs.Prelude.{◌≡◌};
    ghost use Rattle.hx_expr.specs.declared.fault.PlanFault.TheVariants as plan;

    ghost from_gives = { λ _ fault. fault ≡ plan.NoMemory };

    fn from(_: NoMemory) -> PlanFault {
        PlanFault::NoMemory
    }
}
