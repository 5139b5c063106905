ghost use Rattle.std.specs.Prelude.{◌≡◌, ◌∷◌, [], Contains, true, false, is_some, IfOk, OnOk, IsErrOf};
ghost use Rattle.hx_conv_text.specs.Substitution.{expanded_of};
ghost use Rattle.hx_expr.specs.Faults.{CompileCountsLarge};
ghost use Rattle.hx_sample.specs.Keys.{key_expression};

use hx_conv_text::{expand_by, made_regex};
use hx_expr::PlanFault;
use hx_outside::{PatFault, ReMaker};
use hx_regex::RegularExpression;
use hx_text::{NoMemory, Octets};
use std::alloc::Global;
use std::marker::Model;

/// The regular expression of an action. Contracts see it as its text.
pub(crate) struct Pattern {
    regex: RegularExpression,
}

// Written out, so that letting one go is one call in the proofs of callers.
impl Drop for Pattern {
    fn drop(self) {
        let Pattern { regex: _regex } = self;
    }
}

impl Model for Pattern {
    ghost use Rattle.std.specs.Prelude.{◌≡◌, ℕ, List, false};

    ghost Value = { List ℕ };

    ghost view = { λ pattern. pattern.regex.text };

    ghost invariant = { λ pattern. pattern.regex.ci ≡ false };
}

impl Pattern {
    /// The regular expression that the text writes, which minds case.
    #[tactic(auto, using(crate::proofs::PatternLemmas::pattern_cases))]
    pub(crate) fn build<M: ReMaker>(
        alloc: Global,
        text: &[u8],
        maker: &mut M,
    ) -> Result<Pattern, PlanFault>
        ensures built { IfOk result (λ pattern. pattern ≡ text.now) }
        ensures read { OnOk result
            (is_some (key_expression false text.now) ≡ true) }
        ensures typed { ¬ (IsErrOf result PlanFault.BadType) }
        ensures bad { IsErrOf result PlanFault.BadPattern
            → is_some (key_expression false text.now) ≡ false }
        ensures large { CompileCountsLarge result
            (Contains (record { text = text.now; ci = false } ∷ []))
            (M.state maker.old) (M.state maker.new) }
    {
        let regex = match made_regex(alloc, text, false, maker) {
            Ok(regex) => regex,
            Err(PatFault::BadRegex) => return Err(PlanFault::BadPattern),
            Err(PatFault::NotUtf8) => return Err(PlanFault::BadPattern),
            Err(PatFault::TooLarge) => return Err(PlanFault::TooLarge),
            Err(PatFault::NoMemory) => return Err(PlanFault::NoMemory),
            Err(_) => unreachable!(),
        };
        let regex = RegularExpression::permanent(alloc, text, false, regex)?;
        Ok(Pattern { regex })
    }

    /// What `sub` makes of the leftmost match in `value`. None exactly where nothing matches.
    pub(crate) fn expand(
        &self,
        alloc: Global,
        sub: &[u8],
        value: &[u8],
    ) -> Result<Option<Octets>, NoMemory>
        ensures { IfOk result (λ made. made ≡ expanded_of false self.now sub.now value.now) }
    {
        expand_by(alloc, &self.regex, sub, value)
    }
}
