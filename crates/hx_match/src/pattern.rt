ghost use Rattle.std.specs.Prelude.{◌≡◌};
ghost use Rattle.hx_match.specs.Patterns.{pattern_network};

use crate::form::Form;
use hx_text::{Net, Octets};
use std::marker::Model;

/// A text as a pattern of a match method, read once. Contracts see it as its method, its case and
/// its text.
pub struct Pattern {
    pub(crate) ci: bool,
    pub(crate) text: Octets,
    pub(crate) form: Form,
}

// Written out, so that letting one go is one call in the proofs of callers.
impl Drop for Pattern {
    fn drop(self) {
        let Pattern {
            ci: _ci,
            text: _text,
            form: _form,
        } = self;
    }
}

impl Model for Pattern {
    ghost use Rattle.hx_match.specs.Patterns.{PatternText};

    ghost Value = { PatternText };

    ghost use Rattle.hx_match.specs.Read.{by_of, IsRead};

    ghost view = { λ pattern. record {
      by = by_of pattern.form;
      ci = pattern.ci;
      text = pattern.text;
    } };

    ghost invariant = { λ pattern. IsRead pattern.ci pattern.text pattern.form };
}

impl Pattern {
    /// The network that the text of a pattern of `Ip` writes. None exactly for a pattern of another
    /// method.
    pub fn network(&self) -> Option<Net>
        ensures { result ≡ pattern_network self.now.by self.now.text }
    {
        match &self.form {
            Form::Ip(net) => Some(*net),
            _ => None,
        }
    }
}
