ghost use Rattle.std.specs.Prelude.{◌≡◌, length, slice_get, option_copied};

use crate::call::Call;
use std::marker::Model;

/// The calls of a text, in order, and how many of its bytes were read.
pub struct Calls {
    calls: Vec<Call>,
    used: usize,
}

// Written out, so that letting one go is one call in the proofs of callers.
impl Drop for Calls {
    fn drop(self) {
        let Calls {
            calls: _calls,
            used: _used,
        } = self;
    }
}

impl Model for Calls {
    ghost use Rattle.hx_words.specs.CallForm.{CallList};

    ghost Value = { CallList };

    ghost view = { λ calls. record { calls = calls.calls.items; used = calls.used } };
}

impl Calls {
    ghost use Rattle.hx_words.specs.CallForm.{CallList};

    pub(crate) fn new(calls: Vec<Call>, used: usize) -> Calls
        ensures { result ≡ record { calls = calls.items; used = used } }
    {
        Calls { calls, used }
    }

    /// How many calls there are, at least one.
    pub fn len(&self) -> usize
        ensures { result ≡ length self.now.calls }
    {
        self.calls.len()
    }

    /// The call at position `i`; `None` exactly where `i` isn't below `len`.
    pub fn call(&self, i: usize) -> Option<&Call>
        ensures { option_copied result ≡ slice_get self.now.calls i }
    {
        self.calls.get(i)
    }

    /// How many bytes of the text were read, the stop byte among them.
    pub fn used(&self) -> usize
        ensures { result ≡ self.now.used }
    {
        self.used
    }
}
