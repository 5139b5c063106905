ghost use Rattle.std.specs.Prelude.{◌≡◌};

use std::marker::Model;

/// The answer to an event, seen as its bytes.
#[derive(Drop)]
pub struct Answer {
    pub(crate) bytes: Vec<u8>,
}

impl Model for Answer {
    ghost use Rattle.std.specs.Prelude.{List, ℕ};

    ghost Value = { List ℕ };

    ghost view = { λ answer. answer.bytes.items };
}

impl Answer {
    /// The lines of the answer, each with a line feed at its end; of an event that is answered
    /// nothing no bytes.
    pub fn bytes(&self) -> &[u8]
        ensures { result.now ≡ self.now }
    {
        self.bytes.as_slice()
    }
}
