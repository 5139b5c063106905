ghost use Rattle.std.specs.Prelude.{◌≡◌, ◌==◌, length, slice_get, option_copied};

use hx_text::Octets;
use std::marker::Model;

/// The words of a line, in order. Contracts see them as the list of their bytes.
pub struct Words {
    words: Vec<Octets>,
}

// Written out, so that letting one go is one call in the proofs of callers.
impl Drop for Words {
    fn drop(self) {
        let Words { words: _words } = self;
    }
}

impl Model for Words {
    ghost use Rattle.std.specs.Prelude.{List, ℕ};

    ghost Value = { List (List ℕ) };

    ghost view = { λ words. words.words.items };
}

impl Words {
    pub(crate) fn from_vec(words: Vec<Octets>) -> Words
        ensures { result ≡ words.items }
    {
        Words { words }
    }

    /// How many words there are.
    pub fn len(&self) -> usize
        ensures { result ≡ length self.now }
    {
        self.words.len()
    }

    /// Whether there is no word.
    pub fn is_empty(&self) -> bool
        ensures { result ≡ (length self.now == 0) }
    {
        self.words.is_empty()
    }

    /// The word at position `i`; `None` exactly where `i` isn't below `len`.
    pub fn word(&self, i: usize) -> Option<&[u8]>
        ensures { option_copied result ≡ slice_get self.now i }
    {
        let word = self.words.get(i)?;
        Some(word.as_slice())
    }

    /// All words, in order.
    pub fn as_slice(&self) -> &[Octets]
        ensures { result.now ≡ self.now }
    {
        self.words.as_slice()
    }
}
