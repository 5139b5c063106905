ghost use Rattle.std.specs.Prelude.{◌≡◌, ◌++◌, ◌∷◌, [], ◌≤◌, ◌↔◌, length, IsTrue, IsNone, OnOk, IfOk, unwrap_or, option_to_list};
ghost use Rattle.hx_words.specs.TokenView.{part_bytes};

use crate::quoting::PartValue;
use hx_text::{NoMemory, Octets};
use std::alloc::Global;

/// The most words that a line may have.
const MOST_WORDS: usize = 256;

/// The words of a line, or the arguments of a call, so far: those that have ended, and the one
/// under way.
#[derive(Drop)]
pub(crate) struct PartsSoFar {
    done: Vec<Octets>,
    word: Option<Octets>,
}

impl PartsSoFar {
    pub(crate) fn new(alloc: Global) -> PartsSoFar
        ensures done { result.done.items ≡ [] }
        ensures word { result.word ≡ None }
    {
        PartsSoFar {
            done: Vec::new(alloc),
            word: None,
        }
    }

    /// Whether what comes next would begin a word too many.
    pub(crate) fn is_full(&self) -> bool
        ensures { IsTrue result ↔ ((self.now.word ≡ None) × (256 ≤ length self.now.done.items)) }
    {
        self.word.is_none() && self.done.len() >= MOST_WORDS
    }

    /// Appends to the word under way, or begins one.
    pub(crate) fn append(&mut self, alloc: Global, value: &PartValue) -> Result<(), NoMemory>
        ensures done { OnOk result (self.new.done.items ≡ self.old.done.items) }
        ensures word { OnOk result
            (self.new.word ≡ Some (unwrap_or self.old.word [] ++ part_bytes value.now)) }
    {
        let mut word = match self.word.take() {
            Some(word) => word,
            None => Octets::from_vec(Vec::new(alloc)),
        };
        value.append_to(&mut word)?;
        self.word = Some(word);
        Ok(())
    }

    /// Ends the word under way, if there is one.
    pub(crate) fn end_word(&mut self) -> Result<(), NoMemory>
        ensures done { OnOk result
            (self.new.done.items ≡ self.old.done.items ++ option_to_list self.old.word) }
        ensures word { OnOk result (self.new.word ≡ None) }
    {
        if let Some(word) = self.word.take() {
            self.done.push(word)?;
        }
        Ok(())
    }

    /// Ends the part under way, an empty one where there is none, and begins another.
    pub(crate) fn separate(&mut self, alloc: Global) -> Result<(), NoMemory>
        ensures done { OnOk result
            (self.new.done.items ≡ self.old.done.items ++ unwrap_or self.old.word [] ∷ []) }
        ensures word { OnOk result (self.new.word ≡ Some []) }
    {
        let empty = Octets::from_vec(Vec::new(alloc));
        let ended = match self.word.take() {
            Some(word) => word,
            None => Octets::from_vec(Vec::new(alloc)),
        };
        self.done.push(ended)?;
        self.word = Some(empty);
        Ok(())
    }

    /// All parts, the one under way last.
    pub(crate) fn finish(self) -> Result<Vec<Octets>, NoMemory>
        ensures { IfOk result (λ all. all.items ≡ self.done.items ++ option_to_list self.word) }
    {
        let mut parts = self;
        parts.end_word()?;
        let PartsSoFar { done, word: _ } = parts;
        Ok(done)
    }
}
