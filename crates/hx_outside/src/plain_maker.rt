ghost use Rattle.std.specs.Prelude.{◌≡◌, ℕ, ◌≤◌, Some, None, IfOk, IsErrOf, IsSome, option_map};
ghost use Rattle.std.specs.Option.{option_copied};
ghost use Rattle.hx_outside.specs.Count.{next_count};
ghost use Rattle.hx_outside.specs.Expressions.{expression, IsExpression};
ghost use Rattle.hx_outside.specs.Makers.{CountsTooLarge, last_large, maker_after};

use crate::pattern_fault::ReFault;
use crate::re_maker::ReMaker;
use regex::bytes::Regex;
use regex::{Error, RegexBuilder};
use std::alloc::Global;
use std::marker::Model;

/// A text that was too large, and whether the case of letters was to be ignored.
#[derive(Drop)]
struct Large {
    text: Vec<u8>,
    ci: bool,
}

/// Makes the regular expressions of the library `regex`, within its own limits: a text that is
/// nested deeper than 250 levels is refused, and one that takes more than 10 MiB is too large.
#[derive(Drop)]
pub struct PlainMaker {
    too_large: u64,
    large: Option<Large>,
}

impl Model for PlainMaker {
    ghost use Rattle.std.specs.Option.{option_map};
    ghost use Rattle.hx_outside.specs.Makers.{MakerState};

    ghost Value = { MakerState };

    ghost view = { λ maker. record {
      too_large = maker.too_large;
      large = option_map (λ large. record { text = large.text.items; ci = large.ci }) maker.large;
    } };
}

impl PlainMaker {
    /// A maker for which no text was too large yet.
    pub fn new() -> PlainMaker
        ensures { result ≡ record { too_large = 0; large = None } }
    {
        PlainMaker {
            too_large: 0,
            large: None,
        }
    }

    /// The last text that was too large, where there was one.
    pub fn large_text(&self) -> Option<&[u8]>
        ensures { option_copied result ≡ option_map (λ large. large.text) self.now.large }
    {
        match &self.large {
            Some(large) => Some(large.text.as_slice()),
            None => None,
        }
    }

    /// Counts a text that is too large, and keeps it.
    pub(crate) fn fail(&mut self, text: Vec<u8>, ci: bool) -> ReFault
        ensures fault { result ≡ ReFault.TooLarge }
        ensures later { self.old.too_large ≤ self.new.too_large }
        ensures after { self.new ≡ record {
          too_large = next_count self.old.too_large;
          large = Some (record { text = text.items; ci = ci });
        } }
    {
        self.too_large = self.too_large.saturating_add(1);
        self.large = Some(Large { text, ci });
        ReFault::TooLarge
    }
}

impl ReMaker for PlainMaker {
    ghost state = { λ maker. maker };

    /// The regular expression that `text` is. `TooLarge` only for a text that is an expression.
    fn make(&mut self, alloc: Global, text: &str, ci: bool) -> Result<Regex, ReFault>
        ensures made { IfOk result (λ made. IsExpression ci text.now made) }
        ensures bad { IsErrOf result ReFault.BadRegex → expression ci text.now ≡ None }
        ensures later { self.old.too_large ≤ self.new.too_large }
        ensures counted { CountsTooLarge result self.old.too_large self.new.too_large }
        ensures last { self.new.large
            ≡ last_large result (record { text = text.now; ci = ci }) self.old.large }

        ensures large { IsErrOf result ReFault.TooLarge → IsSome (expression ci text.now) }
        ensures after { self.new
            ≡ maker_after self.old (record { text = text.now; ci = ci }) result }
    {
        let large = Vec::from_slice(alloc, text.as_bytes())?;
        match compile(alloc, text, ci) {
            Ok(made) => Ok(made),
            Err(ReFault::BadRegex) => Err(ReFault::BadRegex),
            Err(ReFault::TooLarge) => Err(self.fail(large, ci)),
            Err(ReFault::NoMemory) => Err(ReFault::NoMemory),
        }
    }
}

/// The regular expression that the library makes of `text`.
fn compile(alloc: Global, text: &str, ci: bool) -> Result<Regex, ReFault>
    ensures made { IfOk result (λ made. IsExpression ci text.now made) }
    ensures bad { IsErrOf result ReFault.BadRegex → expression ci text.now ≡ None }
    ensures large { IsErrOf result ReFault.TooLarge → IsSome (expression ci text.now) }
{
    let builder = RegexBuilder::new(text).case_insensitive(ci);
    match builder.build_bytes(alloc) {
        Ok(made) => Ok(made),
        Err(Error::Syntax(_)) => Err(ReFault::BadRegex),
        Err(Error::CompiledTooBig) => Err(ReFault::TooLarge),
        Err(Error::Internal) => unreachable!(),
        Err(Error::OutOfMemory) => Err(ReFault::NoMemory),
    }
}
