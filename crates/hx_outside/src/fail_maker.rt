ghost use Rattle.std.specs.Prelude.{◌≡◌, ℕ, ◌≤◌, ◌⊎◌, None, Contains, IfOk, OnOk, IsErrOf, IsSome};
ghost use Rattle.hx_outside.specs.Count.{next_count};
ghost use Rattle.hx_outside.specs.Expressions.{expression, IsExpression};
ghost use Rattle.hx_outside.specs.Makers.{CountsTooLarge, last_large, maker_after};

use crate::pattern_fault::ReFault;
use crate::plain_maker::PlainMaker;
use crate::re_maker::ReMaker;
use regex::bytes::Regex;
use std::alloc::Global;
use std::marker::Model;

/// A maker that finds texts too large at chosen calls, for tests of what makes expressions.
#[derive(Drop)]
pub struct FailMaker {
    fails: Vec<u64>,
    calls: u64,
    maker: PlainMaker,
}

impl Model for FailMaker {
    ghost use Rattle.hx_outside.specs.Makers.{FailMakerState};

    ghost Value = { FailMakerState };

    ghost view = { λ maker. record {
      fails = maker.fails.items;
      calls = maker.calls;
      maker = maker.maker;
    } };
}

impl FailMaker {
    /// A maker that answers `TooLarge` at the calls whose numbers, from 1, are in `fails`, and at
    /// every other call as a plain maker does.
    pub fn new(fails: Vec<u64>) -> FailMaker
        ensures { result ≡ record {
          fails = fails.items;
          calls = 0;
          maker = record { too_large = 0; large = None };
        } }
    {
        FailMaker {
            fails,
            calls: 0,
            maker: PlainMaker::new(),
        }
    }
}

impl ReMaker for FailMaker {
    ghost state = { λ maker. maker.maker };

    /// The regular expression that `text` is, at a call that isn't chosen. A chosen call answers
    /// `TooLarge`, or `NoMemory` where memory runs out.
    fn make(&mut self, alloc: Global, text: &str, ci: bool) -> Result<Regex, ReFault>
        ensures made { IfOk result (λ made. IsExpression ci text.now made) }
        ensures bad { IsErrOf result ReFault.BadRegex → expression ci text.now ≡ None }
        ensures later { self.old.maker.too_large ≤ self.new.maker.too_large }
        ensures counted { CountsTooLarge result self.old.maker.too_large self.new.maker.too_large }
        ensures last { self.new.maker.large
            ≡ last_large result (record { text = text.now; ci = ci }) self.old.maker.large }

        ensures chosen { OnOk result (¬ (Contains self.old.fails (next_count self.old.calls))) }
        ensures chosen_where_refused { IsErrOf result ReFault.BadRegex
            → ¬ (Contains self.old.fails (next_count self.old.calls)) }
        ensures why { IsErrOf result ReFault.TooLarge
            → Contains self.old.fails (next_count self.old.calls)
            ⊎ IsSome (expression ci text.now) }
        ensures after { self.new ≡ record {
          fails = self.old.fails;
          calls = next_count self.old.calls;
          maker = maker_after self.old.maker (record { text = text.now; ci = ci }) result;
        } }
    {
        self.calls = self.calls.saturating_add(1);
        if self.fails.contains(&self.calls) {
            let large = Vec::from_slice(alloc, text.as_bytes())?;
            return Err(self.maker.fail(large, ci));
        }
        self.maker.make(alloc, text, ci)
    }
}
