ghost use Rattle.std.specs.Prelude.{◌≡◌, ◌≤◌, None, IfOk, IsErrOf};
ghost use Rattle.hx_outside.specs.Expressions.{expression, IsExpression};
ghost use Rattle.hx_outside.specs.Makers.{CountsTooLarge, last_large, MakerState};

use crate::pattern_fault::ReFault;
use regex::bytes::Regex;
use std::alloc::Global;

/// Makes regular expressions of texts.
///
/// A maker has a state, which contracts speak of. Its `too_large` is a count that rises with each
/// `TooLarge`, where it doesn't saturate, and stays with every other answer. Its `large` is the
/// text of the last call that answered `TooLarge`, with its case, and none before one.
pub trait ReMaker {
    ghost state: { Self → MakerState };

    /// The regular expression that `text` is, which searches in bytes, without regard to the case
    /// of letters where `ci` is true; it is kept in memory of `alloc`.
    ///
    /// `BadRegex` only where the text is no expression, or is nested deeper than 250 levels: such a
    /// text is never made into one. `TooLarge` only where the count rose; the last text that was
    /// too large is then this text, with its case. `NoMemory` where memory runs out, that for
    /// `large` included, which is taken first.
    fn make(&mut self, alloc: Global, text: &str, ci: bool) -> Result<Regex, ReFault>
        ensures made { IfOk result (λ made. IsExpression ci text.now made) }
        ensures bad { IsErrOf result ReFault.BadRegex → expression ci text.now ≡ None }
        ensures later { (state self.old).too_large ≤ (state self.new).too_large }
        ensures counted { CountsTooLarge result (state self.old).too_large
            (state self.new).too_large }
        ensures last { (state self.new).large
            ≡ last_large result (record { text = text.now; ci = ci }) (state self.old).large };
}
