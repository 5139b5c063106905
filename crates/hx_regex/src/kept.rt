ghost use Rattle.std.specs.Prelude.{◌≡◌, IfSome, IfOk};
ghost use Rattle.hx_outside.specs.Expressions.{IsExpression};
ghost use Rattle.hx_regex.specs.Searches.{IsKeptFor};

use hx_outside::{PlainMaker, ReMaker};
use hx_text::{NoMemory, Octets};
use regex::bytes::{Matcher, Regex};
use std::alloc::Global;
use std::marker::Model;

/// A matcher that outlives the search for which it was made.
#[derive(Drop)]
pub struct Kept {
    pub(crate) text: Octets,
    /// What searches.
    pub matcher: Box<Matcher<'static>>,
}

/// The same between two searches. Contracts see it as the text of its expression, and whether that
/// ignores the case of letters.
#[derive(Drop)]
pub(crate) struct KeptMatcher {
    ci: bool,
    text: Octets,
    matcher: Box<Matcher<'static>>,
}

impl Model for KeptMatcher {
    ghost use Rattle.regex.specs.Bytes.{matcher_pattern};
    ghost use Rattle.hx_outside.specs.Makers.{ExpressionText};
    ghost use Rattle.hx_regex.specs.Searches.{IsPatternOf};

    ghost Value = { ExpressionText };

    ghost view = { λ kept. record { text = kept.text; ci = kept.ci } };

    ghost invariant = { λ kept.
        IsPatternOf (record { text = kept.text; ci = kept.ci })
        (matcher_pattern kept.matcher.value) };
}

impl KeptMatcher {
    /// The matcher after a search.
    pub(crate) fn after(kept: Kept, ci: bool) -> KeptMatcher
        requires { IsKeptFor (record { text = kept.text; ci = ci }) kept }
        ensures { result ≡ record { text = kept.text; ci = ci } }
    {
        let Kept { text, matcher } = kept;
        KeptMatcher { ci, text, matcher }
    }

    /// The matcher for a search of this expression. None where it is that of another.
    pub(crate) fn of(self, text: &[u8], ci: bool) -> Option<Kept>
        ensures { IfSome result (IsKeptFor (record { text = text.now; ci = ci })) }
    {
        if self.ci != ci || self.text.as_slice() != text {
            return None;
        }
        Some(Kept {
            text: self.text,
            matcher: self.matcher,
        })
    }
}

/// The expression of the text, made once more. `NoMemory` where memory runs out, and also where the
/// text is none, which a text that was made before is not.
fn made_again(alloc: Global, text: &[u8], ci: bool) -> Result<Regex, NoMemory>
    ensures { IfOk result (IsExpression ci text.now) }
{
    match std::str::from_utf8(text) {
        Ok(text) => match PlainMaker::new().make(alloc, text, ci) {
            Ok(made) => Ok(made),
            Err(_) => Err(NoMemory),
        },
        Err(_) => Err(NoMemory),
    }
}

/// A matcher that borrows an expression of its own, whose memory is never given back. `NoMemory`
/// where there is no memory for both.
#[inline(never)]
pub(crate) fn lasting(alloc: Global, text: &[u8], ci: bool) -> Result<Kept, NoMemory>
    ensures { IfOk result (IsKeptFor (record { text = text.now; ci = ci })) }
{
    let copied = Octets::copy(alloc, text)?;
    let made = Box::new(alloc, made_again(alloc, text, ci)?)?;
    let made: &'static Regex = Box::leak(made);
    let matcher = Box::new(alloc, made.matcher(alloc)?)?;
    Ok(Kept {
        text: copied,
        matcher,
    })
}
