ghost use Rattle.std.specs.Prelude.{◌≡◌, IfOk, IfSome, Some};
ghost use Rattle.hx_outside.specs.Expressions.{IsExpression};
ghost use Rattle.hx_regex.specs.Searches.{IsKeptFor, IsPatternOf, IsSearchFor, matches_in};
ghost use Rattle.regex.specs.Bytes.{matcher_pattern};

use crate::kept::{Kept, KeptMatcher, lasting};
use hx_text::{NoMemory, Octets};
use regex::bytes::{Matcher, Regex};
use std::alloc::Global;
use std::cell::Cell;
use std::marker::Model;

/// After how many searches a matcher is kept. The expression that it borrows is never given back,
/// so one that is searched seldom, as an entry that is soon deleted, mustn't have one.
const SEARCHES: u32 = 64;

/// The same for an expression that stays as long as the process, of which nothing is lost. One that
/// is hardly ever searched needn't be made a second time.
const SEARCHES_OF_PERMANENT: u32 = 4;

/// A regular expression. Contracts see it as its text, and whether it ignores the case of letters.
///
/// To set up a search takes a hundred times as long as to search a short text. So what one search
/// set up is kept for the next, once there were so many that this pays.
pub struct RegularExpression {
    text: Octets,
    ci: bool,
    searched: Box<Searched>,
}

// Written out, so that letting one go is one call in the proofs of callers.
impl Drop for RegularExpression {
    fn drop(self) {
        let RegularExpression {
            text: _text,
            ci: _ci,
            searched: _searched,
        } = self;
    }
}

/// What searches need. It stands in a block of its own, since a cell can't be moved out of an enum,
/// and an expression takes more than a thousand bytes.
#[derive(Drop)]
struct Searched {
    made: Regex,
    /// How many searches more are set up each by itself, before a matcher is kept.
    left: Cell<u32>,
    kept: Cell<Option<KeptMatcher>>,
}

impl Model for RegularExpression {
    ghost use Rattle.hx_outside.specs.Expressions.{IsExpression};
    ghost use Rattle.hx_outside.specs.Makers.{ExpressionText};

    ghost Value = { ExpressionText };

    ghost view = { λ expression. record { text = expression.text; ci = expression.ci } };

    ghost invariant = { λ expression.
        IsExpression expression.ci expression.text expression.searched.value.made };
}

/// What searches for an expression: set up for one search, or kept from an earlier one. Both stand
/// in blocks of their own: a matcher takes 17 kilobytes, and its place is cleared at each search.
#[derive(Drop)]
pub enum Search<'e> {
    Fresh(Box<Matcher<'e>>),
    Kept(Kept),
}

impl RegularExpression {
    /// The expression `made` of the text, which is copied into memory of `alloc`; `ci` says whether
    /// it ignores the case of letters. `NoMemory` where memory runs out.
    pub fn new(
        alloc: Global,
        text: &[u8],
        ci: bool,
        made: Regex,
    ) -> Result<RegularExpression, NoMemory>
        requires { IsExpression ci text.now made }
        ensures { IfOk result (λ expression.
            expression ≡ record { text = text.now; ci = ci }) }
    {
        RegularExpression::kept_after(alloc, SEARCHES, text, ci, made)
    }

    /// The same for an expression that stays as long as the process, as that of a rule: what a
    /// search of it sets up is kept sooner.
    pub fn permanent(
        alloc: Global,
        text: &[u8],
        ci: bool,
        made: Regex,
    ) -> Result<RegularExpression, NoMemory>
        requires { IsExpression ci text.now made }
        ensures { IfOk result (λ expression.
            expression ≡ record { text = text.now; ci = ci }) }
    {
        RegularExpression::kept_after(alloc, SEARCHES_OF_PERMANENT, text, ci, made)
    }

    /// The same, of which a matcher is kept after so many searches.
    fn kept_after(
        alloc: Global,
        searches: u32,
        text: &[u8],
        ci: bool,
        made: Regex,
    ) -> Result<RegularExpression, NoMemory>
        requires { IsExpression ci text.now made }
        ensures { IfOk result (λ expression.
            expression ≡ record { text = text.now; ci = ci }) }
    {
        let text = Octets::copy(alloc, text)?;
        let searched = Box::new(
            alloc,
            Searched {
                made,
                left: Cell::new(searches),
                kept: Cell::new(None),
            },
        )?;
        Ok(RegularExpression { text, ci, searched })
    }

    /// The text of the expression.
    pub fn text(&self) -> &[u8]
        ensures { result.now ≡ self.now.text }
    {
        self.text.as_slice()
    }

    /// What searches for the expression; one that was kept is to be given back by `keep`.
    /// `NoMemory` where memory runs out.
    pub fn search(&self, alloc: Global) -> Result<Search<'_>, NoMemory>
        ensures { IfOk result (IsSearchFor self.now) }
    {
        if let Some(kept) = self.kept_matcher() {
            return Ok(Search::Kept(kept));
        }
        let left = self.searched.left.get();
        if left == 0 {
            self.searched.left.set(SEARCHES);
            if let Ok(kept) = lasting(alloc, self.text.as_slice(), self.ci) {
                return Ok(Search::Kept(kept));
            }
        } else {
            self.searched.left.set(left - 1);
        }
        Ok(Search::Fresh(self.fresh(alloc)?))
    }

    /// A matcher for one search. Its place is cleared in this function alone, so a search by a kept
    /// one pays nothing for it.
    #[inline(never)]
    fn fresh(&self, alloc: Global) -> Result<Box<Matcher<'_>>, NoMemory>
        ensures { IfOk result (λ matcher. IsPatternOf self.now (matcher_pattern matcher.value)) }
    {
        let matcher = self.searched.made.matcher(alloc)?;
        Ok(Box::new(alloc, matcher)?)
    }

    /// The matcher of an earlier search. A clause knows nothing of what a cell holds, so its text is
    /// compared.
    fn kept_matcher(&self) -> Option<Kept>
        ensures { IfSome result (IsKeptFor self.now) }
    {
        match self.searched.kept.take() {
            Some(kept) => kept.of(self.text.as_slice(), self.ci),
            None => None,
        }
    }

    /// Takes back what searched, for a later search.
    pub fn keep(&self, kept: Kept)
        requires { IsKeptFor self.now kept }
    {
        let kept = KeptMatcher::after(kept, self.ci);
        self.searched.kept.set(Some(kept));
    }

    /// Whether the expression matches somewhere in the bytes. `NoMemory` where memory runs out.
    pub fn is_match(&self, alloc: Global, bytes: &[u8]) -> Result<bool, NoMemory>
        ensures { IfOk result (λ hit. matches_in self.now bytes.now ≡ Some hit) }
    {
        match self.search(alloc)? {
            Search::Fresh(mut matcher) => Ok(matcher.is_match(bytes)),
            Search::Kept(mut kept) => {
                let hit = kept.matcher.is_match(bytes);
                self.keep(kept);
                Ok(hit)
            }
        }
    }
}
