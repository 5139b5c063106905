ghost use Rattle.std.specs.Prelude.{◌≡◌, Bool, false, IfOk, IsTrue, Some};
ghost use Rattle.std.specs.List.{All};
ghost use Rattle.std.specs.Option.{option_map_or};
ghost use Rattle.hx_acl.specs.Matching.{accepts, finds_entry, occurrence_matches, test_matches};
ghost use Rattle.hx_acl.specs.Tests.{HasTestHeads, TakesHead};
ghost use Rattle.hx_expr.specs.Values.{IsHeadBy};
ghost use Rattle.hx_fetch.specs.World.{context_of};
ghost use Rattle.hx_sample.specs.Cast.{cast_of, kind_of};
ghost use Rattle.hx_sample.specs.Keys.{kind_by};
ghost use Rattle.hx_sample.specs.Seen.{occurrence_value, value_of};
ghost use Rattle.hx_sample.specs.declared.sample.Value.{Value};

use crate::test::Test;
use hx_expr::{eval, eval_occurrence};
use hx_fetch::World;
use hx_pool::Steps;
use hx_sample::{Sample, Tables, cast};
use hx_text::{By, Kind, NoMemory};
use std::alloc::Global;
use std::sync::ledger::Ledger;

/// Whether an entry is found for the sample under some of the heads.
fn finds_entry<T: Tables, L: Ledger>(
    alloc: Global,
    heads: &[u32],
    sample: &Sample<'_>,
    tables: &T,
    steps: &mut Steps<L>,
) -> Result<bool, NoMemory>
    requires { All (TakesHead (T.heads (T.state tables.now)) (value_of sample.now)) heads.now }
    ensures { IfOk result (λ found. found
        ≡ finds_entry (T.heads (T.state tables.now)) (T.lists (T.state tables.now)) heads.now
        (value_of sample.now)) }
{
    for head in heads {
        if tables.find(alloc, *head, sample, steps)?.is_some() {
            return Ok(true);
        }
    }
    Ok(false)
}

/// Whether the sample is true, as a boolean.
fn is_true(alloc: Global, sample: Sample<'_>) -> Result<bool, NoMemory>
    ensures { (is_hit : Value → Bool) → IfOk result (λ holds. holds ≡
        option_map_or (accepts By.Bool is_hit) (cast_of (value_of sample.entry) Kind.Bool) false) }
{
    match cast(alloc, sample, Kind::Bool)? {
        Some(Sample::Bool(b)) => Ok(b),
        _ => Ok(false),
    }
}

/// Whether the sample has the type already, one of those that samples have.
fn has_kind(sample: &Sample<'_>, kind: Kind) -> bool
    ensures cast { IsTrue result → cast_of (value_of sample.now) kind ≡ Some (value_of sample.now) }
    ensures kind { IsTrue result → kind_of (value_of sample.now) ≡ kind }
{
    match (sample, kind) {
        (Sample::Int(_), Kind::Int) => true,
        (Sample::Ip(_), Kind::Ip) => true,
        (Sample::Str(_), Kind::Str) => true,
        (Sample::Bin(_), Kind::Bin) => true,
        _ => false,
    }
}

impl Test {
    /// Whether an entry is found for the sample, as the type that the method looks at. Most samples
    /// have that type, and aren't moved through a cast.
    fn finds<T: Tables, L: Ledger>(
        &self,
        alloc: Global,
        sample: Sample<'_>,
        tables: &T,
        steps: &mut Steps<L>,
    ) -> Result<bool, NoMemory>
        requires { All (λ position. IsHeadBy (T.heads (T.state tables.now)) position self.now.by)
            self.now.heads }
        ensures { IfOk result (λ found. found
            ≡ option_map_or (finds_entry (T.heads (T.state tables.now))
            (T.lists (T.state tables.now)) self.now.heads)
            (cast_of (value_of sample.entry) (kind_by self.now.by)) false) }
    {
        if has_kind(&sample, self.by.kind()) {
            finds_entry(alloc, self.heads.as_slice(), &sample, tables, steps)
        } else {
            self.finds_cast(alloc, sample, tables, steps)
        }
    }

    /// The same, by a cast.
    #[inline(never)]
    fn finds_cast<T: Tables, L: Ledger>(
        &self,
        alloc: Global,
        sample: Sample<'_>,
        tables: &T,
        steps: &mut Steps<L>,
    ) -> Result<bool, NoMemory>
        requires { All (λ position. IsHeadBy (T.heads (T.state tables.now)) position self.now.by)
            self.now.heads }
        ensures { IfOk result (λ found. found
            ≡ option_map_or (finds_entry (T.heads (T.state tables.now))
            (T.lists (T.state tables.now)) self.now.heads)
            (cast_of (value_of sample.entry) (kind_by self.now.by)) false) }
    {
        match cast(alloc, sample, self.by.kind())? {
            Some(input) => finds_entry(alloc, self.heads.as_slice(), &input, tables, steps),
            None => Ok(false),
        }
    }

    /// Whether the occurrence matches.
    #[inline(always)]
    fn accepts<T: Tables, L: Ledger>(
        &self,
        alloc: Global,
        occurrence: Option<Sample<'_>>,
        tables: &T,
        steps: &mut Steps<L>,
    ) -> Result<bool, NoMemory>
        requires { All (λ position. IsHeadBy (T.heads (T.state tables.now)) position self.now.by)
            self.now.heads }
        ensures { IfOk result (λ matches. matches
            ≡ occurrence_matches self.now.by
            (finds_entry (T.heads (T.state tables.now)) (T.lists (T.state tables.now))
            self.now.heads)
            (occurrence_value occurrence.entry)) }
    {
        let Some(sample) = occurrence else {
            return Ok(false);
        };
        match self.by {
            By::Found => Ok(true),
            By::Bool => is_true(alloc, sample),
            By::Int | By::Ip | By::Bin | By::Len => self.finds(alloc, sample, tables, steps),
            By::Str | By::Beg | By::End | By::Sub => self.finds(alloc, sample, tables, steps),
            By::Dir | By::Dom | By::Reg => self.finds(alloc, sample, tables, steps),
        }
    }

    /// Whether some occurrence of the expression matches. Where there is always one, it is
    /// evaluated as any expression; and where it need only be there, no value is made.
    #[tactic(auto, using(crate::proofs::MatchLemmas::matching))]
    pub(crate) fn matches<'w, T: Tables, L: Ledger>(
        &self,
        alloc: Global,
        world: &World<'w>,
        tables: &'w T,
        steps: &mut Steps<L>,
    ) -> Result<bool, NoMemory>
        requires { HasTestHeads (T.heads (T.state tables.now)) self.now }
        ensures { IfOk result (λ matches. matches
            ≡ test_matches (context_of world.now) (T.heads (T.state tables.now))
            (T.lists (T.state tables.now))
            self.now) }
    {
        if self.by == By::Found {
            if let Some(found) = self.plan.is_found(alloc, world) {
                return Ok(found);
            }
        }
        if self.plan.has_one_value() {
            let value = eval(alloc, &self.plan, world, tables, steps)?;
            return self.accepts(alloc, value, tables, steps);
        }
        self.some_matches(alloc, world, tables, steps)
    }

    /// The same, occurrence by occurrence. Each is looked for, converted and tried before the next,
    /// and those after the first that matches are left: the memory that is held doesn't grow with
    /// their number. It is kept out of its caller, which most tests don't leave: a function pays at
    /// its entry for the locals of all that is inlined into it.
    #[inline(never)]
    fn some_matches<'w, T: Tables, L: Ledger>(
        &self,
        alloc: Global,
        world: &World<'w>,
        tables: &'w T,
        steps: &mut Steps<L>,
    ) -> Result<bool, NoMemory>
        requires { HasTestHeads (T.heads (T.state tables.now)) self.now }
        ensures { IfOk result (λ matches. matches
            ≡ test_matches (context_of world.now) (T.heads (T.state tables.now))
            (T.lists (T.state tables.now))
            self.now) }
    {
        for occurrence in self.plan.occurrences(alloc, world)? {
            let value = eval_occurrence(alloc, &self.plan, occurrence, world, tables, steps)?;
            if self.accepts(alloc, value, tables, steps)? {
                return Ok(true);
            }
        }
        Ok(false)
    }
}
