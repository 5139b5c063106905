ghost use Rattle.std.specs.Prelude.{◌≡◌, IfOk, Option, option_and_then};
ghost use Rattle.std.specs.List.{All};
ghost use Rattle.hx_acl.specs.Grounds.{acl_ground, conj_grounds, entry_ground, held_of, occurrence_ground, predefined_ground, term_ground, test_ground, value_ground};
ghost use Rattle.hx_acl.specs.Holds.{HasAclHeads, HasAclsHeads, HasCondHeads};
ghost use Rattle.hx_acl.specs.TermView.{use_of};
ghost use Rattle.hx_acl.specs.Tests.{HasTestHeads, TakesHead};
ghost use Rattle.hx_acl.specs.declared.explaining.Ground.{Ground};
ghost use Rattle.hx_expr.specs.Values.{IsHeadBy};
ghost use Rattle.hx_fetch.specs.World.{context_of};
ghost use Rattle.hx_sample.specs.Cast.{cast_of};
ghost use Rattle.hx_sample.specs.Keys.{kind_by};
ghost use Rattle.hx_sample.specs.Seen.{occurrence_value, value_of};
ghost use Rattle.hx_sample.specs.declared.sample.Value.{Value};

use crate::acl_set::AclSet;
use crate::condition::{Condition, acl_holds};
use crate::predefined::predefined_matches;
use crate::term::{TermAcl, TestTerm};
use crate::test::Test;
use hx_ast::Items;
use hx_expr::eval_occurrence;
use hx_fetch::World;
use hx_pool::Steps;
use hx_sample::{Sample, Tables, cast};
use hx_text::{By, Kind, NoMemory};
use std::alloc::Global;
use std::sync::ledger::Ledger;

/// What a term of a condition holds by.
#[derive(Clone, Copy, Drop, PartialEq, Eq)]
pub enum Ground {
    /// the term is negated, and its ACL doesn't hold
    Negated,
    /// the sample alone: by `found` or by `bool`, or as a predefined ACL says
    Sample,
    /// the entry of this number, which the sample finds under this head
    Entry { head: u32, number: u64 },
}

/// Why a condition holds: by which of its conjunctions, counted from 1, and what each term of this
/// one holds by, in their order.
#[derive(Drop)]
pub struct Held {
    pub conj: usize,
    pub grounds: Items<Ground>,
}

/// The first of the heads under which an entry is found for the sample, and the entry's number.
fn entry_ground<T: Tables, L: Ledger>(
    alloc: Global,
    heads: &[u32],
    sample: &Sample<'_>,
    tables: &T,
    steps: &mut Steps<L>,
) -> Result<Option<Ground>, NoMemory>
    requires { All (TakesHead (T.heads (T.state tables.now)) (value_of sample.now)) heads.now }
    ensures { IfOk result (λ given. given
        ≡ entry_ground (T.heads (T.state tables.now)) (T.lists (T.state tables.now)) heads.now
        (value_of sample.now)) }
{
    for head in heads {
        if let Some(hit) = tables.find(alloc, *head, sample, steps)? {
            return Ok(Some(Ground::Entry {
                head: *head,
                number: hit.number,
            }));
        }
    }
    Ok(None)
}

/// What a sample gives by `bool`: itself, where it is true as a boolean.
fn true_ground(alloc: Global, sample: Sample<'_>) -> Result<Option<Ground>, NoMemory>
    ensures { (entry : Value → Option Ground) → IfOk result (λ given. given ≡
        option_and_then (value_ground By.Bool entry) (cast_of (value_of sample.entry) Kind.Bool)) }
{
    match cast(alloc, sample, Kind::Bool)? {
        Some(Sample::Bool(true)) => Ok(Some(Ground::Sample)),
        _ => Ok(None),
    }
}

impl Test {
    /// What the sample finds, as the type that the method looks at.
    fn found_ground<T: Tables, L: Ledger>(
        &self,
        alloc: Global,
        sample: Sample<'_>,
        tables: &T,
        steps: &mut Steps<L>,
    ) -> Result<Option<Ground>, NoMemory>
        requires { All (λ position. IsHeadBy (T.heads (T.state tables.now)) position self.now.by)
            self.now.heads }
        ensures { IfOk result (λ given. given
            ≡ option_and_then (entry_ground (T.heads (T.state tables.now))
            (T.lists (T.state tables.now)) self.now.heads)
            (cast_of (value_of sample.entry) (kind_by self.now.by))) }
    {
        match cast(alloc, sample, self.by.kind())? {
            Some(input) => entry_ground(alloc, self.heads.as_slice(), &input, tables, steps),
            None => Ok(None),
        }
    }

    /// What the occurrence gives, if it matches.
    fn occurrence_ground<T: Tables, L: Ledger>(
        &self,
        alloc: Global,
        occurrence: Option<Sample<'_>>,
        tables: &T,
        steps: &mut Steps<L>,
    ) -> Result<Option<Ground>, NoMemory>
        requires { All (λ position. IsHeadBy (T.heads (T.state tables.now)) position self.now.by)
            self.now.heads }
        ensures { IfOk result (λ given. given
            ≡ occurrence_ground self.now.by
            (entry_ground (T.heads (T.state tables.now)) (T.lists (T.state tables.now))
            self.now.heads)
            (occurrence_value occurrence.entry)) }
    {
        let Some(sample) = occurrence else {
            return Ok(None);
        };
        match self.by {
            By::Found => Ok(Some(Ground::Sample)),
            By::Bool => true_ground(alloc, sample),
            By::Int | By::Ip | By::Bin | By::Len => self.found_ground(alloc, sample, tables, steps),
            By::Str | By::Beg | By::End | By::Sub => {
                self.found_ground(alloc, sample, tables, steps)
            }
            By::Dir | By::Dom | By::Reg => self.found_ground(alloc, sample, tables, steps),
        }
    }

    /// What the first occurrence of the expression gives that matches. Each is looked for and tried
    /// before the next, and those after it are left.
    pub(crate) fn matching_ground<'w, T: Tables, L: Ledger>(
        &self,
        alloc: Global,
        world: &World<'w>,
        tables: &'w T,
        steps: &mut Steps<L>,
    ) -> Result<Option<Ground>, NoMemory>
        requires { HasTestHeads (T.heads (T.state tables.now)) self.now }
        ensures { IfOk result (λ given. given
            ≡ test_ground (context_of world.now) (T.heads (T.state tables.now))
            (T.lists (T.state tables.now))
            self.now) }
    {
        for occurrence in self.plan.occurrences(alloc, world)? {
            let value = eval_occurrence(alloc, &self.plan, occurrence, world, tables, steps)?;
            if let Some(given) = self.occurrence_ground(alloc, value, tables, steps)? {
                return Ok(Some(given));
            }
        }
        Ok(None)
    }
}

/// What the predefined ACL of this name holds by in `world`, if it holds.
pub(crate) fn predefined_ground(name: &[u8], world: &World<'_>) -> Option<Ground>
    ensures { result ≡ predefined_ground (context_of world.now) name.now }
{
    if predefined_matches(name, world) {
        return Some(Ground::Sample);
    }
    None
}

/// What the ACL of a term holds by, if it holds.
fn acl_ground<'w, T: Tables, L: Ledger>(
    alloc: Global,
    acl: &TermAcl,
    acls: &AclSet,
    world: &World<'w>,
    tables: &'w T,
    steps: &mut Steps<L>,
) -> Result<Option<Ground>, NoMemory>
    requires heads { HasAclHeads (T.heads (T.state tables.now)) (use_of acl.now) }
    requires acls { HasAclsHeads (T.heads (T.state tables.now)) acls.now }
    ensures { IfOk result (λ given. given
        ≡ acl_ground (context_of world.now) (T.heads (T.state tables.now))
        (T.lists (T.state tables.now)) acls.now
        (use_of acl.now)) }
{
    match acl {
        TermAcl::Named(name) => acls.name_ground(alloc, name, world, tables, steps),
        TermAcl::Own(test) => test.matching_ground(alloc, world, tables, steps),
    }
}

/// What the term holds by, if it holds.
fn term_ground<'w, T: Tables, L: Ledger>(
    alloc: Global,
    term: &TestTerm,
    acls: &AclSet,
    world: &World<'w>,
    tables: &'w T,
    steps: &mut Steps<L>,
) -> Result<Option<Ground>, NoMemory>
    requires heads { HasAclHeads (T.heads (T.state tables.now)) term.now.acl }
    requires acls { HasAclsHeads (T.heads (T.state tables.now)) acls.now }
    ensures { IfOk result (λ given. given
        ≡ term_ground (context_of world.now) (T.heads (T.state tables.now))
        (T.lists (T.state tables.now)) acls.now
        term.now) }
{
    if !term.negated {
        return acl_ground(alloc, &term.acl, acls, world, tables, steps);
    }
    let holds = acl_holds(alloc, &term.acl, acls, world, tables, steps)?;
    Ok(if holds { None } else { Some(Ground::Negated) })
}

/// What each term of the conjunction holds by, in their order, or none where one doesn't hold.
fn conj_grounds<'w, T: Tables, L: Ledger>(
    alloc: Global,
    conj: &[TestTerm],
    acls: &AclSet,
    world: &World<'w>,
    tables: &'w T,
    steps: &mut Steps<L>,
) -> Result<Option<Items<Ground>>, NoMemory>
    requires heads { All (λ term. HasAclHeads (T.heads (T.state tables.now)) term.acl) conj.now }
    requires acls { HasAclsHeads (T.heads (T.state tables.now)) acls.now }
    ensures { IfOk result (λ given. given
        ≡ conj_grounds (context_of world.now) (T.heads (T.state tables.now))
        (T.lists (T.state tables.now))
        acls.now conj.now) }
{
    let mut grounds = Items::new(alloc);
    for term in conj {
        let Some(given) = term_ground(alloc, term, acls, world, tables, steps)? else {
            return Ok(None);
        };
        grounds.push(given)?;
    }
    Ok(Some(grounds))
}

impl Condition {
    /// Why the condition holds in `world`, and none exactly where it doesn't: the first of its
    /// conjunctions that holds, and what each term of it holds by. A term that is negated holds by
    /// that alone. Of any other term the first declaration of its ACL that matches counts, and the
    /// first occurrence of its expression that makes it match. By `found` and `bool`, and where the
    /// ACL is a predefined one, that is the sample alone. By any other method it is an entry: the
    /// one that is found under the first of the declaration's heads under which one is.
    ///
    /// Steps of searches are counted in `steps`. It fails only where memory runs out.
    ///
    /// The heads that the tests of the condition and of `acls` name are heads of these tables, with
    /// the match methods that they have there.
    pub fn grounds<'w, T: Tables, L: Ledger>(
        &self,
        alloc: Global,
        acls: &AclSet,
        world: &World<'w>,
        tables: &'w T,
        steps: &mut Steps<L>,
    ) -> Result<Option<Held>, NoMemory>
        requires heads { HasCondHeads (T.heads (T.state tables.now)) self.now }
        requires acls { HasAclsHeads (T.heads (T.state tables.now)) acls.now }
        ensures { IfOk result (λ held. held
            ≡ held_of (context_of world.now) (T.heads (T.state tables.now))
            (T.lists (T.state tables.now))
            acls.now self.now) }
    {
        let mut before = 0;
        for conj in self.conjs.as_slice() {
            let given = conj_grounds(alloc, conj.as_slice(), acls, world, tables, steps)?;
            if let Some(grounds) = given {
                return Ok(Some(Held {
                    conj: before + 1,
                    grounds,
                }));
            }
            before += 1;
        }
        Ok(None)
    }
}
