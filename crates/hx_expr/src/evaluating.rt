ghost use Rattle.std.specs.Prelude.{◌≡◌, [], ◌∷◌, true, is_some, List, IfOk, IfSome, None};
ghost use Rattle.std.specs.List.{list_any};
ghost use Rattle.hx_fetch.specs.Fetches.{has_one_occurrence, occurrences_of};
ghost use Rattle.hx_fetch.specs.World.{Context, context_of};
ghost use Rattle.hx_sample.specs.Find.{Entry};
ghost use Rattle.hx_sample.specs.Tables.{TableHead};
ghost use Rattle.hx_sample.specs.Seen.{occurrence_value, value_of};
ghost use Rattle.hx_expr.specs.Built.{default_text, default_value};
ghost use Rattle.hx_expr.specs.Values.{HasTableHead, HasTableHeads, IsHeadBy, converted_value, expr_value, expr_values, map_value, mapped_value, value_after};

use crate::map_default::MapDefault;
use crate::plan::{Built, Plan, PlanConv};
use hx_ast::{Conv, kind_out};
use hx_conv_text::apply as apply_text;
use hx_conv_val::apply as apply_val;
use hx_fetch::{OccurrenceReader, World, chosen, has_one_occurrence, is_found};
use hx_pool::Steps;
use hx_sample::{Bytes, Sample, Samples, Tables, cast};
use hx_text::{By, NoMemory, Out};
use std::alloc::Global;
use std::sync::ledger::Ledger;

/// What the map of the head gives for a sample.
fn look_up<'w, T: Tables, L: Ledger>(
    alloc: Global,
    head: u32,
    by: By,
    out: Out,
    default: &MapDefault,
    sample: Sample<'w>,
    tables: &'w T,
    steps: &mut Steps<L>,
) -> Result<Option<Sample<'w>>, NoMemory>
    requires head { IsHeadBy (T.heads (T.state tables.now)) head by }
    requires read { default_value default.now
        ≡ mapped_value out (default_text default.now) None }
    ensures { IfOk result (λ value. occurrence_value value
        ≡ map_value (T.heads (T.state tables.now)) (T.lists (T.state tables.now))
        (Conv.Map head by out (default_text default.now)) (value_of sample.entry)) }
{
    let Some(input) = cast(alloc, sample, by.kind())? else {
        return Ok(None);
    };
    match tables.find(alloc, head, &input, steps)? {
        Some(hit) => cast(alloc, Sample::Str(Bytes::Lent(hit.value)), kind_out(out)),
        None => default.value(alloc),
    }
}

/// What a converter makes of a sample.
fn apply<'w, T: Tables, L: Ledger>(
    alloc: Global,
    conv: &PlanConv,
    sample: Sample<'w>,
    world: &World<'w>,
    tables: &'w T,
    steps: &mut Steps<L>,
) -> Result<Option<Sample<'w>>, NoMemory>
    requires { HasTableHead (T.heads (T.state tables.now)) conv.now }
    ensures { IfOk result (λ value. occurrence_value value
        ≡ converted_value (context_of world.now) (T.heads (T.state tables.now))
        (T.lists (T.state tables.now))
        conv.now (value_of sample.entry)) }
{
    match &conv.built {
        Built::Text(conv) => apply_text(alloc, conv, sample, world.conn.id, world.vars),
        Built::Val(conv) => apply_val(alloc, conv, sample, world.conn.id, world.vars),
        Built::Map(head, by, out, default) => {
            look_up(alloc, *head, *by, *out, default, sample, tables, steps)
        }
    }
}

/// What the converters make of an occurrence, one after the other. None stays none. It is kept out
/// of its callers, most of which have no converters: a function pays at its entry for the locals of
/// all that is inlined into it.
#[inline(never)]
fn convert<'w, T: Tables, L: Ledger>(
    alloc: Global,
    convs: &[PlanConv],
    occurrence: Option<Sample<'w>>,
    world: &World<'w>,
    tables: &'w T,
    steps: &mut Steps<L>,
) -> Result<Option<Sample<'w>>, NoMemory>
    requires { HasTableHeads (T.heads (T.state tables.now)) convs.now }
    ensures { IfOk result (λ value. occurrence_value value
        ≡ value_after (context_of world.now) (T.heads (T.state tables.now))
        (T.lists (T.state tables.now))
        convs.now (occurrence_value occurrence.entry)) }
{
    let mut value = occurrence;
    for conv in convs {
        value = match value {
            Some(sample) => apply(alloc, conv, sample, world, tables, steps)?,
            None => None,
        };
    }
    Ok(value)
}

impl Plan {
    /// The occurrences of the expression's fetch in `world`, in their order, for
    /// `eval_occurrence` to make a value of each. It fails only where memory runs out.
    pub fn occurrences<'p, 'w>(
        &'p self,
        alloc: Global,
        world: &World<'w>,
    ) -> Result<OccurrenceReader<'p, 'w>, NoMemory>
        ensures { IfOk result (λ occurrences.
            occurrences ≡ occurrences_of self.now.fetch (context_of world.now)) }
    {
        OccurrenceReader::new(alloc, &self.fetch, world)
    }

    /// Whether the expression has exactly one value, whatever the request is: that which `eval`
    /// gives, and which may be none. Then `eval` does what `occurrences` and `eval_occurrence` do,
    /// with less work.
    #[tactic(auto, using(crate::proofs::ValueLemmas::one_value))]
    pub fn has_one_value(&self) -> bool
        ensures value { result ≡ has_one_occurrence self.now.fetch }
        ensures one { has_one_occurrence self.now.fetch ≡ true
            → (context : Context) (heads : List TableHead) (lists : List (List Entry))
            → expr_values context heads lists self.now
            ≡ expr_value context heads lists self.now ∷ [] }
    {
        has_one_occurrence(&self.fetch)
    }

    /// Whether the expression has some value in `world` that isn't none, if that can be told
    /// without a converter: where it has none. No value is made for that, and no memory is taken.
    #[tactic(auto, using(crate::proofs::ValueLemmas::found_unconverted))]
    pub fn is_found(&self, alloc: Global, world: &World<'_>) -> Option<bool>
        ensures { IfSome result (λ found.
            (heads : List TableHead) (lists : List (List Entry)) → found
            ≡ list_any is_some (expr_values (context_of world.now) heads lists self.now)) }
    {
        match self.convs.as_slice() {
            [] => Some(is_found(alloc, &self.fetch, world)),
            _ => None,
        }
    }
}

/// What the converters of the expression make of an occurrence of its fetch in `world`, one after
/// the other (HAProxy configuration manual 2.4, section 7.3.1): none where it is none, or a
/// converter fails. Otherwise as `eval`, which takes one occurrence, as `eval_all` takes all.
pub fn eval_occurrence<'w, T: Tables, L: Ledger>(
    alloc: Global,
    plan: &Plan,
    occurrence: Option<Sample<'w>>,
    world: &World<'w>,
    tables: &'w T,
    steps: &mut Steps<L>,
) -> Result<Option<Sample<'w>>, NoMemory>
    requires heads { HasTableHeads (T.heads (T.state tables.now)) plan.now.convs }
    ensures { IfOk result (λ value. occurrence_value value
        ≡ value_after (context_of world.now) (T.heads (T.state tables.now))
        (T.lists (T.state tables.now)) plan.now.convs (occurrence_value occurrence.entry)) }
{
    let convs = plan.convs.as_slice();
    if convs.is_empty() {
        return Ok(occurrence);
    }
    convert(alloc, convs, occurrence, world, tables, steps)
}

/// The value of the expression in `world` (HAProxy configuration manual 2.4, section 7.3): the
/// occurrence of its fetch that expressions take, as its converters make it, one after the other.
/// None where the fetch finds none, or a converter fails. Maps are looked up in `tables`, whose
/// steps are counted in `steps`. Bytes that no converter makes anew are lent from the request, the
/// variables and the tables. It fails only where memory runs out.
///
/// The heads that the expression names are heads of these tables, with the match methods that it
/// names there.
#[inline(always)]
pub fn eval<'w, T: Tables, L: Ledger>(
    alloc: Global,
    plan: &Plan,
    world: &World<'w>,
    tables: &'w T,
    steps: &mut Steps<L>,
) -> Result<Option<Sample<'w>>, NoMemory>
    requires heads { HasTableHeads (T.heads (T.state tables.now)) plan.now.convs }
    ensures { IfOk result (λ value. occurrence_value value
        ≡ expr_value (context_of world.now) (T.heads (T.state tables.now))
        (T.lists (T.state tables.now)) plan.now) }
{
    if let [] = plan.convs.as_slice() {
        chosen(alloc, &plan.fetch, world)
    } else {
        eval_converted(alloc, plan, world, tables, steps)
    }
}

/// The same of an expression that may have converters. It is kept out of its caller, as `convert`
/// is.
#[inline(never)]
fn eval_converted<'w, T: Tables, L: Ledger>(
    alloc: Global,
    plan: &Plan,
    world: &World<'w>,
    tables: &'w T,
    steps: &mut Steps<L>,
) -> Result<Option<Sample<'w>>, NoMemory>
    requires heads { HasTableHeads (T.heads (T.state tables.now)) plan.now.convs }
    ensures { IfOk result (λ value. occurrence_value value
        ≡ expr_value (context_of world.now) (T.heads (T.state tables.now))
        (T.lists (T.state tables.now)) plan.now) }
{
    let occurrence = chosen(alloc, &plan.fetch, world)?;
    convert(
        alloc,
        plan.convs.as_slice(),
        occurrence,
        world,
        tables,
        steps,
    )
}

/// The values of the expression in `world`, one for each occurrence of its fetch, in their order,
/// as an ACL tries them (HAProxy configuration manual 2.4, section 7.1). An occurrence that is
/// none, or for which a converter fails, keeps its position, as none. Otherwise as `eval`. Whoever
/// needs one value at a time takes `Plan::occurrences` and `eval_occurrence`, which keep no list.
pub fn eval_all<'w, T: Tables, L: Ledger>(
    alloc: Global,
    plan: &Plan,
    world: &World<'w>,
    tables: &'w T,
    steps: &mut Steps<L>,
) -> Result<Samples<'w>, NoMemory>
    requires heads { HasTableHeads (T.heads (T.state tables.now)) plan.now.convs }
    ensures { IfOk result (λ values. values
        ≡ expr_values (context_of world.now) (T.heads (T.state tables.now))
        (T.lists (T.state tables.now)) plan.now) }
{
    let mut values = Samples::new(alloc);
    for occurrence in plan.occurrences(alloc, world)? {
        values.push(eval_occurrence(alloc, plan, occurrence, world, tables, steps)?)?;
    }
    Ok(values)
}
