ghost use Rattle.std.specs.Prelude.{◌≡◌, ◌∷◌, None, Some, IfOk, if◌then◌else◌, slice_get, true};
ghost use Rattle.hx_words.specs.Calls.{steps_of, further_steps};
ghost use Rattle.hx_words.specs.StepView.{step_view};
ghost use Rattle.hx_calls.specs.Arguments.{optional, read_form, required};
ghost use Rattle.hx_calls.specs.Codes.{AnswersAs};
ghost use Rattle.hx_calls.specs.Criteria.{conv_call, conv_fault, convs_after, criterion_of};
ghost use Rattle.hx_calls.specs.Criteria.{criterion_of_steps, derived_fetches, derived_methods};
ghost use Rattle.hx_calls.specs.Criteria.{derived_of_parts, fetch_by, fetch_way};
ghost use Rattle.hx_calls.specs.Criteria.{map_arguments, map_head, map_table};
ghost use Rattle.hx_calls.specs.Formats.{rest_after};
ghost use Rattle.hx_calls.specs.Forms.Form.{ValueOfMap};
ghost use Rattle.hx_calls.specs.Known.{Extends, ReadsAs, ReadsPart, with_named_file};
ghost use Rattle.hx_calls.specs.Tables.{entry_at};
ghost use Rattle.hx_calls.specs.Values.{value_of_map};

use crate::arguments::counted;
use crate::convs::conv_name;
use crate::derived_table::{DERIVED_FETCHES, DERIVED_METHODS};
use crate::expression::{self, fault_of};
use crate::fault::{BAD_ARGUMENT, SpellFault, UNSUPPORTED, form_fault};
use crate::fetches::{FetchName, fetch, fetch_name};
use crate::known::Knowledge;
use crate::lookup::lookup;
use crate::map_table::MAPS;
use crate::table_specs::{HeadSpec, MapOutput};
use hx_ast::{Conv, Convs, Expr, Fetch, Items};
use hx_text::{By, NoMemory, Octets, Out, cut_at, read_i64, read_ip};
use hx_words::{ArgFault, Call, CallStep, laws, next_call};
use std::alloc::Global;
use std::marker::Model;

/// The criterion of an ACL: an expression, and the match method that the name of its fetch brings,
/// if it brings one.
#[derive(Drop)]
pub struct Criterion {
    /// the expression
    pub expr: Expr,
    /// the method that the name of the fetch brings
    pub by: Option<By>,
}

impl Model for Criterion {
    ghost use Rattle.hx_calls.specs.Criteria.{Criterion};

    ghost Value = { Criterion };

    ghost view = { λ criterion. record { expr = criterion.expr; by = criterion.by } };
}

/// The fetch of a criterion, and the method of its name.
#[derive(Drop)]
pub(crate) struct MethodFetch {
    pub(crate) fetch: Fetch,
    pub(crate) by: Option<By>,
}

impl Model for MethodFetch {
    ghost use Rattle.hx_calls.specs.Criteria.{MethodFetch};

    ghost Value = { MethodFetch };

    ghost view = { λ found. record { fetch = found.fetch; by = found.by } };
}

/// What the name of a fetch says in a criterion.
#[derive(Clone, Copy)]
pub(crate) struct FetchWay {
    pub(crate) name: FetchName,
    pub(crate) by: Option<By>,
}

impl Model for FetchWay {
    ghost use Rattle.hx_calls.specs.Criteria.{FetchWay};

    ghost Value = { FetchWay };

    ghost view = { λ way. record { name = way.name; by = way.by } };

    ghost inverse = { λ way. record { name = way.name; by = way.by } };
}

/// How a map is searched, and the type of its values.
#[derive(Clone, Copy)]
pub(crate) struct MapWay {
    pub(crate) by: By,
    pub(crate) out: Out,
}

impl Model for MapWay {
    ghost use Rattle.hx_calls.specs.Criteria.{MapWay};

    ghost Value = { MapWay };

    ghost view = { λ way. record { by = way.by; out = way.out } };

    ghost inverse = { λ way. record { by = way.by; out = way.out } };
}

fn map_way(name: &[u8]) -> Option<MapWay>
    ensures { result ≡ entry_at map_table name.now }
{
    match lookup(&MAPS, name) {
        None => None,
        Some((by, out)) => Some(MapWay { by, out }),
    }
}

/// Whether a text can be read as a value of this type.
fn is_map_value(out: Out, text: &[u8]) -> bool
    ensures { value_of_map out text.now ≡ if result then Some text.now else None }
{
    match out {
        Out::Str => true,
        Out::Int => read_i64(text).is_some(),
        Out::Ip => read_ip(text).is_some(),
    }
}

/// The default of a map whose values have this type, if one is given.
fn map_default(alloc: Global, out: Out, call: &Call) -> Result<Option<Octets>, SpellFault>
    ensures { AnswersAs result
        (optional (read_form (ValueOfMap out)) (slice_get call.now.args 1)) }
{
    let Some(text) = call.arg(1) else {
        return Ok(None);
    };
    if is_map_value(out, text) {
        Ok(Some(Octets::copy(alloc, text)?))
    } else {
        Err(SpellFault::Code(BAD_ARGUMENT))
    }
}

/// The reference of the file of a map.
fn map_file(known: &mut Knowledge, line: u64, call: &Call) -> Result<u32, SpellFault>
    ensures answers { ReadsAs result known.new
        (required (λ name. with_named_file line name true known.old)
        (slice_get call.now.args 0)) }
    ensures extends { Extends known.old known.new }
{
    match call.arg(0) {
        None => Err(SpellFault::Code(BAD_ARGUMENT)),
        Some(name) => known.named_file(line, name, true),
    }
}

/// The head of the map whose file is the reference at this position.
fn map_head(known: &mut Knowledge, way: MapWay, table: u32) -> Result<u32, NoMemory>
    ensures number { IfOk result (λ n. map_head way (record { value = table; known = known.old })
        ≡ record { value = n; known = known.new }) }
    ensures extends { Extends known.old known.new }
{
    known.output(MapOutput {
        table,
        out: way.out,
    })?;
    known.head(HeadSpec {
        table,
        by: way.by,
        ci: false,
    })
}

/// The converter that looks up in a map.
fn map_conv(
    known: &mut Knowledge,
    alloc: Global,
    line: u64,
    way: MapWay,
    call: &Call,
) -> Result<Conv, SpellFault>
    ensures answers { ReadsAs result known.new (map_arguments line way call.now.args known.old) }
    ensures extends { Extends known.old known.new }
{
    counted(call, 1, 2)?;
    let table = map_file(known, line, call)?;
    let default = map_default(alloc, way.out, call)?;
    let head = map_head(known, way, table)?;
    Ok(Conv::Map(head, way.by, way.out, default))
}

fn conv_of(known: &mut Knowledge, alloc: Global, line: u64, call: &Call) -> Result<Conv, SpellFault>
    ensures answers { ReadsAs result known.new (conv_call line call.now known.old) }
    ensures extends { Extends known.old known.new }
{
    match map_way(call.name()) {
        Some(way) => map_conv(known, alloc, line, way, call),
        None => expression::conv_of(alloc, call),
    }
}

fn conv_fault(name: &[u8], fault: ArgFault) -> SpellFault
    ensures { result ≡ conv_fault name.now fault }
{
    match map_way(name) {
        Some(_) => form_fault(fault),
        None => fault_of(conv_name(name), fault),
    }
}

#[tactic(auto, unfolding(crate::specs::Criteria::derived_fetches))]
fn derived_fetch(name: &[u8]) -> Option<FetchName>
    ensures { result ≡ entry_at derived_fetches name.now }
{
    lookup(&DERIVED_FETCHES, name)
}

#[tactic(auto, unfolding(crate::specs::Criteria::derived_methods))]
fn derived_method(name: &[u8]) -> Option<By>
    ensures { result ≡ entry_at derived_methods name.now }
{
    lookup(&DERIVED_METHODS, name)
}

/// The fetch and the method of a name that is made of both.
fn derived_way(name: &[u8], method: &[u8]) -> Option<FetchWay>
    ensures { result ≡ derived_of_parts (name.now, method.now) }
{
    let Some(name) = derived_fetch(name) else {
        return None;
    };
    match derived_method(method) {
        None => None,
        Some(by) => Some(FetchWay { name, by: Some(by) }),
    }
}

fn fetch_way(name: &[u8]) -> Option<FetchWay>
    ensures { result ≡ fetch_way name.now }
{
    if let Some(name) = fetch_name(name) {
        return Some(FetchWay { name, by: None });
    }
    match cut_at(b'_', name) {
        None => None,
        Some((name, method)) => derived_way(name, method),
    }
}

fn fetch_of(alloc: Global, call: &Call) -> Result<MethodFetch, SpellFault>
    ensures { AnswersAs result (fetch_by (fetch_way call.now.name) call.now.args) }
{
    match fetch_way(call.name()) {
        None => Err(SpellFault::Code(UNSUPPORTED)),
        Some(way) => {
            let fetch = fetch(alloc, way.name, call)?;
            Ok(MethodFetch { fetch, by: way.by })
        }
    }
}

/// The converters that a text of calls writes, and what follows their stop byte, if there is one.
#[derive(Drop)]
pub(crate) struct ConvsRead<'a> {
    pub(crate) convs: Convs,
    pub(crate) rest: &'a [u8],
}

/// The converters that a text of calls writes. The calls are judged one by one from the left.
#[tactic(auto, using(crate::proofs::CriterionSteps::steps_of_criterion))]
pub(crate) fn convs_of<'a>(
    known: &mut Knowledge,
    alloc: Global,
    line: u64,
    stop: Option<u8>,
    text: &'a [u8],
) -> Result<ConvsRead<'a>, SpellFault>
    ensures answers { ReadsPart (λ read. read.convs) result known.new
        (convs_after line (steps_of stop text.now) known.old) }
    ensures rest { IfOk result (λ read. read.rest.now ≡ rest_after (steps_of stop text.now)) }
    ensures extends { Extends known.old known.new }
{
    let mut convs = Items::new(alloc);
    let mut rest = text;
    'calls: loop {
        laws::call_law(rest, stop);
        match next_call(alloc, rest, stop)? {
            CallStep::More { call, rest: after } => {
                convs.push(conv_of(known, alloc, line, &call)?)?;
                rest = after;
            }
            CallStep::Last { call, rest: after } => {
                convs.push(conv_of(known, alloc, line, &call)?)?;
                return Ok(ConvsRead { convs, rest: after });
            }
            CallStep::Faulty { name, fault } => return Err(conv_fault(name.as_slice(), fault)),
        }
    }
}

/// The criterion of a text that begins with this step.
fn criterion_from(
    known: &mut Knowledge,
    alloc: Global,
    line: u64,
    step: CallStep<'_>,
) -> Result<Criterion, SpellFault>
    ensures answers { let first = step_view step.entry in ReadsAs result known.new
        (criterion_of_steps line
        (first ∷ further_steps (λ rest. steps_of None rest) first) known.old) }
    ensures extends { Extends known.old known.new }
{
    match step {
        CallStep::More { call, rest } => {
            let MethodFetch { fetch, by } = fetch_of(alloc, &call)?;
            let ConvsRead { convs, .. } = convs_of(known, alloc, line, None, rest)?;
            Ok(Criterion {
                expr: Expr { fetch, convs },
                by,
            })
        }
        CallStep::Last { call, rest: _ } => {
            let MethodFetch { fetch, by } = fetch_of(alloc, &call)?;
            let convs = Items::new(alloc);
            Ok(Criterion {
                expr: Expr { fetch, convs },
                by,
            })
        }
        CallStep::Faulty { name, fault } => Err(fault_of(fetch_way(name.as_slice()), fault)),
    }
}

/// The criterion that a text on this line writes: a fetch, perhaps with a match method in its name,
/// and then converters. The files of maps are references from then on.
pub fn criterion_of(
    known: &mut Knowledge,
    alloc: Global,
    line: u64,
    text: &[u8],
) -> Result<Criterion, SpellFault>
    ensures answers { ReadsAs result known.new (criterion_of line text.now known.old) }
    ensures extends { Extends known.old known.new }
{
    laws::call_law(text, None);
    let step = next_call(alloc, text, None)?;
    criterion_from(known, alloc, line, step)
}
