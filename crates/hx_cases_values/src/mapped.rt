//! The call of a converter that looks a value up.

ghost use Rattle.std.specs.Prelude.{◌≡◌, ◌<◌, IfOk, List, length};
ghost use Rattle.hx_sample.specs.Tables.{TableHead};
ghost use Rattle.hx_expr.specs.Values.{HasTableHeads, IsHeadBy};

use crate::expressions::{set_case, show_expression};
use crate::methods::way;
use crate::references::{add_uses, held_pairs, one_map, show_added};
use hx_ast::{Conv, Expr, Fetch, Items};
use hx_cases_base::{CaseFault, State};
use hx_outside::PlainMaker;
use hx_refs::{Limits, Refs};
use hx_text::{By, Octets, Out, Scope, VarName, cut_at};
use std::alloc::Global;

/// The type of a map's values.
fn type_of_values(text: &[u8]) -> Result<Out, CaseFault> {
    match text {
        b"str" => Ok(Out::Str),
        b"int" => Ok(Out::Int),
        b"ip" => Ok(Out::Ip),
        _ => Err(CaseFault::BadArguments),
    }
}

/// The default `=TEXT`, or none for `-`.
fn default_of(alloc: Global, text: &[u8]) -> Result<Option<Octets>, CaseFault> {
    match text {
        b"-" => Ok(None),
        [b'=', text @ ..] => Ok(Some(Octets::copy(alloc, text)?)),
        _ => Err(CaseFault::BadArguments),
    }
}

/// The expression that looks the variable `txn.case` up through the head 0.
fn mapping(alloc: Global, by: By, kind: &[u8], default: &[u8]) -> Result<Expr, CaseFault>
    ensures { IfOk result (λ expr. (heads : List TableHead)
        → IsHeadBy heads 0 by → HasTableHeads heads expr.convs) }
{
    let mut convs = Items::new(alloc);
    let kind = type_of_values(kind)?;
    convs.push(Conv::Map(0, by, kind, default_of(alloc, default)?))?;
    let name = Octets::copy(alloc, b"case")?;
    let variable = VarName {
        scope: Scope::Txn,
        name,
    };
    let fetch = Fetch::Var(variable, None);
    Ok(Expr { fetch, convs })
}

/// A map with these uses, and the method of the first, which has the head 0.
fn map_used(alloc: Global, uses: &[u8]) -> Result<(By, Refs), CaseFault>
    ensures head { IfOk result (λ used. IsHeadBy used.1.content.heads 0 used.0) }
    ensures some { IfOk result (λ used. 0 < length used.1.content.references) }
{
    let (first, others) = cut_at(b',', uses).unwrap_or((uses, b"-"));
    let mut refs = one_map(alloc, Limits::usual())?;
    let (by, ci) = way(first)?;
    refs.add_use(0, by, ci)?;
    add_uses(&mut refs, others)?;
    Ok((by, refs))
}

/// `mapped USES TYPE DEFAULT ENTRIES SAMPLE ..`: of each sample, as the value of the variable
/// `txn.case`, what the converter `map_METHOD_TYPE` gives, where the method is that of the first
/// use of the map: of all occurrences, and after > of the one that an expression takes. Or why the
/// entries can't be those of the map.
pub fn mapped_case(
    alloc: Global,
    state: &mut State,
    out: &mut String,
    args: &[Vec<u8>],
) -> Result<(), CaseFault> {
    let [uses, kind, default, held, samples @ ..] = args else {
        return Err(CaseFault::BadArguments);
    };
    let held = held_pairs(alloc, held.as_slice())?;
    let (by, mut refs) = map_used(alloc, uses.as_slice())?;
    let expr = mapping(alloc, by, kind.as_slice(), default.as_slice())?;
    let added = refs.add_many(0, None, &held, &mut PlainMaker::new());
    if !show_added(out, added)? {
        return Ok(());
    }
    for given in samples {
        set_case(alloc, state, given.as_slice())?;
        show_expression(alloc, out, &expr, state, &refs, true)?;
    }
    Ok(())
}
