ghost use Rattle.std.specs.Prelude.{◌≡◌, ◌≤◌, false, true, is_some, length, IfOk, IsOk};
ghost use Rattle.std.specs.List.{list_any};
ghost use Rattle.hx_sample.specs.Seen.{occurrence_value};
ghost use Rattle.hx_fetch.specs.Fetches.{occurrences_of, chosen_of, has_one_occurrence, is_copied, takes_last};
ghost use Rattle.hx_fetch.specs.World.{context_of};

use crate::lookup::{has_one_occurrence, sole_occurrence, text_query};
use crate::walks::{has_value, list, lone, pick, pick_end, read_text};
use crate::world::World;
use hx_ast::Fetch;
use hx_sample::{Sample, Samples};
use hx_text::NoMemory;
use std::alloc::Global;

/// Whether an expression takes the last occurrence of the fetch, and not the first.
fn takes_last(fetch: &Fetch) -> bool
    ensures { result ≡ takes_last fetch.now }
{
    match fetch {
        Fetch::ReqHdr(_, _) => true,
        Fetch::ReqFhdr(_, _) => true,
        Fetch::ReqHdrIp(_, _) => true,
        Fetch::ReqHdrVal(_, _) => true,
        Fetch::ReqCook(Some(_)) => true,
        _ => false,
    }
}

/// Every occurrence of `fetch` in `world`, in order, each its value or none, as an ACL tries them
/// (HAProxy configuration manual 2.4, sections 7.3.2 to 7.3.6).
///
/// - The constants, the addresses and ports of the connection, the variable, the method, the
///   version, the path, the query, the target and `base` have one occurrence. It is none where the
///   variable is unset, where there is no path or no query, and for `base` where there is no path.
/// - `hdr` has an occurrence for each comma-separated value of each line of the header, `fhdr` one
///   for each line. `hdr_ip` and `hdr_val` have those of `hdr`, which are none where the value is
///   no address, or no integer. With the number of an occurrence the list is that one, counted from
///   the first where it is positive and from the last where it is negative, or it is empty.
/// - `cook` and `url_param` have an occurrence for each cookie or parameter of the name, or without
///   a name for each at all.
/// - The counts have one occurrence. They saturate.
///
/// Names of headers are compared without regard to case, others byte by byte. Bytes are lent from
/// the message and the variables; those of an argument and of `base` are copied. A list of texts
/// takes 16 bytes for each but the first. It fails only where memory runs out, which it can only
/// for bytes that are copied and for two occurrences and more.
pub fn occurrences<'w>(
    alloc: Global,
    fetch: &Fetch,
    world: &World<'w>,
) -> Result<Samples<'w>, NoMemory>
    ensures value { IfOk result (λ occurrences.
        occurrences ≡ occurrences_of fetch.now (context_of world.now)) }
    ensures no_memory { is_copied fetch.now (context_of world.now) ≡ false
        → length (occurrences_of fetch.now (context_of world.now)) ≤ 1 → IsOk result }
{
    if has_one_occurrence(fetch) {
        return Ok(Samples::lone(alloc, sole_occurrence(alloc, fetch, world)?));
    }
    let query = text_query(fetch, world);
    match query.at {
        None => list(alloc, query.source, query.kind),
        Some(at) => Ok(lone(alloc, pick(query.source, at), query.kind)),
    }
}

/// The occurrence of `fetch` in `world` that an expression takes, or none where that is none or
/// `fetch` has no occurrences: the last occurrence of `hdr`, `fhdr`, `hdr_ip`, `hdr_val` and of
/// `cook` with a name, and the first of the others. The occurrences and their values are those of
/// `occurrences`, and no list of them is made. It fails only where memory runs out, which it can
/// only for an argument and for `base` where there is a path.
#[inline(always)]
pub fn chosen<'w>(
    alloc: Global,
    fetch: &Fetch,
    world: &World<'w>,
) -> Result<Option<Sample<'w>>, NoMemory>
    ensures value { IfOk result (λ occurrence.
        occurrence_value occurrence ≡ chosen_of fetch.now (context_of world.now)) }
    ensures no_memory { is_copied fetch.now (context_of world.now) ≡ false → IsOk result }
{
    if has_one_occurrence(fetch) {
        sole_occurrence(alloc, fetch, world)
    } else {
        Ok(chosen_text(alloc, fetch, world))
    }
}

/// The same of a fetch that hasn't one occurrence. It is kept out of its caller, which most fetches
/// don't leave: a function pays at its entry for the locals of all that is inlined into it.
#[inline(never)]
fn chosen_text<'w>(alloc: Global, fetch: &Fetch, world: &World<'w>) -> Option<Sample<'w>>
    requires { has_one_occurrence fetch.now ≡ false }
    ensures { occurrence_value result ≡ chosen_of fetch.now (context_of world.now) }
{
    let query = text_query(fetch, world);
    match pick_end(query.source, query.at, takes_last(fetch)) {
        Some(text) => read_text(alloc, text, query.kind),
        None => None,
    }
}

/// Whether the one occurrence of a fetch is a value.
fn is_sole_found(fetch: &Fetch, world: &World<'_>) -> bool
    requires { has_one_occurrence fetch.now ≡ true }
    ensures { result ≡ is_some (chosen_of fetch.now (context_of world.now)) }
{
    match fetch {
        Fetch::Var(name, default) => {
            default.is_some() || world.vars.get(world.conn.id, name).is_some()
        }
        Fetch::Path | Fetch::Base => world.message.path().is_some(),
        Fetch::Query => world.message.query().is_some(),
        _ => true,
    }
}

/// Whether some occurrence of `fetch` in `world` is a value. No value is made for that, and no
/// memory is taken, neither of `alloc` nor else.
#[tactic(auto, using(crate::proofs::FoundLemmas::found))]
pub fn is_found(alloc: Global, fetch: &Fetch, world: &World<'_>) -> bool
    ensures { result ≡ list_any is_some (occurrences_of fetch.now (context_of world.now)) }
{
    if has_one_occurrence(fetch) {
        return is_sole_found(fetch, world);
    }
    let query = text_query(fetch, world);
    match query.at {
        None => has_value(alloc, query.source, query.kind),
        Some(at) => match pick(query.source, at) {
            Some(text) => read_text(alloc, text, query.kind).is_some(),
            None => false,
        },
    }
}
