ghost use Rattle.std.specs.Prelude.{◌≡◌, [], ◌++◌, map, slice_get, OnOk};
ghost use Rattle.std.specs.Fmt.{decimal};
ghost use Rattle.std.specs.List.{flat_map};
ghost use Rattle.std.specs.Option.{option_map_or, unwrap_or};
ghost use Rattle.hx_trace.specs.Why.{cause_text, head_numbers, reason_of, reason_text};

use crate::explaining::Cause;
use hx_acl::{Ground, Held};
use hx_cli::{append_decimal, append_number};
use hx_refs::Refs;
use hx_text::{NoMemory, Octets};

/// The number of the reference that a head searches, or 0 where there is no such head.
fn number_of(refs: &Refs, head: u32) -> u32
    ensures { result ≡ unwrap_or (slice_get (head_numbers refs.now.content) head) 0 }
{
    match refs.reference_of(head) {
        Some(r) if r < refs.len() => refs.info(r).id,
        _ => 0,
    }
}

/// Appends what a term holds by; where memory runs out, perhaps the first bytes of it.
fn append_reason(text: &mut Octets, refs: &Refs, ground: &Ground) -> Result<(), NoMemory>
    ensures { OnOk result (text.new ≡ text.old
        ++ reason_text (reason_of (head_numbers refs.now.content) ground.now)) }
{
    match ground {
        Ground::Negated => text.push_all(b" not"),
        Ground::Sample => text.push_all(b" true"),
        Ground::Entry { head, number } => {
            text.push_all(b" #")?;
            append_decimal(text, u64::from(number_of(refs, *head)))?;
            text.push_all(b"/")?;
            append_number(text, *number)
        }
    }
}

/// Appends what the terms of a conjunction hold by.
fn append_reasons(text: &mut Octets, refs: &Refs, grounds: &[Ground]) -> Result<(), NoMemory>
    ensures { OnOk result (text.new ≡ text.old
        ++ flat_map reason_text (map (reason_of (head_numbers refs.now.content)) grounds.now)) }
{
    for ground in grounds {
        append_reason(text, refs, ground)?;
    }
    Ok(())
}

/// Appends which conjunction holds, and by what, or 0 where none is asked.
fn append_held(text: &mut Octets, refs: &Refs, held: &Option<Held>) -> Result<(), NoMemory>
    ensures { OnOk result (text.new ≡ text.old
        ++ (decimal (option_map_or (λ held. held.conj) held.now 0)
        ++ flat_map reason_text (option_map_or
        (λ held. map (reason_of (head_numbers refs.now.content)) held.grounds) held.now []))) }
{
    match held {
        Some(held) => {
            append_decimal(text, held.conj as u64)?;
            append_reasons(text, refs, held.grounds.as_slice())
        }
        None => append_decimal(text, 0),
    }
}

/// Appends the line that tells what decided a request, where the references are these; where memory
/// runs out, perhaps the first bytes of it. It is written as `told_why` tells it, though nothing is
/// made of that, so that no request takes memory for its reasons.
pub(crate) fn append_why(text: &mut Octets, refs: &Refs, cause: &Cause) -> Result<(), NoMemory>
    ensures { OnOk result (text.new ≡ text.old ++ cause_text refs.now.content cause.now) }
{
    text.push_all(b"> ")?;
    append_decimal(text, cause.line)?;
    text.push_all(b" ")?;
    append_held(text, refs, &cause.held)?;
    text.push_all(b"\n")
}
