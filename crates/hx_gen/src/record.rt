ghost use Rattle.std.specs.Prelude.{◌≡◌, ◌+◌, ◌++◌, length, IfOk, OnOk};
ghost use Rattle.std.specs.List.{concat};
ghost use Rattle.hx_gen.specs.Numbers.{random_number};
ghost use Rattle.hx_gen.specs.Record.{new_version, record_events, record_text, replacement, step_events, visit};
ghost use Rattle.hx_gen.specs.Sizes.{IsSize};

use crate::events::{addition, close_event, deletion, open_event, request_event};
use crate::new_version::append_entries;
use crate::numbers::{next_number, random_number};
use hx_text::NoMemory;
use std::alloc::Global;

/// How many events the record of this size has: three for each request, two after each hundredth
/// one, and those of the new version, which has an entry for each request.
#[tactic(auto, using(crate::proofs::CountLemmas::events_of_one, crate::proofs::CountLemmas::events_of_more))]
pub(crate) fn event_count(size: u64) -> u64
    requires { IsSize size }
    ensures { result ≡ length (record_events size) }
{
    let others = 3 * size + 2 * (size / 100);
    if size < 2 {
        others
    } else {
        others + (size + 4)
    }
}

/// The record.
#[tactic(auto, using(crate::proofs::NumberLemmas::next_is, crate::proofs::TextLemmas::one_more_joined))]
pub(crate) fn record_text(alloc: Global, size: u64) -> Result<Vec<u8>, NoMemory>
    requires { IsSize size }
    ensures { IfOk result (λ text. text.items ≡ record_text size) }
{
    let mut text = Vec::new(alloc);
    let mut y = random_number(size, size);
    for before in 0..size {
        y = next_number(y);
        append_step(alloc, &mut text, size, before + 1, y)?;
    }
    Ok(text)
}

/// Appends the events of the request with the number `k`, and those that follow it. `y` is the
/// number of its address and its path.
#[tactic(auto, unfolding(crate::specs::Record::step_events), using(crate::proofs::TextLemmas::joined))]
fn append_step(alloc: Global, text: &mut Vec<u8>, size: u64, k: u64, y: u64) -> Result<(), NoMemory>
    requires size { IsSize size }
    requires y { y ≡ random_number size (size + k) }
    ensures { OnOk result (text.new.items ≡ text.old.items ++ concat (step_events size k)) }
{
    append_visit(alloc, text, size, k, y)?;
    append_replacement(alloc, text, size, k, y)?;
    append_version(alloc, text, size, k)
}

/// Appends that the connection of a request is opened, the request, and that it is closed.
#[tactic(auto, using(crate::proofs::TextLemmas::three_texts))]
fn append_visit(
    alloc: Global,
    text: &mut Vec<u8>,
    size: u64,
    k: u64,
    y: u64,
) -> Result<(), NoMemory>
    requires size { IsSize size }
    requires y { y ≡ random_number size (size + k) }
    ensures { OnOk result (text.new.items ≡ text.old.items ++ concat (visit size k)) }
{
    text.extend_from_slice(open_event(alloc, k, y)?.as_bytes())?;
    text.extend_from_slice(request_event(alloc, k, y % (2 * size))?.as_bytes())?;
    text.extend_from_slice(close_event(alloc, k)?.as_bytes())?;
    Ok(())
}

/// Appends, after each hundredth request, that another entry takes the place of those of a path.
#[tactic(auto, using(crate::proofs::TextLemmas::two_texts))]
fn append_replacement(
    alloc: Global,
    text: &mut Vec<u8>,
    size: u64,
    k: u64,
    y: u64,
) -> Result<(), NoMemory>
    requires size { IsSize size }
    requires y { y ≡ random_number size (size + k) }
    ensures { OnOk result (text.new.items ≡ text.old.items ++ concat (replacement size k)) }
{
    if k % 100 != 0 {
        return Ok(());
    }
    let path = y % size;
    text.extend_from_slice(deletion(alloc, path)?.as_bytes())?;
    text.extend_from_slice(addition(alloc, path, k)?.as_bytes())?;
    Ok(())
}

/// Appends, after the request in the middle, that a new version takes the place of the map.
fn append_version(alloc: Global, text: &mut Vec<u8>, size: u64, k: u64) -> Result<(), NoMemory>
    requires { IsSize size }
    ensures { OnOk result (text.new.items ≡ text.old.items ++ concat (new_version size k)) }
{
    if k != size / 2 {
        return Ok(());
    }
    append_entries(alloc, text, size)
}
