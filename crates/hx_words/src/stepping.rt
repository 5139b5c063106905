ghost use Rattle.std.specs.Prelude.{◌≡◌, ◌≤◌, ◌==◌, ◌&&◌, not, IfOk, length, take};
ghost use Rattle.hx_base.specs.Bytes.{ascii, is_given};
ghost use Rattle.hx_words.specs.Calls.{step_of, step_after_call, step_with_arguments, step_after_name, call_name_length, ends_name};
ghost use Rattle.hx_words.specs.Calls.Step.{Faulty};
ghost use Rattle.hx_words.specs.StepView.{step_view, Shortens};

use crate::argument::read_arguments;
use crate::call::{Call, CallStep};
use crate::fault::ArgFault;
use crate::quoting::{first, skip};
use hx_text::{NoMemory, Octets};
use std::alloc::Global;

/// The first call of a text of calls, for a caller that judges each call before the next is read:
/// `calls` does this again after each comma.
///
/// The name, which may be empty, ends before `(`, a comma, the stop byte or the text's end. `(`
/// opens arguments with commas between, up to `)`; `()` has none. They are quoted as the words of a
/// line are (HAProxy configuration manual 2.4, section 2.2), without variables. A comma, the stop
/// byte or, where there is no stop byte, the text's end has to follow the call.
///
/// What is wrong after the name is answered together with the name, so that the caller may judge
/// the name first. It is the first of these from the left, and never `NoMemory`:
/// - `BadEscape`: `\x` without two hex digits in an argument, outside single quotes;
/// - `OpenQuote`: the text ends inside a quote;
/// - `Unclosed`: the text ends, not inside a quote, before `)` or before the stop byte;
/// - `AfterClose`: something else follows `)`.
#[tactic(auto, unfolding(crate::specs::Calls::step_of))]
pub fn next_call(alloc: Global, text: &[u8], stop: Option<u8>) -> Result<CallStep<'_>, NoMemory>
    ensures step { IfOk result (λ step. step_view step ≡ step_of stop text.now) }
    ensures shorter { IfOk result (λ step. Shortens (length text.now) step) }
{
    let len = call_name_len(text, stop);
    let name = Octets::copy(alloc, prefix(text, len))?;
    after_name(alloc, name, skip(text, len), stop)
}

/// A call whose name stands before `rest`.
fn after_name(
    alloc: Global,
    name: Octets,
    rest: &[u8],
    stop: Option<u8>,
) -> Result<CallStep<'_>, NoMemory>
    ensures step { IfOk result (λ step. step_view step ≡ step_after_name stop name rest.now) }
    ensures shorter { IfOk result (λ step. Shortens (length rest.now) step) }
{
    if let Some((byte, after)) = first(rest)
        && opens(byte, stop)
    {
        return with_arguments(alloc, name, after, stop);
    }
    Ok(after_call(Call::new(name, Vec::new(alloc)), rest, stop))
}

/// A call whose name and `(` stand before `after`.
fn with_arguments(
    alloc: Global,
    name: Octets,
    after: &[u8],
    stop: Option<u8>,
) -> Result<CallStep<'_>, NoMemory>
    ensures step { IfOk result (λ step. step_view step ≡ step_with_arguments stop name after.now) }
    ensures shorter { IfOk result (λ step. Shortens (length after.now) step) }
{
    match read_arguments(alloc, after) {
        Ok(read) => Ok(after_call(Call::new(name, read.args), read.rest, stop)),
        Err(ArgFault::NoMemory) => Err(NoMemory),
        Err(fault) => Ok(CallStep::Faulty { name, fault }),
    }
}

/// A whole call that `rest` follows.
fn after_call(call: Call, rest: &[u8], stop: Option<u8>) -> CallStep<'_>
    ensures step { step_view result ≡ step_after_call stop call rest.now }
    ensures shorter { Shortens (length rest.now) result }
{
    match first(rest) {
        None => match stop {
            None => CallStep::Last { call, rest },
            Some(_) => faulty(call, ArgFault::Unclosed),
        },
        Some((byte, after)) => {
            if stops(byte, stop) {
                CallStep::Last { call, rest: after }
            } else if byte == b',' {
                CallStep::More { call, rest: after }
            } else {
                faulty(call, ArgFault::AfterClose)
            }
        }
    }
}

fn faulty<'a>(call: Call, fault: ArgFault) -> CallStep<'a>
    ensures step { step_view result ≡ Faulty call.name fault }
    ensures shorter { Shortens 0 result }
{
    CallStep::Faulty {
        name: call.into_name(),
        fault,
    }
}

/// The first `count` bytes.
fn prefix(bytes: &[u8], count: usize) -> &[u8]
    requires { count ≤ length bytes.now }
    ensures { result.now ≡ take count bytes.now }
{
    &bytes[..count]
}

/// How long the name is that a text begins with.
fn call_name_len(text: &[u8], stop: Option<u8>) -> usize
    ensures len { result ≡ call_name_length stop text.now }
    ensures within { result ≤ length text.now }
{
    text.iter().take_while(|b| goes_on(**b, stop)).count()
}

/// Whether the byte belongs to the name before it.
fn goes_on(byte: u8, stop: Option<u8>) -> bool
    ensures { result ≡ not (ends_name stop byte) }
{
    !(stops(byte, stop) || byte == b'(' || byte == b',')
}

/// Whether the byte begins arguments.
fn opens(byte: u8, stop: Option<u8>) -> bool
    ensures { result ≡ (byte == ascii "(" && not (is_given stop byte)) }
{
    byte == b'(' && !stops(byte, stop)
}

/// Whether the byte is the stop byte.
fn stops(byte: u8, stop: Option<u8>) -> bool
    ensures { result ≡ is_given stop byte }
{
    match stop {
        None => false,
        Some(stop) => byte == stop,
    }
}
