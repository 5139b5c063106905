ghost use Rattle.std.specs.Prelude.{◌≡◌, ◌≢◌, ◌≤◌, length, IfOk, IfErr};
ghost use Rattle.hx_words.specs.Calls.{calls_of};

use crate::call::CallStep;
use crate::call_list::Calls;
use crate::fault::ArgFault;
use crate::stepping::next_call;
use std::alloc::Global;

/// The calls that a text spells, as `req.hdr(host),lower`.
///
/// With a stop byte the text has to hold one outside parentheses: the first is where the calls end,
/// and what follows it isn't read. Without one the whole text is read.
///
/// Another text is refused for the first call, from the left, with which something is wrong, by the
/// fault that `next_call` gives for it. `NoMemory` says nothing of the text.
#[tactic(auto, using(crate::proofs::CallLemmas::calls_start, crate::proofs::CallLemmas::calls_more, crate::proofs::CallLemmas::calls_last, crate::proofs::CallLemmas::last_within, crate::proofs::CallLemmas::calls_faulty))]
pub fn calls(alloc: Global, text: &[u8], stop: Option<u8>) -> Result<Calls, ArgFault>
    ensures calls { IfOk result (λ calls. calls_of stop text.now ≡ Ok calls) }
    ensures within { IfOk result (λ calls. calls.used ≤ length text.now) }
    ensures fault { IfErr result
        (λ fault. fault ≢ ArgFault.NoMemory → calls_of stop text.now ≡ Err fault) }
{
    let mut calls = Vec::new(alloc);
    let mut rest = text;
    'calls: loop {
        match next_call(alloc, rest, stop)? {
            CallStep::More { call, rest: after } => {
                calls.push(call)?;
                rest = after;
            }
            CallStep::Last { call, rest: after } => {
                calls.push(call)?;
                return Ok(Calls::new(calls, text.len() - after.len()));
            }
            CallStep::Faulty { name: _, fault } => return Err(fault),
        }
    }
}
