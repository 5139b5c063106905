ghost use Rattle.std.specs.Prelude.{◌≡◌, ◌≤◌, length, IfOk, IsErrOf};
ghost use Rattle.hx_http.specs.Head.{message, many, none, header_limit, head_of};

use crate::fault::HeadFault;
use crate::message::Message;
use crate::spans::{HeadSpans, read_spans};
use hx_text::Octets;
use std::alloc::Global;

/// Reads the head of a request that `bytes` begin with (RFC 9112, sections 2.2, 3 and 5): the
/// message, and the length of the head in bytes. The message owns a copy of the head. What follows
/// the head, as the request's body, changes nothing.
///
/// `NotAHead` where `bytes` begin with no head, whatever the number of its header lines, and
/// `TooManyHeaders` where they begin with one of more than 101 header lines. In place of any answer
/// there may be `NoMemory`.
pub fn read_head(alloc: Global, bytes: &[u8]) -> Result<(Message, usize), HeadFault>
    ensures found { IfOk result (λ read. head_of bytes.now ≡ message read.0 read.1) }
    ensures not_a_head { IsErrOf result HeadFault.NotAHead → head_of bytes.now ≡ none }
    ensures too_many { IsErrOf result HeadFault.TooManyHeaders → head_of bytes.now ≡ many }

    // Both follow from `found` by the law `one_head`, and save callers that law where they need a
    // bound.
    ensures within { IfOk result (λ read. read.1 ≤ length bytes.now) }
    ensures few { IfOk result (λ read. length read.0.headers ≤ header_limit) }
{
    let mut message = Message::empty(alloc);
    let len = message.read(bytes)?;
    Ok((message, len))
}

/// Reads the head of a request as `read_head` does, and takes `bytes` over: the message keeps all
/// of them, what follows the head too, and copies none. After a fault they are gone.
pub fn read_head_in(alloc: Global, bytes: Octets) -> Result<(Message, usize), HeadFault>
    ensures found { IfOk result (λ read. head_of bytes ≡ message read.0 read.1) }
    ensures not_a_head { IsErrOf result HeadFault.NotAHead → head_of bytes ≡ none }
    ensures too_many { IsErrOf result HeadFault.TooManyHeaders → head_of bytes ≡ many }
    ensures within { IfOk result (λ read. read.1 ≤ length bytes) }
    ensures few { IfOk result (λ read. length read.0.headers ≤ header_limit) }
{
    let mut spans = HeadSpans::empty(alloc);
    read_spans(&mut spans, bytes.as_slice())?;
    let len = spans.head.len;
    Ok((Message::new(bytes, spans), len))
}
