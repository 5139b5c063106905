//! Messages in memory that they keep: one that reads heads, one after the other, and one that is a
//! copy of others.
ghost use Rattle.std.specs.Prelude.{◌≡◌, ◌≤◌, length, IfOk, IsErrOf, OnErr, OnOk};
ghost use Rattle.hx_http.specs.Head.{message, many, none, header_limit, head_of, IsHead};
ghost use Rattle.hx_http.specs.Parts.{no_parts};
ghost use Rattle.hx_http.specs.Spans.{parts_at, AreWithin, HasNoBytes};

use crate::buffer::append_parts;
use crate::fault::HeadFault;
use crate::message::{Message, limit_after};
use crate::spans::{HeadSpans, read_spans};
use hx_text::NoMemory;
use std::alloc::Global;

impl Message {
    /// A message of empty parts, which takes no memory: one to `read` heads into. What it needs
    /// later it takes from `alloc`.
    pub fn empty(alloc: Global) -> Message
        ensures { result ≡ no_parts }
    {
        Message {
            bytes: Vec::new(alloc),
            spans: HeadSpans::empty(alloc),
            limit: 0,
        }
    }

    /// Makes it the message of the head that `bytes` begin with, as `read_head` reads it, and
    /// answers the length of the head in bytes. The memory that it has is used again: none is taken
    /// where that is enough. The faults are those of `read_head`; after one its parts are empty.
    pub fn read(&mut self, bytes: &[u8]) -> Result<usize, HeadFault>
        ensures found { IfOk result (λ len. head_of bytes.now ≡ message self.new len) }
        ensures not_a_head { IsErrOf result HeadFault.NotAHead → head_of bytes.now ≡ none }
        ensures too_many { IsErrOf result HeadFault.TooManyHeaders → head_of bytes.now ≡ many }
        ensures within { IfOk result (λ len. len ≤ length bytes.now) }
        ensures few { OnOk result (length self.new.headers ≤ header_limit) }
        ensures fault { OnErr result (self.new ≡ no_parts) }
    {
        self.limit = 0;
        let len = read_into(&mut self.bytes, &mut self.spans, bytes)?;
        self.limit = limit_after(len);
        Ok(len)
    }

    /// Makes it equal to the other message, in the memory that it has. Bytes that are no part of
    /// the other are treated as by `copy`. After `NoMemory`, where memory runs out, its parts are
    /// empty.
    pub fn copy_from(&mut self, other: &Message) -> Result<(), NoMemory>
        ensures ok { OnOk result (self.new ≡ other.now) }
        ensures err { OnErr result (self.new ≡ no_parts) }
    {
        self.limit = 0;
        let bytes = &mut self.bytes;
        let spans = &mut self.spans;
        if other.spans.are_half_of(other.bytes.len()) {
            copy_whole(bytes, spans, other.bytes.as_slice(), &other.spans)?;
        } else {
            copy_parts(bytes, spans, other.bytes.as_slice(), &other.spans)?;
        }
        self.limit = limit_after(self.bytes.len());
        Ok(())
    }
}

/// Reads the head that `bytes` begin with into the memory of `room` and `spans`. After a fault the
/// spans have no bytes.
fn read_into(room: &mut Vec<u8>, spans: &mut HeadSpans, bytes: &[u8]) -> Result<usize, HeadFault>
    ensures found { IfOk result (λ len.
        IsHead bytes.now (message (parts_at room.new.items spans.new) len)) }
    ensures not_a_head { IsErrOf result HeadFault.NotAHead → IsHead bytes.now none }
    ensures too_many { IsErrOf result HeadFault.TooManyHeaders → IsHead bytes.now many }
    ensures spans { OnOk result (AreWithin (length room.new.items) spans.new) }
    ensures within { IfOk result (λ len. len ≤ length bytes.now) }
    ensures few { OnOk result (length spans.new.lines.items ≤ header_limit) }
    ensures fault { OnErr result (HasNoBytes spans.new) }
{
    read_spans(spans, bytes)?;
    let len = spans.head.len;
    room.clear();
    if room.extend_from_slice(&bytes[..len]).is_err() {
        spans.clear();
        return Err(HeadFault::NoMemory);
    }
    Ok(len)
}

/// Copies all bytes and spans: two blocks, and no part by itself. Where memory runs out the spans
/// have no bytes.
fn copy_whole(
    bytes: &mut Vec<u8>,
    spans: &mut HeadSpans,
    other_bytes: &[u8],
    other: &HeadSpans,
) -> Result<(), NoMemory>
    requires { AreWithin (length other_bytes.now) other.now }
    ensures parts { OnOk result
        (parts_at bytes.new.items spans.new ≡ parts_at other_bytes.now other.now) }
    ensures within { OnOk result (AreWithin (length bytes.new.items) spans.new) }
    ensures err { OnErr result (HasNoBytes spans.new) }
{
    spans.clear();
    bytes.clear();
    bytes.extend_from_slice(other_bytes)?;
    spans.lines.extend_from_slice(other.lines.as_slice())?;
    spans.head = other.head;
    Ok(())
}

/// Copies the bytes of the parts alone. Where memory runs out the spans have no bytes.
fn copy_parts(
    bytes: &mut Vec<u8>,
    spans: &mut HeadSpans,
    other_bytes: &[u8],
    other: &HeadSpans,
) -> Result<(), NoMemory>
    requires { AreWithin (length other_bytes.now) other.now }
    ensures parts { OnOk result
        (parts_at bytes.new.items spans.new ≡ parts_at other_bytes.now other.now) }
    ensures within { OnOk result (AreWithin (length bytes.new.items) spans.new) }
    ensures err { OnErr result (HasNoBytes spans.new) }
{
    spans.clear();
    bytes.clear();
    bytes.reserve(other.total_len())?;
    let alloc = *bytes.allocator();
    *spans = append_parts(alloc, bytes, other_bytes, other)?;
    Ok(())
}
