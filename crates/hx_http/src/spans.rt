ghost use Rattle.std.specs.Prelude.{◌≡◌, ℕ, List, ◌*◌, ◌<◌, ◌≤◌, ◌↔◌, length, IfOk, IfSome, IfNone, IsErrOf, IsFalse, IsTrue, OnErr, OnOk};
ghost use Rattle.httparse.specs.Spans.{RequestOverflows};
ghost use Rattle.hx_http.specs.Head.{message, many, none, header_limit, IsHead, HasHead};
ghost use Rattle.hx_http.specs.Spans.{parts_at, AreWithin, HasNoBytes};

use crate::fault::HeadFault;
use httparse::spans::{EMPTY_HEADER_SPAN, HeaderSpan, RequestSpans, Span, parse_request};
use httparse::{Error, Status};
use std::alloc::{AllocError, Global};

/// The most header lines that a message may have.
pub(crate) const MAX_HEADERS: usize = 101;

/// How many header lines most heads have at most. They are read by slots for so many.
const COMMON_HEADERS: usize = 16;

/// Spans without bytes, and no header lines.
const NO_SPANS: RequestSpans = RequestSpans {
    method: Span { start: 0, end: 0 },
    path: Span { start: 0, end: 0 },
    version: 0,
    headers: 0,
    len: 0,
};

/// Where in a text the parts of a head lie.
#[derive(Drop)]
pub(crate) struct HeadSpans {
    pub head: RequestSpans,
    pub lines: Vec<HeaderSpan>,
}

impl HeadSpans {
    /// Spans without bytes. They take no memory; those of header lines are kept in `alloc`'s.
    pub(crate) fn empty(alloc: Global) -> HeadSpans
        ensures { HasNoBytes result }
    {
        HeadSpans {
            head: NO_SPANS,
            lines: Vec::new(alloc),
        }
    }

    /// Makes them spans without bytes, and keeps their memory.
    pub(crate) fn clear(&mut self)
        ensures { HasNoBytes self.new }
    {
        self.head = NO_SPANS;
        self.lines.clear();
    }

    /// Whether both are the same spans.
    pub(crate) fn same(&self, other: &HeadSpans) -> bool
        ensures { IsTrue result
            → (bytes : List ℕ) → parts_at bytes self.now ≡ parts_at bytes other.now }
    {
        if self.head.method != other.head.method {
            return false;
        }
        if self.head.path != other.head.path {
            return false;
        }
        if self.head.version != other.head.version {
            return false;
        }
        self.lines.as_slice() == other.lines.as_slice()
    }

    /// Whether half of so many bytes, or more, are of the head as it was read, or of the parts as
    /// they are now. The former costs no look at the lines.
    pub(crate) fn are_half_of(&self, count: usize) -> bool {
        count / 2 <= self.head.len || count / 2 <= self.total_len()
    }

    /// How many bytes the spans have, each line with two bytes between name and value, which says
    /// how much memory a copy of them takes.
    pub(crate) fn total_len(&self) -> usize {
        let mut len = len_of(self.head.method).saturating_add(len_of(self.head.path));
        for line in &self.lines {
            len = len
                .saturating_add(len_of(line.name))
                .saturating_add(len_of(line.value))
                .saturating_add(2);
        }
        len
    }
}

fn len_of(span: Span) -> usize {
    span.end.saturating_sub(span.start)
}

/// Makes them the spans of the head that `bytes` begin with, in the memory that they have. After a
/// fault they have no bytes.
pub(crate) fn read_spans(spans: &mut HeadSpans, bytes: &[u8]) -> Result<(), HeadFault>
    ensures found { OnOk result
        (IsHead bytes.now (message (parts_at bytes.now spans.new) spans.new.head.len)) }
    ensures not_a_head { IsErrOf result HeadFault.NotAHead → IsHead bytes.now none }
    ensures too_many { IsErrOf result HeadFault.TooManyHeaders → IsHead bytes.now many }
    ensures spans { OnOk result (AreWithin spans.new.head.len spans.new) }
    ensures within { OnOk result (spans.new.head.len ≤ length bytes.now) }
    ensures few { OnOk result (length spans.new.lines.items ≤ header_limit) }
    ensures fault { OnErr result (HasNoBytes spans.new) }
{
    let read = read_any_spans(spans, bytes);
    if read.is_err() {
        spans.clear();
    }
    read
}

/// The same; after a fault they are some spans.
fn read_any_spans(spans: &mut HeadSpans, bytes: &[u8]) -> Result<(), HeadFault>
    ensures found { OnOk result
        (IsHead bytes.now (message (parts_at bytes.now spans.new) spans.new.head.len)) }
    ensures not_a_head { IsErrOf result HeadFault.NotAHead → IsHead bytes.now none }
    ensures too_many { IsErrOf result HeadFault.TooManyHeaders → IsHead bytes.now many }
    ensures spans { OnOk result (AreWithin spans.new.head.len spans.new) }
    ensures within { OnOk result (spans.new.head.len ≤ length bytes.now) }
    ensures few { OnOk result (length spans.new.lines.items ≤ header_limit) }
{
    if spans_within(spans, bytes, COMMON_HEADERS)? {
        return Ok(());
    }
    if spans_within(spans, bytes, MAX_HEADERS)? {
        return Ok(());
    }
    if has_head(*spans.lines.allocator(), bytes)? {
        return Err(HeadFault::TooManyHeaders);
    }
    Err(HeadFault::NotAHead)
}

/// Makes them the spans of the head that `bytes` begin with, by slots for so many header lines.
/// Answers whether these are enough to tell. Where they aren't, and after a fault, they are some
/// spans.
fn spans_within(spans: &mut HeadSpans, bytes: &[u8], room: usize) -> Result<bool, HeadFault>
    requires { room ≤ header_limit }
    ensures found { IfOk result (λ enough. IsTrue enough
        → IsHead bytes.now (message (parts_at bytes.now spans.new) spans.new.head.len)) }
    ensures unknown { IfOk result (λ enough. IsFalse enough → RequestOverflows room bytes.now) }
    ensures not_a_head { IsErrOf result HeadFault.NotAHead → IsHead bytes.now none }
    ensures too_many { ¬ (IsErrOf result HeadFault.TooManyHeaders) }
    ensures spans { IfOk result (λ enough. IsTrue enough
        → AreWithin spans.new.head.len spans.new) }
    ensures within { IfOk result (λ enough. IsTrue enough
        → spans.new.head.len ≤ length bytes.now) }
    ensures few { IfOk result (λ enough. IsTrue enough
        → length spans.new.lines.items ≤ header_limit) }
{
    spans.lines.resize(room, EMPTY_HEADER_SPAN)?;
    match parse_request(bytes, spans.lines.as_mut_slice()) {
        Ok(Status::Complete(head)) => {
            spans.lines.truncate(head.headers);
            spans.head = head;
            Ok(true)
        }
        Ok(Status::Partial) => Err(HeadFault::NotAHead),
        Err(error) => match error {
            Error::TooManyHeaders => Ok(false),
            _ => Err(HeadFault::NotAHead),
        },
    }
}

/// Whether `bytes` begin with a head, however many header lines it has. The slots are doubled until
/// they are enough, so that memory is taken by the size of the head, and not of what follows it.
fn has_head(alloc: Global, bytes: &[u8]) -> Result<bool, AllocError>
    ensures { IfOk result (λ found. IsTrue found ↔ HasHead bytes.now) }
{
    let mut room = 2 * MAX_HEADERS;
    loop {
        if let Some(found) = has_head_within(alloc, bytes, room)? {
            return Ok(found);
        }
        room = room.saturating_mul(2);
    }
}

/// Whether `bytes` begin with a head, and `None` where that can't be told with slots for `room`
/// header lines.
fn has_head_within(alloc: Global, bytes: &[u8], room: usize) -> Result<Option<bool>, AllocError>
    ensures known { IfOk result (λ answer.
        IfSome answer (λ found. IsTrue found ↔ HasHead bytes.now)) }
    ensures unknown { IfOk result (λ answer. IfNone answer (3 * room < length bytes.now)) }
{
    let mut slots = vec![in alloc; EMPTY_HEADER_SPAN; room]?;
    match parse_request(bytes, &mut slots) {
        Ok(Status::Complete(_)) => Ok(Some(true)),
        Ok(Status::Partial) => Ok(Some(false)),
        Err(Error::TooManyHeaders) => Ok(None),
        Err(_) => Ok(Some(false)),
    }
}
