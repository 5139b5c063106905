//! The bytes that a message owns. An edit appends to them, so that spans of what was there stay.
ghost use Rattle.std.specs.Prelude.{◌≡◌, ◌≤◌, ◌++◌, length, take, drop, map, All, IfOk, OnOk};
ghost use Rattle.httparse.specs.Spans.{span_bytes, header_bytes, IsWithin, IsHeaderWithin};
ghost use Rattle.hx_http.specs.Spans.{parts_at, AreWithin, Extends};

use crate::spans::HeadSpans;
use httparse::spans::{HeaderSpan, Span};
use std::alloc::{AllocError, Global};

/// Appends the text, and answers where it lies.
pub(crate) fn append(bytes: &mut Vec<u8>, text: &[u8]) -> Result<Span, AllocError>
    ensures text { IfOk result (λ span. span_bytes bytes.new.items span ≡ text.now) }
    ensures within { IfOk result (λ span. IsWithin (length bytes.new.items) span) }
    ensures extends { Extends bytes.old.items bytes.new.items }
{
    let start = bytes.len();
    bytes.extend_from_slice(text)?;
    Ok(Span {
        start,
        end: bytes.len(),
    })
}

/// Appends the name and the value of a header line, and answers where they lie. They stand there as
/// `NAME: VALUE`, so that one copy writes the line.
pub(crate) fn append_line(
    bytes: &mut Vec<u8>,
    name: &[u8],
    value: &[u8],
) -> Result<HeaderSpan, AllocError>
    ensures text { IfOk result (λ line.
        header_bytes bytes.new.items line ≡ (name.now, value.now)) }
    ensures within { IfOk result (λ line. IsHeaderWithin (length bytes.new.items) line) }
    ensures extends { Extends bytes.old.items bytes.new.items }
{
    let name = append(bytes, name)?;
    append(bytes, b": ")?;
    let value = append(bytes, value)?;
    Ok(HeaderSpan { name, value })
}

/// Appends the first `before` bytes of the bytes at `span`, then `mark`, `text`, and those bytes
/// from the position `after` on. Answers where all this lies.
pub(crate) fn append_around(
    bytes: &mut Vec<u8>,
    span: Span,
    before: usize,
    mark: &[u8],
    text: &[u8],
    after: usize,
) -> Result<Span, AllocError>
    requires span { IsWithin (length bytes.old.items) span }
    requires before { before ≤ length (span_bytes bytes.old.items span) }
    requires after { after ≤ length (span_bytes bytes.old.items span) }
    ensures text { IfOk result (λ all. span_bytes bytes.new.items all
        ≡ take before (span_bytes bytes.old.items span) ++ mark.now ++ text.now
        ++ drop after (span_bytes bytes.old.items span)) }
    ensures within { IfOk result (λ all. IsWithin (length bytes.new.items) all) }
    ensures extends { Extends bytes.old.items bytes.new.items }
{
    let start = bytes.len();
    bytes.extend_from_within(span.start..span.start + before)?;
    bytes.extend_from_slice(mark)?;
    bytes.extend_from_slice(text)?;
    bytes.extend_from_within(span.start + after..span.end)?;
    Ok(Span {
        start,
        end: bytes.len(),
    })
}

/// Appends the names and the values of header lines of other bytes, and answers where they lie.
fn append_lines(
    alloc: Global,
    bytes: &mut Vec<u8>,
    other: &[u8],
    lines: &[HeaderSpan],
) -> Result<Vec<HeaderSpan>, AllocError>
    requires { All (IsHeaderWithin (length other.now)) lines.now }
    ensures text { IfOk result (λ copied. map (header_bytes bytes.new.items) copied.items
        ≡ map (header_bytes other.now) lines.now) }
    ensures within { IfOk result (λ copied.
        All (IsHeaderWithin (length bytes.new.items)) copied.items) }
    ensures extends { OnOk result (Extends bytes.old.items bytes.new.items) }
{
    let mut copied = Vec::with_capacity(alloc, lines.len())?;
    for line in lines {
        let line = append_line(bytes, line.name.of(other), line.value.of(other))?;
        copied.push(line)?;
    }
    Ok(copied)
}

/// Appends all parts that lie at these spans of other bytes, and answers where they lie.
pub(crate) fn append_parts(
    alloc: Global,
    bytes: &mut Vec<u8>,
    other: &[u8],
    spans: &HeadSpans,
) -> Result<HeadSpans, AllocError>
    requires { AreWithin (length other.now) spans.now }
    ensures parts { IfOk result (λ copied.
        parts_at bytes.new.items copied ≡ parts_at other.now spans.now) }
    ensures within { IfOk result (λ copied. AreWithin (length bytes.new.items) copied) }
{
    let mut head = spans.head;
    head.method = append(bytes, spans.head.method.of(other))?;
    head.path = append(bytes, spans.head.path.of(other))?;
    let lines = append_lines(alloc, bytes, other, spans.lines.as_slice())?;
    head.len = bytes.len();
    Ok(HeadSpans { head, lines })
}
