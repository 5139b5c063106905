ghost use Rattle.std.specs.Prelude.{◌≡◌, ◌≤◌, ◌↔◌, length, slice_get, IfSome, IsNone};
ghost use Rattle.std.specs.Option.{option_copied};
ghost use Rattle.hx_http.specs.Spans.{parts_at, AreWithin};
ghost use Rattle.hx_http.specs.Target.{path_of, query_of};

use crate::spans::HeadSpans;
use crate::target::{path_in, query_in};
use hx_text::Octets;
use std::marker::Model;

/// The head of a request. Contracts see its parts: method, target, minor number of the version,
/// and header lines. Each part is lent from the bytes that the message owns.
#[derive(Drop)]
pub struct Message {
    pub(crate) bytes: Vec<u8>,
    pub(crate) spans: HeadSpans,
    /// With more bytes than so many, an edit drops those that are no part.
    pub(crate) limit: usize,
}

impl Model for Message {
    ghost use Rattle.std.specs.Prelude.{length};
    ghost use Rattle.hx_http.specs.Parts.{Parts};
    ghost use Rattle.hx_http.specs.Spans.{parts_at, AreWithin};

    ghost Value = { Parts };

    ghost view = { λ m. parts_at m.bytes.items m.spans };

    ghost invariant = { λ m. AreWithin (length m.bytes.items) m.spans };
}

/// The limit of a message that begins with so many bytes. It is several times as many, so that
/// edits wrote more than is copied when bytes are dropped.
pub(crate) fn limit_after(len: usize) -> usize {
    len.saturating_mul(4).max(1024)
}

impl Message {
    /// The message whose parts lie at these spans of `bytes`.
    pub(crate) fn new(bytes: Octets, spans: HeadSpans) -> Message
        requires { AreWithin (length bytes) spans }
        ensures { result ≡ parts_at bytes spans }
    {
        let bytes = bytes.into_vec();
        let limit = limit_after(bytes.len());
        Message {
            bytes,
            spans,
            limit,
        }
    }

    /// The method, such as `GET` (RFC 9110, section 9).
    pub fn method(&self) -> &[u8]
        ensures { result.now ≡ self.now.method }
    {
        self.spans.head.method.of(self.bytes.as_slice())
    }

    /// The target as the request line has it (RFC 9112, section 3.2).
    pub fn target(&self) -> &[u8]
        ensures { result.now ≡ self.now.target }
    {
        self.spans.head.path.of(self.bytes.as_slice())
    }

    /// The minor number of the version: 0 for `HTTP/1.0`, and 1 for `HTTP/1.1`.
    pub fn minor(&self) -> u8
        ensures value { result ≡ self.now.minor }
        ensures known { result ≤ 1 }
    {
        self.spans.head.version
    }

    /// How many header lines there are: 101 at most.
    pub fn len(&self) -> usize
        ensures { result ≡ length self.now.headers }
    {
        self.spans.lines.len()
    }

    /// The name and the value of the header line at position `i`, counted from 0, and `None` where
    /// there are no more than `i` lines. The name is as the line writes it, and the value has no
    /// spaces and tabs at its ends (RFC 9112, section 5).
    pub fn header(&self, i: usize) -> Option<(&[u8], &[u8])>
        ensures line { IfSome result (λ line.
            slice_get self.now.headers i ≡ Some (line.0.now, line.1.now)) }
        ensures past { IsNone result ↔ (length self.now.headers ≤ i) }
    {
        let bytes = self.bytes.as_slice();
        match self.spans.lines.get(i) {
            Some(line) => Some((line.name.of(bytes), line.value.of(bytes))),
            None => None,
        }
    }

    /// The path of the target, without the query. `None` where the target has no path, as `*` and
    /// `http://host` (RFC 9112, section 3.2).
    pub fn path(&self) -> Option<&[u8]>
        ensures { option_copied result ≡ path_of self.now.target }
    {
        path_in(self.target())
    }

    /// The query of the target, which follows its first `?`, and `None` without one (RFC 3986,
    /// section 3.4).
    pub fn query(&self) -> Option<&[u8]>
        ensures { option_copied result ≡ query_of self.now.target }
    {
        query_in(self.target())
    }
}
