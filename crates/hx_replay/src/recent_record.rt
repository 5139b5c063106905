ghost use Rattle.std.specs.Prelude.{◌≡◌};

use crate::spelling::first_line;
use hx_outside::{Failed, Source};
use hx_text::{cut_at, read_number, without_cr};
use std::alloc::{AllocError, Global};
use std::mem;

/// So many bytes are kept at least, where there were so many.
const KEPT: usize = 65_536;

/// So many bytes have their line feeds counted in a byte: fewer than 256, and a multiple of what a
/// processor compares at once.
const BLOCK: usize = 224;

/// So many bytes are copied at once: the library copies longer texts by an instruction that is
/// counted once for each byte.
const PART: usize = 2048;

/// How many bytes a request may have.
const LONGEST: u64 = 1_048_576;

/// A source that hands on what another one gives, and keeps the last bytes, so that the line of a
/// byte can be told.
#[derive(Drop)]
pub struct RecentRecord<S> {
    source: S,
    recent: RecentBytes,
}

impl<S> RecentRecord<S> {
    /// Before any read, over this source.
    pub fn new(alloc: Global, source: S) -> RecentRecord<S>
        ensures { result.source ≡ source }
    {
        let recent = RecentBytes::new(alloc);
        RecentRecord { source, recent }
    }

    /// The number of the line, counted from 1, in which the byte at this offset stands, and what
    /// the line has from there on. None where these bytes aren't kept any more.
    pub(crate) fn line_at(&self, alloc: Global, offset: u64) -> Option<RecordLine> {
        self.recent.line_at(alloc, offset)
    }
}

/// The last bytes of a text that goes by. Where memory runs out, it tells no more lines.
struct RecentBytes {
    is_complete: bool,
    /// how many bytes and line feeds came before those that are kept
    bytes_before: u64,
    feeds_before: u64,
    /// the bytes that are kept
    earlier: Vec<u8>,
    last: Vec<u8>,
}

// Written out, so that letting one go is one call in the proofs of callers.
impl Drop for RecentBytes {
    fn drop(self) {
        let RecentBytes {
            is_complete: _is_complete,
            bytes_before: _bytes_before,
            feeds_before: _feeds_before,
            earlier: _earlier,
            last: _last,
        } = self;
    }
}

impl RecentBytes {
    fn new(alloc: Global) -> RecentBytes {
        RecentBytes {
            is_complete: true,
            bytes_before: 0,
            feeds_before: 0,
            earlier: Vec::new(alloc),
            last: Vec::new(alloc),
        }
    }

    /// Notes the next bytes.
    fn note(&mut self, bytes: &[u8]) {
        if self.is_complete && self.keep(bytes).is_err() {
            self.is_complete = false;
        }
    }

    /// Keeps bytes, and lets go of the oldest.
    fn keep(&mut self, bytes: &[u8]) -> Result<(), AllocError> {
        if self.last.len() >= KEPT {
            self.bytes_before = self.bytes_before.saturating_add(self.earlier.len() as u64);
            self.feeds_before = self.feeds_before.saturating_add(feeds(&self.earlier));
            mem::swap(&mut self.earlier, &mut self.last);
            self.last.clear();
        }
        for part in bytes.chunks(PART) {
            self.last.extend_from_slice(part)?;
        }
        Ok(())
    }

    fn line_at(&self, alloc: Global, offset: u64) -> Option<RecordLine> {
        if !self.is_complete {
            return None;
        }
        let at = usize::try_from(offset.checked_sub(self.bytes_before)?).ok()?;
        let kept = both(alloc, &self.earlier, &self.last)?;
        self.line_in(alloc, &kept, at)
    }

    /// The same, where these are all bytes that are kept, and the byte is the one at this position.
    fn line_in(&self, alloc: Global, kept: &[u8], at: usize) -> Option<RecordLine> {
        if at > kept.len() {
            return None;
        }
        let (passed, rest) = kept.split_at(at);
        let begins = match passed.last() {
            Some(byte) => *byte == b'\n',
            None if self.bytes_before == 0 => true,
            None => return None,
        };
        let text = Vec::from_slice(alloc, first_line(rest).0).ok()?;
        let feeds = self.feeds_before.saturating_add(feeds(passed));
        Some(RecordLine {
            number: feeds.saturating_add(1),
            begins,
            may_end_request: self.bytes_before > 0 || ends_request(passed),
            text,
        })
    }
}

/// Two texts as one. None where there is no memory for it.
fn both(alloc: Global, first: &[u8], second: &[u8]) -> Option<Vec<u8>> {
    let mut text = Vec::from_slice(alloc, first).ok()?;
    text.extend_from_slice(second).ok()?;
    Some(text)
}

/// A line of the record from a byte on.
#[derive(Drop)]
pub(crate) struct RecordLine {
    pub(crate) number: u64,
    /// whether the line begins with that byte
    pub(crate) begins: bool,
    /// whether a request may end before that byte
    pub(crate) may_end_request: bool,
    pub(crate) text: Vec<u8>,
}

/// Whether a line of a text announces a request that ends where the text does.
fn ends_request(text: &[u8]) -> bool {
    let mut rest = text;
    for _ in 0..text.len() {
        let Some((line, after)) = cut_at(b'\n', rest) else {
            return false;
        };
        if request_len(line) == Some(after.len() as u64) {
            return true;
        }
        rest = after;
    }
    false
}

/// How many bytes the request has that a line announces.
fn request_len(line: &[u8]) -> Option<u64> {
    let [b'r', b'e', b'q', b' ', words @ ..] = line else {
        return None;
    };
    let (_, len) = cut_at(b' ', words)?;
    read_number(without_cr(len), LONGEST)
}

/// How many line feeds a text has. They are counted by blocks, each in a byte: a sum of bytes takes
/// sixteen of them at once.
fn feeds(text: &[u8]) -> u64 {
    let mut feeds = 0u64;
    for block in text.chunks(BLOCK) {
        feeds = feeds.saturating_add(u64::from(few_feeds(block)));
    }
    feeds
}

/// How many line feeds a text of at most 255 bytes has.
fn few_feeds(text: &[u8]) -> u8 {
    let mut feeds = 0u8;
    for byte in text {
        feeds = feeds.wrapping_add(u8::from(*byte == b'\n'));
    }
    feeds
}

impl<S: Source> Source for RecentRecord<S> {
    ghost left = { λ recent. S.left recent.source };

    ghost faults = { λ recent. S.faults recent.source };

    ghost log = { λ recent. S.log recent.source };

    fn read(&mut self, buf: &mut [u8]) -> Result<usize, Failed> {
        let count = self.source.read(buf)?;
        self.recent.note(&buf[..count]);
        Ok(count)
    }
}
