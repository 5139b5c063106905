ghost use Rattle.std.specs.Prelude.{◌≡◌, ◌+◌, ◌-◌, ◌<◌, ◌≤◌, [], length, take, drop, IfOk, OnOk, OnErr, None, vec_len};
ghost use Rattle.std.specs.Io.KnownBytes.{ReadConsumes, Keeps};
ghost use Rattle.hx_outside.specs.Count.{Rose};
ghost use Rattle.hx_outside.specs.Log.{Logs, bytes_read};
ghost use Rattle.hx_record.specs.Parts.{AppendsRead};

use hx_outside::{Failed, Source};
use std::alloc::{AllocError, Global};
use std::marker::Model;

/// How many bytes a buffer grows by at least.
const GROWTH: usize = 65_536;

/// How many bytes a source is asked for at least.
const LEAST: usize = 4_096;

/// The bytes that were read and not yet used, in a buffer that is used again. Contracts see the
/// bytes, and how much room follows them.
pub(crate) struct Window {
    buf: Vec<u8>,
    start: usize,
    end: usize,
}

// Written out, so that letting one go is one call in the proofs of callers.
impl Drop for Window {
    fn drop(self) {
        let Window {
            buf: _buf,
            start: _start,
            end: _end,
        } = self;
    }
}

impl Model for Window {
    ghost use Rattle.hx_record.specs.Room.{BytesWithRoom};

    ghost Value = { BytesWithRoom };

    ghost use Rattle.hx_record.specs.Window.{window_bytes, IsWindow};

    ghost view = { window_bytes };

    ghost invariant = { IsWindow };
}

impl Window {
    pub(crate) fn new(alloc: Global) -> Window
        ensures { result ≡ record { bytes = []; room = 0 } }
    {
        Window {
            buf: Vec::new(alloc),
            start: 0,
            end: 0,
        }
    }

    pub(crate) fn bytes(&self) -> &[u8]
        ensures { result.now ≡ self.now.bytes }
    {
        &self.buf[self.start..self.end]
    }

    /// Lets go of the first `used` bytes.
    pub(crate) fn pass(&mut self, used: usize)
        requires { used ≤ length self.old.bytes }
        ensures { self.new.bytes ≡ drop used self.old.bytes }
    {
        self.start += used;
    }

    /// Makes room after the bytes, which move to the buffer's start.
    pub(crate) fn reserve(&mut self) -> Result<(), AllocError>
        ensures bytes { self.new.bytes ≡ self.old.bytes }
        ensures room { OnOk result (4096 ≤ self.new.room) }
    {
        if self.start > 0 {
            move_to_start(&mut self.buf, self.start, self.end);
            self.end -= self.start;
            self.start = 0;
        }
        make_room(&mut self.buf, self.end)
    }

    /// Reads into the room after the bytes, and answers how many came.
    pub(crate) fn read<S: Source>(&mut self, source: &mut S) -> Result<usize, Failed>
        requires { 4096 ≤ self.old.room }
        ensures ok { IfOk result (λ count.
            AppendsRead (S.left source.old) (S.left source.new)
            (S.log source.old) (S.log source.new) self.old.bytes self.new.bytes count) }
        ensures err { OnErr result (self.new.bytes ≡ self.old.bytes) }
        ensures kept { OnErr result (Keeps (S.left source.old) (S.left source.new)) }
        ensures log { OnErr result (Logs (S.log source.old) (S.log source.new) None) }
        ensures later { S.faults source.old ≤ S.faults source.new }
        ensures failed { OnErr result (Rose (S.faults source.old) (S.faults source.new)) }
    {
        let count = read_after(&mut self.buf, self.end, source)?;
        self.end += count;
        Ok(count)
    }
}

/// Moves the bytes from `start` to `end` to the start.
#[tactic(auto, using(crate::proofs::WindowLemmas::moved))]
fn move_to_start(buf: &mut Vec<u8>, start: usize, end: usize)
    requires order { start ≤ end }
    requires within { end ≤ vec_len buf.old }
    ensures moved { take (end - start) buf.new.items ≡ drop start (take end buf.old.items) }
    ensures len { vec_len buf.new ≡ vec_len buf.old }
{
    buf.copy_within(start..end, 0);
}

/// Makes room after the first `end` bytes. Where memory runs out the buffer is as it was.
fn make_room(buf: &mut Vec<u8>, end: usize) -> Result<(), AllocError>
    requires { end ≤ vec_len buf.old }
    ensures prefix { take end buf.new.items ≡ take end buf.old.items }
    ensures len { vec_len buf.old ≤ vec_len buf.new }
    ensures room { OnOk result (end + 4096 ≤ vec_len buf.new) }
{
    let len = buf.len();
    if LEAST <= len - end {
        return Ok(());
    }
    buf.resize(len + len.max(GROWTH), 0)
}

/// Reads into the room after the first `end` bytes, and answers how many bytes came.
fn read_after<S: Source>(buf: &mut Vec<u8>, end: usize, source: &mut S) -> Result<usize, Failed>
    requires { end < length buf.old.items }
    ensures prefix { take end buf.new.items ≡ take end buf.old.items }
    ensures len { length buf.new.items ≡ length buf.old.items }
    ensures within { IfOk result (λ count. end + count ≤ length buf.new.items) }
    ensures bytes { ReadConsumes (S.left source.old) (S.left source.new) result
        (drop end buf.new.items) }
    ensures log { Logs (S.log source.old) (S.log source.new)
        (bytes_read result (drop end buf.new.items)) }
    ensures later { S.faults source.old ≤ S.faults source.new }
    ensures failed { OnErr result (Rose (S.faults source.old) (S.faults source.new)) }
{
    source.read(&mut buf[end..])
}
