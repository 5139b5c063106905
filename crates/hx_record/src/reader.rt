ghost use Rattle.std.specs.Prelude.{◌≡◌, ◌≢◌, ℕ, ◌+◌, ◌-◌, ◌<◌, ◌≤◌, [], true, false, Ok, Err, Some, None, length, IfOk, IfErr, IfSome, OnOk, OnErr, IsSome};
ghost use Rattle.std.specs.Io.KnownBytes.{Keeps, IsAtEnd};
ghost use Rattle.hx_outside.specs.Count.{Rose};
ghost use Rattle.hx_record.specs.Record.{Unknown, Bad};
ghost use Rattle.hx_record.specs.State.{State, decided_items_now, remaining_work};
ghost use Rattle.hx_record.specs.Reading.{Reads, Decides, Fills, HasEvent, IsEvent, LogsFault};
ghost use Rattle.hx_record.specs.PieceView.{BeginsWith, piece_beginning};
ghost use Rattle.hx_record.specs.Parts.{IsFound, beginning_now, state_past};

use crate::events::{Event, Next, Placed};
use crate::fault::RecordFault;
use crate::memory::memory_of;
use crate::piece::{FoundRequest, Piece, Wait, read_piece, under_limit, whole_request};
use crate::refusal::RecordRefusal;
use crate::window::Window;
use hx_outside::Source;
use hx_text::NoMemory;
use std::alloc::Global;
use std::marker::Model;

/// Reads a record from a source, one event a call.
///
/// Contracts see a reader as its limit on the record, how many bytes it has passed, the bytes that
/// it took and has not passed, and whether a read found the record's end. What is left of the
/// record is those bytes and then what the source has left, so each call of one reader is lent the
/// same source.
pub struct Reader {
    limit: u64,
    at: u64,
    window: Window,
    wait: Wait,
    ended: bool,
    // the memory of an event that was given back
    memory: Vec<u8>,
}

// Written out, so that letting one go is one call in the proofs of callers.
impl Drop for Reader {
    fn drop(self) {
        let Reader {
            limit: _limit,
            at: _at,
            window: _window,
            wait: _wait,
            ended: _ended,
            memory: _memory,
        } = self;
    }
}

impl Model for Reader {
    ghost use Rattle.hx_record.specs.State.{State};

    ghost Value = { State };

    ghost use Rattle.hx_record.specs.Fields.{state_of, IsReader};

    ghost view = { state_of };

    ghost invariant = { IsReader };
}

impl Reader {
    /// A reader at the beginning of a record, which may have `limit` bytes at most. It takes no
    /// memory, and reads nothing.
    pub fn new(alloc: Global, limit: u64) -> Reader
        ensures { result ≡ record { limit = limit; at = 0; pending = []; ended = false } }
    {
        Reader {
            limit,
            at: 0,
            window: Window::new(alloc),
            wait: Wait::Line { scanned: 0 },
            ended: false,
            memory: Vec::new(alloc),
        }
    }

    /// The next event of the record, and the offset at which its line begins. None at the record's
    /// end.
    ///
    /// `source` is the same at each call of one reader. It is read only where the bytes that it
    /// gave don't decide the next item, and no more once it gave its end. `Bad` where the record is
    /// refused: each later call answers the same. `Failed` exactly where a read failed, which the
    /// source counts, and `NoMemory` where memory runs out: nothing that was read is lost, and a
    /// later call goes on from there.
    pub fn next_event<S: Source>(&mut self, source: &mut S) -> Result<Option<Placed>, RecordFault>
        requires { self.old.ended ≡ true → IsAtEnd (S.left source.old) }

        // Which bytes were taken, by which reads, and passed, and that the answer is the first item
        // of what is left, whatever follows.
        ensures reads { Reads self.old self.new (S.left source.old) (S.left source.new)
            (S.log source.old) (S.log source.new) result }
        ensures moves { IfOk result (λ event. IsSome event
            → (self.old.at < self.new.at) × (self.new.at ≤ self.new.limit)) }

        ensures none { result ≡ Ok None → self.new.ended ≡ true }
        ensures ended { self.new.ended ≡ true → IsAtEnd (S.left source.new) }

        ensures later { S.faults source.old ≤ S.faults source.new }
        ensures failed { result ≡ Err RecordFault.Failed
            → Rose (S.faults source.old) (S.faults source.new) }
        ensures undecided { result ≡ Err RecordFault.Failed
            → (self.new.ended ≡ false) × (decided_items_now self.new ≡ Unknown) }

        // `reads` says of each read that it was due, for a source whose log is known. These say of
        // any source that it is left alone where none is due when the call begins.
        ensures unasked { decided_items_now self.old ≢ Unknown → source.new ≡ source.old }
        ensures over { self.old.ended ≡ true → source.new ≡ source.old }

        // A refusal stays.
        ensures again { (offset code : ℕ) → decided_items_now self.old ≡ Bad offset code
            → result ≡ Err (RecordFault.Bad offset code) }
        ensures stuck { (offset code : ℕ) → result ≡ Err (RecordFault.Bad offset code)
            → decided_items_now self.new ≡ Bad offset code }
    {
        'reads: loop {
            match self.next_decided()? {
                Next::Event(placed) => return Ok(Some(placed)),
                Next::End => return Ok(None),
                Next::Undecided => self.fill(source)?,
            }
        }
    }

    /// The next event of the record where the bytes that were read decide it, and the offset at
    /// which its line begins. Lines that say nothing are passed over. `End` at the record's end,
    /// and `Undecided` where a caller goes on by `fill`. No source is read.
    ///
    /// `Bad` where the record is refused: each later call answers the same. `NoMemory` where memory
    /// runs out, which only an event takes: a later call goes on from there. Never `Failed`.
    pub fn next_decided(&mut self) -> Result<Next, RecordFault>
        // Which bytes were passed, and that the answer is the first item of what is left, whatever
        // follows.
        ensures decides { Decides self.old self.new result }
        ensures moves { IfOk result (λ next. IsEvent next
            → (self.old.at < self.new.at) × (self.new.at ≤ self.new.limit)) }
        ensures end { result ≡ Ok Next.End → self.new.ended ≡ true }
        ensures undecided { result ≡ Ok Next.Undecided
            → (self.new.ended ≡ false) × (decided_items_now self.new ≡ Unknown) }
        ensures memory { result ≡ Err RecordFault.NoMemory → HasEvent (decided_items_now self.new) }

        // A caller that goes on while there are events, and fills between them, comes to an end.
        ensures less { IfOk result (λ next. IsEvent next
            → remaining_work self.new < remaining_work self.old) }
        ensures no_more { remaining_work self.new ≤ remaining_work self.old }
        ensures within { result ≡ Ok Next.Undecided
            → self.new.at + length self.new.pending ≤ self.new.limit }
    {
        if let Some(request) = self.whole_request()? {
            let FoundRequest { used, id, bytes } = request;
            let offset = self.offset_past(0);
            self.advance(used);
            return Ok(Next::Event(Placed {
                offset,
                event: Event::Req { id, bytes },
            }));
        }
        self.next_of_any()
    }

    /// Reads `source` once, into a buffer of 4,096 bytes at least, as tests show: takes the bytes
    /// that it gives, or its end. After `Failed`, which the source counts, and after `NoMemory`,
    /// where nothing was read, the reader is as before.
    pub fn fill<S: Source>(&mut self, source: &mut S) -> Result<(), RecordFault>
        requires { self.old.ended ≡ false }
        ensures ok { OnOk result (Fills self.old self.new (S.left source.old) (S.left source.new)
            (S.log source.old) (S.log source.new)) }
        ensures err { OnErr result (self.new ≡ self.old) }
        ensures log { IfErr result (λ fault.
            LogsFault fault (S.log source.old) (S.log source.new)) }
        ensures kept { OnErr result (Keeps (S.left source.old) (S.left source.new)) }
        ensures later { S.faults source.old ≤ S.faults source.new }
        ensures failed { result ≡ Err RecordFault.Failed
            → Rose (S.faults source.old) (S.faults source.new) }
        ensures less { OnOk result (self.old.at + length self.old.pending ≤ self.old.limit
            → remaining_work self.new < remaining_work self.old) }
    {
        self.window.reserve()?;
        let count = self.window.read(source)?;
        if count == 0 {
            self.ended = true;
        }
        Ok(())
    }

    /// Takes back an event, so that the next one needs no memory of its own.
    pub fn reuse(&mut self, event: Event)
        ensures { self.new ≡ self.old }
    {
        if let Some(memory) = memory_of(event) {
            self.memory = memory;
        }
    }

    /// The same by the lines, whatever they say.
    fn next_of_any(&mut self) -> Result<Next, RecordFault>
        ensures decides { Decides self.old self.new result }
        ensures moves { IfOk result (λ next. IsEvent next
            → (self.old.at < self.new.at) × (self.new.at ≤ self.new.limit)) }
        ensures end { result ≡ Ok Next.End → self.new.ended ≡ true }
        ensures undecided { result ≡ Ok Next.Undecided
            → (self.new.ended ≡ false) × (decided_items_now self.new ≡ Unknown) }
        ensures memory { result ≡ Err RecordFault.NoMemory → HasEvent (decided_items_now self.new) }
        ensures less { IfOk result (λ next. IsEvent next
            → remaining_work self.new < remaining_work self.old) }
        ensures no_more { remaining_work self.new ≤ remaining_work self.old }
        ensures within { result ≡ Ok Next.Undecided
            → self.new.at + length self.new.pending ≤ self.new.limit }
    {
        'lines: loop {
            match self.judge()? {
                Piece::Undecided(_) => return Ok(Next::Undecided),
                Piece::Skip { used } => self.advance(used),
                Piece::Found { used, event } => {
                    let offset = self.offset_past(0);
                    self.advance(used);
                    return Ok(Next::Event(Placed { offset, event }));
                }
                Piece::Finish => return Ok(Next::End),
                Piece::TooLong => {
                    let offset = self.limit();
                    return Err(RecordFault::Bad {
                        offset,
                        code: RecordRefusal::TooLong.code(),
                    });
                }
                Piece::Fault { skip, refusal } => {
                    let offset = self.offset_past(skip);
                    return Err(RecordFault::Bad {
                        offset,
                        code: refusal.code(),
                    });
                }
            }
        }
    }

    fn limit(&self) -> u64
        ensures { result ≡ self.now.limit }
    {
        self.limit
    }

    fn offset_past(&self, skip: usize) -> u64
        requires { self.now.at + skip ≤ self.now.limit }
        ensures { result ≡ self.now.at + skip }
    {
        let _limit = self.limit;
        self.at + skip as u64
    }

    /// Passes over the first `used` pending bytes.
    fn advance(&mut self, used: usize)
        requires pending { used ≤ length self.old.pending }
        requires limit { self.old.at + used ≤ self.old.limit }
        ensures { self.new ≡ state_past self.old used }
    {
        let _limit = self.limit;
        self.window.pass(used);
        self.at += used as u64;
        self.wait = Wait::Line { scanned: 0 };
    }

    /// The request that the pending bytes begin with, where all of it is there.
    #[inline(always)]
    fn whole_request(&mut self) -> Result<Option<FoundRequest>, NoMemory>
        ensures same { self.new ≡ self.old }
        ensures within { self.old.at ≤ self.old.limit }
        ensures ok { IfOk result (λ request. IfSome request (BeginsWith (beginning_now self.old))) }
        ensures err { OnErr result (IsFound (beginning_now self.old)) }
    {
        let left = self.limit - self.at;
        let (_, bytes) = under_limit(self.window.bytes(), left, self.ended);
        whole_request(&mut self.memory, bytes, self.wait)
    }

    /// What the pending bytes begin with. Memory is taken for an event alone.
    fn judge(&mut self) -> Result<Piece, NoMemory>
        ensures same { self.new ≡ self.old }
        ensures within { self.old.at ≤ self.old.limit }
        ensures ok { IfOk result (λ piece. piece_beginning piece ≡ beginning_now self.old) }
        ensures err { OnErr result (IsFound (beginning_now self.old)) }
    {
        let left = self.limit - self.at;
        let (tail, bytes) = under_limit(self.window.bytes(), left, self.ended);
        let piece = read_piece(&mut self.memory, tail, bytes, self.wait)?;
        if let Piece::Undecided(wait) = piece {
            self.wait = wait;
        }
        Ok(piece)
    }
}
