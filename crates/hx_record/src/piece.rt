ghost use Rattle.std.specs.Prelude.{◌≡◌, ℕ, ◌+◌, ◌^◌, ◌<◌, ◌≤◌, List, length, take, IfOk, IfSome, OnErr, Ok};
ghost use Rattle.hx_record.specs.Beginning.{Continuation, beginning_at, request_beginning, line_beginning, beginning_of, Open};
ghost use Rattle.hx_record.specs.Record.{continuation_of};
ghost use Rattle.hx_record.specs.Line.{Announces, line_meaning};
ghost use Rattle.hx_record.specs.PieceView.{continuation, piece_beginning, line_length, meaning_without_cr, last_line_beginning, IsWait, KnowsWait, WantsRequest, BeginsWith};
ghost use Rattle.hx_record.specs.Parts.{IsFound};

use crate::events::Event;
use crate::find::first_at;
use crate::line::{Line, read_line, read_request_line};
use crate::memory::copied;
use crate::refusal::RecordRefusal;
use hx_text::{NoMemory, Octets, without_cr};

/// How many bytes a line has at most before its LF.
const LINE_MAX: usize = 65_536;

/// What follows the bytes of a record that are given.
#[derive(Clone, Copy)]
pub(crate) enum Tail {
    /// The record's end.
    Ends,
    /// The byte at the limit.
    Beyond,
    /// That isn't known.
    Open,
}

/// What is known of bytes that decide nothing.
#[derive(Clone, Copy)]
pub(crate) enum Wait {
    /// No LF is among the first `scanned` of them.
    Line { scanned: usize },
    /// The first line, of `used` bytes with its LF, announces a request of `len` bytes.
    Request { id: u32, len: u32, used: usize },
}

/// What the bytes of a record begin with.
#[derive(Drop)]
pub(crate) enum Piece {
    /// More bytes decide it.
    Undecided(Wait),
    /// The byte at the limit is needed, and is there.
    TooLong,
    /// Nothing: the record ends.
    Finish,
    /// What is refused, so many bytes on.
    Fault { skip: usize, refusal: RecordRefusal },
    /// A line of so many bytes that says nothing.
    Skip { used: usize },
    /// An event of so many bytes.
    Found { used: usize, event: Event },
}

/// A request, which takes `used` bytes of the record with its line.
#[derive(Drop)]
pub(crate) struct FoundRequest {
    pub(crate) used: usize,
    pub(crate) id: u32,
    pub(crate) bytes: Octets,
}

/// A request of `bytes`, which takes `used` bytes of the record with its line.
#[inline(always)]
fn request(memory: &mut Vec<u8>, used: usize, id: u32, bytes: &[u8]) -> Result<Piece, NoMemory>
    ensures { IfOk result (λ p. p ≡ Piece.Found used (Event.Req id bytes.now)) }
{
    let bytes = copied(memory, bytes)?;
    Ok(Piece::Found {
        used,
        event: Event::Req { id, bytes },
    })
}

/// The request of `len` bytes that a line of `used` bytes announces, which `rest` follows.
#[tactic(auto, unfolding(crate::specs::Beginning::request_beginning))]
#[inline(always)]
fn read_request(
    memory: &mut Vec<u8>,
    tail: Tail,
    id: u32,
    len: u32,
    used: usize,
    rest: &[u8],
) -> Result<Piece, NoMemory>
    requires { used + length rest.now < 2 ^ 64 }
    ensures ok { IfOk result (λ p.
        piece_beginning p ≡ request_beginning (continuation tail) id len used rest.now) }
    ensures wait { IfOk result (λ p. WantsRequest p (Ok (Announces id len)) used) }
    ensures err { OnErr result (IsFound
        (request_beginning (continuation tail) id len used rest.now)) }
{
    let end = len as usize;
    if end < rest.len() {
        if rest[end] != b'\n' {
            return Ok(Piece::Fault {
                skip: used + end,
                refusal: RecordRefusal::BadLine,
            });
        }
        let (bytes, _) = rest.split_at(end);
        return request(memory, used + end + 1, id, bytes);
    }
    match tail {
        Tail::Open => Ok(Piece::Undecided(Wait::Request { id, len, used })),
        Tail::Beyond => Ok(Piece::TooLong),
        Tail::Ends if end == rest.len() => request(memory, used + end, id, rest),
        Tail::Ends => Ok(Piece::Fault {
            skip: 0,
            refusal: RecordRefusal::CutRequest,
        }),
    }
}

/// What a line gives that takes `used` bytes with its ending, where `rest` follows it.
#[inline(always)]
fn line_piece(
    memory: &mut Vec<u8>,
    tail: Tail,
    line: &[u8],
    used: usize,
    rest: &[u8],
) -> Result<Piece, NoMemory>
    requires { used + length rest.now < 2 ^ 64 }
    ensures ok { IfOk result (λ p. piece_beginning p
        ≡ line_beginning (continuation tail) (meaning_without_cr line.now) used rest.now) }
    ensures wait { IfOk result (λ p. WantsRequest p (meaning_without_cr line.now) used) }
    ensures err { OnErr result (IsFound
        (line_beginning (continuation tail) (meaning_without_cr line.now) used rest.now)) }
{
    any_line_piece(memory, tail, without_cr(line), used, rest)
}

/// The same for any line, which is given without a CR.
#[tactic(auto, using(crate::proofs::WaitLemmas::says_found))]
#[inline(never)]
fn any_line_piece(
    memory: &mut Vec<u8>,
    tail: Tail,
    line: &[u8],
    used: usize,
    rest: &[u8],
) -> Result<Piece, NoMemory>
    requires { used + length rest.now < 2 ^ 64 }
    ensures ok { IfOk result (λ p. piece_beginning p
        ≡ line_beginning (continuation tail) (line_meaning line.now) used rest.now) }
    ensures wait { IfOk result (λ p. WantsRequest p (line_meaning line.now) used) }
    ensures err { OnErr result (IsFound
        (line_beginning (continuation tail) (line_meaning line.now) used rest.now)) }
{
    match read_line(memory, line)? {
        Err(refusal) => Ok(Piece::Fault { skip: 0, refusal }),
        Ok(Line::Nothing) => Ok(Piece::Skip { used }),
        Ok(Line::Event(event)) => Ok(Piece::Found { used, event }),
        Ok(Line::Request { id, len }) => read_request(memory, tail, id, len, used, rest),
    }
}

/// What bytes begin with among which no LF is.
fn read_last(memory: &mut Vec<u8>, tail: Tail, bytes: &[u8]) -> Result<Piece, NoMemory>
    requires { length bytes.now ≡ line_length bytes.now }
    ensures ok { IfOk result (λ p.
        piece_beginning p ≡ beginning_at (continuation tail) (last_line_beginning bytes.now)) }
    ensures wait { continuation tail ≡ Open → IfOk result (KnowsWait bytes.now) }
    ensures err { OnErr result (IsFound
        (beginning_at (continuation tail) (last_line_beginning bytes.now))) }
{
    match tail {
        Tail::Open => Ok(Piece::Undecided(Wait::Line {
            scanned: bytes.len(),
        })),
        Tail::Beyond => Ok(Piece::TooLong),
        Tail::Ends if bytes.is_empty() => Ok(Piece::Finish),
        Tail::Ends => line_piece(memory, Tail::Ends, bytes, bytes.len(), b""),
    }
}

/// What the bytes begin with. No LF may stand before `from`.
#[tactic(auto, unfolding(crate::specs::Beginning::beginning_of))]
#[inline(always)]
fn read_first(
    memory: &mut Vec<u8>,
    tail: Tail,
    bytes: &[u8],
    from: usize,
) -> Result<Piece, NoMemory>
    requires { from ≤ line_length bytes.now }
    ensures ok { IfOk result (λ p. piece_beginning p ≡ beginning_of (continuation tail) bytes.now) }
    ensures wait { continuation tail ≡ Open → IfOk result (KnowsWait bytes.now) }
    ensures err { OnErr result (IsFound (beginning_of (continuation tail) bytes.now)) }
{
    let len = first_at(b'\n', bytes, from);
    if len > LINE_MAX {
        return Ok(Piece::Fault {
            skip: 0,
            refusal: RecordRefusal::LineTooLong,
        });
    }
    if len == bytes.len() {
        return read_last(memory, tail, bytes);
    }
    let (line, after) = bytes.split_at(len);
    let (_, rest) = after.split_at(1);
    line_piece(memory, tail, line, len + 1, rest)
}

/// What the bytes begin with, where `wait` is known of them. Memory is taken for an event alone.
#[inline(always)]
pub(crate) fn read_piece(
    memory: &mut Vec<u8>,
    tail: Tail,
    bytes: &[u8],
    wait: Wait,
) -> Result<Piece, NoMemory>
    requires { IsWait bytes.now wait }
    ensures ok { IfOk result (λ p. piece_beginning p ≡ beginning_of (continuation tail) bytes.now) }
    ensures wait { continuation tail ≡ Open → IfOk result (KnowsWait bytes.now) }
    ensures err { OnErr result (IsFound (beginning_of (continuation tail) bytes.now)) }
{
    match wait {
        Wait::Line { scanned } => read_first(memory, tail, bytes, scanned),
        Wait::Request { id, len, used } => {
            let (_, rest) = bytes.split_at(used);
            read_request(memory, tail, id, len, used, rest)
        }
    }
}

/// The request of `len` bytes, the first of `rest`, where an LF follows it.
#[tactic(auto, unfolding(crate::specs::Beginning::request_beginning))]
#[inline(always)]
fn ended_request(
    memory: &mut Vec<u8>,
    id: u32,
    len: u32,
    used: usize,
    rest: &[u8],
) -> Result<Option<FoundRequest>, NoMemory>
    requires { used + length rest.now < 2 ^ 64 }
    ensures ok { (next : Continuation) → IfOk result (λ request. IfSome request
        (BeginsWith (request_beginning next id len used rest.now))) }
    ensures err { (next : Continuation) → OnErr result
        (IsFound (request_beginning next id len used rest.now)) }
{
    let end = len as usize;
    if end >= rest.len() || rest[end] != b'\n' {
        return Ok(None);
    }
    let (bytes, _) = rest.split_at(end);
    let bytes = copied(memory, bytes)?;
    Ok(Some(FoundRequest {
        used: used + end + 1,
        id,
        bytes,
    }))
}

/// The request that the bytes begin with, where it is announced by a line with an LF. No LF may
/// stand before `from`.
#[inline(always)]
fn first_request(
    memory: &mut Vec<u8>,
    bytes: &[u8],
    from: usize,
) -> Result<Option<FoundRequest>, NoMemory>
    requires { from ≤ line_length bytes.now }
    ensures ok { (next : Continuation) → IfOk result (λ request. IfSome request
        (BeginsWith (beginning_of next bytes.now))) }
    ensures err { (next : Continuation) → OnErr result (IsFound (beginning_of next bytes.now)) }
{
    let len = first_at(b'\n', bytes, from);
    if len > LINE_MAX || len == bytes.len() {
        return Ok(None);
    }
    let (line, after) = bytes.split_at(len);
    let (_, rest) = after.split_at(1);
    match read_request_line(without_cr(line)) {
        Some(Ok((id, request))) => ended_request(memory, id, request, len + 1, rest),
        Some(Err(_)) => Ok(None),
        None => Ok(None),
    }
}

/// The request that the bytes begin with, where it is there with the LF after it, and `wait` is
/// known of the bytes. Most of a record is such requests, and this has no place for another event.
#[inline(always)]
pub(crate) fn whole_request(
    memory: &mut Vec<u8>,
    bytes: &[u8],
    wait: Wait,
) -> Result<Option<FoundRequest>, NoMemory>
    requires { IsWait bytes.now wait }
    ensures ok { (next : Continuation) → IfOk result (λ request. IfSome request
        (BeginsWith (beginning_of next bytes.now))) }
    ensures err { (next : Continuation) → OnErr result (IsFound (beginning_of next bytes.now)) }
{
    match wait {
        Wait::Line { scanned } => first_request(memory, bytes, scanned),
        Wait::Request { id, len, used } => {
            let (_, rest) = bytes.split_at(used);
            ended_request(memory, id, len, used, rest)
        }
    }
}

/// The pending bytes that the limit leaves room for, and what follows them.
#[tactic(auto, using(crate::proofs::WindowLemmas::take_all))]
pub(crate) fn under_limit(pending: &[u8], room: u64, ended: bool) -> (Tail, &[u8])
    ensures tail { continuation result.0 ≡ continuation_of ended room pending.now }
    ensures bytes { result.1.now ≡ take room pending.now }
{
    if pending.len() as u64 > room {
        let (within, _) = pending.split_at(room as usize);
        return (Tail::Beyond, within);
    }
    let tail = if ended { Tail::Ends } else { Tail::Open };
    (tail, pending)
}
