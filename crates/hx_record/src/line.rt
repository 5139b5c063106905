ghost use Rattle.std.specs.Prelude.{◌≡◌, [], ◌∷◌, Ok, Err, MatchResult, IfOk, IfSome, OnErr, ◌≤◌, ◌-◌, ◌^◌};
ghost use Rattle.std.specs.Option.{ok_or, option_copied};
ghost use Rattle.hx_text.specs.Address.{ip_of};
ghost use Rattle.hx_text.specs.Number.{number_up_to};
ghost use Rattle.hx_record.specs.Line.{Says, number_of_word, line_meaning, conn_meaning, req_meaning, close_meaning, cli_meaning};
ghost use Rattle.hx_record.specs.declared.events.Event.TheVariants.{Cli};
ghost use Rattle.hx_record.specs.LineView.{result_meaning, request_meaning, line_words, words_after, IsSomeWords, SaysEvent};

use crate::events::Event;
use crate::memory::copied;
use crate::refusal::RecordRefusal;
use hx_text::{Ip, NoMemory, cut_at, read_ip};

/// How many bytes a request has at most.
const REQUEST_MAX: u32 = 1_048_576;

/// What one line says.
#[derive(Drop)]
pub(crate) enum Line {
    /// Nothing.
    Nothing,
    /// An event.
    Event(Event),
    /// The `len` bytes after the line are a request.
    Request { id: u32, len: u32 },
}

fn number(word: &[u8], most: u32) -> Result<u32, RecordRefusal>
    ensures value { result ≡ number_of_word most word.now }
    ensures within { IfOk result (λ n. n ≤ most) }
{
    let n = digits(word, most).ok_or(RecordRefusal::BadNumber)?;
    Ok(n as u32)
}

/// The number of a word, as `read_number` reads it, in one pass: numbers of requests are short, and
/// stand in each of them.
#[tactic(auto, using(crate::proofs::DigitLemmas::next_digit))]
#[inline(always)]
fn digits(word: &[u8], most: u32) -> Option<u64>
    ensures value { result ≡ number_up_to most word.now }
    ensures within { IfSome result (λ n. n ≤ most) }
{
    if word.is_empty() {
        return None;
    }
    let mut n = 0;
    for byte in word {
        if !byte.is_ascii_digit() {
            return None;
        }
        n = n * 10 + u64::from(*byte - b'0');
        if n > u64::from(most) {
            return None;
        }
    }
    Some(n)
}

fn port(word: &[u8]) -> Result<u16, RecordRefusal>
    ensures { result ≡ number_of_word (2 ^ 16 - 1) word.now }
{
    let port = number(word, 0xffff)?;
    Ok(port as u16)
}

fn address(word: &[u8]) -> Result<Ip, RecordRefusal>
    ensures { result ≡ ok_or (ip_of word.now) RecordRefusal.BadLine }
{
    read_ip(word).ok_or(RecordRefusal::BadLine)
}

/// The text before the first space, and what follows it, where there is one.
fn cut(text: &[u8]) -> (&[u8], Option<&[u8]>)
    ensures { line_words text.now ≡ result.0.now ∷ words_after (option_copied result.1) }
{
    match cut_at(b' ', text) {
        Some((word, rest)) => (word, Some(rest)),
        None => (text, None),
    }
}

/// The next word, and what follows it. Refused where none is left.
fn word(rest: Option<&[u8]>) -> Result<(&[u8], Option<&[u8]>), RecordRefusal>
    ensures { MatchResult result
        (λ p. words_after (option_copied rest.entry) ≡ p.0.now ∷ words_after (option_copied p.1))
        (λ refusal. (words_after (option_copied rest.entry) ≡ [])
        × (refusal ≡ RecordRefusal.BadLine)) }
{
    match rest {
        Some(text) => Ok(cut(text)),
        None => Err(RecordRefusal::BadLine),
    }
}

/// Refused where a word is left.
#[tactic(auto, using(crate::proofs::WordLemmas::words_are_some))]
fn no_word(rest: Option<&[u8]>) -> Result<(), RecordRefusal>
    ensures { MatchResult result
        (λ _. words_after (option_copied rest.entry) ≡ [])
        (λ refusal. IsSomeWords (words_after (option_copied rest.entry))
        × (refusal ≡ RecordRefusal.BadLine)) }
{
    match rest {
        Some(_) => Err(RecordRefusal::BadLine),
        None => Ok(()),
    }
}

#[tactic(auto, unfolding(crate::specs::Line::conn_meaning))]
fn read_conn(rest: Option<&[u8]>) -> Result<Line, RecordRefusal>
    ensures { result_meaning result ≡ conn_meaning (words_after (option_copied rest.entry)) }
{
    let (id, rest) = word(rest)?;
    let (src, rest) = word(rest)?;
    let (src_port, rest) = word(rest)?;
    let (dst, rest) = word(rest)?;
    let (dst_port, rest) = word(rest)?;
    no_word(rest)?;
    let id = number(id, u32::MAX)?;
    let src = address(src)?;
    let src_port = port(src_port)?;
    let dst = address(dst)?;
    let dst_port = port(dst_port)?;
    Ok(Line::Event(Event::Conn {
        id,
        src,
        src_port,
        dst,
        dst_port,
    }))
}

/// The connection of a request and how many bytes it has.
#[tactic(auto, unfolding(crate::specs::Line::req_meaning))]
#[inline(always)]
fn read_req(rest: Option<&[u8]>) -> Result<(u32, u32), RecordRefusal>
    ensures { request_meaning result ≡ req_meaning (words_after (option_copied rest.entry)) }
{
    let (id, rest) = word(rest)?;
    let (len, rest) = word(rest)?;
    no_word(rest)?;
    let id = number(id, u32::MAX)?;
    let len = number(len, REQUEST_MAX)?;
    Ok((id, len))
}

#[tactic(auto, unfolding(crate::specs::Line::close_meaning))]
fn read_close(rest: Option<&[u8]>) -> Result<Line, RecordRefusal>
    ensures { result_meaning result ≡ close_meaning (words_after (option_copied rest.entry)) }
{
    let (id, rest) = word(rest)?;
    no_word(rest)?;
    let id = number(id, u32::MAX)?;
    Ok(Line::Event(Event::Close { id }))
}

/// The session and the text of a line of management.
#[tactic(auto, unfolding(crate::specs::Line::cli_meaning), using(crate::proofs::WordLemmas::words_joined))]
fn cli_words(rest: Option<&[u8]>) -> Result<(u32, &[u8]), RecordRefusal>
    ensures { MatchResult result
        (λ p. cli_meaning (words_after (option_copied rest.entry)) ≡ Ok (Says (Cli p.0 p.1.now)))
        (λ refusal. cli_meaning (words_after (option_copied rest.entry)) ≡ Err refusal) }
{
    let (session, text) = word(rest)?;
    let session = number(session, u32::MAX)?;
    Ok((session, text.unwrap_or(b"")))
}

fn read_cli(
    memory: &mut Vec<u8>,
    rest: Option<&[u8]>,
) -> Result<Result<Line, RecordRefusal>, NoMemory>
    ensures ok { IfOk result (λ read.
        result_meaning read ≡ cli_meaning (words_after (option_copied rest.entry))) }
    ensures err { OnErr result (SaysEvent
        (cli_meaning (words_after (option_copied rest.entry)))) }
{
    match cli_words(rest) {
        Ok((session, text)) => {
            let text = copied(memory, text)?;
            Ok(Ok(Line::Event(Event::Cli { session, text })))
        }
        Err(refusal) => Ok(Err(refusal)),
    }
}

/// The request that a line announces, which is given without its ending: its connection and how
/// many bytes it has. None of a line that doesn't begin with `req` and a space. Most lines of a
/// record do, and this reads them without a place for an event.
#[tactic(auto, using(crate::proofs::WordLemmas::req_words))]
#[inline(always)]
pub(crate) fn read_request_line(line: &[u8]) -> Option<Result<(u32, u32), RecordRefusal>>
    ensures { IfSome result (λ read. request_meaning read ≡ line_meaning line.now) }
{
    match line.strip_prefix(b"req ") {
        Some(words) => Some(read_req(Some(words))),
        None => None,
    }
}

/// What a line says, which is given without its ending. Memory is taken for an event alone.
#[tactic(auto, unfolding(crate::specs::Line::line_meaning, crate::specs::Line::words_meaning))]
pub(crate) fn read_line(
    memory: &mut Vec<u8>,
    line: &[u8],
) -> Result<Result<Line, RecordRefusal>, NoMemory>
    ensures ok { IfOk result (λ read. result_meaning read ≡ line_meaning line.now) }
    ensures err { OnErr result (SaysEvent (line_meaning line.now)) }
{
    if let [] | [b'#', ..] = line {
        return Ok(Ok(Line::Nothing));
    }
    let (name, rest) = cut(line);
    if name == b"conn".as_slice() {
        Ok(read_conn(rest))
    } else if name == b"req".as_slice() {
        match read_req(rest) {
            Ok((id, len)) => Ok(Ok(Line::Request { id, len })),
            Err(refusal) => Ok(Err(refusal)),
        }
    } else if name == b"close".as_slice() {
        Ok(read_close(rest))
    } else if name == b"cli".as_slice() {
        read_cli(memory, rest)
    } else {
        Ok(Err(RecordRefusal::BadLine))
    }
}
