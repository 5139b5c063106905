ghost use Rattle.std.specs.Prelude.{◌≡◌, ◌==◌, ◌++◌, ◌∷◌, [], None, OnOk, codes, length, slice_get, if◌then◌else◌};
ghost use Rattle.std.specs.Option.{option_copied, option_map_or};
ghost use Rattle.hx_base.specs.Bytes.{ascii};
ghost use Rattle.hx_http.specs.Head.{head_of};
ghost use Rattle.hx_diff.specs.AnswerView.{parts_of};
ghost use Rattle.hx_diff.specs.Difference.{both_answers, command_difference, event_difference, host_in, host_of_line};
ghost use Rattle.hx_diff.specs.Difference.{marked, request_difference, request_words, told_difference};

use crate::detailed_answer::DetailedAnswer;
use hx_http::{HeadFault, Message, read_head};
use hx_record::Event;
use hx_text::{NoMemory, cut_at};
use itoa::Buffer;
use std::alloc::Global;

/// Appends what is written of an event with these two answers, where it is the request with this
/// number or none: nothing where the answers are the same, whatever is shown of them.
pub fn append_difference(
    alloc: Global,
    text: &mut Vec<u8>,
    number: u64,
    event: &Event,
    old: DetailedAnswer<'_>,
    new: DetailedAnswer<'_>,
) -> Result<(), NoMemory>
    ensures { OnOk result (text.new.items ≡ text.old.items
        ++ event_difference number event.now (parts_of old.entry) (parts_of new.entry)) }
{
    if old.answer == new.answer {
        return Ok(());
    }
    append_told(alloc, text, number, event, old.shown, new.shown)
}

/// Appends the same where they differ, by what is shown of both.
fn append_told(
    alloc: Global,
    text: &mut Vec<u8>,
    number: u64,
    event: &Event,
    old: &[u8],
    new: &[u8],
) -> Result<(), NoMemory>
    ensures { OnOk result (text.new.items
        ≡ text.old.items ++ told_difference number event.now old.now new.now) }
{
    match event {
        Event::Conn { .. } => Ok(()),
        Event::Req { bytes, .. } => {
            append_request_difference(alloc, text, number, bytes.as_slice(), old, new)
        }
        Event::Close { .. } => Ok(()),
        Event::Cli {
            session,
            text: line,
        } => append_command_difference(text, *session, line.as_slice(), old, new),
    }
}

/// Appends the two answers to a request, under its number, method, target and host.
fn append_request_difference(
    alloc: Global,
    text: &mut Vec<u8>,
    number: u64,
    bytes: &[u8],
    old: &[u8],
    new: &[u8],
) -> Result<(), NoMemory>
    ensures { OnOk result (text.new.items
        ≡ text.old.items ++ request_difference number bytes.now old.now new.now) }
{
    let mut digits = Buffer::new();
    text.extend_from_slice(b"@@ ")?;
    text.extend_from_slice(digits.format(number).as_bytes())?;
    text.extend_from_slice(b" ")?;
    append_request(alloc, text, bytes)?;
    text.extend_from_slice(b"\n")?;
    append_both(text, old, new)
}

/// Appends the two replies to a line of the management socket, under its session and the line.
fn append_command_difference(
    text: &mut Vec<u8>,
    session: u32,
    line: &[u8],
    old: &[u8],
    new: &[u8],
) -> Result<(), NoMemory>
    ensures { OnOk result (text.new.items
        ≡ text.old.items ++ command_difference session line.now old.now new.now) }
{
    let mut digits = Buffer::new();
    text.extend_from_slice(b"@@ cli ")?;
    text.extend_from_slice(digits.format(session).as_bytes())?;
    text.extend_from_slice(b" ")?;
    text.extend_from_slice(line)?;
    text.extend_from_slice(b"\n")?;
    append_both(text, old, new)
}

/// Appends the method, the target and the host of a request, as they came.
fn append_request(alloc: Global, text: &mut Vec<u8>, bytes: &[u8]) -> Result<(), NoMemory>
    ensures { OnOk result (text.new.items
        ≡ text.old.items ++ request_words (head_of bytes.now)) }
{
    match read_head(alloc, bytes) {
        Ok((head, _)) => append_head(text, &head),
        Err(HeadFault::NotAHead) => append_no_head(text),
        Err(HeadFault::TooManyHeaders) => append_no_head(text),
        Err(HeadFault::NoMemory) => Err(NoMemory),
    }
}

/// Appends the words of a request without a head.
fn append_no_head(text: &mut Vec<u8>) -> Result<(), NoMemory>
    ensures { OnOk result (text.new.items ≡ text.old.items ++ codes "- - -") }
{
    text.extend_from_slice(b"- - -")?;
    Ok(())
}

/// Appends the words of a request with this head.
fn append_head(text: &mut Vec<u8>, head: &Message) -> Result<(), NoMemory>
    ensures { OnOk result (text.new.items ≡ text.old.items ++ (head.now.method ++ (codes " "
        ++ (head.now.target ++ (codes " " ++ host_in head.now.headers))))) }
{
    text.extend_from_slice(head.method())?;
    text.extend_from_slice(b" ")?;
    text.extend_from_slice(head.target())?;
    text.extend_from_slice(b" ")?;
    text.extend_from_slice(host(head))?;
    Ok(())
}

/// The value of the first header line named Host, and `-` where there is none.
fn host(head: &Message) -> &[u8]
    ensures { result.now ≡ host_in head.now.headers }
{
    for at in 0..head.len() {
        match host_at(head, at) {
            Some(value) => return value,
            None => {}
        }
    }
    b"-"
}

/// The value of the header line at a position, where it is named Host.
fn host_at(head: &Message, at: usize) -> Option<&[u8]>
    ensures { option_copied result
        ≡ option_map_or host_of_line (slice_get head.now.headers at) None }
{
    let Some((name, value)) = head.header(at) else {
        return None;
    };
    if name.eq_ignore_ascii_case(b"host") {
        Some(value)
    } else {
        None
    }
}

/// Appends the lines of both answers, each after its mark.
fn append_both(text: &mut Vec<u8>, old: &[u8], new: &[u8]) -> Result<(), NoMemory>
    ensures { OnOk result (text.new.items ≡ text.old.items ++ both_answers old.now new.now) }
{
    append_marked(text, b"- ", old)?;
    append_marked(text, b"+ ", new)
}

/// Appends the lines of an answer, each after a mark.
fn append_marked(text: &mut Vec<u8>, mark: &[u8], mut answer: &[u8]) -> Result<(), NoMemory>
    ensures { OnOk result
        (text.new.items ≡ text.old.items ++ marked mark.now answer.entry.now) }
{
    'lines: loop {
        match cut_at(b'\n', answer) {
            Some((line, rest)) => {
                append_line(text, mark, line)?;
                answer = rest;
            }
            None => {
                append_end(text, mark, answer)?;
                return Ok(());
            }
        }
    }
}

/// Appends a line after a mark, with its line feed.
fn append_line(text: &mut Vec<u8>, mark: &[u8], line: &[u8]) -> Result<(), NoMemory>
    ensures { OnOk result
        (text.new.items ≡ text.old.items ++ (mark.now ++ (line.now ++ (ascii "\n" ∷ [])))) }
{
    text.extend_from_slice(mark)?;
    text.extend_from_slice(line)?;
    text.extend_from_slice(b"\n")?;
    Ok(())
}

/// Appends what stands after the last line feed after a mark, if something stands there.
fn append_end(text: &mut Vec<u8>, mark: &[u8], end: &[u8]) -> Result<(), NoMemory>
    ensures { OnOk result (text.new.items
        ≡ text.old.items ++ (if length end.now == 0 then [] else mark.now ++ end.now)) }
{
    if end.is_empty() {
        return Ok(());
    }
    text.extend_from_slice(mark)?;
    text.extend_from_slice(end)?;
    Ok(())
}
