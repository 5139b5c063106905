ghost use Rattle.std.specs.Prelude.{◌≡◌, ℕ, List, []};
ghost use Rattle.hx_core.specs.Steps.{answer_of};
ghost use Rattle.hx_core.specs.Telling.{told_answer};
ghost use Rattle.hx_core.specs.World.{World};
ghost use Rattle.hx_trace.specs.Why.{explained};
ghost use Rattle.hx_diff.specs.AnswerParts.{answer_parts, shown_answer};
ghost use Rattle.hx_diff.specs.AnswerView.{HasLastLine, parts_of};

use crate::command::Task;
use hx_record::Event;
use memchr::memrchr;

/// What a side answers to an event: its answer, which is compared with the other side's, and the
/// lines that are shown of it where the two differ. The answer is a prefix of these.
#[derive(Clone, Copy)]
pub struct DetailedAnswer<'a> {
    pub answer: &'a [u8],
    pub shown: &'a [u8],
}

/// The answer to an event of which this is shown under the task.
pub fn detailed_answer<'a>(task: Task, event: &Event, shown: &'a [u8]) -> DetailedAnswer<'a>
    ensures { (world : World) → shown.now ≡ shown_answer task world event.now
        → parts_of result ≡ answer_parts task world event.now }
{
    let answer = answer_in(task, event, shown);
    DetailedAnswer { answer, shown }
}

/// The answer to an event within what is shown of it under the task.
fn answer_in<'a>(task: Task, event: &Event, shown: &'a [u8]) -> &'a [u8]
    ensures { (world : World) → shown.now ≡ shown_answer task world event.now
        → result.now ≡ answer_of world event.now }
{
    match task {
        Task::Lines => shown,
        Task::Reasons => without_reason(event, shown),
        Task::Counts => shown,
    }
}

/// The lines that answer an event, without the one that tells why a request has its verdict.
fn without_reason<'a>(event: &Event, shown: &'a [u8]) -> &'a [u8]
    ensures { (world : World) → shown.now ≡ told_answer explained world event.now
        → result.now ≡ answer_of world event.now }
{
    match event {
        Event::Conn { .. } => shown,
        Event::Req { .. } => without_last_line(shown),
        Event::Close { .. } => shown,
        Event::Cli { .. } => shown,
    }
}

/// The lines of a text but the last one. The text ends with a line feed, or is empty.
fn without_last_line(text: &[u8]) -> &[u8]
    ensures lines { (lines : List ℕ) → HasLastLine lines text.now → result.now ≡ lines }
    ensures empty { text.now ≡ [] → result.now ≡ [] }
{
    let Some(end) = text.len().checked_sub(1) else {
        return text;
    };
    match memrchr(b'\n', &text[..end]) {
        Some(at) => &text[..at + 1],
        None => &text[..0],
    }
}
