ghost use Rattle.std.specs.Prelude.{◌≡◌, ◌++◌, OnOk, OnErr};
ghost use Rattle.hx_diff.specs.AnswerView.{parts_of};
ghost use Rattle.hx_diff.specs.Difference.{event_difference};
ghost use Rattle.hx_diff.specs.Report.{empty_report, ending_of, report_after, rows_after, told_of};
ghost use Rattle.hx_diff.specs.Tally.{some_differ};

use crate::command::Task;
use crate::detailed_answer::DetailedAnswer;
use crate::difference::append_difference;
use crate::rows::Rows;
use crate::tally::Tally;
use hx_record::Event;
use hx_replay::Answers;
use hx_text::NoMemory;
use std::alloc::Global;
use std::marker::Model;

/// What is told of the answers of two configurations: each difference, or the counts of their
/// verdicts, and the totals. Contracts see what was asked for, and what is counted so far.
#[derive(Drop)]
pub struct Report {
    task: Task,
    tally: Tally,
    rows: Rows,
    // the text that is gathered next, whose memory is kept
    text: Vec<u8>,
}

impl Model for Report {
    ghost use Rattle.hx_diff.specs.Report.{ReportParts};

    ghost Value = { ReportParts };

    ghost view = { λ report. record {
      task = report.task;
      tally = report.tally;
      rows = report.rows;
    } };
}

impl Report {
    /// The report before the first event. It takes no memory.
    pub fn new(alloc: Global, task: Task) -> Report
        ensures { result ≡ empty_report task }
    {
        Report {
            task,
            tally: Tally::new(),
            rows: Rows::new(alloc),
            text: Vec::new(alloc),
        }
    }

    /// What was asked for.
    pub fn task(&self) -> Task
        ensures { result ≡ self.now.task }
    {
        self.task
    }

    /// How many requests there were so far.
    pub fn requests(&self) -> u64
        ensures { result ≡ self.now.tally.requests }
    {
        self.tally.requests
    }

    /// Whether any answers differed so far.
    pub fn some_differ(&self) -> bool
        ensures { result ≡ some_differ self.now.tally }
    {
        self.tally.some_differ()
    }

    /// Counts an event with these two answers, and gathers what is written of it at once. Where
    /// memory runs out, nothing is gathered, and what is counted isn't known.
    pub fn tell(
        &mut self,
        alloc: Global,
        event: &Event,
        old: DetailedAnswer<'_>,
        new: DetailedAnswer<'_>,
        answers: &mut Answers,
    ) -> Result<(), NoMemory>
        ensures ok { OnOk result (answers.new ≡ answers.old
            ++ told_of self.old event.now (parts_of old.entry) (parts_of new.entry)) }
        ensures counts { OnOk result (self.new
            ≡ report_after self.old event.now old.entry.answer.now new.entry.answer.now) }
        ensures err { OnErr result (answers.new ≡ answers.old) }
    {
        let number = self.tally.requests.saturating_add(1);
        self.tally = self.tally.after(event, old.answer, new.answer);
        match self.task {
            Task::Lines => {
                push_difference(alloc, &mut self.text, number, event, old, new, answers)
            }
            Task::Reasons => {
                push_difference(alloc, &mut self.text, number, event, old, new, answers)
            }
            Task::Counts => {
                count_verdicts(alloc, &mut self.rows, number, event, old.answer, new.answer)
            }
        }
    }

    /// Gathers what is written at the record's end, or nothing where memory runs out. What is
    /// counted stays.
    pub fn end(&mut self, answers: &mut Answers) -> Result<(), NoMemory>
        ensures ok { OnOk result (answers.new ≡ answers.old ++ ending_of self.old) }
        ensures kept { self.new ≡ self.old }
        ensures err { OnErr result (answers.new ≡ answers.old) }
    {
        self.text.clear();
        self.rows.append_lines(&mut self.text)?;
        self.tally.append_totals(&mut self.text)?;
        answers.push(self.text.as_slice())
    }
}

/// Gathers the difference of two answers to an event, or nothing where memory runs out. `text` is
/// memory for it.
fn push_difference(
    alloc: Global,
    text: &mut Vec<u8>,
    number: u64,
    event: &Event,
    old: DetailedAnswer<'_>,
    new: DetailedAnswer<'_>,
    answers: &mut Answers,
) -> Result<(), NoMemory>
    ensures ok { OnOk result (answers.new ≡ answers.old
        ++ event_difference number event.now (parts_of old.entry) (parts_of new.entry)) }
    ensures err { OnErr result (answers.new ≡ answers.old) }
{
    text.clear();
    append_difference(alloc, text, number, event, old, new)?;
    answers.push(text.as_slice())
}

/// Counts an event by the verdicts of its two answers, where it is a request and they differ.
fn count_verdicts(
    alloc: Global,
    rows: &mut Rows,
    number: u64,
    event: &Event,
    old: &[u8],
    new: &[u8],
) -> Result<(), NoMemory>
    ensures { OnOk result (rows.new
        ≡ rows_after Task.Counts number event.now old.now new.now rows.old) }
{
    match event {
        Event::Conn { .. } => Ok(()),
        Event::Req { .. } => {
            if old == new {
                Ok(())
            } else {
                rows.count(alloc, number, old, new)
            }
        }
        Event::Close { .. } => Ok(()),
        Event::Cli { .. } => Ok(()),
    }
}
