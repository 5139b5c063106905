ghost use Rattle.std.specs.Prelude.{◌≡◌, ◌≤◌, ◌<◌, ◌+◌, false, [], length, IfErr, OnOk, OnErr, IsErrOf, IsSomeAnd};
ghost use Rattle.std.specs.Io.KnownBytes.{Appends, IsAtEnd, Keeps};
ghost use Rattle.hx_outside.specs.Count.{Rose};
ghost use Rattle.hx_outside.specs.Prefixes.{AppendsPrefix};
ghost use Rattle.hx_record.specs.Reading.{Fills};
ghost use Rattle.hx_record.specs.State.{remaining_work};
ghost use Rattle.hx_replay.specs.Gathering.{AnswersEvent, IsFailure, LogsFailure, Replays};
ghost use Rattle.hx_replay.specs.Records.{record_limit};
ghost use Rattle.hx_replay.specs.Replay.{ReplayAsksLast, WritesBeforeReading, WritesDecided};

use crate::answerer::Answerer;
use crate::answers::{Answers, write_answers, write_many};
use crate::replay_fault::ReplayFault;
use hx_core::StepFault;
use hx_outside::{ReMaker, Sink, Source};
use hx_record::{Next, Placed, Reader};
use std::alloc::Global;

/// The most bytes that a record may have.
const RECORD_LIMIT: u64 = 4_294_967_296;

/// The code of a request or an end of a connection that isn't open.
const UNKNOWN_CONN: u32 = 6;

/// The code of the opening of a connection that is open.
const CONN_OPEN: u32 = 7;

/// Lets the answerer answer the events of a record in order, and writes the answers. They are
/// gathered while the bytes that were read decide the next event, and are written before more of
/// the record is read: whatever comes of the replay, what the bytes of all reads but the last
/// decide was written.
///
/// `RecordRefused` exactly where the record is refused, after the answers to the events before.
/// `Source` and `Sink` only where the count of faults of that one rose, `TooLarge` only where the
/// maker's count of texts that were too large rose, for a text for which an event asks, and
/// `NoMemory` where memory runs out: what was written is then a prefix of the answers, and after
/// `Source` exactly the answers to the events that the bytes taken decide.
///
/// The answerer is running. With `Ok` its state is the one after all events of the record.
pub fn replay<A: Answerer, S: Source, K: Sink, M: ReMaker>(
    alloc: Global,
    answerer: &mut A,
    record_in: &mut S,
    out: &mut K,
    maker: &mut M,
) -> Result<(), ReplayFault>
    requires { A.IsRunning answerer.old }
    ensures replays { Replays A.behavior (A.state answerer.old) (A.state answerer.new)
        (S.left record_in.old) (K.written out.old) (K.written out.new) [] result }
    ensures decided { IsErrOf result ReplayFault.Source
        → WritesDecided A.behavior (A.state answerer.old) (S.left record_in.old)
        (S.left record_in.new) (K.written out.old) (K.written out.new) }
    ensures before_reading { WritesBeforeReading A.behavior (A.state answerer.old)
        (S.log record_in.old) (S.log record_in.new) (K.written out.old) (K.written out.new) }
    ensures at_end { OnOk result (IsAtEnd (S.left record_in.new)) }
    ensures source { IsErrOf result ReplayFault.Source
        → Rose (S.faults record_in.old) (S.faults record_in.new) }
    ensures sink { IsErrOf result ReplayFault.Sink → Rose (K.faults out.old) (K.faults out.new) }
    ensures later { K.faults out.old ≤ K.faults out.new }
    ensures too_large { IsErrOf result ReplayFault.TooLarge
        → Rose (M.state maker.old).too_large (M.state maker.new).too_large
        × ReplayAsksLast A.behavior A.AsksFor (A.state answerer.old) (S.left record_in.old)
        (M.state maker.new).large }
    // After a text that was too large, the answers before it may fail to be written.
    ensures uncounted { ¬ (IsErrOf result ReplayFault.TooLarge)
        → ¬ (IsErrOf result ReplayFault.Sink) → ¬ (IsErrOf result ReplayFault.NoMemory)
        → ((M.state maker.new).too_large ≡ (M.state maker.old).too_large)
        × ((M.state maker.new).large ≡ (M.state maker.old).large) }
{
    let mut answers = Answers::new(alloc);
    let mut reader = Reader::new(alloc, RECORD_LIMIT);
    let ended = gather(answerer, &mut reader, record_in, out, &mut answers, maker);
    write_answers(out, &mut answers)?;
    ended
}

/// Goes through the record to its end or the first fault, with a reader that is at the beginning.
/// The last answers are left in `answers`, which has none at the start: they are not written yet.
fn gather<A: Answerer, S: Source, K: Sink, M: ReMaker>(
    answerer: &mut A,
    reader: &mut Reader,
    record_in: &mut S,
    out: &mut K,
    answers: &mut Answers,
    maker: &mut M,
) -> Result<(), ReplayFault>
    requires running { A.IsRunning answerer.old }
    requires none { answers.old ≡ [] }
    requires start { reader.old
        ≡ record { limit = record_limit; at = 0; pending = []; ended = false } }
    ensures replays { Replays A.behavior (A.state answerer.old) (A.state answerer.new)
        (S.left record_in.old) (K.written out.old) (K.written out.new) answers.new result }
    ensures decided { IsErrOf result ReplayFault.Source
        → WritesDecided A.behavior (A.state answerer.old) (S.left record_in.old)
        (S.left record_in.new) (K.written out.old) (K.written out.new) }
    ensures before_reading { WritesBeforeReading A.behavior (A.state answerer.old)
        (S.log record_in.old) (S.log record_in.new) (K.written out.old) (K.written out.new) }
    ensures empty { IsErrOf result ReplayFault.Source → answers.new ≡ [] }
    ensures at_end { OnOk result (IsAtEnd (S.left record_in.new)) }
    ensures source { IsErrOf result ReplayFault.Source
        → Rose (S.faults record_in.old) (S.faults record_in.new) }
    ensures sink { IsErrOf result ReplayFault.Sink → Rose (K.faults out.old) (K.faults out.new) }
    ensures later { K.faults out.old ≤ K.faults out.new }
    ensures too_large { IsErrOf result ReplayFault.TooLarge
        → Rose (M.state maker.old).too_large (M.state maker.new).too_large
        × ReplayAsksLast A.behavior A.AsksFor (A.state answerer.old) (S.left record_in.old)
        (M.state maker.new).large }
    ensures uncounted { ¬ (IsErrOf result ReplayFault.TooLarge)
        → ((M.state maker.new).too_large ≡ (M.state maker.old).too_large)
        × ((M.state maker.new).large ≡ (M.state maker.old).large) }
{
    'events: loop {
        match reader.next_decided()? {
            Next::Event(placed) => answer_event(answerer, reader, placed, out, answers, maker)?,
            Next::Undecided => read_more(reader, record_in, out, answers)?,
            Next::End => {
                answerer.end(answers)?;
                return Ok(());
            }
        }
    }
}

/// Answers one event, and writes the answers where there are many. The reader takes the event back.
fn answer_event<A: Answerer, K: Sink, M: ReMaker>(
    answerer: &mut A,
    reader: &mut Reader,
    placed: Placed,
    out: &mut K,
    answers: &mut Answers,
    maker: &mut M,
) -> Result<(), ReplayFault>
    requires { A.IsRunning answerer.old }
    ensures answers { AnswersEvent A.behavior (A.state answerer.old) (A.state answerer.new) placed
        (K.written out.old) (K.written out.new) answers.old answers.new result }
    ensures reader { reader.new ≡ reader.old }
    ensures running { OnOk result (A.IsRunning answerer.new) }
    ensures source { ¬ (IsErrOf result ReplayFault.Source) }
    ensures sink { IsErrOf result ReplayFault.Sink → Rose (K.faults out.old) (K.faults out.new) }
    ensures later { K.faults out.old ≤ K.faults out.new }
    ensures too_large { IsErrOf result ReplayFault.TooLarge
        → Rose (M.state maker.old).too_large (M.state maker.new).too_large
        × IsSomeAnd (M.state maker.new).large
        (A.AsksFor (A.state answerer.old) placed.event) }
    ensures uncounted { ¬ (IsErrOf result ReplayFault.TooLarge)
        → ((M.state maker.new).too_large ≡ (M.state maker.old).too_large)
        × ((M.state maker.new).large ≡ (M.state maker.old).large) }
{
    let answered = answer_placed(answerer, &placed, out, answers, maker);
    reader.reuse(placed.event);
    answered
}

/// Answers one event, and writes the answers where there are many.
fn answer_placed<A: Answerer, K: Sink, M: ReMaker>(
    answerer: &mut A,
    placed: &Placed,
    out: &mut K,
    answers: &mut Answers,
    maker: &mut M,
) -> Result<(), ReplayFault>
    requires { A.IsRunning answerer.old }
    ensures answers { AnswersEvent A.behavior (A.state answerer.old) (A.state answerer.new)
        placed.now (K.written out.old) (K.written out.new) answers.old answers.new result }
    ensures running { OnOk result (A.IsRunning answerer.new) }
    ensures source { ¬ (IsErrOf result ReplayFault.Source) }
    ensures sink { IsErrOf result ReplayFault.Sink → Rose (K.faults out.old) (K.faults out.new) }
    ensures later { K.faults out.old ≤ K.faults out.new }
    ensures too_large { IsErrOf result ReplayFault.TooLarge
        → Rose (M.state maker.old).too_large (M.state maker.new).too_large
        × IsSomeAnd (M.state maker.new).large
        (A.AsksFor (A.state answerer.old) placed.now.event) }
    ensures uncounted { ¬ (IsErrOf result ReplayFault.TooLarge)
        → ((M.state maker.new).too_large ≡ (M.state maker.old).too_large)
        × ((M.state maker.new).large ≡ (M.state maker.old).large) }
{
    match answerer.answer(&placed.event, answers, maker) {
        Ok(()) => {
            write_many(out, answers)?;
            Ok(())
        }
        Err(StepFault::UnknownConn) => Err(ReplayFault::RecordRefused {
            offset: placed.offset,
            code: UNKNOWN_CONN,
        }),
        Err(StepFault::ConnOpen) => Err(ReplayFault::RecordRefused {
            offset: placed.offset,
            code: CONN_OPEN,
        }),
        Err(StepFault::TooLarge) => Err(ReplayFault::TooLarge),
        Err(StepFault::NoMemory) => Err(ReplayFault::NoMemory),
    }
}

/// Writes the answers, and reads more of the record. Where it can't, reader and source are as
/// before; the answers are written but for a fault of the sink.
#[tactic(auto, using(crate::proofs::BeforeReadingLemmas::reader_logs, crate::proofs::BeforeReadingLemmas::sink_logs))]
fn read_more<S: Source, K: Sink>(
    reader: &mut Reader,
    record_in: &mut S,
    out: &mut K,
    answers: &mut Answers,
) -> Result<(), ReplayFault>
    requires { reader.old.ended ≡ false }
    ensures ok { OnOk result (Fills reader.old reader.new (S.left record_in.old)
        (S.left record_in.new) (S.log record_in.old) (S.log record_in.new)) }
    ensures less { OnOk result (reader.old.at + length reader.old.pending ≤ reader.old.limit
        → remaining_work reader.new < remaining_work reader.old) }
    ensures err { OnErr result (reader.new ≡ reader.old) }
    ensures kept { OnErr result (Keeps (S.left record_in.old) (S.left record_in.new)) }
    ensures log { IfErr result (λ fault.
        LogsFailure fault (S.log record_in.old) (S.log record_in.new)) }
    ensures kind { IfErr result IsFailure }
    ensures empty { answers.new ≡ [] }
    ensures prefix { AppendsPrefix (K.written out.old) (K.written out.new) answers.old }
    ensures written { OnOk result (Appends (K.written out.old) (K.written out.new) answers.old) }
    ensures before_reading { IsErrOf result ReplayFault.Source
        → Appends (K.written out.old) (K.written out.new) answers.old }
    ensures source { IsErrOf result ReplayFault.Source
        → Rose (S.faults record_in.old) (S.faults record_in.new) }
    ensures sink { IsErrOf result ReplayFault.Sink → Rose (K.faults out.old) (K.faults out.new) }
    ensures later { K.faults out.old ≤ K.faults out.new }
    ensures source_later { S.faults record_in.old ≤ S.faults record_in.new }
{
    write_answers(out, answers)?;
    reader.fill(record_in)?;
    Ok(())
}
