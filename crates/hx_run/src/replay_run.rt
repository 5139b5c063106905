ghost use Rattle.std.specs.Prelude.{◌≡◌, ◌≤◌, [], IfErr, OnOk, IsErrOf};
ghost use Rattle.std.specs.Io.KnownBytes.{IsAtEnd};
ghost use Rattle.hx_core.specs.Steps.{EventAsksFor};
ghost use Rattle.hx_core.specs.World.{first_world, FitRules};
ghost use Rattle.hx_outside.specs.Count.{Rose};
ghost use Rattle.hx_replay.specs.Gathering.{IsOfRecord, WritesOutcome};
ghost use Rattle.hx_replay.specs.Replay.{ReplayAsksLast, WritesBeforeReading, WritesDecided};
ghost use Rattle.hx_run.specs.Run.{accepted_outcome, behavior_of};
ghost use Rattle.hx_run.specs.RunFault.{IsReplayFault, result_end, run_result};
ghost use Rattle.hx_run.specs.declared.command.Detail.{Detail};
ghost use Rattle.hx_run.specs.declared.command.Task.{Task};

use crate::command::Detail;
use crate::counted_engine::CountedEngine;
use crate::run_fault::RunFault;
use crate::traced_engine::TracedEngine;
use hx_outside::{ReMaker, Sink, Source};
use hx_refs::Refs;
use hx_replay::{ReplayFault, replay};
use hx_rules::Program;
use std::alloc::Global;

/// Answers the events of a record by these rules and references, as `replay` does it, in this
/// detail.
///
/// The references have the heads and the lists that the rules name. `requests` is then how many
/// requests were answered, as tests show.
pub(crate) fn replay_rules<S: Source, K: Sink, M: ReMaker>(
    alloc: Global,
    detail: Detail,
    rules: Program,
    refs: Refs,
    record_in: &mut S,
    out: &mut K,
    maker: &mut M,
    requests: &mut u64,
) -> Result<(), RunFault>
    requires { FitRules refs.content rules }
    ensures replays { WritesOutcome (IsOfRecord (accepted_outcome (Task.Replay detail)
        (record { rules = rules; references = refs.content })) (S.left record_in.old))
        (K.written out.old) (K.written out.new) [] (result_end result) }
    ensures decided { IsErrOf result RunFault.Source
        → WritesDecided (behavior_of detail) (first_world rules refs.content)
        (S.left record_in.old) (S.left record_in.new) (K.written out.old) (K.written out.new) }
    ensures before_reading { WritesBeforeReading (behavior_of detail)
        (first_world rules refs.content) (S.log record_in.old) (S.log record_in.new)
        (K.written out.old) (K.written out.new) }
    ensures at_end { OnOk result (IsAtEnd (S.left record_in.new)) }
    ensures kind { IfErr result IsReplayFault }
    ensures source { IsErrOf result RunFault.Source
        → Rose (S.faults record_in.old) (S.faults record_in.new) }
    ensures sink { IsErrOf result RunFault.Sink → Rose (K.faults out.old) (K.faults out.new) }
    ensures later { K.faults out.old ≤ K.faults out.new }
    ensures too_large { IsErrOf result RunFault.TooLarge
        → Rose (M.state maker.old).too_large (M.state maker.new).too_large
        × ReplayAsksLast (behavior_of detail) EventAsksFor (first_world rules refs.content)
        (S.left record_in.old) (M.state maker.new).large }
{
    match detail {
        Detail::Verdicts => { replay_verdicts(alloc, rules, refs, record_in, out, maker, requests) }
        Detail::Reasons => replay_reasons(alloc, rules, refs, record_in, out, maker, requests),
    }
}

/// The same, with the answers alone.
fn replay_verdicts<S: Source, K: Sink, M: ReMaker>(
    alloc: Global,
    rules: Program,
    refs: Refs,
    record_in: &mut S,
    out: &mut K,
    maker: &mut M,
    requests: &mut u64,
) -> Result<(), RunFault>
    requires { FitRules refs.content rules }
    ensures replays { WritesOutcome (IsOfRecord (accepted_outcome (Task.Replay Detail.Verdicts)
        (record { rules = rules; references = refs.content })) (S.left record_in.old))
        (K.written out.old) (K.written out.new) [] (result_end result) }
    ensures decided { IsErrOf result RunFault.Source
        → WritesDecided (behavior_of Detail.Verdicts) (first_world rules refs.content)
        (S.left record_in.old) (S.left record_in.new) (K.written out.old) (K.written out.new) }
    ensures before_reading { WritesBeforeReading (behavior_of Detail.Verdicts)
        (first_world rules refs.content) (S.log record_in.old) (S.log record_in.new)
        (K.written out.old) (K.written out.new) }
    ensures at_end { OnOk result (IsAtEnd (S.left record_in.new)) }
    ensures kind { IfErr result IsReplayFault }
    ensures source { IsErrOf result RunFault.Source
        → Rose (S.faults record_in.old) (S.faults record_in.new) }
    ensures sink { IsErrOf result RunFault.Sink → Rose (K.faults out.old) (K.faults out.new) }
    ensures later { K.faults out.old ≤ K.faults out.new }
    ensures too_large { IsErrOf result RunFault.TooLarge
        → Rose (M.state maker.old).too_large (M.state maker.new).too_large
        × ReplayAsksLast (behavior_of Detail.Verdicts) EventAsksFor (first_world rules refs.content)
        (S.left record_in.old) (M.state maker.new).large }
{
    let mut engine = CountedEngine::new(alloc, rules, refs);
    let replayed = replay(alloc, &mut engine, record_in, out, maker);
    *requests = engine.requests;
    run_result(replayed)
}

/// The same, with what there is to tell of each request.
fn replay_reasons<S: Source, K: Sink, M: ReMaker>(
    alloc: Global,
    rules: Program,
    refs: Refs,
    record_in: &mut S,
    out: &mut K,
    maker: &mut M,
    requests: &mut u64,
) -> Result<(), RunFault>
    requires { FitRules refs.content rules }
    ensures replays { WritesOutcome (IsOfRecord (accepted_outcome (Task.Replay Detail.Reasons)
        (record { rules = rules; references = refs.content })) (S.left record_in.old))
        (K.written out.old) (K.written out.new) [] (result_end result) }
    ensures decided { IsErrOf result RunFault.Source
        → WritesDecided (behavior_of Detail.Reasons) (first_world rules refs.content)
        (S.left record_in.old) (S.left record_in.new) (K.written out.old) (K.written out.new) }
    ensures before_reading { WritesBeforeReading (behavior_of Detail.Reasons)
        (first_world rules refs.content) (S.log record_in.old) (S.log record_in.new)
        (K.written out.old) (K.written out.new) }
    ensures at_end { OnOk result (IsAtEnd (S.left record_in.new)) }
    ensures kind { IfErr result IsReplayFault }
    ensures source { IsErrOf result RunFault.Source
        → Rose (S.faults record_in.old) (S.faults record_in.new) }
    ensures sink { IsErrOf result RunFault.Sink → Rose (K.faults out.old) (K.faults out.new) }
    ensures later { K.faults out.old ≤ K.faults out.new }
    ensures too_large { IsErrOf result RunFault.TooLarge
        → Rose (M.state maker.old).too_large (M.state maker.new).too_large
        × ReplayAsksLast (behavior_of Detail.Reasons) EventAsksFor (first_world rules refs.content)
        (S.left record_in.old) (M.state maker.new).large }
{
    let mut engine = TracedEngine::new(alloc, rules, refs);
    let replayed = replay(alloc, &mut engine, record_in, out, maker);
    *requests = engine.requests;
    run_result(replayed)
}

/// What a run comes to whose replay comes to this.
fn run_result(replayed: Result<(), ReplayFault>) -> Result<(), RunFault>
    ensures { result ≡ run_result replayed }
{
    match replayed {
        Ok(()) => Ok(()),
        Err(fault) => Err(RunFault::from(fault)),
    }
}
