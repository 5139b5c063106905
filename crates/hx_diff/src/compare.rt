ghost use Rattle.std.specs.Prelude.{◌≡◌, ◌≤◌, [], IfErr, OnOk, IsErrOf};
ghost use Rattle.std.specs.Io.KnownBytes.{IsAtEnd};
ghost use Rattle.hx_core.specs.World.{FitRules};
ghost use Rattle.hx_outside.specs.Count.{Rose};
ghost use Rattle.hx_replay.specs.Gathering.{IsOfRecord, WritesOutcome};
ghost use Rattle.hx_replay.specs.Replay.{ReplayAsksLast, WritesBeforeReading, WritesDecided};
ghost use Rattle.hx_diff.specs.Comparison.{ComparisonAsksFor, comparison_behavior, initial_comparison};
ghost use Rattle.hx_diff.specs.Run.{compared_outcome};
ghost use Rattle.hx_diff.specs.RunFault.{IsReplayFault, programs_of, result_end, run_result};

use crate::command::Task;
use crate::engines::Engines;
use crate::run_fault::RunFault;
use hx_outside::{ReMaker, Sink, Source};
use hx_replay::{LoadedConfig, ReplayFault, replay};
use std::alloc::Global;

/// Answers the events of a record by two configurations, as `replay` does it, and writes what the
/// task asks for: the differences of their answers, or at the end the counts of their verdicts, and
/// then the totals. `Ok` says whether any differed.
///
/// The references of each configuration have the heads and the lists that its rules name.
/// `requests` is then how many requests were answered, as tests show.
pub fn compare<S: Source, K: Sink, M: ReMaker>(
    alloc: Global,
    task: Task,
    old: LoadedConfig,
    new: LoadedConfig,
    record_in: &mut S,
    out: &mut K,
    maker: &mut M,
    requests: &mut u64,
) -> Result<bool, RunFault>
    requires old { FitRules old.1.content old.0 }
    requires new { FitRules new.1.content new.0 }
    ensures replays { WritesOutcome
        (IsOfRecord (compared_outcome (programs_of task old new)) (S.left record_in.old))
        (K.written out.old) (K.written out.new) [] (result_end result) }
    ensures decided { IsErrOf result RunFault.Source → WritesDecided comparison_behavior
        (initial_comparison (programs_of task old new)) (S.left record_in.old)
        (S.left record_in.new) (K.written out.old) (K.written out.new) }
    ensures before_reading { WritesBeforeReading comparison_behavior
        (initial_comparison (programs_of task old new))
        (S.log record_in.old) (S.log record_in.new) (K.written out.old) (K.written out.new) }
    ensures at_end { OnOk result (IsAtEnd (S.left record_in.new)) }
    ensures kind { IfErr result IsReplayFault }
    ensures source { IsErrOf result RunFault.Source
        → Rose (S.faults record_in.old) (S.faults record_in.new) }
    ensures sink { IsErrOf result RunFault.Sink → Rose (K.faults out.old) (K.faults out.new) }
    ensures later { K.faults out.old ≤ K.faults out.new }
    ensures too_large { IsErrOf result RunFault.TooLarge
        → Rose (M.state maker.old).too_large (M.state maker.new).too_large
        × ReplayAsksLast comparison_behavior ComparisonAsksFor
        (initial_comparison (programs_of task old new)) (S.left record_in.old)
        (M.state maker.new).large }
{
    let mut engines = Engines::new(alloc, task, old, new);
    let replayed = replay(alloc, &mut engines, record_in, out, maker);
    *requests = engines.report.requests();
    run_result(replayed, engines.report.some_differ())
}

/// What a run comes to whose replay comes to this; `differs` says whether any answers differed.
fn run_result(replayed: Result<(), ReplayFault>, differs: bool) -> Result<bool, RunFault>
    ensures { result ≡ run_result differs replayed }
{
    match replayed {
        Ok(()) => Ok(differs),
        Err(fault) => Err(RunFault::from(fault)),
    }
}
