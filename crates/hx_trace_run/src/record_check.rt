ghost use Rattle.std.specs.Prelude.{◌≡◌, ◌≤◌, [], IfErr, OnOk, IsErrOf};
ghost use Rattle.std.specs.Io.KnownBytes.{Appends, IsAtEnd};
ghost use Rattle.hx_core.specs.Steps.{EventAsksFor};
ghost use Rattle.hx_core.specs.World.{FitRules};
ghost use Rattle.hx_outside.specs.Count.{Rose};
ghost use Rattle.hx_replay.specs.Configs.{program_of};
ghost use Rattle.hx_replay.specs.Program.{initial_world};
ghost use Rattle.hx_replay.specs.Replay.{ReplayAsksLast};
ghost use Rattle.hx_run.specs.Run.{behavior_of};
ghost use Rattle.hx_run.specs.RunFault.{IsReplayFault};
ghost use Rattle.hx_run.specs.declared.command.Detail.{Detail};
ghost use Rattle.hx_trace_run.specs.CheckView.{FindsBeside, found_result};
ghost use Rattle.hx_trace_run.specs.Checking.{TakesUnrefused};

use crate::agreement::Finding;
use crate::checking_engine::CheckingEngine;
use hx_outside::{ReMaker, Sink, Source};
use hx_replay::{LoadedConfig, ReplayFault, replay};
use hx_run::RunFault;
use std::alloc::Global;

/// Answers the events of a record by a configuration, tells why requests have their verdicts, and
/// compares the text with a trace. Nothing is written.
///
/// The references have the heads and the lists that the rules name. `requests` is then how many
/// requests were answered, as tests show.
pub(crate) fn check_record<S: Source, K: Sink, M: ReMaker>(
    alloc: Global,
    loaded: LoadedConfig,
    trace: Vec<u8>,
    record_in: &mut S,
    out: &mut K,
    maker: &mut M,
    requests: &mut u64,
) -> Result<Finding, RunFault>
    requires { FitRules loaded.1.content loaded.0 }
    ensures finds { FindsBeside (program_of loaded) trace.items (S.left record_in.old) result }
    ensures unwritten { Appends (K.written out.old) (K.written out.new) [] }
    ensures taken { IsErrOf result RunFault.Source → TakesUnrefused (program_of loaded)
        (S.left record_in.old) (S.left record_in.new) }
    ensures at_end { OnOk result (IsAtEnd (S.left record_in.new)) }
    ensures kind { IfErr result IsReplayFault }
    ensures source { IsErrOf result RunFault.Source
        → Rose (S.faults record_in.old) (S.faults record_in.new) }
    ensures sink { IsErrOf result RunFault.Sink → Rose (K.faults out.old) (K.faults out.new) }
    ensures later { K.faults out.old ≤ K.faults out.new }
    ensures too_large { IsErrOf result RunFault.TooLarge
        → Rose (M.state maker.old).too_large (M.state maker.new).too_large
        × ReplayAsksLast (behavior_of Detail.Reasons) EventAsksFor
        (initial_world (program_of loaded)) (S.left record_in.old) (M.state maker.new).large }
{
    let (rules, refs) = loaded;
    let mut checking = CheckingEngine::new(alloc, rules, refs, trace);
    let replayed = replay(alloc, &mut checking, record_in, out, maker);
    *requests = checking.requests;
    found_result(replayed, checking.agreement.finding())
}

/// What comes of a record whose replay comes to this, where this is found at its end.
fn found_result(replayed: Result<(), ReplayFault>, finding: Finding) -> Result<Finding, RunFault>
    ensures { result ≡ found_result finding replayed }
{
    match replayed {
        Ok(()) => Ok(finding),
        Err(fault) => Err(RunFault::from(fault)),
    }
}
