ghost use Rattle.std.specs.Prelude.{◌≡◌, None};
ghost use Rattle.hx_core.specs.World.{first_world, FitRules};

use hx_core::{Engine, StepFault};
use hx_outside::ReMaker;
use hx_record::Event;
use hx_refs::Refs;
use hx_replay::{Answerer, Answers, count_request};
use hx_rules::Program;
use hx_text::NoMemory;
use hx_trace::Explainer;
use std::alloc::Global;

/// An engine that answers the events of a record, and tells of each request why it has its verdict;
/// and how many requests it has answered.
#[derive(Drop)]
pub(crate) struct TracedEngine {
    pub(crate) engine: Engine,
    pub(crate) explainer: Explainer,
    pub(crate) requests: u64,
}

impl TracedEngine {
    /// The engine before the first event. The references have the heads and the lists that the
    /// rules name.
    pub(crate) fn new(alloc: Global, rules: Program, refs: Refs) -> TracedEngine
        requires { FitRules refs.content rules }
        ensures world { result.engine.world ≡ first_world rules refs.content }
        ensures running { result.engine.stopped ≡ None }
    {
        TracedEngine {
            engine: Engine::new(alloc, rules, refs),
            explainer: Explainer::new(alloc),
            requests: 0,
        }
    }
}

impl Answerer for TracedEngine {
    ghost use Rattle.std.specs.Prelude.{◌≡◌, None};
    ghost use Rattle.hx_core.specs.Steps.{EventAsksFor};
    ghost use Rattle.hx_core.specs.World.{World};
    ghost use Rattle.hx_run.specs.Run.{behavior_of};
    ghost use Rattle.hx_run.specs.declared.command.Detail.{Detail};

    ghost State = { World };

    ghost state = { λ traced. traced.engine.world };

    ghost behavior = { behavior_of Detail.Reasons };

    ghost AsksFor = { EventAsksFor };

    ghost IsRunning = { λ traced. traced.engine.stopped ≡ None };

    fn answer<M: ReMaker>(
        &mut self,
        event: &Event,
        answers: &mut Answers,
        maker: &mut M,
    ) -> Result<(), StepFault> {
        let answer = self.engine.step_by(event, &mut self.explainer, maker)?;
        let gathered = answers.push(answer.bytes());
        self.engine.reuse(answer);
        gathered?;
        count_request(event, &mut self.requests);
        Ok(())
    }

    fn end(&mut self, _answers: &mut Answers) -> Result<(), NoMemory> {
        Ok(())
    }
}
