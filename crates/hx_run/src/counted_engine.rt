ghost use Rattle.std.specs.Prelude.{◌≡◌, None};
ghost use Rattle.hx_core.specs.World.{first_world, FitRules};

use hx_core::{Engine, StepFault};
use hx_outside::ReMaker;
use hx_record::Event;
use hx_refs::Refs;
use hx_replay::{Answerer, Answers, count_request};
use hx_rules::Program;
use hx_text::NoMemory;
use std::alloc::Global;

/// An engine that answers the events of a record, and how many requests it has answered.
#[derive(Drop)]
pub(crate) struct CountedEngine {
    pub(crate) engine: Engine,
    pub(crate) requests: u64,
}

impl CountedEngine {
    /// The engine before the first event. The references have the heads and the lists that the
    /// rules name.
    pub(crate) fn new(alloc: Global, rules: Program, refs: Refs) -> CountedEngine
        requires { FitRules refs.content rules }
        ensures world { result.engine.world ≡ first_world rules refs.content }
        ensures running { result.engine.stopped ≡ None }
    {
        CountedEngine {
            engine: Engine::new(alloc, rules, refs),
            requests: 0,
        }
    }
}

impl Answerer for CountedEngine {
    ghost use Rattle.std.specs.Prelude.{◌≡◌, None};
    ghost use Rattle.hx_core.specs.Steps.{EventAsksFor};
    ghost use Rattle.hx_core.specs.World.{World};
    ghost use Rattle.hx_replay.specs.Program.{engine_behavior};

    ghost State = { World };

    ghost state = { λ counted. counted.engine.world };

    ghost behavior = { engine_behavior };

    ghost AsksFor = { EventAsksFor };

    ghost IsRunning = { λ counted. counted.engine.stopped ≡ None };

    fn answer<M: ReMaker>(
        &mut self,
        event: &Event,
        answers: &mut Answers,
        maker: &mut M,
    ) -> Result<(), StepFault> {
        let answer = self.engine.step(event, maker)?;
        let gathered = answers.push(answer.bytes());
        self.engine.reuse(answer);
        gathered?;
        count_request(event, &mut self.requests);
        Ok(())
    }

    fn end(&mut self, _answers: &mut Answers) -> Result<(), NoMemory> {
        Ok(())
    }
}
