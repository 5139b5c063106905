ghost use Rattle.std.specs.Prelude.{◌≡◌, None};
ghost use Rattle.hx_core.specs.World.{first_world, FitRules};
ghost use Rattle.hx_trace_run.specs.AgreementView.{initial_check};
ghost use Rattle.hx_trace_run.specs.EngineView.{check_state};

use crate::agreement::Agreement;
use hx_core::{Engine, StepFault};
use hx_outside::ReMaker;
use hx_record::Event;
use hx_refs::Refs;
use hx_replay::{Answerer, Answers, count_request};
use hx_rules::Program;
use hx_text::NoMemory;
use hx_trace::PlainExplainer;
use std::alloc::Global;

/// An engine that tells why requests have their verdicts by looking at all entries of a list, a
/// trace beside the answers that it gives, and how many requests it has answered.
#[derive(Drop)]
pub(crate) struct CheckingEngine {
    pub(crate) engine: Engine,
    explainer: PlainExplainer,
    pub(crate) agreement: Agreement,
    pub(crate) requests: u64,
}

impl CheckingEngine {
    /// The engine before the first event, beside this trace. The references have the heads and the
    /// lists that the rules name.
    pub(crate) fn new(alloc: Global, rules: Program, refs: Refs, trace: Vec<u8>) -> CheckingEngine
        requires { FitRules refs.content rules }
        ensures state { check_state result
            ≡ initial_check trace.items (first_world rules refs.content) }
        ensures running { result.engine.stopped ≡ None }
    {
        CheckingEngine {
            engine: Engine::new(alloc, rules, refs),
            explainer: PlainExplainer::new(alloc),
            agreement: Agreement::new(trace),
            requests: 0,
        }
    }
}

/// An event is answered by the engine, and its answer set beside the trace. Nothing is written.
impl Answerer for CheckingEngine {
    ghost use Rattle.std.specs.Prelude.{◌≡◌, None};
    ghost use Rattle.hx_core.specs.Steps.{EventAsksFor};
    ghost use Rattle.hx_core.specs.World.{World};
    ghost use Rattle.hx_run.specs.Run.{behavior_of};
    ghost use Rattle.hx_run.specs.declared.command.Detail.{Detail};
    ghost use Rattle.hx_trace_run.specs.AgreementView.{CheckAsksFor, CheckState, check_behavior};
    ghost use Rattle.hx_trace_run.specs.EngineView.{check_state};

    ghost State = { CheckState World };

    ghost state = { check_state };

    ghost behavior = { check_behavior (behavior_of Detail.Reasons) };

    ghost AsksFor = { CheckAsksFor EventAsksFor };

    ghost IsRunning = { λ checking. checking.engine.stopped ≡ None };

    fn answer<M: ReMaker>(
        &mut self,
        event: &Event,
        _answers: &mut Answers,
        maker: &mut M,
    ) -> Result<(), StepFault> {
        let answer = self.engine.step_by(event, &mut self.explainer, maker)?;
        self.agreement.go_on(answer.bytes());
        self.engine.reuse(answer);
        count_request(event, &mut self.requests);
        Ok(())
    }

    fn end(&mut self, _answers: &mut Answers) -> Result<(), NoMemory> {
        Ok(())
    }
}
