ghost use Rattle.std.specs.Prelude.{◌≡◌, None, Some, IfErr, IfOk, OnOk};
ghost use Rattle.hx_core.specs.Steps.{EventAsksFor, IsRefusal, refusal_of, StepCountsLarge, world_after};
ghost use Rattle.hx_core.specs.World.{FitRules};
ghost use Rattle.hx_diff.specs.AnswerParts.{shown_answer};
ghost use Rattle.hx_diff.specs.Comparison.{initial_comparison};
ghost use Rattle.hx_diff.specs.EnginesView.{AreRunning, comparison_of};
ghost use Rattle.hx_diff.specs.RunFault.{programs_of};

use crate::command::Task;
use crate::detailed_answer::detailed_answer;
use crate::report::Report;
use hx_core::{Answer, Engine, StepFault};
use hx_outside::ReMaker;
use hx_record::Event;
use hx_replay::{Answerer, Answers, LoadedConfig};
use hx_text::NoMemory;
use hx_trace::Explainer;
use std::alloc::Global;

/// The engines of both configurations, and what is told of their answers.
#[derive(Drop)]
pub struct Engines {
    alloc: Global,
    pub old_engine: Engine,
    pub new_engine: Engine,
    // what tells why a request has its verdict, where that is asked for
    explainer: Explainer,
    pub report: Report,
}

impl Engines {
    /// The engines before the first event, for this task. The references of each configuration have
    /// the heads and the lists that its rules name.
    pub fn new(alloc: Global, task: Task, old: LoadedConfig, new: LoadedConfig) -> Engines
        requires old { FitRules old.1.content old.0 }
        requires new { FitRules new.1.content new.0 }
        ensures comparison { comparison_of result ≡ initial_comparison (programs_of task old new) }
        ensures running { AreRunning result }
    {
        let (old_rules, old_refs) = old;
        let (new_rules, new_refs) = new;
        Engines {
            alloc,
            old_engine: Engine::new(alloc, old_rules, old_refs),
            new_engine: Engine::new(alloc, new_rules, new_refs),
            explainer: Explainer::new(alloc),
            report: Report::new(alloc, task),
        }
    }
}

/// Goes on to the world after an event, as `Engine::step` does, and gives what is shown of its
/// answer under the task. No reason is sought where none is shown.
fn step_for<M: ReMaker>(
    task: Task,
    engine: &mut Engine,
    explainer: &mut Explainer,
    event: &Event,
    maker: &mut M,
) -> Result<Answer, StepFault>
    ensures answer { IfOk result (λ answer. answer
        ≡ shown_answer task engine.old.world event.now) }
    ensures world { OnOk result ((engine.new.world ≡ world_after engine.old.world event.now)
        × (engine.new.stopped ≡ None)) }
    ensures allowed { OnOk result
        ((engine.old.stopped ≡ None) × (refusal_of engine.old.world event.now ≡ None)) }
    ensures refused { engine.old.stopped ≡ None → IfErr result (λ fault. IsRefusal fault
        → (refusal_of engine.old.world event.now ≡ Some fault) × (engine.new ≡ engine.old)) }
    ensures failed { engine.old.stopped ≡ None → IfErr result (λ fault. ¬ (IsRefusal fault)
        → (refusal_of engine.old.world event.now ≡ None) × (engine.new.stopped ≡ Some fault)) }
    ensures large { engine.old.stopped ≡ None
        → StepCountsLarge result (EventAsksFor engine.old.world event.now)
        (M.state maker.old) (M.state maker.new) }
{
    match task {
        Task::Lines => engine.step(event, maker),
        Task::Reasons => engine.step_by(event, explainer, maker),
        Task::Counts => engine.step(event, maker),
    }
}

/// An event is answered by both engines, the old one first. What is written of it at once is what
/// the report tells of the two answers.
impl Answerer for Engines {
    ghost use Rattle.hx_diff.specs.Comparison.{Comparison, ComparisonAsksFor, comparison_behavior};
    ghost use Rattle.hx_diff.specs.EnginesView.{AreRunning, comparison_of};

    ghost State = { Comparison };

    ghost state = { comparison_of };

    ghost behavior = { comparison_behavior };

    ghost AsksFor = { ComparisonAsksFor };

    ghost IsRunning = { AreRunning };

    fn answer<M: ReMaker>(
        &mut self,
        event: &Event,
        answers: &mut Answers,
        maker: &mut M,
    ) -> Result<(), StepFault> {
        let task = self.report.task();
        let explainer = &mut self.explainer;
        let old = step_for(task, &mut self.old_engine, explainer, event, maker)?;
        let new = step_for(task, &mut self.new_engine, explainer, event, maker)?;
        let old_answer = detailed_answer(task, event, old.bytes());
        let new_answer = detailed_answer(task, event, new.bytes());
        let told = self
            .report
            .tell(self.alloc, event, old_answer, new_answer, answers);
        self.old_engine.reuse(old);
        self.new_engine.reuse(new);
        told?;
        Ok(())
    }

    fn end(&mut self, answers: &mut Answers) -> Result<(), NoMemory> {
        self.report.end(answers)
    }
}
