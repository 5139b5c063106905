ghost use Rattle.std.specs.Prelude.{◌≡◌, ◌++◌, OnOk, OnErr};
ghost use Rattle.hx_core.specs.Steps.{StepCountsLarge};
ghost use Rattle.hx_replay.specs.Gathering.{GathersAnswer};

use crate::answers::Answers;
use hx_core::StepFault;
use hx_outside::ReMaker;
use hx_record::Event;
use hx_text::NoMemory;

/// What answers the events of a record, one after the other: an engine, or several beside one
/// another. Contracts see it by its state, which is what it knows between two events, and by its
/// behavior over states.
pub trait Answerer {
    ghost use Rattle.hx_outside.specs.Makers.{ExpressionText};
    ghost use Rattle.hx_record.specs.declared.Event.{Event};
    ghost use Rattle.hx_replay.specs.Behavior.{Behavior};

    /// what is known between two events
    ghost State: { Type 0 };

    ghost state: { Self → State };

    /// what an event means in a state, and the record's end
    ghost behavior: { Behavior State };

    /// for which expressions an event asks in a state
    ghost AsksFor: { State → Event → ExpressionText → Type 0 };

    /// events may be answered: none has stopped it
    ghost IsRunning: { Self → Type 0 };

    /// Answers an event: gathers what is written of it at once. Regular expressions are made by
    /// `maker`.
    ///
    /// `UnknownConn` and `ConnOpen` exactly where the event may not stand where it stands, and
    /// `TooLarge` only where the maker's count of texts that were too large rose, for a text for
    /// which the event asks. With these, and where memory runs out, the answers are as before.
    ///
    /// The answerer is running. With `Ok` it still is.
    fn answer<M: ReMaker>(
        &mut self,
        event: &Event,
        answers: &mut Answers,
        maker: &mut M,
    ) -> Result<(), StepFault>
        requires { IsRunning self.old }
        ensures gathers { GathersAnswer behavior (state self.old) (state self.new) event.now
            answers.old answers.new result }
        ensures running { OnOk result (IsRunning self.new) }
        ensures large { StepCountsLarge result (AsksFor (state self.old) event.now)
            (M.state maker.old) (M.state maker.new) };

    /// Gathers what is written at the record's end, or nothing where memory runs out.
    fn end(&mut self, answers: &mut Answers) -> Result<(), NoMemory>
        ensures ok { OnOk result (answers.new ≡ answers.old ++ behavior.ending (state self.old)) }
        ensures kept { OnOk result (state self.new ≡ state self.old) }
        ensures err { OnErr result (answers.new ≡ answers.old) };
}
