ghost use Rattle.std.specs.Prelude.{◌≡◌, [], None, Some, IfErr, IfOk, IfSome, OnOk};
ghost use Rattle.hx_refs.specs.References.{after_tidying};
ghost use Rattle.hx_core.specs.Steps.{answer_of, EventAsksFor, IsRefusal, OpensOrCloses, refusal_of, StepCountsLarge, world_after};
ghost use Rattle.hx_core.specs.Telling.{told_answer};
ghost use Rattle.hx_core.specs.World.{first_world, FitRules, running};

use crate::answer::Answer;
use crate::fault::StepFault;
use crate::heads::Heads;
use crate::judge::{Judge, Silence};
use crate::world::KeptWorld;
use hx_outside::ReMaker;
use hx_record::Event;
use hx_refs::Refs;
use hx_rules::Program;
use std::alloc::Global;
use std::marker::Model;
use std::mem;

/// A configuration under way: its rules and references, the connections that are open, the
/// variables, and the sessions of the management socket. Contracts see its world, the slots of
/// memory in which its references are kept, and the fault with which it stopped, if it did.
pub struct Engine {
    alloc: Global,
    world: KeptWorld,
    stopped: Option<StepFault>,
    // the memory of an answer that was given back
    room: Vec<u8>,
    // the memory of the head of a request
    heads: Heads,
}

// Written out, so that letting one go is one call in the proofs of callers.
impl Drop for Engine {
    fn drop(self) {
        let Engine {
            alloc: _alloc,
            world: _world,
            stopped: _stopped,
            room: _room,
            heads: _heads,
        } = self;
    }
}

impl Model for Engine {
    ghost use Rattle.std.specs.Coded.{codes};
    ghost use Rattle.hx_cli.specs.contracts.Sessions as sessions_contracts;
    ghost use Rattle.hx_sample.specs.contracts.Vars as vars_contracts;
    ghost use Rattle.hx_core.specs.World.{EngineParts};
    ghost use Rattle.hx_core.specs.contracts.connections.Connections as connections_contracts;

    ghost Value = { EngineParts };

    ghost coded = { Prim.hlevel (
      codes,
      connections_contracts.the_row.coded,
      vars_contracts.the_row.coded,
      sessions_contracts.the_row.coded,
    ) };

    ghost view = { λ engine. record {
      world = engine.world.world;
      slots = engine.world.slots;
      stopped = engine.stopped;
    } };
}

impl Engine {
    /// An engine before the first event, with the rules and the references of a configuration. It
    /// takes no memory; what it needs later it takes from `alloc`.
    ///
    /// The references have the heads and the lists that the rules name.
    pub fn new(alloc: Global, program: Program, refs: Refs) -> Engine
        requires { FitRules refs.content program }
        ensures { result ≡ running (first_world program refs.content) refs.slots }
    {
        Engine {
            alloc,
            world: KeptWorld::new(alloc, program, refs),
            stopped: None,
            room: Vec::new(alloc),
            heads: Heads::new(alloc),
        }
    }

    /// The references, as the events so far have changed them.
    pub fn refs(&self) -> &Refs
        ensures content { result.now.content ≡ self.now.world.refs }
        ensures slots { result.now.slots ≡ self.now.slots }
    {
        self.world.refs()
    }

    /// The fault with which it stopped. None exactly where it didn't.
    pub fn stopped(&self) -> Option<StepFault>
        ensures { result ≡ self.now.stopped }
    {
        self.stopped
    }

    /// Goes on to the world after an event, and gives its answer: the lines of a request, those of
    /// the reply to a line of the management socket, and nothing for a connection that opens or
    /// closes. The variables of a request end with it, and those of a session with its connection.
    /// Regular expressions that rules and commands add to lists are made by `maker`. After an event
    /// up to 64 slots of memory that no version needs any more are given back: exactly so many,
    /// where so many wait, after one that opens or closes a connection.
    ///
    /// `UnknownConn` exactly where a request or an end names a connection that isn't open, and
    /// `ConnOpen` exactly where one opens that is open; nothing is changed then. `TooLarge` only
    /// where the maker's count of texts that were too large rose; the last such text is then one
    /// that a rule or a command adds. `NoMemory` where memory runs out. After these two it has
    /// stopped: it answers that fault from then on, and changes no more.
    pub fn step<M: ReMaker>(&mut self, event: &Event, maker: &mut M) -> Result<Answer, StepFault>
        ensures answer { IfOk result (λ answer. answer ≡ answer_of self.old.world event.now) }
        ensures world { OnOk result ((self.new.world ≡ world_after self.old.world event.now)
            × (self.new.stopped ≡ None)) }
        ensures slots { OnOk result (OpensOrCloses event.now
            → self.new.slots ≡ after_tidying 64 self.old.slots) }
        ensures allowed { OnOk result
            ((self.old.stopped ≡ None) × (refusal_of self.old.world event.now ≡ None)) }
        ensures refused { self.old.stopped ≡ None → IfErr result (λ fault. IsRefusal fault
            → (refusal_of self.old.world event.now ≡ Some fault) × (self.new ≡ self.old)) }
        ensures failed { self.old.stopped ≡ None → IfErr result (λ fault. ¬ (IsRefusal fault)
            → (refusal_of self.old.world event.now ≡ None) × (self.new.stopped ≡ Some fault)) }
        ensures large { self.old.stopped ≡ None
            → StepCountsLarge result (EventAsksFor self.old.world event.now)
            (M.state maker.old) (M.state maker.new) }
        ensures stopped { IfSome self.old.stopped (λ fault. (result ≡ Err fault)
            × (self.new ≡ self.old) × (maker.new ≡ maker.old)) }
    {
        self.step_by(event, &mut Silence, maker)
    }

    /// The same where `judge` judges requests: what it tells of one stands after the lines that
    /// answer it, in the answer to the same event.
    pub fn step_by<J: Judge, M: ReMaker>(
        &mut self,
        event: &Event,
        judge: &mut J,
        maker: &mut M,
    ) -> Result<Answer, StepFault>
        ensures answer { IfOk result (λ answer. answer
            ≡ told_answer (J.telling judge.old) self.old.world event.now) }
        ensures telling { J.telling judge.new ≡ J.telling judge.old }
        ensures world { OnOk result ((self.new.world ≡ world_after self.old.world event.now)
            × (self.new.stopped ≡ None)) }
        ensures slots { OnOk result (OpensOrCloses event.now
            → self.new.slots ≡ after_tidying 64 self.old.slots) }
        ensures allowed { OnOk result
            ((self.old.stopped ≡ None) × (refusal_of self.old.world event.now ≡ None)) }
        ensures refused { self.old.stopped ≡ None → IfErr result (λ fault. IsRefusal fault
            → (refusal_of self.old.world event.now ≡ Some fault) × (self.new ≡ self.old)) }
        ensures failed { self.old.stopped ≡ None → IfErr result (λ fault. ¬ (IsRefusal fault)
            → (refusal_of self.old.world event.now ≡ None) × (self.new.stopped ≡ Some fault)) }
        ensures large { self.old.stopped ≡ None
            → StepCountsLarge result (EventAsksFor self.old.world event.now)
            (M.state maker.old) (M.state maker.new) }
        ensures stopped { IfSome self.old.stopped (λ fault. (result ≡ Err fault)
            × (self.new ≡ self.old) × (judge.new ≡ judge.old) × (maker.new ≡ maker.old)) }
    {
        if let Some(fault) = self.stopped {
            return Err(fault);
        }
        let room = emptied(self.alloc, &mut self.room);
        match self.world.step(event, room, &mut self.heads, judge, maker) {
            Ok(answer) => {
                self.world.tidy();
                Ok(answer)
            }
            Err(fault) => {
                self.stopped = fault.stop();
                Err(fault)
            }
        }
    }

    /// Takes back an answer, so that the next one needs no memory of its own.
    pub fn reuse(&mut self, answer: Answer)
        ensures { self.new ≡ self.old }
    {
        let Answer { bytes } = answer;
        self.room = bytes;
    }
}

/// The memory of `room`, without bytes; `room` has none from then on.
fn emptied(alloc: Global, room: &mut Vec<u8>) -> Vec<u8>
    ensures { result.items ≡ [] }
{
    let mut taken = mem::replace(room, Vec::new(alloc));
    taken.clear();
    taken
}
