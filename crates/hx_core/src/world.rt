ghost use Rattle.std.specs.Prelude.{◌≡◌, [], IsErrOf, OnOk};
ghost use Rattle.hx_core.specs.StepView.{DoesStep};
ghost use Rattle.hx_core.specs.Steps.{EventAsksFor, OpensOrCloses, StepCountsLarge};
ghost use Rattle.hx_refs.specs.References.{after_tidying};
ghost use Rattle.hx_core.specs.Telling.{Telling};
ghost use Rattle.hx_core.specs.World.{first_world, FitRules};

use crate::answer::Answer;
use crate::connections::Connections;
use crate::fault::StepFault;
use crate::heads::Heads;
use crate::judge::Judge;
use crate::replies::append_reply;
use hx_cli::Sessions;
use hx_fetch::Conn;
use hx_outside::ReMaker;
use hx_record::Event;
use hx_refs::Refs;
use hx_rules::Program;
use hx_sample::Vars;
use std::alloc::Global;
use std::marker::Model;

/// How many slots of memory of versions that were dropped are given back after an event.
const TIDY: usize = 64;

/// What is known between two events. Contracts see it as a world, whose references fit its rules,
/// and the slots of memory in which these are kept.
pub(crate) struct KeptWorld {
    pub(crate) alloc: Global,
    pub(crate) rules: Program,
    pub(crate) connections: Connections,
    pub(crate) requests: u64,
    pub(crate) vars: Vars,
    pub(crate) refs: Refs,
    pub(crate) sessions: Sessions,
}

// Written out, so that letting one go is one call in the proofs of callers.
impl Drop for KeptWorld {
    fn drop(self) {
        let KeptWorld {
            alloc: _alloc,
            rules: _rules,
            connections: _connections,
            requests: _requests,
            vars: _vars,
            refs: _refs,
            sessions: _sessions,
        } = self;
    }
}

impl Model for KeptWorld {
    ghost use Rattle.std.specs.Coded.{codes};
    ghost use Rattle.hx_cli.specs.contracts.Sessions as sessions_contracts;
    ghost use Rattle.hx_sample.specs.contracts.Vars as vars_contracts;
    ghost use Rattle.hx_core.specs.StepView.{WorldState};
    ghost use Rattle.hx_core.specs.World.{FitRules};
    ghost use Rattle.hx_core.specs.contracts.connections.Connections as connections_contracts;

    ghost Value = { WorldState };

    ghost coded = { Prim.hlevel (
      codes,
      connections_contracts.the_row.coded,
      vars_contracts.the_row.coded,
      sessions_contracts.the_row.coded,
    ) };

    ghost view = { λ kept. record {
      world = record {
        rules = kept.rules;
        connections = kept.connections;
        requests = kept.requests;
        vars = kept.vars;
        refs = kept.refs.content;
        payloads = kept.sessions;
      };
      slots = kept.refs.slots;
    } };

    ghost invariant = { λ kept. FitRules kept.refs.content kept.rules };
}

impl KeptWorld {
    /// Before the first event.
    pub(crate) fn new(alloc: Global, rules: Program, refs: Refs) -> KeptWorld
        requires { FitRules refs.content rules }
        ensures { result
            ≡ record { world = first_world rules refs.content; slots = refs.slots } }
    {
        KeptWorld {
            alloc,
            rules,
            connections: Connections::new(alloc),
            requests: 0,
            vars: Vars::new(alloc),
            refs,
            sessions: Sessions::new(alloc),
        }
    }

    /// The references.
    pub(crate) fn refs(&self) -> &Refs
        ensures { result.now
            ≡ record { content = self.now.world.refs; slots = self.now.slots } }
    {
        &self.refs
    }

    /// Gives memory back that no version of a reference needs any more.
    pub(crate) fn tidy(&mut self)
        ensures world { self.new.world ≡ self.old.world }
        ensures slots { self.new.slots ≡ after_tidying 64 self.old.slots }
    {
        self.refs.tidy(TIDY);
    }

    /// Goes on to the world after an event, and gives its answer in the memory of `room`. The head
    /// of a request is kept in `heads`, and it is `judge` that judges it, and tells of it.
    pub(crate) fn step<J: Judge, M: ReMaker>(
        &mut self,
        event: &Event,
        room: Vec<u8>,
        heads: &mut Heads,
        judge: &mut J,
        maker: &mut M,
    ) -> Result<Answer, StepFault>
        requires { room.items ≡ [] }
        ensures steps { DoesStep (J.telling judge.old) self.old self.new event.now result }
        ensures telling { J.telling judge.new ≡ J.telling judge.old }
        ensures slots { OnOk result
            (OpensOrCloses event.now → self.new.slots ≡ self.old.slots) }
        ensures large { StepCountsLarge result (EventAsksFor self.old.world event.now)
            (M.state maker.old) (M.state maker.new) }
    {
        match event {
            Event::Conn {
                id,
                src,
                src_port,
                dst,
                dst_port,
            } => {
                let conn = Conn {
                    id: *id,
                    src: *src,
                    src_port: *src_port,
                    dst: *dst,
                    dst_port: *dst_port,
                };
                self.open(conn, room)
            }
            Event::Req { id, bytes } => {
                self.request(*id, bytes.as_slice(), room, heads, judge, maker)
            }
            Event::Close { id } => self.close(*id, room),
            Event::Cli { session, text } => self.line(*session, text.as_slice(), room, maker),
        }
    }

    /// A connection opens.
    fn open(&mut self, conn: Conn, room: Vec<u8>) -> Result<Answer, StepFault>
        requires { room.items ≡ [] }
        ensures steps { (telling : Telling) → DoesStep telling self.old self.new
            (Event.Conn conn.id conn.src conn.src_port conn.dst conn.dst_port) result }
        ensures slots { OnOk result (self.new.slots ≡ self.old.slots) }
        ensures kind { ¬ (IsErrOf result StepFault.TooLarge) }
    {
        if self.connections.is_open(conn.id) {
            return Err(StepFault::ConnOpen);
        }
        self.connections.open(conn)?;
        Ok(Answer { bytes: room })
    }

    /// A connection closes.
    fn close(&mut self, id: u32, room: Vec<u8>) -> Result<Answer, StepFault>
        requires { room.items ≡ [] }
        ensures steps { (telling : Telling) → DoesStep telling self.old self.new (Event.Close id)
            result }
        ensures slots { OnOk result (self.new.slots ≡ self.old.slots) }
        ensures kind { ¬ (IsErrOf result StepFault.TooLarge) }
    {
        if !self.connections.is_open(id) {
            return Err(StepFault::UnknownConn);
        }
        self.connections.close(id);
        self.vars.end_session(id);
        Ok(Answer { bytes: room })
    }

    /// A line of the management socket.
    fn line<M: ReMaker>(
        &mut self,
        session: u32,
        text: &[u8],
        mut room: Vec<u8>,
        maker: &mut M,
    ) -> Result<Answer, StepFault>
        requires { room.items ≡ [] }
        ensures steps { (telling : Telling) → DoesStep telling self.old self.new
            (Event.Cli session text.now) result }
        ensures large { StepCountsLarge result
            (EventAsksFor self.old.world (Event.Cli session text.now))
            (M.state maker.old) (M.state maker.new) }
    {
        let refs = &mut self.refs;
        let reply = self.sessions.line(session, text, refs, maker)?;
        append_reply(&mut room, session, &reply)?;
        Ok(Answer { bytes: room })
    }
}
