ghost use Rattle.std.specs.Prelude.{◌≡◌, [], ◌++◌, codes, false, IfErr, IfOk, OnOk};
ghost use Rattle.std.specs.Fmt.{decimal};
ghost use Rattle.hx_http.specs.Head.{head_of};
ghost use Rattle.hx_rules.specs.Failures.{RulesAskFor};
ghost use Rattle.hx_rules.specs.Rewriting.{may_rewrite};
ghost use Rattle.hx_rules.specs.Verdicts.{start};
ghost use Rattle.hx_core.specs.Answers.{verdict_text};
ghost use Rattle.hx_core.specs.StepView.{after_parts, DoesStep};
ghost use Rattle.hx_core.specs.Steps.{after_head, after_number, EventAsksFor, HeadAsksFor, head_answer, IsRefusal, next_number, request_evaluation, StepCountsLarge};
ghost use Rattle.hx_core.specs.Telling.{told_of_head};
ghost use Rattle.hx_core.specs.World.{refs_view};

use crate::answer::Answer;
use crate::fault::StepFault;
use crate::heads::Heads;
use crate::judge::Judge;
use crate::verdicts::{append_answer, append_bad, append_verdict};
use crate::world::KeptWorld;
use hx_fetch::Conn;
use hx_http::{HeadFault, Message};
use hx_outside::ReMaker;
use hx_record::Event;
use hx_rules::Verdict;
use hx_text::NoMemory;

impl KeptWorld {
    /// A request of these bytes.
    pub(crate) fn request<J: Judge, M: ReMaker>(
        &mut self,
        id: u32,
        bytes: &[u8],
        room: Vec<u8>,
        heads: &mut Heads,
        judge: &mut J,
        maker: &mut M,
    ) -> Result<Answer, StepFault>
        requires { room.items ≡ [] }
        ensures steps { DoesStep (J.telling judge.old) self.old self.new (Event.Req id bytes.now)
            result }
        ensures telling { J.telling judge.new ≡ J.telling judge.old }
        ensures large { StepCountsLarge result
            (EventAsksFor self.old.world (Event.Req id bytes.now))
            (M.state maker.old) (M.state maker.new) }
    {
        let Some(conn) = self.connections.get(id) else {
            return Err(StepFault::UnknownConn);
        };
        let conn = *conn;
        self.answer(&conn, bytes, room, heads, judge, maker)
    }

    /// Answers a request of an open connection.
    fn answer<J: Judge, M: ReMaker>(
        &mut self,
        conn: &Conn,
        bytes: &[u8],
        room: Vec<u8>,
        heads: &mut Heads,
        judge: &mut J,
        maker: &mut M,
    ) -> Result<Answer, StepFault>
        requires { room.items ≡ [] }
        ensures world { OnOk result
            (self.new.world ≡ after_head self.old.world conn.now (head_of bytes.now)) }
        ensures text { IfOk result (λ text. text
            ≡ head_answer self.old.world conn.now (head_of bytes.now)
            ++ told_of_head (J.telling judge.old) self.old.world conn.now (head_of bytes.now)) }
        ensures telling { J.telling judge.new ≡ J.telling judge.old }
        ensures kind { IfErr result (λ fault. ¬ (IsRefusal fault)) }
        ensures large { StepCountsLarge result
            (HeadAsksFor self.old.world conn.now (head_of bytes.now))
            (M.state maker.old) (M.state maker.new) }
    {
        match heads.read.read(bytes) {
            Ok(_) => {
                let mut answer = self.answer_head(conn, room, heads, judge, maker)?;
                judge.tell(&mut answer.bytes)?;
                Ok(answer)
            }
            Err(HeadFault::NotAHead) => Ok(self.answer_unread(room, judge)?),
            Err(HeadFault::TooManyHeaders) => Ok(self.answer_unread(room, judge)?),
            Err(HeadFault::NoMemory) => Err(StepFault::NoMemory),
        }
    }

    /// Answers a request whose bytes begin with no head, and tells of it.
    fn answer_unread<J: Judge>(&mut self, room: Vec<u8>, judge: &J) -> Result<Answer, NoMemory>
        requires { room.items ≡ [] }
        ensures world { OnOk result (self.new.world ≡ after_number self.old.world) }
        ensures text { IfOk result (λ text. text
            ≡ (decimal (next_number self.old.world.requests) ++ codes " bad 400\n")
            ++ (J.telling judge.now).unread) }
    {
        let mut answer = self.answer_bad(room)?;
        judge.tell_unread(&mut answer.bytes)?;
        Ok(answer)
    }

    /// Answers a request whose bytes begin with no head; the rules aren't asked.
    fn answer_bad(&mut self, mut room: Vec<u8>) -> Result<Answer, NoMemory>
        requires { room.items ≡ [] }
        ensures world { OnOk result (self.new.world ≡ after_number self.old.world) }
        ensures text { IfOk result (λ text. text
            ≡ decimal (next_number self.old.world.requests) ++ codes " bad 400\n") }
    {
        self.requests = self.requests.saturating_add(1);
        append_bad(&mut room, self.requests)?;
        Ok(Answer { bytes: room })
    }

    /// Answers a request with the head that was read. It is copied only where a rule may rewrite
    /// it.
    fn answer_head<J: Judge, M: ReMaker>(
        &mut self,
        conn: &Conn,
        mut room: Vec<u8>,
        heads: &mut Heads,
        judge: &mut J,
        maker: &mut M,
    ) -> Result<Answer, StepFault>
        requires { room.items ≡ [] }
        ensures world { OnOk result
            (self.new.world ≡ after_parts self.old.world conn.now heads.old.read) }
        ensures text { IfOk result (λ text. text
            ≡ decimal (next_number self.old.world.requests)
            ++ verdict_text
            (request_evaluation self.old.world conn.now heads.old.read).verdict heads.old.read
            (request_evaluation self.old.world conn.now heads.old.read).state.message) }
        ensures last { OnOk result (J.last judge.new
            ≡ (J.telling judge.old).judged self.old.world.rules conn.now
            (start heads.old.read self.old.world.vars self.old.world.refs)) }
        ensures telling { J.telling judge.new ≡ J.telling judge.old }
        ensures kind { IfErr result (λ fault. ¬ (IsRefusal fault)) }
        ensures large { StepCountsLarge result (RulesAskFor refs_view conn.now self.old.world.rules
            (start heads.old.read self.old.world.vars self.old.world.refs))
            (M.state maker.old) (M.state maker.new) }
    {
        if self.rules.may_rewrite() {
            return self.answer_rewritten(conn, room, heads, judge, maker);
        }
        let verdict = self.judge(conn, &mut heads.read, judge, maker)?;
        append_verdict(&mut room, self.requests, &verdict)?;
        Ok(Answer { bytes: room })
    }

    /// Answers a request with the head that was read, of which the rules are given a copy.
    fn answer_rewritten<J: Judge, M: ReMaker>(
        &mut self,
        conn: &Conn,
        mut room: Vec<u8>,
        heads: &mut Heads,
        judge: &mut J,
        maker: &mut M,
    ) -> Result<Answer, StepFault>
        requires { room.items ≡ [] }
        ensures world { OnOk result
            (self.new.world ≡ after_parts self.old.world conn.now heads.old.read) }
        ensures text { IfOk result (λ text. text
            ≡ decimal (next_number self.old.world.requests)
            ++ verdict_text
            (request_evaluation self.old.world conn.now heads.old.read).verdict heads.old.read
            (request_evaluation self.old.world conn.now heads.old.read).state.message) }
        ensures last { OnOk result (J.last judge.new
            ≡ (J.telling judge.old).judged self.old.world.rules conn.now
            (start heads.old.read self.old.world.vars self.old.world.refs)) }
        ensures telling { J.telling judge.new ≡ J.telling judge.old }
        ensures kind { IfErr result (λ fault. ¬ (IsRefusal fault)) }
        ensures large { StepCountsLarge result (RulesAskFor refs_view conn.now self.old.world.rules
            (start heads.old.read self.old.world.vars self.old.world.refs))
            (M.state maker.old) (M.state maker.new) }
    {
        heads.made.copy_from(&heads.read)?;
        let verdict = self.judge(conn, &mut heads.made, judge, maker)?;
        append_answer(&mut room, self.requests, &verdict, &heads.read, &heads.made)?;
        Ok(Answer { bytes: room })
    }

    /// The verdict of the rules on a request, whose head they change in `message`. The request is
    /// counted, and its variables end.
    fn judge<J: Judge, M: ReMaker>(
        &mut self,
        conn: &Conn,
        message: &mut Message,
        judge: &mut J,
        maker: &mut M,
    ) -> Result<Verdict, StepFault>
        ensures world { OnOk result
            (self.new.world ≡ after_parts self.old.world conn.now message.old) }
        ensures verdict { IfOk result (λ verdict. verdict
            ≡ (request_evaluation self.old.world conn.now message.old).verdict) }
        ensures message { OnOk result (message.new
            ≡ (request_evaluation self.old.world conn.now message.old).state.message) }
        ensures last { OnOk result (J.last judge.new
            ≡ (J.telling judge.old).judged self.old.world.rules conn.now
            (start message.old self.old.world.vars self.old.world.refs)) }
        ensures telling { J.telling judge.new ≡ J.telling judge.old }
        ensures unchanged { may_rewrite self.old.world.rules ≡ false → message.new ≡ message.old }
        ensures kind { IfErr result (λ fault. ¬ (IsRefusal fault)) }
        ensures large { StepCountsLarge result (RulesAskFor refs_view conn.now self.old.world.rules
            (start message.old self.old.world.vars self.old.world.refs))
            (M.state maker.old) (M.state maker.new) }
    {
        let rules = &self.rules;
        let vars = &mut self.vars;
        let refs = &mut self.refs;
        let verdict = judge.judge(self.alloc, rules, message, conn, vars, refs, maker)?;
        self.vars.end_request();
        self.requests = self.requests.saturating_add(1);
        Ok(verdict)
    }
}
