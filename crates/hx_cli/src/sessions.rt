ghost use Rattle.std.specs.Prelude.{◌≡◌, IfOk, OnOk, OnErr, Some, length};
ghost use Rattle.hx_sample.specs.Changes.{ChangeCountsLarge};
ghost use Rattle.hx_cli.specs.CommandLine.{words_of};
ghost use Rattle.hx_cli.specs.Commands.{command_of};
ghost use Rattle.hx_cli.specs.Effects.{CommandAsksFor};
ghost use Rattle.hx_cli.specs.Payloads.{command_line, line_effect, no_payloads, outside_line, LineAsksFor, WordsAskFor};

use crate::command::Command;
use crate::effects::run;
use crate::fault::CommandFault;
use crate::payload::{Payload, ends_payload};
use crate::payloads::Payloads;
use crate::reading::read_command;
use crate::reply::Reply;
use hx_outside::ReMaker;
use hx_refs::Refs;
use hx_sample::TableFault;
use std::alloc::Global;
use std::marker::Model;

/// The code of a line whose words are no command.
const BAD_COMMAND: u32 = 20;

/// The sessions of the management socket. Contracts see the payloads that have begun, as a finite
/// map from the numbers of their sessions.
pub struct Sessions {
    alloc: Global,
    payloads: Payloads,
}

// Written out, so that letting one go is one call in the proofs of callers.
impl Drop for Sessions {
    fn drop(self) {
        let Sessions {
            alloc: _alloc,
            payloads: _payloads,
        } = self;
    }
}

impl Model for Sessions {
    ghost use Rattle.hx_cli.specs.Payloads.{OpenPayloads};
    ghost use Rattle.hx_cli.specs.contracts.payloads.Payloads as payloads_contracts;

    ghost Value = { OpenPayloads };

    ghost coded = { payloads_contracts.the_row.coded };

    ghost view = { λ sessions. sessions.payloads };
}

impl Sessions {
    /// No payload has begun. It takes no memory.
    pub fn new(alloc: Global) -> Sessions
        ensures { result ≡ no_payloads }
    {
        Sessions {
            alloc,
            payloads: Payloads::new(alloc),
        }
    }

    /// Does what a line of the session says, and answers its reply: that of a command, or at the
    /// end of a payload that of its addition. None exactly where nothing is told: of a line without
    /// words, of the beginning of a payload, and of its lines.
    ///
    /// From `add acl NAME <<` on the lines of the session are lines of a file of patterns or of a
    /// map, up to one that is empty or blank; then all entries are added, or none, judged against
    /// the references as they are at that moment. Regular expressions that are added are made by
    /// `maker`. The code of a refusal is 20 where the words are no command, and else that of the
    /// first that stands: 1 no such reference, 6 it is no map, 7 it is a map, 2 no such version, 3
    /// no such entry, 4 the key is no pattern, 5 the value can't be read, 8 the version is full, 9
    /// it is worn, 10 there are no more versions.
    ///
    /// `TooLarge` only where the maker's count of texts that were too large rose; the last such
    /// text is then a key that is added. `NoMemory` where memory runs out. Sessions and references
    /// are then as before.
    ///
    /// Heads and the number of references always stay. HAProxy management guide 2.4, section 9.3.
    pub fn line<M: ReMaker>(
        &mut self,
        session: u32,
        text: &[u8],
        refs: &mut Refs,
        maker: &mut M,
    ) -> Result<Option<Reply>, TableFault>
        ensures reply { IfOk result (λ reply. reply
            ≡ (line_effect session text.now self.old refs.old.content).reply) }
        ensures payloads { OnOk result (self.new
            ≡ (line_effect session text.now self.old refs.old.content).payloads) }
        ensures refs { OnOk result (refs.new.content
            ≡ (line_effect session text.now self.old refs.old.content).refs) }
        ensures kept { OnErr result (self.new ≡ self.old) }
        ensures refs_kept { OnErr result (refs.new ≡ refs.old) }
        ensures heads { refs.new.content.heads ≡ refs.old.content.heads }
        ensures lists { length refs.new.content.references ≡ length refs.old.content.references }
        ensures large { ChangeCountsLarge result
            (LineAsksFor session text.now self.old refs.old.content)
            (M.state maker.old) (M.state maker.new) }
    {
        let Some(payload) = self.payloads.get(session) else {
            return self.outside_line(session, text, refs, maker);
        };
        if !ends_payload(text) {
            self.payloads.push_line(session, text)?;
            return Ok(None);
        }
        let reply = payload.add(self.alloc, refs, maker)?;
        self.payloads.remove(session);
        Ok(Some(reply))
    }

    /// A line of a session whose payload hasn't begun.
    fn outside_line<M: ReMaker>(
        &mut self,
        session: u32,
        text: &[u8],
        refs: &mut Refs,
        maker: &mut M,
    ) -> Result<Option<Reply>, TableFault>
        ensures reply { IfOk result (λ reply. reply
            ≡ (outside_line session (words_of text.now) self.old refs.old.content).reply) }
        ensures payloads { OnOk result (self.new
            ≡ (outside_line session (words_of text.now) self.old refs.old.content).payloads) }
        ensures refs { OnOk result (refs.new.content
            ≡ (outside_line session (words_of text.now) self.old refs.old.content).refs) }
        ensures kept { OnErr result (self.new ≡ self.old) }
        ensures refs_kept { OnErr result (refs.new ≡ refs.old) }
        ensures large { ChangeCountsLarge result
            (WordsAskFor (command_of (words_of text.now)) refs.old.content)
            (M.state maker.old) (M.state maker.new) }
    {
        match read_command(self.alloc, text) {
            Ok(None) => Ok(None),
            Ok(Some(command)) => self.command(session, command, refs, maker),
            Err(CommandFault::BadCommand) => Ok(Some(Reply::new(self.alloc, BAD_COMMAND))),
            Err(CommandFault::NoMemory) => Err(TableFault::NoMemory),
        }
    }

    /// A command, or the beginning of a payload.
    fn command<M: ReMaker>(
        &mut self,
        session: u32,
        command: Command,
        refs: &mut Refs,
        maker: &mut M,
    ) -> Result<Option<Reply>, TableFault>
        ensures reply { IfOk result (λ reply. reply
            ≡ (command_line session (Some command) self.old refs.old.content).reply) }
        ensures payloads { OnOk result (self.new
            ≡ (command_line session (Some command) self.old refs.old.content).payloads) }
        ensures refs { OnOk result (refs.new.content
            ≡ (command_line session (Some command) self.old refs.old.content).refs) }
        ensures kept { OnErr result (self.new ≡ self.old) }
        ensures refs_kept { OnErr result (refs.new ≡ refs.old) }
        ensures large { ChangeCountsLarge result (CommandAsksFor command refs.old.content)
            (M.state maker.old) (M.state maker.new) }
    {
        match command {
            Command::AddMany { map, ver, name } => {
                self.payloads
                    .insert(session, Payload::new(self.alloc, map, ver, name))?;
                Ok(None)
            }
            command => Ok(Some(run(self.alloc, &command, refs, maker)?)),
        }
    }
}
