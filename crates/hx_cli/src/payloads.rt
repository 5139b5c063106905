ghost use Rattle.std.specs.Prelude.{◌≡◌, OnOk, OnErr, Some};
ghost use Rattle.std.specs.FinMap as finite;
ghost use Rattle.std.specs.Option.{option_copied};
ghost use Rattle.hx_cli.specs.Payloads.{no_payloads, with_line, PayloadParts};

use crate::payload::Payload;
use hx_text::NoMemory;
use std::alloc::Global;
use std::collections::BTreeMap;
use std::marker::Model;

/// The payloads that have begun, seen as a finite map from the numbers of their sessions.
pub(crate) struct Payloads {
    payloads: BTreeMap<u32, Payload>,
}

// Written out, so that letting one go is one call in the proofs of callers.
impl Drop for Payloads {
    fn drop(self) {
        let Payloads {
            payloads: _payloads,
        } = self;
    }
}

impl Model for Payloads {
    ghost use Rattle.std.specs.Coded.{coded_ℕ};
    ghost use Rattle.std.specs.FinMap as finite;
    ghost use Rattle.hx_cli.specs.Payloads.{OpenPayloads};
    ghost use Rattle.hx_cli.specs.contracts.payload.Payload as payload_contracts;

    ghost Value = { OpenPayloads };

    ghost coded = { finite.code coded_ℕ payload_contracts.the_row.coded };

    ghost view = { λ payloads. finite.from_entries payloads.payloads.entries };
}

impl Payloads {
    /// None has begun. It takes no memory.
    pub(crate) fn new(alloc: Global) -> Payloads
        ensures { result ≡ no_payloads }
    {
        Payloads {
            payloads: BTreeMap::new(alloc),
        }
    }

    /// The payload of a session, if one has begun.
    pub(crate) fn get(&self, session: u32) -> Option<&Payload>
        ensures { option_copied result ≡ finite.get self.now session }
    {
        self.payloads.get(&session)
    }

    /// The payload of a session begins.
    pub(crate) fn insert(&mut self, session: u32, payload: Payload) -> Result<(), NoMemory>
        ensures ok { OnOk result (self.new ≡ finite.insert self.old session payload) }
        ensures err { OnErr result (self.new ≡ self.old) }
    {
        self.payloads.insert(session, payload)?;
        Ok(())
    }

    /// The payload of a session takes a line, if one has begun.
    pub(crate) fn push_line(&mut self, session: u32, text: &[u8]) -> Result<(), NoMemory>
        ensures ok { OnOk result ((payload : PayloadParts)
            → finite.get self.old session ≡ Some payload
            → self.new ≡ finite.insert self.old session (with_line text.now payload)) }
        ensures err { OnErr result (self.new ≡ self.old) }
    {
        match self.payloads.get_mut(&session) {
            Some(payload) => payload.push_line(text),
            None => Ok(()),
        }
    }

    /// The payload of a session ends.
    pub(crate) fn remove(&mut self, session: u32)
        ensures { self.new ≡ finite.remove self.old session }
    {
        self.payloads.remove(&session);
    }
}
