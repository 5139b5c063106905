ghost use Rattle.std.specs.Prelude.{◌≡◌, IfOk, OnOk, OnErr};
ghost use Rattle.std.specs.List.{list_all};
ghost use Rattle.hx_base.specs.Bytes.{is_blank};
ghost use Rattle.hx_sample.specs.Changes.{ChangeCountsLarge};
ghost use Rattle.hx_cli.specs.Effects.{addition_effect};
ghost use Rattle.hx_cli.specs.Payloads.{new_payload, with_line, PayloadAsksFor};

use crate::changing::add;
use crate::reply::Reply;
use hx_outside::ReMaker;
use hx_refs::{Pairs, Refs};
use hx_sample::TableFault;
use hx_text::{NoMemory, Octets};
use std::alloc::Global;
use std::marker::Model;

fn is_blank(byte: u8) -> bool
    ensures { result ≡ is_blank byte }
{
    byte == b' ' || byte == b'\t'
}

/// Whether a line is empty or has blanks alone, which ends a payload.
pub(crate) fn ends_payload(text: &[u8]) -> bool
    ensures { result ≡ list_all is_blank text.now }
{
    text.iter().all(|byte| is_blank(*byte))
}

/// A payload that has begun: for which reference and which version, and the entries of its lines.
pub(crate) struct Payload {
    is_map: bool,
    ver: Option<u32>,
    name: Octets,
    pairs: Pairs,
}

// Written out, so that letting one go is one call in the proofs of callers.
impl Drop for Payload {
    fn drop(self) {
        let Payload {
            is_map: _is_map,
            ver: _ver,
            name: _name,
            pairs: _pairs,
        } = self;
    }
}

impl Model for Payload {
    ghost use Rattle.hx_cli.specs.Payloads.{PayloadParts};

    ghost Value = { PayloadParts };

    ghost view = { λ payload. record {
      is_map = payload.is_map;
      ver = payload.ver;
      name = payload.name;
      pairs = payload.pairs;
    } };
}

impl Payload {
    /// A payload without entries. It takes no memory.
    pub(crate) fn new(alloc: Global, is_map: bool, ver: Option<u32>, name: Octets) -> Payload
        ensures { result ≡ new_payload is_map ver name }
    {
        Payload {
            is_map,
            ver,
            name,
            pairs: Pairs::new(alloc),
        }
    }

    /// Takes a line, or nothing where memory runs out.
    pub(crate) fn push_line(&mut self, text: &[u8]) -> Result<(), NoMemory>
        ensures ok { OnOk result (self.new ≡ with_line text.now self.old) }
        ensures err { OnErr result (self.new ≡ self.old) }
    {
        self.pairs.push_line(text, self.is_map)
    }

    /// Adds all entries to their reference, or none.
    pub(crate) fn add<M: ReMaker>(
        &self,
        alloc: Global,
        refs: &mut Refs,
        maker: &mut M,
    ) -> Result<Reply, TableFault>
        ensures reply { IfOk result (λ reply. reply
            ≡ (addition_effect self.now.is_map self.now.ver self.now.name self.now.pairs
            refs.old.content).reply) }
        ensures refs { OnOk result (refs.new.content
            ≡ (addition_effect self.now.is_map self.now.ver self.now.name self.now.pairs
            refs.old.content).refs) }
        ensures kept { OnErr result (refs.new ≡ refs.old) }
        ensures large { ChangeCountsLarge result (PayloadAsksFor self.now refs.old.content)
            (M.state maker.old) (M.state maker.new) }
    {
        let name = self.name.as_slice();
        add(alloc, refs, self.is_map, self.ver, name, &self.pairs, maker)
    }
}
