ghost use Rattle.std.specs.Prelude.{◌≡◌, OnOk, OnErr};
ghost use Rattle.std.specs.FinMap as map;
ghost use Rattle.std.specs.Option.{option_copied};

use hx_fetch::Conn;
use hx_text::NoMemory;
use std::alloc::Global;
use std::collections::BTreeMap;
use std::marker::Model;

/// The open connections, seen as a map from their numbers.
pub struct Connections {
    conns: BTreeMap<u32, Conn>,
}

// Written out, so that letting one go is one call in the proofs of callers.
impl Drop for Connections {
    fn drop(self) {
        let Connections { conns: _conns } = self;
    }
}

impl Model for Connections {
    ghost use Rattle.std.specs.Coded.{coded_ℕ};
    ghost use Rattle.std.specs.FinMap as map;
    ghost use Rattle.std.specs.Ordering.{nat_cmp};
    ghost use Rattle.hx_fetch.specs.contracts.Conn as conn_contracts;
    ghost use Rattle.hx_fetch.specs.declared.Conn.{Conn};

    ghost Value = { map.FinMap nat_cmp Conn };

    ghost coded = { map.code coded_ℕ conn_contracts.the_row.coded };

    ghost view = { λ connections. map.from_entries connections.conns.entries };
}

impl Connections {
    /// No connection is open.
    pub fn new(alloc: Global) -> Connections
        ensures { result ≡ map.empty }
    {
        Connections {
            conns: BTreeMap::new(alloc),
        }
    }

    /// The connection of this number, where it is open.
    pub fn get(&self, id: u32) -> Option<&Conn>
        ensures { option_copied result ≡ map.get self.now id }
    {
        self.conns.get(&id)
    }

    /// Whether the connection of this number is open.
    pub fn is_open(&self, id: u32) -> bool
        ensures { result ≡ map.contains_key self.now id }
    {
        self.get(id).is_some()
    }

    /// The connection is open from now on.
    pub fn open(&mut self, conn: Conn) -> Result<(), NoMemory>
        ensures ok { OnOk result (self.new ≡ map.insert self.old conn.id conn) }
        ensures err { OnErr result (self.new ≡ self.old) }
    {
        self.conns.insert(conn.id, conn)?;
        Ok(())
    }

    /// The connection is open no more.
    pub fn close(&mut self, id: u32)
        ensures { self.new ≡ map.remove self.old id }
    {
        self.conns.remove(&id);
    }
}
