ghost use Rattle.std.specs.Prelude.{◌≡◌, [], OnOk, OnErr};
ghost use Rattle.std.specs.Option.{option_copied};
ghost use Rattle.hx_sample.specs.Vars.{no_vars, var_of, with_var, without_var, after_request, after_session};

use crate::rooms::Rooms;
use crate::sample::Value;
use crate::sessions::{clear_session, set_in_session, unset_in_session, value_in_session};
use crate::slots::{clear, set_in, unset_in, value_in};
use crate::stored_variable::{Owner, StoredVariable};
use hx_pool::{Chain, Pool};
use hx_text::{NoMemory, Scope, VarName};
use std::alloc::Global;
use std::collections::BTreeMap;
use std::marker::{Brand, Model};
use std::sync::ledger::Blank;

/// The variables of the process, of the transaction, the request and the response that are under
/// way, and of each connection's session (HAProxy configuration manual 2.4, section 7.3.2, `var`).
/// Contracts see them as one finite map, keyed by the connection of a session's variable, if any,
/// and the name.
///
/// They stand in slots of memory that are used again, and a chain leads through those of each scope
/// and of each session. The memory of some texts is kept too, for those of the next variables, and
/// for callers. To get, set or unset one costs by the number of variables in its chain,
/// which a configuration bounds, and for a session's also by the logarithm of the number of
/// connections with a variable.
pub struct Vars {
    slots: Pool<StoredVariable>,
    process: Chain,
    sessions: BTreeMap<u32, Chain>,
    transaction: Chain,
    request: Chain,
    response: Chain,
    rooms: Rooms,
}

// Written out, so that letting one go is one call in the proofs of callers.
impl Drop for Vars {
    fn drop(self) {
        let Vars {
            slots: _slots,
            process: _process,
            sessions: _sessions,
            transaction: _transaction,
            request: _request,
            response: _response,
            rooms: _rooms,
        } = self;
    }
}

impl Model for Vars {
    ghost use Rattle.hx_sample.specs.Slots.{vars_in, AreKept};
    ghost use Rattle.hx_sample.specs.Vars.{Scopes, scopes_code};

    ghost Value = { Scopes };

    ghost coded = { scopes_code };

    ghost use Rattle.hx_sample.specs.Chains.{chain_of};

    ghost view = { λ vars. vars_in vars.slots };

    ghost invariant = { λ vars. AreKept vars.slots (chain_of vars) };
}

impl Vars {
    /// No variables. It takes no memory; those that are set later take it from `alloc`.
    pub fn new(alloc: Global) -> Vars
        ensures { result ≡ no_vars }
    {
        Vars {
            slots: Pool::new(alloc),
            process: Chain::new(),
            sessions: BTreeMap::new(alloc),
            transaction: Chain::new(),
            request: Chain::new(),
            response: Chain::new(),
            rooms: Rooms::new(alloc),
        }
    }

    /// The value of the variable `name`, of the connection `conn` where its scope is the session.
    /// None exactly where it is unset.
    pub fn get(&self, conn: u32, name: &VarName) -> Option<&Value>
        ensures { option_copied result ≡ var_of self.now conn name.now }
    {
        let key = &name.name;
        match name.scope {
            Scope::Proc => value_in::<Brand>(&self.slots, &self.process, key, Blank::new(1)),
            Scope::Sess => value_in_session(&self.slots, &self.sessions, conn, key),
            Scope::Txn => value_in::<Brand>(&self.slots, &self.transaction, key, Blank::new(1)),
            Scope::Req => value_in::<Brand>(&self.slots, &self.request, key, Blank::new(1)),
            Scope::Res => value_in::<Brand>(&self.slots, &self.response, key, Blank::new(1)),
        }
    }

    /// Sets the variable `name`, of the connection `conn` where its scope is the session, in place
    /// of the value that it had. Where memory runs out every variable stays as it was, and `value`
    /// is dropped. The name is copied only where the variable is unset.
    pub fn set(&mut self, conn: u32, name: &VarName, value: Value) -> Result<(), NoMemory>
        ensures ok { OnOk result (self.new ≡ with_var self.old conn name.now value) }
        ensures err { OnErr result (self.new ≡ self.old) }
    {
        let key = &name.name;
        match name.scope {
            Scope::Proc => set_in::<Brand>(
                &mut self.rooms,
                &mut self.slots,
                &mut self.process,
                Owner::Process,
                key,
                value,
                Blank::new(1),
            ),
            Scope::Sess => set_in_session(
                &mut self.rooms,
                &mut self.slots,
                &mut self.sessions,
                conn,
                key,
                value,
            ),
            Scope::Txn => set_in::<Brand>(
                &mut self.rooms,
                &mut self.slots,
                &mut self.transaction,
                Owner::Transaction,
                key,
                value,
                Blank::new(1),
            ),
            Scope::Req => set_in::<Brand>(
                &mut self.rooms,
                &mut self.slots,
                &mut self.request,
                Owner::Request,
                key,
                value,
                Blank::new(1),
            ),
            Scope::Res => set_in::<Brand>(
                &mut self.rooms,
                &mut self.slots,
                &mut self.response,
                Owner::Response,
                key,
                value,
                Blank::new(1),
            ),
        }
    }

    /// Unsets the variable `name`, of the connection `conn` where its scope is the session. Nothing
    /// changes where it is unset already. It takes no memory.
    pub fn unset(&mut self, conn: u32, name: &VarName)
        ensures { self.new ≡ without_var self.old conn name.now }
    {
        let key = &name.name;
        match name.scope {
            Scope::Proc => {
                unset_in::<Brand>(
                    &mut self.rooms,
                    &mut self.slots,
                    &mut self.process,
                    key,
                    Blank::new(1),
                )
            }
            Scope::Sess => unset_in_session(
                &mut self.rooms,
                &mut self.slots,
                &mut self.sessions,
                conn,
                key,
            ),
            Scope::Txn => {
                unset_in::<Brand>(
                    &mut self.rooms,
                    &mut self.slots,
                    &mut self.transaction,
                    key,
                    Blank::new(1),
                )
            }
            Scope::Req => unset_in::<Brand>(
                &mut self.rooms,
                &mut self.slots,
                &mut self.request,
                key,
                Blank::new(1),
            ),
            Scope::Res => {
                unset_in::<Brand>(
                    &mut self.rooms,
                    &mut self.slots,
                    &mut self.response,
                    key,
                    Blank::new(1),
                )
            }
        }
    }

    /// Unsets every variable of the transaction, the request and the response. Those of the process
    /// and of the sessions stay. It takes no memory.
    pub fn end_request(&mut self)
        ensures { self.new ≡ after_request self.old }
    {
        clear::<Brand>(
            &mut self.rooms,
            &mut self.slots,
            &mut self.transaction,
            Blank::new(1),
        );
        clear::<Brand>(
            &mut self.rooms,
            &mut self.slots,
            &mut self.request,
            Blank::new(1),
        );
        clear::<Brand>(
            &mut self.rooms,
            &mut self.slots,
            &mut self.response,
            Blank::new(1),
        );
    }

    /// Unsets every variable of the session of the connection `conn`. All others stay. It takes no
    /// memory, and its cost doesn't grow with the variables of other connections.
    pub fn end_session(&mut self, conn: u32)
        ensures { self.new ≡ after_session self.old conn }
    {
        clear_session(&mut self.rooms, &mut self.slots, &mut self.sessions, conn);
    }
    /// An empty text in memory that an earlier one had, if some was kept. The variables stay.
    pub fn room(&mut self) -> Vec<u8>
        ensures room { result.items ≡ [] }
        ensures other { self.new ≡ self.old }
    {
        self.rooms.take()
    }

    /// Keeps the memory of a text that is needed no more, for `room`. The variables stay.
    pub fn keep_room(&mut self, room: Vec<u8>)
        ensures { self.new ≡ self.old }
    {
        self.rooms.keep(room);
    }
}
