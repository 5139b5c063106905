ghost use Rattle.std.specs.Prelude.{◌≡◌};
ghost use Rattle.hx_fetch.specs.World.{context_of};

use hx_fetch::{Conn, World};
use hx_http::Message;
use hx_sample::Vars;
use std::alloc::Global;

/// A request while its rules are evaluated: the connection that it came by, and what rules look at
/// and change, which are its message, the variables, the tables, and whether a rewrite that is
/// refused ends it with an error. `specs/RequestView.antt` says in which state it is.
#[derive(Drop)]
pub(crate) struct Request<'r, T> {
    pub(crate) alloc: Global,
    pub(crate) conn: &'r Conn,
    pub(crate) message: &'r mut Message,
    pub(crate) vars: &'r mut Vars,
    pub(crate) tables: &'r mut T,
    pub(crate) strict: bool,
}

impl<T> Request<'_, T> {
    /// What fetches look at.
    pub(crate) fn world(&self) -> World<'_>
        ensures { context_of result ≡ record {
          message = self.now.message.now;
          conn = self.now.conn.now;
          vars = self.now.vars.now;
        } }
    {
        World {
            message: self.message,
            conn: self.conn,
            vars: self.vars,
        }
    }
}
