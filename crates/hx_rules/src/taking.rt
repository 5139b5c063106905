ghost use Rattle.std.specs.Prelude.{◌≡◌, IfOk};
ghost use Rattle.hx_acl.specs.Holds.{HasAclsHeads};
ghost use Rattle.hx_rules.specs.Failures.{is_taken_in};
ghost use Rattle.hx_rules.specs.RequestView.{state_of};
ghost use Rattle.hx_rules.specs.State.{table_view};
ghost use Rattle.hx_rules.specs.Tables.{HasWhenHeads};

use crate::request::Request;
use hx_acl::{AclSet, Condition};
use hx_pool::Steps;
use hx_sample::Tables;
use hx_text::NoMemory;
use std::sync::ledger::Ledger;

impl<T: Tables> Request<'_, T> {
    /// Whether a rule with this condition is taken.
    pub(crate) fn is_taken<L: Ledger>(
        &self,
        acls: &AclSet,
        unless: bool,
        cond: &Option<Condition>,
        steps: &mut Steps<L>,
    ) -> Result<bool, NoMemory>
        requires heads { HasWhenHeads (T.heads (T.state self.now.tables.now)) cond.now }
        requires acls { HasAclsHeads (T.heads (T.state self.now.tables.now)) acls.now }
        ensures { IfOk result (λ taken. taken
            ≡ is_taken_in (table_view T.heads T.lists T.after_change) self.now.conn.now acls.now
            (state_of T.state self.now) unless cond.now) }
    {
        match cond {
            Some(cond) => {
                let world = self.world();
                let holds = cond.holds(self.alloc, acls, &world, self.tables, steps)?;
                Ok(if unless { !holds } else { holds })
            }
            None => Ok(true),
        }
    }
}
