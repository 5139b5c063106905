ghost use Rattle.std.specs.Prelude.{◌≡◌, length, IfOk, OnOk, OnErr};
ghost use Rattle.hx_sample.specs.Changes.{ChangeCountsLarge};
ghost use Rattle.hx_sample.specs.Seen.{bytes_of};
ghost use Rattle.hx_rules.specs.Failures.{ActionAsksFor};
ghost use Rattle.hx_rules.specs.Formats.{text_in};
ghost use Rattle.hx_rules.specs.ProgramView.{action_of_change};
ghost use Rattle.hx_rules.specs.RequestView.{IsSameRequest, state_of};
ghost use Rattle.hx_rules.specs.State.{table_view};
ghost use Rattle.hx_rules.specs.Tables.{ChangesOneOf, HasActionHeads, HasFormatHeads};
ghost use Rattle.hx_rules.specs.Verdicts.{action_effect, Goes};

use crate::action::TableChange;
use crate::format::BuiltFormat;
use crate::owning::keep_text;
use crate::request::Request;
use hx_outside::ReMaker;
use hx_pool::Steps;
use hx_sample::{Bytes, Change, TableFault, Tables};
use hx_text::NoMemory;
use std::sync::ledger::Ledger;

impl<T: Tables> Request<'_, T> {
    /// The texts of a key and of its value, each as of `lent_text`.
    fn lent_pair<'f, L: Ledger>(
        &mut self,
        key: &'f BuiltFormat,
        value: &'f BuiltFormat,
        steps: &mut Steps<L>,
    ) -> Result<(Bytes<'f>, Bytes<'f>), NoMemory>
        requires key { HasFormatHeads (T.heads (T.state self.old.tables.now)) key.now }
        requires value { HasFormatHeads (T.heads (T.state self.old.tables.now)) value.now }
        ensures key { IfOk result (λ pair. bytes_of pair.0
            ≡ text_in (table_view T.heads T.lists T.after_change) self.old.conn.now
            (state_of T.state self.old) key.now) }
        ensures value { IfOk result (λ pair. bytes_of pair.1
            ≡ text_in (table_view T.heads T.lists T.after_change) self.old.conn.now
            (state_of T.state self.old) value.now) }
        ensures kept { self.new ≡ self.old }
    {
        let key = self.lent_text(key, steps)?;
        let value = self.lent_text(value, steps)?;
        Ok((key, value))
    }

    /// Changes a list of the tables, by the texts that formats make. Nothing is changed where
    /// memory runs out or the key is a regular expression that is too large.
    pub(crate) fn change_list<M: ReMaker, L: Ledger>(
        &mut self,
        asked: &TableChange,
        maker: &mut M,
        steps: &mut Steps<L>,
    ) -> Result<(), TableFault>
        requires heads { HasActionHeads (T.heads (T.state self.old.tables.now))
            (action_of_change asked.now) }
        requires list { ChangesOneOf (length (T.lists (T.state self.old.tables.now)))
            (action_of_change asked.now) }
        ensures ok { OnOk result (Goes (state_of T.state self.new)
            ≡ action_effect (table_view T.heads T.lists T.after_change) self.old.conn.now
            (action_of_change asked.now) (state_of T.state self.old)) }
        ensures kept { OnErr result (state_of T.state self.new ≡ state_of T.state self.old) }
        ensures same { IsSameRequest T.state T.heads T.lists self.old self.new }
        ensures large { ChangeCountsLarge result
            (ActionAsksFor (table_view T.heads T.lists T.after_change) self.old.conn.now
            (action_of_change asked.now) (state_of T.state self.old))
            (M.state maker.old) (M.state maker.new) }
    {
        match asked {
            TableChange::AddAcl(table, key) => {
                let text = self.lent_text(key, steps)?;
                let key = text.as_slice();
                let changed = self.tables.change(*table, Change::Add { key }, maker);
                keep_text(self.vars, text);
                changed
            }
            TableChange::DelAcl(table, key) | TableChange::DelMap(table, key) => {
                let text = self.lent_text(key, steps)?;
                let key = text.as_slice();
                let changed = self.tables.change(*table, Change::Del { key }, maker);
                keep_text(self.vars, text);
                changed
            }
            TableChange::SetMap(table, key, value) => {
                let (key, value) = self.lent_pair(key, value, steps)?;
                let change = Change::SetMap {
                    key: key.as_slice(),
                    value: value.as_slice(),
                };
                let changed = self.tables.change(*table, change, maker);
                keep_text(self.vars, key);
                keep_text(self.vars, value);
                changed
            }
        }
    }
}
