ghost use Rattle.std.specs.Prelude.{◌≡◌, ◌++◌, [], IfOk, OnOk};
ghost use Rattle.hx_ast.specs.declared.action.Part.TheVariants as part;
ghost use Rattle.hx_expr.specs.Values.{HasTableHeads};
ghost use Rattle.hx_sample.specs.Seen.{bytes_of};
ghost use Rattle.hx_rules.specs.Formats.{part_text, text_in};
ghost use Rattle.hx_rules.specs.RequestView.{state_of};
ghost use Rattle.hx_rules.specs.State.{in_state, table_view};
ghost use Rattle.hx_rules.specs.Tables.{HasFormatHeads, HasPartHeads};

use crate::format::{BuiltFormat, BuiltPart, PartPlan};
use crate::request::Request;
use crate::strings::{push_string, string_in};
use hx_expr::{Plan, eval};
use hx_pool::Steps;
use hx_sample::{Bytes, Tables};
use hx_text::{NoMemory, Octets};
use std::sync::ledger::Ledger;

impl<T: Tables> Request<'_, T> {
    /// Appends the text of a part.
    fn push_part<L: Ledger>(
        &self,
        text: &mut Octets,
        part: &BuiltPart,
        steps: &mut Steps<L>,
    ) -> Result<(), NoMemory>
        requires { HasPartHeads (T.heads (T.state self.now.tables.now)) part.now }
        ensures { OnOk result (text.new
            ≡ text.old ++ in_state part_text (table_view T.heads T.lists T.after_change)
            self.now.conn.now (state_of T.state self.now) part.now) }
    {
        match &part.plan {
            PartPlan::Text(bytes) => text.push_all(bytes.as_slice()),
            PartPlan::Value(plan) => {
                let world = self.world();
                let value = eval(self.alloc, plan, &world, self.tables, steps)?;
                push_string(self.alloc, text, value)
            }
        }
    }

    /// The value of an expression as a string. A room that is empty is there for its bytes.
    fn string_of<L: Ledger>(
        &self,
        room: Vec<u8>,
        plan: &Plan,
        steps: &mut Steps<L>,
    ) -> Result<Octets, NoMemory>
        requires room { room.items ≡ [] }
        requires heads { HasTableHeads (T.heads (T.state self.now.tables.now)) plan.now.convs }
        ensures { IfOk result (λ text. text
            ≡ in_state part_text (table_view T.heads T.lists T.after_change)
            self.now.conn.now (state_of T.state self.now) (part.Value plan.now)) }
    {
        let world = self.world();
        let value = eval(self.alloc, plan, &world, self.tables, steps)?;
        string_in(self.alloc, room, value)
    }

    /// The text of a part, lent where it is bytes that stand for themselves. What a converter has
    /// made is taken as it is.
    fn part_text<'f, L: Ledger>(
        &mut self,
        part: &'f BuiltPart,
        steps: &mut Steps<L>,
    ) -> Result<Bytes<'f>, NoMemory>
        requires { HasPartHeads (T.heads (T.state self.old.tables.now)) part.now }
        ensures text { IfOk result (λ text. bytes_of text
            ≡ in_state part_text (table_view T.heads T.lists T.after_change)
            self.old.conn.now (state_of T.state self.old) part.now) }
        ensures kept { self.new ≡ self.old }
    {
        match &part.plan {
            PartPlan::Text(bytes) => Ok(Bytes::Lent(bytes.as_slice())),
            PartPlan::Value(plan) => {
                let room = self.vars.room();
                Ok(Bytes::Own(self.string_of(room, plan, steps)?))
            }
        }
    }

    /// The text that the format makes, in a room that is empty.
    fn text_in<L: Ledger>(
        &self,
        room: Vec<u8>,
        format: &BuiltFormat,
        steps: &mut Steps<L>,
    ) -> Result<Octets, NoMemory>
        requires room { room.items ≡ [] }
        requires heads { HasFormatHeads (T.heads (T.state self.now.tables.now)) format.now }
        ensures { IfOk result (λ text. text
            ≡ text_in (table_view T.heads T.lists T.after_change) self.now.conn.now
            (state_of T.state self.now) format.now) }
    {
        let mut text = Octets::from_vec(room);
        for part in format.as_slice() {
            self.push_part(&mut text, part, steps)?;
        }
        Ok(text)
    }

    /// The text that the format makes.
    pub(crate) fn text<L: Ledger>(
        &self,
        format: &BuiltFormat,
        steps: &mut Steps<L>,
    ) -> Result<Octets, NoMemory>
        requires { HasFormatHeads (T.heads (T.state self.now.tables.now)) format.now }
        ensures { IfOk result (λ text. text
            ≡ text_in (table_view T.heads T.lists T.after_change) self.now.conn.now
            (state_of T.state self.now) format.now) }
    {
        self.text_in(Vec::new(self.alloc), format, steps)
    }

    /// The same, and lent where the format is bytes that stand for themselves. One part alone is
    /// the text, which no other is put together with. Memory that an earlier text had is used
    /// again, and `keep_text` keeps that of this one.
    pub(crate) fn lent_text<'f, L: Ledger>(
        &mut self,
        format: &'f BuiltFormat,
        steps: &mut Steps<L>,
    ) -> Result<Bytes<'f>, NoMemory>
        requires { HasFormatHeads (T.heads (T.state self.old.tables.now)) format.now }
        ensures text { IfOk result (λ text. bytes_of text
            ≡ text_in (table_view T.heads T.lists T.after_change) self.old.conn.now
            (state_of T.state self.old) format.now) }
        ensures kept { self.new ≡ self.old }
    {
        match format.as_slice() {
            [only] => self.part_text(only, steps),
            _ => {
                let room = self.vars.room();
                Ok(Bytes::Own(self.text_in(room, format, steps)?))
            }
        }
    }
}
