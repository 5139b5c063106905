ghost use Rattle.std.specs.Prelude.{◌≡◌, IfErr, OnOk, OnErr, None, Some, is_some, true};
ghost use Rattle.hx_http.specs.Edits.{add_header_fault, set_header_fault, with_header, with_only_header, MayFail};
ghost use Rattle.hx_rules.specs.ActionView.{edit_format, replacing_action};
ghost use Rattle.hx_rules.specs.EffectView.{edit_in};
ghost use Rattle.hx_rules.specs.Formats.{text_in};
ghost use Rattle.hx_rules.specs.ProgramView.{action_of_rewrite};
ghost use Rattle.hx_rules.specs.RequestView.{IsSameRequest, state_of};
ghost use Rattle.hx_rules.specs.Rewrites.{edit_of, named_fault};
ghost use Rattle.hx_rules.specs.State.{table_view};
ghost use Rattle.hx_rules.specs.Tables.{HasActionHeads, HasFormatHeads};

use crate::action::Rewrite;
use crate::format::BuiltFormat;
use crate::owning::keep_text;
use crate::pattern::Pattern;
use crate::replacing::Replacer;
use crate::request::Request;
use httparse::is_token;
use hx_http::{EditFault, Message};
use hx_pool::Steps;
use hx_sample::Tables;
use hx_text::Octets;
use std::sync::ledger::Ledger;

/// Sets the header line of a name, which is refused where the name is no token.
fn set_header(message: &mut Message, name: &[u8], value: &[u8]) -> Result<(), EditFault>
    ensures ok { OnOk result (message.new ≡ with_only_header name.now value.now message.old) }
    ensures none { OnOk result
        (named_fault name.now (set_header_fault name.now value.now message.old) ≡ None) }
    ensures refused { IfErr result (MayFail
        (named_fault name.now (set_header_fault name.now value.now message.old))) }
    ensures kept { OnErr result (message.new ≡ message.old) }
{
    if !is_token(name) {
        return Err(EditFault::BadBytes);
    }
    message.set_header(name, value)
}

/// Adds a header line, which is refused where the name is no token.
fn add_header(message: &mut Message, name: &[u8], value: &[u8]) -> Result<(), EditFault>
    ensures ok { OnOk result (message.new ≡ with_header name.now value.now message.old) }
    ensures none { OnOk result
        (named_fault name.now (add_header_fault name.now value.now message.old) ≡ None) }
    ensures refused { IfErr result (MayFail
        (named_fault name.now (add_header_fault name.now value.now message.old))) }
    ensures kept { OnErr result (message.new ≡ message.old) }
{
    if !is_token(name) {
        return Err(EditFault::BadBytes);
    }
    message.add_header(name, value)
}

/// Edits the head by the text of a rewrite that has one format, and no regular expression.
fn edit_head(message: &mut Message, asked: &Rewrite, text: &[u8]) -> Result<(), EditFault>
    requires { is_some (edit_format (action_of_rewrite asked.now)) ≡ true }
    ensures ok { OnOk result (message.new
        ≡ (edit_of (λ _. text.now) (action_of_rewrite asked.now) message.old).head) }
    ensures none { OnOk result
        ((edit_of (λ _. text.now) (action_of_rewrite asked.now) message.old).fault ≡ None) }
    ensures refused { IfErr result (MayFail
        (edit_of (λ _. text.now) (action_of_rewrite asked.now) message.old).fault) }
    ensures kept { OnErr result (message.new ≡ message.old) }
{
    match asked {
        Rewrite::SetHeader(name, _) => set_header(message, name.as_slice(), text),
        Rewrite::AddHeader(name, _) => add_header(message, name.as_slice(), text),
        Rewrite::SetMethod(_) => message.set_method(text),
        Rewrite::SetUri(_) => message.set_uri(text),
        Rewrite::SetPath(_) => message.set_path(text),
        Rewrite::SetQuery(_) => message.set_query(text),
        _ => unreachable!(),
    }
}

impl<T: Tables> Request<'_, T> {
    /// Edits the head by the text that the format of a rewrite makes.
    fn edit<L: Ledger>(
        &mut self,
        asked: &Rewrite,
        format: &BuiltFormat,
        steps: &mut Steps<L>,
    ) -> Result<(), EditFault>
        requires heads { HasFormatHeads (T.heads (T.state self.old.tables.now)) format.now }
        requires format { edit_format (action_of_rewrite asked.now) ≡ Some format.now }
        ensures ok { OnOk result (state_of T.state self.new ≡ record (state_of T.state self.old) {
          message = (edit_in (table_view T.heads T.lists T.after_change) self.old.conn.now asked.now
              (state_of T.state self.old)).head;
        }) }
        ensures none { OnOk result ((edit_in (table_view T.heads T.lists T.after_change)
            self.old.conn.now asked.now (state_of T.state self.old)).fault ≡ None) }
        ensures refused { IfErr result (MayFail (edit_in
            (table_view T.heads T.lists T.after_change) self.old.conn.now asked.now
            (state_of T.state self.old)).fault) }
        ensures kept { OnErr result (state_of T.state self.new ≡ state_of T.state self.old) }
        ensures same { IsSameRequest T.state T.heads T.lists self.old self.new }
    {
        let text = self.lent_text(format, steps)?;
        let edited = edit_head(self.message, asked, text.as_slice());
        keep_text(self.vars, text);
        edited
    }

    /// Replaces values of the header lines of a name, each of those between commas or the whole of
    /// a line, by what the format's text makes of the leftmost match.
    fn replace<L: Ledger>(
        &mut self,
        name: &Octets,
        pattern: &Pattern,
        format: &BuiltFormat,
        each: bool,
        steps: &mut Steps<L>,
    ) -> Result<(), EditFault>
        requires { HasFormatHeads (T.heads (T.state self.old.tables.now)) format.now }
        ensures ok { OnOk result (state_of T.state self.new ≡ record (state_of T.state self.old) {
          message = (edit_of (text_in (table_view T.heads T.lists T.after_change)
              self.old.conn.now (state_of T.state self.old))
              (replacing_action each name.now pattern.now format.now) self.old.message.now).head;
        }) }
        ensures none { OnOk result ((edit_of (text_in (table_view T.heads T.lists T.after_change)
            self.old.conn.now (state_of T.state self.old))
            (replacing_action each name.now pattern.now format.now) self.old.message.now).fault
            ≡ None) }
        ensures refused { IfErr result (MayFail (edit_of
            (text_in (table_view T.heads T.lists T.after_change)
            self.old.conn.now (state_of T.state self.old))
            (replacing_action each name.now pattern.now format.now)
            self.old.message.now).fault) }
        ensures kept { OnErr result (state_of T.state self.new ≡ state_of T.state self.old) }
        ensures same { IsSameRequest T.state T.heads T.lists self.old self.new }
    {
        let text = self.lent_text(format, steps)?;
        let replacer = Replacer::new(self.alloc, pattern, text.as_slice(), each);
        let edited = replacer.replace_values(self.message, name.as_slice());
        keep_text(self.vars, text);
        edited
    }

    /// Rewrites the head of the request. What is refused is as for the edits of a message, and
    /// nothing is changed then; a header line whose name is no token is refused as `BadBytes`.
    pub(crate) fn rewrite<L: Ledger>(
        &mut self,
        asked: &Rewrite,
        steps: &mut Steps<L>,
    ) -> Result<(), EditFault>
        requires { HasActionHeads (T.heads (T.state self.old.tables.now))
            (action_of_rewrite asked.now) }
        ensures ok { OnOk result (state_of T.state self.new ≡ record (state_of T.state self.old) {
          message = (edit_in (table_view T.heads T.lists T.after_change) self.old.conn.now asked.now
              (state_of T.state self.old)).head;
        }) }
        ensures none { OnOk result ((edit_in (table_view T.heads T.lists T.after_change)
            self.old.conn.now asked.now (state_of T.state self.old)).fault ≡ None) }
        ensures refused { IfErr result (MayFail (edit_in
            (table_view T.heads T.lists T.after_change) self.old.conn.now asked.now
            (state_of T.state self.old)).fault) }
        ensures kept { OnErr result (state_of T.state self.new ≡ state_of T.state self.old) }
        ensures same { IsSameRequest T.state T.heads T.lists self.old self.new }
    {
        match asked {
            Rewrite::SetHeader(_, format) | Rewrite::AddHeader(_, format) => {
                self.edit(asked, format, steps)
            }
            Rewrite::SetMethod(format) | Rewrite::SetUri(format) => {
                self.edit(asked, format, steps)
            }
            Rewrite::SetPath(format) | Rewrite::SetQuery(format) => {
                self.edit(asked, format, steps)
            }
            Rewrite::DelHeader(name) => {
                self.message.del_header(name.as_slice());
                Ok(())
            }
            Rewrite::ReplaceHeader(name, pattern, format) => {
                self.replace(name, pattern, format, false, steps)
            }
            Rewrite::ReplaceValue(name, pattern, format) => {
                self.replace(name, pattern, format, true, steps)
            }
        }
    }
}
