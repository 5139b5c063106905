ghost use Rattle.std.specs.Prelude.{◌≡◌, ◌++◌, IfOk, OnOk};
ghost use Rattle.hx_rules.specs.Formats.{text_in};
ghost use Rattle.hx_rules.specs.Locations.{host_of, location_of, redirect_verdict, target_rest};
ghost use Rattle.hx_rules.specs.RequestView.{state_of};
ghost use Rattle.hx_rules.specs.State.{table_view};
ghost use Rattle.hx_rules.specs.Tables.{HasFormatHeads};

use crate::action::BuiltRedirect;
use crate::request::Request;
use crate::verdict::Verdict;
use hx_ast::RedirectKind;
use hx_http::Message;
use hx_pool::Steps;
use hx_sample::Tables;
use hx_text::{NoMemory, Octets, has_bad_value_byte};
use std::alloc::Global;
use std::sync::ledger::Ledger;

/// The value of the first header line `Host`, and nothing without one.
fn host(message: &Message) -> &[u8]
    ensures { result.now ≡ host_of message.now }
{
    for at in 0..message.len() {
        let Some((name, value)) = message.header(at) else {
            break;
        };
        if name.eq_ignore_ascii_case(b"host") {
            return value;
        }
    }
    b""
}

/// Appends the target from its path on, or its path alone, and `/` where it has no path.
fn push_rest(text: &mut Octets, message: &Message, drop_query: bool) -> Result<(), NoMemory>
    ensures { OnOk result (text.new ≡ text.old ++ target_rest drop_query message.now.target) }
{
    let Some(path) = message.path() else {
        return text.push_all(b"/");
    };
    text.push_all(path)?;
    if drop_query {
        return Ok(());
    }
    let Some(query) = message.query() else {
        return Ok(());
    };
    text.push_all(b"?")?;
    text.push_all(query)
}

/// The location of a redirect whose format makes `text`.
fn location(
    alloc: Global,
    kind: RedirectKind,
    text: Octets,
    drop_query: bool,
    message: &Message,
) -> Result<Octets, NoMemory>
    ensures { IfOk result (λ location. location
        ≡ location_of kind text drop_query message.now) }
{
    let mut location = text;
    match kind {
        RedirectKind::Location => {}
        RedirectKind::Prefix => {
            if location.as_slice() == b"/".as_slice() {
                location = Octets::from_vec(Vec::new(alloc));
            }
            push_rest(&mut location, message, drop_query)?;
        }
        RedirectKind::Scheme => {
            location.push_all(b"://")?;
            location.push_all(host(message))?;
            push_rest(&mut location, message, drop_query)?;
        }
    }
    Ok(location)
}

impl<T: Tables> Request<'_, T> {
    /// The verdict of a redirect: `Error` where its location has CR, LF or NUL.
    pub(crate) fn redirect<L: Ledger>(
        &self,
        asked: &BuiltRedirect,
        steps: &mut Steps<L>,
    ) -> Result<Verdict, NoMemory>
        requires { HasFormatHeads (T.heads (T.state self.now.tables.now)) asked.now.format }
        ensures { IfOk result (λ verdict. verdict
            ≡ redirect_verdict asked.now.kind (text_in (table_view T.heads T.lists T.after_change)
            self.now.conn.now (state_of T.state self.now) asked.now.format) asked.now.status
            asked.now.drop_query self.now.message.now) }
    {
        let text = self.text(&asked.format, steps)?;
        let location = location(self.alloc, asked.kind, text, asked.drop_query, self.message)?;
        if has_bad_value_byte(location.as_slice()) {
            return Ok(Verdict::Error);
        }
        Ok(Verdict::Redirect {
            code: asked.status.unwrap_or(302),
            location,
        })
    }
}
