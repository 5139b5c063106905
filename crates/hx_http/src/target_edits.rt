//! Edits of the method and of the target.
ghost use Rattle.std.specs.Prelude.{◌≡◌, None, IfErr, OnOk, OnErr};
ghost use Rattle.std.specs.Char.{is_ascii_graphic};
ghost use Rattle.std.specs.List.{list_all};
ghost use Rattle.hx_http.specs.Edits.{with_method, with_path, with_query, with_target, method_fault, path_fault, query_fault, target_fault, MayFail};

use crate::buffer::{append, append_around};
use crate::fault::EditFault;
use crate::message::Message;
use crate::target::{before_query, has_query, path_place};
use httparse::is_token;

/// Whether each byte is visible in ASCII.
fn is_visible(text: &[u8]) -> bool
    ensures { result ≡ list_all is_ascii_graphic text.now }
{
    text.iter().all(|b| b.is_ascii_graphic())
}

impl Message {
    /// Gives the message a copy of the text as its method.
    ///
    /// `BadBytes` exactly where the text is no token (RFC 9110, sections 5.6.2 and 9.1). In place
    /// of any answer there may be `NoMemory`. After a fault the message is as before.
    ///
    /// HAProxy configuration manual 2.4, section 4.2, `http-request set-method`.
    pub fn set_method(&mut self, text: &[u8]) -> Result<(), EditFault>
        ensures ok { OnOk result (self.new ≡ with_method text.now self.old) }
        ensures none { OnOk result (method_fault text.now ≡ None) }
        ensures refused { IfErr result (MayFail (method_fault text.now)) }
        ensures kept { OnErr result (self.new ≡ self.old) }
    {
        if !is_token(text) {
            return Err(EditFault::BadBytes);
        }
        let method = append(&mut self.bytes, text)?;
        self.spans.head.method = method;
        self.drop_unused();
        Ok(())
    }

    /// Puts a copy of the text in place of the path of the target. What stands before the path, as
    /// a scheme and an authority, stays, and so does what stands after it, as `?` and the query.
    /// The target `*` is replaced whole. The text may have a `?` of its own, from which on it is
    /// then a part of the query.
    ///
    /// `BadBytes` exactly where the text has a byte outside 0x21 to 0x7E or doesn't begin with `/`.
    /// Then `NoPath` exactly where the target has no path and isn't `*`. In place of any answer
    /// there may be `NoMemory`. After a fault the message is as before.
    ///
    /// HAProxy configuration manual 2.4, section 4.2, `http-request set-path`.
    pub fn set_path(&mut self, text: &[u8]) -> Result<(), EditFault>
        ensures ok { OnOk result (self.new ≡ with_path text.now self.old) }
        ensures none { OnOk result (path_fault text.now self.old.target ≡ None) }
        ensures refused { IfErr result (MayFail (path_fault text.now self.old.target)) }
        ensures kept { OnErr result (self.new ≡ self.old) }
    {
        if !text.starts_with(b"/") || !is_visible(text) {
            return Err(EditFault::BadBytes);
        }
        let span = self.spans.head.path;
        let Some((before, after)) = path_place(span.of(self.bytes.as_slice())) else {
            return Err(EditFault::NoPath);
        };
        let target = append_around(&mut self.bytes, span, before, b"", text, after)?;
        self.spans.head.path = target;
        self.drop_unused();
        Ok(())
    }

    /// Puts a copy of the text in place of the query of the target, which follows the first `?`.
    /// Where the target has no `?`, one is added at its end and then the text, but nothing where
    /// the text is empty. A `?` is never taken away.
    ///
    /// `BadBytes` exactly where the text has a byte outside 0x21 to 0x7E. In place of any answer
    /// there may be `NoMemory`. After a fault the message is as before.
    ///
    /// HAProxy configuration manual 2.4, section 4.2, `http-request set-query`.
    pub fn set_query(&mut self, text: &[u8]) -> Result<(), EditFault>
        ensures ok { OnOk result (self.new ≡ with_query text.now self.old) }
        ensures none { OnOk result (query_fault text.now ≡ None) }
        ensures refused { IfErr result (MayFail (query_fault text.now)) }
        ensures kept { OnErr result (self.new ≡ self.old) }
    {
        if !is_visible(text) {
            return Err(EditFault::BadBytes);
        }
        let span = self.spans.head.path;
        let old = span.of(self.bytes.as_slice());
        if !has_query(old) && text.is_empty() {
            return Ok(());
        }
        let (before, after) = (before_query(old).len(), old.len());
        let target = append_around(&mut self.bytes, span, before, b"?", text, after)?;
        self.spans.head.path = target;
        self.drop_unused();
        Ok(())
    }

    /// Gives the message a copy of the text as its target: scheme, authority, path and query at
    /// once.
    ///
    /// `BadBytes` exactly where the text is empty or has a byte outside 0x21 to 0x7E. In place of
    /// any answer there may be `NoMemory`. After a fault the message is as before.
    ///
    /// HAProxy configuration manual 2.4, section 4.2, `http-request set-uri`.
    pub fn set_uri(&mut self, text: &[u8]) -> Result<(), EditFault>
        ensures ok { OnOk result (self.new ≡ with_target text.now self.old) }
        ensures none { OnOk result (target_fault text.now ≡ None) }
        ensures refused { IfErr result (MayFail (target_fault text.now)) }
        ensures kept { OnErr result (self.new ≡ self.old) }
    {
        if text.is_empty() || !is_visible(text) {
            return Err(EditFault::BadBytes);
        }
        let target = append(&mut self.bytes, text)?;
        self.spans.head.path = target;
        self.drop_unused();
        Ok(())
    }
}
