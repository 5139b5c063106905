//! A copy of a message, whether two are the same, and edits of header lines.
ghost use Rattle.std.specs.Prelude.{◌≡◌, ◌<◌, ◌↔◌, None, length, IsTrue, IfOk, IfErr, OnOk, OnErr};
ghost use Rattle.httparse.specs.Grammar.{is_token};
ghost use Rattle.hx_http.specs.Edits.{with_header, without_header, with_only_header, with_value, value_fault, add_header_fault, set_header_fault, MayFail};

use crate::buffer::{append, append_line};
use crate::fault::EditFault;
use crate::lines::{count_others, remove_named, replace_named, same_lines};
use crate::message::Message;
use crate::spans::MAX_HEADERS;
use httparse::spans::HeaderSpan;
use hx_text::{NoMemory, has_bad_value_byte};

impl Message {
    /// An equal message, with bytes of its own, from where this one has its memory. Bytes that are
    /// no part of this message, as those that followed the head, aren't copied where they are more
    /// than the parts, and more than the head was long as it was read. `NoMemory` where memory runs
    /// out.
    pub fn copy(&self) -> Result<Message, NoMemory>
        ensures { IfOk result (λ copied. copied ≡ self.now) }
    {
        let mut copied = Message::empty(*self.bytes.allocator());
        copied.copy_from(self)?;
        Ok(copied)
    }

    /// Whether both messages have the same method, the same target, the same minor number of the
    /// version, and the same header lines in the same order. Lines are the same where their names
    /// have the same bytes, the case of letters included, and their values too.
    pub fn same(&self, other: &Message) -> bool
        ensures { IsTrue result ↔ (self.now ≡ other.now) }
    {
        if self.len() != other.len() {
            return false;
        }
        // A copy that no edit has changed has the same bytes and the same spans.
        if self.bytes.as_slice() == other.bytes.as_slice() && self.spans.same(&other.spans) {
            return true;
        }
        self.minor() == other.minor()
            && self.target() == other.target()
            && self.method() == other.method()
            && same_lines(
                self.bytes.as_slice(),
                self.spans.lines.as_slice(),
                other.bytes.as_slice(),
                other.spans.lines.as_slice(),
            )
    }

    /// Adds a header line with copies of the name and the value, after all others, whether or not
    /// lines of the name are there. The value is kept as it is given, with any spaces and tabs at
    /// its ends.
    ///
    /// `BadBytes` exactly where CR, LF or NUL is in the value. Then `TooMany` exactly where the
    /// message would have more than 101 header lines. In place of any answer there may be
    /// `NoMemory`. After a fault the message is as before.
    ///
    /// The name is a token (`httparse::is_token`). HAProxy configuration manual 2.4, section 4.2,
    /// `http-request add-header`.
    pub fn add_header(&mut self, name: &[u8], value: &[u8]) -> Result<(), EditFault>
        requires { IsTrue (is_token name.now) }
        ensures ok { OnOk result (self.new ≡ with_header name.now value.now self.old) }
        ensures none { OnOk result (add_header_fault name.now value.now self.old ≡ None) }
        ensures refused { IfErr result (MayFail
            (add_header_fault name.now value.now self.old)) }
        ensures kept { OnErr result (self.new ≡ self.old) }
    {
        if has_bad_value_byte(value) {
            return Err(EditFault::BadBytes);
        }
        if self.len() >= MAX_HEADERS {
            return Err(EditFault::TooMany);
        }
        self.push_line(name, value)?;
        Ok(())
    }

    /// Takes away all header lines of the name, whatever the case of its letters (RFC 9110, section
    /// 5.1). The others stay in their order. Without such a line nothing changes.
    ///
    /// HAProxy configuration manual 2.4, section 4.2, `http-request del-header`.
    pub fn del_header(&mut self, name: &[u8])
        ensures { self.new ≡ without_header name.now self.old }
    {
        remove_named(self.bytes.as_slice(), &mut self.spans.lines, name);
    }

    /// Takes away all header lines of the name, whatever the case of its letters, and adds one with
    /// copies of the name and the value after all others. The value is kept as it is given, with
    /// any spaces and tabs at its ends.
    ///
    /// `BadBytes` exactly where CR, LF or NUL is in the value. Then `TooMany` exactly where the
    /// message would have more than 101 header lines, of which none had the name. In place of any
    /// answer there may be `NoMemory`. After a fault the message is as before.
    ///
    /// The name is a token (`httparse::is_token`). HAProxy configuration manual 2.4, section 4.2,
    /// `http-request set-header`.
    pub fn set_header(&mut self, name: &[u8], value: &[u8]) -> Result<(), EditFault>
        requires { IsTrue (is_token name.now) }
        ensures ok { OnOk result (self.new ≡ with_only_header name.now value.now self.old) }
        ensures none { OnOk result (set_header_fault name.now value.now self.old ≡ None) }
        ensures refused { IfErr result (MayFail
            (set_header_fault name.now value.now self.old)) }
        ensures kept { OnErr result (self.new ≡ self.old) }
    {
        if has_bad_value_byte(value) {
            return Err(EditFault::BadBytes);
        }
        let kept = self.count_others(name);
        if kept >= MAX_HEADERS {
            return Err(EditFault::TooMany);
        }
        if kept < self.len() {
            self.replace_lines(name, value)?;
        } else {
            self.push_line(name, value)?;
        }
        Ok(())
    }

    /// Gives the header line at position `i`, counted from 0, a copy of the value in place of its
    /// own. The line keeps its name and its position, and the value is kept as it is given.
    ///
    /// `BadBytes` exactly where CR, LF or NUL is in the value. In place of any answer there may be
    /// `NoMemory`. After a fault the message is as before.
    ///
    /// There are more than `i` header lines. HAProxy configuration manual 2.4, section 4.2,
    /// `http-request replace-value`, which computes the value.
    pub fn replace_value(&mut self, i: usize, value: &[u8]) -> Result<(), EditFault>
        requires { i < length self.old.headers }
        ensures ok { OnOk result (self.new ≡ with_value i value.now self.old) }
        ensures none { OnOk result (value_fault value.now ≡ None) }
        ensures refused { IfErr result (MayFail (value_fault value.now)) }
        ensures kept { OnErr result (self.new ≡ self.old) }
    {
        if has_bad_value_byte(value) {
            return Err(EditFault::BadBytes);
        }
        let value = append(&mut self.bytes, value)?;
        let name = self.spans.lines[i].name;
        self.spans.lines[i] = HeaderSpan { name, value };
        self.drop_unused();
        Ok(())
    }

    /// How many header lines don't have the name.
    fn count_others(&self, name: &[u8]) -> usize
        ensures { result ≡ length (without_header name.now self.now).headers }
    {
        count_others(self.bytes.as_slice(), self.spans.lines.as_slice(), name)
    }

    /// Drops the bytes that are no part of the message, where there are more bytes than the limit.
    /// All stay where there is no memory for a copy of the parts.
    pub(crate) fn drop_unused(&mut self)
        ensures { self.new ≡ self.old }
    {
        if self.bytes.len() <= self.limit {
            return;
        }
        if let Ok(copied) = self.copy() {
            *self = copied;
        }
    }

    fn push_line(&mut self, name: &[u8], value: &[u8]) -> Result<(), NoMemory>
        ensures ok { OnOk result (self.new ≡ with_header name.now value.now self.old) }
        ensures err { OnErr result (self.new ≡ self.old) }
    {
        let line = append_line(&mut self.bytes, name, value)?;
        self.spans.lines.push(line)?;
        self.drop_unused();
        Ok(())
    }

    /// Puts one line after all others in place of those of the name. There is one of these at
    /// least.
    fn replace_lines(&mut self, name: &[u8], value: &[u8]) -> Result<(), NoMemory>
        requires { length (without_header name.now self.old).headers < length self.old.headers }
        ensures ok { OnOk result (self.new ≡ with_only_header name.now value.now self.old) }
        ensures err { OnErr result (self.new ≡ self.old) }
    {
        let line = append_line(&mut self.bytes, name, value)?;
        replace_named(self.bytes.as_slice(), &mut self.spans.lines, name, line);
        self.drop_unused();
        Ok(())
    }
}
