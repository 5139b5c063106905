ghost use Rattle.std.specs.Prelude.{◌≡◌, ◌+◌, ◌<◌, ◌++◌, length, is_some, IfOk, IfErr, IfSome, IfNone, IsOk, OnOk, OnErr, None, false};
ghost use Rattle.std.specs.List.{list_any};
ghost use Rattle.hx_conv_text.specs.Substitution.{expanded_of};
ghost use Rattle.hx_http.specs.Edits.{has_name, MayFail};
ghost use Rattle.hx_lists.specs.Blanks.{trim_blanks};
ghost use Rattle.hx_rules.specs.ReplacingView.{replacement_by, replacement_of, replacing_from, BeginsAt, IsNewValue};
ghost use Rattle.hx_rules.specs.Rewrites.{each_replaced, piece_after, replacing_edit, Replacement};

use crate::pattern::Pattern;
use hx_http::{EditFault, Message};
use hx_lists::{cut_blanks, first_hdr_piece};
use hx_text::{NoMemory, Octets};
use std::alloc::Global;

/// How values are replaced: what the regular expression finds in each value, or in each of its
/// values between commas, becomes what `sub` makes of it.
#[derive(Drop)]
pub(crate) struct Replacer<'p> {
    alloc: Global,
    pattern: &'p Pattern,
    sub: &'p [u8],
    each: bool,
}

impl<'p> Replacer<'p> {
    pub(crate) fn new(
        alloc: Global,
        pattern: &'p Pattern,
        sub: &'p [u8],
        each: bool,
    ) -> Replacer<'p>
        ensures { replacement_by result ≡ replacement_of each pattern.now sub.now }
    {
        Replacer {
            alloc,
            pattern,
            sub,
            each,
        }
    }
}

impl Replacer<'_> {
    /// What replaces the values of a line between commas, each in its place. None exactly where all
    /// stay.
    fn each_replaced(&self, line: &[u8]) -> Result<Option<Octets>, NoMemory>
        ensures { IfOk result (λ made. made
            ≡ each_replaced (expanded_of false self.now.pattern.now self.now.sub.now) line.now) }
    {
        let mut text = Octets::from_vec(Vec::new(self.alloc));
        let mut is_changed = false;
        let mut rest = line;
        loop {
            let (piece, more) = first_hdr_piece(rest);
            is_changed |= self.push_piece(&mut text, piece)?;
            let Some(more) = more else {
                break;
            };
            text.push_all(b",")?;
            rest = more;
        }
        Ok(if is_changed { Some(text) } else { None })
    }

    /// Appends a piece of a line with its value replaced. True where it is replaced.
    fn push_piece(&self, text: &mut Octets, piece: &[u8]) -> Result<bool, NoMemory>
        ensures text { OnOk result (text.new ≡ text.old
            ++ piece_after (expanded_of false self.now.pattern.now self.now.sub.now) piece.now) }
        ensures changed { IfOk result (λ changed. changed ≡ is_some
            (expanded_of false self.now.pattern.now self.now.sub.now (trim_blanks piece.now))) }
    {
        let (first, value, last) = cut_blanks(piece);
        let Some(new) = self.pattern.expand(self.alloc, self.sub, value)? else {
            text.push_all(piece)?;
            return Ok(false);
        };
        text.push_all(first)?;
        text.push_all(new.as_slice())?;
        text.push_all(last)?;
        Ok(true)
    }

    /// What replaces the value of a line: each of its values between commas, or the whole of it.
    fn replaced(&self, value: &[u8]) -> Result<Option<Octets>, NoMemory>
        ensures { IfOk result (λ made. made ≡ replacement_by self.now value.now) }
    {
        if self.each {
            self.each_replaced(value)
        } else {
            self.pattern.expand(self.alloc, self.sub, value)
        }
    }

    /// The new value of the header line at the position `at`. None where the line hasn't the name,
    /// and where its value stays.
    fn new_value(
        &self,
        message: &Message,
        at: usize,
        name: &[u8],
    ) -> Result<Option<Octets>, NoMemory>
        requires { at < length message.now.headers }
        ensures { IfOk result (IsNewValue name.now (replacement_by self.now) message.now at) }
    {
        let Some((line_name, value)) = message.header(at) else {
            return Ok(None);
        };
        if !line_name.eq_ignore_ascii_case(name) {
            return Ok(None);
        }
        self.replaced(value)
    }

    /// The position of the first header line whose value is replaced, from `from` on.
    fn first_replaced(
        &self,
        message: &Message,
        from: usize,
        name: &[u8],
    ) -> Result<Option<usize>, NoMemory>
        ensures { IfOk result (BeginsAt name.now (replacement_by self.now) message.now from) }
    {
        'lines: for at in from..message.len() {
            let new = self.new_value(message, at, name)?;
            match new {
                Some(_) => return Ok(Some(at)),
                None => {}
            }
        }
        Ok(None)
    }

    /// Replaces the value of the header line at the position `at`, where it has the name.
    fn replace_line(&self, message: &mut Message, at: usize, name: &[u8]) -> Result<(), EditFault>
        requires { at < length message.old.headers }
        ensures ok { OnOk result (replacing_from (at + 1) name.now (replacement_by self.now)
            message.new ≡ replacing_from at name.now (replacement_by self.now) message.old) }
        ensures length { OnOk result (length message.new.headers ≡ length message.old.headers) }
        ensures refused { IfErr result (MayFail (replacing_from at name.now
            (replacement_by self.now) message.old).fault) }
    {
        match self.new_value(message, at, name)? {
            Some(new) => message.replace_value(at, new.as_slice()),
            None => Ok(()),
        }
    }

    /// A copy of the message with the values of the lines of the name replaced, from the position
    /// `first` on.
    fn replaced_copy(
        &self,
        message: &Message,
        first: usize,
        name: &[u8],
    ) -> Result<Message, EditFault>
        ensures ok { IfOk result (λ edited.
            edited ≡ (replacing_from first name.now (replacement_by self.now) message.now).head) }
        ensures none { OnOk result
            ((replacing_from first name.now (replacement_by self.now) message.now).fault ≡ None) }
        ensures refused { IfErr result (MayFail
            (replacing_from first name.now (replacement_by self.now) message.now).fault) }
    {
        let mut edited = message.copy()?;
        'lines: for at in first..message.len() {
            self.replace_line(&mut edited, at, name)?;
        }
        Ok(edited)
    }
}

/// The position of the first header line of the name.
fn first_named(message: &Message, name: &[u8]) -> Option<usize>
    ensures some { IfSome result (λ at. (replacement : Replacement) →
        replacing_from at name.now replacement message.now
        ≡ replacing_from 0 name.now replacement message.now) }
    ensures none { IfNone result ((replacement : Replacement) →
        replacing_edit name.now replacement message.now
        ≡ record { fault = None; head = message.now }) }
    ensures named { is_some result ≡ list_any (has_name name.now) message.now.headers }
{
    'lines: for at in 0..message.len() {
        let Some((line_name, _value)) = message.header(at) else {
            return None;
        };
        if line_name.eq_ignore_ascii_case(name) {
            return Some(at);
        }
    }
    None
}

impl Replacer<'_> {
    /// Replaces the values of the header lines of a name.
    ///
    /// `BadBytes` exactly where one of the new values has CR, LF or NUL. `NoMemory` where memory
    /// runs out, and not where no line has the name. No value is replaced then.
    pub(crate) fn replace_values(&self, message: &mut Message, name: &[u8]) -> Result<(), EditFault>
        ensures ok { OnOk result (message.new
            ≡ (replacing_edit name.now (replacement_by self.now) message.old).head) }
        ensures none { OnOk result
            ((replacing_edit name.now (replacement_by self.now) message.old).fault ≡ None) }
        ensures refused { IfErr result
            (MayFail (replacing_edit name.now (replacement_by self.now) message.old).fault) }
        ensures kept { OnErr result (message.new ≡ message.old) }
        ensures free { list_any (has_name name.now) message.old.headers ≡ false → IsOk result }
    {
        let Some(from) = first_named(message, name) else {
            return Ok(());
        };
        let Some(first) = self.first_replaced(message, from, name)? else {
            return Ok(());
        };
        // All values are replaced or none is, so they are replaced in a copy.
        *message = self.replaced_copy(message, first, name)?;
        Ok(())
    }
}
