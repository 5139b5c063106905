ghost use Rattle.std.specs.Prelude.{◌≡◌, ◌≤◌, ◌++◌, ◌∷◌, [], length, IfOk, OnOk};
ghost use Rattle.hx_calls.specs.FormatView.{ReadsOn, text_part};
ghost use Rattle.hx_calls.specs.Formats.{after_percent, format_of, value_part};
ghost use Rattle.hx_calls.specs.Known.{Extends, ReadsAs};

use crate::expression::{ExprRead, expr_of};
use crate::fault::{BAD_FORMAT, SpellFault};
use crate::known::Knowledge;
use hx_ast::{Format, Items, Part};
use hx_text::{NoMemory, Octets};
use std::alloc::Global;
use std::mem;

/// A format up to a place: its parts, and the bytes after them that stand for themselves.
#[derive(Drop)]
struct Parts {
    parts: Format,
    text: Vec<u8>,
}

impl Parts {
    fn new(alloc: Global) -> Parts
        ensures parts { result.parts ≡ [] }
        ensures text { result.text.items ≡ [] }
    {
        Parts {
            parts: Items::new(alloc),
            text: Vec::new(alloc),
        }
    }

    /// One more byte that stands for itself.
    fn push_byte(&mut self, byte: u8) -> Result<(), NoMemory>
        ensures parts { self.new.parts ≡ self.old.parts }
        ensures text { OnOk result (self.new.text.items ≡ self.old.text.items ++ byte ∷ []) }
    {
        self.text.push(byte)?;
        Ok(())
    }

    /// The bytes after the parts become a part, if there are some.
    fn end_text(&mut self, alloc: Global) -> Result<(), NoMemory>
        ensures parts { OnOk result
            (self.new.parts ≡ self.old.parts ++ text_part self.old.text.items) }
        ensures text { OnOk result (self.new.text.items ≡ []) }
    {
        if self.text.is_empty() {
            return Ok(());
        }
        let text = mem::replace(&mut self.text, Vec::new(alloc));
        self.parts.push(Part::Text(Octets::from_vec(text)))
    }

    /// Reads an expression in brackets, after the first of these, and answers what follows it.
    #[tactic(auto, using(crate::proofs::FormatSteps::value_of_text))]
    fn value<'a>(
        &mut self,
        known: &mut Knowledge,
        alloc: Global,
        line: u64,
        text: &'a [u8],
    ) -> Result<&'a [u8], SpellFault>
        ensures answers { ReadsOn (λ rest. rest.now) result known.new
            self.old.parts self.old.text.items self.new.parts self.new.text.items
            (λ next. value_part next line text.now known.old) }
        ensures shorter { IfOk result (λ rest. length rest.now ≤ length text.now) }
        ensures extends { Extends known.old known.new }
    {
        let ExprRead { expr, rest } = expr_of(known, alloc, line, Some(b']'), text)?;
        self.end_text(alloc)?;
        self.parts.push(Part::Value(expr))?;
        Ok(rest)
    }

    /// Reads what follows a `%`, and answers what follows that.
    #[tactic(auto, using(crate::proofs::FormatSteps::percent_read))]
    fn after_percent<'a>(
        &mut self,
        known: &mut Knowledge,
        alloc: Global,
        line: u64,
        text: &'a [u8],
    ) -> Result<&'a [u8], SpellFault>
        ensures answers { ReadsOn (λ rest. rest.now) result known.new
            self.old.parts self.old.text.items self.new.parts self.new.text.items
            (λ next. after_percent next line text.now known.old) }
        ensures shorter { IfOk result (λ rest. length rest.now ≤ length text.now) }
        ensures extends { Extends known.old known.new }
    {
        match text {
            [b'%', rest @ ..] => {
                self.push_byte(b'%')?;
                Ok(rest)
            }
            [b'[', rest @ ..] => self.value(known, alloc, line, rest),
            _ => Err(SpellFault::Code(BAD_FORMAT)),
        }
    }
}

/// The format that a word on this line writes. `%%` stands for `%`, and `%[` begins an expression,
/// which ends before the first `]` outside parentheses. The files of maps are references from then
/// on.
///
/// Code 15 where another byte follows a `%`, or none, and for an expression those of its calls.
/// HAProxy configuration manual 2.4, section 8.2.4.
#[tactic(auto, using(crate::proofs::FormatSteps::parts_of_text))]
pub fn format_of(
    known: &mut Knowledge,
    alloc: Global,
    line: u64,
    word: &[u8],
) -> Result<Format, SpellFault>
    ensures answers { ReadsAs result known.new (format_of line word.now known.old) }
    ensures extends { Extends known.old known.new }
{
    let mut read = Parts::new(alloc);
    let mut left = word;
    while let [byte, rest @ ..] = left {
        if *byte == b'%' {
            left = read.after_percent(known, alloc, line, rest)?;
        } else {
            read.push_byte(*byte)?;
            left = rest;
        }
    }
    read.end_text(alloc)?;
    Ok(read.parts)
}
