ghost use Rattle.std.specs.Prelude.{◌≡◌, [], ◌∷◌, ◌++◌, IfOk, IfSome, IfNone, OnOk, OnErr};
ghost use Rattle.hx_sample.specs.declared.sample.Value.TheVariants as value;
ghost use Rattle.hx_sample.specs.Cast.{cast_of};
ghost use Rattle.hx_sample.specs.Seen.{occurrence_value};

use crate::casting::read_as;
use crate::sample::{Bytes, Sample};
use hx_text::{Kind, NoMemory};
use std::alloc::Global;
use std::collections::VecDeque;
use std::marker::Model;

/// The occurrences that a fetch finds, each a sample or none, in their order. Contracts see them as
/// the list of their values.
///
/// A lone occurrence takes no memory, and each further text that is lent takes that of a slice, 16
/// bytes.
#[derive(Drop)]
pub struct Samples<'a> {
    first: Option<Option<Sample<'a>>>,
    texts: VecDeque<&'a [u8]>,
    kind: Kind,
    others: VecDeque<Option<Sample<'a>>>,
}

impl<'a> Model for Samples<'a> {
    ghost use Rattle.std.specs.Prelude.{List, Option};
    ghost use Rattle.hx_sample.specs.declared.sample.Value.{Value as Datum};
    ghost use Rattle.hx_sample.specs.Listed.{listed_occurrences};

    ghost Value = { List (Option Datum) };

    ghost view = { λ samples.
        listed_occurrences samples.first samples.kind samples.texts.items samples.others.items };
}

impl<'a> Samples<'a> {
    /// No occurrences. It takes no memory; those that are pushed later take it from `alloc`.
    pub fn new(alloc: Global) -> Samples<'a>
        ensures { result ≡ [] }
    {
        Samples {
            first: None,
            texts: VecDeque::new(alloc),
            kind: Kind::Any,
            others: VecDeque::new(alloc),
        }
    }

    /// One occurrence. It takes no memory; those that are pushed later take it from `alloc`.
    pub fn lone(alloc: Global, occurrence: Option<Sample<'a>>) -> Samples<'a>
        ensures { result ≡ occurrence_value occurrence.entry ∷ [] }
    {
        Samples {
            first: Some(occurrence),
            texts: VecDeque::new(alloc),
            kind: Kind::Any,
            others: VecDeque::new(alloc),
        }
    }

    /// No occurrences, with memory for `count` texts that are pushed as values of the kind `kind`.
    /// For one text it takes none.
    pub fn for_texts(alloc: Global, kind: Kind, count: usize) -> Result<Samples<'a>, NoMemory>
        ensures { IfOk result (λ samples. samples ≡ []) }
    {
        Ok(Samples {
            first: None,
            texts: VecDeque::with_capacity(alloc, count.saturating_sub(1))?,
            kind,
            others: VecDeque::new(alloc),
        })
    }

    /// Appends one occurrence. Where memory runs out the list stays as it was, and `occurrence` is
    /// dropped.
    pub fn push(&mut self, occurrence: Option<Sample<'a>>) -> Result<(), NoMemory>
        ensures ok { OnOk result (self.new ≡ self.old ++ occurrence_value occurrence.entry ∷ []) }
        ensures err { OnErr result (self.new ≡ self.old) }
    {
        if self.first.is_none() && self.texts.is_empty() && self.others.is_empty() {
            self.first = Some(occurrence);
            return Ok(());
        }
        self.others.push_back(occurrence)?;
        Ok(())
    }

    /// Appends the occurrence that a text is as a value of the kind `kind`: none where the text
    /// writes none. Where memory runs out the list stays as it was.
    pub fn push_text(&mut self, text: &'a [u8], kind: Kind) -> Result<(), NoMemory>
        ensures ok { OnOk result (self.new ≡ self.old ++ cast_of (value.Str text.now) kind ∷ []) }
        ensures err { OnErr result (self.new ≡ self.old) }
    {
        if self.first.is_some() && self.kind == kind && self.others.is_empty() {
            self.texts.push_back(text)?;
            return Ok(());
        }
        self.push(read_as(Bytes::Lent(text), kind))
    }

    /// Takes out the first occurrence, whether it is a sample or none. None exactly where there is
    /// no occurrence. The cost doesn't grow with the list.
    pub fn take(&mut self) -> Option<Option<Sample<'a>>>
        ensures some { IfSome result (λ occurrence.
            self.old ≡ occurrence_value occurrence ∷ self.new) }
        ensures none { IfNone result (self.old ≡ []) }
        ensures left { IfNone result (self.new ≡ []) }
    {
        if let Some(first) = self.first.take() {
            return Some(first);
        }
        if let Some(text) = self.texts.pop_front() {
            return Some(read_as(Bytes::Lent(text), self.kind));
        }
        self.others.pop_front()
    }
}
