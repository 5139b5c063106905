ghost use Rattle.std.specs.Prelude.{◌≡◌, length, map, slice_get};
ghost use Rattle.std.specs.Option.{option_copied};
ghost use Rattle.hx_calls.specs.KnownView.{form_of, is_listed, is_typed, spec_of, specs_from};

use crate::known::output_number;
use hx_ast::Texts;
use hx_text::{By, Octets, Out};
use std::marker::Model;

/// A reference: a file, whose entries are patterns or pairs, or the inline patterns of an ACL
/// (HAProxy management guide 2.4, section 9.3, `show acl` and `show map`).
pub struct TableSpec {
    /// the name of the file; none for inline patterns
    pub file: Option<Octets>,
    /// the number that `-u` gives it
    pub given: Option<u32>,
    /// whether its entries have keys and values
    pub two_column: bool,
    /// whether an ACL searches it
    pub acl: bool,
    /// whether a `-f` or a map names it
    pub named: bool,
    /// the line of its first appearance
    pub line: u64,
    /// whether its values are read as strings
    pub out_str: bool,
    /// whether its values are read as integers
    pub out_int: bool,
    /// whether its values are read as addresses
    pub out_ip: bool,
    /// the inline patterns; none for a file
    pub inline: Texts,
}

// Written out, so that letting one go is one call in the proofs of callers.
impl Drop for TableSpec {
    fn drop(self) {
        let TableSpec {
            file: _file,
            given: _given,
            two_column: _two_column,
            acl: _acl,
            named: _named,
            line: _line,
            out_str: _out_str,
            out_int: _out_int,
            out_ip: _out_ip,
            inline: _inline,
        } = self;
    }
}

/// How a reference is searched: the position of the reference, the match method, and whether the
/// case of letters is ignored.
#[derive(Clone, Copy)]
pub struct HeadSpec {
    /// the position of the reference
    pub table: u32,
    /// the match method
    pub by: By,
    /// whether the case of letters is ignored
    pub ci: bool,
}

/// The values of a reference are read as a type.
#[derive(Clone, Copy)]
pub struct MapOutput {
    /// the position of the reference
    pub table: u32,
    /// the type of its values
    pub out: Out,
}

/// The references and the heads of a configuration, in the order of their first appearance.
/// Contracts see them as two lists.
pub struct TableSpecs {
    specs: Vec<TableSpec>,
    heads: Vec<HeadSpec>,
}

// Written out, so that letting one go is one call in the proofs of callers.
impl Drop for TableSpecs {
    fn drop(self) {
        let TableSpecs {
            specs: _specs,
            heads: _heads,
        } = self;
    }
}

impl Model for TableSpecs {
    ghost use Rattle.hx_calls.specs.TableSpecs.{ReferenceSpecs};

    ghost Value = { ReferenceSpecs };

    ghost view = { λ tables. record { specs = tables.specs.items; heads = tables.heads.items } };
}

impl TableSpecs {
    /// The references, each with what it is used for: by ACLs those of `acls`, and with values of a
    /// type those of `outputs`; `-f` or a map converter names those of `named`. It takes no memory.
    pub(crate) fn new(
        specs: Vec<TableSpec>,
        heads: Vec<HeadSpec>,
        acls: &[u32],
        named: &[u32],
        outputs: &[MapOutput],
    ) -> TableSpecs
        ensures { result ≡ record {
          specs = specs_from acls.now named.now outputs.now 0 (map form_of specs.items);
          heads = heads.items;
        } }
    {
        let mut specs = specs;
        note_uses(&mut specs, acls, named, outputs);
        TableSpecs { specs, heads }
    }

    /// How many references there are.
    pub fn len(&self) -> usize
        ensures { result ≡ length self.now.specs }
    {
        self.specs.len()
    }

    /// The reference at position `i`, counted from 0; `None` exactly where `i` isn't below `len`.
    pub fn spec(&self, i: usize) -> Option<&TableSpec>
        ensures { option_copied result ≡ slice_get self.now.specs i }
    {
        self.specs.get(i)
    }

    /// The references, in their order.
    pub fn as_slice(&self) -> &[TableSpec]
        ensures { result.now ≡ self.now.specs }
    {
        self.specs.as_slice()
    }

    /// How many heads there are.
    pub fn heads(&self) -> usize
        ensures { result ≡ length self.now.heads }
    {
        self.heads.len()
    }

    /// The head of this number, counted from 0; `None` exactly where it isn't below `heads`.
    pub fn head(&self, h: usize) -> Option<HeadSpec>
        ensures { result ≡ slice_get self.now.heads h }
    {
        self.heads.get(h).copied()
    }

    /// The heads, in the order of their numbers.
    pub fn heads_as_slice(&self) -> &[HeadSpec]
        ensures { result.now ≡ self.now.heads }
    {
        self.heads.as_slice()
    }
}

/// Whether the reference at this position is one of these.
fn is_listed(tables: &[u32], place: usize) -> bool
    ensures { result ≡ is_listed tables.now place }
{
    tables.iter().any(|table| *table as usize == place)
}

/// Whether the values of the reference at this position are read as this type.
fn is_typed(outputs: &[MapOutput], place: usize, out: Out) -> bool
    ensures { result ≡ is_typed outputs.now place out }
{
    let number = output_number(out);
    outputs.iter().any(|other| other.table as usize == place && output_number(other.out) == number)
}

/// Notes what the reference at this position is used for.
fn note_use(spec: &mut TableSpec, place: usize, acls: &[u32], named: &[u32], outputs: &[MapOutput])
    ensures { spec.new ≡ spec_of acls.now named.now outputs.now place (form_of spec.old) }
{
    spec.acl = is_listed(acls, place);
    spec.named = is_listed(named, place);
    spec.out_str = is_typed(outputs, place, Out::Str);
    spec.out_int = is_typed(outputs, place, Out::Int);
    spec.out_ip = is_typed(outputs, place, Out::Ip);
}

/// Notes what each reference is used for.
fn note_uses(specs: &mut [TableSpec], acls: &[u32], named: &[u32], outputs: &[MapOutput])
    ensures { specs.new ≡ specs_from acls.now named.now outputs.now 0 (map form_of specs.old) }
{
    for place in 0..specs.len() {
        note_use(&mut specs[place], place, acls, named, outputs);
    }
}
