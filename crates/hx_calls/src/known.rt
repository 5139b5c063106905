ghost use Rattle.std.specs.Prelude.{◌≡◌, ◌==◌, map, [], Some, None, false, IfOk, OnOk, OnErr};
ghost use Rattle.std.specs.List.{list_any, position};
ghost use Rattle.std.specs.Str.{bytes_eq};
ghost use Rattle.hx_ast.specs.Predefined.{predefined_names};
ghost use Rattle.hx_calls.specs.Known.{nothing_known, is_known_acl, is_of_file, is_head, is_output};
ghost use Rattle.hx_calls.specs.Known.{output_number};
ghost use Rattle.hx_calls.specs.Known.{with_file, with_reference, with_head};
ghost use Rattle.hx_calls.specs.Known.{with_output, with_acl, with_name, after_statement};
ghost use Rattle.hx_calls.specs.Known.{with_fallback, with_named, with_named_file};
ghost use Rattle.hx_calls.specs.KnownView.{form_of};
ghost use Rattle.hx_calls.specs.Known.{lengths_of, has_columns, reference_form, ReadsAs, Extends, Known};
ghost use Rattle.hx_calls.specs.TableSpecs.{reference_specs};

use crate::fault::{FILE_KIND, SpellFault, TOO_MANY_REFERENCES};
use crate::table_specs::{HeadSpec, MapOutput, TableSpec, TableSpecs};
use hx_ast::{Items, Texts};
use hx_text::{NoMemory, Octets, Out};
use std::alloc::Global;
use std::marker::Model;

/// The most references that a configuration may have.
const MOST_REFERENCES: usize = 65_536;

/// The ACLs that are known on every line (HAProxy configuration manual 2.4, section 7.4).
const PREDEFINED: [&[u8]; 15] = [
    b"TRUE",
    b"FALSE",
    b"HTTP_1.0",
    b"HTTP_1.1",
    b"HTTP_URL_SLASH",
    b"HTTP_URL_STAR",
    b"LOCALHOST",
    b"METH_GET",
    b"METH_HEAD",
    b"METH_POST",
    b"METH_PUT",
    b"METH_DELETE",
    b"METH_OPTIONS",
    b"METH_CONNECT",
    b"METH_TRACE",
];

/// How much is known of what a line may bring.
#[derive(Clone, Copy)]
pub struct Lengths {
    references: usize,
    heads: usize,
    outputs: usize,
    acls: usize,
    named: usize,
}

/// What the lines so far bring. Contracts see it as `Known`.
pub struct Knowledge {
    alloc: Global,
    references: Vec<TableSpec>,
    heads: Vec<HeadSpec>,
    outputs: Vec<MapOutput>,
    acls: Vec<u32>,
    named: Vec<u32>,
    names: Vec<Octets>,
    begun: bool,
    fallback: bool,
}

// Written out, so that letting one go is one call in the proofs of callers.
impl Drop for Knowledge {
    fn drop(self) {
        let Knowledge {
            alloc: _alloc,
            references: _references,
            heads: _heads,
            outputs: _outputs,
            acls: _acls,
            named: _named,
            names: _names,
            begun: _begun,
            fallback: _fallback,
        } = self;
    }
}

impl Model for Knowledge {
    ghost use Rattle.std.specs.Prelude.{map};
    ghost use Rattle.hx_calls.specs.Known.{Known};
    ghost use Rattle.hx_calls.specs.KnownView.{form_of};

    ghost Value = { Known };

    ghost view = { λ k. record {
      references = map form_of k.references.items;
      heads = k.heads.items;
      outputs = k.outputs.items;
      acls = k.acls.items;
      named = k.named.items;
      names = k.names.items;
      begun = k.begun;
      fallback = k.fallback;
    } };
}

/// A reference of which isn't noted yet what it is used for.
fn spec(
    file: Option<Octets>,
    given: Option<u32>,
    two_column: bool,
    line: u64,
    inline: Texts,
) -> TableSpec
    ensures { form_of result ≡ record {
      file = file;
      given = given;
      two_column = two_column;
      line = line;
      words = inline;
    } }
{
    TableSpec {
        file,
        given,
        two_column,
        acl: false,
        named: false,
        line,
        out_str: false,
        out_int: false,
        out_ip: false,
        inline,
    }
}

/// Whether it is a reference of the file `name`.
fn is_of_file(reference: &TableSpec, name: &[u8]) -> bool
    ensures { result ≡ is_of_file name.now (form_of reference.now) }
{
    match &reference.file {
        Some(file) => name == file.as_slice(),
        None => false,
    }
}

/// The position of the first reference of the file `name`.
fn position_of_file(references: &[TableSpec], name: &[u8]) -> Option<usize>
    ensures { result ≡ position (λ spec. is_of_file name.now (form_of spec)) references.now }
{
    references
        .iter()
        .position(|reference| is_of_file(reference, name))
}

/// A position as it stands in a statement. More of them than a `u32` counts fit in no memory.
fn number(place: usize) -> Result<u32, NoMemory>
    ensures { IfOk result (λ n. n ≡ place) }
{
    match u32::try_from(place) {
        Ok(number) => Ok(number),
        Err(_) => Err(NoMemory),
    }
}

/// A number for each type of values.
pub(crate) fn output_number(out: Out) -> u8
    ensures { result ≡ output_number out }
{
    match out {
        Out::Str => 0,
        Out::Int => 1,
        Out::Ip => 2,
    }
}

fn is_head(head: &HeadSpec, other: &HeadSpec) -> bool
    ensures { result ≡ is_head head.now other.now }
{
    other.table == head.table && other.by.number() == head.by.number() && other.ci == head.ci
}

fn is_output(output: &MapOutput, other: &MapOutput) -> bool
    ensures { result ≡ is_output output.now other.now }
{
    other.table == output.table && output_number(other.out) == output_number(output.out)
}

/// Whether one of the names is this one.
fn is_among(names: &[Octets], name: &[u8]) -> bool
    ensures { result ≡ list_any (bytes_eq name.now) names.now }
{
    names.iter().any(|other| name == other.as_slice())
}

/// Whether one of the constants is this name.
fn is_constant(mut names: &[&[u8]], name: &[u8]) -> bool
    ensures { result ≡ list_any (bytes_eq name.now) (map (λ other. other.now) names.entry.now) }
{
    while let [other, rest @ ..] = names {
        if name == *other {
            return true;
        }
        names = rest;
    }
    false
}

#[tactic(auto, unfolding(hx_ast::specs::Predefined::predefined_acls))]
fn is_predefined(name: &[u8]) -> bool
    ensures { result ≡ list_any (bytes_eq name.now) predefined_names }
{
    is_constant(&PREDEFINED, name)
}

impl Knowledge {
    /// What is known before the first line.
    pub fn new(alloc: Global) -> Knowledge
        ensures { result ≡ nothing_known }
    {
        Knowledge {
            alloc,
            references: Vec::new(alloc),
            heads: Vec::new(alloc),
            outputs: Vec::new(alloc),
            acls: Vec::new(alloc),
            named: Vec::new(alloc),
            names: Vec::new(alloc),
            begun: false,
            fallback: false,
        }
    }

    /// Whether there was a statement.
    pub fn has_begun(&self) -> bool
        ensures { result ≡ self.now.begun }
    {
        self.begun
    }

    /// Whether there was `default_backend`.
    pub fn has_fallback(&self) -> bool
        ensures { result ≡ self.now.fallback }
    {
        self.fallback
    }

    /// Whether an ACL of this name is declared on a line so far, or predefined.
    pub fn is_known_acl(&self, name: &[u8]) -> bool
        ensures { result ≡ is_known_acl self.now name.now }
    {
        is_among(&self.names, name) || is_predefined(name)
    }

    fn file_position(&self, name: &[u8]) -> Option<usize>
        ensures { result ≡ position (is_of_file name.now) self.now.references }
    {
        position_of_file(&self.references, name)
    }

    fn head_position(&self, head: &HeadSpec) -> Option<usize>
        ensures { result ≡ position (is_head head.now) self.now.heads }
    {
        self.heads.iter().position(|other| is_head(head, other))
    }

    fn has_output(&self, output: &MapOutput) -> bool
        ensures { result ≡ list_any (is_output output.now) self.now.outputs }
    {
        self.outputs.iter().any(|other| is_output(output, other))
    }

    fn has_acl(&self, table: u32) -> bool
        ensures { result ≡ list_any (λ other. other == table) self.now.acls }
    {
        self.acls.iter().any(|other| *other == table)
    }

    fn is_named(&self, table: u32) -> bool
        ensures { result ≡ list_any (λ other. other == table) self.now.named }
    {
        self.named.iter().any(|other| *other == table)
    }

    /// Whether the reference at this position is used with two columns, or with one.
    fn has_columns(&self, place: usize, two: bool) -> bool
        ensures { result ≡ has_columns self.now place two }
    {
        match self.references.get(place) {
            Some(reference) => reference.two_column == two,
            None => false,
        }
    }

    /// The position of a new reference. Code 23 where it is one too many.
    fn reference(&mut self, spec: TableSpec) -> Result<u32, SpellFault>
        ensures answers { ReadsAs result self.new (with_reference (form_of spec) self.old) }
        ensures extends { Extends self.old self.new }
    {
        let place = self.references.len();
        if place >= MOST_REFERENCES {
            return Err(SpellFault::Code(TOO_MANY_REFERENCES));
        }
        match self.references.push(spec) {
            Ok(()) => Ok(place as u32),
            Err(_) => Err(SpellFault::NoMemory),
        }
    }

    /// The position of the reference of the file `name`, used on this line with two columns or one.
    ///
    /// Code 17 where the file is used with another number of columns, and 23 where it is one
    /// reference too many.
    pub fn file(&mut self, line: u64, name: &[u8], two: bool) -> Result<u32, SpellFault>
        ensures answers { ReadsAs result self.new (with_file line name.now two self.old) }
        ensures extends { Extends self.old self.new }
    {
        let Some(place) = self.file_position(name) else {
            return self.new_file(line, name, two);
        };
        if self.has_columns(place, two) {
            Ok(number(place)?)
        } else {
            Err(SpellFault::Code(FILE_KIND))
        }
    }

    /// The position of a new reference of a file. Code 23 where it is one too many.
    fn new_file(&mut self, line: u64, name: &[u8], two: bool) -> Result<u32, SpellFault>
        ensures answers { ReadsAs result self.new
            (with_reference (reference_form (Some name.now) None two line []) self.old) }
        ensures extends { Extends self.old self.new }
    {
        let file = Some(Octets::copy(self.alloc, name)?);
        let inline = Items::new(self.alloc);
        self.reference(spec(file, None, two, line, inline))
    }

    /// The position of a new reference of inline patterns, whose number is given or not. Code 23
    /// where it is one too many.
    pub fn inline(&mut self, line: u64, given: Option<u32>, keys: Texts) -> Result<u32, SpellFault>
        ensures answers { ReadsAs result self.new
            (with_reference (reference_form None given false line keys) self.old) }
        ensures extends { Extends self.old self.new }
    {
        self.reference(spec(None, given, false, line, keys))
    }

    /// The number of a head.
    pub fn head(&mut self, head: HeadSpec) -> Result<u32, NoMemory>
        ensures number { IfOk result (λ n. with_head head self.old
            ≡ record { value = n; known = self.new }) }
        ensures extends { Extends self.old self.new }
    {
        if let Some(place) = self.head_position(&head) {
            return number(place);
        }
        let place = number(self.heads.len())?;
        self.heads.push(head)?;
        Ok(place)
    }

    /// The values of a reference are read as a type.
    pub(crate) fn output(&mut self, output: MapOutput) -> Result<(), NoMemory>
        ensures known { IfOk result (λ _. self.new ≡ with_output output self.old) }
        ensures extends { Extends self.old self.new }
    {
        if !self.has_output(&output) {
            self.outputs.push(output)?;
        }
        Ok(())
    }

    /// An ACL searches a reference.
    pub fn acl(&mut self, table: u32) -> Result<(), NoMemory>
        ensures known { IfOk result (λ _. self.new ≡ with_acl table self.old) }
        ensures extends { Extends self.old self.new }
    {
        if !self.has_acl(table) {
            self.acls.push(table)?;
        }
        Ok(())
    }

    /// A `-f` or a map converter names the file of a reference.
    fn note_named(&mut self, table: u32) -> Result<(), NoMemory>
        ensures known { IfOk result (λ _. self.new ≡ with_named table self.old) }
        ensures extends { Extends self.old self.new }
    {
        if !self.is_named(table) {
            self.named.push(table)?;
        }
        Ok(())
    }

    /// The position of the reference of the file `name`, which `-f` or a map converter names on
    /// this line. Refusals are those of `file`.
    pub fn named_file(&mut self, line: u64, name: &[u8], two: bool) -> Result<u32, SpellFault>
        ensures answers { ReadsAs result self.new (with_named_file line name.now two self.old) }
        ensures extends { Extends self.old self.new }
    {
        let table = self.file(line, name, two)?;
        self.note_named(table)?;
        Ok(table)
    }

    /// An ACL of this name is declared. Where memory runs out, none is.
    pub fn name(&mut self, name: &[u8]) -> Result<(), NoMemory>
        ensures ok { OnOk result (self.new ≡ with_name name.now self.old) }
        ensures err { OnErr result (self.new ≡ self.old) }
    {
        let name = Octets::copy(self.alloc, name)?;
        self.names.push(name)?;
        Ok(())
    }

    /// There was a statement.
    pub fn begin(&mut self)
        ensures { self.new ≡ after_statement self.old }
    {
        self.begun = true;
    }

    /// There was `default_backend`.
    pub fn note_fallback(&mut self)
        ensures { self.new ≡ with_fallback self.old }
    {
        self.fallback = true;
    }

    /// How much is known, for `shorten`.
    pub fn lengths(&self) -> Lengths
        ensures { result ≡ lengths_of self.now }
    {
        Lengths {
            references: self.references.len(),
            heads: self.heads.len(),
            outputs: self.outputs.len(),
            acls: self.acls.len(),
            named: self.named.len(),
        }
    }

    /// What was known before it was extended, which these are the lengths of.
    #[tactic(auto, using(crate::proofs::TableSpecLemmas::take_forms))]
    pub fn shorten(&mut self, lengths: Lengths)
        ensures { (before : Known) → lengths ≡ lengths_of before → Extends before self.old
            → self.new ≡ before }
    {
        self.references.truncate(lengths.references);
        self.heads.truncate(lengths.heads);
        self.outputs.truncate(lengths.outputs);
        self.acls.truncate(lengths.acls);
        self.named.truncate(lengths.named);
    }

    /// The references, each with what it is used for, and the heads. It takes no memory.
    pub fn into_tables(self) -> TableSpecs
        ensures { result ≡ reference_specs self }
    {
        let Knowledge {
            alloc: _alloc,
            references,
            heads,
            outputs,
            acls,
            named,
            names: _names,
            begun: _begun,
            fallback: _fallback,
        } = self;
        TableSpecs::new(references, heads, &acls, &named, &outputs)
    }
}
