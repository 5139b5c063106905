ghost use Rattle.std.specs.Prelude.{◌≡◌, [], IfOk, IfSome, IsOk, None, Some, false, true, option_map, option_and_then, unwrap_or};
ghost use Rattle.std.specs.Cmp.Lexicographic.{slice_cmp};
ghost use Rattle.std.specs.Ordering.{nat_cmp};
ghost use Rattle.hx_sample.specs.Cast.{is_printed};
ghost use Rattle.hx_sample.specs.Seen.{bytes_of, value_of, kept_bytes, occurrence_value, IsSameWhereBoth};
ghost use Rattle.hx_ast.specs.declared.conv.Conv.TheVariants as conv;
ghost use Rattle.hx_sample.specs.declared.sample.Value.TheVariants as value;
ghost use Rattle.hx_conv_text.specs.Building.{expression_text};
ghost use Rattle.hx_conv_text.specs.Built.{conv_of_text, conv_of_made, part_of, part_value};
ghost use Rattle.hx_conv_text.specs.Converters.{cast_content, content_of, converted_bytes, has_lent_bytes, is_lent, is_part_conv, var_text, AreInputWhereEqual};
ghost use Rattle.hx_conv_text.specs.Scanning.{bytes_at, LiesWithin};
ghost use Rattle.hx_conv_text.specs.Texts.{sign_of};

use crate::built::{Built, Made, Part};
use crate::cutting::cut;
use crate::joining::concat;
use crate::letters::{lower, upper};
use crate::pieces::{field, word};
use crate::substitution::regsub;
use crate::texts::{bytes, cut_crlf, given, ltrim, rtrim, strcmp};
use crate::url::url_dec;
use hx_sample::{Bytes, Sample, Vars, cast, lend};
use hx_text::{Kind, NoMemory, Octets, VarName};
use std::alloc::Global;

/// The bytes of the sample as one of a kind. None where it has no such cast.
pub(crate) fn content<'a>(
    alloc: Global,
    sample: Sample<'a>,
    kind: Kind,
) -> Result<Option<Bytes<'a>>, NoMemory>
    ensures value { IfOk result (λ content.
        option_map bytes_of content ≡ cast_content kind (value_of sample.entry)) }
    ensures free { has_lent_bytes sample.entry ≡ true → IsOk result }
    ensures lent { has_lent_bytes sample.entry ≡ true →
        IfOk result (λ content. IfSome content (λ bytes. is_lent bytes ≡ true)) }
    ensures kept { IfOk result (λ content. IfSome content (λ bytes.
        IsSameWhereBoth (kept_bytes sample.entry) (Some bytes))) }
    ensures not_printed { is_printed (value_of sample.entry) kind ≡ false → IsOk result }
{
    match (sample, kind) {
        (Sample::Str(text), Kind::Str) => Ok(Some(text)),
        (sample, kind) => cast_bytes(alloc, sample, kind),
    }
}

/// The bytes of the sample where it may have to be cast. This is no part of `content`, so that a
/// string costs no call.
#[inline(never)]
fn cast_bytes<'a>(
    alloc: Global,
    sample: Sample<'a>,
    kind: Kind,
) -> Result<Option<Bytes<'a>>, NoMemory>
    ensures value { IfOk result (λ content.
        option_map bytes_of content ≡ cast_content kind (value_of sample.entry)) }
    ensures free { has_lent_bytes sample.entry ≡ true → IsOk result }
    ensures lent { has_lent_bytes sample.entry ≡ true →
        IfOk result (λ content. IfSome content (λ bytes. is_lent bytes ≡ true)) }
    ensures kept { IfOk result (λ content. IfSome content (λ bytes.
        IsSameWhereBoth (kept_bytes sample.entry) (Some bytes))) }
    ensures not_printed { is_printed (value_of sample.entry) kind ≡ false → IsOk result }
{
    let Some(sample) = cast(alloc, sample, kind)? else {
        return Ok(None);
    };
    match sample {
        Sample::Str(bytes) => Ok(Some(bytes)),
        Sample::Bin(bytes) => Ok(Some(bytes)),
        Sample::Method(bytes) => Ok(Some(bytes)),
        Sample::Bool(_) => Ok(None),
        Sample::Int(_) => Ok(None),
        Sample::Ip(_) => Ok(None),
    }
}

/// The text of a variable. None where it is unset.
fn var_text<'v>(
    alloc: Global,
    vars: &'v Vars,
    conn: u32,
    name: &VarName,
) -> Result<Option<Bytes<'v>>, NoMemory>
    ensures value { IfOk result (λ text.
        option_map bytes_of text ≡ var_text vars.now conn name.now) }
    ensures free { unwrap_or (var_text vars.now conn name.now) [] ≡ [] → IsOk result }
{
    match vars.get(conn, name) {
        Some(value) => content(alloc, lend(value), Kind::Str),
        None => Ok(None),
    }
}

impl Part {
    /// Where the part of the bytes lies.
    fn span(&self, text: &[u8]) -> Option<(usize, usize)>
        ensures value { option_map (bytes_at text.now) result ≡ part_of self.now text.now }
        ensures within { IfSome result (LiesWithin text.now) }
    {
        match self {
            Part::Field(index, delims, count) => field(*index, delims.as_slice(), *count, text),
            Part::Word(index, delims, count) => word(*index, delims.as_slice(), *count, text),
            Part::Bytes(offset, len) => Some(bytes(*offset, *len, text)),
            Part::Ltrim(chars) => Some(ltrim(chars.as_slice(), text)),
            Part::Rtrim(chars) => Some(rtrim(chars.as_slice(), text)),
            Part::CutCrlf => Some(cut_crlf(text)),
        }
    }

    fn sample<'a>(&self, part: Bytes<'a>) -> Sample<'a>
        ensures value { value_of result ≡ part_value self.now (bytes_of part.entry) }
        ensures bytes { kept_bytes result ≡ Some part.entry }
    {
        match self {
            Part::Bytes(_, _) => Sample::Bin(part),
            Part::Field(_, _, _) => Sample::Str(part),
            Part::Word(_, _, _) => Sample::Str(part),
            Part::Ltrim(_) => Sample::Str(part),
            Part::Rtrim(_) => Sample::Str(part),
            Part::CutCrlf => Sample::Str(part),
        }
    }

    /// The part of the bytes as a sample. Lent bytes stay where they are, and owned ones keep their
    /// memory.
    fn apply<'a>(&self, text: Bytes<'a>) -> Option<Sample<'a>>
        ensures value { occurrence_value result
            ≡ option_map (part_value self.now) (part_of self.now (bytes_of text.entry)) }
        ensures lent { is_lent text.entry ≡ true →
            IfSome result (λ s. has_lent_bytes s ≡ true) }
    {
        match self.span(text.as_slice()) {
            Some(span) => Some(self.sample(cut(text, span))),
            None => None,
        }
    }
}

/// The text of a variable, if one is named.
fn named_text<'v>(
    alloc: Global,
    vars: &'v Vars,
    conn: u32,
    name: &Option<VarName>,
) -> Result<Option<Bytes<'v>>, NoMemory>
    ensures value { IfOk result (λ text.
        option_map bytes_of text ≡ option_and_then (var_text vars.now conn) name.now) }
    ensures free { unwrap_or (option_and_then (var_text vars.now conn) name.now) [] ≡ []
        → IsOk result }
{
    match name {
        Some(name) => var_text(alloc, vars, conn, name),
        None => Ok(None),
    }
}

/// The text, or nothing.
fn given_text<'a>(text: &'a Option<Bytes<'_>>) -> &'a [u8]
    ensures { result.now ≡ unwrap_or (option_map bytes_of text.now) [] }
{
    match text {
        Some(text) => text.as_slice(),
        None => &[],
    }
}

/// The text, and then START, the text of the variable and END, each if it is there.
fn concat_of<'a>(
    alloc: Global,
    text: Bytes<'a>,
    start: &Option<Octets>,
    name: &Option<VarName>,
    end: &Option<Octets>,
    conn: u32,
    vars: &Vars,
) -> Result<Bytes<'a>, NoMemory>
    ensures value { IfOk result (λ made. Some (value.Str (bytes_of made)) ≡ converted_bytes
        (conv.Concat start.now name.now end.now) conn vars.now (bytes_of text.entry)) }
    ensures kept { IfOk result (AreInputWhereEqual text.entry) }
    ensures free { converted_bytes (conv.Concat start.now name.now end.now) conn vars.now
        (bytes_of text.entry) ≡ Some (value.Str (bytes_of text.entry)) → IsOk result }
{
    let value = named_text(alloc, vars, conn, name)?;
    concat(alloc, text, given(start), given_text(&value), given(end))
}

impl Made {
    /// The text that the converter makes of one. One that stays as it is stays lent or owned, and
    /// memory is then taken for the search of an expression alone.
    fn made<'a>(
        &self,
        alloc: Global,
        text: Bytes<'a>,
        conn: u32,
        vars: &Vars,
    ) -> Result<Option<Bytes<'a>>, NoMemory>
        ensures value { IfOk result (λ made. option_map (λ bytes. value.Str (bytes_of bytes)) made
            ≡ converted_bytes (conv_of_made self.now) conn vars.now (bytes_of text.entry)) }
        ensures kept { IfOk result (λ made. IfSome made (AreInputWhereEqual text.entry)) }
        ensures free { expression_text (conv_of_made self.now) ≡ None
            → converted_bytes (conv_of_made self.now) conn vars.now (bytes_of text.entry)
            ≡ Some (value.Str (bytes_of text.entry)) → IsOk result }
    {
        match self {
            Made::Lower => Ok(Some(lower(alloc, text)?)),
            Made::Upper => Ok(Some(upper(alloc, text)?)),
            Made::Concat(start, name, end) => {
                Ok(Some(concat_of(alloc, text, start, name, end, conn, vars)?))
            }
            Made::Regsub(re, sub, each) => {
                Ok(Some(regsub(alloc, re, sub.as_slice(), *each, text)?))
            }
            Made::UrlDec(form) => url_dec(alloc, *form, text),
        }
    }
}

/// How the text compares with the variable. None where it is unset.
fn compared(
    alloc: Global,
    text: &[u8],
    name: &VarName,
    conn: u32,
    vars: &Vars,
) -> Result<Option<i64>, NoMemory>
    ensures { IfOk result (λ n. n ≡ option_map (λ other. sign_of (slice_cmp nat_cmp text.now other))
        (var_text vars.now conn name.now)) }
{
    match var_text(alloc, vars, conn, name)? {
        Some(other) => Ok(Some(strcmp(text, other.as_slice()))),
        None => Ok(None),
    }
}

impl Built {
    /// What the converter makes of the bytes of its input.
    pub(crate) fn converted<'a>(
        &self,
        alloc: Global,
        text: Bytes<'a>,
        conn: u32,
        vars: &Vars,
    ) -> Result<Option<Sample<'a>>, NoMemory>
        ensures value { IfOk result (λ sample. occurrence_value sample
            ≡ converted_bytes (conv_of_text self.now) conn vars.now (bytes_of text.entry)) }
        ensures free { is_part_conv (conv_of_text self.now) ≡ true → IsOk result }
        ensures lent { is_part_conv (conv_of_text self.now) ≡ true → is_lent text.entry ≡ true →
            IfOk result (λ made. IfSome made (λ s. has_lent_bytes s ≡ true)) }
        ensures same { is_lent text.entry ≡ true → IfOk result (λ made. IfSome made (λ s.
            content_of (value_of s) ≡ Some (bytes_of text.entry) → has_lent_bytes s ≡ true)) }
        ensures same_free { expression_text (conv_of_text self.now) ≡ None
            → option_and_then content_of
            (converted_bytes (conv_of_text self.now) conn vars.now (bytes_of text.entry))
            ≡ Some (bytes_of text.entry) → IsOk result }
    {
        match self {
            Built::Length => Ok(Some(Sample::Int(text.as_slice().len() as i64))),
            Built::Strcmp(name) => {
                let sign = compared(alloc, text.as_slice(), name, conn, vars)?;
                Ok(sign.map(|n| Sample::Int(n)))
            }
            Built::Part(part) => Ok(part.apply(text)),
            Built::Made(made) => match made.made(alloc, text, conn, vars)? {
                Some(made) => Ok(Some(Sample::Str(made))),
                None => Ok(None),
            },
        }
    }
}
