//! Searches of references by their uses.

ghost use Rattle.std.specs.Prelude.{◌≡◌, ◌<◌, IfOk, length};
ghost use Rattle.hx_expr.specs.Values.{IsHeadBy};
ghost use Rattle.hx_sample.specs.Keys.{kind_by, IsOfKind};
ghost use Rattle.hx_sample.specs.Seen.{value_of};
ghost use Rattle.hx_sample.specs.Tables.{TakesValue};

use hx_cases_base::{CaseFault, address, show_pair, signed};
use hx_pool::Steps;
use hx_refs::Refs;
use hx_sample::{Bytes, Sample, Tables};
use hx_text::By;
use std::alloc::Global;
use std::marker::Brand;
use std::sync::ledger::{Blank, Ledger};

/// The sample that a text writes for a method: a number, an address, or the text itself.
fn sample_of<'a>(by: By, text: &'a [u8]) -> Result<Sample<'a>, CaseFault>
    ensures { IfOk result (λ sample. IsOfKind (kind_by by) (value_of sample)) }
{
    match by {
        By::Int => Ok(Sample::Int(signed(text)?)),
        By::Ip => Ok(Sample::Ip(address(text)?)),
        By::Bin => Ok(Sample::Bin(Bytes::Lent(text))),
        By::Found | By::Bool => Err(CaseFault::BadArguments),
        By::Len | By::Str | By::Beg | By::End | By::Sub | By::Dir | By::Dom | By::Reg => {
            Ok(Sample::Str(Bytes::Lent(text)))
        }
    }
}

/// Searches for a sample by a head, whose method takes it, and counts nothing. Writes the key and
/// the value of the entry that is found, or `none`, and answers its number.
fn find<L: Ledger>(
    alloc: Global,
    out: &mut String,
    refs: &Refs,
    head: u32,
    sample: &Sample<'_>,
    blank: Blank,
) -> Result<Option<u64>, CaseFault>
    requires head { head < length refs.now.content.heads }
    requires kind { TakesValue refs.now.content.heads head (value_of sample.now) }
    requires name { blank.name ≡ L.name }
    requires parts { blank.parts ≡ L.parts }
    requires some { 0 < L.parts }
{
    let mut steps = Steps::<L>::open(blank);
    match refs.find(alloc, head, sample, &mut steps) {
        Ok(Some(hit)) => {
            show_pair(out, hit.key, hit.value)?;
            Ok(Some(hit.number))
        }
        Ok(None) => {
            out.push_str("none")?;
            Ok(None)
        }
        Err(_) => Err(CaseFault::NoMemory),
    }
}

/// Searches for what a text writes for the method of a head.
fn find_by(
    alloc: Global,
    out: &mut String,
    refs: &Refs,
    by: By,
    head: u32,
    text: &[u8],
) -> Result<Option<u64>, CaseFault>
    requires { IsHeadBy refs.now.content.heads head by }
{
    let sample = sample_of(by, text)?;
    find::<Brand>(alloc, out, refs, head, &sample, Blank::new(1))
}

/// Searches for what a text writes for the method of the `k`-th use of a reference. Writes the key
/// and the value of the entry that is found, or `none`, and answers its number.
pub fn find_at(
    alloc: Global,
    out: &mut String,
    refs: &Refs,
    r: u32,
    k: u32,
    text: &[u8],
) -> Result<Option<u64>, CaseFault>
    requires { r < length refs.now.content.references }
{
    match refs.use_at(r, k) {
        Some((by, _, head)) => find_by(alloc, out, refs, by, head, text),
        None => Err(CaseFault::BadArguments),
    }
}
