//! Calls on references whose answers, with all that they leave, are written as a sum.

ghost use Rattle.std.specs.Prelude.{◌<◌, length};

use crate::descriptions::references;
use crate::steps::{show_entries, show_info, show_slots, step};
use hx_cases_base::{CaseFault, id};
use hx_refs::Refs;
use std::alloc::Global;
use std::fmt::Write;

/// Writes what is told of a reference, the entries of all its versions, and the slots in use.
fn show_left(out: &mut String, refs: &Refs, r: u32) -> Result<(), CaseFault>
    requires { r < length refs.now.content.references }
{
    show_info(out, refs, r)?;
    let info = refs.info(r);
    for distance in 0..=info.next.wrapping_sub(info.curr) {
        let ver = info.curr.wrapping_add(distance);
        show_entries(out, ver, refs.entries(r, Some(ver)))?;
    }
    show_slots(out, refs)
}

/// Makes a step, and writes what it answers and what it leaves of its reference.
fn step_and_left(
    alloc: Global,
    out: &mut String,
    refs: &mut Refs,
    r: u32,
    text: &[u8],
) -> Result<(), CaseFault> {
    step(alloc, out, refs, r, text)?;
    if r >= refs.len() {
        return Err(CaseFault::BadArguments);
    }
    show_left(out, refs, r)
}

/// The sum of what was summed up before and of a text: FNV-1a of 64 bits.
fn sum_with(before: u64, text: &[u8]) -> u64 {
    let mut sum = before;
    for byte in text {
        sum = (sum ^ u64::from(*byte)).wrapping_mul(0x100_0000_01b3);
    }
    sum
}

/// `sums LIMITS REFERENCES STEP ..`: a sum of what each step on references answers, which are given
/// as for `references`, of the entries of all versions of its reference then, and of what is told
/// of this and of slots. After each step are two digits of the sum so far, and at the end the whole
/// sum.
pub fn sums_case(alloc: Global, out: &mut String, args: &[Vec<u8>]) -> Result<(), CaseFault> {
    let [most, described, steps @ ..] = args else {
        return Err(CaseFault::BadArguments);
    };
    let mut refs = references(alloc, most.as_slice(), described.as_slice())?;
    let mut r = 0;
    let mut sum = 0xcbf2_9ce4_8422_2325u64;
    for text in steps {
        match text.as_slice() {
            [b'a', b't', b'@', position @ ..] => r = id(position)?,
            text => {
                let mut answer = String::new(alloc);
                step_and_left(alloc, &mut answer, &mut refs, r, text)?;
                sum = sum_with(sum, answer.as_bytes());
                let digits = sum >> 56;
                write!(out, "{digits:02x}")?
            }
        }
    }
    Ok(write!(out, " {sum:016x}")?)
}
