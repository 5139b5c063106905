//! Calls of hx_sample, and of hx_ast's lists.

use hx_ast::Items;
use hx_cases_base::{CaseFault, kind, number, occurrence, sample, show_all, show_occurrence};
use hx_sample::{Samples, cast, lend, own};
use std::alloc::Global;
use std::fmt::Write;

/// `cast SAMPLE KIND`, of a sample whose bytes are lent
pub fn cast_case(alloc: Global, out: &mut String, args: &[Vec<u8>]) -> Result<(), CaseFault> {
    let [text, to] = args else {
        return Err(CaseFault::BadArguments);
    };
    let given = sample(text.as_slice())?;
    let given = cast(alloc, given, kind(to.as_slice())?)?;
    show_occurrence(out, &given)
}

/// `own SAMPLE`: the sample, owned and lent again.
pub fn own_case(alloc: Global, out: &mut String, args: &[Vec<u8>]) -> Result<(), CaseFault> {
    let [text] = args else {
        return Err(CaseFault::BadArguments);
    };
    let value = own(alloc, &sample(text.as_slice())?)?;
    show_occurrence(out, &Some(lend(&value)))
}

/// `same SAMPLE SAMPLE`: whether both are the same value, once owned.
pub fn same_case(alloc: Global, out: &mut String, args: &[Vec<u8>]) -> Result<(), CaseFault> {
    let [left, right] = args else {
        return Err(CaseFault::BadArguments);
    };
    let left = own(alloc, &sample(left.as_slice())?)?;
    let right = own(alloc, &sample(right.as_slice())?)?;
    Ok(write!(out, "{}", left == right)?)
}

/// `samples SAMPLE ..`: the samples, pushed and taken until none is left.
pub fn samples_case(alloc: Global, out: &mut String, args: &[Vec<u8>]) -> Result<(), CaseFault> {
    let mut samples = Samples::new(alloc);
    for text in args {
        samples.push(occurrence(text.as_slice())?)?;
    }
    show_all(out, samples, args.len())
}

/// `sample_texts KIND TEXT ..`: the texts, pushed as values of that kind and taken until none is
/// left.
pub fn sample_texts_case(
    alloc: Global,
    out: &mut String,
    args: &[Vec<u8>],
) -> Result<(), CaseFault> {
    let [to, texts @ ..] = args else {
        return Err(CaseFault::BadArguments);
    };
    let to = kind(to.as_slice())?;
    let mut samples = Samples::for_texts(alloc, to, texts.len())?;
    for text in texts {
        samples.push_text(text.as_slice(), to)?;
    }
    show_all(out, samples, texts.len())
}

/// `lone SAMPLE SAMPLE ..`: the first sample as a list, with the others pushed, taken until none is
/// left.
pub fn lone_case(alloc: Global, out: &mut String, args: &[Vec<u8>]) -> Result<(), CaseFault> {
    let [first, others @ ..] = args else {
        return Err(CaseFault::BadArguments);
    };
    let mut samples = Samples::lone(alloc, occurrence(first.as_slice())?);
    for text in others {
        samples.push(occurrence(text.as_slice())?)?;
    }
    show_all(out, samples, args.len())
}

/// `items NUMBER ..`: the list of the numbers: its length, its items, and those at each position
/// and past the last.
pub fn items_case(alloc: Global, out: &mut String, args: &[Vec<u8>]) -> Result<(), CaseFault> {
    let mut items: Items<u64> = Items::new(alloc);
    for text in args {
        items.push(number(text.as_slice())?)?;
    }
    let len = items.len();
    write!(out, "{len}")?;
    for n in items.as_slice() {
        write!(out, " {n}")?;
    }
    for i in 0..len {
        if items.get(i).copied() != items.as_slice().get(i).copied() {
            out.push_str(" differ")?;
        }
    }
    match items.get(len) {
        Some(_) => Ok(out.push_str(" and more")?),
        None => Ok(()),
    }
}
