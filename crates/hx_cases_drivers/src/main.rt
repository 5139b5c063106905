//! Cases of libraries that are driven by types of their callers: pools, chains and trees, whose
//! values have links, and the texts of a machine.
//!
//! Each line of standard input names a driver, with a count where it takes one, and its answer
//! follows it in standard output. A driver compares what each call answers with what a list says,
//! and its answer is how often they differ, or that they don't.
#![tactic(auto)]

ghost use Rattle.std.specs.Prelude.{◌≡◌, ◌<◌};

mod chains;
mod comparisons;
mod pools;
mod texts;
mod trees;

use crate::chains::{chain_calls, chains_in_order};
use crate::comparisons::Comparisons;
use crate::pools::{pool_calls, slot_used_again};
use crate::texts::{machine_texts, many_texts};
use crate::trees::{long_keys, prefixes_and_equal_keys, tree_calls};
use hx_outside::{StdSink, StdSource, read_to_end, write_all};
use hx_pool::Steps;
use hx_text::{NoMemory, cut_at, read_number};
use std::alloc::Global;
use std::fmt::Write;
use std::io::writer;
use std::marker::Brand;
use std::process::ExitCode;
use std::str;
use std::sync::ledger::{Blank, Ledger};

/// What a driver counted, if it counts, or that none has the name of the line.
#[derive(Drop)]
enum Answer {
    Counted(usize),
    Uncounted,
    Unknown,
}

/// Runs the driver of this name. `count` is how often it makes its calls.
fn driven<L: Ledger>(
    comparisons: &mut Comparisons,
    alloc: Global,
    name: &[u8],
    count: u32,
    steps: &mut Steps<L>,
) -> Result<Answer, NoMemory> {
    let counted = match name {
        b"pool_calls" => pool_calls(comparisons, alloc, u64::from(count), steps)?,
        b"chain_calls" => chain_calls(comparisons, alloc, count, steps)?,
        b"tree_calls" => tree_calls(comparisons, alloc, u64::from(count), steps)?,
        _ => return uncounted(comparisons, alloc, name, count, steps),
    };
    Ok(Answer::Counted(counted))
}

/// Runs a driver that counts nothing.
fn uncounted<L: Ledger>(
    comparisons: &mut Comparisons,
    alloc: Global,
    name: &[u8],
    count: u32,
    steps: &mut Steps<L>,
) -> Result<Answer, NoMemory> {
    match name {
        b"slot_used_again" => slot_used_again(comparisons, alloc)?,
        b"chains_in_order" => chains_in_order(comparisons, alloc, steps)?,
        b"prefixes_and_equal_keys" => prefixes_and_equal_keys(comparisons, alloc, count, steps)?,
        b"long_keys" => long_keys(comparisons, alloc, steps)?,
        b"machine_texts" => machine_texts(comparisons, alloc)?,
        b"many_texts" => many_texts(comparisons, alloc, count as usize)?,
        _ => return Ok(Answer::Unknown),
    }
    Ok(Answer::Uncounted)
}

/// Writes ` => ` and what a driver answered: that it found no difference, or how many.
fn write_answer(
    out: &mut String,
    comparisons: &Comparisons,
    answer: Answer,
) -> Result<(), NoMemory> {
    let (made, differing) = (comparisons.made(), comparisons.differing());
    if differing != 0 {
        write!(
            out,
            " => {differing} of {made} comparisons found a difference"
        )?;
        return Ok(());
    }
    match answer {
        Answer::Counted(counted) => write!(out, " => as the list says, at most {counted}")?,
        Answer::Uncounted => out.push_str(" => as it should be")?,
        Answer::Unknown => out.push_str(" => no driver has this name")?,
    }
    Ok(())
}

/// Writes a line, and after ` => ` what its driver answers. A line that is empty or a comment
/// stands alone.
fn answer_line<L: Ledger>(
    alloc: Global,
    out: &mut String,
    line: &[u8],
    steps: &mut Steps<L>,
) -> Result<(), NoMemory> {
    out.push_str(str::from_utf8(line).unwrap_or("not UTF-8"))?;
    if let [] | [b'#', ..] = line {
        return Ok(());
    }
    let (name, count) = cut_at(b' ', line).unwrap_or((line, b"0".as_slice()));
    let Some(count) = read_number(count, 4_294_967_295) else {
        out.push_str(" => its count is no number")?;
        return Ok(());
    };
    let mut comparisons = Comparisons::new();
    let answer = driven(&mut comparisons, alloc, name, count as u32, steps)?;
    write_answer(out, &comparisons, answer)
}

/// The answers of all lines. A line break ends each.
fn answers<L: Ledger>(alloc: Global, text: &[u8], blank: Blank) -> Result<String, NoMemory>
    requires name { blank.name ≡ L.name }
    requires parts { blank.parts ≡ L.parts }
    requires some { 0 < L.parts }
{
    let mut steps = Steps::<L>::open(blank);
    let mut out = String::new(alloc);
    for line in text.split(|b| *b == b'\n') {
        if !line.is_empty() {
            answer_line(alloc, &mut out, line, &mut steps)?;
            out.push('\n')?;
        }
    }
    Ok(out)
}

fn main(rt: HostRuntime) -> ExitCode {
    let alloc = rt.alloc();
    let Ok(text) = read_to_end(alloc, &mut StdSource::new(rt.reader()), 16_777_216) else {
        return ExitCode::from(5);
    };
    let Ok(out) = answers::<Brand>(alloc, text.as_slice(), Blank::new(1)) else {
        return ExitCode::from(7);
    };
    match write_all(&mut StdSink::new(writer(&rt)), out.as_bytes()) {
        Ok(()) => ExitCode::from(0),
        Err(_) => ExitCode::from(6),
    }
}
