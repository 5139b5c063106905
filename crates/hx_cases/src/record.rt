//! Calls of hx_record.

ghost use Rattle.std.specs.Prelude.{◌≡◌, false};

use crate::outside::mem_source;
use hx_cases_base::{CaseFault, number, show, show_address};
use hx_outside::{LogSource, MemSource};
use hx_record::{Event, Placed, Reader, RecordFault};
use std::alloc::Global;
use std::fmt::Write;

fn show_event(out: &mut String, event: &Event) -> Result<(), CaseFault> {
    match event {
        Event::Conn {
            id,
            src,
            src_port,
            dst,
            dst_port,
        } => {
            write!(out, "conn {id} ")?;
            show_address(out, *src)?;
            write!(out, " {src_port} ")?;
            show_address(out, *dst)?;
            Ok(write!(out, " {dst_port}")?)
        }
        Event::Req { id, bytes } => {
            write!(out, "req {id} ")?;
            show(out, bytes.as_slice())
        }
        Event::Close { id } => Ok(write!(out, "close {id}")?),
        Event::Cli { session, text } => {
            write!(out, "cli {session} ")?;
            show(out, text.as_slice())
        }
    }
}

/// Writes what a call of the reader answers, and a bar after it.
fn show_answer(
    out: &mut String,
    answer: &Result<Option<Placed>, RecordFault>,
) -> Result<(), CaseFault> {
    match answer {
        Ok(Some(placed)) => {
            let offset = placed.offset;
            write!(out, "{offset} ")?;
            show_event(out, &placed.event)?;
        }
        Ok(None) => out.push_str("end")?,
        Err(RecordFault::Bad { offset, code }) => write!(out, "bad {offset} {code}")?,
        Err(RecordFault::Failed) => out.push_str("failed")?,
        Err(RecordFault::NoMemory) => return Err(CaseFault::NoMemory),
    }
    Ok(out.push('|')?)
}

/// `record CALLS LIMIT PIECE FAILS RECORD`: what that many calls of the reader answer over a source
/// in memory; and `record_reads` with the same arguments: after each answer also how many times the
/// source was read so far.
pub fn record_case(
    alloc: Global,
    out: &mut String,
    args: &[Vec<u8>],
    shows_reads: bool,
) -> Result<(), CaseFault> {
    let [calls, limit, piece, fails, bytes] = args else {
        return Err(CaseFault::BadArguments);
    };
    let source = mem_source(alloc, piece.as_slice(), fails.as_slice(), bytes.as_slice())?;
    let reader = Reader::new(alloc, number(limit.as_slice())?);
    let calls = number(calls.as_slice())?;
    if shows_reads {
        show_reads(out, reader, LogSource::new(alloc, source), calls)
    } else {
        show_answers(out, reader, source, calls)
    }
}

fn show_answers(
    out: &mut String,
    mut reader: Reader,
    mut source: MemSource,
    calls: u64,
) -> Result<(), CaseFault>
    requires { reader.ended ≡ false }
{
    'calls: for _ in 0..calls {
        show_answer(out, &reader.next_event(&mut source))?;
    }
    Ok(())
}

fn show_reads(
    out: &mut String,
    mut reader: Reader,
    mut source: LogSource<MemSource>,
    calls: u64,
) -> Result<(), CaseFault>
    requires { reader.ended ≡ false }
{
    'calls: for _ in 0..calls {
        show_answer(out, &reader.next_event(&mut source))?;
        let reads = source.log().ok_or(CaseFault::NoMemory)?.len();
        write!(out, "{reads}|")?;
    }
    Ok(())
}
