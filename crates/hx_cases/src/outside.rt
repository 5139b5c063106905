//! Calls of hx_outside.

use hx_cases_base::{CaseFault, number, numbers, pairs, show, show_option, size};
use hx_outside::{
    DirFiles, FileFault, Files, LogFiles, LogSource, MemFiles, MemSink, MemSource, ReadFault, Sink,
    SinkFault, Source, StdSink, StdSource, read_to_end, write_all,
};
use std::alloc::Global;
use std::fmt::Write;
use std::rt;

/// The source in memory of three arguments: PIECE FAILS TEXT.
pub fn mem_source(
    alloc: Global,
    piece: &[u8],
    fails: &[u8],
    text: &[u8],
) -> Result<MemSource, CaseFault> {
    let piece = size(piece)?;
    if piece == 0 {
        return Err(CaseFault::BadArguments);
    }
    let text = Vec::from_slice(alloc, text)?;
    Ok(MemSource::new(text, piece, numbers(alloc, fails)?))
}

/// `reads COUNT ROOM PIECE FAILS TEXT`: what that many reads into a buffer of ROOM bytes give, and
/// the log of them.
pub fn reads_case(alloc: Global, out: &mut String, args: &[Vec<u8>]) -> Result<(), CaseFault> {
    let [count, room, piece, fails, text] = args else {
        return Err(CaseFault::BadArguments);
    };
    let source = mem_source(alloc, piece.as_slice(), fails.as_slice(), text.as_slice())?;
    show_reads(alloc, out, source, count.as_slice(), room.as_slice())
}

/// `std_reads COUNT ROOM TEXT`: the same of a reader of std.
pub fn std_reads_case(alloc: Global, out: &mut String, args: &[Vec<u8>]) -> Result<(), CaseFault> {
    let [count, room, text] = args else {
        return Err(CaseFault::BadArguments);
    };
    let source = StdSource::new(text.as_slice());
    show_reads(alloc, out, source, count.as_slice(), room.as_slice())
}

fn show_reads<S: Source + Drop>(
    alloc: Global,
    out: &mut String,
    source: S,
    count: &[u8],
    room: &[u8],
) -> Result<(), CaseFault> {
    let mut source = LogSource::new(alloc, source);
    let mut buf = vec![in alloc; b'.'; size(room)?]?;
    for _ in 0..number(count)? {
        show_read(out, &mut source, &mut buf)?;
    }
    let Some(log) = source.log() else {
        return Err(CaseFault::NoMemory);
    };
    out.push_str(" log ")?;
    for read in log {
        show_option(out, read.as_deref())?;
    }
    Ok(())
}

/// Reads once, and writes what the read gives, and what the buffer holds then.
pub fn show_read<S: Source>(
    out: &mut String,
    source: &mut S,
    buf: &mut Vec<u8>,
) -> Result<(), CaseFault> {
    if buf.is_empty() {
        return Err(CaseFault::BadArguments);
    }
    match source.read(buf.as_mut_slice()) {
        Ok(count) => write!(out, "{count} ")?,
        Err(_) => out.push_str("failed ")?,
    }
    show(out, buf.as_slice())
}

/// Writes what a source was read to, or that it failed or was too long.
pub fn show_whole(out: &mut String, read: Result<Vec<u8>, ReadFault>) -> Result<(), CaseFault> {
    match read {
        Ok(bytes) => show(out, bytes.as_slice()),
        Err(ReadFault::Failed) => Ok(out.push_str("failed")?),
        Err(ReadFault::TooLong) => Ok(out.push_str("too long")?),
        Err(ReadFault::NoMemory) => Err(CaseFault::NoMemory),
    }
}

/// `read_to_end LIMIT PIECE FAILS TEXT`
pub fn read_to_end_case(
    alloc: Global,
    out: &mut String,
    args: &[Vec<u8>],
) -> Result<(), CaseFault> {
    let [limit, piece, fails, text] = args else {
        return Err(CaseFault::BadArguments);
    };
    let mut source = mem_source(alloc, piece.as_slice(), fails.as_slice(), text.as_slice())?;
    let read = read_to_end(alloc, &mut source, size(limit.as_slice())?);
    show_whole(out, read)
}

/// `std_source LIMIT TEXT`: what a reader of std is read to.
pub fn std_source_case(alloc: Global, out: &mut String, args: &[Vec<u8>]) -> Result<(), CaseFault> {
    let [limit, text] = args else {
        return Err(CaseFault::BadArguments);
    };
    let mut source = StdSource::new(text.as_slice());
    let read = read_to_end(alloc, &mut source, size(limit.as_slice())?);
    show_whole(out, read)
}

/// Writes whether a text was written.
pub fn show_written(out: &mut String, written: Result<(), SinkFault>) -> Result<(), CaseFault> {
    match written {
        Ok(()) => Ok(out.push_str("ok ")?),
        Err(SinkFault::Failed) => Ok(out.push_str("failed ")?),
        Err(SinkFault::NoMemory) => Err(CaseFault::NoMemory),
    }
}

/// The sink in memory of two arguments: PIECE FAILS.
fn mem_sink(alloc: Global, piece: &[u8], fails: &[u8]) -> Result<MemSink, CaseFault> {
    let piece = size(piece)?;
    if piece == 0 {
        return Err(CaseFault::BadArguments);
    }
    Ok(MemSink::new(alloc, piece, numbers(alloc, fails)?))
}

/// `writes PIECE FAILS TEXT ..`: what one write of each text answers, and the bytes written.
pub fn writes_case(alloc: Global, out: &mut String, args: &[Vec<u8>]) -> Result<(), CaseFault> {
    let [piece, fails, texts @ ..] = args else {
        return Err(CaseFault::BadArguments);
    };
    let mut sink = mem_sink(alloc, piece.as_slice(), fails.as_slice())?;
    for text in texts {
        if text.is_empty() {
            return Err(CaseFault::BadArguments);
        }
        match sink.write(text.as_slice()) {
            Ok(count) => write!(out, "{count} ")?,
            Err(fault) => show_written(out, Err(fault))?,
        }
    }
    show(out, sink.bytes())
}

/// `write_all PIECE FAILS TEXT ..`: whether each text was written, and the bytes written.
pub fn write_all_case(alloc: Global, out: &mut String, args: &[Vec<u8>]) -> Result<(), CaseFault> {
    let [piece, fails, texts @ ..] = args else {
        return Err(CaseFault::BadArguments);
    };
    let mut sink = mem_sink(alloc, piece.as_slice(), fails.as_slice())?;
    for text in texts {
        let written = write_all(&mut sink, text.as_slice());
        show_written(out, written)?;
    }
    show(out, sink.bytes())
}

/// `std_sink ROOM TEXT`: whether a writer of std with ROOM bytes of room takes the text, and the
/// room then.
pub fn std_sink_case(alloc: Global, out: &mut String, args: &[Vec<u8>]) -> Result<(), CaseFault> {
    let [room, text] = args else {
        return Err(CaseFault::BadArguments);
    };
    let mut held = vec![in alloc; b'.'; size(room.as_slice())?]?;
    let written = write_all(&mut StdSink::new(held.as_mut_slice()), text.as_slice());
    show_written(out, written)?;
    show(out, held.as_slice())
}

/// Writes the bytes of a file, or that it failed.
pub fn show_file(out: &mut String, read: Result<Vec<u8>, FileFault>) -> Result<(), CaseFault> {
    match read {
        Ok(bytes) => show(out, bytes.as_slice()),
        Err(FileFault::Failed) => Ok(out.push_str("failed")?),
        Err(FileFault::NoMemory) => Err(CaseFault::NoMemory),
    }
}

/// `mem_files FAILS FILES NAME ..`: what one read of each name answers.
pub fn mem_files_case(alloc: Global, out: &mut String, args: &[Vec<u8>]) -> Result<(), CaseFault> {
    let [fails, held, names @ ..] = args else {
        return Err(CaseFault::BadArguments);
    };
    let held = pairs(alloc, held.as_slice())?;
    let mut files = MemFiles::new(held, numbers(alloc, fails.as_slice())?);
    show_files(alloc, out, &mut files, names)
}

/// Reads each of these files, and writes what the read gives.
fn show_files<F: Files>(
    alloc: Global,
    out: &mut String,
    files: &mut F,
    names: &[Vec<u8>],
) -> Result<(), CaseFault> {
    for name in names {
        show_file(out, files.read(alloc, name.as_slice()))?;
    }
    Ok(())
}

/// `log_files FAILS FILES NAME ..`: the same, and the log of these reads.
pub fn log_files_case(alloc: Global, out: &mut String, args: &[Vec<u8>]) -> Result<(), CaseFault> {
    let [fails, held, names @ ..] = args else {
        return Err(CaseFault::BadArguments);
    };
    let held = pairs(alloc, held.as_slice())?;
    let within = MemFiles::new(held, numbers(alloc, fails.as_slice())?);
    let mut files = LogFiles::new(alloc, within);
    show_files(alloc, out, &mut files, names)?;
    let Some(log) = files.log() else {
        return Err(CaseFault::NoMemory);
    };
    out.push_str(" log ")?;
    for name in log {
        show(out, name.as_slice())?;
    }
    Ok(())
}

/// `dir_files NAME ..`: what one read of each of the machine's files answers, and the count of
/// faults.
pub fn dir_files_case<R: rt::Files>(
    rt: &R,
    alloc: Global,
    out: &mut String,
    args: &[Vec<u8>],
) -> Result<(), CaseFault> {
    let mut files = DirFiles::new(rt);
    show_files(alloc, out, &mut files, args)?;
    let faults = files.faults();
    Ok(write!(out, " {faults}")?)
}
