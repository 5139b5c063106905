//! Calls of hx_outside over readers and writers of std that fail, and over files of the machine.

use crate::outside::{show_file, show_read, show_whole, show_written};
use hx_cases_base::{CaseFault, number, show, size};
use hx_outside::{DirFiles, Files, StdSink, StdSource, read_to_end, write_all};
use std::alloc::Global;
use std::fmt::Write;
use std::fs::File;
use std::{io, rt, str};

/// A reader or a writer whose first calls fail, and which counts all of them. They fail as a call
/// that a signal interrupts, or by an error of another kind.
#[derive(Drop)]
struct Failing<T> {
    inner: T,
    interrupts: bool,
    failures: u64,
    calls: u64,
}

impl<T> Failing<T> {
    /// Counts a call, and answers the error of one that fails.
    fn counted(&mut self) -> io::Result<()> {
        self.calls = self.calls.saturating_add(1);
        if self.calls > self.failures {
            return Ok(());
        }
        let kind = if self.interrupts {
            io::ErrorKind::Interrupted
        } else {
            io::ErrorKind::Other
        };
        Err(io::Error::from(kind))
    }
}

impl<T: io::Read> io::Read for Failing<T> {
    fn read(&mut self, buf: &mut [u8]) -> io::Result<usize> {
        self.counted()?;
        self.inner.read(buf)
    }
}

impl<T: io::Write> io::Write for Failing<T> {
    fn write(&mut self, bytes: &[u8]) -> io::Result<usize> {
        self.counted()?;
        self.inner.write(bytes)
    }

    fn flush(&mut self) -> io::Result<()> {
        Ok(())
    }
}

/// Whether the kind of error is `interrupted`; `other` is the other one.
fn interrupts(kind: &[u8]) -> Result<bool, CaseFault> {
    match kind {
        b"interrupted" => Ok(true),
        b"other" => Ok(false),
        _ => Err(CaseFault::BadArguments),
    }
}

/// `failing_reads KIND FAILURES COUNT ROOM TEXT`: what COUNT reads into a buffer of ROOM bytes give
/// over a reader of TEXT whose first FAILURES calls answer an error of this kind, and how often it
/// was called.
pub fn failing_reads_case(
    alloc: Global,
    out: &mut String,
    args: &[Vec<u8>],
) -> Result<(), CaseFault> {
    let [kind, failures, count, room, text] = args else {
        return Err(CaseFault::BadArguments);
    };
    let mut reader = Failing {
        inner: text.as_slice(),
        interrupts: interrupts(kind.as_slice())?,
        failures: number(failures.as_slice())?,
        calls: 0,
    };
    let mut buf = vec![in alloc; b'.'; size(room.as_slice())?]?;
    show_std_reads(out, &mut reader, number(count.as_slice())?, &mut buf)?;
    let calls = reader.calls;
    Ok(write!(out, " {calls} calls")?)
}

/// Makes so many reads of a source over the reader, and writes what they give.
fn show_std_reads<R: io::Read + Drop>(
    out: &mut String,
    reader: R,
    count: u64,
    buf: &mut Vec<u8>,
) -> Result<(), CaseFault> {
    let mut source = StdSource::new(reader);
    for _ in 0..count {
        show_read(out, &mut source, buf)?;
    }
    Ok(())
}

/// `failing_writes KIND FAILURES TEXT ..`: whether each text is written over a writer whose first
/// FAILURES calls answer an error of this kind, what the writer has then, and how often it was
/// called.
pub fn failing_writes_case(
    alloc: Global,
    out: &mut String,
    args: &[Vec<u8>],
) -> Result<(), CaseFault> {
    let [kind, failures, texts @ ..] = args else {
        return Err(CaseFault::BadArguments);
    };
    let mut writer = Failing {
        inner: Vec::<u8>::new(alloc),
        interrupts: interrupts(kind.as_slice())?,
        failures: number(failures.as_slice())?,
        calls: 0,
    };
    show_std_writes(out, &mut writer, texts)?;
    show(out, writer.inner.as_slice())?;
    let calls = writer.calls;
    Ok(write!(out, " {calls} calls")?)
}

/// Writes each text by a sink over the writer, and then whether it was written.
fn show_std_writes<W: io::Write + Drop>(
    out: &mut String,
    writer: W,
    texts: &[Vec<u8>],
) -> Result<(), CaseFault> {
    let mut sink = StdSink::new(writer);
    for text in texts {
        let written = write_all(&mut sink, text.as_slice());
        show_written(out, written)?;
    }
    Ok(())
}

/// `machine_file NAME TEXT ..`: whether a sink over a new file of the machine takes each text, and
/// what a source over that file, and a read of the machine's files, give then.
pub fn machine_file_case<R: rt::Files>(
    rt: &R,
    alloc: Global,
    out: &mut String,
    args: &[Vec<u8>],
) -> Result<(), CaseFault> {
    let [name, texts @ ..] = args else {
        return Err(CaseFault::BadArguments);
    };
    let name = name.as_slice();
    let path = str::from_utf8(name).map_err(|_| CaseFault::BadArguments)?;
    match File::create(rt, path) {
        Ok(file) => show_std_writes(out, file, texts)?,
        Err(_) => out.push_str("not made ")?,
    }
    let Ok(file) = File::open(rt, path) else {
        return Ok(out.push_str("not opened")?);
    };
    show_whole(
        out,
        read_to_end(alloc, &mut StdSource::new(file), 16_777_216),
    )?;
    show_file(out, DirFiles::new(rt).read(alloc, name))
}
