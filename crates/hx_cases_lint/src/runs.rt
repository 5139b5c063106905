use hx_cases_base::{CaseFault, number};
use hx_config::run::run;
use hx_outside::{MemFiles, MemSink};
use hx_text::cut_at;
use std::alloc::Global;

/// What lines leave for the runs below them.
#[derive(Drop)]
pub(crate) struct Runs {
    /// what the file `c` holds
    file: Vec<u8>,
    /// whether the lines of the file stand above the run that answers them
    is_listed: bool,
    /// the number of the write to either sink that fails, or 0
    write: u64,
}

/// What comes of a run: its status, and what it wrote.
#[derive(Drop)]
struct Ended {
    status: u8,
    text: Vec<u8>,
    notes: Vec<u8>,
}

impl Runs {
    /// No file, and no write that fails.
    pub(crate) fn new(alloc: Global) -> Runs {
        Runs {
            file: Vec::new(alloc),
            is_listed: false,
            write: 0,
        }
    }

    /// Takes in a line, and writes it with what comes of it, but for one of a listed file: that
    /// waits for its run. Whether it is a line of runs.
    pub(crate) fn take(
        &mut self,
        alloc: Global,
        out: &mut Vec<u8>,
        line: &[u8],
    ) -> Result<bool, CaseFault> {
        let (word, text) = cut_at(b' ', line).unwrap_or((line, b""));
        if word == b"run".as_slice() {
            self.run(alloc, out, line, text)?;
            return Ok(true);
        }
        if self.is_listed {
            push_line(&mut self.file, line)?;
            return Ok(true);
        }
        match word {
            b"file" => self.file = swapped(alloc, text)?,
            b"lines" => {
                self.file = Vec::new(alloc);
                self.is_listed = true;
            }
            b"write" => self.write = number(text)?,
            _ => return Ok(false),
        }
        push_line(out, line)?;
        Ok(true)
    }

    /// Makes the run of these words. Writes each line of a listed file with what is written and
    /// told of it, and then the line of the run with its status and what is left.
    fn run(
        &mut self,
        alloc: Global,
        out: &mut Vec<u8>,
        line: &[u8],
        words: &[u8],
    ) -> Result<(), CaseFault> {
        let ended = ran(alloc, words, &self.file, self.write)?;
        let (text, notes) = self.show_lines(alloc, out, &ended)?;
        let status = ended.status;
        out.extend_from_slice(line)?;
        out.extend_from_slice(format!(in alloc; " => {status}")?.as_bytes())?;
        push_part(out, b" |", &swapped(alloc, text)?)?;
        push_part(out, b" |", &swapped(alloc, notes)?)?;
        out.push(b'\n')?;
        self.is_listed = false;
        self.write = 0;
        Ok(())
    }

    /// Writes each line of a listed file with what a run has written at its number and told of it,
    /// and answers the text and the notes that are left: all where the file isn't listed.
    fn show_lines<'e>(
        &self,
        alloc: Global,
        out: &mut Vec<u8>,
        ended: &'e Ended,
    ) -> Result<(&'e [u8], &'e [u8]), CaseFault> {
        let mut text = ended.text.as_slice();
        let mut notes = ended.notes.as_slice();
        if !self.is_listed {
            return Ok((text, notes));
        }
        let file = self.file.as_slice();
        let mut number = 0u64;
        for line in file
            .strip_suffix(b"\n")
            .unwrap_or(file)
            .split(|b| *b == b'\n')
        {
            number = number.saturating_add(1);
            let (written, below) = cut_at(b'\n', text).unwrap_or((text, b""));
            text = below;
            out.extend_from_slice(line)?;
            push_part(out, b" =>", written)?;
            notes = show_notes(alloc, out, notes, number)?;
            out.push(b'\n')?;
        }
        Ok((text, notes))
    }
}

/// A run of these words over a file `c`, with the variable A of value `x`, in which the write of
/// this number fails; sinks take 16 bytes a write.
fn ran(alloc: Global, words: &[u8], file: &[u8], write: u64) -> Result<Ended, CaseFault> {
    let mut given = Vec::new(alloc);
    for word in words.split(|b| *b == b' ') {
        if !word.is_empty() {
            given.push(word.to_vec(alloc)?)?;
        }
    }
    let env = vec![in alloc; (b"A".to_vec(alloc)?, b"x".to_vec(alloc)?)]?;
    let held = vec![in alloc; (b"c".to_vec(alloc)?, file.to_vec(alloc)?)]?;
    let mut files = MemFiles::new(held, Vec::new(alloc));
    let mut out = MemSink::new(alloc, 16, vec![in alloc; write]?);
    let mut notes = MemSink::new(alloc, 16, vec![in alloc; write]?);
    let status = run(alloc, &given, &env, &mut files, &mut out, &mut notes);
    Ok(Ended {
        status,
        text: out.bytes().to_vec(alloc)?,
        notes: notes.bytes().to_vec(alloc)?,
    })
}

/// Writes the notes of the line of this number that the notes begin with, and answers the others.
fn show_notes<'n>(
    alloc: Global,
    out: &mut Vec<u8>,
    notes: &'n [u8],
    number: u64,
) -> Result<&'n [u8], CaseFault> {
    let place = format!(in alloc; "hxconfig: c:{number}: ")?;
    let mut left = notes;
    for _ in 0..notes.len() {
        let Some((note, below)) = cut_at(b'\n', left) else {
            return Ok(left);
        };
        let Some(told) = note.strip_prefix(place.as_bytes()) else {
            return Ok(left);
        };
        push_part(out, b" |", told)?;
        left = below;
    }
    Ok(left)
}

/// The text with `~` for a line feed, a backtick for a carriage return, and the other way round.
fn swapped(alloc: Global, text: &[u8]) -> Result<Vec<u8>, CaseFault> {
    let mut bytes = Vec::new(alloc);
    for byte in text {
        bytes.push(match *byte {
            b'~' => b'\n',
            b'\n' => b'~',
            b'`' => b'\r',
            b'\r' => b'`',
            byte => byte,
        })?;
    }
    Ok(bytes)
}

/// Appends a mark and, where the part isn't empty, a blank and the part.
fn push_part(out: &mut Vec<u8>, mark: &[u8], part: &[u8]) -> Result<(), CaseFault> {
    out.extend_from_slice(mark)?;
    if !part.is_empty() {
        out.push(b' ')?;
        out.extend_from_slice(part)?;
    }
    Ok(())
}

fn push_line(out: &mut Vec<u8>, line: &[u8]) -> Result<(), CaseFault> {
    out.extend_from_slice(line)?;
    out.push(b'\n')?;
    Ok(())
}
