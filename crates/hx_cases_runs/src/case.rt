//! The parts of a run.

use crate::faults::{Faults, NEVER, NO_FAULTS};
use crate::machine::Machine;
use crate::text::{decoded, push_decoded, word_and_text};
use hx_cases_base::{CaseFault, number, size};
use hx_outside::{FailMaker, LogFiles, MemFiles, MemSink, MemSource};
use hx_program::KnownFiles;
use hx_replay::RecentRecord;
use std::alloc::Global;

/// The line that opens connection 1.
const CONN: &[u8] = b"conn 1 192.0.2.7 40000 203.0.113.1 80\n";

/// What the lines so far say of a run.
#[derive(Drop)]
pub struct Case {
    /// the names of the configurations that are asked for
    names: Vec<Vec<u8>>,
    files: Vec<(Vec<u8>, Vec<u8>)>,
    record: Vec<u8>,
    /// what `header` has so far
    head: Vec<u8>,
    pub faults: Faults,
    read_piece: usize,
    write_piece: usize,
}

impl Case {
    /// Before any line.
    pub fn new(alloc: Global) -> Case {
        Case {
            names: Vec::new(alloc),
            files: Vec::new(alloc),
            record: Vec::new(alloc),
            head: Vec::new(alloc),
            faults: NO_FAULTS,
            read_piece: 8,
            write_piece: 3,
        }
    }

    /// Takes in a part, and answers whether its word is known.
    pub fn take(&mut self, alloc: Global, word: &[u8], text: &[u8]) -> Result<bool, CaseFault> {
        match word {
            b"config" => self.begin(alloc, b"c", text)?,
            b"old" => {
                self.begin(alloc, b"o", text)?;
                self.names.push(b"n".to_vec(alloc)?)?;
            }
            b"new" => self.add_file(alloc, b"n", text)?,
            b"file" => {
                let (name, text) = word_and_text(text);
                self.add_file(alloc, name, text)?;
            }
            b"append" => self.append(text)?,
            _ => return self.take_of_record(alloc, word, text),
        }
        Ok(true)
    }

    /// The same of a part of the record.
    fn take_of_record(
        &mut self,
        alloc: Global,
        word: &[u8],
        text: &[u8],
    ) -> Result<bool, CaseFault> {
        match word {
            b"record" => self.record = decoded(alloc, text)?,
            b"more" => push_decoded(&mut self.record, text)?,
            b"header" => push_decoded(&mut self.head, text)?,
            b"head" => {
                push_decoded(&mut self.head, text)?;
                self.ask(alloc)?;
            }
            b"request" => self.ask(alloc)?,
            _ => return self.take_of_calls(alloc, word, text),
        }
        Ok(true)
    }

    /// The same of a part that says of the calls of a run what they ask for, how much they move, or
    /// which fail.
    fn take_of_calls(
        &mut self,
        alloc: Global,
        word: &[u8],
        text: &[u8],
    ) -> Result<bool, CaseFault> {
        match word {
            b"name" => {
                self.names.pop();
                self.names.push(decoded(alloc, text)?)?;
            }
            b"pieces" => {
                let (read, write) = word_and_text(text);
                self.read_piece = size(read)?;
                self.write_piece = size(write)?;
            }
            _ => return self.take_fault(word, text),
        }
        Ok(true)
    }

    /// The same of a part that says what goes wrong.
    fn take_fault(&mut self, word: &[u8], text: &[u8]) -> Result<bool, CaseFault> {
        if !self.faults.set(word, NEVER) {
            return Ok(false);
        }
        Ok(self.faults.set(word, number(text)?))
    }

    /// Begins a run over a configuration of this name.
    fn begin(&mut self, alloc: Global, name: &[u8], text: &[u8]) -> Result<(), CaseFault> {
        self.names = vec![in alloc; name.to_vec(alloc)?]?;
        self.files = Vec::new(alloc);
        self.record = CONN.to_vec(alloc)?;
        self.head.clear();
        self.faults = NO_FAULTS;
        self.add_file(alloc, name, text)
    }

    fn add_file(&mut self, alloc: Global, name: &[u8], text: &[u8]) -> Result<(), CaseFault> {
        let file = (name.to_vec(alloc)?, decoded(alloc, text)?);
        Ok(self.files.push(file)?)
    }

    /// Has the last file go on.
    fn append(&mut self, text: &[u8]) -> Result<(), CaseFault> {
        match self.files.len().checked_sub(1) {
            Some(last) => push_decoded(&mut self.files[last].1, text),
            None => Err(CaseFault::BadArguments),
        }
    }

    /// Adds a request of connection 1 with the head, which then begins anew.
    fn ask(&mut self, alloc: Global) -> Result<(), CaseFault> {
        let len = self.head.len();
        let line = format!(in alloc; "req 1 {len}\n")?;
        self.record.extend_from_slice(line.as_bytes())?;
        self.record.extend_from_slice(self.head.as_slice())?;
        self.record.push(b'\n')?;
        self.head.clear();
        Ok(())
    }

    /// The words of this command over the configurations: what follows its first word follows their
    /// names.
    pub fn words(&self, alloc: Global, command: &[u8]) -> Result<Vec<Vec<u8>>, CaseFault> {
        let (word, last) = word_and_text(command);
        let mut words = vec![in alloc; word.to_vec(alloc)?]?;
        for name in self.names.as_slice() {
            words.push(name.as_slice().to_vec(alloc)?)?;
        }
        if !last.is_empty() {
            words.push(last.to_vec(alloc)?)?;
        }
        Ok(words)
    }

    /// What a program of these words finds.
    pub fn machine(&self, alloc: Global, words: Vec<Vec<u8>>) -> Result<Machine, CaseFault> {
        let env = vec![in alloc; (b"A".to_vec(alloc)?, b"x".to_vec(alloc)?)]?;
        let files = self.held(alloc)?;
        let source = self.source(alloc)?;
        let writes = vec![in alloc; self.faults.write]?;
        let large = vec![in alloc; self.faults.large]?;
        Ok(Machine {
            words,
            env,
            files: KnownFiles::new(LogFiles::new(alloc, files)),
            record: RecentRecord::new(alloc, source),
            out: MemSink::new(alloc, self.write_piece.max(1), writes),
            maker: FailMaker::new(large),
        })
    }

    fn held(&self, alloc: Global) -> Result<MemFiles, CaseFault> {
        let mut held = Vec::new(alloc);
        for (name, text) in self.files.as_slice() {
            let name = name.as_slice().to_vec(alloc)?;
            held.push((name, text.as_slice().to_vec(alloc)?))?;
        }
        Ok(MemFiles::new(held, vec![in alloc; self.faults.open]?))
    }

    fn source(&self, alloc: Global) -> Result<MemSource, CaseFault> {
        let len = self.record.len();
        let end = usize::try_from(self.faults.cut).unwrap_or(len).min(len);
        let bytes = self.record[..end].to_vec(alloc)?;
        let reads = vec![in alloc; self.faults.read]?;
        Ok(MemSource::new(bytes, self.read_piece.max(1), reads))
    }
}
