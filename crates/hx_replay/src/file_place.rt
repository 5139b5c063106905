use crate::place::{Place, placed, unplaced};
use crate::spelling::{first_line, pass_all};
use hx_match::{Pattern, parse};
use hx_outside::{PatFault, PlainMaker};
use hx_program::{BAD_PATTERN, BAD_VALUE, FILE_TOO_LONG};
use hx_spell::{HeadSpec, Speller, TableSpec, TableSpecs};
use hx_text::{By, read_i64, read_ip};
use itoa::Buffer;
use std::alloc::Global;

/// How many entries a file may have.
const MOST_ENTRIES: u64 = 1_000_000;

/// The line of a configuration on which a file first appears. None where a line is refused, where
/// none names the file, and where memory runs out.
pub(crate) fn naming_line(
    alloc: Global,
    env: &[(Vec<u8>, Vec<u8>)],
    config: &[u8],
    file: &[u8],
) -> Option<u64> {
    let tables = tables_of(alloc, env, config)?;
    let at = table_of(tables.as_slice(), file)?;
    match tables.spec(at) {
        Some(spec) => Some(spec.line),
        None => None,
    }
}

/// The references of a configuration.
fn tables_of(alloc: Global, env: &[(Vec<u8>, Vec<u8>)], config: &[u8]) -> Option<TableSpecs> {
    let Ok(mut speller) = Speller::new(alloc) else {
        return None;
    };
    if pass_all(alloc, env, config, &mut speller) {
        Some(speller.tables())
    } else {
        None
    }
}

/// The position of the reference with this file.
fn table_of(specs: &[TableSpec], file: &[u8]) -> Option<usize> {
    specs.iter().position(|spec| match &spec.file {
        Some(name) => name.as_slice() == file,
        None => false,
    })
}

/// The line of a file that a configuration can't take, with this code: its file, its number and its
/// text.
pub(crate) fn entry_place(
    alloc: Global,
    env: &[(Vec<u8>, Vec<u8>)],
    config: &[u8],
    file: &[u8],
    text: &[u8],
    code: u32,
) -> Place {
    let Some(tables) = tables_of(alloc, env, config) else {
        return unplaced(alloc);
    };
    match refused_line(alloc, &tables, file, text, code) {
        Some((number, line)) => {
            let mut digits = Buffer::new();
            at_entry(alloc, file, digits.format(number).as_bytes(), line)
        }
        None => unplaced(alloc),
    }
}

/// The line of a file with its number and its text.
fn at_entry<'t>(alloc: Global, file: &'t [u8], number: &'t [u8], line: &'t [u8]) -> Place {
    let texts = [
        b"at ".as_slice(),
        file,
        b":",
        number,
        b": \"",
        line,
        b"\": ",
    ];
    placed(alloc, &texts, b"")
}

/// The number and the text of the first line of a file that is refused with this code.
fn refused_line<'t>(
    alloc: Global,
    tables: &TableSpecs,
    file: &[u8],
    text: &'t [u8],
    code: u32,
) -> Option<(u64, &'t [u8])> {
    let at = table_of(tables.as_slice(), file)?;
    let spec = tables.spec(at)?;
    let mut rest = text;
    let mut entries = 0u64;
    for number in 1..u64::MAX {
        let (line, after) = first_line(rest);
        if let Some(entry) = entry_of(line, spec.two_column) {
            let fault = entry_code(alloc, at, spec, tables.heads_as_slice(), entry);
            if fault == Some(code)
                || fault.is_none() && entries == MOST_ENTRIES && code == FILE_TOO_LONG
            {
                return Some((number, line));
            }
            if fault.is_some() {
                return None;
            }
            entries = entries.saturating_add(1);
        }
        rest = after?;
    }
    None
}

/// The key and the value of a line, where it has an entry.
fn entry_of(line: &[u8], two_column: bool) -> Option<(&[u8], &[u8])> {
    if line.starts_with(b"#") {
        return None;
    }
    let text = trimmed(line);
    if text.is_empty() {
        return None;
    }
    if !two_column {
        return Some((text, b""));
    }
    match text.iter().position(|byte| is_blank(*byte)) {
        Some(end) if end < text.len() => {
            let (key, value) = text.split_at(end);
            Some((key, trimmed(value)))
        }
        _ => Some((text, b"")),
    }
}

fn is_blank(byte: u8) -> bool {
    byte == b' ' || byte == b'\t'
}

/// A text without the blanks around it, and without carriage returns at its end.
fn trimmed(text: &[u8]) -> &[u8] {
    let mut left = text;
    while let [b' ' | b'\t', rest @ ..] = left {
        left = rest;
    }
    while let [rest @ .., b' ' | b'\t' | b'\r'] = left {
        left = rest;
    }
    left
}

/// The code with which an entry is refused, if it is, by the heads of its reference and the types
/// of its values.
fn entry_code(
    alloc: Global,
    table: usize,
    spec: &TableSpec,
    heads: &[HeadSpec],
    entry: (&[u8], &[u8]),
) -> Option<u32> {
    let (key, value) = entry;
    let mut rest = heads;
    while let [head, others @ ..] = rest {
        if head.table as usize == table && is_no_pattern(alloc, head.by, head.ci, key) {
            return Some(BAD_PATTERN);
        }
        rest = others;
    }
    if spec.out_int && read_i64(value).is_none() || spec.out_ip && read_ip(value).is_none() {
        return Some(BAD_VALUE);
    }
    None
}

/// Whether a key is no pattern of this method.
fn is_no_pattern(alloc: Global, by: By, ci: bool, key: &[u8]) -> bool {
    let mut maker = PlainMaker::new();
    match by {
        By::Found => false,
        By::Bool => false,
        by => is_malformed(&parse(alloc, by, ci, key, &mut maker)),
    }
}

/// Whether a text is no pattern for its form.
fn is_malformed(pattern: &Result<Pattern, PatFault>) -> bool {
    match pattern {
        Ok(_) => false,
        Err(PatFault::TooLarge) => false,
        Err(PatFault::NoMemory) => false,
        Err(_) => true,
    }
}
