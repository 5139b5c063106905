ghost use Rattle.std.specs.Prelude.{◌≡◌, []};
ghost use Rattle.std.specs.Option.{option_copied};

use crate::ending::Ending;
use crate::file_place::{entry_place, naming_line};
use crate::line_place::line_place;
use crate::recent_record::RecentRecord;
use crate::record_place::record_place;
use crate::spelling::push_escaped;
use hx_outside::Files;
use hx_program::{BAD_PATTERN, BAD_VALUE, FILE_TOO_LONG};
use itoa::Buffer;
use std::alloc::{AllocError, Global};

/// The most bytes of a word or a line that are told.
const MOST: usize = 200;

/// Where a fault is, in words that end in `: `, and what is wrong there, where more is known than
/// its code says. Both are empty where nothing is known.
#[derive(Drop)]
pub struct Place {
    pub text: Vec<u8>,
    pub reason: &'static [u8],
}

/// What is known of the configuration of which an ending speaks.
#[derive(Clone, Copy)]
pub struct KnownConfig<'t> {
    /// its name
    pub name: &'t [u8],
    /// its text, where it was read
    pub text: Option<&'t [u8]>,
    /// the name of the file that was read last after it, whatever came of it
    pub file: Option<&'t [u8]>,
}

impl<'t> KnownConfig<'t> {
    /// What is known of the configuration `name`. The texts may have lifetimes of their own.
    pub fn new(name: &'t [u8], text: Option<&'t [u8]>, file: Option<&'t [u8]>) -> KnownConfig<'t>
        ensures name { result.name.now ≡ name.now }
        ensures text { option_copied result.text ≡ option_copied text.entry }
        ensures file { option_copied result.file ≡ option_copied file.entry }
    {
        KnownConfig { name, text, file }
    }
}

/// Nothing is known of the place.
pub(crate) fn unplaced(alloc: Global) -> Place
    ensures { result.text.items ≡ [] }
{
    Place {
        text: Vec::new(alloc),
        reason: b"",
    }
}

/// A place in words, with a reason. Nothing where memory runs out.
pub(crate) fn placed(alloc: Global, words: &[&[u8]], reason: &'static [u8]) -> Place {
    let mut text = Vec::new(alloc);
    match push_all(&mut text, words) {
        Ok(()) => Place { text, reason },
        Err(_) => unplaced(alloc),
    }
}

/// Appends texts as they are shown.
fn push_all(out: &mut Vec<u8>, texts: &[&[u8]]) -> Result<(), AllocError> {
    let mut rest = texts;
    while let [text, others @ ..] = rest {
        push_shown(out, text)?;
        rest = others;
    }
    Ok(())
}

/// Appends a text as it is shown: its beginning, with control bytes as `\x` and two digits.
fn push_shown(out: &mut Vec<u8>, text: &[u8]) -> Result<(), AllocError> {
    for byte in &text[..text.len().min(MOST)] {
        if byte.is_ascii_control() {
            push_escaped(out, *byte)?;
        } else {
            out.extend_from_slice(&[*byte])?;
        }
    }
    if text.len() > MOST {
        out.extend_from_slice(b"..")?;
    }
    Ok(())
}

/// Where the fault is of a run that ended so: in a configuration its word or, where an entry of a
/// file is refused, the file and its line; of a file that can't be read, the line that names it; in
/// a record the line, and by `requests`, the number of those that were answered, the request.
///
/// The file is read again for it from `files`, and so are the lines of the configuration, under the
/// environment `env`. Where the text of the configuration isn't known, where a file isn't as it
/// was, where an ending has no such place (`too_large`, `other`), and where memory runs out,
/// nothing is told. Contracts say nothing of the words.
pub fn place_of<F: Files, S>(
    alloc: Global,
    ending: Ending,
    config: &KnownConfig<'_>,
    env: &[(Vec<u8>, Vec<u8>)],
    files: &mut F,
    record: &RecentRecord<S>,
    requests: u64,
) -> Place
    ensures held { F.held files.new ≡ F.held files.old }
    ensures too_large { ending ≡ Ending.TooLarge → result.text.items ≡ [] }
    ensures other { ending ≡ Ending.Other → result.text.items ≡ [] }
{
    match ending {
        Ending::ConfigRefused { line, code } => {
            refused_place(alloc, config, env, files, line, code)
        }
        Ending::UnreadFile => unread_place(alloc, config, env),
        Ending::RecordRefused { offset, code } => {
            record_place(alloc, record, requests, offset, code)
        }
        _ => unplaced(alloc),
    }
}

/// Where a configuration is refused on this line with this code.
fn refused_place<F: Files>(
    alloc: Global,
    config: &KnownConfig<'_>,
    env: &[(Vec<u8>, Vec<u8>)],
    files: &mut F,
    line: u64,
    code: u32,
) -> Place
    ensures held { F.held files.new ≡ F.held files.old }
{
    let Some(text) = config.text else {
        return unplaced(alloc);
    };
    match config.file {
        Some(file) => file_place(alloc, text, env, files, file, code),
        None => line_place(alloc, env, text, line, code),
    }
}

/// The entry of a file with which a configuration of this text is refused, where the code is that
/// of an entry.
fn file_place<F: Files>(
    alloc: Global,
    config: &[u8],
    env: &[(Vec<u8>, Vec<u8>)],
    files: &mut F,
    file: &[u8],
    code: u32,
) -> Place
    ensures held { F.held files.new ≡ F.held files.old }
{
    if code != BAD_PATTERN && code != BAD_VALUE && code != FILE_TOO_LONG {
        return unplaced(alloc);
    }
    match files.read(alloc, file) {
        Ok(text) => entry_place(alloc, env, config, file, &text, code),
        Err(_) => unplaced(alloc),
    }
}

/// The line of a configuration that names the file that was read last.
fn unread_place(alloc: Global, config: &KnownConfig<'_>, env: &[(Vec<u8>, Vec<u8>)]) -> Place {
    let (Some(text), Some(file)) = (config.text, config.file) else {
        return unplaced(alloc);
    };
    let Some(line) = naming_line(alloc, env, text, file) else {
        return unplaced(alloc);
    };
    let mut digits = Buffer::new();
    at_line(alloc, config.name, digits.format(line).as_bytes())
}

/// The line with this number of a file.
fn at_line<'t>(alloc: Global, name: &'t [u8], number: &'t [u8]) -> Place {
    placed(alloc, &[name, b":", number, b": "], b"")
}
