ghost use Rattle.std.specs.Prelude.{◌≡◌, ◌++◌, codes, OnOk};
ghost use Rattle.std.specs.Fmt.{decimal};
ghost use Rattle.std.specs.Option.{option_copied};
ghost use Rattle.hx_config.specs.Configuration.{backend_named, backend_note, fate_note, has_percent};
ghost use Rattle.hx_config.specs.Configuration.{kept_note, note, notes_at, refusal_note};
ghost use Rattle.hx_config.specs.Configuration.{unknown_note};
ghost use Rattle.hx_lint.specs.Spelling.{line_text};
ghost use Rattle.hx_config.specs.FateView.{fate_view};

use crate::fate::Fate;
use crate::lines::Line;
use crate::proxies::has_backend;
use crate::refusals::refusal_of;
use crate::titles::word_at;
use hx_lint::push_line;
use hx_text::{NoMemory, Octets};
use itoa::Buffer;

/// Appends what is said of a line and its fate. `lines` are those of the file of this name.
pub(crate) fn push_notes(
    notes: &mut Vec<u8>,
    file: &[u8],
    lines: &[Line<'_>],
    line: &Line<'_>,
    fate: &Fate,
) -> Result<(), NoMemory>
    ensures { OnOk result (notes.new.items ≡ notes.old.items
        ++ notes_at file.now lines.now line.now (fate_view fate.now)) }
{
    push_fate_note(notes, file, line, fate)?;
    push_kept_note(notes, file, line, fate)?;
    push_backend_note(notes, file, lines, line, fate)
}

/// Appends what was done with a line, and why.
fn push_fate_note(
    notes: &mut Vec<u8>,
    file: &[u8],
    line: &Line<'_>,
    fate: &Fate,
) -> Result<(), NoMemory>
    ensures { OnOk result (notes.new.items
        ≡ notes.old.items ++ fate_note file.now line.now (fate_view fate.now)) }
{
    match fate {
        Fate::Elsewhere => Ok(()),
        Fate::Own => Ok(()),
        Fate::LeftOut(reason) => push_note(notes, file, line, b"left out: ", reason),
        Fate::Otherwise(words, reason) => {
            push_said(notes, file, line, b"written as: ", words.as_slice(), reason)
        }
        Fate::Below(words, reason) => push_said(
            notes,
            file,
            line,
            b"written last as: ",
            words.as_slice(),
            reason,
        ),
    }
}

/// Appends why hxeval refuses what stands at the number of a line, where that is known.
fn push_kept_note(
    notes: &mut Vec<u8>,
    file: &[u8],
    line: &Line<'_>,
    fate: &Fate,
) -> Result<(), NoMemory>
    ensures { OnOk result (notes.new.items
        ≡ notes.old.items ++ kept_note file.now line.now (fate_view fate.now)) }
{
    match fate {
        Fate::Own => push_refusal(notes, file, line, refusal_of(line.words())),
        Fate::Otherwise(words, _) => push_refusal(notes, file, line, refusal_of(words.as_slice())),
        Fate::Elsewhere => Ok(()),
        Fate::LeftOut(_) => Ok(()),
        Fate::Below(_, _) => Ok(()),
    }
}

/// Appends that hxeval refuses a line, where there is a reason.
fn push_refusal(
    notes: &mut Vec<u8>,
    file: &[u8],
    line: &Line<'_>,
    reason: Option<&[u8]>,
) -> Result<(), NoMemory>
    ensures { OnOk result (notes.new.items ≡ notes.old.items
        ++ refusal_note file.now line.now (option_copied reason.entry)) }
{
    match reason {
        Some(reason) => push_note(notes, file, line, b"hxeval refuses it: ", reason),
        None => Ok(()),
    }
}

/// Appends that the file has no backend of the name that a line gives which is written.
fn push_backend_note(
    notes: &mut Vec<u8>,
    file: &[u8],
    lines: &[Line<'_>],
    line: &Line<'_>,
    fate: &Fate,
) -> Result<(), NoMemory>
    ensures { OnOk result (notes.new.items
        ≡ notes.old.items ++ backend_note file.now lines.now line.now (fate_view fate.now)) }
{
    match fate {
        Fate::Own => push_unknown(notes, file, lines, line, backend_named(line.words())),
        Fate::Elsewhere => Ok(()),
        Fate::LeftOut(_) => Ok(()),
        Fate::Otherwise(_, _) => Ok(()),
        Fate::Below(_, _) => Ok(()),
    }
}

/// Appends a note of two parts.
fn push_note(
    notes: &mut Vec<u8>,
    file: &[u8],
    line: &Line<'_>,
    before: &[u8],
    text: &[u8],
) -> Result<(), NoMemory>
    ensures { OnOk result (notes.new.items
        ≡ notes.old.items ++ note file.now line.now (before.now ++ text.now)) }
{
    push_place(notes, file, line)?;
    notes.extend_from_slice(before)?;
    notes.extend_from_slice(text)?;
    notes.extend_from_slice(b"\n")?;
    Ok(())
}

/// Appends a note on the words that are written for a line, and why.
fn push_said(
    notes: &mut Vec<u8>,
    file: &[u8],
    line: &Line<'_>,
    before: &[u8],
    words: &[Octets],
    reason: &[u8],
) -> Result<(), NoMemory>
    ensures { OnOk result (notes.new.items ≡ notes.old.items ++ note file.now line.now
        (before.now ++ line_text words.now ++ codes ": " ++ reason.now)) }
{
    push_place(notes, file, line)?;
    notes.extend_from_slice(before)?;
    push_line(notes, words)?;
    notes.extend_from_slice(b": ")?;
    notes.extend_from_slice(reason)?;
    notes.extend_from_slice(b"\n")?;
    Ok(())
}

/// Appends `hxconfig: FILE:LINE: `.
fn push_place(notes: &mut Vec<u8>, file: &[u8], line: &Line<'_>) -> Result<(), NoMemory>
    ensures { OnOk result (notes.new.items ≡ notes.old.items
        ++ (codes "hxconfig: " ++ file.now ++ codes ":" ++ decimal line.now.number ++ codes ": ")) }
{
    let mut digits = Buffer::new();
    notes.extend_from_slice(b"hxconfig: ")?;
    notes.extend_from_slice(file)?;
    notes.extend_from_slice(b":")?;
    notes.extend_from_slice(digits.format(line.number()).as_bytes())?;
    notes.extend_from_slice(b": ")?;
    Ok(())
}

/// Appends that the file has no backend of this name, where one is named and it has none.
fn push_unknown(
    notes: &mut Vec<u8>,
    file: &[u8],
    lines: &[Line<'_>],
    line: &Line<'_>,
    named: Option<&[u8]>,
) -> Result<(), NoMemory>
    ensures { OnOk result (notes.new.items ≡ notes.old.items
        ++ unknown_note file.now lines.now line.now (option_copied named.entry)) }
{
    match named {
        Some(name) if !has_backend(name, lines) => {
            push_note(
                notes,
                file,
                line,
                b"warning: the file has no backend ",
                name,
            )
        }
        _ => Ok(()),
    }
}

/// The backend that a line names, where it names one by no format.
fn backend_named(words: &[Octets]) -> Option<&[u8]>
    ensures { option_copied result ≡ backend_named words.now }
{
    let keyword = word_at(words, 0);
    let names = keyword == b"use_backend".as_slice() || keyword == b"default_backend".as_slice();
    if names && words.len() > 1 && !has_percent(word_at(words, 1)) {
        Some(word_at(words, 1))
    } else {
        None
    }
}

/// Whether a text has a percent sign.
pub(crate) fn has_percent(text: &[u8]) -> bool
    ensures { result ≡ has_percent text.now }
{
    text.contains(&b'%')
}
