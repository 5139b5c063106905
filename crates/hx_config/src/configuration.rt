ghost use Rattle.std.specs.Prelude.{◌≡◌, ◌++◌, codes, false, option_map, IfOk, OnOk};
ghost use Rattle.std.specs.Option.{option_copied};
ghost use Rattle.hx_config.specs.Configuration.{configuration_text, notes_text, selection_of};
ghost use Rattle.hx_config.specs.Configuration.{text_at, text_below};
ghost use Rattle.hx_config.specs.FateView.{fate_view, selection_view};
ghost use Rattle.hx_config.specs.Run.{configuration_outcome};
ghost use Rattle.hx_config.specs.RunFault.{outcome_view};

use crate::fate::{Fate, Selection, fate_of, first_rule_in, holds_one};
use crate::lines::Line;
use crate::notes::push_notes;
use crate::proxies::sections_of;
use hx_lint::push_line;
use hx_text::NoMemory;
use std::alloc::Global;

/// What is written of a file: a text, and notes on it; and whether the text says that something is
/// amiss.
#[derive(Drop)]
pub(crate) struct Written {
    pub(crate) text: Vec<u8>,
    pub(crate) notes: Vec<u8>,
    pub(crate) amiss: bool,
}

/// The configuration of the frontend or `listen` section of this name, where TLS comes in at the
/// port `tls`, and notes on what became of
/// its lines. None where the file, of which these are the name and the lines, has no such section.
pub(crate) fn configuration(
    alloc: Global,
    file: &[u8],
    name: &[u8],
    tls: Option<&[u8]>,
    lines: &[Line<'_>],
) -> Result<Option<Written>, NoMemory>
    ensures { IfOk result (λ found.
        outcome_view found
        ≡ configuration_outcome file.now lines.now
        (selection_of name.now (option_copied tls.entry) lines.now)) }
{
    match selection_of(alloc, name, tls, lines)? {
        Some(chosen) => Ok(Some(write(alloc, file, &chosen, lines)?)),
        None => Ok(None),
    }
}

/// The proxy of this name, where the file has one.
fn selection_of<'t>(
    alloc: Global,
    name: &[u8],
    tls: Option<&'t [u8]>,
    lines: &'t [Line<'t>],
) -> Result<Option<Selection<'t>>, NoMemory>
    ensures { IfOk result (λ found. option_map selection_view found
        ≡ selection_of name.now (option_copied tls.entry) lines.now) }
{
    match sections_of(alloc, name, lines)? {
        Some(sections) => {
            let has_default = holds_one(sections.as_slice(), b"default_backend", b"", lines);
            let monitor_fails = holds_one(sections.as_slice(), b"monitor", b"fail", lines);
            let first_rule = first_rule_in(sections.as_slice(), false, lines);
            let first_change = first_rule_in(sections.as_slice(), true, lines);
            Ok(Some(Selection {
                sections,
                has_default,
                monitor_fails,
                first_rule,
                first_change,
                tls,
                lines,
            }))
        }
        None => Ok(None),
    }
}

/// Every line at its number, what stands below the last, and the notes.
fn write(
    alloc: Global,
    file: &[u8],
    chosen: &Selection<'_>,
    lines: &[Line<'_>],
) -> Result<Written, NoMemory>
    ensures text { IfOk result (λ written.
        written.text.items ≡ configuration_text (selection_view chosen.now) lines.now) }
    ensures notes { IfOk result (λ written.
        written.notes.items ≡ notes_text file.now (selection_view chosen.now) lines.now) }
    ensures amiss { IfOk result (λ written. written.amiss ≡ false) }
{
    let mut text = Vec::new(alloc);
    let mut below = Vec::new(alloc);
    let mut notes = Vec::new(alloc);
    let mut rest = lines;
    while let [line, others @ ..] = rest {
        let fate = fate_of(alloc, chosen, others, line)?;
        push_text(&mut text, line, &fate)?;
        push_below(&mut below, &fate)?;
        push_notes(&mut notes, file, lines, line, &fate)?;
        rest = others;
    }
    text.extend_from_slice(below.as_slice())?;
    Ok(Written {
        text,
        notes,
        amiss: false,
    })
}

/// Appends what stands at the number of a line, and a line feed.
fn push_text(text: &mut Vec<u8>, line: &Line<'_>, fate: &Fate) -> Result<(), NoMemory>
    ensures { OnOk result (text.new.items
        ≡ text.old.items ++ (text_at line.now (fate_view fate.now) ++ codes "\n")) }
{
    match fate {
        Fate::Own => text.extend_from_slice(line.text())?,
        Fate::Otherwise(words, _) => push_line(text, words.as_slice())?,
        Fate::Elsewhere => {}
        Fate::LeftOut(_) => {}
        Fate::Below(_, _) => {}
    }
    text.extend_from_slice(b"\n")?;
    Ok(())
}

/// Appends what stands below the last line of the file for a line.
fn push_below(text: &mut Vec<u8>, fate: &Fate) -> Result<(), NoMemory>
    ensures { OnOk result (text.new.items ≡ text.old.items ++ text_below (fate_view fate.now)) }
{
    match fate {
        Fate::Below(words, _) => {
            push_line(text, words.as_slice())?;
            text.extend_from_slice(b"\n")?;
        }
        Fate::Own => {}
        Fate::Otherwise(_, _) => {}
        Fate::Elsewhere => {}
        Fate::LeftOut(_) => {}
    }
    Ok(())
}
