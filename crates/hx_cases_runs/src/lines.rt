//! Lines, and what each is answered.

use crate::calls::called;
use crate::case::Case;
use crate::faults::NEVER;
use crate::text::{numbered, word_and_text};
use hx_cases_base::{CaseFault, number};
use std::alloc::Global;

/// The answers of all lines. A line break ends each.
pub fn answers(alloc: Global, text: &[u8]) -> Result<Vec<u8>, CaseFault> {
    let mut case = Case::new(alloc);
    let mut out = Vec::new(alloc);
    let lines = match text {
        [before @ .., b'\n'] => before,
        _ => text,
    };
    for line in lines.split(|b| *b == b'\n') {
        push_answer(alloc, &mut out, &mut case, line)?;
        out.push(b'\n')?;
    }
    Ok(out)
}

/// Appends the answer of a line, or why it has none.
fn push_answer(
    alloc: Global,
    out: &mut Vec<u8>,
    case: &mut Case,
    line: &[u8],
) -> Result<(), CaseFault> {
    if let [] | [b'#', ..] = line {
        return Ok(());
    }
    match answer(alloc, case, line) {
        Ok(given) => Ok(out.extend_from_slice(given.as_slice())?),
        Err(fault) => Ok(out.extend_from_slice(fault.text().as_bytes())?),
    }
}

/// What a line is answered: a part nothing, and a call as it is shown.
fn answer(alloc: Global, case: &mut Case, line: &[u8]) -> Result<Vec<u8>, CaseFault> {
    let (word, text) = word_and_text(line);
    match word {
        b"times" => take_times(alloc, case, text),
        b"each" => shown_each(alloc, case, text),
        _ => {
            if case.take(alloc, word, text)? {
                return Ok(Vec::new(alloc));
            }
            shown(alloc, case, line)
        }
    }
}

/// `times FIRST LAST PART TEXT`
fn take_times(alloc: Global, case: &mut Case, text: &[u8]) -> Result<Vec<u8>, CaseFault> {
    let (first, text) = word_and_text(text);
    let (last, text) = word_and_text(text);
    let (part, text) = word_and_text(text);
    for count in number(first)?..=number(last)? {
        let digits = format!(in alloc; "{count}")?;
        let text = numbered(alloc, text, digits.as_bytes())?;
        if !case.take(alloc, part, text.as_slice())? {
            return Err(CaseFault::UnknownCall);
        }
    }
    Ok(Vec::new(alloc))
}

/// What a call answers, by `sum` or whole.
fn shown(alloc: Global, case: &Case, call: &[u8]) -> Result<Vec<u8>, CaseFault> {
    let (word, rest) = word_and_text(call);
    if word == b"sum".as_slice() {
        called(alloc, case, rest)?.sum(alloc)
    } else {
        called(alloc, case, call)?.whole(alloc)
    }
}

/// `each PART FIRST LAST CALL`
fn shown_each(alloc: Global, case: &mut Case, text: &[u8]) -> Result<Vec<u8>, CaseFault> {
    let (part, text) = word_and_text(text);
    let (first, text) = word_and_text(text);
    let (last, call) = word_and_text(text);
    let (first, last) = (number(first)?, number(last)?);
    let mut rows = Vec::new(alloc);
    let mut begun = first;
    let mut same = Vec::new(alloc);
    for count in first..=last {
        if !case.faults.set(part, count) {
            return Err(CaseFault::BadArguments);
        }
        let given = shown(alloc, case, call)?;
        if given.as_slice() != same.as_slice() {
            push_row(alloc, &mut rows, begun, count, same.as_slice())?;
            begun = count;
            same = given;
        }
    }
    push_row(
        alloc,
        &mut rows,
        begun,
        last.saturating_add(1),
        same.as_slice(),
    )?;
    case.faults.set(part, NEVER);
    Ok(rows)
}

/// Appends what is answered from one number up to another. An empty answer is none.
fn push_row(
    alloc: Global,
    rows: &mut Vec<u8>,
    first: u64,
    end: u64,
    given: &[u8],
) -> Result<(), CaseFault> {
    if given.is_empty() {
        return Ok(());
    }
    if !rows.is_empty() {
        rows.extend_from_slice(b" | ")?;
    }
    let last = end.saturating_sub(1);
    rows.extend_from_slice(format!(in alloc; "{first} {last} ")?.as_bytes())?;
    Ok(rows.extend_from_slice(given)?)
}
