use crate::fault::CaseFault;
use crate::line::{expanded, words};
use std::alloc::Global;
use std::fmt::Write;
use std::str;

/// The calls that a program of cases makes.
pub trait Calls {
    /// Makes the call of this name with these arguments, and writes its answer.
    fn call(
        &mut self,
        alloc: Global,
        out: &mut String,
        name: &[u8],
        args: &[Vec<u8>],
    ) -> Result<(), CaseFault>;
}

/// The answers of all lines. A line break ends each.
pub fn answers<C: Calls>(alloc: Global, calls: &mut C, text: &[u8]) -> Result<String, CaseFault> {
    let mut out = String::new(alloc);
    let lines = match text {
        [before @ .., b'\n'] => before,
        _ => text,
    };
    for line in lines.split(|b| *b == b'\n') {
        answer_line(alloc, calls, &mut out, line)?;
        out.push('\n')?;
    }
    Ok(out)
}

/// Writes a line with its answer after ` => `: what its call answers, or why it has no answer. A
/// line that is empty or a comment stands alone.
fn answer_line<C: Calls>(
    alloc: Global,
    calls: &mut C,
    out: &mut String,
    line: &[u8],
) -> Result<(), CaseFault> {
    out.push_str(str::from_utf8(line).map_err(|_| CaseFault::BadEscape)?)?;
    if let [] | [b'#', ..] = line {
        return Ok(());
    }
    out.push_str(" => ")?;
    let mut given = String::new(alloc);
    match answer(alloc, calls, &mut given, line) {
        Ok(()) if given.is_empty() => out.push_str("nothing")?,
        Ok(()) => out.push_str(given.as_str())?,
        Err(fault) => out.push_str(fault.text())?,
    }
    Ok(())
}

/// `is ANSWER CALL ..` says whether the call has that answer; any other line is a call.
fn answer<C: Calls>(
    alloc: Global,
    calls: &mut C,
    out: &mut String,
    line: &[u8],
) -> Result<(), CaseFault> {
    let whole = expanded(alloc, line)?;
    let words = words(alloc, whole.as_slice())?;
    match words.as_slice() {
        [is, wanted, name, args @ ..] if is.as_slice() == b"is".as_slice() => {
            let mut given = String::new(alloc);
            calls.call(alloc, &mut given, name.as_slice(), args)?;
            judge(out, given.as_bytes(), wanted.as_slice())
        }
        [name, args @ ..] => calls.call(alloc, out, name.as_slice(), args),
        [] => Err(CaseFault::UnknownCall),
    }
}

/// Writes whether an answer is the wanted one, and its length.
fn judge(out: &mut String, given: &[u8], wanted: &[u8]) -> Result<(), CaseFault> {
    let len = given.len();
    let verdict = if given == wanted { "yes" } else { "no" };
    Ok(write!(out, "{verdict}, {len} bytes")?)
}
