use crate::text::word_and_text;
use hx_cases_base::{CaseFault, id, number};
use hx_text::read_number;

/// A status, the name of a fault, and its numbers.
#[derive(Clone, Copy)]
pub struct Given<'t> {
    pub status: u8,
    pub fault: &'t [u8],
    /// the line or the offset of a refusal
    pub number: u64,
    pub code: u32,
}

/// What is given by the words `STATUS FAULT NUMBER CODE`.
pub fn read_given(text: &[u8]) -> Result<Given<'_>, CaseFault> {
    let (status, text) = word_and_text(text);
    let (fault, text) = word_and_text(text);
    let (line, code) = word_and_text(text);
    Ok(Given {
        status: read_status(status)?,
        fault,
        number: number(line)?,
        code: id(code)?,
    })
}

fn read_status(text: &[u8]) -> Result<u8, CaseFault> {
    match read_number(text, 255) {
        Some(status) => Ok(status as u8),
        None => Err(CaseFault::BadArguments),
    }
}
