use crate::place::{Place, placed};
use crate::recent_record::{RecentRecord, RecordLine};
use hx_outside::MemSource;
use hx_program::{BAD_LINE, CUT_REQUEST};
use hx_record::{Reader, RecordFault};
use itoa::Buffer;
use std::alloc::Global;

/// More than the longest line that is read again.
const LIMIT: u64 = 1_000_000;

const LINE: &[u8] = b"unknown event, words missing or too many, or a word that is no address";

const AFTER_REQUEST: &[u8] = b"a request ends before this byte, where a line feed has to follow: \
    the LEN of its req line isn't its length, or the line feed is missing";

const CUT: &[u8] = b"the record ends inside the request that begins here, or its LEN is too large";

/// What is wrong with a record, and whether it is in a request that isn't answered.
#[derive(Clone, Copy)]
struct Wrong {
    reason: &'static [u8],
    is_inside: bool,
}

/// Where a record is refused at this offset with this code, after so many requests: their number,
/// the line with its number as far as it is known, and what is wrong there where that is known.
pub(crate) fn record_place<S>(
    alloc: Global,
    record: &RecentRecord<S>,
    requests: u64,
    offset: u64,
    code: u32,
) -> Place {
    match record.line_at(alloc, offset) {
        Some(line) => {
            let wrong = wrong_at(alloc, &line, code);
            line_place(alloc, &line, requests, wrong)
        }
        None => request_place(alloc, requests, wrong_by(code)),
    }
}

/// The place by the number of the request.
fn request_place(alloc: Global, requests: u64, wrong: Wrong) -> Place {
    let mut digits = Buffer::new();
    let number = digits.format(request_number(requests, wrong)).as_bytes();
    in_request(alloc, requests, number, wrong)
}

fn in_request(alloc: Global, requests: u64, number: &[u8], wrong: Wrong) -> Place {
    let words = request_words(requests, wrong, number);
    placed(alloc, &[words, number, b": "], wrong.reason)
}

/// The same with the line.
fn line_place(alloc: Global, line: &RecordLine, requests: u64, wrong: Wrong) -> Place {
    let mut of_line = Buffer::new();
    let mut of_request = Buffer::new();
    let number = of_line.format(line.number).as_bytes();
    let request = of_request
        .format(request_number(requests, wrong))
        .as_bytes();
    in_line(alloc, number, &line.text, requests, request, wrong)
}

/// The same with all numbers as texts. The line is told where it has bytes.
fn in_line<'t>(
    alloc: Global,
    number: &'t [u8],
    text: &'t [u8],
    requests: u64,
    request: &'t [u8],
    wrong: Wrong,
) -> Place {
    let words = request_words(requests, wrong, number);
    if text.is_empty() {
        let texts = [b"line ".as_slice(), number, b", ", words, request, b": "];
        return placed(alloc, &texts, wrong.reason);
    }
    let texts = [
        b"line ".as_slice(),
        number,
        b", ",
        words,
        request,
        b", at \"",
        text,
        b"\": ",
    ];
    placed(alloc, &texts, wrong.reason)
}

/// The number of the request that is told, after so many that were answered.
fn request_number(requests: u64, wrong: Wrong) -> u64 {
    if wrong.is_inside {
        requests.saturating_add(1)
    } else {
        requests.max(1)
    }
}

/// What stands before that number, as a text that lives as long as another.
fn request_words<'t>(requests: u64, wrong: Wrong, _other: &'t [u8]) -> &'t [u8] {
    if wrong.is_inside {
        b"in request "
    } else if requests == 0 {
        b"before request "
    } else {
        b"after request "
    }
}

/// What the code alone says.
fn wrong_by(code: u32) -> Wrong {
    if code == CUT_REQUEST {
        Wrong {
            reason: CUT,
            is_inside: true,
        }
    } else {
        Wrong {
            reason: b"",
            is_inside: false,
        }
    }
}

/// What is wrong at a byte where no event begins. A line that would be one by itself is only
/// refused where a request ends before it, and so is one of which that byte isn't the first.
fn wrong_at(alloc: Global, line: &RecordLine, code: u32) -> Wrong {
    if code != BAD_LINE {
        wrong_by(code)
    } else if !line.begins || !is_bad(alloc, &line.text) {
        Wrong {
            reason: AFTER_REQUEST,
            is_inside: true,
        }
    } else {
        Wrong {
            reason: if line.may_end_request { b"" } else { LINE },
            is_inside: false,
        }
    }
}

/// Whether a line is refused by itself, as one that is no event.
fn is_bad(alloc: Global, line: &[u8]) -> bool {
    let Ok(bytes) = Vec::from_slice(alloc, line) else {
        return true;
    };
    let mut source = MemSource::new(bytes, 4096, Vec::new(alloc));
    let mut reader = Reader::new(alloc, LIMIT);
    match reader.next_event(&mut source) {
        Err(RecordFault::Bad { code, .. }) => code == BAD_LINE,
        Err(RecordFault::NoMemory) => true,
        _ => false,
    }
}
