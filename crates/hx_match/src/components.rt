ghost use Rattle.std.specs.Prelude.{◌≡◌, ◌<◌, ◌≤◌, ◌&&◌, length, take, drop, reverse};
ghost use Rattle.std.specs.List.{prefix_len, suffix_len};
ghost use Rattle.hx_sample.specs.Keys.{folded, is_component, is_delimited_part, is_ended, parts_domain, parts_path, trimmed};
ghost use Rattle.hx_match.specs.Read.{is_delim};
ghost use Rattle.hx_match.specs.Needles.{HasPeriods};

use crate::needle::Needle;

/// The bytes between which components stand: those of a path, and those of a host's name.
#[derive(Clone, Copy)]
pub(crate) enum Delims {
    Path,
    Domain,
}

impl Delims {
    fn has(self, byte: u8) -> bool
        ensures { result ≡ is_delim self byte }
    {
        match self {
            Delims::Path => matches!(byte, b'/' | b'?'),
            Delims::Domain => matches!(byte, b'/' | b'?' | b'.' | b':'),
        }
    }
}

fn leading(delims: Delims, text: &[u8]) -> usize
    ensures value { result ≡ prefix_len (is_delim delims) text.now }
    ensures within { result ≤ length text.now }
{
    text.iter().take_while(|b| delims.has(**b)).count()
}

fn trailing(delims: Delims, text: &[u8]) -> usize
    ensures value { result ≡ suffix_len (is_delim delims) text.now }
    ensures within { result ≤ length text.now }
{
    text.iter().rev().take_while(|b| delims.has(**b)).count()
}

/// The text without the delimiters at its ends.
pub(crate) fn trim(delims: Delims, text: &[u8]) -> &[u8]
    ensures { result.now ≡ trimmed (is_delim delims) text.now }
{
    let rest = &text[leading(delims, text)..];
    &rest[..rest.len() - trailing(delims, rest)]
}

/// Whether the text is empty or begins with a delimiter.
fn is_ended(delims: Delims, text: &[u8]) -> bool
    ensures { result ≡ is_ended (is_delim delims) text.now }
{
    match text {
        [] => true,
        [byte, ..] => delims.has(*byte),
    }
}

/// Whether the text is empty or ends with a delimiter.
fn is_ended_before(delims: Delims, text: &[u8]) -> bool
    ensures { result ≡ is_ended (is_delim delims) (reverse text.now) }
{
    if text.is_empty() {
        return true;
    }
    delims.has(text[text.len() - 1])
}

/// Whether the bytes between two places have delimiters or ends of the text on each side.
fn is_between(delims: Delims, text: &[u8], start: usize, end: usize) -> bool
    requires start { start ≤ length text.now }
    requires end { end ≤ length text.now }
    ensures { result ≡ (is_ended (is_delim delims) (reverse (take start text.now))
        && is_ended (is_delim delims) (drop end text.now)) }
{
    is_ended_before(delims, &text[..start]) && is_ended(delims, &text[end..])
}

fn has_delimited(delims: Delims, ci: bool, text: &[u8], part: &Needle) -> bool
    requires periods { HasPeriods part.now }
    requires some { 0 < length part.now.bytes.items }
    ensures { result
        ≡ is_delimited_part (is_delim delims) part.now.bytes.items (folded ci text.now) }
{
    let bytes = part.bytes.as_slice();
    let count = bytes.len();
    let period = part.period();
    let mut start = 0;
    let mut matched = 0;
    while let Some(place) = part.next_place(ci, text, start, matched) {
        if is_between(delims, text, place, place + count) {
            return true;
        }
        start = place + period;
        matched = count - period;
    }
    false
}

/// Whether the part stands in the text between delimiters or ends of the text. The empty part
/// stands nowhere.
pub(crate) fn has_component(delims: Delims, ci: bool, text: &[u8], part: &Needle) -> bool
    requires { HasPeriods part.now }
    ensures { result
        ≡ is_component (is_delim delims) part.now.bytes.items (folded ci text.now) }
{
    !part.bytes.is_empty() && has_delimited(delims, ci, text, part)
}
