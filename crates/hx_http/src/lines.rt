//! Header lines by their spans.
ghost use Rattle.std.specs.Prelude.{◌≡◌, ◌<◌, ◌≤◌, ◌↔◌, ◌+◌, [], ◌∷◌, ◌++◌, length, take, map, All, IsTrue};
ghost use Rattle.httparse.specs.Spans.{header_bytes, IsHeaderWithin};
ghost use Rattle.hx_http.specs.Edits.{has_name};
ghost use Rattle.hx_http.specs.Spans.{lines_without};

use httparse::spans::HeaderSpan;

/// Whether the line has the name, in whatever case.
fn has_name(bytes: &[u8], line: HeaderSpan, name: &[u8]) -> bool
    requires { IsHeaderWithin (length bytes.now) line }
    ensures { result ≡ has_name name.now (header_bytes bytes.now line) }
{
    let found = line.name.of(bytes);
    // A line that has it most often writes it as it is asked for, which costs less to tell.
    found == name || found.eq_ignore_ascii_case(name)
}

/// How many of the lines don't have the name.
pub(crate) fn count_others(bytes: &[u8], lines: &[HeaderSpan], name: &[u8]) -> usize
    requires { All (IsHeaderWithin (length bytes.now)) lines.now }
    ensures { result ≡ length (lines_without bytes.now name.now lines.now) }
{
    let mut count = 0;
    for line in lines {
        if !has_name(bytes, *line, name) {
            count += 1;
        }
    }
    count
}

/// The position of the first line that has the name, or the number of lines without one.
fn first_named(bytes: &[u8], lines: &[HeaderSpan], name: &[u8]) -> usize
    requires { All (IsHeaderWithin (length bytes.now)) lines.now }
    ensures none { lines_without bytes.now name.now (take result lines.now)
        ≡ take result lines.now }
    ensures named { result < length lines.now
        → lines_without bytes.now name.now (take (result + 1) lines.now) ≡ take result lines.now }
    ensures within { result ≤ length lines.now }
{
    for i in 0..lines.len() {
        if has_name(bytes, lines[i], name) {
            return i;
        }
    }
    lines.len()
}

/// Moves the lines that don't have the name to the front, in their order, and answers how many
/// these are. Those before the first that has it stay where they are.
fn keep_others(bytes: &[u8], lines: &mut [HeaderSpan], name: &[u8]) -> usize
    requires { All (IsHeaderWithin (length bytes.now)) lines.old }
    ensures kept { take result lines.new ≡ lines_without bytes.now name.now lines.old }
    ensures within { result ≤ length lines.old }
{
    let first = first_named(bytes, lines, name);
    if first == lines.len() {
        return first;
    }
    let mut kept = first;
    for i in first + 1..lines.len() {
        let line = lines[i];
        if !has_name(bytes, line, name) {
            lines[kept] = line;
            kept += 1;
        }
    }
    kept
}

/// Takes away the lines that have the name.
pub(crate) fn remove_named(bytes: &[u8], lines: &mut Vec<HeaderSpan>, name: &[u8])
    requires { All (IsHeaderWithin (length bytes.now)) lines.old.items }
    ensures { lines.new.items ≡ lines_without bytes.now name.now lines.old.items }
{
    let kept = keep_others(bytes, lines, name);
    lines.truncate(kept);
}

/// Puts one line after all others in place of those that have the name. There is one of these at
/// least, so that the list doesn't grow.
pub(crate) fn replace_named(
    bytes: &[u8],
    lines: &mut Vec<HeaderSpan>,
    name: &[u8],
    line: HeaderSpan,
)
    requires within { All (IsHeaderWithin (length bytes.now)) lines.old.items }
    requires some { length (lines_without bytes.now name.now lines.old.items)
        < length lines.old.items }
    ensures { lines.new.items ≡ lines_without bytes.now name.now lines.old.items ++ line ∷ [] }
{
    let kept = keep_others(bytes, lines, name);
    lines[kept] = line;
    lines.truncate(kept + 1);
}

/// Whether both lines have the same name and value, byte by byte.
fn same_line(bytes: &[u8], line: HeaderSpan, other_bytes: &[u8], other: HeaderSpan) -> bool
    requires line { IsHeaderWithin (length bytes.now) line }
    requires other { IsHeaderWithin (length other_bytes.now) other }
    ensures { IsTrue result ↔ (header_bytes bytes.now line ≡ header_bytes other_bytes.now other) }
{
    line.name.of(bytes) == other.name.of(other_bytes)
        && line.value.of(bytes) == other.value.of(other_bytes)
}

/// Whether both lists have the same names and values, in the same order.
pub(crate) fn same_lines(
    bytes: &[u8],
    lines: &[HeaderSpan],
    other_bytes: &[u8],
    other_lines: &[HeaderSpan],
) -> bool
    requires lines { All (IsHeaderWithin (length bytes.now)) lines.now }
    requires other { All (IsHeaderWithin (length other_bytes.now)) other_lines.now }
    ensures { IsTrue result ↔ (map (header_bytes bytes.now) lines.now
        ≡ map (header_bytes other_bytes.now) other_lines.now) }
{
    if lines.len() != other_lines.len() {
        return false;
    }
    // Where an edit has put a line in place of another, it is the last that differs.
    if let Some(last) = lines.len().checked_sub(1) {
        if !same_line(bytes, lines[last], other_bytes, other_lines[last]) {
            return false;
        }
    }
    for i in 0..lines.len() {
        if !same_line(bytes, lines[i], other_bytes, other_lines[i]) {
            return false;
        }
    }
    true
}
