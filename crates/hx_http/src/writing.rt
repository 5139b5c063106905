//! A message written as text. What stands in its bytes as it is to be written is copied at once.
ghost use Rattle.std.specs.Prelude.{◌≡◌, ◌≤◌, ◌++◌, length, map, slice_range, All, IsTrue, OnOk};
ghost use Rattle.std.specs.Fmt.{decimal};
ghost use Rattle.std.specs.List.{flat_map};
ghost use Rattle.httparse.specs.Spans.{header_bytes, IsHeaderWithin};
ghost use Rattle.hx_http.specs.Text.{head_lines, header_line, request_line};

use crate::message::Message;
use httparse::spans::HeaderSpan;
use hx_text::NoMemory;
use std::alloc::AllocError;

impl Message {
    /// Appends the lines of the head, `METHOD TARGET HTTP/1.MINOR` and `NAME: VALUE` for each
    /// header line, with `between` between each two and nothing after the last. Where memory runs
    /// out, perhaps the first bytes of them.
    pub fn append_lines(&self, between: &[u8], text: &mut Vec<u8>) -> Result<(), NoMemory>
        ensures { OnOk result (text.new.items
            ≡ text.old.items ++ head_lines between.now self.now) }
    {
        self.append_request_line(text)?;
        append_header_lines(
            between,
            text,
            self.bytes.as_slice(),
            self.spans.lines.as_slice(),
        )?;
        Ok(())
    }

    fn append_request_line(&self, text: &mut Vec<u8>) -> Result<(), AllocError>
        ensures { OnOk result (text.new.items ≡ text.old.items ++ request_line self.now) }
    {
        text.extend_from_slice(self.method())?;
        text.extend_from_slice(b" ")?;
        text.extend_from_slice(self.target())?;
        if self.minor() == 0 {
            text.extend_from_slice(b" HTTP/1.0")?;
        } else {
            text.extend_from_slice(b" HTTP/1.1")?;
        }
        Ok(())
    }
}

/// Appends each of the header lines that lie in the bytes, with `before` before it.
fn append_header_lines(
    before: &[u8],
    text: &mut Vec<u8>,
    bytes: &[u8],
    lines: &[HeaderSpan],
) -> Result<(), AllocError>
    requires { All (IsHeaderWithin (length bytes.now)) lines.now }
    ensures { OnOk result (text.new.items ≡ text.old.items
        ++ flat_map (λ line. before.now ++ header_line line)
        (map (header_bytes bytes.now) lines.now)) }
{
    for line in lines {
        text.extend_from_slice(before)?;
        append_header_line(text, bytes, *line)?;
    }
    Ok(())
}

/// Appends the header line that lies in the bytes.
fn append_header_line(text: &mut Vec<u8>, bytes: &[u8], line: HeaderSpan) -> Result<(), AllocError>
    requires { IsHeaderWithin (length bytes.now) line }
    ensures { OnOk result (text.new.items
        ≡ text.old.items ++ header_line (header_bytes bytes.now line)) }
{
    if stands_written(bytes, line) {
        text.extend_from_slice(&bytes[line.name.start..line.value.end])?;
        return Ok(());
    }
    text.extend_from_slice(line.name.of(bytes))?;
    text.extend_from_slice(b": ")?;
    text.extend_from_slice(line.value.of(bytes))?;
    Ok(())
}

/// Whether the line stands in the bytes as it is written, with just `: ` between name and value.
fn stands_written(bytes: &[u8], line: HeaderSpan) -> bool
    requires { IsHeaderWithin (length bytes.now) line }
    ensures whole { IsTrue result → slice_range bytes.now line.name.start line.value.end
        ≡ header_line (header_bytes bytes.now line) }
    ensures ordered { IsTrue result → line.name.start ≤ line.value.end }
{
    let colon = line.name.end;
    line.value.start == colon + 2 && bytes[colon] == b':' && bytes[colon + 1] == b' '
}
