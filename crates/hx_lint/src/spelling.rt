ghost use Rattle.std.specs.Prelude.{◌≡◌, ◌++◌, OnOk};
ghost use Rattle.hx_lint.specs.Spelling.{byte_text, line_text, word_text};

use hx_text::{NoMemory, Octets};

/// Appends the line that has these words.
pub fn push_line(text: &mut Vec<u8>, words: &[Octets]) -> Result<(), NoMemory>
    ensures { OnOk result (text.new.items ≡ text.old.items ++ line_text words.now) }
{
    let [first, others @ ..] = words else {
        return Ok(());
    };
    push_word(text, first.as_slice())?;
    let mut rest = others;
    while let [word, more @ ..] = rest {
        text.extend_from_slice(b" ")?;
        push_word(text, word.as_slice())?;
        rest = more;
    }
    Ok(())
}

/// Appends a word as it is written outside quotes.
pub(crate) fn push_word(text: &mut Vec<u8>, word: &[u8]) -> Result<(), NoMemory>
    ensures { OnOk result (text.new.items ≡ text.old.items ++ word_text word.now) }
{
    if word.is_empty() {
        text.extend_from_slice(b"\"\"")?;
        return Ok(());
    }
    let mut rest = word;
    while let [byte, others @ ..] = rest {
        push_byte(text, *byte)?;
        rest = others;
    }
    Ok(())
}

/// Appends a byte as it is written outside quotes.
fn push_byte(text: &mut Vec<u8>, byte: u8) -> Result<(), NoMemory>
    ensures { OnOk result (text.new.items ≡ text.old.items ++ byte_text byte) }
{
    match byte {
        b'\n' => text.extend_from_slice(b"\\n")?,
        b'\r' => text.extend_from_slice(b"\\r")?,
        b'\t' => text.extend_from_slice(b"\\t")?,
        b' ' | b'#' | b'\\' | b'\'' | b'"' => text.extend_from_slice(&[b'\\', byte])?,
        _ => text.push(byte)?,
    }
    Ok(())
}
