ghost use Rattle.std.specs.Prelude.{◌≡◌, ◌++◌, IfOk, OnOk, map};
ghost use Rattle.hx_config.specs.Frontends.{entry, entry_of, frontends_text, takes_traffic};

use crate::lines::Line;
use hx_text::NoMemory;
use itoa::Buffer;
use std::alloc::Global;

/// The list of what takes traffic: `LINE KEYWORD NAME` for each section `frontend` or `listen`.
pub(crate) fn frontends(alloc: Global, lines: &[Line<'_>]) -> Result<Vec<u8>, NoMemory>
    ensures { IfOk result (λ text. text.items ≡ frontends_text lines.now) }
{
    let mut text = Vec::new(alloc);
    let mut rest = lines;
    while let [line, others @ ..] = rest {
        push_entry(&mut text, line)?;
        rest = others;
    }
    Ok(text)
}

/// Appends the entry of a line, if it has one.
fn push_entry(text: &mut Vec<u8>, line: &Line<'_>) -> Result<(), NoMemory>
    ensures { OnOk result (text.new.items ≡ text.old.items ++ entry_of line.now) }
{
    match line.words() {
        [keyword, name, ..] if takes_traffic(keyword.as_slice()) => {
            push_named(text, line.number(), keyword.as_slice(), name.as_slice())
        }
        _ => Ok(()),
    }
}

/// Whether this is the keyword of a section that takes traffic.
pub(crate) fn takes_traffic(keyword: &[u8]) -> bool
    ensures { result ≡ takes_traffic keyword.now }
{
    keyword == b"frontend".as_slice() || keyword == b"listen".as_slice()
}

/// Appends `LINE KEYWORD NAME`.
fn push_named(text: &mut Vec<u8>, number: u64, keyword: &[u8], name: &[u8]) -> Result<(), NoMemory>
    ensures { OnOk result
        (text.new.items ≡ text.old.items ++ entry number keyword.now name.now) }
{
    let mut digits = Buffer::new();
    text.extend_from_slice(digits.format(number).as_bytes())?;
    text.extend_from_slice(b" ")?;
    text.extend_from_slice(keyword)?;
    text.extend_from_slice(b" ")?;
    text.extend_from_slice(name)?;
    text.extend_from_slice(b"\n")?;
    Ok(())
}
