ghost use Rattle.std.specs.Prelude.{◌≡◌, ◌+◌, ◌++◌, ◌<◌, IfOk, OnOk, option_map, reverse};
ghost use Rattle.std.specs.Option.{option_copied};
ghost use Rattle.hx_config.specs.Proxies.{defaults_above, from_at, from_of, has_backend, holds};
ghost use Rattle.hx_config.specs.Proxies.{is_backend, is_defaults, is_named, is_wanted, sections_at, sections_of};

use crate::frontends::takes_traffic;
use crate::lines::Line;
use crate::titles::word_at;
use hx_text::{NoMemory, Octets};
use std::alloc::Global;

/// The sections whose lines hold for the first frontend or `listen` section of this name, its own
/// first. None where the file has none.
pub(crate) fn sections_of(
    alloc: Global,
    name: &[u8],
    lines: &[Line<'_>],
) -> Result<Option<Vec<u64>>, NoMemory>
    ensures { IfOk result (λ found.
        option_map (λ sections. sections.items) found ≡ sections_of name.now lines.now) }
{
    let mut i = 0usize;
    while i < lines.len() {
        let line = &lines[i];
        if is_named(name, line.words()) {
            return Ok(Some(sections_at(alloc, line, &lines[..i])?));
        }
        i += 1;
    }
    Ok(None)
}

/// The sections whose lines hold for the proxy of a title with these lines above it.
fn sections_at(alloc: Global, title: &Line<'_>, above: &[Line<'_>]) -> Result<Vec<u64>, NoMemory>
    ensures { IfOk result
        (λ sections. sections.items ≡ sections_at title.now (reverse above.now)) }
{
    let mut sections = Vec::new(alloc);
    sections.push(title.number())?;
    push_defaults(&mut sections, from_of(title.words()), above)?;
    Ok(sections)
}

/// Appends the sections of the `defaults` from which settings are taken, the nearest first. `above`
/// are the lines above a title.
fn push_defaults(
    sections: &mut Vec<u64>,
    from: Option<&[u8]>,
    above: &[Line<'_>],
) -> Result<(), NoMemory>
    ensures { OnOk result (sections.new.items ≡ sections.old.items
        ++ defaults_above (option_copied from.entry) (reverse above.now)) }
{
    let mut wanted = from;
    let mut i = above.len();
    while i > 0 {
        i -= 1;
        let line = &above[i];
        if is_wanted(wanted, line.words()) {
            sections.push(line.number())?;
            let Some(name) = from_of(line.words()) else {
                return Ok(());
            };
            wanted = Some(name);
        }
    }
    Ok(())
}

/// The name after `from` on a title.
fn from_of(words: &[Octets]) -> Option<&[u8]>
    ensures { option_copied result ≡ from_of words.now }
{
    if is_defaults(words) && word_at(words, 1) == b"from".as_slice() {
        from_at(1, words)
    } else {
        from_at(2, words)
    }
}

fn from_at(i: usize, words: &[Octets]) -> Option<&[u8]>
    requires { i < 3 }
    ensures { option_copied result ≡ from_at i words.now }
{
    if word_at(words, i) == b"from".as_slice() && words.len() > i + 1 {
        Some(word_at(words, i + 1))
    } else {
        None
    }
}

fn is_defaults(words: &[Octets]) -> bool
    ensures { result ≡ is_defaults words.now }
{
    word_at(words, 0) == b"defaults".as_slice()
}

/// Whether this is the title of a `defaults` section, of this name where one is wanted.
fn is_wanted(wanted: Option<&[u8]>, words: &[Octets]) -> bool
    ensures { result ≡ is_wanted (option_copied wanted.entry) words.now }
{
    match wanted {
        Some(name) => is_defaults(words) && word_at(words, 1) == name,
        None => is_defaults(words),
    }
}

/// Whether this is the title of a section that takes traffic and has this name.
fn is_named(name: &[u8], words: &[Octets]) -> bool
    ensures { result ≡ is_named name.now words.now }
{
    takes_traffic(word_at(words, 0)) && words.len() > 1 && word_at(words, 1) == name
}

/// Whether a line holds for the proxy of these sections.
pub(crate) fn holds(sections: &[u64], line: &Line<'_>) -> bool
    ensures { result ≡ holds sections.now line.now }
{
    let mut rest = sections;
    while let [section, others @ ..] = rest {
        if *section == line.section() {
            return true;
        }
        rest = others;
    }
    false
}

/// Whether the file has a backend of this name.
pub(crate) fn has_backend(name: &[u8], lines: &[Line<'_>]) -> bool
    ensures { result ≡ has_backend name.now lines.now }
{
    let mut rest = lines;
    while let [line, others @ ..] = rest {
        if is_backend(name, line.words()) {
            return true;
        }
        rest = others;
    }
    false
}

/// Whether this is the title of a backend of this name.
fn is_backend(name: &[u8], words: &[Octets]) -> bool
    ensures { result ≡ is_backend name.now words.now }
{
    let keyword = word_at(words, 0);
    (keyword == b"backend".as_slice() || keyword == b"listen".as_slice())
        && words.len() > 1
        && word_at(words, 1) == name
}
