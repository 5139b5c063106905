ghost use Rattle.std.specs.Prelude.{◌≡◌, [], ◌++◌, IfOk, OnOk, codes, option_copied, option_map};
ghost use Rattle.std.specs.Prelude.{if◌then◌else◌, unwrap_or};
ghost use Rattle.std.specs.Option.{option_map_or};
ghost use Rattle.std.specs.Fmt.{decimal};
ghost use Rattle.hx_sample.specs.Tables.{entry_of};
ghost use Rattle.hx_cli.specs.Replies.{entry_text, number_text, prepared_text, reference_text, use_text};

use hx_refs::RefInfo;
use hx_sample::Hit;
use hx_text::{By, NoMemory, Octets};
use itoa::Buffer;
use std::alloc::Global;

/// Appends a number in decimal digits; where memory runs out, perhaps the first of them.
pub fn append_decimal(line: &mut Octets, number: u64) -> Result<(), NoMemory>
    ensures { OnOk result (line.new ≡ line.old ++ decimal number) }
{
    let mut digits = Buffer::new();
    line.push_all(digits.format(number).as_bytes())
}

/// Appends the number of an entry, as replies have it; where memory runs out, perhaps the first
/// bytes of it.
pub fn append_number(line: &mut Octets, number: u64) -> Result<(), NoMemory>
    ensures { OnOk result (line.new ≡ line.old ++ number_text number) }
{
    let mut digits = [0; 16];
    let Ok(()) = hex::encode_to_slice(number.to_be_bytes(), &mut digits) else {
        unreachable!()
    };
    line.push_all(b"0x")?;
    line.push_all(&digits)
}

fn append_value(line: &mut Octets, is_map: bool, value: &[u8]) -> Result<(), NoMemory>
    ensures { OnOk result
        (line.new ≡ line.old ++ (if is_map then codes " " ++ value.now else [])) }
{
    if !is_map {
        return Ok(());
    }
    line.push_all(b" ")?;
    line.push_all(value)
}

#[tactic(auto, unfolding(crate::specs::Replies::entry_text))]
fn append_entry(line: &mut Octets, is_map: bool, entry: &Hit<'_>) -> Result<(), NoMemory>
    ensures { OnOk result (line.new ≡ line.old ++ entry_text is_map (entry_of entry.now)) }
{
    append_number(line, entry.number)?;
    line.push_all(b" ")?;
    line.push_all(entry.key)?;
    append_value(line, is_map, entry.value)
}

fn append_found(line: &mut Octets, is_map: bool, found: &Option<Hit<'_>>) -> Result<(), NoMemory>
    ensures { OnOk result (line.new ≡ line.old
        ++ option_map_or (entry_text is_map) (option_map entry_of found.now) (codes "none")) }
{
    match found {
        Some(entry) => append_entry(line, is_map, entry),
        None => line.push_all(b"none"),
    }
}

fn case_name(ci: bool) -> &'static [u8]
    ensures { result.now ≡ (if ci then codes "ci" else codes "cs") }
{
    if ci { b"ci" } else { b"cs" }
}

/// The line of an entry: its number, its key, and in a map its value.
pub(crate) fn entry_line(alloc: Global, is_map: bool, entry: &Hit<'_>) -> Result<Octets, NoMemory>
    ensures { IfOk result (λ line. line ≡ entry_text is_map (entry_of entry.now)) }
{
    let mut line = Octets::from_vec(Vec::new(alloc));
    append_entry(&mut line, is_map, entry)?;
    Ok(line)
}

/// The line of a use of a reference, with what it finds.
#[tactic(auto, unfolding(crate::specs::Replies::use_text))]
pub(crate) fn use_line(
    alloc: Global,
    is_map: bool,
    by: By,
    ci: bool,
    found: &Option<Hit<'_>>,
) -> Result<Octets, NoMemory>
    ensures { IfOk result (λ line.
        line ≡ use_text is_map by ci (option_map entry_of found.now)) }
{
    let mut line = Octets::copy(alloc, by.name())?;
    line.push_all(b" ")?;
    line.push_all(case_name(ci))?;
    line.push_all(b" ")?;
    append_found(&mut line, is_map, found)?;
    Ok(line)
}

/// The line above the references.
pub(crate) fn heading(alloc: Global) -> Result<Octets, NoMemory>
    ensures { IfOk result (λ line. line ≡ codes "# id (file)") }
{
    Octets::copy(alloc, b"# id (file)")
}

fn append_file(line: &mut Octets, file: Option<&[u8]>) -> Result<(), NoMemory>
    ensures { OnOk result (line.new ≡ line.old ++ unwrap_or (option_copied file.entry) []) }
{
    match file {
        Some(file) => line.push_all(file),
        None => Ok(()),
    }
}

/// The line of a reference: its number, its file, its versions, and the number of its entries.
#[tactic(auto, unfolding(crate::specs::Replies::reference_line))]
pub(crate) fn reference_line(
    alloc: Global,
    info: RefInfo,
    file: Option<&[u8]>,
) -> Result<Octets, NoMemory>
    ensures { IfOk result (λ line. line ≡ reference_text info (option_copied file.entry)) }
{
    let mut line = Octets::from_vec(Vec::new(alloc));
    append_decimal(&mut line, u64::from(info.id))?;
    line.push_all(b" (")?;
    append_file(&mut line, file)?;
    line.push_all(b") curr_ver=")?;
    append_decimal(&mut line, u64::from(info.curr))?;
    line.push_all(b" next_ver=")?;
    append_decimal(&mut line, u64::from(info.next))?;
    line.push_all(b" entry_cnt=")?;
    append_decimal(&mut line, info.count)?;
    Ok(line)
}

/// The line that tells which version was prepared.
#[tactic(auto, unfolding(crate::specs::Replies::prepared_text))]
pub(crate) fn prepared_line(alloc: Global, version: u64) -> Result<Octets, NoMemory>
    ensures { IfOk result (λ line. line ≡ prepared_text version) }
{
    let mut line = Octets::copy(alloc, b"New version created: ")?;
    append_decimal(&mut line, version)?;
    Ok(line)
}
