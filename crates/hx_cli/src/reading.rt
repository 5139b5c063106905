ghost use Rattle.std.specs.Prelude.{◌≡◌, ◌≢◌, ◌<◌, ◌↔◌, ℕ, Option, None, Some, List, [], ◌∷◌};
ghost use Rattle.std.specs.Prelude.{IfOk, IfSome, IsErrOf, IsTrue, MatchOption, codes, false, option_and_then};
ghost use Rattle.std.specs.Prelude.{if◌then◌else◌, length, slice_index, true};
ghost use Rattle.std.specs.Str.{bytes_eq};
ghost use Rattle.hx_cli.specs.CommandLine.{words_of};
ghost use Rattle.hx_cli.specs.Commands.{addition, command_by, command_of, new_value};
ghost use Rattle.hx_cli.specs.Commands.{of_two_words, of_word, show_command, Spells};
ghost use Rattle.hx_cli.specs.Commands.{version_of_digits, versioned};
ghost use Rattle.hx_cli.specs.declared.command.Command.{Command};
ghost use Rattle.hx_cli.specs.declared.command.Command.TheVariants.{Clear, Commit, Del, Get, Prepare};

use crate::command::Command;
use crate::fault::CommandFault;
use crate::words::words_of;
use hx_ast::Items;
use hx_text::{NoMemory, Octets, read_number};
use std::alloc::Global;

/// The digit that begins no number but 0.
const ZERO: u8 = b'0';

/// The command that a line of the management socket spells, in memory of `alloc` (HAProxy
/// management guide 2.4, section 9.3). None exactly where the line has no words. Words are
/// separated by spaces and tabs; a backslash stands for the byte after it.
///
/// `BadCommand` exactly where the words are those of no command. `NoMemory` where memory runs out.
pub fn read_command(alloc: Global, line: &[u8]) -> Result<Option<Command>, CommandFault>
    ensures command { IfOk result (λ found.
        IfSome found (λ command. Spells command (words_of line.now))) }
    ensures none { IfOk result (λ found. found ≡ None → words_of line.now ≡ []) }
    ensures bad_command { IsErrOf result CommandFault.BadCommand
        → (words_of line.now ≢ [])
        × ((command : Command) → ¬ (Spells command (words_of line.now))) }

    // The same by the function that gives the command of words.
    ensures found { IfOk result (λ found. found ≡ command_of (words_of line.now)) }
    ensures not_found { IsErrOf result CommandFault.BadCommand
        → command_of (words_of line.now) ≡ None }
{
    let words = words_of(alloc, line)?;
    if words.len() == 0 {
        return Ok(None);
    }
    match command_of(alloc, &words)? {
        Some(command) => Ok(Some(command)),
        None => Err(CommandFault::BadCommand),
    }
}

/// The command that these words spell, if they spell one.
#[tactic(auto, using(crate::proofs::CommandLemmas::command_of_kind))]
fn command_of(alloc: Global, words: &Items<Octets>) -> Result<Option<Command>, NoMemory>
    ensures { IfOk result (λ found. found ≡ command_of words.now) }
{
    let Some((verb, words)) = words.as_slice().split_first() else {
        return Ok(None);
    };
    let Some((kind, words)) = words.split_first() else {
        return Ok(None);
    };
    match kind_of_word(kind.as_slice()) {
        Some(is_map) => command_by(alloc, verb.as_slice(), is_map, words),
        None => Ok(None),
    }
}

/// Whether a word is that of maps, or that of lists.
fn kind_of_word(word: &[u8]) -> Option<bool>
    ensures { result ≡ (if bytes_eq word.now (codes "map") then Some true
        else if bytes_eq word.now (codes "acl") then Some false else None) }
{
    if word == b"map".as_slice() {
        Some(true)
    } else if word == b"acl".as_slice() {
        Some(false)
    } else {
        None
    }
}

/// The command of a first word, for lists or for maps, with the words after these two.
fn command_by(
    alloc: Global,
    verb: &[u8],
    is_map: bool,
    words: &[Octets],
) -> Result<Option<Command>, NoMemory>
    ensures { IfOk result (λ found. found ≡ command_by verb.now is_map words.now) }
{
    if verb == b"show".as_slice() {
        show_command(alloc, is_map, words)
    } else if verb == b"get".as_slice() {
        get_command(alloc, is_map, words)
    } else if verb == b"add".as_slice() {
        add_command(alloc, is_map, words)
    } else if verb == b"del".as_slice() {
        del_command(alloc, is_map, words)
    } else if verb == b"set".as_slice() {
        set_command(alloc, is_map, words)
    } else if verb == b"clear".as_slice() {
        clear_command(alloc, is_map, words)
    } else if verb == b"prepare".as_slice() {
        prepare_command(alloc, is_map, words)
    } else if verb == b"commit".as_slice() {
        commit_command(alloc, is_map, words)
    } else {
        Ok(None)
    }
}

/// A version, or none, and the words after it.
#[derive(Clone, Copy)]
struct AfterVersion<'a> {
    ver: Option<u32>,
    words: &'a [Octets],
}

/// The words from where a version may stand. None where a word that begins with `@` is no version.
fn after_version(words: &[Octets]) -> Option<AfterVersion<'_>>
    ensures { MatchOption result
        ((make : Option ℕ → List (List ℕ) → Option Command) → versioned make words.now ≡ None)
        (λ after. (make : Option ℕ → List (List ℕ) → Option Command)
        → versioned make words.now ≡ make after.ver after.words.now) }
{
    let Some((word, rest)) = words.split_first() else {
        return Some(AfterVersion { ver: None, words });
    };
    match word.as_slice() {
        [b'@', digits @ ..] => Some(AfterVersion {
            ver: Some(version_of_digits(digits)?),
            words: rest,
        }),
        _ => Some(AfterVersion { ver: None, words }),
    }
}

/// The version that these digits write, of 32 bits and without a zero before them.
fn version_of_digits(digits: &[u8]) -> Option<u32>
    ensures { result ≡ version_of_digits digits.now }
{
    let number = read_number(digits, u64::from(u32::MAX))?;
    if has_leading_zero(digits) {
        return None;
    }
    Some(number as u32)
}

/// Whether a zero stands before other digits.
fn has_leading_zero(digits: &[u8]) -> bool
    ensures { IsTrue result
        ↔ ((1 < length digits.now) × (slice_index digits.now 0 ≡ ZERO)) }
{
    digits.len() > 1 && digits[0] == ZERO
}

/// The words after `show` and the kind.
fn show_command(alloc: Global, is_map: bool, words: &[Octets]) -> Result<Option<Command>, NoMemory>
    ensures { IfOk result (λ found. found ≡ show_command is_map words.now) }
{
    if words.is_empty() {
        return Ok(Some(Command::ShowAll { map: is_map }));
    }
    let Some(after) = after_version(words) else {
        return Ok(None);
    };
    let [name] = after.words else {
        return Ok(None);
    };
    Ok(Some(Command::Show {
        map: is_map,
        ver: after.ver,
        name: Octets::copy(alloc, name.as_slice())?,
    }))
}

/// The words after `get` and the kind.
fn get_command(alloc: Global, is_map: bool, words: &[Octets]) -> Result<Option<Command>, NoMemory>
    ensures { IfOk result (λ found. found ≡ of_two_words (Get is_map) words.now) }
{
    let [name, value] = words else {
        return Ok(None);
    };
    Ok(Some(Command::Get {
        map: is_map,
        name: Octets::copy(alloc, name.as_slice())?,
        value: Octets::copy(alloc, value.as_slice())?,
    }))
}

/// The words after `add` and the kind.
fn add_command(alloc: Global, is_map: bool, words: &[Octets]) -> Result<Option<Command>, NoMemory>
    ensures { IfOk result (λ found. found ≡ versioned (addition is_map) words.now) }
{
    match after_version(words) {
        Some(after) => addition(alloc, is_map, after.ver, after.words),
        None => Ok(None),
    }
}

/// An addition to a version, or to that which is searched.
fn addition(
    alloc: Global,
    is_map: bool,
    ver: Option<u32>,
    words: &[Octets],
) -> Result<Option<Command>, NoMemory>
    ensures { IfOk result (λ found. found ≡ addition is_map ver words.now) }
{
    match words {
        [name, word] => addition_of_two(alloc, is_map, ver, name.as_slice(), word.as_slice()),
        [name, key, value] => {
            if !is_map {
                return Ok(None);
            }
            Ok(Some(Command::Add {
                map: true,
                ver,
                name: Octets::copy(alloc, name.as_slice())?,
                key: Octets::copy(alloc, key.as_slice())?,
                value: Octets::copy(alloc, value.as_slice())?,
            }))
        }
        _ => Ok(None),
    }
}

/// An addition of two words: of the entries that follow, or of a key without a value.
fn addition_of_two(
    alloc: Global,
    is_map: bool,
    ver: Option<u32>,
    name: &[u8],
    word: &[u8],
) -> Result<Option<Command>, NoMemory>
    ensures { IfOk result (λ found.
        found ≡ addition is_map ver (name.now ∷ word.now ∷ [])) }
{
    if word == b"<<".as_slice() {
        Ok(Some(Command::AddMany {
            map: is_map,
            ver,
            name: Octets::copy(alloc, name)?,
        }))
    } else if is_map {
        Ok(None)
    } else {
        Ok(Some(Command::Add {
            map: false,
            ver,
            name: Octets::copy(alloc, name)?,
            key: Octets::copy(alloc, word)?,
            value: Octets::from_vec(Vec::new(alloc)),
        }))
    }
}

/// The words after `del` and the kind.
fn del_command(alloc: Global, is_map: bool, words: &[Octets]) -> Result<Option<Command>, NoMemory>
    ensures { IfOk result (λ found.
        found ≡ versioned (λ ver. of_two_words (Del is_map ver)) words.now) }
{
    let Some(after) = after_version(words) else {
        return Ok(None);
    };
    let [name, key] = after.words else {
        return Ok(None);
    };
    Ok(Some(Command::Del {
        map: is_map,
        ver: after.ver,
        name: Octets::copy(alloc, name.as_slice())?,
        key: Octets::copy(alloc, key.as_slice())?,
    }))
}

/// The words after `set` and the kind.
fn set_command(alloc: Global, is_map: bool, words: &[Octets]) -> Result<Option<Command>, NoMemory>
    ensures { IfOk result (λ found. found ≡ versioned (new_value is_map) words.now) }
{
    match after_version(words) {
        Some(after) => new_value(alloc, is_map, after.ver, after.words),
        None => Ok(None),
    }
}

/// A change of values in a version, or in that which is searched.
fn new_value(
    alloc: Global,
    is_map: bool,
    ver: Option<u32>,
    words: &[Octets],
) -> Result<Option<Command>, NoMemory>
    ensures { IfOk result (λ found. found ≡ new_value is_map ver words.now) }
{
    if !is_map {
        return Ok(None);
    }
    let [name, key, value] = words else {
        return Ok(None);
    };
    Ok(Some(Command::Set {
        ver,
        name: Octets::copy(alloc, name.as_slice())?,
        key: Octets::copy(alloc, key.as_slice())?,
        value: Octets::copy(alloc, value.as_slice())?,
    }))
}

/// The words after `clear` and the kind.
fn clear_command(alloc: Global, is_map: bool, words: &[Octets]) -> Result<Option<Command>, NoMemory>
    ensures { IfOk result (λ found.
        found ≡ versioned (λ ver. of_word (Clear is_map ver)) words.now) }
{
    let Some(after) = after_version(words) else {
        return Ok(None);
    };
    let [name] = after.words else {
        return Ok(None);
    };
    Ok(Some(Command::Clear {
        map: is_map,
        ver: after.ver,
        name: Octets::copy(alloc, name.as_slice())?,
    }))
}

/// The words after `prepare` and the kind.
fn prepare_command(
    alloc: Global,
    is_map: bool,
    words: &[Octets],
) -> Result<Option<Command>, NoMemory>
    ensures { IfOk result (λ found. found ≡ of_word (Prepare is_map) words.now) }
{
    let [name] = words else {
        return Ok(None);
    };
    Ok(Some(Command::Prepare {
        map: is_map,
        name: Octets::copy(alloc, name.as_slice())?,
    }))
}

/// The words after `commit` and the kind.
fn commit_command(
    alloc: Global,
    is_map: bool,
    words: &[Octets],
) -> Result<Option<Command>, NoMemory>
    ensures { IfOk result (λ found. found ≡ versioned
        (λ ver rest. option_and_then (λ n. of_word (Commit is_map n) rest) ver) words.now) }
{
    let Some(after) = after_version(words) else {
        return Ok(None);
    };
    let Some(ver) = after.ver else {
        return Ok(None);
    };
    let [name] = after.words else {
        return Ok(None);
    };
    Ok(Some(Command::Commit {
        map: is_map,
        ver,
        name: Octets::copy(alloc, name.as_slice())?,
    }))
}
