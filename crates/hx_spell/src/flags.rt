ghost use Rattle.std.specs.Prelude.{◌≡◌, None, option_map};
ghost use Rattle.hx_ast.specs.Acls.{takes_patterns};
ghost use Rattle.hx_spell.specs.FlagView.{flag_of};
ghost use Rattle.hx_spell.specs.Flags.Flag.{File};
ghost use Rattle.hx_spell.specs.Flags.{flag_table, method_table, begins_as_flag, may_stand};
ghost use Rattle.hx_spell.specs.Flags.{flag_argument, flags_from, no_flags};
ghost use Rattle.hx_calls.specs.Known.{ReadsAs, Extends};
ghost use Rattle.hx_calls.specs.Tables.{entry_at};

use crate::flag_table::{FLAGS, Flag, Flags, METHODS, Searched};
use hx_ast::Items;
use hx_calls::lookup::lookup;
use hx_calls::{BAD_ARGUMENT, Knowledge, SpellFault, UNSUPPORTED, width};
use hx_text::{By, Octets};
use std::alloc::Global;
use std::marker::Model;

/// What the flags say, and the words after them.
#[derive(Drop)]
pub(crate) struct AfterFlags<'a> {
    pub(crate) flags: Flags,
    pub(crate) words: &'a [Octets],
}

impl<'a> Model for AfterFlags<'a> {
    ghost use Rattle.hx_spell.specs.Flags.{AfterFlags};

    ghost Value = { AfterFlags };

    ghost view = { λ after. record { flags = after.flags; words = after.words.now } };
}

fn flag_at(word: &[u8]) -> Option<Flag>
    ensures { entry_at flag_table word.now ≡ option_map flag_of result }
{
    lookup(&FLAGS, word)
}

#[tactic(auto, unfolding(crate::specs::Flags::method_table))]
fn method_at(word: &[u8]) -> Option<By>
    ensures { result ≡ entry_at method_table word.now }
{
    lookup(&METHODS, word)
}

/// Whether a word has the form of a flag: a hyphen, and no digit after it.
fn begins_as_flag(word: &[u8]) -> bool
    ensures { result ≡ begins_as_flag word.now }
{
    match word {
        [b'-', second, ..] => !second.is_ascii_digit(),
        [b'-'] => true,
        _ => false,
    }
}

/// Whether the method compares samples with patterns.
pub(crate) fn takes_patterns(by: By) -> bool
    ensures { result ≡ takes_patterns by }
{
    match by {
        By::Found | By::Bool => false,
        _ => true,
    }
}

/// Whether a flag may follow these: a method or a number once, and a file where the method isn't
/// one without patterns.
fn may_stand(flag: Flag, flags: &Flags) -> bool
    ensures { result ≡ may_stand (flag_of flag) flags.now }
{
    match flag {
        Flag::Method => flags.by.is_none(),
        Flag::Number => flags.given.is_none(),
        Flag::File => match flags.by {
            Some(by) => takes_patterns(by),
            None => true,
        },
        _ => true,
    }
}

/// The flags with one more file.
fn with_file(
    known: &mut Knowledge,
    line: u64,
    name: &[u8],
    flags: Flags,
) -> Result<Flags, SpellFault>
    ensures answers { ReadsAs result known.new
        (flag_argument line File name.now flags known.old) }
    ensures extends { Extends known.old known.new }
{
    let mut flags = flags;
    let table = known.named_file(line, name, flags.two)?;
    known.acl(table)?;
    flags.files.push(Searched {
        table,
        ci: flags.ci,
    })?;
    Ok(flags)
}

/// The flags with the argument of one more.
fn with_argument(
    known: &mut Knowledge,
    line: u64,
    flag: Flag,
    text: &[u8],
    flags: Flags,
) -> Result<Flags, SpellFault>
    ensures answers { ReadsAs result known.new
        (flag_argument line (flag_of flag) text.now flags known.old) }
    ensures extends { Extends known.old known.new }
{
    match flag {
        Flag::File => with_file(known, line, text, flags),
        Flag::Method => match method_at(text) {
            Some(by) => Ok(Flags {
                by: Some(by),
                ..flags
            }),
            None => Err(SpellFault::Code(UNSUPPORTED)),
        },
        Flag::Number => match width(text, u32::MAX) {
            Some(n) => Ok(Flags {
                given: Some(n),
                ..flags
            }),
            None => Err(SpellFault::Code(BAD_ARGUMENT)),
        },
        _ => Ok(flags),
    }
}

fn no_flags(alloc: Global, by: Option<By>) -> Flags
    ensures { result ≡ no_flags by }
{
    Flags {
        ci: false,
        two: false,
        by,
        given: None,
        files: Items::new(alloc),
    }
}

/// The flags that words begin with, after a criterion whose name brings the match method `by` or
/// none (HAProxy configuration manual 2.4, section 7.1). They end before the first word that isn't
/// of their form, and after `--`.
///
/// The words are judged from the left. Code 9 for another flag and for another match method, 10
/// for a flag that stands a second time, or before which `-m` says a method without patterns, or
/// whose argument is missing or isn't of its form, and 17 and 23 for a file as
/// `Knowledge::named_file` refuses it.
pub(crate) fn flags_from<'a>(
    known: &mut Knowledge,
    alloc: Global,
    line: u64,
    by: Option<By>,
    words: &'a [Octets],
) -> Result<AfterFlags<'a>, SpellFault>
    ensures answers { ReadsAs result known.new
        (flags_from line None words.now (no_flags by) known.old) }
    ensures extends { Extends known.old known.new }
{
    let mut flags = no_flags(alloc, by);
    let mut awaits = None;
    let mut left = words;
    while let [word, rest @ ..] = left {
        if let Some(flag) = awaits {
            flags = with_argument(known, line, flag, word.as_slice(), flags)?;
            awaits = None;
        } else {
            match flag_at(word.as_slice()) {
                Some(Flag::IgnoreCase) => flags.ci = true,
                Some(Flag::TwoColumns) => flags.two = true,
                Some(Flag::Numeric) => {}
                Some(Flag::End) => return Ok(AfterFlags { flags, words: rest }),
                Some(flag) if may_stand(flag, &flags) => awaits = Some(flag),
                Some(_) => return Err(SpellFault::Code(BAD_ARGUMENT)),
                None if begins_as_flag(word.as_slice()) => {
                    return Err(SpellFault::Code(UNSUPPORTED));
                }
                None => return Ok(AfterFlags { flags, words: left }),
            }
        }
        left = rest;
    }
    match awaits {
        Some(_) => Err(SpellFault::Code(BAD_ARGUMENT)),
        None => Ok(AfterFlags { flags, words: left }),
    }
}
