ghost use Rattle.std.specs.Prelude.{◌≡◌, ◌≤◌, ◌++◌, length, option_map, IfOk, OnOk};
ghost use Rattle.std.specs.List.{list_all, list_any};
ghost use Rattle.std.specs.Option.{option_copied};
ghost use Rattle.hx_config.specs.Accounts.{account_in, account_of, account_test, accounts_in};
ghost use Rattle.hx_config.specs.Accounts.{are_plain, asked_groups, call_test, closes};
ghost use Rattle.hx_config.specs.Accounts.{has_plain_password, is_asked, is_in, is_listed};
ghost use Rattle.hx_config.specs.Accounts.{is_member, is_no_flag, is_plain_user, is_user, lists_user};
ghost use Rattle.hx_config.specs.Accounts.{names_user, one_argument, options_of, user_value, userlist_of};
ghost use Rattle.hx_config.specs.Accounts.{test_length, users_test, words_in_test};

use crate::lines::Line;
use crate::monitoring::EXACTLY;
use crate::options::{OptionRow, after_options, value_of};
use crate::titles::word_at;
use crate::words::{push, push_texts};
use hx_text::{NoMemory, Octets, cut_at};
use std::alloc::Global;

/// The options of a user of a userlist, with a letter for each argument (HAProxy configuration
/// manual 2.6, section 3.4).
pub(crate) const USER_OPTIONS: [OptionRow; 3] = [
    (b"password", b"t"),
    (b"insecure-password", b"t"),
    (b"groups", b"t"),
];

/// Those of a group.
pub(crate) const GROUP_OPTIONS: [OptionRow; 1] = [(b"users", b"t")];

/// The name and the password that a request gives, as `NAME:PASSWORD`: what follows the scheme in
/// the first value of `Authorization`, decoded. HAProxy takes each beginning of `Basic` for it.
pub(crate) const AUTHORIZATION: &[u8] = b"req.hdr(Authorization,1),\
    regsub(\"^(?:[bB](?:[aA](?:[sS](?:[iI][cC]?)?)?)? +(.*)|.*)$\",\"\\1\"),b64dec";

/// The words of a test with this criterion and these words after it, where it asks who comes in and
/// can be said by the userlists of these lines.
#[tactic(auto, unfolding(crate::specs::Accounts::account_test))]
pub(crate) fn account_test(
    alloc: Global,
    lines: &[Line<'_>],
    criterion: &[u8],
    after: &[Octets],
) -> Result<Option<Vec<Octets>>, NoMemory>
    ensures { IfOk result (λ found. option_map (λ test. test.items) found
        ≡ account_test lines.now criterion.now after.now) }
{
    match one_argument(criterion) {
        Some((fetch, list)) => call_test(alloc, lines, words_in_test(after), fetch, list),
        None => Ok(None),
    }
}

/// The name and the one argument of a call.
fn one_argument(word: &[u8]) -> Option<(&[u8], &[u8])>
    ensures { option_map (λ call. (call.0.now, call.1.now)) result ≡ one_argument word.now }
{
    match cut_at(b'(', word) {
        Some((name, rest)) => match cut_at(b')', rest) {
            Some((argument, after)) if after.is_empty() => Some((name, argument)),
            _ => None,
        },
        None => None,
    }
}

/// The words up to the end of a test.
fn words_in_test(after: &[Octets]) -> &[Octets]
    ensures { result.now ≡ words_in_test after.now }
{
    &after[..test_length(after)]
}

fn test_length(after: &[Octets]) -> usize
    ensures value { result ≡ test_length after.now }
    ensures within { result ≤ length after.now }
{
    let mut count = 0usize;
    let mut rest = after;
    while let [word, others @ ..] = rest {
        if closes(word.as_slice()) {
            return count;
        }
        count += 1;
        rest = others;
    }
    count
}

/// Whether a word ends a test.
pub(crate) fn closes(word: &[u8]) -> bool
    ensures { result ≡ closes word.now }
{
    word == b"}".as_slice()
}

/// The test of a fetch over this userlist with these words after it.
fn call_test(
    alloc: Global,
    lines: &[Line<'_>],
    words: &[Octets],
    fetch: &[u8],
    list: &[u8],
) -> Result<Option<Vec<Octets>>, NoMemory>
    ensures { IfOk result (λ found. option_map (λ test. test.items) found
        ≡ call_test lines.now words.now (fetch.now, list.now)) }
{
    let Some(groups) = asked_groups(fetch, words) else {
        return Ok(None);
    };
    match userlist_of(list, lines) {
        Some(section) => users_test(alloc, lines, groups, section),
        None => Ok(None),
    }
}

/// The groups that a fetch with these words after it asks for, and no words for any.
fn asked_groups<'w>(fetch: &[u8], words: &'w [Octets]) -> Option<&'w [Octets]>
    ensures { option_copied result ≡ asked_groups fetch.now words.now }
{
    if fetch == b"http_auth".as_slice() {
        if words.is_empty() { Some(&[]) } else { None }
    } else if fetch == b"http_auth_group".as_slice() && !words.is_empty() && are_no_flags(words) {
        Some(words)
    } else {
        None
    }
}

fn are_no_flags(words: &[Octets]) -> bool
    ensures { result ≡ list_all is_no_flag words.now }
{
    let mut rest = words;
    while let [word, others @ ..] = rest {
        if !is_no_flag(word.as_slice()) {
            return false;
        }
        rest = others;
    }
    true
}

fn is_no_flag(word: &[u8]) -> bool
    ensures { result ≡ is_no_flag word.now }
{
    match word {
        [byte, ..] => *byte != b'-',
        [] => true,
    }
}

/// The section of the first userlist of this name.
fn userlist_of(name: &[u8], lines: &[Line<'_>]) -> Option<u64>
    ensures { result ≡ userlist_of name.now lines.now }
{
    let mut rest = lines;
    while let [line, others @ ..] = rest {
        let words = line.words();
        if word_at(words, 0) == b"userlist".as_slice()
            && words.len() > 1
            && word_at(words, 1) == name
        {
            return Some(line.section());
        }
        rest = others;
    }
    None
}

/// The words of a test that one of the users of a section asks, of these groups where there are
/// some.
fn users_test(
    alloc: Global,
    lines: &[Line<'_>],
    groups: &[Octets],
    section: u64,
) -> Result<Option<Vec<Octets>>, NoMemory>
    ensures { IfOk result (λ found. option_map (λ test. test.items) found
        ≡ users_test lines.now groups.now section) }
{
    if !are_plain(section, lines) {
        return Ok(None);
    }
    let mut out = Vec::new(alloc);
    push(alloc, &mut out, AUTHORIZATION)?;
    push_texts(alloc, &mut out, &EXACTLY)?;
    push_accounts(alloc, &mut out, section, lines, groups)?;
    Ok(Some(out))
}

/// Whether all users of a section have passwords that aren't encrypted, and names of their own that
/// a request can give.
fn are_plain(section: u64, lines: &[Line<'_>]) -> bool
    ensures { result ≡ are_plain section lines.now }
{
    let mut rest = lines;
    while let [line, others @ ..] = rest {
        if is_user(section, line) {
            let words = line.words();
            if !is_plain_user(words) || names_user(section, word_at(words, 1), others) {
                return false;
            }
        }
        rest = others;
    }
    true
}

/// Whether a line of this section begins with this keyword.
fn is_in(section: u64, keyword: &[u8], line: &Line<'_>) -> bool
    ensures { result ≡ is_in section keyword.now line.now }
{
    line.section() == section && word_at(line.words(), 0) == keyword
}

fn is_user(section: u64, line: &Line<'_>) -> bool
    ensures { result ≡ is_user section line.now }
{
    is_in(section, b"user", line)
}

fn names_user(section: u64, name: &[u8], lines: &[Line<'_>]) -> bool
    ensures { result ≡ names_user section name.now lines.now }
{
    let mut rest = lines;
    while let [line, others @ ..] = rest {
        if is_user(section, line) && word_at(line.words(), 1) == name {
            return true;
        }
        rest = others;
    }
    false
}

/// Whether the user of these words has a password that isn't encrypted, and no other.
fn has_plain_password(words: &[Octets]) -> bool
    ensures { result ≡ has_plain_password words.now }
{
    match after_options(&USER_OPTIONS, options_of(words)) {
        Some(rest) => {
            rest.is_empty()
                && user_value(b"insecure-password", words).is_some()
                && user_value(b"password", words).is_none()
        }
        None => false,
    }
}

/// The same, with a name that a request can give.
fn is_plain_user(words: &[Octets]) -> bool
    ensures { result ≡ is_plain_user words.now }
{
    has_plain_password(words) && cut_at(b':', word_at(words, 1)).is_none()
}

/// The words after the keyword and the name of a user or a group.
fn options_of(words: &[Octets]) -> &[Octets]
    ensures { result.now ≡ options_of words.now }
{
    match words {
        [_, _, options @ ..] => options,
        _ => &[],
    }
}

fn user_value<'w>(option: &[u8], words: &'w [Octets]) -> Option<&'w [u8]>
    ensures { option_copied result ≡ user_value option.now words.now }
{
    value_of(&USER_OPTIONS, option, options_of(words))
}

/// Appends the accounts of those users of a section who are asked for.
fn push_accounts(
    alloc: Global,
    out: &mut Vec<Octets>,
    section: u64,
    lines: &[Line<'_>],
    groups: &[Octets],
) -> Result<(), NoMemory>
    ensures { OnOk result (out.new.items
        ≡ out.old.items ++ accounts_in section lines.now groups.now lines.now) }
{
    let mut rest = lines;
    while let [line, others @ ..] = rest {
        push_account(alloc, out, section, lines, groups, line)?;
        rest = others;
    }
    Ok(())
}

/// Appends the account of a line, where it is of a user who is asked for.
fn push_account(
    alloc: Global,
    out: &mut Vec<Octets>,
    section: u64,
    lines: &[Line<'_>],
    groups: &[Octets],
    line: &Line<'_>,
) -> Result<(), NoMemory>
    ensures { OnOk result (out.new.items
        ≡ out.old.items ++ account_in section lines.now groups.now line.now) }
{
    if is_user(section, line) && is_asked(section, lines, groups, line.words()) {
        out.push(account_of(alloc, line.words())?)?;
    }
    Ok(())
}

/// `NAME:PASSWORD` of the user of these words.
fn account_of(alloc: Global, words: &[Octets]) -> Result<Octets, NoMemory>
    ensures { IfOk result (λ account. account ≡ account_of words.now) }
{
    let mut text = Vec::new(alloc);
    text.extend_from_slice(word_at(words, 1))?;
    text.extend_from_slice(b":")?;
    text.extend_from_slice(user_value(b"insecure-password", words).unwrap_or(b""))?;
    Ok(Octets::from_vec(text))
}

/// Whether the user of these words is in one of these groups, or there are none.
fn is_asked(section: u64, lines: &[Line<'_>], groups: &[Octets], user: &[Octets]) -> bool
    ensures { result ≡ is_asked section lines.now groups.now user.now }
{
    groups.is_empty() || is_in_one(section, lines, groups, user)
}

fn is_in_one(section: u64, lines: &[Line<'_>], groups: &[Octets], user: &[Octets]) -> bool
    ensures { result
        ≡ list_any (λ group. is_member section lines.now user.now group) groups.now }
{
    let mut rest = groups;
    while let [group, others @ ..] = rest {
        if is_member(section, lines, user, group.as_slice()) {
            return true;
        }
        rest = others;
    }
    false
}

/// Whether the user of these words is in a group.
fn is_member(section: u64, lines: &[Line<'_>], user: &[Octets], group: &[u8]) -> bool
    ensures { result ≡ is_member section lines.now user.now group.now }
{
    is_listed(group, user_value(b"groups", user).unwrap_or(b""))
        || is_listed_below(section, lines, word_at(user, 1), group)
}

/// Whether one of these lines says of a group that it has a user of this name.
fn is_listed_below(section: u64, lines: &[Line<'_>], user: &[u8], group: &[u8]) -> bool
    ensures { result ≡ list_any (λ line. lists_user section group.now user.now line) lines.now }
{
    let mut rest = lines;
    while let [line, others @ ..] = rest {
        if lists_user(section, group, user, line) {
            return true;
        }
        rest = others;
    }
    false
}

fn lists_user(section: u64, group: &[u8], user: &[u8], line: &Line<'_>) -> bool
    ensures { result ≡ lists_user section group.now user.now line.now }
{
    let words = line.words();
    is_in(section, b"group", line)
        && word_at(words, 1) == group
        && is_listed(
            user,
            value_of(&GROUP_OPTIONS, b"users", options_of(words)).unwrap_or(b""),
        )
}

/// Whether a name is one of those between commas.
fn is_listed(name: &[u8], text: &[u8]) -> bool
    ensures { result ≡ is_listed name.now text.now }
{
    let mut rest = text;
    while let Some((piece, after)) = cut_at(b',', rest) {
        if piece == name {
            return true;
        }
        rest = after;
    }
    rest == name
}
