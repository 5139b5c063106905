ghost use Rattle.std.specs.Prelude.{◌≡◌, ◌+ℤ◌, ◌-ℤ◌, pos, IfOk, Some, None, option_map};
ghost use Rattle.std.specs.Fmt.{signed_decimal};
ghost use Rattle.hx_text.specs.Number.{int_of};
ghost use Rattle.hx_spell.specs.Patterns.{compares_numbers, equal, from_text, keys_of};
ghost use Rattle.hx_spell.specs.Patterns.{number_keys, operator_table, up_to_text};
ghost use Rattle.hx_spell.specs.PatternView.{allows_range, key_after, operator_key};
ghost use Rattle.hx_calls.specs.Tables.{entry_at};

use hx_ast::{Items, Texts};
use hx_calls::lookup::lookup;
use hx_calls::{BAD_ARGUMENT, SpellFault, is_among};
use hx_text::{By, NoMemory, Octets, print_i64, read_i64};
use std::alloc::Global;
use std::marker::Model;

/// How a number is compared with the words after an operator.
#[derive(Clone, Copy)]
pub(crate) enum Operator {
    /// `eq`, which stands before the first operator too
    Equal,
    /// `ge`
    AtLeast,
    /// `gt`
    Above,
    /// `le`
    AtMost,
    /// `lt`
    Below,
}

/// The operators by their words (HAProxy configuration manual 2.4, section 7.1.2).
const OPERATORS: [(&[u8], Operator); 5] = [
    (b"eq", Operator::Equal),
    (b"ge", Operator::AtLeast),
    (b"gt", Operator::Above),
    (b"le", Operator::AtMost),
    (b"lt", Operator::Below),
];

/// The text of the number after the greatest of 64 bits and a sign.
const AFTER_GREATEST: &[u8] = b"9223372036854775808";

/// The text of the number before the least of 64 bits and a sign.
const BEFORE_LEAST: &[u8] = b"-9223372036854775809";

/// The keys up to the first word with a fault, and that fault.
#[derive(Drop)]
pub(crate) struct Keys {
    pub(crate) keys: Texts,
    pub(crate) fault: Option<SpellFault>,
}

impl Model for Keys {
    ghost use Rattle.hx_spell.specs.Patterns.{Keys};

    ghost Value = { Keys };

    ghost view = { λ keys. record { keys = keys.keys; fault = keys.fault } };
}

fn operator_at(word: &[u8]) -> Option<Operator>
    ensures { entry_at operator_table word.now ≡ option_map key_after result }
{
    lookup(&OPERATORS, word)
}

fn number_text(alloc: Global, n: i64) -> Result<Octets, NoMemory>
    ensures { IfOk result (λ text. text ≡ signed_decimal n) }
{
    let mut buffer = [0; 20];
    let len = print_i64(n, &mut buffer);
    Octets::copy(alloc, &buffer[..len])
}

#[tactic(auto, using(crate::proofs::NumberTextLemmas::after_greatest))]
fn text_after(alloc: Global, n: i64) -> Result<Octets, NoMemory>
    ensures { IfOk result (λ text. text ≡ signed_decimal (n +ℤ pos 1)) }
{
    if n == i64::MAX {
        Octets::copy(alloc, AFTER_GREATEST)
    } else {
        number_text(alloc, n + 1)
    }
}

#[tactic(auto, using(crate::proofs::NumberTextLemmas::before_least))]
fn text_before(alloc: Global, n: i64) -> Result<Octets, NoMemory>
    ensures { IfOk result (λ text. text ≡ signed_decimal (n -ℤ pos 1)) }
{
    if n == i64::MIN {
        Octets::copy(alloc, BEFORE_LEAST)
    } else {
        number_text(alloc, n - 1)
    }
}

/// The numbers from this text on.
fn from_text(mut text: Octets) -> Result<Octets, NoMemory>
    ensures { IfOk result (λ key. key ≡ from_text text) }
{
    text.push_all(b":")?;
    Ok(text)
}

/// The numbers up to this text.
fn up_to_text(alloc: Global, text: &[u8]) -> Result<Octets, NoMemory>
    ensures { IfOk result (λ key. key ≡ up_to_text text.now) }
{
    let mut key = Octets::copy(alloc, b":")?;
    key.push_all(text)?;
    Ok(key)
}

/// The key of a number.
fn key_of_number(alloc: Global, operator: Operator, word: &[u8], n: i64) -> Result<Octets, NoMemory>
    ensures { IfOk result (λ key. key ≡ operator_key operator word.now (Some n)) }
{
    match operator {
        Operator::Equal => Octets::copy(alloc, word),
        Operator::AtLeast => from_text(number_text(alloc, n)?),
        Operator::Above => from_text(text_after(alloc, n)?),
        Operator::AtMost => up_to_text(alloc, number_text(alloc, n)?.as_slice()),
        Operator::Below => up_to_text(alloc, text_before(alloc, n)?.as_slice()),
    }
}

/// The key of a word that is no number.
fn key_of_word(alloc: Global, operator: Operator, word: &[u8]) -> Result<Octets, NoMemory>
    ensures { IfOk result (λ key. key ≡ operator_key operator word.now None) }
{
    match operator {
        Operator::Equal => Octets::copy(alloc, word),
        Operator::AtLeast | Operator::Above => from_text(Octets::copy(alloc, word)?),
        Operator::AtMost | Operator::Below => up_to_text(alloc, word),
    }
}

/// The key of a word that is no range.
fn operator_key(alloc: Global, operator: Operator, word: &[u8]) -> Result<Octets, NoMemory>
    ensures { IfOk result (λ key. key ≡ operator_key operator word.now (int_of word.now)) }
{
    match read_i64(word) {
        Some(n) => key_of_number(alloc, operator, word, n),
        None => key_of_word(alloc, operator, word),
    }
}

/// Whether a range may follow the operator.
fn allows_range(operator: Operator) -> bool
    ensures { result ≡ allows_range operator }
{
    match operator {
        Operator::Equal => true,
        _ => false,
    }
}

/// The key of a word after an operator, and none where it is a range that may not follow it.
fn word_key(alloc: Global, operator: Operator, word: &[u8]) -> Result<Option<Octets>, NoMemory>
    ensures { IfOk result (λ key. key ≡ key_after operator word.now) }
{
    if allows_range(operator) {
        Ok(Some(Octets::copy(alloc, word)?))
    } else if is_among(word, b':') {
        Ok(None)
    } else {
        Ok(Some(operator_key(alloc, operator, word)?))
    }
}

/// The keys of words that are compared as numbers.
#[tactic(auto, using(crate::proofs::KeyLemmas::read_on))]
fn number_keys(alloc: Global, words: &[Octets]) -> Result<Keys, NoMemory>
    ensures { IfOk result (λ keys. keys ≡ number_keys equal words.now) }
{
    let mut keys = Items::new(alloc);
    let mut operator = Operator::Equal;
    let mut left = words;
    while let [word, rest @ ..] = left {
        if let Some(next) = operator_at(word.as_slice()) {
            operator = next;
        } else {
            let Some(key) = word_key(alloc, operator, word.as_slice())? else {
                return Ok(Keys {
                    keys,
                    fault: Some(SpellFault::Code(BAD_ARGUMENT)),
                });
            };
            keys.push(key)?;
        }
        left = rest;
    }
    Ok(Keys { keys, fault: None })
}

/// Copies of the words.
pub(crate) fn copies(alloc: Global, words: &[Octets]) -> Result<Texts, NoMemory>
    ensures { IfOk result (λ copied. copied ≡ words.now) }
{
    let mut copied = Items::new(alloc);
    for word in words {
        copied.push(Octets::copy(alloc, word.as_slice())?)?;
    }
    Ok(copied)
}

fn compares_numbers(by: By) -> bool
    ensures { result ≡ compares_numbers by }
{
    match by {
        By::Int | By::Len => true,
        _ => false,
    }
}

/// The keys of inline patterns, up to the first with a fault: the words themselves, or ranges of
/// numbers. Code 10 where a range follows another operator than `eq`.
pub(crate) fn keys_of(alloc: Global, by: By, words: &[Octets]) -> Result<Keys, NoMemory>
    ensures { IfOk result (λ keys. keys ≡ keys_of by words.now) }
{
    if compares_numbers(by) {
        return number_keys(alloc, words);
    }
    Ok(Keys {
        keys: copies(alloc, words)?,
        fault: None,
    })
}
