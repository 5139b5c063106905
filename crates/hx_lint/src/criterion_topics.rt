ghost use Rattle.std.specs.Prelude.{◌≡◌, drop, IfOk};
ghost use Rattle.hx_words.specs.StepView.{step_view};
ghost use Rattle.hx_lint.specs.CriterionTopics.{braces_have, criterion_has, first_is_converter};
ghost use Rattle.hx_lint.specs.CriterionTopics.{first_is_negative, has_method_flag, is_converter};
ghost use Rattle.hx_lint.specs.CriterionTopics.{is_derived, is_keyword, is_negative_text};
ghost use Rattle.hx_lint.specs.CriterionTopics.{is_opening, line_words_have, step_has_method};
ghost use Rattle.hx_lint.specs.CriterionTopics.{step_is_keyword, words_have};

use crate::texts::is_among;
use hx_text::{NoMemory, Octets, cut_at, read_i64};
use hx_words::{CallStep, next_call};
use std::alloc::Global;

/// What makes HAProxy read the words of an ACL otherwise: a row of docs/manual/haproxy.md each.
#[derive(Clone, Copy)]
pub enum CriterionTopic {
    /// a converter follows a fetch with a match method in its name
    MethodInName,
    /// the first pattern has the name of a converter
    ConverterAsPattern,
    /// the method is compared, and no match method is said
    MethodCase,
    /// a number below 0 comes first
    NumberFirst,
}

/// The fetches that have names with a match method in them.
pub(crate) const DERIVED: [&[u8]; 6] = [b"base", b"cook", b"hdr", b"path", b"url", b"urlp"];

/// The match methods in these names.
pub(crate) const METHODS: [&[u8]; 7] = [b"beg", b"dir", b"dom", b"end", b"len", b"reg", b"sub"];

/// The names that HAProxy has for ACLs alone, but for those with a match method in them (HAProxy
/// configuration manual 2.6, section 7.3.6).
pub(crate) const KEYWORDS: [&[u8]; 8] = [
    b"base", b"cook", b"hdr", b"method", b"path", b"req_ver", b"url", b"urlp",
];

/// The names of HAProxy's converters that can be written without arguments, or that it refuses
/// where a pattern stands (HAProxy configuration manual 2.6, section 7.3.1).
pub(crate) const CONVERTERS: [&[u8]; 56] = [
    b"add",
    b"and",
    b"b64dec",
    b"base64",
    b"be2dec",
    b"be2hex",
    b"bool",
    b"bytes",
    b"concat",
    b"cpl",
    b"crc32",
    b"crc32c",
    b"cut_crlf",
    b"debug",
    b"digest",
    b"div",
    b"djb2",
    b"even",
    b"field",
    b"hex",
    b"hex2i",
    b"hmac",
    b"host_only",
    b"htonl",
    b"http_date",
    b"iif",
    b"ipmask",
    b"json",
    b"language",
    b"length",
    b"lower",
    b"ltime",
    b"ltrim",
    b"map",
    b"mod",
    b"mul",
    b"neg",
    b"not",
    b"odd",
    b"or",
    b"port_only",
    b"regsub",
    b"rtrim",
    b"sdbm",
    b"sha1",
    b"sha2",
    b"strcmp",
    b"sub",
    b"ub64dec",
    b"ub64enc",
    b"upper",
    b"url_dec",
    b"url_enc",
    b"utime",
    b"word",
    b"xor",
];

/// Whether a word is a number below 0.
pub(crate) fn is_negative_text(word: &[u8]) -> bool
    ensures { result ≡ is_negative_text word.now }
{
    match word {
        [byte, ..] => *byte == b'-' && read_i64(word).is_some(),
        [] => false,
    }
}

fn first_is_negative(words: &[Octets]) -> bool
    ensures { result ≡ first_is_negative words.now }
{
    match words {
        [word, ..] => is_negative_text(word.as_slice()),
        [] => false,
    }
}

fn is_converter(word: &[u8]) -> bool
    ensures { result ≡ is_converter word.now }
{
    is_among(&CONVERTERS, word)
}

fn first_is_converter(words: &[Octets]) -> bool
    ensures { result ≡ first_is_converter words.now }
{
    match words {
        [word, ..] => is_converter(word.as_slice()),
        [] => false,
    }
}

/// Whether `-m` stands among the words up to `}`.
fn has_method_flag(words: &[Octets]) -> bool
    ensures { result ≡ has_method_flag words.now }
{
    let mut rest = words;
    while let [word, others @ ..] = rest {
        if word.as_slice() == b"}".as_slice() {
            return false;
        }
        if word.as_slice() == b"-m".as_slice() {
            return true;
        }
        rest = others;
    }
    false
}

/// Whether a name is that of a fetch with a match method in it.
fn is_derived(name: &[u8]) -> bool
    ensures { result ≡ is_derived name.now }
{
    match cut_at(b'_', name) {
        Some((fetch, method)) => is_among(&DERIVED, fetch) && is_among(&METHODS, method),
        None => false,
    }
}

/// Whether a name is one that HAProxy has for ACLs alone.
fn is_keyword(name: &[u8]) -> bool
    ensures { result ≡ is_keyword name.now }
{
    is_among(&KEYWORDS, name) || is_derived(name)
}

fn step_is_keyword(step: &CallStep<'_>) -> bool
    ensures { result ≡ step_is_keyword (step_view step.now) }
{
    match step {
        CallStep::Last { call, .. } => is_keyword(call.name()),
        CallStep::More { call, .. } => is_keyword(call.name()),
        CallStep::Faulty { name, .. } => is_keyword(name.as_slice()),
    }
}

/// Whether a converter follows a fetch with a match method in its name.
fn step_has_method(step: &CallStep<'_>) -> bool
    ensures { result ≡ step_has_method (step_view step.now) }
{
    match step {
        CallStep::Last { .. } => false,
        CallStep::More { call, .. } => is_derived(call.name()),
        CallStep::Faulty { .. } => false,
    }
}

/// Whether the words of an ACL, a criterion and what follows it, show a topic.
fn criterion_has(
    alloc: Global,
    topic: CriterionTopic,
    criterion: &[u8],
    words: &[Octets],
) -> Result<bool, NoMemory>
    ensures { IfOk result (λ has. has ≡ criterion_has topic criterion.now words.now) }
{
    match topic {
        CriterionTopic::MethodInName => {
            let step = next_call(alloc, criterion, None)?;
            Ok(step_has_method(&step))
        }
        CriterionTopic::ConverterAsPattern => {
            let step = next_call(alloc, criterion, None)?;
            Ok(first_is_converter(words) && !step_is_keyword(&step))
        }
        CriterionTopic::MethodCase => {
            Ok(criterion == b"method".as_slice() && !has_method_flag(words))
        }
        CriterionTopic::NumberFirst => Ok(first_is_negative(words)),
    }
}

fn words_have(alloc: Global, topic: CriterionTopic, words: &[Octets]) -> Result<bool, NoMemory>
    ensures { IfOk result (λ has. has ≡ words_have topic words.now) }
{
    match words {
        [criterion, rest @ ..] => criterion_has(alloc, topic, criterion.as_slice(), rest),
        [] => Ok(false),
    }
}

/// Whether a word is `{`, with any number of `!` before it.
fn is_opening(word: &[u8]) -> bool
    ensures { result ≡ is_opening word.now }
{
    let mut rest = word;
    while let [b'!', others @ ..] = rest {
        rest = others;
    }
    rest == b"{".as_slice()
}

/// Whether the words of an ACL in braces show a topic.
fn braces_have(alloc: Global, topic: CriterionTopic, words: &[Octets]) -> Result<bool, NoMemory>
    ensures { IfOk result (λ has. has ≡ braces_have topic words.now) }
{
    let mut rest = words;
    while let [word, others @ ..] = rest {
        if is_opening(word.as_slice()) && words_have(alloc, topic, others)? {
            return Ok(true);
        }
        rest = others;
    }
    Ok(false)
}

/// Whether the words of an ACL of a line show a topic.
pub(crate) fn line_words_have(
    alloc: Global,
    topic: CriterionTopic,
    words: &[Octets],
) -> Result<bool, NoMemory>
    ensures { IfOk result (λ has. has ≡ line_words_have topic words.now) }
{
    match words {
        [word, rest @ ..] => {
            if word.as_slice() == b"acl".as_slice() {
                words_have(alloc, topic, without_first(rest))
            } else {
                braces_have(alloc, topic, rest)
            }
        }
        [] => Ok(false),
    }
}

/// The words after the first.
fn without_first(words: &[Octets]) -> &[Octets]
    ensures { result.now ≡ drop 1 words.now }
{
    match words {
        [_, rest @ ..] => rest,
        [] => words,
    }
}
