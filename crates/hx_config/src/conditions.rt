ghost use Rattle.std.specs.Prelude.{◌≡◌, ◌++◌, IfOk, OnOk};
ghost use Rattle.hx_config.specs.Conditions.{Criterion, criterion_said, first_state, opens};
ghost use Rattle.hx_config.specs.Conditions.{state_after, state_said, tests_said, word_said};
ghost use Rattle.hx_config.specs.Conditions.{words_said};
ghost use Rattle.hx_config.specs.ConditionView.{state_of};
ghost use Rattle.hx_config.specs.FormatView.{known_view};

use crate::accounts::{account_test, closes};
use crate::formats::{Known, push_expression};
use crate::words::{push, push_all};
use hx_text::{NoMemory, Octets};
use std::alloc::Global;

/// Where a word of a condition stands.
#[derive(Clone, Copy)]
pub(crate) enum TestState {
    /// outside braces
    Outside,
    /// as the criterion of a test
    Criterion,
    /// right after that
    AfterCriterion,
    /// after `-m`
    AfterMethod,
    /// where it is ignored, as by HAProxy after `-m bool`
    Ignored,
    /// further on in a test
    Inside,
}

/// The words of a line with their tests said otherwise.
pub(crate) fn tests_said(
    alloc: Global,
    known: Known<'_>,
    words: &[Octets],
) -> Result<Vec<Octets>, NoMemory>
    ensures { IfOk result
        (λ said. said.items ≡ tests_said (known_view known.entry) words.now) }
{
    let mut out = Vec::new(alloc);
    match words {
        [keyword, name, others @ ..] => {
            push(alloc, &mut out, keyword.as_slice())?;
            push(alloc, &mut out, name.as_slice())?;
            let first = first_state(keyword.as_slice());
            push_words(alloc, &mut out, known, first, others)?;
        }
        _ => push_all(alloc, &mut out, words)?,
    }
    Ok(out)
}

/// Where the third word of a line with this keyword stands.
pub(crate) fn first_state(keyword: &[u8]) -> TestState
    ensures { state_of result ≡ first_state keyword.now }
{
    if keyword == b"acl".as_slice() {
        TestState::Criterion
    } else {
        TestState::Outside
    }
}

/// Appends what stands for these words, of which the first stands there.
fn push_words(
    alloc: Global,
    out: &mut Vec<Octets>,
    known: Known<'_>,
    first: TestState,
    words: &[Octets],
) -> Result<(), NoMemory>
    ensures { OnOk result (out.new.items
        ≡ out.old.items ++ words_said (known_view known.entry) (state_of first) words.now) }
{
    let mut state = first;
    let mut rest = words;
    while let [word, others @ ..] = rest {
        state = push_word(alloc, out, known, state, word.as_slice(), others)?;
        rest = others;
    }
    Ok(())
}

/// Appends what stands for a word that stands there with these words after it, and answers where
/// the next one stands.
fn push_word(
    alloc: Global,
    out: &mut Vec<Octets>,
    known: Known<'_>,
    state: TestState,
    word: &[u8],
    after: &[Octets],
) -> Result<TestState, NoMemory>
    ensures said { OnOk result (out.new.items ≡ out.old.items
        ++ word_said (known_view known.entry) (state_of state) word.now after.now) }
    ensures state { IfOk result (λ next. state_of next
        ≡ state_said (known_view known.entry) (state_of state) word.now after.now) }
{
    match state {
        TestState::Criterion => return push_criterion(alloc, out, known, word, after),
        TestState::Ignored => {
            if closes(word) {
                push(alloc, out, word)?;
            }
        }
        TestState::Outside => push(alloc, out, word)?,
        TestState::AfterCriterion => push(alloc, out, word)?,
        TestState::AfterMethod => push(alloc, out, word)?,
        TestState::Inside => push(alloc, out, word)?,
    }
    Ok(state_after(state, word))
}

/// Appends what stands for a criterion, and answers where the next word stands.
fn push_criterion(
    alloc: Global,
    out: &mut Vec<Octets>,
    known: Known<'_>,
    word: &[u8],
    after: &[Octets],
) -> Result<TestState, NoMemory>
    ensures said { OnOk result (out.new.items ≡ out.old.items
        ++ criterion_said (known_view known.entry) word.now after.now) }
    ensures state { IfOk result (λ next. state_of next
        ≡ state_said (known_view known.entry) Criterion word.now after.now) }
{
    match account_test(alloc, known.lines, word, after)? {
        Some(test) => {
            push_all(alloc, out, test.as_slice())?;
            Ok(TestState::Ignored)
        }
        None => {
            let mut text = Vec::new(alloc);
            push_expression(&mut text, known, word)?;
            out.push(Octets::from_vec(text))?;
            Ok(TestState::AfterCriterion)
        }
    }
}

/// Whether a word is `{`, with any number of `!` before it.
fn opens(word: &[u8]) -> bool
    ensures { result ≡ opens word.now }
{
    let mut rest = word;
    while let [byte, others @ ..] = rest {
        if *byte != b'!' {
            return rest == b"{".as_slice();
        }
        rest = others;
    }
    false
}

/// Where the word after this one stands.
pub(crate) fn state_after(state: TestState, word: &[u8]) -> TestState
    ensures { state_of result ≡ state_after (state_of state) word.now }
{
    match state {
        TestState::Outside => {
            if opens(word) {
                TestState::Criterion
            } else {
                TestState::Outside
            }
        }
        TestState::Criterion => TestState::AfterCriterion,
        TestState::AfterCriterion => {
            if closes(word) {
                TestState::Outside
            } else if word == b"-m".as_slice() {
                TestState::AfterMethod
            } else {
                TestState::Inside
            }
        }
        TestState::AfterMethod => {
            if closes(word) {
                TestState::Outside
            } else if word == b"bool".as_slice() {
                TestState::Ignored
            } else {
                TestState::Inside
            }
        }
        TestState::Ignored => {
            if closes(word) {
                TestState::Outside
            } else {
                TestState::Ignored
            }
        }
        TestState::Inside => {
            if closes(word) {
                TestState::Outside
            } else {
                TestState::Inside
            }
        }
    }
}
