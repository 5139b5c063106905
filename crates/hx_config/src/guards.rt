ghost use Rattle.std.specs.Prelude.{◌≡◌, ◌++◌, true, IfOk, OnOk};
ghost use Rattle.hx_config.specs.Conditions.{Outside};
ghost use Rattle.hx_config.specs.ConditionView.{state_of};
ghost use Rattle.hx_config.specs.Guards.{after_test, found_in, guard_test, is_or};
ghost use Rattle.hx_config.specs.Guards.{not_empty_in, tested, with_guard};

use crate::conditions::{TestState, state_after};
use crate::words::{push, push_all, push_texts};
use hx_text::{NoMemory, Octets};
use std::alloc::Global;

/// The words of a test that this criterion has a value.
pub(crate) fn found_in(alloc: Global, criterion: &[u8]) -> Result<Vec<Octets>, NoMemory>
    ensures { IfOk result (λ test. test.items ≡ found_in criterion.now) }
{
    let mut test = Vec::new(alloc);
    push(alloc, &mut test, criterion)?;
    push(alloc, &mut test, b"-m")?;
    push(alloc, &mut test, b"found")?;
    Ok(test)
}

/// What asks in a test whether a value isn't empty.
pub(crate) const NOT_EMPTY: [&[u8]; 4] = [b"-m", b"len", b"ge", b"1"];

/// The words of a test that the value of this criterion isn't empty.
pub(crate) fn not_empty_in(alloc: Global, criterion: &[u8]) -> Result<Vec<Octets>, NoMemory>
    ensures { IfOk result (λ test. test.items ≡ not_empty_in criterion.now) }
{
    let mut test = Vec::new(alloc);
    push(alloc, &mut test, criterion)?;
    push_texts(alloc, &mut test, &NOT_EMPTY)?;
    Ok(test)
}

/// Appends a condition that holds where this one does and the test of these words holds, or
/// doesn't.
pub(crate) fn push_with_guard(
    alloc: Global,
    out: &mut Vec<Octets>,
    test: &[Octets],
    holds: bool,
    condition: &[Octets],
) -> Result<(), NoMemory>
    ensures { OnOk result (out.new.items
        ≡ out.old.items ++ with_guard test.now holds condition.now) }
{
    let [word, words @ ..] = condition else {
        push(alloc, out, b"if")?;
        return push_guard(alloc, out, test, holds);
    };
    push(alloc, out, word.as_slice())?;
    if word.as_slice() == b"if".as_slice() {
        push_tested(alloc, out, test, holds, words)
    } else if word.as_slice() == b"unless".as_slice() {
        push_all(alloc, out, words)?;
        push(alloc, out, b"or")?;
        push_guard(alloc, out, test, !holds)
    } else {
        push_all(alloc, out, words)
    }
}

/// Appends terms with the test before each conjunction.
fn push_tested(
    alloc: Global,
    out: &mut Vec<Octets>,
    test: &[Octets],
    holds: bool,
    words: &[Octets],
) -> Result<(), NoMemory>
    ensures { OnOk result (out.new.items
        ≡ out.old.items ++ tested (guard_test test.now holds) true Outside words.now) }
{
    let mut state = TestState::Outside;
    let mut is_first = true;
    let mut rest = words;
    while let [word, others @ ..] = rest {
        push_after_test(alloc, out, (test, holds), is_first, state, word.as_slice())?;
        is_first = is_or(state, word.as_slice());
        state = state_after(state, word.as_slice());
        rest = others;
    }
    Ok(())
}

/// Appends a word that stands there, after this test where it is the first of a conjunction.
fn push_after_test(
    alloc: Global,
    out: &mut Vec<Octets>,
    guard: (&[Octets], bool),
    is_first: bool,
    state: TestState,
    word: &[u8],
) -> Result<(), NoMemory>
    ensures { OnOk result (out.new.items ≡ out.old.items
        ++ after_test (guard_test guard.entry.0.now guard.entry.1) is_first (state_of state)
        word.now) }
{
    if is_first && !is_or(state, word) {
        push_guard(alloc, out, guard.0, guard.1)?;
    }
    push(alloc, out, word)
}

/// Whether a word that stands there stands between two conjunctions.
fn is_or(state: TestState, word: &[u8]) -> bool
    ensures { result ≡ is_or (state_of state) word.now }
{
    match state {
        TestState::Outside => word == b"or".as_slice() || word == b"||".as_slice(),
        TestState::Criterion => false,
        TestState::AfterCriterion => false,
        TestState::AfterMethod => false,
        TestState::Ignored => false,
        TestState::Inside => false,
    }
}

/// Appends that the test of these words holds, or that it doesn't.
fn push_guard(
    alloc: Global,
    out: &mut Vec<Octets>,
    test: &[Octets],
    holds: bool,
) -> Result<(), NoMemory>
    ensures { OnOk result (out.new.items ≡ out.old.items ++ guard_test test.now holds) }
{
    push(alloc, out, if holds { b"{" } else { b"!{" })?;
    push_all(alloc, out, test)?;
    push(alloc, out, b"}")
}
