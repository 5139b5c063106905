ghost use Rattle.std.specs.Prelude.{◌≡◌, IfOk, Ok, OnOk, slice_get};
ghost use Rattle.hx_calls.specs.Known.{nothing_known};
ghost use Rattle.hx_spell.specs.Lines.{line_of};
ghost use Rattle.hx_lint.specs.Judging.{code_read, go_on, known_after, known_by, known_read};
ghost use Rattle.hx_lint.specs.Judging.{reads_otherwise, refused_word, turns, word_shown};

use crate::judging::{JudgedLine, Judgement, new_speller};
use crate::spelling::{push_line, push_word};
use hx_ast::Statement;
use hx_spell::{PROBES, SpellFault, Speller};
use hx_text::{NoMemory, Octets};
use hx_words::{WordFault, Words, split};
use std::alloc::Global;

/// The word at which a fault with this code shows in the words of the line with this number, after
/// the lines before it. The speller is as it was.
pub(crate) fn refused_word(
    alloc: Global,
    number: u64,
    code: u32,
    words: &[Octets],
    before: &[JudgedLine],
    speller: &mut Speller,
) -> Result<Octets, NoMemory>
    requires known { speller.now ≡ known_after before.now nothing_known }
    ensures word { IfOk result (λ word. word ≡ refused_word number code words.now speller.old) }
    ensures kept { OnOk result (speller.new ≡ speller.old) }
{
    let mut count = words.len();
    while count > 0 {
        let goes_on = go_on(alloc, number, code, &words[..count], before, speller)?;
        if goes_on {
            return word_shown(alloc, words, count);
        }
        count -= 1;
    }
    word_shown(alloc, words, 0)
}

/// The word at a position as it is written, and `-` where there is none.
fn word_shown(alloc: Global, words: &[Octets], at: usize) -> Result<Octets, NoMemory>
    ensures { IfOk result (λ word. word ≡ word_shown (slice_get words.now at)) }
{
    let mut text = Vec::new(alloc);
    match words.get(at) {
        Some(word) => push_word(&mut text, word.as_slice())?,
        None => text.extend_from_slice(b"-")?,
    }
    Ok(Octets::from_vec(text))
}

/// Whether the words go on: with one of the texts of the table behind them they are taken, or
/// refused with another code.
fn go_on(
    alloc: Global,
    number: u64,
    code: u32,
    words: &[Octets],
    before: &[JudgedLine],
    speller: &mut Speller,
) -> Result<bool, NoMemory>
    requires known { speller.now ≡ known_after before.now nothing_known }
    ensures answer { IfOk result (λ answer. answer
        ≡ go_on number code words.now (known_after before.now nothing_known)) }
    ensures kept { OnOk result (speller.new ≡ known_after before.now nothing_known) }
{
    let mut probes = PROBES.as_slice();
    while let [probe, rest @ ..] = probes {
        let turned = turns(alloc, number, code, words, probe, before, speller)?;
        if turned {
            return Ok(true);
        }
        probes = rest;
    }
    Ok(false)
}

/// The same of this text.
fn turns(
    alloc: Global,
    number: u64,
    code: u32,
    words: &[Octets],
    text: &[u8],
    before: &[JudgedLine],
    speller: &mut Speller,
) -> Result<bool, NoMemory>
    requires known { speller.now ≡ known_after before.now nothing_known }
    ensures answer { IfOk result (λ answer. answer
        ≡ turns number code words.now (known_after before.now nothing_known) text.now) }
    ensures kept { OnOk result (speller.new ≡ known_after before.now nothing_known) }
{
    let mut line = Vec::new(alloc);
    push_line(&mut line, words)?;
    line.extend_from_slice(text)?;
    match split(alloc, &[], line.as_slice()) {
        Ok(tried) => read_otherwise(alloc, number, code, &tried, before, speller),
        Err(WordFault::NoMemory) => Err(NoMemory),
        Err(_) => Ok(false),
    }
}

/// Whether words are taken, or refused with another code.
#[tactic(auto, using(crate::proofs::JudgingLemmas::kept_where_refused))]
fn read_otherwise(
    alloc: Global,
    number: u64,
    code: u32,
    words: &Words,
    before: &[JudgedLine],
    speller: &mut Speller,
) -> Result<bool, NoMemory>
    requires known { speller.now ≡ known_after before.now nothing_known }
    ensures answer { IfOk result (λ answer. answer
        ≡ reads_otherwise number code (known_after before.now nothing_known) (Ok words.now)) }
    ensures kept { OnOk result (speller.new ≡ known_after before.now nothing_known) }
{
    let read = code_of(speller, number, words)?;
    if read == 0 {
        *speller = spelled(alloc, before)?;
    }
    Ok(read != code)
}

/// The code with which the words of the line with this number are refused, and 0 where they are
/// taken, and known from then on.
fn code_of(speller: &mut Speller, number: u64, words: &Words) -> Result<u32, NoMemory>
    ensures code { IfOk result (λ code. code ≡ code_read (line_of number words.now speller.old)) }
    ensures known { OnOk result
        (speller.new ≡ known_read speller.old (line_of number words.now speller.old)) }
{
    match speller.line(number, words) {
        Ok(statement) => {
            let_go(statement);
            Ok(0)
        }
        Err(SpellFault::Code(code)) => Ok(code),
        Err(SpellFault::NoMemory) => Err(NoMemory),
    }
}

/// A function of its own, so that no caller opens the variants of a statement.
fn let_go(_statement: Statement) {}

/// A speller that knows what these lines bring.
fn spelled(alloc: Global, lines: &[JudgedLine]) -> Result<Speller, NoMemory>
    ensures { IfOk result (λ speller. speller ≡ known_after lines.now nothing_known) }
{
    let mut speller = new_speller(alloc)?;
    let mut rest = lines;
    while let [line, others @ ..] = rest {
        spell_again(line, &mut speller)?;
        rest = others;
    }
    Ok(speller)
}

/// Reads a line again.
fn spell_again(line: &JudgedLine, speller: &mut Speller) -> Result<(), NoMemory>
    ensures { OnOk result (speller.new ≡ known_by line.now.number line.now.judgement speller.old) }
{
    match &line.judgement {
        Judgement::Taken { words, .. } => {
            code_of(speller, line.number, words)?;
            Ok(())
        }
        Judgement::Refused { .. } => Ok(()),
    }
}
