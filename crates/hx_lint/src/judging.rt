ghost use Rattle.std.specs.Prelude.{◌≡◌, ◌≢◌, IfOk};
ghost use Rattle.hx_base.specs.Pairs.{pairs_of};
ghost use Rattle.hx_calls.specs.Known.{nothing_known, reading};
ghost use Rattle.hx_lint.specs.Judging.{all_judged, judged, judged_words, known_after, unread};

use crate::refused_word::refused_word;
use crate::texts::first_text;
use hx_ast::Statement;
use hx_spell::{SpellFault, Speller};
use hx_text::{NoMemory, Octets};
use hx_words::{WordFault, Words, split};
use std::alloc::Global;

/// What the language says of a line.
#[derive(Drop)]
pub enum Judgement {
    /// its words are taken
    Taken {
        /// its words
        words: Words,
        /// what they say
        statement: Statement,
    },
    /// they are refused
    Refused {
        /// the code of what is wrong first
        code: u32,
        /// the word at which it shows, as it is written, and `-` where there is none
        word: Octets,
    },
}

/// A line of a configuration.
#[derive(Drop)]
pub struct JudgedLine {
    /// its number, counted from 1
    pub number: u64,
    /// what the language says of it
    pub judgement: Judgement,
}

/// All lines of a configuration, and what they bring.
#[derive(Drop)]
pub(crate) struct JudgedLines {
    pub(crate) lines: Vec<JudgedLine>,
    pub(crate) speller: Speller,
}

/// Reads all lines of a configuration under this environment. A line that is refused changes
/// nothing for those below it.
#[tactic(auto, using(crate::proofs::JudgingLemmas::known_kept, crate::proofs::JudgingLemmas::lines_kept), unfolding(crate::specs::Judging::all_judged))]
pub(crate) fn all_judged(
    alloc: Global,
    env: &[(Vec<u8>, Vec<u8>)],
    config: &[u8],
) -> Result<JudgedLines, NoMemory>
    ensures { IfOk result (λ read. reading read.lines.items read.speller
        ≡ all_judged (pairs_of env.now) config.now) }
{
    let mut speller = new_speller(alloc)?;
    let mut lines = Vec::new(alloc);
    let mut number = 0u64;
    let mut rest = Some(config);
    'lines: while let Some(left) = rest {
        let (text, after) = first_text(left);
        number += 1;
        let judgement = judged(alloc, env, number, text, lines.as_slice(), &mut speller)?;
        lines.push(JudgedLine { number, judgement })?;
        rest = after;
    }
    Ok(JudgedLines { lines, speller })
}

/// A speller before the first line.
pub(crate) fn new_speller(alloc: Global) -> Result<Speller, NoMemory>
    ensures { IfOk result (λ speller. speller ≡ nothing_known) }
{
    match Speller::new(alloc) {
        Ok(speller) => Ok(speller),
        Err(_) => Err(NoMemory),
    }
}

/// Reads the line of this number and text, after the lines before it.
#[tactic(auto, unfolding(crate::specs::Judging::judged))]
fn judged(
    alloc: Global,
    env: &[(Vec<u8>, Vec<u8>)],
    number: u64,
    text: &[u8],
    before: &[JudgedLine],
    speller: &mut Speller,
) -> Result<Judgement, NoMemory>
    requires known { speller.now ≡ known_after before.now nothing_known }
    ensures { IfOk result (λ judgement. reading judgement speller.new
        ≡ judged (pairs_of env.now) number text.now speller.old) }
{
    match split(alloc, env, text) {
        Ok(words) => judged_words(alloc, number, words, before, speller),
        Err(fault) => unsplit(alloc, fault),
    }
}

/// A line whose words can't be read.
fn unsplit(alloc: Global, fault: WordFault) -> Result<Judgement, NoMemory>
    ensures { IfOk result (λ judgement.
        (fault ≢ WordFault.NoMemory) × (judgement ≡ unread fault)) }
{
    let code = match fault {
        WordFault::OpenQuote => 1,
        WordFault::BadEscape => 2,
        WordFault::BadVariable => 3,
        WordFault::TooManyWords => 4,
        WordFault::NoMemory => return Err(NoMemory),
    };
    let word = Octets::copy(alloc, b"-")?;
    Ok(Judgement::Refused { code, word })
}

/// The same of a line whose words are these.
fn judged_words(
    alloc: Global,
    number: u64,
    words: Words,
    before: &[JudgedLine],
    speller: &mut Speller,
) -> Result<Judgement, NoMemory>
    requires known { speller.now ≡ known_after before.now nothing_known }
    ensures { IfOk result (λ judgement. reading judgement speller.new
        ≡ judged_words number words speller.old) }
{
    match speller.line(number, &words) {
        Ok(statement) => Ok(Judgement::Taken { words, statement }),
        Err(SpellFault::Code(code)) => {
            let word = refused_word(alloc, number, code, words.as_slice(), before, speller)?;
            Ok(Judgement::Refused { code, word })
        }
        Err(SpellFault::NoMemory) => Err(NoMemory),
    }
}
