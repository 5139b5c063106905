ghost use Rattle.std.specs.Prelude.{◌≡◌, ℕ, List, ◌∷◌, IfOk};
ghost use Rattle.std.specs.String.{string_bytes};
ghost use Rattle.hx_base.specs.Bytes.{ascii};
ghost use Rattle.hx_gen.specs.Sizes.{IsSize};
ghost use Rattle.hx_gen.specs.Summary.{has_verdict, summary_text, verdict_count};
ghost use Rattle.hx_text.specs.Cut.{pieces};

use crate::record::event_count;
use hx_text::{NoMemory, cut_at, read_number};
use sha2::{Digest, Sha256};
use std::alloc::Global;

/// The summary of the answers to the generated input of this size, from 1 to `GREATEST_SIZE`. It
/// has four lines: `events E`, how many events the record has; `pass P` and `deny D`, how many
/// lines of `answers` tell that verdict of a request; and `sha256 H`, the SHA-256 of `answers` in
/// hexadecimal digits, of which the letters are small.
pub fn summary_text(alloc: Global, size: u64, answers: &[u8]) -> Result<String, NoMemory>
    requires { IsSize size }
    ensures { IfOk result (λ text. string_bytes text ≡ summary_text size answers.now) }
{
    let events = event_count(size);
    let passed = verdict_count(b"pass", answers);
    let denied = verdict_count(b"deny", answers);
    let digest = hex::encode(alloc, &Sha256::digest(answers))?;
    let text = format!(in alloc;
        "events {events}\npass {passed}\ndeny {denied}\nsha256 {digest}\n"
    )?;
    Ok(text)
}

/// How many lines tell this verdict of a request.
fn verdict_count(verdict: &[u8], answers: &[u8]) -> usize
    ensures { result ≡ verdict_count verdict.now answers.now }
{
    answers
        .split(|byte| *byte == b'\n')
        .filter(|line| has_verdict(verdict, line))
        .count()
}

/// Whether a line tells this verdict of a request: the request's number and the verdict are its
/// first two words.
#[tactic(auto, using(crate::proofs::VerdictLemmas::by_words))]
fn has_verdict(verdict: &[u8], line: &[u8]) -> bool
    ensures { result ≡ has_verdict verdict.now line.now }
{
    match cut_at(b' ', line) {
        Some((number, rest)) => {
            read_number(number, u64::MAX).is_some() && first_word(rest) == verdict
        }
        None => false,
    }
}

/// What stands before the first blank of a text, or all of it.
fn first_word(text: &[u8]) -> &[u8]
    ensures { (words : List (List ℕ)) × (pieces (ascii " ") text.now ≡ result.now ∷ words) }
{
    match cut_at(b' ', text) {
        Some((word, _)) => word,
        None => text,
    }
}
