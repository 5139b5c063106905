ghost use Rattle.std.specs.Prelude.{◌≡◌, ◌≢◌, length, IfOk, IfErr};
ghost use Rattle.hx_base.specs.Pairs.{pairs_of};
ghost use Rattle.hx_words.specs.Words.{words_of};

use crate::fault::WordFault;
use crate::parts::PartsSoFar;
use crate::quoting::{Mode, first, skip};
use crate::token::{Token, item_at};
use crate::words::Words;
use std::alloc::Global;

/// The words of a line of configuration (HAProxy configuration manual 2.4, section 2.2).
///
/// `line` comes without its line feed. `env` has the environment as pairs of a name and a value,
/// and the first pair of a name counts.
///
/// Blanks (space, tab) outside quotes separate words, and `#` outside quotes begins a comment. In
/// double quotes `$NAME` and `${NAME}` stand for the value of a variable, which is empty where
/// `env` doesn't have it.
///
/// The line is refused for what is wrong first from the left:
/// - `TooManyWords`: a 257th word begins; also where something else is wrong at the very same byte;
/// - `BadEscape`: `\x` without two hex digits, outside single quotes;
/// - `BadVariable`: no name follows a `$` in double quotes;
/// - `OpenQuote`: the line ends inside a quote.
///
/// `NoMemory` says nothing of the line.
#[tactic(auto, using(crate::proofs::WordLemmas::words_start, crate::proofs::WordLemmas::words_gap, crate::proofs::WordLemmas::words_part, crate::proofs::WordLemmas::ends_many, crate::proofs::WordLemmas::ends_many_wrong, crate::proofs::WordLemmas::ends_wrong, crate::proofs::WordLemmas::ends_open, crate::proofs::WordLemmas::ends_well))]
pub fn split(alloc: Global, env: &[(Vec<u8>, Vec<u8>)], line: &[u8]) -> Result<Words, WordFault>
    ensures words { IfOk result (λ words. words_of (pairs_of env.now) line.now ≡ Ok words) }
    ensures fault { IfErr result
        (λ fault. fault ≢ WordFault.NoMemory → words_of (pairs_of env.now) line.now ≡ Err fault) }
{
    let mut parts = PartsSoFar::new(alloc);
    let mut mode = Mode::Outside;
    let mut rest = line;
    'items: while let Some((byte, after)) = first(rest) {
        match item_at(env, mode, byte, after) {
            Token::Gap(count) => {
                parts.end_word()?;
                rest = skip(after, count);
            }
            Token::Part(count, value, next) => {
                if parts.is_full() {
                    return Err(WordFault::TooManyWords);
                }
                parts.append(alloc, &value)?;
                mode = next;
                rest = skip(after, count);
            }
            Token::Wrong(fault) => {
                if parts.is_full() {
                    return Err(WordFault::TooManyWords);
                }
                return Err(fault);
            }
        }
    }
    match mode {
        Mode::Outside => Ok(Words::from_vec(parts.finish()?)),
        Mode::Single | Mode::Double => Err(WordFault::OpenQuote),
    }
}
