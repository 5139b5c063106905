//! What the definitions amount to: laws, each the contract of a function that does nothing when it
//! runs.
ghost use Rattle.std.specs.Prelude.{◌≡◌, ◌≢◌, ◌<◌, ◌≤◌, ◌∷◌, ◌↔◌, List, ℕ, length};
ghost use Rattle.hx_words.specs.Calls.{step_of, steps_of, further_steps, calls_of};
ghost use Rattle.hx_words.specs.Calls.Step.{Last, More, Faulty};
ghost use Rattle.hx_words.specs.CallForm.{CallForm, CallList};
ghost use Rattle.hx_words.specs.Spelling.{BeginsWithCalls, BeginsWithLast, BeginsWithCall};
ghost use Rattle.hx_words.specs.TextItems.{TextItems};
ghost use Rattle.hx_base.specs.Pairs.{pairs_of};
ghost use Rattle.hx_words.specs.Words.{LineEnd, ReadsLine, line_items, beginning_words, result_at_end, runs, words_of};
ghost use Rattle.hx_words.specs.Words.LineEnd.{EndOutside};

use crate::fault::{ArgFault, WordFault};

/// What the words of a line are, as facts on its items.
///
/// A line is cut into items in one way. Its words are the maximal runs of items that are no gap,
/// each with the values of its items one after the other. Where more than 256 words begin in the
/// part of the line that is read, there are too many; any other line comes to what the end of its
/// reading says.
#[tactic(auto, using(crate::proofs::LineLemmas::reads_line, crate::proofs::LineLemmas::reads_once, crate::proofs::LineLemmas::words_are_runs, crate::proofs::LineLemmas::ends_too_many, crate::proofs::LineLemmas::ends_by_reading, crate::proofs::LineLemmas::words_never_out_of_memory))]
pub fn line_law(env: &[(Vec<u8>, Vec<u8>)], line: &[u8])
    ensures items { ReadsLine (pairs_of env.now) line.now (line_items (pairs_of env.now) line.now) }
    ensures only { (items : TextItems LineEnd) → ReadsLine (pairs_of env.now) line.now items
        → items ≡ line_items (pairs_of env.now) line.now }
    ensures words { (words : List (List ℕ)) → words_of (pairs_of env.now) line.now ≡ Ok words
        → (words ≡ runs (line_items (pairs_of env.now) line.now).items) × (length words ≤ 256)
        × ((line_items (pairs_of env.now) line.now).ending ≡ EndOutside) }
    ensures too_many { 256 < length (beginning_words (line_items (pairs_of env.now) line.now))
        → words_of (pairs_of env.now) line.now ≡ Err WordFault.TooManyWords }
    ensures by_end { (ending : LineEnd) → (line_items (pairs_of env.now) line.now).ending ≡ ending
        → length (beginning_words (line_items (pairs_of env.now) line.now)) ≤ 256
        → words_of (pairs_of env.now) line.now
        ≡ result_at_end ending (beginning_words (line_items (pairs_of env.now) line.now)) }
    ensures never { words_of (pairs_of env.now) line.now ≢ Err WordFault.NoMemory }
{}

/// What the calls of a text are: those that spell it.
///
/// A text has these calls, of which so many bytes were read, exactly where a prefix of that length
/// is spelled by them (`SpellsCalls`). So one text has one list of calls, and a text that is
/// refused begins with none. The same holds of the first call of a text. After a comma the rest is
/// read as a text of its own.
#[tactic(auto, using(crate::proofs::StepLemmas::steps_repeat, crate::proofs::CallLemmas::step_never_out_of_memory, crate::proofs::CallLemmas::calls_never_out_of_memory))]
pub fn call_law(text: &[u8], stop: Option<u8>)
    ensures calls { (list : CallList) → calls_of stop text.now ≡ Ok list
        ↔ BeginsWithCalls stop text.now list }
    ensures last { (call : CallForm) (rest : List ℕ) → step_of stop text.now ≡ Last call rest
        ↔ BeginsWithLast stop text.now call rest }
    ensures more { (call : CallForm) (rest : List ℕ) → step_of stop text.now ≡ More call rest
        ↔ BeginsWithCall stop text.now call rest }
    ensures repeats { steps_of stop text.now
        ≡ step_of stop text.now ∷ further_steps (steps_of stop) (step_of stop text.now) }
    ensures never { calls_of stop text.now ≢ Err ArgFault.NoMemory }
    ensures never_first { (name : List ℕ) → step_of stop text.now ≢ Faulty name ArgFault.NoMemory }
{}
