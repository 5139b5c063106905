//! Laws of the definitions, each the contract of a function that does nothing when it runs.
ghost use Rattle.std.specs.Prelude.{◌≡◌, ◌≤◌, ℕ, length, List, Ok};
ghost use Rattle.hx_words.specs.Variable.{Env};
ghost use Rattle.hx_words.specs.Words.{words_of};
ghost use Rattle.hx_lint.specs.Spelling.{line_text};

/// The words of a line that words are written as are these words, under any environment: up to 256
/// of them, as many as a line may have.
#[tactic(auto, using(crate::proofs::WrittenLineLemmas::line_reads_back))]
pub fn line_reads_back()
    ensures { (env : Env) (words : List (List ℕ)) → length words ≤ 256
        → words_of env (line_text words) ≡ Ok words }
{}
