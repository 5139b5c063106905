//! Laws of the definitions, each the contract of a function that does nothing when it runs.
ghost use Rattle.std.specs.Prelude.{◌≡◌, ℕ, false, List, Some};
ghost use Rattle.std.specs.List.{list_any};
ghost use Rattle.hx_base.specs.Bytes.{ascii};
ghost use Rattle.hx_words.specs.Calls.{ends_name};
ghost use Rattle.hx_config.specs.Reading.{SpellsReplacement};
ghost use Rattle.hx_config.specs.Replacing.{replaced};

/// What is written for a replacement is read as it is meant, whatever bytes the expression and the
/// replacement have: as the fetch, and then `regsub` with these two as its arguments.
#[tactic(auto, using(crate::proofs::QuotedLemmas::replaced_spelled))]
pub fn replacement_reads_back()
    ensures { (fetch expression replacement : List ℕ)
        → list_any (ends_name (Some (ascii "]"))) fetch ≡ false
        → SpellsReplacement fetch expression replacement
        (replaced fetch expression replacement) }
{}
