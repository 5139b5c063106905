//! What the definitions amount to: a law, the contract of a function that does nothing when it
//! runs.
ghost use Rattle.std.specs.Prelude.{◌≡◌, ◌≢◌, ◌↔◌, ℕ, Ok, Err};
ghost use Rattle.hx_ast.specs.declared.Statement.{Statement};
ghost use Rattle.hx_calls.specs.Codes.{HasLineCode};
ghost use Rattle.hx_calls.specs.Known.{Known, Reading};
ghost use Rattle.hx_spell.specs.Lines.{line_of};
ghost use Rattle.hx_spell.specs.Relation.{SpellLine};

use hx_calls::SpellFault;
use hx_text::Octets;

/// Words are read as the statement that they spell, and as no other, whatever the lines before them
/// bring. So a list of words spells one statement at most, and words that are refused spell none.
/// They are refused by one of the codes of a line, and never for a lack of memory.
pub fn statement_law(words: &[Octets])
    ensures spelled { (number : ℕ) (before : Known) (read : Reading Statement)
        → (line_of number words.now before ≡ Ok read) ↔ SpellLine number before words.now read }
    ensures never { (number : ℕ) (before : Known)
        → line_of number words.now before ≢ Err SpellFault.NoMemory }
    ensures code { (number : ℕ) (before : Known) (fault : SpellFault)
        → line_of number words.now before ≡ Err fault → HasLineCode fault }
{}
