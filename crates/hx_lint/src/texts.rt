ghost use Rattle.std.specs.Prelude.{◌≡◌, ◌≤◌, ◌∷◌, length};
ghost use Rattle.std.specs.List.{list_any};
ghost use Rattle.std.specs.Option.{option_copied};
ghost use Rattle.std.specs.Str.{bytes_eq};
ghost use Rattle.hx_lint.specs.Texts.{size_left, texts_in, texts_left};

use hx_text::{cut_at, without_cr};

/// The text of the first line, and what follows its line feed, where it has one.
#[tactic(auto, using(crate::proofs::TextLemmas::first_texts))]
pub fn first_text(left: &[u8]) -> (&[u8], Option<&[u8]>)
    ensures texts { texts_in left.now ≡ result.0.now ∷ texts_left (option_copied result.1) }
    ensures shorter { size_left (option_copied result.1) ≤ length left.now }
{
    match cut_at(b'\n', left) {
        Some((text, after)) => (without_cr(text), Some(after)),
        None => (without_cr(left), None),
    }
}

/// Whether a text is one of these.
pub fn is_among(texts: &[&[u8]], text: &[u8]) -> bool
    ensures { result ≡ list_any (λ other. bytes_eq text.now other.now) texts.now }
{
    let mut rest = texts;
    while let [other, others @ ..] = rest {
        if text == *other {
            return true;
        }
        rest = others;
    }
    false
}
