//! Laws: what the definitions of patterns imply.
ghost use Rattle.std.specs.Prelude.{◌≡◌, ◌≢◌, ◌↔◌, ℕ, ◌++◌, true, false, List, None, reverse};
ghost use Rattle.hx_sample.specs.declared.sample.Value.{Value};
ghost use Rattle.hx_sample.specs.Keys.{hits, is_delimited_part, is_ended, is_part, parts_domain, parts_path};
ghost use Rattle.hx_match.specs.Patterns.{text_fault};

use hx_text::By;

/// A text that is no pattern of its method hits nothing.
pub fn refused_text_hits_nothing(by: By, ci: bool, text: &[u8])
    ensures { (v : Value) → text_fault by ci text.now ≢ None → hits by ci text.now v ≡ false }
{}

/// A key is a part of a text exactly where the text is some bytes, the key and some bytes.
pub fn part_stands_between(key: &[u8], text: &[u8])
    ensures { (is_part key.now text.now ≡ true)
        ↔ ((before : List ℕ) × (after : List ℕ) × (text.now ≡ before ++ (key.now ++ after))) }
{}

/// A part stands between delimiters exactly where the text is some bytes, the part and some bytes,
/// and the bytes before it are none or end with a delimiter, and those after it are none or begin
/// with one.
pub fn component_stands_between_delimiters(part: &[u8], text: &[u8])
    ensures path { (is_delimited_part parts_path part.now text.now ≡ true)
        ↔ ((before : List ℕ) × (after : List ℕ) × (text.now ≡ before ++ (part.now ++ after))
        × (is_ended parts_path (reverse before) ≡ true) × (is_ended parts_path after ≡ true)) }
    ensures domain { (is_delimited_part parts_domain part.now text.now ≡ true)
        ↔ ((before : List ℕ) × (after : List ℕ) × (text.now ≡ before ++ (part.now ++ after))
        × (is_ended parts_domain (reverse before) ≡ true) × (is_ended parts_domain after ≡ true)) }
{}
