//! Laws: what the definitions of converters of texts imply.
ghost use Rattle.std.specs.Prelude.{◌≡◌, ◌↔◌, ◌==◌, ℕ, false, List, Some};
ghost use Rattle.std.specs.List.{flat_map, list_any};
ghost use Rattle.hx_base.specs.Bytes.{ascii};
ghost use Rattle.hx_conv_text.specs.Cuts.{IsPartOfFields, IsPartOfWords};
ghost use Rattle.hx_conv_text.specs.Pieces.{field_spans, items_at, text_across, word_spans};
ghost use Rattle.hx_conv_text.specs.Replacements.{ReplacementItem, IsWrittenOf, item_value};
ghost use Rattle.hx_conv_text.specs.Substitution.{expansion};
ghost use Rattle.hx_conv_text.specs.UrlDecoding.{url_dec_of};

/// A text without `%` and `+` is decoded as itself.
pub fn text_without_escapes_stays(form: Option<i64>, text: &[u8])
    ensures { list_any (λ b. b == ascii "%") text.now ≡ false
        → list_any (λ b. b == ascii "+") text.now ≡ false
        → url_dec_of form text.now ≡ Some text.now }
{}

/// A replacement is written of items in exactly one way, and is expanded to what stands for each of
/// them, in a row.
pub fn replacement_is_its_items(sub: &[u8])
    ensures some { (items : List ReplacementItem) × IsWrittenOf items sub.now }
    ensures one { (items others : List ReplacementItem) → IsWrittenOf items sub.now
        → IsWrittenOf others sub.now → items ≡ others }
    ensures value { (items : List ReplacementItem) (group : ℕ → List ℕ) → IsWrittenOf items sub.now
        → expansion group sub.now ≡ flat_map (item_value group) items }
{}

/// `field` gives a value exactly where the text is fields with one delimiter between them and the
/// value is those that the index and the count name, with the delimiters between these.
pub fn part_of_fields(index: i64, delims: &[u8], count: Option<i64>, text: &[u8])
    ensures { (value : List ℕ) →
        (text_across text.now (items_at index count (field_spans delims.now text.now)) ≡ Some value)
        ↔ IsPartOfFields delims.now index count text.now value }
{}

/// `word` gives a value exactly where the text is words with delimiters between them and the value
/// is those that the index and the count name, with the delimiters between these.
pub fn part_of_words(index: i64, delims: &[u8], count: Option<i64>, text: &[u8])
    ensures { (value : List ℕ) →
        (text_across text.now (items_at index count (word_spans delims.now text.now)) ≡ Some value)
        ↔ IsPartOfWords delims.now index count text.now value }
{}
