//! What pins the lists: laws of their definitions, each the contract of a function that does
//! nothing.
ghost use Rattle.std.specs.Prelude.{◌≡◌, ◌≢◌, ℕ, List, [], ◌∷◌, ◌++◌, true, false, ◌==◌};
ghost use Rattle.std.specs.List.{list_any, slice_split};
ghost use Rattle.hx_base.specs.Bytes.{ascii};
ghost use Rattle.hx_lists.specs.Blanks.{trim_blanks};
ghost use Rattle.hx_lists.specs.HeaderValues.{hdr_pieces, pieces_with_prefix};
ghost use Rattle.hx_lists.specs.NamedValues.{named_value, separates_params};
ghost use Rattle.hx_lists.specs.Laws.{IsCutAt, IsCutAtCommas, IsQuotedText, IsTrimmed};

/// A header line's pieces, joined by commas, are the line again; a comma outside quoted strings
/// stands in none of them, and no quoted string goes on after a piece that another follows. No
/// other list of pieces has these facts.
pub fn header_pieces(line: &[u8])
    ensures cut { IsCutAtCommas (hdr_pieces line.now) line.now }
    ensures only { (pieces : List (List ℕ)) → IsCutAtCommas pieces line.now
        → pieces ≡ hdr_pieces line.now }
{}

/// The pieces of a line by what it begins with: a comma ends an empty piece; a quoted string
/// belongs to the first piece whole, also where nothing ends it; and so does any other byte.
pub fn quoted_strings()
    ensures empty { hdr_pieces [] ≡ [] ∷ [] }
    ensures comma { (rest : List ℕ) → hdr_pieces (ascii "," ∷ rest) ≡ [] ∷ hdr_pieces rest }
    ensures quoted { (text rest : List ℕ) → IsQuotedText text
        → hdr_pieces (ascii "\"" ∷ (text ++ ascii "\"" ∷ rest))
        ≡ pieces_with_prefix (ascii "\"" ∷ (text ++ ascii "\"" ∷ [])) (hdr_pieces rest) }
    ensures unended { (text : List ℕ) → IsQuotedText text
        → hdr_pieces (ascii "\"" ∷ text) ≡ (ascii "\"" ∷ text) ∷ [] }
    ensures half_pair { (text : List ℕ) → IsQuotedText text
        → hdr_pieces (ascii "\"" ∷ (text ++ ascii "\\" ∷ []))
        ≡ (ascii "\"" ∷ (text ++ ascii "\\" ∷ [])) ∷ [] }
    ensures other { (b : ℕ) (rest : List ℕ) → b ≢ ascii "\"" → b ≢ ascii ","
        → hdr_pieces (b ∷ rest) ≡ pieces_with_prefix (b ∷ []) (hdr_pieces rest) }
{}

/// The pieces of which the cookies of a line are read make up the line with `;` between them, and
/// have none. No other list of pieces has these facts.
pub fn cookie_pieces(line: &[u8])
    ensures cut { IsCutAt (λ b. b == ascii ";")
        (slice_split (λ b. b == ascii ";") line.now) line.now }
    ensures only { (pieces : List (List ℕ)) → IsCutAt (λ b. b == ascii ";") pieces line.now
        → pieces ≡ slice_split (λ b. b == ascii ";") line.now }
{}

/// The pieces of which the parameters in a text are read make up the text with bytes between them
/// that separate parameters, and have none. No other list of pieces has these facts.
pub fn param_pieces(text: &[u8], delim: Option<u8>)
    ensures cut { IsCutAt (separates_params delim)
        (slice_split (separates_params delim) text.now) text.now }
    ensures only { (pieces : List (List ℕ)) → IsCutAt (separates_params delim) pieces text.now
        → pieces ≡ slice_split (separates_params delim) text.now }
{}

/// A piece that has `=` is its name, the first `=` and its value.
pub fn name_and_value(piece: &[u8])
    ensures whole { list_any (λ b. b == ascii "=") piece.now ≡ true
        → (named_value piece.now).0 ++ ascii "=" ∷ (named_value piece.now).1 ≡ piece.now }
    ensures first { list_any (λ b. b == ascii "=") (named_value piece.now).0 ≡ false }
{}

/// What a piece loses at its ends are blanks, and all of them. No other part of it has these facts.
pub fn trimmed_ends(bytes: &[u8])
    ensures trimmed { IsTrimmed bytes.now (trim_blanks bytes.now) }
    ensures only { (trimmed : List ℕ) → IsTrimmed bytes.now trimmed
        → trimmed ≡ trim_blanks bytes.now }
{}
