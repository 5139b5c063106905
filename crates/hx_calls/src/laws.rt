//! What the definitions amount to: laws, each the contract of a function that does nothing when it
//! runs. Texts are read as what they write, whatever the lines before them bring. So a text writes
//! one expression, criterion or format at most, and a text that is refused writes none.
ghost use Rattle.std.specs.Prelude.{◌≡◌, ◌↔◌, ℕ, List, None, Ok};
ghost use Rattle.hx_ast.specs.declared.Expr.{Expr};
ghost use Rattle.hx_ast.specs.declared.Part.{Part};
ghost use Rattle.hx_calls.specs.Criteria.{Criterion, criterion_of, expr_of};
ghost use Rattle.hx_calls.specs.ExpressionRelation.{WritesCriterion, WritesExpr};
ghost use Rattle.hx_calls.specs.FormatRelation.{WritesFormat};
ghost use Rattle.hx_calls.specs.Formats.{format_of};
ghost use Rattle.hx_calls.specs.Known.{Known, Reading};

/// A text is read as the expression that it writes, and as no other.
pub fn expression_law(text: &[u8])
    ensures { (line : ℕ) (before : Known) (read : Reading Expr)
        → (expr_of None line text.now before ≡ Ok read)
        ↔ WritesExpr None line before text.now read }
{}

/// A text is read as the criterion that it writes, and as no other.
pub fn criterion_law(text: &[u8])
    ensures { (line : ℕ) (before : Known) (read : Reading Criterion)
        → (criterion_of line text.now before ≡ Ok read)
        ↔ WritesCriterion line before text.now read }
{}

/// A text is read as the format that it writes, and as no other.
pub fn format_law(text: &[u8])
    ensures { (line : ℕ) (before : Known) (read : Reading (List Part))
        → (format_of line text.now before ≡ Ok read) ↔ WritesFormat line before text.now read }
{}
