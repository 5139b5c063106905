//! Laws of the definitions, the contracts of functions that do nothing.
ghost use Rattle.std.specs.Prelude.{◌≡◌, ◌≢◌, ℕ, List, slice_get, take};
ghost use Rattle.hx_trace_run.specs.Comparing.{common_length};

/// Two texts are the same up to the length that they have in common; and where they aren't the
/// same, they have different bytes there, or one of them ends. So the line that a check tells is
/// the first in which trace and text differ.
pub fn texts_differ_after_what_they_have_in_common()
    ensures same { (text other : List ℕ)
        → take (common_length text other) text ≡ take (common_length text other) other }
    ensures different { (text other : List ℕ) → text ≢ other
        → slice_get text (common_length text other) ≢ slice_get other (common_length text other) }
{}
