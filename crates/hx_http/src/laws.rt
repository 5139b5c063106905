//! Laws of the definitions that the contracts of this crate cite, each the contract of a function
//! that does nothing.
ghost use Rattle.std.specs.Prelude.{◌≡◌, ℕ, ◌<◌, List, ◌++◌, length, Option, None, Some, IsSome, ◌==◌, true, false, nat_eq, codes};
ghost use Rattle.std.specs.List.{list_any, starts_with};
ghost use Rattle.hx_base.specs.Bytes.{ascii};
ghost use Rattle.hx_http.specs.Edits.{path_fault, target_with_path, target_with_query};
ghost use Rattle.hx_http.specs.Head.{head_of, GivesHeads, GivesOnlyHeads};
ghost use Rattle.hx_http.specs.Target.{before_query, query_of, query_text, path_of, HasPath};

/// `head_of` is the grammar's own answer: what it gives stands in the relation to the bytes, and
/// nothing else does.
pub fn one_head()
    ensures is { GivesHeads head_of }
    ensures only { GivesOnlyHeads head_of }
{}

/// A target is what stands before its first `?` and, where there is one, that `?` and the query.
pub fn query_of_a_target(target: &[u8])
    ensures whole { target.now ≡ before_query target.now ++ query_text (query_of target.now) }
    ensures first { list_any (λ b. b == ascii "?") (before_query target.now) ≡ false }
{}

/// A target with a path is what stands before the path, the path and, where it has one, `?` and the
/// query. No other parts of it have these facts, and so a target without a path has no such parts.
pub fn path_of_a_target(target: &[u8])
    ensures parts { (path : List ℕ) → path_of target.now ≡ Some path
        → (prefix : List ℕ) × HasPath target.now prefix path (query_of target.now) }
    ensures only { (prefix path : List ℕ) (query : Option (List ℕ))
        → HasPath target.now prefix path query
        → (path_of target.now ≡ Some path) × (query_of target.now ≡ query) }
{}

/// Where another path stands in place of a target's path, the rest of the target keeps its meaning.
pub fn another_path_in_a_target(target: &[u8], path: &[u8])
    ensures { (prefix old : List ℕ) (query : Option (List ℕ)) → HasPath target.now prefix old query
        → starts_with nat_eq path.now (codes "/") ≡ true
        → list_any (λ b. b == ascii "?") path.now ≡ false
        → HasPath (prefix ++ (path.now ++ query_text query)) prefix path.now query }
{}

/// Another path in a target that has one: what stands before the old path, the new path, and `?`
/// and the query where there are these. Where the path isn't refused, as in a target `*` too, the
/// path that the target then has is the new one up to its first `?`.
pub fn target_with_another_path(target: &[u8], path: &[u8])
    ensures parts { (prefix old : List ℕ) (query : Option (List ℕ))
        → HasPath target.now prefix old query
        → target_with_path path.now target.now ≡ prefix ++ (path.now ++ query_text query) }
    ensures path { path_fault path.now target.now ≡ None
        → path_of (target_with_path path.now target.now) ≡ Some (before_query path.now) }
{}

/// Another query in a target leaves its path, and is the query that it then has, but where there
/// was none and the new one is empty.
pub fn target_with_another_query(target: &[u8], query: &[u8])
    ensures path { path_of (target_with_query query.now target.now) ≡ path_of target.now }
    ensures some { IsSome (query_of target.now)
        → query_of (target_with_query query.now target.now) ≡ Some query.now }
    ensures added { 0 < length query.now
        → query_of (target_with_query query.now target.now) ≡ Some query.now }
{}
