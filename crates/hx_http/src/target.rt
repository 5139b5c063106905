ghost use Rattle.std.specs.Prelude.{◌≡◌, ◌≤◌, ◌||◌, ℕ, List, ◌++◌, length, take, drop, codes, is_some, IfSome};
ghost use Rattle.std.specs.Option.{option_copied};
ghost use Rattle.std.specs.Str.{bytes_eq};
ghost use Rattle.hx_http.specs.Edits.{target_with_path};
ghost use Rattle.hx_http.specs.Target.{before_query, query_of, from_slash, path_before_query, path_of};

use hx_text::cut_at;
use memchr::memmem;

/// The query of a target.
pub fn query_in(target: &[u8]) -> Option<&[u8]>
    ensures { option_copied result ≡ query_of target.now }
{
    match cut_at(b'?', target) {
        Some((_, query)) => Some(query),
        None => None,
    }
}

/// Whether a target has a query, which may be empty.
pub(crate) fn has_query(target: &[u8]) -> bool
    ensures { result ≡ is_some (query_of target.now) }
{
    query_in(target).is_some()
}

/// The path of a target, and `None` where the target has none.
pub fn path_in(target: &[u8]) -> Option<&[u8]>
    ensures { option_copied result ≡ path_of target.now }
{
    path_in_part(before_query(target))
}

/// What stands before the query of a target.
pub(crate) fn before_query(target: &[u8]) -> &[u8]
    ensures { result.now ≡ before_query target.now }
{
    match cut_at(b'?', target) {
        Some((before, _)) => before,
        None => target,
    }
}

/// Where another path may stand in a target: it begins after that many bytes, and what follows it
/// begins after that many. None where the target has no path and isn't `*`.
pub(crate) fn path_place(target: &[u8]) -> Option<(usize, usize)>
    ensures some { is_some result
        ≡ (bytes_eq target.now (codes "*") || is_some (path_of target.now)) }
    ensures order { IfSome result (λ place. place.0 ≤ place.1) }
    ensures within { IfSome result (λ place. place.1 ≤ length target.now) }
    ensures path { IfSome result (λ place. (path : List ℕ) → target_with_path path target.now
        ≡ take place.0 target.now ++ path ++ drop place.1 target.now) }
{
    if target == b"*".as_slice() {
        return Some((0, 1));
    }
    let before = before_query(target);
    match path_in_part(before) {
        Some(path) => Some((before.len() - path.len(), before.len())),
        None => None,
    }
}

/// The path in what stands before the query.
fn path_in_part(text: &[u8]) -> Option<&[u8]>
    ensures { option_copied result ≡ path_before_query text.now }
{
    if text.starts_with(b"/") {
        return Some(text);
    }
    match memmem::find(text, b"://") {
        Some(at) => from_slash(&text[at + 3..]),
        None => None,
    }
}

/// The text from its first `/` on.
fn from_slash(text: &[u8]) -> Option<&[u8]>
    ensures { option_copied result ≡ from_slash text.now }
{
    match cut_at(b'/', text) {
        Some((before, _)) => {
            let (_, from_slash) = text.split_at(before.len());
            Some(from_slash)
        }
        None => None,
    }
}
