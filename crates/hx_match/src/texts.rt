ghost use Rattle.std.specs.Prelude.{◌≡◌, ◌≤◌, length, nat_eq, true, IsTrue};
ghost use Rattle.std.specs.List.{ends_with, starts_with};
ghost use Rattle.std.specs.Str.{bytes_eq};
ghost use Rattle.hx_sample.specs.Keys.{folded, is_part};
ghost use Rattle.hx_match.specs.Needles.{HasPeriods};

use crate::needle::Needle;
use memchr::memmem::Finder;

/// Whether the text and the key have the same bytes. Where `ci` is true, the case of ASCII letters
/// is ignored, here and below.
pub(crate) fn equals(ci: bool, text: &[u8], key: &[u8]) -> bool
    ensures { result ≡ bytes_eq (folded ci text.now) (folded ci key.now) }
{
    if ci {
        text.eq_ignore_ascii_case(key)
    } else {
        text == key
    }
}

/// Whether the text begins with the key.
pub(crate) fn begins(ci: bool, text: &[u8], key: &[u8]) -> bool
    ensures value { result ≡ starts_with nat_eq (folded ci text.now) (folded ci key.now) }
    ensures fits { IsTrue result → length key.now ≤ length text.now }
{
    if ci {
        text.len() >= key.len() && text[..key.len()].eq_ignore_ascii_case(key)
    } else {
        text.starts_with(key)
    }
}

/// Whether the text ends with the key.
pub(crate) fn ends(ci: bool, text: &[u8], key: &[u8]) -> bool
    ensures { result ≡ ends_with nat_eq (folded ci text.now) (folded ci key.now) }
{
    if ci {
        text.len() >= key.len() && text[text.len() - key.len()..].eq_ignore_ascii_case(key)
    } else {
        text.ends_with(key)
    }
}

/// Whether the finder's key stands somewhere in the text.
pub(crate) fn has_part(text: &[u8], finder: &Finder<'_>) -> bool
    ensures { result ≡ is_part finder.now text.now }
{
    match finder.find(text) {
        Some(_) => true,
        None => false,
    }
}

/// Whether the needle's key stands somewhere in the text, in whatever case.
pub(crate) fn has_part_folded(text: &[u8], needle: &Needle) -> bool
    requires { HasPeriods needle.now }
    ensures { result ≡ is_part needle.now.bytes.items (folded true text.now) }
{
    match needle.next_place(true, text, 0, 0) {
        Some(_) => true,
        None => false,
    }
}
