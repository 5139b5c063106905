ghost use Rattle.std.specs.Prelude.{◌≡◌};
ghost use Rattle.hx_config.specs.Titles.{is_title, word_at};

use hx_lint::is_among;
use hx_text::Octets;

/// The keywords that begin a section (HAProxy configuration manual 2.6, sections 2.1, 3, 4, 6, 10
/// and 11; management guide).
pub(crate) const SECTIONS: [&[u8]; 16] = [
    b"global",
    b"defaults",
    b"frontend",
    b"listen",
    b"backend",
    b"userlist",
    b"peers",
    b"mailers",
    b"resolvers",
    b"program",
    b"http-errors",
    b"ring",
    b"log-forward",
    b"cache",
    b"fcgi-app",
    b"namespace_list",
];

/// The word at a position, and no bytes where there is none.
pub(crate) fn word_at(words: &[Octets], i: usize) -> &[u8]
    ensures { result.now ≡ word_at i words.now }
{
    match words.get(i) {
        Some(word) => word.as_slice(),
        None => b"",
    }
}

/// Whether a line of these words is the title of a section.
pub(crate) fn is_title(words: &[Octets]) -> bool
    ensures { result ≡ is_title words.now }
{
    is_among(&SECTIONS, word_at(words, 0))
}
