ghost use Rattle.std.specs.Prelude.{◌≡◌, IfSome};
ghost use Rattle.hx_gen.specs.Sizes.{IsSize, size_of};

use hx_text::read_number;

/// The greatest size of a generated input: so many requests, and so many lines in each of its two
/// long files.
pub const GREATEST_SIZE: u64 = 200_000;

/// The size that a word writes: a number from 1 to 200,000 in decimal digits alone. None exactly
/// where the word is anything else. Zeros may lead.
pub fn read_size(word: &[u8]) -> Option<u64>
    ensures value { result ≡ size_of word.now }
    ensures within { IfSome result IsSize }
{
    match read_number(word, GREATEST_SIZE) {
        Some(size) if size >= 1 => Some(size),
        _ => None,
    }
}
