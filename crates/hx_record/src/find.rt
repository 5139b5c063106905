ghost use Rattle.std.specs.Prelude.{◌≡◌, ◌≤◌, length};
ghost use Rattle.std.specs.List.{position_or_len};
ghost use Rattle.memchr.specs.Find.{is_byte};

use memchr::memchr;

/// The first position of `byte`, or the length of `bytes` where there is none. No such byte may
/// stand before `from`, where the search begins.
#[tactic(auto, using(crate::proofs::FindLemmas::position_within, crate::proofs::FindLemmas::found_from, crate::proofs::FindLemmas::none_from))]
pub(crate) fn first_at(byte: u8, bytes: &[u8], from: usize) -> usize
    requires { from ≤ position_or_len (is_byte byte) bytes.now }
    ensures value { result ≡ position_or_len (is_byte byte) bytes.now }
    ensures within { result ≤ length bytes.now }
{
    let (_, rest) = bytes.split_at(from);
    match memchr(byte, rest) {
        Some(at) => from + at,
        None => bytes.len(),
    }
}
