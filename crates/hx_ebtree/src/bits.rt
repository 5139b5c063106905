ghost use Rattle.std.specs.Prelude.{◌≡◌, ◌≢◌, ◌+◌, ◌*◌, ◌<◌, ◌≤◌, ℕ, false, length, slice_index_or};
ghost use Rattle.hx_ebtree.specs.Bits.{bit_of, bits_of, code_of, split_of, HaveInCommon};
ghost use Rattle.hx_ebtree.specs.Seat.{split_before_of};

/// Bit `index` of `bytes`, the highest bit of each byte first.
pub(crate) fn bit(bytes: &[u8], index: usize) -> bool
    requires { index < 8 * length bytes.now }
    ensures { result ≡ bit_of bytes.now index }
{
    (bytes[index / 8] >> (7 - index % 8)) % 2 == 1
}

/// The first bit from `from` on at which the bytes differ, or `end` where there is none before
/// that.
fn first_difference(a: &[u8], b: &[u8], from: usize, end: usize) -> usize
    requires from { from ≤ end }
    requires a { end ≤ 8 * length a.now }
    requires b { end ≤ 8 * length b.now }
    ensures from { from ≤ result }
    ensures end { result ≤ end }
    ensures same { (i : ℕ) → from ≤ i → i < result → bit_of a.now i ≡ bit_of b.now i }
    ensures differs { result < end → bit_of a.now result ≢ bit_of b.now result }
{
    let mut index = from;
    while index < end {
        if a[index / 8] == b[index / 8] {
            index += (8 - index % 8).min(end - index);
        } else if bit(a, index) == bit(b, index) {
            index += 1;
        } else {
            return index;
        }
    }
    index
}

/// Where the codes of two keys differ first. Each key is the first bits of its bytes, and the first
/// `from` bits of both are the same.
pub(crate) fn split(a: &[u8], a_bits: usize, b: &[u8], b_bits: usize, from: usize) -> Option<u128>
    requires a { a_bits ≤ 8 * length a.now }
    requires b { b_bits ≤ 8 * length b.now }
    requires from { HaveInCommon a.now a_bits b.now b_bits from }
    ensures { result ≡ split_of (bits_of a.now a_bits) (bits_of b.now b_bits) }
{
    let end = a_bits.min(b_bits);
    let at = first_difference(a, b, from, end);
    if at < end {
        return Some(at as u128 * 2 + 1);
    }
    if a_bits == b_bits {
        return None;
    }
    Some(end as u128 * 2)
}

/// Where the codes of two keys differ first, if it is before `limit`.
pub(crate) fn split_before(
    a: &[u8],
    a_bits: usize,
    b: &[u8],
    b_bits: usize,
    from: usize,
    limit: u128,
) -> Option<u128>
    requires a { a_bits ≤ 8 * length a.now }
    requires b { b_bits ≤ 8 * length b.now }
    requires from { HaveInCommon a.now a_bits b.now b_bits from }
    requires limit { 2 * from ≤ limit }
    ensures { result
        ≡ split_before_of limit (split_of (bits_of a.now a_bits) (bits_of b.now b_bits)) }
{
    let short = a_bits.min(b_bits);
    let end = (short as u128).min(limit / 2) as usize;
    let at = first_difference(a, b, from, end);
    if at < end {
        return Some(at as u128 * 2 + 1);
    }
    if end < short {
        return None;
    }
    if a_bits == b_bits {
        return None;
    }
    let last = short as u128 * 2;
    if last < limit { Some(last) } else { None }
}

/// Bit `at` of a key's code.
pub(crate) fn code_bit(bytes: &[u8], bits: usize, at: u128) -> bool
    requires bits { bits ≤ 8 * length bytes.now }
    requires at { at < 2 * bits + 1 }
    ensures { result ≡ slice_index_or (code_of (bits_of bytes.now bits)) at false }
{
    let index = (at / 2) as usize;
    if at % 2 == 0 {
        index < bits
    } else {
        bit(bytes, index)
    }
}
