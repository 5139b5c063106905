ghost use Rattle.std.specs.Prelude.{ℕ, Some, ◌≡◌, [], ◌∷◌, ◌++◌, codes, option_map, option_and_then, IfSome};
ghost use Rattle.hx_base.specs.Bytes.{ascii};
ghost use Rattle.hx_text.specs.Address.{octet_of, four_octets, dotted_of, groups_number, plain_groups_of, address_ending_in, dotted_end_of, colon_hex_of, IsIpText, ip_of};
ghost use Rattle.hx_text.specs.Cut.{last_cut_of};

use crate::cut::{cut_after_last, cut_at};
use crate::numbers::read_number;
use crate::printing::push_all;
use arrayvec::ArrayVec;
use std::net::Ipv6Addr;

/// An internet address, as the number that its bits make.
#[derive(Clone, Copy, PartialEq, Eq)]
pub enum Ip {
    V4(u32),
    V6(u128),
}

#[tactic(auto, unfolding(crate::specs::Address::octet_of))]
fn read_octet(piece: &[u8]) -> Option<u8>
    ensures { result ≡ octet_of piece.now }
{
    if piece.len() > 3 {
        return None;
    }
    match read_number(piece, 255) {
        Some(octet) => Some(octet as u8),
        None => None,
    }
}

#[tactic(auto, using(crate::proofs::AddressLemmas::four_octets_are))]
fn read_four(p: &[u8], q: &[u8], r: &[u8], s: &[u8]) -> Option<u32>
    ensures { result ≡ four_octets (p.now ∷ q.now ∷ r.now ∷ s.now ∷ []) }
{
    let a = read_octet(p)?;
    let b = read_octet(q)?;
    let c = read_octet(r)?;
    let d = read_octet(s)?;
    Some(u32::from_be_bytes([a, b, c, d]))
}

/// The IPv4 address of a text in dotted decimal, the first octet being the highest. An octet has up
/// to three digits, and zeros may lead. None exactly for any other text.
#[tactic(auto, using(crate::proofs::AddressLemmas::dotted_cases))]
pub(crate) fn read_dotted(text: &[u8]) -> Option<u32>
    ensures { result ≡ dotted_of text.now }
{
    let (p, text) = cut_at(b'.', text)?;
    let (q, text) = cut_at(b'.', text)?;
    let (r, s) = cut_at(b'.', text)?;
    read_four(p, q, r, s)
}

fn four_groups(a: u16, b: u16, c: u16, d: u16) -> u64
    ensures { result ≡ groups_number (a ∷ b ∷ c ∷ d ∷ []) }
{
    let high = u64::from(a) * 0x1_0000 + u64::from(b);
    let low = u64::from(c) * 0x1_0000 + u64::from(d);
    high * 0x1_0000_0000 + low
}

fn number_of_groups(groups: [u16; 8]) -> u128
    ensures { result ≡ groups_number groups }
{
    let [a, b, c, d, e, f, g, h] = groups;
    let high = four_groups(a, b, c, d);
    let low = four_groups(e, f, g, h);
    u128::from(high) * 0x1_0000_0000_0000_0000 + u128::from(low)
}

fn address_ending_in(ipv4: u32, groups: [u16; 8]) -> u128
    ensures { result ≡ address_ending_in ipv4 groups }
{
    let [a, b, c, d, e, f, _, _] = groups;
    let high = four_groups(a, b, c, d);
    let low = (u64::from(e) * 0x1_0000 + u64::from(f)) * 0x1_0000_0000 + u64::from(ipv4);
    u128::from(high) * 0x1_0000_0000_0000_0000 + u128::from(low)
}

fn read_plain_groups(text: &[u8]) -> Option<[u16; 8]>
    ensures { result ≡ plain_groups_of text.now }
{
    match Ipv6Addr::parse_ascii(text) {
        Ok(address) => Some(address.segments()),
        Err(_) => None,
    }
}

fn read_before_ipv4(before: &[u8], ipv4: u32) -> Option<u128>
    ensures { result
        ≡ option_map (address_ending_in ipv4) (plain_groups_of (before.now ++ codes "0:0")) }
{
    // No text of the grammar is longer than 49 bytes, and `0:0` has three.
    if before.len() > 49 {
        return None;
    }
    let mut text: ArrayVec<u8, 52> = ArrayVec::new();
    push_all(&mut text, before);
    push_all(&mut text, b"0:0");
    match read_plain_groups(text.as_slice()) {
        Some(groups) => Some(address_ending_in(ipv4, groups)),
        None => None,
    }
}

fn read_with_ipv4(text: &[u8]) -> Option<u128>
    ensures { result ≡ option_and_then dotted_end_of (last_cut_of (ascii ":") text.now) }
{
    match cut_after_last(b':', text) {
        Some((before, end)) => match read_dotted(end) {
            Some(ipv4) => read_before_ipv4(before, ipv4),
            None => None,
        },
        None => None,
    }
}

#[tactic(auto, using(crate::proofs::ColonHexLemmas::colon_hex_cases))]
fn read_colon_hex(text: &[u8]) -> Option<u128>
    ensures { result ≡ colon_hex_of text.now }
{
    match read_plain_groups(text) {
        Some(groups) => Some(number_of_groups(groups)),
        None => read_with_ipv4(text),
    }
}

/// The internet address that `text` writes, and nothing else: blanks, brackets, a port or a zone
/// are no part of one. An IPv4 address is four decimal octets with dots between them, each of up
/// to three digits, where zeros may lead (`010` is ten). An IPv6 address has one of the three
/// forms of RFC 4291 section 2.2: groups of hex digits, groups with one `::`, and groups that end
/// in an IPv4 address, whose octets may have leading zeros too. None exactly where the text is
/// neither.
#[tactic(auto, unfolding(crate::specs::Address::ip_of))]
pub fn read_ip(text: &[u8]) -> Option<Ip>
    ensures value { result ≡ ip_of text.now }
    ensures unique { (ip : Ip) → IsIpText text.now ip → result ≡ Some ip }
    ensures spelled { IfSome result (IsIpText text.now) }
{
    match read_colon_hex(text) {
        Some(a) => Some(Ip::V6(a)),
        None => match read_dotted(text) {
            Some(a) => Some(Ip::V4(a)),
            None => None,
        },
    }
}
