ghost use Rattle.std.specs.Prelude.{◌≡◌, ◌≤◌, IfSome};
ghost use Rattle.hx_text.specs.Network.{prefix_bits, mask_of, width_of, masked_network, network_with, host_network, net_of, IsNet};

use crate::address::{Ip, read_dotted, read_ip};
use crate::cut::cut_at;
use crate::numbers::read_number;

/// A network: an address of which the first `bits` bits count, or an IPv4 address of which the
/// bits count that are set in `mask`. The other bits of `ip` are zero. A mask has a zero before a
/// one: one whose ones all come first is a count of bits.
#[derive(Clone, Copy, PartialEq, Eq)]
pub enum Net {
    Plain { ip: Ip, bits: u32 },
    Masked { ip: u32, mask: u32 },
}

fn mask_of_width(bits: u32) -> u32
    requires { bits ≤ 32 }
    ensures { result ≡ mask_of bits }
{
    if bits == 0 {
        0
    } else {
        u32::MAX << (32 - bits)
    }
}

#[tactic(auto, using(crate::proofs::NetworkLemmas::masked_prefix))]
fn prefix_of_v4(address: u32, bits: u32) -> u32
    requires { bits ≤ 32 }
    ensures { result ≡ prefix_bits 32 bits address }
{
    address & mask_of_width(bits)
}

fn prefix_of_v6(address: u128, bits: u32) -> u128
    requires { bits ≤ 128 }
    ensures { result ≡ prefix_bits 128 bits address }
{
    if bits == 0 {
        0
    } else {
        address >> (128 - bits) << (128 - bits)
    }
}

#[tactic(auto, using(crate::proofs::NetworkLemmas::network_cases), unfolding(crate::specs::Network::masked_network))]
fn masked_network(address: u32, mask: u32) -> Net
    ensures value { result ≡ masked_network address mask }
    ensures kept { IsNet result }
{
    let bits = mask.leading_ones();
    if mask == mask_of_width(bits) {
        Net::Plain {
            ip: Ip::V4(prefix_of_v4(address, bits)),
            bits,
        }
    } else {
        Net::Masked {
            ip: address & mask,
            mask,
        }
    }
}

#[tactic(auto, unfolding(crate::specs::Network::width_of))]
fn read_width(text: &[u8], most: u32) -> Option<u32>
    ensures value { result ≡ width_of most text.now }
    ensures within { IfSome result (λ n. n ≤ most) }
{
    if text.len() > 1 && text[0] == b'0' {
        return None;
    }
    match read_number(text, u64::from(most)) {
        Some(n) => Some(n as u32),
        None => None,
    }
}

#[tactic(auto, using(crate::proofs::NetworkLemmas::prefix_twice))]
fn read_after_v4(address: u32, text: &[u8]) -> Option<Net>
    ensures value { result ≡ network_with text.now (Ip.V4 address) }
    ensures kept { IfSome result IsNet }
{
    match read_width(text, 32) {
        Some(bits) => Some(Net::Plain {
            ip: Ip::V4(prefix_of_v4(address, bits)),
            bits,
        }),
        None => match read_dotted(text) {
            Some(mask) => Some(masked_network(address, mask)),
            None => None,
        },
    }
}

#[tactic(auto, using(crate::proofs::NetworkLemmas::prefix_twice))]
fn read_after_v6(address: u128, text: &[u8]) -> Option<Net>
    ensures value { result ≡ network_with text.now (Ip.V6 address) }
    ensures kept { IfSome result IsNet }
{
    match read_width(text, 128) {
        Some(bits) => Some(Net::Plain {
            ip: Ip::V6(prefix_of_v6(address, bits)),
            bits,
        }),
        None => None,
    }
}

fn host_network(ip: Ip) -> Net
    ensures { result ≡ host_network ip }
{
    match ip {
        Ip::V4(_) => Net::Plain { ip, bits: 32 },
        Ip::V6(_) => Net::Plain { ip, bits: 128 },
    }
}

/// The network that `text` writes: an address alone, which is the network of all its bits; an
/// IPv4 address, `/`, and a count of at most 32 bits or a mask in dotted decimal; or an IPv6
/// address, `/`, and a count of at most 128 bits. A count has no leading zero. A mask whose ones
/// all come first is answered as their count. Bits of the address beyond the count or the mask
/// are answered as zeros. None exactly where the text is anything else.
#[tactic(auto, unfolding(crate::specs::Network::net_of))]
pub fn read_net(text: &[u8]) -> Option<Net>
    ensures value { result ≡ net_of text.now }
    // Follows from `value`. It saves callers the lemmas on the bits of a network.
    ensures kept { IfSome result IsNet }
{
    match cut_at(b'/', text) {
        None => match read_ip(text) {
            Some(ip) => Some(host_network(ip)),
            None => None,
        },
        Some((address, width)) => match read_ip(address) {
            Some(Ip::V4(address)) => read_after_v4(address, width),
            Some(Ip::V6(address)) => read_after_v6(address, width),
            None => None,
        },
    }
}
