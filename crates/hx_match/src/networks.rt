ghost use Rattle.std.specs.Prelude.{◌≡◌, ◌≤◌};
ghost use Rattle.hx_text.specs.Network.{prefix_bits, IsNet};
ghost use Rattle.hx_sample.specs.Keys.{as_ipv4, as_ipv6, has_address};

use hx_text::{Ip, Net, map4to6, six_to_four};

/// The IPv4 address that an address is or stands for.
fn as_ipv4(ip: Ip) -> Option<u32>
    ensures { result ≡ as_ipv4 ip }
{
    match ip {
        Ip::V4(address) => Some(address),
        Ip::V6(address) => six_to_four(address),
    }
}

/// The IPv6 address that an address is, or that stands for it.
fn as_ipv6(ip: Ip) -> u128
    ensures { result ≡ as_ipv6 ip }
{
    match ip {
        Ip::V4(address) => map4to6(address),
        Ip::V6(address) => address,
    }
}

fn prefix_of_v4(address: u32, bits: u32) -> u32
    requires { bits ≤ 32 }
    ensures { result ≡ prefix_bits 32 bits address }
{
    if bits == 0 {
        0
    } else {
        address >> (32 - bits) << (32 - bits)
    }
}

fn prefix_of_v6(address: u128, bits: u32) -> u128
    requires { bits ≤ 128 }
    ensures { result ≡ prefix_bits 128 bits address }
{
    if bits == 0 {
        0
    } else {
        address >> (128 - bits) << (128 - bits)
    }
}

/// Whether the network has the address, or one of its own family that this stands for.
pub(crate) fn has_address(net: Net, ip: Ip) -> bool
    requires { IsNet net }
    ensures { result ≡ has_address net ip }
{
    match net {
        Net::Plain {
            ip: Ip::V4(network),
            bits,
        } => match as_ipv4(ip) {
            Some(address) => prefix_of_v4(address, bits) == network,
            None => false,
        },
        Net::Plain {
            ip: Ip::V6(network),
            bits,
        } => prefix_of_v6(as_ipv6(ip), bits) == network,
        Net::Masked { ip: network, mask } => match as_ipv4(ip) {
            Some(address) => address & mask == network,
            None => false,
        },
    }
}
