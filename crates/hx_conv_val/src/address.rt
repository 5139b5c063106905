ghost use Rattle.std.specs.Prelude.{◌≡◌};
ghost use Rattle.hx_conv_val.specs.Addresses.{masked_address};
ghost use Rattle.hx_text.specs.Network.{prefix_bits};

use hx_text::Ip;

fn first_bits(address: u128, bits: u32) -> u128
    ensures { result ≡ prefix_bits 128 bits address }
{
    if bits == 0 {
        0
    } else if bits >= 128 {
        address
    } else {
        address >> (128 - bits) << (128 - bits)
    }
}

/// The address under a mask: of an IPv4 address the bits of `mask`, of an IPv6 address the first
/// `bits` bits, and none for one where `bits` isn't given.
pub(crate) fn masked_address(mask: u32, bits: Option<u32>, ip: Ip) -> Option<Ip>
    ensures { result ≡ masked_address mask bits ip }
{
    match ip {
        Ip::V4(address) => Some(Ip::V4(address & mask)),
        Ip::V6(address) => match bits {
            Some(bits) => Some(Ip::V6(first_bits(address, bits))),
            None => None,
        },
    }
}
