//! What the definitions imply, for callers of any of them.
ghost use Rattle.std.specs.Prelude.{◌≡◌, ◌≢◌, ℕ, false, ◌+◌, ◌^◌, ◌<◌, ◌≤◌, ◌++◌, slice_index, take, drop, Some, All, codes};
ghost use Rattle.std.specs.Char.{digit_char, is_ascii_uppercase};
ghost use Rattle.std.specs.Fmt.{signed_decimal};
ghost use Rattle.std.specs.Net.Text as Text;
ghost use Rattle.hx_text.specs.Address.{IsIpText, ip_of, ip_text};
ghost use Rattle.hx_text.specs.declared.address.Ip.{Ip};
ghost use Rattle.hx_text.specs.Mapping.{mapped_address, ipv4_of};
ghost use Rattle.hx_text.specs.Number.{int_of};
ghost use Rattle.hx_text.specs.Printing.{groups_of, is_mapped, IsZeroRun, IsFirstLongestRun};

use crate::address::Ip;

/// What `print_i64` writes, `read_i64` reads as the same number.
pub fn printed_i64_reads_back(n: i64)
    ensures { int_of (signed_decimal n) ≡ Some n }
{}

/// No text writes two addresses.
pub fn one_address(text: &[u8])
    ensures { (a b : Ip) → IsIpText text.now a → IsIpText text.now b → a ≡ b }
{}

fn printed_ipv4_reads_back(address: u32)
    ensures { ip_of (ip_text (Ip.V4 address)) ≡ Some (Ip.V4 address) }
{}

fn printed_ipv6_reads_back(address: u128)
    ensures { ip_of (ip_text (Ip.V6 address)) ≡ Some (Ip.V6 address) }
{}

/// What `print_ip` writes, `read_ip` reads as the same address.
pub fn printed_ip_reads_back(ip: Ip)
    ensures { ip_of (ip_text ip) ≡ Some ip }
{
    match ip {
        Ip::V4(address) => printed_ipv4_reads_back(address),
        Ip::V6(address) => printed_ipv6_reads_back(address),
    }
}

/// The text of an IPv6 address outside `::ffff:0:0/96` is its groups with colons between them,
/// where the longest run of zero groups, and the first of that length, is written `::` if it has
/// two groups or more, and none if no run has (RFC 5952, section 4.2). The text of an address of
/// `::ffff:0:0/96` is `::ffff:` and the text of the IPv4 address that its last 32 bits make
/// (section 5). No group begins with a zero digit, except the group 0, which is `0` (section
/// 4.1), and no text has a capital letter (section 4.3).
pub fn printed_ipv6_is_canonical(address: u128)
    ensures compressed { (run : ℕ × ℕ) → is_mapped (groups_of address) ≡ false
        → IsFirstLongestRun (groups_of address) run → 2 ≤ run.1
        → ip_text (Ip.V6 address) ≡ Text.groups_text (take run.0 (groups_of address))
        ++ codes "::" ++ Text.groups_text (drop (run.0 + run.1) (groups_of address)) }
    ensures plain { is_mapped (groups_of address) ≡ false
        → ((start len : ℕ) → IsZeroRun (groups_of address) start len → len ≤ 1)
        → ip_text (Ip.V6 address) ≡ Text.groups_text (groups_of address) }
    ensures some { (run : ℕ × ℕ) × IsFirstLongestRun (groups_of address) run }
    ensures mapped { (ipv4 : ℕ) → ipv4 < 2 ^ 32
        → ip_text (Ip.V6 (mapped_address ipv4)) ≡ codes "::ffff:" ++ ip_text (Ip.V4 ipv4) }
    ensures short { (group : ℕ) → 0 < group → group < 2 ^ 16
        → slice_index (Text.hex group) 0 ≢ digit_char 0 }
    ensures zero { Text.hex 0 ≡ codes "0" }
    ensures lower { All (λ byte. is_ascii_uppercase byte ≡ false) (ip_text (Ip.V6 address)) }
{}

/// The mapped IPv6 address of an IPv4 address stands for that address.
#[tactic(auto, unfolding(crate::specs::Mapping::ipv4_of))]
pub fn mapped_stands_for(a: u32)
    ensures { ipv4_of (mapped_address a) ≡ Some a }
{}
