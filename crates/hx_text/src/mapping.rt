ghost use Rattle.std.specs.Prelude.{◌≡◌, ℕ, Some, IfSome};
ghost use Rattle.hx_text.specs.Mapping.{mapped_address, ipv4_of, StandsFor};

/// `::ffff:a.b.c.d` of the IPv4 address `a.b.c.d`, which stands for it among IPv6 addresses (RFC
/// 4291 section 2.5.5.2). `a` has the highest octet first.
pub fn map4to6(a: u32) -> u128
    ensures { result ≡ mapped_address a }
{
    0xffff_0000_0000 + u128::from(a)
}

/// The IPv4 address `a.b.c.d` that an IPv6 address stands for: `::ffff:a.b.c.d`, `::a.b.c.d` whose
/// upper 96 bits are zero, or `2002:a.b.c.d::` whose lower 80 bits are zero (RFC 3056 section 2).
/// None exactly where it is none of these.
#[tactic(auto, unfolding(crate::specs::Mapping::ipv4_of))]
pub fn six_to_four(a: u128) -> Option<u32>
    ensures value { result ≡ ipv4_of a }
    ensures found { IfSome result (StandsFor a) }
    ensures unique { (ipv4 : ℕ) → StandsFor a ipv4 → result ≡ Some ipv4 }
{
    match a >> 32 {
        0 | 0xffff => Some((a % 0x1_0000_0000) as u32),
        _ if a >> 112 == 0x2002 && a % 0x1_0000_0000_0000_0000_0000 == 0 => {
            Some(((a >> 80) % 0x1_0000_0000) as u32)
        }
        _ => None,
    }
}
