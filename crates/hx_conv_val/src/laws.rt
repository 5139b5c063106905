//! Laws: what the definitions of converters imply.
ghost use Rattle.std.specs.Prelude.{◌≡◌, ◌-◌, ◌≢◌, ◌↔◌, ◌≤◌, ◌<◌, ◌≤ℤ◌, ◌^◌, ℕ, ℤ, pos, negsuc, None, Some, ◌+ℤ◌, ◌*ℤ◌, int_div, unsigned_abs, FitsSigned};
ghost use Rattle.std.specs.Int.{w64, saturate_signed};
ghost use Rattle.hx_conv_val.specs.Addresses.{masked_address};
ghost use Rattle.hx_conv_val.specs.Encodings.{base64_text, base64_bytes, base64url_text, base64url_bytes};
ghost use Rattle.hx_conv_val.specs.Numbers.{least_int, quotient_of, remainder_of};
ghost use Rattle.hx_text.specs.Network.{mask_of, prefix_bits};
ghost use Rattle.hx_text.specs.declared.address.Ip.TheVariants.{V4};

/// A result that is an integer of 64 bits stays as it is. One above all of them is the greatest,
/// 2^63 - 1, and one below all of them the least, -2^63.
pub fn saturation_is_nearest()
    ensures exact { (z : ℤ) → FitsSigned w64 z → saturate_signed w64 z ≡ z }
    ensures above { (n : ℕ) → 2 ^ 63 ≤ n → saturate_signed w64 (pos n) ≡ pos (2 ^ 63 - 1) }
    ensures below { (n : ℕ) → 2 ^ 63 ≤ n → saturate_signed w64 (negsuc n) ≡ least_int }
{}

/// The quotient times the divisor, and the remainder, are the dividend, where the divisor isn't 0
/// and the exact quotient is an integer of 64 bits. The remainder is nearer to 0 than the divisor,
/// and has the sign of the dividend where it isn't 0, so the quotient is rounded toward zero.
pub fn quotient_and_remainder(n: i64, m: i64)
    ensures whole { m ≢ pos 0 → FitsSigned w64 (int_div n m)
        → quotient_of n m *ℤ m +ℤ remainder_of n m ≡ n }
    ensures rest { m ≢ pos 0 → unsigned_abs (remainder_of n m) < unsigned_abs m }
    ensures not_negative { m ≢ pos 0 → pos 0 ≤ℤ n → pos 0 ≤ℤ remainder_of n m }
    ensures not_positive { m ≢ pos 0 → n ≤ℤ pos 0 → remainder_of n m ≤ℤ pos 0 }
{}

/// A text is decoded to bytes exactly where it is their base64 encoding.
pub fn base64_is_inverse(text: &[u8], bytes: &[u8])
    ensures padded { (base64_bytes text.now ≡ Some bytes.now) ↔ (text.now ≡ base64_text bytes.now) }
    ensures url_safe { (base64url_bytes text.now ≡ Some bytes.now)
        ↔ (text.now ≡ base64url_text bytes.now) }
{}

/// Under the mask whose first `bits` bits are ones, an IPv4 address keeps its first `bits` bits.
pub fn mask_of_bits(address: u32, bits: u32)
    ensures { bits ≤ 32 → masked_address (mask_of bits) None (V4 address)
        ≡ Some (V4 (prefix_bits 32 bits address)) }
{}
