ghost use Rattle.std.specs.Prelude.{◌≡◌, ◌<◌, ◌≤◌, IsTrue, Some, None, if◌then◌else◌, length};
ghost use Rattle.std.specs.Char.{digit_value, is_ascii_hexdigit};
ghost use Rattle.std.specs.List.{list_all};
ghost use Rattle.std.specs.Str.Parse.{digits_value};
ghost use Rattle.hx_conv_val.specs.Encodings.{hex_number};

const MOST_DIGITS: usize = 16;

const MOST: u64 = 0x7FFF_FFFF_FFFF_FFFF;

fn digit_value(byte: u8) -> u64
    requires { IsTrue (is_ascii_hexdigit byte) }
    ensures value { result ≡ digit_value byte }
    ensures within { result < 16 }
{
    match char::from(byte).to_digit(16) {
        Some(digit) => u64::from(digit),
        None => unreachable!(),
    }
}

#[tactic(auto, using(crate::proofs::HexLemmas::hex_digits))]
fn digits_value(text: &[u8]) -> Option<u64>
    requires { length text.now ≤ MOST_DIGITS }
    ensures { result ≡ (if list_all is_ascii_hexdigit text.now then Some (digits_value 16 text.now)
        else None) }
{
    let mut value: u64 = 0;
    for i in 0..text.len() {
        if !text[i].is_ascii_hexdigit() {
            return None;
        }
        value = value * 16 + digit_value(text[i]);
    }
    Some(value)
}

/// The number that `text` writes in one to 16 hexadecimal digits, where it is at most `i64::MAX`,
/// and 0 for any other text.
#[tactic(auto, unfolding(crate::specs::Encodings::hex_number))]
pub(crate) fn hex_number(text: &[u8]) -> i64
    ensures { result ≡ hex_number text.now }
{
    if text.len() > MOST_DIGITS {
        return 0;
    }
    match digits_value(text) {
        Some(value) if value <= MOST => value as i64,
        _ => 0,
    }
}
