ghost use Rattle.std.specs.Prelude.{◌≡◌, ◌^◌, min, option_map};
ghost use Rattle.std.specs.Str.{all_ascii_digits};
ghost use Rattle.hx_text.specs.Number.{number_of};
ghost use Rattle.hx_refs.specs.Naming.{named_number};

use hx_text::read_number;

/// The least number that is above those of all references, which are of 32 bits.
const ABOVE_ALL: u64 = 0x1_0000_0000;

fn has_digits_alone(text: &[u8]) -> bool
    ensures { result ≡ all_ascii_digits text.now }
{
    let mut rest = text;
    while let [byte, others @ ..] = rest {
        if !byte.is_ascii_digit() {
            return false;
        }
        rest = others;
    }
    true
}

/// The number that decimal digits write, where the text is one or more of them. All numbers above
/// 32 bits are given as the least of them.
#[tactic(auto, unfolding(hx_text::specs::Number::number_of))]
fn number_of(digits: &[u8]) -> Option<u64>
    ensures { result ≡ option_map (min (2 ^ 32)) (number_of digits.now) }
{
    if let Some(number) = read_number(digits, u64::from(u32::MAX)) {
        return Some(number);
    }
    if !digits.is_empty() && has_digits_alone(digits) {
        Some(ABOVE_ALL)
    } else {
        None
    }
}

/// The number that a word names a reference by, given as `number_of` gives it.
pub(crate) fn named_number(word: &[u8]) -> Option<u64>
    ensures { result ≡ option_map (min (2 ^ 32)) (named_number word.now) }
{
    let [b'#', digits @ ..] = word else {
        return None;
    };
    number_of(digits)
}
