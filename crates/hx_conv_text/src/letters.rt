ghost use Rattle.std.specs.Prelude.{◌≡◌, ◌==◌, map, IfOk, IsOk};
ghost use Rattle.std.specs.Char.{to_ascii_lowercase, to_ascii_uppercase};
ghost use Rattle.std.specs.List.{list_all};
ghost use Rattle.hx_sample.specs.Seen.{bytes_of};
ghost use Rattle.hx_conv_text.specs.Converters.{AreInputWhereEqual};
ghost use Rattle.hx_conv_text.specs.Letters.{in_case};

use hx_sample::Bytes;
use hx_text::{NoMemory, Octets};
use std::alloc::Global;

/// Which case letters are given.
#[derive(Clone, Copy)]
pub(crate) enum Case {
    Lower,
    Upper,
}

fn byte_in_case(case: Case, b: u8) -> u8
    ensures { result ≡ in_case case b }
{
    match case {
        Case::Lower => b.to_ascii_lowercase(),
        Case::Upper => b.to_ascii_uppercase(),
    }
}

fn has_case(case: Case, text: &[u8]) -> bool
    ensures { result ≡ list_all (λ b. in_case case b == b) text.now }
{
    text.iter().all(|b| byte_in_case(case, *b) == *b)
}

fn copied_in_case(alloc: Global, case: Case, text: &[u8]) -> Result<Octets, NoMemory>
    ensures { IfOk result (λ made. made ≡ map (in_case case) text.now) }
{
    match case {
        Case::Lower => Ok(Octets::from_vec(text.to_ascii_lowercase(alloc)?)),
        Case::Upper => Ok(Octets::from_vec(text.to_ascii_uppercase(alloc)?)),
    }
}

fn owned_in_case(case: Case, text: Octets) -> Octets
    ensures { result ≡ map (in_case case) text }
{
    let mut made = text.into_vec();
    match case {
        Case::Lower => made.make_ascii_lowercase(),
        Case::Upper => made.make_ascii_uppercase(),
    }
    Octets::from_vec(made)
}

/// The text with the letters of ASCII in a case. An owned one is changed where it lies, and a lent
/// one that has its letters so stays lent: memory is taken for a lent one that changes alone.
fn with_case<'a>(alloc: Global, case: Case, text: Bytes<'a>) -> Result<Bytes<'a>, NoMemory>
    ensures value { IfOk result (λ made.
        bytes_of made ≡ map (in_case case) (bytes_of text.entry)) }
    ensures kept { IfOk result (AreInputWhereEqual text.entry) }
    ensures free { map (in_case case) (bytes_of text.entry) ≡ bytes_of text.entry → IsOk result }
{
    match text {
        Bytes::Own(text) => Ok(Bytes::Own(owned_in_case(case, text))),
        text => {
            if has_case(case, text.as_slice()) {
                return Ok(text);
            }
            Ok(Bytes::Own(copied_in_case(alloc, case, text.as_slice())?))
        }
    }
}

/// The text with the letters of ASCII in lower case, as `with_case` gives it.
pub(crate) fn lower<'a>(alloc: Global, text: Bytes<'a>) -> Result<Bytes<'a>, NoMemory>
    ensures value { IfOk result (λ made.
        bytes_of made ≡ map to_ascii_lowercase (bytes_of text.entry)) }
    ensures kept { IfOk result (AreInputWhereEqual text.entry) }
    ensures free { map to_ascii_lowercase (bytes_of text.entry) ≡ bytes_of text.entry
        → IsOk result }
{
    with_case(alloc, Case::Lower, text)
}

/// The same in upper case.
pub(crate) fn upper<'a>(alloc: Global, text: Bytes<'a>) -> Result<Bytes<'a>, NoMemory>
    ensures value { IfOk result (λ made.
        bytes_of made ≡ map to_ascii_uppercase (bytes_of text.entry)) }
    ensures kept { IfOk result (AreInputWhereEqual text.entry) }
    ensures free { map to_ascii_uppercase (bytes_of text.entry) ≡ bytes_of text.entry
        → IsOk result }
{
    with_case(alloc, Case::Upper, text)
}
