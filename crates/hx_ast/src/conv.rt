use crate::val::Val;
use hx_text::{By, Octets, Out, VarName};

/// What an expression makes of a sample (HAProxy configuration manual 2.4, section 7.3.1): a
/// variant for each converter, whose fields are its arguments in their order. An argument that may
/// be missing is an option. All converters that look a key up in a map share a variant.
pub enum Conv {
    /// `lower`: ASCII capitals become small letters
    Lower,
    /// `upper`: ASCII small letters become capitals
    Upper,
    /// `length`: how many bytes the string has
    Length,
    /// `field(I,DELIMS[,COUNT])`: the string is cut at each byte of DELIMS. The piece I, from the
    /// first, 1, where it is positive, and from the last, -1, where it is negative; with COUNT so
    /// many pieces, or with 0 all, from there on away from the end that I counts from
    Field(i64, Octets, Option<i64>),
    /// `word(I,DELIMS[,COUNT])`: as `field`, with the longest runs of bytes that aren't in DELIMS
    /// as pieces
    Word(i64, Octets, Option<i64>),
    /// `bytes(OFF[,LEN])`: the bytes from the offset OFF on, at most LEN of them
    Bytes(i64, Option<i64>),
    /// `ltrim(CHARS)`: without the first bytes, as long as they are in CHARS
    Ltrim(Octets),
    /// `rtrim(CHARS)`: without the last bytes, as long as they are in CHARS
    Rtrim(Octets),
    /// `cut_crlf`: what stands before the first carriage return or line feed
    CutCrlf,
    /// `concat([START][,[VAR][,[END]]])`: the string, START, the variable VAR, END
    Concat(Option<Octets>, Option<VarName>, Option<Octets>),
    /// `strcmp(VAR)`: the string compared with the variable VAR
    Strcmp(VarName),
    /// `regsub(RE,SUB[,FLAGS])`: what the regular expression RE matches is replaced by SUB; each
    /// match and not the first alone where the third field, the flag `g`, is true; the case of
    /// letters is ignored where the fourth, the flag `i`, is true
    Regsub(Octets, Octets, bool, bool),
    /// `url_dec([FORM])`: percent-encoding is decoded; a `+` is a space in a query, and everywhere
    /// where FORM isn't 0
    UrlDec(Option<i64>),
    /// `map(FILE[,DEFAULT])`, `map_MATCH(..)`, `map_MATCH_OUT(..)`: the value under the key that
    /// the sample finds in FILE. The fields are the number of the head, which names the file and
    /// how it is searched; the match method; the type of the value; and DEFAULT, the value where
    /// no key is found
    Map(u32, By, Out, Option<Octets>),
    /// `iif(T,F)`: T for true, F for false
    Iif(Octets, Octets),
    /// `bool`: whether the number isn't 0
    Bool,
    /// `even`: whether the number is divisible by 2
    Even,
    /// `odd`: whether the number isn't divisible by 2
    Odd,
    /// `not`: whether the number is 0
    Not,
    /// `add(VAL)`: the number and VAL, which saturates
    Add(Val),
    /// `sub(VAL)`: the number without VAL, which saturates
    Sub(Val),
    /// `mul(VAL)`: the number times VAL, which saturates
    Mul(Val),
    /// `div(VAL)`: the number divided by VAL, rounded toward zero
    Div(Val),
    /// `mod(VAL)`: the remainder of the number divided by VAL
    Mod(Val),
    /// `neg`: the number with the other sign
    Neg,
    /// `and(VAL)`: the bits that are set in both
    And(Val),
    /// `or(VAL)`: the bits that are set in either
    Or(Val),
    /// `xor(VAL)`: the bits that are set in one of the two alone
    Xor(Val),
    /// `cpl`: the bits that aren't set
    Cpl,
    /// `ipmask(M4[,M6])`: the address under a mask. M4 is the mask of an IPv4 address as a number,
    /// the first octet highest; M6 is how many of the first bits of an IPv6 address are kept
    Ipmask(u32, Option<u32>),
    /// `base64`: the bytes in base64 with padding (RFC 4648, section 4)
    Base64,
    /// `ub64enc`: the bytes in base64url without padding (RFC 4648, section 5)
    Ub64enc,
    /// `b64dec`: the bytes that a base64 text stands for
    B64dec,
    /// `ub64dec`: the bytes that a base64url text stands for
    Ub64dec,
    /// `hex`: the bytes as capital hexadecimal digits
    Hex,
    /// `hex2i`: the number that hexadecimal digits write
    Hex2i,
    /// `sha2([BITS])`: the SHA-2 digest of so many bits, 256 without the argument
    Sha2(Option<u16>),
}

// Written out, so that letting one go is one call in the proofs of callers.
impl Drop for Conv {
    fn drop(self) {
        match self {
            Conv::Lower => (),
            Conv::Upper => (),
            Conv::Length => (),
            Conv::Field(_first, _second, _third) => (),
            Conv::Word(_first, _second, _third) => (),
            Conv::Bytes(_first, _second) => (),
            Conv::Ltrim(_it) => (),
            Conv::Rtrim(_it) => (),
            Conv::CutCrlf => (),
            Conv::Concat(_first, _second, _third) => (),
            Conv::Strcmp(_it) => (),
            Conv::Regsub(_first, _second, _third, _fourth) => (),
            Conv::UrlDec(_it) => (),
            Conv::Map(_first, _second, _third, _fourth) => (),
            Conv::Iif(_first, _second) => (),
            Conv::Bool => (),
            Conv::Even => (),
            Conv::Odd => (),
            Conv::Not => (),
            Conv::Add(_it) => (),
            Conv::Sub(_it) => (),
            Conv::Mul(_it) => (),
            Conv::Div(_it) => (),
            Conv::Mod(_it) => (),
            Conv::Neg => (),
            Conv::And(_it) => (),
            Conv::Or(_it) => (),
            Conv::Xor(_it) => (),
            Conv::Cpl => (),
            Conv::Ipmask(_first, _second) => (),
            Conv::Base64 => (),
            Conv::Ub64enc => (),
            Conv::B64dec => (),
            Conv::Ub64dec => (),
            Conv::Hex => (),
            Conv::Hex2i => (),
            Conv::Sha2(_it) => (),
        }
    }
}
