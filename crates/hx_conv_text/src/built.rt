use hx_regex::RegularExpression;
use hx_text::{Octets, VarName};

/// A converter that was built, by how its value comes about.
pub(crate) enum Built {
    Length,
    Strcmp(VarName),
    Part(Part),
    Made(Made),
}

// Written out, so that letting one go is one call in the proofs of callers.
impl Drop for Built {
    fn drop(self) {
        match self {
            Built::Length => (),
            Built::Strcmp(_it) => (),
            Built::Part(_it) => (),
            Built::Made(_it) => (),
        }
    }
}

/// Converters whose value is a part of their input.
pub(crate) enum Part {
    Field(i64, Octets, Option<i64>),
    Word(i64, Octets, Option<i64>),
    Bytes(i64, Option<i64>),
    Ltrim(Octets),
    Rtrim(Octets),
    CutCrlf,
}

// Written out, so that letting one go is one call in the proofs of callers.
impl Drop for Part {
    fn drop(self) {
        match self {
            Part::Field(_first, _second, _third) => (),
            Part::Word(_first, _second, _third) => (),
            Part::Bytes(_first, _second) => (),
            Part::Ltrim(_it) => (),
            Part::Rtrim(_it) => (),
            Part::CutCrlf => (),
        }
    }
}

/// Converters that make a text.
pub(crate) enum Made {
    Lower,
    Upper,
    Concat(Option<Octets>, Option<VarName>, Option<Octets>),
    Regsub(RegularExpression, Octets, bool),
    UrlDec(Option<i64>),
}

// Written out, so that letting one go is one call in the proofs of callers.
impl Drop for Made {
    fn drop(self) {
        match self {
            Made::Lower => (),
            Made::Upper => (),
            Made::Concat(_first, _second, _third) => (),
            Made::Regsub(_first, _second, _third) => (),
            Made::UrlDec(_it) => (),
        }
    }
}
