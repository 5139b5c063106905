use hx_ast::Val;
use hx_text::Octets;

/// The converters of an integer alone.
#[derive(Clone, Copy)]
pub(crate) enum IntForm {
    Bool,
    Even,
    Odd,
    Not,
    Neg,
    Cpl,
}

/// The converters of an integer and an operand.
#[derive(Clone, Copy)]
pub(crate) enum Operation {
    Add,
    Sub,
    Mul,
    Div,
    Mod,
    And,
    Or,
    Xor,
}

/// The converters of bytes.
#[derive(Clone, Copy)]
pub(crate) enum BytesForm {
    Base64,
    Ub64enc,
    Hex,
    Sha2(Option<u16>),
}

/// The converters of a string.
#[derive(Clone, Copy)]
pub(crate) enum TextForm {
    B64dec,
    Ub64dec,
    Hex2i,
}

/// A converter, by the type of its input.
pub(crate) enum Form {
    Iif(Octets, Octets),
    Int(IntForm),
    Calculation(Operation, Val),
    Ipmask(u32, Option<u32>),
    Bytes(BytesForm),
    Text(TextForm),
}

// Written out, so that letting one go is one call in the proofs of callers.
impl Drop for Form {
    fn drop(self) {
        match self {
            Form::Iif(_first, _second) => (),
            Form::Int(_it) => (),
            Form::Calculation(_first, _second) => (),
            Form::Ipmask(_first, _second) => (),
            Form::Bytes(_it) => (),
            Form::Text(_it) => (),
        }
    }
}
