/// The types of samples (HAProxy configuration manual 2.4, section 7.1): boolean, integer, address,
/// string, binary and method. `Any` is the type of a variable, which is known only when it is read.
#[derive(Clone, Copy, PartialEq, Eq)]
pub enum Kind {
    Bool,
    Int,
    Ip,
    Str,
    Bin,
    Method,
    Any,
}

/// The match methods of patterns (HAProxy configuration manual 2.4, section 7.1).
#[derive(Clone, Copy, PartialEq, Eq)]
pub enum By {
    Found,
    Bool,
    Int,
    Ip,
    Bin,
    Len,
    Str,
    Beg,
    End,
    Sub,
    Dir,
    Dom,
    Reg,
}

/// The types of the values that a map gives (HAProxy configuration manual 2.4, section 7.3.1,
/// `map`).
#[derive(Clone, Copy, PartialEq, Eq)]
pub enum Out {
    Str,
    Int,
    Ip,
}
