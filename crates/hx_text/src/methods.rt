ghost use Rattle.std.specs.Prelude.{◌≡◌};
ghost use Rattle.hx_text.specs.Methods.{kind_by, method_name, method_number};

use crate::kinds::{By, Kind};

impl By {
    /// The place of the method among all, in the order in which the uses of a reference are told
    /// (HAProxy management guide 2.4, section 9.3, `get acl`).
    pub fn number(&self) -> u32
        ensures { result ≡ method_number self.now }
    {
        match self {
            By::Int => 0,
            By::Ip => 1,
            By::Bin => 2,
            By::Len => 3,
            By::Str => 4,
            By::Beg => 5,
            By::End => 6,
            By::Sub => 7,
            By::Dir => 8,
            By::Dom => 9,
            By::Reg => 10,
            By::Found => 11,
            By::Bool => 12,
        }
    }

    /// The name of the method, as `-m` has it (HAProxy configuration manual 2.4, section 7.1).
    pub fn name(&self) -> &'static [u8]
        ensures { result.now ≡ method_name self.now }
    {
        match self {
            By::Found => b"found",
            By::Bool => b"bool",
            By::Int => b"int",
            By::Ip => b"ip",
            By::Bin => b"bin",
            By::Len => b"len",
            By::Str => b"str",
            By::Beg => b"beg",
            By::End => b"end",
            By::Sub => b"sub",
            By::Dir => b"dir",
            By::Dom => b"dom",
            By::Reg => b"reg",
        }
    }

    /// The type of the values that the method looks at; of `found` it is any.
    pub fn kind(&self) -> Kind
        ensures { result ≡ kind_by self.now }
    {
        match self {
            By::Found => Kind::Any,
            By::Bool => Kind::Bool,
            By::Int => Kind::Int,
            By::Ip => Kind::Ip,
            By::Bin => Kind::Bin,
            By::Len | By::Str | By::Beg | By::End | By::Sub => Kind::Str,
            By::Dir | By::Dom | By::Reg => Kind::Str,
        }
    }
}
