ghost use Rattle.std.specs.Prelude.{◌≡◌};
ghost use Rattle.hx_ast.specs.Types.{fetch_kind, output_kind, expr_kind, kind_out};

use crate::conv::Conv;
use crate::expr::Expr;
use crate::fetch::Fetch;
use hx_text::{Kind, Out};

impl Fetch {
    /// The type of what the fetch finds (HAProxy configuration manual 2.4, sections 7.3.2 to
    /// 7.3.6); of a variable it isn't known.
    pub fn kind(&self) -> Kind
        ensures { result ≡ fetch_kind self.now }
    {
        match self {
            Fetch::AlwaysTrue | Fetch::AlwaysFalse | Fetch::Bool(_) => Kind::Bool,
            Fetch::Int(_) | Fetch::SrcPort | Fetch::DstPort => Kind::Int,
            Fetch::ReqHdrVal(_, _) | Fetch::ReqHdrCnt(_) | Fetch::ReqCookCnt(_) => Kind::Int,
            Fetch::Ipv4(_) | Fetch::Ipv6(_) | Fetch::Src | Fetch::Dst => Kind::Ip,
            Fetch::ReqHdrIp(_, _) => Kind::Ip,
            Fetch::Str(_) | Fetch::ReqVer | Fetch::Path | Fetch::Query | Fetch::Url => Kind::Str,
            Fetch::Base | Fetch::ReqHdr(_, _) | Fetch::ReqFhdr(_, _) => Kind::Str,
            Fetch::ReqCook(_) | Fetch::UrlParam(_, _) => Kind::Str,
            Fetch::Bin(_) => Kind::Bin,
            Fetch::Method => Kind::Method,
            Fetch::Var(..) => Kind::Any,
        }
    }
}

/// The type of the values of a map.
pub fn kind_out(out: Out) -> Kind
    ensures { result ≡ kind_out out }
{
    match out {
        Out::Str => Kind::Str,
        Out::Int => Kind::Int,
        Out::Ip => Kind::Ip,
    }
}

impl Conv {
    /// The type of what the converter gives (HAProxy configuration manual 2.4, section 7.3.1).
    pub fn kind(&self) -> Kind
        ensures { result ≡ output_kind self.now }
    {
        match self {
            Conv::Lower | Conv::Upper | Conv::CutCrlf | Conv::Iif(_, _) => Kind::Str,
            Conv::Field(_, _, _) | Conv::Word(_, _, _) => Kind::Str,
            Conv::Ltrim(_) | Conv::Rtrim(_) | Conv::Concat(_, _, _) => Kind::Str,
            Conv::Regsub(_, _, _, _) | Conv::UrlDec(_) => Kind::Str,
            Conv::Base64 | Conv::Ub64enc | Conv::Hex => Kind::Str,
            Conv::Bytes(_, _) | Conv::B64dec | Conv::Ub64dec | Conv::Sha2(_) => Kind::Bin,
            Conv::Map(_, _, out, _) => kind_out(*out),
            Conv::Bool | Conv::Even | Conv::Odd | Conv::Not => Kind::Bool,
            Conv::Length | Conv::Strcmp(_) | Conv::Hex2i | Conv::Neg | Conv::Cpl => Kind::Int,
            Conv::Add(_) | Conv::Sub(_) | Conv::Mul(_) | Conv::Div(_) | Conv::Mod(_) => Kind::Int,
            Conv::And(_) | Conv::Or(_) | Conv::Xor(_) => Kind::Int,
            Conv::Ipmask(_, _) => Kind::Ip,
        }
    }
}

impl Expr {
    /// The type of the values of the expression: that of its last part.
    pub fn kind(&self) -> Kind
        ensures { result ≡ expr_kind self.now }
    {
        let mut kind = self.fetch.kind();
        let mut convs = self.convs.as_slice();
        while let [conv, rest @ ..] = convs {
            kind = conv.kind();
            convs = rest;
        }
        kind
    }
}
