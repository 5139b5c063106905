ghost use Rattle.std.specs.Prelude.{◌≡◌};
ghost use Rattle.hx_ast.specs.Types.{input_kind};
ghost use Rattle.hx_expr.specs.Types.{can_cast, is_typed};

use hx_ast::{Conv, Expr};
use hx_text::Kind;

fn input_kind(conv: &Conv) -> Kind
    ensures { result ≡ input_kind conv.now }
{
    match conv {
        Conv::Lower | Conv::Upper | Conv::Length | Conv::CutCrlf => Kind::Str,
        Conv::Field(_, _, _) | Conv::Word(_, _, _) => Kind::Str,
        Conv::Ltrim(_) | Conv::Rtrim(_) | Conv::Concat(_, _, _) | Conv::Strcmp(_) => Kind::Str,
        Conv::Regsub(_, _, _, _) | Conv::UrlDec(_) => Kind::Str,
        Conv::B64dec | Conv::Ub64dec | Conv::Hex2i => Kind::Str,
        Conv::Bytes(_, _) | Conv::Base64 | Conv::Ub64enc | Conv::Hex | Conv::Sha2(_) => Kind::Bin,
        Conv::Map(_, by, _, _) => by.kind(),
        Conv::Iif(_, _) => Kind::Bool,
        Conv::Bool | Conv::Even | Conv::Odd | Conv::Not | Conv::Neg | Conv::Cpl => Kind::Int,
        Conv::Add(_) | Conv::Sub(_) | Conv::Mul(_) | Conv::Div(_) | Conv::Mod(_) => Kind::Int,
        Conv::And(_) | Conv::Or(_) | Conv::Xor(_) => Kind::Int,
        Conv::Ipmask(_, _) => Kind::Ip,
    }
}

/// Whether there is a cast from the one type to the other. Whether a value has it shows when it is
/// cast. From `Any`, the type of a variable, every cast is allowed, and to it none is needed.
pub fn can_cast(from: Kind, to: Kind) -> bool
    ensures { result ≡ can_cast from to }
{
    match (from, to) {
        (Kind::Any, _) => true,
        (Kind::Str, _) => true,
        (_, Kind::Any) => true,
        (_, Kind::Str) => true,
        (Kind::Bool, Kind::Bool) => true,
        (Kind::Bool, Kind::Int) => true,
        (Kind::Int, Kind::Bool) => true,
        (Kind::Int, Kind::Int) => true,
        (Kind::Ip, Kind::Ip) => true,
        (Kind::Bin, Kind::Bin) => true,
        (Kind::Method, Kind::Bin) => true,
        (Kind::Method, Kind::Method) => true,
        _ => false,
    }
}

/// Whether there is a cast at each converter of the expression.
pub fn is_typed(expr: &Expr) -> bool
    ensures { result ≡ is_typed expr.now }
{
    let mut kind = expr.fetch.kind();
    for conv in expr.convs.as_slice() {
        if !can_cast(kind, input_kind(conv)) {
            return false;
        }
        kind = conv.kind();
    }
    true
}
