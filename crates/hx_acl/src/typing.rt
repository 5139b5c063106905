ghost use Rattle.std.specs.Prelude.{◌≡◌};
ghost use Rattle.std.specs.List.{list_all};
ghost use Rattle.hx_ast.specs.Acls.{use_passes};
ghost use Rattle.hx_acl.specs.Typing.{is_cond_typed, is_decl_typed};

use hx_ast::{AclUse, Conj, Decl, Term};
use hx_expr::{can_cast, is_typed};

/// Whether there is a cast at each converter, and one of the value to the type that the match
/// method looks at.
pub fn is_decl_typed(decl: &Decl) -> bool
    ensures { result ≡ is_decl_typed decl.now }
{
    is_typed(&decl.expr) && can_cast(decl.expr.kind(), decl.by.kind())
}

fn is_conj_typed(conj: &[Term]) -> bool
    ensures { result ≡ list_all (λ term. use_passes is_decl_typed term.acl) conj.now }
{
    for term in conj {
        if let AclUse::Own(decl) = &term.acl {
            if !is_decl_typed(decl) {
                return false;
            }
        }
    }
    true
}

/// Whether of each ACL that stands in a condition itself there is a cast at each converter, and one
/// of the value to the type that the match method looks at.
pub fn is_cond_typed(cond: &[Conj]) -> bool
    ensures { result ≡ is_cond_typed cond.now }
{
    for conj in cond {
        if !is_conj_typed(conj.as_slice()) {
            return false;
        }
    }
    true
}
