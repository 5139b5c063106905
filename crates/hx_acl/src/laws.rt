//! Laws: what the definition of conditions implies.
ghost use Rattle.std.specs.Prelude.{◌≡◌, [], ◌∷◌, ◌++◌, ◌||◌, Bool, List, ℕ, Some, true, false, is_some, map, slice_get};
ghost use Rattle.std.specs.List.{list_all, list_any};
ghost use Rattle.hx_ast.specs.declared.fetch.Fetch.{Fetch};
ghost use Rattle.hx_ast.specs.declared.statement.AclUse.TheVariants as acl;
ghost use Rattle.hx_ast.specs.declared.statement.Term.{Term};
ghost use Rattle.hx_acl.specs.Grounds.{conj_grounds, held_of};
ghost use Rattle.hx_acl.specs.Holds.{Acls, cond_holds, declared_matches, name_holds, term_holds};
ghost use Rattle.hx_acl.specs.Matching.{test_matches};
ghost use Rattle.hx_acl.specs.Predefined.{keyed_matches};
ghost use Rattle.hx_expr.specs.Values.{expr_values};
ghost use Rattle.hx_fetch.specs.World.{Context};
ghost use Rattle.hx_sample.specs.Find.{Entry};
ghost use Rattle.hx_sample.specs.Tables.{TableHead, entries_at};

use hx_ast::Decl;
use hx_sample::laws::none_is_found_where_none_hits;
use hx_text::By;

/// Where the expression of an ACL has no value, the ACL doesn't match, and a term that negates it
/// holds.
pub fn missing_samples_match_nothing(decl: &Decl)
    ensures matches { (context : Context) (heads : List TableHead) (lists : List (List Entry))
        → list_any is_some (expr_values context heads lists decl.now.expr) ≡ false
        → test_matches context heads lists decl.now ≡ false }
    ensures negated { (context : Context) (heads : List TableHead) (lists : List (List Entry))
        (acls : Acls)
        → list_any is_some (expr_values context heads lists decl.now.expr) ≡ false
        → term_holds context heads lists acls
        (record { negated = true; acl = acl.Own decl.now }) ≡ true }
{}

/// Where an ACL is declared once more, it holds where one of the declarations before or this one
/// matches, also where its name is that of a predefined ACL.
pub fn declarations_of_a_name_are_joined(name: &[u8], decl: &Decl)
    ensures { (context : Context) (heads : List TableHead) (lists : List (List Entry))
        (acls : Acls)
        → name_holds context heads lists (acls ++ (name.now, decl.now) ∷ []) name.now
        ≡ (declared_matches context heads lists acls name.now
        || test_matches context heads lists decl.now) }
{}

/// An ACL whose patterns are keys, as the predefined ones are, matches exactly where a declaration
/// matches that looks its samples up in a list of entries with these keys, by the same method,
/// whatever it says itself of inline patterns.
pub fn predefined_acls_are_as_declared(by: By, ci: bool)
    ensures { (context : Context) (heads : List TableHead) (lists : List (List Entry))
        (fetch : Fetch) (position list : ℕ) (ignores_case : Bool) (words : List (List ℕ))
        → slice_get heads position ≡ Some (record { by = by; ci = ci; list = list })
        → keyed_matches context (record {
          fetch = fetch;
          by = by;
          ci = ci;
          keys = map (λ entry. entry.key) (entries_at lists list);
        })
        ≡ test_matches context heads lists (record {
          expr = record { fetch = fetch; convs = [] };
          by = by;
          ci = ignores_case;
          heads = position ∷ [];
          words = words;
        }) }
{
    none_is_found_where_none_hits(by, ci);
}

/// Why a condition holds is said exactly where it holds, and of each of its conjunctions exactly
/// where all terms of it hold.
pub fn a_condition_with_grounds_holds()
    ensures condition { (context : Context) (heads : List TableHead) (lists : List (List Entry))
        (acls : Acls) (cond : List (List Term))
        → is_some (held_of context heads lists acls cond)
        ≡ cond_holds context heads lists acls cond }
    ensures conjunction { (context : Context) (heads : List TableHead) (lists : List (List Entry))
        (acls : Acls) (conj : List Term)
        → is_some (conj_grounds context heads lists acls conj)
        ≡ list_all (term_holds context heads lists acls) conj }
{}
