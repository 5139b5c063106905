//! Laws: what the definitions of casts, of variables and of searches imply.
ghost use Rattle.std.specs.Prelude.{◌≡◌, ◌≢◌, ◌≤◌, ◌↔◌, ℕ, true, false, length, slice_get, List, Some, None, option_and_then, if◌then◌else◌};
ghost use Rattle.std.specs.List.{find, list_any};
ghost use Rattle.std.specs.Str.{bytes_eq};
ghost use Rattle.hx_text.specs.declared.address.Ip.{Ip};
ghost use Rattle.hx_text.specs.declared.kinds.Kind.TheVariants as kind;
ghost use Rattle.hx_text.specs.declared.names.VarName.{VarName};
ghost use Rattle.hx_sample.specs.Cast.{cast_of};
ghost use Rattle.hx_sample.specs.declared.sample.Value.{Value};
ghost use Rattle.hx_sample.specs.declared.sample.Value.TheVariants as value;
ghost use Rattle.hx_sample.specs.Find.{by_network, nearness, prefix_width, Entry, found_entry};
ghost use Rattle.hx_sample.specs.Keys.{hits};
ghost use Rattle.hx_sample.specs.Vars.{var_of, with_var, without_var, after_request, after_session, ends_with_request, owner_of, IsSameVar};

use crate::sample::Value;
use crate::vars::Vars;
use hx_text::laws::{printed_i64_reads_back, printed_ip_reads_back};
use hx_text::{By, Ip, VarName};

/// A number that is cast to a text is cast back to the same number.
pub fn number_is_cast_back(n: i64)
    ensures { option_and_then (λ text. cast_of text kind.Int) (cast_of (value.Int n) kind.Str)
        ≡ Some (value.Int n) }
{
    printed_i64_reads_back(n)
}

/// An address that is cast to a text is cast back to the same address.
pub fn address_is_cast_back(ip: Ip)
    ensures { option_and_then (λ text. cast_of text kind.Ip) (cast_of (value.Ip ip) kind.Str)
        ≡ Some (value.Ip ip) }
{
    printed_ip_reads_back(ip)
}

/// What is set is got, and each other variable keeps its value.
pub fn set_variable_is_got(vars: &Vars, conn: u32, name: &VarName, value: &Value)
    ensures got { var_of (with_var vars.now conn name.now value.now) conn name.now
        ≡ Some value.now }
    ensures others { (c : ℕ) (n : VarName) → ¬ (IsSameVar conn name.now c n) →
        var_of (with_var vars.now conn name.now value.now) c n ≡ var_of vars.now c n }
{}

/// What is unset is none, and each other variable keeps its value.
pub fn unset_variable_is_none(vars: &Vars, conn: u32, name: &VarName)
    ensures none { var_of (without_var vars.now conn name.now) conn name.now ≡ None }
    ensures others { (c : ℕ) (n : VarName) → ¬ (IsSameVar conn name.now c n) →
        var_of (without_var vars.now conn name.now) c n ≡ var_of vars.now c n }
{}

/// When a request ends, the variables of its transaction, its request and its response are none,
/// and each other variable keeps its value.
pub fn ended_request_is_forgotten(vars: &Vars, conn: u32, name: &VarName)
    ensures { var_of (after_request vars.now) conn name.now
        ≡ (if ends_with_request name.now.scope then None else var_of vars.now conn name.now) }
{}

/// When a connection ends, the variables of its session are none, and each other variable keeps its
/// value.
pub fn ended_session_is_forgotten(vars: &Vars, conn: u32)
    ensures none { (c : ℕ) (n : VarName) → owner_of c n.scope ≡ Some conn →
        var_of (after_session vars.now conn) c n ≡ None }
    ensures others { (c : ℕ) (n : VarName) → owner_of c n.scope ≢ Some conn →
        var_of (after_session vars.now conn) c n ≡ var_of vars.now c n }
{}

/// The entry that is found hits, and of the entries that have its key it is the first.
pub fn found_entry_hits_and_is_first(by: By, ci: bool)
    ensures hits { (entries : List Entry) (v : Value) (found : Entry) →
        found_entry by ci entries v ≡ Some found → hits by ci found.key v ≡ true }
    ensures first { (entries : List Entry) (v : Value) (found : Entry) →
        found_entry by ci entries v ≡ Some found →
        find (λ entry. bytes_eq entry.key found.key) entries ≡ Some found }
{}

/// By `beg`, with case, no entry that hits has a longer key than the one that is found.
pub fn longest_prefix_is_found()
    ensures { (entries : List Entry) (v : Value) (found : Entry) (position : ℕ) (other : Entry) →
        found_entry By.Beg false entries v ≡ Some found → slice_get entries position ≡ Some other
        → hits By.Beg false other.key v ≡ true → length other.key ≤ length found.key }
{}

/// By `ip`, no entry that hits an address has a network that is nearer to it than that of the one
/// that is found, and none as near has a longer prefix.
pub fn nearest_network_is_found(ci: bool)
    ensures near { (entries : List Entry) (ip : Ip) (found : Entry) (position : ℕ) (other : Entry) →
        found_entry By.Ip ci entries (value.Ip ip) ≡ Some found
        → slice_get entries position ≡ Some other
        → hits By.Ip ci other.key (value.Ip ip) ≡ true
        → by_network (nearness ip) other ≤ by_network (nearness ip) found }
    ensures long { (entries : List Entry) (ip : Ip) (found : Entry) (position : ℕ) (other : Entry) →
        found_entry By.Ip ci entries (value.Ip ip) ≡ Some found
        → slice_get entries position ≡ Some other
        → hits By.Ip ci other.key (value.Ip ip) ≡ true
        → by_network (nearness ip) other ≡ by_network (nearness ip) found
        → by_network prefix_width other ≤ by_network prefix_width found }
{}

/// No entry is found exactly where none hits.
pub fn none_is_found_where_none_hits(by: By, ci: bool)
    ensures { (entries : List Entry) (v : Value) →
        (found_entry by ci entries v ≡ None)
        ↔ (list_any (λ entry. hits by ci entry.key v) entries ≡ false) }
{}
