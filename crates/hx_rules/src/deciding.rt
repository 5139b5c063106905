ghost use Rattle.std.specs.Prelude.{◌≡◌, List, IfSome, option_and_then, option_map, slice_get};
ghost use Rattle.std.specs.Option.{option_map_or};
ghost use Rattle.hx_acl.specs.Holds.{HasCondHeads};
ghost use Rattle.hx_sample.specs.Tables.{TableHead};
ghost use Rattle.hx_rules.specs.Deciding.{backend_condition, condition_of, line_of, rule_condition};
ghost use Rattle.hx_rules.specs.Tables.{HasHeads};

use crate::program::{BuiltBackend, BuiltRule, Program};
use crate::verdict::Verdict;
use hx_acl::{AclSet, Condition};

/// The statement that decides what is made of a request. Positions are counted from 0, among the
/// statements of the same kind in the order in which they were pushed.
#[derive(Clone, Copy, Drop, PartialEq, Eq)]
pub enum Deciding {
    /// the rule of `http-request` that denies it, redirects it, or ends it with an error
    Rule(usize),
    /// the redirect that is taken
    Redirect(usize),
    /// the rule of `use_backend` that names the backend
    Backend(usize),
    /// `default_backend`
    Fallback,
    /// none, as there is no backend
    Nothing,
}

/// What is to be done with a request, and the statement that decides it.
#[derive(Drop)]
pub struct Decided {
    pub verdict: Verdict,
    pub by: Deciding,
}

/// When a statement is taken: where the condition holds, or with `unless` where it doesn't.
#[derive(Clone, Copy)]
pub struct When<'p> {
    pub unless: bool,
    pub cond: &'p Condition,
}

/// When the rule at a position is taken, if it has a condition.
fn rule_condition(rules: &[BuiltRule], at: usize) -> Option<When<'_>>
    ensures { option_map (λ when. (when.unless, when.cond.now)) result
        ≡ option_and_then rule_condition (slice_get rules.now at) }
{
    match rules.get(at) {
        Some(rule) => match &rule.cond {
            Some(cond) => Some(When {
                unless: rule.unless,
                cond,
            }),
            None => None,
        },
        None => None,
    }
}

/// The same of a rule of `use_backend`.
fn backend_condition(rules: &[BuiltBackend], at: usize) -> Option<When<'_>>
    ensures { option_map (λ when. (when.unless, when.cond.now)) result
        ≡ option_and_then backend_condition (slice_get rules.now at) }
{
    match rules.get(at) {
        Some(rule) => match &rule.cond {
            Some(cond) => Some(When {
                unless: rule.unless,
                cond,
            }),
            None => None,
        },
        None => None,
    }
}

/// The line of the rule at a position, or 0 without one.
fn rule_line(rules: &[BuiltRule], at: usize) -> u64
    ensures { result ≡ option_map_or (λ rule. rule.line) (slice_get rules.now at) 0 }
{
    match rules.get(at) {
        Some(rule) => rule.line,
        None => 0,
    }
}

/// The same of a rule of `use_backend`.
fn backend_line(rules: &[BuiltBackend], at: usize) -> u64
    ensures { result ≡ option_map_or (λ rule. rule.line) (slice_get rules.now at) 0 }
{
    match rules.get(at) {
        Some(rule) => rule.line,
        None => 0,
    }
}

impl Program {
    /// The ACLs that the program declares.
    pub fn acls(&self) -> &AclSet
        ensures { result.now ≡ self.now.acls }
    {
        &self.acls
    }

    /// The number of the line of the statement that `by` names, counted from 1. It is 0 where none
    /// stands at its position, and where nothing decides.
    pub fn line(&self, by: &Deciding) -> u64
        ensures { result ≡ line_of self.now by.now }
    {
        match by {
            Deciding::Rule(at) => rule_line(self.rules.as_slice(), *at),
            Deciding::Redirect(at) => rule_line(self.redirects.as_slice(), *at),
            Deciding::Backend(at) => backend_line(self.backends.as_slice(), *at),
            Deciding::Fallback => self.fallback_line,
            Deciding::Nothing => 0,
        }
    }

    /// When the statement is taken that `by` names. None where it has no condition, and where none
    /// stands at its position.
    pub fn condition(&self, by: &Deciding) -> Option<When<'_>>
        ensures condition { option_map (λ when. (when.unless, when.cond.now)) result
            ≡ condition_of self.now by.now }
        ensures heads { (heads : List TableHead) → HasHeads heads self.now
            → IfSome result (λ when. HasCondHeads heads when.cond.now) }
    {
        match by {
            Deciding::Rule(at) => rule_condition(self.rules.as_slice(), *at),
            Deciding::Redirect(at) => rule_condition(self.redirects.as_slice(), *at),
            Deciding::Backend(at) => backend_condition(self.backends.as_slice(), *at),
            Deciding::Fallback | Deciding::Nothing => None,
        }
    }
}
