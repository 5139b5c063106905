ghost use Rattle.std.specs.Prelude.{◌≡◌, ◌↔◌, ◌∷◌, ◌++◌, ◌+◌, ◌<◌, ◌^◌, [], Contains, OnOk, OnErr, IsErrOf, true, false};
ghost use Rattle.hx_expr.specs.Faults.{CompileCountsLarge};
ghost use Rattle.hx_rules.specs.Building.{is_statement_typed, statement_has_expressions, statement_texts, with_statement};
ghost use Rattle.hx_rules.specs.Programs.{no_rules, rule_count};
ghost use Rattle.hx_rules.specs.Rewriting.{is_rewrite, may_rewrite};

use crate::action::BuiltAction;
use crate::building::{build_backend, build_rule};
use crate::format::BuiltFormat;
use crate::typing::is_statement_typed;
use hx_acl::{AclSet, Condition};
use hx_ast::{Items, Statement};
use hx_expr::PlanFault;
use hx_outside::ReMaker;
use hx_text::{NoMemory, Octets};
use std::alloc::Global;
use std::marker::Model;

/// A rule: the number of its line, what it does, and when it is taken. Contracts see it as the rule
/// that it was built from.
pub(crate) struct BuiltRule {
    pub(crate) line: u64,
    pub(crate) action: BuiltAction,
    pub(crate) unless: bool,
    pub(crate) cond: Option<Condition>,
}

// Written out, so that letting one go is one call in the proofs of callers.
impl Drop for BuiltRule {
    fn drop(self) {
        let BuiltRule {
            line: _line,
            action: _action,
            unless: _unless,
            cond: _cond,
        } = self;
    }
}

impl Model for BuiltRule {
    ghost use Rattle.hx_ast.specs.declared.statement.Rule.{Rule};

    ghost Value = { Rule };

    ghost use Rattle.hx_rules.specs.ProgramView.{action_of_built};

    ghost view = { λ rule. record {
      line = rule.line;
      action = action_of_built rule.action;
      unless = rule.unless;
      cond = rule.cond;
    } };
}

impl BuiltRule {
    /// Whether it rewrites the head of a request, where it is taken.
    fn is_rewrite(&self) -> bool
        ensures { result ≡ is_rewrite self.now.action }
    {
        self.action.is_rewrite()
    }
}

/// A rule of `use_backend`: the number of its line, what makes the backend's name, and when it is
/// taken. Contracts see it as what it was built from.
pub(crate) struct BuiltBackend {
    pub(crate) line: u64,
    pub(crate) format: BuiltFormat,
    pub(crate) unless: bool,
    pub(crate) cond: Option<Condition>,
}

// Written out, so that letting one go is one call in the proofs of callers.
impl Drop for BuiltBackend {
    fn drop(self) {
        let BuiltBackend {
            line: _line,
            format: _format,
            unless: _unless,
            cond: _cond,
        } = self;
    }
}

impl Model for BuiltBackend {
    ghost use Rattle.hx_rules.specs.Programs.{BackendRule};

    ghost Value = { BackendRule };

    ghost view = { λ rule. record {
      line = rule.line;
      format = rule.format;
      unless = rule.unless;
      cond = rule.cond;
    } };
}

/// The rules of a frontend, ready to be evaluated (HAProxy configuration manual 2.4, section 4.2).
/// Contracts see them as lists: of the declarations of ACLs, of the rules of `http-request`, of the
/// redirects and of the rules of `use_backend`, and the backend where no other is taken, with the
/// number of its line.
pub struct Program {
    alloc: Global,
    pub(crate) acls: AclSet,
    pub(crate) rules: Items<BuiltRule>,
    pub(crate) redirects: Items<BuiltRule>,
    pub(crate) backends: Items<BuiltBackend>,
    pub(crate) fallback: Option<Octets>,
    /// The number of the line that names it, or 0.
    pub(crate) fallback_line: u64,
    /// Whether one of `rules` rewrites the head of a request.
    rewrites: bool,
}

// Written out, so that letting one go is one call in the proofs of callers.
impl Drop for Program {
    fn drop(self) {
        let Program {
            alloc: _alloc,
            acls: _acls,
            rules: _rules,
            redirects: _redirects,
            backends: _backends,
            fallback: _fallback,
            fallback_line: _fallback_line,
            rewrites: _rewrites,
        } = self;
    }
}

impl Model for Program {
    ghost use Rattle.std.specs.Prelude.{◌≡◌, ◌+◌, ◌<◌, ◌^◌, length};
    ghost use Rattle.std.specs.List.{list_any};
    ghost use Rattle.hx_rules.specs.Programs.{Rules};
    ghost use Rattle.hx_rules.specs.Rewriting.{is_rewrite};

    ghost Value = { Rules };

    ghost view = { λ program. record {
      acls = program.acls;
      rules = program.rules;
      redirects = program.redirects;
      backends = program.backends;
      fallback = program.fallback;
      fallback_line = program.fallback_line;
    } };

    // how many rules there are is a `u64`, and whether one rewrites is known
    ghost invariant = { λ program.
        (length program.rules + length program.redirects + length program.backends < 2 ^ 64)
        × (program.rewrites ≡ list_any (λ rule. is_rewrite rule.action) program.rules) };
}

impl Program {
    /// No rules. It takes no memory; those that are pushed later are kept in memory of `alloc`.
    pub fn new(alloc: Global) -> Program
        ensures { result ≡ no_rules }
    {
        Program {
            alloc,
            acls: AclSet::new(alloc),
            rules: Items::new(alloc),
            redirects: Items::new(alloc),
            backends: Items::new(alloc),
            fallback: None,
            fallback_line: 0,
            rewrites: false,
        }
    }

    /// Adds what the statement says: a declaration of an ACL, a rule, a redirect, a rule of
    /// `use_backend`, each after those that are there, or the backend where no other is taken.
    /// Regular expressions are made by `maker`; inline patterns of ACLs aren't read. ACLs that a
    /// condition names are looked for when it is evaluated.
    ///
    /// `BadType` exactly where a converter takes a type to which what stands before it has no cast,
    /// or the value of an ACL has none to the type that its match method looks at: that is judged
    /// first, of all expressions of the statement. `BadPattern` only where the regular expression
    /// of a converter or an action is none. `TooLarge` and `NoMemory` come as with
    /// `hx_expr::compile`. After any of them the program is as before.
    pub fn push<M: ReMaker>(
        &mut self,
        statement: &Statement,
        maker: &mut M,
    ) -> Result<(), PlanFault>
        ensures ok { OnOk result (self.new ≡ with_statement statement.now self.old) }
        ensures err { OnErr result (self.new ≡ self.old) }
        ensures types { OnOk result (is_statement_typed statement.now ≡ true) }
        ensures bad_type { (IsErrOf result PlanFault.BadType)
            ↔ (is_statement_typed statement.now ≡ false) }
        ensures expressions { OnOk result (statement_has_expressions statement.now ≡ true) }
        ensures bad_pattern { IsErrOf result PlanFault.BadPattern →
            statement_has_expressions statement.now ≡ false }
        ensures large { CompileCountsLarge result (Contains (statement_texts statement.now))
            (M.state maker.old) (M.state maker.new) }
    {
        if !is_statement_typed(statement) {
            return Err(PlanFault::BadType);
        }
        self.push_built(statement, maker)
    }

    /// The same of a statement whose types fit.
    fn push_built<M: ReMaker>(
        &mut self,
        statement: &Statement,
        maker: &mut M,
    ) -> Result<(), PlanFault>
        requires { is_statement_typed statement.now ≡ true }
        ensures ok { OnOk result (self.new ≡ with_statement statement.now self.old) }
        ensures err { OnErr result (self.new ≡ self.old) }
        ensures typed { ¬ (IsErrOf result PlanFault.BadType) }
        ensures expressions { OnOk result (statement_has_expressions statement.now ≡ true) }
        ensures bad { IsErrOf result PlanFault.BadPattern →
            statement_has_expressions statement.now ≡ false }
        ensures large { CompileCountsLarge result (Contains (statement_texts statement.now))
            (M.state maker.old) (M.state maker.new) }
    {
        let alloc = self.alloc;
        // No memory holds as many rules as a `u64` can't count.
        if self.rules() == u64::MAX {
            return Err(PlanFault::NoMemory);
        }
        match statement {
            Statement::Plain => Ok(()),
            Statement::Acl { name, decl, .. } => self.acls.declare(name.as_slice(), decl, maker),
            Statement::Rule(rule) => {
                let rule = build_rule(alloc, rule, maker)?;
                self.push_rule(rule)?;
                Ok(())
            }
            Statement::Redirect(rule) => {
                let rule = build_rule(alloc, rule, maker)?;
                self.redirects.push(rule)?;
                Ok(())
            }
            Statement::Backend {
                line,
                format,
                unless,
                cond,
            } => {
                let rule = build_backend(alloc, *line, format, *unless, cond, maker)?;
                self.backends.push(rule)?;
                Ok(())
            }
            Statement::Fallback { line, name } => {
                self.fallback = Some(Octets::copy(alloc, name.as_slice())?);
                self.fallback_line = *line;
                Ok(())
            }
        }
    }

    /// Adds a rule of `http-request` after those that are there, or nothing where memory runs out.
    fn push_rule(&mut self, rule: BuiltRule) -> Result<(), NoMemory>
        requires { rule_count self.old + 1 < 2 ^ 64 }
        ensures ok { OnOk result
            (self.new ≡ record self.old { rules = self.old.rules ++ rule ∷ [] }) }
        ensures err { OnErr result (self.new ≡ self.old) }
    {
        let rewrites = rule.is_rewrite();
        self.rules.push(rule)?;
        self.rewrites = self.rewrites || rewrites;
        Ok(())
    }

    /// Whether a rule of `http-request` rewrites the head of requests, where it is taken. Where none
    /// does, `evaluate` leaves each message as it is.
    pub fn may_rewrite(&self) -> bool
        ensures { result ≡ may_rewrite self.now }
    {
        self.rewrites
    }

    /// How many statements of `http-request`, `redirect` and `use_backend` were pushed.
    pub fn rules(&self) -> u64
        ensures { result ≡ rule_count self.now }
    {
        self.rules.len() as u64 + self.redirects.len() as u64 + self.backends.len() as u64
    }
}
