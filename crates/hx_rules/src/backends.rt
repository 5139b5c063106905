ghost use Rattle.std.specs.Prelude.{◌≡◌, IfOk, option_map, if◌then◌else◌};
ghost use Rattle.std.specs.List.{All, list_all};
ghost use Rattle.std.specs.Option.{option_copied};
ghost use Rattle.hx_acl.specs.Holds.{cond_holds, HasAclsHeads};
ghost use Rattle.hx_rules.specs.declared.deciding.Deciding.TheVariants as by;
ghost use Rattle.hx_rules.specs.declared.verdict.Verdict.TheVariants as verdict;
ghost use Rattle.hx_rules.specs.Deciding.{backend_deciding, fallback_deciding, names_backend, redirect_deciding};
ghost use Rattle.hx_rules.specs.Formats.{text_in};
ghost use Rattle.hx_rules.specs.RedirectView.{redirect_in};
ghost use Rattle.hx_rules.specs.RequestView.{state_of};
ghost use Rattle.hx_rules.specs.State.{in_state, table_view};
ghost use Rattle.hx_rules.specs.Tables.{HasBackendHeads, HasRuleHeads};
ghost use Rattle.hx_rules.specs.Verdicts.{backend_of, is_backend_byte, named_backend, redirects_verdict};

use crate::action::{BuiltAction, BuiltRedirect};
use crate::deciding::{Decided, Deciding};
use crate::program::{BuiltBackend, BuiltRule};
use crate::request::Request;
use crate::verdict::Verdict;
use hx_acl::AclSet;
use hx_pool::Steps;
use hx_sample::Tables;
use hx_text::{NoMemory, Octets};
use std::alloc::Global;
use std::sync::ledger::Ledger;

/// The redirect that an action is, if it is one.
fn redirect_in(action: &BuiltAction) -> Option<&BuiltRedirect>
    ensures { option_copied result ≡ redirect_in action.now }
{
    match action {
        BuiltAction::Redirect(asked) => Some(asked),
        _ => None,
    }
}

fn is_backend_byte(byte: u8) -> bool
    ensures { result ≡ is_backend_byte byte }
{
    byte > 32 && byte != 127
}

fn are_backend_bytes(text: &[u8]) -> bool
    ensures { result ≡ list_all is_backend_byte text.now }
{
    text.iter().all(|byte| is_backend_byte(*byte))
}

/// Whether a text is the name of a backend.
fn names_backend(text: &[u8]) -> bool
    ensures { result ≡ names_backend text.now }
{
    !text.is_empty() && are_backend_bytes(text)
}

/// The backend that a text names, which is that of the rule at a position, and the other one where
/// it names none.
fn named_backend(
    alloc: Global,
    text: Octets,
    at: usize,
    fallback: &Option<Octets>,
) -> Result<Decided, NoMemory>
    ensures { IfOk result (λ decided. decided ≡ record {
      verdict = verdict.Pass (named_backend text fallback.now);
      by = if names_backend text then by.Backend at else fallback_deciding fallback.now;
    }) }
{
    if names_backend(text.as_slice()) {
        return Ok(Decided {
            verdict: Verdict::Pass {
                backend: Some(text),
            },
            by: Deciding::Backend(at),
        });
    }
    other_backend(alloc, fallback)
}

/// The backend where no rule gives one.
fn other_backend(alloc: Global, fallback: &Option<Octets>) -> Result<Decided, NoMemory>
    ensures { IfOk result (λ decided. decided ≡ record {
      verdict = verdict.Pass fallback.now;
      by = fallback_deciding fallback.now;
    }) }
{
    let by = if fallback.is_some() {
        Deciding::Fallback
    } else {
        Deciding::Nothing
    };
    let backend = copied(alloc, fallback)?;
    Ok(Decided {
        verdict: Verdict::Pass { backend },
        by,
    })
}

fn copied(alloc: Global, name: &Option<Octets>) -> Result<Option<Octets>, NoMemory>
    ensures { IfOk result (λ copied. copied ≡ name.now) }
{
    match name {
        Some(name) => Ok(Some(Octets::copy(alloc, name.as_slice())?)),
        None => Ok(None),
    }
}

impl<T: Tables> Request<'_, T> {
    /// The verdict of the first redirect that is taken, if one is, and which that is.
    pub(crate) fn redirected<L: Ledger>(
        &self,
        acls: &AclSet,
        rules: &[BuiltRule],
        steps: &mut Steps<L>,
    ) -> Result<Option<Decided>, NoMemory>
        requires rules { All (HasRuleHeads (T.heads (T.state self.now.tables.now))) rules.now }
        requires acls { HasAclsHeads (T.heads (T.state self.now.tables.now)) acls.now }
        ensures verdict { IfOk result (λ given. option_map (λ decided. decided.verdict) given
            ≡ redirects_verdict
            (in_state cond_holds (table_view T.heads T.lists T.after_change) self.now.conn.now
            (state_of T.state self.now) acls.now)
            (text_in (table_view T.heads T.lists T.after_change) self.now.conn.now
            (state_of T.state self.now))
            self.now.message.now rules.now) }
        ensures by { IfOk result (λ given. option_map (λ decided. decided.by) given
            ≡ redirect_deciding
            (in_state cond_holds (table_view T.heads T.lists T.after_change) self.now.conn.now
            (state_of T.state self.now) acls.now)
            (text_in (table_view T.heads T.lists T.after_change) self.now.conn.now
            (state_of T.state self.now))
            self.now.message.now rules.now) }
    {
        let mut at = 0;
        let mut rest = rules;
        while let [rule, others @ ..] = rest {
            if let Some(asked) = redirect_in(&rule.action) {
                if self.is_taken(acls, rule.unless, &rule.cond, steps)? {
                    let verdict = self.redirect(asked, steps)?;
                    let by = Deciding::Redirect(at);
                    return Ok(Some(Decided { verdict, by }));
                }
            }
            at += 1;
            rest = others;
        }
        Ok(None)
    }

    /// The backend of the first rule that is taken, or else the other one, and what gives it.
    pub(crate) fn backend<L: Ledger>(
        &self,
        acls: &AclSet,
        rules: &[BuiltBackend],
        fallback: &Option<Octets>,
        steps: &mut Steps<L>,
    ) -> Result<Decided, NoMemory>
        requires rules { All (HasBackendHeads (T.heads (T.state self.now.tables.now))) rules.now }
        requires acls { HasAclsHeads (T.heads (T.state self.now.tables.now)) acls.now }
        ensures verdict { IfOk result (λ decided. decided.verdict ≡ verdict.Pass (backend_of
            (in_state cond_holds (table_view T.heads T.lists T.after_change) self.now.conn.now
            (state_of T.state self.now) acls.now)
            (text_in (table_view T.heads T.lists T.after_change) self.now.conn.now
            (state_of T.state self.now))
            rules.now fallback.now)) }
        ensures by { IfOk result (λ decided. decided.by ≡ backend_deciding
            (in_state cond_holds (table_view T.heads T.lists T.after_change) self.now.conn.now
            (state_of T.state self.now) acls.now)
            (text_in (table_view T.heads T.lists T.after_change) self.now.conn.now
            (state_of T.state self.now))
            rules.now fallback.now) }
    {
        let mut at = 0;
        let mut rest = rules;
        while let [rule, others @ ..] = rest {
            if self.is_taken(acls, rule.unless, &rule.cond, steps)? {
                let text = self.text(&rule.format, steps)?;
                return named_backend(self.alloc, text, at, fallback);
            }
            at += 1;
            rest = others;
        }
        other_backend(self.alloc, fallback)
    }
}
