ghost use Rattle.std.specs.Prelude.{◌≡◌, option_map, IfOk};
ghost use Rattle.hx_config.specs.FormatView.{known_view};
ghost use Rattle.hx_config.specs.Said.{action_said, as_denial, denial_status};
ghost use Rattle.hx_config.specs.Said.{is_plain, rule_said, said, statement_said};

use crate::formats::Known;
use crate::monitoring::monitor_said;
use crate::options::{after_options, value_of};
use crate::redirects::redirect_said;
use crate::replacing::target_said;
use crate::said_tables::{DENIAL_OPTIONS, DENIALS, PLAIN_OPTIONS};
use crate::table::value_at;
use crate::words::{push, push_all};
use hx_text::{NoMemory, Octets};
use std::alloc::Global;

/// What stands for the words of a line; none where no row of the tables speaks of them.
#[tactic(auto, unfolding(crate::specs::Said::said))]
pub(crate) fn said(
    alloc: Global,
    known: Known<'_>,
    words: &[Octets],
) -> Result<Option<Vec<Octets>>, NoMemory>
    ensures { IfOk result (λ found. option_map (λ words. words.items) found
        ≡ said (known_view known.entry) words.now) }
{
    let [keyword, others @ ..] = words else {
        return Ok(None);
    };
    if keyword.as_slice() == b"monitor-uri".as_slice() {
        monitor_said(alloc, known, others)
    } else {
        statement_said(alloc, keyword.as_slice(), others)
    }
}

/// What stands for a statement with this keyword, wherever it stands.
#[tactic(auto, unfolding(crate::specs::Said::statement_said))]
fn statement_said(
    alloc: Global,
    keyword: &[u8],
    words: &[Octets],
) -> Result<Option<Vec<Octets>>, NoMemory>
    ensures { IfOk result (λ found. option_map (λ words. words.items) found
        ≡ statement_said keyword.now words.now) }
{
    if keyword == b"http-request".as_slice() {
        rule_said(alloc, words)
    } else if keyword == b"redirect".as_slice() {
        let mut out = Vec::new(alloc);
        push(alloc, &mut out, b"redirect")?;
        redirect_said(alloc, out, false, words)
    } else {
        Ok(None)
    }
}

/// What stands for the words of a rule after `http-request`.
#[tactic(auto, unfolding(crate::specs::Said::rule_said))]
fn rule_said(alloc: Global, words: &[Octets]) -> Result<Option<Vec<Octets>>, NoMemory>
    ensures { IfOk result
        (λ found. option_map (λ words. words.items) found ≡ rule_said words.now) }
{
    let [word, others @ ..] = words else {
        return Ok(None);
    };
    if word.as_slice() == b"redirect".as_slice() {
        let mut out = Vec::new(alloc);
        push(alloc, &mut out, b"http-request")?;
        push(alloc, &mut out, b"redirect")?;
        redirect_said(alloc, out, true, others)
    } else {
        action_said(alloc, word.as_slice(), others)
    }
}

/// What stands for an action of `http-request` with these words after its name.
fn action_said(
    alloc: Global,
    action: &[u8],
    words: &[Octets],
) -> Result<Option<Vec<Octets>>, NoMemory>
    ensures { IfOk result
        (λ found. option_map (λ words. words.items) found ≡ action_said action.now words.now) }
{
    if is_plain(action, words) {
        return Ok(None);
    }
    match value_at(&DENIALS, action) {
        Some(status) => denial_said(alloc, status, words),
        None => target_said(alloc, action, words),
    }
}

/// Whether the action is `deny` with a status alone.
fn is_plain(action: &[u8], words: &[Octets]) -> bool
    ensures { result ≡ is_plain action.now words.now }
{
    action == b"deny".as_slice() && after_options(&PLAIN_OPTIONS, words).is_some()
}

/// The denial that stands for an action which ends the request, by this status where its options
/// give none.
fn denial_said(
    alloc: Global,
    without: &[u8],
    words: &[Octets],
) -> Result<Option<Vec<Octets>>, NoMemory>
    ensures { IfOk result
        (λ found. option_map (λ words. words.items) found ≡ as_denial without.now words.now) }
{
    match after_options(&DENIAL_OPTIONS, words) {
        Some(condition) => {
            let mut out = Vec::new(alloc);
            push(alloc, &mut out, b"http-request")?;
            push(alloc, &mut out, b"deny")?;
            push(alloc, &mut out, b"status")?;
            push(alloc, &mut out, denial_status(without, words))?;
            push_all(alloc, &mut out, condition)?;
            Ok(Some(out))
        }
        None => Ok(None),
    }
}

/// The status that the options give, or this one.
fn denial_status<'w>(without: &'w [u8], words: &'w [Octets]) -> &'w [u8]
    ensures { result.now ≡ denial_status without.now words.now }
{
    if let Some(status) = value_of(&DENIAL_OPTIONS, b"status", words) {
        return status;
    }
    match value_of(&DENIAL_OPTIONS, b"deny_status", words) {
        Some(status) => status,
        None => without,
    }
}
