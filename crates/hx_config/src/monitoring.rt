ghost use Rattle.std.specs.Prelude.{◌≡◌, ◌++◌, option_map, IfOk, OnOk};
ghost use Rattle.hx_config.specs.FormatView.{known_view};
ghost use Rattle.hx_config.specs.Monitoring.{begins_with_slash, compared_with, comparison};
ghost use Rattle.hx_config.specs.Monitoring.{monitor_rule, monitor_said};

use crate::formats::Known;
use crate::replacing::PATH_AND_QUERY;
use crate::words::{push, push_texts};
use hx_text::{NoMemory, Octets};
use std::alloc::Global;

/// What the rule that answers requests begins with.
pub(crate) const ANSWER: [&[u8]; 6] = [b"http-request", b"deny", b"status", b"200", b"if", b"{"];

/// What stands in a test before a whole text.
pub(crate) const EXACTLY: [&[u8]; 3] = [b"-m", b"str", b"--"];

/// What stands for `monitor-uri` with these words after it; none where it can't be said there.
#[tactic(auto, unfolding(crate::specs::Monitoring::monitor_said))]
pub(crate) fn monitor_said(
    alloc: Global,
    known: Known<'_>,
    words: &[Octets],
) -> Result<Option<Vec<Octets>>, NoMemory>
    ensures { IfOk result (λ found. option_map (λ words. words.items) found
        ≡ monitor_said (known_view known.entry) words.now) }
{
    let [uri] = words else {
        return Ok(None);
    };
    if known.answers_monitor {
        Ok(Some(monitor_rule(alloc, uri.as_slice())?))
    } else {
        Ok(None)
    }
}

/// The rule that answers requests for this URI.
fn monitor_rule(alloc: Global, uri: &[u8]) -> Result<Vec<Octets>, NoMemory>
    ensures { IfOk result (λ rule. rule.items ≡ monitor_rule uri.now) }
{
    let mut out = Vec::new(alloc);
    push_texts(alloc, &mut out, &ANSWER)?;
    push_comparison(alloc, &mut out, uri)?;
    Ok(out)
}

/// Appends the comparison of a request with this URI, and the end of its test.
fn push_comparison(alloc: Global, out: &mut Vec<Octets>, uri: &[u8]) -> Result<(), NoMemory>
    ensures { OnOk result (out.new.items ≡ out.old.items ++ comparison uri.now) }
{
    push(alloc, out, compared_with(uri))?;
    push_texts(alloc, out, &EXACTLY)?;
    push(alloc, out, uri)?;
    push(alloc, out, b"}")
}

/// What is compared with this URI.
fn compared_with(uri: &[u8]) -> &'static [u8]
    ensures { result.now ≡ compared_with uri.now }
{
    if begins_with_slash(uri) {
        PATH_AND_QUERY
    } else {
        b"url"
    }
}

fn begins_with_slash(uri: &[u8]) -> bool
    ensures { result ≡ begins_with_slash uri.now }
{
    match uri {
        [byte, ..] => *byte == b'/',
        [] => false,
    }
}
