ghost use Rattle.std.specs.Prelude.{◌≡◌, map};
ghost use Rattle.std.specs.Option.{option_copied};
ghost use Rattle.hx_config.specs.ConditionView.{state_of};
ghost use Rattle.hx_config.specs.Refusals.{before_comma, fetch_name, has_asked_word, has_word};
ghost use Rattle.hx_config.specs.Refusals.{is_asked_text, is_of_row, line_reason, refusal_of};
ghost use Rattle.hx_config.specs.Refusals.{row_of, test_reason, tests_reason, word_reason};

use crate::conditions::{TestState, first_state, state_after};
use crate::left_out::action_name;
use crate::table::value_at;
use crate::titles::word_at;
use hx_text::{Octets, cut_at};

const RUNNING: &[u8] = b"only the running proxy knows it";

const STATISTICS: &[u8] =
    b"HAProxy answers requests for its page of statistics itself, after the rules";

const TARGETS: &[u8] = b"its replacement has a format, or an escape that no converter has";

const OTHER_HEADS: &[u8] = b"it decides which requests HAProxy takes";

/// A row of `REFUSED_LINES`: the first word, the second, a word somewhere on the line, where no
/// bytes stand for any or none, and the reason.
type Row = (&'static [u8], &'static [u8], &'static [u8], &'static [u8]);

/// Lines that hxeval refuses and of which no other table speaks, each with the reason (HAProxy
/// configuration manual 2.6, section 4.2).
pub(crate) const REFUSED_LINES: [Row; 29] = [
    (
        b"http-request",
        b"del-header",
        b"-m",
        b"hxeval takes headers away by whole names alone",
    ),
    (
        b"http-request",
        b"redirect",
        b"ignore-empty",
        b"whether this location is empty can't be asked in a condition",
    ),
    (b"http-request", b"replace-path", b"", TARGETS),
    (b"http-request", b"replace-pathq", b"", TARGETS),
    (b"http-request", b"replace-uri", b"", TARGETS),
    (
        b"http-request",
        b"set-var-fmt",
        b"",
        b"the format makes a text also where its expressions have no value",
    ),
    (
        b"monitor-uri",
        b"",
        b"",
        b"HAProxy answers it before all rules: write it above them, and without monitor fail",
    ),
    (
        b"monitor",
        b"fail",
        b"",
        b"it says when monitor-uri is answered by 503, before all rules",
    ),
    (b"stats", b"", b"", STATISTICS),
    (
        b"unique-id-header",
        b"",
        b"",
        b"the identifier is made of what only the running proxy knows",
    ),
    (
        b"compression",
        b"offload",
        b"",
        b"it takes Accept-Encoding out of requests whose answers HAProxy compresses",
    ),
    (
        b"filter",
        b"",
        b"",
        b"a filter may set variables and change requests",
    ),
    (
        b"cookie",
        b"",
        b"",
        b"it may take the cookie out of a request",
    ),
    (
        b"use-fcgi-app",
        b"",
        b"",
        b"it changes the head that an application is sent",
    ),
    (
        b"option",
        b"httpclose",
        b"",
        b"it adds Connection: close to the head that a server is sent",
    ),
    (
        b"option",
        b"h1-case-adjust-bogus-server",
        b"",
        b"it changes the case of names of headers",
    ),
    (
        b"option",
        b"http-use-proxy-header",
        b"",
        b"http_auth reads another header by it",
    ),
    (b"option", b"accept-invalid-http-request", b"", OTHER_HEADS),
    (b"option", b"http-restrict-req-hdr-names", b"", OTHER_HEADS),
    (b"option", b"forwardfor", b"", b"its options can't be read"),
    (b"option", b"originalto", b"", b"its options can't be read"),
    (
        b"tcp-request",
        b"",
        b"",
        b"connections are judged before requests; http-request deny may stand for a rejection",
    ),
    (
        b"http-request",
        b"use-service",
        b"",
        b"the service answers the request",
    ),
    (
        b"http-request",
        b"do-resolve",
        b"",
        b"a name server answers it",
    ),
    (
        b"http-request",
        b"normalize-uri",
        b"",
        b"no converter normalizes a target",
    ),
    (
        b"http-request",
        b"set-src",
        b"",
        b"it changes src in every rule below it",
    ),
    (
        b"http-request",
        b"set-dst",
        b"",
        b"it changes dst in every rule below it",
    ),
    (
        b"http-request",
        b"send-spoe-group",
        b"",
        b"another program sets variables by it",
    ),
    (b"http-request", b"sc-add-gpc", b"", b"it concerns counters"),
];

/// Fetches for which nothing stands, each with the reason (HAProxy configuration manual 2.6,
/// section 7.3).
pub(crate) const REFUSED_FETCHES: [(&[u8], &[u8]); 14] = [
    (
        b"ssl_fc",
        b"--tls PORT says at which port TLS comes in, and stands for ssl_fc",
    ),
    (
        b"http_auth",
        b"no userlist of plain names and passwords stands for it, or flags follow",
    ),
    (
        b"http_auth_group",
        b"no userlist of plain names and passwords stands for it, or flags follow",
    ),
    (
        b"capture.req.uri",
        b"HAProxy keeps the target as it came, and a rule changes it",
    ),
    (
        b"capture.req.method",
        b"HAProxy keeps the method as it came, and a rule changes it",
    ),
    (b"nbsrv", RUNNING),
    (b"connslots", RUNNING),
    (b"be_conn", RUNNING),
    (b"fe_conn", RUNNING),
    (b"queue", RUNNING),
    (b"avg_queue", RUNNING),
    (b"srv_is_up", RUNNING),
    (b"rand", RUNNING),
    (b"date", RUNNING),
];

/// Why hxeval refuses a line of these words, where that is known.
#[tactic(auto, unfolding(crate::specs::Refusals::refusal_of))]
pub(crate) fn refusal_of(words: &[Octets]) -> Option<&'static [u8]>
    ensures { option_copied result ≡ refusal_of words.now }
{
    match line_reason(&REFUSED_LINES, words) {
        Some(reason) => Some(reason),
        None => tests_reason(words),
    }
}

/// The reason of the first row of which the words are.
fn line_reason(rows: &[Row], words: &[Octets]) -> Option<&'static [u8]>
    ensures { option_copied result ≡ line_reason (map row_of rows.now) words.now }
{
    let mut rest = rows;
    while let [row, others @ ..] = rest {
        if is_of_row(row, words) {
            return Some(row.3);
        }
        rest = others;
    }
    None
}

/// Whether words are of a row.
fn is_of_row(row: &Row, words: &[Octets]) -> bool
    ensures { result ≡ is_of_row (row_of row.now) words.now }
{
    word_at(words, 0) == row.0
        && is_asked_text(row.1, action_name(word_at(words, 1)))
        && has_asked_word(row.2, words)
}

/// Whether a text is this one, unless no text is asked for.
fn is_asked_text(asked: &[u8], text: &[u8]) -> bool
    ensures { result ≡ is_asked_text asked.now text.now }
{
    asked.is_empty() || text == asked
}

/// Whether a word is this one, unless no word is asked for.
fn has_asked_word(asked: &[u8], words: &[Octets]) -> bool
    ensures { result ≡ has_asked_word asked.now words.now }
{
    asked.is_empty() || has_word(asked, words)
}

fn has_word(asked: &[u8], words: &[Octets]) -> bool
    ensures { result ≡ has_word asked.now words.now }
{
    let mut rest = words;
    while let [word, others @ ..] = rest {
        if word.as_slice() == asked {
            return true;
        }
        rest = others;
    }
    false
}

/// The reason for the first criterion on a line that has one.
fn tests_reason(words: &[Octets]) -> Option<&'static [u8]>
    ensures { option_copied result ≡ tests_reason words.now }
{
    match words {
        [keyword, _, others @ ..] => test_reason(first_state(keyword.as_slice()), others),
        _ => None,
    }
}

/// The same of words of which the first stands there.
fn test_reason(first: TestState, words: &[Octets]) -> Option<&'static [u8]>
    ensures { option_copied result ≡ test_reason (state_of first) words.now }
{
    let mut state = first;
    let mut rest = words;
    while let [word, others @ ..] = rest {
        if let Some(reason) = word_reason(state, word.as_slice()) {
            return Some(reason);
        }
        state = state_after(state, word.as_slice());
        rest = others;
    }
    None
}

/// The reason for a word that stands there, if it is a criterion.
fn word_reason(state: TestState, word: &[u8]) -> Option<&'static [u8]>
    ensures { option_copied result ≡ word_reason (state_of state) word.now }
{
    match state {
        TestState::Criterion => value_at(&REFUSED_FETCHES, fetch_name(word)),
        TestState::Outside => None,
        TestState::AfterCriterion => None,
        TestState::AfterMethod => None,
        TestState::Ignored => None,
        TestState::Inside => None,
    }
}

/// The name of the fetch that an expression begins with.
fn fetch_name(text: &[u8]) -> &[u8]
    ensures { result.now ≡ fetch_name text.now }
{
    action_name(before_comma(text))
}

fn before_comma(text: &[u8]) -> &[u8]
    ensures { result.now ≡ before_comma text.now }
{
    match cut_at(b',', text) {
        Some((before, _)) => before,
        None => text,
    }
}
