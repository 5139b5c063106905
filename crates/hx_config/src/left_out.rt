ghost use Rattle.std.specs.Prelude.{◌≡◌};
ghost use Rattle.std.specs.Option.{option_copied};
ghost use Rattle.hx_config.specs.LeftOut.{action_name, action_of, begins_with, other_reason};
ghost use Rattle.hx_config.specs.LeftOut.{reason_by, reason_left_out};
ghost use Rattle.hx_config.specs.Tables.{triples_in};

use crate::table::value_at;
use crate::titles::word_at;
use hx_text::{Octets, cut_at};

const RESPONSES: &[u8] = b"it concerns responses, and no request";

const LOG: &[u8] = b"it concerns the log";

const CAPTURES: &[u8] = b"it concerns captures for the log";

const COUNTERS: &[u8] = b"it concerns counters; a rule that reads them stays";

const CONNECTIONS: &[u8] = b"it concerns connections and buffers";

const SERVERS: &[u8] = b"it concerns servers, and how one is chosen";

const ERROR_PAGES: &[u8] = b"it concerns the page that goes with an error";

const BODIES: &[u8] = b"it concerns the bodies of responses";

const IDENTIFIERS: &[u8] = b"it concerns an identifier for the log";

const MANAGEMENT: &[u8] = b"it concerns the management of the proxy";

const CACHE: &[u8] = b"it concerns the cache";

const PRIORITY: &[u8] = b"it concerns the order in which requests are served";

const OFF: &[u8] = b"it turns off what is off";

/// A row of `STATEMENTS`: the first word, the second, where no bytes stand for any or none, and why
/// a line that begins so is left out.
type Row = (&'static [u8], &'static [u8], &'static [u8]);

/// Statements that change neither a verdict nor the head of a request (HAProxy configuration manual
/// 2.6, section 4.2). `compression offload`, `option h1-case-adjust-bogus-server`, `cookie` and
/// `unique-id-header` aren't among them: they change the head that a server is sent.
pub(crate) const STATEMENTS: [Row; 68] = [
    (b"http-response", b"", RESPONSES),
    (b"http-after-response", b"", RESPONSES),
    (b"tcp-response", b"", RESPONSES),
    (b"option", b"http-no-delay", CONNECTIONS),
    (b"capture", b"", CAPTURES),
    (b"declare", b"capture", CAPTURES),
    (b"stick-table", b"", COUNTERS),
    (b"compression", b"algo", BODIES),
    (b"compression", b"type", BODIES),
    (b"filter", b"compression", BODIES),
    (b"filter", b"cache", CACHE),
    (b"filter", b"trace", LOG),
    (b"errorfile", b"", ERROR_PAGES),
    (b"errorfiles", b"", ERROR_PAGES),
    (b"errorloc", b"", ERROR_PAGES),
    (b"errorloc302", b"", ERROR_PAGES),
    (b"errorloc303", b"", ERROR_PAGES),
    (b"http-error", b"", ERROR_PAGES),
    (b"unique-id-format", b"", IDENTIFIERS),
    (b"id", b"", IDENTIFIERS),
    (b"log-tag", b"", LOG),
    (b"log-format-sd", b"", LOG),
    (b"no", b"log", LOG),
    (b"option", b"tcplog", LOG),
    (b"option", b"httpslog", LOG),
    (b"option", b"dontlog-normal", LOG),
    (b"option", b"logasap", LOG),
    (b"option", b"log-separate-errors", LOG),
    (b"option", b"log-health-checks", LOG),
    (b"tcp-request", b"inspect-delay", CONNECTIONS),
    (b"option", b"abortonclose", CONNECTIONS),
    (b"option", b"clitcpka", CONNECTIONS),
    (b"option", b"srvtcpka", CONNECTIONS),
    (b"option", b"tcpka", CONNECTIONS),
    (b"option", b"contstats", CONNECTIONS),
    (b"option", b"http-buffer-request", CONNECTIONS),
    (b"option", b"http-ignore-probes", CONNECTIONS),
    (b"option", b"http-pretend-keepalive", CONNECTIONS),
    (b"option", b"http-use-htx", CONNECTIONS),
    (b"option", b"idle-close-on-response", CONNECTIONS),
    (b"option", b"independent-streams", CONNECTIONS),
    (b"option", b"nolinger", CONNECTIONS),
    (b"option", b"socket-stats", CONNECTIONS),
    (b"option", b"splice-auto", CONNECTIONS),
    (b"option", b"splice-request", CONNECTIONS),
    (b"option", b"splice-response", CONNECTIONS),
    (b"option", b"tcp-smart-accept", CONNECTIONS),
    (b"option", b"tcp-smart-connect", CONNECTIONS),
    (b"option", b"disable-h2-upgrade", CONNECTIONS),
    (b"option", b"h1-case-adjust-bogus-client", CONNECTIONS),
    (b"no", b"option", OFF),
    (b"backlog", b"", CONNECTIONS),
    (b"rate-limit", b"sessions", CONNECTIONS),
    (b"max-keep-alive-queue", b"", CONNECTIONS),
    (b"option", b"accept-invalid-http-response", RESPONSES),
    (b"option", b"checkcache", RESPONSES),
    (b"error-log-format", b"", LOG),
    (b"clitcpka-cnt", b"", CONNECTIONS),
    (b"clitcpka-idle", b"", CONNECTIONS),
    (b"clitcpka-intvl", b"", CONNECTIONS),
    (b"srvtcpka-cnt", b"", CONNECTIONS),
    (b"srvtcpka-idle", b"", CONNECTIONS),
    (b"srvtcpka-intvl", b"", CONNECTIONS),
    (b"max-session-srv-conns", b"", CONNECTIONS),
    (b"bind-process", b"", MANAGEMENT),
    (b"email-alert", b"", MANAGEMENT),
    (b"enabled", b"", MANAGEMENT),
    (b"grace", b"", MANAGEMENT),
];

/// The same of statements of backends, which a `listen` section and `defaults` may have.
pub(crate) const SERVER_STATEMENTS: [Row; 37] = [
    (b"server", b"", SERVERS),
    (b"server-template", b"", SERVERS),
    (b"default-server", b"", SERVERS),
    (b"balance", b"", SERVERS),
    (b"hash-type", b"", SERVERS),
    (b"hash-balance-factor", b"", SERVERS),
    (b"retries", b"", SERVERS),
    (b"retry-on", b"", SERVERS),
    (b"http-reuse", b"", SERVERS),
    (b"fullconn", b"", SERVERS),
    (b"http-check", b"", SERVERS),
    (b"tcp-check", b"", SERVERS),
    (b"external-check", b"", SERVERS),
    (b"source", b"", SERVERS),
    (b"load-server-state-from-file", b"", SERVERS),
    (b"server-state-file-name", b"", SERVERS),
    (b"option", b"allbackups", SERVERS),
    (b"option", b"external-check", SERVERS),
    (b"option", b"httpchk", SERVERS),
    (b"option", b"ldap-check", SERVERS),
    (b"option", b"mysql-check", SERVERS),
    (b"option", b"persist", SERVERS),
    (b"option", b"pgsql-check", SERVERS),
    (b"option", b"prefer-last-server", SERVERS),
    (b"option", b"redis-check", SERVERS),
    (b"option", b"redispatch", SERVERS),
    (b"option", b"smtpchk", SERVERS),
    (b"option", b"spop-check", SERVERS),
    (b"option", b"ssl-hello-chk", SERVERS),
    (b"option", b"tcp-check", SERVERS),
    (b"option", b"transparent", SERVERS),
    (b"dispatch", b"", SERVERS),
    (b"use-server", b"", SERVERS),
    (b"stick", b"", SERVERS),
    (b"persist", b"", SERVERS),
    (b"force-persist", b"", SERVERS),
    (b"ignore-persist", b"", SERVERS),
];

/// Actions of rules that change neither (section 4.2, `http-request` and `tcp-request`), each with
/// the reason.
pub(crate) const ACTIONS: [(&[u8], &[u8]); 21] = [
    (b"capture", CAPTURES),
    (b"track-sc0", COUNTERS),
    (b"track-sc1", COUNTERS),
    (b"track-sc2", COUNTERS),
    (b"sc-inc-gpc0", COUNTERS),
    (b"sc-inc-gpc1", COUNTERS),
    (b"sc-inc-gpc", COUNTERS),
    (b"sc-set-gpt0", COUNTERS),
    (b"sc-set-gpt", COUNTERS),
    (b"cache-use", CACHE),
    (b"set-log-level", LOG),
    (b"set-nice", PRIORITY),
    (b"set-priority-class", PRIORITY),
    (b"set-priority-offset", PRIORITY),
    (b"set-mark", CONNECTIONS),
    (b"set-tos", CONNECTIONS),
    (b"set-timeout", CONNECTIONS),
    (b"disable-l7-retry", CONNECTIONS),
    (b"early-hint", CONNECTIONS),
    (b"wait-for-body", CONNECTIONS),
    (b"wait-for-handshake", CONNECTIONS),
];

/// Why a line of these words is left out; none where it isn't.
pub(crate) fn reason_left_out(words: &[Octets]) -> Option<&'static [u8]>
    ensures { option_copied result ≡ reason_left_out words.now }
{
    match reason_by(&STATEMENTS, words) {
        Some(reason) => Some(reason),
        None => other_reason(words),
    }
}

/// The same by the tables of servers and of actions.
#[tactic(auto, unfolding(crate::specs::LeftOut::other_reason))]
fn other_reason(words: &[Octets]) -> Option<&'static [u8]>
    ensures { option_copied result ≡ other_reason words.now }
{
    match reason_by(&SERVER_STATEMENTS, words) {
        Some(reason) => Some(reason),
        None => value_at(&ACTIONS, action_name(action_of(words))),
    }
}

/// The reason of the first row that these words begin with.
fn reason_by(rows: &[Row], words: &[Octets]) -> Option<&'static [u8]>
    ensures { option_copied result
        ≡ reason_by (triples_in rows.now) words.now }
{
    let mut rest = rows;
    while let [row, others @ ..] = rest {
        if begins_with(row.0, row.1, words) {
            return Some(row.2);
        }
        rest = others;
    }
    None
}

/// Whether the words begin with this one, and then with this one unless it is no bytes.
pub(crate) fn begins_with(first: &[u8], second: &[u8], words: &[Octets]) -> bool
    ensures { result ≡ begins_with first.now second.now words.now }
{
    word_at(words, 0) == first && (second.is_empty() || word_at(words, 1) == second)
}

/// The action of a rule, and no bytes of another line.
pub(crate) fn action_of(words: &[Octets]) -> &[u8]
    ensures { result.now ≡ action_of words.now }
{
    let keyword = word_at(words, 0);
    if keyword == b"http-request".as_slice() {
        word_at(words, 1)
    } else if keyword == b"tcp-request".as_slice() {
        word_at(words, 2)
    } else {
        b""
    }
}

/// The name of an action: what stands before its parentheses, where it has some.
pub(crate) fn action_name(word: &[u8]) -> &[u8]
    ensures { result.now ≡ action_name word.now }
{
    match cut_at(b'(', word) {
        Some((name, _)) => name,
        None => word,
    }
}
