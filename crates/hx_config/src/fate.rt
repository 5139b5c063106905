ghost use Rattle.std.specs.Prelude.{◌≡◌, IfOk};
ghost use Rattle.hx_config.specs.Assembling.{variables_said};
ghost use Rattle.hx_config.specs.Conditions.{tests_said};
ghost use Rattle.hx_config.specs.Fates.{changes_request_line, fate_of, first_rule_in, holds_one};
ghost use Rattle.hx_config.specs.Fates.{is_above_rules, is_as_it_came, is_rule, is_rule_asked};
ghost use Rattle.hx_config.specs.Fates.{is_set_anew, known_at, said_fate, statement_fate};
ghost use Rattle.hx_config.specs.Fates.{title_fate, words_of_hxeval};
ghost use Rattle.hx_config.specs.FateView.{fate_view, selection_view};
ghost use Rattle.hx_config.specs.Formats.{formats_said};
ghost use Rattle.hx_config.specs.FormatView.{known_view};

use crate::addresses::address_words;
use crate::assembling::variables_said;
use crate::conditions::tests_said;
use crate::formats::{Known, formats_said};
use crate::left_out::{begins_with, reason_left_out};
use crate::lines::Line;
use crate::proxies::holds;
use crate::said::said;
use crate::titles::{is_title, word_at};
use crate::words::{push, same_words};
use hx_lint::is_among;
use hx_text::{NoMemory, Octets};
use std::alloc::Global;

/// Why a line goes that a later one sets anew.
pub(crate) const SET_ANEW: &[u8] = b"a line below sets this anew";

/// Why a title goes.
pub(crate) const NAMES: &[u8] = b"it names the section";

/// Why the title of a `listen` section is written as a backend.
pub(crate) const LISTENS: &[u8] = b"a listen section is its own backend";

/// Why a line is written in other words.
pub(crate) const WORDS_OF_HXEVAL: &[u8] = b"the same in words that hxeval takes";

/// Why an option is written as a rule below all others.
pub(crate) const ADDED_LAST: &[u8] =
    b"HAProxy adds the address after all rules; a rule that ends by allow misses it";

/// Statements of which the last that holds counts alone (HAProxy configuration manual 2.6, section
/// 4.2): the first word, and the second where it is some.
pub(crate) const SINGLES: [(&[u8], &[u8]); 5] = [
    (b"mode", b""),
    (b"default_backend", b""),
    (b"option", b"forwardfor"),
    (b"option", b"originalto"),
    (b"monitor-uri", b""),
];

/// Actions of `http-request` that change the method or the target.
pub(crate) const CHANGES: [&[u8]; 9] = [
    b"set-method",
    b"set-uri",
    b"set-path",
    b"set-pathq",
    b"set-query",
    b"replace-uri",
    b"replace-path",
    b"replace-pathq",
    b"normalize-uri",
];

/// What becomes of a line, with the reason for it.
#[derive(Drop)]
pub(crate) enum Fate {
    /// It holds for another section: an empty line stands at its number.
    Elsewhere,
    /// It is written as it is.
    Own,
    /// An empty line stands at its number.
    LeftOut(&'static [u8]),
    /// These words stand at its number.
    Otherwise(Vec<Octets>, &'static [u8]),
    /// An empty line stands at its number, and these words below the last line of the file.
    Below(Vec<Octets>, &'static [u8]),
}

/// The proxy that is asked for.
#[derive(Drop)]
pub(crate) struct Selection<'t> {
    /// the sections whose lines hold for it
    pub(crate) sections: Vec<u64>,
    /// whether one of these says a default backend
    pub(crate) has_default: bool,
    /// whether one of these says when a monitor fails
    pub(crate) monitor_fails: bool,
    /// the number of its first rule
    pub(crate) first_rule: Option<u64>,
    /// the number of its first rule that changes the request line
    pub(crate) first_change: Option<u64>,
    /// the port at which TLS comes in
    pub(crate) tls: Option<&'t [u8]>,
    /// all lines of the file
    pub(crate) lines: &'t [Line<'t>],
}

/// What becomes of a line with these lines below it.
#[tactic(auto, unfolding(crate::specs::Fates::fate_of))]
pub(crate) fn fate_of(
    alloc: Global,
    chosen: &Selection<'_>,
    below: &[Line<'_>],
    line: &Line<'_>,
) -> Result<Fate, NoMemory>
    ensures { IfOk result (λ fate.
        fate_view fate ≡ fate_of (selection_view chosen.now) below.now line.now) }
{
    let sections = chosen.sections.as_slice();
    if !holds(sections, line) {
        return Ok(Fate::Elsewhere);
    }
    if is_title(line.words()) {
        return title_fate(alloc, chosen, line.words());
    }
    if is_set_anew(sections, below, line.words()) {
        return Ok(Fate::LeftOut(SET_ANEW));
    }
    statement_fate(alloc, known_at(chosen, line), line.words())
}

/// What is known where a line stands.
fn known_at<'t>(chosen: &Selection<'t>, line: &Line<'_>) -> Known<'t>
    ensures { known_view result ≡ known_at (selection_view chosen.now) line.now }
{
    Known {
        tls: chosen.tls,
        as_it_came: is_as_it_came(chosen.first_change, line),
        answers_monitor: !chosen.monitor_fails && is_above_rules(chosen.first_rule, line),
        lines: chosen.lines,
    }
}

/// Whether no rule stands above a line, if the rule of this number is the first.
fn is_above_rules(first_rule: Option<u64>, line: &Line<'_>) -> bool
    ensures { result ≡ is_above_rules first_rule line.now }
{
    match first_rule {
        None => true,
        Some(rule) => line.number() < rule,
    }
}

/// Whether the request line is the one that came where a line stands, if the rule of this number is
/// the first that changes it.
fn is_as_it_came(first_change: Option<u64>, line: &Line<'_>) -> bool
    ensures { result ≡ is_as_it_came first_change line.now }
{
    match first_change {
        None => true,
        Some(change) => is_rule(line.words()) && line.number() <= change,
    }
}

/// Whether this is a rule of `http-request`.
fn is_rule(words: &[Octets]) -> bool
    ensures { result ≡ is_rule words.now }
{
    word_at(words, 0) == b"http-request".as_slice()
}

/// Whether the action of a rule changes the request line.
fn changes_request_line(words: &[Octets]) -> bool
    ensures { result ≡ changes_request_line words.now }
{
    is_among(&CHANGES, word_at(words, 1))
}

/// Whether this is a rule, or one that changes the request line where only such are asked for.
fn is_rule_asked(changing: bool, words: &[Octets]) -> bool
    ensures { result ≡ is_rule_asked changing words.now }
{
    is_rule(words) && (!changing || changes_request_line(words))
}

/// The number of the first of these lines that holds for the proxy of these sections and is a rule,
/// or one that changes the request line where only such are asked for.
pub(crate) fn first_rule_in(sections: &[u64], changing: bool, lines: &[Line<'_>]) -> Option<u64>
    ensures { result ≡ first_rule_in sections.now changing lines.now }
{
    let mut rest = lines;
    while let [line, others @ ..] = rest {
        if holds(sections, line) && is_rule_asked(changing, line.words()) {
            return Some(line.number());
        }
        rest = others;
    }
    None
}

/// What becomes of a line that holds, is no title and isn't set anew.
fn statement_fate(alloc: Global, known: Known<'_>, words: &[Octets]) -> Result<Fate, NoMemory>
    ensures { IfOk result
        (λ fate. fate_view fate ≡ statement_fate (known_view known.entry) words.now) }
{
    match address_words(alloc, words)? {
        Some(rule) => Ok(Fate::Below(rule, ADDED_LAST)),
        None => match reason_left_out(words) {
            Some(reason) => Ok(Fate::LeftOut(reason)),
            None => otherwise_fate(alloc, known, words),
        },
    }
}

/// What becomes of a line of which no other table speaks.
fn otherwise_fate(alloc: Global, known: Known<'_>, words: &[Octets]) -> Result<Fate, NoMemory>
    ensures { IfOk result (λ fate. fate_view fate
        ≡ said_fate (words_of_hxeval (known_view known.entry) words.now) words.now) }
{
    match said(alloc, known, words)? {
        Some(others) => tests_fate(alloc, known, others.as_slice(), words),
        None => tests_fate(alloc, known, words, words),
    }
}

/// What becomes of a line for which the tables have the words `others`.
fn tests_fate(
    alloc: Global,
    known: Known<'_>,
    others: &[Octets],
    words: &[Octets],
) -> Result<Fate, NoMemory>
    ensures { IfOk result (λ fate. fate_view fate
        ≡ said_fate (tests_said (known_view known.entry)
        (variables_said (formats_said (known_view known.entry) others.now))) words.now) }
{
    let formats = formats_said(alloc, known, others)?;
    let variables = variables_said(alloc, formats.as_slice())?;
    let said = tests_said(alloc, known, variables.as_slice())?;
    if same_words(said.as_slice(), words) {
        Ok(Fate::Own)
    } else {
        Ok(Fate::Otherwise(said, WORDS_OF_HXEVAL))
    }
}

/// What becomes of a title.
fn title_fate(alloc: Global, chosen: &Selection<'_>, words: &[Octets]) -> Result<Fate, NoMemory>
    ensures { IfOk result
        (λ fate. fate_view fate ≡ title_fate (selection_view chosen.now) words.now) }
{
    if word_at(words, 0) == b"listen".as_slice() && !chosen.has_default {
        let mut out = Vec::new(alloc);
        push(alloc, &mut out, b"default_backend")?;
        push(alloc, &mut out, word_at(words, 1))?;
        Ok(Fate::Otherwise(out, LISTENS))
    } else {
        Ok(Fate::LeftOut(NAMES))
    }
}

/// Whether one of these lines holds for the proxy of these sections and begins with these words.
pub(crate) fn holds_one(sections: &[u64], first: &[u8], second: &[u8], lines: &[Line<'_>]) -> bool
    ensures { result ≡ holds_one sections.now first.now second.now lines.now }
{
    let mut rest = lines;
    while let [line, others @ ..] = rest {
        if holds(sections, line) && begins_with(first, second, line.words()) {
            return true;
        }
        rest = others;
    }
    false
}

/// Whether one of these lines, which stand below, sets anew what a line of these words sets.
fn is_set_anew(sections: &[u64], below: &[Line<'_>], words: &[Octets]) -> bool
    ensures { result ≡ is_set_anew sections.now below.now words.now }
{
    let mut singles = SINGLES.as_slice();
    while let [single, others @ ..] = singles {
        if begins_with(single.0, single.1, words)
            && holds_one(sections, single.0, single.1, below)
        {
            return true;
        }
        singles = others;
    }
    false
}
