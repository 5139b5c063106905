ghost use Rattle.std.specs.Prelude.{◌≡◌, ◌++◌, false, map, IfOk, OnOk};
ghost use Rattle.hx_base.specs.Pairs.{pairs_of};
ghost use Rattle.hx_lint.specs.Report.{all_told, judgement_told, lines_told, lint_text, name_of};
ghost use Rattle.hx_lint.specs.Report.{refused_told, rows_told, topic_told, topics_told};
ghost use Rattle.hx_lint.specs.Topics.{context_view};
ghost use Rattle.hx_lint.specs.Variables.{unset_told};

use crate::judging::{JudgedLine, JudgedLines, Judgement, all_judged};
use crate::topics::{Context, TOPICS, Topic, line_sets_method, one_sets_method, shows};
use crate::variables::{push_place, push_unset_of};
use hx_ast::Statement;
use hx_program::{CONFIG_CODES, meaning_of};
use hx_spell::HeadSpec;
use hx_text::{NoMemory, Octets};
use hx_words::Words;
use itoa::Buffer;
use std::alloc::Global;

/// What there is to tell of a configuration of hxeval under this environment, a line each, in the
/// order of its lines; no bytes where there is nothing:
///
/// - `LINE refused CODE NAME WORD`: its words aren't taken. CODE is that of what is wrong first, of
///   those with which `split` of hx_words and `Speller::line` of hx_spell refuse words; WORD is the
///   word at which it shows, as it is written, and `-` where a word is missing or the line's words
///   can't be read. The line changes nothing for those below it.
/// - `LINE differs TOPIC`: HAProxy is known to answer otherwise there, as the row of
///   docs/manual/haproxy.md with this anchor says.
/// - `LINE unset NAME`: it reads a variable that no line sets.
///
/// Of one line the topics come first, in the order of that page.
#[tactic(auto, unfolding(crate::specs::Report::lint_text))]
pub fn lint(alloc: Global, env: &[(Vec<u8>, Vec<u8>)], config: &[u8]) -> Result<Vec<u8>, NoMemory>
    ensures { IfOk result (λ text. text.items ≡ lint_text (pairs_of env.now) config.now) }
{
    let JudgedLines { lines, speller } = all_judged(alloc, env, config)?;
    let tables = speller.tables();
    all_told(alloc, lines.as_slice(), tables.heads_as_slice())
}

/// What is told of all lines.
fn all_told(alloc: Global, lines: &[JudgedLine], heads: &[HeadSpec]) -> Result<Vec<u8>, NoMemory>
    ensures { IfOk result (λ text. text.items ≡ all_told lines.now heads.now) }
{
    let mut out = Vec::new(alloc);
    push_lines(alloc, &mut out, lines, heads, one_sets_method(lines))?;
    Ok(out)
}

/// Appends it. `anywhere` says whether a line changes the method.
fn push_lines(
    alloc: Global,
    out: &mut Vec<u8>,
    lines: &[JudgedLine],
    heads: &[HeadSpec],
    anywhere: bool,
) -> Result<(), NoMemory>
    ensures { OnOk result (out.new.items ≡ out.old.items
        ++ lines_told lines.now heads.now false anywhere lines.now) }
{
    let mut above = false;
    let mut rest = lines;
    while let [line, others @ ..] = rest {
        let context = Context {
            lines,
            heads,
            above,
            anywhere,
        };
        push_line_told(alloc, out, context, line)?;
        above = above || line_sets_method(line);
        rest = others;
    }
    Ok(())
}

/// Appends what is told of a line.
fn push_line_told(
    alloc: Global,
    out: &mut Vec<u8>,
    context: Context<'_>,
    line: &JudgedLine,
) -> Result<(), NoMemory>
    ensures { OnOk result (out.new.items ≡ out.old.items
        ++ judgement_told (context_view context.entry) line.now.number line.now.judgement) }
{
    match &line.judgement {
        Judgement::Refused { code, word } => push_refused(out, line.number, *code, word),
        Judgement::Taken { words, statement } => {
            push_taken(alloc, out, context, line.number, words, statement)
        }
    }
}

/// Appends that a line is refused.
fn push_refused(out: &mut Vec<u8>, number: u64, code: u32, word: &Octets) -> Result<(), NoMemory>
    ensures { OnOk result (out.new.items ≡ out.old.items ++ refused_told number code word.now) }
{
    let mut digits = Buffer::new();
    let code = digits.format(code).as_bytes();
    push_place(out, number)?;
    out.extend_from_slice(b"refused ")?;
    out.extend_from_slice(code)?;
    out.extend_from_slice(b" ")?;
    out.extend_from_slice(name_of(code))?;
    out.extend_from_slice(b" ")?;
    out.extend_from_slice(word.as_slice())?;
    out.extend_from_slice(b"\n")?;
    Ok(())
}

/// The name of a code that is written so.
fn name_of(code: &[u8]) -> &[u8]
    ensures { result.now ≡ name_of code.now }
{
    meaning_of(&CONFIG_CODES, code).0
}

/// Appends what is told of a line that is taken.
fn push_taken(
    alloc: Global,
    out: &mut Vec<u8>,
    context: Context<'_>,
    number: u64,
    words: &Words,
    statement: &Statement,
) -> Result<(), NoMemory>
    ensures { OnOk result (out.new.items ≡ out.old.items
        ++ (topics_told (context_view context.entry) number words.now statement.now
        ++ unset_told context.entry.lines.now number statement.now)) }
{
    push_topics(alloc, out, context, number, words.as_slice(), statement)?;
    push_unset_of(out, context.lines, number, statement)
}

/// Appends the topics that a statement shows.
fn push_topics(
    alloc: Global,
    out: &mut Vec<u8>,
    context: Context<'_>,
    number: u64,
    words: &[Octets],
    statement: &Statement,
) -> Result<(), NoMemory>
    ensures { OnOk result (out.new.items ≡ out.old.items
        ++ topics_told (context_view context.entry) number words.now statement.now) }
{
    push_rows(alloc, out, context, number, words, statement, &TOPICS)
}

/// Appends those of these rows that a statement shows.
fn push_rows(
    alloc: Global,
    out: &mut Vec<u8>,
    context: Context<'_>,
    number: u64,
    words: &[Octets],
    statement: &Statement,
    rows: &[(Topic, &[u8])],
) -> Result<(), NoMemory>
    ensures { OnOk result (out.new.items ≡ out.old.items
        ++ rows_told (context_view context.entry) number words.now statement.now
        (map (λ row. (row.0, row.1.now)) rows.now)) }
{
    let mut rest = rows;
    while let [row, others @ ..] = rest {
        push_topic(alloc, out, context, number, words, statement, row)?;
        rest = others;
    }
    Ok(())
}

/// Appends the topic of a row, where the statement shows it.
fn push_topic(
    alloc: Global,
    out: &mut Vec<u8>,
    context: Context<'_>,
    number: u64,
    words: &[Octets],
    statement: &Statement,
    row: &(Topic, &[u8]),
) -> Result<(), NoMemory>
    ensures { OnOk result (out.new.items ≡ out.old.items
        ++ topic_told (context_view context.entry) number words.now statement.now
        (row.now.0, row.now.1.now)) }
{
    if !shows(alloc, row.0, context, words, statement)? {
        return Ok(());
    }
    push_place(out, number)?;
    out.extend_from_slice(b"differs ")?;
    out.extend_from_slice(row.1)?;
    out.extend_from_slice(b"\n")?;
    Ok(())
}
