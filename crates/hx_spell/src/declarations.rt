ghost use Rattle.std.specs.Prelude.{◌≡◌, IfOk, Ok, Err, [], false, if◌then◌else◌};
ghost use Rattle.hx_ast.specs.Acls.{compares_texts};
ghost use Rattle.hx_spell.specs.Declarations.{way_of_kind, way_of, ignores_case, file_heads};
ghost use Rattle.hx_spell.specs.Declarations.{words_head, heads_of_keys, has_no_patterns};
ghost use Rattle.hx_spell.specs.Declarations.{decl_reading, pattern_decl, decl_by, decl_of};
ghost use Rattle.hx_calls.specs.Codes.{bad_argument};
ghost use Rattle.hx_calls.specs.Known.{Known, ReadsAs, Extends, reading};

use crate::flag_table::{Flags, Searched};
use crate::flags::{AfterFlags, flags_from, takes_patterns};
use crate::patterns::{Keys, copies, keys_of};
use hx_ast::{Decl, Expr, Heads, Items};
use hx_calls::{BAD_ARGUMENT, HeadSpec, Knowledge, SpellFault, criterion_of};
use hx_text::{By, Kind, NoMemory, Octets};
use std::alloc::Global;
use std::marker::Model;

/// A match method, and whether it ignores the case of letters in all that it compares.
#[derive(Clone, Copy)]
pub(crate) struct Way {
    by: By,
    folds: bool,
}

impl Model for Way {
    ghost use Rattle.hx_spell.specs.Declarations.{Way};

    ghost Value = { Way };

    ghost view = { λ way. record { by = way.by; folds = way.folds } };

    ghost inverse = { λ way. record { by = way.by; folds = way.folds } };
}

/// The way of an ACL whose method isn't said, by the type of its values. Code 10 for binary values
/// and for those of which it isn't known.
fn way_of_kind(kind: Kind) -> Result<Way, SpellFault>
    ensures { result ≡ way_of_kind kind }
{
    let (by, folds) = match kind {
        Kind::Bool => (By::Bool, false),
        Kind::Int => (By::Int, false),
        Kind::Ip => (By::Ip, false),
        Kind::Str => (By::Str, false),
        Kind::Method => (By::Str, true),
        Kind::Bin | Kind::Any => return Err(SpellFault::Code(BAD_ARGUMENT)),
    };
    Ok(Way { by, folds })
}

fn way_of(expr: &Expr, by: Option<By>) -> Result<Way, SpellFault>
    ensures { result ≡ way_of expr.now by }
{
    match by {
        Some(by) => Ok(Way { by, folds: false }),
        None => way_of_kind(expr.kind()),
    }
}

/// Whether the method compares texts.
fn compares_texts(by: By) -> bool
    ensures { result ≡ compares_texts by }
{
    match by {
        By::Str | By::Beg | By::End | By::Sub | By::Dir | By::Dom | By::Reg => true,
        By::Found | By::Bool | By::Int | By::Ip | By::Bin | By::Len => false,
    }
}

/// Whether the case of letters is ignored: where texts are compared, and `-i` says so or it goes by
/// itself.
fn ignores_case(way: Way, ci: bool) -> bool
    ensures { result ≡ ignores_case way ci }
{
    compares_texts(way.by) && (ci || way.folds)
}

/// The heads of the files, in their order.
#[tactic(auto, using(crate::proofs::KeyLemmas::read_on))]
fn file_heads(
    known: &mut Knowledge,
    alloc: Global,
    way: Way,
    files: &[Searched],
) -> Result<Heads, NoMemory>
    ensures heads { IfOk result (λ heads. file_heads way files.now known.old
        ≡ record { value = heads; known = known.new }) }
    ensures extends { Extends known.old known.new }
{
    let mut heads = Items::new(alloc);
    let mut left = files;
    while let [file, rest @ ..] = left {
        let head = known.head(HeadSpec {
            table: file.table,
            by: way.by,
            ci: ignores_case(way, file.ci),
        })?;
        heads.push(head)?;
        left = rest;
    }
    Ok(heads)
}

/// The head of inline patterns that are a reference.
fn words_head(known: &mut Knowledge, way: Way, ci: bool, table: u32) -> Result<u32, NoMemory>
    ensures head { IfOk result (λ head.
        words_head way ci (record { value = table; known = known.old })
        ≡ record { value = head; known = known.new }) }
    ensures extends { Extends known.old known.new }
{
    known.acl(table)?;
    known.head(HeadSpec {
        table,
        by: way.by,
        ci: ignores_case(way, ci),
    })
}

/// The heads of the files and, where there are keys, one more for these.
fn heads_of_keys(
    known: &mut Knowledge,
    alloc: Global,
    line: u64,
    way: Way,
    flags: &Flags,
    keys: &[Octets],
    fault: Option<SpellFault>,
    heads: Heads,
) -> Result<Heads, SpellFault>
    ensures answers { ReadsAs result known.new (heads_of_keys line way flags.now keys.now fault
        (record { value = heads; known = known.old })) }
    ensures extends { Extends known.old known.new }
{
    let mut heads = heads;
    if keys.is_empty() {
        if let Some(fault) = fault {
            return Err(fault);
        }
        if flags.given.is_some() {
            return Err(SpellFault::Code(BAD_ARGUMENT));
        }
        return Ok(heads);
    }
    let words = copies(alloc, keys)?;
    let table = known.inline(line, flags.given, words)?;
    if let Some(fault) = fault {
        return Err(fault);
    }
    heads.push(words_head(known, way, flags.ci, table)?)?;
    Ok(heads)
}

/// An ACL by a method that takes patterns.
fn pattern_decl(
    known: &mut Knowledge,
    alloc: Global,
    line: u64,
    expr: Expr,
    way: Way,
    after: AfterFlags<'_>,
) -> Result<Decl, SpellFault>
    ensures answers { ReadsAs result known.new (pattern_decl line expr way after.entry known.old) }
    ensures extends { Extends known.old known.new }
{
    let AfterFlags { flags, words } = after;
    let Keys { keys, fault } = keys_of(alloc, way.by, words)?;
    let heads = file_heads(known, alloc, way, flags.files.as_slice())?;
    let heads = heads_of_keys(
        known,
        alloc,
        line,
        way,
        &flags,
        keys.as_slice(),
        fault,
        heads,
    )?;
    Ok(Decl {
        expr,
        by: way.by,
        ci: ignores_case(way, flags.ci),
        heads,
        words: keys,
    })
}

/// Whether there is nothing to compare with.
fn has_no_patterns(after: &AfterFlags<'_>) -> bool
    ensures { result ≡ has_no_patterns after.now }
{
    after.flags.files.len() == 0 && after.words.is_empty() && after.flags.given.is_none()
}

/// An ACL by `found` or `bool`.
fn bare_decl(alloc: Global, expr: Expr, way: Way, after: AfterFlags<'_>) -> Result<Decl, SpellFault>
    ensures { (known : Known) → ReadsAs result known (if has_no_patterns after.entry
        then Ok (decl_reading expr way false [] (reading [] known)) else Err bad_argument) }
{
    if !has_no_patterns(&after) {
        return Err(SpellFault::Code(BAD_ARGUMENT));
    }
    Ok(Decl {
        expr,
        by: way.by,
        ci: false,
        heads: Items::new(alloc),
        words: Items::new(alloc),
    })
}

/// The ACL of its parts.
fn decl_by(
    known: &mut Knowledge,
    alloc: Global,
    line: u64,
    expr: Expr,
    after: AfterFlags<'_>,
    way: Way,
) -> Result<Decl, SpellFault>
    ensures answers { ReadsAs result known.new (decl_by line expr after.entry known.old way) }
    ensures extends { Extends known.old known.new }
{
    if takes_patterns(way.by) {
        return pattern_decl(known, alloc, line, expr, way, after);
    }
    bare_decl(alloc, expr, way, after)
}

/// The ACL on this line of a criterion, which `text` writes, and of the words after it: flags and
/// inline patterns (HAProxy configuration manual 2.4, section 7.1). What it searches is known after
/// it: the references of its files and of its inline patterns, and their heads.
///
/// The criterion is judged first, by the codes of `criterion_of`, then the flags, by those of
/// `flags_from`, and then:
/// - 10 where no match method is said and values of this type have none of their own;
/// - 10 where the method is `found` or `bool`, and there are files, patterns or a number;
/// - 10 for a number without patterns, and for a range after another operator than `eq`;
/// - 23 where the inline patterns are one reference too many.
#[tactic(auto, unfolding(crate::specs::Declarations::decl_of))]
pub(crate) fn decl_of(
    known: &mut Knowledge,
    alloc: Global,
    line: u64,
    text: &[u8],
    words: &[Octets],
) -> Result<Decl, SpellFault>
    ensures answers { ReadsAs result known.new (decl_of line text.now words.now known.old) }
    ensures extends { Extends known.old known.new }
{
    let criterion = criterion_of(known, alloc, line, text)?;
    let after = flags_from(known, alloc, line, criterion.by, words)?;
    let way = way_of(&criterion.expr, after.flags.by)?;
    decl_by(known, alloc, line, criterion.expr, after, way)
}
