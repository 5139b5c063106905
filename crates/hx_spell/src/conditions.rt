ghost use Rattle.std.specs.Prelude.{◌≡◌, ◌≤◌, ◌<◌, ◌∷◌, None, IfErr, IfOk, IfSome, length};
ghost use Rattle.std.specs.Prelude.{position};
ghost use Rattle.std.specs.List.{list_all};
ghost use Rattle.hx_ast.specs.Acls.{is_name_byte};
ghost use Rattle.hx_spell.specs.Conditions.{no_terms, cond_of, cond_from, cond_end, is_acl_name};
ghost use Rattle.hx_spell.specs.Conditions.{is_name, is_or, marks_of, named_term, next_conj};
ghost use Rattle.hx_spell.specs.Conditions.{own_decl, with_term};
ghost use Rattle.hx_spell.specs.ConditionView.{Becomes, RefusedAs, is_closing, marked, opened};
ghost use Rattle.hx_spell.specs.ConditionView.{terms_of, unclosed, unmarked};
ghost use Rattle.hx_calls.specs.Known.{ReadsAs, Extends};

use crate::declarations::decl_of;
use hx_ast::{AclUse, Cond, Conj, Decl, Items, Term};
use hx_calls::{BAD_CONDITION, Knowledge, SpellFault, UNKNOWN_ACL};
use hx_text::{NoMemory, Octets};
use std::alloc::Global;
use std::mem;

/// Whether a name of an ACL, a frontend or a backend may have this byte.
fn is_name_byte(byte: u8) -> bool
    ensures { result ≡ is_name_byte byte }
{
    byte.is_ascii_alphanumeric() || byte == b'-' || byte == b'_' || byte == b'.' || byte == b':'
}

fn are_name_bytes(bytes: &[u8]) -> bool
    ensures { result ≡ list_all is_name_byte bytes.now }
{
    bytes.iter().all(|byte| is_name_byte(*byte))
}

/// Whether a word is of the form of a name of an ACL, a frontend or a backend.
pub(crate) fn is_name(word: &[u8]) -> bool
    ensures { result ≡ is_name word.now }
{
    !word.is_empty() && are_name_bytes(word)
}

/// Whether a word is of the form of a name of an ACL.
pub(crate) fn is_acl_name(word: &[u8]) -> bool
    ensures { result ≡ is_acl_name word.now }
{
    is_name(word) && word != b"or".as_slice()
}

/// Whether a word stands between conjunctions.
fn is_or(word: &[u8]) -> bool
    ensures { result ≡ is_or word.now }
{
    word == b"or".as_slice() || word == b"||".as_slice()
}

/// How many `!` a word begins with.
fn marks_of(word: &[u8]) -> usize
    ensures count { result ≡ marks_of word.now }
    ensures within { result ≤ length word.now }
{
    word.iter().take_while(|byte| **byte == b'!').count()
}

/// The position of the first brace that closes.
fn closing(words: &[Octets]) -> Option<usize>
    ensures at { result ≡ position is_closing words.now }
    ensures within { IfSome result (λ i. i < length words.now) }
{
    words
        .iter()
        .position(|word| word.as_slice() == b"}".as_slice())
}

/// The ACL of the words in braces: a criterion, and what follows it.
fn own_decl(
    known: &mut Knowledge,
    alloc: Global,
    line: u64,
    words: &[Octets],
) -> Result<Decl, SpellFault>
    ensures answers { ReadsAs result known.new (own_decl line words.now known.old) }
    ensures extends { Extends known.old known.new }
{
    let Some((text, rest)) = words.split_first() else {
        return Err(SpellFault::Code(BAD_CONDITION));
    };
    decl_of(known, alloc, line, text.as_slice(), rest)
}

/// Why words after a brace that doesn't close are refused: for what is wrong with them, or else for
/// the brace.
fn unclosed(known: &mut Knowledge, alloc: Global, line: u64, words: &[Octets]) -> SpellFault
    ensures refused { RefusedAs result (unclosed line words.now known.old) }
    ensures extends { Extends known.old known.new }
{
    match own_decl(known, alloc, line, words) {
        Ok(_) => SpellFault::Code(BAD_CONDITION),
        Err(fault) => fault,
    }
}

/// The terms of a condition up to a place outside braces.
#[derive(Drop)]
struct Gathered {
    /// the conjunctions before the one under way
    before: Cond,
    /// the terms of the conjunction under way
    conj: Conj,
    /// whether marks stand before the next term
    marked: bool,
    /// whether the marks before the next term are odd in number
    negated: bool,
}

impl Gathered {
    /// Before the first word.
    fn new(alloc: Global) -> Gathered
        ensures { terms_of result ≡ no_terms }
    {
        Gathered {
            before: Items::new(alloc),
            conj: Items::new(alloc),
            marked: false,
            negated: false,
        }
    }

    /// A term, by its ACL.
    fn term(&mut self, acl: AclUse) -> Result<(), NoMemory>
        ensures { IfOk result (λ _. terms_of self.new ≡ with_term acl (terms_of self.old)) }
    {
        self.conj.push(Term {
            negated: self.negated,
            acl,
        })?;
        self.marked = false;
        self.negated = false;
        Ok(())
    }

    /// So many `!` before the next term.
    fn mark(&mut self, count: usize)
        ensures { terms_of self.new ≡ marked count (terms_of self.old) }
    {
        self.marked |= count > 0;
        self.negated ^= count % 2 == 1;
    }

    /// The conjunction under way ends, which has one term at least.
    fn end_conj(&mut self, alloc: Global, known: &Knowledge) -> Result<(), SpellFault>
        ensures { Becomes result self.new known.now (next_conj (terms_of self.old) known.now) }
    {
        if self.conj.len() == 0 {
            return Err(SpellFault::Code(BAD_CONDITION));
        }
        let conj = mem::replace(&mut self.conj, Items::new(alloc));
        self.before.push(conj)?;
        self.marked = false;
        self.negated = false;
        Ok(())
    }

    /// The name of an ACL.
    fn name(&mut self, alloc: Global, known: &Knowledge, name: &[u8]) -> Result<(), SpellFault>
        ensures { Becomes result self.new known.now
            (named_term name.now (terms_of self.old) known.now) }
    {
        if !is_acl_name(name) {
            return Err(SpellFault::Code(BAD_CONDITION));
        }
        if !known.is_known_acl(name) {
            return Err(SpellFault::Code(UNKNOWN_ACL));
        }
        self.term(AclUse::Named(Octets::copy(alloc, name)?))?;
        Ok(())
    }
    /// The words after an open brace, up to the one that closes it. Answers those that follow.
    fn braces<'a>(
        &mut self,
        known: &mut Knowledge,
        alloc: Global,
        line: u64,
        words: &'a [Octets],
    ) -> Result<&'a [Octets], SpellFault>
        ensures ok { IfOk result (λ left.
            cond_from line words.now (opened (terms_of self.old)) known.old
            ≡ cond_from line left.now (terms_of self.new) known.new) }
        ensures refused { IfErr result (λ fault. RefusedAs fault
            (cond_from line words.now (opened (terms_of self.old)) known.old)) }
        ensures shorter { IfOk result (λ left. length left.now ≤ length words.now) }
        ensures extends { Extends known.old known.new }
    {
        let Some(end) = closing(words) else {
            return Err(unclosed(known, alloc, line, words));
        };
        let decl = own_decl(known, alloc, line, &words[..end])?;
        self.term(AclUse::Own(decl))?;
        Ok(&words[end + 1..])
    }

    /// A word, and where it opens a brace those up to the one that closes it. Answers those that
    /// follow.
    fn word<'a>(
        &mut self,
        known: &mut Knowledge,
        alloc: Global,
        line: u64,
        word: &[u8],
        rest: &'a [Octets],
    ) -> Result<&'a [Octets], SpellFault>
        ensures ok { IfOk result (λ left.
            cond_from line (word.now ∷ rest.now) (terms_of self.old) known.old
            ≡ cond_from line left.now (terms_of self.new) known.new) }
        ensures refused { IfErr result (λ fault. RefusedAs fault
            (cond_from line (word.now ∷ rest.now) (terms_of self.old) known.old)) }
        ensures shorter { IfOk result (λ left. length left.now ≤ length rest.now) }
        ensures extends { Extends known.old known.new }
    {
        if is_or(word) && !self.marked {
            self.end_conj(alloc, known)?;
            return Ok(rest);
        }
        let count = marks_of(word);
        self.mark(count);
        self.unmarked(known, alloc, line, count, &word[count..], rest)
    }

    /// What follows the marks of a word, of which there are `count`, and the words after it.
    fn unmarked<'a>(
        &mut self,
        known: &mut Knowledge,
        alloc: Global,
        line: u64,
        count: usize,
        word: &[u8],
        rest: &'a [Octets],
    ) -> Result<&'a [Octets], SpellFault>
        ensures ok { IfOk result (λ left.
            unmarked line count word.now rest.now (terms_of self.old) known.old
            ≡ cond_from line left.now (terms_of self.new) known.new) }
        ensures refused { IfErr result (λ fault. RefusedAs fault
            (unmarked line count word.now rest.now (terms_of self.old) known.old)) }
        ensures shorter { IfOk result (λ left. length left.now ≤ length rest.now) }
        ensures extends { Extends known.old known.new }
    {
        if word.is_empty() {
            return if count > 0 {
                Ok(rest)
            } else {
                Err(SpellFault::Code(BAD_CONDITION))
            };
        }
        if word == b"{".as_slice() {
            return self.braces(known, alloc, line, rest);
        }
        self.name(alloc, known, word)?;
        Ok(rest)
    }

    /// The condition, where the last word is read.
    fn end(self, known: &Knowledge) -> Result<Cond, SpellFault>
        ensures { ReadsAs result known.now (cond_end 0 None (terms_of self) known.now) }
    {
        if self.marked || self.conj.len() == 0 {
            return Err(SpellFault::Code(BAD_CONDITION));
        }
        let Gathered {
            mut before,
            conj,
            ..
        } = self;
        before.push(conj)?;
        Ok(before)
    }
}

/// The condition of words: conjunctions with `or` or `||` between them (HAProxy configuration
/// manual 2.4, section 7.2).
///
/// The words are judged from the left. They are refused with code 14 where they are no condition,
/// and with 13 where they name an ACL that isn't known. ACLs in braces are refused as `decl_of`
/// has it.
#[tactic(auto, unfolding(crate::specs::Conditions::cond_of))]
pub(crate) fn cond_of(
    known: &mut Knowledge,
    alloc: Global,
    line: u64,
    words: &[Octets],
) -> Result<Cond, SpellFault>
    ensures answers { ReadsAs result known.new (cond_of line words.now known.old) }
    ensures extends { Extends known.old known.new }
{
    let mut terms = Gathered::new(alloc);
    let mut rest = words;
    while let [word, after @ ..] = rest {
        rest = terms.word(known, alloc, line, word.as_slice(), after)?;
    }
    terms.end(known)
}
