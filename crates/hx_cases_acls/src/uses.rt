//! References with their uses and entries, as the lines of a configuration bring them.

ghost use Rattle.std.specs.Prelude.{◌≡◌, ◌≢◌, ◌<◌, true, OnOk, length};
ghost use Rattle.hx_acl.specs.Holds.{HasAclHeads};
ghost use Rattle.hx_acl.specs.Tests.{HasTestHeads};
ghost use Rattle.hx_cases_acls.specs.Uses.{AreHeadsBy, HasConjHeads, HaveConjHeads, HaveHadNone};
ghost use Rattle.hx_expr.specs.Values.{HasTableHeads, IsHeadBy};
ghost use Rattle.hx_refs.specs.Uses.{KeepsToCase};

use crate::entries::show_added;
use hx_ast::{AclUse, Conj, Conv, Decl, Term, Texts};
use hx_cases_base::CaseFault;
use hx_outside::PlainMaker;
use hx_refs::{Limits, Pairs, Refs};
use hx_spell::{HeadSpec, TableSpec, TableSpecs};
use hx_text::By;
use std::alloc::Global;

/// Whether there can be a use by this method, with this case.
pub fn can_be_use(by: By, ci: bool) -> bool
    ensures found { result ≡ true → by ≢ By.Found }
    ensures bool { result ≡ true → by ≢ By.Bool }
    ensures case { result ≡ true → KeepsToCase by ci }
{
    match by {
        By::Found | By::Bool => false,
        By::Int | By::Ip | By::Bin | By::Len => !ci,
        By::Str | By::Beg | By::End | By::Sub | By::Dir | By::Dom | By::Reg => true,
    }
}

/// Appends a reference without uses and entries, whose number is its position.
#[tactic(auto, using(crate::proofs::BuildLemmas::next_number, crate::proofs::BuildLemmas::none_in_more))]
fn add_reference(refs: &mut Refs, spec: &TableSpec) -> Result<(), CaseFault>
    requires { HaveHadNone refs.old.content }
    ensures { OnOk result (HaveHadNone refs.new.content) }
{
    let position = refs.len();
    if position >= 65_536 {
        return Err(CaseFault::BadArguments);
    }
    refs.add_ref(position, None, spec.two_column, spec.acl)?;
    Ok(())
}

/// Appends the use of a head.
#[tactic(auto, using(crate::proofs::BuildLemmas::none_after_use, crate::proofs::BuildLemmas::none_at))]
fn add_head(refs: &mut Refs, head: HeadSpec) -> Result<(), CaseFault>
    requires { HaveHadNone refs.old.content }
    ensures { OnOk result (HaveHadNone refs.new.content) }
{
    if head.table >= refs.len() || !can_be_use(head.by, head.ci) {
        return Err(CaseFault::BadArguments);
    }
    refs.add_use(head.table, head.by, head.ci)?;
    Ok(())
}

/// The references of these tables, without entries.
#[tactic(auto, using(crate::proofs::BuildLemmas::none_yet))]
fn empty_references(alloc: Global, tables: &TableSpecs) -> Result<Refs, CaseFault> {
    let mut refs = Refs::new(alloc, Limits::usual());
    for spec in tables.as_slice() {
        add_reference(&mut refs, spec)?;
    }
    for head in tables.heads_as_slice() {
        add_head(&mut refs, *head)?;
    }
    Ok(refs)
}

/// The keys of inline patterns.
fn keys(alloc: Global, words: &Texts) -> Result<Pairs, CaseFault> {
    let mut pairs = Pairs::new(alloc);
    for word in words.as_slice() {
        pairs.push(word.as_slice(), b"")?;
    }
    Ok(pairs)
}

/// The keys and values of a reference, whose file, if it has one, is one of these.
fn pairs_of(
    alloc: Global,
    spec: &TableSpec,
    files: &[(Vec<u8>, Vec<u8>)],
) -> Result<Pairs, CaseFault> {
    let Some(wanted) = &spec.file else {
        return keys(alloc, &spec.inline);
    };
    for (name, text) in files {
        if name.as_slice() == wanted.as_slice() {
            return Ok(Pairs::of_text(alloc, text.as_slice(), spec.two_column)?);
        }
    }
    Err(CaseFault::BadArguments)
}

/// Adds the entries of a reference, and says whether they could be added.
fn fill(out: &mut String, refs: &mut Refs, position: u32, pairs: &Pairs) -> Result<bool, CaseFault>
    ensures { OnOk result (position < 4294967295) }
{
    if position >= refs.len() {
        return Err(CaseFault::BadArguments);
    }
    show_added(
        out,
        refs.add_many(position, None, pairs, &mut PlainMaker::new()),
    )
}

/// References with their uses and entries, and what the lines say of them.
#[derive(Drop)]
pub struct Filled {
    pub refs: Refs,
    tables: TableSpecs,
}

impl Filled {
    /// The references of these tables, with the entries of these files; or none, where it is
    /// written why an entry can't be added.
    pub fn new(
        alloc: Global,
        out: &mut String,
        tables: TableSpecs,
        files: &[(Vec<u8>, Vec<u8>)],
    ) -> Result<Option<Filled>, CaseFault> {
        let mut refs = empty_references(alloc, &tables)?;
        let mut position = 0;
        for spec in tables.as_slice() {
            let pairs = pairs_of(alloc, spec, files)?;
            if !fill(out, &mut refs, position, &pairs)? {
                return Ok(None);
            }
            position += 1;
        }
        Ok(Some(Filled { refs, tables }))
    }

    /// Whether the reference at this position has a use by this method with this head.
    fn has_use(&self, position: u32, head: u32, by: By) -> bool
        requires { position < length self.now.refs.content.references }
        ensures { result ≡ true → IsHeadBy self.now.refs.content.heads head by }
    {
        for place in 0..22 {
            if let Some((method, _, number)) = self.refs.use_at(position, place) {
                if number == head && method == by {
                    return true;
                }
            }
        }
        false
    }

    /// Whether it is the head of a use by this method.
    fn has_head(&self, head: u32, by: By) -> bool
        ensures { result ≡ true → IsHeadBy self.now.refs.content.heads head by }
    {
        let Some(spec) = self.tables.head(head as usize) else {
            return false;
        };
        if spec.table >= self.refs.len() {
            return false;
        }
        self.has_use(spec.table, head, by)
    }

    /// Whether these are heads of uses by this method.
    fn has_heads(&self, heads: &[u32], by: By) -> bool
        ensures { result ≡ true → AreHeadsBy self.now.refs.content.heads by heads.now }
    {
        for head in heads {
            if !self.has_head(*head, by) {
                return false;
            }
        }
        true
    }

    /// Whether converters look values up by heads of uses by their methods.
    fn has_map_heads(&self, convs: &[Conv]) -> bool
        ensures { result ≡ true → HasTableHeads self.now.refs.content.heads convs.now }
    {
        for conv in convs {
            if let Conv::Map(head, by, _, _) = conv {
                if !self.has_head(*head, *by) {
                    return false;
                }
            }
        }
        true
    }

    /// Whether an ACL looks values up by heads of uses by its methods.
    #[tactic(auto, using(crate::proofs::CondLemmas::decl_has_heads))]
    pub fn has_decl_heads(&self, decl: &Decl) -> bool
        ensures { result ≡ true → HasTestHeads self.now.refs.content.heads decl.now }
    {
        self.has_map_heads(decl.expr.convs.as_slice())
            && self.has_heads(decl.heads.as_slice(), decl.by)
    }

    /// The same of the ACL of a term.
    fn has_term_heads(&self, term: &Term) -> bool
        ensures { result ≡ true → HasAclHeads self.now.refs.content.heads term.now.acl }
    {
        match &term.acl {
            AclUse::Named(_) => true,
            AclUse::Own(decl) => self.has_decl_heads(decl),
        }
    }

    /// The same of the ACLs of all terms.
    fn has_conj_heads(&self, conj: &[Term]) -> bool
        ensures { result ≡ true → HasConjHeads self.now.refs.content.heads conj.now }
    {
        for term in conj {
            if !self.has_term_heads(term) {
                return false;
            }
        }
        true
    }

    /// The same of the ACLs of a condition.
    pub fn has_cond_heads(&self, cond: &[Conj]) -> bool
        ensures { result ≡ true → HaveConjHeads self.now.refs.content.heads cond.now }
    {
        for conj in cond {
            if !self.has_conj_heads(conj.as_slice()) {
                return false;
            }
        }
        true
    }
}
