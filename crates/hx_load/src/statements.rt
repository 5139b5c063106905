ghost use Rattle.std.specs.Prelude.{◌≡◌, [], IfSome, OnOk, true, false, is_none};
ghost use Rattle.std.specs.List.{All, list_all};
ghost use Rattle.hx_ast.specs.Acls.{IsAclUse, IsCond, cond_passes, takes_patterns, use_passes};
ghost use Rattle.hx_ast.specs.Statements.{IsStatement};
ghost use Rattle.hx_match.specs.Patterns.{text_fault};
ghost use Rattle.hx_rules.specs.Building.{is_statement_typed, with_statement};
ghost use Rattle.hx_load.specs.Configuration.{has_patterns, is_statement_readable, statement_has_patterns, when_has_patterns};
ghost use Rattle.hx_load.specs.Loads.{IsCondPattern, IsConjPattern, IsPatternText, IsStatementPattern, IsUsePattern, IsWhenPattern, StatementReads};
ghost use Rattle.hx_load.specs.Judging.{IsTextOfWord, JudgedAs};

use crate::line_fault::LineFault;
use hx_ast::{AclUse, Cond, Decl, Statement, Term};
use hx_match::parse;
use hx_outside::ReMaker;
use hx_rules::Program;
use std::alloc::Global;

/// Adds a statement to the program. The types of its expressions are judged first, and then its
/// regular expressions and inline patterns.
pub(crate) fn push_statement<M: ReMaker>(
    alloc: Global,
    program: &mut Program,
    statement: &Statement,
    maker: &mut M,
) -> Result<(), LineFault>
    requires { IsStatement statement.now }
    ensures judged { JudgedAs (is_statement_typed statement.now)
        (is_statement_readable statement.now) (StatementReads statement.now)
        (M.state maker.old) (M.state maker.new) result }
    ensures ok { OnOk result (program.new ≡ with_statement statement.now program.old) }
{
    program.push(statement, maker)?;
    judge_statement(alloc, statement, maker)
}

/// Judges the inline patterns of a statement's ACLs.
fn judge_statement<M: ReMaker>(
    alloc: Global,
    statement: &Statement,
    maker: &mut M,
) -> Result<(), LineFault>
    requires { IsStatement statement.now }
    ensures { JudgedAs true (statement_has_patterns statement.now)
        (IsStatementPattern statement.now)
        (M.state maker.old) (M.state maker.new) result }
{
    match statement {
        Statement::Plain | Statement::Fallback { .. } => Ok(()),
        Statement::Acl { decl, .. } => judge_patterns(alloc, decl, maker),
        Statement::Rule(rule) | Statement::Redirect(rule) => judge_when(alloc, &rule.cond, maker),
        Statement::Backend { cond, .. } => judge_when(alloc, cond, maker),
    }
}

fn judge_when<M: ReMaker>(
    alloc: Global,
    cond: &Option<Cond>,
    maker: &mut M,
) -> Result<(), LineFault>
    requires { IfSome cond.now IsCond }
    ensures { JudgedAs true (when_has_patterns cond.now) (IsWhenPattern cond.now)
        (M.state maker.old) (M.state maker.new) result }
{
    match cond {
        Some(cond) => judge_cond(alloc, cond, maker),
        None => Ok(()),
    }
}

/// Judges the inline patterns of the ACLs that stand in a condition itself.
fn judge_cond<M: ReMaker>(alloc: Global, cond: &Cond, maker: &mut M) -> Result<(), LineFault>
    requires { IsCond cond.now }
    ensures { JudgedAs true (cond_passes has_patterns cond.now) (IsCondPattern cond.now)
        (M.state maker.old) (M.state maker.new) result }
{
    for conj in cond.as_slice() {
        judge_conj(alloc, conj.as_slice(), maker)?;
    }
    Ok(())
}

fn judge_conj<M: ReMaker>(alloc: Global, conj: &[Term], maker: &mut M) -> Result<(), LineFault>
    requires { All (λ term. IsAclUse term.acl) conj.now }
    ensures { JudgedAs true
        (list_all (λ term. use_passes has_patterns term.acl) conj.now) (IsConjPattern conj.now)
        (M.state maker.old) (M.state maker.new) result }
{
    for term in conj {
        judge_use(alloc, &term.acl, maker)?;
    }
    Ok(())
}

fn judge_use<M: ReMaker>(alloc: Global, acl: &AclUse, maker: &mut M) -> Result<(), LineFault>
    requires { IsAclUse acl.now }
    ensures { JudgedAs true (use_passes has_patterns acl.now) (IsUsePattern acl.now)
        (M.state maker.old) (M.state maker.new) result }
{
    match acl {
        AclUse::Named(_) => Ok(()),
        AclUse::Own(decl) => judge_patterns(alloc, decl, maker),
    }
}

/// Judges the inline patterns of an ACL. Only one with a method that takes patterns has any.
fn judge_patterns<M: ReMaker>(alloc: Global, decl: &Decl, maker: &mut M) -> Result<(), LineFault>
    requires { takes_patterns decl.now.by ≡ false → decl.now.words ≡ [] }
    ensures { JudgedAs true (has_patterns decl.now) (IsPatternText decl.now)
        (M.state maker.old) (M.state maker.new) result }
{
    for word in decl.words.as_slice() {
        judge_pattern(alloc, decl, word.as_slice(), maker)?;
    }
    Ok(())
}

fn judge_pattern<M: ReMaker>(
    alloc: Global,
    decl: &Decl,
    word: &[u8],
    maker: &mut M,
) -> Result<(), LineFault>
    requires { takes_patterns decl.now.by ≡ true }
    ensures { JudgedAs true (is_none (text_fault decl.now.by decl.now.ci word.now))
        (IsTextOfWord decl.now word.now)
        (M.state maker.old) (M.state maker.new) result }
{
    parse(alloc, decl.by, decl.ci, word, maker)?;
    Ok(())
}
