ghost use Rattle.std.specs.Prelude.{◌≡◌, IfOk, option_map};
ghost use Rattle.std.specs.List.{list_all};
ghost use Rattle.hx_ast.specs.Names.{is_variable_byte};
ghost use Rattle.hx_calls.specs.Values.{scope_of, is_variable_text, variable_with, variable_name_of};
ghost use Rattle.hx_calls.specs.Values.{variable_or_nothing_of, operand_written};

use hx_ast::Val;
use hx_text::{NoMemory, Octets, Scope, VarName, cut_at, read_i64};
use std::alloc::Global;

fn scope(text: &[u8]) -> Option<Scope>
    ensures { result ≡ scope_of text.now }
{
    if text == b"proc".as_slice() {
        Some(Scope::Proc)
    } else if text == b"sess".as_slice() {
        Some(Scope::Sess)
    } else if text == b"txn".as_slice() {
        Some(Scope::Txn)
    } else if text == b"req".as_slice() {
        Some(Scope::Req)
    } else if text == b"res".as_slice() {
        Some(Scope::Res)
    } else {
        None
    }
}

fn is_variable_byte(byte: u8) -> bool
    ensures { result ≡ is_variable_byte byte }
{
    byte.is_ascii_alphanumeric() || byte == b'.' || byte == b'_'
}

fn are_variable_bytes(name: &[u8]) -> bool
    ensures { result ≡ list_all is_variable_byte name.now }
{
    name.iter().all(|byte| is_variable_byte(*byte))
}

fn is_variable_text(name: &[u8]) -> bool
    ensures { result ≡ is_variable_text name.now }
{
    !name.is_empty() && are_variable_bytes(name)
}

fn variable_with(
    alloc: Global,
    name: &[u8],
    scope: Option<Scope>,
) -> Result<Option<VarName>, NoMemory>
    ensures { IfOk result (λ found. found ≡ variable_with name.now scope) }
{
    let Some(scope) = scope else {
        return Ok(None);
    };
    if !is_variable_text(name) {
        return Ok(None);
    }
    let name = Octets::copy(alloc, name)?;
    Ok(Some(VarName { scope, name }))
}

/// A variable: its scope, a dot and its name.
#[tactic(auto, unfolding(crate::specs::Values::variable_name_of))]
pub(crate) fn variable(alloc: Global, text: &[u8]) -> Result<Option<VarName>, NoMemory>
    ensures { IfOk result (λ found. found ≡ variable_name_of text.now) }
{
    match cut_at(b'.', text) {
        None => Ok(None),
        Some((scope_text, name)) => variable_with(alloc, name, scope(scope_text)),
    }
}

/// A variable, or no text for no variable.
pub(crate) fn variable_or_nothing(
    alloc: Global,
    text: &[u8],
) -> Result<Option<Option<VarName>>, NoMemory>
    ensures { IfOk result (λ found. found ≡ variable_or_nothing_of text.now) }
{
    if text.is_empty() {
        return Ok(Some(None));
    }
    match variable(alloc, text)? {
        None => Ok(None),
        Some(name) => Ok(Some(Some(name))),
    }
}

/// A number, or else a variable.
pub(crate) fn operand(alloc: Global, text: &[u8]) -> Result<Option<Val>, NoMemory>
    ensures { IfOk result (λ found. found ≡ operand_written text.now) }
{
    if let Some(n) = read_i64(text) {
        return Ok(Some(Val::Number(n)));
    }
    match variable(alloc, text)? {
        None => Ok(None),
        Some(name) => Ok(Some(Val::Var(name))),
    }
}
