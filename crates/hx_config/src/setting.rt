ghost use Rattle.std.specs.Prelude.{◌≡◌, option_map, IfOk};
ghost use Rattle.hx_config.specs.Setting.{arguments_said, is_set_in, set_where, setting_said};

use crate::guards::{found_in, push_with_guard};
use crate::words::push;
use hx_text::{NoMemory, Octets, cut_at};
use std::alloc::Global;

/// What stands for an action of `http-request` with these words after it, where it sets a variable
/// only where that has a value, or only where it has none.
pub(crate) fn setting_said(
    alloc: Global,
    action: &[u8],
    words: &[Octets],
) -> Result<Option<Vec<Octets>>, NoMemory>
    ensures { IfOk result
        (λ found. option_map (λ words. words.items) found ≡ setting_said action.now words.now) }
{
    match cut_at(b'(', action) {
        Some((name, arguments)) if name == b"set-var".as_slice() => {
            arguments_said(alloc, arguments, words)
        }
        _ => Ok(None),
    }
}

/// The same by what follows `set-var(`.
fn arguments_said(
    alloc: Global,
    arguments: &[u8],
    words: &[Octets],
) -> Result<Option<Vec<Octets>>, NoMemory>
    ensures { IfOk result (λ found. option_map (λ words. words.items) found
        ≡ arguments_said arguments.now words.now) }
{
    let Some((name, ending)) = cut_at(b',', arguments) else {
        return Ok(None);
    };
    match is_set_in(ending) {
        Some(is_set) => set_where(alloc, name, is_set, words),
        None => Ok(None),
    }
}

/// Whether the arguments end by asking that the variable has a value, or that it has none.
fn is_set_in(text: &[u8]) -> Option<bool>
    ensures { result ≡ is_set_in text.now }
{
    if text == b"ifset)".as_slice() {
        Some(true)
    } else if text == b"ifnotset)".as_slice() {
        Some(false)
    } else {
        None
    }
}

/// The rule for a variable of this name, which is set only where it has a value, or only where it
/// has none.
fn set_where(
    alloc: Global,
    name: &[u8],
    is_set: bool,
    words: &[Octets],
) -> Result<Option<Vec<Octets>>, NoMemory>
    ensures { IfOk result (λ found. option_map (λ words. words.items) found
        ≡ set_where name.now is_set words.now) }
{
    let [expression, condition @ ..] = words else {
        return Ok(None);
    };
    let mut action = Vec::new(alloc);
    action.extend_from_slice(b"set-var(")?;
    action.extend_from_slice(name)?;
    action.extend_from_slice(b")")?;
    let mut criterion = Vec::new(alloc);
    criterion.extend_from_slice(b"var(")?;
    criterion.extend_from_slice(name)?;
    criterion.extend_from_slice(b")")?;
    let mut out = Vec::new(alloc);
    push(alloc, &mut out, b"http-request")?;
    out.push(Octets::from_vec(action))?;
    push(alloc, &mut out, expression.as_slice())?;
    let found = found_in(alloc, criterion.as_slice())?;
    push_with_guard(alloc, &mut out, found.as_slice(), is_set, condition)?;
    Ok(Some(out))
}
