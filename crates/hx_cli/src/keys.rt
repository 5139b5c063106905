ghost use Rattle.std.specs.Prelude.{◌≡◌, ◌<◌, false, length, None, Some, IfErr, OnOk, OnErr};
ghost use Rattle.hx_refs.specs.Changes.{after_change_of_value, after_deletion, answer, deletion_fault, fault_at, value_fault, MayFail};
ghost use Rattle.hx_cli.specs.Effects.{is_meant, number_after_sign};

use hex::FromHex;
use hx_refs::{RefFault, Refs};

/// The number of an entry that a word writes after `#`.
#[tactic(auto, unfolding(crate::specs::Effects::number_after_sign))]
fn number_after_sign(text: &[u8]) -> Option<u64>
    ensures { result ≡ number_after_sign text.now }
{
    let digits = text.strip_prefix(b"0x")?;
    match <[u8; 8]>::from_hex(digits) {
        Ok(bytes) => Some(u64::from_be_bytes(bytes)),
        Err(_) => None,
    }
}

/// Why a word is refused that writes no number after `#`: the reference has no such version, or
/// else the version has no such entry.
fn no_number_fault(refs: &Refs, r: u32, ver: Option<u32>) -> RefFault
    requires { r < length refs.now.content.references }
    ensures { fault_at refs.now.content r (deletion_fault ver (λ _. false)) ≡ Some result }
{
    if refs.has_version(r, ver) {
        RefFault::KeyNotFound
    } else {
        RefFault::BadVersion
    }
}

/// Removes the entries of a version of which a word speaks.
pub(crate) fn delete(refs: &mut Refs, r: u32, ver: Option<u32>, word: &[u8]) -> Result<(), RefFault>
    requires { r < length refs.old.content.references }
    ensures answer { result
        ≡ answer tt (fault_at refs.old.content r (deletion_fault ver (is_meant word.now))) }
    ensures ok { OnOk result (refs.new.content ≡ after_deletion refs.old.content r ver
        (is_meant word.now)) }
    ensures err { OnErr result (refs.new ≡ refs.old) }
{
    let Some(rest) = word.strip_prefix(b"#") else {
        return refs.del_key(r, ver, word);
    };
    match number_after_sign(rest) {
        Some(number) => refs.del_id(r, ver, number),
        None => Err(no_number_fault(refs, r, ver)),
    }
}

/// Changes the value of the entries of a version of which a word speaks.
pub(crate) fn set_value(
    refs: &mut Refs,
    r: u32,
    ver: Option<u32>,
    word: &[u8],
    value: &[u8],
) -> Result<(), RefFault>
    requires { r < length refs.old.content.references }
    ensures ok { OnOk result
        (refs.new.content
        ≡ after_change_of_value refs.old.content r ver (is_meant word.now) value.now) }
    ensures none { OnOk result
        (fault_at refs.old.content r (value_fault ver (is_meant word.now) value.now) ≡ None) }
    ensures refused { IfErr result
        (MayFail (fault_at refs.old.content r (value_fault ver (is_meant word.now) value.now))) }
    ensures kept { OnErr result (refs.new ≡ refs.old) }
{
    let Some(rest) = word.strip_prefix(b"#") else {
        return refs.set_key(r, ver, word, value);
    };
    match number_after_sign(rest) {
        Some(number) => refs.set_id(r, ver, number, value),
        None => Err(no_number_fault(refs, r, ver)),
    }
}
