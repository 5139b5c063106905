ghost use Rattle.std.specs.Prelude.{◌≡◌, ◌≢◌, ◌+◌, ◌<◌, ◌^◌, Bool, List, [], ◌∷◌, ◌++◌, false, None, is_some, length, IfOk, IfErr, OnOk};
ghost use Rattle.hx_text.specs.declared.kinds.By.{By as Method};
ghost use Rattle.hx_match.specs.Patterns.{text_fault};
ghost use Rattle.hx_refs.specs.Additions.{new_entries, pairs_fault, refuses_key, AdditionCountsLarge, IsReadAs, MayRefuse, PairsAskFor};
ghost use Rattle.hx_refs.specs.Kept.{key_fault, kept_demands, TakePatterns};
ghost use Rattle.hx_versions.specs.NewEntries.{added_entries, added_entry, prepared_patterns, AreReadyFor, IsReadyFor};
ghost use Rattle.hx_refs.specs.References.{refuses_value};
ghost use Rattle.hx_versions.specs.Rows.{use_ways};

use crate::fault::RefFault;
use crate::limits::Limits;
use crate::pairs::KeptPair;
use crate::reference::KeptReference;
use hx_index::{Prepared, prepare};
use hx_outside::{PatFault, ReMaker};
use hx_text::{By, NoMemory, read_i64, read_ip};
use hx_versions::{KeptText, KeptUse, NewEntries, NewEntry, NodeNumbers};
use std::alloc::Global;

/// The key as a pattern, prepared for an index.
fn prepare_key<M: ReMaker>(
    alloc: Global,
    by: By,
    ci: bool,
    key: &[u8],
    maker: &mut M,
) -> Result<Prepared, RefFault>
    requires found { by ≢ By.Found }
    requires bool { by ≢ By.Bool }
    ensures prepared { IfOk result (λ prepared.
        prepared ≡ record { by = by; ci = ci; text = key.now }) }
    ensures read { OnOk result (is_some (text_fault by ci key.now) ≡ false) }
    ensures refused { IfErr result
        (MayRefuse (key_fault (is_some (text_fault by ci key.now)))) }
    ensures large { AdditionCountsLarge result
        (λ text. (by ≡ By.Reg) × (text ≡ record { text = key.now; ci = ci }))
        (M.state maker.old) (M.state maker.new) }
{
    match prepare(alloc, by, ci, key, maker) {
        Ok(prepared) => Ok(prepared),
        Err(PatFault::BadInt) => Err(RefFault::BadPattern),
        Err(PatFault::BadRange) => Err(RefFault::BadPattern),
        Err(PatFault::BadAddress) => Err(RefFault::BadPattern),
        Err(PatFault::BadHex) => Err(RefFault::BadPattern),
        Err(PatFault::BadRegex) => Err(RefFault::BadPattern),
        Err(PatFault::NotUtf8) => Err(RefFault::BadPattern),
        Err(PatFault::TooLarge) => Err(RefFault::TooLarge),
        Err(PatFault::NoMemory) => Err(RefFault::NoMemory),
    }
}

/// The key as the pattern of each use, prepared for its index.
pub(crate) fn prepare_keys<M: ReMaker>(
    alloc: Global,
    uses: &[KeptUse],
    key: &[u8],
    maker: &mut M,
) -> Result<Vec<Prepared>, RefFault>
    requires { TakePatterns uses.now }
    ensures prepared { IfOk result (λ prepared.
        prepared.items ≡ prepared_patterns key.now (use_ways uses.now)) }
    ensures read { OnOk result (refuses_key uses.now key.now ≡ false) }
    ensures refused { IfErr result (MayRefuse (key_fault (refuses_key uses.now key.now))) }
    ensures large { AdditionCountsLarge result (IsReadAs uses.now key.now)
        (M.state maker.old) (M.state maker.new) }
{
    let mut prepared = Vec::with_capacity(alloc, uses.len())?;
    let mut rest = uses;
    while let [kept, others @ ..] = rest {
        let kept = *kept;
        let pattern = prepare_key(alloc, kept.by, kept.ci, key, maker)?;
        prepared.push(pattern)?;
        rest = others;
    }
    Ok(prepared)
}

/// Whether an output can't read the value.
pub(crate) fn refuses_value(as_int: bool, as_ip: bool, value: &[u8]) -> bool
    ensures { result ≡ refuses_value (record { as_int = as_int; as_ip = as_ip }) value.now }
{
    as_int && read_i64(value).is_none() || as_ip && read_ip(value).is_none()
}

/// The entry that a pair becomes, with its key as it was prepared for each use, and a place for as
/// many nodes.
pub(crate) fn entry_of_pair(
    alloc: Global,
    number: u64,
    pair: &KeptPair,
    prepared: Vec<Prepared>,
) -> Result<NewEntry, RefFault>
    ensures entry { IfOk result (λ new. added_entry new
        ≡ record { number = number; key = pair.now.key; value = pair.now.value }) }
    ensures prepared { IfOk result (λ new. new.prepared.items ≡ prepared.items) }
    ensures nodes { IfOk result (λ new. length new.nodes ≡ length prepared.items) }
    ensures err { IfErr result (λ fault. fault ≡ RefFault.NoMemory) }
{
    let key = KeptText::copy(alloc, pair.key())?;
    let value = KeptText::copy(alloc, pair.value())?;
    let nodes = NodeNumbers::places(alloc, prepared.len())?;
    Ok(NewEntry {
        number,
        key,
        value,
        prepared,
        nodes,
    })
}

/// Appends an entry, which is ready for each use.
fn push_entry(entries: &mut Vec<NewEntry>, entry: NewEntry) -> Result<(), NoMemory>
    ensures shown { OnOk result (added_entries entries.new.items
        ≡ added_entries entries.old.items ++ added_entry entry ∷ []) }
    ensures ready { OnOk result ((ways : List (Method × Bool)) → AreReadyFor ways entries.old.items
        → IsReadyFor ways entry → AreReadyFor ways entries.new.items) }
{
    entries.push(entry)?;
    Ok(())
}

/// The entries that the pairs become in the version of a number, which has `count` entries, after
/// that of the serial number `serial`.
pub(crate) fn new_entries<M: ReMaker>(
    alloc: Global,
    limits: Limits,
    reference: &KeptReference,
    version: u32,
    count: u32,
    serial: u32,
    pairs: &[KeptPair],
    maker: &mut M,
) -> Result<NewEntries, RefFault>
    ensures entries { IfOk result (λ added.
        added_entries added.entries.items ≡ new_entries version serial pairs.now) }
    ensures serial { IfOk result (λ added. added.serial ≡ serial + length pairs.now) }
    ensures ready { IfOk result (λ added.
        AreReadyFor (use_ways reference.now.kept.uses) added.entries.items) }
    ensures few { OnOk result (count + length pairs.now < 2 ^ 32) }
    ensures none { OnOk result (pairs_fault (kept_demands reference.now.kept limits)
        count serial pairs.now ≡ None) }
    ensures refused { IfErr result (MayRefuse (pairs_fault (kept_demands reference.now.kept limits)
        count serial pairs.now)) }
    ensures large { AdditionCountsLarge result (PairsAskFor (kept_demands reference.now.kept limits)
        count serial pairs.now)
        (M.state maker.old) (M.state maker.new) }
{
    let mut entries = Vec::new(alloc);
    let mut count = count;
    let mut serial = serial;
    let mut rest = pairs;
    while let [pair, others @ ..] = rest {
        let entry = reference.new_entry(alloc, limits, version, count, serial, pair, maker)?;
        push_entry(&mut entries, entry)?;
        count += 1;
        serial += 1;
        rest = others;
    }
    Ok(NewEntries { entries, serial })
}
