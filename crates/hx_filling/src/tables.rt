ghost use Rattle.std.specs.Prelude.{◌≡◌, ◌<◌, ◌≤◌, ◌^◌, [], ℕ, true, false, None, Some, Err, IfOk, OnOk, IsErrOf, length, map};
ghost use Rattle.std.specs.BTreeSet.{contains};
ghost use Rattle.std.specs.List.{All};
ghost use Rattle.std.specs.Ordering.{nat_cmp};
ghost use Rattle.hx_refs.specs.References.{HasHadNone};
ghost use Rattle.hx_filling.specs.Declaring.{AreDistinct, HasRoomFor, HasRoomForAll};
ghost use Rattle.hx_filling.specs.References.{declared_references, first_unknown, given_numbers, id_taken, is_among, numbers_of, repeated_after, table_head, unknown_table, with_heads, with_outputs, with_table, with_tables};
ghost use Rattle.std.specs.Option.{option_copied};
ghost use Rattle.hx_calls.specs.Known.{most_references};
ghost use Rattle.hx_calls.specs.TableSpecs.{AreSpecs, IsHeadOf};

use crate::load_fault::LoadFault;
use hx_calls::{HeadSpec, TableSpec, TableSpecs};
use hx_refs::{Limits, Refs};
use hx_text::{NoMemory, Out};
use std::alloc::Global;
use std::collections::BTreeSet;

/// The code of a number that is given twice.
const ID_TAKEN: u32 = 22;

/// The code of a file that a rule changes, and that is named nowhere else.
const UNKNOWN_TABLE: u32 = 21;

/// The numbers that references are given, each once.
///
/// `Refused` exactly where a number is given a second time, as `declare` says. `NoMemory` where
/// memory runs out.
fn given_numbers(alloc: Global, specs: &[TableSpec]) -> Result<BTreeSet<u32>, LoadFault>
    ensures once { IfOk result (λ given. repeated_after [] specs.now ≡ None) }
    ensures given { IfOk result (λ given. (n : ℕ)
        → contains nat_cmp given n ≡ is_among (given_numbers specs.now) n) }
    ensures refused { (line code : ℕ) → result ≡ Err (LoadFault.Refused line code)
        → (repeated_after [] specs.now ≡ Some line) × (code ≡ id_taken) }
    ensures no_file { ¬ (IsErrOf result LoadFault.Failed) }
    ensures no_expression { ¬ (IsErrOf result LoadFault.TooLarge) }
{
    let mut given = BTreeSet::new(alloc);
    let mut rest = specs;
    while let [spec, others @ ..] = rest {
        if let Some(number) = spec.given {
            let Ok(added) = given.insert(number) else {
                return Err(LoadFault::NoMemory);
            };
            if !added {
                return Err(LoadFault::Refused {
                    line: spec.line,
                    code: ID_TAKEN,
                });
            }
        }
        rest = others;
    }
    Ok(given)
}

/// Whether each file that a rule changes is named by a `-f` or a map.
///
/// `Refused` exactly where one isn't, with the line on which it first appears, and 21. No other
/// fault comes.
pub fn known_tables(specs: &[TableSpec]) -> Result<(), LoadFault>
    ensures known { OnOk result (first_unknown specs.now ≡ None) }
    ensures refused { (line code : ℕ) → result ≡ Err (LoadFault.Refused line code)
        → (first_unknown specs.now ≡ Some line) × (code ≡ unknown_table) }
    ensures no_file { ¬ (IsErrOf result LoadFault.Failed) }
    ensures no_expression { ¬ (IsErrOf result LoadFault.TooLarge) }
{
    let mut rest = specs;
    while let [spec, others @ ..] = rest {
        if spec.file.is_some() && !spec.named {
            return Err(LoadFault::Refused {
                line: spec.line,
                code: UNKNOWN_TABLE,
            });
        }
        rest = others;
    }
    Ok(())
}

/// The references with their numbers and heads, without entries.
///
/// `Refused` exactly where a number is given a second time, with the line of the first appearance
/// of the reference that has it so, and 22. `NoMemory` where memory runs out. HAProxy configuration
/// manual 2.4, section 7.1, flag `-u`.
#[tactic(auto, using(crate::proofs::DeclareLemmas::there_is_room, crate::proofs::DeclareLemmas::declared_heads, crate::proofs::DeclareLemmas::declared_count, crate::proofs::DeclareLemmas::tables_had_none, crate::proofs::DeclareLemmas::tables_count, crate::proofs::DeclareLemmas::heads_fit))]
pub fn declare(alloc: Global, specs: &TableSpecs, limits: Limits) -> Result<Refs, LoadFault>
    requires { AreSpecs specs.now }
    ensures once { IfOk result (λ refs. repeated_after [] specs.now.specs ≡ None) }
    ensures ok { IfOk result (λ refs. refs.content
        ≡ declared_references limits specs.now.specs specs.now.heads) }
    ensures heads { IfOk result (λ refs. refs.content.heads ≡ map table_head specs.now.heads) }
    ensures count { IfOk result (λ refs. length refs.content.references ≡ length specs.now.specs) }
    ensures refused { (line code : ℕ) → result ≡ Err (LoadFault.Refused line code)
        → (repeated_after [] specs.now.specs ≡ Some line) × (code ≡ id_taken) }
    ensures no_file { ¬ (IsErrOf result LoadFault.Failed) }
    ensures no_expression { ¬ (IsErrOf result LoadFault.TooLarge) }
{
    let numbers = numbers(alloc, specs.as_slice())?;
    let mut refs = Refs::new(alloc, limits);
    declare_tables(&mut refs, numbers.as_slice(), specs.as_slice())?;
    declare_heads(&mut refs, specs.heads_as_slice())?;
    Ok(refs)
}

/// The numbers of the references: that which is given, or else the next one that is free.
///
/// `Refused` exactly where a number is given a second time, as `declare` says. `NoMemory` where
/// memory runs out.
#[tactic(auto, using(crate::proofs::NumberLemmas::numbers_count, crate::proofs::NumberLemmas::numbers_distinct))]
fn numbers(alloc: Global, specs: &[TableSpec]) -> Result<Vec<u32>, LoadFault>
    requires few { length specs.now ≤ most_references }
    ensures once { IfOk result (λ numbers. repeated_after [] specs.now ≡ None) }
    ensures numbers { IfOk result (λ numbers. numbers.items ≡ numbers_of specs.now) }
    ensures count { IfOk result (λ numbers. length numbers.items ≡ length specs.now) }
    ensures distinct { IfOk result (λ numbers. AreDistinct numbers.items) }
    ensures refused { (line code : ℕ) → result ≡ Err (LoadFault.Refused line code)
        → (repeated_after [] specs.now ≡ Some line) × (code ≡ id_taken) }
    ensures no_file { ¬ (IsErrOf result LoadFault.Failed) }
    ensures no_expression { ¬ (IsErrOf result LoadFault.TooLarge) }
{
    let given = given_numbers(alloc, specs)?;
    Ok(numbers_beside(alloc, &given, specs)?)
}

/// The numbers of the references, where these are given.
///
/// Each number that is free is less than the count of the references, which a `u32` holds.
fn numbers_beside(
    alloc: Global,
    given: &BTreeSet<u32>,
    specs: &[TableSpec],
) -> Result<Vec<u32>, NoMemory>
    requires few { length specs.now ≤ most_references }
    requires given { (n : ℕ)
        → contains nat_cmp given.now n ≡ is_among (given_numbers specs.now) n }
    ensures { IfOk result (λ numbers. numbers.items ≡ numbers_of specs.now) }
{
    let mut numbers = Vec::new(alloc);
    let mut free = 0u32;
    let mut rest = specs;
    while let [spec, others @ ..] = rest {
        let number = match spec.given {
            Some(number) => number,
            None => {
                free = first_free(given, free);
                free += 1;
                free - 1
            }
        };
        numbers.push(number)?;
        rest = others;
    }
    Ok(numbers)
}

/// The least number from this one on that isn't given. The caller knows that a `u32` holds one.
fn first_free(given: &BTreeSet<u32>, from: u32) -> u32
    requires { (n : ℕ) × (from ≤ n) × (n < 2 ^ 32) × (contains nat_cmp given.now n ≡ false) }
    ensures from { from ≤ result }
    ensures free { contains nat_cmp given.now result ≡ false }
    ensures least { (n : ℕ) → from ≤ n → n < result → contains nat_cmp given.now n ≡ true }
{
    let mut free = from;
    while given.contains(&free) {
        free += 1;
    }
    free
}

/// Appends these heads.
///
/// Each is one of the references, to which nothing was added.
fn declare_heads(refs: &mut Refs, heads: &[HeadSpec]) -> Result<(), NoMemory>
    requires heads { All (IsHeadOf (length refs.old.content.references)) heads.now }
    requires none { (r : ℕ) → r < length refs.old.content.references
        → HasHadNone refs.old.content r }
    ensures ok { OnOk result (refs.new.content ≡ with_heads heads.now refs.old.content) }
{
    let mut rest = heads;
    while let [head, others @ ..] = rest {
        refs.add_use(head.table, head.by, head.ci)?;
        rest = others;
    }
    Ok(())
}

/// Appends the references of these numbers, without entries.
fn declare_tables(refs: &mut Refs, numbers: &[u32], specs: &[TableSpec]) -> Result<(), NoMemory>
    requires { HasRoomForAll numbers.now specs.now refs.old.content }
    ensures ok { OnOk result
        (refs.new.content ≡ with_tables numbers.now specs.now refs.old.content) }
{
    let mut left = numbers;
    let mut rest = specs;
    while let [spec, others @ ..] = rest {
        let [number, more @ ..] = left else {
            unreachable!()
        };
        declare_table(refs, *number, spec)?;
        left = more;
        rest = others;
    }
    Ok(())
}

/// Appends the reference of this number, without entries.
fn declare_table(refs: &mut Refs, number: u32, spec: &TableSpec) -> Result<(), NoMemory>
    requires { HasRoomFor number spec.now refs.old.content }
    ensures ok { OnOk result (refs.new.content ≡ with_table number spec.now refs.old.content) }
{
    let r = refs.add_ref(number, file_of(spec), spec.two_column, spec.acl)?;
    add_outputs(refs, r, spec)
}

/// The name of the file, where the reference has one.
fn file_of(spec: &TableSpec) -> Option<&[u8]>
    ensures { option_copied result ≡ spec.now.file }
{
    match &spec.file {
        Some(name) => Some(name.as_slice()),
        None => None,
    }
}

/// Appends the types of values to the reference at the position `r`.
///
/// There are more than `r` references, and nothing was added to this one.
fn add_outputs(refs: &mut Refs, r: u32, spec: &TableSpec) -> Result<(), NoMemory>
    requires r { r < length refs.old.content.references }
    requires none { HasHadNone refs.old.content r }
    ensures ok { OnOk result (refs.new.content ≡ with_outputs r spec.now refs.old.content) }
{
    if spec.out_int {
        refs.add_out(r, Out::Int)?;
    }
    if spec.out_ip {
        refs.add_out(r, Out::Ip)?;
    }
    Ok(())
}
