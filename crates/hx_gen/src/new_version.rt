ghost use Rattle.std.specs.Prelude.{◌≡◌, ◌+◌, ◌*◌, ◌++◌, [], ◌∷◌, IfOk, OnOk};
ghost use Rattle.std.specs.List.{concat};
ghost use Rattle.std.specs.String.{string_bytes};
ghost use Rattle.hx_gen.specs.Numbers.{for_each_to, random_number};
ghost use Rattle.hx_gen.specs.Record.{commitment, new_entry, preparation};
ghost use Rattle.hx_gen.specs.Sizes.{IsSize};

use crate::entries::entry_text;
use crate::numbers::{next_number, random_number};
use hx_text::NoMemory;
use std::alloc::{AllocError, Global};

/// Appends that a version of the map is prepared, filled line by line, and committed.
#[tactic(auto, using(crate::proofs::TextLemmas::joined))]
pub(crate) fn append_entries(alloc: Global, text: &mut Vec<u8>, size: u64) -> Result<(), NoMemory>
    requires { IsSize size }
    ensures { OnOk result (text.new.items ≡ text.old.items ++ concat
        (preparation ++ (for_each_to size (λ j. new_entry size j ∷ []) ++ commitment))) }
{
    append_preparation(text)?;
    append_new_entries(alloc, text, size)?;
    append_commitment(text)
}

#[tactic(auto, unfolding(crate::specs::Record::preparation))]
fn append_preparation(text: &mut Vec<u8>) -> Result<(), NoMemory>
    ensures { OnOk result (text.new.items ≡ text.old.items ++ concat preparation) }
{
    text.extend_from_slice(b"cli 1 prepare map paths.map\ncli 1 add map @1 paths.map <<\n")?;
    Ok(())
}

#[tactic(auto, unfolding(crate::specs::Record::commitment))]
fn append_commitment(text: &mut Vec<u8>) -> Result<(), NoMemory>
    ensures { OnOk result (text.new.items ≡ text.old.items ++ concat commitment) }
{
    text.extend_from_slice(b"cli 1\ncli 1 commit map @1 paths.map\n")?;
    Ok(())
}

/// Appends the entries of the new version.
#[tactic(auto, using(crate::proofs::NumberLemmas::next_is))]
fn append_new_entries(alloc: Global, text: &mut Vec<u8>, size: u64) -> Result<(), NoMemory>
    requires { IsSize size }
    ensures { OnOk result (text.new.items
        ≡ text.old.items ++ concat (for_each_to size (λ j. new_entry size j ∷ []))) }
{
    let mut x = random_number(size, 2 * size);
    for before in 0..size {
        x = next_number(x);
        text.extend_from_slice(new_entry(alloc, size, before + 1, x)?.as_bytes())?;
    }
    Ok(())
}

/// The entry of the new version with the number `j`, where `x` is the number of its path.
#[tactic(auto, unfolding(crate::specs::Record::new_entry))]
fn new_entry(alloc: Global, size: u64, j: u64, x: u64) -> Result<String, AllocError>
    requires size { IsSize size }
    requires x { x ≡ random_number size (2 * size + j) }
    ensures { IfOk result (λ text. string_bytes text ≡ new_entry size j) }
{
    let entry = entry_text(alloc, x % size, j)?;
    format!(in alloc; "cli 1 {entry}\n")
}
