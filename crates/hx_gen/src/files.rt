ghost use Rattle.std.specs.Prelude.{◌≡◌, IfOk};
ghost use Rattle.hx_base.specs.Pairs.{pairs_of};
ghost use Rattle.hx_gen.specs.Files.{config_name, config_text, files_of, live_text, networks_text, paths_text};
ghost use Rattle.hx_gen.specs.Sizes.{IsSize};

use crate::entries::{entry_line, network_line};
use crate::numbers::next_number;
use hx_text::NoMemory;
use std::alloc::Global;

/// The name under which a generated input has its configuration among its files.
pub fn config_name() -> &'static [u8]
    ensures { result.now ≡ config_name }
{
    b"gen.cfg"
}

/// The files, each with its name.
pub(crate) fn files_of(alloc: Global, size: u64) -> Result<Vec<(Vec<u8>, Vec<u8>)>, NoMemory>
    requires { IsSize size }
    ensures { IfOk result (λ files. pairs_of files.items ≡ files_of size) }
{
    let mut files = Vec::new(alloc);
    files.push((Vec::from_slice(alloc, config_name())?, config_text(alloc)?))?;
    files.push((
        Vec::from_slice(alloc, b"paths.map")?,
        paths_text(alloc, size)?,
    ))?;
    files.push((
        Vec::from_slice(alloc, b"deny.lst")?,
        networks_text(alloc, size)?,
    ))?;
    files.push((Vec::from_slice(alloc, b"live.lst")?, live_text(alloc)?))?;
    Ok(files)
}

/// The configuration.
fn config_text(alloc: Global) -> Result<Vec<u8>, NoMemory>
    ensures { IfOk result (λ text. text.items ≡ config_text) }
{
    let mut text = Vec::new(alloc);
    text.extend_from_slice(b"http-request deny if { src -f deny.lst }\n")?;
    text.extend_from_slice(b"http-request set-var(txn.b) path,map_beg(paths.map,none)\n")?;
    text.extend_from_slice(b"use_backend %[var(txn.b)] if { var(txn.b) -m str -f live.lst }\n")?;
    text.extend_from_slice(b"default_backend rest\n")?;
    Ok(text)
}

/// The map: for each number a path and a backend.
#[tactic(auto, using(crate::proofs::NumberLemmas::next_is, crate::proofs::NumberLemmas::one_more))]
fn paths_text(alloc: Global, size: u64) -> Result<Vec<u8>, NoMemory>
    requires { IsSize size }
    ensures { IfOk result (λ text. text.items ≡ paths_text size) }
{
    let mut text = Vec::new(alloc);
    let mut x = size;
    for before in 0..size {
        x = next_number(x);
        text.extend_from_slice(entry_line(alloc, size, before + 1, x)?.as_bytes())?;
    }
    Ok(text)
}

/// The list of those that are denied: for each number a network.
#[tactic(auto, using(crate::proofs::NumberLemmas::next_is, crate::proofs::NumberLemmas::one_more))]
fn networks_text(alloc: Global, size: u64) -> Result<Vec<u8>, NoMemory>
    requires { IsSize size }
    ensures { IfOk result (λ text. text.items ≡ networks_text size) }
{
    let mut text = Vec::new(alloc);
    let mut x = size;
    for before in 0..size {
        x = next_number(x);
        text.extend_from_slice(network_line(alloc, size, before + 1, x)?.as_bytes())?;
    }
    Ok(text)
}

/// The list of the backends that are alive.
fn live_text(alloc: Global) -> Result<Vec<u8>, NoMemory>
    ensures { IfOk result (λ text. text.items ≡ live_text) }
{
    Ok(Vec::from_slice(alloc, b"b0\nb1\nb2\nb3\nb4\nb5\nb6\nb7\n")?)
}
