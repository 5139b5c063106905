ghost use Rattle.std.specs.Prelude.{◌≡◌, IfOk};
ghost use Rattle.std.specs.String.{string_bytes};
ghost use Rattle.hx_gen.specs.Files.{address_text, entry_line, entry_text, network_line};
ghost use Rattle.hx_gen.specs.Numbers.{random_number};
ghost use Rattle.hx_gen.specs.Sizes.{IsSize};

use std::alloc::{AllocError, Global};

/// The address in 10.0.0.0/8 whose last three bytes are the lowest 24 bits of `x`.
pub(crate) fn address_text(alloc: Global, x: u64) -> Result<String, AllocError>
    ensures { IfOk result (λ text. string_bytes text ≡ address_text x) }
{
    let a = x / 65_536 % 256;
    let b = x / 256 % 256;
    let c = x % 256;
    format!(in alloc; "10.{a}.{b}.{c}")
}

/// An entry of the map: a path, and the backend that `k` chooses.
pub(crate) fn entry_text(alloc: Global, path: u64, k: u64) -> Result<String, AllocError>
    ensures { IfOk result (λ text. string_bytes text ≡ entry_text path k) }
{
    let backend = k % 16;
    format!(in alloc; "/{path} b{backend}")
}

/// The line of the map with the number `k`, where `x` is the number of its path.
#[tactic(auto, unfolding(crate::specs::Files::entry_line))]
pub(crate) fn entry_line(alloc: Global, size: u64, k: u64, x: u64) -> Result<String, AllocError>
    requires size { IsSize size }
    requires x { x ≡ random_number size k }
    ensures { IfOk result (λ text. string_bytes text ≡ entry_line size k) }
{
    let entry = entry_text(alloc, x % size, k)?;
    format!(in alloc; "{entry}\n")
}

/// The line of the list of networks with the number `k`, where `x` is the number of its address.
#[tactic(auto, unfolding(crate::specs::Files::network_line))]
pub(crate) fn network_line(alloc: Global, size: u64, k: u64, x: u64) -> Result<String, AllocError>
    requires { x ≡ random_number size k }
    ensures { IfOk result (λ text. string_bytes text ≡ network_line size k) }
{
    let address = address_text(alloc, x)?;
    let width = 24 + k % 9;
    format!(in alloc; "{address}/{width}\n")
}
