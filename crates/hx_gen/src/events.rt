ghost use Rattle.std.specs.Prelude.{◌≡◌, IfOk};
ghost use Rattle.std.specs.String.{string_bytes};
ghost use Rattle.hx_gen.specs.Record.{addition, close_event, deletion, open_event, request_event};

use crate::entries::{address_text, entry_text};
use std::alloc::{AllocError, Global};

/// That the connection with the number `k` is opened, from the address that `y` gives.
#[tactic(auto, unfolding(crate::specs::Record::open_event))]
pub(crate) fn open_event(alloc: Global, k: u64, y: u64) -> Result<String, AllocError>
    ensures { IfOk result (λ text. string_bytes text ≡ open_event k y) }
{
    let address = address_text(alloc, y)?;
    format!(in alloc; "conn {k} {address} 1000 192.0.2.1 80\n")
}

/// A request on the connection with the number `k`, for a path below the one of this number.
#[tactic(auto, unfolding(crate::specs::Record::request_event))]
pub(crate) fn request_event(alloc: Global, k: u64, path: u64) -> Result<String, AllocError>
    ensures { IfOk result (λ text. string_bytes text ≡ request_event k path) }
{
    let head = format!(in alloc; "GET /{path}/q HTTP/1.1\r\nhost: h\r\n\r\n")?;
    let len = head.len();
    format!(in alloc; "req {k} {len}\n{head}\n")
}

/// That the connection with the number `k` is closed.
#[tactic(auto, unfolding(crate::specs::Record::close_event))]
pub(crate) fn close_event(alloc: Global, k: u64) -> Result<String, AllocError>
    ensures { IfOk result (λ text. string_bytes text ≡ close_event k) }
{
    format!(in alloc; "close {k}\n")
}

/// The command that deletes the entries of a path.
#[tactic(auto, unfolding(crate::specs::Record::deletion))]
pub(crate) fn deletion(alloc: Global, path: u64) -> Result<String, AllocError>
    ensures { IfOk result (λ text. string_bytes text ≡ deletion path) }
{
    format!(in alloc; "cli 1 del map paths.map /{path}\n")
}

/// The command that adds an entry: a path, with the backend that `k` chooses.
#[tactic(auto, unfolding(crate::specs::Record::addition))]
pub(crate) fn addition(alloc: Global, path: u64, k: u64) -> Result<String, AllocError>
    ensures { IfOk result (λ text. string_bytes text ≡ addition path k) }
{
    let entry = entry_text(alloc, path, k)?;
    format!(in alloc; "cli 1 add map paths.map {entry}\n")
}
