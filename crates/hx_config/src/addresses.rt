ghost use Rattle.std.specs.Prelude.{◌≡◌, ◌++◌, option_map, IfOk, OnOk};
ghost use Rattle.std.specs.Option.{option_copied};
ghost use Rattle.hx_config.specs.Addresses.{address_condition, address_rule, address_words};
ghost use Rattle.hx_config.specs.Addresses.{are_address_options, found_test, network_test};

use crate::options::{OptionRow, after_options, value_of};
use crate::table::value_at;
use crate::words::{push, push_joined};
use hx_text::{NoMemory, Octets};
use std::alloc::Global;

/// Options by which a proxy adds an address to the head, each with its header.
pub(crate) const HEADERS: [(&[u8], &[u8]); 2] = [
    (b"forwardfor", b"X-Forwarded-For"),
    (b"originalto", b"X-Original-To"),
];

/// The same with the fetch of the address.
pub(crate) const FETCHES: [(&[u8], &[u8]); 2] = [(b"forwardfor", b"src"), (b"originalto", b"dst")];

/// The options of these, with a letter for each argument.
pub(crate) const ADDRESS_OPTIONS: [OptionRow; 3] = [
    (b"except", b"n"),
    (b"header", b"n"),
    (b"if-none", b""),
];

/// The rule that adds the address, where the words are those of such an option.
pub(crate) fn address_words(
    alloc: Global,
    words: &[Octets],
) -> Result<Option<Vec<Octets>>, NoMemory>
    ensures { IfOk result
        (λ found. option_map (λ rule. rule.items) found ≡ address_words words.now) }
{
    let [keyword, option, others @ ..] = words else {
        return Ok(None);
    };
    if keyword.as_slice() != b"option".as_slice() || !are_address_options(others) {
        return Ok(None);
    }
    let Some(header) = value_at(&HEADERS, option.as_slice()) else {
        return Ok(None);
    };
    match value_at(&FETCHES, option.as_slice()) {
        Some(fetch) => Ok(Some(address_rule(alloc, header, fetch, others)?)),
        None => Ok(None),
    }
}

/// Whether the words are options of such an option, and no others.
fn are_address_options(words: &[Octets]) -> bool
    ensures { result ≡ are_address_options words.now }
{
    match after_options(&ADDRESS_OPTIONS, words) {
        Some(rest) => rest.is_empty(),
        None => false,
    }
}

/// The rule of an option with this header and this fetch.
fn address_rule(
    alloc: Global,
    header: &[u8],
    fetch: &[u8],
    options: &[Octets],
) -> Result<Vec<Octets>, NoMemory>
    ensures { IfOk result
        (λ rule. rule.items ≡ address_rule header.now fetch.now options.now) }
{
    let name = value_of(&ADDRESS_OPTIONS, b"header", options).unwrap_or(header);
    let mut out = Vec::new(alloc);
    push(alloc, &mut out, b"http-request")?;
    push(alloc, &mut out, b"add-header")?;
    push(alloc, &mut out, name)?;
    push_joined(alloc, &mut out, b"%[", fetch, b"]")?;
    let is_kept = value_of(&ADDRESS_OPTIONS, b"if-none", options).is_some();
    let except = value_of(&ADDRESS_OPTIONS, b"except", options);
    push_condition(alloc, &mut out, is_kept, name, fetch, except)?;
    Ok(out)
}

/// Appends the condition of the rule.
fn push_condition(
    alloc: Global,
    out: &mut Vec<Octets>,
    is_kept: bool,
    header: &[u8],
    fetch: &[u8],
    except: Option<&[u8]>,
) -> Result<(), NoMemory>
    ensures { OnOk result (out.new.items ≡ out.old.items
        ++ address_condition is_kept header.now fetch.now (option_copied except.entry)) }
{
    match except {
        None if !is_kept => Ok(()),
        None => {
            push(alloc, out, b"unless")?;
            push_found_test(alloc, out, header)
        }
        Some(network) if !is_kept => {
            push(alloc, out, b"unless")?;
            push_network_test(alloc, out, fetch, network)
        }
        Some(network) => {
            push(alloc, out, b"unless")?;
            push_found_test(alloc, out, header)?;
            push(alloc, out, b"or")?;
            push_network_test(alloc, out, fetch, network)
        }
    }
}

/// Appends the test that a header is there.
fn push_found_test(alloc: Global, out: &mut Vec<Octets>, header: &[u8]) -> Result<(), NoMemory>
    ensures { OnOk result (out.new.items ≡ out.old.items ++ found_test header.now) }
{
    push(alloc, out, b"{")?;
    push_joined(alloc, out, b"req.hdr(", header, b")")?;
    push(alloc, out, b"-m")?;
    push(alloc, out, b"found")?;
    push(alloc, out, b"}")
}

/// Appends the test that an address is in a network.
fn push_network_test(
    alloc: Global,
    out: &mut Vec<Octets>,
    fetch: &[u8],
    network: &[u8],
) -> Result<(), NoMemory>
    ensures { OnOk result (out.new.items ≡ out.old.items ++ network_test fetch.now network.now) }
{
    push(alloc, out, b"{")?;
    push(alloc, out, fetch)?;
    push(alloc, out, network)?;
    push(alloc, out, b"}")
}
