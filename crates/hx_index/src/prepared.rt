ghost use Rattle.std.specs.Prelude.{◌≡◌, ◌≢◌, ◌^◌, ◌≤◌, [], Some, IfErr, IfOk, OnOk, if◌then◌else◌, length};
ghost use Rattle.std.specs.Option.{ForSome};
ghost use Rattle.std.specs.Int.{w32, w128, to_be_bytes};
ghost use Rattle.hx_ebtree.specs.Bits.{bits_of};
ghost use Rattle.hx_match.specs.Patterns.{text_fault, AsksMaker, MayCome, PatternCountsLarge};
ghost use Rattle.hx_index.specs.Parts.{IsKeyText, network_bits, pattern_key, text_bits};
ghost use Rattle.hx_index.specs.Search.{HasWidth};

use hx_ebtree::BitKey;
use hx_match::{Pattern, parse};
use hx_outside::{PatFault, ReMaker};
use hx_text::{By, Ip, Net, NoMemory};
use std::alloc::Global;
use std::marker::Model;

/// The longest text whose bits can be counted.
pub(crate) const LONGEST: usize = 1_152_921_504_606_846_976;

/// A pattern with its key, ready to be put into an index. Contracts see it as the pattern.
#[derive(Drop)]
pub struct Prepared {
    pub(crate) key: BitKey,
    pub(crate) pattern: Pattern,
}

impl Model for Prepared {
    ghost use Rattle.hx_match.specs.Patterns.{PatternText};

    ghost Value = { PatternText };

    ghost use Rattle.hx_index.specs.Parts.{IsPrepared};

    ghost view = { λ prepared. prepared.pattern };

    ghost invariant = { λ prepared. IsPrepared prepared.key prepared.pattern };
}

/// The text as a pattern of the method and the case, with the key under which an index keeps it.
/// It is refused as `hx_match::parse` refuses it, and with `NoMemory` where memory runs out. The
/// caller knows that `by` takes patterns: it is neither `Found` nor `Bool`.
pub fn prepare<M: ReMaker>(
    alloc: Global,
    by: By,
    ci: bool,
    text: &[u8],
    maker: &mut M,
) -> Result<Prepared, PatFault>
    requires found { by ≢ By.Found }
    requires bool { by ≢ By.Bool }
    ensures prepared { IfOk result (λ prepared.
        prepared ≡ record { by = by; ci = ci; text = text.now }) }
    ensures read { OnOk result (text_fault by ci text.now ≡ None) }
    ensures refused { IfErr result
        (MayCome (text_fault by ci text.now) (AsksMaker by text.now)) }
    ensures large { PatternCountsLarge result (record { text = text.now; ci = ci })
        (M.state maker.old) (M.state maker.new) }
{
    let pattern = parse(alloc, by, ci, text, maker)?;
    match pattern_key(alloc, by, ci, text, &pattern) {
        Ok(key) => Ok(Prepared { key, pattern }),
        Err(NoMemory) => Err(PatFault::NoMemory),
    }
}

/// The key of a pattern of the method and the case, of this text.
fn pattern_key(
    alloc: Global,
    by: By,
    ci: bool,
    text: &[u8],
    pattern: &Pattern,
) -> Result<BitKey, NoMemory>
    requires { pattern.now ≡ record { by = by; ci = ci; text = text.now } }
    ensures key { IfOk result (λ key. key ≡ pattern_key pattern.now) }
    ensures text { OnOk result (IsKeyText text.now) }
{
    if text.len() > LONGEST {
        return Err(NoMemory);
    }
    match by {
        By::Str => text_key(alloc, ci, text),
        By::Beg => text_key(alloc, ci, text),
        By::Ip => network_key(alloc, pattern.network()),
        _ => no_key(alloc),
    }
}

/// The key of a text that is compared whole or from its beginning: none where case is ignored.
fn text_key(alloc: Global, ci: bool, text: &[u8]) -> Result<BitKey, NoMemory>
    requires { length text.now ≤ 2 ^ 60 }
    ensures { IfOk result (λ key. key ≡ (if ci then [] else text_bits text.now)) }
{
    if ci {
        no_key(alloc)
    } else {
        BitKey::new(alloc, text, 8 * text.len())
    }
}

/// The key of a network, or of none.
fn network_key(alloc: Global, net: Option<Net>) -> Result<BitKey, NoMemory>
    requires { ForSome net HasWidth }
    ensures { IfOk result (λ key. key ≡ network_bits net) }
{
    match net {
        Some(net) => net_key(alloc, net),
        None => no_key(alloc),
    }
}

fn net_key(alloc: Global, net: Net) -> Result<BitKey, NoMemory>
    requires { HasWidth net }
    ensures { IfOk result (λ key. key ≡ network_bits (Some net)) }
{
    match net {
        Net::Plain { ip, bits } => prefix_key(alloc, ip, bits),
        Net::Masked { ip: _, mask: _ } => no_key(alloc),
    }
}

fn prefix_key(alloc: Global, ip: Ip, bits: u32) -> Result<BitKey, NoMemory>
    requires { HasWidth (Net.Plain ip bits) }
    ensures { IfOk result (λ key. key ≡ network_bits (Some (Net.Plain ip bits))) }
{
    match ip {
        Ip::V4(network) => ipv4_key(alloc, network, bits),
        Ip::V6(network) => ipv6_key(alloc, network, bits),
    }
}

/// The first bits of an IPv4 address.
fn ipv4_key(alloc: Global, network: u32, bits: u32) -> Result<BitKey, NoMemory>
    requires { bits ≤ 32 }
    ensures { IfOk result (λ key. key ≡ bits_of (to_be_bytes w32 network) bits) }
{
    BitKey::new(alloc, network.to_be_bytes().as_slice(), bits as usize)
}

/// The first bits of an IPv6 address.
fn ipv6_key(alloc: Global, network: u128, bits: u32) -> Result<BitKey, NoMemory>
    requires { bits ≤ 128 }
    ensures { IfOk result (λ key. key ≡ bits_of (to_be_bytes w128 network) bits) }
{
    BitKey::new(alloc, network.to_be_bytes().as_slice(), bits as usize)
}

/// The key of a pattern that is listed.
fn no_key(alloc: Global) -> Result<BitKey, NoMemory>
    ensures { IfOk result (λ key. key ≡ []) }
{
    BitKey::new(alloc, b"".as_slice(), 0)
}
