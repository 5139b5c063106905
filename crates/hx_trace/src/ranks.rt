ghost use Rattle.std.specs.Prelude.{◌≡◌, List};
ghost use Rattle.std.specs.Option.{option_map_or};
ghost use Rattle.hx_sample.specs.declared.sample.Value.{Value};
ghost use Rattle.hx_sample.specs.Find.{nearness, prefix_width, Entry, found_entry};
ghost use Rattle.hx_sample.specs.Seen.{value_of};
ghost use Rattle.hx_text.specs.Network.{net_of};
ghost use Rattle.hx_trace.specs.Ranks.{highest_entry, is_lower, rank_of};

use hx_sample::Sample;
use hx_text::{By, Ip, Net, read_net};

/// The rank of a key among those that hit a value: how near its network is, by which ranks are
/// compared first, and how long the key or the prefix of its network is.
#[derive(Clone, Copy)]
pub(crate) struct Rank {
    near: u8,
    long: usize,
}

/// The lowest rank, which keys have by methods that don't tell one from another.
const LOWEST: Rank = Rank { near: 0, long: 0 };

impl Rank {
    /// Whether the rank is lower than another.
    pub(crate) fn is_lower(self, other: Rank) -> bool
        ensures { result ≡ is_lower self other }
    {
        self.near < other.near || self.near == other.near && self.long < other.long
    }
}

/// How near a network of the address `network` is to the address `ip`.
fn nearness_of_prefix(ip: Ip, network: Ip, bits: u32) -> u8
    ensures { result ≡ nearness ip (Net.Plain network bits) }
{
    match ip {
        Ip::V4(_) => match network {
            Ip::V4(_) => 2,
            Ip::V6(_) => 1,
        },
        Ip::V6(_) => match network {
            Ip::V4(_) => 1,
            Ip::V6(_) => 2,
        },
    }
}

/// The rank of a network for an address.
fn network_rank(ip: Ip, net: Net) -> Rank
    ensures { result ≡ record { near = nearness ip net; long = prefix_width net } }
{
    match net {
        Net::Plain { ip: network, bits } => Rank {
            near: nearness_of_prefix(ip, network, bits),
            long: bits as usize,
        },
        Net::Masked { .. } => LOWEST,
    }
}

/// The rank of a key by `ip`.
fn address_rank(key: &[u8], ip: Ip) -> Rank
    ensures { result ≡ record {
      near = option_map_or (nearness ip) (net_of key.now) 0;
      long = option_map_or prefix_width (net_of key.now) 0;
    } }
{
    match read_net(key) {
        Some(net) => network_rank(ip, net),
        None => LOWEST,
    }
}

/// The rank of a key among those that hit the sample by the method `by`, where `ci` says whether
/// case is ignored.
pub(crate) fn rank_of(by: By, ci: bool, key: &[u8], sample: &Sample<'_>) -> Rank
    ensures { result ≡ rank_of by ci (value_of sample.now) key.now }
{
    match by {
        By::Beg => {
            if ci {
                LOWEST
            } else {
                Rank {
                    near: 0,
                    long: key.len(),
                }
            }
        }
        By::Ip => match sample {
            Sample::Ip(ip) => address_rank(key, *ip),
            _ => LOWEST,
        },
        _ => LOWEST,
    }
}

/// The entry that is found for a value is, of those whose keys hit it, the first of the highest
/// rank.
pub(crate) fn highest_rank_is_found(by: By, ci: bool)
    ensures { (entries : List Entry) (v : Value) →
        found_entry by ci entries v ≡ highest_entry by ci entries v }
{}
