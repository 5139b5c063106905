ghost use Rattle.std.specs.Prelude.{◌≡◌, if◌then◌else◌};
ghost use Rattle.hx_index.specs.declared.part.Part.TheVariants as part;
ghost use Rattle.hx_index.specs.Parts.{network_part, pattern_part};

use hx_match::Pattern;
use hx_text::{By, Ip, Net};

/// Where an index keeps a pattern: in its chain, in its tree of texts, or in its tree of networks
/// of IPv6 addresses.
#[derive(Clone, Copy, PartialEq, Eq)]
pub(crate) enum Part {
    Listed,
    Keyed,
    Wide,
}

/// The part that keeps a pattern of the method and the case.
pub(crate) fn pattern_part(by: By, ci: bool, pattern: &Pattern) -> Part
    requires method { pattern.now.by ≡ by }
    requires case { pattern.now.ci ≡ ci }
    ensures { result ≡ pattern_part pattern.now }
{
    match by {
        By::Str => text_part(ci),
        By::Beg => text_part(ci),
        By::Ip => network_part(pattern.network()),
        _ => Part::Listed,
    }
}

/// The part that keeps a text which is compared whole or from its beginning.
fn text_part(ci: bool) -> Part
    ensures { result ≡ (if ci then part.Listed else part.Keyed) }
{
    if ci { Part::Listed } else { Part::Keyed }
}

/// The part that keeps the pattern of a network, or of none.
fn network_part(net: Option<Net>) -> Part
    ensures { result ≡ network_part net }
{
    match net {
        Some(
            Net::Plain {
                ip: Ip::V4(_),
                bits: _,
            },
        ) => Part::Keyed,
        Some(
            Net::Plain {
                ip: Ip::V6(_),
                bits: _,
            },
        ) => Part::Wide,
        Some(Net::Masked { ip: _, mask: _ }) => Part::Listed,
        None => Part::Listed,
    }
}
