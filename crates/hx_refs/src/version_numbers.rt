//! Numbers of versions wrap: the one after 2^32 - 1 is 0.
ghost use Rattle.std.specs.Prelude.{◌≡◌};
ghost use Rattle.hx_refs.specs.VersionNumbers.{ahead, number_ahead};

/// How far a number is ahead of another.
#[tactic(auto, unfolding(crate::specs::VersionNumbers::ahead))]
pub(crate) fn ahead(from: u32, number: u32) -> u32
    ensures { result ≡ ahead from number }
{
    if from <= number {
        number - from
    } else {
        u32::MAX - from + number + 1
    }
}

/// The number that is so far ahead of another.
#[tactic(auto, unfolding(crate::specs::VersionNumbers::number_ahead))]
pub(crate) fn number_ahead(from: u32, distance: u32) -> u32
    ensures { result ≡ number_ahead from distance }
{
    let left = u32::MAX - from;
    if distance <= left {
        from + distance
    } else {
        distance - left - 1
    }
}
