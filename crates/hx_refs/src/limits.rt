ghost use Rattle.std.specs.Prelude.{◌≡◌};

/// How much references take: the entries of a version at one time, all additions to a version, and
/// the versions that are prepared after the one that is searched.
#[derive(Clone, Copy, PartialEq, Eq)]
pub struct Limits {
    pub entries: u32,
    pub adds: u32,
    pub versions: u32,
}

impl Limits {
    /// A million entries, four thousand million additions, and as many versions as their numbers of
    /// 32 bits allow.
    pub fn usual() -> Limits
        ensures { result
            ≡ record { entries = 1000000; adds = 4000000000; versions = 4294967295 } }
    {
        Limits {
            entries: 1_000_000,
            adds: 4_000_000_000,
            versions: u32::MAX,
        }
    }
}
