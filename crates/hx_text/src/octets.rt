ghost use Rattle.std.specs.Prelude.{◌≡◌, ◌++◌, IfOk, OnOk, OnErr};
ghost use Rattle.std.proofs.Common.{rules};
ghost use Rattle.std.specs.Cmp.{partial_order_from_own_ties};
ghost use Rattle.std.specs.Cmp.Lexicographic.{slice_cmp};
ghost use Rattle.std.specs.Cmp.Rules.{comparing};
ghost use Rattle.std.specs.Ordering.{nat_cmp, as_partial_cmp};
ghost use Rattle.std.specs.Str.{bytes_eq};

use crate::fault::NoMemory;
use std::alloc::Global;
use std::cmp::Ordering;
use std::marker::Model;

/// Owned bytes. Contracts see them as the list of their values, each from 0 to 255.
#[derive(Drop)]
pub struct Octets {
    bytes: Vec<u8>,
}

impl Model for Octets {
    ghost use Rattle.std.specs.Prelude.{List, ℕ};

    ghost Value = { List ℕ };

    ghost view = { λ octets. octets.bytes.items };
}

impl Octets {
    /// A copy of the bytes, in memory of `alloc`. `NoMemory` where memory runs out.
    pub fn copy(alloc: Global, bytes: &[u8]) -> Result<Octets, NoMemory>
        ensures { IfOk result (λ copied. copied ≡ bytes.now) }
    {
        Ok(Octets {
            bytes: Vec::from_slice(alloc, bytes)?,
        })
    }

    /// The bytes of a vector, which become these: nothing is copied, and no memory is taken.
    pub fn from_vec(bytes: Vec<u8>) -> Octets
        ensures { result ≡ bytes.items }
    {
        Octets { bytes }
    }

    /// The bytes as a vector, the way back from `from_vec`: no memory is taken.
    pub fn into_vec(self) -> Vec<u8>
        ensures { result.items ≡ self }
    {
        let Octets { bytes } = self;
        bytes
    }

    /// The bytes, lent.
    pub fn as_slice(&self) -> &[u8]
        ensures { result.now ≡ self.now }
    {
        self.bytes.as_slice()
    }

    /// Appends all of `bytes`, or none of them where memory runs out.
    pub fn push_all(&mut self, bytes: &[u8]) -> Result<(), NoMemory>
        ensures ok { OnOk result (self.new ≡ self.old ++ bytes.now) }
        ensures err { OnErr result (self.new ≡ self.old) }
    {
        self.bytes.extend_from_slice(bytes)?;
        Ok(())
    }
}

impl PartialEq for Octets {
    ghost eq = { bytes_eq };

    ghost laws = { Prim.search (comparing, rules) };

    /// Whether the bytes are the same.
    fn eq(&self, other: &Octets) -> bool {
        self.bytes.as_slice() == other.bytes.as_slice()
    }
}

impl Eq for Octets {
    ghost laws = { Prim.search (comparing, rules) };
}

impl Ord for Octets {
    ghost cmp = { slice_cmp nat_cmp };

    ghost total = { Prim.search (comparing, rules) };

    ghost matches_partial_cmp = { Prim.search (comparing, rules) };

    ghost matches_eq = { Prim.search (comparing, rules) };

    /// The order of the first bytes that differ; of two byte strings of which one begins with the
    /// other, the shorter is the lesser.
    fn cmp(&self, other: &Octets) -> Ordering {
        self.bytes.as_slice().cmp(other.bytes.as_slice())
    }
}

impl PartialOrd for Octets {
    ghost partial_cmp = { as_partial_cmp (slice_cmp nat_cmp) };

    ghost laws = { partial_order_from_own_ties
        (Prim.search (comparing, rules))
        (Prim.search (comparing, rules)) };

    fn partial_cmp(&self, other: &Octets) -> Option<Ordering> {
        Some(self.cmp(other))
    }
}
