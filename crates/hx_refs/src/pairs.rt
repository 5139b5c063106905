ghost use Rattle.std.specs.Prelude.{◌≡◌, [], ◌∷◌, ◌++◌, length, IfOk, OnOk, OnErr};

use hx_text::NoMemory;
use hx_versions::KeptText;
use std::alloc::Global;
use std::marker::Model;

/// A key, and the value under it.
pub(crate) struct KeptPair {
    key: KeptText,
    value: KeptText,
}

// Written out, so that letting one go is one call in the proofs of callers.
impl Drop for KeptPair {
    fn drop(self) {
        let KeptPair {
            key: _key,
            value: _value,
        } = self;
    }
}

impl Model for KeptPair {
    ghost use Rattle.hx_refs.specs.Additions.{Pair};

    ghost Value = { Pair };

    ghost view = { λ pair. record { key = pair.key; value = pair.value } };
}

impl KeptPair {
    pub(crate) fn copy(alloc: Global, key: &[u8], value: &[u8]) -> Result<KeptPair, NoMemory>
        ensures { IfOk result (λ pair. pair ≡ record { key = key.now; value = value.now }) }
    {
        Ok(KeptPair {
            key: KeptText::copy(alloc, key)?,
            value: KeptText::copy(alloc, value)?,
        })
    }

    pub(crate) fn key(&self) -> &[u8]
        ensures { result.now ≡ self.now.key }
    {
        self.key.as_slice()
    }

    pub(crate) fn value(&self) -> &[u8]
        ensures { result.now ≡ self.now.value }
    {
        self.value.as_slice()
    }
}

/// Keys and values that are to be added at once. Contracts see them as their list.
pub struct Pairs {
    alloc: Global,
    pairs: Vec<KeptPair>,
}

// Written out, so that letting one go is one call in the proofs of callers.
impl Drop for Pairs {
    fn drop(self) {
        let Pairs {
            alloc: _alloc,
            pairs: _pairs,
        } = self;
    }
}

impl Model for Pairs {
    ghost use Rattle.std.specs.Prelude.{List};
    ghost use Rattle.hx_refs.specs.Additions.{Pair};

    ghost Value = { List Pair };

    ghost view = { λ pairs. pairs.pairs.items };
}

impl Pairs {
    /// No pairs. It takes no memory; those that are pushed later take it from `alloc`.
    pub fn new(alloc: Global) -> Pairs
        ensures { result ≡ [] }
    {
        Pairs {
            alloc,
            pairs: Vec::new(alloc),
        }
    }

    /// Appends copies of a key and the value under it. `NoMemory` where memory runs out; the list
    /// stays as it was then.
    pub fn push(&mut self, key: &[u8], value: &[u8]) -> Result<(), NoMemory>
        ensures ok { OnOk result
            (self.new ≡ self.old ++ record { key = key.now; value = value.now } ∷ []) }
        ensures err { OnErr result (self.new ≡ self.old) }
    {
        let pair = KeptPair::copy(self.alloc, key, value)?;
        self.pairs.push(pair)?;
        Ok(())
    }

    /// How many pairs there are.
    pub fn len(&self) -> usize
        ensures { result ≡ length self.now }
    {
        self.pairs.len()
    }

    pub(crate) fn as_slice(&self) -> &[KeptPair]
        ensures { result.now ≡ self.now }
    {
        self.pairs.as_slice()
    }
}
