ghost use Rattle.std.specs.Prelude.{◌≡◌};
ghost use Rattle.hx_sample.specs.Tables.{entry_of};
ghost use Rattle.hx_versions.specs.StoredEntries.{entry_links, stored_entry, IsSameStoredEntry};

use crate::kept_text::KeptText;
use crate::node_numbers::NodeNumbers;
use hx_pool::{Linked, Links};
use hx_sample::Hit;

/// An entry in a slot of memory: its number, its key and its value; the number of the slot of its
/// version; the numbers of the nodes that keep its key, one for each index of the version; and the
/// entries before and after it.
pub(crate) struct StoredEntry {
    pub(crate) number: u64,
    pub(crate) key: KeptText,
    pub(crate) value: KeptText,
    pub(crate) version: usize,
    pub(crate) nodes: NodeNumbers,
    pub(crate) links: Links,
}

// Written out, so that letting one go is one call in the proofs of callers.
impl Drop for StoredEntry {
    fn drop(self) {
        let StoredEntry {
            number: _number,
            key: _key,
            value: _value,
            version: _version,
            nodes: _nodes,
            links: _links,
        } = self;
    }
}

impl StoredEntry {
    /// The entry, lent.
    pub(crate) fn hit(&self) -> Hit<'_>
        ensures { entry_of result ≡ stored_entry self.now }
    {
        Hit {
            number: self.number,
            key: self.key.as_slice(),
            value: self.value.as_slice(),
        }
    }
}

impl Linked for StoredEntry {
    ghost use Rattle.hx_versions.specs.StoredEntries.{entry_links, IsSameStoredEntry, same_entry_self, same_entry_back, same_entry_on};

    ghost links_of = { entry_links };

    ghost same = { IsSameStoredEntry };

    fn links(&self) -> Links {
        self.links
    }

    fn set_links(&mut self, links: Links) {
        self.links = links;
    }

    ghost same_self = { same_entry_self };

    ghost same_back = { same_entry_back };

    ghost same_on = { same_entry_on };
}
