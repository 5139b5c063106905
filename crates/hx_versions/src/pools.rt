use crate::stored_entry::StoredEntry;
use crate::stored_version::StoredVersion;
use hx_index::Nodes;
use hx_pool::{Chain, Pool};

/// The slots of all references: those of entries, of versions, and of the nodes that keep keys.
pub(crate) struct Pools {
    pub(crate) entries: Pool<StoredEntry>,
    pub(crate) versions: Pool<StoredVersion>,
    pub(crate) nodes: Nodes,
}

// Written out, so that letting one go is one call in the proofs of callers.
impl Drop for Pools {
    fn drop(self) {
        let Pools {
            entries: _entries,
            versions: _versions,
            nodes: _nodes,
        } = self;
    }
}

/// The versions of one reference that had additions, in the order of their numbers: the chain of
/// their slots, and how many they are. What it stands for is said together with the slots.
pub(crate) struct Row {
    pub(crate) versions: Chain,
    pub(crate) count: u32,
}

// Written out, so that letting one go is one call in the proofs of callers.
impl Drop for Row {
    fn drop(self) {
        let Row {
            versions: _versions,
            count: _count,
        } = self;
    }
}
