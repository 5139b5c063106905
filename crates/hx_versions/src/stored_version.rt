ghost use Rattle.hx_versions.specs.StoredVersions.{version_links, IsSameStoredVersion};

use crate::content::Content;
use hx_pool::{Linked, Links};

/// Whose version it is: that of the reference at a position, or of none any more, since it waits
/// for its slots to be given back.
#[derive(Clone, Copy, PartialEq, Eq)]
pub(crate) enum Owner {
    Reference(u32),
    Retired,
}

/// A version in a slot of memory: its owner, its number, the serial number of the entry that was
/// added last, its content, and the versions before and after it.
pub(crate) struct StoredVersion {
    pub(crate) owner: Owner,
    pub(crate) number: u32,
    pub(crate) serial: u32,
    pub(crate) content: Content,
    pub(crate) links: Links,
}

// Written out, so that letting one go is one call in the proofs of callers.
impl Drop for StoredVersion {
    fn drop(self) {
        let StoredVersion {
            owner: _owner,
            number: _number,
            serial: _serial,
            content: _content,
            links: _links,
        } = self;
    }
}

impl Linked for StoredVersion {
    ghost use Rattle.hx_versions.specs.StoredVersions.{version_links, IsSameStoredVersion, same_version_self, same_version_back, same_version_on};

    ghost links_of = { version_links };

    ghost same = { IsSameStoredVersion };

    fn links(&self) -> Links {
        self.links
    }

    fn set_links(&mut self, links: Links) {
        self.links = links;
    }

    ghost same_self = { same_version_self };

    ghost same_back = { same_version_back };

    ghost same_on = { same_version_on };
}
