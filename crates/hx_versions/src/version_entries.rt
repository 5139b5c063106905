ghost use Rattle.std.specs.Prelude.{◌≡◌, ◌<◌, ℕ, List, [], Some};
ghost use Rattle.std.specs.Iterator.{YieldsFirstBy, item_count};
ghost use Rattle.hx_pool.specs.Pool.{get, IsLive};
ghost use Rattle.hx_sample.specs.Tables.{entry_of};
ghost use Rattle.hx_versions.specs.Contents.{content_entries, IsContent, PlacedEntry};
ghost use Rattle.hx_versions.specs.RestEntries.{IsRest};

use crate::content::Content;
use crate::stored_entry::StoredEntry;
use hx_index::Nodes;
use hx_pool::{Pool, Steps};
use hx_sample::Hit;
use std::marker::{Brand, Model};
use std::sync::ledger::{Blank, Ledger};

/// The entries of a version that are left to give. Contracts see it as their list.
#[derive(Drop)]
pub struct Entries<'a> {
    entries: &'a Pool<StoredEntry>,
    next: Option<usize>,
    left: u32,
}

impl<'a> Model for Entries<'a> {
    ghost use Rattle.std.specs.Prelude.{List};
    ghost use Rattle.hx_sample.specs.Find.{Entry};

    ghost Value = { List Entry };

    ghost use Rattle.hx_versions.specs.RestEntries.{rest_entries, IsRest};

    ghost view = { λ left. rest_entries left.entries.now left.next left.left };

    ghost invariant = { λ left. IsRest left.entries.now left.next left.left };
}

/// The entry in a slot, lent. Steps are counted in the ledger of `blank`.
fn entry_in<'a, L: Ledger>(
    entries: &'a Pool<StoredEntry>,
    slot: usize,
    blank: Blank,
) -> &'a StoredEntry
    requires live { IsLive entries.now slot }
    requires name { blank.name ≡ L.name }
    requires parts { blank.parts ≡ L.parts }
    requires some { 0 < L.parts }
    ensures { get entries.now slot ≡ Some result.now }
{
    let mut steps = Steps::<L>::open(blank);
    entries.get(slot, &mut steps)
}

impl<'a> Entries<'a> {
    /// No entries.
    pub(crate) fn none(entries: &'a Pool<StoredEntry>) -> Entries<'a>
        ensures { result ≡ [] }
    {
        Entries {
            entries,
            next: None,
            left: 0,
        }
    }

    /// The entries of a content.
    pub(crate) fn of_content(
        entries: &'a Pool<StoredEntry>,
        nodes: &Nodes,
        content: &Content,
    ) -> Entries<'a>
        requires { (version : ℕ) × (placed : List PlacedEntry)
            × IsContent entries.now nodes.now version content.now placed }
        ensures { result ≡ content_entries entries.now content.now }
    {
        let _ = nodes;
        Entries {
            entries,
            next: content.entries.front(),
            left: content.count,
        }
    }
}

impl<'a> Iterator for Entries<'a> {
    type Item = Hit<'a>;

    ghost next_gives = { YieldsFirstBy entry_of (λ left. left) };

    ghost remaining = { item_count (λ left. left) };

    fn next(&mut self) -> Option<Hit<'a>> {
        let Some(slot) = self.next else {
            return None;
        };
        let stored = entry_in::<Brand>(self.entries, slot, Blank::new(1));
        self.next = stored.links.next;
        self.left -= 1;
        Some(stored.hit())
    }
}
