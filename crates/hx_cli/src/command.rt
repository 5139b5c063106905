use hx_text::Octets;

/// A command of the management socket (HAProxy management guide 2.4, section 9.3). `map` says
/// whether it is about maps or about lists of patterns that ACLs use, `name` names the reference
/// by its file or its number, and `ver` is the number of a version, or none for that which is
/// searched.
#[derive(Drop, PartialEq, Eq)]
pub enum Command {
    /// `show acl`, `show map`: all references.
    ShowAll {
        map: bool,
    },
    /// `show acl [@VER] NAME`: the entries of a version.
    Show {
        map: bool,
        ver: Option<u32>,
        name: Octets,
    },
    /// `get acl NAME VALUE`: what each use of the reference finds for a text.
    Get {
        map: bool,
        name: Octets,
        value: Octets,
    },
    /// `add acl [@VER] NAME KEY`, `add map [@VER] NAME KEY VALUE`: one more entry. A list of
    /// patterns has no values, so `value` is empty there.
    Add {
        map: bool,
        ver: Option<u32>,
        name: Octets,
        key: Octets,
        value: Octets,
    },
    /// `add acl [@VER] NAME <<`: the lines that follow are entries, up to an empty one.
    AddMany {
        map: bool,
        ver: Option<u32>,
        name: Octets,
    },
    /// `del acl [@VER] NAME KEY`: the entries of a version with a key, or the one of a number, are
    /// removed. That a version can be named here and with `set` is hxeval's own.
    Del {
        map: bool,
        ver: Option<u32>,
        name: Octets,
        key: Octets,
    },
    /// `set map [@VER] NAME KEY VALUE`: the same get a value.
    Set {
        ver: Option<u32>,
        name: Octets,
        key: Octets,
        value: Octets,
    },
    /// `clear acl [@VER] NAME`: all entries of a version are removed.
    Clear {
        map: bool,
        ver: Option<u32>,
        name: Octets,
    },
    /// `prepare acl NAME`: one version more, without entries.
    Prepare {
        map: bool,
        name: Octets,
    },
    /// `commit acl @VER NAME`: a version becomes that which is searched.
    Commit {
        map: bool,
        ver: u32,
        name: Octets,
    },
}
