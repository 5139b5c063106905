/// What a word names a reference for.
#[derive(Clone, Copy, PartialEq, Eq)]
pub enum Side {
    /// As a list that an ACL uses.
    Acl,
    /// The same, for entries that are to be added to it.
    AclWrite,
    /// As a map.
    Map,
}
