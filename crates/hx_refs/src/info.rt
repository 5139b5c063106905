/// What is told of a reference: its number, whether its entries have values, whether an ACL uses
/// it, the number of the version that is searched and that of the last one that was prepared, and
/// how many entries all versions have.
#[derive(Clone, Copy, Debug, PartialEq, Eq)]
pub struct RefInfo {
    pub id: u32,
    pub two_column: bool,
    pub acl: bool,
    pub curr: u32,
    pub next: u32,
    pub count: u64,
}
