/// How many slots of memory references have in use, and how many of these wait to be given back,
/// since no version needs them any more.
#[derive(Clone, Copy, PartialEq, Eq)]
pub struct Slots {
    pub used: u64,
    pub retired: u64,
}
