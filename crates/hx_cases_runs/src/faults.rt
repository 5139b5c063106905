/// The number of a call that is never made, and a number of bytes that no record has.
pub const NEVER: u64 = u64::MAX;

/// What goes wrong in a run: where the record is cut, and the numbers of the calls that fail.
#[derive(Clone, Copy)]
pub struct Faults {
    pub cut: u64,
    pub open: u64,
    pub read: u64,
    pub write: u64,
    pub large: u64,
}

/// Nothing goes wrong.
pub const NO_FAULTS: Faults = Faults {
    cut: NEVER,
    open: NEVER,
    read: NEVER,
    write: NEVER,
    large: NEVER,
};

impl Faults {
    /// Sets the number of the fault that a word names, and answers whether it names one.
    pub fn set(&mut self, word: &[u8], number: u64) -> bool {
        match word {
            b"cut" => self.cut = number,
            b"open" => self.open = number,
            b"read" => self.read = number,
            b"write" => self.write = number,
            b"large" => self.large = number,
            _ => return false,
        }
        true
    }
}
