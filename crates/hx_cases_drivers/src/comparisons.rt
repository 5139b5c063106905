//! What a driver finds when it compares.

/// How many comparisons a driver has made, and how many of them found a difference.
#[derive(Drop)]
pub struct Comparisons {
    made: usize,
    differing: usize,
}

impl Comparisons {
    pub fn new() -> Comparisons {
        Comparisons {
            made: 0,
            differing: 0,
        }
    }

    /// Counts one comparison, and whether it found what the list says.
    pub fn note(&mut self, holds: bool) {
        self.made = self.made.wrapping_add(1);
        if !holds {
            self.differing = self.differing.wrapping_add(1);
        }
    }

    /// How many were made.
    pub fn made(&self) -> usize {
        self.made
    }

    /// How many found a difference.
    pub fn differing(&self) -> usize {
        self.differing
    }
}
