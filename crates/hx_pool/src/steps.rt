ghost use Rattle.std.specs.Prelude.{◌≡◌, ◌<◌, ◌+◌};

use std::marker::Model;
use std::sync::ledger::{Blank, Book, Ledger, Share};

/// A counter of steps of work in the ledger `L`. Contracts see it as the number of steps so far. It
/// takes no bytes when the program runs.
#[derive(Drop)]
pub struct Steps<L: Ledger> {
    book: Book<L>,
    share: Share<L>,
}

impl<L: Ledger> Model for Steps<L> {
    ghost use Rattle.std.specs.Prelude.{ℕ, ◌<◌};

    ghost Value = { ℕ };

    ghost view = { λ steps. steps.book.total };

    ghost invariant = { λ steps. 0 < steps.share.parts };
}

impl<L: Ledger> Steps<L> {
    /// A counter in the ledger that `blank` is for. No step is counted yet.
    pub fn open(blank: Blank) -> Steps<L>
        requires name { blank.name ≡ L.name }
        requires parts { blank.parts ≡ L.parts }
        requires some { 0 < L.parts }
        ensures { result ≡ 0 }
    {
        let (book, share) = blank.open::<L>();
        Steps { book, share }
    }

    /// Counts one step.
    pub fn tick(&mut self)
        ensures { self.new ≡ self.old + 1 }
    {
        self.book.add(&mut self.share, 1);
    }
}
