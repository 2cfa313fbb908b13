//! Work, counted.
ghost use Rattle.std.specs.Prelude.{◌≡◌, ◌+◌, ◌<◌};

use std::marker::Model;
use std::sync::ledger::{Blank, Book, Ledger, Share};

/// How much work was done, in units of fuel. It takes no bytes, and only `rise` changes it, so that
/// contracts can bound work at no cost.
#[derive(Drop)]
pub struct Steps<C: Ledger> {
    book: Book<C>,
    share: Share<C>,
}

impl<C: Ledger> Model for Steps<C> {
    ghost use Rattle.std.specs.Prelude.{ℕ, ◌<◌};

    ghost Value = { ℕ };

    ghost view = { λ s. s.book.total };

    ghost invariant = { λ s. 0 < s.share.parts };
}

impl<C: Ledger> Steps<C> {
    /// No work yet, over a new ledger.
    pub fn new(blank: Blank) -> Steps<C>
        requires name { blank.name ≡ C.name }
        requires parts { blank.parts ≡ C.parts }
        requires some { 0 < C.parts }
        ensures { result ≡ 0 }
    {
        let (book, share) = blank.open();
        Steps { book, share }
    }

    /// So many more units of work.
    pub fn rise(&mut self, units: u64)
        ensures { self.new ≡ self.old + units }
    {
        self.book.add(&mut self.share, units);
    }
}
