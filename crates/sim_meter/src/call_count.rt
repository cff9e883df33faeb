ghost use Rattle.std.specs.Prelude.{◌≡◌, ◌+◌, ◌<◌};

use std::marker::Model;
use std::sync::ledger::{Blank, Book, Ledger, Share};

// How often something was called, which contracts alone see: it takes no bytes and does nothing at
// run time. A number in memory would wrap at its bound; the total of a ledger has none.
#[derive(Drop)]
pub(crate) struct CallCount<L: Ledger> {
    book: Book<L>,
    share: Share<L>,
}

impl<L: Ledger> Model for CallCount<L> {
    ghost use Rattle.std.specs.Prelude.{ℕ, ◌<◌};

    ghost Value = { ℕ };

    ghost view = { λ c. c.book.total };

    ghost invariant = { λ c. 0 < c.share.parts };
}

impl<L: Ledger> CallCount<L> {
    // No call yet.
    pub(crate) fn new(blank: Blank) -> CallCount<L>
        requires name { blank.name ≡ L.name }
        requires parts { blank.parts ≡ L.parts }
        requires some { 0 < L.parts }
        ensures { result ≡ 0 }
    {
        let (book, share) = blank.open::<L>();
        CallCount { book, share }
    }

    // One more call.
    pub(crate) fn add_one(&mut self)
        ensures { self.new ≡ self.old + 1 }
    {
        self.book.add(&mut self.share, 1);
    }
}
