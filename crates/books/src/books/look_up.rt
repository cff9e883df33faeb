//! A look-up.

ghost use Rattle.books.specs.Looking.{AnswersLookUp};

use super::Books;
use book_facts::look_up;
use book_states::{Found, Lookup, has_failed};
use office_rules::{Moment, Refusal};
use sqlite::Alter;
use sts_token::BlockTransform;

impl<S: Alter, T: BlockTransform> Books<S, T> {
    /// What the office has of what is looked up, at a moment. Its health is told without a read.
    ///
    /// # Errors
    /// `NoMeter`, `NoSale`, `NoSuchShift`; of a quote those of a new sale, but for its shift;
    /// `Memory`; `Stopped`; and `Store`, after which the books are stopped too. It puts nothing in
    /// doubt.
    pub fn look_up(&mut self, moment: Moment, lookup: &Lookup) -> Result<Found, Refusal>
        ensures { AnswersLookUp moment lookup.now result self.old self.new }
    {
        if self.stopped {
            return Err(Refusal::Stopped);
        }
        let health = self.health();
        let found = look_up(self.alloc, &mut self.conn, moment, &health, lookup);
        self.stopped = has_failed(&found);
        found
    }
}
