//! The requests, one at a time.

ghost use Rattle.books.specs.Asking.{Replies};
ghost use Rattle.books.specs.Keeps.{UnlessStopped};

use super::Books;
use book_states::has_failed;
use office_rules::{Refusal, Reply, Stamped};
use sqlite::Alter;
use sts_token::BlockTransform;
use vend_core::life_law;

impl<S: Alter, T: BlockTransform> Books<S, T> {
    /// Serves a request: its answer, or why it is refused (`docs/OFFICE.md`).
    ///
    /// What the request changes is committed before the answer, in one commit. `Memory` leaves the
    /// office as it was. After `Store` the request is in doubt, and every request is answered
    /// `Stopped` until the office is opened again.
    pub fn serve(&mut self, at: &Stamped) -> Reply
        ensures { UnlessStopped (Replies at.now result) self.old self.new }
    {
        life_law();
        at.keeps_ranges();
        if self.stopped {
            return Err(Refusal::Stopped);
        }
        let reply = self.attempt(at);
        self.stopped = has_failed(&reply);
        reply
    }
}
