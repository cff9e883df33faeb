//! The sales, a page at a time, and the number of the next one.

ghost use Rattle.std.specs.Prelude.{◌≡◌, ◌≤◌, ◌+◌, IfOk, false, length};
ghost use Rattle.vend_core.specs.Law.Life.{MayLeave, present};
ghost use Rattle.office_rules.specs.Office.{Office};
ghost use Rattle.office_rules.specs.Law.Store.{sales_above};
ghost use Rattle.book_tables.specs.reading.Questions.{the_sales_after};
ghost use Rattle.book_tables.specs.reading.Seen.{HasSpoilt, ShowsAll};
ghost use Rattle.books.specs.Keeps.{IsNextOrOneBefore, OfEachLife, UnlessStopped};
ghost use Rattle.books.specs.Reads.{ReadsOfLife};

use super::Books;
use book_facts::page;
use book_states::has_failed;
use office_rules::{Refusal, Sale};
use sqlite::Alter;
use sts_token::BlockTransform;

impl<S: Alter, T: BlockTransform> Books<S, T> {
    /// A page: the first sales above a number, by number, at most so many (1 to 1000).
    ///
    /// # Errors
    /// `Memory`; `Stopped`; and `Store`, after which the books are stopped too. It puts nothing in
    /// doubt.
    pub fn sales_after(&mut self, number: u32, limit: u32) -> Result<Vec<Sale>, Refusal>
        requires some { 1 ≤ limit }
        requires few { limit ≤ 1000 }
        ensures { UnlessStopped (ReadsOfLife (λ life. IfOk result (λ sales.
            sales.items ≡ sales_above (present life) number limit)) (λ why. ⊥) (λ db given.
            IfOk given (λ sales. ShowsAll (the_sales_after number limit) db sales.items))
            (HasSpoilt (the_sales_after number limit)) result) self.old self.new }
    {
        if self.stopped {
            return Err(Refusal::Stopped);
        }
        let sales = page(self.alloc, &mut self.conn, number, limit);
        self.stopped = has_failed(&sales);
        sales
    }

    /// The number of the next sale: how many there are, plus 1.
    ///
    /// After a failure of the store it may be too small by one.
    pub fn next_number(&self) -> u64
        ensures exact { OfEachLife self.now (λ life.
            self.now.stopped ≡ false → result ≡ length (present life).sales + 1) }
        ensures near { OfEachLife self.now (λ life.
            (o : Office) → MayLeave life o → IsNextOrOneBefore o result) }
    {
        self.next_number
    }
}
