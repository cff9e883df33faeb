//! The running totals of a shift.

ghost use Rattle.std.specs.Prelude.{◌≡◌};
ghost use Rattle.vend_core.specs.Law.Life.{present};
ghost use Rattle.books.specs.Keeps.{UnlessStopped};
ghost use Rattle.books.specs.Reads.{ReadsOfLife};
ghost use Rattle.book_facts.specs.Totals.{AreTotalsIn, AreTotalsSpoilt, GivesTotals};

use super::Books;
use book_facts::totals;
use book_states::has_failed;
use book_tables::Totals;
use office_rules::Refusal;
use sqlite::Alter;
use sts_token::BlockTransform;

impl<S: Alter, T: BlockTransform> Books<S, T> {
    /// The totals of the shift of a number (1 to 10^9): the count of its sales, and the sums of
    /// their tenths of a kWh and of their prices in cents. They are read in one row, and are zeros
    /// for a shift without sales.
    ///
    /// # Errors
    /// `NoSuchShift`; `Memory`; `Stopped`; and `Store`, after which the books are stopped too. It
    /// puts nothing in doubt.
    pub fn shift_totals(&mut self, number: u32) -> Result<Totals, Refusal>
        ensures { UnlessStopped (ReadsOfLife (λ life. AreTotalsIn (present life) number result)
            (λ why. why ≡ Refusal.NoSuchShift) (GivesTotals number) (AreTotalsSpoilt number) result)
            self.old self.new }
    {
        if self.stopped {
            return Err(Refusal::Stopped);
        }
        let totals = totals(&mut self.conn, number);
        self.stopped = has_failed(&totals);
        totals
    }
}
