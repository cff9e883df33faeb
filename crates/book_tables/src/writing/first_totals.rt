//! The statements that put a row of the running totals in, where none of its key is.

ghost use Rattle.std.specs.Prelude.{List, refl};
ghost use Rattle.one_table.specs.InTransaction.{WorksInside};
ghost use Rattle.book_tables.specs.row.Rows.{Rows};
ghost use Rattle.book_tables.specs.writing.Putting.{AreAnyIds, FitMonths, FitShifts, PutsLastId};
ghost use Rattle.book_tables.specs.writing.Putting.{PutsMonth, PutsNext, PutsTotals, with_last_ids};
ghost use Rattle.book_tables.specs.writing.Putting.{with_month_tenths, with_shift_totals};
ghost use Rattle.book_tables.specs.writing.Writes.{Write, new_last_id, new_month, new_totals};
ghost use Rattle.book_tables.specs.writing.Writing.{WritesTables};

use crate::error::TableError;
use crate::row::totals::Totals;
use crate::row::values::{last_id_values, month_total_values, shift_total_values};
use crate::texts::{NEW_LAST_ID, NEW_MONTH_TENTHS, NEW_SHIFT_TOTALS};
use crate::writing::store::put;
use office_rules::MeterNo;
use sqlite::{Alter, Transaction};
use sts_fields::Base;

/// A row of a table of running totals, with its key.
pub(crate) trait TotalRow: Sized {
    // All rows with these in its table, and what is asked of these.
    ghost in_table: { List Self → Rows → Rows };

    ghost are: { List Self → Type 0 };

    // The write that puts one in.
    ghost puts: { Self → Write → Type 0 };

    /// Puts the row in.
    ///
    /// # Errors
    /// `TableError::Database` if there is a row of that key, there is no memory, or the disk fails.
    fn put<S: Alter>(&self, tx: &mut Transaction<'_, S>) -> Result<(), TableError>
        ensures writes { WorksInside S.Store tx result (λ old new. (w : Write) × puts self.now w
            × WritesTables w (PutsNext in_table are self.now) old new result) };

    // There is such a write.
    ghost has_write: { (row : Self) → (w : Write) × puts row w };
}

impl TotalRow for ((MeterNo, Base), u32) {
    ghost in_table = { with_last_ids };

    ghost are = { AreAnyIds };

    ghost puts = { PutsLastId };

    ghost has_write = { λ row. (new_last_id row, refl) };

    fn put<S: Alter>(&self, tx: &mut Transaction<'_, S>) -> Result<(), TableError> {
        put(
            tx,
            NEW_LAST_ID,
            &last_id_values(&self.0.0, self.0.1, self.1),
        )
    }
}

impl TotalRow for ((MeterNo, u32), u64) {
    ghost in_table = { with_month_tenths };

    ghost are = { FitMonths };

    ghost puts = { PutsMonth };

    ghost has_write = { λ row. (new_month row, λ small. refl) };

    fn put<S: Alter>(&self, tx: &mut Transaction<'_, S>) -> Result<(), TableError> {
        put(
            tx,
            NEW_MONTH_TENTHS,
            &month_total_values(&self.0.0, self.0.1, self.1),
        )
    }
}

impl TotalRow for (u32, Totals) {
    ghost in_table = { with_shift_totals };

    ghost are = { FitShifts };

    ghost puts = { PutsTotals };

    ghost has_write = { λ row. (new_totals row, λ room. refl) };

    fn put<S: Alter>(&self, tx: &mut Transaction<'_, S>) -> Result<(), TableError> {
        put(tx, NEW_SHIFT_TOTALS, &shift_total_values(self.0, &self.1))
    }
}
