//! The statement that lists shifts, by number.

ghost use Rattle.std.specs.Prelude.{◌≡◌, filter, nat_lt, take};
ghost use Rattle.one_table.specs.Over.{Over};
ghost use Rattle.book_tables.specs.Kept.{shifts_kept};
ghost use Rattle.book_tables.specs.reading.Reading.{ReadsTable, SaysOfTable};
ghost use Rattle.book_tables.specs.reading.Seen.{SeesAll};
ghost use Rattle.book_lists.specs.Pages.{page_size};
ghost use Rattle.book_lists.specs.Questions.{the_shifts_after};

use crate::texts::SHIFTS_AFTER;
use crate::values::number_values;
use book_tables::{TableError, all_records};
use office_rules::Shift;
use sqlite::{Alter, Connection};
use std::alloc::Global;

/// A page: the first shifts after a number, at most [`PAGE`](crate::PAGE).
///
/// # Errors
/// `TableError::Database` if the database refuses or fails, or memory runs out.
/// `TableError::RowOfNoOffice` if a row is outside its bounds (`docs/OFFICE.md`, "Bounds").
pub fn shifts_after<S: Alter>(
    alloc: Global,
    conn: &mut Connection<S>,
    number: u32,
) -> Result<Vec<Shift>, TableError>
    ensures given { Over S.Store conn (λ old new. SaysOfTable shifts_kept (λ rows found.
        found.items ≡ take page_size (filter (λ s. nat_lt number s.number) rows.shifts)) old new
        result) }
    ensures reads { Over S.Store conn (λ old new. ReadsTable shifts_kept old new result) }
    ensures sees { Over S.Store conn (λ old new. SeesAll (the_shifts_after number) old new result) }
{
    all_records(alloc, conn, SHIFTS_AFTER, &number_values(number))
}
