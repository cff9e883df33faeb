//! The statements on the table of shifts.

ghost use Rattle.std.specs.Prelude.{◌≡◌, ◌&&◌, ◌==◌, bytes_eq, find, is_none, length, option_map};
ghost use Rattle.std.specs.Prelude.{unwrap_or, None};
ghost use Rattle.std.specs.List.{last_or};
ghost use Rattle.one_table.specs.Over.{Over};
ghost use Rattle.book_tables.specs.Kept.{shifts_kept};
ghost use Rattle.book_tables.specs.reading.Questions.{the_last_shift, the_open_shift, the_shift};
ghost use Rattle.book_tables.specs.reading.Reading.{ReadsTable, SaysOfTable};
ghost use Rattle.book_tables.specs.reading.Seen.{SeesFirst};

use crate::error::TableError;
use crate::row::record::first_record;
use crate::row::values::{number_values, operator_values};
use crate::texts::{LAST_SHIFT_NUMBER, OPEN_SHIFT, SHIFT_NUMBERED};
use office_rules::{Operator, Shift};
use sqlite::{Alter, Connection};

/// The shift of a number.
///
/// # Errors
/// `TableError::Database` if the database refuses or fails, or memory runs out.
/// `TableError::RowOfNoOffice` if a row is outside its bounds (`docs/OFFICE.md`, "Bounds").
pub fn shift_numbered<S: Alter>(
    conn: &mut Connection<S>,
    number: u32,
) -> Result<Option<Shift>, TableError>
    ensures given { Over S.Store conn (λ old new. SaysOfTable shifts_kept (λ rows found. found ≡
        find (λ s. s.number == number) rows.shifts) old new result) }
    ensures reads { Over S.Store conn (λ old new. ReadsTable shifts_kept old new result) }
    ensures sees { Over S.Store conn (λ old new. SeesFirst (the_shift number) old new result) }
{
    first_record(conn, SHIFT_NUMBERED, &number_values(number))
}

/// The shift of an operator that is open, if there is one.
///
/// # Errors
/// `TableError::Database` if the database refuses or fails, or memory runs out.
/// `TableError::RowOfNoOffice` if a row is outside its bounds (`docs/OFFICE.md`, "Bounds").
pub fn open_shift<S: Alter>(
    conn: &mut Connection<S>,
    operator: &Operator,
) -> Result<Option<Shift>, TableError>
    ensures given { Over S.Store conn (λ old new. SaysOfTable shifts_kept (λ rows found. found ≡
        find (λ s. bytes_eq s.operator operator.now && is_none s.closed) rows.shifts) old new
        result) }
    ensures reads { Over S.Store conn (λ old new. ReadsTable shifts_kept old new result) }
    ensures sees { Over S.Store conn (λ old new. SeesFirst (the_open_shift operator.now) old new
        result) }
{
    first_record(conn, OPEN_SHIFT, &operator_values(operator))
}

/// The number of the last shift, if there is one. It is how many shifts there are, since they are
/// numbered from 1 without a gap.
///
/// # Errors
/// `TableError::Database` if the database refuses or fails, or memory runs out.
/// `TableError::RowOfNoOffice` if a row is outside its bounds (`docs/OFFICE.md`, "Bounds").
pub fn last_shift_number<S: Alter>(conn: &mut Connection<S>) -> Result<Option<u32>, TableError>
    ensures given { Over S.Store conn (λ old new. SaysOfTable shifts_kept (λ rows found. found ≡
        option_map (λ s. s.number) (last_or None rows.shifts)) old new result) }
    ensures counted { Over S.Store conn (λ old new. SaysOfTable shifts_kept (λ rows found.
        unwrap_or found 0 ≡ length rows.shifts) old new result) }
    ensures reads { Over S.Store conn (λ old new. ReadsTable shifts_kept old new result) }
    ensures sees { Over S.Store conn (λ old new. SeesFirst the_last_shift old new result) }
{
    first_record(conn, LAST_SHIFT_NUMBER, &[])
}
