//! The statements on the table of meters.

ghost use Rattle.std.specs.Prelude.{◌≡◌, bytes_eq, find, option_map};
ghost use Rattle.one_table.specs.Over.{Over};
ghost use Rattle.book_tables.specs.Kept.{meters_kept};
ghost use Rattle.book_tables.specs.reading.Questions.{the_meter};
ghost use Rattle.book_tables.specs.reading.Reading.{ReadsTable, SaysOfTable};
ghost use Rattle.book_tables.specs.reading.Seen.{SeesFirst};

use crate::error::TableError;
use crate::row::record::first_record;
use crate::row::values::meter_no_values;
use crate::texts::METER_NUMBERED;
use office_rules::{Meter, MeterNo};
use sqlite::{Alter, Connection};

/// The meter of a number.
///
/// # Errors
/// `TableError::Database` if the database refuses or fails, or memory runs out.
/// `TableError::RowOfNoOffice` if a row is outside its bounds (`docs/OFFICE.md`, "Bounds").
pub fn meter_numbered<S: Alter>(
    conn: &mut Connection<S>,
    number: &MeterNo,
) -> Result<Option<Meter>, TableError>
    ensures given { Over S.Store conn (λ old new. SaysOfTable meters_kept (λ rows found. found ≡
        option_map (λ r. r.1) (find (λ r. bytes_eq r.0 number.now) rows.meters)) old new result) }
    ensures reads { Over S.Store conn (λ old new. ReadsTable meters_kept old new result) }
    ensures sees { Over S.Store conn (λ old new. SeesFirst (the_meter number.now) old new result) }
{
    first_record(conn, METER_NUMBERED, &meter_no_values(number))
}
