//! The statement that looks for the next day from which a tariff has other steps.

ghost use Rattle.std.specs.Prelude.{IfOk};
ghost use Rattle.sqlite.specs.State.{HasCleanDisk};
ghost use Rattle.one_table.specs.Over.{Over};
ghost use Rattle.office_rules.specs.Office.{IsOffice, Office};
ghost use Rattle.book_tables.specs.Kept.{dated_steps_kept};
ghost use Rattle.book_tables.specs.reading.Reading.{HasTableRows, ReadsTable};
ghost use Rattle.book_tables.specs.reading.Seen.{SeesFirst};
ghost use Rattle.book_tables.specs.row.Rows.{Rows};
ghost use Rattle.book_tables.specs.Stands.{AreMembersOf};
ghost use Rattle.book_lists.specs.Days.{IsNextDay};
ghost use Rattle.book_lists.specs.Questions.{the_next_day};

use crate::texts::FIRST_DAY_AFTER;
use crate::values::day_values;
use book_tables::{TableError, first_record};
use office_rules::TariffName;
use sqlite::{Alter, Connection};
use sts_fields::Day;

/// The first day after a day on which steps of the tariff of a name begin; `None` where none begin
/// later.
///
/// # Errors
/// `TableError::Database` if the database refuses or fails, or memory runs out.
/// `TableError::RowOfNoOffice` if a row is outside its bounds (`docs/OFFICE.md`, "Bounds").
pub fn first_day_after<S: Alter>(
    conn: &mut Connection<S>,
    name: &TariffName,
    day: Day,
) -> Result<Option<Day>, TableError>
    ensures given { Over S.Store conn (λ old new. HasCleanDisk new → (rows : Rows) (o : Office)
        → HasTableRows dated_steps_kept old rows → IsOffice o → AreMembersOf rows o
        → IfOk result (IsNextDay (o.dated_steps name.now) day)) }
    ensures reads { Over S.Store conn (λ old new. ReadsTable dated_steps_kept old new result) }
    ensures sees { Over S.Store conn (λ old new. SeesFirst (the_next_day name.now day) old new
        result) }
{
    first_record(conn, FIRST_DAY_AFTER, &day_values(name, day))
}
