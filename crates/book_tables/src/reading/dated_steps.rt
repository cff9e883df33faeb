//! The statements on the steps that tariffs have from later days on.

ghost use Rattle.std.specs.Prelude.{◌≡◌, IfOk};
ghost use Rattle.sqlite.specs.State.{HasCleanDisk};
ghost use Rattle.one_table.specs.Over.{Over};
ghost use Rattle.sts_fields.specs.Day.{IsDay};
ghost use Rattle.office_rules.specs.Office.Lookup.{latest};
ghost use Rattle.office_rules.specs.Office.{IsOffice, Office};
ghost use Rattle.book_tables.specs.Kept.{dated_steps_kept};
ghost use Rattle.book_tables.specs.reading.Questions.{the_first_day, the_steps_from};
ghost use Rattle.book_tables.specs.reading.Reading.{HasTableRows, IsFirstDay, ReadsTable};
ghost use Rattle.book_tables.specs.reading.Seen.{SeesFirst, SeesLatest, SeesSteps};
ghost use Rattle.book_tables.specs.row.Rows.{Rows, shown_number};
ghost use Rattle.book_tables.specs.Stands.{AreMembersOf};

use crate::error::TableError;
use crate::reading::lists::all_records;
use crate::reading::tariffs::tariff_of;
use crate::row::cells;
use crate::row::record::{Record, first_record};
use crate::row::values::dated_values;
use crate::texts::{FIRST_DAY_UNTIL, STEPS_FROM};
use office_rules::{TariffName, store_law};
use sqlite::{Alter, Connection, Row};
use std::alloc::Global;
use sts_fields::Day;
use tariff::{Step, Steps};

impl Record for Day {
    ghost shown = { shown_number };

    ghost keeps = { IsDay };

    fn of_row(row: &Row) -> Option<Day> {
        if row.column_count() != 1 {
            return None;
        }
        cells::day_at(row, 0)
    }
}

/// The steps that the tariff of a name has from a day on, in the order of their places; `None`
/// where none begin on that day.
///
/// # Errors
/// `TableError::Database` if the database refuses or fails, or memory runs out.
/// `TableError::RowOfNoOffice` if a row is outside its bounds (`docs/OFFICE.md`, "Bounds"), or if
/// the rows together are no steps of a tariff.
pub fn steps_from<S: Alter>(
    alloc: Global,
    conn: &mut Connection<S>,
    name: &TariffName,
    day: Day,
) -> Result<Option<Steps>, TableError>
    ensures given { Over S.Store conn (λ old new. HasCleanDisk new → (rows : Rows) (o : Office)
        → HasTableRows dated_steps_kept old rows → IsOffice o → AreMembersOf rows o
        → IfOk result (λ found. found ≡ o.dated_steps name.now day)) }
    ensures reads { Over S.Store conn (λ old new. ReadsTable dated_steps_kept old new result) }
    ensures sees { Over S.Store conn (λ old new. SeesSteps (the_steps_from name.now day) old new
        result) }
{
    let shown: Vec<Step> = all_records(alloc, conn, STEPS_FROM, &dated_values(name, day))?;
    tariff_of(alloc, &shown)
}

/// The last day until a day on which steps of the tariff of a name begin. It is found by the index
/// of tariff, day and place, whatever other days there are.
///
/// # Errors
/// `TableError::Database` if the database refuses or fails, or memory runs out.
/// `TableError::RowOfNoOffice` if a row is outside its bounds (`docs/OFFICE.md`, "Bounds").
pub fn first_day_until<S: Alter>(
    conn: &mut Connection<S>,
    name: &TariffName,
    day: Day,
) -> Result<Option<Day>, TableError>
    ensures given { Over S.Store conn (λ old new. HasCleanDisk new → (rows : Rows) (o : Office)
        → HasTableRows dated_steps_kept old rows → IsOffice o → AreMembersOf rows o
        → IfOk result (IsFirstDay (o.dated_steps name.now) day)) }
    ensures reads { Over S.Store conn (λ old new. ReadsTable dated_steps_kept old new result) }
    ensures sees { Over S.Store conn (λ old new. SeesFirst (the_first_day name.now day) old new
        result) }
{
    store_law();
    first_record(conn, FIRST_DAY_UNTIL, &dated_values(name, day))
}

/// The latest steps of the tariff of a name that have begun until a day; `None` where none have.
///
/// # Errors
/// `TableError::Database` if the database refuses or fails, or memory runs out.
/// `TableError::RowOfNoOffice` if a row is outside its bounds (`docs/OFFICE.md`, "Bounds").
pub fn latest_steps<S: Alter>(
    alloc: Global,
    conn: &mut Connection<S>,
    name: &TariffName,
    day: Day,
) -> Result<Option<Steps>, TableError>
    ensures given { Over S.Store conn (λ old new. HasCleanDisk new → (rows : Rows) (o : Office)
        → HasTableRows dated_steps_kept old rows → IsOffice o → AreMembersOf rows o
        → IfOk result (λ found. found ≡ latest (o.dated_steps name.now) day)) }
    ensures reads { Over S.Store conn (λ old new. ReadsTable dated_steps_kept old new result) }
    ensures sees { Over S.Store conn (λ old new. SeesLatest name.now day old new result) }
{
    store_law();
    let begun = first_day_until(conn, name, day)?;
    let Some(first) = begun else {
        return Ok(None);
    };
    steps_from(alloc, conn, name, first)
}
