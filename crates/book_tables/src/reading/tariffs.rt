//! The statements on the tables of tariffs.

ghost use Rattle.std.specs.Prelude.{◌≡◌, ◌≢◌, ◌↔◌, ◌⊎◌, [], is_some, unwrap_or, Contains, IsTrue};
ghost use Rattle.std.specs.Prelude.{IfOk, IfErr, IfSome};
ghost use Rattle.sqlite.specs.State.{HasCleanDisk};
ghost use Rattle.one_table.specs.Over.{Over};
ghost use Rattle.tariff.specs.Steps.{IsSteps};
ghost use Rattle.office_rules.specs.Office.{IsOffice, Office};
ghost use Rattle.book_tables.specs.Kept.{steps_kept, tariffs_kept};
ghost use Rattle.book_tables.specs.reading.Questions.{the_steps, the_tariff};
ghost use Rattle.book_tables.specs.reading.Reading.{HasTableRows, ReadsTable, SaysOfTable};
ghost use Rattle.book_tables.specs.reading.Seen.{SeesMade, SeesSteps};
ghost use Rattle.book_tables.specs.row.Rows.{Rows};
ghost use Rattle.book_tables.specs.Stands.{AreMembersOf};

use crate::error::TableError;
use crate::reading::lists::all_records;
use crate::row::record::first_record;
use crate::row::values::tariff_values;
use crate::texts::{STEPS_OF, TARIFF_NAMED};
use office_rules::TariffName;
use sqlite::{Alter, Connection, Error, ErrorCode};
use std::alloc::Global;
use tariff::{Step, Steps, StepsFault};

/// Whether there is a tariff of a name.
///
/// # Errors
/// `TableError::Database` if the database refuses or fails, or memory runs out.
/// `TableError::RowOfNoOffice` if a row is outside its bounds (`docs/OFFICE.md`, "Bounds").
pub fn has_tariff<S: Alter>(conn: &mut Connection<S>, name: &TariffName) -> Result<bool, TableError>
    ensures given { Over S.Store conn (λ old new. SaysOfTable tariffs_kept (λ rows there. IsTrue
        there ↔ Contains rows.tariffs name.now) old new result) }
    ensures reads { Over S.Store conn (λ old new. ReadsTable tariffs_kept old new result) }
    ensures sees { Over S.Store conn (λ old new. SeesMade (the_tariff name.now) is_some old new
        result) }
{
    let found: Option<TariffName> = first_record(conn, TARIFF_NAMED, &tariff_values(name))?;
    Ok(found.is_some())
}

// A tariff with these steps, or none where there is no step: each tariff of an office has one.
pub(crate) fn tariff_of(alloc: Global, shown: &[Step]) -> Result<Option<Steps>, TableError>
    ensures steps { IfOk result (λ found. unwrap_or found [] ≡ shown.now) }
    ensures kept { IfOk result (λ found. IfSome found IsSteps) }
    ensures faults { IfErr result (λ e.
        (e ≡ TableError.Database (Error.SqliteFailure ErrorCode.OutOfMemory))
        ⊎ ((e ≡ TableError.RowOfNoOffice) × (shown.now ≢ []) × ¬ IsSteps shown.now)) }
{
    if shown.is_empty() {
        return Ok(None);
    }
    match Steps::read(alloc, shown) {
        Ok(steps) => Ok(Some(steps)),
        Err(StepsFault::Memory) => Err(TableError::Database(Error::SqliteFailure(
            ErrorCode::OutOfMemory,
        ))),
        Err(_) => Err(TableError::RowOfNoOffice),
    }
}

/// The steps of the tariff of a name, in the order of their places; `None` where there is none.
///
/// # Errors
/// `TableError::Database` if the database refuses or fails, or memory runs out.
/// `TableError::RowOfNoOffice` if a row is outside its bounds (`docs/OFFICE.md`, "Bounds"), or if
/// the rows together are no steps of a tariff.
pub fn steps_of<S: Alter>(
    alloc: Global,
    conn: &mut Connection<S>,
    name: &TariffName,
) -> Result<Option<Steps>, TableError>
    ensures given { Over S.Store conn (λ old new. HasCleanDisk new → (rows : Rows) (o : Office)
        → HasTableRows steps_kept old rows → IsOffice o → AreMembersOf rows o
        → IfOk result (λ found. found ≡ o.tariffs name.now)) }
    ensures reads { Over S.Store conn (λ old new. ReadsTable steps_kept old new result) }
    ensures sees { Over S.Store conn (λ old new. SeesSteps (the_steps name.now) old new result) }
{
    let shown: Vec<Step> = all_records(alloc, conn, STEPS_OF, &tariff_values(name))?;
    tariff_of(alloc, &shown)
}
