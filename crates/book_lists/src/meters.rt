//! The statement that lists meters, by number.

ghost use Rattle.std.specs.Prelude.{◌≡◌, All, IfOk, IsSome, Some, map};
ghost use Rattle.sqlite.specs.State.{HasCleanDisk};
ghost use Rattle.one_table.specs.Over.{Over};
ghost use Rattle.office_rules.specs.Office.{IsOffice, Office};
ghost use Rattle.book_tables.specs.Kept.{meters_kept};
ghost use Rattle.book_tables.specs.reading.Reading.{HasTableRows, ReadsTable};
ghost use Rattle.book_tables.specs.reading.Seen.{SeesAll};
ghost use Rattle.book_tables.specs.row.Rows.{Rows};
ghost use Rattle.book_tables.specs.Stands.{AreMembersOf};
ghost use Rattle.book_lists.specs.Pages.{AreFirstAfter};
ghost use Rattle.book_lists.specs.Questions.{the_meters_after};

use crate::texts::METERS_AFTER;
use crate::values::text_values;
use book_tables::reading::pages::MeterRow;
use book_tables::{TableError, all_records};
use sqlite::{Alter, Connection};
use std::alloc::Global;

/// A page: the first meters whose numbers come after a text in the order of their bytes, at most
/// [`PAGE`](crate::PAGE). The empty text comes before all numbers. A page that is not full is the
/// last one.
///
/// # Errors
/// `TableError::Database` if the database refuses or fails, or memory runs out.
/// `TableError::RowOfNoOffice` if a row is outside its bounds (`docs/OFFICE.md`, "Bounds").
pub fn meters_after<S: Alter>(
    alloc: Global,
    conn: &mut Connection<S>,
    after: &[u8],
) -> Result<Vec<MeterRow>, TableError>
    ensures given { Over S.Store conn (λ old new. HasCleanDisk new → (rows : Rows) (o : Office)
        → HasTableRows meters_kept old rows → IsOffice o → AreMembersOf rows o
        → IfOk result (λ page. All (λ m. o.meters m.number ≡ Some m.meter) page.items
        × AreFirstAfter (λ number. IsSome (o.meters number)) after.now
        (map (λ m. m.number) page.items))) }
    ensures reads { Over S.Store conn (λ old new. ReadsTable meters_kept old new result) }
    ensures sees { Over S.Store conn (λ old new. SeesAll (the_meters_after after.now) old new
        result) }
{
    all_records(alloc, conn, METERS_AFTER, &text_values(after))
}
