//! The statement that lists tariffs, by name.

ghost use Rattle.std.specs.Prelude.{IfOk, IsSome};
ghost use Rattle.sqlite.specs.State.{HasCleanDisk};
ghost use Rattle.one_table.specs.Over.{Over};
ghost use Rattle.office_rules.specs.Office.{IsOffice, Office};
ghost use Rattle.book_tables.specs.Kept.{tariffs_kept};
ghost use Rattle.book_tables.specs.reading.Reading.{HasTableRows, ReadsTable};
ghost use Rattle.book_tables.specs.reading.Seen.{SeesAll};
ghost use Rattle.book_tables.specs.row.Rows.{Rows};
ghost use Rattle.book_tables.specs.Stands.{AreMembersOf};
ghost use Rattle.book_lists.specs.Pages.{AreFirstAfter};
ghost use Rattle.book_lists.specs.Questions.{the_tariffs_after};

use crate::texts::TARIFFS_AFTER;
use crate::values::text_values;
use book_tables::{TableError, all_records};
use office_rules::TariffName;
use sqlite::{Alter, Connection};
use std::alloc::Global;

/// A page: the names of the first tariffs after a text in the order of their bytes, at most
/// [`PAGE`](crate::PAGE). The empty text comes before all names. A page that is not full is the
/// last one.
///
/// # Errors
/// `TableError::Database` if the database refuses or fails, or memory runs out.
/// `TableError::RowOfNoOffice` if a row is outside its bounds (`docs/OFFICE.md`, "Bounds").
pub fn tariffs_after<S: Alter>(
    alloc: Global,
    conn: &mut Connection<S>,
    after: &[u8],
) -> Result<Vec<TariffName>, TableError>
    ensures given { Over S.Store conn (λ old new. HasCleanDisk new → (rows : Rows) (o : Office)
        → HasTableRows tariffs_kept old rows → IsOffice o → AreMembersOf rows o
        → IfOk result (λ page. AreFirstAfter (λ name. IsSome (o.tariffs name)) after.now
        page.items)) }
    ensures reads { Over S.Store conn (λ old new. ReadsTable tariffs_kept old new result) }
    ensures sees { Over S.Store conn (λ old new. SeesAll (the_tariffs_after after.now) old new
        result) }
{
    all_records(alloc, conn, TARIFFS_AFTER, &text_values(after))
}
