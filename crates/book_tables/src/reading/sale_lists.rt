//! The statements that list sales, by number.

ghost use Rattle.std.specs.Prelude.{◌≡◌, ◌==◌, filter, nat_lt, take};
ghost use Rattle.one_table.specs.Over.{Over};
ghost use Rattle.book_tables.specs.Kept.{sales_kept};
ghost use Rattle.book_tables.specs.reading.Questions.{the_sales_after, the_sales_of_shift};
ghost use Rattle.book_tables.specs.reading.Reading.{ReadsTable, SaysOfTable};
ghost use Rattle.book_tables.specs.reading.Seen.{SeesAll};

use crate::error::TableError;
use crate::reading::lists::all_records;
use crate::row::values::{number_values, page_values};
use crate::texts::{SALES_AFTER, SALES_OF_SHIFT};
use office_rules::Sale;
use sqlite::{Alter, Connection};
use std::alloc::Global;

/// A page: the first sales after a number, at most so many.
///
/// # Errors
/// `TableError::Database` if the database refuses or fails, or memory runs out.
/// `TableError::RowOfNoOffice` if a row is outside its bounds (`docs/OFFICE.md`, "Bounds").
pub fn sales_after<S: Alter>(
    alloc: Global,
    conn: &mut Connection<S>,
    number: u32,
    limit: u32,
) -> Result<Vec<Sale>, TableError>
    ensures given { Over S.Store conn (λ old new. SaysOfTable sales_kept (λ rows found.
        found.items ≡ take limit (filter (λ s. nat_lt number s.number) rows.sales)) old new
        result) }
    ensures reads { Over S.Store conn (λ old new. ReadsTable sales_kept old new result) }
    ensures sees { Over S.Store conn (λ old new. SeesAll (the_sales_after number limit) old new
        result) }
{
    all_records(alloc, conn, SALES_AFTER, &page_values(number, limit))
}

/// The sales of a shift. This walks all sales: no index has their shifts.
///
/// # Errors
/// `TableError::Database` if the database refuses or fails, or memory runs out.
/// `TableError::RowOfNoOffice` if a row is outside its bounds (`docs/OFFICE.md`, "Bounds").
pub fn sales_of_shift<S: Alter>(
    alloc: Global,
    conn: &mut Connection<S>,
    shift: u32,
) -> Result<Vec<Sale>, TableError>
    ensures given { Over S.Store conn (λ old new. SaysOfTable sales_kept (λ rows found.
        found.items ≡ filter (λ s. s.shift == shift) rows.sales) old new result) }
    ensures reads { Over S.Store conn (λ old new. ReadsTable sales_kept old new result) }
    ensures sees { Over S.Store conn (λ old new. SeesAll (the_sales_of_shift shift) old new
        result) }
{
    all_records(alloc, conn, SALES_OF_SHIFT, &number_values(shift))
}
