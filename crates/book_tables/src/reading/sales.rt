//! The statements on the table of sales.

ghost use Rattle.std.specs.Prelude.{◌≡◌, ◌&&◌, ◌==◌, bytes_eq, find, length, option_map, unwrap_or};
ghost use Rattle.std.specs.Prelude.{None, is_some, nat_le};
ghost use Rattle.std.specs.List.{last_or, list_any};
ghost use Rattle.one_table.specs.Over.{Over};
ghost use Rattle.sts_fields.specs.Base.{base_eq};
ghost use Rattle.sts_fields.specs.Day.{day_at};
ghost use Rattle.book_tables.specs.Kept.{sales_kept};
ghost use Rattle.book_tables.specs.reading.Questions.{the_last_sale, the_sale, the_sale_of_ref};
ghost use Rattle.book_tables.specs.reading.Questions.{the_sale_of_tid, the_sale_since};
ghost use Rattle.book_tables.specs.reading.Reading.{ReadsTable, SaysOfTable};
ghost use Rattle.book_tables.specs.reading.Seen.{SeesFirst, SeesMade};

use crate::error::TableError;
use crate::row::record::first_record;
use crate::row::values::{first_second_values, last_id_values, number_values, ref_values};
use crate::texts::{LAST_SALE_NUMBER, SALE_NUMBERED, SALE_OF_REF, SALE_OF_TID, SOLD_SINCE};
use office_rules::{MeterNo, Operator, Ref, Sale};
use sqlite::{Alter, Connection};
use sts_fields::{Base, Day, day_law};

/// The sale of a number.
///
/// # Errors
/// `TableError::Database` if the database refuses or fails, or memory runs out.
/// `TableError::RowOfNoOffice` if a row is outside its bounds (`docs/OFFICE.md`, "Bounds").
pub fn sale_numbered<S: Alter>(
    conn: &mut Connection<S>,
    number: u32,
) -> Result<Option<Sale>, TableError>
    ensures given { Over S.Store conn (λ old new. SaysOfTable sales_kept (λ rows found. found ≡
        find (λ s. s.number == number) rows.sales) old new result) }
    ensures reads { Over S.Store conn (λ old new. ReadsTable sales_kept old new result) }
    ensures sees { Over S.Store conn (λ old new. SeesFirst (the_sale number) old new result) }
{
    first_record(conn, SALE_NUMBERED, &number_values(number))
}

/// The sale that an operator made under a ref.
///
/// # Errors
/// `TableError::Database` if the database refuses or fails, or memory runs out.
/// `TableError::RowOfNoOffice` if a row is outside its bounds (`docs/OFFICE.md`, "Bounds").
pub fn sale_of_ref<S: Alter>(
    conn: &mut Connection<S>,
    operator: &Operator,
    order_ref: &Ref,
) -> Result<Option<Sale>, TableError>
    ensures given { Over S.Store conn (λ old new. SaysOfTable sales_kept (λ rows found. found ≡
        find (λ s. bytes_eq s.operator operator.now && bytes_eq s.order_ref order_ref.now)
        rows.sales) old new result) }
    ensures reads { Over S.Store conn (λ old new. ReadsTable sales_kept old new result) }
    ensures sees { Over S.Store conn (λ old new. SeesFirst (the_sale_of_ref operator.now
        order_ref.now) old new result) }
{
    first_record(conn, SALE_OF_REF, &ref_values(operator, order_ref))
}

/// The sale of an identifier of a meter under a base.
///
/// # Errors
/// `TableError::Database` if the database refuses or fails, or memory runs out.
/// `TableError::RowOfNoOffice` if a row is outside its bounds (`docs/OFFICE.md`, "Bounds").
pub fn sale_of_tid<S: Alter>(
    conn: &mut Connection<S>,
    meter: &MeterNo,
    base: Base,
    tid: u32,
) -> Result<Option<Sale>, TableError>
    ensures given { Over S.Store conn (λ old new. SaysOfTable sales_kept (λ rows found. found ≡
        find (λ s. bytes_eq s.meter meter.now && (base_eq s.base base && (s.tid == tid)))
        rows.sales) old new result) }
    ensures reads { Over S.Store conn (λ old new. ReadsTable sales_kept old new result) }
    ensures sees { Over S.Store conn (λ old new. SeesFirst (the_sale_of_tid meter.now base tid) old
        new result) }
{
    first_record(conn, SALE_OF_TID, &last_id_values(meter, base, tid))
}

/// The number of the last sale, if there is one. It is how many sales there are, since they are
/// numbered from 1 without a gap.
///
/// # Errors
/// `TableError::Database` if the database refuses or fails, or memory runs out.
/// `TableError::RowOfNoOffice` if a row is outside its bounds (`docs/OFFICE.md`, "Bounds").
pub fn last_sale_number<S: Alter>(conn: &mut Connection<S>) -> Result<Option<u32>, TableError>
    ensures given { Over S.Store conn (λ old new. SaysOfTable sales_kept (λ rows found. found ≡
        option_map (λ s. s.number) (last_or None rows.sales)) old new result) }
    ensures counted { Over S.Store conn (λ old new. SaysOfTable sales_kept (λ rows found.
        unwrap_or found 0 ≡ length rows.sales) old new result) }
    ensures reads { Over S.Store conn (λ old new. ReadsTable sales_kept old new result) }
    ensures sees { Over S.Store conn (λ old new. SeesFirst the_last_sale old new result) }
{
    first_record(conn, LAST_SALE_NUMBER, &[])
}

/// Whether a sale was made on a day or later, to whichever meter. The moments of sales need not
/// rise with their numbers.
///
/// # Errors
/// `TableError::Database` if the database refuses or fails, or memory runs out.
/// `TableError::RowOfNoOffice` if the row that was found is no office's.
pub fn sold_since<S: Alter>(conn: &mut Connection<S>, day: Day) -> Result<bool, TableError>
    ensures given { Over S.Store conn (λ old new. SaysOfTable sales_kept (λ rows sold. sold ≡
        list_any (λ s. nat_le day (day_at s.moment)) rows.sales) old new result) }
    ensures reads { Over S.Store conn (λ old new. ReadsTable sales_kept old new result) }
    ensures sees { Over S.Store conn (λ old new. SeesMade (the_sale_since day) is_some old new
        result) }
{
    day_law();
    let found: Option<u32> = first_record(conn, SOLD_SINCE, &first_second_values(day))?;
    Ok(found.is_some())
}
