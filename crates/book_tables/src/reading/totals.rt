//! What was sold so far, each as one row by its key: to a meter under a base and in a month, and in
//! a shift.

ghost use Rattle.std.specs.Prelude.{◌≡◌, bytes_eq, is_some, length, map, option_map, sum_by};
ghost use Rattle.std.specs.Prelude.{unwrap_or};
ghost use Rattle.std.specs.List.{list_any};
ghost use Rattle.one_table.specs.Over.{Over};
ghost use Rattle.office_rules.specs.Law.Cash.{cash_of};
ghost use Rattle.office_rules.specs.Office.Lookup.{greatest_of};
ghost use Rattle.book_tables.specs.Kept.{last_ids_kept, month_tenths_kept, shift_totals_kept};
ghost use Rattle.book_tables.specs.reading.Questions.{the_last_id, the_last_id_of};
ghost use Rattle.book_tables.specs.reading.Questions.{the_month_tenths, the_shift_totals};
ghost use Rattle.book_tables.specs.reading.Reading.{ReadsTable, SaysOfTable};
ghost use Rattle.book_tables.specs.reading.Seen.{SeesFirst, SeesMade};
ghost use Rattle.book_tables.specs.Stands.{sales_in_month, sales_in_shift, sales_under};
ghost use Rattle.book_tables.specs.writing.Writing.{no_totals};

use crate::error::TableError;
use crate::row::record::first_record;
use crate::row::total_records::{Tenths, Tid};
use crate::row::totals::Totals;
use crate::row::values::{base_values, meter_no_values, month_values, number_values};
use crate::texts::{LAST_ID, LAST_ID_OF_METER, MONTH_TENTHS, SHIFT_TOTALS};
use office_rules::{MeterNo, store_law};
use sqlite::{Alter, Connection};
use sts_fields::{Base, amount_law};

/// The greatest identifier sold to a meter under a base.
///
/// # Errors
/// `TableError::Database` if the database refuses or fails, or memory runs out.
/// `TableError::RowOfNoOffice` if a row is outside its bounds (`docs/OFFICE.md`, "Bounds").
pub fn greatest_tid<S: Alter>(
    conn: &mut Connection<S>,
    meter: &MeterNo,
    base: Base,
) -> Result<Option<u32>, TableError>
    ensures given { Over S.Store conn (λ old new. SaysOfTable last_ids_kept (λ rows greatest.
        greatest ≡ greatest_of (map (λ s. s.tid) (sales_under rows.sales (meter.now, base)))) old
        new result) }
    ensures reads { Over S.Store conn (λ old new. ReadsTable last_ids_kept old new result) }
    ensures sees { Over S.Store conn (λ old new. SeesFirst (the_last_id meter.now base) old new
        result) }
{
    let found: Option<Tid> = first_record(conn, LAST_ID, &base_values(meter, base))?;
    Ok(number_of(found))
}

fn number_of(found: Option<Tid>) -> Option<u32>
    ensures { result ≡ option_map (λ tid. tid.number) found }
{
    match found {
        Some(Tid { number }) => Some(number),
        None => None,
    }
}

/// Whether anything was sold to a meter, under any base.
///
/// # Errors
/// `TableError::Database` if the database refuses or fails, or memory runs out.
/// `TableError::RowOfNoOffice` if the row that was found is no office's.
pub fn has_sales<S: Alter>(conn: &mut Connection<S>, meter: &MeterNo) -> Result<bool, TableError>
    ensures given { Over S.Store conn (λ old new. SaysOfTable last_ids_kept (λ rows sold. sold ≡
        list_any (λ s. bytes_eq s.meter meter.now) rows.sales) old new result) }
    ensures reads { Over S.Store conn (λ old new. ReadsTable last_ids_kept old new result) }
    ensures sees { Over S.Store conn (λ old new. SeesMade (the_last_id_of meter.now) is_some old
        new result) }
{
    store_law();
    let found: Option<Tid> = first_record(conn, LAST_ID_OF_METER, &meter_no_values(meter))?;
    Ok(found.is_some())
}

/// The tenths of a kWh sold to a meter in a month, under any base.
///
/// # Errors
/// `TableError::Database` if the database refuses or fails, or memory runs out.
/// `TableError::RowOfNoOffice` if a row is outside its bounds (`docs/OFFICE.md`, "Bounds").
pub fn tenths_in_month<S: Alter>(
    conn: &mut Connection<S>,
    meter: &MeterNo,
    month: u32,
) -> Result<u64, TableError>
    ensures given { Over S.Store conn (λ old new. SaysOfTable month_tenths_kept (λ rows tenths.
        tenths ≡ sum_by (λ s. s.tenths) (sales_in_month rows.sales (meter.now, month))) old new
        result) }
    ensures reads { Over S.Store conn (λ old new. ReadsTable month_tenths_kept old new result) }
    ensures sees { Over S.Store conn (λ old new. SeesMade (the_month_tenths meter.now month)
        (λ o. unwrap_or o 0) old new result) }
{
    amount_law();
    let found: Option<Tenths> = first_record(conn, MONTH_TENTHS, &month_values(meter, month))?;
    Ok(sum_of(found))
}

fn sum_of(found: Option<Tenths>) -> u64
    ensures { result ≡ unwrap_or (option_map (λ tenths. tenths.sum) found) 0 }
{
    match found {
        Some(Tenths { sum }) => sum,
        None => 0,
    }
}

/// How many sales there are in a shift, and the sums of their tenths and of their prices.
///
/// # Errors
/// `TableError::Database` if the database refuses or fails, or memory runs out.
/// `TableError::RowOfNoOffice` if a row is outside its bounds (`docs/OFFICE.md`, "Bounds").
pub fn totals_of_shift<S: Alter>(conn: &mut Connection<S>, shift: u32) -> Result<Totals, TableError>
    ensures given { Over S.Store conn (λ old new. SaysOfTable shift_totals_kept (λ rows totals.
        totals ≡ record {
          sales = length (sales_in_shift rows.sales shift);
          tenths = sum_by (λ s.
              s.tenths) (sales_in_shift rows.sales shift);
          cash = cash_of (sales_in_shift rows.sales
              shift);
        }) old new result) }
    ensures reads { Over S.Store conn (λ old new. ReadsTable shift_totals_kept old new result) }
    ensures sees { Over S.Store conn (λ old new. SeesMade (the_shift_totals shift)
        (λ o. unwrap_or o no_totals) old new result) }
{
    amount_law();
    let found: Option<Totals> = first_record(conn, SHIFT_TOTALS, &number_values(shift))?;
    Ok(totals_or_none(found))
}

fn totals_or_none(found: Option<Totals>) -> Totals
    ensures { result ≡ unwrap_or found no_totals }
{
    found.unwrap_or(Totals {
        sales: 0,
        tenths: 0,
        cash: 0,
    })
}
