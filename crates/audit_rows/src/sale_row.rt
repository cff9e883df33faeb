//! The whole row of a sale.

ghost use Rattle.std.specs.Prelude.{◌≡◌, ◌==◌};
ghost use Rattle.sts_fields.specs.Calendar.{month_at};
ghost use Rattle.book_tables.specs.row.ReadBack.{ReadsBack};
ghost use Rattle.audit_rows.specs.Sales.{AreBookedValues, AreSaleRowValues, shown_sale_row};

use book_tables::{Record, cells, sale_of};
use office_rules::Sale;
use sqlite::Row;
use sts_fields::month_of;

/// A sale, and the month that its row tells.
#[derive(Clone, Copy, Debug)]
pub struct SaleRow {
    /// The sale.
    pub sale: Sale,
    /// The month that the row tells, which should be that of the sale's moment.
    pub month: u32,
}

// The sale of a row, and the month that it tells, whichever it is.
pub(crate) fn sale_row_of(row: &Row) -> Option<SaleRow>
    ensures { ReadsBack shown_sale_row AreSaleRowValues row.now result }
{
    if row.column_count() != 14 {
        return None;
    }
    let Some(sale) = sale_of(row, true) else {
        return None;
    };
    let Some(month) = cells::word_at(row, 2) else {
        return None;
    };
    Some(SaleRow { sale, month })
}

fn is_in_its_month(row: &SaleRow) -> bool
    ensures { result ≡ (row.now.month == month_at row.now.sale.moment) }
{
    row.month == month_of(row.sale.moment).unwrap()
}

// A row in another month than that of its moment is none of an office's.
impl Record for SaleRow {
    ghost shown = { shown_sale_row };

    ghost keeps = { AreBookedValues };

    fn of_row(row: &Row) -> Option<SaleRow> {
        let Some(read) = sale_row_of(row) else {
            return None;
        };
        if is_in_its_month(&read) {
            Some(read)
        } else {
            None
        }
    }
}
