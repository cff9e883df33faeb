//! The records of the running totals, as rows show them.

ghost use Rattle.book_tables.specs.row.Rows.{shown_number, shown_totals};
ghost use Rattle.book_tables.specs.row.Values.{AreTotalsValues, IsTid, IsTotal};

use crate::row::cells;
use crate::row::record::Record;
use crate::row::totals::Totals;
use sqlite::Row;

/// An identifier.
#[derive(Drop)]
pub(crate) struct Tid {
    pub(crate) number: u32,
}

impl Record for Tid {
    ghost shown = { λ tid. shown_number tid.number };

    ghost keeps = { λ tid. IsTid tid.number };

    fn of_row(row: &Row) -> Option<Tid> {
        if row.column_count() != 1 {
            return None;
        }
        let number = cells::tid_at(row, 0)?;
        Some(Tid { number })
    }
}

/// A sum of tenths.
#[derive(Drop)]
pub(crate) struct Tenths {
    pub(crate) sum: u64,
}

impl Record for Tenths {
    ghost shown = { λ tenths. shown_number tenths.sum };

    ghost keeps = { λ tenths. IsTotal tenths.sum };

    fn of_row(row: &Row) -> Option<Tenths> {
        if row.column_count() != 1 {
            return None;
        }
        let sum = cells::total_at(row, 0)?;
        Some(Tenths { sum })
    }
}

impl Record for Totals {
    ghost shown = { shown_totals };

    ghost keeps = { AreTotalsValues };

    fn of_row(row: &Row) -> Option<Totals> {
        if row.column_count() != 3 {
            return None;
        }
        Some(Totals {
            sales: cells::total_at(row, 0)?,
            tenths: cells::total_at(row, 1)?,
            cash: cells::total_at(row, 2)?,
        })
    }
}
