//! The record of a meter, as rows show it.

ghost use Rattle.office_rules.specs.Name.{IsMeterNo};
ghost use Rattle.book_tables.specs.row.Rows.{meter_columns};
ghost use Rattle.book_tables.specs.row.Values.{AreMeterValues};

use crate::row::cells;
use crate::row::record::Record;
use office_rules::{Meter, MeterNo};
use sqlite::Row;

/// A meter under its number.
#[derive(Clone, Copy, Debug, PartialEq, Eq)]
pub struct MeterRow {
    /// The number of the meter.
    pub number: MeterNo,
    /// The meter.
    pub meter: Meter,
}

impl Record for MeterRow {
    ghost shown = { λ m. meter_columns (m.number, m.meter) };

    ghost keeps = { λ m. IsMeterNo m.number × AreMeterValues m.meter };

    fn of_row(row: &Row) -> Option<MeterRow> {
        if row.column_count() != 4 {
            return None;
        }
        Some(MeterRow {
            number: cells::meter_no_at(row, 0)?,
            meter: Meter {
                base: cells::base_at(row, 1)?,
                tariff: cells::tariff_at(row, 2)?,
                key: cells::key_at(row, 3)?,
            },
        })
    }
}
