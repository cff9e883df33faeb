//! The records of the rows of each table.

ghost use Rattle.std.specs.Prelude.{◌↔◌};
ghost use Rattle.book_tables.specs.reading.Reading.{ShowsRecord};
ghost use Rattle.audit_rows.specs.Breaks.{ShowsOf};

use crate::named::Named;
use crate::rows::{BaseRow, DatedStepRow, LastId, MonthTenths, ShiftTotals, StepRow};
use crate::sale_row::SaleRow;
use book_tables::Record;
use book_tables::reading::pages::MeterRow;
use office_rules::{Shift, TariffName};

/// A record that each row of one of the office's tables has to show.
pub(crate) trait Listed: Record + Named {
    ghost use Rattle.std.specs.Prelude.{List};
    ghost use Rattle.sqlite_value.specs.declared.value.Value.{Value};

    // It is what is asked of the rows of its table.
    ghost shows: { (row : List Value)
        → ShowsRecord Self.shown Self.keeps row ↔ ShowsOf Self.name row };
}

impl Listed for TariffName {
    ghost shows = { λ row. (λ s. s, λ s. s) };
}

impl Listed for StepRow {
    ghost shows = { λ row. (λ s. s, λ s. s) };
}

impl Listed for MeterRow {
    ghost shows = { λ row. (λ s. s, λ s. s) };
}

impl Listed for Shift {
    ghost shows = { λ row. (λ s. s, λ s. s) };
}

impl Listed for SaleRow {
    ghost shows = { λ row. (λ s. s, λ s. s) };
}

impl Listed for LastId {
    ghost shows = { λ row. (λ s. s, λ s. s) };
}

impl Listed for MonthTenths {
    ghost shows = { λ row. (λ s. s, λ s. s) };
}

impl Listed for ShiftTotals {
    ghost shows = { λ row. (λ s. s, λ s. s) };
}

impl Listed for BaseRow {
    ghost shows = { λ row. (λ s. s, λ s. s) };
}

impl Listed for DatedStepRow {
    ghost shows = { λ row. (λ s. s, λ s. s) };
}
