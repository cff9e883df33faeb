//! How a finding names a row.

ghost use Rattle.audit_rows.specs.declared.finding.RowKey.TheVariants as key;
ghost use Rattle.audit_rows.specs.declared.table_name.TableName.TheVariants as table;

use crate::finding::RowKey;
use crate::rows::{BaseRow, DatedStepRow, LastId, MonthTenths, ShiftTotals, StepRow};
use crate::sale_row::SaleRow;
use crate::table_name::TableName;
use book_tables::reading::pages::MeterRow;
use office_rules::{Sale, Shift, TariffName};

/// A row of one of the office's tables, which a finding names by its table and its key.
pub trait Named {
    ghost use Rattle.std.specs.Prelude.{◌≡◌};
    ghost use Rattle.audit_rows.specs.declared.finding.RowKey.{RowKey};
    ghost use Rattle.audit_rows.specs.declared.table_name.TableName.{TableName};

    ghost name: { TableName };

    ghost key: { Self → RowKey };

    fn table() -> TableName
        ensures { result ≡ name };

    fn key(&self) -> RowKey
        ensures { result ≡ key self.now };
}

impl Named for TariffName {
    ghost name = { table.Tariffs };

    ghost key = { key.Tariff };

    fn table() -> TableName {
        TableName::Tariffs
    }

    fn key(&self) -> RowKey {
        RowKey::Tariff(*self)
    }
}

impl Named for StepRow {
    ghost name = { table.TariffSteps };

    ghost key = { λ r. key.Step r.tariff r.place };

    fn table() -> TableName {
        TableName::TariffSteps
    }

    fn key(&self) -> RowKey {
        RowKey::Step(self.tariff, self.place)
    }
}

impl Named for DatedStepRow {
    ghost name = { table.DatedSteps };

    ghost key = { λ r. key.DatedStep r.tariff r.day r.place };

    fn table() -> TableName {
        TableName::DatedSteps
    }

    fn key(&self) -> RowKey {
        RowKey::DatedStep(self.tariff, self.day, self.place)
    }
}

impl Named for MeterRow {
    ghost name = { table.Meters };

    ghost key = { λ r. key.Meter r.number };

    fn table() -> TableName {
        TableName::Meters
    }

    fn key(&self) -> RowKey {
        RowKey::Meter(self.number)
    }
}

impl Named for BaseRow {
    ghost name = { table.MeterBases };

    ghost key = { λ r. key.Base r.meter r.base };

    fn table() -> TableName {
        TableName::MeterBases
    }

    fn key(&self) -> RowKey {
        RowKey::Base(self.meter, self.base)
    }
}

impl Named for Shift {
    ghost name = { table.Shifts };

    ghost key = { λ s. key.Number s.number };

    fn table() -> TableName {
        TableName::Shifts
    }

    fn key(&self) -> RowKey {
        RowKey::Number(u64::from(self.number))
    }
}

impl Named for Sale {
    ghost name = { table.Sales };

    ghost key = { λ s. key.Number s.number };

    fn table() -> TableName {
        TableName::Sales
    }

    fn key(&self) -> RowKey {
        RowKey::Number(u64::from(self.number))
    }
}

impl Named for SaleRow {
    ghost name = { table.Sales };

    ghost key = { λ r. key.Number r.sale.number };

    fn table() -> TableName {
        TableName::Sales
    }

    fn key(&self) -> RowKey {
        self.sale.key()
    }
}

impl Named for LastId {
    ghost name = { table.LastIds };

    ghost key = { λ r. key.Base r.meter r.base };

    fn table() -> TableName {
        TableName::LastIds
    }

    fn key(&self) -> RowKey {
        RowKey::Base(self.meter, self.base)
    }
}

impl Named for MonthTenths {
    ghost name = { table.MonthTenths };

    ghost key = { λ r. key.Month r.meter r.month };

    fn table() -> TableName {
        TableName::MonthTenths
    }

    fn key(&self) -> RowKey {
        RowKey::Month(self.meter, self.month)
    }
}

impl Named for ShiftTotals {
    ghost name = { table.ShiftTotals };

    ghost key = { λ r. key.Number r.shift };

    fn table() -> TableName {
        TableName::ShiftTotals
    }

    fn key(&self) -> RowKey {
        RowKey::Number(u64::from(self.shift))
    }
}
