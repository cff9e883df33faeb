//! The rows of the office's tables, as records of all their columns.

ghost use Rattle.audit_rows.specs.Records.{shown_base, shown_dated_step, shown_last_id};
ghost use Rattle.audit_rows.specs.Records.{shown_month, shown_shift_totals, shown_step_row};
ghost use Rattle.audit_rows.specs.Values.{AreBaseValues, AreDatedStepValues, AreLastIdValues};
ghost use Rattle.audit_rows.specs.Values.{AreMonthValues, AreShiftTotalsValues, AreStepRowValues};

use book_tables::{Record, Totals, cells};
use office_rules::{MeterNo, TariffName};
use sqlite::Row;
use sts_fields::{Base, Day};
use tariff::Step;

/// A step of a tariff, at its place from 0.
#[derive(Clone, Copy, Debug)]
pub struct StepRow {
    /// The tariff's name.
    pub tariff: TariffName,
    /// The place of the step, from 0.
    pub place: u32,
    /// The step.
    pub step: Step,
}

impl Record for StepRow {
    ghost shown = { shown_step_row };

    ghost keeps = { AreStepRowValues };

    fn of_row(row: &Row) -> Option<StepRow> {
        if row.column_count() != 4 {
            return None;
        }
        Some(StepRow {
            tariff: cells::tariff_at(row, 0)?,
            place: cells::word_at(row, 1)?,
            step: Step {
                ends: cells::end_at(row, 2)?,
                price: cells::between_at(row, 3, 1, 1_000_000)?,
            },
        })
    }
}

/// The last identifier of a meter under a base.
#[derive(Clone, Copy, Debug)]
pub struct LastId {
    /// The number of the meter.
    pub meter: MeterNo,
    /// The base.
    pub base: Base,
    /// The identifier.
    pub tid: u32,
}

impl Record for LastId {
    ghost shown = { shown_last_id };

    ghost keeps = { AreLastIdValues };

    fn of_row(row: &Row) -> Option<LastId> {
        if row.column_count() != 3 {
            return None;
        }
        Some(LastId {
            meter: cells::meter_no_at(row, 0)?,
            base: cells::base_at(row, 1)?,
            tid: cells::tid_at(row, 2)?,
        })
    }
}

/// The tenths of a kWh that were sold to a meter in a month.
#[derive(Clone, Copy, Debug)]
pub struct MonthTenths {
    /// The number of the meter.
    pub meter: MeterNo,
    /// The month, as `month_of` numbers it.
    pub month: u32,
    /// The tenths of a kWh.
    pub tenths: u64,
}

impl Record for MonthTenths {
    ghost shown = { shown_month };

    ghost keeps = { AreMonthValues };

    fn of_row(row: &Row) -> Option<MonthTenths> {
        if row.column_count() != 3 {
            return None;
        }
        Some(MonthTenths {
            meter: cells::meter_no_at(row, 0)?,
            month: cells::word_at(row, 1)?,
            tenths: cells::total_at(row, 2)?,
        })
    }
}

/// The totals of the sales of a shift.
#[derive(Clone, Copy, Debug)]
pub struct ShiftTotals {
    /// The number of the shift.
    pub shift: u32,
    /// Its totals.
    pub totals: Totals,
}

impl Record for ShiftTotals {
    ghost shown = { shown_shift_totals };

    ghost keeps = { AreShiftTotalsValues };

    fn of_row(row: &Row) -> Option<ShiftTotals> {
        if row.column_count() != 4 {
            return None;
        }
        Some(ShiftTotals {
            shift: cells::number_at(row, 0)?,
            totals: Totals {
                sales: cells::total_at(row, 1)?,
                tenths: cells::total_at(row, 2)?,
                cash: cells::total_at(row, 3)?,
            },
        })
    }
}

/// A base that a meter had.
#[derive(Clone, Copy, Debug)]
pub struct BaseRow {
    /// The number of the meter.
    pub meter: MeterNo,
    /// The base.
    pub base: Base,
}

impl Record for BaseRow {
    ghost shown = { shown_base };

    ghost keeps = { AreBaseValues };

    fn of_row(row: &Row) -> Option<BaseRow> {
        if row.column_count() != 2 {
            return None;
        }
        Some(BaseRow {
            meter: cells::meter_no_at(row, 0)?,
            base: cells::base_at(row, 1)?,
        })
    }
}

/// A step of those that a tariff has from a day on, at its place from 0.
#[derive(Clone, Copy, Debug)]
pub struct DatedStepRow {
    /// The tariff's name.
    pub tariff: TariffName,
    /// The day from which they hold.
    pub day: Day,
    /// The place of the step, from 0.
    pub place: u32,
    /// The step.
    pub step: Step,
}

impl Record for DatedStepRow {
    ghost shown = { shown_dated_step };

    ghost keeps = { AreDatedStepValues };

    fn of_row(row: &Row) -> Option<DatedStepRow> {
        if row.column_count() != 5 {
            return None;
        }
        Some(DatedStepRow {
            tariff: cells::tariff_at(row, 0)?,
            day: cells::day_at(row, 1)?,
            place: cells::word_at(row, 2)?,
            step: Step {
                ends: cells::end_at(row, 3)?,
                price: cells::between_at(row, 4, 1, 1_000_000)?,
            },
        })
    }
}
