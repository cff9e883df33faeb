//! What is read of the tables of each format.

ghost use Rattle.std.specs.Prelude.{◌≡◌, ℕ, IfOk, map, refl};
ghost use Rattle.audit_rows.specs.Entries.{present_base, sale_entry};

use crate::office_rows::OfficeRows;
use crate::rows::{BaseRow, DatedStepRow, LastId, MonthTenths, ShiftTotals, StepRow};
use crate::sale_row::SaleRow;
use crate::source::Source;
use book_tables::reading::pages::MeterRow;
use office_rules::{Sale, Shift, TariffName};
use sqlite::Alter;
use std::alloc::{AllocError, Global};

/// What is read of all tables of a format.
pub(crate) trait Tables<S: Alter>: Source<S> {
    ghost use Rattle.sqlite.specs.Effect.{Database};
    ghost use Rattle.audit_rows.specs.Tables.{tables_of};
    ghost use Rattle.audit_rows.specs.AllRows.{IsReadAs};
    ghost use Rattle.audit_rows.specs.Entries.{rows_of};

    // The number of the format.
    ghost format: { ℕ };

    fn into_rows(self, alloc: Global) -> Result<OfficeRows, AllocError>
        ensures { (db : Database) → Self.says db self
            → IfOk result (λ r. IsReadAs format db (rows_of r)) };

    ghost reads: { Self.tables ≡ tables_of format };
}

// Those of the first format,
pub(crate) type First = (
    Vec<TariffName>,
    (Vec<StepRow>, (Vec<MeterRow>, (Vec<Shift>, Vec<SaleRow>))),
);

// with the totals,
pub(crate) type Second = (First, (Vec<LastId>, (Vec<MonthTenths>, Vec<ShiftTotals>)));

// with the bases of meters,
pub(crate) type Third = (Second, Vec<BaseRow>);

// and with the steps of later days.
pub(crate) type Fourth = (Third, Vec<DatedStepRow>);

// The present base of each meter.
fn present_bases(alloc: Global, meters: &[MeterRow]) -> Result<Vec<BaseRow>, AllocError>
    ensures { IfOk result (λ bases. bases.items ≡ map present_base meters.now) }
{
    let mut bases = Vec::new(alloc);
    'meters: for row in meters {
        bases.push(BaseRow {
            meter: row.number,
            base: row.meter.base,
        })?;
    }
    Ok(bases)
}

// The sales of some rows.
fn sales_of(alloc: Global, rows: &[SaleRow]) -> Result<Vec<Sale>, AllocError>
    ensures { IfOk result (λ sales. sales.items ≡ map sale_entry rows.now) }
{
    let mut sales = Vec::new(alloc);
    'rows: for row in rows {
        sales.push(row.sale)?;
    }
    Ok(sales)
}

impl<S: Alter> Tables<S> for First {
    ghost format = { 1 };

    fn into_rows(self, alloc: Global) -> Result<OfficeRows, AllocError> {
        let (tariffs, (steps, (meters, (shifts, sales)))) = self;
        let bases = present_bases(alloc, &meters)?;
        let sales = sales_of(alloc, &sales)?;
        Ok(OfficeRows {
            tariffs,
            steps,
            meters,
            shifts,
            sales,
            last_ids: Vec::new(alloc),
            month_tenths: Vec::new(alloc),
            shift_totals: Vec::new(alloc),
            bases,
            dated_steps: Vec::new(alloc),
        })
    }

    ghost reads = { refl };
}

impl<S: Alter> Tables<S> for Second {
    ghost format = { 2 };

    fn into_rows(self, alloc: Global) -> Result<OfficeRows, AllocError> {
        let (first, (last_ids, (month_tenths, shift_totals))) = self;
        let rows = <First as Tables<S>>::into_rows(first, alloc)?;
        Ok(OfficeRows {
            last_ids,
            month_tenths,
            shift_totals,
            ..rows
        })
    }

    ghost reads = { refl };
}

impl<S: Alter> Tables<S> for Third {
    ghost format = { 3 };

    fn into_rows(self, alloc: Global) -> Result<OfficeRows, AllocError> {
        let (second, bases) = self;
        let rows = <Second as Tables<S>>::into_rows(second, alloc)?;
        Ok(OfficeRows { bases, ..rows })
    }

    ghost reads = { refl };
}

impl<S: Alter> Tables<S> for Fourth {
    ghost format = { 4 };

    fn into_rows(self, alloc: Global) -> Result<OfficeRows, AllocError> {
        let (third, dated_steps) = self;
        let rows = <Third as Tables<S>>::into_rows(third, alloc)?;
        Ok(OfficeRows {
            dated_steps,
            ..rows
        })
    }

    ghost reads = { refl };
}
