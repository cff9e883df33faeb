//! The statements that add rows to the tables.

ghost use Rattle.std.specs.Prelude.{◌≤◌, length, OnOk};
ghost use Rattle.sqlite.specs.State.{HasCleanDisk};
ghost use Rattle.one_table.specs.Over.{Inside};
ghost use Rattle.one_table.specs.InTransaction.{IsUnderWay, WorksInside};
ghost use Rattle.book_tables.specs.writing.Failing.{End, FailsToWriteAll};
ghost use Rattle.book_tables.specs.writing.Edited.{step_row};
ghost use Rattle.book_tables.specs.reading.Reading.{HasAllTables};
ghost use Rattle.book_tables.specs.writing.Writes.{meter_writes, new_meter, new_sale, new_shift};
ghost use Rattle.book_tables.specs.writing.Writes.{new_step, new_tariff, tariff_writes};
ghost use Rattle.book_tables.specs.writing.Writing.{AddsMeter, AddsMeterRow, AddsName, AddsSale};
ghost use Rattle.book_tables.specs.writing.Writing.{AddsShift, AddsStep, AddsTariff, WritesTables};

use crate::error::TableError;
use crate::row::values::{meter_values, sale_values, shift_values, step_values, tariff_values};
use crate::texts::{NEW_METER, NEW_SALE, NEW_SHIFT, NEW_STEP, NEW_TARIFF};
use crate::writing::bases::add_base;
use crate::writing::store::put;
use office_rules::{Meter, MeterNo, Sale, Shift, TariffName};
use sqlite::{Alter, Transaction};
use sts_token::key_text;
use tariff::Step;

/// Adds a sale, with the month of its moment.
///
/// # Errors
/// `TableError::Database`: a number or a ref that is taken, an identifier that the meter has had, a
/// shift or a meter that is not there; or there is no memory, or the disk fails.
pub fn add_sale<S: Alter>(tx: &mut Transaction<'_, S>, sale: &Sale) -> Result<(), TableError>
    ensures writes { WorksInside S.Store tx result (λ old new. WritesTables (new_sale sale.now)
        (AddsSale sale.now) old new result) }
{
    put(tx, NEW_SALE, &sale_values(sale))
}

/// Adds a shift.
///
/// # Errors
/// `TableError::Database`: a number that is taken; or there is no memory, or the disk fails.
pub fn add_shift<S: Alter>(tx: &mut Transaction<'_, S>, shift: &Shift) -> Result<(), TableError>
    ensures writes { WorksInside S.Store tx result (λ old new. WritesTables (new_shift shift.now)
        (AddsShift shift.now) old new result) }
{
    put(tx, NEW_SHIFT, &shift_values(shift))
}

/// Adds the row of a meter, with its number and its key.
///
/// # Errors
/// `TableError::Database`: a number that is taken, a tariff that is not there; or there is no
/// memory, or the disk fails.
fn add_meter_row<S: Alter>(
    tx: &mut Transaction<'_, S>,
    number: &MeterNo,
    meter: &Meter,
) -> Result<(), TableError>
    ensures writes { WorksInside S.Store tx result (λ old new. WritesTables
        (new_meter number.now meter.now) (AddsMeterRow number.now meter.now) old new result) }
{
    let secret = key_text(meter.key);
    put(tx, NEW_METER, &meter_values(number, meter, &secret))
}

/// Adds a meter, with its number, its key and its base.
///
/// What was added before an error goes with the transaction, which the caller drops.
///
/// # Errors
/// `TableError::Database`: a number that is taken, a tariff that is not there; or there is no
/// memory, or the disk fails.
pub fn add_meter<S: Alter>(
    tx: &mut Transaction<'_, S>,
    number: &MeterNo,
    meter: &Meter,
) -> Result<(), TableError>
    ensures added { WorksInside S.Store tx result (λ old new. HasCleanDisk new → HasAllTables old
        → OnOk result (AddsMeter number.now meter.now old new)) }
    ensures ends { Inside S.Store tx (λ old new. HasCleanDisk new → IsUnderWay old
        → HasAllTables old
        → End FailsToWriteAll (meter_writes number.now meter.now) old new result) }
{
    add_meter_row(tx, number, meter)?;
    add_base(tx, number, meter.base)
}

/// Adds the name of a tariff, with no steps.
///
/// # Errors
/// `TableError::Database`: a name that is taken; or there is no memory, or the disk fails.
pub fn add_name<S: Alter>(tx: &mut Transaction<'_, S>, name: &TariffName) -> Result<(), TableError>
    ensures writes { WorksInside S.Store tx result (λ old new. WritesTables (new_tariff name.now)
        (AddsName name.now) old new result) }
{
    put(tx, NEW_TARIFF, &tariff_values(name))
}

/// Adds a step of a tariff at a place, from 0.
///
/// # Errors
/// `TableError::Database`: a place that is taken, a tariff that is not there; or there is no
/// memory, or the disk fails.
pub fn add_step<S: Alter>(
    tx: &mut Transaction<'_, S>,
    name: &TariffName,
    place: u32,
    step: Step,
) -> Result<(), TableError>
    ensures writes { let row = step_row name.now place step in WorksInside S.Store tx result
        (λ old new. WritesTables (new_step row) (AddsStep row) old new result) }
{
    put(tx, NEW_STEP, &step_values(name, place, step))
}

/// Adds a tariff with its steps, in their order and from place 0.
///
/// What was added before an error goes with the transaction, which the caller drops.
///
/// # Errors
/// `TableError::Database`: a name that is taken; or there is no memory, or the disk fails.
pub fn add_tariff<S: Alter>(
    tx: &mut Transaction<'_, S>,
    name: &TariffName,
    steps: &[Step],
) -> Result<(), TableError>
    requires { length steps.now ≤ 8 }
    ensures added { WorksInside S.Store tx result (λ old new. HasCleanDisk new → HasAllTables old
        → OnOk result (AddsTariff name.now steps.now old new)) }
    ensures ends { Inside S.Store tx (λ old new. HasCleanDisk new → IsUnderWay old
        → HasAllTables old
        → End FailsToWriteAll (tariff_writes name.now steps.now) old new result) }
{
    add_name(tx, name)?;
    let mut place = 0;
    'steps: for step in steps {
        add_step(tx, name, place, *step)?;
        place += 1;
    }
    Ok(())
}
