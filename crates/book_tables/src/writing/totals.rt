//! The statements that keep the running totals. Each puts the row of its key in, or merges it into
//! the one that is there.

ghost use Rattle.std.specs.Prelude.{[], ◌∷◌, IfOk};
ghost use Rattle.one_table.specs.Over.{Inside};
ghost use Rattle.sqlite.specs.State.{HasCleanDisk};
ghost use Rattle.one_table.specs.InTransaction.{IsUnderWay, WorksInside};
ghost use Rattle.book_tables.specs.writing.Failing.{End, FailsToTotal};
ghost use Rattle.book_tables.specs.reading.Reading.{HasAllTables};
ghost use Rattle.book_tables.specs.writing.Telling.{ShowsSum, ShowsTid, ShowsTotals, TellsTotals};
ghost use Rattle.book_tables.specs.writing.Writes.{last_id_set, new_sale, sale_counted, sale_writes};
ghost use Rattle.book_tables.specs.writing.Writes.{tenths_added, totals_writes};
ghost use Rattle.book_tables.specs.writing.Writing.{AddsTenths, AddsToShift, FindsNoFalseRow};
ghost use Rattle.book_tables.specs.writing.Writing.{MayAddSold, MayAddTenths, MayAddToShift};
ghost use Rattle.book_tables.specs.writing.Writing.{MayAddTotals, MaySetLastId, MergesTables};
ghost use Rattle.book_tables.specs.writing.Writing.{SetsLastId, TellsSold, TellsSaleTotals};

use crate::error::TableError;
use crate::row::gathered::month_of_sale;
use crate::row::total_records::{Tenths, Tid};
use crate::row::totals::{SaleTotals, Totals};
use crate::row::values::{last_id_values, sale_total_values, tenths_values};
use crate::texts::{LAST_ID_SET, SALE_COUNTED, TENTHS_ADDED};
use crate::writing::additions::add_sale;
use crate::writing::merge::merge;
use office_rules::{MeterNo, Sale};
use sqlite::{Alter, Transaction};
use sts_fields::{Base, amount_law};

/// Sets the last identifier of a meter under a base.
///
/// # Errors
/// `TableError::Database` if there is no memory, or the disk fails.
pub fn set_last_id<S: Alter>(
    tx: &mut Transaction<'_, S>,
    meter: &MeterNo,
    base: Base,
    tid: u32,
) -> Result<(), TableError>
    ensures merges { WorksInside S.Store tx result (λ old new. MergesTables
        (last_id_set (meter.now, base) tid) (λ done. ShowsTid tid)
        (λ done. SetsLastId (meter.now, base) tid) old new result) }
    ensures no_false_row { Inside S.Store tx (λ old new. FindsNoFalseRow (MaySetLastId tid) old
        new result) }
{
    let last: Tid = merge(tx, LAST_ID_SET, &last_id_values(meter, base, tid))?;
    if last.number != tid {
        return Err(TableError::RowOfNoOffice);
    }
    Ok(())
}

/// Adds tenths of a kWh to those of a meter in a month, and answers their sum.
///
/// # Errors
/// `TableError::Database` if there is no memory, or the disk fails. `TableError::RowOfNoOffice` for
/// a sum that no office has.
pub fn add_tenths<S: Alter>(
    tx: &mut Transaction<'_, S>,
    meter: &MeterNo,
    month: u32,
    tenths: u32,
) -> Result<u64, TableError>
    ensures merges { WorksInside S.Store tx result (λ old new. MergesTables
        (tenths_added (meter.now, month) tenths) ShowsSum (AddsTenths (meter.now, month) tenths)
        old new result) }
    ensures no_false_row { Inside S.Store tx (λ old new. FindsNoFalseRow (MayAddTenths (
      meter.now,
      month,
    ) tenths) old new result) }
{
    let all: Tenths = merge(tx, TENTHS_ADDED, &tenths_values(meter, month, tenths))?;
    Ok(all.sum)
}

/// Adds a sale of these tenths at this price to the totals of a shift, and answers these.
///
/// # Errors
/// `TableError::Database` if there is no memory, or the disk fails. `TableError::RowOfNoOffice` for
/// totals that no office has.
pub fn add_to_shift<S: Alter>(
    tx: &mut Transaction<'_, S>,
    shift: u32,
    tenths: u32,
    price: u32,
) -> Result<Totals, TableError>
    ensures merges { WorksInside S.Store tx result (λ old new. MergesTables
        (sale_counted shift tenths price) ShowsTotals (AddsToShift shift tenths price)
        old new result) }
    ensures no_false_row { Inside S.Store tx (λ old new. FindsNoFalseRow (MayAddToShift shift
        tenths price) old new result) }
{
    let all: Totals = merge(tx, SALE_COUNTED, &sale_total_values(shift, tenths, price))?;
    Ok(all)
}

/// Adds a sale to the totals, after which this is the last identifier of its meter under its base,
/// and answers those of its month and its shift.
///
/// What was added before an error goes with the transaction, which the caller drops.
///
/// # Errors
/// `TableError::Database` if there is no memory, or the disk fails. `TableError::RowOfNoOffice` for
/// totals that no office has.
pub fn add_totals<S: Alter>(
    tx: &mut Transaction<'_, S>,
    sale: &Sale,
    last: u32,
) -> Result<SaleTotals, TableError>
    ensures adds { WorksInside S.Store tx result (λ old new. HasCleanDisk new → IsUnderWay old
        → HasAllTables old → IfOk result (λ shown. TellsSaleTotals sale.now last shown old new)) }
    ensures ends { Inside S.Store tx (λ old new. HasCleanDisk new → IsUnderWay old
        → HasAllTables old → End (FailsToTotal [] sale.now last) (totals_writes sale.now last) old
        new result) }
    ensures told { Inside S.Store tx (λ old new. HasCleanDisk new → IsUnderWay old
        → HasAllTables old
        → IfOk result (λ shown. TellsTotals [] sale.now last shown old.step_limit old.now)) }
    ensures no_false_row { Inside S.Store tx (λ old new. FindsNoFalseRow (MayAddTotals sale.now
        last) old new result) }
{
    let month = month_of_sale(sale);
    let tenths = sale.tenths.tenths();
    set_last_id(tx, &sale.meter, sale.base, last)?;
    let month_tenths = add_tenths(tx, &sale.meter, month, tenths)?;
    let shift = add_to_shift(tx, sale.shift, tenths, sale.price)?;
    Ok(SaleTotals {
        month_tenths,
        shift,
    })
}

/// Adds a sale with its totals, and answers those of its month and its shift.
///
/// What was added before an error goes with the transaction, which the caller drops.
///
/// # Errors
/// Those of `add_sale` and of `add_totals`.
pub fn add_sold<S: Alter>(
    tx: &mut Transaction<'_, S>,
    sale: &Sale,
) -> Result<SaleTotals, TableError>
    ensures adds { WorksInside S.Store tx result (λ old new. HasCleanDisk new → IsUnderWay old
        → HasAllTables old → IfOk result (λ shown. TellsSold sale.now shown old new)) }
    ensures ends { Inside S.Store tx (λ old new. HasCleanDisk new → IsUnderWay old
        → HasAllTables old
        → End (FailsToTotal (new_sale sale.now ∷ []) sale.now sale.now.tid) (sale_writes sale.now)
        old new result) }
    ensures told { Inside S.Store tx (λ old new. HasCleanDisk new → IsUnderWay old
        → HasAllTables old
        → IfOk result (λ shown. TellsTotals (new_sale sale.now ∷ []) sale.now sale.now.tid shown
        old.step_limit old.now)) }
    ensures no_false_row { Inside S.Store tx (λ old new. FindsNoFalseRow (MayAddSold sale.now) old
        new result) }
{
    amount_law();
    add_sale(tx, sale)?;
    let totals = add_totals(tx, sale, sale.tid)?;
    Ok(totals)
}
