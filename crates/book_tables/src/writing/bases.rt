//! The statements on the bases of meters.

ghost use Rattle.std.specs.Prelude.{OnOk};
ghost use Rattle.sqlite.specs.State.{HasCleanDisk};
ghost use Rattle.one_table.specs.Over.{Inside};
ghost use Rattle.one_table.specs.InTransaction.{IsUnderWay, WorksInside};
ghost use Rattle.book_tables.specs.writing.Failing.{End, FailsToWriteAll};
ghost use Rattle.book_tables.specs.reading.Reading.{HasAllTables};
ghost use Rattle.book_tables.specs.writing.Writes.{base_set, base_writes, new_base};
ghost use Rattle.book_tables.specs.writing.Writing.{AddsBase, MovesBase, SetsBase, WritesTables};

use crate::error::TableError;
use crate::row::values::base_values;
use crate::texts::{BASE_SET, NEW_BASE};
use crate::writing::store::{put, set};
use office_rules::MeterNo;
use sqlite::{Alter, Transaction};
use sts_fields::Base;

/// Adds a base that the meter of a number has had.
///
/// # Errors
/// `TableError::Database`: a base that the meter has had, a meter that is not there; or there is no
/// memory, or the disk fails.
pub fn add_base<S: Alter>(
    tx: &mut Transaction<'_, S>,
    number: &MeterNo,
    base: Base,
) -> Result<(), TableError>
    ensures writes { WorksInside S.Store tx result (λ old new. WritesTables
        (new_base number.now base) (AddsBase number.now base) old new result) }
{
    put(tx, NEW_BASE, &base_values(number, base))
}

/// Sets the present base of the meter of a number.
///
/// # Errors
/// `TableError::Database` if there is no memory, or the disk fails.
pub fn set_base<S: Alter>(
    tx: &mut Transaction<'_, S>,
    number: &MeterNo,
    base: Base,
) -> Result<(), TableError>
    ensures writes { WorksInside S.Store tx result (λ old new. WritesTables
        (base_set number.now base) (SetsBase number.now base) old new result) }
{
    set(tx, BASE_SET, &base_values(number, base))
}

/// Moves the meter of a number to a base, which is among those that it had from then on.
///
/// What was written before an error goes with the transaction, which the caller drops.
///
/// # Errors
/// `TableError::Database`: a base that the meter has had; or there is no memory, or the disk fails.
pub fn move_base<S: Alter>(
    tx: &mut Transaction<'_, S>,
    number: &MeterNo,
    base: Base,
) -> Result<(), TableError>
    ensures moved { WorksInside S.Store tx result (λ old new. HasCleanDisk new → HasAllTables old
        → OnOk result (MovesBase number.now base old new)) }
    ensures ends { Inside S.Store tx (λ old new. HasCleanDisk new → IsUnderWay old
        → HasAllTables old → End FailsToWriteAll (base_writes number.now base) old new result) }
{
    set_base(tx, number, base)?;
    add_base(tx, number, base)
}
