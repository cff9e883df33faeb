ghost use Rattle.std.specs.Prelude.{◌≤◌, length, OnOk};
ghost use Rattle.sqlite.specs.State.{HasCleanDisk};
ghost use Rattle.one_table.specs.Over.{Inside};
ghost use Rattle.one_table.specs.InTransaction.{IsUnderWay, WorksInside};
ghost use Rattle.book_tables.specs.writing.Failing.{End, FailsToWriteAll};
ghost use Rattle.book_tables.specs.writing.Edited.{dated_row};
ghost use Rattle.book_tables.specs.reading.Reading.{HasAllTables};
ghost use Rattle.book_tables.specs.writing.Writes.{new_dated, steps_withdrawn, steps_writes};
ghost use Rattle.book_tables.specs.writing.Writing.{AddsDatedStep, AddsSteps, WithdrawsSteps};
ghost use Rattle.book_tables.specs.writing.Writing.{WritesTables};

use crate::error::TableError;
use crate::row::values::{dated_step_values, dated_values};
use crate::texts::{NEW_DATED_STEP, STEPS_WITHDRAWN};
use crate::writing::store::{put, remove};
use office_rules::TariffName;
use sqlite::{Alter, Error, ErrorCode, Transaction};
use sts_fields::Day;
use tariff::Step;

/// Adds a step of those that a tariff has from a day on, at a place, from 0.
///
/// # Errors
/// `TableError::Database`: a place that is taken, a tariff that is not there; or there is no
/// memory, or the disk fails.
pub fn add_dated_step<S: Alter>(
    tx: &mut Transaction<'_, S>,
    name: &TariffName,
    day: Day,
    place: u32,
    step: Step,
) -> Result<(), TableError>
    ensures writes { let row = dated_row name.now day place step in WorksInside S.Store tx result
        (λ old new. WritesTables (new_dated row) (AddsDatedStep row) old new result) }
{
    put(
        tx,
        NEW_DATED_STEP,
        &dated_step_values(name, day, place, step),
    )
}

/// Adds the steps that a tariff has from a day on, in their order and from place 0.
///
/// What was added before an error goes with the transaction, which the caller drops. With no step
/// there would be no statement to tell that the transaction is still under way, and so there is an
/// error.
///
/// # Errors
/// `TableError::Database`: steps of that day, a tariff that is not there; or there is no memory, or
/// the disk fails.
pub fn add_steps<S: Alter>(
    tx: &mut Transaction<'_, S>,
    name: &TariffName,
    day: Day,
    steps: &[Step],
) -> Result<(), TableError>
    requires { length steps.now ≤ 8 }
    ensures added { WorksInside S.Store tx result (λ old new. HasCleanDisk new → HasAllTables old
        → OnOk result (AddsSteps name.now day steps.now old new)) }
    ensures ends { Inside S.Store tx (λ old new. HasCleanDisk new → IsUnderWay old
        → HasAllTables old → 1 ≤ length steps.now
        → End FailsToWriteAll (steps_writes name.now day steps.now) old new result) }
{
    let Some((first, others)) = steps.split_first() else {
        return Err(TableError::Database(Error::SqliteFailure(ErrorCode::TransactionState)));
    };
    add_dated_step(tx, name, day, 0, *first)?;
    let mut place = 1;
    'others: for step in others {
        add_dated_step(tx, name, day, place, *step)?;
        place += 1;
    }
    Ok(())
}

/// Deletes the steps that a tariff has from a day on, if there are any.
///
/// # Errors
/// `TableError::Database` if there is no memory, or the disk fails.
pub fn withdraw_steps<S: Alter>(
    tx: &mut Transaction<'_, S>,
    name: &TariffName,
    day: Day,
) -> Result<(), TableError>
    ensures writes { WorksInside S.Store tx result (λ old new. WritesTables
        (steps_withdrawn name.now day) (WithdrawsSteps name.now day) old new result) }
{
    remove(tx, STEPS_WITHDRAWN, &dated_values(name, day))
}
