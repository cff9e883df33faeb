//! The rows of an import.

ghost use Rattle.std.specs.Prelude.{◌≤◌, [], ◌∷◌, length, OnOk};
ghost use Rattle.std.specs.List.{flat_map};
ghost use Rattle.sqlite.specs.State.{HasCleanDisk};
ghost use Rattle.one_table.specs.Over.{Inside};
ghost use Rattle.one_table.specs.InTransaction.{IsUnderWay, WorksInside};
ghost use Rattle.book_tables.specs.writing.Failing.{End, FailsToWriteAll};
ghost use Rattle.book_tables.specs.writing.Writes.{AreCarriedOut, row_writes};
ghost use Rattle.book_tables.specs.reading.Reading.{HasAllTables};
ghost use Rattle.book_states.specs.Changing.{MakesRows};

use book_tables::writing::additions::{add_meter, add_tariff};
use book_tables::writing::dated_steps::add_steps;
use book_tables::{TableError, members_law};
use office_rules::Row;
use sqlite::{Alter, Error, ErrorCode, Transaction};

/// Adds the rows of an import, one after another.
///
/// An import that changes something has at least one. With none there would be no statement to
/// tell that the transaction is still under way, and so there is an error.
pub(crate) fn add_rows<S: Alter>(
    tx: &mut Transaction<'_, S>,
    rows: &[Row],
) -> Result<(), TableError>
    ensures added { WorksInside S.Store tx result (λ old new. HasCleanDisk new → IsUnderWay old
        → HasAllTables old → OnOk result (MakesRows rows.now old.now new.now)) }
    ensures carried { Inside S.Store tx (λ old new. HasCleanDisk new → IsUnderWay old
        → HasAllTables old → OnOk result (AreCarriedOut (flat_map row_writes rows.now) old new)) }
    ensures ends { Inside S.Store tx (λ old new. HasCleanDisk new → IsUnderWay old
        → HasAllTables old → 1 ≤ length rows.now
        → End FailsToWriteAll (flat_map row_writes rows.now) old new result) }
{
    let Some((first, others)) = rows.split_first() else {
        return Err(TableError::Database(Error::SqliteFailure(ErrorCode::TransactionState)));
    };
    add_row(tx, first)?;
    'others: for row in others {
        add_row(tx, row)?;
    }
    Ok(())
}

fn add_row<S: Alter>(tx: &mut Transaction<'_, S>, row: &Row) -> Result<(), TableError>
    ensures added { WorksInside S.Store tx result (λ old new. HasCleanDisk new → HasAllTables old
        → OnOk result (MakesRows (row.now ∷ []) old.now new.now)) }
    ensures ends { Inside S.Store tx (λ old new. HasCleanDisk new → IsUnderWay old
        → HasAllTables old → End FailsToWriteAll (row_writes row.now) old new result) }
{
    members_law();
    match row {
        Row::Tariff(name, steps) => add_tariff(tx, name, steps.as_slice()),
        Row::Steps(name, day, steps) => add_steps(tx, name, *day, steps.as_slice()),
        Row::Meter(number, meter) => add_meter(tx, number, meter),
    }
}
