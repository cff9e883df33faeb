ghost use Rattle.std.specs.Prelude.{◌≡◌, ℕ, IsTrue, IfErr, IfOk, OnOk, length, true};
ghost use Rattle.sqlite.specs.Values.{bound};
ghost use Rattle.sqlite.specs.State.{HasCleanDisk};
ghost use Rattle.one_table.specs.Over.{Inside};
ghost use Rattle.sqlite_value.specs.Order.{Row as Stored};
ghost use Rattle.sqlite.specs.Table.{Table};
ghost use Rattle.one_table.specs.InTransaction.{BeginsWith, IsUnderWay, ShowsInside};
ghost use Rattle.one_table.specs.InTransaction.{WorksInside};
ghost use Rattle.one_table.specs.Merges.{FailsToTouch, FailsToUpsert, StandsForUpserts};
ghost use Rattle.one_table.specs.Merges.{TakesUpserts, Touches, Upserts, shown_row};
ghost use Rattle.one_table.specs.Reading.{is_whole};
ghost use Rattle.one_table.specs.Upserting.{IsUpsert, Merging};

use crate::from_row::FromRow;
use crate::read_fault::ReadFault;
use crate::writing::show;
use sqlite::types::ValueRef;
use sqlite::{Alter, Transaction};

/// Puts one row into a table, or sets columns of the row that has its key, by a text with ON
/// CONFLICT and RETURNING. The value is what the text shows of the row as it is afterwards.
///
/// # Errors
/// `ReadFault::Database` if the database refuses or fails, or memory runs out. `ReadFault::Row` if
/// the shown columns of the row stand for no value. A row that was written before an error stays
/// until the caller drops the transaction.
pub fn upsert<S: Alter, X: FromRow>(
    tx: &mut Transaction<'_, S>,
    sql: &str,
    params: &[ValueRef<'_>],
) -> Result<X, ReadFault>
    ensures merged { WorksInside S.Store tx result (λ old new. HasCleanDisk new → IsUnderWay old
        → (t : Table) (at : ℕ) (m : Merging) → IsUpsert t m sql.now → (IsTrue old.is_open
        → TakesUpserts old.now at t)
        → IfOk result (λ x. (row : Stored) × X.FromRow.reads_as (shown_row t m (bound params.now)
        row) x × Upserts t m (bound params.now) old new row)) }
    ensures touched { Inside S.Store tx (λ old new. HasCleanDisk new → IsUnderWay old
        → (t : Table) (at : ℕ) (m : Merging) → IsUpsert t m sql.now → (IsTrue old.is_open
        → StandsForUpserts old.now.schema at t)
        → OnOk result (Touches t m (bound params.now) old new)) }
    ensures ran { Inside S.Store tx (λ old new. HasCleanDisk new
        → (t : Table) (at : ℕ) (m : Merging) → IsUpsert t m sql.now → (IsTrue old.is_open
        → StandsForUpserts old.now.schema at t)
        → IfOk result (λ x. ShowsInside (BeginsWith (λ row. X.FromRow.reads_as row x)) sql.now (bound
        params.now) old new)) }
    ensures refused { Inside S.Store tx (λ old new. HasCleanDisk new → IsUnderWay old
        → (t : Table) (at : ℕ) (m : Merging) → IsUpsert t m sql.now
        → is_whole sql.now (length (bound params.now)) ≡ true → (IsTrue old.is_open
        → TakesUpserts old.now at t)
        → IfErr result (FailsToUpsert t m (bound params.now) old new at X.FromRow.is_readable)) }
    ensures failed { Inside S.Store tx (λ old new. HasCleanDisk new → IsUnderWay old
        → (t : Table) (at : ℕ) (m : Merging) → IsUpsert t m sql.now
        → is_whole sql.now (length (bound params.now)) ≡ true → (IsTrue old.is_open
        → StandsForUpserts old.now.schema at t)
        → IfErr result (FailsToTouch t m (bound params.now) old new at sql.now
        X.FromRow.is_readable)) }
{
    let rows = show(tx, sql, params)?;
    match rows.first() {
        Some(row) => X::from_row(row),
        None => Err(ReadFault::Row),
    }
}
