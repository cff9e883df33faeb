//! What puts a row in or merges it into the one that has its key, and how that fails.

ghost use Rattle.std.specs.Prelude.{◌≡◌, ℕ, true, length, Err, IsTrue, IfOk, OnOk};
ghost use Rattle.one_table.specs.Over.{Inside};
ghost use Rattle.sqlite.specs.Order.{Row};
ghost use Rattle.sqlite.specs.State.{HasCleanDisk};
ghost use Rattle.sqlite.specs.Table.{Table};
ghost use Rattle.sqlite.specs.Values.{bound};
ghost use Rattle.one_table.specs.InTransaction.{BeginsWith, IsUnderWay, ShowsInside, WorksInside};
ghost use Rattle.one_table.specs.Merges.{StandsForUpserts, TakesUpserts, Touches, Upserts};
ghost use Rattle.one_table.specs.Merges.{shown_row};
ghost use Rattle.one_table.specs.Reading.{is_whole};
ghost use Rattle.one_table.specs.Upserting.{IsUpsert, Merging};
ghost use Rattle.book_tables.specs.reading.Reading.{IsShown, ShowsRecord};
ghost use Rattle.book_tables.specs.writing.Failing.{Ends, FailsToMerge};

use crate::error::TableError;
use crate::row::record::{Record, ShownRecord};
use one_table::upsert;
use sqlite::types::ValueRef;
use sqlite::{Alter, Transaction};

/// Puts a row in, or merges it into the one that has its key. The value is what is shown of the row
/// as it is then.
pub(crate) fn merge<S: Alter, T: Record>(
    tx: &mut Transaction<'_, S>,
    sql: &str,
    params: &[ValueRef<'_>],
) -> Result<T, TableError>
    ensures merged { WorksInside S.Store tx result (λ old new. HasCleanDisk new → IsUnderWay old
        → (t : Table) (at : ℕ) (m : Merging) → IsUpsert t m sql.now → (IsTrue old.is_open
        → TakesUpserts old.now at t)
        → IfOk result (λ x. (row : Row) × IsShown T.Record.shown T.Record.keeps (shown_row t m
        (bound params.now) row) x × Upserts t m (bound params.now) old new row)) }
    ensures touched { Inside S.Store tx (λ old new. HasCleanDisk new → IsUnderWay old
        → (t : Table) (at : ℕ) (m : Merging) → IsUpsert t m sql.now → (IsTrue old.is_open
        → StandsForUpserts old.now.schema at t)
        → OnOk result (Touches t m (bound params.now) old new)) }
    ensures ends { Inside S.Store tx (λ old new. HasCleanDisk new → IsUnderWay old
        → (t : Table) (at : ℕ) (m : Merging) → IsUpsert t m sql.now
        → is_whole sql.now (length (bound params.now)) ≡ true → (IsTrue old.is_open
        → StandsForUpserts old.now.schema at t)
        → Ends (FailsToMerge (ShowsRecord T.Record.shown T.Record.keeps)) (record {
          sql = sql.now;
          params = bound params.now;
        }) old new result) }
    ensures told { Inside S.Store tx (λ old new. HasCleanDisk new
        → (t : Table) (at : ℕ) (m : Merging) → IsUpsert t m sql.now → (IsTrue old.is_open
        → StandsForUpserts old.now.schema at t)
        → IfOk result (λ x. ShowsInside (BeginsWith (λ row. IsShown T.Record.shown T.Record.keeps
        row x)) sql.now (bound params.now) old new)) }
    ensures false_row { Inside S.Store tx (λ old new. HasCleanDisk new → IsUnderWay old
        → (t : Table) (at : ℕ) (m : Merging) → IsUpsert t m sql.now
        → is_whole sql.now (length (bound params.now)) ≡ true → (IsTrue old.is_open
        → TakesUpserts old.now at t) → result ≡ Err TableError.RowOfNoOffice
        → (row : Row) × (¬ ShowsRecord T.Record.shown T.Record.keeps (shown_row t m (bound
        params.now) row)) × Upserts t m (bound params.now) old new row) }
{
    let shown: ShownRecord<T> = upsert(tx, sql, params)?;
    Ok(shown.record)
}
