//! What writes a row, sets columns of rows or deletes rows, and how it fails.

ghost use Rattle.std.specs.Prelude.{◌≡◌, ◌≢◌, ℕ, List, true, length, IsTrue, IfErr, OnOk};
ghost use Rattle.one_table.specs.Over.{Inside};
ghost use Rattle.sqlite.specs.Query.{Query};
ghost use Rattle.sqlite.specs.State.{HasCleanDisk};
ghost use Rattle.sqlite.specs.Table.{Table};
ghost use Rattle.sqlite.specs.Term.{Term};
ghost use Rattle.sqlite.specs.Values.{bound};
ghost use Rattle.one_table.specs.Changing.{IsUpdate};
ghost use Rattle.one_table.specs.Deleting.{IsDelete};
ghost use Rattle.one_table.specs.InTransaction.{PutsRow, RemovesRows, SetsRows, WorksInside};
ghost use Rattle.one_table.specs.Inserting.{IsInsert, new_row};
ghost use Rattle.one_table.specs.Place.{Has};
ghost use Rattle.one_table.specs.Reading.{is_whole};
ghost use Rattle.one_table.specs.Referring.{is_left_alone};
ghost use Rattle.book_tables.specs.writing.Failing.{Ends, FailsToStore};

use crate::error::TableError;
use one_table::{delete, insert, update};
use sqlite::types::ValueRef;
use sqlite::{Alter, Transaction};

/// Puts one row into a table.
pub(crate) fn put<S: Alter>(
    tx: &mut Transaction<'_, S>,
    sql: &str,
    params: &[ValueRef<'_>],
) -> Result<(), TableError>
    ensures added { WorksInside S.Store tx result (λ old new. HasCleanDisk new
        → (t : Table) (at : ℕ) (terms : List Term) → IsInsert t terms sql.now
        → (IsTrue old.is_open → Has old.now.schema at t)
        → OnOk result (PutsRow t (new_row t terms (bound params.now) (old.now.trees t.tree)) old
        new)) }
    ensures database { IfErr result (λ e. e ≢ TableError.RowOfNoOffice) }
    ensures ends { Inside S.Store tx (λ old new. HasCleanDisk new
        → (t : Table) (at : ℕ) (terms : List Term) → IsInsert t terms sql.now
        → is_whole sql.now (length (bound params.now)) ≡ true → (IsTrue old.is_open
        → Has old.now.schema at t)
        → Ends FailsToStore (record { sql = sql.now; params = bound params.now }) old new result) }
{
    insert(tx, sql, params)?;
    Ok(())
}

/// Sets columns of the rows that a text finds.
pub(crate) fn set<S: Alter>(
    tx: &mut Transaction<'_, S>,
    sql: &str,
    params: &[ValueRef<'_>],
) -> Result<(), TableError>
    ensures changed { WorksInside S.Store tx result (λ old new. HasCleanDisk new
        → (t : Table) (at : ℕ) (q : Query) → IsUpdate t q sql.now → (IsTrue old.is_open
        → Has old.now.schema at t × (is_left_alone old.now.schema t.tree ≡ true))
        → OnOk result (SetsRows t q (bound params.now) old new)) }
    ensures database { IfErr result (λ e. e ≢ TableError.RowOfNoOffice) }
    ensures ends { Inside S.Store tx (λ old new. HasCleanDisk new
        → (t : Table) (at : ℕ) (q : Query) → IsUpdate t q sql.now
        → is_whole sql.now (length (bound params.now)) ≡ true → (IsTrue old.is_open
        → Has old.now.schema at t)
        → Ends FailsToStore (record { sql = sql.now; params = bound params.now }) old new result) }
{
    update(tx, sql, params)?;
    Ok(())
}

/// Deletes the rows that a text finds.
pub(crate) fn remove<S: Alter>(
    tx: &mut Transaction<'_, S>,
    sql: &str,
    params: &[ValueRef<'_>],
) -> Result<(), TableError>
    ensures changed { WorksInside S.Store tx result (λ old new. HasCleanDisk new
        → (t : Table) (at : ℕ) (q : Query) → IsDelete t q sql.now → (IsTrue old.is_open
        → Has old.now.schema at t × (is_left_alone old.now.schema t.tree ≡ true))
        → OnOk result (RemovesRows t q (bound params.now) old new)) }
    ensures database { IfErr result (λ e. e ≢ TableError.RowOfNoOffice) }
    ensures ends { Inside S.Store tx (λ old new. HasCleanDisk new
        → (t : Table) (at : ℕ) (q : Query) → IsDelete t q sql.now
        → is_whole sql.now (length (bound params.now)) ≡ true → (IsTrue old.is_open
        → Has old.now.schema at t)
        → Ends FailsToStore (record { sql = sql.now; params = bound params.now }) old new result) }
{
    delete(tx, sql, params)?;
    Ok(())
}
