ghost use Rattle.std.specs.Prelude.{◌≡◌, ℕ, true, IsTrue, IfErr, OnOk, length};
ghost use Rattle.sqlite.specs.Values.{bound};
ghost use Rattle.sqlite.specs.State.{HasCleanDisk};
ghost use Rattle.one_table.specs.Over.{Inside};
ghost use Rattle.sqlite.specs.Table.{Table};
ghost use Rattle.sqlite.specs.Query.{Query};
ghost use Rattle.one_table.specs.Place.{Has};
ghost use Rattle.one_table.specs.Deleting.{IsDelete, delete_as};
ghost use Rattle.one_table.specs.Reading.{is_whole};
ghost use Rattle.one_table.specs.Referring.{is_left_alone};
ghost use Rattle.one_table.specs.InTransaction.{CarriesOut, FailsToWrite, RemovesRows, WorksInside};

use crate::writing::run;
use sqlite::types::ValueRef;
use sqlite::{Alter, Error, Transaction};

/// Deletes the rows that a text finds.
pub fn delete<S: Alter>(
    tx: &mut Transaction<'_, S>,
    sql: &str,
    params: &[ValueRef<'_>],
) -> Result<(), Error>
    ensures changed { WorksInside S.Store tx result (λ old new. HasCleanDisk new
        → (t : Table) (at : ℕ) (q : Query) → IsDelete t q sql.now → (IsTrue old.is_open
        → Has old.now.schema at t × (is_left_alone old.now.schema t.tree ≡ true))
        → OnOk result (RemovesRows t q (bound params.now) old new)) }
    ensures ran { Inside S.Store tx (λ old new. HasCleanDisk new
        → (t : Table) (at : ℕ) (q : Query) → IsDelete t q sql.now
        → (IsTrue old.is_open → Has old.now.schema at t)
        → OnOk result (CarriesOut sql.now (bound params.now) old new)) }
    ensures refused { Inside S.Store tx (λ old new. HasCleanDisk new
        → (t : Table) (at : ℕ) (q : Query) → IsDelete t q sql.now
        → is_whole sql.now (length (bound params.now)) ≡ true → (IsTrue old.is_open
        → Has old.now.schema at t)
        → IfErr result (FailsToWrite (delete_as at q) (bound params.now) old new)) }
{
    run(tx, sql, params)
}
