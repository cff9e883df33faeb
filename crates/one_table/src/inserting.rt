ghost use Rattle.std.specs.Prelude.{◌≡◌, ℕ, List, IsTrue, IfErr, OnOk, length, true};
ghost use Rattle.sqlite.specs.Values.{bound};
ghost use Rattle.sqlite.specs.State.{HasCleanDisk};
ghost use Rattle.one_table.specs.Over.{Inside};
ghost use Rattle.sqlite.specs.Table.{Table};
ghost use Rattle.sqlite.specs.Term.{Term};
ghost use Rattle.one_table.specs.Place.{Has};
ghost use Rattle.one_table.specs.Inserting.{IsInsert, insert_as, new_row};
ghost use Rattle.one_table.specs.InTransaction.{CarriesOut, FailsToWrite, PutsRow, WorksInside};
ghost use Rattle.one_table.specs.Reading.{is_whole};

use crate::writing::run;
use sqlite::types::ValueRef;
use sqlite::{Alter, Error, Transaction};

/// Puts one row into a table, by a text that names its columns.
pub fn insert<S: Alter>(
    tx: &mut Transaction<'_, S>,
    sql: &str,
    params: &[ValueRef<'_>],
) -> Result<(), Error>
    ensures added { WorksInside S.Store tx result (λ old new. HasCleanDisk new
        → (t : Table) (at : ℕ) (terms : List Term) → IsInsert t terms sql.now
        → (IsTrue old.is_open → Has old.now.schema at t)
        → OnOk result (PutsRow t (new_row t terms (bound params.now) (old.now.trees t.tree)) old
        new)) }
    ensures ran { Inside S.Store tx (λ old new. HasCleanDisk new
        → (t : Table) (at : ℕ) (terms : List Term) → IsInsert t terms sql.now
        → (IsTrue old.is_open → Has old.now.schema at t)
        → OnOk result (CarriesOut sql.now (bound params.now) old new)) }
    ensures refused { Inside S.Store tx (λ old new. HasCleanDisk new
        → (t : Table) (at : ℕ) (terms : List Term) → IsInsert t terms sql.now
        → is_whole sql.now (length (bound params.now)) ≡ true → (IsTrue old.is_open
        → Has old.now.schema at t)
        → IfErr result (FailsToWrite (insert_as at t terms) (bound params.now) old new)) }
{
    run(tx, sql, params)
}
