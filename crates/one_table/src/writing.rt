ghost use Rattle.std.specs.Prelude.{ℕ, Ok, OnOk, IfOk, IfErr};
ghost use Rattle.sqlite.specs.Values.{bound};
ghost use Rattle.sqlite.specs.State.{HasCleanDisk, ExecutesInside, Shown};
ghost use Rattle.one_table.specs.Over.{Inside};
ghost use Rattle.one_table.specs.InTransaction.{FailsToRun, FailsToShow, WorksInside};

use sqlite::types::ValueRef;
use sqlite::{Alter, Error, Row, Transaction};

/// Runs a text that shows nothing.
pub(crate) fn run<S: Alter>(
    tx: &mut Transaction<'_, S>,
    sql: &str,
    params: &[ValueRef<'_>],
) -> Result<(), Error>
    ensures ran { WorksInside S.Store tx result (λ old new. HasCleanDisk new
        → OnOk result ((count : ℕ) × ExecutesInside 0 sql.now (bound params.now) old new (Ok
        count))) }
    ensures refused { Inside S.Store tx (λ old new. HasCleanDisk new
        → IfErr result (FailsToRun sql.now (bound params.now) old new)) }
{
    tx.execute(sql, params)?;
    Ok(())
}

/// Runs a text that shows rows: a query, or a write with RETURNING.
pub(crate) fn show<S: Alter>(
    tx: &mut Transaction<'_, S>,
    sql: &str,
    params: &[ValueRef<'_>],
) -> Result<Vec<Row>, Error>
    ensures shown { WorksInside S.Store tx result (λ old new. HasCleanDisk new
        → IfOk result (λ rows. Shown sql.now (bound params.now) old new rows.items)) }
    ensures refused { Inside S.Store tx (λ old new. HasCleanDisk new
        → IfErr result (FailsToShow sql.now (bound params.now) old new)) }
{
    tx.query_all(sql, params)
}
