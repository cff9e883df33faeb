ghost use Rattle.std.specs.Prelude.{Any, IfErr, IfOk};
ghost use Rattle.std.specs.List.{AllZip};
ghost use Rattle.sqlite.specs.Values.{bound};
ghost use Rattle.sqlite.specs.State.{HasCleanDisk, IsUnchanged, FailsToQuery, Shown};
ghost use Rattle.one_table.specs.Over.{Inside, Over};
ghost use Rattle.one_table.specs.Answer.{OnlyAsks, GivesAll, GivesFirst, FailsToRead};
ghost use Rattle.one_table.specs.InTransaction.{WorksInside};
ghost use Rattle.one_table.specs.ReadFaults.{OnlyWhere};
ghost use Rattle.one_table.specs.ReadsOnly.{ReadsInside, ReadsOnly};

use crate::from_row::FromRow;
use crate::probing::test_open;
use crate::read_fault::ReadFault;
use crate::writing::show;
use sqlite::types::ValueRef;
use sqlite::{Alter, Connection, Error, Row, Transaction};
use std::alloc::Global;

/// All rows of an answer. The connection is tested first: nothing is known of the tables of one
/// that is shut, under which a text might be a write.
fn answer<S: Alter>(
    conn: &mut Connection<S>,
    sql: &str,
    params: &[ValueRef<'_>],
) -> Result<Vec<Row>, Error>
    ensures given { Over S.Store conn (λ old new. HasCleanDisk new → OnlyAsks sql.now old
        → IfOk result (λ rows. Shown sql.now (bound params.now) old new rows.items)) }
    ensures reads { Over S.Store conn (λ old new. ReadsOnly (OnlyAsks sql.now) IsUnchanged
        (FailsToQuery sql.now (bound params.now)) old new result) }
{
    test_open(conn)?;
    conn.query_all(sql, params)
}

/// What the first row of an answer stands for: for a text that answers at most one row, as one
/// with LIMIT 1.
pub fn read_row<S: Alter, X: FromRow>(
    conn: &mut Connection<S>,
    sql: &str,
    params: &[ValueRef<'_>],
) -> Result<Option<X>, ReadFault>
    ensures given { Over S.Store conn (λ old new. HasCleanDisk new → OnlyAsks sql.now old
        → IfOk result (GivesFirst X.FromRow.reads_as sql.now (bound params.now) old new)) }
    ensures reads { Over S.Store conn (λ old new. ReadsOnly (OnlyAsks sql.now) IsUnchanged
        (FailsToRead X.FromRow.is_readable sql.now (bound params.now)) old new result) }
{
    let rows = answer(conn, sql, params)?;
    match rows.first() {
        Some(row) => Ok(Some(X::from_row(row)?)),
        None => Ok(None),
    }
}

/// What each of the rows stands for.
fn values<X: FromRow + Drop>(alloc: Global, rows: &[Row]) -> Result<Vec<X>, ReadFault>
    ensures read { IfOk result (λ found. AllZip X.FromRow.reads_as rows.now found.items) }
    ensures faults { IfErr result (OnlyWhere (Any (λ row. ¬ X.FromRow.is_readable row) rows.now)) }
{
    let mut found = Vec::new(alloc);
    for row in rows {
        found.push(X::from_row(row)?)?;
    }
    Ok(found)
}

/// What the rows of an answer stand for, in the order of the answer: for a text with a bound on
/// its rows.
pub fn read_rows<S: Alter, X: FromRow + Drop>(
    alloc: Global,
    conn: &mut Connection<S>,
    sql: &str,
    params: &[ValueRef<'_>],
) -> Result<Vec<X>, ReadFault>
    ensures given { Over S.Store conn (λ old new. HasCleanDisk new → OnlyAsks sql.now old
        → IfOk result (λ found. GivesAll X.FromRow.reads_as sql.now (bound params.now) old new
        found.items)) }
    ensures reads { Over S.Store conn (λ old new. ReadsOnly (OnlyAsks sql.now) IsUnchanged
        (FailsToRead X.FromRow.is_readable sql.now (bound params.now)) old new result) }
{
    let rows = answer(conn, sql, params)?;
    values(alloc, &rows)
}

/// The same inside a transaction, as in one that reads page after page to bring a file up to date.
pub fn read_rows_inside<S: Alter, X: FromRow + Drop>(
    alloc: Global,
    tx: &mut Transaction<'_, S>,
    sql: &str,
    params: &[ValueRef<'_>],
) -> Result<Vec<X>, ReadFault>
    ensures given { Inside S.Store tx (λ old new. HasCleanDisk new
        → IfOk result (λ found. GivesAll X.FromRow.reads_as sql.now (bound params.now) old new
        found.items)) }
    ensures reads { WorksInside S.Store tx result (λ old new. ReadsInside (OnlyAsks sql.now)
        (FailsToRead X.FromRow.is_readable sql.now (bound params.now)) old new result) }
{
    let rows = show(tx, sql, params)?;
    values(alloc, &rows)
}
