//! The records that all rows of an answer show.

ghost use Rattle.std.specs.Prelude.{◌≡◌, map, IfOk};
ghost use Rattle.sqlite.specs.Values.{bound};
ghost use Rattle.sqlite.specs.State.{HasCleanDisk, IsUnchanged};
ghost use Rattle.one_table.specs.Over.{Over};
ghost use Rattle.one_table.specs.Answer.{GivesAll, OnlyAsks};
ghost use Rattle.one_table.specs.ReadsOnly.{ReadsOnly};
ghost use Rattle.book_tables.specs.reading.Reading.{FailsToShowRow, IsShown, ShowsRecord};

use crate::error::TableError;
use crate::row::record::{Record, ShownRecord};
use one_table::read_rows;
use sqlite::types::ValueRef;
use sqlite::{Alter, Connection};
use std::alloc::{AllocError, Global};

pub(crate) fn records_of<T: Record + Drop>(
    alloc: Global,
    shown: Vec<ShownRecord<T>>,
) -> Result<Vec<T>, AllocError>
    ensures { IfOk result (λ records. records.items ≡ map (λ s. s.record) shown.items) }
{
    shown.into_iter().map(|shown| shown.record).collect(alloc)
}

/// The records that the rows of an answer show, in its order: for a SELECT over one table.
///
/// # Errors
/// `TableError::Database` if the database refuses or fails, or memory runs out.
/// `TableError::RowOfNoOffice` if a row shows no such record.
pub fn all_records<S: Alter, T: Record + Drop>(
    alloc: Global,
    conn: &mut Connection<S>,
    sql: &str,
    params: &[ValueRef<'_>],
) -> Result<Vec<T>, TableError>
    ensures given { Over S.Store conn (λ old new. HasCleanDisk new → OnlyAsks sql.now old
        → IfOk result (λ found. GivesAll (IsShown T.Record.shown T.Record.keeps) sql.now (bound
        params.now) old new found.items)) }
    ensures reads { Over S.Store conn (λ old new. ReadsOnly (OnlyAsks sql.now) IsUnchanged
        (FailsToShowRow (ShowsRecord T.Record.shown T.Record.keeps) sql.now (bound params.now))
        old new result) }
{
    let shown: Vec<ShownRecord<T>> = read_rows(alloc, conn, sql, params)?;
    Ok(records_of(alloc, shown)?)
}
