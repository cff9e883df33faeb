//! The records that are read of the rows of an answer.

ghost use Rattle.std.specs.Prelude.{IfOk};
ghost use Rattle.sqlite.specs.Order.{Row};
ghost use Rattle.sqlite.specs.Values.{bound};
ghost use Rattle.sqlite.specs.State.{HasCleanDisk, IsUnchanged};
ghost use Rattle.one_table.specs.Over.{Over};
ghost use Rattle.one_table.specs.Answer.{GivesFirst, OnlyAsks};
ghost use Rattle.one_table.specs.ReadsOnly.{ReadsOnly};
ghost use Rattle.book_tables.specs.row.ReadBack.{ReadsBack};
ghost use Rattle.book_tables.specs.reading.Reading.{FailsToShowRow, IsShown, ShowsRecord};

use crate::error::TableError;
use one_table::{FromRow, ReadFault, read_row};
use sqlite::types::ValueRef;
use sqlite::{Alter, Connection, Row};

/// A record that a row of an answer may show.
pub trait Record: Sized {
    // The columns of a record, and the rules that its values keep.
    ghost shown: { Self → Row };

    ghost keeps: { Self → Type 0 };

    /// The record of the row's columns, if they are those of one whose values keep their rules.
    fn of_row(row: &Row) -> Option<Self>
        ensures { ReadsBack shown keeps row.now result };
}

/// A record as a row of an answer shows it.
#[derive(Drop)]
pub(crate) struct ShownRecord<T> {
    pub(crate) record: T,
}

impl<T: Record> FromRow for ShownRecord<T> {
    ghost reads_as = { λ row x. IsShown T.Record.shown T.Record.keeps row x.record };

    ghost is_readable = { ShowsRecord T.Record.shown T.Record.keeps };

    fn from_row(row: &Row) -> Result<ShownRecord<T>, ReadFault> {
        match T::of_row(row) {
            Some(record) => Ok(ShownRecord { record }),
            None => Err(ReadFault::Row),
        }
    }
}

/// The record that the first row of an answer shows: for a SELECT over one table that answers at
/// most one row.
///
/// # Errors
/// `TableError::Database` if the database refuses or fails, or memory runs out.
/// `TableError::RowOfNoOffice` if a row shows no such record.
pub fn first_record<S: Alter, T: Record>(
    conn: &mut Connection<S>,
    sql: &str,
    params: &[ValueRef<'_>],
) -> Result<Option<T>, TableError>
    ensures given { Over S.Store conn (λ old new. HasCleanDisk new → OnlyAsks sql.now old
        → IfOk result (GivesFirst (IsShown T.Record.shown T.Record.keeps) sql.now (bound
        params.now) old new)) }
    ensures reads { Over S.Store conn (λ old new. ReadsOnly (OnlyAsks sql.now) IsUnchanged
        (FailsToShowRow (ShowsRecord T.Record.shown T.Record.keeps) sql.now (bound params.now))
        old new result) }
{
    let found: Option<ShownRecord<T>> = read_row(conn, sql, params)?;
    match found {
        Some(ShownRecord { record }) => Ok(Some(record)),
        None => Ok(None),
    }
}
