//! What is read of the tables, one after another.

ghost use Rattle.std.specs.Prelude.{◌≡◌, ◌++◌, [], ◌∷◌, All, IfOk, OnOk};
ghost use Rattle.sqlite.specs.State.{HasCleanDisk, IsUnchanged};
ghost use Rattle.one_table.specs.Over.{Over};
ghost use Rattle.one_table.specs.ReadsOnly.{ReadsOnly};
ghost use Rattle.audit_rows.specs.Breaks.{HasTrueRows};
ghost use Rattle.audit_rows.specs.Fails.{FailsToReadTables, HaveTables, IsKnown};
ghost use Rattle.audit_rows.specs.Listing.{cause_of};
ghost use Rattle.audit_rows.specs.Tables.{kept_of};
ghost use Rattle.audit_rows.specs.Whole.{AreListed, IsMadeOf};

use crate::broken::broken;
use crate::finding::AuditFault;
use crate::listed::Listed;
use crate::seen::Seen;
use one_table::{ReadFault, read_rows};
use sqlite::{Alter, Connection, Error, ErrorCode, Row};
use std::alloc::{AllocError, Global};

/// What is read of a database that has some tables.
pub(crate) trait Source<S: Alter>: Sized {
    ghost use Rattle.std.specs.Prelude.{List};
    ghost use Rattle.sqlite.specs.Effect.{Database};
    ghost use Rattle.audit_rows.specs.declared.table_name.TableName.{TableName};

    // The tables, in the order in which they are read, and what the value says of the database.
    ghost tables: { List TableName };

    ghost says: { Database → Self → Type 0 };

    fn read(alloc: Global, conn: &mut Connection<S>) -> Result<Self, AuditFault>
        ensures given { Over S.Store conn (λ old new. HasCleanDisk new
            → IsKnown (HaveTables tables) old → IfOk result (says old.now)) }
        ensures whole { Over S.Store conn (λ old new. HasCleanDisk new
            → IsKnown (HaveTables tables) old → OnOk result (All (HasTrueRows old.now) tables)) }
        ensures reads { Over S.Store conn (λ old new. ReadsOnly (IsKnown (HaveTables tables))
            IsUnchanged (FailsToReadTables tables) old new result) };
}

// What is told of a reader's fault. A list takes each row, so none is refused.
fn cause_of(fault: ReadFault) -> Error
    ensures { result ≡ cause_of fault }
{
    match fault {
        ReadFault::Database(error) => error,
        ReadFault::Row => Error::SqliteFailure(ErrorCode::DatabaseCorrupt),
    }
}

// The records of the rows that were seen, or the first of these that shows none.
fn made_of<T: Drop>(alloc: Global, all: Vec<Seen<T>>) -> Result<Result<Vec<T>, Row>, AllocError>
    ensures { IfOk result (IsMadeOf all.items) }
{
    let mut records = Vec::new(alloc);
    'all: for seen in all {
        match seen {
            Seen::Whole(record) => records.push(record)?,
            Seen::False(row) => return Ok(Err(row)),
        }
    }
    Ok(Ok(records))
}

// The records of a table, in the order in which it is listed.
impl<S: Alter, T: Listed + Drop> Source<S> for Vec<T> {
    ghost tables = { T.Named.name ∷ [] };

    ghost says = { λ db xs.
        AreListed T.Record.shown T.Record.keeps (kept_of T.Named.name) db xs.items };

    fn read(alloc: Global, conn: &mut Connection<S>) -> Result<Vec<T>, AuditFault> {
        let seen: Vec<Seen<T>> = match read_rows(alloc, conn, T::table().list(), &[]) {
            Ok(seen) => seen,
            Err(fault) => return Err(AuditFault::Failed(cause_of(fault))),
        };
        match made_of(alloc, seen) {
            Ok(Ok(records)) => Ok(records),
            Ok(Err(row)) => Err(AuditFault::Found(broken(T::table(), row))),
            Err(_) => Err(AuditFault::Failed(Error::SqliteFailure(ErrorCode::OutOfMemory))),
        }
    }
}

// One after another.
impl<S: Alter, A: Source<S> + Drop, B: Source<S> + Drop> Source<S> for (A, B) {
    ghost tables = { A.tables ++ B.tables };

    ghost says = { λ db both. A.says db both.0 × B.says db both.1 };

    fn read(alloc: Global, conn: &mut Connection<S>) -> Result<(A, B), AuditFault> {
        let first = A::read(alloc, conn)?;
        let second = B::read(alloc, conn)?;
        Ok((first, second))
    }
}
