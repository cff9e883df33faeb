//! The rows of all tables, of whatever format they are.

ghost use Rattle.std.specs.Prelude.{◌≡◌, ◌≤◌, IfOk};
ghost use Rattle.sqlite.specs.State.{HasCleanDisk, IsUnchanged};
ghost use Rattle.one_table.specs.Over.{Over};
ghost use Rattle.one_table.specs.ReadsOnly.{ReadsOnly};
ghost use Rattle.book_tables.specs.row.Rows.{present_format};
ghost use Rattle.audit_rows.specs.Tables.{tables_of};
ghost use Rattle.audit_rows.specs.Fails.{FailsToReadTables, IsKnown};
ghost use Rattle.audit_rows.specs.AllRows.{HasTablesOf, IsReadAs};
ghost use Rattle.audit_rows.specs.Entries.{rows_of};

use crate::finding::AuditFault;
use crate::office_rows::OfficeRows;
use crate::tables::{First, Fourth, Second, Tables, Third};
use sqlite::{Alter, Connection, Error, ErrorCode};
use std::alloc::Global;

// The rows of the tables of a format.
fn read_as<S: Alter, R: Tables<S> + Drop>(
    alloc: Global,
    conn: &mut Connection<S>,
    format: u32,
) -> Result<OfficeRows, AuditFault>
    requires is { format ≡ R.format }
    ensures given { Over S.Store conn (λ old new. HasCleanDisk new
        → IsKnown (HasTablesOf format) old
        → IfOk result (λ r. IsReadAs format old.now (rows_of r))) }
    ensures reads { Over S.Store conn (λ old new. ReadsOnly (IsKnown (HasTablesOf format))
        IsUnchanged (FailsToReadTables (tables_of format)) old new result) }
{
    let read = R::read(alloc, conn)?;
    match read.into_rows(alloc) {
        Ok(rows) => Ok(rows),
        Err(_) => Err(AuditFault::Failed(Error::SqliteFailure(ErrorCode::OutOfMemory))),
    }
}

/// The rows of the tables of a format, by its number: all of them, where each shows a record.
///
/// # Errors
/// The first row that by itself is none of an office's (`Breaks`); what the database refuses, and
/// want of memory.
pub fn read_office_rows<S: Alter>(
    alloc: Global,
    conn: &mut Connection<S>,
    format: u32,
) -> Result<OfficeRows, AuditFault>
    requires some { 1 ≤ format }
    requires known { format ≤ present_format }
    ensures given { Over S.Store conn (λ old new. HasCleanDisk new
        → IsKnown (HasTablesOf format) old
        → IfOk result (λ r. IsReadAs format old.now (rows_of r))) }
    ensures reads { Over S.Store conn (λ old new. ReadsOnly (IsKnown (HasTablesOf format))
        IsUnchanged (FailsToReadTables (tables_of format)) old new result) }
{
    if format == 1 {
        return read_as::<S, First>(alloc, conn, format);
    }
    if format == 2 {
        return read_as::<S, Second>(alloc, conn, format);
    }
    if format == 3 {
        return read_as::<S, Third>(alloc, conn, format);
    }
    read_as::<S, Fourth>(alloc, conn, format)
}
