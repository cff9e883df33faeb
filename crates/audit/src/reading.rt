//! The rows of all tables, where they are those of an office.

ghost use Rattle.std.specs.Prelude.{◌≡◌, ◌≤◌, IfErr, IfOk, OnOk};
ghost use Rattle.sqlite.specs.State.{HasCleanDisk, IsUnchanged};
ghost use Rattle.one_table.specs.Over.{Over};
ghost use Rattle.one_table.specs.ReadsOnly.{ReadsOnly};
ghost use Rattle.book_tables.specs.Holds.{HasOfficeOf};
ghost use Rattle.book_tables.specs.format.Format.{HasFormat};
ghost use Rattle.book_tables.specs.format.Making.{IsSoundOfFormat};
ghost use Rattle.book_tables.specs.row.Rows.{present_format};
ghost use Rattle.audit.specs.Fails.{FailsToKnow, IsNoOffices, StopsBy, cause_of, fault_of};
ghost use Rattle.audit.specs.Passed.{TellsRead};
ghost use Rattle.audit.specs.Shown.{AreOfficeRows, IsToldAs};

use crate::following::{Follows, Part, Unfollowed};
use audit_lists::{OfficeFault, office_law, test_office};
use audit_rows::{AuditFault, OfficeRows, read_office_rows, rows_law, stored_law};
use book_tables::TableError;
use book_tables::format::number::format_number;
use book_tables::format::presence::format_here;
use kept_order::order_law;
use sqlite::{Alter, Connection, Error, ErrorCode, MemStore};
use sqlite_schema::schema::Schema;
use std::alloc::Global;

// What is told where the tables do not tell a format.
fn cause_of(error: TableError) -> AuditFault
    ensures { result ≡ cause_of error }
{
    match error {
        TableError::Database(error) => AuditFault::Failed(error),
        TableError::RowOfNoOffice => AuditFault::NoOffice,
    }
}

// A fault of the rows, as one of the audit.
pub(crate) fn fault_of(fault: OfficeFault) -> AuditFault
    ensures { result ≡ fault_of fault }
{
    match fault {
        OfficeFault::Found(found) => AuditFault::Found(found),
        OfficeFault::Memory => AuditFault::Failed(Error::SqliteFailure(ErrorCode::OutOfMemory)),
    }
}

// The format whose tables are there; it is 0 where there is nothing of an office.
pub(crate) fn known_format(alloc: Global, schema: &Schema) -> Result<u32, AuditFault>
    ensures known { IfOk result (λ format. format ≤ present_format) }
    ensures has { IfOk result (λ format. HasOfficeOf format schema.now) }
    ensures fails { IfErr result (FailsToKnow schema.now) }
{
    match format_here(alloc, schema) {
        Ok(Some(format)) => Ok(format),
        Ok(None) => Err(AuditFault::NoOffice),
        Err(_) => Err(AuditFault::Failed(Error::SqliteFailure(ErrorCode::OutOfMemory))),
    }
}

/// The tables of a format have to tell that format.
///
/// # Errors
/// `NoOffice` where they tell another one, or none; what the database refuses, and want of memory.
pub fn test_told<S: Alter>(
    alloc: Global,
    conn: &mut Connection<S>,
    format: u32,
) -> Result<(), AuditFault>
    requires some { 1 ≤ format }
    requires known { format ≤ present_format }
    ensures tells { Over S.Store conn (λ old new. HasCleanDisk new
        → IsSoundOfFormat format old → OnOk result (HasFormat old.now format)) }
    ensures reads { Over S.Store conn (λ old new. ReadsOnly (IsSoundOfFormat format)
        IsUnchanged (StopsBy (λ _ _. ⊥)) old new result) }
{
    rows_law();
    let told = match format_number(alloc, conn) {
        Ok(told) => told,
        Err(error) => return Err(cause_of(error)),
    };
    if told == Some(format) {
        Ok(())
    } else {
        Err(AuditFault::NoOffice)
    }
}

// The rows of the tables of a format that tell it.
fn read_told<S: Alter>(
    alloc: Global,
    conn: &mut Connection<S>,
    format: u32,
) -> Result<OfficeRows, AuditFault>
    requires some { 1 ≤ format }
    requires known { format ≤ present_format }
    ensures given { Over S.Store conn (λ old new. HasCleanDisk new
        → IsSoundOfFormat format old → IfOk result (IsToldAs format old.now)) }
    ensures reads { Over S.Store conn (λ old new. ReadsOnly (IsSoundOfFormat format)
        IsUnchanged (StopsBy IsNoOffices) old new result) }
{
    rows_law();
    test_told(alloc, conn, format)?;
    read_office_rows(alloc, conn, format)
}

// The rows of the tables of a format, where the tables tell it and the rows are those of an office.
pub(crate) fn followed_rows<S: Alter, F: Follows>(
    alloc: Global,
    conn: &mut Connection<S>,
    format: u32,
    follower: &mut F,
) -> Result<OfficeRows, AuditFault>
    requires some { 1 ≤ format }
    requires known { format ≤ present_format }
    ensures given { Over S.Store conn (λ old new. HasCleanDisk new
        → IsSoundOfFormat format old → IfOk result (AreOfficeRows format old.now)) }
    ensures reads { Over S.Store conn (λ old new. ReadsOnly (IsSoundOfFormat format)
        IsUnchanged (StopsBy IsNoOffices) old new result) }
    ensures told { Over S.Store conn (λ old new. HasCleanDisk new → IsSoundOfFormat format old
        → TellsRead F.told follower.old follower.new old.now result) }
{
    stored_law();
    office_law();
    // What the law says of a database in order holds of it in any store.
    order_law::<MemStore>();
    let rows = match read_told(alloc, conn, format) {
        Ok(rows) => rows,
        Err(fault) => return Err(fault),
    };
    follower.passed(Part::Rows);
    match test_office(alloc, format, &rows) {
        Ok(()) => {
            follower.passed(Part::Ties);
            Ok(rows)
        }
        Err(fault) => Err(fault_of(fault)),
    }
}

/// The rows of the tables of a format, where the tables tell it and the rows are those of an
/// office.
///
/// # Errors
/// `AuditFault::Found` with the first row that is no office's. `AuditFault::NoOffice` if `about`
/// has another format. `AuditFault::Failed` if the database refuses or fails, or memory runs out.
pub fn office_rows<S: Alter>(
    alloc: Global,
    conn: &mut Connection<S>,
    format: u32,
) -> Result<OfficeRows, AuditFault>
    requires some { 1 ≤ format }
    requires known { format ≤ present_format }
    ensures given { Over S.Store conn (λ old new. HasCleanDisk new
        → IsSoundOfFormat format old → IfOk result (AreOfficeRows format old.now)) }
    ensures reads { Over S.Store conn (λ old new. ReadsOnly (IsSoundOfFormat format)
        IsUnchanged (StopsBy IsNoOffices) old new result) }
{
    followed_rows(alloc, conn, format, &mut Unfollowed)
}
