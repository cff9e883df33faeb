//! What an opening does with the connection that it is given.

ghost use Rattle.std.specs.Prelude.{⊤, ◌≡◌, ◌⊎◌, ◌≤◌, ◌<◌, false, IsTrue, IfErr, IfOk};
ghost use Rattle.sqlite.specs.State.{HasCleanDisk};
ghost use Rattle.one_table.specs.Over.{Over};
ghost use Rattle.book_tables.specs.format.Making.{IsSoundOfFormat};
ghost use Rattle.book_tables.specs.row.Rows.{present_format};
ghost use Rattle.book_opening.specs.Opening.{EndsOpening, FailsToOpen, FollowsLast, IsSoldSoFar};
ghost use Rattle.book_opening.specs.Opening.{Looks, fault_of, fault_of_audit, fault_of_table};

use crate::bringing::bring_office;
use crate::fault::OpenFault;
use crate::sold_so_far::SoldSoFar;
use audit::{AuditFault, office_rows, test_told};
use book_tables::format::presence::format_here;
use book_tables::reading::sales::{last_sale_number, sale_numbered};
use book_tables::{PRESENT_FORMAT, TableError};
use office_rules::store_law;
use sqlite::{Alter, Connection, Error, ErrorCode};
use std::alloc::Global;

/// What an error of the database is answered as.
pub fn fault_of(error: Error) -> OpenFault
    ensures value { result ≡ fault_of error }
    ensures kind { (result ≡ OpenFault.Store) ⊎ (result ≡ OpenFault.Memory) }
{
    match error {
        Error::SqliteFailure(ErrorCode::OutOfMemory) => OpenFault::Memory,
        _ => OpenFault::Store,
    }
}

/// What an error of the tables is answered as: a row that is no office's shows that there is none.
pub(crate) fn fault_of_table(error: TableError) -> OpenFault
    ensures value { result ≡ fault_of_table error }
    ensures kind { (why : Error) → error ≡ TableError.Database why
        → (result ≡ OpenFault.Store) ⊎ (result ≡ OpenFault.Memory) }
{
    match error {
        TableError::Database(error) => fault_of(error),
        TableError::RowOfNoOffice => OpenFault::NotAnOffice,
    }
}

// What an audit found is answered as: a row that is no office's, and tables of no format, show that
// there is none.
fn fault_of_audit(fault: AuditFault) -> OpenFault
    ensures value { result ≡ fault_of_audit fault }
    ensures kind { (why : Error) → fault ≡ AuditFault.Failed why
        → (result ≡ OpenFault.Store) ⊎ (result ≡ OpenFault.Memory) }
{
    match fault {
        AuditFault::Failed(error) => fault_of(error),
        AuditFault::Found(_) | AuditFault::NoOffice => OpenFault::NotAnOffice,
    }
}

// A connection that is shut tells nothing of its database.
fn test_open<S: Alter>(conn: &mut Connection<S>) -> Result<(), OpenFault>
    ensures looks { Over S.Store conn (λ old new. Looks (λ _. ⊤) old new result) }
    ensures fails { Over S.Store conn (λ old new. HasCleanDisk new
        → IfErr result (FailsToOpen S.Store old new)) }
{
    match one_table::test_open(conn) {
        Ok(()) => Ok(()),
        Err(error) => Err(fault_of(error)),
    }
}

// What was sold, by the sale that was made last, which has to be there whole.
fn next_by_sales<S: Alter>(conn: &mut Connection<S>) -> Result<SoldSoFar, OpenFault>
    ensures given { Over S.Store conn (λ old new. HasCleanDisk new
        → IsSoundOfFormat present_format old → IfOk result (IsSoldSoFar old)) }
    ensures follows { Over S.Store conn (λ old new. HasCleanDisk new
        → IsSoundOfFormat present_format old → IfOk result (FollowsLast old.now)) }
    ensures looks { Over S.Store conn (λ old new. Looks (IsSoundOfFormat present_format)
        old new result) }
    ensures fails { Over S.Store conn (λ old new. HasCleanDisk new → IsTrue old.is_open
        → IsSoundOfFormat present_format old → IfErr result (FailsToOpen S.Store old new)) }
{
    store_law();
    let last = match last_sale_number(conn) {
        Ok(Some(last)) => last,
        Ok(None) => return Ok(SoldSoFar::of_sales(&[])),
        Err(error) => return Err(fault_of_table(error)),
    };
    match sale_numbered(conn, last) {
        Ok(Some(sale)) => Ok(SoldSoFar {
            next_number: u64::from(last) + 1,
            last_moment: Some(sale.moment),
        }),
        Ok(None) => Err(OpenFault::NotAnOffice),
        Err(error) => Err(fault_of_table(error)),
    }
}

// What an office of the present format has sold.
fn next_of_present<S: Alter>(
    alloc: Global,
    conn: &mut Connection<S>,
) -> Result<SoldSoFar, OpenFault>
    requires outside { conn.old.in_transaction ≡ false }
    ensures ends { Over S.Store conn (λ old new. IsSoundOfFormat present_format old
        → EndsOpening old new result) }
    ensures fails { Over S.Store conn (λ old new. (HasCleanDisk old → IsTrue old.is_open)
        → IsSoundOfFormat present_format old → HasCleanDisk new
        → IfErr result (FailsToOpen S.Store old new)) }
    ensures mode { conn.new.in_transaction ≡ false }
{
    let outside = conn.is_autocommit();
    prove!(outside);
    match test_told(alloc, conn, PRESENT_FORMAT) {
        Ok(()) => next_by_sales(conn),
        Err(fault) => Err(fault_of_audit(fault)),
    }
}

// Begins an office where there are no tables.
fn next_of_none<S: Alter>(alloc: Global, conn: &mut Connection<S>) -> Result<SoldSoFar, OpenFault>
    requires outside { conn.old.in_transaction ≡ false }
    ensures ends { Over S.Store conn (λ old new. (HasCleanDisk old → IsTrue old.is_open)
        → IsSoundOfFormat 0 old → EndsOpening old new result) }
    ensures fails { Over S.Store conn (λ old new. (HasCleanDisk old → IsTrue old.is_open)
        → IsSoundOfFormat 0 old → HasCleanDisk new
        → IfErr result (FailsToOpen S.Store old new)) }
    ensures mode { conn.new.in_transaction ≡ false }
{
    bring_office(alloc, conn, 0, &[], &[])?;
    Ok(SoldSoFar::of_sales(&[]))
}

// Brings an office of an older format to the present one, once all its rows were looked at: it is
// made of the rows that were read.
fn next_of_older<S: Alter>(
    alloc: Global,
    conn: &mut Connection<S>,
    from: u32,
) -> Result<SoldSoFar, OpenFault>
    requires outside { conn.old.in_transaction ≡ false }
    requires some { 1 ≤ from }
    requires older { from < present_format }
    ensures ends { Over S.Store conn (λ old new. IsSoundOfFormat from old
        → EndsOpening old new result) }
    ensures fails { Over S.Store conn (λ old new. (HasCleanDisk old → IsTrue old.is_open)
        → IsSoundOfFormat from old → HasCleanDisk new
        → IfErr result (FailsToOpen S.Store old new)) }
    ensures mode { conn.new.in_transaction ≡ false }
{
    let outside = conn.is_autocommit();
    prove!(outside);
    let rows = match office_rows(alloc, conn, from) {
        Ok(rows) => rows,
        Err(fault) => return Err(fault_of_audit(fault)),
    };
    bring_office(alloc, conn, from, &rows.meters, &rows.sales)?;
    Ok(SoldSoFar::of_sales(&rows.sales))
}

// By the tables that are there: an office is begun where there are none, and brought to the present
// format where they are of an older one; anything else is no office.
fn next_by_schema<S: Alter>(alloc: Global, conn: &mut Connection<S>) -> Result<SoldSoFar, OpenFault>
    requires outside { conn.old.in_transaction ≡ false }
    ensures ends { Over S.Store conn (λ old new. (HasCleanDisk old → IsTrue old.is_open)
        → EndsOpening old new result) }
    ensures fails { Over S.Store conn (λ old new. (HasCleanDisk old → IsTrue old.is_open)
        → HasCleanDisk new → IfErr result (FailsToOpen S.Store old new)) }
    ensures mode { conn.new.in_transaction ≡ false }
{
    match format_here(alloc, conn.schema()) {
        Ok(Some(0)) => next_of_none(alloc, conn),
        Ok(Some(format)) if format < PRESENT_FORMAT => next_of_older(alloc, conn, format),
        Ok(Some(_)) => next_of_present(alloc, conn),
        Ok(None) => Err(OpenFault::NotAnOffice),
        Err(_) => Err(OpenFault::Memory),
    }
}

/// What the office that the store stands for has sold so far. An office is begun where there is
/// none, and brought to the present format where it is of an older one.
pub fn next_here<S: Alter>(alloc: Global, conn: &mut Connection<S>) -> Result<SoldSoFar, OpenFault>
    requires outside { conn.old.in_transaction ≡ false }
    ensures ends { Over S.Store conn (λ old new. EndsOpening old new result) }
    ensures fails { Over S.Store conn (λ old new. HasCleanDisk new
        → IfErr result (FailsToOpen S.Store old new)) }
    ensures mode { conn.new.in_transaction ≡ false }
{
    let outside = conn.is_autocommit();
    prove!(outside);
    test_open(conn)?;
    next_by_schema(alloc, conn)
}
