//! The audit of a database.

ghost use Rattle.std.specs.Prelude.{◌≡◌, ◌≤◌, IfErr, IfOk, OnOk, IsTrue};
ghost use Rattle.sqlite.specs.State.{HasCleanDisk, IsUnchanged};
ghost use Rattle.one_table.specs.Over.{Over};
ghost use Rattle.one_table.specs.ReadsOnly.{ReadsOnly};
ghost use Rattle.book_tables.specs.format.Making.{IsSoundOfFormat};
ghost use Rattle.book_tables.specs.row.Rows.{present_format};
ghost use Rattle.vend_core.specs.Law.Reached.{HasTokensOf, IsPlausible};
ghost use Rattle.office_rules.specs.Office.{Office};
ghost use Rattle.audit_lists.specs.Ties.{Says};
ghost use Rattle.audit_lists.specs.Tokens.{TellsUnwritten};
ghost use Rattle.audit_lists.specs.reached.Finds.{AreRowsOfOffice};
ghost use Rattle.audit.specs.Audited.{IsAuditOf, IsSound};
ghost use Rattle.audit.specs.Fails.{AreWritten, Denies, StopsBy, TellsForged, given_by};
ghost use Rattle.audit.specs.Passed.{TellsPassed, TellsReached};

use crate::audited::{Audited, counted, no_tables};
use crate::following::{Follows, Part};
use crate::reading::{fault_of, followed_rows, known_format};
use audit_lists::{OfficeFault, honest_law, meter_places, test_reached, test_tokens, tokens_law};
use audit_rows::{AuditFault, OfficeRows};
use kept_order::{KeepsOrder, connection_order_law};
use sqlite::{Alter, Connection};
use std::alloc::Global;
use sts_token::BlockTransform;
use vend_core::reached_law;

// Nothing where the transform wrote the tokens of the office of these rows.
fn test_written<T: BlockTransform>(
    alloc: Global,
    transform: &T,
    rows: &OfficeRows,
) -> Result<(), OfficeFault>
    ensures passes { OnOk result ((o : Office) → AreRowsOfOffice rows.now o
        → HasTokensOf (T.forwards transform.now) o) }
    ensures found { IfErr result (Says (TellsUnwritten (T.forwards transform.now) rows.now)) }
{
    let meters = meter_places(alloc, rows)?;
    test_tokens(transform, rows, &meters)?;
    Ok(())
}

// Nothing where requests may have led to the office of these rows, and where the transform that is
// given, if one is, wrote its tokens.
fn test_forged<T: BlockTransform, F: Follows>(
    alloc: Global,
    transform: Option<&T>,
    rows: &OfficeRows,
    follower: &mut F,
) -> Result<(), OfficeFault>
    ensures passes { OnOk result ((o : Office) → AreRowsOfOffice rows.now o
        → IsPlausible o × AreWritten (given_by T.forwards transform.entry) o) }
    ensures found { IfErr result
        (TellsForged (given_by T.forwards transform.entry) rows.now) }
    ensures told { TellsReached F.told follower.old follower.new rows.now }
{
    test_reached(alloc, rows)?;
    follower.passed(Part::Requests);
    match transform {
        Some(transform) => test_written(alloc, transform, rows),
        None => Ok(()),
    }
}

// The audit of the tables of a format.
fn audit_format<S: Alter, T: BlockTransform, F: Follows>(
    alloc: Global,
    conn: &mut Connection<S>,
    format: u32,
    transform: Option<&T>,
    follower: &mut F,
) -> Result<Audited, AuditFault>
    requires some { 1 ≤ format }
    requires known { format ≤ present_format }
    ensures given { Over S.Store conn (λ old new. HasCleanDisk new
        → IsSoundOfFormat format old
        → IfOk result (IsSound (given_by T.forwards transform.entry) old.now)) }
    ensures reads { Over S.Store conn (λ old new. ReadsOnly (IsSoundOfFormat format)
        IsUnchanged (StopsBy (Denies (given_by T.forwards transform.entry)))
        old new result) }
    ensures told { Over S.Store conn (λ old new. HasCleanDisk new → IsSoundOfFormat format old
        → TellsPassed F.told follower.old follower.new old.now) }
{
    honest_law();
    tokens_law();
    let rows = match followed_rows(alloc, conn, format, follower) {
        Ok(rows) => rows,
        Err(fault) => return Err(fault),
    };
    match test_forged(alloc, transform, &rows, follower) {
        Ok(()) => Ok(counted(format, &rows)),
        Err(fault) => Err(fault_of(fault)),
    }
}

/// Looks at all rows of all tables, of whatever format they are, and counts them; and tests by the
/// transform whether each sale's digits are its token, where one is given. The follower is told
/// which parts have passed.
///
/// It passes a database exactly if its rows are those of an office that requests may lead to, whose
/// tokens the transform wrote (`IsAuditOf`), and tells the follower of a part only where it has
/// passed (`TellsPassed`). Over a store that keeps the rows of each table in the order of their
/// numbers the database stands for that office, outside a transaction, as long as no row of a shift
/// lacks a column, which nothing that reads by SQL can see.
///
/// # Errors
/// `AuditFault::Found` with the first row that is no office's, or that no requests lead to, or else
/// the first sale whose token the transform did not write. `AuditFault::NoOffice` for tables of no
/// format. `AuditFault::Failed` if the database refuses or fails, or memory runs out. In each case
/// the database is as it was.
pub fn audit<S: KeepsOrder, T: BlockTransform, F: Follows>(
    alloc: Global,
    conn: &mut Connection<S>,
    transform: Option<&T>,
    follower: &mut F,
) -> Result<Audited, AuditFault>
    ensures answers { Over S.Store conn (λ old new.
        IsAuditOf (given_by T.forwards transform.entry) old new result) }
    ensures told { Over S.Store conn (λ old new. HasCleanDisk new → IsTrue old.is_open
        → TellsPassed F.told follower.old follower.new old.now) }
{
    reached_law();
    connection_order_law(conn);
    match known_format(alloc, conn.schema()) {
        Ok(0) => Ok(no_tables()),
        Ok(format) => audit_format(alloc, conn, format, transform, follower),
        Err(fault) => Err(fault),
    }
}
