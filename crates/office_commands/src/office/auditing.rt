//! The audit of a database in a file that was met: no office is opened in it.

ghost use Rattle.std.specs.Prelude.{◌≡◌, option_map};
ghost use Rattle.sqlite.specs.Files.{file_state};
ghost use Rattle.one_table.specs.Standing.{tree_in};
ghost use Rattle.book_tables.specs.Kept.{shifts_kept};
ghost use Rattle.audit.specs.Audited.{IsAuditOf};
ghost use Rattle.command_line.specs.Transform.{forward_of};
ghost use Rattle.office_commands.specs.port.Back.{lets_go_giving};
ghost use Rattle.office_commands.specs.office.Audits.{EndsAudit, told_of};

use crate::office::opening::{close_connection, let_go_ended};
use crate::port::ended::Back;
use crate::port::ports::OfficeFile;
use crate::port::progress::Progress;
use audit::{AuditFault, Audited, Finding, RowKey, Rule, TableName, audit};
use command_line::Shipped;
use sqlite::{Connection, Error, FileStore};
use sqlite_disk::Disk;
use sqlite_schema::schema::Schema;
use std::alloc::Global;
use whole_rows::end_looking;

// A row of a shift is stored with so many values: its number, and those of its columns.
const SHIFT_WIDTH: usize = 5;

/// Looks at all rows of a database in two files, and tests the tokens by a transform, where one is
/// given. It tells which parts have passed.
pub(crate) fn audit_files<D: Disk + Drop, P: Progress>(
    alloc: Global,
    conn: &mut Connection<FileStore<D>>,
    transform: Option<Shipped>,
    progress: &mut P,
) -> Result<Audited, AuditFault>
    ensures { IsAuditOf (option_map forward_of transform) (file_state conn.old)
        (file_state conn.new) result }
{
    audit(alloc, conn, transform.as_ref(), progress)
}

// The tree that has the rows of the shifts.
fn tree_of_shifts(schema: &Schema) -> u32
    ensures { result ≡ tree_in schema.now shifts_kept.table.name }
{
    let at = schema.table_named(b"shifts").unwrap_or(0);
    match schema.tables.get(at) {
        Some(table) => table.tree,
        None => 0,
    }
}

// What is told once the shifts were looked at as they are stored.
fn told_of(audited: Audited, partial: Result<Option<usize>, Error>) -> Result<Audited, AuditFault>
    ensures { result ≡ told_of audited partial }
{
    match partial {
        Ok(None) => Ok(audited),
        Ok(Some(place)) => Err(AuditFault::Found(Finding {
            table: TableName::Shifts,
            rule: Rule::Value,
            row: RowKey::Number(place as u64),
        })),
        Err(error) => Err(AuditFault::Failed(error)),
    }
}

/// Ends an audit: closes the files of the connection. Where the rows are an office's, the shifts
/// are looked at once more, as they are stored: no statement shows that one lacks its last column.
///
/// # Errors
/// That of the audit, if it failed. Else `AuditFault::Found` with the first shift that lacks a
/// column, or `AuditFault::Failed` if the store refuses or fails, or memory runs out.
pub(crate) fn end_audit<H: OfficeFile>(
    alloc: Global,
    found: Result<Audited, AuditFault>,
    conn: Connection<FileStore<H::Medium>>,
) -> (Result<Audited, AuditFault>, Back<H::Medium>)
    ensures { EndsAudit (lets_go_giving H.OfficeFile result.1) conn found result.0 }
{
    match found {
        Ok(audited) => {
            if audited.format == 0 {
                let back = close_connection::<H>(conn);
                return (Ok(audited), back);
            }
            let tree = tree_of_shifts(conn.schema());
            let (partial, ended) = end_looking(alloc, conn, tree, SHIFT_WIDTH);
            let back = let_go_ended::<H>(ended);
            (told_of(audited, partial), back)
        }
        Err(fault) => {
            let back = close_connection::<H>(conn);
            (Err(fault), back)
        }
    }
}
