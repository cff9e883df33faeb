ghost use Rattle.desk_messages.specs.Meaning.{AreRead};

use asks::Csv;
use office_rules::Rows;
use papers::{FileKind, RowFault, read_meters, read_tariffs};
use std::alloc::Global;

/// The rows of a file that is to be imported, or its first fault.
///
/// # Errors
/// `RowFault::At` with the row and its cause, the header being row 0; `RowFault::Memory`.
pub fn read_rows(alloc: Global, kind: FileKind, csv: &Csv<'_>) -> Result<Rows, RowFault>
    ensures { AreRead kind csv.now result }
{
    match kind {
        FileKind::Meters => read_meters(alloc, csv.bytes()),
        FileKind::Tariffs => read_tariffs(alloc, csv.bytes()),
    }
}
