ghost use Rattle.std.specs.Prelude.{◌≡◌, IfOk, map};
ghost use Rattle.records.specs.Cell.{held};
ghost use Rattle.records.specs.Record.{now, record_text};

use records::{Cell, put_record};
use std::alloc::{AllocError, Global};

// The room that the text of a record is begun with.
const ROOM: usize = 128;

// The text of the record with these names and these cells.
pub(crate) fn record(
    alloc: Global,
    names: &[&str],
    cells: &[Cell<'_>],
) -> Result<Vec<u8>, AllocError>
    ensures { IfOk result (λ text. text.items
        ≡ record_text (map now names.now) (map held cells.now)) }
{
    let mut text = Vec::with_capacity(alloc, ROOM)?;
    put_record(&mut text, names, cells)?;
    Ok(text)
}
