//! A page of a list, and anything that is found as JSON, as text.

ghost use Rattle.std.specs.Prelude.{◌≡◌, IfOk};
ghost use Rattle.desk_commands.specs.print.FoundTexts.{json_line};
ghost use Rattle.desk_commands.specs.print.ListTexts.{page_text};

use crate::print::table::table;
use book_states::Found;
use desk_messages::found_json;
use papers::export;
use std::alloc::{AllocError, Global};

/// The text of a page: as JSON on a line, or a line for each member, behind the names of the fields
/// on the first page.
pub(crate) fn page_text(
    alloc: Global,
    page: &Found,
    json: bool,
    is_first: bool,
) -> Result<Vec<u8>, AllocError>
    ensures { IfOk result (λ text. text.items ≡ page_text json is_first page.now) }
{
    if json {
        return json_line(alloc, page);
    }
    match page {
        Found::Tariffs(page) => table(alloc, is_first, &TARIFF, page.as_slice()),
        Found::Meters(page) => table(alloc, is_first, &METER, page.as_slice()),
        Found::Shifts(page) => table(alloc, is_first, &SHIFT, page.as_slice()),
        Found::Sales(page) => export(alloc, page.as_slice(), is_first),
        // No page.
        _ => Ok(Vec::new(alloc)),
    }
}

// The names of the fields of tariffs, of meters and of shifts.
const TARIFF: [&[u8]; 3] = [b"tariff", b"from", b"steps"];

const METER: [&[u8]; 3] = [b"meter", b"base", b"tariff"];

const SHIFT: [&[u8]; 7] = [
    b"shift",
    b"operator",
    b"opened",
    b"closed",
    b"sales",
    b"tenths",
    b"cash",
];

/// What was found, as the JSON that a desk replies, on a line.
pub(crate) fn json_line(alloc: Global, found: &Found) -> Result<Vec<u8>, AllocError>
    ensures { IfOk result (λ text. text.items ≡ json_line found.now) }
{
    let mut text = found_json(alloc, found)?;
    text.push(b'\n')?;
    Ok(text)
}
