//! Records that are written.

ghost use Rattle.std.specs.Prelude.{◌≡◌, ◌++◌, ◌∷◌, [], OnOk, decimal, map};
ghost use Rattle.records.specs.Cell.{cell_text, held, in_quotes};
ghost use Rattle.records.specs.Record.{comma_if, members_text, now, record_text};

use crate::cell::Cell;
use itoa::Buffer;
use std::alloc::AllocError;

/// Adds the text of the record with these names and these cells: as many as there are of both.
///
/// # Errors
/// `AllocError` if there is no memory; then a part of the text may have been added.
pub fn put_record(text: &mut Vec<u8>, names: &[&str], cells: &[Cell<'_>]) -> Result<(), AllocError>
    ensures { OnOk result (text.new.items
        ≡ text.old.items ++ record_text (map now names.now) (map held cells.now)) }
{
    text.extend_from_slice(b"{")?;
    put_members(text, false, names, cells)
}

// Adds the members of a record, `later` if others stand before, and the brace that ends it.
fn put_members(
    text: &mut Vec<u8>,
    later: bool,
    names: &[&str],
    cells: &[Cell<'_>],
) -> Result<(), AllocError>
    ensures { OnOk result (text.new.items
        ≡ text.old.items ++ members_text later (map now names.now) (map held cells.now)) }
{
    let [name, names @ ..] = names else {
        return text.extend_from_slice(b"}");
    };
    let [cell, cells @ ..] = cells else {
        return text.extend_from_slice(b"}");
    };
    put_name(text, later, name)?;
    put_cell(text, cell)?;
    put_members(text, true, names, cells)
}

/// Adds a name and its colon, behind a comma where members stand before.
///
/// # Errors
/// `AllocError` if there is no memory; then a part of the text may have been added.
pub fn put_name(text: &mut Vec<u8>, later: bool, name: &str) -> Result<(), AllocError>
    ensures { OnOk result (text.new.items
        ≡ text.old.items ++ (comma_if later ++ (in_quotes name.now ++ (58 ∷ [])))) }
{
    put_comma(text, later)?;
    put_text(text, name.as_bytes())?;
    text.extend_from_slice(b":")
}

// Adds a comma where something stands before.
pub(crate) fn put_comma(text: &mut Vec<u8>, later: bool) -> Result<(), AllocError>
    ensures { OnOk result (text.new.items ≡ text.old.items ++ comma_if later) }
{
    if later {
        text.extend_from_slice(b",")
    } else {
        Ok(())
    }
}

/// Adds the text of a cell: a number's digits, a text in quotes, or `null`.
///
/// # Errors
/// `AllocError` if there is no memory; then a part of the text may have been added.
pub fn put_cell(text: &mut Vec<u8>, cell: &Cell<'_>) -> Result<(), AllocError>
    ensures { OnOk result (text.new.items ≡ text.old.items ++ cell_text (held cell.now)) }
{
    match cell {
        Cell::Number(number) => put_number(text, *number),
        Cell::Text(bytes) => put_text(text, bytes),
        Cell::Nothing => text.extend_from_slice(b"null"),
    }
}

// Adds the digits of a number.
fn put_number(text: &mut Vec<u8>, number: u64) -> Result<(), AllocError>
    ensures { OnOk result (text.new.items ≡ text.old.items ++ decimal number) }
{
    let mut digits = Buffer::new();
    text.extend_from_slice(digits.format(number).as_bytes())
}

// Adds a text between quotation marks.
fn put_text(text: &mut Vec<u8>, bytes: &[u8]) -> Result<(), AllocError>
    ensures { OnOk result (text.new.items ≡ text.old.items ++ in_quotes bytes.now) }
{
    text.extend_from_slice(b"\"")?;
    text.extend_from_slice(bytes)?;
    text.extend_from_slice(b"\"")
}
