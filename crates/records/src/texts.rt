//! Texts in the cells of records: plain ones, of a bounded length.

ghost use Rattle.std.specs.Prelude.{◌≡◌, ◌↔◌, ◌≤◌, IsTrue, MatchOption, length};
ghost use Rattle.records.specs.Cell.{IsPlain};

use crate::cell::Cell;
use crate::column::Column;
use crate::reading::plain_len;
use arrayvec::ArrayVec;

impl<const MOST: usize> Column for ArrayVec<u8, MOST> {
    ghost use Rattle.std.specs.Prelude.{◌≤◌, length};
    ghost use Rattle.records.specs.Cell.{IsPlain, text};

    ghost cell_of = { λ value. text value.items };

    ghost keeps = { λ value. IsPlain value.items × (length value.items ≤ MOST) };

    fn of_cell(told: &Cell<'_>) -> Option<ArrayVec<u8, MOST>> {
        match told {
            Cell::Text(bytes) => plain_text(bytes),
            Cell::Number(_) | Cell::Nothing => None,
        }
    }

    fn column_law() {}
}

// A text that is plain and has room.
fn plain_text<const MOST: usize>(bytes: &[u8]) -> Option<ArrayVec<u8, MOST>>
    ensures { MatchOption result (¬ (IsPlain bytes.now × (length bytes.now ≤ MOST)))
        (λ value. IsPlain bytes.now × (length bytes.now ≤ MOST) × (value.items ≡ bytes.now)) }
{
    if !is_plain(bytes) {
        return None;
    }
    let mut text = ArrayVec::new();
    match text.try_extend_from_slice(bytes) {
        Ok(()) => Some(text),
        Err(_) => None,
    }
}

/// Whether each byte of a text is a sign of ASCII, or a blank, and none is a quotation mark or a
/// backslash: so it stands between quotation marks as it is.
pub fn is_plain(bytes: &[u8]) -> bool
    ensures { IsTrue result ↔ IsPlain bytes.now }
{
    plain_len(bytes) == bytes.len()
}
