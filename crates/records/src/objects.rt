//! Records in objects of JSON, whose members stand in whatever order.

ghost use Rattle.std.specs.Prelude.{◌≡◌, ◌≢◌, ◌↔◌, IsTrue, MatchOption, Some};
ghost use Rattle.serde_json.specs.Find.{get};
ghost use Rattle.serde_json.specs.View.{view};
ghost use Rattle.records.specs.Cell.{Held, held};
ghost use Rattle.records.specs.Json.{HasMemberCount, cell_data};

use crate::cell::Cell;
use serde_json::Value;

/// Whether a value is an object with so many members.
pub fn has_count(value: &Value, count: usize) -> bool
    ensures { IsTrue result ↔ HasMemberCount (view value.now) count }
{
    match value.as_object() {
        Some(members) => members.len() == count,
        None => false,
    }
}

/// The cell that the member of a name is.
pub fn cell_in<'v>(value: &'v Value, name: &str) -> Option<Cell<'v>>
    ensures { MatchOption result
        ((cell : Held) → get name.now (view value.now) ≢ Some (cell_data cell))
        (λ cell. get name.now (view value.now) ≡ Some (cell_data (held cell))) }
{
    match value.get(name) {
        Some(member) => cell_of(member),
        None => None,
    }
}

// The cell that a value of JSON is.
fn cell_of(member: &Value) -> Option<Cell<'_>>
    ensures { MatchOption result ((cell : Held) → view member.now ≢ cell_data cell)
        (λ cell. view member.now ≡ cell_data (held cell)) }
{
    if let Some(text) = member.as_str() {
        return Some(Cell::Text(text.as_bytes()));
    }
    if let Some(number) = member.as_u64() {
        return Some(Cell::Number(number));
    }
    if member.is_null() {
        Some(Cell::Nothing)
    } else {
        None
    }
}
