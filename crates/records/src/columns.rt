ghost use Rattle.std.specs.Prelude.{◌≡◌, map};
ghost use Rattle.records.specs.Column.{IsNamed};
ghost use Rattle.records.specs.Front.{IsFound, IsFrontItem};
ghost use Rattle.records.specs.Record.{members_text, now, record_text};

use crate::column::Column;
use crate::reading::{behind, member_at};

/// Values that stand in the cells of a record, one behind another: `()`, or a pair of the first
/// value and of those behind it. So a record of three cells has the values `(A, (B, (C, ())))`.
pub trait Columns: Sized + Drop {
    ghost use Rattle.std.specs.Prelude.{List};
    ghost use Rattle.records.specs.Cell.{Held};
    ghost use Rattle.records.specs.Column.{AreColumns};

    // What their cells hold.
    ghost cells_of: { Self → List Held };

    // That they keep their rules.
    ghost keep: { Self → Type 0 };

    /// The values whose members stand at the front of a text, `later` if others stand before, and
    /// what follows the brace that ends the record.
    fn read_members<'t>(text: &'t [u8], later: bool, names: &[&str]) -> Option<(Self, &'t [u8])>
        ensures { IsFrontItem (IsNamed keep cells_of (map now names.now))
            (λ values. members_text later (map now names.now) (cells_of values)) text.now result };

    /// Values that keep their rules have cells that can be told, and no other such values have the
    /// same.
    fn columns_law()
        ensures { AreColumns keep cells_of };
}

impl Columns for () {
    ghost use Rattle.std.specs.Prelude.{[], ⊤};

    ghost cells_of = { λ _. [] };

    ghost keep = { λ _. ⊤ };

    fn read_members<'t>(text: &'t [u8], _later: bool, names: &[&str]) -> Option<((), &'t [u8])> {
        if !names.is_empty() {
            return None;
        }
        match behind(text, b"}") {
            Some(rest) => Some(((), rest)),
            None => None,
        }
    }

    fn columns_law() {}
}

impl<A: Column, B: Columns> Columns for (A, B) {
    ghost use Rattle.std.specs.Prelude.{◌∷◌};

    ghost cells_of = { λ values. A.cell_of values.0 ∷ B.cells_of values.1 };

    ghost keep = { λ values. A.keeps values.0 × B.keep values.1 };

    fn read_members<'t>(text: &'t [u8], later: bool, names: &[&str]) -> Option<((A, B), &'t [u8])> {
        A::column_law();
        B::columns_law();
        let [name, names @ ..] = names else {
            return None;
        };
        let Some((cell, rest)) = member_at(text, later, name) else {
            return None;
        };
        let Some(first) = A::of_cell(&cell) else {
            return None;
        };
        match B::read_members(rest, true, names) {
            Some((others, rest)) => Some(((first, others), rest)),
            None => None,
        }
    }

    fn columns_law() {
        A::column_law();
        B::columns_law();
    }
}

/// The values whose record stands at the front of a text, and what follows it: exactly where the
/// text begins with the record of values that keep their rules, with a name for each.
pub fn read_front<'t, T: Columns>(text: &'t [u8], names: &[&str]) -> Option<(T, &'t [u8])>
    ensures { IsFrontItem (IsNamed T.keep T.cells_of (map now names.now))
        (λ values. record_text (map now names.now) (T.cells_of values)) text.now result }
{
    match behind(text, b"{") {
        Some(members) => T::read_members(members, false, names),
        None => None,
    }
}

/// The values whose record is the whole of a text, in the same way.
pub fn read_whole<T: Columns>(text: &[u8], names: &[&str]) -> Option<T>
    ensures { IsFound (λ values. IsNamed T.keep T.cells_of (map now names.now) values
        × (text.now ≡ record_text (map now names.now) (T.cells_of values))) result }
{
    T::columns_law();
    let Some((values, rest)) = read_front::<T>(text, names) else {
        return None;
    };
    if rest.is_empty() { Some(values) } else { None }
}
