ghost use Rattle.std.specs.Prelude.{◌≡◌};
ghost use Rattle.records.specs.Cell.{held};

use crate::cell::Cell;

/// A value that stands in one cell of a record.
pub trait Column: Sized + Drop {
    ghost use Rattle.records.specs.Cell.{Held};
    ghost use Rattle.records.specs.Column.{IsColumn};
    ghost use Rattle.records.specs.Front.{IsFound};

    // What its cell holds.
    ghost cell_of: { Self → Held };

    // That it keeps its rule.
    ghost keeps: { Self → Type 0 };

    /// The value that keeps its rule and whose cell this is, if there is one.
    fn of_cell(told: &Cell<'_>) -> Option<Self>
        ensures { IsFound (λ value. keeps value × (cell_of value ≡ held told.now)) result };

    /// A value that keeps its rule has a cell that can be told, and no other such value has the
    /// same.
    fn column_law()
        ensures { IsColumn keeps cell_of };
}

impl<C: Column> Column for Option<C> {
    ghost use Rattle.records.specs.Column.{KeepsIfAny, cell_or_nothing};

    ghost cell_of = { cell_or_nothing C.cell_of };

    ghost keeps = { KeepsIfAny C.keeps C.cell_of };

    fn of_cell(told: &Cell<'_>) -> Option<Option<C>> {
        match told {
            Cell::Nothing => Some(None),
            Cell::Number(_) | Cell::Text(_) => match C::of_cell(told) {
                Some(value) => Some(Some(value)),
                None => None,
            },
        }
    }

    fn column_law() {
        C::column_law();
    }
}
