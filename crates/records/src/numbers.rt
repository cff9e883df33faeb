//! Numbers in the cells of records: each that its type has.

use crate::cell::Cell;
use crate::column::Column;

impl Column for u64 {
    ghost use Rattle.std.specs.Prelude.{◌<◌, ◌^◌};
    ghost use Rattle.records.specs.Cell.{number};

    ghost cell_of = { number };

    ghost keeps = { λ n. n < 2 ^ 64 };

    fn of_cell(told: &Cell<'_>) -> Option<u64> {
        match told {
            Cell::Number(number) => Some(*number),
            Cell::Text(_) | Cell::Nothing => None,
        }
    }

    fn column_law() {}
}

impl Column for u32 {
    ghost use Rattle.std.specs.Prelude.{◌<◌, ◌^◌};
    ghost use Rattle.records.specs.Cell.{number};

    ghost cell_of = { number };

    ghost keeps = { λ n. n < 2 ^ 32 };

    fn of_cell(told: &Cell<'_>) -> Option<u32> {
        match told {
            Cell::Number(number) if *number <= u64::from(u32::MAX) => Some(*number as u32),
            _ => None,
        }
    }

    fn column_law() {}
}
