ghost use Rattle.std.specs.Prelude.{◌≡◌, ◌<◌, ◌≤◌, Ok, Err, length};
ghost use Rattle.office_rules.specs.Office.Rows.{greatest_rows};

use crate::office::Row;
use std::marker::Model;

/// The rows of an import, in order: at most 10000.
///
/// Contracts see the list of them.
#[derive(Debug, Drop)]
pub struct Rows {
    items: Vec<Row>,
}

impl Model for Rows {
    ghost use Rattle.std.specs.Prelude.{◌≤◌, List, length};
    ghost use Rattle.office_rules.specs.Office.Rows.{greatest_rows};
    ghost use Rattle.office_rules.specs.declared.office.row.Row.{Row};

    ghost Value = { List Row };

    ghost view = { λ r. r.items.items };

    ghost invariant = { λ r. length r.items.items ≤ greatest_rows };
}

impl Rows {
    /// The greatest number of rows of an import.
    pub const MAX: usize = 10_000;

    /// These rows, or, exactly where they are more than 10000, the vector as it was.
    ///
    /// Takes no memory.
    pub fn of(items: Vec<Row>) -> Result<Rows, Vec<Row>>
        ensures few { length items.items ≤ greatest_rows → result ≡ Ok items.items }
        ensures many { greatest_rows < length items.items → result ≡ Err items }
    {
        if items.len() <= Self::MAX {
            Ok(Rows { items })
        } else {
            Err(items)
        }
    }

    /// The rows.
    pub fn as_slice(&self) -> &[Row]
        ensures view { result.now ≡ self.now }
        ensures few { length self.now ≤ greatest_rows }
    {
        self.items.as_slice()
    }

    /// The rows, without taking memory.
    pub fn into_vec(self) -> Vec<Row>
        ensures { result.items ≡ self }
    {
        self.items
    }
}
