ghost use Rattle.std.specs.Prelude.{◌≡◌};

use crate::decision::RowFacts;
use std::marker::Model;

/// What the office has under the names of an import's rows, in order (`docs/OFFICE.md`,
/// "Requests").
///
/// Contracts see the list of them.
#[derive(Debug, Drop)]
pub struct ImportFacts {
    items: Vec<RowFacts>,
}

impl Model for ImportFacts {
    ghost use Rattle.std.specs.Prelude.{List};
    ghost use Rattle.office_rules.specs.declared.decision.row_facts.RowFacts.{RowFacts};

    ghost Value = { List RowFacts };

    ghost view = { λ f. f.items.items };
}

impl ImportFacts {
    /// Makes the facts of an import: one entry for each row of the file, in its order. It takes no
    /// memory.
    pub fn of(items: Vec<RowFacts>) -> ImportFacts
        ensures { result ≡ items.items }
    {
        ImportFacts { items }
    }

    /// The facts.
    pub fn as_slice(&self) -> &[RowFacts]
        ensures { result.now ≡ self.now }
    {
        self.items.as_slice()
    }
}
