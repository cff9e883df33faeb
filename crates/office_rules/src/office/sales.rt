ghost use Rattle.std.specs.Prelude.{◌≡◌};

use crate::office::Sale;
use std::marker::Model;

/// Some sales, in order.
///
/// Contracts see the list of them.
#[derive(Debug, Drop)]
pub struct Sales {
    items: Vec<Sale>,
}

impl Model for Sales {
    ghost use Rattle.std.specs.Prelude.{List};
    ghost use Rattle.office_rules.specs.declared.office.sale.Sale.{Sale};

    ghost Value = { List Sale };

    ghost view = { λ s. s.items.items };
}

impl Sales {
    /// These sales, without taking memory.
    pub fn of(items: Vec<Sale>) -> Sales
        ensures { result ≡ items.items }
    {
        Sales { items }
    }

    /// The sales.
    pub fn as_slice(&self) -> &[Sale]
        ensures { result.now ≡ self.now }
    {
        self.items.as_slice()
    }

    /// The sales, without taking memory.
    pub fn into_vec(self) -> Vec<Sale>
        ensures { result.items ≡ self }
    {
        self.items
    }
}
