ghost use Rattle.std.specs.Prelude.{◌≡◌};
ghost use Rattle.office_rules.specs.Office.{Office};
ghost use Rattle.book_opening.specs.Opening.{sold_by};

use office_rules::{Moment, Sale};

/// What an office has sold so far.
#[derive(Clone, Copy, Debug, PartialEq, Eq)]
pub struct SoldSoFar {
    /// The number of the next sale, from 1 on.
    pub next_number: u64,
    /// The moment of the last sale, if there is one.
    pub last_moment: Option<Moment>,
}

impl SoldSoFar {
    // By all sales of the office.
    pub(crate) fn of_sales(sales: &[Sale]) -> SoldSoFar
        ensures { (o : Office) → o.sales ≡ sales.now → result ≡ sold_by o }
    {
        SoldSoFar {
            next_number: sales.len() as u64 + 1,
            last_moment: sales.last().map(|sale| sale.moment),
        }
    }
}
