ghost use Rattle.std.specs.Prelude.{◌≡◌, ◌≢◌, ℕ, List, None, Some, Contains};
ghost use Rattle.vend_core.specs.Law.Life.{AreLives, Life};
ghost use Rattle.office_rules.specs.Office.{IsOffice, Office};
ghost use Rattle.office_rules.specs.declared.office.sale.Sale.{Sale};
ghost use Rattle.book_facts.specs.Lookups.{last_sale};
ghost use Rattle.books.specs.Looking.{IsLastTo};

use office_rules::store_law;
use vend_core::{history_law, reached_law};

/// What is found as the last sale to a meter.
pub fn last_sale_law()
    // Where lives led to the office, it is the last one by number.
    ensures last { (lives : List Life) (o : Office) (number : List ℕ) (s : Sale)
        → AreLives lives o → last_sale o number ≡ Some s → IsLastTo o number s }

    // In any office there is none only where nothing was sold to the meter.
    ensures none { (o : Office) (number : List ℕ) (s : Sale)
        → IsOffice o → last_sale o number ≡ None → Contains o.sales s → s.meter ≢ number }
{
    history_law();
    reached_law();
    store_law();
}
