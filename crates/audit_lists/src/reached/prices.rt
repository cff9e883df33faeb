//! The rule of prices.

ghost use Rattle.std.specs.Prelude.{◌≡◌, ◌↔◌, ◌≤◌, List, All, Any, IsTrue, false, length, true};
ghost use Rattle.tariff.specs.Cost.{greatest_prior};
ghost use Rattle.tariff.specs.Purchase.{IsPurchase};
ghost use Rattle.vend_core.specs.Law.Reached.{IsBoughtByOne};
ghost use Rattle.office_rules.specs.Office.{IsSaleRow, Office, greatest_count};
ghost use Rattle.office_rules.specs.declared.office.sale.Sale.{Sale};
ghost use Rattle.book_tables.specs.row.Gathered.{IsGathered};
ghost use Rattle.audit_lists.specs.reached.Prices.{AreListed, Sells, bought_in};

use crate::reached::listed::ListedSteps;
use book_tables::Gathered;
use office_rules::Sale;
use sts_fields::{amount_law, day_of, month_of};
use tariff::{MAX_PRIOR, Steps, buy, price_law, purchase_law};

// Whether a sale's tender buys its tenths at its price by some steps, after the month's prior ones.
fn buys(steps: &Steps, prior: u64, sale: &Sale) -> bool
    requires { prior ≤ greatest_prior }
    ensures { IsTrue result
        ↔ IsPurchase steps.now prior sale.now.tender (bought_in sale.now) }
{
    purchase_law();
    match buy(steps, prior, sale.tender) {
        Some(bought) => {
            bought.tenths.tenths() == sale.tenths.tenths() && bought.price == sale.price
        }
        None => false,
    }
}

// Whether it does so by some of the lists that begin by a day.
fn some_sells(listed: &[ListedSteps], day: u32, prior: u64, sale: &Sale) -> bool
    requires { prior ≤ greatest_prior }
    ensures yes { result ≡ true → Any (Sells day prior sale.now) listed.now }
    ensures no { result ≡ false → All (λ l. ¬ Sells day prior sale.now l) listed.now }
{
    'listed: for list in listed {
        if list.from <= day && buys(&list.steps, prior, sale) {
            return true;
        }
    }
    false
}

/// Whether it does so by steps that a tariff may have had on the sale's day.
pub(crate) fn is_bought(listed: &[ListedSteps], gathered: &Gathered, sale: &Sale) -> bool
    ensures { (o : Office) (earlier : List Sale) → AreListed o listed.now
        → IsGathered earlier gathered.now → length earlier ≤ greatest_count
        → All (IsSaleRow o) earlier → (IsTrue result ↔ IsBoughtByOne o earlier sale.now) }
{
    amount_law();
    price_law();
    let month = month_of(sale.moment).unwrap();
    let prior = gathered
        .tenths(&sale.meter, month)
        .unwrap_or(0)
        .min(MAX_PRIOR);
    some_sells(listed, day_of(sale.moment).days(), prior, sale)
}
