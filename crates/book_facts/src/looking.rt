//! A look-up in the tables.

ghost use Rattle.std.specs.Prelude.{◌≡◌, Ok, false};
ghost use Rattle.sqlite.specs.State.{HasCleanDisk};
ghost use Rattle.one_table.specs.Over.{Over};
ghost use Rattle.office_rules.specs.Office.{Office};
ghost use Rattle.book_states.specs.Health.{IsHealthOf};
ghost use Rattle.book_states.specs.Stores.{Stores};
ghost use Rattle.book_states.specs.Same.{IsSame};
ghost use Rattle.book_facts.specs.Lookups.{Finds, IsFoundIn, IsOfRules};
ghost use Rattle.book_facts.specs.Looking.{LooksUpByRules, TellsTables};
ghost use Rattle.book_facts.specs.LookupsSeen.{FindsSeen, IsFoundSeen, LookupSpoilt};

use book_states::{Found, Health, Lookup, refusal_of};
use book_tables::TableError;
use office_rules::{Moment, Refusal};
use sqlite::{Alter, Connection};
use std::alloc::Global;

mod last_sales;
mod later_steps;
mod meter_page;
mod meters;
mod quotes;
mod sale_page;
mod sales;
mod shift_page;
mod shifts;
mod tariff_page;

pub use quotes::quote_law;

/// What the tables have of what is looked up, at a moment. The health is the caller's: it is told
/// as it is given, and nothing is read for it.
///
/// # Errors
/// `NoMeter`, `NoSale`, `NoSuchShift`; of a quote those of a new sale, but for its shift; `Store`
/// and `Memory`.
pub fn look_up<S: Alter>(
    alloc: Global,
    conn: &mut Connection<S>,
    moment: Moment,
    health: &Health,
    lookup: &Lookup,
) -> Result<Found, Refusal>
    requires { conn.old.in_transaction ≡ false }
    ensures found { Over S.Store conn (λ old new. HasCleanDisk new → (o : Office) → Stores old o
        → IsHealthOf o health.now → IsFoundIn o moment lookup.now result) }
    ensures tells { Over S.Store conn (λ old new. TellsTables IsOfRules
        (IsFoundSeen health.now moment lookup.now) (LookupSpoilt moment lookup.now) old new
        result) }
    ensures unread { lookup.now ≡ Lookup.Health
        → (result ≡ Ok (Found.Health health.now)) × (conn.new ≡ conn.old) }
{
    // Outside a transaction an open connection has what was committed last.
    let _settled = conn.is_autocommit();
    match found_of(alloc, conn, moment, health, lookup) {
        Ok(found) => found,
        Err(error) => Err(refusal_of(error)),
    }
}

// What the tables have of it, or why the rules give nothing.
fn found_of<S: Alter>(
    alloc: Global,
    conn: &mut Connection<S>,
    moment: Moment,
    health: &Health,
    lookup: &Lookup,
) -> Result<Result<Found, Refusal>, TableError>
    ensures finds { Over S.Store conn (λ old new. LooksUpByRules IsSame
        (λ o found. IsHealthOf o health.now → Finds o moment lookup.now found)
        (FindsSeen health.now moment lookup.now) (LookupSpoilt moment lookup.now) old new result) }
    ensures unread { lookup.now ≡ Lookup.Health
        → (result ≡ Ok (Ok (Found.Health health.now))) × (conn.new ≡ conn.old) }
{
    match lookup {
        Lookup::Health => Ok(Ok(Found::Health(*health))),
        Lookup::Meter(number) => meters::meter_of(conn, moment, number),
        Lookup::LastSale(number) => last_sales::last_sale_of(conn, number),
        Lookup::SaleOfRef(operator, order_ref) => sales::sale_under(conn, operator, order_ref),
        Lookup::Quote(number, tender) => {
            quotes::quote_of(alloc, conn, moment, number, *tender, health.sales)
        },
        Lookup::ShiftTotals(number) => shifts::totals_under(conn, *number),
        Lookup::Tariffs(after) => tariff_page::tariff_page(alloc, conn, moment, after),
        Lookup::Meters(after) => meter_page::meter_page(alloc, conn, after),
        Lookup::Shifts(after) => shift_page::shift_page(alloc, conn, *after),
        Lookup::Sales(after) => sale_page::sale_page(alloc, conn, *after),
    }
}
