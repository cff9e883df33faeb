//! What requests on sales look at.

ghost use Rattle.std.specs.Prelude.{◌≡◌, length};
ghost use Rattle.sqlite.specs.State.{IsUnchanged};
ghost use Rattle.one_table.specs.Over.{Over};
ghost use Rattle.office_rules.specs.Decision.Facts.{AreSaleFacts};
ghost use Rattle.office_rules.specs.Office.Lookup.{sale_numbered};
ghost use Rattle.book_tables.specs.reading.Questions.{the_sale};
ghost use Rattle.book_tables.specs.reading.Seen.{HasSpoilt, ShowsFirst};
ghost use Rattle.book_states.specs.FactsSeen.{AreSaleFactsSeen};
ghost use Rattle.book_states.specs.Spoilt.{IsSaleSpoilt};
ghost use Rattle.book_facts.specs.Looking.{LooksUp};

use crate::facts::accounts::account_numbered;
use book_tables::TableError;
use book_tables::reading::{sales, shifts};
use office_rules::{Facts, Moment, Order};
use sqlite::{Alter, Connection};
use std::alloc::Global;

/// What Sell looks at: the rest only where no sale was made under the order's ref, and the meter
/// only where the operator has a shift open. The count of sales is the caller's, which knows the
/// number of the next one.
// A function of its own, so that no other request takes the room of its facts.
#[inline(never)]
pub(crate) fn sale_facts<S: Alter>(
    alloc: Global,
    conn: &mut Connection<S>,
    moment: Moment,
    order: &Order,
    sale_count: u64,
) -> Result<Facts, TableError>
    ensures { Over S.Store conn (λ old new. LooksUp IsUnchanged (λ o f. sale_count ≡ length o.sales
        → AreSaleFacts o moment order.now f) (AreSaleFactsSeen sale_count moment order.now)
        (IsSaleSpoilt moment order.now) old new result) }
{
    let mut facts = Facts::none();
    facts.first_sale = sales::sale_of_ref(conn, &order.operator, &order.order_ref)?;
    if facts.first_sale.is_some() {
        return Ok(facts);
    }
    facts.open_shift = shifts::open_shift(conn, &order.operator)?;
    if facts.open_shift.is_none() {
        return Ok(facts);
    }
    facts.account = account_numbered(alloc, conn, &order.meter, moment)?;
    facts.sale_count = sale_count;
    Ok(facts)
}

/// What Reprint looks at.
pub(crate) fn reprint_facts<S: Alter>(
    conn: &mut Connection<S>,
    number: u32,
) -> Result<Facts, TableError>
    ensures { Over S.Store conn (λ old new. LooksUp IsUnchanged
        (λ o f. f.sale ≡ sale_numbered o number) (λ db f. ShowsFirst
        (the_sale number) db f.sale) (HasSpoilt (the_sale number)) old new result) }
{
    let sale = sales::sale_numbered(conn, number)?;
    Ok(Facts {
        sale,
        ..Facts::none()
    })
}
