//! What a tender would buy.

ghost use Rattle.std.specs.Prelude.{◌≡◌, ℕ, IsSome, None, length};
ghost use Rattle.std.specs.Option.{option_copied};
ghost use Rattle.sqlite.specs.State.{IsUnchanged};
ghost use Rattle.one_table.specs.Over.{Over};
ghost use Rattle.sts_token.specs.Token.{BlockFunction};
ghost use Rattle.office_rules.specs.Decision.{decision_of};
ghost use Rattle.office_rules.specs.Office.{Office};
ghost use Rattle.office_rules.specs.Office.Lookup.{open_shift, sale_of_ref};
ghost use Rattle.office_rules.specs.declared.decision.request.Order.{Order};
ghost use Rattle.office_rules.specs.declared.decision.request.Request.{Request};
ghost use Rattle.book_states.specs.Spoilt.{IsAccountSpoilt};
ghost use Rattle.book_facts.specs.Lookups.{IsQuoted, quote, quote_for};
ghost use Rattle.book_facts.specs.Looking.{LooksUpByRules};
ghost use Rattle.book_facts.specs.LookupsSeen.{IsQuoteSeen};

use crate::facts::accounts::account_numbered;
use book_states::{Found, Quote};
use book_tables::TableError;
use office_rules::{GREATEST_COUNT, MeterAccount, MeterNo, Moment, Refusal, limits_law};
use sqlite::{Alter, Connection};
use std::alloc::Global;
use sts_fields::{minute, next_tid};
use tariff::{Tender, buy};

/// Where an operator has a shift open and has not used a ref, a sale under it at the moment has
/// what the quote tells, or is refused for the same reason.
pub fn quote_law()
    ensures { (forward : BlockFunction) (o : Office) (moment nibble : ℕ) (order : Order)
        → IsSome (open_shift o order.operator)
        → sale_of_ref o order.operator order.order_ref ≡ None
        → IsQuoted (quote o moment order.meter order.tender)
        (decision_of forward o moment nibble (Request.Sell order)) }
{}

/// What a tender would buy for the meter of a number at a moment. The count of sales is the
/// caller's, which knows the number of the next one.
// A function of its own, so that no other look-up takes the room of an account.
#[inline(never)]
pub(crate) fn quote_of<S: Alter>(
    alloc: Global,
    conn: &mut Connection<S>,
    moment: Moment,
    number: &MeterNo,
    tender: Tender,
    sale_count: u64,
) -> Result<Result<Found, Refusal>, TableError>
    ensures { Over S.Store conn (λ old new. LooksUpByRules IsUnchanged
        (λ o found. sale_count ≡ length o.sales → found ≡ quote o moment number.now tender)
        (IsQuoteSeen number.now moment tender sale_count) (IsAccountSpoilt number.now moment) old
        new result) }
{
    let account = account_numbered(alloc, conn, number, moment)?;
    Ok(quoted(moment, number, tender, account.as_ref(), sale_count))
}

// The tests of a new sale in their order, but for its shift.
fn quoted(
    moment: Moment,
    number: &MeterNo,
    tender: Tender,
    account: Option<&MeterAccount>,
    sale_count: u64,
) -> Result<Found, Refusal>
    ensures { result ≡ quote_for moment number.now tender (option_copied account.entry) sale_count }
{
    limits_law();
    let account = account.ok_or(Refusal::NoMeter)?;
    let meter = account.meter;
    let now = minute(meter.base, moment)?;
    let _tid = next_tid(now, account.last)?;
    let bought = buy(&account.steps, account.prior, tender).ok_or(Refusal::TooLittle)?;
    if sale_count >= GREATEST_COUNT {
        return Err(Refusal::OfficeFull);
    }
    Ok(Found::Quote(Quote {
        meter: *number,
        tariff: meter.tariff,
        tender,
        tenths: bought.tenths,
        price: bought.price,
    }))
}
