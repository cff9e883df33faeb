//! The rules of a sale that look at the bases and the identifiers that were sold to its meter
//! before.

ghost use Rattle.std.specs.Prelude.{◌≡◌, ◌↔◌, ◌≤◌, List, All, IfSome, IsTrue, Ok, false, true};
ghost use Rattle.std.specs.Option.{ForSome};
ghost use Rattle.sts_fields.specs.Tid.{fresh_after, last_tid};
ghost use Rattle.vend_core.specs.Law.Reached.{HasFreshTid, IsUnderPresentBase};
ghost use Rattle.office_rules.specs.declared.office.sale.Sale.{Sale};
ghost use Rattle.book_tables.specs.row.Gathered.{IsGathered};
ghost use Rattle.audit_lists.specs.reached.Walk.{IsNotAfter};

use book_tables::Gathered;
use office_rules::Sale;
use sts_fields::{Base, LAST_TID, fresh_law, minute, next_tid};

// Whether a base is no later one than the sale's, or was not sold under to its meter.
fn is_not_after(gathered: &Gathered, base: Base, sale: &Sale) -> bool
    ensures { (earlier : List Sale) → IsGathered earlier gathered.now
        → (IsTrue result ↔ IsNotAfter base earlier sale.now) }
{
    if base.year() <= sale.base.year() {
        return true;
    }
    gathered.last_id(&sale.meter, base).is_none()
}

// Whether the meter was not moved back.
pub(crate) fn is_under_present_base(gathered: &Gathered, sale: &Sale) -> bool
    ensures { (earlier : List Sale) → IsGathered earlier gathered.now
        → (IsTrue result ↔ IsUnderPresentBase earlier sale.now) }
{
    if !is_not_after(gathered, Base::Y2014, sale) {
        return false;
    }
    is_not_after(gathered, Base::Y2035, sale)
}

fn is_past_end(last: Option<u32>) -> bool
    ensures yes { result ≡ true → ¬ IfSome last (λ before. before ≤ last_tid) }
    ensures no { result ≡ false → ForSome last (λ before. before ≤ last_tid) }
{
    match last {
        Some(before) => before > LAST_TID,
        None => false,
    }
}

// Whether an identifier is the next one in a minute, after the last one.
fn is_next(minute: u32, last: Option<u32>, tid: u32) -> bool
    requires { minute ≤ last_tid }
    ensures { IfSome last (λ before. before ≤ last_tid)
        → (IsTrue result ↔ (fresh_after minute last ≡ Ok tid)) }
{
    if is_past_end(last) {
        return false;
    }
    match next_tid(minute, last) {
        Ok(next) => next == tid,
        Err(_) => false,
    }
}

// Whether a sale's identifier is the fresh one after those that were sold before.
pub(crate) fn has_fresh_tid(gathered: &Gathered, sale: &Sale) -> bool
    ensures { (earlier : List Sale) → IsGathered earlier gathered.now
        → All (λ a. a.tid ≤ last_tid) earlier → (IsTrue result ↔ HasFreshTid earlier sale.now) }
{
    fresh_law();
    match minute(sale.base, sale.moment) {
        Ok(minute) => is_next(minute, gathered.last_id(&sale.meter, sale.base), sale.tid),
        Err(_) => false,
    }
}
