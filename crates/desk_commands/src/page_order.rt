//! The order of the members of a page.

ghost use Rattle.std.specs.Prelude.{◌↔◌, ◌<◌, IsTrue, map};
ghost use Rattle.book_lists.specs.Pages.{ComesBefore};
ghost use Rattle.desk_commands.specs.PageOrder.{ComesAfter, Rise};

use asks::Lookup;
use book_states::{Found, ListedMeter, ListedShift, ListedTariff};
use office_rules::Sale;
use std::cmp::Ordering;

/// Whether the members of a page come after what its list begins after, each after the one before
/// it.
pub(crate) fn comes_after(list: &Lookup, page: &Found) -> bool
    ensures { IsTrue result ↔ ComesAfter list.now page.now }
{
    match (list, page) {
        (Lookup::Tariffs(None), Found::Tariffs(page)) => tariffs_rise(b"", page),
        (Lookup::Tariffs(Some(after)), Found::Tariffs(page)) => {
            tariffs_rise(after.as_bytes(), page)
        }
        (Lookup::Meters(None), Found::Meters(page)) => meters_rise(b"", page),
        (Lookup::Meters(Some(after)), Found::Meters(page)) => meters_rise(after.as_bytes(), page),
        (Lookup::Shifts(after), Found::Shifts(page)) => shifts_rise(*after, page),
        (Lookup::Sales(after), Found::Sales(page)) => sales_rise(*after, page),
        _ => false,
    }
}

// Whether the names of tariffs rise from a text on.
fn tariffs_rise(after: &[u8], tariffs: &[ListedTariff]) -> bool
    ensures { IsTrue result ↔ Rise ComesBefore after.now (map (λ t. t.name) tariffs.now) }
{
    match tariffs {
        [] => true,
        [tariff, rest @ ..] => {
            let name = tariff.name.as_bytes();
            comes_before(after, name) && tariffs_rise(name, rest)
        }
    }
}

// Whether the numbers of meters rise from a text on.
fn meters_rise(after: &[u8], meters: &[ListedMeter]) -> bool
    ensures { IsTrue result ↔ Rise ComesBefore after.now (map (λ m. m.number) meters.now) }
{
    match meters {
        [] => true,
        [meter, rest @ ..] => {
            let number = meter.number.as_bytes();
            comes_before(after, number) && meters_rise(number, rest)
        }
    }
}

// Whether a text comes before another, in the order of their bytes.
fn comes_before(text: &[u8], other: &[u8]) -> bool
    ensures { IsTrue result ↔ ComesBefore text.now other.now }
{
    matches!(text.cmp(other), Ordering::Less)
}

// Whether the numbers of shifts rise from a number on.
fn shifts_rise(after: u32, shifts: &[ListedShift]) -> bool
    ensures { IsTrue result ↔ Rise (λ a b. a < b) after (map (λ l. l.shift.number) shifts.now) }
{
    match shifts {
        [] => true,
        [listed, rest @ ..] => {
            after < listed.shift.number && shifts_rise(listed.shift.number, rest)
        }
    }
}

// Whether the numbers of sales rise from a number on.
fn sales_rise(after: u32, sales: &[Sale]) -> bool
    ensures { IsTrue result ↔ Rise (λ a b. a < b) after (map (λ s. s.number) sales.now) }
{
    match sales {
        [] => true,
        [sale, rest @ ..] => after < sale.number && sales_rise(sale.number, rest),
    }
}
