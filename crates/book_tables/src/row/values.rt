//! The values of the columns of a row, in the order of its table, as a write binds them.

ghost use Rattle.std.specs.Prelude.{◌≡◌, ◌<◌, ◌^◌, ◌∷◌, [], length};
ghost use Rattle.sqlite.specs.Values.{bound};
ghost use Rattle.sqlite.specs.declared.types.Value.TheVariants.{Text};
ghost use Rattle.sts_fields.specs.Base.{year_of};
ghost use Rattle.sts_token.specs.Key.{IsKeyText};
ghost use Rattle.book_tables.specs.reading.Questions.{first_second};
ghost use Rattle.book_tables.specs.row.Rows.{dated_columns, last_id_columns, meter_columns};
ghost use Rattle.book_tables.specs.row.Rows.{month_columns, number, sale_columns, shift_columns};
ghost use Rattle.book_tables.specs.row.Rows.{step_columns, tariff_columns, totals_columns};
ghost use Rattle.sqlite_value.specs.Value.{owned};
ghost use Rattle.book_tables.specs.writing.Writing.{HasRoomFor};

use crate::row::totals::Totals;
use office_rules::{Meter, MeterNo, Operator, Ref, Sale, Shift, TariffName};
use sqlite::types::ValueRef;
use sts_fields::{Base, Day, Moment, month_of};
use tariff::Step;

// The first second of 1993, in seconds since 1970.
const FIRST_SECOND: u32 = 725_846_400;

// The seconds of a day.
const DAY_LENGTH: u32 = 86_400;

/// A whole number.
pub(crate) fn whole(n: u32) -> ValueRef<'static>
    ensures { owned result ≡ number n }
{
    ValueRef::Int(i64::from(n))
}

/// A moment, in seconds.
pub(crate) fn seconds(moment: Moment) -> ValueRef<'static>
    ensures { owned result ≡ number moment }
{
    ValueRef::Int(moment.secs())
}

/// A whole number.
pub(crate) fn number_values(n: u32) -> [ValueRef<'static>; 1]
    ensures { bound result ≡ number n ∷ [] }
{
    [whole(n)]
}

/// An operator.
pub(crate) fn operator_values(operator: &Operator) -> [ValueRef<'_>; 1]
    ensures { bound result ≡ Text operator.now ∷ [] }
{
    [ValueRef::Text(operator.as_bytes())]
}

/// An operator and a ref.
pub(crate) fn ref_values<'a>(operator: &'a Operator, order_ref: &'a Ref) -> [ValueRef<'a>; 2]
    ensures { bound result ≡ Text operator.now ∷ Text order_ref.now ∷ [] }
{
    [
        ValueRef::Text(operator.as_bytes()),
        ValueRef::Text(order_ref.as_bytes()),
    ]
}

/// The number of a meter.
pub(crate) fn meter_no_values(meter: &MeterNo) -> [ValueRef<'_>; 1]
    ensures { bound result ≡ Text meter.now ∷ [] }
{
    [ValueRef::Text(meter.as_bytes())]
}

/// The name of a tariff.
pub(crate) fn tariff_values(name: &TariffName) -> [ValueRef<'_>; 1]
    ensures { bound result ≡ tariff_columns name.now }
{
    [ValueRef::Text(name.as_bytes())]
}

/// A step of a tariff at its place, from 0.
pub(crate) fn step_values(name: &TariffName, place: u32, step: Step) -> [ValueRef<'_>; 4]
    ensures { bound result
        ≡ step_columns (record { tariff = name.now; place = place; step = step }) }
{
    let ends = match step.ends {
        Some(ends) => whole(ends),
        None => ValueRef::Null,
    };
    [
        ValueRef::Text(name.as_bytes()),
        whole(place),
        ends,
        whole(step.price),
    ]
}

/// The name of a tariff, and a day.
pub(crate) fn dated_values(name: &TariffName, day: Day) -> [ValueRef<'_>; 2]
    ensures { bound result ≡ Text name.now ∷ number day ∷ [] }
{
    [ValueRef::Text(name.as_bytes()), whole(day.days())]
}

/// The first second of a day.
pub(crate) fn first_second_values(day: Day) -> [ValueRef<'static>; 1]
    ensures { bound result ≡ number (first_second day) ∷ [] }
{
    [whole(FIRST_SECOND + day.days() * DAY_LENGTH)]
}

/// A step of those that a tariff has from a day on, at its place, from 0.
pub(crate) fn dated_step_values(
    name: &TariffName,
    day: Day,
    place: u32,
    step: Step,
) -> [ValueRef<'_>; 5]
    ensures { bound result
        ≡ dated_columns (record { tariff = name.now; day = day; place = place; step = step }) }
{
    let ends = match step.ends {
        Some(ends) => whole(ends),
        None => ValueRef::Null,
    };
    [
        ValueRef::Text(name.as_bytes()),
        whole(day.days()),
        whole(place),
        ends,
        whole(step.price),
    ]
}

/// A meter with its number and the text of its key.
#[tactic(auto, using(crate::proofs::RowLemmas::KeyTextLemmas::is_stored_text))]
pub(crate) fn meter_values<'a>(
    meter_no: &'a MeterNo,
    meter: &'a Meter,
    secret: &'a [u8; 16],
) -> [ValueRef<'a>; 4]
    requires { IsKeyText meter.now.key secret.now }
    ensures { bound result ≡ meter_columns (meter_no.now, meter.now) }
{
    [
        ValueRef::Text(meter_no.as_bytes()),
        whole(meter.base.year()),
        ValueRef::Text(meter.tariff.as_bytes()),
        ValueRef::Text(secret),
    ]
}

/// A shift.
pub(crate) fn shift_values(shift: &Shift) -> [ValueRef<'_>; 4]
    ensures { bound result ≡ shift_columns shift.now }
{
    let closed = match shift.closed {
        Some(closed) => seconds(closed),
        None => ValueRef::Null,
    };
    [
        whole(shift.number),
        ValueRef::Text(shift.operator.as_bytes()),
        seconds(shift.opened),
        closed,
    ]
}

/// A sale, with the month of its moment.
pub(crate) fn sale_values(sale: &Sale) -> [ValueRef<'_>; 14]
    ensures { bound result ≡ sale_columns sale.now }
{
    let month = month_of(sale.moment).unwrap();
    [
        whole(sale.number),
        seconds(sale.moment),
        whole(month),
        whole(sale.shift),
        ValueRef::Text(sale.operator.as_bytes()),
        ValueRef::Text(sale.order_ref.as_bytes()),
        ValueRef::Text(sale.meter.as_bytes()),
        whole(sale.base.year()),
        whole(sale.tid),
        whole(u32::from(sale.rnd)),
        whole(sale.tenths.tenths()),
        whole(sale.price),
        whole(sale.tender.cents()),
        ValueRef::Text(&sale.digits),
    ]
}

/// A number, and how many rows after it.
pub(crate) fn page_values(after: u32, limit: u32) -> [ValueRef<'static>; 2]
    ensures { bound result ≡ number after ∷ number limit ∷ [] }
{
    [whole(after), whole(limit)]
}

/// The number of a meter, and a base.
pub(crate) fn base_values(meter: &MeterNo, base: Base) -> [ValueRef<'_>; 2]
    ensures { bound result ≡ Text meter.now ∷ number (year_of base) ∷ [] }
{
    [ValueRef::Text(meter.as_bytes()), whole(base.year())]
}

/// The number of a meter, and a month.
pub(crate) fn month_values(meter: &MeterNo, month: u32) -> [ValueRef<'_>; 2]
    ensures { bound result ≡ Text meter.now ∷ number month ∷ [] }
{
    [ValueRef::Text(meter.as_bytes()), whole(month)]
}

/// The number of a meter, a base, and an identifier of the meter under it.
pub(crate) fn last_id_values(meter: &MeterNo, base: Base, tid: u32) -> [ValueRef<'_>; 3]
    ensures { bound result ≡ last_id_columns ((meter.now, base), tid) }
{
    [
        ValueRef::Text(meter.as_bytes()),
        whole(base.year()),
        whole(tid),
    ]
}

/// The number of a meter, a month, and tenths of the meter in it.
pub(crate) fn tenths_values(meter: &MeterNo, month: u32, tenths: u32) -> [ValueRef<'_>; 3]
    ensures { bound result ≡ month_columns ((meter.now, month), tenths) }
{
    [
        ValueRef::Text(meter.as_bytes()),
        whole(month),
        whole(tenths),
    ]
}

/// The number of a shift, and the tenths and the price of a sale in it.
pub(crate) fn sale_total_values(shift: u32, tenths: u32, price: u32) -> [ValueRef<'static>; 3]
    ensures { bound result ≡ number shift ∷ number tenths ∷ number price ∷ [] }
{
    [whole(shift), whole(tenths), whole(price)]
}

// A sum, where a column can hold it.
fn total(sum: u64) -> ValueRef<'static>
    ensures { sum < 2 ^ 63 → owned result ≡ number sum }
{
    ValueRef::Int(i64::try_from(sum).unwrap_or(i64::MAX))
}

/// The number of a meter, a month, and the sum of the meter's tenths in it, where a column can hold
/// it.
pub(crate) fn month_total_values(meter: &MeterNo, month: u32, tenths: u64) -> [ValueRef<'_>; 3]
    ensures count { length (bound result) ≡ 3 }
    ensures bound { tenths < 2 ^ 63 → bound result ≡ month_columns ((meter.now, month), tenths) }
{
    [
        ValueRef::Text(meter.as_bytes()),
        whole(month),
        total(tenths),
    ]
}

/// The number of a shift, and its totals, where the columns can hold them.
pub(crate) fn shift_total_values(shift: u32, totals: &Totals) -> [ValueRef<'static>; 4]
    ensures count { length (bound result) ≡ 4 }
    ensures bound { HasRoomFor totals.now → bound result ≡ totals_columns (shift, totals.now) }
{
    [
        whole(shift),
        total(totals.sales),
        total(totals.tenths),
        total(totals.cash),
    ]
}
