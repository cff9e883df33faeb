//! What is looked up in the books, before sales and after them.

use crate::pages::Office;
use books::{Found, Health, Lookup, MeterSummary, Quote, Totals};
use office_rules::{Moment, Ref, Refusal, Sale};
use office_testing::both::{agree, office, sold};
use office_testing::values::{
    FIRST_DAY, METER, NO_METER, OTHER_METER, flat, meter_no, moment, operator, order, tariff_name,
};
use std::process::Abort;
use std::test::Fail;
use sts_fields::Base;
use tariff::Tender;

// What is found of one thing, or how many members a page has.
#[derive(Clone, Copy, Debug, PartialEq, Eq)]
enum Seen {
    Health(Health),
    Meter(MeterSummary),
    Sale(Sale),
    Quote(Quote),
    ShiftTotals(u32, Totals),
    Members(usize),
}

fn value_of(found: &Found) -> Seen {
    match found {
        Found::Health(health) => Seen::Health(*health),
        Found::Meter(meter) => Seen::Meter(*meter),
        Found::Sale(sale) => Seen::Sale(*sale),
        Found::Quote(quote) => Seen::Quote(*quote),
        Found::ShiftTotals(number, totals) => Seen::ShiftTotals(*number, *totals),
        Found::Tariffs(page) => Seen::Members(page.len()),
        Found::Meters(page) => Seen::Members(page.len()),
        Found::Shifts(page) => Seen::Members(page.len()),
        Found::Sales(page) => Seen::Members(page.len()),
    }
}

fn look_up(both: &mut Office, lookup: &Lookup) -> Result<Result<Seen, Refusal>, Fail> {
    let now = moment(FIRST_DAY)?;
    match both.books.look_up(now, lookup) {
        Ok(found) => Ok(Ok(value_of(&found))),
        Err(refusal) => Ok(Err(refusal)),
    }
}

fn finds(
    rt: &impl Abort,
    both: &mut Office,
    lookup: Lookup,
    expected: Result<Seen, Refusal>,
) -> Result<(), Fail> {
    let found = look_up(both, &lookup)?;
    assert!(rt; found == expected, "{found:?}, not {expected:?}");
    Ok(())
}

fn of_ref(text: &[u8]) -> Result<Lookup, Fail> {
    let order_ref = Ref::read(text).ok_or("no ref")?;
    Ok(Lookup::SaleOfRef(operator(b"ann")?, order_ref))
}

fn tender(cents: u64) -> Result<Tender, Fail> {
    Ok(Tender::read(cents).ok_or("no tender")?)
}

// The health of an office in which no change failed.
fn health(sales: u64, last_moment: Option<Moment>) -> Seen {
    Seen::Health(Health {
        sales,
        last_moment,
        write_failed: false,
    })
}

// The quote of an order of the meter, and the sale that is made of it next.
fn quoted_and_sold(rt: &impl Abort, both: &mut Office, order_ref: &[u8]) -> Result<Sale, Fail> {
    let meter = meter_no(METER)?;
    let found = look_up(both, &Lookup::Quote(meter, tender(25)?))?;
    let sale = sold(both, FIRST_DAY, order(order_ref, METER, 25)?)?;
    let quote = Quote {
        meter,
        tariff: tariff_name(b"block")?,
        tender: tender(25)?,
        tenths: sale.tenths,
        price: sale.price,
    };
    assert_eq!(rt; sale.price, 20);
    assert!(rt; found == Ok(Seen::Quote(quote)), "{found:?}");
    Ok(sale)
}

#[test]
fn nothing_was_sold_yet(rt: HostRuntime) -> Result<(), Fail> {
    let alloc = rt.alloc();
    let mut both = office(alloc, Base::Y2014, flat(alloc, 100)?)?;
    let meter = meter_no(METER)?;
    let no_meter = meter_no(NO_METER)?;
    finds(&rt, &mut both, Lookup::Health, Ok(health(0, None)))?;
    finds(
        &rt,
        &mut both,
        Lookup::LastSale(meter),
        Err(Refusal::NoSale),
    )?;
    finds(&rt, &mut both, of_ref(b"A-1")?, Err(Refusal::NoSale))?;
    finds(
        &rt,
        &mut both,
        Lookup::LastSale(no_meter),
        Err(Refusal::NoMeter),
    )?;
    finds(
        &rt,
        &mut both,
        Lookup::Meter(no_meter),
        Err(Refusal::NoMeter),
    )?;
    finds(
        &rt,
        &mut both,
        Lookup::Quote(no_meter, tender(25)?),
        Err(Refusal::NoMeter),
    )?;
    finds(
        &rt,
        &mut both,
        Lookup::Quote(meter, tender(9)?),
        Err(Refusal::TooLittle),
    )?;
    finds(
        &rt,
        &mut both,
        Lookup::ShiftTotals(2),
        Err(Refusal::NoSuchShift),
    )?;
    agree(&mut both)
}

#[test]
fn what_was_sold(rt: HostRuntime) -> Result<(), Fail> {
    let alloc = rt.alloc();
    let mut both = office(alloc, Base::Y2014, flat(alloc, 100)?)?;
    let meter = meter_no(METER)?;
    let first = quoted_and_sold(&rt, &mut both, b"A-1")?;
    let last = quoted_and_sold(&rt, &mut both, b"A-2")?;
    let other = sold(&mut both, FIRST_DAY, order(b"A-3", OTHER_METER, 10)?)?;
    let summary = MeterSummary {
        number: meter,
        base: Base::Y2014,
        tariff: tariff_name(b"block")?,
        tenths: 4,
        last_sale: Some(2),
    };
    let totals = both.books.shift_totals(1)?;
    let last_moment = Some(moment(FIRST_DAY)?);
    finds(&rt, &mut both, Lookup::Health, Ok(health(3, last_moment)))?;
    finds(&rt, &mut both, Lookup::Sales(0), Ok(Seen::Members(3)))?;
    finds(&rt, &mut both, Lookup::Sales(2), Ok(Seen::Members(1)))?;
    finds(&rt, &mut both, Lookup::Shifts(0), Ok(Seen::Members(1)))?;
    finds(
        &rt,
        &mut both,
        Lookup::Meter(meter),
        Ok(Seen::Meter(summary)),
    )?;
    finds(
        &rt,
        &mut both,
        Lookup::LastSale(meter),
        Ok(Seen::Sale(last)),
    )?;
    finds(&rt, &mut both, of_ref(b"A-1")?, Ok(Seen::Sale(first)))?;
    finds(&rt, &mut both, of_ref(b"A-3")?, Ok(Seen::Sale(other)))?;
    finds(
        &rt,
        &mut both,
        Lookup::ShiftTotals(1),
        Ok(Seen::ShiftTotals(1, totals)),
    )?;
    agree(&mut both)
}
