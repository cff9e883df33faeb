//! The laws of lives.
ghost use Rattle.std.specs.Prelude.{◌≡◌, IfOk, IsTrue};
ghost use Rattle.office_rules.specs.Office.{empty_office};
ghost use Rattle.vend_core.specs.Law.Life.{present};
ghost use Rattle.vend_core.specs.Law.LifeLaws.{extended_by, opened};
ghost use Rattle.vend_core.specs.Lists.{office_of};

use crate::laws::lived::{handed, opens, sold_once};
use office_lines::values::{
    FIRST_DAY, METER, flat, meter, meter_no, moment, order, stamped, tariff_name,
};
use office_rules::{Answer, Meter, MeterNo, Reply, Request, Sale, Stamped};
use std::alloc::Global;
use std::test::Fail;
use sts_fields::{Base, Moment};
use sts_token::{BlockTransform, Demo, Plain};
use vend_core::{Lists, history_law, life_law, lives_law};

/// An office that was asked once, and what it replied.
#[derive(Drop)]
struct Asked<T> {
    lists: Lists<T>,
    reply: Reply,
}

// The lists keep the present office of a life of one exchange.
fn asked_once<T: BlockTransform>(alloc: Global, transform: T, at: &Stamped) -> Asked<T>
    ensures { present (extended_by (opened (T.forwards transform) empty_office) at.now result.reply)
        ≡ office_of result.lists }
{
    life_law();
    at.keeps_ranges();
    let mut lists = Lists::new(alloc, transform);
    let reply = lists.serve(at);
    Asked { lists, reply }
}

#[test]
fn a_life_of_one_request(rt: HostRuntime) -> Result<(), Fail> {
    let alloc = rt.alloc();
    let tariff = Request::AddTariff(tariff_name(b"flat")?, flat(alloc, 100)?);
    let asked = asked_once(alloc, Plain, &stamped(FIRST_DAY, 0, tariff)?);
    assert!(rt; matches!(&asked.reply, Ok(Answer::Done)));
    assert!(rt; asked.lists.sales().is_empty());
    Ok(())
}

/// A sale, and what was reprinted under its number.
#[derive(Drop)]
struct Reprint {
    first: Sale,
    again: Sale,
}

// A life sells under one transform, and the next one reprints under another: from the empty office
// on these are two lives, and so the digits are the first ones.
fn reprinted_in_the_next_life<T: BlockTransform + Drop, U: BlockTransform + Drop>(
    alloc: Global,
    transform: T,
    next: U,
    moment: Moment,
    number: MeterNo,
    meter: Meter,
) -> Result<Reprint, Fail>
    ensures { IfOk result (λ it. it.again.digits ≡ it.first.digits) }
{
    history_law();
    life_law();
    let sold = sold_once(alloc, transform, moment, number, meter)?;
    let first = sold.sale;
    let mut lists = sold.lists.with_transform(next);
    opens(&lists);
    let reprint = Request::Reprint(first.number);
    let again = handed(&mut lists, &stamped(moment.secs(), 0, reprint)?)?;
    if again.number == first.number {
        Ok(Reprint { first, again })
    } else {
        Err("another number".into())
    }
}

#[test]
fn the_first_token_under_another_transform(rt: HostRuntime) -> Result<(), Fail> {
    let alloc = rt.alloc();
    let (at, number) = (moment(FIRST_DAY)?, meter_no(METER)?);
    let on_flat = meter(Base::Y2014, b"flat")?;
    let it = reprinted_in_the_next_life(alloc, Plain, Demo, at, number, on_flat)?;
    assert_eq!(rt; it.first.digits, *b"00000000008590312314");
    assert_eq!(rt; it.again.digits, it.first.digits);
    Ok(())
}

fn have_one_identifier(one: &Sale, other: &Sale) -> bool
    ensures meter { IsTrue result → one.now.meter ≡ other.now.meter }
    ensures base { IsTrue result → one.now.base ≡ other.now.base }
    ensures tid { IsTrue result → one.now.tid ≡ other.now.tid }
{
    one.meter == other.meter && one.base == other.base && one.tid == other.tid
}

fn have_one_ref(one: &Sale, other: &Sale) -> bool
    ensures operator { IsTrue result → one.now.operator ≡ other.now.operator }
    ensures order_ref { IsTrue result → one.now.order_ref ≡ other.now.order_ref }
{
    one.operator.as_bytes() == other.operator.as_bytes()
        && one.order_ref.as_bytes() == other.order_ref.as_bytes()
}

/// A sale, and what its order and its number got afterwards.
#[derive(Drop)]
struct Again {
    first: Sale,
    by_order: Sale,
    by_number: Sale,
}

// A life sells, and the next one, under another transform, is asked for the order and then for the
// number. What it gives for the order has the identifier, and what it gives for the number has the
// ref: so each of them is the sale.
fn asked_again_in_the_next_life<T: BlockTransform + Drop, U: BlockTransform + Drop>(
    alloc: Global,
    transform: T,
    next: U,
    moment: Moment,
    number: MeterNo,
    meter: Meter,
) -> Result<Again, Fail>
    ensures one_identifier { IfOk result (λ it. it.by_order ≡ it.first) }
    ensures one_ref { IfOk result (λ it. it.by_number ≡ it.first) }
{
    history_law();
    life_law();
    let sold = sold_once(alloc, transform, moment, number, meter)?;
    let first = sold.sale;
    let mut lists = sold.lists.with_transform(next);
    opens(&lists);
    let sell = order(b"A-1", number.as_bytes(), 50)?;
    let by_order = handed(&mut lists, &stamped(moment.secs(), 0, sell)?)?;
    let reprint = Request::Reprint(first.number);
    let by_number = handed(&mut lists, &stamped(moment.secs(), 0, reprint)?)?;
    if !have_one_identifier(&by_order, &first) {
        return Err("another identifier".into());
    }
    if !have_one_ref(&by_number, &first) {
        return Err("another ref".into());
    }
    Ok(Again {
        first,
        by_order,
        by_number,
    })
}

#[test]
fn one_sale_by_order_and_by_number(rt: HostRuntime) -> Result<(), Fail> {
    let alloc = rt.alloc();
    let (at, number) = (moment(FIRST_DAY)?, meter_no(METER)?);
    let on_flat = meter(Base::Y2014, b"flat")?;
    let it = asked_again_in_the_next_life(alloc, Plain, Demo, at, number, on_flat)?;
    assert_eq!(rt; it.by_order.digits, *b"00000000008590312314");
    assert_eq!(rt; it.by_order, it.first);
    assert_eq!(rt; it.by_number, it.first);
    Ok(())
}

// Lives begin with a copy of an office, as a restore does, of which nothing is told but that it is
// one: what is reprinted is the sale that stands in it.
fn reprinted_on_a_copy<T: BlockTransform + Drop, U: BlockTransform + Drop>(
    alloc: Global,
    transform: T,
    next: U,
    moment: Moment,
    number: MeterNo,
    meter: Meter,
) -> Result<Reprint, Fail>
    ensures { IfOk result (λ it. it.again ≡ it.first) }
{
    lives_law();
    let sold = sold_once(alloc, transform, moment, number, meter)?;
    let mut copy = sold.lists.with_transform(next);
    opens(&copy);
    let reprint = Request::Reprint(sold.sale.number);
    let again = handed(&mut copy, &stamped(moment.secs(), 0, reprint)?)?;
    if copy.sales().len() == 1 {
        Ok(Reprint {
            first: sold.sale,
            again,
        })
    } else {
        Err("not one sale".into())
    }
}

#[test]
fn the_sale_of_a_copy(rt: HostRuntime) -> Result<(), Fail> {
    let alloc = rt.alloc();
    let (at, number) = (moment(FIRST_DAY)?, meter_no(METER)?);
    let on_flat = meter(Base::Y2014, b"flat")?;
    let it = reprinted_on_a_copy(alloc, Demo, Plain, at, number, on_flat)?;
    assert_eq!(rt; it.again, it.first);
    Ok(())
}
