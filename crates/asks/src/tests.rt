//! Tests of this crate: targets and bodies as docs/DESK.md has them.

ghost use Rattle.std.specs.Prelude.{◌≡◌};
ghost use Rattle.asks.specs.Ask.{Asks};
ghost use Rattle.asks.specs.Examples.{order_ask, order_message, sale_ask, sale_message};
ghost use Rattle.asks.specs.declared.ask.Ask.{Ask as WhatIsAsked};

use crate::{Ask, Csv, Lookup, ask_law};
use office_rules::{MeterNo, Operator, Order, Ref, Request, TariffName};
use papers::FileKind;
use std::alloc::Global;
use std::process::Abort;
use std::test::Fail;
use sts_fields::{Base, Day};
use tariff::{Steps, Tender};

// ---- the law

// GET /operators/ann/sales/A-1 asks for the sale of Ann's order, and for nothing else.
fn asks_for_sale()
    ensures asks { Asks sale_message sale_ask }
    ensures alone { (other : WhatIsAsked) → Asks sale_message other → other ≡ sale_ask }
{
    ask_law();
}

// POST /sales with her order asks for this sale, and for nothing else.
fn asks_to_sell()
    ensures asks { Asks order_message order_ask }
    ensures alone { (other : WhatIsAsked) → Asks order_message other → other ≡ order_ask }
{
    ask_law();
}

#[test]
fn asks_one(_rt: HostRuntime) -> Result<(), Fail> {
    asks_for_sale();
    asks_to_sell();
    Ok(())
}

// ---- rows: what docs/DESK.md has

// That an ask has this target and this body, and that it is read of them.
fn is_told(
    rt: &impl Abort,
    alloc: Global,
    ask: &Ask<'_>,
    target: &str,
    body: &str,
) -> Result<(), Fail> {
    let mut text = Vec::new(alloc);
    ask.put_target(&mut text)?;
    assert_eq!(rt; text.as_slice(), target.as_bytes());
    let mut told = Vec::new(alloc);
    ask.put_body(&mut told)?;
    assert_eq!(rt; told.as_slice(), body.as_bytes());
    let values = ask.kind().values_in(target.as_bytes()).ok_or("values")?;
    let Ok(read) = ask.kind().ask_in(alloc, &values, body.as_bytes()) else {
        return Err(Fail::from("no ask"));
    };
    let mut again = Vec::new(alloc);
    read.put_target(&mut again)?;
    read.put_body(&mut again)?;
    text.extend_from_slice(&told)?;
    assert_eq!(rt; again.as_slice(), text.as_slice());
    Ok(())
}

#[test]
fn tells_each(rt: HostRuntime) -> Result<(), Fail> {
    let alloc = rt.alloc();
    let meter = MeterNo::read(b"12345678903").ok_or("a meter")?;
    let ann = Operator::read(b"ann").ok_or("an operator")?;
    let first = Ref::read(b"A-1").ok_or("a ref")?;
    let flat = TariffName::read(b"flat").ok_or("a tariff")?;
    let day = Day::of_text(b"2014-02-01").map_err(|_| "a day")?;
    let tender = Tender::read(10).ok_or("a tender")?;
    let steps = Steps::of_text(alloc, b"100:10;:20").map_err(|_| "steps")?;
    let order = Order {
        operator: ann,
        order_ref: first,
        meter,
        tender,
    };
    is_told(
        &rt,
        alloc,
        &Ask::Do(Request::Sell(order)),
        "/sales",
        "{\"meter\":\"12345678903\",\"operator\":\"ann\",\"ref\":\"A-1\",\"tender\":10}",
    )?;
    is_told(
        &rt,
        alloc,
        &Ask::Do(Request::AddTariff(flat, steps)),
        "/tariffs",
        "{\"name\":\"flat\",\"steps\":\"100:10;:20\"}",
    )?;
    is_told(
        &rt,
        alloc,
        &Ask::Do(Request::WithdrawSteps(flat, day)),
        "/tariffs/flat/steps/2014-02-01",
        "",
    )?;
    is_told(
        &rt,
        alloc,
        &Ask::Do(Request::MoveBase(meter, Base::Y2035)),
        "/meters/12345678903/base",
        "{\"base\":2035}",
    )?;
    is_told(
        &rt,
        alloc,
        &Ask::Do(Request::SetKey(meter, 10)),
        "/meters/12345678903/key",
        "{\"key\":\"000000000000000a\"}",
    )?;
    is_told(
        &rt,
        alloc,
        &Ask::Import(FileKind::Meters, Csv::new(b"meter,base,tariff,key\n")),
        "/imports/meters",
        "meter,base,tariff,key\n",
    )?;
    is_told(&rt, alloc, &Ask::Receipt(1), "/sales/1/receipt", "")?;
    is_told(
        &rt,
        alloc,
        &Ask::Look(Lookup::Quote(meter, tender)),
        "/meters/12345678903/quote?tender=10",
        "",
    )?;
    is_told(
        &rt,
        alloc,
        &Ask::Look(Lookup::Tariffs(None)),
        "/tariffs?after=",
        "",
    )?;
    is_told(
        &rt,
        alloc,
        &Ask::Look(Lookup::Sales(0)),
        "/sales?after=0",
        "",
    )?;
    Ok(())
}
