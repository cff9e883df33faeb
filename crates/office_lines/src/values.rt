//! What requests are made of, by their texts.

use office_rules::{Meter, MeterNo, Operator, Order, Ref, Request, Row, Rows, Stamped, TariffName};
use std::alloc::Global;
use std::test::Fail;
use sts_fields::{Base, Moment};
use tariff::{Step, Steps, Tender};

/// 2014-01-01T00:00:30Z
pub const FIRST_DAY: i64 = 1_388_534_430;

/// 2024-11-24T20:15:59Z, the last second of the identifiers from 1993 on.
pub const LAST_SECOND: i64 = 1_732_479_359;

pub const METER: &[u8] = b"12345678903";

pub const OTHER_METER: &[u8] = b"10000000009";

/// No office has it.
pub const NO_METER: &[u8] = b"00000000000";

pub fn tariff_name(text: &[u8]) -> Result<TariffName, Fail> {
    Ok(TariffName::read(text).ok_or("no tariff's name")?)
}

pub fn meter_no(text: &[u8]) -> Result<MeterNo, Fail> {
    Ok(MeterNo::read(text).ok_or("no meter's number")?)
}

pub fn operator(text: &[u8]) -> Result<Operator, Fail> {
    Ok(Operator::read(text).ok_or("no operator")?)
}

pub fn moment(seconds: i64) -> Result<Moment, Fail> {
    Ok(Moment::of_secs(seconds).ok_or("no moment")?)
}

/// One step without an end.
pub fn flat(alloc: Global, price: u32) -> Result<Steps, Fail> {
    Ok(Steps::read(alloc, &[Step { ends: None, price }])?)
}

/// A meter of the key 0.
pub fn meter(base: Base, tariff: &[u8]) -> Result<Meter, Fail> {
    Ok(Meter {
        base,
        tariff: tariff_name(tariff)?,
        key: 0,
    })
}

/// An order of ann's.
pub fn order(order_ref: &[u8], meter: &[u8], cents: u64) -> Result<Request, Fail> {
    order_of(b"ann", order_ref, meter, cents)
}

pub fn order_of(who: &[u8], order_ref: &[u8], meter: &[u8], cents: u64) -> Result<Request, Fail> {
    Ok(Request::Sell(Order {
        operator: operator(who)?,
        order_ref: Ref::read(order_ref).ok_or("no ref")?,
        meter: meter_no(meter)?,
        tender: Tender::read(cents).ok_or("no tender")?,
    }))
}

pub fn import(rows: Vec<Row>) -> Result<Request, Fail> {
    match Rows::of(rows) {
        Ok(rows) => Ok(Request::Import(rows)),
        Err(_) => Ok(None.ok_or("too many rows")?),
    }
}

pub fn stamped(seconds: i64, nibble: u8, request: Request) -> Result<Stamped, Fail> {
    Ok(Stamped {
        moment: moment(seconds)?,
        nibble: nibble % 16,
        request,
    })
}

/// The meter's number of these ten digits and a check.
pub fn numbered(alloc: Global, digits: u32) -> Result<MeterNo, Fail> {
    for check in 0..10u32 {
        let text = format!(in alloc; "{digits:010}{check}")?;
        if let Some(number) = MeterNo::read(text.as_bytes()) {
            return Ok(number);
        }
    }
    Err("each check was wrong".into())
}

/// The rows of the tariff `flat`, and of so many meters on it.
pub fn flat_with_meters(alloc: Global, meters: u32) -> Result<Vec<Row>, Fail> {
    let on_flat = meter(Base::Y2014, b"flat")?;
    let mut rows = Vec::new(alloc);
    rows.push(Row::Tariff(tariff_name(b"flat")?, flat(alloc, 100)?))?;
    for digits in 0..meters {
        rows.push(Row::Meter(numbered(alloc, digits)?, on_flat))?;
    }
    Ok(rows)
}
