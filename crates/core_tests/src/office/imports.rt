//! Imports over plain vectors at their greatest size.

use office_lines::values::{FIRST_DAY, METER, import, meter, meter_no, stamped, tariff_name};
use office_rules::{Answer, Row, Rows};
use std::alloc::Global;
use std::test::Fail;
use sts_fields::{Base, Day};
use sts_token::Plain;
use tariff::{Step, Steps};
use vend_core::Lists;

// How many rows were new.
fn imported(lists: &mut Lists<Plain>, rows: Vec<Row>) -> Result<u32, Fail> {
    let reply = lists.serve(&stamped(FIRST_DAY, 0, import(rows)?)?);
    match &reply {
        Ok(Answer::Imported(new)) => Ok(*new),
        _ => Ok(None.ok_or("not imported")?),
    }
}

// Eight steps: the most that a tariff has.
fn eight_steps(alloc: Global) -> Result<Steps, Fail> {
    Ok(Steps::of_text(alloc, b"100:1;200:2;300:3;400:4;500:5;600:6;700:7;:8")?)
}

// The tariffs of these numbers, each of eight steps.
fn tariffs(alloc: Global, rows: &mut Vec<Row>, first: u32, last: u32) -> Result<(), Fail> {
    for n in first..=last {
        let text = format!(in alloc; "t{n}")?;
        let name = tariff_name(text.as_bytes())?;
        rows.push(Row::Tariff(name, eight_steps(alloc)?))?;
    }
    Ok(())
}

// Further steps of the first tariff, one for each of so many days from 2014-01-02 on.
fn dated_steps(alloc: Global, rows: &mut Vec<Row>, days: u32) -> Result<(), Fail> {
    let name = tariff_name(b"t1")?;
    for n in 0..days {
        let day = Day::of_days(n.saturating_add(7_671)).ok_or("no day")?;
        rows.push(Row::Steps(name, day, eight_steps(alloc)?))?;
    }
    Ok(())
}

#[test]
fn the_greatest_import(rt: HostRuntime) -> Result<(), Fail> {
    let alloc = rt.alloc();
    let mut lists = Lists::new(alloc, Plain);
    let mut rows = Vec::new(alloc);
    tariffs(alloc, &mut rows, 1, 10_000)?;
    assert_eq!(rt; imported(&mut lists, rows)?, 10_000);
    let mut again = Vec::new(alloc);
    tariffs(alloc, &mut again, 9_901, 10_000)?;
    assert_eq!(rt; imported(&mut lists, again)?, 0);
    let on_last = Row::Meter(meter_no(METER)?, meter(Base::Y2014, b"t10000")?);
    assert_eq!(rt; imported(&mut lists, vec![in alloc; on_last]?)?, 1);
    Ok(())
}

#[test]
fn the_greatest_import_of_steps(rt: HostRuntime) -> Result<(), Fail> {
    let alloc = rt.alloc();
    let mut lists = Lists::new(alloc, Plain);
    let mut rows = Vec::new(alloc);
    tariffs(alloc, &mut rows, 1, 1)?;
    dated_steps(alloc, &mut rows, 9_999)?;
    assert_eq!(rt; imported(&mut lists, rows)?, 10_000);
    let mut again = Vec::new(alloc);
    dated_steps(alloc, &mut again, 100)?;
    assert_eq!(rt; imported(&mut lists, again)?, 0);
    Ok(())
}

#[test]
fn each_row_comes_twice(rt: HostRuntime) -> Result<(), Fail> {
    let alloc = rt.alloc();
    let mut lists = Lists::new(alloc, Plain);
    let mut rows = Vec::new(alloc);
    tariffs(alloc, &mut rows, 1, 5_000)?;
    tariffs(alloc, &mut rows, 1, 5_000)?;
    assert_eq!(rt; imported(&mut lists, rows)?, 5_000);
    let mut too_many = Vec::new(alloc);
    tariffs(alloc, &mut too_many, 1, 10_001)?;
    match Rows::of(too_many) {
        Ok(_) => assert!(rt; false, "10001 rows"),
        Err(rows) => assert_eq!(rt; rows.len(), 10_001),
    }
    Ok(())
}
