//! More shifts than any list opens, and dated steps as many as a day may have.

use office_rules::{Answer, Request};
use office_testing::both::{Both, agree, ask, in_memory, office, sold};
use office_testing::values::{FIRST_DAY, METER, flat, moment, operator, order, tariff_name};
use sqlite::MemStore;
use std::alloc::Global;
use std::test::Fail;
use sts_fields::{Base, day_of};
use sts_token::Plain;
use tariff::Steps;

// Ann opens a shift and closes it.
fn one_shift(both: &mut Both<MemStore, Plain>) -> Result<(), Fail> {
    let _ = ask(both, FIRST_DAY, Request::OpenShift(operator(b"ann")?))??;
    let _ = ask(both, FIRST_DAY, Request::CloseShift(operator(b"ann")?))??;
    Ok(())
}

#[test]
fn three_hundred_shifts(rt: HostRuntime) -> Result<(), Fail> {
    let mut both = in_memory(rt.alloc())?;
    for _ in 0..300 {
        one_shift(&mut both)?;
    }
    agree(&mut both)
}

const TOMORROW: i64 = FIRST_DAY + 86_400;

fn from_tomorrow(alloc: Global, text: &[u8]) -> Result<Request, Fail> {
    let steps = Steps::of_text(alloc, text)?;
    let day = day_of(moment(TOMORROW)?);
    Ok(Request::AddSteps(tariff_name(b"block")?, day, steps))
}

// Eight steps are stored, and are there when they come again; others are refused. A sale of
// tomorrow goes by them.
#[test]
fn eight_dated_steps(rt: HostRuntime) -> Result<(), Fail> {
    let alloc = rt.alloc();
    let mut both = office(alloc, Base::Y2014, flat(alloc, 100)?)?;
    for _ in 0..2 {
        let eight = from_tomorrow(alloc, b"1:10;2:20;3:30;4:40;5:50;6:60;7:70;:80")?;
        let _ = ask(&mut both, FIRST_DAY, eight)??;
    }
    let other = from_tomorrow(alloc, b"1:10;2:20;3:30;4:40;5:50;6:60;7:70;:81")?;
    assert!(rt; ask(&mut both, FIRST_DAY, other)?.is_err());
    // 1 + 2 + ... + 7 cents for the first seven tenths, and 8 for the eighth.
    let sale = sold(&mut both, TOMORROW, order(b"A-1", METER, 36)?)?;
    assert_eq!(rt; (sale.tenths.tenths(), sale.price), (8, 36));
    agree(&mut both)
}

// They are withdrawn as one list, and others of that day are stored then.
#[test]
fn eight_dated_steps_withdrawn(rt: HostRuntime) -> Result<(), Fail> {
    let alloc = rt.alloc();
    let mut both = office(alloc, Base::Y2014, flat(alloc, 100)?)?;
    let eight = from_tomorrow(alloc, b"1:10;2:20;3:30;4:40;5:50;6:60;7:70;:80")?;
    let _ = ask(&mut both, FIRST_DAY, eight)??;
    let withdrawal = Request::WithdrawSteps(tariff_name(b"block")?, day_of(moment(TOMORROW)?));
    let withdrawn = ask(&mut both, FIRST_DAY, withdrawal)??;
    assert!(rt; matches!(withdrawn, Answer::Withdrawn(1)));
    let _ = ask(&mut both, FIRST_DAY, from_tomorrow(alloc, b":50")?)??;
    let sale = sold(&mut both, TOMORROW, order(b"A-1", METER, 40)?)?;
    assert_eq!(rt; (sale.tenths.tenths(), sale.price), (8, 40));
    agree(&mut both)
}
