//! The law of two offices of which neither knows of the other's sales.
ghost use Rattle.std.specs.Prelude.{◌≡◌, ◌+◌, ◌≤◌, IfOk, IsTrue, true};

use crate::laws::lived::sold_once;
use office_lines::plain::ask_all;
use office_lines::values::{FIRST_DAY, METER, meter, meter_no, moment};
use office_rules::{Meter, MeterNo, Sale};
use std::alloc::Global;
use std::test::Fail;
use sts_fields::{Base, Moment};
use sts_token::{BlockTransform, Demo, Plain};
use vend_core::{Lists, apart_law};

// 1,441 minutes.
const APART: i64 = 86_460;

fn are_apart(early: &Sale, late: &Sale) -> bool
    ensures { IsTrue result → early.now.moment + 86460 ≤ late.now.moment }
{
    late.moment.secs() - early.moment.secs() >= APART
}

// Two offices sell to a meter, so long after one another: whether the later identifier is greater.
fn rises_in_another_office<T: BlockTransform + Drop, U: BlockTransform + Drop>(
    alloc: Global,
    transforms: (T, U),
    moments: (Moment, Moment),
    number: MeterNo,
    meter: Meter,
) -> Result<bool, Fail>
    ensures { IfOk result (λ rises. rises ≡ true) }
{
    apart_law();
    let early = sold_once(alloc, transforms.0, moments.0, number, meter)?.sale;
    let late = sold_once(alloc, transforms.1, moments.1, number, meter)?.sale;
    if are_apart(&early, &late) {
        Ok(early.tid < late.tid)
    } else {
        Err("not so far apart".into())
    }
}

// The identifier of the last sale of an office that was asked these requests.
fn last_tid(alloc: Global, lines: &str) -> Result<u32, Fail> {
    let mut lists = Lists::new(alloc, Plain);
    ask_all(alloc, &mut lists, lines)?;
    match lists.sales() {
        [.., last] => Ok(last.tid),
        [] => Err("no sale".into()),
    }
}

// The clock is set back by 1,439 minutes to the first second of a minute.
const AHEAD: &str = "\
1388535000 add-tariff flat :100
1388535000 add-meter 12345678903 2014 flat 0000000000000000
1388535000 open-shift ann
1388621340 sell ann A-1 12345678903 10
1388535000 sell ann A-2 12345678903 10";

// 86,459 seconds later.
const BEHIND: &str = "\
1388535000 add-tariff flat :100
1388535000 add-meter 12345678903 2014 flat 0000000000000000
1388535000 open-shift ann
1388621459 sell ann A-1 12345678903 10";

#[test]
fn one_second_less_is_not_enough(rt: HostRuntime) -> Result<(), Fail> {
    assert_eq!(rt; last_tid(rt.alloc(), AHEAD)?, 1_450);
    assert_eq!(rt; last_tid(rt.alloc(), BEHIND)?, 1_450);
    Ok(())
}

#[test]
fn two_offices(rt: HostRuntime) -> Result<(), Fail> {
    let alloc = rt.alloc();
    let moments = (moment(FIRST_DAY)?, moment(FIRST_DAY + APART)?);
    let on_flat = meter(Base::Y2014, b"flat")?;
    let rises = rises_in_another_office(alloc, (Demo, Plain), moments, meter_no(METER)?, on_flat)?;
    assert!(rt; rises);
    Ok(())
}
