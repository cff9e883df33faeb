//! The laws of the simulated meter.
ghost use Rattle.std.specs.Prelude.{◌≡◌, IfOk, IfSome, false};
ghost use Rattle.sim_meter.specs.Meter.{is_accepted};

use crate::laws::lived::sold_once;
use office_lines::values::{FIRST_DAY, METER, meter_no, moment, tariff_name};
use office_rules::{Meter, MeterNo, Sale};
use sim_meter::Answer;
use std::alloc::Global;
use std::test::Fail;
use sts_fields::{Amount, Base, LAST_TID, Moment};
use sts_token::{BlockTransform, Demo, Fields, meter_law, write};
use vend_core::credited_law;

const KEY: u64 = 0x0123_4567_89AB_CDEF;

/// A sale whose token was entered twice into a meter: both answers, and the credit then.
#[derive(Drop)]
struct Entered {
    sale: Sale,
    first: Answer,
    again: Answer,
    credit: u64,
}

// An office sells, and the token is entered into a meter with its transform and with the key that
// it has for the meter.
fn sold_and_entered<T: BlockTransform + Copy>(
    alloc: Global,
    transform: T,
    moment: Moment,
    number: MeterNo,
    meter: Meter,
) -> Result<Entered, Fail>
    ensures first { IfOk result (λ it. it.first ≡ Answer.Accepted it.sale.tenths) }
    ensures again { IfOk result (λ it. is_accepted it.again ≡ false) }
    ensures credit { IfOk result (λ it. it.credit ≡ it.sale.tenths) }
{
    credited_law();
    let sale = sold_once(alloc, transform, moment, number, meter)?.sale;
    let mut simulated = sim_meter::Meter::new(transform, meter.key);
    let first = simulated.enter(&sale.digits);
    let again = simulated.enter(&sale.digits);
    let credit = simulated.credit();
    Ok(Entered {
        sale,
        first,
        again,
        credit,
    })
}

#[test]
fn a_sale_is_credited_once(rt: HostRuntime) -> Result<(), Fail> {
    let (at, number) = (moment(FIRST_DAY)?, meter_no(METER)?);
    let keyed = Meter {
        base: Base::Y2014,
        tariff: tariff_name(b"flat")?,
        key: KEY,
    };
    let it = sold_and_entered(rt.alloc(), Demo, at, number, keyed)?;
    assert_eq!(rt; it.first, Answer::Accepted(it.sale.tenths));
    assert_eq!(rt; it.again, Answer::Used);
    assert_eq!(rt; it.sale.tenths.tenths(), 5);
    assert_eq!(rt; it.credit, 5);
    Ok(())
}

/// What a meter answers to a token of this amount twice.
#[derive(Drop)]
struct Twice {
    amount: Amount,
    first: Answer,
    again: Answer,
}

// A token is written and entered twice into a new meter of the key that it was written with. There
// is none of these fields where one of them is out of range.
fn written_and_entered<T: BlockTransform + Copy>(
    transform: T,
    key: u64,
    rnd: u8,
    tid: u32,
    amount: Amount,
) -> Option<Twice>
    ensures first { IfSome result (λ it. it.first ≡ Answer.Accepted it.amount) }
    ensures again { IfSome result (λ it. is_accepted it.again ≡ false) }
{
    meter_law();
    let _tenths = amount.tenths();
    if rnd > 15 || tid == 0 || tid > LAST_TID {
        return None;
    }
    let digits = write(&transform, key, Fields { rnd, tid, amount });
    let mut meter = sim_meter::Meter::new(transform, key);
    let first = meter.enter(&digits);
    let again = meter.enter(&digits);
    Some(Twice {
        amount,
        first,
        again,
    })
}

#[test]
fn a_token_is_accepted_once(rt: HostRuntime) -> Result<(), Fail> {
    let amount = Amount::of_tenths(100).ok_or("representable")?;
    let twice = written_and_entered(Demo, KEY, 5, 7_654_321, amount).ok_or("out of range")?;
    assert_eq!(rt; twice.first, Answer::Accepted(amount));
    assert_eq!(rt; twice.again, Answer::Used);
    Ok(())
}
