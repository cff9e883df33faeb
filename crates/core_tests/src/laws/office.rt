//! The laws of an office and of its rows.
ghost use Rattle.std.specs.Prelude.{◌≡◌, ◌++◌, ℕ, List, IfOk, codes, decimal, true};
ghost use Rattle.papers.specs.Text.{line};
ghost use Rattle.vend_core.specs.Lists.{office_of};

use crate::laws::lived::{Sold, sold_once};
use office_lines::values::{FIRST_DAY, METER, meter, meter_no, moment};
use office_rules::{Answer, Meter, MeterNo, Request, Sale, Stamped};
use papers::{report_law, shift_report};
use std::alloc::Global;
use std::test::Fail;
use sts_fields::{Base, LAST_TID, Moment};
use sts_token::{BlockTransform, Demo, Fields, token_law, write};
use vend_core::{history_law, office_law, reached_law};

// The base of the sale is one that its meter had.
fn sold_under_its_base<T: BlockTransform + Drop>(
    alloc: Global,
    transform: T,
    moment: Moment,
    number: MeterNo,
    meter: Meter,
) -> Result<Sold<T>, Fail>
    ensures { IfOk result (λ sold.
        (office_of sold.lists).bases sold.sale.meter sold.sale.base ≡ true) }
{
    office_law();
    let sold = sold_once(alloc, transform, moment, number, meter)?;
    Ok(sold)
}

#[test]
fn a_sale_under_a_base_of_its_meter(rt: HostRuntime) -> Result<(), Fail> {
    let (at, number) = (moment(FIRST_DAY)?, meter_no(METER)?);
    let on_flat = meter(Base::Y2014, b"flat")?;
    let sold = sold_under_its_base(rt.alloc(), Demo, at, number, on_flat)?;
    assert_eq!(rt; sold.sale.base, Base::Y2014);
    Ok(())
}

// The token of the sale's fields, written anew with the meter's key.
fn written_again<T: BlockTransform + Copy>(
    alloc: Global,
    transform: T,
    moment: Moment,
    number: MeterNo,
    meter: Meter,
) -> Result<(Sale, [u8; 20]), Fail>
    ensures { IfOk result (λ told. told.1 ≡ told.0.digits) }
{
    reached_law();
    token_law();
    let sale = sold_once(alloc, transform, moment, number, meter)?.sale;
    if sale.rnd > 15 || sale.tid > LAST_TID {
        return Err("beyond the fields of a token".into());
    }
    let fields = Fields {
        rnd: sale.rnd,
        tid: sale.tid,
        amount: sale.tenths,
    };
    Ok((sale, write(&transform, meter.key, fields)))
}

#[test]
fn the_token_of_a_sale(rt: HostRuntime) -> Result<(), Fail> {
    let (at, number) = (moment(FIRST_DAY)?, meter_no(METER)?);
    let on_flat = meter(Base::Y2014, b"flat")?;
    let (sale, written) = written_again(rt.alloc(), Demo, at, number, on_flat)?;
    assert_eq!(rt; written, sale.digits);
    Ok(())
}

/// A sale, and the report of its shift as it is printed.
#[derive(Drop)]
struct Report {
    sale: Sale,
    text: Vec<u8>,
}

// An office of one shift and one sale: the report of the shift ends with the price of the sale.
fn reported<T: BlockTransform + Drop>(
    alloc: Global,
    transform: T,
    moment: Moment,
    number: MeterNo,
    meter: Meter,
) -> Result<Report, Fail>
    ensures { IfOk result (λ it. (front : List ℕ)
        × (it.text.items ≡ front ++ line (codes "CASH") (decimal it.sale.price))) }
{
    history_law();
    report_law();
    let Sold { mut lists, sale } = sold_once(alloc, transform, moment, number, meter)?;
    let shift = match lists.shifts() {
        [shift] => *shift,
        _ => return Err("not one shift".into()),
    };
    let at = Stamped {
        moment,
        nibble: 0,
        request: Request::ShiftReport(shift.number),
    };
    match lists.serve(&at) {
        Ok(Answer::Report(shift, sales)) => Ok(Report {
            sale,
            text: shift_report(alloc, &shift, sales.as_slice())?,
        }),
        _ => Err("no report".into()),
    }
}

#[test]
fn the_cash_of_a_shift(rt: HostRuntime) -> Result<(), Fail> {
    let (at, number) = (moment(FIRST_DAY)?, meter_no(METER)?);
    let on_flat = meter(Base::Y2014, b"flat")?;
    let it = reported(rt.alloc(), Demo, at, number, on_flat)?;
    assert_eq!(rt; it.sale.price, 50);
    assert!(rt; it.text.ends_with(b"\nCASH 50\n"));
    Ok(())
}
