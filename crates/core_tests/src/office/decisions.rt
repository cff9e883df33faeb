//! An office that is nearly full.
use office_decisions::decide;
use office_lines::values::{FIRST_DAY, METER, flat, meter, moment, operator, order, stamped};
use office_rules::{Answer, Facts, MeterAccount, Refusal, Shift};
use std::alloc::Global;
use std::test::Fail;
use sts_fields::Base;
use sts_token::Plain;

// The number of the sale that is decided where there are so many, or the refusal.
fn next_sale(alloc: Global, sale_count: u64) -> Result<Result<u32, Refusal>, Fail> {
    let facts = Facts {
        open_shift: Some(Shift {
            number: 1,
            operator: operator(b"ann")?,
            opened: moment(FIRST_DAY)?,
            closed: None,
        }),
        account: Some(MeterAccount {
            meter: meter(Base::Y2014, b"flat")?,
            steps: flat(alloc, 100)?,
            last: None,
            prior: 0,
        }),
        sale_count,
        ..Facts::none()
    };
    let at = stamped(FIRST_DAY, 0, order(b"A-1", METER, 100)?)?;
    let decided = decide(alloc, &Plain, &facts, &at);
    match &decided {
        Ok(change) => Ok(Ok(number_sold(&change.answer)?)),
        Err(refusal) => Ok(Err(*refusal)),
    }
}

fn number_sold(answer: &Answer) -> Result<u32, Fail> {
    match answer {
        Answer::Sold(sale) => Ok(sale.number),
        _ => Ok(None.ok_or("not sold")?),
    }
}

#[test]
fn the_last_sale(rt: HostRuntime) -> Result<(), Fail> {
    assert_eq!(rt; next_sale(rt.alloc(), 999_999_999)?, Ok(1_000_000_000));
    assert_eq!(rt;
        next_sale(rt.alloc(), 1_000_000_000)?,
        Err(Refusal::OfficeFull)
    );
    Ok(())
}
